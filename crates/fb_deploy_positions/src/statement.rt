//! The statements of a document.

ghost use Rattle.std.specs.Prelude.{◌≡◌, map};
ghost use Rattle.toml_parser.specs.Strings.{recursion_limit};
ghost use Rattle.fb_deploy_positions.specs.Entries as spec;
ghost use Rattle.fb_deploy_positions.specs.Entries.{name_of};
ghost use Rattle.fb_deploy_positions.specs.Values.{items_of};

use toml_parser::Key;

/// What a statement of a document is.
#[derive(Clone, Copy)]
pub enum Kind {
    /// The heading of an element of an array of tables.
    Element,
    /// The heading of a table.
    Table,
    /// A key with its value.
    Key,
}

/// A statement of a document, by the ends of the text that begin with its parts.
#[derive(Drop)]
pub(crate) struct Statement<'a> {
    pub(crate) kind: Kind,
    pub(crate) key: Key,
    /// It begins with the statement.
    pub(crate) begin: &'a str,
    /// It begins with the key.
    pub(crate) name: &'a str,
    /// It begins with the value. A heading has none.
    pub(crate) value: &'a str,
    /// They begin with the elements of the value, if it is an array.
    pub(crate) items: Vec<&'a str>,
    ghost named: { name.now ≡ name_of kind begin.now },
    ghost parts: { map (λ r. r.now) items.items ≡ items_of recursion_limit value.now },
}

/// Whether it is a key.
pub(crate) fn is_key(kind: Kind) -> bool
    ensures { result ≡ spec.is_key kind }
{
    match kind {
        Kind::Key => true,
        _ => false,
    }
}

/// Whether it is the heading of an element of an array.
pub(crate) fn is_element(kind: Kind) -> bool
    ensures { result ≡ spec.is_element kind }
{
    match kind {
        Kind::Element => true,
        _ => false,
    }
}
