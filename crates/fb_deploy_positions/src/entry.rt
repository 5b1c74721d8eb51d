//! The entries of tables: keys with their values.

ghost use Rattle.std.specs.Prelude.{◌≡◌, ◌<◌, ◌==◌, length, IfOk, option_map, slice_get};
ghost use Rattle.fb_deploy_positions.specs.Entries as spec;
ghost use Rattle.fb_deploy_positions.specs.Values.{items_of};
ghost use Rattle.fb_deploy_positions.specs.Results.{Answers};
ghost use Rattle.fb_deploy_positions.specs.Views.{entry_view, statements_view};

use crate::keys::key_len;
use crate::search::{Wanted, find, inline_element};
use crate::statement::Statement;
use crate::values::{Member, item_at, member_named};
use fb_inputs::TableLocation;
use fb_read::token::Span;
use std::alloc::{AllocError, Global};
use toml_parser::RECURSION_LIMIT;

/// A key with its value.
#[derive(Drop)]
pub(crate) enum Entry<'s, 'a> {
    /// A statement of the document.
    Statement(&'s Statement<'a>),
    /// A key of an inline table, which is an element of an array of the document.
    Member(Member<'a>),
}

/// The key of the array that a table is in, and the table's index there.
pub(crate) fn array_of(table: TableLocation) -> Option<(&'static str, usize)>
    ensures { option_map (λ a. (a.0.now, a.1)) result ≡ spec.array_of table }
{
    match table {
        TableLocation::Top => None,
        TableLocation::Resource(index) => Some(("resource", index)),
        TableLocation::Link(index) => Some(("link", index)),
    }
}

/// The key with this name of an element of an array.
fn array_entry<'s, 'a>(
    alloc: Global,
    statements: &'s [Statement<'a>],
    array: &str,
    index: usize,
    name: &str,
) -> Result<Option<Entry<'s, 'a>>, AllocError>
    ensures { Answers entry_view result (spec.array_entry (statements_view statements.now) name.now (array.now, index)) }
{
    if let Some(statement) = find(statements, Wanted::ElementEntry(array, index, name)) {
        return Ok(Some(Entry::Statement(statement)));
    }
    let Some(element) = inline_element(statements, array, index) else {
        return Ok(None);
    };
    match member_named(alloc, element, RECURSION_LIMIT - 1, name)? {
        Some(member) => Ok(Some(Entry::Member(member))),
        None => Ok(None),
    }
}

/// The key with this name in a table.
pub(crate) fn entry_in<'s, 'a>(
    alloc: Global,
    statements: &'s [Statement<'a>],
    table: TableLocation,
    name: &str,
) -> Result<Option<Entry<'s, 'a>>, AllocError>
    ensures { Answers entry_view result (spec.entry_in (statements_view statements.now) name.now (spec.array_of table)) }
{
    match array_of(table) {
        Some((array, index)) => array_entry(alloc, statements, array, index, name),
        None => match find(statements, Wanted::TopEntry(name)) {
            Some(statement) => Ok(Some(Entry::Statement(statement))),
            None => Ok(None),
        },
    }
}

impl<'s, 'a> Entry<'s, 'a> {
    /// The text that begins with the key, or with the heading.
    fn begin(&self) -> &'a str
        ensures { result.now ≡ (entry_view self.now).begin }
    {
        match self {
            Entry::Statement(statement) => statement.begin,
            Entry::Member(member) => member.begin,
        }
    }

    /// The text that begins with the key.
    fn name(&self) -> &'a str
        ensures { result.now ≡ (entry_view self.now).name }
    {
        match self {
            Entry::Statement(statement) => statement.name,
            Entry::Member(member) => member.begin,
        }
    }

    /// The bytes of the key, or of the heading up to the end of its key.
    pub(crate) fn span(&self, alloc: Global, text: &[u8]) -> Result<Span, AllocError>
        ensures { IfOk result (λ s. s ≡ spec.key_span text.now (entry_view self.now)) }
    {
        let name = self.name();
        let len = key_len(alloc, name)?;
        Ok(Span {
            start: offset(text, self.begin()),
            end: offset(text, name) + len,
        })
    }

    /// The text that begins with the element with this index of the array at the key.
    fn item(&self, alloc: Global, index: usize) -> Result<Option<&'a str>, AllocError>
        ensures { Answers (λ r. r.now) result (slice_get (items_of (entry_view self.now).depth (entry_view self.now).value) index) }
    {
        match self {
            Entry::Statement(statement) => Ok(statement.items.get(index).copied()),
            Entry::Member(member) => item_at(alloc, member.value, RECURSION_LIMIT - 2, index),
        }
    }

    /// Whether the key has one part.
    fn is_single(&self) -> bool
        ensures { result ≡ (length (entry_view self.now).key.0 == 0) }
    {
        match self {
            Entry::Statement(statement) => statement.key.path.is_empty(),
            Entry::Member(member) => member.key.path.is_empty(),
        }
    }

    /// The byte that begins the element with this index of the array at the key.
    pub(crate) fn element_span(
        &self,
        alloc: Global,
        text: &[u8],
        index: usize,
    ) -> Result<Option<Span>, AllocError>
        ensures { IfOk result (λ o. o ≡ spec.element_of text.now (entry_view self.now) index) }
    {
        if !self.is_single() {
            return Ok(None);
        }
        match self.item(alloc, index)? {
            Some(item) => Ok(Some(bytes_at(text, item, 1))),
            None => Ok(None),
        }
    }
}

/// Where a text begins that is an end of the whole.
pub(crate) fn offset(text: &[u8], end: &str) -> usize
    ensures { result ≡ spec.offset text.now end.now }
{
    text.len().saturating_sub(end.len())
}

/// The first bytes of a text that is an end of the whole.
pub(crate) fn bytes_at(text: &[u8], end: &str, len: usize) -> Span
    requires { len < 3 }
    ensures { result ≡ spec.bytes_at text.now end.now len }
{
    let start = offset(text, end);
    Span {
        start,
        end: start + len,
    }
}
