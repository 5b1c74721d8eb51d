//! Names in lists.

ghost use Rattle.std.specs.Prelude.{◌≡◌};
ghost use Rattle.fb_types.specs.Blocks.{among};
ghost use Rattle.fb_types.specs.Names.{same_name};
ghost use Rattle.fb_lint.specs.Findings.{names_are};
ghost use Rattle.fb_lint.specs.Charts as spec;

use fb_types::Name;

/// Whether a list has the name.
pub(crate) fn is_among(names: &[Name], name: &Name) -> bool
    ensures { result ≡ among names.now name.now }
{
    for listed in names {
        if name.is(listed) {
            return true;
        }
    }
    false
}

/// Whether a list of borrowed names has the name.
pub(crate) fn is_listed(names: &[&Name], name: &Name) -> bool
    ensures { result ≡ among (names_are names.now) name.now }
{
    for listed in names {
        if name.is(listed) {
            return true;
        }
    }
    false
}

/// Whether a name that may be left out is this one.
pub(crate) fn is_named(name: &Name, given: &Option<Name>) -> bool
    ensures { result ≡ spec.is_named name.now given.now }
{
    match given {
        Some(given) => name.is(given),
        None => false,
    }
}

/// Whether a name is the text, which is in upper case.
pub(crate) fn is_called(name: &Name, text: &str) -> bool
    ensures { result ≡ same_name text.now name.now }
{
    text.as_bytes() == name.as_bytes()
}
