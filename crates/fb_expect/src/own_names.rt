//! Whether each rule has a name of its own.

ghost use Rattle.std.specs.Prelude.{◌≡◌, IfSome, is_some, map, not};
ghost use Rattle.fb_expect.specs.Drafts.{text_of};
ghost use Rattle.fb_expect.specs.OwnNames as spec;

use crate::document::Draft;

/// Whether one of these rules has a name.
fn has_name(drafts: &[Draft<'_>], name: &str) -> bool
    ensures { result ≡ spec.has_name name.now (map text_of drafts.now) }
{
    for draft in drafts {
        if draft.name == name {
            return true;
        }
    }
    false
}

/// The first rule with the name of a rule before it, counted from 0.
pub(crate) fn second_of_name(drafts: &[Draft<'_>]) -> Option<usize>
    ensures second { IfSome result (spec.IsSecond (map text_of drafts.now)) }
    ensures exact { is_some result ≡ not (spec.have_own_names (map text_of drafts.now)) }
{
    for index in 0..drafts.len() {
        if has_name(&drafts[..index], drafts[index].name) {
            return Some(index);
        }
    }
    None
}
