//! The values of variables of a line, as they are compared with those of another line.

ghost use Rattle.std.specs.Prelude.{◌≡◌, option_map};
ghost use Rattle.fb_expect.specs.Pairing as spec;

use crate::words::{after_blank, split_at_mark};
use fb_types::Name;

/// The text after the equals sign of a word, if the word is of a variable.
#[tactic(auto, unfolding(crate::specs::Pairing::text_of))]
fn text_of<'a>(name: &Name, word: &'a [u8]) -> Option<&'a [u8]>
    ensures { option_map (λ t. t.now) result ≡ spec.text_of name.now word.entry.now }
{
    let (found, text) = split_at_mark(word, b'=')?;
    if found == name.as_bytes() {
        Some(text)
    } else {
        None
    }
}

/// The text of a variable's value among the values of a line.
fn text_at<'a>(name: &Name, values: &'a [u8]) -> Option<&'a [u8]>
    ensures { option_map (λ t. t.now) result ≡ spec.text_at name.now values.entry.now }
{
    let Some(mut rest) = after_blank(values) else {
        return None;
    };
    while let Some((word, after)) = split_at_mark(rest, b' ') {
        if let Some(text) = text_of(name, word) {
            return Some(text);
        }
        rest = after;
    }
    text_of(name, rest)
}

/// Whether two lines have equal values of a variable.
fn is_same(name: &Name, left: &[u8], right: &[u8]) -> bool
    ensures { result ≡ spec.is_same_text (spec.text_at name.now left.now) (spec.text_at name.now right.now) }
{
    match (text_at(name, left), text_at(name, right)) {
        (Some(left), Some(right)) => left == right,
        _ => false,
    }
}

/// Whether two lines have equal values of these variables.
pub(crate) fn are_same(names: &[Name], left: &[u8], right: &[u8]) -> bool
    ensures { result ≡ spec.are_same names.now left.now right.now }
{
    for name in names {
        if !is_same(name, left, right) {
            return false;
        }
    }
    true
}
