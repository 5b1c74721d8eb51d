//! Names as reports show them: without control characters, U+FFFE and U+FFFF.

ghost use Rattle.std.specs.Prelude.{◌≡◌, ◌++◌, ◌∷◌, [], IfOk};
ghost use Rattle.fb_expect.specs.Shown as spec;

use std::alloc::{AllocError, Global};

/// How many bytes a character has if it is U+FFFE or U+FFFF; 0 if it is another. Its first bytes are `first` and `second`.
fn hidden_three(first: u8, second: u8, rest: &[u8]) -> usize
    ensures { result ≡ spec.hidden_three first second rest.now }
{
    let [third, ..] = rest else {
        return 0;
    };
    if first == 0xEF && second == 0xBF && 0xBE <= *third {
        3
    } else {
        0
    }
}

/// The same, or if it is a control character from U+0080 to U+009F.
fn hidden_two(first: u8, rest: &[u8]) -> usize
    ensures { result ≡ spec.hidden_two first rest.now }
{
    let [second, after @ ..] = rest else {
        return 0;
    };
    if first == 0xC2 && 0x80 <= *second && *second <= 0x9F {
        2
    } else {
        hidden_three(first, *second, after)
    }
}

/// The same, or if it is a control character of one byte.
fn hidden_by(first: u8, rest: &[u8]) -> usize
    ensures { result ≡ spec.hidden_by first rest.now }
{
    if first < 32 || first == 127 {
        1
    } else {
        hidden_two(first, rest)
    }
}

/// What a byte is shown as that begins a character of so many bytes to be hidden, or of none.
fn shown_byte(hidden: usize, byte: u8) -> u8
    ensures { result ≡ spec.shown_byte hidden byte }
{
    if hidden == 0 { byte } else { b'?' }
}

/// A text with a question mark for each control character, U+FFFE and U+FFFF.
pub(crate) fn shown(alloc: Global, part: &[u8]) -> Result<Vec<u8>, AllocError>
    ensures { IfOk result (λ t. t.items ≡ spec.shown part.now) }
{
    let mut text = Vec::with_capacity(alloc, part.len())?;
    let mut skipped: usize = 0;
    for index in 0..part.len() {
        if skipped == 0 {
            let hidden = hidden_by(part[index], &part[index + 1..]);
            text.push(shown_byte(hidden, part[index]))?;
            skipped = hidden.saturating_sub(1);
        } else {
            skipped -= 1;
        }
    }
    Ok(text)
}
