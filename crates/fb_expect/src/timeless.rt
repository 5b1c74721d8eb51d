//! Lines without their ticks.

ghost use Rattle.std.specs.Prelude.{◌≡◌, ◌^◌, ◌-◌, option_map};
ghost use Rattle.fb_expect.specs.Timeless as spec;

use crate::number::{is_number, magnitude};
use crate::words::{after_front, cut};

/// What comes after the first word of a text and the blank after it, if the word is a number.
fn after_number(text: &[u8]) -> Option<&[u8]>
    ensures { option_map (λ t. t.now) result ≡ spec.after_number text.now }
{
    let (digits, rest) = cut(text)?;
    if is_number(digits, u128::MAX) {
        after_front(rest, b" ")
    } else {
        None
    }
}

/// What comes after three numbers.
fn after_key(text: &[u8]) -> Option<&[u8]>
    ensures { option_map (λ t. t.now) result ≡ spec.after_key text.now }
{
    after_number(after_number(after_number(text)?)?)
}

/// The text from the tick on: after the first word of a last line, after the key of form two, or the whole.
#[tactic(auto, unfolding(crate::specs::Timeless::from_tick))]
fn from_tick(line: &[u8]) -> &[u8]
    ensures { result.now ≡ spec.from_tick line.now }
{
    if let Some(rest) = after_front(line, b"end ") {
        return rest;
    }
    if let Some(rest) = after_front(line, b"stop ") {
        return rest;
    }
    match after_key(line) {
        Some(rest) => rest,
        None => line,
    }
}

/// What is before the tick of a line, and what is after it. All of a line without a tick is before it.
#[tactic(auto, unfolding(crate::specs::Timeless::without_tick))]
pub(crate) fn without_tick(line: &[u8]) -> (&[u8], &[u8])
    ensures { (result.0.now, result.1.now) ≡ spec.without_tick line.now }
{
    let from = from_tick(line);
    let Some((digits, rest)) = cut(from) else {
        return (line, b"");
    };
    if magnitude(digits).is_none() {
        return (line, b"");
    }
    (&line[..line.len().saturating_sub(from.len())], rest)
}
