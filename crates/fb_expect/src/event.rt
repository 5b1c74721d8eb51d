//! Lines of events.

ghost use Rattle.std.specs.Prelude.{◌≡◌, ◌≤◌, ◌++◌, codes, IfSome, List, Some, ℕ, nat_eq, option_map};
ghost use Rattle.std.specs.List.{list_all, slice_split};
ghost use Rattle.fb_expect.specs.Events.{Event, IsHead, IsKeyText, IsLine, IsNumberText, IsPortText, IsStart, event_of, side_text};
ghost use Rattle.fb_expect.specs.LineReading as reading;
ghost use Rattle.fb_expect.specs.Words as spec;

use crate::entry::Entry;
use crate::names::{is_name, is_port};
use crate::number::{is_number, magnitude, value_of};
use crate::words::{after_front, before, cut, split_at_mark};
use fb_types::Form;

/// The greatest class of a key that 8 bits have.
const MOST_CLASS: u128 = 255;

/// What comes after a number that is at most `most`, and a blank.
#[tactic(auto, unfolding(crate::specs::LineReading::after_number))]
fn after_number(text: &[u8], most: u128) -> Option<&[u8]>
    requires { 9 ≤ most }
    ensures parts { IfSome result (λ rest. (head : List ℕ) × IsNumberText most head × (text.now ≡ head ++ rest.now)) }
    ensures exact { option_map (λ rest. rest.now) result ≡ reading.after_number most text.now }
{
    let (digits, rest) = cut(text)?;
    if is_number(digits, most) {
        after_front(rest, b" ")
    } else {
        None
    }
}

/// What comes after the key that a line in form two begins with.
#[tactic(auto, unfolding(crate::specs::LineReading::after_key))]
fn after_key(text: &[u8]) -> Option<&[u8]>
    ensures parts { IfSome result (λ rest. (head : List ℕ) × IsKeyText head × (text.now ≡ head ++ rest.now)) }
    ensures exact { option_map (λ rest. rest.now) result ≡ reading.after_key text.now }
{
    let after_class = after_number(text, MOST_CLASS)?;
    let after_first = after_number(after_class, u128::MAX)?;
    after_number(after_first, u128::MAX)
}

/// What comes after that with which a line begins in a form.
fn after_head(form: Form, text: &[u8]) -> Option<&[u8]>
    ensures parts { IfSome result (λ rest. (head : List ℕ) × IsHead form head × (text.now ≡ head ++ rest.now)) }
    ensures exact { option_map (λ rest. rest.now) result ≡ reading.after_head form text.now }
{
    match form {
        Form::One => Some(text),
        Form::Two => after_key(text),
    }
}

/// The tick and the resource that a text begins with, and what comes after them.
#[tactic(auto, unfolding(crate::specs::LineReading::start_of))]
pub(crate) fn start_of(text: &[u8]) -> Option<(u64, &[u8], &[u8])>
    ensures parts { IfSome result (λ p. IsStart text.now p.0 p.1.now p.2.now) }
    ensures exact { option_map (λ p. (p.0, p.1.now, p.2.now)) result ≡ reading.start_of text.now }
{
    let (digits, rest) = cut(text)?;
    let tick = magnitude(digits)?;
    let (resource, rest) = cut(after_front(rest, b" ")?)?;
    if is_name(resource) {
        Some((tick, resource, rest))
    } else {
        None
    }
}

/// The side that a text begins with, and what comes after it.
#[tactic(auto, unfolding(crate::specs::LineReading::side_of))]
fn side_of(text: &[u8]) -> Option<(bool, &[u8])>
    ensures parts { IfSome result (λ p. text.now ≡ side_text p.0 ++ p.1.now) }
    ensures exact { option_map (λ p. (p.0, p.1.now)) result ≡ reading.side_of text.now }
{
    match after_front(text, b" > ") {
        Some(rest) => Some((true, rest)),
        None => Some((false, after_front(text, b" < ")?)),
    }
}

/// Whether a word is a name, an equals sign and a value.
#[tactic(auto, unfolding(crate::specs::Words::is_binding))]
fn is_binding(word: &[u8]) -> bool
    ensures { result ≡ spec.is_binding word.now }
{
    match split_at_mark(word, b'=') {
        Some((name, value)) => is_name(name) && value_of(value).is_some(),
        None => false,
    }
}

/// Whether what comes after a port is a blank and a binding for each value.
fn are_values(text: &[u8]) -> bool
    ensures { result ≡ spec.are_values text.now }
{
    match text {
        [blank, words @ ..] => *blank == b' ' && are_bindings(words),
        [] => true,
    }
}

/// Whether each of the words that blanks separate is a binding.
fn are_bindings(words: &[u8]) -> bool
    ensures { result ≡ list_all spec.is_binding (slice_split (nat_eq 32) words.now) }
{
    let mut rest = words;
    while let Some((word, after)) = split_at_mark(rest, b' ') {
        if !is_binding(word) {
            return false;
        }
        rest = after;
    }
    is_binding(rest)
}

/// The port that a text begins with, and the values between it and the line feed.
#[tactic(auto, unfolding(crate::specs::LineReading::port_of))]
fn port_of(text: &[u8]) -> Option<(&[u8], &[u8])>
    ensures parts { IfSome result (λ p. IsPortText text.now p.0.now p.1.now) }
    ensures exact { option_map (λ p. (p.0.now, p.1.now)) result ≡ reading.port_of text.now }
{
    let (port, rest) = cut(text)?;
    let values = before(rest, b"\n")?;
    if is_port(port) && are_values(values) {
        Some((port, values))
    } else {
        None
    }
}

/// The entry whose text in a form this is, read part by part.
#[tactic(auto, unfolding(crate::specs::LineReading::read_line))]
fn entry_of(form: Form, text: &[u8]) -> Option<Entry<'_>>
    ensures line { IfSome result (λ e. IsLine form text.now (event_of e)) }
    ensures exact { option_map event_of result ≡ reading.read_line form text.now }
{
    let (tick, resource, text) = start_of(after_head(form, text)?)?;
    let (taken, text) = side_of(text)?;
    let (port, values) = port_of(text)?;
    Some(Entry::of(tick, resource, taken, port, values))
}

/// The entry whose text in a form this is, with its line feed. The line is that of no other event, and without an entry
/// it is that of none.
pub fn read_entry(form: Form, text: &[u8]) -> Option<Entry<'_>>
    ensures line { IfSome result (λ e. IsLine form text.now (event_of e)) }
    ensures only { (e : Event) → IsLine form text.now e → option_map event_of result ≡ Some e }
{
    entry_of(form, text)
}
