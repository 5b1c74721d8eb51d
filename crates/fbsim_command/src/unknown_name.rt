//! The line for an option that names something that there is not.

ghost use Rattle.std.specs.Prelude.{◌≡◌, IfOk, option_map, string_bytes};
ghost use Rattle.fbsim_command.specs.UnknownNames as spec;

use crate::failure::{Failure, RefusalLine};
use crate::shown::shown_name;
use crate::statuses::Done;
use std::alloc::{AllocError, Global};

/// The number of the refusal of an unknown name.
pub(crate) const UNKNOWN: u8 = 21;

/// Whether a call ends because a name is unknown.
pub(crate) fn is_unknown(end: &Result<Done, Failure>) -> bool
    ensures { result ≡ spec.is_unknown end.now }
{
    match end {
        Err(Failure::Refused(RefusalLine::Numbered(number))) => *number == UNKNOWN,
        _ => false,
    }
}

/// A byte of a name, as it is shown: one that is no printable ASCII character is shown as a question mark.
fn shown_byte(byte: u8) -> char
    ensures { result ≡ spec.shown_byte byte }
{
    if 31 < byte && byte < 127 {
        char::from(byte)
    } else {
        '?'
    }
}

/// The bytes of a name, as they are shown.
pub(crate) fn shown_bytes(alloc: Global, name: &[u8]) -> Result<String, AllocError>
    ensures { IfOk result (λ text. string_bytes text ≡ spec.shown_bytes name.now) }
{
    name.iter().map(|byte| shown_byte(*byte)).collect(alloc)
}

/// What is said of the nearest name, if there is one.
pub(crate) fn nearest_words(alloc: Global, near: Option<&[u8]>) -> Result<String, AllocError>
    ensures { IfOk result (λ words. string_bytes words ≡ spec.nearest_words (option_map (λ n. n.now) near.entry)) }
{
    let Some(name) = near else {
        return Ok(String::new(alloc));
    };
    let name = shown_bytes(alloc, name)?;
    Ok(format!(in alloc; " (the nearest name is {name})")?)
}

/// The line for an option of this name: nothing of a kind has the name that it gives. This is the nearest name, if there
/// is one.
pub(crate) fn unknown_line(
    alloc: Global,
    option: &str,
    kind: &str,
    name: &str,
    near: Option<&[u8]>,
) -> Result<String, AllocError>
    ensures { IfOk result (λ line. string_bytes line ≡ spec.unknown_line option.now kind.now name.now (option_map (λ n. n.now) near.entry)) }
{
    let near = nearest_words(alloc, near)?;
    let name = shown_name(alloc, name)?;
    Ok(format!(in alloc; "--{option}: E21: there is no {kind} {name}{near}")?)
}
