//! Pieces of texts: numbers, values, names, and parts of a line.

ghost use Rattle.std.specs.Prelude.{◌≡◌, ◌<◌, ◌++◌, OnOk, decimal, string_bytes};
ghost use Rattle.fb_types.specs.Text.{value_text};
ghost use Rattle.fb_inspect.specs.refused.Messages as spec;

use fb_types::Value;
use std::alloc::AllocError;

/// The most bytes of a part of a line that are shown.
const MOST_SHOWN: usize = 60;

/// The byte as it is shown: a question mark for all but printable ASCII characters.
fn shown(byte: u8) -> u8
    ensures is { result ≡ spec.shown_byte byte }
    ensures ascii { result < 128 }
{
    if byte < b' ' || b'~' < byte {
        b'?'
    } else {
        byte
    }
}

/// Adds a number.
pub(crate) fn put_number(text: &mut String, number: u64) -> Result<(), AllocError>
    ensures { OnOk result (string_bytes text.new ≡ string_bytes text.old ++ decimal number) }
{
    write!(text, "{number}")
}

/// Adds a value, as a trace has it.
pub(crate) fn put_value(text: &mut String, value: Value) -> Result<(), AllocError>
    ensures { OnOk result (string_bytes text.new ≡ string_bytes text.old ++ value_text value) }
{
    match value {
        Value::Bool(true) => text.push_str("TRUE"),
        Value::Bool(false) => text.push_str("FALSE"),
        Value::Whole(number) => write!(text, "{number}"),
    }
}

/// Adds a name of the system, or a part of a line.
pub(crate) fn put_shown(text: &mut String, bytes: &[u8]) -> Result<(), AllocError>
    ensures { OnOk result (string_bytes text.new ≡ string_bytes text.old ++ spec.shown bytes.now) }
{
    for byte in bytes {
        text.push(char::from(shown(*byte)))?;
    }
    Ok(())
}

/// Adds a part of a line between quotes, up to a limit.
pub(crate) fn put_quoted(text: &mut String, part: &[u8]) -> Result<(), AllocError>
    ensures { OnOk result (string_bytes text.new ≡ string_bytes text.old ++ spec.quoted part.now) }
{
    text.push_str("\"")?;
    if part.len() > MOST_SHOWN {
        let front = &part[..MOST_SHOWN];
        put_shown(text, front)?;
        text.push_str("\"..")
    } else {
        put_shown(text, part)?;
        text.push_str("\"")
    }
}

/// Adds words, and a part of a line between quotes.
pub(crate) fn put_unknown(text: &mut String, words: &str, part: &[u8]) -> Result<(), AllocError>
    ensures { OnOk result (string_bytes text.new ≡ string_bytes text.old ++ (words.now ++ spec.quoted part.now)) }
{
    text.push_str(words)?;
    put_quoted(text, part)
}

/// Adds a part of a line between quotes, and words.
pub(crate) fn put_known(text: &mut String, part: &[u8], words: &str) -> Result<(), AllocError>
    ensures { OnOk result (string_bytes text.new ≡ string_bytes text.old ++ (spec.quoted part.now ++ words.now)) }
{
    put_quoted(text, part)?;
    text.push_str(words)
}
