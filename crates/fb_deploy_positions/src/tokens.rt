//! Tokens of a document: what follows a string, another atom, an element and a key.

ghost use Rattle.std.specs.Prelude.{None, Some, ◌≡◌, ◌≤◌, ◌<◌, false, true, IfOk, IfSome, length, option_map};
ghost use Rattle.std.specs.List.{prefix_len};
ghost use Rattle.toml.specs.Parse as parse;
ghost use Rattle.toml_parser.specs.Reading.{key_view};
ghost use Rattle.toml_parser.specs.Strings as toml;
ghost use Rattle.toml_parser.specs.declared.error.ParseError.TheVariants.{OutOfMemory};
ghost use Rattle.fb_deploy_positions.specs.Values as spec;

use std::alloc::{AllocError, Global};
use toml_parser::bytes::is_non_eol;
use toml_parser::text::{byte_at, first, skip, skip_blank, skip_ws};
use toml_parser::{Key, ParseError, dotted_key, quoted, starts_string, unquoted};

/// Nothing is read after an error, unless it is that memory ran out.
fn refused<T>(error: ParseError) -> Result<Option<T>, AllocError>
    ensures { IfOk result (λ o. (o ≡ None) × (error ≡ OutOfMemory → ⊥)) }
{
    match error {
        ParseError::OutOfMemory => Err(AllocError),
        ParseError::At(_, _, _) => Ok(None),
    }
}

/// Whether a byte stands for itself in a string on one line between these delimiters.
fn is_plain(delim: u8, byte: u8) -> bool
    ensures { result ≡ toml.is_plain delim false byte }
{
    byte != delim && !(byte == b'\\' && delim == b'"') && is_non_eol(byte)
}

/// How many bytes at the front stand for themselves in a string on one line between these delimiters.
fn plain_len(bytes: &[u8], delim: u8) -> usize
    ensures len { result ≡ prefix_len (toml.is_plain delim false) bytes.now }
    ensures within { result ≤ length bytes.now }
{
    bytes
        .iter()
        .take_while(|byte| is_plain(delim, **byte))
        .count()
}

/// The text after a string on one line that has no escape and is not empty, which is not copied. `None` for another one.
fn after_plain(text: &str) -> Option<&str>
    requires { toml.starts_string text.now ≡ true }
    ensures value { IfSome result (λ r. option_map (λ p. p.1) (toml.quoted text.now) ≡ Some r.now) }
    ensures shorter { IfSome result (λ r. length r.now < length text.now) }
{
    let delim = first(text);
    let len = plain_len(&text.as_bytes()[1..], delim);
    if len == 0 || byte_at(text, len + 1) != delim {
        return None;
    }
    Some(skip(text, len + 2))
}

/// The text after a string.
fn after_string(alloc: Global, text: &str) -> Result<Option<&str>, AllocError>
    requires { toml.starts_string text.now ≡ true }
    ensures value { IfOk result (λ o. option_map (λ r. r.now) o ≡ option_map (λ p. p.1) (toml.quoted text.now)) }
    ensures shorter { IfOk result (λ o. IfSome o (λ r. length r.now < length text.now)) }
{
    if let Some(rest) = after_plain(text) {
        return Ok(Some(rest));
    }
    match quoted(alloc, text) {
        Ok((_, rest)) => Ok(Some(rest)),
        Err(error) => refused(error),
    }
}

/// The text after a string, a number, a boolean or a date.
pub(crate) fn after_atom(alloc: Global, text: &str) -> Result<Option<&str>, AllocError>
    ensures value { IfOk result (λ o. option_map (λ r. r.now) o ≡ spec.after_atom text.now) }
    ensures shorter { IfOk result (λ o. IfSome o (λ r. length r.now < length text.now)) }
{
    if starts_string(text) {
        return after_string(alloc, text);
    }
    match unquoted(alloc, text) {
        Ok((_, rest)) => Ok(Some(rest)),
        Err(error) => refused(error),
    }
}

/// The text after the comma that follows an element, or from the closing bracket.
pub(crate) fn after_element(text: &str, closing: u8) -> Option<&str>
    ensures value { option_map (λ r. r.now) result ≡ parse.after_element closing text.now }
    ensures within { IfSome result (λ r. length r.now ≤ length text.now) }
{
    let rest = skip_blank(text, true);
    let next = first(rest);
    if next == b',' {
        Some(skip(rest, 1))
    } else if next == closing {
        Some(rest)
    } else {
        None
    }
}

/// A key, and the text after the equals sign and the white space that follow it.
pub(crate) fn key_equals(alloc: Global, text: &str) -> Result<Option<(Key, &str)>, AllocError>
    ensures value { IfOk result (λ o. option_map (λ p. (key_view p.0, p.1.now)) o ≡ parse.key_equals text.now) }
    ensures shorter { IfOk result (λ o. IfSome o (λ p. length p.1.now < length text.now)) }
{
    match dotted_key(alloc, text) {
        Ok((key, rest)) => {
            if first(rest) != b'=' {
                return Ok(None);
            }
            Ok(Some((key, skip_ws(skip(rest, 1)))))
        }
        Err(error) => refused(error),
    }
}
