//! Names in upper case, and paths of them.

ghost use Rattle.std.specs.Prelude.{◌≡◌};
ghost use Rattle.std.specs.List.{list_all};
ghost use Rattle.fb_expect.specs.Words as spec;

use crate::words::split_at_mark;

/// Whether a name can begin with a byte: an upper-case letter or an underscore.
fn is_letter(byte: u8) -> bool
    ensures { result ≡ spec.is_letter byte }
{
    byte.is_ascii_uppercase() || byte == b'_'
}

/// Whether a byte can be in a name: an upper-case letter, an underscore or a digit.
fn is_word(byte: u8) -> bool
    ensures { result ≡ spec.is_word byte }
{
    is_letter(byte) || byte.is_ascii_digit()
}

pub(crate) fn are_words(text: &[u8]) -> bool
    ensures { result ≡ list_all spec.is_word text.now }
{
    for byte in text {
        if !is_word(*byte) {
            return false;
        }
    }
    true
}

/// Whether a text is a name in upper case.
pub(crate) fn is_name(text: &[u8]) -> bool
    ensures { result ≡ spec.is_name text.now }
{
    match text {
        [first, rest @ ..] => is_letter(*first) && are_words(rest),
        [] => false,
    }
}

/// Whether a text is names with a full stop between each and the next.
pub(crate) fn is_path(text: &[u8]) -> bool
    ensures { result ≡ spec.is_path text.now }
{
    let mut rest = text;
    while let Some((name, after)) = split_at_mark(rest, b'.') {
        if !is_name(name) {
            return false;
        }
        rest = after;
    }
    is_name(rest)
}

/// Whether a full stop is in a text.
pub(crate) fn has_stop(text: &[u8]) -> bool
    ensures { result ≡ spec.has_stop text.now }
{
    for byte in text {
        if *byte == b'.' {
            return true;
        }
    }
    false
}

/// Whether a text is a path and an event: two names or more.
pub(crate) fn is_port(text: &[u8]) -> bool
    ensures { result ≡ spec.is_port text.now }
{
    has_stop(text) && is_path(text)
}
