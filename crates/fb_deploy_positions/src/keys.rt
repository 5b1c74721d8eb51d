//! Keys at the beginning of a text.

ghost use Rattle.std.specs.Prelude.{◌≡◌, ◌≤◌, length, reverse, IfOk};
ghost use Rattle.std.specs.List.{prefix_len};
ghost use Rattle.toml_parser.specs.Lexical.{is_ws};
ghost use Rattle.toml_parser.specs.Reading.{key_view};
ghost use Rattle.toml_parser.specs.Strings as toml;
ghost use Rattle.toml.specs.Parse as parse;
ghost use Rattle.fb_deploy_positions.specs.Entries as entries;
ghost use Rattle.fb_deploy_positions.specs.Results.{AnswersRead, LeavesLess};

use std::alloc::{AllocError, Global};
use toml_parser::bytes::is_ws;
use toml_parser::text::{first, skip, skip_ws};
use toml_parser::{Key, ParseError, dotted_key};

/// A key, and the text after it and the blanks. `None` where there is none.
fn key_of(alloc: Global, text: &str) -> Result<Option<(Key, &str)>, AllocError>
    ensures value { AnswersRead key_view result (toml.key text.now) }
    ensures shorter { LeavesLess text.now result }
{
    match dotted_key(alloc, text) {
        Ok(read) => Ok(Some(read)),
        Err(ParseError::OutOfMemory) => Err(AllocError),
        Err(_) => Ok(None),
    }
}

/// The key of a heading, and the text after its first closing bracket.
pub(crate) fn header_key(alloc: Global, text: &str) -> Result<Option<(Key, &str)>, AllocError>
    ensures value { AnswersRead key_view result (parse.header_key text.now) }
    ensures shorter { LeavesLess text.now result }
{
    let Some((key, rest)) = key_of(alloc, skip_ws(text))? else {
        return Ok(None);
    };
    if first(rest) != b']' {
        return Ok(None);
    }
    Ok(Some((key, skip(rest, 1))))
}

/// How many blanks are at the end of a text.
fn blanks(text: &[u8]) -> usize
    ensures { result ≡ prefix_len is_ws (reverse text.now) }
{
    text.iter().rev().take_while(|b| is_ws(**b)).count()
}

/// The length of a text without the blanks at its end.
fn trimmed(text: &[u8]) -> usize
    ensures value { result ≡ entries.trimmed text.now }
    ensures within { result ≤ length text.now }
{
    text.len().saturating_sub(blanks(text))
}

/// The length of the key with which a text begins.
pub(crate) fn key_len(alloc: Global, text: &str) -> Result<usize, AllocError>
    ensures value { IfOk result (λ n. n ≡ entries.key_len text.now) }
    ensures within { IfOk result (λ n. n ≤ length text.now) }
{
    let Some((_, rest)) = key_of(alloc, text)? else {
        return Ok(0);
    };
    Ok(trimmed(&text.as_bytes()[..text.len() - rest.len()]))
}

/// Whether the key has this name as its first part.
pub(crate) fn begins_with(key: &Key, name: &str) -> bool
    ensures { result ≡ entries.begins_with name.now (key_view key.now) }
{
    match key.path.first() {
        Some(part) => part.as_str() == name,
        None => key.last.as_str() == name,
    }
}

/// Whether the key is this name alone.
pub(crate) fn is_alone(key: &Key, name: &str) -> bool
    ensures { result ≡ entries.is_alone name.now (key_view key.now) }
{
    key.path.is_empty() && key.last.as_str() == name
}

/// Whether the key begins with these two parts.
pub(crate) fn begins_with_both(key: &Key, array: &str, name: &str) -> bool
    ensures { result ≡ entries.begins_with_both array.now name.now (key_view key.now) }
{
    begins_with(key, array) && has_second(key, name)
}

/// Whether the key has this name as its second part.
fn has_second(key: &Key, name: &str) -> bool
    ensures { result ≡ entries.has_second name.now (key_view key.now).0 (key_view key.now).1 }
{
    match key.path.as_slice() {
        [] => false,
        [_] => key.last.as_str() == name,
        [_, second, ..] => second.as_str() == name,
    }
}
