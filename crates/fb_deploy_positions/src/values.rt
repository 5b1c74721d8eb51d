//! Values of a document: what follows them, and where the parts of arrays and inline tables begin.

ghost use Rattle.std.specs.Prelude.{ℕ, ◌≡◌, ◌<◌, ◌-◌, IfOk, IfSome, length, map, option_map, slice_get};
ghost use Rattle.toml_parser.specs.Reading.{key_view};
ghost use Rattle.fb_deploy_positions.specs.Entries as entries;
ghost use Rattle.fb_deploy_positions.specs.Values as spec;

use crate::keys::begins_with;
use crate::tokens::{after_atom, after_element, key_equals};
use std::alloc::{AllocError, Global};
use toml_parser::Key;
use toml_parser::text::{first, skip, skip_blank};

/// A key with its value, by the ends of the text that begin with them.
#[derive(Drop)]
pub(crate) struct Member<'a> {
    pub(crate) begin: &'a str,
    pub(crate) key: Key,
    pub(crate) value: &'a str,
}

/// The text after a value with arrays and inline tables at most this deep. `None` where there is no value.
#[cycle(value)]
pub(crate) fn after_value(
    alloc: Global,
    text: &str,
    depth: usize,
) -> Result<Option<&str>, AllocError>
    ensures value { IfOk result (λ o. option_map (λ r. r.now) o ≡ spec.after_value depth text.now) }
    ensures shorter { IfOk result (λ o. IfSome o (λ r. length r.now < length text.now)) }
{
    let byte = first(text);
    if byte != b'[' && byte != b'{' {
        return after_atom(alloc, text);
    }
    if depth == 0 {
        return Ok(None);
    }
    if byte == b'[' {
        after_items(alloc, skip(text, 1), depth - 1)
    } else {
        after_members(alloc, skip(text, 1), depth - 1)
    }
}

/// The text after the rest of an array, whose elements are at most this deep.
#[cycle(value)]
fn after_items(alloc: Global, text: &str, depth: usize) -> Result<Option<&str>, AllocError>
    ensures value { (n : ℕ) → length text.now < n → IfOk result (λ o. option_map (λ r. r.now) o ≡ spec.after_items (spec.after_value depth) n text.now) }
    ensures shorter { IfOk result (λ o. IfSome o (λ r. length r.now < length text.now)) }
{
    let mut rest = text;
    'items: loop {
        let start = skip_blank(rest, true);
        if first(start) == b']' {
            return Ok(Some(skip(start, 1)));
        }
        let Some(after) = after_value(alloc, start, depth)? else {
            return Ok(None);
        };
        let Some(next) = after_element(after, b']') else {
            return Ok(None);
        };
        rest = next;
    }
}

/// The text after the rest of an inline table, whose values are at most this deep.
#[cycle(value)]
fn after_members(alloc: Global, text: &str, depth: usize) -> Result<Option<&str>, AllocError>
    ensures value { (n : ℕ) → length text.now < n → IfOk result (λ o. option_map (λ r. r.now) o ≡ spec.after_members (spec.after_value depth) n text.now) }
    ensures shorter { IfOk result (λ o. IfSome o (λ r. length r.now < length text.now)) }
{
    let mut rest = text;
    'members: loop {
        let start = skip_blank(rest, true);
        if first(start) == b'}' {
            return Ok(Some(skip(start, 1)));
        }
        let Some((_, value)) = key_equals(alloc, start)? else {
            return Ok(None);
        };
        let Some(after) = after_value(alloc, value, depth)? else {
            return Ok(None);
        };
        let Some(next) = after_element(after, b'}') else {
            return Ok(None);
        };
        rest = next;
    }
}

/// The texts that begin with the elements of an array at most this deep.
pub(crate) fn items_of<'a>(
    alloc: Global,
    text: &'a str,
    depth: usize,
) -> Result<Vec<&'a str>, AllocError>
    ensures { IfOk result (λ v. map (λ r. r.now) v.items ≡ spec.items_of depth text.now) }
{
    let mut found = Vec::new(alloc);
    if depth == 0 || first(text) != b'[' {
        return Ok(found);
    }
    let mut rest = skip(text, 1);
    'items: loop {
        let start = skip_blank(rest, true);
        if first(start) == b']' {
            return Ok(found);
        }
        let Some(after) = after_value(alloc, start, depth - 1)? else {
            return Ok(found);
        };
        found.push(start)?;
        let Some(next) = after_element(after, b']') else {
            return Ok(found);
        };
        rest = next;
    }
}

/// The text that begins with an element of an array at most this deep.
pub(crate) fn item_at<'a>(
    alloc: Global,
    text: &'a str,
    depth: usize,
    index: usize,
) -> Result<Option<&'a str>, AllocError>
    ensures { IfOk result (λ o. option_map (λ r. r.now) o ≡ slice_get (spec.items_of depth text.now) index) }
{
    Ok(items_of(alloc, text, depth)?.get(index).copied())
}

/// The first key of an inline table at most this deep that begins with a name.
pub(crate) fn member_named<'a>(
    alloc: Global,
    text: &'a str,
    depth: usize,
    name: &str,
) -> Result<Option<Member<'a>>, AllocError>
    ensures { IfOk result (λ o. option_map (entries.member_view (depth - 1)) o ≡ entries.named_member (depth - 1) name.now (spec.members_of depth text.now)) }
{
    if depth == 0 || first(text) != b'{' {
        return Ok(None);
    }
    let mut rest = skip(text, 1);
    'members: loop {
        let start = skip_blank(rest, true);
        if first(start) == b'}' {
            return Ok(None);
        }
        let Some((key, value)) = key_equals(alloc, start)? else {
            return Ok(None);
        };
        let Some(after) = after_value(alloc, value, depth - 1)? else {
            return Ok(None);
        };
        if begins_with(&key, name) {
            return Ok(Some(Member {
                begin: start,
                key,
                value,
            }));
        }
        let Some(next) = after_element(after, b'}') else {
            return Ok(None);
        };
        rest = next;
    }
}
