//! Keys that a table of a deployment may not have, and where they are.

ghost use Rattle.std.specs.Prelude.{◌≡◌, IfOk, map, option_map};
ghost use Rattle.toml.specs.Data.{get_item, get_member};
ghost use Rattle.toml.specs.View.{array_view, table_view, view};
ghost use Rattle.fb_why.specs.FurtherKeys as spec;
ghost use Rattle.fb_why.specs.InputPlaces.{IsFurtherAt};

use fb_deploy_positions::Outline;
use fb_inputs::deployment::document;
use fb_inputs::{DeployFault, DeployPosition, TableLocation};
use fb_read::token::Span;
use std::alloc::{AllocError, Global};
use toml::value::Array;
use toml::{Table, Value};

/// The keys that a table may have.
pub(crate) fn known_keys(table: TableLocation) -> &'static [&'static str]
    ensures { map (λ k. k.now) result.now ≡ spec.known_keys table }
{
    match table {
        TableLocation::Top => &["resource", "link"],
        TableLocation::Resource(_) => &["device", "name", "instances"],
        TableLocation::Link(_) => &["from", "to", "latency", "latencies"],
    }
}

/// Whether a word is one of these.
fn is_among(word: &str, known: &[&str]) -> bool
    ensures { result ≡ spec.is_among (map (λ k. k.now) known.now) word.now }
{
    known.contains(&word)
}

/// The first key of a table that is none of these.
pub(crate) fn further_key<'a>(keys: &'a Table, known: &[&str]) -> Option<&'a str>
    ensures { option_map (λ k. k.now) result ≡ spec.first_further (map (λ k. k.now) known.now) (table_view keys.now) }
{
    for (key, _) in keys {
        if !is_among(key.as_str(), known) {
            return Some(key.as_str());
        }
    }
    None
}

/// The value at a key of a table.
fn value_at<'a>(keys: &'a Table, key: &str) -> Option<&'a Value>
    ensures { option_map (λ v. view v.now) result ≡ get_member key.now (table_view keys.now) }
{
    keys.get(key)
}

/// The element with this index of an array.
fn element_at(items: &Array, index: usize) -> Option<&Value>
    ensures { option_map (λ v. view v.now) result ≡ get_item index (array_view items.now) }
{
    items.get(index)
}

/// The table at an index of the array of tables at a key.
pub(crate) fn item_at<'a>(keys: &'a Table, key: &str, index: usize) -> Option<&'a Table>
    ensures { option_map (λ t. table_view t.now) result ≡ spec.item_in (table_view keys.now) key.now index }
{
    let items = value_at(keys, key)?.as_array()?;
    element_at(items, index)?.as_table()
}

/// The table at a location.
pub(crate) fn table_at(keys: &Table, table: TableLocation) -> Option<&Table>
    ensures { option_map (λ t. table_view t.now) result ≡ spec.table_in (table_view keys.now) table }
{
    match table {
        TableLocation::Top => Some(keys),
        TableLocation::Resource(resource) => item_at(keys, "resource", resource),
        TableLocation::Link(link) => item_at(keys, "link", link),
    }
}

/// The first key of a table in a document that the table may not have.
fn further_in(keys: &Table, table: TableLocation) -> Option<&str>
    ensures { option_map (λ k. k.now) result ≡ spec.further_in (table_view keys.now) table }
{
    let here = table_at(keys, table)?;
    further_key(here, known_keys(table))
}

/// The bytes of the first key of a table in a document that the table may not have.
fn span_in(
    alloc: Global,
    outline: &Outline<'_>,
    keys: &Table,
    table: TableLocation,
) -> Result<Option<Span>, AllocError>
    ensures { IfOk result (λ o. o ≡ spec.span_in outline.now.text.now (table_view keys.now) table) }
{
    match further_in(keys, table) {
        Some(name) => outline.key_span(alloc, table, name),
        None => Ok(None),
    }
}

/// The bytes of the first key of a table of a deployment that the table may not have.
fn further_span(
    alloc: Global,
    outline: &Outline<'_>,
    bytes: &[u8],
    table: TableLocation,
) -> Result<Option<Span>, AllocError>
    requires { outline.now.text.now ≡ bytes.now }
    ensures { IfOk result (λ o. o ≡ spec.further_span bytes.now table) }
{
    match document(alloc, bytes) {
        Ok(keys) => span_in(alloc, outline, &keys, table),
        Err(DeployFault::Memory) => Err(AllocError),
        Err(DeployFault::At(_)) => Ok(None),
    }
}

/// The bytes of the first key of a table of a deployment that the table may not have, or else those that begin the
/// table.
pub(crate) fn further_bytes(
    alloc: Global,
    outline: &Outline<'_>,
    bytes: &[u8],
    table: TableLocation,
) -> Result<Span, AllocError>
    requires { outline.now.text.now ≡ bytes.now }
    ensures { IfOk result (IsFurtherAt bytes.now table) }
{
    match further_span(alloc, outline, bytes, table)? {
        Some(span) => Ok(span),
        None => outline.nearest(alloc, DeployPosition::Table(table)),
    }
}
