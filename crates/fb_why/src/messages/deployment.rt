//! The texts that say where a deployment is refused.

use crate::further::{further_key, item_at, known_keys, table_at};
use fb_inputs::{DeployKey, DeployLocation, TableFault, TableLocation};
use fb_read_positions::Text;
use fb_read_positions::habits::is_keyword;
use std::alloc::{AllocError, Global};
use toml::{Table, Value};

/// What is wrong with an entry that is not the first.
const NOT_LATER: &str =
    " entry is not later than that of the entry before it, or is over 1,000,000,000,000";

/// What is wrong at a location of a deployment, and what was expected there.
pub fn deployment_message(
    alloc: Global,
    bytes: &[u8],
    location: DeployLocation,
) -> Result<String, AllocError> {
    let mut text = Text::new(alloc);
    match location {
        DeployLocation::Bytes => text.words("there are more than 1,048,576 bytes"),
        DeployLocation::Document(_) => text.words("this is no TOML"),
        DeployLocation::Shape { table, fault } => {
            push_table(&mut text, table);
            push_fault(alloc, &mut text, bytes, table, fault);
        }
        DeployLocation::Latency { link, entry } => {
            push_latency(alloc, &mut text, bytes, link, entry);
        }
        DeployLocation::NoEntry { link } => text.placed("", link, " link: latencies has no entry"),
        DeployLocation::Entry { link, entry: 0 } => {
            text.placed("", link, " link: the 1st entry is not at tick 0");
        }
        DeployLocation::Entry { link, entry } => {
            text.placed("", link, " link: the tick of the ");
            text.placed("", entry, NOT_LATER);
        }
        DeployLocation::Resources => text.words("there are more than 256 resources"),
        DeployLocation::Links => text.words("there are more than 1,024 links"),
        DeployLocation::Entries { link } => {
            text.placed("", link, " link: there are more than 64 entries");
        }
    }
    text.into_string()
}

fn push_table(text: &mut Text, table: TableLocation) {
    match table {
        TableLocation::Top => {}
        TableLocation::Resource(resource) => text.placed("", resource, " resource: "),
        TableLocation::Link(link) => text.placed("", link, " link: "),
    }
}

/// What is wrong with the table.
fn push_fault(
    alloc: Global,
    text: &mut Text,
    bytes: &[u8],
    table: TableLocation,
    fault: TableFault,
) {
    match fault {
        TableFault::NoTable => text.words("it is no table"),
        TableFault::Missing(DeployKey::Latency) => {
            text.words("there is neither latency nor latencies");
        }
        TableFault::Missing(key) => text.phrase(&["there is no ", key.text()]),
        TableFault::Wrong(key) => {
            text.words(key.text());
            text.words(if has_keyword(alloc, bytes, table, key) {
                " is a keyword, and so not a name"
            } else {
                kind_of(key)
            });
        }
        TableFault::Element(key, element) => {
            let kind = match key {
                DeployKey::Instances if has_keyword_at(alloc, bytes, table, key, element) => {
                    " element is a keyword, and so not a name"
                }
                DeployKey::Instances => " element is not a name",
                _ => " entry is not two whole numbers",
            };
            text.words(key.text());
            text.placed(": the ", element, kind);
        }
        TableFault::Empty => text.words("there is no resource"),
        TableFault::Both => text.words("there are both latency and latencies"),
        TableFault::Itself => text.words("it leads to the resource that it comes from"),
        TableFault::Further => push_unknown(alloc, text, bytes, table),
    }
}

/// Whether a value is a keyword.
fn is_keyword_value(alloc: Global, value: Option<&Value>) -> bool {
    match value {
        Some(Value::String(word)) => is_keyword(alloc, word.as_str().as_bytes()),
        _ => false,
    }
}

/// The value at a key of a table in a document.
fn value_at<'a>(keys: &'a Table, table: TableLocation, key: DeployKey) -> Option<&'a Value> {
    table_at(keys, table)?.get(key.text())
}

/// Whether the value at a key of a table in a document is a keyword.
fn has_keyword(alloc: Global, bytes: &[u8], table: TableLocation, key: DeployKey) -> bool {
    match toml::table_from_slice(alloc, bytes) {
        Ok(keys) => is_keyword_value(alloc, value_at(&keys, table, key)),
        Err(_) => false,
    }
}

/// Whether the element at an index of the array at a key of a table in a document is a keyword.
fn has_keyword_at(
    alloc: Global,
    bytes: &[u8],
    table: TableLocation,
    key: DeployKey,
    element: usize,
) -> bool {
    let Ok(keys) = toml::table_from_slice(alloc, bytes) else {
        return false;
    };
    match value_at(&keys, table, key) {
        Some(Value::Array(items)) => is_keyword_value(alloc, items.get(element)),
        _ => false,
    }
}

/// What the value at a key must be.
fn kind_of(key: DeployKey) -> &'static str {
    match key {
        DeployKey::Resource | DeployKey::Link => " is not an array of tables",
        DeployKey::Device | DeployKey::Name | DeployKey::From | DeployKey::To => " is not a name",
        DeployKey::Instances | DeployKey::Latencies => " is not an array",
        DeployKey::Latency => " is not a whole number",
    }
}

/// Adds the first unknown key of a table in a document.
fn push_unknown(alloc: Global, text: &mut Text, bytes: &[u8], table: TableLocation) {
    match toml::table_from_slice(alloc, bytes) {
        Ok(keys) => {
            if let Some(here) = table_at(&keys, table) {
                push_further(text, here, known_keys(table));
            }
        }
        Err(_) => text.give_up(),
    }
}

/// Adds the keys that a table may have.
fn push_known(text: &mut Text, known: &[&str]) {
    let mut before = " (it may have ";
    for key in known {
        text.phrase(&[before, key]);
        before = ", ";
    }
    text.words(")");
}

/// Adds the first key of a table that is none of these, and these.
pub(crate) fn push_further(text: &mut Text, keys: &Table, known: &[&str]) {
    text.words("there is a further key");
    if let Some(key) = further_key(keys, known) {
        text.words(", ");
        text.quoted(key.as_bytes());
        push_known(text, known);
    }
}

/// Adds the latency of an entry of a link, or the latency of a link without entries.
fn push_latency(alloc: Global, text: &mut Text, bytes: &[u8], link: usize, entry: usize) {
    let Ok(keys) = toml::table_from_slice(alloc, bytes) else {
        text.give_up();
        return;
    };
    text.placed("", link, " link: ");
    match item_at(&keys, "link", link) {
        Some(link) if link.get("latency").is_some() => text.words("latency"),
        _ => text.placed("the latency of the ", entry, " entry"),
    }
    text.words(" is not within 1 to 1,000,000");
}
