//! Where the entries of a deployment are in its text: its tables, their keys, and the elements of arrays.
//!
//! The text is read by the grammar of the TOML reader itself, so each form is found: keys in quotes or with dots, headings
//! of tables, inline tables, and values over several lines. The definitions are `specs/Values`, `Statements` and
//! `Entries`.
//!
//! Guarantees to callers: `Outline::read` reads the statements once. `Outline::nearest` returns the bytes at a position,
//! or those of the nearest position around it that has any. `Outline::key_span` returns the bytes of a key by its name,
//! or `None` exactly if the table has no such key. Statements are read up to the first one that is none, so bytes that the
//! TOML reader refuses have those of their beginning.
//!
//! Read in this order: `tokens`, `keys` and `values`, for what follows a value and where its parts are; `statement` and
//! `reading`, for the statements; `search`; `entry`; `spans` and `outline`. `laws` says that the definitions agree with
//! the TOML reader: what it reads in a document is what the statements define. It reads the parts of values and the keys
//! of entries where they begin. What begins with each is an end of the text.
#![tactic(auto)]

mod entry;
mod keys;
pub mod laws;
mod outline;
mod reading;
mod search;
mod spans;
mod statement;
mod tokens;
mod values;

pub use outline::Outline;
pub use statement::Kind;
