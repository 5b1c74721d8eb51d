//! The reader of declaration texts.
//!
//! Guarantee to callers (the contract of `read::read_library`): the result is the library that the text declares by the
//! grammar, or the fault for which the text is refused. If it is refused for anything but memory, the text declares no
//! library. A text declares at most one library (`laws`).
//!
//! Read in this order: `read`, the entry, and `error`. From bytes to tokens: `token`, `tokens` and `front`, with
//! `blank`, `word`, `keyword`, `number` and `time`. The rules: `cursor`, `rule` and `fault`, how a rule reads; `block`,
//! `ports`, `network`, `chart`, `operator`, `expression` and `statement`. Then `refused`, where a text is refused;
//! `expected`, what could be there instead; `nesting`, where the search for a nesting begins; `laws`; `discarding`,
//! which frees what was read. The modules from tokens to rules are public for `fb_read_positions`, which reads a text
//! again up to a position; `keyword` and `word` are for the names of `fb_inputs`.
#![tactic(auto)]

mod blank;
mod block;
pub mod chart;
pub mod cursor;
pub mod discarding;
pub mod error;
pub mod expected;
mod expression;
pub mod fault;
pub mod front;
pub mod keyword;
pub mod laws;
mod nesting;
mod network;
mod number;
mod operator;
pub mod ports;
pub mod read;
pub mod refused;
pub mod rule;
mod statement;
mod time;
pub mod token;
pub mod tokens;
pub mod word;

pub use discarding::discard;
pub use error::ReadError;
pub use expected::Expected;
pub use read::{read_library, read_located};
pub use refused::{ReadFault, Refusal, TextFault};
