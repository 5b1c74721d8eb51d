//! A session over a reader and a writer: commands are read, one a line, and answered.
//!
//! Guarantees to callers: whatever the commands are, with any reader and any writer, what is written is lines of the trace
//! with answers between them, each a line that begins with `=` or `!`. The lines of the trace are a beginning of the
//! trace of the inputs with some rows that fit, and after an end they are exactly that. A line asks for what its words
//! say. No contract says the words of the answers, nor that these rows are those that the answers name.
//!
//! Read in this order: `command`, what a line asks for; `input`, lines; `answer`, the texts; `talking`, one command after
//! another.
#![tactic(auto)]

mod answer;
pub mod command;
mod input;
pub mod talking;

pub use talking::{TalkFault, talk};
