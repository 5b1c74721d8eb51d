//! Writes the text of a trace, line by line.
//!
//! Guarantees to callers: the lines of several resources become one list in the order of the trace. The writer gets
//! exactly their text, or, if it fails, a beginning of it, and the fault says how many bytes.
//!
//! Read in this order: `merging`; `lines`, `marks` and `last`, what is written; `pieces`, `start`, `names` and `number`; `page`,
//! `digit_rows`, `copy`, `front` and `fault`.
#![tactic(auto)]

mod copy;
mod digit_rows;
pub mod fault;
pub mod front;
pub mod last;
pub mod lines;
pub mod marks;
pub mod merging;
mod names;
mod number;
mod page;
mod pieces;
mod start;

pub use fault::WriteFault;
pub use front::write_front;
pub use last::{Outcome, write_last, write_last_with_count};
pub use lines::{write_lines, write_lines_with_count, write_parts};
pub use marks::{Mark, MarkedText, marked_text};
pub use merging::merge;
