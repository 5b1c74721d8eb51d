//! A run that one talks to: rows of stimuli are given while it goes on, and it goes from tick to tick.
//!
//! Guarantees to callers: whatever is called, in whatever order, and whatever is refused between, the bytes that a
//! session writes are a beginning of the trace of the one-thread simulation with all rows that were given, in their
//! order. With an end they are exactly that trace. A row is accepted exactly if it can be read, it fits and it is not
//! late. A break pauses after the first event with such a line, and after no other. What is shown of a block is what the
//! model has of it. A row that was taken needs no memory any more.
//!
//! Read in this order: `fault` and `stage`; `session`, what a session holds, and how it begins; `row_line` and `give`,
//! rows; `breaks`; `run`, how events are taken and their lines written; `going`, by the commands; `show`, what is shown
//! of a block; `laws`, what holds by the definitions.
#![tactic(auto)]

pub mod breaks;
pub mod fault;
pub mod give;
pub mod going;
pub mod laws;
pub mod row_line;
mod run;
pub mod session;
mod show;
pub mod stage;

pub use breaks::{BreakFault, MOST_BREAKS};
pub use fault::{GiveFault, SessionFault};
pub use give::GivenAnswer;
pub use going::{End, Next, Until};
pub use row_line::row_text;
pub use session::Session;
pub use stage::Stage;
