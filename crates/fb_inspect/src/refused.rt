//! What is wrong with a line that is refused.
//!
//! Read in this order: `finding`, why no run gives a line, and `message`, its text. Then what is wrong with a line by
//! itself: `line_fault`, what can be wrong; `line_finding`, the entry; `fault_port`, from the resource of a line to its
//! event, with `fault_words` and `fault_names`; `fault_values`; `line_words`, the texts. `fault_text`, of which texts
//! are made.

pub(crate) mod fault_names;
mod fault_port;
mod fault_text;
mod fault_values;
mod fault_words;
pub mod finding;
pub mod line_fault;
pub mod line_finding;
pub mod line_words;
pub mod message;
