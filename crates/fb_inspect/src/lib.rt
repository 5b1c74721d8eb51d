//! What happens inside the blocks of a trace: line by line, as waveforms, and what is wrong with a line that is refused.
//!
//! Guarantees to callers:
//!
//! - A text that `insides::inspect` inspects to its end is a trace of the system in which each block emits exactly what
//!   its reaction gives. The writer gets it with the transitions, algorithms and memory of these reactions between its
//!   lines. After an error it has the first bytes of that.
//! - The line for which `insides::inspect` or `covering::cover` refuses a trace is not what the reactions give: no
//!   trace of a run is refused (`laws`). What was found there (`Finding`) is true of the line: for example, the block emits
//!   the event that it names, and the line is not that of this event.
//! - What `insides::inspect` and `dump::states::write_states` write before a refusal begins what they write of each whole
//!   trace with the lines before the refused one.
//! - `dump::states::write_states` writes the value change dump of such a trace. In it are the state of each basic block by
//!   name, its variables that no line carries, and a mark for each event that it lost. Without the lines of the inside of
//!   blocks that is, byte for byte, the dump that `fb_wave` writes. After an error the writer has the first bytes of such
//!   a dump.
//! - `covering::cover` marks exactly what the takings of such a trace do, next to what others covered.
//! - What `refused::line_finding::fault_of` returns is true of the line, of what was known before it, and of the system. For
//!   example, no instance has the name that it returns. If it returns nothing, a trace of the system can go on with the
//!   line.
//! - `refused::line_words::line_message` and `refused::message::finding_message` return exactly the texts that the
//!   definitions have of a fault and of a finding (`Messages`).
//!
//! Read in this order:
//!
//! - `insides`, the first entry, with `filter` and `error`.
//! - `walk`, which goes through a trace, event by event; `held`, the text that waits.
//! - `covering`, the second entry; `laws`, what is true of every run, and what the marks of several traces say.
//! - `dump`, the dumps with the inside of blocks.
//! - `refused`, why a line is refused, and the texts that say it.
#![tactic(auto)]

pub mod covering;
pub mod dump;
pub mod error;
pub mod filter;
mod held;
pub mod insides;
pub mod laws;
pub mod refused;
pub mod walk;

pub use covering::{Covered, cover};
pub use dump::states::write_states;
pub use error::InspectError;
pub use filter::EventFilter;
pub use insides::{Inspection, inspect};
pub use refused::finding::{Finding, RefusedLine};
pub use refused::line_fault::{LineFault, PortFault, ValueFault};
pub use refused::line_finding::fault_of;
pub use refused::line_words::line_message;
pub use refused::message::finding_message;
pub use walk::{Extent, Terms};
