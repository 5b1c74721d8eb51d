//! Waveforms: reads the trace of a system and writes it as a value change dump (IEEE 1364-2005, 18).
//!
//! Guarantees to callers:
//!
//! - If a text is shown, it is the trace of some lines of the system with an end after them, in one of the two forms.
//!   The writer got exactly the dump that the definitions have of these, as a function of the whole list.
//! - If a text is refused, the line is the first that no trace of the system has after the lines before it. The caller
//!   gets that line.
//! - If a text is refused or something fails, the writer got the first bytes of a dump.
//! - If a trace may be cut off, no text is refused for its end, and the dump says that the trace is cut off.
//!
//! Read in this order:
//!
//! - `wave`, with `error` and `truncation`: the entry;
//! - `copy`, with `current_line` and `page`: a trace line by line;
//! - `names`, `words`, `number` and `values`: the meaning of words;
//! - `ports`, `system_ports` and `table`: the event ports of a system, and how one is found by its text;
//! - `line` and `last`: the meaning of lines;
//! - `levels` and `change`: what signals show, and how changes are written;
//! - `scopes`, `declared`, `begun`, `signals`, `digits`, `system_signals` and `head`: the head of a dump;
//! - `dump`, and `laws` of its shape.
#![tactic(auto)]

mod begun;
pub mod change;
pub mod copy;
pub mod current_line;
mod declared;
pub mod digits;
pub mod dump;
pub mod error;
pub mod head;
pub mod last;
pub mod laws;
pub mod levels;
pub mod line;
mod names;
pub mod number;
pub mod page;
pub mod ports;
pub mod scopes;
pub mod signals;
pub mod system_ports;
pub mod system_signals;
pub mod table;
pub mod truncation;
pub mod values;
pub mod wave;
pub mod words;

pub use copy::{can_end, form_of, is_over, next_line};
pub use current_line::CurrentLine;
pub use error::WaveError;
pub use head::own_name;
pub use last::read_last;
pub use line::read_line;
pub use page::{Page, PageFault};
pub use ports::Port;
pub use system_ports::SystemPorts;
pub use table::{Guess, PortTable};
pub use truncation::Cut;
pub use wave::{write_wave, write_wave_with};
