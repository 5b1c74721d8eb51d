//! What traces cover of a system: marks of what happened, and the report of what did not.
//!
//! Guarantees to callers: no mark is set at first but those of initial states; each function that sets marks sets those
//! that it says, and no other; the report is exactly the text that the definitions have of the marks; `is_below` compares
//! the numbers in the report's last line. `fb_inspect` sets the marks while it goes through a trace.
//!
//! Read in this order: `table`, flags in rows; `marks`, which marks there are; `part` and `opening`, the marks before
//! the first trace; `group`, which event ports count; `share`, how much is covered; `block_report` and `port_report`,
//! what is not; `report`, the whole text.
#![tactic(auto)]

mod block_report;
mod group;
pub mod marks;
mod opening;
mod part;
mod port_report;
pub mod report;
mod share;
pub mod table;

pub use marks::{ChartMarks, Marks, PortMarks};
pub use report::report_of;
pub use share::is_below;
pub use table::Table;
