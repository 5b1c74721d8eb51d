//! Where a simulation stops: the event, the block at which it arrives, the state of its chart, and the transition or
//! the action that gives the reason. In an algorithm this is the statement, and for the count of steps the loop in
//! which it ran out.
//!
//! A run keeps no places, and after a stop its blocks have what the reaction left. So the simulation is run again up to
//! the stop, and nothing is written. A copy of each basic block reacts to the same events.
//!
//! Guarantees to callers: `find::find_stop` returns the stop of the simulation (`IsStop`), or none if it reaches its
//! horizon. `place::position_of` returns the position of a stop in the declaration. `body::run_body` runs a body as
//! `fb_st::exec` does, and a reason comes with the statement that gives it, and with the value that does not fit its
//! variable; after it the frame has what the variables hold there. Within the crate `reaction::locate` returns where the
//! reaction of one block stops (`ReactionStops`), and `spent::steps_spent` adds up the steps of a tick by blocks
//! (`AreSpent`). The words of `values` and `words` are only tested; the values in them are those of the stop.
//!
//! Read in this order: `fault`, a reason and its statement, and `number`, how statements are counted; `part`, what
//! statements do that hold no statements, `running`, the runs of statements, and `body`. Then `site`, a place in a
//! chart, and `before` and `reaction`, which find it; `found`, a stop; `copies` and `replay`, the copies that react to
//! the events of a run (`fb_sim_machine`'s `Machine`); `find`; `spent`, the steps of a tick. Last `operation` and
//! `statement`, the operation that has no value; `place`, `shown`, `assigned`, `values` and `words`, how a stop is shown.
//! All of this runs only after a stop.
#![tactic(auto)]

mod assigned;
mod before;
pub mod body;
mod copies;
pub mod fault;
pub mod find;
pub mod found;
pub mod number;
pub mod operation;
mod part;
pub mod place;
mod reaction;
mod replay;
mod running;
pub mod shown;
pub mod site;
mod spent;
pub mod statement;
mod values;
pub mod words;

pub use body::run_body;
pub use fault::Fault;
pub use find::find_stop;
pub use found::{EventSite, FoundStop, StopSite};
pub use operation::{Operands, Operation, operation_in};
pub use place::position_of;
pub use shown::{Shown, shown_of};
pub use site::{Inside, ReactionStop, Site};
pub use statement::{Anchor, Placed, operation_of};
pub use words::{spent_words, words_of};
