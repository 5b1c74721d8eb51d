//! The reactions of the fourteen event blocks. The table is this project's profile, in the manner of IEC 61499-1, Annex
//! A; a tick is a millisecond of virtual time.
//!
//! Guarantees to callers: `reaction::react` and `reaction::expire` give the memory, the emissions and the timer of the
//! definitions. They know ports by number, and nothing of the system around the block. `reaction::passes_to` names the
//! kinds that only pass events on.
//!
//! Read in this order: `memory` and `state`, what a block remembers; `reaction`; `step`, the table itself; `emission`.
#![tactic(auto)]

mod emission;
pub mod memory;
pub mod reaction;
pub mod state;
mod step;

pub use fb_types::{EventKind, TimerAsk};
pub use memory::EventMemory;
pub use reaction::{expire, passes_to, react};
pub use state::{EventState, memory_of};
