//! The agenda of a run: the events that wait, of all classes and for any number of resources, under their keys.
//!
//! Guarantees to callers: the event with the least key is taken; an instance has at most one timer; messages are added
//! all or none, and none if memory runs out.
//!
//! Read in this order: `agenda`; `queue`, the local events of the running tick; `later`, all other events, with `moment`;
//! `timer_row`, the timers; `store`, stimuli and messages; `arrivals`, messages that are put all or none; `least`, what is
//! taken.
#![tactic(auto)]

pub mod agenda;
mod arrivals;
mod later;
pub mod least;
mod moment;
mod queue;
mod store;
mod timer_row;

pub use agenda::Agenda;
pub use least::Least;
