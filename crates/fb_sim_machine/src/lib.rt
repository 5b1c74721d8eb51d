//! One agenda of all resources, of which the least event is always taken.
//!
//! Guarantees to callers: taking an event is a step of the one-thread simulation, whose configuration the `Machine`
//! represents before and after. What one taking does is `fb_resource`'s; here are the loop over it and the delivery of
//! messages to the one agenda.
//!
//! `fb_sim` runs it, for `run_serial` and with one worker, and `fb_stop` takes its events one by one. It is a library
//! of its own, so that both are proved at the same time.
//!
//! Read in this order: `machine` and `pause`, the state and the taking of events; `deliver`, messages; `open`, the
//! beginning.
#![tactic(auto)]

mod deliver;
pub mod machine;
mod open;
pub mod pause;

pub use machine::Machine;
pub use pause::{Pause, Step};
