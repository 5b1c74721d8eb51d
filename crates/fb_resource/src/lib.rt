//! One resource by itself: taking one event in it, its run below a tick, and what the simulation of all resources
//! has of it.
//!
//! Guarantees to callers: `take` takes an event as the definitions say (`IsTakenHere`), from every state that blocks and
//! counts may represent, also where the resource stops. `open_agenda` and `open_agendas` put exactly the events of the
//! opening on the agendas (`IsOpened`). A `Resource` runs by itself below a tick, takes messages in between, and answers
//! when its next event is. What it does is what the resource of the definitions does, so the laws here hold of it.
//!
//! Read in this order: `tick_counts`, what is counted in a tick; `traffic`, where events come from and go to; `taken` and
//! `one_taking`, the taking; `posting`, what a taking puts out; `next`, the event that is taken next; `opening`, the
//! agendas before the first event. Then `laws` and `determined`, what holds of the definitions; `resource`, what a
//! resource holds, with `open`, how it begins, `run`, its run below a tick, and `receive`, how it gets messages.
#![tactic(auto)]

pub mod determined;
pub mod laws;
pub mod next;
pub mod one_taking;
pub mod opening;
mod posting;
pub mod resource;
pub mod taken;
pub mod tick_counts;
pub mod traffic;

pub use determined::{keys_rise, simulation_exists};
pub use next::{find_next, put_next};
pub use one_taking::take;
pub use opening::{open_agenda, open_agendas, open_sent};
pub use resource::{Output, Resource, WindowDone};
pub use taken::Taken;
pub use tick_counts::TickCounts;
pub use traffic::Traffic;
