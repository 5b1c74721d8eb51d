//! Links between resources: when a message arrives, and which resource gets it.
//!
//! A link leads from one resource to another and delays each message by its latency, which depends on the tick at which
//! the message is sent. So a message may overtake an earlier one of the same link. This crate knows only messages and
//! links: it neither runs a resource nor keeps an agenda.
//!
//! Guarantees to callers: `arrival` is the tick of the definitions, sending tick plus latency. `earliest` is the least
//! tick at which a message can arrive that is sent at a given tick or later, so the receiver may run all ticks before
//! it. `exchange` gives each resource exactly the messages for it, sorted by their keys, so the order in which outboxes
//! were filled does not matter.
//!
//! Read in this order: `arrivals` with `specs/Arrivals`; `specs/Messages`, where a message goes and its key; `inboxes`,
//! which has `exchange`, with `specs/Exchanges`.
#![tactic(auto)]

mod arrivals;
mod inboxes;

pub use arrivals::{arrival, earliest};
pub use inboxes::exchange;
