//! Finds what an accepted declaration, deployment and list of stimuli probably do not mean.
//!
//! Guarantees to callers: `warnings` returns exactly what the definitions have of a declaration, a deployment and
//! stimuli: the warnings about the block types one after another, then about the application, the stimuli and the links.
//! By `laws::warnings_hold` each of them holds at its position.
//!
//! Read in this order: `warning`; `findings`, `names` and `parameters`; `interfaces`, `charts`, `events`, `reached`, `reads`,
//! `algorithms`, `uses`, `outputs`, `circles`, `constants`, `statements`, `networks`, `instances` and `links`, which have
//! the numbers; `lint`, all of them; `laws`; `words` and `lines`, warnings as texts; `positions`, where they are;
//! `subjects`, what they are about.
#![tactic(auto)]

pub mod algorithms;
mod charts;
mod circles;
mod constants;
mod events;
mod findings;
mod instances;
mod interfaces;
pub mod laws;
pub mod lines;
mod links;
pub mod lint;
mod names;
mod networks;
mod outputs;
mod parameters;
pub mod positions;
pub mod reached;
mod reads;
mod statements;
pub mod subjects;
mod uses;
pub mod warning;
pub mod words;

pub use lines::line_of;
pub use lint::warnings;
pub use positions::{position_of, positions_of};
pub use subjects::is_about;
pub use warning::{LAST_NUMBER, Warning};
pub use words::warning_message;
