//! The check of a declaration, a deployment and stimuli, and the system of inputs that are accepted.
//!
//! Guarantees to callers: `judgement::judge` accepts if none of E20 to E30 applies, and otherwise returns the least
//! that does. `judgement::judged` returns what the check made on the way: indexes and numbers of names, the resources
//! that hold instances, and the stimuli by number. `judgement::why_refused` returns why inputs are refused, with all
//! locations at which the least number applies. `acceptance::accept` returns a system exactly for inputs that are
//! accepted, and otherwise the least number that applies. `types` also answers what explanations and warnings ask:
//! names, statements, and types of variables.
//!
//! Read in this order: `types`, names and kinds (E21, E22), and `networks`, networks and their mapping (E22 to E28,
//! E30). Then `case`, `fault`, `error`, `location` and `refusal`; `judgement`, the checks in the order of their numbers;
//! `network_checks` (E22 to E25) and `mapping_checks` (E26 to E28); `stimuli` (E29) with `directory` and
//! `directory_making`, what stimuli may name, and `name_pair`, how pairs of names are looked up; `row_judge`, the same
//! for rows that are given one by one. Then `acceptance`.
#![tactic(auto)]

pub mod acceptance;
pub mod case;
mod directory;
mod directory_making;
pub mod error;
pub mod fault;
pub mod judgement;
pub mod location;
mod mapping_checks;
mod name_pair;
mod network_checks;
pub mod networks;
pub mod refusal;
pub mod row_judge;
mod stimuli;
pub mod types;

pub use acceptance::accept;
pub use case::{Case, Judged};
pub use error::CheckError;
pub use fault::Fault;
pub use fb_system::System;
pub use judgement::{judge, judged, why_refused};
pub use location::{Limit, Location, StimulusFault, StimulusLocation};
pub use refusal::Refusal;
pub use row_judge::RowJudge;
