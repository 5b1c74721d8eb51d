//! Laws of the model that runs rest on: variables keep to their types, and links and resources of every accepted system
//! are sound.
//!
//! Guarantees to callers: in every simulation of accepted inputs, each variable, each held copy and each event has
//! values of its type, so no value is checked again when it is sampled or arrives (`typing`). In an accepted system a
//! message arrives later than it was sent, and over a link that exists (`soundness`).
//!
//! Read in this order: `specs/Typed`, types in a world; `specs/Simulations`, types in a simulation; `typing`. Then
//! `specs/Sound` with `soundness`; `proofs/lemmas/soundness/Accepting`, an accepted system is sound; `proofs/lemmas/soundness/Outs`, what a reaction
//! emits goes over links that exist. For one resource: `specs/ResourceLaw` and `proofs/lemmas/resources/OneResource`; for rows that are
//! given while a simulation goes on: `specs/GivenRows`; for schedules of all resources: `specs/ScheduleLaw` and
//! `proofs/lemmas/schedules/Keeps`. Their laws are functions of `fb_resource` and `fb_window`.
#![tactic(auto)]

pub mod soundness;
pub mod typing;

pub use soundness::accepted_are_sound;
pub use typing::{accepted_are_typed, simulations_are_typed, types_are_kept};
