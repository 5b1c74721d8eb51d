//! Cores of resources, and schedules of their steps.
//!
//! A run goes on in rounds. In each the core says how far each resource may run (`bounds`), and is taken apart into
//! jobs (`leave`), which workers may do in any order (`job`). When all are done it is put together again, messages are
//! exchanged, and the lines that have become final are handed out (`settle`). The law of schedules (`laws`), which
//! knows nothing of this code, says what the rounds lead to.
//!
//! Read in this order: `laws`; `cores`, `links` and `open`, what a core is; `bounds`; `leave` and `job`; `settle`, with
//! `home`, `post`, `frontier`, `cut`, `ends` and `paired`; `turn_series`, with `nexts`.
#![tactic(auto)]

pub mod bounds;
pub mod cores;
mod cut;
mod ends;
mod frontier;
mod home;
pub mod job;
pub mod laws;
mod leave;
pub mod links;
mod nexts;
mod open;
mod paired;
mod post;
pub mod settle;
mod turn_series;

pub use cores::{Away, AwayState, Bounds, Core, CoreState, Failed, Reach, Settled};
pub use job::Job;
pub use links::{LinkRow, SystemLinks};
