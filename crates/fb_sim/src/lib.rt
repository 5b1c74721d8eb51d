//! Runs of a simulation, from the bytes of its inputs to those of its trace.
//!
//! The guarantee to callers is the headline: `run`, with workers, and `run_serial`, on one thread, write the trace of
//! the one-thread simulation of accepted inputs. So does a `Simulation` that its caller advances. `run_with_progress`
//! also reports the progress of a run. This crate has no rule about simulation.
//!
//! Read in this order: `options` and `outcome`; `reading`, the steps before a run; `serial` with `one_agenda`, a run on
//! one thread. A run with workers: `runs`, `progress`, and `rounds`, whose page explains the choice between rounds, turns
//! and one agenda. Then `simulation` and `state`; `laws`, what follows for rounds to rising horizons; `with_progress`, a run
//! that reports its progress.
#![tactic(auto)]

pub mod laws;
mod one_agenda;
pub mod options;
pub mod outcome;
pub mod progress;
pub mod reading;
pub mod rounds;
pub mod runs;
pub mod serial;
pub mod simulation;
pub mod state;
pub mod with_progress;

pub use fb_trace::Outcome;
pub use fb_types::run::Form;
pub use options::{Inputs, Options};
pub use outcome::{Refusal, RunError};
pub use progress::Round;
pub use reading::{discard, open};
pub use rounds::pace::NoClock;
pub use rounds::round;
pub use runs::{open_core, run, run_with_clock};
pub use serial::{check, run_serial};
pub use simulation::Simulation;
pub use state::Stage;
pub use with_progress::{ReportedRun, run_with_progress};
