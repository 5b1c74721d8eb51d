//! The reactions of basic blocks by their execution control charts (IEC 61499-1, 5.2).
//!
//! Guarantees to callers: `reaction::react` goes through the chain of states of the definitions: variables, emissions,
//! steps, and the reason to stop. `state::BasicState::open` opens a block of a type of an accepted declaration, with the
//! one chart and program that all blocks of the type share.
//!
//! Read in this order: `state`, a block between reactions; `chart` and `numbers`, its chart by indexes; `program`, its
//! algorithms and guards as they run; `shared`, how the blocks of its type share both. Then `reaction`, `trial` and
//! `action`; `steps`, the same chain step by step.
#![tactic(auto)]

mod action;
mod chart;
mod numbers;
mod program;
pub mod reaction;
pub mod shared;
pub mod state;
pub mod steps;
mod trial;

pub use reaction::react;
pub use shared::SharedChart;
pub use state::BasicState;
pub use steps::{act, action_count, begin, clear};
