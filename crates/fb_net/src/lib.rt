//! The blocks of one resource, with its held copies, and taking one event by them.
//!
//! Guarantees to callers: `Tree::build` gives blocks and held copies that represent the opening state of the
//! definitions. After `Tree::take`, blocks, held copies, lines, what goes out, timer, steps and the reason to stop are
//! those of the definitions, at a leaf or at a composite, also where the resource stops (`HasTaken`).
//!
//! Read in this order:
//!
//! - the data: `block`, the recursive type; `shell`, what connections and stimuli set of an instance; `resource`, the
//!   ways to the blocks and the indexes of the shells, with what is read and changed; `held_copies`, values of variables
//!   of other resources; `laws`, what a change of one block leaves as it was;
//! - before the first event: `Tree::build`, with the modules of `opening`;
//! - one event: `arrival` and `tree`; `taking` and its modules, the steps, which share a `Taking`; `outbox`, the lines,
//!   local events and messages that they put out. What goes out has no keys.
#![tactic(auto)]

pub mod arrival;
pub mod block;
pub mod held_copies;
pub mod laws;
pub mod opening;
pub mod outbox;
pub mod resource;
pub mod shell;
mod taking;
pub mod tree;

pub use arrival::Arrival;
pub use block::Block;
pub use held_copies::HeldCopies;
pub use opening::blocks::block_of;
pub use opening::charts::Charts;
pub use outbox::{Out, Outbox, OutgoingMessage};
pub use resource::Forest;
pub use shell::Shell;
pub use tree::Tree;
