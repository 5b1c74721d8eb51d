//! What is wrong at a location, as text.
//!
//! Read in this order: `text` for a declaration that can't be read; `flaw` for inputs that can be read, with `unknown`,
//! `kind`, `operand` and `stimulus`; `deployment`, `stimuli` and `rules` for files that can't be read.

pub mod deployment;
pub(crate) mod flaw;
pub(crate) mod kind;
pub(crate) mod operand;
pub mod rules;
pub mod stimuli;
pub(crate) mod stimulus;
pub mod text;
pub(crate) mod unknown;
