//! The blocks, shells and held copies of a resource before the first event.
//!
//! Read in this order: `charts` and `blocks`, one block; `trees`, a block with all that is inside it; `roots`, the trees
//! of a resource; `shells` and `shell_indexes`, what connections and stimuli set; `copies`, the held copies.

pub mod blocks;
pub mod charts;
pub(crate) mod copies;
pub(crate) mod roots;
pub(crate) mod shell_indexes;
pub(crate) mod shells;
pub(crate) mod trees;
