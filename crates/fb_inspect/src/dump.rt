//! The value change dump of a trace with the inside of basic blocks.
//!
//! Read in this order: `states`, the entry; `state_wave`, which goes taking by taking; `port_dump`, the part of the
//! ports; `before`, what changes inside a block; `inner`, the lines of that; `head`, what comes before the first tick;
//! `state_laws`.

mod before;
mod head;
mod inner;
mod port_dump;
pub mod state_laws;
mod state_wave;
pub mod states;
