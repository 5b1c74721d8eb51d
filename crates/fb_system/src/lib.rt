//! An accepted declaration with its deployment and stimuli, looked up by number.
//!
//! Guarantees to callers: a `System` keeps in its type that its inputs are accepted. Each accessor returns what the flat
//! system of the definitions has. Contracts see the inputs alone. A share of a system is the same system. The time of a
//! lookup does not grow with the number of instances, and tables of connections are kept by type, not by instance.
//!
//! Read in this order: `system`, the accessors; `stimulus`; `whole`, the tables; `types`. Then the tables:
//!
//! - Instances and connections: `layout`, the tree of composites as a list; `wiring`, where the connections of a network
//!   lead, with `connection_table`; `netlist`, the lookups in both, and `netlist_target`, where a connection leads;
//!   `tables` and `declared`, how a lookup works; `making`.
//! - Resources: `links`, resources and links; `instance_resources`, the resources of all instances.
//! - Types: `interfaces` with `with_indexes` and `event_block_with_indexes`, the variables WITH each event.
//! - Rows for lookups in one step, in `kept`, found by `row_ranges`: `heads` with `heads_of`, the heads of lines, and
//!   `ends` with `ends_of`, event ports (`port_row`, `next_target`; `port_tables` makes them) and where variables come
//!   from (`source`).
//! - Values: `initial_values`; `rows`, the stimuli by number.
//!
//! The check fills them: `given`. `with_all` passes owned values around calls that may fail, so that each is dropped at
//! one point.
#![tactic(auto)]

mod connection_table;
mod declared;
mod ends;
mod ends_of;
mod event_block_with_indexes;
pub mod given;
pub mod heads;
mod heads_of;
mod initial_values;
mod instance_resources;
pub mod interfaces;
mod kept;
pub mod layout;
pub mod links;
mod making;
pub mod netlist;
pub mod netlist_target;
pub mod next_target;
pub mod port_row;
mod port_tables;
mod row_ranges;
pub mod rows;
pub mod source;
pub mod stimulus;
pub mod system;
mod tables;
mod types;
mod whole;
pub mod wiring;
mod with_all;
pub mod with_indexes;

pub use given::Given;
pub use heads::{Head, HeadOf, ROW};
pub use interfaces::{Interfaces, interfaces_of};
pub use layout::{InstanceRow, Layout};
pub use links::Links;
pub use netlist::Netlist;
pub use netlist_target::NetlistTarget;
pub use next_target::NextTarget;
pub use port_row::{PortRow, With};
pub use rows::StimulusRow;
pub use source::Source;
pub use stimulus::StimulusAt;
pub use system::System;
pub use wiring::Wiring;
pub use with_indexes::WithIndexes;
