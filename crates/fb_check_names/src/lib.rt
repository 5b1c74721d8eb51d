//! Names: their indexes in a declaration and a deployment, and the numbers of their meaning. This finds names that
//! are given twice (E20).
//!
//! Guarantees to callers: `catalog::catalog_of` lists all that is given twice, in the order of the declaration; the
//! list is empty exactly if E20 does not apply, and then it returns the index of every name.
//!
//! Locations at which a number applies count what is meant by its indexes in the lists of a declaration.
//!
//! Read in this order:
//!
//! - `location` and `twice`: locations;
//! - `listed` and `pairs`: lists of them;
//! - `placing` and `named`: the names of one list;
//! - `repeats`: what a list gives twice;
//! - `spaces`: the names of a type, a network or a deployment;
//! - `catalog` and `laws`;
//! - `numbers`: the numbers of types, ports, instances, resources and links;
//! - `types` and `ports`: the meaning of names by their indexes.
#![tactic(auto)]

pub mod catalog;
pub mod laws;
pub mod listed;
pub mod location;
pub mod named;
pub mod numbers;
pub mod pairs;
pub mod placing;
pub mod ports;
pub mod repeats;
mod spaces;
pub mod twice;
pub mod types;

pub use catalog::{BlockIndexes, Catalog, catalog_of};
pub use listed::push_unless;
pub use location::{
    ActionPart, Direction, FlowKind, KindWrongAt, NoLinkAt, NotMappedAt, OutOfRangeAt, Side, Site,
    StatementPart, TooHighAt, TransitionPart, TwoSourcesAt, UnknownName, Variables,
};
pub use named::{Named, first_repeat, indexes, push_names};
pub use numbers::{
    ConnectionEnd, LinkEnds, NetworkNumbers, NumberedConnection, Resolved, TypeNumber,
};
pub use pairs::{Repeat, push_pair};
pub use placing::{Indexes, index_of, index_of_name, indexes_of, last_indexes};
pub use ports::PortKind;
pub use repeats::{EndNames, NameSpace, end_names};
pub use twice::{GivenTwice, InBlock, InNetwork};
