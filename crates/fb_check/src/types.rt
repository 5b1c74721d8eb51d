//! Names that are unknown in a declaration or a deployment (E21) and the numbers of those that are known, the meaning
//! of the names of a block type, the kinds of expressions, and where kinds are wrong (E22).
//!
//! Guarantees to callers: `resolution::resolve` lists the locations at which nothing of the required kind has a name,
//! exactly those. If there is none, it returns types, ports, instances, resources and links by their indexes. `scope`
//! has the meaning of the names of a basic type, `value_kinds` the kinds of expressions, and `variables` the types of
//! variables if no index of names is at hand. `kinds_wrong::kind_wrong_locations` lists all locations at which a declared
//! value, a parameter, a guard or a statement has the wrong kind, in the order of the declaration. By the functions of
//! `laws` and `kind_laws` the number applies if a location is listed. `statements::all_statements` lists the statements
//! of an algorithm as they begin in the text.
//!
//! Read in this order: `interface` and `scope`, the meaning of names; `adding`, items added to lists; `mentions`,
//! `charts` and `basics`, names in basic types; `ends` and `networks`, networks; `blocks` and `deployment`;
//! `resolution`; `laws`. Then `value_kinds`, kinds; `variables`; `statements`, `kinds_wrong`; `kind_laws`.

pub(crate) mod adding;
mod basics;
mod blocks;
mod charts;
mod deployment;
pub mod ends;
mod interface;
pub mod kind_laws;
pub mod kinds_wrong;
pub mod laws;
pub mod mentions;
mod networks;
pub mod resolution;
pub mod scope;
pub mod statements;
pub mod value_kinds;
pub mod variables;

pub use ends::{input_of, output_of};
pub use kinds_wrong::{internals_of, kind_wrong_locations};
pub use resolution::resolve;
pub use scope::Scope;
pub use statements::{Standing, all_statements};
pub use value_kinds::{
    Typing, are_same, is_step_whole, is_value_kind, value_kind_of, value_kind_of_type,
};
pub use variables::{port_type, type_among, variable_type};
