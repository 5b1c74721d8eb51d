//! Checks of networks and of their mapping, by number. In a network: values of parameters (E22), types at the ends of
//! data connections (E23), sources of data (E24). In the declaration: heights of composite types (E25), the number of
//! instances (E30). In a deployment: instances and connections that it does not map to resources and links (E26 to
//! E28).
//!
//! Guarantees to callers: for E23, E24, E27 and E28 a function lists all locations at which it applies, in the order of
//! the declaration; the list is empty exactly if it does not apply. So does that of E26, which also returns the
//! mapping; that of E25 finds one location if there is one. For the others a function says whether it applies. Heights
//! and numbers of instances are computed in rounds over types, so no instance is made to refuse a declaration.
//! `values::is_within` says which types contain all values of another.
//!
//! Read in this order: `variables` and `values`, types by number; `parameters`, `ranges`, `sources`, `heights`,
//! `counts`. Then `mapping` (E26); `links` (E27); `interfaces`, `serving` and `uncarried` (E28); `laws`.

pub mod counts;
pub mod heights;
mod interfaces;
pub mod laws;
pub mod links;
pub mod mapping;
pub mod parameters;
pub mod ranges;
mod serving;
pub mod sources;
pub mod uncarried;
pub mod values;
mod variables;

pub use counts::has_too_many_instances;
pub use heights::too_high_location;
pub use links::no_link_locations;
pub use mapping::{Listed, Mapping, holders_of, mapping_of, resource_of};
pub use parameters::push_wrong_parameters;
pub use ranges::out_of_range_locations;
pub use sources::two_sources_locations;
pub use uncarried::no_event_locations;
pub use values::is_within;
