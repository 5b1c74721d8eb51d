//! Draws what is declared: graphs in the DOT language, which graphviz makes pictures of.
//!
//! Guarantees to callers: the text is exactly the graph that the definitions have of the declaration and the
//! deployment. Each instance, connection, link, state and transition is in it once, in the order of the texts.
//!
//! Read in this order: `graph`, the entry; `resource`, `network`, `block` and `connection`, the application and
//! composite types; `chart`, basic types; `dot`, where a graph begins and ends.
#![tactic(auto)]

mod block;
mod chart;
mod connection;
mod dot;
pub mod graph;
mod network;
mod resource;

pub use graph::draw;
