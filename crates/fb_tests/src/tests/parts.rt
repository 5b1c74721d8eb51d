//! Tests of what no run of the program shows: blocks, agendas and shared data by themselves; resources that run by
//! themselves; lines and inputs that no run has. Expected values were worked out by hand.
//!
//! Each test ends the process if memory runs out. It drops systems and resources, which cost one call, and
//! forgets other values: code that drops such a value proves again how each of its parts is dropped.

mod agendas;
mod belonging;
mod bodies;
mod chain;
mod emissions;
mod examples;
mod expressions;
mod inputs;
mod latencies;
mod limits;
mod links;
mod messages;
mod narrow;
mod numbers;
mod readers;
mod shared;
mod timers;
mod wiring;

pub use belonging::all_belong;
