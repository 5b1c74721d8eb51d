//! The data that the crates of the simulator share, and the model that all their contracts cite.
//!
//! Guarantees to callers: a `Deploy` and a `Latency` keep their limits in their types. Keys are ordered as the
//! definitions say. Contracts see a container as what it contains. A system has at most one simulation, and the worked
//! examples have the traces that were worked out by hand.
//!
//! Read in this order:
//!
//! - `library`, `text`, `value`, `value_kind`, `function`, `name` and `name_order`: what is read;
//! - `deploy` and `latency`;
//! - `event_kind` and `event_ports`: the event blocks;
//! - `limits`;
//! - `key`, `run`, `message_values` and `emits`: what a simulation produces;
//! - `items`, `numbered`, `few`, `short`, `boxed` and `reference`: containers;
//! - `laws`.
//!
//! The definitions are in `specs/`.
#![tactic(auto)]

pub mod boxed;
pub mod deploy;
mod emits;
pub mod event_kind;
pub mod event_ports;
pub mod few;
pub mod function;
pub mod items;
pub mod key;
pub mod latency;
pub mod laws;
pub mod library;
pub mod limits;
pub mod message_values;
pub mod name;
mod name_order;
pub mod numbered;
pub mod reference;
pub mod run;
mod short;
pub mod text;
pub mod value;
pub mod value_kind;

pub use boxed::Boxed;
pub use deploy::{Deploy, Link, Plan, ResourceEntry, Setting, Stimulus};
pub use event_kind::EventKind;
pub use event_ports::{all_ports, event_block_input, event_block_output, kind_named, ports_of};
pub use few::{Few, Held};
pub use function::Function;
pub use items::Items;
pub use key::{Key, compare};
pub use latency::{Entry, Latency};
pub use library::{
    Action, Algorithm, Application, BasicType, BlockType, CompositeType, Condition, Connection,
    EventPort, Instance, Library, Network, Parameter, PortName, Ports, State, Transition, Variable,
    block_named, instance_named,
};
pub use limits::{
    LATEST_TICK, MOST_BYTES, MOST_ENTRIES, MOST_LATENCY, MOST_LINKS, MOST_NESTING, MOST_RESOURCES,
    MOST_STEPS, MOST_STIMULI, MOST_STIMULI_BYTES, MOST_WORKERS,
};
pub use message_values::{HeldValues, MessageValues};
pub use name::Name;
pub use numbered::Numbered;
pub use reference::Reference;
pub use run::{
    Carried, Emission, Emits, Event, Form, GivenRow, Halt, InputValue, InstanceVariable, Line,
    Message, StopMark, Target, TimerAsk, Values,
};
pub use text::{BinaryOperator, Body, Branch, Choice, Expr, Label, Stmt, UnaryOperator};
pub use value::{Reason, Ty, Value};
pub use value_kind::ValueKind;
