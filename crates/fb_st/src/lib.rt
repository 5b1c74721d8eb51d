//! Structured Text (IEC 61131-3, 7.3): values of expressions and runs of statements.
//!
//! Guarantees to callers: `evaluation::eval` gives the value of an expression, or the reason for which it has none.
//! `execution::exec` runs an algorithm as the definitions say, steps counted. `algorithm::exec_compiled` does the same
//! with the form that `compile_body` makes once for each type. A `frame::Frame` keeps variables within their types.
//!
//! Read in this order: `frame` and `slot_list`, the variables; `evaluation` with `operator` and `function`;
//! `meter`, the steps; `execution` with `assign`; `known`. Then `layout` and `compiled`; `scope`, `compile_expr` and
//! `compile_stmt`; `short`, for numbers that fit 64 bits, and `exact`, for all; `running`; `algorithm`.
#![tactic(auto)]

pub mod algorithm;
mod assign;
mod compile_expr;
mod compile_stmt;
pub mod compiled;
pub mod evaluation;
mod exact;
pub mod execution;
pub mod frame;
mod function;
pub mod known;
pub mod layout;
pub mod meter;
mod operator;
mod running;
pub mod scope;
mod short;
pub mod slot_list;

pub use algorithm::{exec_compiled, holds_compiled};
pub use compile_expr::{CompileError, compile_guard};
pub use compile_stmt::compile_body;
pub use evaluation::{eval, holds};
pub use execution::exec;
pub use frame::{Frame, Slot};
pub use known::knows;
pub use layout::Layout;
pub use meter::{Flow, Meter};
pub use scope::Scope;
pub use slot_list::SlotList;
