//! Adds what is declared to a text, as graphs, reports and messages write it: values, expressions, conditions, types.
//!
//! Guarantees to callers: each function adds exactly the text that the definitions have of what it is given, after what
//! the text has already. An expression or a condition is as it was written, but for blanks, letter case and the forms of
//! literals. The only error is that memory runs out.
//!
//! Read in this order: `pieces`, one piece after another, numbers and values; `expression`, Structured Text;
//! `condition`, what a transition waits for; `keywords`, types.
#![tactic(auto)]

pub mod condition;
pub mod expression;
pub mod keywords;
pub mod pieces;

pub use condition::put_condition;
pub use expression::put_expression;
pub use keywords::type_words;
pub use pieces::{put_all, put_number, put_value};
