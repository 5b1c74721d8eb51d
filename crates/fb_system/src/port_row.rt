//! What is kept of an event port.

use crate::next_target::NextTarget;
use crate::source::Source;

/// The variables WITH an event.
#[derive(Clone, Copy)]
pub enum With {
    /// No variable.
    Nothing,
    /// One variable, by its index, and what it is connected to, if anything.
    One(u32, Option<Source>),
    /// More than one variable.
    Several,
}

/// An event port: the variables WITH its event, and where its first connection leads.
#[derive(Clone, Copy)]
pub struct PortRow {
    /// The variables WITH its event: data inputs at an event input, data outputs at an event output.
    pub with: With,
    /// Where its first connection leads, or `None` if it has no connection.
    pub first: Option<NextTarget>,
}
