//! Where the reaction of a basic block stops.

use crate::{Operation, Placed};
use fb_types::{Reason, Value};

/// The statement of an algorithm at which a reason comes.
#[derive(Clone, Copy)]
pub struct Inside {
    /// The number of the statement. Statements are counted from 0 as they begin in the text, those inside others too. If
    /// no step is left, this is the innermost loop around the statement, or the statement if it is in none.
    pub statement: usize,
    /// The operation that has no value, or the outermost one of an assignment whose value does not fit the variable.
    /// `None` if the count of steps ran out, or the value of a FOR does not fit its variable.
    pub operation: Option<Placed>,
    /// The value that does not fit the variable to which the statement assigns it. `None` for other reasons.
    pub value: Option<Value>,
}

/// What gives the reason for which a reaction stops.
#[derive(Clone, Copy)]
pub enum Site {
    /// A transition: its guard has no value, or no step is left for it.
    Transition {
        /// The index of the state that it leaves.
        state: usize,
        /// Its index among the transitions that leave this state, in the order of the text.
        transition: usize,
        /// The operation of its guard that has no value, as tokens of the guard. `None` if no step is left.
        operation: Option<Operation>,
    },
    /// An action: its algorithm stops, or no step is left for it.
    Action {
        /// The index of the state that was entered.
        state: usize,
        /// Its index among the actions of this state.
        action: usize,
        /// The statement of its algorithm. `None` if no step is left for the action itself.
        inside: Option<Inside>,
    },
}

/// A reaction that stops: why, and where.
#[derive(Clone, Copy)]
pub struct ReactionStop {
    pub reason: Reason,
    pub site: Site,
}
