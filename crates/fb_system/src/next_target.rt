//! Where a connection leads.

use fb_types::Target;

/// Where one of the connections from an event leads, whether another one follows, and which way an event takes.
#[derive(Clone, Copy)]
pub struct NextTarget {
    /// The event to which the connection leads.
    pub target: Target,
    /// Set if another connection from the same event follows.
    pub more: bool,
    /// Set if the target is in the same resource as the instance from which the connection leads.
    pub here: bool,
    /// The number of the link from the resource of that instance to the target's, or 0 if there is none.
    pub link: u16,
}
