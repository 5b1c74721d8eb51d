//! Where a connection leads in a netlist, which knows no resources.

use fb_types::Target;

/// Where one of the connections from an event leads, and whether another one follows.
#[derive(Clone, Copy)]
pub struct NetlistTarget {
    /// The event to which the connection leads.
    pub target: Target,
    /// Set if another connection from the same event follows.
    pub more: bool,
}
