//! What a variable is connected to.

use fb_types::InstanceVariable;

/// What a variable is connected to, and whether both are in the same resource.
#[derive(Clone, Copy)]
pub struct Source {
    /// The variable that the connection comes from.
    pub variable: InstanceVariable,
    /// Set if it is in the same resource as the variable to which the connection leads.
    pub here: bool,
}
