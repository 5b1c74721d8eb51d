//! What connections and stimuli set of an instance.

use fb_types::{Items, Value};

/// What connections and stimuli set of an instance, each in the order of the declaration.
#[derive(Drop)]
pub struct Shell {
    /// The slots of the data inputs.
    pub slots: Items<Value>,
    /// The data outputs as connections see them.
    pub published: Items<Value>,
    /// The data inputs as they were sampled: those of an event block, and the copies that a composite shows to its
    /// components. A basic block has them among its variables, and none here.
    pub inputs: Items<Value>,
}
