//! What a declaration or a deployment gives twice.

use crate::pairs::Repeat;

/// What a network gives twice.
#[derive(Clone, Copy)]
pub enum InNetwork {
    /// The name of an instance.
    Instance(Repeat),
    /// A parameter of the instance at this index.
    Parameter(usize, Repeat),
    /// An event connection.
    Connection(Repeat),
}

/// What a block type gives twice.
#[derive(Clone, Copy)]
pub enum InBlock {
    /// A name of its event inputs, event outputs, inputs, outputs and internal variables, which are one list in this
    /// order.
    Port(Repeat),
    /// A variable WITH the event input at this index.
    WithInput(usize, Repeat),
    /// A variable WITH the event output at this index.
    WithOutput(usize, Repeat),
    /// The name of a state.
    State(Repeat),
    /// The name of an algorithm.
    Algorithm(Repeat),
    /// Something in the network inside.
    Inside(InNetwork),
}

/// What a declaration or a deployment gives twice. Indexes in lists are counted from 0.
#[derive(Clone, Copy)]
pub enum GivenTwice {
    /// The name of an event block, given to the block type at this index.
    EventBlock(usize),
    /// The name of a block type.
    Type(Repeat),
    /// Something of the block type at this index.
    Block(usize, InBlock),
    /// Something of the application.
    Application(InNetwork),
    /// The name of a resource.
    Resource(Repeat),
    /// A link from one resource to another.
    Link(Repeat),
}
