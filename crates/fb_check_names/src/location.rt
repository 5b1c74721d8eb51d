//! Locations at which a name is unknown, a value, an expression or a statement has the wrong kind, a data connection
//! leads out of range, or two lead to one port.

use crate::pairs::Repeat;

/// A network of a declaration.
#[derive(Clone, Copy)]
pub enum Site {
    /// The network of the application.
    Application,
    /// The network inside the composite type at this index among the block types.
    Inside(usize),
}

/// What a connection carries.
#[derive(Clone, Copy)]
pub enum FlowKind {
    Events,
    Data,
}

/// An end of a connection or of a link.
#[derive(Clone, Copy)]
pub enum Side {
    From,
    To,
}

/// Whether an event is an input or an output.
#[derive(Clone, Copy)]
pub enum Direction {
    Input,
    Output,
}

/// A name of a transition.
#[derive(Clone, Copy)]
pub enum TransitionPart {
    From,
    To,
    Event,
}

/// A name of an action.
#[derive(Clone, Copy)]
pub enum ActionPart {
    Algorithm,
    Output,
}

/// A location of a declaration or a deployment at which a name is unknown. Items of lists are counted from 0, in
/// the order of the text.
#[derive(Clone, Copy)]
pub enum UnknownName {
    /// The type of an instance of a network.
    InstanceType {
        site: Site,
        instance: usize,
    },
    /// A parameter of an instance.
    Parameter {
        site: Site,
        instance: usize,
        parameter: usize,
    },
    /// An end of a connection, counted among those that carry the same.
    End {
        site: Site,
        flow: FlowKind,
        connection: usize,
        side: Side,
    },
    /// A variable in the WITH list of an event, an input or an output of the block type.
    With {
        block: usize,
        direction: Direction,
        event: usize,
        variable: usize,
    },
    /// A name of a transition of the block type.
    Transition {
        block: usize,
        transition: usize,
        part: TransitionPart,
    },
    /// A name of an action of a state of the block type.
    Action {
        block: usize,
        state: usize,
        action: usize,
        part: ActionPart,
    },
    /// A variable or a function in a guard of the block type, counted as they occur in the text.
    Guard {
        block: usize,
        transition: usize,
        mention: usize,
    },
    /// A variable or a function in an algorithm of the block type, counted the same way.
    Body {
        block: usize,
        algorithm: usize,
        mention: usize,
    },
    /// An instance that a resource lists.
    Mapped {
        resource: usize,
        instance: usize,
    },
    /// An end of a link.
    LinkEnd {
        link: usize,
        side: Side,
    },
}

/// A list of the variables of a block type.
#[derive(Clone, Copy)]
pub enum Variables {
    Inputs,
    Outputs,
    Internals,
}

/// What is required of a statement by itself, except for the statements inside it.
#[derive(Clone, Copy)]
pub enum StatementPart {
    /// EXIT is in a loop.
    Exit,
    /// The variable that is assigned, or that controls a FOR, is not an input.
    Assigned,
    /// The assigned value has the kind of the variable.
    Value,
    /// The condition of IF, or of the ELSIF at this index after it, is a truth value.
    Choice(usize),
    /// The selector of CASE is a number.
    Selector,
    /// The variable that controls a FOR is a number.
    Control,
    /// The start of a FOR is a number.
    Start,
    /// The end of a FOR is a number.
    End,
    /// The step of a FOR is a number.
    Step,
    /// The condition of WHILE is a truth value.
    Condition,
    /// The condition of UNTIL is a truth value.
    Until,
}

/// A location at which a kind is wrong. Items of lists are counted from 0, in the order of the text.
#[derive(Clone, Copy)]
pub enum KindWrongAt {
    /// The declared value of a variable of the block type.
    Initial {
        block: usize,
        variables: Variables,
        variable: usize,
    },
    /// A parameter of an instance.
    Parameter {
        site: Site,
        instance: usize,
        parameter: usize,
    },
    /// The guard of a transition of the block type.
    Guard {
        block: usize,
        transition: usize,
    },
    /// A part of a statement of an algorithm of the block type. Statements are counted as they begin in the text.
    Statement {
        block: usize,
        algorithm: usize,
        statement: usize,
        part: StatementPart,
    },
}

/// A data connection, among those of its network, counted from 0 in the order of the text.
#[derive(Clone, Copy)]
pub struct OutOfRangeAt {
    /// The network.
    pub site: Site,
    /// The index among the data connections of the network.
    pub connection: usize,
}

/// Two data connections of one network that lead to one port.
#[derive(Clone, Copy)]
pub struct TwoSourcesAt {
    /// The network.
    pub site: Site,
    /// Their indexes among the data connections of the network.
    pub connections: Repeat,
}

/// A connection of the application between two resources without a link.
#[derive(Clone, Copy)]
pub struct NoLinkAt {
    /// What it carries.
    pub flow: FlowKind,
    /// Its index among the connections that carry the same.
    pub connection: usize,
}

/// Where an instance of the application is not mapped to one resource (E26).
#[derive(Clone, Copy)]
pub enum NotMappedAt {
    /// No resource lists the instance at this index of the application.
    Unlisted(usize),
    /// A name is listed twice, in the lists of all resources, one after another.
    Again(Repeat),
}

/// A composite type and an instance inside it that makes it too high, by their indexes (E25).
#[derive(Clone, Copy)]
pub enum TooHighAt {
    /// The type contains itself.
    Circle(usize, usize),
    /// The type has a height over 16.
    Height(usize, usize),
}
