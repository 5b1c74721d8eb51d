//! Positions in a declaration.

/// A position in a declaration: a name, or the beginning of a statement or of an expression. Items of lists are counted
/// from 0, in the order of the text.
#[derive(Clone, Copy)]
pub enum Position {
    /// The name of the application.
    Application,
    /// A part of the network of the application.
    InApplication(NetworkPart),
    /// The name of the block type at this index.
    Block(usize),
    /// A part of the interface of the block type at this index.
    InPorts(usize, PortPart),
    /// A part of the block type at this index, which is a basic type.
    InBasic(usize, BasicPart),
    /// A part of the network of the block type at this index, which is a composite type.
    InComposite(usize, NetworkPart),
}

/// A part of a network.
#[derive(Clone, Copy)]
pub enum NetworkPart {
    /// The name of an instance.
    Instance(usize),
    /// The name of the type of an instance.
    InstanceType(usize),
    /// The name of a parameter, by the index of the instance and that of the parameter.
    Parameter(usize, usize),
    /// A name of an event connection.
    EventConnection(usize, ConnectionPart),
    /// A name of a data connection.
    DataConnection(usize, ConnectionPart),
}

/// A name of a connection.
#[derive(Clone, Copy)]
pub enum ConnectionPart {
    /// The first name of the port from which it leads, with which the connection begins.
    From,
    /// The name after the dot in the port from which it leads.
    FromPort,
    /// The first name of the port to which it leads.
    To,
    /// The name after the dot in the port to which it leads.
    ToPort,
}

/// A part of an interface.
#[derive(Clone, Copy)]
pub enum PortPart {
    /// The name of an event input.
    EventInput(usize),
    /// A variable WITH an event input, by the index of the event and that of the variable in its list.
    WithInput(usize, usize),
    /// The name of an event output.
    EventOutput(usize),
    /// A variable WITH an event output.
    WithOutput(usize, usize),
    /// The name of a data input.
    Input(usize),
    /// The name of a data output.
    Output(usize),
}

/// A part of a basic type.
#[derive(Clone, Copy)]
pub enum BasicPart {
    /// The name of an internal variable.
    Internal(usize),
    /// The name of a state.
    State(usize),
    /// The beginning of an action, by the index of the state and that of the action: the algorithm, if it has one.
    Action(usize, usize),
    /// The output event of an action that is an output event alone.
    OutputAlone(usize, usize),
    /// The output event of an action that has an algorithm too.
    OutputAfter(usize, usize),
    /// A part of a transition.
    Transition(usize, TransitionPart),
    /// The name of an algorithm.
    Algorithm(usize),
    /// The beginning of a statement, by the index of the algorithm and that of the statement. Statements are counted as
    /// they begin in the text, those inside others too.
    Statement(usize, usize),
    /// The beginning of a clause of a statement, by the index of the algorithm, that of the statement and that of the
    /// clause. Of an IF, 0 is the IF and a number from 1 its ELSIF of this number. Of a REPEAT, 0 is the REPEAT and 1
    /// its UNTIL.
    Clause(usize, usize, usize),
    /// A variable or a function that an algorithm names, counted as they occur in the text.
    Mention(usize, usize),
}

/// A part of a transition.
#[derive(Clone, Copy)]
pub enum TransitionPart {
    /// The state that it leaves.
    From,
    /// The state that it enters.
    To,
    /// The beginning of its condition: the event, if it has one.
    Condition,
    /// The beginning of its guard, after the bracket.
    Guard,
    /// A variable or a function that the guard names, counted as they occur in the text.
    Mention(usize),
}
