//! The lists of a declaration. Each position but the name of the application is in an item of one.

ghost use Rattle.std.specs.Prelude.{◌≡◌, IsTrue};
ghost use Rattle.fb_read_positions.specs.Lists as spec;

use crate::position::{BasicPart, NetworkPart, PortPart, Position, TransitionPart};

/// A list of a network.
#[derive(Clone, Copy, PartialEq, Eq)]
pub enum NetworkList {
    Instances,
    EventConnections,
    DataConnections,
}

/// A list of an interface.
#[derive(Clone, Copy, PartialEq, Eq)]
pub enum PortList {
    EventInputs,
    EventOutputs,
    Inputs,
    Outputs,
}

/// A list of a basic type.
#[derive(Clone, Copy, PartialEq, Eq)]
pub enum BasicList {
    Internals,
    States,
    Transitions,
    Algorithms,
}

/// A list that is in no item of another list than that of the block types.
#[derive(Clone, Copy, PartialEq, Eq)]
pub enum OuterList {
    /// The block types.
    Blocks,
    /// A list of the network of the application.
    InApplication(NetworkList),
    /// A list of the interface of the block type at this index.
    InPorts(usize, PortList),
    /// A list of the block type at this index, which is a basic type.
    InBasic(usize, BasicList),
    /// A list of the network of the block type at this index, which is a composite type.
    InComposite(usize, NetworkList),
}

/// A list of an item.
#[derive(Clone, Copy, PartialEq, Eq)]
pub enum InnerList {
    /// The variables WITH an event.
    With,
    /// The parameters of an instance.
    Parameters,
    /// The actions of a state.
    Actions,
    /// The statements of an algorithm, as they begin in the text, those inside others too.
    Statements,
    /// The variables and functions that an algorithm names.
    Mentions,
    /// The variables and functions that the guard of a transition names.
    GuardMentions,
}

/// A list of a declaration.
#[derive(Clone, Copy)]
pub enum ItemList {
    /// A list that is in no item.
    Outer(OuterList),
    /// A list of an item, by the list of that and its index.
    Inner(OuterList, usize, InnerList),
    /// The clauses of a statement, by the list of its algorithm, the index of that and that of the statement.
    Clauses(OuterList, usize, usize),
}

/// An item of a list.
#[derive(Clone, Copy)]
pub struct Item {
    /// The list.
    pub list: ItemList,
    /// The index in the list.
    pub index: usize,
}

/// An item of a list that is in no item.
pub(crate) fn outer(list: OuterList, index: usize) -> Item
    ensures { result ≡ spec.outer list index }
{
    let list = ItemList::Outer(list);
    Item { list, index }
}

/// An item of a list of an item, by the list of that and both indexes.
pub(crate) fn inner(list: OuterList, index: usize, inside: InnerList, within: usize) -> Item
    ensures { result ≡ spec.inner list index inside within }
{
    let list = ItemList::Inner(list, index, inside);
    Item {
        list,
        index: within,
    }
}

/// A clause of a statement, by the list of its algorithm and all indexes.
fn clause(list: OuterList, index: usize, statement: usize, within: usize) -> Item
    ensures { result ≡ spec.clause list index statement within }
{
    let list = ItemList::Clauses(list, index, statement);
    Item {
        list,
        index: within,
    }
}

/// A list of the network of the block type at an index, or else of the application.
fn list_in_network(block: Option<usize>, list: NetworkList) -> OuterList
    ensures { result ≡ spec.list_in_network block list }
{
    match block {
        Some(block) => OuterList::InComposite(block, list),
        None => OuterList::InApplication(list),
    }
}

/// The item to which a part of a network belongs.
fn item_in_network(block: Option<usize>, part: NetworkPart) -> Item
    ensures { result ≡ spec.item_in_network block part }
{
    let instances = list_in_network(block, NetworkList::Instances);
    match part {
        NetworkPart::Instance(index) | NetworkPart::InstanceType(index) => outer(instances, index),
        NetworkPart::Parameter(index, parameter) => {
            inner(instances, index, InnerList::Parameters, parameter)
        }
        NetworkPart::EventConnection(index, _) => {
            outer(list_in_network(block, NetworkList::EventConnections), index)
        }
        NetworkPart::DataConnection(index, _) => {
            outer(list_in_network(block, NetworkList::DataConnections), index)
        }
    }
}

/// The item to which a part of an interface belongs.
fn item_in_ports(block: usize, part: PortPart) -> Item
    ensures { result ≡ spec.item_in_ports block part }
{
    let inputs = OuterList::InPorts(block, PortList::EventInputs);
    let outputs = OuterList::InPorts(block, PortList::EventOutputs);
    match part {
        PortPart::EventInput(index) => outer(inputs, index),
        PortPart::WithInput(index, variable) => inner(inputs, index, InnerList::With, variable),
        PortPart::EventOutput(index) => outer(outputs, index),
        PortPart::WithOutput(index, variable) => inner(outputs, index, InnerList::With, variable),
        PortPart::Input(index) => outer(OuterList::InPorts(block, PortList::Inputs), index),
        PortPart::Output(index) => outer(OuterList::InPorts(block, PortList::Outputs), index),
    }
}

/// The item to which a part of a transition belongs.
fn item_in_transition(block: usize, index: usize, part: TransitionPart) -> Item
    ensures { result ≡ spec.item_in_transition block index part }
{
    let transitions = OuterList::InBasic(block, BasicList::Transitions);
    match part {
        TransitionPart::Mention(mention) => {
            inner(transitions, index, InnerList::GuardMentions, mention)
        }
        TransitionPart::From
        | TransitionPart::To
        | TransitionPart::Condition
        | TransitionPart::Guard => outer(transitions, index),
    }
}

/// The item to which a part of a basic type belongs.
fn item_in_basic(block: usize, part: BasicPart) -> Item
    ensures { result ≡ spec.item_in_basic block part }
{
    let states = OuterList::InBasic(block, BasicList::States);
    let algorithms = OuterList::InBasic(block, BasicList::Algorithms);
    match part {
        BasicPart::Internal(index) => {
            outer(OuterList::InBasic(block, BasicList::Internals), index)
        }
        BasicPart::State(index) => outer(states, index),
        BasicPart::Action(index, action)
        | BasicPart::OutputAlone(index, action)
        | BasicPart::OutputAfter(index, action) => {
            inner(states, index, InnerList::Actions, action)
        }
        BasicPart::Transition(index, part) => item_in_transition(block, index, part),
        BasicPart::Algorithm(index) => outer(algorithms, index),
        BasicPart::Statement(index, statement) => {
            inner(algorithms, index, InnerList::Statements, statement)
        }
        BasicPart::Clause(index, statement, within) => {
            clause(algorithms, index, statement, within)
        }
        BasicPart::Mention(index, mention) => {
            inner(algorithms, index, InnerList::Mentions, mention)
        }
    }
}

/// The item to which a position belongs. `None` for the name of the application.
pub(crate) fn item_of(position: Position) -> Option<Item>
    ensures { result ≡ spec.item_of position }
{
    match position {
        Position::Application => None,
        Position::Block(block) => Some(outer(OuterList::Blocks, block)),
        Position::InApplication(part) => Some(item_in_network(None, part)),
        Position::InPorts(block, part) => Some(item_in_ports(block, part)),
        Position::InBasic(block, part) => Some(item_in_basic(block, part)),
        Position::InComposite(block, part) => Some(item_in_network(Some(block), part)),
    }
}

/// The item that has a list. `None` if the text itself has it.
pub(crate) fn owner_of(list: ItemList) -> Option<Item>
    ensures { result ≡ spec.owner_of list }
{
    match list {
        ItemList::Outer(OuterList::Blocks) | ItemList::Outer(OuterList::InApplication(_)) => None,
        ItemList::Outer(OuterList::InPorts(block, _))
        | ItemList::Outer(OuterList::InBasic(block, _))
        | ItemList::Outer(OuterList::InComposite(block, _)) => {
            Some(outer(OuterList::Blocks, block))
        }
        ItemList::Inner(list, index, _) => Some(outer(list, index)),
        ItemList::Clauses(list, index, statement) => {
            Some(inner(list, index, InnerList::Statements, statement))
        }
    }
}

/// Whether two lists that are in no item are the same one.
fn is_same_outer(left: OuterList, right: OuterList) -> bool
    ensures { IsTrue result → left ≡ right }
{
    left == right
}

/// Whether two lists of items are of the same kind.
fn is_same_inner(left: InnerList, right: InnerList) -> bool
    ensures { IsTrue result → left ≡ right }
{
    left == right
}

/// Whether two lists are the same one.
pub(crate) fn is_same(left: ItemList, right: ItemList) -> bool
    ensures { IsTrue result → left ≡ right }
{
    match (left, right) {
        (ItemList::Outer(left), ItemList::Outer(right)) => is_same_outer(left, right),
        (ItemList::Inner(left, one, kind), ItemList::Inner(right, other, same))
            if one == other && is_same_inner(kind, same) => { is_same_outer(left, right) }
        (ItemList::Clauses(left, one, first), ItemList::Clauses(right, other, second))
            if one == other && first == second => { is_same_outer(left, right) }
        _ => false,
    }
}
