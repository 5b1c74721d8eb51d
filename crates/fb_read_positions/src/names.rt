//! The names that a library has at positions.

ghost use Rattle.std.specs.Prelude.{◌≡◌, option_and_then, option_map, slice_get};
ghost use Rattle.std.specs.Option.{option_copied};
ghost use Rattle.fb_read_positions.specs.Spans as spec;

use crate::position::{BasicPart, ConnectionPart, NetworkPart, PortPart, Position, TransitionPart};
use fb_check_names::Named;
use fb_types::{
    Action, BasicType, BlockType, Connection, EventPort, Instance, Library, Name, Network,
    PortName, Ports, State, Transition,
};

/// The first name of a port.
fn first_name(port: &PortName) -> &Name
    ensures { result.now ≡ spec.first_name port.now }
{
    match &port.component {
        Some(component) => component,
        None => &port.port,
    }
}

fn name_of_connection(part: ConnectionPart, connection: &Connection) -> &Name
    ensures { result.now ≡ spec.name_of_connection part connection.now }
{
    match part {
        ConnectionPart::From => first_name(&connection.from),
        ConnectionPart::FromPort => &connection.from.port,
        ConnectionPart::To => first_name(&connection.to),
        ConnectionPart::ToPort => &connection.to.port,
    }
}

/// The name of the item at an index.
fn name_of<T: Named>(items: &[T], index: usize) -> Option<&Name>
    ensures { option_copied result ≡ option_map T.called (slice_get items.now index) }
{
    Some(items.get(index)?.name())
}

/// The name of the type of the instance at an index.
fn type_of(instances: &[Instance], index: usize) -> Option<&Name>
    ensures { option_copied result ≡ option_map (λ i. i.block_type) (slice_get instances.now index) }
{
    Some(&instances.get(index)?.block_type)
}

fn parameter_name(instances: &[Instance], index: usize, parameter: usize) -> Option<&Name>
    ensures { option_copied result ≡ spec.parameter_name instances.now index parameter }
{
    name_of(instances.get(index)?.parameters.as_slice(), parameter)
}

/// A name of the connection at an index.
fn name_at_end(connections: &[Connection], index: usize, part: ConnectionPart) -> Option<&Name>
    ensures { option_copied result ≡ option_map (spec.name_of_connection part) (slice_get connections.now index) }
{
    Some(name_of_connection(part, connections.get(index)?))
}

fn name_in_network(part: NetworkPart, network: &Network) -> Option<&Name>
    ensures { option_copied result ≡ spec.name_in_network part network.now }
{
    let instances = network.instances.as_slice();
    match part {
        NetworkPart::Instance(index) => name_of(instances, index),
        NetworkPart::InstanceType(index) => type_of(instances, index),
        NetworkPart::Parameter(index, parameter) => parameter_name(instances, index, parameter),
        NetworkPart::EventConnection(index, part) => {
            name_at_end(network.event_connections.as_slice(), index, part)
        }
        NetworkPart::DataConnection(index, part) => {
            name_at_end(network.data_connections.as_slice(), index, part)
        }
    }
}

fn with_name(events: &[EventPort], event: usize, variable: usize) -> Option<&Name>
    ensures { option_copied result ≡ spec.with_name events.now event variable }
{
    events.get(event)?.with.get(variable)
}

pub(crate) fn name_in_ports(part: PortPart, ports: &Ports) -> Option<&Name>
    ensures { option_copied result ≡ spec.name_in_ports part ports.now }
{
    match part {
        PortPart::EventInput(event) => name_of(ports.event_inputs.as_slice(), event),
        PortPart::WithInput(event, variable) => with_name(
            ports.event_inputs.as_slice(),
            event,
            variable,
        ),
        PortPart::EventOutput(event) => name_of(ports.event_outputs.as_slice(), event),
        PortPart::WithOutput(event, variable) => with_name(
            ports.event_outputs.as_slice(),
            event,
            variable,
        ),
        PortPart::Input(variable) => name_of(ports.inputs.as_slice(), variable),
        PortPart::Output(variable) => name_of(ports.outputs.as_slice(), variable),
    }
}

fn name_of_transition(part: TransitionPart, transition: &Transition) -> Option<&Name>
    ensures { option_copied result ≡ spec.name_of_transition part transition.now }
{
    match part {
        TransitionPart::From => Some(&transition.from),
        TransitionPart::To => Some(&transition.to),
        TransitionPart::Condition => transition.condition.event.as_ref(),
        TransitionPart::Guard | TransitionPart::Mention(_) => None,
    }
}

pub(crate) fn action_at(states: &[State], state: usize, action: usize) -> Option<&Action>
    ensures { option_copied result ≡ spec.action_at states.now state action }
{
    states.get(state)?.actions.get(action)
}

/// The algorithm of an action, by the index of its state and its own.
fn algorithm_name(states: &[State], state: usize, action: usize) -> Option<&Name>
    ensures { option_copied result ≡ spec.algorithm_name states.now state action }
{
    action_at(states, state, action)?.algorithm.as_ref()
}

fn output_name(states: &[State], state: usize, action: usize) -> Option<&Name>
    ensures { option_copied result ≡ spec.output_name states.now state action }
{
    action_at(states, state, action)?.output.as_ref()
}

/// A name of the transition at an index.
fn name_in_transition(
    transitions: &[Transition],
    index: usize,
    part: TransitionPart,
) -> Option<&Name>
    ensures { option_copied result ≡ option_and_then (spec.name_of_transition part) (slice_get transitions.now index) }
{
    name_of_transition(part, transitions.get(index)?)
}

fn name_in_basic(part: BasicPart, basic: &BasicType) -> Option<&Name>
    ensures { option_copied result ≡ spec.name_in_basic part basic.now }
{
    let states = basic.states.as_slice();
    match part {
        BasicPart::Internal(variable) => name_of(basic.internals.as_slice(), variable),
        BasicPart::State(state) => name_of(states, state),
        BasicPart::Action(state, action) => algorithm_name(states, state, action),
        BasicPart::OutputAlone(state, action) | BasicPart::OutputAfter(state, action) => {
            output_name(states, state, action)
        }
        BasicPart::Transition(index, part) => {
            name_in_transition(basic.transitions.as_slice(), index, part)
        }
        BasicPart::Algorithm(algorithm) => name_of(basic.algorithms.as_slice(), algorithm),
        BasicPart::Statement(_, _) | BasicPart::Clause(_, _, _) | BasicPart::Mention(_, _) => {
            None
        }
    }
}

/// A name in the block type, if it is there and a basic one.
fn name_inside_basic(part: BasicPart, block: Option<&BlockType>) -> Option<&Name>
    ensures { option_copied result ≡ option_and_then (spec.name_inside_basic part) (option_copied block.entry) }
{
    match block {
        Some(BlockType::Basic(basic)) => name_in_basic(part, basic),
        Some(BlockType::Composite(_)) | None => None,
    }
}

/// A name in the block type, if it is there and a composite one.
fn name_inside_composite(part: NetworkPart, block: Option<&BlockType>) -> Option<&Name>
    ensures { option_copied result ≡ option_and_then (spec.name_inside_composite part) (option_copied block.entry) }
{
    match block {
        Some(BlockType::Composite(composite)) => name_in_network(part, &composite.network),
        Some(BlockType::Basic(_)) | None => None,
    }
}

/// A name of the interface of the block type, if it is there.
fn name_in_ports_of(part: PortPart, block: Option<&BlockType>) -> Option<&Name>
    ensures { option_copied result ≡ option_and_then (spec.name_in_ports_of part) (option_copied block.entry) }
{
    name_in_ports(part, block?.ports())
}

pub(crate) fn network_inside(block: &BlockType) -> Option<&Network>
    ensures { option_copied result ≡ spec.network_inside block.now }
{
    match block {
        BlockType::Basic(_) => None,
        BlockType::Composite(composite) => Some(&composite.network),
    }
}

/// The name that a library has at a position. `None` if it has none there, as at a statement, and for what a guard or an
/// algorithm names.
pub fn name_at(position: Position, library: &Library) -> Option<&Name>
    ensures { option_copied result ≡ spec.name_at position library.now }
{
    let blocks = &library.blocks;
    match position {
        Position::Application => Some(&library.application.name),
        Position::InApplication(part) => name_in_network(part, &library.application.network),
        Position::Block(block) => name_of(blocks.as_slice(), block),
        Position::InPorts(block, part) => name_in_ports_of(part, blocks.get(block)),
        Position::InBasic(block, part) => name_inside_basic(part, blocks.get(block)),
        Position::InComposite(block, part) => name_inside_composite(part, blocks.get(block)),
    }
}
