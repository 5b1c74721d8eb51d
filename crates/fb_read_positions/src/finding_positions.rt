//! The positions at which findings of a check are shown: the name, the connection or the statement that is meant, and of
//! what is given twice the later one.

ghost use Rattle.std.specs.Prelude.{◌≡◌};
ghost use Rattle.std.specs.Option.{option_copied};
ghost use Rattle.fb_read_positions.specs.FindingPositions as spec;

use crate::names::{action_at, network_inside};
use crate::position::{BasicPart, ConnectionPart, NetworkPart, PortPart, Position, TransitionPart};
use fb_check_names::{
    ActionPart, Direction, FlowKind, GivenTwice, InBlock, InNetwork, KindWrongAt, NoLinkAt,
    NotMappedAt, Side, Site, StatementPart, TooHighAt, TransitionPart as NamedPart, UnknownName,
    Variables,
};
use fb_types::{
    Action, BlockType, Connection, Instance, Library, Network, PortName, Ports, State,
    instance_named,
};

/// A part of the network of a site.
fn in_site(site: Site, part: NetworkPart) -> Position
    ensures { result ≡ spec.in_site site part }
{
    match site {
        Site::Application => Position::InApplication(part),
        Site::Inside(block) => Position::InComposite(block, part),
    }
}

/// What a network gives twice, at its later occurrence.
fn twice_in_network(given: InNetwork) -> NetworkPart
    ensures { result ≡ spec.twice_in_network given }
{
    match given {
        InNetwork::Instance((_, instance)) => NetworkPart::Instance(instance),
        InNetwork::Parameter(instance, (_, parameter)) => {
            NetworkPart::Parameter(instance, parameter)
        }
        InNetwork::Connection((_, connection)) => {
            NetworkPart::EventConnection(connection, ConnectionPart::From)
        }
    }
}

/// The name at an index in the list of the event inputs, event outputs, inputs, outputs and internal variables.
pub fn port_at(block: usize, ports: &Ports, index: usize) -> Position
    ensures { result ≡ spec.port_at block ports.now index }
{
    let mut index = index;
    if index < ports.event_inputs.len() {
        return Position::InPorts(block, PortPart::EventInput(index));
    }
    index -= ports.event_inputs.len();
    if index < ports.event_outputs.len() {
        return Position::InPorts(block, PortPart::EventOutput(index));
    }
    index -= ports.event_outputs.len();
    if index < ports.inputs.len() {
        return Position::InPorts(block, PortPart::Input(index));
    }
    index -= ports.inputs.len();
    if index < ports.outputs.len() {
        return Position::InPorts(block, PortPart::Output(index));
    }
    Position::InBasic(block, BasicPart::Internal(index - ports.outputs.len()))
}

/// What a block type gives twice, at its later occurrence.
fn twice_in_block(library: &Library, block: usize, given: InBlock) -> Option<Position>
    ensures { result ≡ spec.twice_in_block library.now block given }
{
    match given {
        InBlock::Port((_, index)) => {
            let ports = library.blocks.get(block)?.ports();
            Some(port_at(block, ports, index))
        }
        InBlock::WithInput(event, (_, variable)) => {
            Some(Position::InPorts(block, PortPart::WithInput(event, variable)))
        }
        InBlock::WithOutput(event, (_, variable)) => {
            Some(Position::InPorts(block, PortPart::WithOutput(event, variable)))
        }
        InBlock::State((_, state)) => Some(Position::InBasic(block, BasicPart::State(state))),
        InBlock::Algorithm((_, algorithm)) => {
            Some(Position::InBasic(block, BasicPart::Algorithm(algorithm)))
        }
        InBlock::Inside(given) => Some(Position::InComposite(block, twice_in_network(given))),
    }
}

/// What is given twice, at its later occurrence. What the deployment gives twice has no position.
pub fn twice_position(library: &Library, given: GivenTwice) -> Option<Position>
    ensures { result ≡ spec.twice_position library.now given }
{
    match given {
        GivenTwice::EventBlock(block) => Some(Position::Block(block)),
        GivenTwice::Type((_, block)) => Some(Position::Block(block)),
        GivenTwice::Block(block, given) => twice_in_block(library, block, given),
        GivenTwice::Application(given) => Some(Position::InApplication(twice_in_network(given))),
        GivenTwice::Resource(_) | GivenTwice::Link(_) => None,
    }
}

/// The name of a port of a connection that is unknown: the name after the dot, if the instance before it is known.
fn name_of_port(
    instances: &[Instance],
    port: &PortName,
    first: ConnectionPart,
    second: ConnectionPart,
) -> ConnectionPart
    ensures { result ≡ spec.name_of_port instances.now port.now first second }
{
    match &port.component {
        Some(component) => {
            if instance_named(instances, component).is_some() {
                second
            } else {
                first
            }
        }
        None => first,
    }
}

fn end_part(network: &Network, connection: &Connection, side: Side) -> ConnectionPart
    ensures { result ≡ spec.end_part network.now connection.now side }
{
    let instances = network.instances.as_slice();
    match side {
        Side::From => name_of_port(
            instances,
            &connection.from,
            ConnectionPart::From,
            ConnectionPart::FromPort,
        ),
        Side::To => name_of_port(
            instances,
            &connection.to,
            ConnectionPart::To,
            ConnectionPart::ToPort,
        ),
    }
}

/// An end of a connection of a network.
fn end_of(network: &Network, flow: FlowKind, index: usize, side: Side) -> Option<NetworkPart>
    ensures { result ≡ spec.end_of network.now flow index side }
{
    match flow {
        FlowKind::Events => {
            let connection = network.event_connections.get(index)?;
            Some(NetworkPart::EventConnection(index, end_part(network, connection, side)))
        }
        FlowKind::Data => {
            let connection = network.data_connections.get(index)?;
            Some(NetworkPart::DataConnection(index, end_part(network, connection, side)))
        }
    }
}

/// The network of a site.
pub fn network_at(library: &Library, site: Site) -> Option<&Network>
    ensures { option_copied result ≡ spec.network_at library.now site }
{
    match site {
        Site::Application => Some(&library.application.network),
        Site::Inside(block) => network_inside(library.blocks.get(block)?),
    }
}

fn with_part(direction: Direction, event: usize, variable: usize) -> PortPart
    ensures { result ≡ spec.with_part direction event variable }
{
    match direction {
        Direction::Input => PortPart::WithInput(event, variable),
        Direction::Output => PortPart::WithOutput(event, variable),
    }
}

fn transition_part(part: NamedPart) -> TransitionPart
    ensures { result ≡ spec.transition_part_of part }
{
    match part {
        NamedPart::From => TransitionPart::From,
        NamedPart::To => TransitionPart::To,
        NamedPart::Event => TransitionPart::Condition,
    }
}

/// The states of the block type at this index, if it is a basic one.
fn states_at(library: &Library, block: usize) -> &[State]
    ensures { result.now ≡ spec.states_at library.now block }
{
    match library.blocks.get(block) {
        Some(BlockType::Basic(basic)) => basic.states.as_slice(),
        _ => &[],
    }
}

/// A name of this action, by the index of its state and its own.
fn name_of_action(named: &Action, state: usize, action: usize, part: ActionPart) -> BasicPart
    ensures { result ≡ spec.name_of_action named.now part state action }
{
    match (part, &named.algorithm) {
        (ActionPart::Algorithm, _) => BasicPart::Action(state, action),
        (ActionPart::Output, Some(_)) => BasicPart::OutputAfter(state, action),
        (ActionPart::Output, None) => BasicPart::OutputAlone(state, action),
    }
}

/// A name of an action.
fn action_part(states: &[State], state: usize, action: usize, part: ActionPart) -> Option<BasicPart>
    ensures { result ≡ spec.action_part states.now state action part }
{
    let named = action_at(states, state, action)?;
    Some(name_of_action(named, state, action, part))
}

/// An unknown name. One in the deployment has no position.
pub fn unknown_position(library: &Library, location: UnknownName) -> Option<Position>
    ensures { result ≡ spec.unknown_position library.now location }
{
    match location {
        UnknownName::InstanceType { site, instance } => {
            Some(in_site(site, NetworkPart::InstanceType(instance)))
        }
        UnknownName::Parameter {
            site,
            instance,
            parameter,
        } => Some(in_site(site, NetworkPart::Parameter(instance, parameter))),
        UnknownName::End {
            site,
            flow,
            connection,
            side,
        } => {
            let network = network_at(library, site)?;
            Some(in_site(site, end_of(network, flow, connection, side)?))
        }
        UnknownName::With {
            block,
            direction,
            event,
            variable,
        } => Some(Position::InPorts(block, with_part(direction, event, variable))),
        UnknownName::Transition {
            block,
            transition,
            part,
        } => Some(Position::InBasic(
            block,
            BasicPart::Transition(transition, transition_part(part)),
        )),
        UnknownName::Action {
            block,
            state,
            action,
            part,
        } => {
            let states = states_at(library, block);
            Some(Position::InBasic(block, action_part(states, state, action, part)?))
        }
        UnknownName::Guard {
            block,
            transition,
            mention,
        } => Some(Position::InBasic(
            block,
            BasicPart::Transition(transition, TransitionPart::Mention(mention)),
        )),
        UnknownName::Body {
            block,
            algorithm,
            mention,
        } => Some(Position::InBasic(block, BasicPart::Mention(algorithm, mention))),
        UnknownName::Mapped { .. } | UnknownName::LinkEnd { .. } => None,
    }
}

/// A variable of a block type.
fn variable_position(block: usize, variables: Variables, variable: usize) -> Position
    ensures { result ≡ spec.variable_position block variables variable }
{
    match variables {
        Variables::Inputs => Position::InPorts(block, PortPart::Input(variable)),
        Variables::Outputs => Position::InPorts(block, PortPart::Output(variable)),
        Variables::Internals => Position::InBasic(block, BasicPart::Internal(variable)),
    }
}

/// A part of a statement: a condition of an IF at its IF or ELSIF, that of a REPEAT at UNTIL, and anything else where
/// the statement begins.
fn statement_part(algorithm: usize, statement: usize, part: StatementPart) -> BasicPart
    ensures { result ≡ spec.statement_part algorithm statement part }
{
    match part {
        StatementPart::Choice(choice) => BasicPart::Clause(algorithm, statement, choice),
        StatementPart::Until => BasicPart::Clause(algorithm, statement, 1),
        _ => BasicPart::Statement(algorithm, statement),
    }
}

/// A wrong kind.
pub fn kind_wrong_position(location: KindWrongAt) -> Position
    ensures { result ≡ spec.kind_wrong_position location }
{
    match location {
        KindWrongAt::Initial {
            block,
            variables,
            variable,
        } => variable_position(block, variables, variable),
        KindWrongAt::Parameter {
            site,
            instance,
            parameter,
        } => in_site(site, NetworkPart::Parameter(instance, parameter)),
        KindWrongAt::Guard { block, transition } => Position::InBasic(
            block,
            BasicPart::Transition(transition, TransitionPart::Guard),
        ),
        KindWrongAt::Statement {
            block,
            algorithm,
            statement,
            part,
        } => Position::InBasic(block, statement_part(algorithm, statement, part)),
    }
}

/// The beginning of a data connection.
pub fn data_position(site: Site, connection: usize) -> Position
    ensures { result ≡ spec.data_position site connection }
{
    in_site(
        site,
        NetworkPart::DataConnection(connection, ConnectionPart::From),
    )
}

/// A composite type that is too high, at the instance through which it is.
pub fn too_high_position(too_high: TooHighAt) -> Position
    ensures { result ≡ spec.too_high_position too_high }
{
    match too_high {
        TooHighAt::Circle(block, instance) | TooHighAt::Height(block, instance) => {
            Position::InComposite(block, NetworkPart::Instance(instance))
        }
    }
}

/// An instance that is not mapped to one resource. One that is listed twice has its position in the deployment.
pub fn not_mapped_position(not_mapped: NotMappedAt) -> Option<Position>
    ensures { result ≡ spec.not_mapped_position not_mapped }
{
    match not_mapped {
        NotMappedAt::Unlisted(instance) => {
            Some(Position::InApplication(NetworkPart::Instance(instance)))
        }
        NotMappedAt::Again(_) => None,
    }
}

/// The beginning of a connection without a link.
pub fn no_link_position(no_link: NoLinkAt) -> Position
    ensures { result ≡ spec.no_link_position no_link }
{
    let NoLinkAt { flow, connection } = no_link;
    match flow {
        FlowKind::Events => Position::InApplication(NetworkPart::EventConnection(
            connection,
            ConnectionPart::From,
        )),
        FlowKind::Data => data_position(Site::Application, connection),
    }
}
