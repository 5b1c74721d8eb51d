//! Words for positions of a declaration, and what is there.

pub use crate::finding_positions::network_at;
use crate::names::name_in_ports;
use crate::position::{BasicPart, NetworkPart, PortPart, Position};
use crate::words::Text;
use fb_check_names::{Named, Site};
use fb_types::{BasicType, BlockType, Connection, Instance, Library, Network, Ports};

/// The basic type at this index.
pub fn basic_at(library: &Library, block: usize) -> Option<&BasicType> {
    match library.blocks.get(block)? {
        BlockType::Basic(basic) => Some(basic),
        BlockType::Composite(_) => None,
    }
}

/// The position of the name of the application, or of that of the block type, for the network of a site.
pub fn site_position(site: Site) -> Position {
    match site {
        Site::Application => Position::Application,
        Site::Inside(block) => Position::Block(block),
    }
}

/// Adds words, and the name of the item at an index.
pub fn push_item<T: Named>(text: &mut Text, words: &str, items: &[T], index: usize) {
    if let Some(item) = items.get(index) {
        text.named(words, item.name());
    }
}

/// Words before the name of a part of an interface.
fn words_for(part: PortPart) -> &'static str {
    match part {
        PortPart::EventInput(_) => ": event input ",
        PortPart::EventOutput(_) => ": event output ",
        PortPart::WithInput(_, _) | PortPart::WithOutput(_, _) => " WITH ",
        PortPart::Input(_) => ": data input ",
        PortPart::Output(_) => ": data output ",
    }
}

/// Adds words, and the name of a part of an interface, if it is there.
fn push_port(text: &mut Text, ports: &Ports, part: PortPart) {
    if let Some(name) = name_in_ports(part, ports) {
        text.named(words_for(part), name);
    }
}

/// Adds words for a part of an interface. Of a variable WITH an event, the event is among them.
fn push_in_ports(text: &mut Text, ports: &Ports, part: PortPart) {
    match part {
        PortPart::WithInput(event, _) => push_port(text, ports, PortPart::EventInput(event)),
        PortPart::WithOutput(event, _) => push_port(text, ports, PortPart::EventOutput(event)),
        _ => {}
    }
    push_port(text, ports, part);
}

fn push_transition(text: &mut Text, basic: &BasicType, transition: usize) {
    if let Some(transition) = basic.transitions.get(transition) {
        text.named(": transition ", &transition.from);
        text.named(" TO ", &transition.to);
    }
}

fn push_in_basic(text: &mut Text, basic: &BasicType, part: BasicPart) {
    let algorithms = basic.algorithms.as_slice();
    match part {
        BasicPart::Internal(variable) => {
            push_item(text, ": variable ", basic.internals.as_slice(), variable);
        }
        BasicPart::State(state)
        | BasicPart::Action(state, _)
        | BasicPart::OutputAlone(state, _)
        | BasicPart::OutputAfter(state, _) => {
            push_item(text, ": state ", basic.states.as_slice(), state);
        }
        BasicPart::Transition(transition, _) => push_transition(text, basic, transition),
        BasicPart::Algorithm(algorithm) | BasicPart::Mention(algorithm, _) => {
            push_item(text, ": algorithm ", algorithms, algorithm);
        }
        BasicPart::Statement(algorithm, statement) | BasicPart::Clause(algorithm, statement, _) => {
            push_item(text, ": algorithm ", algorithms, algorithm);
            text.numbered(": statement ", statement.saturating_add(1), "");
        }
    }
}

/// Adds words for an instance and its type, and for a parameter of it, if the part is one.
fn push_instance(text: &mut Text, instance: &Instance, part: NetworkPart) {
    text.named(": instance ", &instance.name);
    text.named(" : ", &instance.block_type);
    if let NetworkPart::Parameter(_, parameter) = part {
        push_item(
            text,
            ", parameter ",
            instance.parameters.as_slice(),
            parameter,
        );
    }
}

/// Adds words, and the connection, if it is there.
pub fn push_connection(text: &mut Text, words: &str, connection: Option<&Connection>) {
    if let Some(connection) = connection {
        text.connection(words, connection);
    }
}

fn push_in_network(text: &mut Text, network: &Network, part: NetworkPart) {
    let instances = network.instances.as_slice();
    match part {
        NetworkPart::Instance(index) => push_item(text, ": instance ", instances, index),
        NetworkPart::InstanceType(index) | NetworkPart::Parameter(index, _) => {
            if let Some(instance) = instances.get(index) {
                push_instance(text, instance, part);
            }
        }
        NetworkPart::EventConnection(index, _) => {
            let connection = network.event_connections.get(index);
            push_connection(text, ": event connection ", connection);
        }
        NetworkPart::DataConnection(index, _) => {
            let connection = network.data_connections.get(index);
            push_connection(text, ": data connection ", connection);
        }
    }
}

/// Adds words for a part of the block type, if it has such a part.
fn push_in_block(text: &mut Text, block: &BlockType, position: Position) {
    match position {
        Position::InPorts(_, part) => push_in_ports(text, block.ports(), part),
        Position::InBasic(_, part) => {
            if let BlockType::Basic(basic) = block {
                push_in_basic(text, basic, part);
            }
        }
        Position::InComposite(_, part) => {
            if let BlockType::Composite(composite) = block {
                push_in_network(text, &composite.network, part);
            }
        }
        _ => {}
    }
}

/// Adds words for a position: the application or the block type, and what is there. Of an instance at whose type the
/// position is, the type is among them.
pub fn push_position(text: &mut Text, library: &Library, position: Position) {
    let application = &library.application;
    match position {
        Position::Application => text.named("application ", &application.name),
        Position::InApplication(part) => {
            text.named("application ", &application.name);
            push_in_network(text, &application.network, part);
        }
        Position::Block(block)
        | Position::InPorts(block, _)
        | Position::InBasic(block, _)
        | Position::InComposite(block, _) => {
            if let Some(block) = library.blocks.get(block) {
                text.named("block type ", block.name());
                push_in_block(text, block, position);
            }
        }
    }
}
