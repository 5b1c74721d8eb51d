//! The text for an unknown name (E21), after the words for its position: what was expected there.

use crate::contents::{Contents, Kind};
use crate::messages::flaw::push_link;
use fb_check_names::{PortKind, Side, UnknownName};
use fb_read_positions::headings::basic_at;
use fb_read_positions::hints::push_left_out_block;
use fb_read_positions::{
    BasicPart, BlockTypes, ConnectionPart, NetworkPart, PortPart, Position, Text, TransitionPart,
    name_at,
};
use fb_types::{
    BasicType, BlockType, CompositeType, Connection, Instance, Name, Network, Plan, instance_named,
};

/// Adds that there is no block type with a name.
fn push_no_type(text: &mut Text, name: &Name) {
    text.named(": there is no block type ", name);
    push_left_out_block(text, name.as_bytes());
}

/// Adds what the type of an instance lacks.
fn push_lack(
    text: &mut Text,
    types: &BlockTypes,
    instance: &Instance,
    (port_kind, required): (PortKind, &Name),
) {
    match types.ports_named(&instance.block_type) {
        Some(ports) => text.lacks(&instance.block_type, port_kind, required, ports),
        None => push_no_type(text, &instance.block_type),
    }
}

/// A network with the composite type that contains it, or none for the application's.
type Scope<'a> = (Option<&'a CompositeType>, &'a Network);

/// Adds what is unknown at the end of a connection, which leads from ports of the first kind to those of the second.
fn push_end(
    text: &mut Text,
    types: &BlockTypes,
    (composite, network): Scope,
    (output, input): (PortKind, PortKind),
    connection: Option<&Connection>,
    part: ConnectionPart,
) {
    let Some(connection) = connection else {
        return;
    };
    let (end, inside, boundary) = match part {
        ConnectionPart::From | ConnectionPart::FromPort => (&connection.from, output, input),
        ConnectionPart::To | ConnectionPart::ToPort => (&connection.to, input, output),
    };
    match (&end.component, composite) {
        (Some(component), _) => match instance_named(network.instances.as_slice(), component) {
            Some(instance) => push_lack(text, types, instance, (inside, &end.port)),
            None => text.named(": there is no instance ", component),
        },
        (None, Some(composite)) => {
            text.lacks(&composite.name, boundary, &end.port, &composite.ports);
        }
        (None, None) => {
            text.named(": ", &end.port);
            text.words(" has no instance before it, and an application has no ports");
        }
    }
}

fn push_in_network(
    text: &mut Text,
    types: &BlockTypes,
    scope: Scope,
    part: NetworkPart,
    required: &Name,
) {
    let (_, network) = scope;
    match part {
        NetworkPart::Instance(_) => {}
        NetworkPart::InstanceType(_) => push_no_type(text, required),
        NetworkPart::Parameter(instance, _) => {
            if let Some(instance) = network.instances.get(instance) {
                push_lack(text, types, instance, (PortKind::Input, required));
            }
        }
        NetworkPart::EventConnection(index, part) => {
            let kinds = (PortKind::EventOutput, PortKind::EventInput);
            let connection = network.event_connections.get(index);
            push_end(text, types, scope, kinds, connection, part);
        }
        NetworkPart::DataConnection(index, part) => {
            let kinds = (PortKind::Output, PortKind::Input);
            let connection = network.data_connections.get(index);
            push_end(text, types, scope, kinds, connection, part);
        }
    }
}

/// Adds what is unknown in the basic type at this index.
fn push_in_basic<'a>(
    text: &mut Text,
    contents: &mut Contents<'a>,
    block: usize,
    basic: &BasicType,
    (part, required): (BasicPart, &Name),
) {
    let kind = match part {
        BasicPart::Transition(_, TransitionPart::From | TransitionPart::To) => {
            text.named(": ", &basic.name);
            text.named(" has no state ", required);
            contents.push_names(text, Kind::State, block, basic.states.as_slice());
            return;
        }
        BasicPart::Action(_, _) => {
            text.named(": ", &basic.name);
            text.named(" has no algorithm ", required);
            contents.push_names(text, Kind::Algorithm, block, basic.algorithms.as_slice());
            return;
        }
        BasicPart::OutputAlone(_, _) | BasicPart::OutputAfter(_, _) => PortKind::EventOutput,
        _ => PortKind::EventInput,
    };
    text.lacks(&basic.name, kind, required, &basic.ports);
}

/// Adds what is unknown at a position outside of basic types, if the library has a name there.
fn push_at(text: &mut Text, types: &BlockTypes, position: Position) {
    let library = types.library;
    let Some(required) = name_at(position, library) else {
        return;
    };
    match position {
        Position::Application | Position::Block(_) | Position::InBasic(_, _) => {}
        Position::InApplication(part) => {
            let scope = (None, &library.application.network);
            push_in_network(text, types, scope, part, required);
        }
        Position::InComposite(block, part) => {
            if let Some(BlockType::Composite(composite)) = library.blocks.get(block) {
                let scope = (Some(composite), &composite.network);
                push_in_network(text, types, scope, part, required);
            }
        }
        Position::InPorts(block, part) => {
            if let Some(block) = library.blocks.get(block) {
                let kind = match part {
                    PortPart::WithInput(_, _) => PortKind::Input,
                    _ => PortKind::Output,
                };
                text.lacks(block.type_name(), kind, required, block.ports());
            }
        }
    }
}

/// Adds what is unknown in the deployment of the application with a name.
fn push_in_plan(text: &mut Text, application: &Name, plan: &Plan, name: UnknownName) {
    match name {
        UnknownName::Mapped { resource, instance } => {
            if let Some(resource) = plan.resources.get(resource) {
                text.named("resource ", &resource.name);
                if let Some(instance) = resource.instances.get(instance) {
                    text.named(": instance ", instance);
                    text.named(": application ", application);
                    text.named(" has no instance ", instance);
                }
            }
        }
        UnknownName::LinkEnd { link, side } => {
            if let Some(link) = plan.links.get(link) {
                push_link(text, link);
                let required = match side {
                    Side::From => &link.from,
                    Side::To => &link.to,
                };
                text.named(": there is no resource ", required);
            }
        }
        _ => {}
    }
}

/// Adds what is unknown at a position, or in the deployment, and what was expected there.
pub(crate) fn push_unknown<'a>(
    text: &mut Text,
    types: &BlockTypes<'a>,
    contents: &mut Contents<'a>,
    plan: &Plan,
    name: UnknownName,
    position: Option<Position>,
) {
    let library = types.library;
    let Some(position) = position else {
        push_in_plan(text, &library.application.name, plan, name);
        return;
    };
    let Position::InBasic(block, part) = position else {
        push_at(text, types, position);
        return;
    };
    let Some(basic) = basic_at(library, block) else {
        return;
    };
    match part {
        BasicPart::Transition(index, TransitionPart::Mention(at)) => {
            contents.push_mention(text, basic, (Kind::Guard, block, index), at);
        }
        BasicPart::Mention(algorithm, at) => {
            contents.push_mention(text, basic, (Kind::Algorithm, block, algorithm), at);
        }
        _ => {
            if let Some(required) = name_at(position, library) {
                push_in_basic(text, contents, block, basic, (part, required));
            }
        }
    }
}
