//! The text for a location in inputs that can be read (E20 to E30): words for a position, and what is wrong there.

use crate::contents::Contents;
use crate::messages::kind::{push_kind_wrong, push_out_of_range};
use crate::messages::stimulus::push_stimulus;
use crate::messages::unknown::push_unknown;
use crate::place::position_of;
use fb_check::{Case, Limit, Location};
use fb_check_names::{
    FlowKind, GivenTwice, InBlock, NoLinkAt, NotMappedAt, Repeat, TooHighAt, TwoSourcesAt,
};
use fb_read_positions::finding_positions::port_at;
use fb_read_positions::headings::{
    network_at, push_connection, push_item, push_position, site_position,
};
use fb_read_positions::{BlockTypes, NetworkPart, PortPart, Position, Text, name_at};
use fb_types::{Connection, Library, Link, Name, Plan, PortName, ResourceEntry};

const AGAIN: &str = " is given twice";

/// The kinds of ports and variables, each as one and as many.
type KindWords = (&'static str, &'static str);

/// The kind of the port or variable at a position.
fn kind_at(position: Position) -> KindWords {
    match position {
        Position::InPorts(_, PortPart::EventInput(_)) => ("an event input", "event inputs"),
        Position::InPorts(_, PortPart::EventOutput(_)) => ("an event output", "event outputs"),
        Position::InPorts(_, PortPart::Input(_)) => ("a data input", "data inputs"),
        Position::InPorts(_, PortPart::Output(_)) => ("a data output", "data outputs"),
        _ => ("an internal variable", "internal variables"),
    }
}

/// Adds that a name is given twice to ports or variables of these kinds.
fn push_kinds(text: &mut Text, first: KindWords, second: KindWords) {
    if first.1 == second.1 {
        text.phrase(&[AGAIN, " among the ", first.1]);
    } else {
        text.phrase(&[AGAIN, ", as ", first.0, " and as ", second.0]);
    }
}

/// Adds words for a link.
pub(crate) fn push_link(text: &mut Text, link: &Link) {
    text.named("link from ", &link.from);
    text.named(" to ", &link.to);
}

/// Adds that something is given twice (E20). Of two ports or variables of a block type it says what they are.
fn push_given(text: &mut Text, library: &Library, plan: &Plan, given: GivenTwice) {
    match given {
        GivenTwice::EventBlock(_) => text.words(": an event block has this name"),
        GivenTwice::Block(block, InBlock::Port((first, second))) => {
            if let Some(declared) = library.blocks.get(block) {
                let first = port_at(block, declared.ports(), first);
                let second = port_at(block, declared.ports(), second);
                if let Some(name) = name_at(first, library) {
                    text.named(": ", name);
                }
                push_kinds(text, kind_at(first), kind_at(second));
            }
        }
        GivenTwice::Resource((_, resource)) => {
            push_item(text, "resource ", plan.resources.as_slice(), resource);
            text.words(AGAIN);
        }
        GivenTwice::Link((_, link)) => {
            if let Some(link) = plan.links.get(link) {
                push_link(text, link);
            }
            text.words(AGAIN);
        }
        _ => text.words(AGAIN),
    }
}

/// Adds which two of these data connections lead to one port (E24).
fn push_two_sources(text: &mut Text, connections: &[Connection], (first, second): Repeat) {
    push_connection(text, ": data connections ", connections.get(first));
    push_connection(text, " and ", connections.get(second));
    text.words(" lead to one port");
}

/// The resource and the name at an index in the lists of all resources, one after another.
fn listed_at(resources: &[ResourceEntry], index: usize) -> Option<(&ResourceEntry, &Name)> {
    let mut rest = index;
    for resource in resources {
        let names = resource.instances.as_slice();
        if rest < names.len() {
            return Some((resource, &names[rest]));
        }
        rest -= names.len();
    }
    None
}

/// Adds which resources list an instance, by two indexes in all their lists (E26).
fn push_listed(text: &mut Text, resources: &[ResourceEntry], (first, second): Repeat) {
    let one = listed_at(resources, first);
    let other = listed_at(resources, second);
    let (Some((one, name)), Some((other, _))) = (one, other) else {
        return;
    };
    text.named(": instance ", name);
    text.named(": resource ", &one.name);
    if one.name.is(&other.name) {
        text.words(" lists it twice");
    } else {
        text.named(" lists it, and so does resource ", &other.name);
    }
}

/// Whether a list has a name.
fn has_name(names: &[Name], sought: &Name) -> bool {
    for name in names {
        if name.is(sought) {
            return true;
        }
    }
    false
}

/// The index of the resource that lists the component at an end of a connection, or else of the first one.
fn resource_of(resources: &[ResourceEntry], end: &PortName) -> usize {
    if let Some(component) = &end.component {
        for (index, resource) in resources.iter().enumerate() {
            if has_name(resource.instances.as_slice(), component) {
                return index;
            }
        }
    }
    0
}

/// Adds words, and the name of the resource at an end of a connection.
fn push_resource(text: &mut Text, words: &str, resources: &[ResourceEntry], end: &PortName) {
    push_item(text, words, resources, resource_of(resources, end));
}

/// Adds which link a connection would need (E27).
fn push_no_link(text: &mut Text, resources: &[ResourceEntry], connection: Option<&Connection>) {
    if let Some(connection) = connection {
        text.words(": there is no link");
        push_resource(text, " from resource ", resources, &connection.from);
        push_resource(text, " to resource ", resources, &connection.to);
    }
}

/// Adds which event could serve a data connection (E28).
fn push_no_event(text: &mut Text, resources: &[ResourceEntry], connection: Option<&Connection>) {
    if let Some(connection) = connection {
        if let Some(component) = &connection.from.component {
            text.named(": no output event of ", component);
        }
        text.named(" WITH ", &connection.from.port);
        push_resource(text, " goes to resource ", resources, &connection.to);
    }
}

/// Adds what is wrong at a location, for the numbers that are not about types.
fn push_untyped(text: &mut Text, library: &Library, plan: &Plan, location: Location) {
    let network = &library.application.network;
    let resources = plan.resources.as_slice();
    match location {
        Location::NameTwice(given) => push_given(text, library, plan, given),
        Location::TwoSources(TwoSourcesAt { site, connections }) => {
            if let Some(network) = network_at(library, site) {
                push_two_sources(text, network.data_connections.as_slice(), connections);
            }
        }
        Location::TooHigh(TooHighAt::Circle(block, _)) => {
            push_item(text, ": ", library.blocks.as_slice(), block);
            text.words(" contains itself through it");
        }
        Location::TooHigh(TooHighAt::Height(_, _)) => {
            text.words(": composites nest more than 16 deep through it");
        }
        Location::NotMapped(NotMappedAt::Again(pair)) => push_listed(text, resources, pair),
        Location::NotMapped(NotMappedAt::Unlisted(_)) => text.words(": no resource lists it"),
        Location::NoLink(NoLinkAt { flow, connection }) => {
            let connections = match flow {
                FlowKind::Events => network.event_connections.as_slice(),
                FlowKind::Data => network.data_connections.as_slice(),
            };
            push_no_link(text, resources, connections.get(connection));
        }
        Location::NoEvent(at) => push_no_event(text, resources, network.data_connections.get(at)),
        Location::OverLimit(Limit::Instances) => {
            text.words("application: there are more than 4,096 instances, components included");
        }
        Location::OverLimit(Limit::Stimuli) => text.words("there are more than 100,000 rows"),
        Location::NameUnknown(_)
        | Location::KindWrong(_)
        | Location::OutOfRange(_)
        | Location::BadStimulus(_) => {}
    }
}

/// The position whose words come first: mostly the one at which the location is shown.
fn heading_of(location: Location, position: Option<Position>) -> Option<Position> {
    match location {
        Location::NameTwice(GivenTwice::Block(block, InBlock::Port(_))) => {
            Some(Position::Block(block))
        }
        Location::TwoSources(joined) => Some(site_position(joined.site)),
        Location::NotMapped(NotMappedAt::Again(_)) => Some(Position::Application),
        Location::TooHigh(
            TooHighAt::Circle(block, instance) | TooHighAt::Height(block, instance),
        ) => { Some(Position::InComposite(block, NetworkPart::InstanceType(instance))) }
        Location::OverLimit(_) => None,
        _ => position,
    }
}

/// Adds the words for the location of a finding, and what is wrong there.
pub(crate) fn push_flaw<'a>(
    text: &mut Text,
    types: &BlockTypes<'a>,
    contents: &mut Contents<'a>,
    case: &Case,
    location: Location,
) {
    let position = position_of(case.library, location);
    if let Some(heading) = heading_of(location, position) {
        push_position(text, case.library, heading);
    }
    match location {
        Location::NameUnknown(name) => {
            push_unknown(text, types, contents, case.plan, name, position);
        }
        Location::KindWrong(kind_wrong) => push_kind_wrong(text, types, contents, kind_wrong),
        Location::OutOfRange(out_of_range) => push_out_of_range(text, types, out_of_range),
        Location::BadStimulus(at) => push_stimulus(text, types, case.stimuli, at),
        _ => push_untyped(text, case.library, case.plan, location),
    }
}
