//! Which event ports of event blocks and composites count, and which have no connection.

ghost use Rattle.std.specs.Prelude.{◌≡◌, ◌||◌, not, option_and_then, option_map};
ghost use Rattle.std.specs.List.{list_any};
ghost use Rattle.fb_types.specs.Flat.{network_at, network_of, parent};
ghost use Rattle.fb_types.specs.OfSystem.{IsInstance, kind_at, path_at};
ghost use Rattle.fb_check_names.specs.Numbers.{kind_of_number};
ghost use Rattle.fb_coverage.specs.Connected as spec;
ghost use Rattle.fb_coverage.specs.OfSystem.{is_connected, is_in};

use fb_check_names::TypeNumber;
use fb_system::System;
use fb_types::{BlockType, Connection, EventKind, EventPort, Library, Name, PortName};
use fb_wave::own_name;

/// A group of event ports. A port to which no event ever comes is in none.
#[derive(Clone, Copy)]
pub(crate) enum Group {
    /// A connection begins or ends at the port. These count.
    Connected,
    /// No connection begins or ends at the port.
    Unconnected,
}

/// Whether an end of a connection is at this component, or at the boundary of its network where there is none.
fn is_there(end: &PortName, component: Option<&[u8]>) -> bool
    ensures { result ≡ spec.is_there end.now.component (option_map (λ n. n.now) component.entry) }
{
    match &end.component {
        Some(own) => match component {
            Some(component) => own.as_bytes() == component,
            None => false,
        },
        None => component.is_none(),
    }
}

/// Whether an end of a connection is this port of a component, or of the boundary where there is none.
fn is_end(end: &PortName, component: Option<&[u8]>, port: &Name) -> bool
    ensures { result ≡ spec.is_end (option_map (λ n. n.now) component.entry) port.now end.now }
{
    is_there(end, component) && end.port.is(port)
}

/// Whether a connection begins or ends at a port.
fn is_at(connection: &Connection, component: Option<&[u8]>, port: &Name) -> bool
    ensures { result ≡ spec.is_at (option_map (λ n. n.now) component.entry) port.now connection.now }
{
    is_end(&connection.from, component, port) || is_end(&connection.to, component, port)
}

/// Whether one of these connections begins or ends at a port.
fn is_one_at(connections: &[Connection], component: Option<&[u8]>, port: &Name) -> bool
    ensures { result ≡ list_any (spec.is_at (option_map (λ n. n.now) component.entry) port.now) connections.now }
{
    for connection in connections {
        if is_at(connection, component, port) {
            return true;
        }
    }
    false
}

/// The event connections inside an instance of a type: none where it is no composite.
fn connections_of(library: &Library, kind: TypeNumber) -> &[Connection]
    ensures { result.now ≡ spec.connections_of (option_and_then network_of (kind_of_number library.now kind)) }
{
    match kind {
        TypeNumber::Event(_) => &[],
        TypeNumber::Declared(index) => match library.blocks.get(index) {
            Some(BlockType::Composite(composite)) => composite.network.event_connections.as_slice(),
            _ => &[],
        },
    }
}

/// The event connections inside an instance.
fn connections_inside(system: &System, instance: u32) -> &[Connection]
    requires { IsInstance system.now instance }
    ensures { result.now ≡ spec.connections_of (network_at system.now.library (path_at system.now instance)) }
{
    connections_of(system.library(), system.kind(instance))
}

/// The event connections of the network in which an instance is.
fn connections_around(system: &System, instance: u32) -> &[Connection]
    requires { IsInstance system.now instance }
    ensures { result.now ≡ spec.connections_of (network_at system.now.library (parent (path_at system.now instance))) }
{
    match system.parent(instance) {
        Some(composite) => connections_inside(system, composite),
        None => system
            .library()
            .application
            .network
            .event_connections
            .as_slice(),
    }
}

/// Whether an event connection begins or ends at an event port of an instance, around the instance or inside it.
fn is_connected(system: &System, instance: u32, event: &Name) -> bool
    requires { IsInstance system.now instance }
    ensures { result ≡ is_connected system.now (path_at system.now instance) event.now }
{
    let own = own_name(system, instance);
    is_one_at(connections_around(system, instance), Some(own), event)
        || is_one_at(connections_inside(system, instance), None, event)
}

/// Whether no event ever comes to the event port at an index.
fn never_comes(system: &System, instance: u32, index: usize) -> bool
    requires { IsInstance system.now instance }
    ensures { result ≡ spec.never_comes (kind_at system.now (path_at system.now instance)) index }
{
    match system.kind(instance) {
        TypeNumber::Event(EventKind::Restart) => index > 0,
        _ => false,
    }
}

/// Whether an event port of an instance, which has this index on its side, is in a group.
pub(crate) fn is_in(
    group: Group,
    system: &System,
    instance: u32,
    index: usize,
    event: &EventPort,
) -> bool
    requires { IsInstance system.now instance }
    ensures { result ≡ is_in group system.now (path_at system.now instance) index event.now }
{
    if never_comes(system, instance, index) {
        return false;
    }
    let is_connected = is_connected(system, instance, &event.name);
    match group {
        Group::Connected => is_connected,
        Group::Unconnected => !is_connected,
    }
}
