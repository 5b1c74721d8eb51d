//! Unknown names that do not follow from an unknown type. The ports of an instance whose type is unknown are unknown too,
//! and one finding for them all is enough.

ghost use Rattle.std.specs.Prelude.{◌≡◌, IfOk, option_map};
ghost use Rattle.std.specs.Option.{option_copied};
ghost use Rattle.fb_why.specs.Roots as spec;

use fb_check::{Fault, Location};
use fb_check_names::{FlowKind, Side, UnknownName};
use fb_read_positions::BlockTypes;
use fb_read_positions::finding_positions::network_at;
use fb_types::{Connection, Instance, Library, Network, PortName, instance_named};
use std::alloc::{AllocError, Global};

/// The port at an end of a connection.
fn port_at(connection: &Connection, side: Side) -> &PortName
    ensures { result.now ≡ spec.port_at side connection.now }
{
    match side {
        Side::From => &connection.from,
        Side::To => &connection.to,
    }
}

/// The connection at an index among those that carry the same.
fn connection_at(network: &Network, flow: FlowKind, index: usize) -> Option<&Connection>
    ensures { option_copied result ≡ spec.connection_at network.now flow index }
{
    match flow {
        FlowKind::Events => network.event_connections.get(index),
        FlowKind::Data => network.data_connections.get(index),
    }
}

/// The instance that has a port.
fn instance_of_port<'a>(network: &'a Network, port: &PortName) -> Option<&'a Instance>
    ensures { option_copied result ≡ spec.instance_of_port network.now port.now }
{
    match &port.component {
        Some(component) => instance_named(network.instances.as_slice(), component),
        None => None,
    }
}

/// The instance at an end of a connection.
fn instance_at_end(network: &Network, flow: FlowKind, index: usize, side: Side) -> Option<&Instance>
    ensures { option_copied result ≡ spec.instance_at_end network.now flow index side }
{
    let connection = connection_at(network, flow, index)?;
    instance_of_port(network, port_at(connection, side))
}

/// The instance whose port or parameter an unknown name is.
fn instance_of(library: &Library, name: UnknownName) -> Option<&Instance>
    ensures { option_copied result ≡ spec.instance_of library.now name }
{
    match name {
        UnknownName::Parameter { site, instance, .. } => {
            network_at(library, site)?.instances.get(instance)
        }
        UnknownName::End {
            site,
            flow,
            connection,
            side,
        } => instance_at_end(network_at(library, site)?, flow, connection, side),
        _ => None,
    }
}

/// Whether there is no block type of the name that an instance has for it.
fn has_no_type(types: &BlockTypes<'_>, instance: &Instance) -> bool
    ensures { result ≡ spec.has_no_type types.now.library.now instance.now }
{
    match types.ports_named(&instance.block_type) {
        Some(_) => false,
        None => true,
    }
}

/// Whether a location follows from an unknown type.
fn follows(types: &BlockTypes<'_>, location: Location) -> bool
    ensures { result ≡ spec.follows types.now.library.now location }
{
    let Location::NameUnknown(name) = location else {
        return false;
    };
    match instance_of(types.library, name) {
        Some(instance) => has_no_type(types, instance),
        None => false,
    }
}

/// The locations that do not follow from an unknown type.
fn without_following(
    alloc: Global,
    library: &Library,
    locations: &[Location],
) -> Result<Vec<Location>, AllocError>
    ensures { IfOk result (λ kept. kept.items ≡ spec.without_following library.now locations.now) }
{
    let types = BlockTypes::new(alloc, library)?;
    let mut kept = Vec::new(alloc);
    for location in locations {
        if !follows(&types, *location) {
            kept.push(*location)?;
        }
    }
    Ok(kept)
}

/// The locations of unknown names that do not follow from an unknown type, or all if each does.
fn roots_of(
    alloc: Global,
    library: &Library,
    locations: Vec<Location>,
) -> Result<Vec<Location>, AllocError>
    ensures { IfOk result (λ roots. roots.items ≡ spec.roots_of library.now locations.items) }
{
    let kept = without_following(alloc, library, locations.as_slice())?;
    if kept.is_empty() {
        Ok(locations)
    } else {
        Ok(kept)
    }
}

/// The locations of a fault that are reported: of unknown names those that do not follow from an unknown type.
pub(crate) fn reported(
    alloc: Global,
    fault: Fault,
    library: &Library,
    locations: Vec<Location>,
) -> Result<Vec<Location>, AllocError>
    ensures { IfOk result (λ found. found.items ≡ spec.reported fault library.now locations.items) }
{
    match fault {
        Fault::NameUnknown => roots_of(alloc, library, locations),
        _ => Ok(locations),
    }
}
