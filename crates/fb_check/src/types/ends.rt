//! Connections by number, and their ends that are unknown.

ghost use Rattle.std.specs.Prelude.{◌≡◌, ◌++◌, IfOk};
ghost use Rattle.fb_check_names.specs.Numbers.{both_ends, end_number};
ghost use Rattle.fb_check_names.specs.PortKinds.{names_of_kind};
ghost use Rattle.fb_check_names.specs.Types.{AreTypes};
ghost use Rattle.fb_check.specs.types.Scopes.{AreTyped, IsScope, connection_number, placed, side_number};
ghost use Rattle.fb_check.specs.types.Present.{each_some};
ghost use Rattle.fb_check.specs.types.Unknown.{inputs_of, outputs_of};
ghost use Rattle.fb_check.specs.types.Unknowns.{unknown_ends};
ghost use Rattle.fb_check_names.specs.Listed.{each_at};

use crate::types::adding::push_some;
use fb_check_names::ports::index_in;
use fb_check_names::types::Types;
use fb_check_names::{
    ConnectionEnd, FlowKind, Indexes, NumberedConnection, PortKind, Side, Site, TypeNumber,
    UnknownName, index_of_name, push_unless,
};
use fb_types::{CompositeType, Connection, Items, Network, PortName};
use std::alloc::{AllocError, Global};

/// A network, with the indexes of the names in it.
#[derive(Clone, Copy)]
pub struct NetworkScope<'a, 'b> {
    /// The composite type that contains the network, with the indexes of its names, or none for the application's.
    pub composite: Option<(&'a CompositeType, &'a Indexes<'b>)>,
    /// The network itself.
    pub network: &'a Network,
    /// The instances of the network.
    pub instances: &'a Indexes<'b>,
}

/// The kind of the ports of components from which a connection leads.
pub fn output_of(flow: FlowKind) -> PortKind
    ensures { names_of_kind result ≡ outputs_of flow }
{
    match flow {
        FlowKind::Events => PortKind::EventOutput,
        FlowKind::Data => PortKind::Output,
    }
}

/// The kind of the ports of components to which a connection leads.
pub fn input_of(flow: FlowKind) -> PortKind
    ensures { names_of_kind result ≡ inputs_of flow }
{
    match flow {
        FlowKind::Events => PortKind::EventInput,
        FlowKind::Data => PortKind::Input,
    }
}

/// An end, among the ports of the one kind at a component, or of the other at the boundary.
fn end_of(
    types: &Types,
    scope: &NetworkScope,
    kinds: &Items<TypeNumber>,
    component: PortKind,
    boundary: PortKind,
    end: &PortName,
) -> Option<ConnectionEnd>
    requires types { AreTypes types.now }
    requires scope { IsScope scope.now }
    requires typed { AreTyped types.now.library.now scope.now.network.now.instances kinds.now }
    ensures { result ≡ end_number types.now.library.now (placed scope.now) (names_of_kind component) (names_of_kind boundary) end.now }
{
    match &end.component {
        None => {
            let (composite, indexes) = scope.composite?;
            let port = index_in(&composite.ports, indexes, boundary, &end.port)?;
            Some(ConnectionEnd {
                component: None,
                port,
            })
        }
        Some(name) => {
            let instance = index_of_name(scope.instances, name)?;
            let kind = kinds.get(instance)?;
            let port = types.port_of(*kind, component, &end.port)?;
            Some(ConnectionEnd {
                component: Some(instance),
                port,
            })
        }
    }
}

/// An end of a connection, by number. It is none if it is no port of the right direction.
fn side_of(
    types: &Types,
    scope: &NetworkScope,
    kinds: &Items<TypeNumber>,
    flow: FlowKind,
    side: Side,
    connection: &Connection,
) -> Option<ConnectionEnd>
    requires types { AreTypes types.now }
    requires scope { IsScope scope.now }
    requires typed { AreTyped types.now.library.now scope.now.network.now.instances kinds.now }
    ensures { result ≡ side_number types.now.library.now (placed scope.now) flow side connection.now }
{
    let (output, input) = (output_of(flow), input_of(flow));
    match side {
        Side::From => end_of(types, scope, kinds, output, input, &connection.from),
        Side::To => end_of(types, scope, kinds, input, output, &connection.to),
    }
}

/// A connection by number, if both its ends are.
fn connection_between(
    from: Option<ConnectionEnd>,
    to: Option<ConnectionEnd>,
) -> Option<NumberedConnection>
    ensures { result ≡ both_ends from to }
{
    match (from, to) {
        (Some(from), Some(to)) => Some(NumberedConnection { from, to }),
        _ => None,
    }
}

/// The connections of a network that carry the same, by number: those whose ends are both known. Adds the ends that are
/// unknown.
pub(crate) fn wires_of(
    alloc: Global,
    found: &mut Vec<UnknownName>,
    types: &Types,
    scope: &NetworkScope,
    kinds: &Items<TypeNumber>,
    site: Site,
    flow: FlowKind,
    connections: &[Connection],
) -> Result<Items<NumberedConnection>, AllocError>
    requires types { AreTypes types.now }
    requires scope { IsScope scope.now }
    requires typed { AreTyped types.now.library.now scope.now.network.now.instances kinds.now }
    ensures listed { IfOk result (λ _. found.new.items ≡ found.old.items ++ each_at (unknown_ends types.now.library.now site (placed scope.now) flow) connections.now) }
    ensures numbers { IfOk result (λ ws. ws ≡ each_some (connection_number types.now.library.now (placed scope.now) flow) connections.now) }
{
    let mut wires = Items::new(alloc);
    for (connection, declared) in connections.iter().enumerate() {
        let from = side_of(types, scope, kinds, flow, Side::From, declared);
        let from_end = UnknownName::End {
            site,
            flow,
            connection,
            side: Side::From,
        };
        let to = side_of(types, scope, kinds, flow, Side::To, declared);
        let to_end = UnknownName::End {
            site,
            flow,
            connection,
            side: Side::To,
        };
        push_unless(found, from.is_some(), from_end)
            .and(push_unless(found, to.is_some(), to_end))
            .and(push_some(&mut wires, connection_between(from, to)))?;
    }
    Ok(wires)
}
