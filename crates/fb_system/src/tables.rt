//! The tables of a netlist, and how the ends of its connections are looked up.

ghost use Rattle.std.specs.Prelude.{◌≡◌, ◌<◌, ◌+◌, ◌↔◌, IsTrue, length, slice_get, [], option_map, IfSome, MatchOption, None, Some};
ghost use Rattle.fb_types.specs.Flat.{data_inside, events_inside, last_of, network_at, paths_of, source_of, targets_of};
ghost use Rattle.fb_types.specs.Names.{Path, Port};
ghost use Rattle.fb_system.specs.Layouts.{AreComponents, IsRow, path_of};
ghost use Rattle.fb_system.specs.Netlists.{IsPort, IsSource, IsTarget, IsVariable, port_of, variable_of};
ghost use Rattle.fb_system.specs.Networks.{DataEnters, EventLeaves, IsAround, IsNetlist, IsThere, IsWired, path_around, source_along, targets_along};

use crate::layout::{InstanceRow, Layout};
use crate::netlist_target::NetlistTarget;
use crate::wiring::Wiring;
use fb_check_names::{ConnectionEnd, TypeNumber};
use fb_types::{InstanceVariable, Items, Library, Target};

/// The instances of a declaration and its networks.
#[derive(Drop)]
pub(crate) struct Tables {
    /// The declaration.
    pub library: Library,
    /// Its instances by number.
    pub layout: Layout,
    /// The network of the application.
    pub application: Wiring,
    /// For each block type of the declaration its network, or none for a basic type.
    pub blocks: Items<Option<Wiring>>,
}

/// An end of connections, with the composite whose network has it, or none for the application's.
#[derive(Clone, Copy)]
pub(crate) struct EndIn {
    /// The number of the composite, or none for the application's network.
    pub around: Option<u32>,
    /// The end itself.
    pub end: ConnectionEnd,
}

/// The row of an instance.
pub(crate) fn row_at(tables: &Tables, instance: u32) -> &InstanceRow
    requires netlist { IsNetlist tables.now }
    requires within { instance < length (paths_of tables.now.library) }
    ensures { IsRow tables.now.library instance result.now }
{
    &tables.layout.rows.as_slice()[instance as usize]
}

/// The network of the application, or the network inside an instance, if its type has one.
#[inline(always)]
pub(crate) fn wiring_in(tables: &Tables, around: Option<u32>) -> Option<&Wiring>
    requires netlist { IsNetlist tables.now }
    requires within { IsAround tables.now.library around }
    ensures { MatchOption result (network_at tables.now.library (path_around tables.now.library around) ≡ None) (λ w. IsWired tables.now.library (path_around tables.now.library around) w.now) }
{
    match around {
        None => Some(&tables.application),
        Some(instance) => match row_at(tables, instance).kind {
            TypeNumber::Event(_) => None,
            TypeNumber::Declared(index) => tables.blocks.as_slice()[index].as_ref(),
        },
    }
}

/// The numbers of the instances in the network of the application, or inside an instance.
#[inline(always)]
fn components_in(tables: &Tables, around: Option<u32>) -> &[u32]
    requires netlist { IsNetlist tables.now }
    requires within { IsAround tables.now.library around }
    ensures { AreComponents tables.now.library (path_around tables.now.library around) result.now }
{
    match around {
        None => tables.layout.top.as_slice(),
        Some(instance) => row_at(tables, instance).components.as_slice(),
    }
}

/// The instance at an end of a connection: a component, or the composite itself at its boundary.
#[inline(always)]
fn instance_at(tables: &Tables, around: Option<u32>, component: Option<usize>) -> u32
    requires netlist { IsNetlist tables.now }
    requires within { IsAround tables.now.library around }
    requires there { (a : Path) × IsThere tables.now.library (path_around tables.now.library around) component a × ¬ (a ≡ []) }
    ensures path { (a : Path) → IsThere tables.now.library (path_around tables.now.library around) component a → path_of tables.now.library result ≡ a }
    ensures within { result < length (paths_of tables.now.library) }
{
    match (component, around) {
        (Some(index), _) => components_in(tables, around)[index],
        (None, Some(instance)) => instance,
        (None, None) => unreachable!(),
    }
}

/// Where the event connection leads that has this index among those from an end of a network: to an input of a
/// component, or to an output of the composite itself.
pub(crate) fn target_in(
    tables: &Tables,
    around: Option<u32>,
    end: ConnectionEnd,
    index: usize,
) -> Option<NetlistTarget>
    requires netlist { IsNetlist tables.now }
    requires within { IsAround tables.now.library around }
    requires end { (q : Port) × EventLeaves tables.now.library around end q }
    ensures leads { (q : Port) → EventLeaves tables.now.library around end q → option_map (λ r. port_of tables.now.library r.target) result ≡ slice_get (targets_along (events_inside tables.now.library (path_around tables.now.library around)) q) index }
    ensures within { IfSome result (λ r. IsTarget tables.now.library r.target) }
    ensures more { IfSome result (λ r. (q : Port) → EventLeaves tables.now.library around end q → IsTrue r.more ↔ (index + 1 < length (targets_along (events_inside tables.now.library (path_around tables.now.library around)) q))) }
{
    let wiring = wiring_in(tables, around)?;
    let ends = wiring.targets(end);
    let to = ends.get(index)?;
    Some(NetlistTarget {
        target: Target {
            instance: instance_at(tables, around, to.component),
            event: to.port as u32,
            is_output: to.component.is_none(),
        },
        more: ends.len() - index > 1,
    })
}

/// Where the data connection to an end of a network comes from: an output of a component, or an input of the composite
/// itself.
pub(crate) fn source_in(
    tables: &Tables,
    around: Option<u32>,
    end: ConnectionEnd,
) -> Option<InstanceVariable>
    requires netlist { IsNetlist tables.now }
    requires within { IsAround tables.now.library around }
    requires end { (q : Port) × DataEnters tables.now.library around end q }
    ensures comes { (q : Port) → DataEnters tables.now.library around end q → option_map (variable_of tables.now.library) result ≡ source_along (data_inside tables.now.library (path_around tables.now.library around)) q }
    ensures within { IfSome result (IsSource tables.now.library) }
{
    let wiring = wiring_in(tables, around)?;
    let from = wiring.source(end)?;
    Some(InstanceVariable {
        instance: instance_at(tables, around, from.component),
        variable: from.port as u32,
        is_output: from.component.is_some(),
    })
}

/// The last index of a route: that of the instance in its own network.
pub(crate) fn last_index(route: &[u32]) -> Option<usize>
    ensures { result ≡ last_of route.now }
{
    let index = route.last()?;
    Some(*index as usize)
}

/// The end from which the connections of an event lead: for an event output in the network around the instance, for an
/// event input of a composite in the network inside it.
pub(crate) fn leaving(tables: &Tables, from: Target) -> EndIn
    requires netlist { IsNetlist tables.now }
    requires port { IsPort tables.now.library from }
    ensures within { IsAround tables.now.library result.around }
    ensures end { EventLeaves tables.now.library result.around result.end (port_of tables.now.library from) }
    ensures targets { targets_along (events_inside tables.now.library (path_around tables.now.library result.around)) (port_of tables.now.library from) ≡ targets_of tables.now.library (port_of tables.now.library from) }
{
    let port = from.event as usize;
    if from.is_output {
        let row = row_at(tables, from.instance);
        let component = last_index(row.route.as_slice());
        EndIn {
            around: row.parent,
            end: ConnectionEnd { component, port },
        }
    } else {
        let component = None;
        EndIn {
            around: Some(from.instance),
            end: ConnectionEnd { component, port },
        }
    }
}

/// The end to which the connection of a variable leads: for a data input in the network around the instance, for a data
/// output of a composite in the network inside it.
pub(crate) fn entering(tables: &Tables, to: InstanceVariable) -> EndIn
    requires netlist { IsNetlist tables.now }
    requires variable { IsVariable tables.now.library to }
    ensures within { IsAround tables.now.library result.around }
    ensures end { DataEnters tables.now.library result.around result.end (variable_of tables.now.library to) }
    ensures source { source_along (data_inside tables.now.library (path_around tables.now.library result.around)) (variable_of tables.now.library to) ≡ source_of tables.now.library (variable_of tables.now.library to) }
{
    let port = to.variable as usize;
    if to.is_output {
        let component = None;
        EndIn {
            around: Some(to.instance),
            end: ConnectionEnd { component, port },
        }
    } else {
        let row = row_at(tables, to.instance);
        let component = last_index(row.route.as_slice());
        EndIn {
            around: row.parent,
            end: ConnectionEnd { component, port },
        }
    }
}
