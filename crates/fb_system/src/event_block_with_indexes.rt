//! The indexes of the variables WITH each event of the event blocks.

ghost use Rattle.std.specs.Prelude.{◌≡◌, ◌<◌, ◌^◌, IfOk, length, ◌&&◌};
ghost use Rattle.std.specs.List.{list_any};
ghost use Rattle.fb_types.specs.Names.{same_name};
ghost use Rattle.fb_types.specs.Blocks.{among, variables_with, ports_of_event_block};
ghost use Rattle.fb_types.specs.declared.event_kind.EventKind.{EventKind};
ghost use Rattle.fb_system.specs.IndexLists.{AreIndexes, AreIndexesOfEach, AreWithIndexes};
ghost use Rattle.fb_system.specs.Tables.{AreOfEventBlocks};

use crate::with_indexes::WithIndexes;
use fb_types::{EventKind, EventPort, Items, Name, Ports, Variable, ports_of};
use std::alloc::{AllocError, Global};

fn is_among(names: &[Name], name: &Name) -> bool
    ensures { result ≡ among names.now name.now }
{
    for other in names {
        if name.is(other) {
            return true;
        }
    }
    false
}

/// Whether a variable goes WITH an event.
fn is_with(events: &[EventPort], event: &Name, variable: &Name) -> bool
    ensures { result ≡ list_any (λ p. same_name p.name event.now && among p.with variable.now) events.now }
{
    for port in events {
        if port.name.is(event) && is_among(port.with.as_slice(), variable) {
            return true;
        }
    }
    false
}

/// The indexes of the variables WITH an event. It compares all of them, which is fast for the few of an event block.
fn indexes_with(
    alloc: Global,
    events: &[EventPort],
    variables: &[Variable],
    event: &Name,
) -> Result<Items<u32>, AllocError>
    requires { length variables.now < 2 ^ 32 }
    ensures { IfOk result (AreIndexes variables.now (variables_with events.now variables.now event.now)) }
{
    let mut indexes = Items::new(alloc);
    for (index, variable) in variables.iter().enumerate() {
        if is_with(events, event, &variable.name) {
            indexes.push(index as u32)?;
        }
    }
    Ok(indexes)
}

/// The indexes of the variables WITH each event.
fn indexes_with_each(
    alloc: Global,
    events: &[EventPort],
    variables: &[Variable],
) -> Result<Items<Items<u32>>, AllocError>
    requires { length variables.now < 2 ^ 32 }
    ensures { IfOk result (AreIndexesOfEach events.now variables.now) }
{
    let mut all = Items::new(alloc);
    for event in events {
        all.push(indexes_with(alloc, events, variables, &event.name)?)?;
    }
    Ok(all)
}

/// The indexes of the variables WITH each event of the interface of an event block.
fn of_ports(alloc: Global, ports: &Ports) -> Result<WithIndexes, AllocError>
    requires { (kind : EventKind) × (ports.now ≡ ports_of_event_block kind) }
    ensures { IfOk result (AreWithIndexes ports.now) }
{
    let inputs = indexes_with_each(
        alloc,
        ports.event_inputs.as_slice(),
        ports.inputs.as_slice(),
    )?;
    let outputs = indexes_with_each(
        alloc,
        ports.event_outputs.as_slice(),
        ports.outputs.as_slice(),
    )?;
    Ok(WithIndexes { inputs, outputs })
}

fn of_kind(alloc: Global, kind: EventKind) -> Result<WithIndexes, AllocError>
    ensures { IfOk result (AreWithIndexes (ports_of_event_block kind)) }
{
    let ports = ports_of(alloc, kind)?;
    of_ports(alloc, &ports)
}

/// The indexes of the variables WITH each event of each event block.
pub(crate) fn of_event_blocks(alloc: Global) -> Result<Items<WithIndexes>, AllocError>
    ensures { IfOk result AreOfEventBlocks }
{
    let mut all = Items::new(alloc);
    for kind in &EventKind::ALL {
        all.push(of_kind(alloc, *kind)?)?;
    }
    Ok(all)
}
