//! The type names and the interfaces of the event blocks, by their rows.

ghost use Rattle.std.specs.Prelude.{◌≡◌, IfOk, map};
ghost use Rattle.fb_types.specs.Blocks as spec;
ghost use Rattle.fb_types.specs.EventPorts.{ArePortsOfKinds};
ghost use Rattle.fb_types.specs.EventRows as row;
ghost use Rattle.fb_types.specs.Names.{same_name};

use crate::event_kind::{BLOCKS, EventKind, EventRow, Row, VariableRow, row_of};
use crate::items::Items;
use crate::library::{EventPort, Ports, Variable};
use crate::name::Name;
use crate::numbered::Numbered;
use crate::value::Ty;
use std::alloc::{AllocError, Global};

fn is(name: &[u8], text: &str) -> bool
    ensures { result ≡ same_name text.now name.now }
{
    text.as_bytes() == name
}

/// The kind of the first row with the name.
fn look_up(mut table: &[Row], name: &[u8]) -> Option<EventKind>
    ensures { result ≡ row.kind_among (map row.name_and_kind table.entry.now) name.now }
{
    while let [entry, rest @ ..] = table {
        if is(name, entry.name) {
            return Some(entry.kind);
        }
        table = rest;
    }
    None
}

/// The event block with a type name. The name is in upper case.
pub fn kind_named(name: &[u8]) -> Option<EventKind>
    ensures { result ≡ spec.event_block_named name.now }
{
    look_up(&BLOCKS, name)
}

/// The type of the data input of an event block at an index.
pub fn event_block_input(kind: EventKind, index: usize) -> Option<Ty>
    ensures { result ≡ spec.type_at (spec.ports_of_event_block kind).inputs index }
{
    Some(row_of(kind).inputs.get(index)?.1)
}

/// The type of the data output of an event block at an index.
pub fn event_block_output(kind: EventKind, index: usize) -> Option<Ty>
    ensures { result ≡ spec.type_at (spec.ports_of_event_block kind).outputs index }
{
    Some(row_of(kind).outputs.get(index)?.1)
}

fn event(alloc: Global, name: &str, with: &[&str]) -> Result<EventPort, AllocError>
    ensures { IfOk result (λ e. e ≡ spec.event_with name.now (map (λ v. v.now) with.now)) }
{
    let mut names = Items::new(alloc);
    for variable in with {
        names.push(Name::from_text(alloc, variable)?)?;
    }
    let name = Name::from_text(alloc, name)?;
    Ok(EventPort { name, with: names })
}

fn events(alloc: Global, rows: &[EventRow]) -> Result<Items<EventPort>, AllocError>
    ensures { IfOk result (λ l. l ≡ map row.event_of rows.now) }
{
    let mut events = Items::new(alloc);
    for (name, with) in rows {
        events.push(event(alloc, name, with)?)?;
    }
    Ok(events)
}

fn variables(alloc: Global, rows: &[VariableRow]) -> Result<Items<Variable>, AllocError>
    ensures { IfOk result (λ l. l ≡ map row.variable_of rows.now) }
{
    let mut variables = Items::new(alloc);
    for (name, ty) in rows {
        let name = Name::from_text(alloc, name)?;
        variables.push(Variable {
            name,
            ty: *ty,
            initial: None,
        })?;
    }
    Ok(variables)
}

/// The interface of an event block.
pub fn ports_of(alloc: Global, kind: EventKind) -> Result<Ports, AllocError>
    ensures { IfOk result (λ p. p ≡ spec.ports_of_event_block kind) }
{
    let row = row_of(kind);
    Ok(Ports {
        event_inputs: Numbered::new(events(alloc, row.event_inputs)?),
        event_outputs: Numbered::new(events(alloc, row.event_outputs)?),
        inputs: Numbered::new(variables(alloc, row.inputs)?),
        outputs: Numbered::new(variables(alloc, row.outputs)?),
    })
}

/// The interfaces of all event blocks, each at the index of its kind.
pub fn all_ports(alloc: Global) -> Result<Items<Ports>, AllocError>
    ensures { IfOk result ArePortsOfKinds }
{
    let mut all = Items::new(alloc);
    for kind in &EventKind::ALL {
        all.push(ports_of(alloc, *kind)?)?;
    }
    Ok(all)
}
