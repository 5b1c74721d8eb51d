//! Makes the heads of the lines of a system.

ghost use Rattle.std.specs.Prelude.{◌≡◌, List, [], ◌++◌, codes, length, min, if◌then◌else◌, IfNone, IfOk, IfSome, OnOk};
ghost use Rattle.fb_types.specs.Names.{Name};
ghost use Rattle.fb_types.specs.OfSystem.{IsInstance, IsResource};
ghost use Rattle.fb_system.specs.IndexLists.{AreIndexes};
ghost use Rattle.fb_system.specs.Heads.{first_text};
ghost use Rattle.fb_system.specs.RowRanges.{HasRows, Keeps};
ghost use Rattle.fb_system.specs.OfSystem.{AreHeads, IsOfHead, IsRowAt, head_event, head_variables};

use crate::heads::{Head, HeadOf, Heads, MOST_ROWS, ROW};
use crate::row_ranges::RowRanges;
use crate::system::System;
use fb_types::{Items, Ports, Variable};
use std::alloc::{AllocError, Global};

/// The name of the variable at the first of these indexes, if there is one.
fn name_at_first<'a>(variables: &'a [Variable], indexes: &[u32]) -> Option<&'a [u8]>
    requires { (names : List Name) × AreIndexes variables.now names indexes.now }
    ensures none { (names : List Name) → AreIndexes variables.now names indexes.now → IfNone result (first_text names ≡ []) }
    ensures some { (names : List Name) → AreIndexes variables.now names indexes.now → IfSome result (λ n. first_text names ≡ codes " " ++ n.now ++ codes "=") }
{
    match indexes.first() {
        Some(index) => Some(variables[*index as usize].name.as_bytes()),
        None => None,
    }
}

/// The name of the event of a head, and that of the first variable WITH it, if there is one.
fn names_of(system: &System, of: HeadOf) -> (&[u8], Option<&[u8]>)
    requires { IsOfHead system.now of }
    ensures event { result.0.now ≡ head_event system.now of }
    ensures none { IfNone result.1 (first_text (head_variables system.now of) ≡ []) }
    ensures some { IfSome result.1 (λ n. first_text (head_variables system.now of) ≡ codes " " ++ n.now ++ codes "=") }
{
    let ports = system.ports(of.instance);
    let event = of.event as usize;
    if of.taken {
        let indexes = system.inputs_with(of.instance, of.event);
        let first = name_at_first(ports.inputs.as_slice(), indexes);
        (ports.event_inputs.as_slice()[event].name.as_bytes(), first)
    } else {
        let indexes = system.outputs_with(of.instance, of.event);
        let first = name_at_first(ports.outputs.as_slice(), indexes);
        (ports.event_outputs.as_slice()[event].name.as_bytes(), first)
    }
}

/// The sign of an event that is taken, or of one that is emitted.
fn sign(taken: bool) -> &'static [u8]
    ensures { result.now ≡ (if taken then codes " > " else codes " < ") }
{
    if taken { b" > " } else { b" < " }
}

/// The parts of a head.
#[derive(Clone, Copy)]
struct Parts<'a> {
    resource: &'a [u8],
    taken: bool,
    path: &'a [u8],
    event: &'a [u8],
    /// The name of the first variable.
    first: Option<&'a [u8]>,
}

/// Whether each part fits in a row. Then joining them is fast, even if the whole is too long.
fn are_short(parts: Parts) -> bool {
    let first = match parts.first {
        Some(name) => name.len(),
        None => 0,
    };
    parts.resource.len() <= ROW
        && parts.path.len() <= ROW
        && parts.event.len() <= ROW
        && first <= ROW
}

/// Joins the parts of a head, up to the name of its event.
fn join(text: &mut Vec<u8>, parts: Parts) -> Result<(), AllocError>
    ensures { OnOk result (text.new.items ≡ parts.entry.resource.now ++ (if parts.entry.taken then codes " > " else codes " < ")
        ++ parts.entry.path.now ++ codes "." ++ parts.entry.event.now) }
{
    text.clear();
    text.extend_from_slice(parts.resource)?;
    text.extend_from_slice(sign(parts.taken))?;
    text.extend_from_slice(parts.path)?;
    text.extend_from_slice(b".")?;
    text.extend_from_slice(parts.event)
}

/// Appends the name of the first variable to a head.
fn add_first(text: &mut Vec<u8>, first: Option<&[u8]>) -> Result<(), AllocError>
    ensures none { IfNone first.entry (OnOk result (text.new.items ≡ text.old.items)) }
    ensures some { IfSome first.entry (λ n. OnOk result (text.new.items ≡ text.old.items ++ codes " " ++ n.now ++ codes "=")) }
{
    let Some(name) = first else {
        return Ok(());
    };
    text.extend_from_slice(b" ")?;
    text.extend_from_slice(name)?;
    text.extend_from_slice(b"=")
}

/// The row of a head. The text is joined in the buffer.
fn row_of(system: &System, text: &mut Vec<u8>, of: HeadOf) -> Result<Head, AllocError>
    requires { IsOfHead system.now of }
    ensures { IfOk result (IsRowAt system.now of.instance of.taken of.event) }
{
    let (event, first) = names_of(system, of);
    let parts = Parts {
        resource: system.resource_name(of.resource as usize),
        taken: of.taken,
        path: system.path(of.instance),
        event,
        first,
    };
    if !are_short(parts) {
        return Ok(Head::none());
    }
    join(text, parts)?;
    add_first(text, parts.first)?;
    Ok(Head::with_text(of.resource, text.as_slice()))
}

/// The number of events that instances of a type take, or emit.
fn events_of(ports: &Ports, taken: bool) -> u32
    ensures { result ≡ length (if taken then ports.now.event_inputs else ports.now.event_outputs) }
{
    if taken {
        ports.event_inputs.count()
    } else {
        ports.event_outputs.count()
    }
}

/// Adds the rows of the events that an instance takes, or emits, as long as there is room.
fn add_rows(
    rows: &mut Items<Head>,
    system: &System,
    text: &mut Vec<u8>,
    resource: u32,
    instance: u32,
    taken: bool,
) -> Result<(), AllocError>
    requires resource { IsResource system.now resource }
    requires instance { IsInstance system.now instance }
    ensures kept { OnOk result (Keeps rows.old rows.new) }
    ensures added { OnOk result (HasRows (IsRowAt system.now instance taken) rows.new (length rows.old) (length rows.new)) }
{
    for event in 0..events_of(system.ports(instance), taken) {
        if rows.len() >= MOST_ROWS {
            return Ok(());
        }
        let of = HeadOf {
            resource,
            instance,
            event,
            taken,
        };
        rows.push(row_of(system, text, of)?)?;
    }
    Ok(())
}

/// The number of the row after these, of those that are kept.
fn row_after(rows: usize) -> u32
    ensures { result ≡ min rows MOST_ROWS }
{
    rows.min(MOST_ROWS) as u32
}

/// Adds the heads of an instance, if all instances before it have their ranges.
fn add_instance(
    heads: &mut Heads,
    system: &System,
    text: &mut Vec<u8>,
    instance: u32,
) -> Result<(), AllocError>
    requires instance { IsInstance system.now instance }
    requires heads { AreHeads system.now heads.old }
    ensures { OnOk result (AreHeads system.now heads.new) }
{
    system.facts(); // for the prover: what holds of every accepted system
    let resource = system.resource(instance);
    if resource >= system.resources() || heads.ranges.len() != instance as usize {
        return Ok(());
    }
    let resource = resource as u32;
    let first = row_after(heads.rows.len());
    add_rows(&mut heads.rows, system, text, resource, instance, false)?;
    let second = row_after(heads.rows.len());
    add_rows(&mut heads.rows, system, text, resource, instance, true)?;
    let end = row_after(heads.rows.len());
    heads.ranges.push(RowRanges {
        bounds: [first, second, end],
    })
}

/// The heads of the lines of a system, as many as there is room for.
pub(crate) fn heads_of(alloc: Global, system: &System) -> Result<Heads, AllocError>
    ensures { IfOk result (AreHeads system.now) }
{
    system.facts(); // for the prover: what holds of every accepted system
    let mut text = Vec::new(alloc);
    let mut heads = Heads::new(alloc);
    for instance in 0..system.count() {
        add_instance(&mut heads, system, &mut text, instance as u32)?;
    }
    Ok(heads)
}
