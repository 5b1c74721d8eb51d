//! Makes the rows of the event ports and of the sources of a system.

ghost use Rattle.std.specs.Prelude.{◌≡◌, length, min, IfOk, OnOk};
ghost use Rattle.fb_types.specs.OfSystem.{IsInstance};
ghost use Rattle.fb_system.specs.RowRanges.{AreInRanges, HasRows, Keeps};
ghost use Rattle.fb_system.specs.PortRows.{ArePortRows, IsPortRowAt};
ghost use Rattle.fb_system.specs.OfSystem.{AreSources, IsSourceRowAt};

use crate::ends::{Ends, MOST_ENDS, SourceRow};
use crate::port_row::PortRow;
use crate::row_ranges::RowRanges;
use crate::system::System;
use fb_types::{InstanceVariable, Items, Target};
use std::alloc::{AllocError, Global};

/// Adds the rows of the event outputs, or of the event inputs, of an instance, as long as there is room.
fn add_ports(
    rows: &mut Items<PortRow>,
    system: &System,
    instance: u32,
    is_output: bool,
) -> Result<(), AllocError>
    requires { IsInstance system.now instance }
    ensures kept { OnOk result (Keeps rows.old rows.new) }
    ensures added { OnOk result (HasRows (IsPortRowAt system.now instance is_output) rows.new (length rows.old) (length rows.new)) }
{
    let ports = system.ports(instance);
    let count = if is_output {
        ports.event_outputs.count()
    } else {
        ports.event_inputs.count()
    };
    for event in 0..count {
        if rows.len() >= MOST_ENDS {
            return Ok(());
        }
        let at = Target {
            instance,
            event,
            is_output,
        };
        rows.push(system.port_by_tables(at))?;
    }
    Ok(())
}

/// Adds the rows of the data outputs, or of the data inputs, of an instance, as long as there is room. Data outputs
/// connect to what is inside, so only those of a composite have rows.
fn add_sources(
    rows: &mut Items<SourceRow>,
    system: &System,
    instance: u32,
    is_output: bool,
) -> Result<(), AllocError>
    requires { IsInstance system.now instance }
    ensures kept { OnOk result (Keeps rows.old rows.new) }
    ensures added { OnOk result (HasRows (IsSourceRowAt system.now instance is_output) rows.new (length rows.old) (length rows.new)) }
{
    let ports = system.ports(instance);
    let count = if !is_output {
        ports.inputs.count()
    } else if system.components(instance).is_empty() {
        0
    } else {
        ports.outputs.count()
    };
    for variable in 0..count {
        if rows.len() >= MOST_ENDS {
            return Ok(());
        }
        let to = InstanceVariable {
            instance,
            variable,
            is_output,
        };
        let source = system.source(to);
        rows.push(SourceRow { source })?;
    }
    Ok(())
}

/// The number of the row after these, of those that are kept.
fn row_after(rows: usize) -> u32
    ensures { result ≡ min rows MOST_ENDS }
{
    rows.min(MOST_ENDS) as u32
}

/// Adds the rows of the event ports of an instance, if all instances before it have their ranges.
fn add_ports_of(
    rows: &mut Items<PortRow>,
    ranges: &mut Items<RowRanges>,
    system: &System,
    instance: u32,
) -> Result<(), AllocError>
    requires instance { IsInstance system.now instance }
    requires rows { AreInRanges (IsPortRowAt system.now) rows.old ranges.old }
    ensures { OnOk result (AreInRanges (IsPortRowAt system.now) rows.new ranges.new) }
{
    if ranges.len() != instance as usize {
        return Ok(());
    }
    let first = row_after(rows.len());
    add_ports(rows, system, instance, false)?;
    let second = row_after(rows.len());
    add_ports(rows, system, instance, true)?;
    let end = row_after(rows.len());
    ranges.push(RowRanges {
        bounds: [first, second, end],
    })
}

/// Adds the rows of the data inputs and outputs of an instance, if all instances before it have their ranges.
fn add_sources_of(
    rows: &mut Items<SourceRow>,
    ranges: &mut Items<RowRanges>,
    system: &System,
    instance: u32,
) -> Result<(), AllocError>
    requires instance { IsInstance system.now instance }
    requires rows { AreInRanges (IsSourceRowAt system.now) rows.old ranges.old }
    ensures { OnOk result (AreInRanges (IsSourceRowAt system.now) rows.new ranges.new) }
{
    if ranges.len() != instance as usize {
        return Ok(());
    }
    let first = row_after(rows.len());
    add_sources(rows, system, instance, false)?;
    let second = row_after(rows.len());
    add_sources(rows, system, instance, true)?;
    let end = row_after(rows.len());
    ranges.push(RowRanges {
        bounds: [first, second, end],
    })
}

/// Adds the rows of an instance.
fn add_instance(ends: &mut Ends, system: &System, instance: u32) -> Result<(), AllocError>
    requires instance { IsInstance system.now instance }
    requires ports { ArePortRows system.now ends.old }
    requires sources { AreSources system.now ends.old }
    ensures ports { OnOk result (ArePortRows system.now ends.new) }
    ensures sources { OnOk result (AreSources system.now ends.new) }
{
    add_ports_of(&mut ends.ports, &mut ends.port_ranges, system, instance)?;
    add_sources_of(&mut ends.sources, &mut ends.source_ranges, system, instance)?;
    Ok(())
}

/// The rows of a system, as many as there is room for.
pub(crate) fn ends_of(alloc: Global, system: &System) -> Result<Ends, AllocError>
    ensures ports { IfOk result (ArePortRows system.now) }
    ensures sources { IfOk result (AreSources system.now) }
{
    system.facts(); // for the prover: what holds of every accepted system
    let mut ends = Ends::new(alloc);
    for instance in 0..system.count() {
        add_instance(&mut ends, system, instance as u32)?;
    }
    Ok(ends)
}
