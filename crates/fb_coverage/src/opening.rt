//! The marks before the first trace.

ghost use Rattle.std.specs.Prelude.{◌≡◌, IfOk};
ghost use Rattle.fb_types.specs.OfSystem.{IsInstance, path_at};
ghost use Rattle.fb_coverage.specs.Openings as spec;
ghost use Rattle.fb_coverage.specs.OfSystem.{part_row, part_rows, port_row, port_rows};

use crate::part::{Part, Side, basic_of, events_of, is_used, part_count};
use crate::table::{Table, unset};
use fb_system::System;
use fb_types::{BasicType, BlockType, Items};
use std::alloc::{AllocError, Global};

/// The flags of the parts of a type that an instance has.
fn first_flags(alloc: Global, part: Part, basic: &BasicType) -> Result<Items<bool>, AllocError>
    ensures { IfOk result (λ flags. flags ≡ spec.first_flags part (spec.part_count part basic.now)) }
{
    let mut flags = unset(alloc, part_count(part, basic))?;
    if let Part::States = part {
        flags.set(0, true);
    }
    Ok(flags)
}

/// The flags of the parts of a declared type.
fn part_row(
    alloc: Global,
    system: &System,
    part: Part,
    block: &BlockType,
) -> Result<Items<bool>, AllocError>
    ensures { IfOk result (λ flags. flags ≡ part_row system.now part block.now) }
{
    match block {
        BlockType::Basic(basic) if is_used(system, &basic.name) => first_flags(alloc, part, basic),
        _ => Ok(Items::new(alloc)),
    }
}

/// The flags of the parts of all declared types.
pub(crate) fn part_table(alloc: Global, system: &System, part: Part) -> Result<Table, AllocError>
    ensures { IfOk result (λ table. table.rows ≡ part_rows system.now part) }
{
    let mut table = Table::new(alloc);
    for block in system.library().blocks.as_slice() {
        table.push(part_row(alloc, system, part, block)?)?;
    }
    Ok(table)
}

/// The flags of the event ports of an instance.
fn port_row(
    alloc: Global,
    system: &System,
    side: Side,
    instance: u32,
) -> Result<Items<bool>, AllocError>
    requires { IsInstance system.now instance }
    ensures { IfOk result (λ flags. flags ≡ port_row system.now side (path_at system.now instance)) }
{
    match basic_of(system, instance) {
        Some(_) => Ok(Items::new(alloc)),
        None => unset(alloc, events_of(side, system.ports(instance)).len()),
    }
}

/// The flags of the event ports of all instances.
pub(crate) fn port_table(alloc: Global, system: &System, side: Side) -> Result<Table, AllocError>
    ensures { IfOk result (λ table. table.rows ≡ port_rows system.now side) }
{
    let mut table = Table::new(alloc);
    system.facts(); // for the prover: what holds of every accepted system
    for instance in 0..system.count() {
        table.push(port_row(alloc, system, side, instance as u32)?)?;
    }
    Ok(table)
}
