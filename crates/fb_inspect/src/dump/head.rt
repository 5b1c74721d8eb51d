//! The head of a dump with the inside of basic blocks.

ghost use Rattle.std.specs.Prelude.{◌≡◌, ◌++◌, OnOk};
ghost use Rattle.fb_wave.specs.OfSystem.{AreFirsts};
ghost use Rattle.fb_inspect.specs.OfSystem.{AreKept, insides_begun, instances_opened, opening_look, state_head};

use crate::dump::before::{inside_of, put_inside};
use crate::dump::inner::put_chart;
use crate::walk::blocks::{Remembered, basic_type};
use fb_system::System;
use fb_wave::head::{put_begun, put_instance};
use fb_wave::scopes::{put_closed, put_opened};
use std::alloc::{AllocError, Global};

/// Puts the scopes of the instances of a resource, each with its inside.
fn put_instances(
    alloc: Global,
    text: &mut Vec<u8>,
    system: &System,
    firsts: &[usize],
    resource: usize,
) -> Result<(), AllocError>
    requires { AreFirsts system.now firsts.now }
    ensures { OnOk result (text.new.items ≡ text.old.items
        ++ instances_opened system.now resource) }
{
    system.facts(); // for the prover: what holds of every accepted system
    let mut depth = 0;
    for index in 0..system.count() {
        let instance = index as u32;
        if system.resource(instance) == resource {
            depth = put_instance(text, system, firsts, depth, instance)?;
            if let Some(block) = basic_type(system, instance) {
                put_chart(alloc, text, instance, block)?;
            }
        }
    }
    put_closed(text, depth)
}

/// Puts what the inside of all instances begins with.
fn put_insides_begun(
    text: &mut Vec<u8>,
    system: &System,
    blocks: &[Remembered],
) -> Result<(), AllocError>
    requires { AreKept system.now blocks.now (opening_look system.now) }
    ensures { OnOk result (text.new.items ≡ text.old.items ++ insides_begun system.now) }
{
    system.facts(); // for the prover: what holds of every accepted system
    for index in 0..system.count() {
        let instance = index as u32;
        if let Some(inside) = inside_of(system, blocks, instance) {
            put_inside(text, instance, &inside)?;
        }
    }
    Ok(())
}

/// Puts the head of a dump: the time scale, the scopes of the resources, the first time and what signals begin with.
pub(crate) fn put_head(
    alloc: Global,
    text: &mut Vec<u8>,
    system: &System,
    firsts: &[usize],
    blocks: &[Remembered],
) -> Result<(), AllocError>
    requires firsts { AreFirsts system.now firsts.now }
    requires blocks { AreKept system.now blocks.now (opening_look system.now) }
    ensures { OnOk result (text.new.items ≡ text.old.items ++ state_head system.now) }
{
    text.extend_from_slice(b"$timescale 1 ms $end\n")?;
    for resource in 0..system.resources() {
        put_opened(text, system.resource_name(resource))?;
        put_instances(alloc, text, system, firsts, resource)?;
        put_closed(text, 1)?;
    }
    text.extend_from_slice(b"$enddefinitions $end\n#0\n$dumpvars\n")
        .and(put_begun(alloc, text, system, firsts))
        .and(put_insides_begun(text, system, blocks))
        .and(text.extend_from_slice(b"$end\n"))
}
