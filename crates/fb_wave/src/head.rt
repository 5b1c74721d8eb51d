//! The head of a dump: scopes, signals and their initial state.

ghost use Rattle.std.specs.Prelude.{◌≡◌, ◌≤◌, ◌+◌, ◌-◌, ◌++◌, IfOk, OnOk, drop, length};
ghost use Rattle.fb_types.specs.OfSystem.{IsInstance, path_at, ports_at};
ghost use Rattle.fb_wave.specs.Scopes as spec;
ghost use Rattle.fb_wave.specs.OfSystem.{AreFirsts, first_signal, head_text, instances_begun, instances_declared, resources_declared};

use crate::begun;
use crate::scopes::{put_closed, put_opened};
use crate::signals::put_ports;
use fb_system::System;
use std::alloc::{AllocError, Global};

/// What follows after the given number of bytes.
fn rest_from(text: &[u8], count: usize) -> &[u8]
    requires { count ≤ length text.now }
    ensures { result.now ≡ drop count text.now }
{
    &text[count..]
}

/// The last part of the path of an instance: its name in its network.
pub fn own_name(system: &System, instance: u32) -> &[u8]
    requires { IsInstance system.now instance }
    ensures { result.now ≡ spec.own_name (path_at system.now instance) }
{
    system.facts(); // for the prover: what holds of every accepted system
    let path = system.path(instance);
    match system.parent(instance) {
        Some(parent) => rest_from(path, system.path(parent).len() + 1),
        None => path,
    }
}

/// Appends the scope of an instance after `depth` scopes of instances that are open. Returns the count of open ones
/// afterwards.
pub fn put_instance(
    text: &mut Vec<u8>,
    system: &System,
    firsts: &[usize],
    depth: usize,
    instance: u32,
) -> Result<usize, AllocError>
    requires firsts { AreFirsts system.now firsts.now }
    requires instance { IsInstance system.now instance }
    ensures height { IfOk result (λ h. h ≡ length (path_at system.now instance)) }
    ensures text { OnOk result (let p = path_at system.now instance in
        text.new.items ≡ text.old.items ++ (spec.closed (depth + 1 - length p) ++ spec.opened (spec.own_name p) ++ spec.ports_declared (first_signal system.now instance) (ports_at system.now p))) }
{
    system.facts(); // for the prover: what holds of every accepted system
    let height = system.route(instance).len();
    let outside = height.saturating_sub(1);
    let ended = depth.saturating_sub(outside);
    put_closed(text, ended)?;
    put_opened(text, own_name(system, instance))?;
    let first = firsts[instance as usize];
    put_ports(text, first, system.ports(instance))?;
    Ok(height)
}

/// Appends the scopes of the instances of a resource.
fn put_instances(
    text: &mut Vec<u8>,
    system: &System,
    firsts: &[usize],
    resource: usize,
) -> Result<(), AllocError>
    requires { AreFirsts system.now firsts.now }
    ensures { OnOk result (text.new.items ≡ text.old.items
        ++ instances_declared system.now resource) }
{
    system.facts(); // for the prover: what holds of every accepted system
    let mut depth = 0;
    for index in 0..system.count() {
        if system.resource(index as u32) == resource {
            let height = put_instance(text, system, firsts, depth, index as u32)?;
            depth = height;
        }
    }
    put_closed(text, depth)
}

/// Appends the initial state of the signals of all instances.
pub fn put_begun(
    alloc: Global,
    text: &mut Vec<u8>,
    system: &System,
    firsts: &[usize],
) -> Result<(), AllocError>
    requires { AreFirsts system.now firsts.now }
    ensures { OnOk result (text.new.items ≡ text.old.items
        ++ instances_begun system.now) }
{
    system.facts(); // for the prover: what holds of every accepted system
    for index in 0..system.count() {
        begun::put_instance(alloc, text, system, firsts[index], index as u32)?;
    }
    Ok(())
}

/// Appends the scopes of all resources.
fn put_resources(text: &mut Vec<u8>, system: &System, firsts: &[usize]) -> Result<(), AllocError>
    requires { AreFirsts system.now firsts.now }
    ensures { OnOk result (text.new.items ≡ text.old.items
        ++ resources_declared system.now) }
{
    for resource in 0..system.resources() {
        put_opened(text, system.resource_name(resource))?;
        put_instances(text, system, firsts, resource)?;
        put_closed(text, 1)?;
    }
    Ok(())
}

/// Appends the head of a dump: the time scale, the scopes of the resources, the first time and the initial state.
pub(crate) fn put_head(
    alloc: Global,
    text: &mut Vec<u8>,
    system: &System,
    firsts: &[usize],
) -> Result<(), AllocError>
    requires { AreFirsts system.now firsts.now }
    ensures { OnOk result (text.new.items ≡ text.old.items ++ head_text system.now) }
{
    text.extend_from_slice(b"$timescale 1 ms $end\n")?;
    put_resources(text, system, firsts)?;
    text.extend_from_slice(b"$enddefinitions $end\n#0\n$dumpvars\n")?;
    put_begun(alloc, text, system, firsts)?;
    text.extend_from_slice(b"$end\n")
}
