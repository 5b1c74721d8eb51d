//! What is not covered of the event ports of instances that are no basic blocks.

ghost use Rattle.std.specs.Prelude.{◌≡◌, ◌++◌, IfOk, OnOk};
ghost use Rattle.fb_types.specs.OfSystem.{IsInstance, path_at};
ghost use Rattle.fb_coverage.specs.Reports as spec;
ghost use Rattle.fb_coverage.specs.Listed.{listed};
ghost use Rattle.fb_coverage.specs.OfSystem.{instances_text, is_in, unconnected_text, unconnected_texts};

use crate::block_report::{put_titled, put_unless};
use crate::group::{Group, is_in};
use crate::marks::Marks;
use crate::part::basic_of;
use crate::table::is_set;
use fb_system::System;
use fb_text::put_all;
use fb_types::{EventPort, Ports};
use std::alloc::{AllocError, Global};

/// The event ports of a group that an instance has.
#[derive(Clone, Copy)]
struct PortsOf<'a> {
    system: &'a System,
    instance: u32,
    group: Group,
}

impl PortsOf<'_> {
    /// Whether a port is in the group, and had no event.
    fn lack(&self, flags: &[bool], index: usize, event: &EventPort) -> bool
        requires { IsInstance self.now.system.now self.now.instance }
        ensures { result ≡ spec.is_lacking (is_in self.now.group self.now.system.now (path_at self.now.system.now self.now.instance)) flags.now index event.now }
    {
        if is_set(flags, index) {
            return false;
        }
        is_in(self.group, self.system, self.instance, index, event)
    }
}

/// Adds the event ports of a side that are in a group and had no event. Each line begins with this word.
fn put_side(
    text: &mut Vec<u8>,
    of: &PortsOf<'_>,
    word: &[u8],
    events: &[EventPort],
    flags: &[bool],
    words: &[u8],
) -> Result<(), AllocError>
    requires { IsInstance of.now.system.now of.now.instance }
    ensures { OnOk result (text.new.items ≡ text.old.items
        ++ listed (spec.port_line (is_in of.now.group of.now.system.now (path_at of.now.system.now of.now.instance)) word.now flags.now words.now) 0 events.now) }
{
    for (index, event) in events.iter().enumerate() {
        let is_lacking = of.lack(flags, index, event);
        put_unless(text, !is_lacking, word, &event.name, words)?;
    }
    Ok(())
}

/// Adds the event ports of an instance that are in a group and had no event.
fn put_ports(
    text: &mut Vec<u8>,
    of: &PortsOf<'_>,
    word: &[u8],
    marks: &Marks,
    ports: &Ports,
) -> Result<(), AllocError>
    requires { IsInstance of.now.system.now of.now.instance }
    ensures { OnOk result (text.new.items ≡ text.old.items
        ++ spec.ports_text (is_in of.now.group of.now.system.now (path_at of.now.system.now of.now.instance)) word.now marks.now of.now.instance ports.now) }
{
    let inputs = ports.event_inputs.as_slice();
    let taken = marks.ports.inputs.row(of.instance as usize);
    put_side(text, of, word, inputs, taken, b" was never taken\n")?;
    let outputs = ports.event_outputs.as_slice();
    let emitted = marks.ports.outputs.row(of.instance as usize);
    put_side(text, of, word, outputs, emitted, b" was never emitted\n")
}

/// Adds what is not covered of the connected ports of all instances that are no basic blocks.
pub(crate) fn put_instances(
    alloc: Global,
    text: &mut Vec<u8>,
    system: &System,
    marks: &Marks,
) -> Result<(), AllocError>
    ensures { OnOk result (text.new.items ≡ text.old.items ++ instances_text system.now marks.now) }
{
    system.facts(); // for the prover: what holds of every accepted system
    for index in 0..system.count() {
        let instance = index as u32;
        if basic_of(system, instance).is_some() {
            continue;
        }
        let of = PortsOf {
            system,
            instance,
            group: Group::Connected,
        };
        let mut part = Vec::new(alloc);
        put_ports(&mut part, &of, b"  event ", marks, system.ports(instance))?;
        put_titled(text, b"instance ", system.path(instance), part.as_slice())?;
    }
    Ok(())
}

/// How a line begins of a port of an instance that is written with its path.
fn word_of(alloc: Global, system: &System, instance: u32) -> Result<Vec<u8>, AllocError>
    requires { IsInstance system.now instance }
    ensures { IfOk result (λ word. word.items ≡ spec.word_of (path_at system.now instance)) }
{
    let mut word = Vec::new(alloc);
    put_all(&mut word, &[b"  event ", system.path(instance), b"."])?;
    Ok(word)
}

/// Adds the ports without a connection, and without an event, of all instances that are no basic blocks.
fn put_all_unconnected(
    alloc: Global,
    text: &mut Vec<u8>,
    system: &System,
    marks: &Marks,
) -> Result<(), AllocError>
    ensures { OnOk result (text.new.items ≡ text.old.items ++ unconnected_texts system.now marks.now) }
{
    system.facts(); // for the prover: what holds of every accepted system
    for index in 0..system.count() {
        let instance = index as u32;
        if basic_of(system, instance).is_some() {
            continue;
        }
        let of = PortsOf {
            system,
            instance,
            group: Group::Unconnected,
        };
        let word = word_of(alloc, system, instance)?;
        put_ports(text, &of, word.as_slice(), marks, system.ports(instance))?;
    }
    Ok(())
}

/// Adds the ports without a connection, under a title.
pub(crate) fn put_unconnected(
    alloc: Global,
    text: &mut Vec<u8>,
    system: &System,
    marks: &Marks,
) -> Result<(), AllocError>
    ensures { OnOk result (text.new.items ≡ text.old.items ++ unconnected_text system.now marks.now) }
{
    let mut part = Vec::new(alloc);
    put_all_unconnected(alloc, &mut part, system, marks)?;
    put_titled(text, b"ports without a connection", b"", part.as_slice())
}
