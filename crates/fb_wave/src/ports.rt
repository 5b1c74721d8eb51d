//! The event ports of a system.

ghost use Rattle.std.specs.Prelude.{◌≡◌, ◌<◌, ◌^◌, All, Contains, IfOk, OnOk, length, codes, if◌then◌else◌};
ghost use Rattle.fb_types.specs.Numbers.{event_at};
ghost use Rattle.fb_types.specs.Repeated.{Twice};
ghost use Rattle.fb_types.specs.Systems.{System as Flat};
ghost use Rattle.fb_types.specs.OfSystem.{IsResource, path_at, resource_at};
ghost use Rattle.fb_wave.specs.Ports as spec;
ghost use Rattle.fb_wave.specs.Ports.{AreAdded, HasNone};
ghost use Rattle.fb_wave.specs.OfSystem.{IsPortOf, port_text};

use fb_system::System;
use fb_types::{EventPort, Name, Ports};
use std::alloc::{AllocError, Global};

/// An event port.
#[derive(Clone, Copy)]
pub struct Port {
    pub instance: u32,
    /// The index of the event among the event inputs, or outputs.
    pub event: u32,
    /// Set if it is an event input.
    pub taken: bool,
}

/// The most events of one interface that lines can number.
const MOST_EVENTS: usize = 1 << 32;

/// Adds the event inputs of an instance, or its event outputs, of the given count.
fn push_events(
    all: &mut Vec<Port>,
    instance: u32,
    taken: bool,
    count: usize,
) -> Result<(), AllocError>
    ensures are { (sys : Flat) → instance < length sys.paths → count ≡ length (spec.side sys instance taken) → All (spec.IsPortOf sys) all.old.items
        → OnOk result (All (spec.IsPortOf sys) all.new.items) }
    ensures kept { OnOk result ((p : Port) → Contains all.old.items p → Contains all.new.items p) }
    ensures pushed { OnOk result ((p : Port) → p.instance ≡ instance → p.taken ≡ taken → p.event < count → p.event < 2 ^ 32 → Contains all.new.items p) }
    ensures added { OnOk result (AreAdded all.old.items all.new.items instance taken) }
    ensures once { ¬ (Twice all.old.items) → HasNone all.old.items instance taken → OnOk result (¬ (Twice all.new.items)) }
{
    for event in 0..count.min(MOST_EVENTS) {
        all.push(Port {
            instance,
            event: event as u32,
            taken,
        })?;
    }
    Ok(())
}

/// All event ports of a system.
pub(crate) fn ports_of(alloc: Global, system: &System) -> Result<Vec<Port>, AllocError>
    ensures are { IfOk result (λ v. All (IsPortOf system.now) v.items) }
    ensures all { IfOk result (λ v. (p : Port) → IsPortOf system.now p → Contains v.items p) }
    ensures once { IfOk result (λ v. ¬ (Twice v.items)) }
{
    system.facts(); // for the prover: what holds of every accepted system
    let mut all = Vec::new(alloc);
    for index in 0..system.count() {
        let instance = index as u32;
        let ports = system.ports(instance);
        push_events(&mut all, instance, true, ports.event_inputs.len())?;
        push_events(&mut all, instance, false, ports.event_outputs.len())?;
    }
    Ok(all)
}

/// The event inputs of an interface, or its event outputs.
fn events_of(ports: &Ports, taken: bool) -> &[EventPort]
    ensures { result.now ≡ spec.events ports.now taken }
{
    if taken {
        ports.event_inputs.as_slice()
    } else {
        ports.event_outputs.as_slice()
    }
}

/// The name of one of these events.
fn event_name(ports: &Ports, taken: bool, event: u32) -> &[u8]
    requires { event < length (spec.events ports.now taken) }
    ensures { result.now ≡ event_at (spec.events ports.now taken) event }
{
    events_of(ports, taken)[event as usize].name.as_bytes()
}

/// The number of the resource that holds a port.
pub(crate) fn holder_of(system: &System, port: Port) -> u32
    requires { IsPortOf system.now port }
    ensures held { result ≡ resource_at system.now (path_at system.now port.instance) }
    ensures within { IsResource system.now result }
{
    system.facts(); // for the prover: what holds of every accepted system
    system.resource(port.instance) as u32
}

/// The text between the resource and the path of a line: the sign of an event that is taken, or of one that is emitted.
fn sign(taken: bool) -> &'static [u8]
    ensures { result.now ≡ (if taken then codes " > " else codes " < ") }
{
    if taken { b" > " } else { b" < " }
}

/// The text of a line between its tick and its values: `RESOURCE > PATH.EVENT`, or with `<`.
pub(crate) fn port_text(alloc: Global, system: &System, port: Port) -> Result<Name, AllocError>
    requires { IsPortOf system.now port }
    ensures { IfOk result (λ n. n ≡ port_text system.now port) }
{
    let holder = holder_of(system, port);
    let ports = system.ports(port.instance);
    let mut text = Vec::new(alloc);
    text.extend_from_slice(system.resource_name(holder as usize))?;
    text.extend_from_slice(sign(port.taken))?;
    text.extend_from_slice(system.path(port.instance))?;
    text.extend_from_slice(b".")?;
    text.extend_from_slice(event_name(ports, port.taken, port.event))?;
    Name::from_slice(alloc, text.as_slice())
}
