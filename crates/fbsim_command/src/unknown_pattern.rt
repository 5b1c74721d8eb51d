//! Says why a declared system has no event for a pattern.
//!
//! The words are not proved; that the pattern has no event is (`known`).

ghost use Rattle.std.specs.Prelude.{◌<◌, IfOk, IfSome, length};
ghost use Rattle.fb_types.specs.OfSystem.{IsInstance};
ghost use Rattle.fbsim_command.specs.Known as spec;
ghost use Rattle.fbsim_command.specs.OfSystem.{ports_of};

use crate::known::{
    MOST_EVENTS, event_name, events_of, indexes_with, instance_at, never_comes, port_text,
    variables_of,
};
use crate::near::nearest_path;
use crate::possible::{is_possible, range_of};
use fb_expect::{Condition, Entry, Pattern, PortForm, Way, is_at};
use fb_read_positions::Text;
use fb_system::System;
use fb_types::{EventPort, Name, Ty};
use std::alloc::{AllocError, Global};

/// How much of a pattern an event must fit.
#[derive(Clone, Copy)]
enum Stage {
    /// Its port.
    Port,
    /// Its port and its sign.
    Sign,
    /// All but its conditions.
    Place,
    /// The same, and events come to it.
    Coming,
    /// All, with this condition alone.
    Condition(usize),
}

/// The side that a sign asks for, or this one where it asks for none.
fn side_of(way: Way, taken: bool) -> bool {
    match way {
        Way::Taken => true,
        Way::Emitted => false,
        Way::Either => taken,
    }
}

/// The resource that a pattern asks for, or this one where it asks for none.
fn resource_of<'a>(pattern: &'a Pattern, resource: &'a [u8]) -> &'a [u8] {
    match &pattern.resource {
        Some(name) => name.as_bytes(),
        None => resource,
    }
}

/// Whether an event fits a pattern up to a stage.
fn fits(
    alloc: Global,
    system: &System,
    pattern: &Pattern,
    stage: Stage,
    at: (u32, bool, u32),
) -> Result<bool, AllocError>
    requires instance { IsInstance system.now at.0 }
    requires event { at.2 < length (spec.events_of (ports_of system.now at.0) at.1) }
{
    system.facts(); // for the prover: what holds of every accepted system
    let (instance, taken, event) = at;
    let ports = system.ports(instance);
    let own = system.resource_name(system.resource(instance));
    let port = port_text(
        alloc,
        system.path(instance),
        event_name(ports, taken, event),
    )?;
    let (resource, side) = match stage {
        Stage::Port => (resource_of(pattern, own), side_of(pattern.way, taken)),
        Stage::Sign => (resource_of(pattern, own), taken),
        Stage::Place | Stage::Coming | Stage::Condition(_) => (own, taken),
    };
    let is_there = is_at(pattern, &Entry::of(0, resource, side, port.as_slice(), b""));
    drop(port);
    if let Stage::Coming = stage {
        return Ok(is_there && !never_comes(system, instance, event));
    }
    let Stage::Condition(index) = stage else {
        return Ok(is_there);
    };
    let Some(condition) = pattern.conditions.get(index) else {
        return Ok(is_there);
    };
    let indexes = indexes_with(system, instance, taken, event);
    Ok(is_there && is_possible(condition, variables_of(ports, taken), indexes))
}

/// The first of the event inputs of an instance, or of its event outputs, that fits a pattern up to a stage.
fn fitting_event(
    alloc: Global,
    system: &System,
    pattern: &Pattern,
    stage: Stage,
    instance: u32,
    taken: bool,
) -> Result<Option<u32>, AllocError>
    requires { IsInstance system.now instance }
    ensures { IfOk result (λ o. IfSome o (λ event. event < length (spec.events_of (ports_of system.now instance) taken))) }
{
    let count = events_of(system.ports(instance), taken).len();
    for event in 0..count.min(MOST_EVENTS) {
        if fits(
            alloc,
            system,
            pattern,
            stage,
            (instance, taken, event as u32),
        )? {
            return Ok(Some(event as u32));
        }
    }
    Ok(None)
}

/// The first event that fits a pattern up to a stage: its instance, its side and its index.
fn first_fit(
    alloc: Global,
    system: &System,
    pattern: &Pattern,
    stage: Stage,
) -> Result<Option<(u32, bool, u32)>, AllocError>
    ensures { IfOk result (λ o. IfSome o (λ at. IsInstance system.now at.0 × (at.2 < length (spec.events_of (ports_of system.now at.0) at.1)))) }
{
    system.facts(); // for the prover: what holds of every accepted system
    for instance in 0..system.count() {
        let instance = instance as u32;
        if let Some(event) = fitting_event(alloc, system, pattern, stage, instance, true)? {
            return Ok(Some((instance, true, event)));
        }
        if let Some(event) = fitting_event(alloc, system, pattern, stage, instance, false)? {
            return Ok(Some((instance, false, event)));
        }
    }
    Ok(None)
}

/// Whether a resource has a name.
fn has_resource(system: &System, name: &Name) -> bool {
    for resource in 0..system.resources() {
        if system.resource_name(resource) == name.as_bytes() {
            return true;
        }
    }
    false
}

/// Says that a resource is unknown, and which there are.
fn push_resource(text: &mut Text, system: &System, name: &Name, has_deployment: bool) {
    text.named("there is no resource ", name);
    if !has_deployment {
        text.words(" (no deployment was given, so all instances are in MAIN)");
        return;
    }
    for resource in 0..system.resources() {
        text.words(if resource == 0 { " (there is " } else { ", " });
        text.shown(system.resource_name(resource));
    }
    text.words(")");
}

/// The path of a port and its event.
fn parted(port: &[u8]) -> (&[u8], &[u8]) {
    let mut parts: (&[u8], &[u8]) = (b"", port);
    for (at, byte) in port.iter().enumerate() {
        if *byte == b'.' {
            parts = (&port[..at], &port[at + 1..]);
        }
    }
    parts
}

/// Says that an instance is unknown, and the name of the nearest one.
fn push_instance(
    alloc: Global,
    text: &mut Text,
    system: &System,
    path: &[u8],
) -> Result<(), AllocError> {
    text.words("there is no instance ");
    text.shown(path);
    if let Some(near) = nearest_path(alloc, system, path)? {
        text.words(" (the nearest name is ");
        text.shown(near);
        text.words(")");
    }
    Ok(())
}

/// Lists all events of an instance.
fn push_events(text: &mut Text, inputs: &[EventPort], outputs: &[EventPort]) {
    let mut before = " (it has ";
    for port in inputs {
        text.named(before, &port.name);
        before = ", ";
    }
    for port in outputs {
        text.named(before, &port.name);
        before = ", ";
    }
    text.words(if inputs.is_empty() && outputs.is_empty() {
        " (it has none)"
    } else {
        ")"
    });
}

/// Says that an instance has no such event, and which it has.
fn push_event(text: &mut Text, system: &System, instance: u32, way: Way, event: &[u8])
    requires { IsInstance system.now instance }
{
    system.facts(); // for the prover: what holds of every accepted system
    let ports = system.ports(instance);
    text.shown(system.path(instance));
    text.words(match way {
        Way::Taken => " has no event input ",
        Way::Emitted => " has no event output ",
        Way::Either => " has no event ",
    });
    text.shown(event);
    match way {
        Way::Taken => text.names(ports.event_inputs.as_slice()),
        Way::Emitted => text.names(ports.event_outputs.as_slice()),
        Way::Either => push_events(
            text,
            ports.event_inputs.as_slice(),
            ports.event_outputs.as_slice(),
        ),
    }
}

/// Says why no event has the port of a pattern.
fn push_port(
    alloc: Global,
    text: &mut Text,
    system: &System,
    pattern: &Pattern,
) -> Result<(), AllocError> {
    if !matches!(pattern.port.form, PortForm::Whole) {
        text.words("no event of any instance has this port");
        return Ok(());
    }
    let (path, event) = parted(pattern.port.text.as_slice());
    match instance_at(system, path) {
        Some(instance) => push_event(text, system, instance, pattern.way, event),
        None => push_instance(alloc, text, system, path)?,
    }
    Ok(())
}

/// The range of a type, in words.
fn push_range(text: &mut Text, ty: Ty) {
    if matches!(ty, Ty::Bool) {
        text.words("is TRUE or FALSE, which have no order");
        return;
    }
    let (least, most) = range_of(ty);
    text.words("is a number from ");
    text.number(least);
    text.words(" to ");
    text.number(most);
}

/// Says why an event can't meet a condition: it has no such variable, or of another type.
fn push_condition(text: &mut Text, system: &System, at: (u32, bool, u32), condition: &Condition)
    requires instance { IsInstance system.now at.0 }
    requires event { at.2 < length (spec.events_of (ports_of system.now at.0) at.1) }
{
    let (instance, taken, event) = at;
    let ports = system.ports(instance);
    let variables = variables_of(ports, taken);
    let indexes = indexes_with(system, instance, taken, event);
    for index in indexes {
        let variable = &variables[*index as usize];
        if variable.name.is(&condition.variable) {
            text.named("no value meets the condition: ", &condition.variable);
            text.words(" ");
            push_range(text, variable.ty);
            return;
        }
    }
    text.shown(event_name(ports, taken, event));
    text.named(" has no variable ", &condition.variable);
    for (place, index) in indexes.iter().enumerate() {
        text.named(
            if place == 0 { " (it has " } else { ", " },
            &variables[*index as usize].name,
        );
    }
    text.words(if indexes.is_empty() {
        " (it has none)"
    } else {
        ")"
    });
}

/// Says why a declared system has no event for a pattern.
pub(crate) fn push_why_unknown(
    alloc: Global,
    text: &mut Text,
    system: &System,
    pattern: &Pattern,
    has_deployment: bool,
) -> Result<(), AllocError> {
    if let Some(name) = &pattern.resource {
        if !has_resource(system, name) {
            push_resource(text, system, name, has_deployment);
            return Ok(());
        }
    }
    let Some((_, taken, _)) = first_fit(alloc, system, pattern, Stage::Port)? else {
        return push_port(alloc, text, system, pattern);
    };
    if first_fit(alloc, system, pattern, Stage::Sign)?.is_none() {
        text.words(if taken {
            "these are event inputs: the sign is >"
        } else {
            "these are event outputs: the sign is <"
        });
        return Ok(());
    }
    let Some(place) = first_fit(alloc, system, pattern, Stage::Place)? else {
        text.words("no such instance is in this resource");
        return Ok(());
    };
    if first_fit(alloc, system, pattern, Stage::Coming)?.is_none() {
        text.words("an E_RESTART emits COLD alone: WARM and STOP never come");
        return Ok(());
    }
    for (index, condition) in pattern.conditions.as_slice().iter().enumerate() {
        if first_fit(alloc, system, pattern, Stage::Condition(index))?.is_none() {
            push_condition(text, system, place, condition);
            return Ok(());
        }
    }
    text.words("no event meets all conditions together");
    Ok(())
}
