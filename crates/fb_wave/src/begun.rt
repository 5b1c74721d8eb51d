//! The initial state of signals: no event, and the initial values of variables.

ghost use Rattle.std.specs.Prelude.{◌≡◌, ◌<◌, ◌+◌, ◌^◌, ◌++◌, OnOk, length, map};
ghost use Rattle.fb_types.specs.Blocks.{variable_names};
ghost use Rattle.fb_types.specs.Names.{Name};
ghost use Rattle.fb_types.specs.declared.value.Value.{Value};
ghost use Rattle.fb_types.specs.OfSystem.{IsInstance, path_at, ports_at};
ghost use Rattle.fb_wave.specs.Scopes as spec;
ghost use Rattle.fb_wave.specs.Signals.{size_of};
ghost use Rattle.fb_wave.specs.OfSystem.{initial_in};

use crate::change::put_value;
use crate::digits::put_line;
use crate::signals::{HeadPart, is_carried, put_port_events};
use fb_system::System;
use fb_types::{EventPort, Ports, Value, Variable};
use std::alloc::{AllocError, Global};

/// Writes that a port has had no event.
pub(crate) fn put_event(text: &mut Vec<u8>, signal: usize) -> Result<(), AllocError>
    ensures { OnOk result (text.new.items ≡ text.old.items ++ spec.event_begun signal) }
{
    put_line(text, b"b0 n", signal as u64)
}

/// Writes the initial value of a variable, if lines carry it.
fn put_carried(
    text: &mut Vec<u8>,
    events: &[EventPort],
    signal: usize,
    variable: &Variable,
    value: Value,
) -> Result<(), AllocError>
    ensures { (initial : Name → Value) → value ≡ initial variable.now.name
        → OnOk result (text.new.items ≡ text.old.items ++ spec.carried_declarations (spec.variable_begun initial) events.now signal variable.now) }
{
    if !is_carried(events, variable) {
        return Ok(());
    }
    put_value(text, signal, value)
}

/// Writes the initial values of the variables that lines carry. The first variable has this number.
fn put_values(
    text: &mut Vec<u8>,
    events: &[EventPort],
    first: usize,
    variables: &[Variable],
    values: &[Value],
) -> Result<(), AllocError>
    requires numbers { first + length variables.now < 2 ^ 64 }
    requires values { length values.now ≡ length variables.now }
    ensures { (initial : Name → Value) → values.now ≡ map initial (variable_names variables.now)
        → OnOk result (text.new.items ≡ text.old.items ++ spec.variable_declarations (spec.variable_begun initial) events.now first variables.now) }
{
    let mut signal = first;
    for (index, variable) in variables.iter().enumerate() {
        put_carried(text, events, signal, variable, values[index])?;
        signal += 1;
    }
    Ok(())
}

/// Writes the initial state of the signals of an interface whose variables have these values. The first signal has this
/// number.
fn put_ports(
    text: &mut Vec<u8>,
    first: usize,
    ports: &Ports,
    inputs: &[Value],
    outputs: &[Value],
) -> Result<(), AllocError>
    requires numbers { first + size_of ports.now < 2 ^ 64 }
    requires inputs { length inputs.now ≡ length ports.now.inputs }
    requires outputs { length outputs.now ≡ length ports.now.outputs }
    ensures { (initial : Name → Value) → inputs.now ≡ map initial (variable_names ports.now.inputs) → outputs.now ≡ map initial (variable_names ports.now.outputs)
        → OnOk result (text.new.items ≡ text.old.items ++ spec.ports_begun initial first ports.now) }
{
    let variables = first + ports.event_inputs.len() + ports.event_outputs.len();
    put_port_events(text, HeadPart::Beginnings, first, ports)?;
    put_values(
        text,
        ports.event_inputs.as_slice(),
        variables,
        ports.inputs.as_slice(),
        inputs,
    )?;
    put_values(
        text,
        ports.event_outputs.as_slice(),
        variables + ports.inputs.len(),
        ports.outputs.as_slice(),
        outputs,
    )
}

/// Writes the initial state of the signals of an instance. The first of them has this number.
pub(crate) fn put_instance(
    alloc: Global,
    text: &mut Vec<u8>,
    system: &System,
    first: usize,
    instance: u32,
) -> Result<(), AllocError>
    requires instance { IsInstance system.now instance }
    requires first { first + size_of (ports_at system.now (path_at system.now instance)) < 2 ^ 64 }
    ensures { OnOk result (let p = path_at system.now instance in
        text.new.items ≡ text.old.items ++ spec.ports_begun (initial_in system.now p) first (ports_at system.now p)) }
{
    let inputs = system.initial_inputs(alloc, instance)?;
    let outputs = system.initial_outputs(alloc, instance)?;
    put_ports(
        text,
        first,
        system.ports(instance),
        inputs.as_slice(),
        outputs.as_slice(),
    )
}
