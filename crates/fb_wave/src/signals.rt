//! The signals of an interface in the head of a dump, where they are declared.

ghost use Rattle.std.specs.Prelude.{◌≡◌, ◌<◌, ◌+◌, ◌^◌, ◌++◌, OnOk, length};
ghost use Rattle.fb_types.specs.Blocks.{among};
ghost use Rattle.fb_wave.specs.Scopes as spec;
ghost use Rattle.fb_wave.specs.Signals.{size_of};

use crate::{begun, declared};
use fb_types::{EventPort, Name, Ports, Variable};
use std::alloc::AllocError;

/// What a part of the head has of each event.
#[derive(Clone, Copy)]
pub(crate) enum HeadPart {
    /// Its declaration.
    Declarations,
    /// That it has not occurred.
    Beginnings,
}

fn put_event(
    text: &mut Vec<u8>,
    part: HeadPart,
    signal: usize,
    name: &[u8],
) -> Result<(), AllocError>
    ensures { OnOk result (text.new.items ≡ text.old.items ++ spec.event_in part signal name.now) }
{
    match part {
        HeadPart::Declarations => declared::put_event(text, signal, name),
        HeadPart::Beginnings => begun::put_event(text, signal),
    }
}

fn put_events(
    text: &mut Vec<u8>,
    part: HeadPart,
    first: usize,
    events: &[EventPort],
) -> Result<(), AllocError>
    requires { first + length events.now < 2 ^ 64 }
    ensures { OnOk result (text.new.items ≡ text.old.items ++ spec.event_declarations (spec.event_in part) first events.now) }
{
    let mut signal = first;
    for event in events {
        put_event(text, part, signal, event.name.as_bytes())?;
        signal += 1;
    }
    Ok(())
}

/// Whether lines carry a variable: whether it is WITH one of the events.
pub fn is_carried(events: &[EventPort], variable: &Variable) -> bool
    ensures { result ≡ spec.is_carried events.now variable.now }
{
    for event in events {
        if is_among(event.with.as_slice(), &variable.name) {
            return true;
        }
    }
    false
}

fn is_among(names: &[Name], name: &Name) -> bool
    ensures { result ≡ among names.now name.now }
{
    for other in names {
        if name.is(other) {
            return true;
        }
    }
    false
}

/// Declares a variable, if lines carry it.
fn put_variable(
    text: &mut Vec<u8>,
    events: &[EventPort],
    signal: usize,
    variable: &Variable,
) -> Result<(), AllocError>
    ensures { OnOk result (text.new.items ≡ text.old.items ++ spec.carried_declarations spec.variable_declared events.now signal variable.now) }
{
    if !is_carried(events, variable) {
        return Ok(());
    }
    declared::put_variable(text, signal, variable.name.as_bytes(), variable.ty)
}

fn put_variables(
    text: &mut Vec<u8>,
    events: &[EventPort],
    first: usize,
    variables: &[Variable],
) -> Result<(), AllocError>
    requires { first + length variables.now < 2 ^ 64 }
    ensures { OnOk result (text.new.items ≡ text.old.items ++ spec.variable_declarations spec.variable_declared events.now first variables.now) }
{
    let mut signal = first;
    for variable in variables {
        put_variable(text, events, signal, variable)?;
        signal += 1;
    }
    Ok(())
}

/// Appends the events of an interface, its inputs and then its outputs. The first signal has this number.
pub(crate) fn put_port_events(
    text: &mut Vec<u8>,
    part: HeadPart,
    first: usize,
    ports: &Ports,
) -> Result<(), AllocError>
    requires { first + length ports.now.event_inputs + length ports.now.event_outputs < 2 ^ 64 }
    ensures { OnOk result (text.new.items ≡ text.old.items ++ (spec.event_declarations (spec.event_in part) first ports.now.event_inputs
        ++ spec.event_declarations (spec.event_in part) (first + length ports.now.event_inputs) ports.now.event_outputs)) }
{
    put_events(text, part, first, ports.event_inputs.as_slice())?;
    let outputs = first + ports.event_inputs.len();
    put_events(text, part, outputs, ports.event_outputs.as_slice())
}

/// Declares the signals of an interface, the first with this number.
pub(crate) fn put_ports(text: &mut Vec<u8>, first: usize, ports: &Ports) -> Result<(), AllocError>
    requires { first + size_of ports.now < 2 ^ 64 }
    ensures { OnOk result (text.new.items ≡ text.old.items ++ spec.ports_declared first ports.now) }
{
    let variables = first + ports.event_inputs.len() + ports.event_outputs.len();
    put_port_events(text, HeadPart::Declarations, first, ports)?;
    put_variables(
        text,
        ports.event_inputs.as_slice(),
        variables,
        ports.inputs.as_slice(),
    )?;
    put_variables(
        text,
        ports.event_outputs.as_slice(),
        variables + ports.inputs.len(),
        ports.outputs.as_slice(),
    )
}
