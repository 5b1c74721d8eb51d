//! Whether the names of a system are those of a declaration and a deployment.

ghost use Rattle.std.specs.Prelude.{◌≡◌, ◌||◌, IsTrue, false};
ghost use Rattle.std.specs.List.{list_all};
ghost use Rattle.fb_wave.specs.Named as named;
ghost use Rattle.fb_wave.specs.OfSystem.{HasNames};

use crate::head::own_name;
use crate::words::is_digit;
use fb_system::System;
use fb_types::{EventPort, Ports, Variable};

/// Whether a byte is a letter in upper case, or an underscore.
fn is_letter(byte: u8) -> bool
    ensures { result ≡ named.is_letter byte }
{
    byte.is_ascii_uppercase() || byte == b'_'
}

/// Whether a byte may be in a name after its first.
fn is_part(byte: u8) -> bool
    ensures { result ≡ (named.is_letter byte || named.is_digit byte) }
{
    is_letter(byte) || is_digit(byte)
}

fn are_parts(bytes: &[u8]) -> bool
    ensures { result ≡ list_all (λ b. named.is_letter b || named.is_digit b) bytes.now }
{
    for byte in bytes {
        if !is_part(*byte) {
            return false;
        }
    }
    true
}

/// Whether a text is a name: a letter or an underscore, and then letters, digits and underscores.
fn is_name(name: &[u8]) -> bool
    ensures { result ≡ named.is_name name.now }
{
    match name {
        [] => false,
        [first, rest @ ..] => is_letter(*first) && are_parts(rest),
    }
}

fn are_events_named(events: &[EventPort]) -> bool
    ensures { result ≡ list_all (λ e. named.is_name e.name) events.now }
{
    for event in events {
        if !is_name(event.name.as_bytes()) {
            return false;
        }
    }
    true
}

fn are_variables_named(variables: &[Variable]) -> bool
    ensures { result ≡ list_all (λ v. named.is_name v.name) variables.now }
{
    for variable in variables {
        if !is_name(variable.name.as_bytes()) {
            return false;
        }
    }
    true
}

/// Whether all ports of an interface have names.
fn are_ports_named(ports: &Ports) -> bool
    ensures { result ≡ named.are_ports_named ports.now }
{
    are_events_named(ports.event_inputs.as_slice())
        && are_events_named(ports.event_outputs.as_slice())
        && are_variables_named(ports.inputs.as_slice())
        && are_variables_named(ports.outputs.as_slice())
}

/// Whether the resources of a system, its instances and their ports have names.
pub(crate) fn has_names(system: &System) -> bool
    ensures named { IsTrue result → HasNames system.now }
    ensures unnamed { result ≡ false → HasNames system.now → ⊥ }
{
    system.facts(); // for the prover: what holds of every accepted system
    for resource in 0..system.resources() {
        if !is_name(system.resource_name(resource)) {
            return false;
        }
    }
    for index in 0..system.count() {
        let instance = index as u32;
        if !is_name(own_name(system, instance)) || !are_ports_named(system.ports(instance)) {
            return false;
        }
    }
    true
}
