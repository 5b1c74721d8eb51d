//! The texts that say why no run gives a line.

ghost use Rattle.std.specs.Prelude.{◌≡◌, ◌<◌, ◌++◌, All, IfOk, OnOk, length, map, string_bytes};
ghost use Rattle.fb_types.specs.Headline.{system_of};
ghost use Rattle.fb_types.specs.Numbers.{pair_up};
ghost use Rattle.fb_wave.specs.Reading.{name_at};
ghost use Rattle.fb_inspect.specs.OfSystem.{finding_text};
ghost use Rattle.fb_inspect.specs.refused.Messages as spec;

use crate::refused::fault_text::{put_number, put_shown, put_value};
use crate::refused::finding::{Finding, RefusedLine};
use crate::walk::notes::word_of;
use fb_system::System;
use fb_types::{Emission, Value, Variable};
use std::alloc::{AllocError, Global};

/// Adds a value after the name of its variable.
fn put_binding(text: &mut String, name: &[u8], value: Value) -> Result<(), AllocError>
    ensures { OnOk result (string_bytes text.new ≡ string_bytes text.old ++ spec.binding_text name.now value) }
{
    text.push_str(" ")?;
    put_shown(text, name)?;
    text.push_str("=")?;
    put_value(text, value)
}

/// Adds values, each with the name of the variable at its index.
fn put_values(
    text: &mut String,
    variables: &[Variable],
    indexes: &[u32],
    values: &[Value],
) -> Result<(), AllocError>
    requires { All (λ k. k < length variables.now) indexes.now }
    ensures { OnOk result (string_bytes text.new ≡ string_bytes text.old ++ spec.bindings_text (pair_up (map (name_at variables.now) indexes.now) values.now)) }
{
    for (index, value) in indexes.iter().zip(values) {
        put_binding(text, variables[*index as usize].name.as_bytes(), *value)?;
    }
    Ok(())
}

/// Adds an event that an instance emits, as a line has it. Nothing is added of an instance or an event that the system
/// does not have.
fn put_emission(
    text: &mut String,
    system: &System,
    instance: u32,
    emission: &Emission,
) -> Result<(), AllocError>
    ensures { OnOk result (string_bytes text.new ≡ string_bytes text.old ++ spec.emission_text (system_of system.now) instance emission.now) }
{
    if instance as usize >= system.count() {
        return Ok(());
    }
    let ports = system.ports(instance);
    let events = ports.event_outputs.as_slice();
    put_shown(text, system.path(instance))?;
    if emission.event as usize >= events.len() {
        return Ok(());
    }
    text.push_str(".")?;
    put_shown(text, events[emission.event as usize].name.as_bytes())?;
    let indexes = system.outputs_with(instance, emission.event);
    put_values(
        text,
        ports.outputs.as_slice(),
        indexes,
        emission.values.as_slice(),
    )
}

/// Adds that too many steps were used after the event of an earlier line.
fn put_excess(text: &mut String, line: u64) -> Result<(), AllocError>
    ensures { OnOk result (string_bytes text.new ≡ string_bytes text.old ++ spec.excess_text line) }
{
    text.push_str("the resource of line ")?;
    put_number(text, line)?;
    text.push_str(" uses more steps in that tick than it has")
}

/// Adds why no run gives a line.
fn put_finding(text: &mut String, system: &System, finding: &Finding) -> Result<(), AllocError>
    ensures { OnOk result (string_bytes text.new ≡ string_bytes text.old ++ finding_text system.now finding.now) }
{
    match finding {
        Finding::Line => Ok(()),
        Finding::Emits { instance, emission } => {
            text.push_str("the reaction emits ")?;
            put_emission(text, system, *instance, emission)?;
            text.push_str(" here")
        }
        Finding::Unmade => text.push_str("the block does not emit this event here"),
        Finding::NotDue => {
            text.push_str("the timer of the block does not emit this event in this tick")
        }
        Finding::Late => text.push_str("no run has so late a tick"),
        Finding::NoStep => text.push_str("the resource uses more steps in this tick than it has"),
        Finding::Excess { line } => put_excess(text, *line),
        Finding::Stops(reason) => {
            text.push_str("the reaction stops the resource here: ")?;
            put_shown(text, word_of(*reason))
        }
        Finding::Runs => text.push_str("nothing stops the resource here"),
    }
}

/// Why no run gives the line at which a trace is refused, in a text without a line feed. It is empty where the reactions
/// do not tell.
///
/// # Errors
/// When memory runs out.
pub fn finding_message(
    alloc: Global,
    system: &System,
    refused: &RefusedLine,
) -> Result<String, AllocError>
    ensures { IfOk result (λ text. string_bytes text ≡ finding_text system.now refused.now.finding) }
{
    let mut text = String::new(alloc);
    put_finding(&mut text, system, &refused.finding)?;
    Ok(text)
}
