//! The texts that say what is wrong with a line of a trace.

ghost use Rattle.std.specs.Prelude.{◌≡◌, ◌++◌, IfOk, OnOk, string_bytes};
ghost use Rattle.fb_types.specs.Headline.{system_of};
ghost use Rattle.fb_inspect.specs.OfSystem.{fault_text};
ghost use Rattle.fb_inspect.specs.refused.Messages as spec;

use crate::refused::fault_names::events_of;
use crate::refused::fault_text::{put_known, put_number, put_quoted, put_shown, put_unknown};
use crate::refused::fault_values::variables_of;
use crate::refused::line_fault::{LineFault, PortFault, ValueFault};
use fb_system::System;
use fb_trace::Outcome;
use fb_types::{EventPort, Ty, Variable};
use fb_wave::{CurrentLine, Port};
use std::alloc::{AllocError, Global};

/// What is wrong with the line that was read last, in a text without a line feed.
///
/// # Errors
/// If memory runs out.
pub fn line_message(
    alloc: Global,
    system: &System,
    current: &CurrentLine,
    fault: LineFault<'_>,
) -> Result<String, AllocError>
    ensures { IfOk result (λ text. string_bytes text ≡ fault_text system.now current.now.tick fault.entry) }
{
    let mut text = String::new(alloc);
    put_fault(&mut text, system, current.tick, fault)?;
    Ok(text)
}

/// Adds what is wrong with a line, after the tick of the line before it.
fn put_fault(
    text: &mut String,
    system: &System,
    tick: u64,
    fault: LineFault<'_>,
) -> Result<(), AllocError>
    ensures { OnOk result (string_bytes text.new ≡ string_bytes text.old ++ fault_text system.now tick fault.entry) }
{
    match fault {
        LineFault::AfterEnd => text.push_str("the trace has ended before it"),
        LineFault::Missing => text.push_str("the trace has no last line"),
        LineFault::Unended => text.push_str("it does not end in a line feed"),
        LineFault::Early(end) => put_early(text, tick, end),
        LineFault::NoEnd => text.push_str("it is no last line of this system"),
        LineFault::Key => {
            text.push_str("it does not begin with a class and two numbers of a key")
        }
        LineFault::Tick => text.push_str("it does not begin with a tick"),
        LineFault::Falls(now) => put_two_ticks(text, "tick ", now, " comes after tick ", tick),
        LineFault::Port(fault) => put_port_fault(text, system, fault),
    }
}

/// Adds a tick after words, and another one after other words.
fn put_two_ticks(
    text: &mut String,
    words: &str,
    tick: u64,
    more: &str,
    other: u64,
) -> Result<(), AllocError>
    ensures { OnOk result (string_bytes text.new ≡ string_bytes text.old ++ spec.two_ticks words.now tick more.now other) }
{
    text.push_str(words)?;
    put_number(text, tick)?;
    text.push_str(more)?;
    put_number(text, other)
}

/// Adds that an end may not come after a tick.
fn put_early(text: &mut String, tick: u64, end: Outcome) -> Result<(), AllocError>
    ensures { OnOk result (string_bytes text.new ≡ string_bytes text.old ++ spec.early_text tick end) }
{
    match end {
        Outcome::End(horizon) => {
            put_two_ticks(text, "end ", horizon, " is not after tick ", tick)
        }
        Outcome::Stop(mark) => {
            put_two_ticks(
                text,
                "a stop in tick ",
                mark.tick,
                " comes after tick ",
                tick,
            )
        }
    }
}

/// Adds what is wrong after the tick of a line.
fn put_port_fault(
    text: &mut String,
    system: &System,
    fault: PortFault<'_>,
) -> Result<(), AllocError>
    ensures { OnOk result (string_bytes text.new ≡ string_bytes text.old ++ spec.port_fault_text (system_of system.now) fault.entry) }
{
    match fault {
        PortFault::Short => {
            text.push_str("after the tick come a resource, > or <, and an instance with an event")
        }
        PortFault::Resource(name) => put_unknown(text, "there is no resource ", name),
        PortFault::Sign(sign) => put_known(text, sign, " is neither > nor <"),
        PortFault::NoEvent(word) => put_known(text, word, " is no instance with an event"),
        PortFault::Instance(path) => put_unknown(text, "there is no instance ", path),
        PortFault::Event {
            instance,
            taken,
            name,
        } => {
            put_instance(text, system, instance)?;
            put_unknown(text, no_event_words(taken), name)
        }
        PortFault::Elsewhere(port) => put_elsewhere(text, system, port.instance),
        PortFault::Values(port, fault) => put_value_fault(text, system, port, fault),
    }
}

/// What comes between an instance and the event that it does not have.
fn no_event_words(taken: bool) -> &'static str
    ensures { result.now ≡ spec.no_event_words taken }
{
    if taken {
        " has no event input "
    } else {
        " has no event output "
    }
}

/// Adds the path of an instance.
fn put_instance(text: &mut String, system: &System, instance: u32) -> Result<(), AllocError>
    ensures { OnOk result (string_bytes text.new ≡ string_bytes text.old ++ spec.instance_text (system_of system.now) instance) }
{
    if instance as usize >= system.count() {
        return Ok(());
    }
    text.push_str("instance ")?;
    put_shown(text, system.path(instance))
}

/// Adds in which resource an instance is.
fn put_elsewhere(text: &mut String, system: &System, instance: u32) -> Result<(), AllocError>
    ensures { OnOk result (string_bytes text.new ≡ string_bytes text.old ++ spec.elsewhere_text (system_of system.now) instance) }
{
    if instance as usize >= system.count() {
        return Ok(());
    }
    put_instance(text, system, instance)?;
    let resource = system.resource(instance);
    if resource >= system.resources() {
        return Ok(());
    }
    text.push_str(" is in resource ")?;
    put_shown(text, system.resource_name(resource))
}

/// Adds what is wrong with the values of a port.
fn put_value_fault(
    text: &mut String,
    system: &System,
    port: Port,
    fault: ValueFault<'_>,
) -> Result<(), AllocError>
    ensures { OnOk result (string_bytes text.new ≡ string_bytes text.old ++ spec.value_fault_text (system_of system.now) port fault.entry) }
{
    if port.instance as usize >= system.count() {
        return Ok(());
    }
    let ports = system.ports(port.instance);
    let variables = variables_of(ports, port.taken);
    match fault {
        ValueFault::Variable(name) => {
            put_known(text, name, " is no variable WITH ")?;
            put_event(text, events_of(ports, port.taken), port.event)
        }
        ValueFault::Missing(index) => {
            text.push_str("there is no value of ")?;
            put_variable(text, variables, index)
        }
        ValueFault::Value(index, value) => {
            put_known(text, value, " is no value of ")?;
            put_variable(text, variables, index)
        }
        ValueFault::More(rest) => {
            text.push_str("after the event and its values comes ")?;
            put_quoted(text, without_feed(rest))
        }
    }
}

/// A text without the line feed that it ends in, if it does.
fn without_feed(text: &[u8]) -> &[u8]
    ensures { result.now ≡ spec.without_feed text.now }
{
    match text.strip_suffix(b"\n".as_slice()) {
        Some(front) => front,
        None => text,
    }
}

/// Adds the name of an event.
fn put_event(text: &mut String, events: &[EventPort], event: u32) -> Result<(), AllocError>
    ensures { OnOk result (string_bytes text.new ≡ string_bytes text.old ++ spec.event_text events.now event) }
{
    if event as usize >= events.len() {
        return Ok(());
    }
    put_shown(text, events[event as usize].name.as_bytes())
}

/// Adds the name and the type of a variable.
fn put_variable(text: &mut String, variables: &[Variable], index: u32) -> Result<(), AllocError>
    ensures { OnOk result (string_bytes text.new ≡ string_bytes text.old ++ spec.variable_text variables.now index) }
{
    if index as usize >= variables.len() {
        return Ok(());
    }
    let variable = &variables[index as usize];
    put_shown(text, variable.name.as_bytes())?;
    text.push_str(" (")?;
    text.push_str(type_word(variable.ty))?;
    text.push_str(")")
}

/// The keyword of a type.
fn type_word(ty: Ty) -> &'static str
    ensures { result.now ≡ spec.type_word ty }
{
    match ty {
        Ty::Sint => "SINT",
        Ty::Int => "INT",
        Ty::Dint => "DINT",
        Ty::Lint => "LINT",
        Ty::Usint => "USINT",
        Ty::Uint => "UINT",
        Ty::Udint => "UDINT",
        Ty::Ulint => "ULINT",
        Ty::Time => "TIME",
        Ty::Bool => "BOOL",
    }
}
