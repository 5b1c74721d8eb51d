//! Data inputs that no event samples (L01), and ports of composite types that no connection inside names (L11).

ghost use Rattle.std.specs.Prelude.{◌≡◌, ◌++◌, OnOk};
ghost use Rattle.std.specs.List.{list_any};
ghost use Rattle.fb_lint.specs.Findings.{each_from};
ghost use Rattle.fb_lint.specs.Interfaces as spec;

use crate::findings::push_if;
use crate::names::is_among;
use crate::parameters::{Subject, is_given};
use crate::warning::Warning;
use fb_check_names::{Named, PortKind};
use fb_types::{CompositeType, Connection, EventPort, Name, PortName, Variable};
use std::alloc::AllocError;

/// Whether one of the events has a variable WITH it.
pub(crate) fn has_with(events: &[EventPort], variable: &Name) -> bool
    ensures { result ≡ list_any (spec.has_with variable.now) events.now }
{
    for event in events {
        if is_among(event.with.as_slice(), variable) {
            return true;
        }
    }
    false
}

/// Whether none of the event inputs samples the data input, and it has no parameter at each instance.
fn is_never_sampled(of: &Subject<'_>, events: &[EventPort], input: &Name) -> bool
    ensures { result ≡ spec.is_never_sampled of.now.library.now of.now.name.now events.now input.now }
{
    !has_with(events, input) && !is_given(of, input)
}

/// Adds the data inputs that none of the event inputs samples, and that have no parameter at each instance.
pub(crate) fn push_unsampled_inputs(
    all: &mut Vec<Warning>,
    of: &Subject<'_>,
    events: &[EventPort],
    inputs: &[Variable],
) -> Result<(), AllocError>
    ensures { OnOk result (all.new.items ≡ all.old.items ++ spec.unsampled_inputs of.now.library.now of.now.name.now of.now.block events.now inputs.now) }
{
    for (input, variable) in inputs.iter().enumerate() {
        let is_unsampled = is_never_sampled(of, events, &variable.name);
        let warning = Warning::UnsampledInput {
            block: of.block,
            input,
        };
        push_if(all, is_unsampled, warning)?;
    }
    Ok(())
}

/// Whether an end of a connection is the port of the boundary with the name.
fn is_boundary(port: &PortName, name: &Name) -> bool
    ensures { result ≡ spec.is_boundary name.now port.now }
{
    match &port.component {
        Some(_) => false,
        None => port.port.is(name),
    }
}

/// Whether a connection inside a composite type comes from or leads to its port.
fn joins(port_kind: PortKind, name: &Name, connection: &Connection) -> bool
    ensures { result ≡ spec.joins port_kind name.now connection.now }
{
    match port_kind {
        PortKind::EventInput | PortKind::Input => is_boundary(&connection.from, name),
        PortKind::EventOutput | PortKind::Output => is_boundary(&connection.to, name),
    }
}

/// Whether one of the connections joins the port.
pub(crate) fn is_joined(port_kind: PortKind, name: &Name, connections: &[Connection]) -> bool
    ensures { result ≡ list_any (spec.joins port_kind name.now) connections.now }
{
    for connection in connections {
        if joins(port_kind, name, connection) {
            return true;
        }
    }
    false
}

/// Adds the ports of a composite type, all of one kind, that no connection inside names.
fn push_unjoined<T: Named>(
    all: &mut Vec<Warning>,
    block: usize,
    port_kind: PortKind,
    connections: &[Connection],
    ports: &[T],
) -> Result<(), AllocError>
    ensures { OnOk result (all.new.items ≡ all.old.items ++ each_from (λ k p. spec.unjoined block port_kind connections.now k (T.called p)) 0 ports.now) }
{
    for (port, each) in ports.iter().enumerate() {
        let is_unused = !is_joined(port_kind, each.name(), connections);
        let warning = Warning::UnusedPort {
            block,
            port_kind,
            port,
        };
        push_if(all, is_unused, warning)?;
    }
    Ok(())
}

/// Whether a connection inside reads one of the variables.
fn has_joined(connections: &[Connection], variables: &[Name]) -> bool
    ensures { result ≡ list_any (spec.is_input_joined connections.now) variables.now }
{
    for variable in variables {
        if is_joined(PortKind::Input, variable, connections) {
            return true;
        }
    }
    false
}

/// Whether an event connection inside comes from the event input, or a data connection from a variable WITH it.
fn is_event_used(events: &[Connection], values: &[Connection], port: &EventPort) -> bool
    ensures { result ≡ spec.is_event_used events.now values.now port.now }
{
    is_joined(PortKind::EventInput, &port.name, events) || has_joined(values, port.with.as_slice())
}

/// Adds the event inputs of a composite type that nothing inside uses.
fn push_unused_events(
    all: &mut Vec<Warning>,
    block: usize,
    events: &[Connection],
    values: &[Connection],
    ports: &[EventPort],
) -> Result<(), AllocError>
    ensures { OnOk result (all.new.items ≡ all.old.items ++ spec.unused_events block events.now values.now ports.now) }
{
    for (port, each) in ports.iter().enumerate() {
        let is_unused = !is_event_used(events, values, each);
        let warning = Warning::UnusedPort {
            block,
            port_kind: PortKind::EventInput,
            port,
        };
        push_if(all, is_unused, warning)?;
    }
    Ok(())
}

/// Adds the ports of a composite type that no connection inside names.
pub(crate) fn push_unjoined_ports(
    all: &mut Vec<Warning>,
    block: usize,
    composite: &CompositeType,
) -> Result<(), AllocError>
    ensures { OnOk result (all.new.items ≡ all.old.items ++ spec.unjoined_ports block composite.now) }
{
    let ports = &composite.ports;
    let events = composite.network.event_connections.as_slice();
    let data = composite.network.data_connections.as_slice();
    let inputs = ports.event_inputs.as_slice();
    push_unused_events(all, block, events, data, inputs)?;
    let outputs = ports.event_outputs.as_slice();
    push_unjoined(all, block, PortKind::EventOutput, events, outputs)?;
    let inputs = ports.inputs.as_slice();
    push_unjoined(all, block, PortKind::Input, data, inputs)?;
    let outputs = ports.outputs.as_slice();
    push_unjoined(all, block, PortKind::Output, data, outputs)
}
