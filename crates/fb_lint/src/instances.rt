//! Instances to which nothing leads (L15), event inputs of others to which nothing leads (L16), and event connections
//! from WARM and STOP of an E_RESTART (L20); stimuli that come before an event from COLD (L23).

ghost use Rattle.std.specs.Prelude.{◌≡◌, ◌++◌, OnOk};
ghost use Rattle.std.specs.List.{list_any};
ghost use Rattle.fb_lint.specs.Instances as spec;

use crate::findings::push_if;
use crate::names::{is_called, is_named};
use crate::networks::{Located, has_source};
use crate::uses::has_some;
use crate::warning::Warning;
use fb_check_names::Site;
use fb_read_positions::BlockTypes;
use fb_types::{
    Connection, EventPort, Instance, Name, PortName, Ports, Stimulus, Variable, kind_named,
};
use std::alloc::AllocError;

/// Whether one of the event connections leads to the instance.
fn has_connection(connections: &[Connection], instance: &Name) -> bool
    ensures { result ≡ list_any (spec.leads_into instance.now) connections.now }
{
    for connection in connections {
        if is_named(instance, &connection.to.component) {
            return true;
        }
    }
    false
}

/// Whether one of the stimuli is for the instance.
fn is_stimulated(stimuli: &[Stimulus], instance: &Name) -> bool
    ensures { result ≡ list_any (spec.is_for instance.now) stimuli.now }
{
    for stimulus in stimuli {
        if instance.is(&stimulus.instance) {
            return true;
        }
    }
    false
}

/// Whether an event connection or a stimulus leads to the instance.
fn is_reached(connections: &[Connection], stimuli: &[Stimulus], instance: &Name) -> bool
    ensures { result ≡ spec.is_reached connections.now stimuli.now instance.now }
{
    has_connection(connections, instance) || is_stimulated(stimuli, instance)
}

/// Whether one of the stimuli is for the event input of the instance.
fn is_event_stimulated(stimuli: &[Stimulus], instance: &Name, event: &Name) -> bool
    ensures { result ≡ list_any (spec.is_for_event instance.now event.now) stimuli.now }
{
    for stimulus in stimuli {
        if instance.is(&stimulus.instance) && event.is(&stimulus.event) {
            return true;
        }
    }
    false
}

/// Whether an event connection or a stimulus leads to the event input of the instance.
fn is_event_reached(
    connections: &[Connection],
    stimuli: &[Stimulus],
    instance: &Name,
    event: &Name,
) -> bool
    ensures { result ≡ spec.is_event_reached connections.now stimuli.now instance.now event.now }
{
    has_source(connections, instance, event) || is_event_stimulated(stimuli, instance, event)
}

/// Whether an event input of an event block may stay without a source: STOP or R.
fn is_optional(block_type: &Name, event: &Name) -> bool
    ensures { result ≡ spec.is_optional block_type.now event.now }
{
    (is_called(event, "STOP") || is_called(event, "R"))
        && kind_named(block_type.as_bytes()).is_some()
}

/// Whether one of the data inputs has the name and no declared value.
fn is_bare(inputs: &[Variable], name: &Name) -> bool
    ensures { result ≡ list_any (spec.is_bare name.now) inputs.now }
{
    for input in inputs {
        if name.is(&input.name) && input.initial.is_none() {
            return true;
        }
    }
    false
}

/// Whether one of the names is that of a data input without a declared value.
fn has_bare(inputs: &[Variable], names: &[Name]) -> bool
    ensures { result ≡ list_any (spec.names_bare inputs.now) names.now }
{
    for name in names {
        if is_bare(inputs, name) {
            return true;
        }
    }
    false
}

/// Whether an event has data inputs WITH it that all have declared values: without the event these hold.
fn is_preset(inputs: &[Variable], event: &EventPort) -> bool
    ensures { result ≡ spec.is_preset inputs.now event.now }
{
    let with = event.with.as_slice();
    has_some(with) && !has_bare(inputs, with)
}

/// Whether nothing leads to an event input that needs a source.
fn is_forgotten(
    connections: &[Connection],
    stimuli: &[Stimulus],
    instance: &Instance,
    inputs: &[Variable],
    event: &EventPort,
) -> bool
    ensures { result ≡ spec.is_forgotten connections.now stimuli.now instance.now inputs.now event.now }
{
    !is_event_reached(connections, stimuli, &instance.name, &event.name)
        && !is_optional(&instance.block_type, &event.name)
        && !is_preset(inputs, event)
}

/// Adds the event inputs of an instance that need a source and to which nothing leads.
fn push_unreached_events(
    all: &mut Vec<Warning>,
    connections: &[Connection],
    stimuli: &[Stimulus],
    at: &Located<'_>,
    inputs: &[Variable],
    events: &[EventPort],
) -> Result<(), AllocError>
    ensures { OnOk result (all.new.items ≡ all.old.items ++ spec.unreached_events at.now.site connections.now stimuli.now at.now.index at.now.instance.now inputs.now events.now) }
{
    for (event, port) in events.iter().enumerate() {
        let applies = is_forgotten(connections, stimuli, at.instance, inputs, port);
        let warning = Warning::UnreachedEvent {
            site: at.site,
            instance: at.index,
            event,
        };
        push_if(all, applies, warning)?;
    }
    Ok(())
}

/// Adds an instance with event inputs to which nothing leads, else those of its event inputs to which nothing leads.
fn push_unreached_at(
    all: &mut Vec<Warning>,
    connections: &[Connection],
    stimuli: &[Stimulus],
    at: &Located<'_>,
    ports: &Ports,
) -> Result<(), AllocError>
    ensures { OnOk result (all.new.items ≡ all.old.items ++ spec.unreached_at at.now.site connections.now stimuli.now at.now.index at.now.instance.now ports.now) }
{
    let events = ports.event_inputs.as_slice();
    if is_reached(connections, stimuli, &at.instance.name) {
        let inputs = ports.inputs.as_slice();
        return push_unreached_events(all, connections, stimuli, at, inputs, events);
    }
    let warning = Warning::UnreachedInstance {
        site: at.site,
        instance: at.index,
    };
    push_if(all, !events.is_empty(), warning)
}

/// Adds the same for an instance by its type. If that is unknown there is nothing.
fn push_unreached_of(
    all: &mut Vec<Warning>,
    types: &BlockTypes,
    connections: &[Connection],
    stimuli: &[Stimulus],
    at: &Located<'_>,
) -> Result<(), AllocError>
    ensures { OnOk result (all.new.items ≡ all.old.items ++ spec.unreached_of types.now.library.now at.now.site connections.now stimuli.now at.now.index at.now.instance.now) }
{
    match types.ports_named(&at.instance.block_type) {
        Some(ports) => push_unreached_at(all, connections, stimuli, at, ports),
        None => Ok(()),
    }
}

/// Adds the instances of a network, and their event inputs, to which nothing leads.
pub(crate) fn push_unreached(
    all: &mut Vec<Warning>,
    types: &BlockTypes,
    site: Site,
    connections: &[Connection],
    stimuli: &[Stimulus],
    instances: &[Instance],
) -> Result<(), AllocError>
    ensures { OnOk result (all.new.items ≡ all.old.items ++ spec.unreached_in_network types.now.library.now site connections.now stimuli.now instances.now) }
{
    for (index, instance) in instances.iter().enumerate() {
        let at = Located {
            site,
            index,
            instance,
        };
        push_unreached_of(all, types, connections, stimuli, &at)?;
    }
    Ok(())
}

/// Whether the instance with the name is an E_RESTART.
fn is_restart(instances: &[Instance], name: &Name) -> bool
    ensures { result ≡ list_any (spec.is_restart name.now) instances.now }
{
    for instance in instances {
        if name.is(&instance.name) && is_called(&instance.block_type, "E_RESTART") {
            return true;
        }
    }
    false
}

fn is_from_restart(instances: &[Instance], component: &Option<Name>) -> bool
    ensures { result ≡ spec.is_from_restart instances.now component.now }
{
    match component {
        Some(instance) => is_restart(instances, instance),
        None => false,
    }
}

/// Whether a port is WARM or STOP of an E_RESTART.
fn is_silent(instances: &[Instance], port: &PortName) -> bool
    ensures { result ≡ spec.is_silent instances.now port.now }
{
    (is_called(&port.port, "WARM") || is_called(&port.port, "STOP"))
        && is_from_restart(instances, &port.component)
}

/// Adds the event connections from WARM and STOP of an E_RESTART.
pub(crate) fn push_silent_sources(
    all: &mut Vec<Warning>,
    site: Site,
    instances: &[Instance],
    connections: &[Connection],
) -> Result<(), AllocError>
    ensures { OnOk result (all.new.items ≡ all.old.items ++ spec.silent_sources site instances.now connections.now) }
{
    for (connection, entry) in connections.iter().enumerate() {
        let applies = is_silent(instances, &entry.from);
        push_if(all, applies, Warning::SilentSource { site, connection })?;
    }
    Ok(())
}

/// Whether a connection leads from COLD of an E_RESTART to the instance.
fn has_cold(instances: &[Instance], connections: &[Connection], instance: &Name) -> bool
    ensures { result ≡ list_any (spec.leads_cold instances.now instance.now) connections.now }
{
    for connection in connections {
        if is_named(instance, &connection.to.component)
            && is_called(&connection.from.port, "COLD")
            && is_from_restart(instances, &connection.from.component)
        {
            return true;
        }
    }
    false
}

/// Whether a stimulus comes at tick 0 to an instance to which an event from COLD leads.
fn is_early(instances: &[Instance], connections: &[Connection], stimulus: &Stimulus) -> bool
    ensures { result ≡ spec.is_early instances.now connections.now stimulus.now }
{
    stimulus.tick == 0 && has_cold(instances, connections, &stimulus.instance)
}

/// Adds the stimuli at tick 0 for instances to which an event from COLD leads.
pub(crate) fn push_early_stimuli(
    all: &mut Vec<Warning>,
    instances: &[Instance],
    connections: &[Connection],
    stimuli: &[Stimulus],
) -> Result<(), AllocError>
    ensures { OnOk result (all.new.items ≡ all.old.items ++ spec.early_stimuli instances.now connections.now stimuli.now) }
{
    for (stimulus, entry) in stimuli.iter().enumerate() {
        let applies = is_early(instances, connections, entry);
        push_if(all, applies, Warning::EarlyStimulus { stimulus })?;
    }
    Ok(())
}
