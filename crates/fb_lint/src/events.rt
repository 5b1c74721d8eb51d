//! Event inputs that no transition names (L08).

ghost use Rattle.std.specs.Prelude.{◌≡◌, ◌++◌, IfOk, OnOk};
ghost use Rattle.std.specs.List.{list_any};
ghost use Rattle.fb_check.specs.types.Mentions.{meant_all};
ghost use Rattle.fb_lint.specs.Events as spec;

use crate::findings::push_if;
use crate::names::{is_among, is_named};
use crate::reads::is_mentioned;
use crate::uses::mentions_of;
use crate::warning::Warning;
use fb_check::types::mentions::Mention;
use fb_types::{BasicType, EventPort, Name, Transition};
use std::alloc::{AllocError, Global};

/// Whether a transition names the event.
fn is_event_named(transitions: &[Transition], event: &Name) -> bool
    ensures { result ≡ list_any (spec.names_event event.now) transitions.now }
{
    for transition in transitions {
        if is_named(event, &transition.condition.event) {
            return true;
        }
    }
    false
}

/// Whether another event has the variable WITH it.
fn is_shared(events: &[EventPort], event: &Name, variable: &Name) -> bool
    ensures { result ≡ list_any (spec.shares event.now variable.now) events.now }
{
    for port in events {
        if !event.is(&port.name) && is_among(port.with.as_slice(), variable) {
            return true;
        }
    }
    false
}

/// Whether one of the variables is named, and no other event has it WITH it.
fn has_own(events: &[EventPort], mentions: &[Mention], event: &Name, variables: &[Name]) -> bool
    ensures { result ≡ list_any (spec.is_own events.now (meant_all mentions.now) event.now) variables.now }
{
    for variable in variables {
        if is_mentioned(mentions, variable) && !is_shared(events, event, variable) {
            return true;
        }
    }
    false
}

/// Whether no transition names the event, and it does not alone sample a variable that an algorithm or a guard names.
fn is_idle(alloc: Global, basic: &BasicType, port: &EventPort) -> Result<bool, AllocError>
    ensures { IfOk result (λ b. b ≡ spec.is_idle basic.now port.now) }
{
    let transitions = basic.transitions.as_slice();
    if is_event_named(transitions, &port.name) {
        return Ok(false);
    }
    let mentions = mentions_of(alloc, basic.algorithms.as_slice(), transitions)?;
    let events = basic.ports.event_inputs.as_slice();
    Ok(!has_own(
        events,
        mentions.as_slice(),
        &port.name,
        port.with.as_slice(),
    ))
}

/// Adds the event inputs that no transition names and that sample nothing alone.
pub(crate) fn push_unnamed_events(
    alloc: Global,
    all: &mut Vec<Warning>,
    block: usize,
    basic: &BasicType,
    events: &[EventPort],
) -> Result<(), AllocError>
    ensures { OnOk result (all.new.items ≡ all.old.items ++ spec.unnamed_events block basic.now events.now) }
{
    for (event, port) in events.iter().enumerate() {
        let is_unnamed = is_idle(alloc, basic, port)?;
        push_if(all, is_unnamed, Warning::UnnamedEvent { block, event })?;
    }
    Ok(())
}
