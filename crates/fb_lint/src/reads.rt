//! Data inputs that a guard (L03) or an algorithm (L04) reads and that the event which leads there does not sample.

ghost use Rattle.std.specs.Prelude.{◌≡◌, ◌++◌, IfOk, OnOk};
ghost use Rattle.std.specs.List.{list_any};
ghost use Rattle.fb_types.specs.Blocks.{goes_with};
ghost use Rattle.fb_check.specs.types.Checks.{guard_mentions};
ghost use Rattle.fb_check.specs.types.Mentions.{meant, meant_all};
ghost use Rattle.fb_lint.specs.Reads as spec;

use crate::findings::push_if;
use crate::names::is_among;
use crate::parameters::{Subject, is_given};
use crate::warning::Warning;
use fb_check::types::mentions::{Mention, push_expression};
use fb_types::{EventPort, Name, Transition, Variable};
use std::alloc::{AllocError, Global};

/// Whether what is named is the variable.
fn is_variable(mention: &Mention, name: &Name) -> bool
    ensures { result ≡ spec.is_variable name.now (meant mention.now) }
{
    match mention {
        Mention::Variable(variable) => name.is(variable),
        Mention::Function(_) => false,
    }
}

/// Whether the variable is named.
pub(crate) fn is_mentioned(mentions: &[Mention], name: &Name) -> bool
    ensures { result ≡ list_any (spec.is_variable name.now) (meant_all mentions.now) }
{
    for mention in mentions {
        if is_variable(mention, name) {
            return true;
        }
    }
    false
}

/// Whether one of the events has the name, and the variable WITH it.
pub(crate) fn samples(events: &[EventPort], event: &Name, variable: &Name) -> bool
    ensures { result ≡ list_any (goes_with event.now variable.now) events.now }
{
    for port in events {
        if port.name.is(event) && is_among(port.with.as_slice(), variable) {
            return true;
        }
    }
    false
}

/// Whether there is an event that does not sample the variable.
pub(crate) fn is_unsampled(events: &[EventPort], event: &Option<Name>, variable: &Name) -> bool
    ensures { result ≡ spec.is_unsampled events.now event.now variable.now }
{
    match event {
        Some(event) => !samples(events, event, variable),
        None => false,
    }
}

/// Whether the variable is named and there is an event that does not sample it.
fn is_read_unsampled(
    events: &[EventPort],
    event: &Option<Name>,
    mentions: &[Mention],
    variable: &Name,
) -> bool
    ensures { result ≡ spec.is_read_unsampled events.now event.now (meant_all mentions.now) variable.now }
{
    is_mentioned(mentions, variable) && is_unsampled(events, event, variable)
}

/// Whether the variable is named, there is an event that does not sample it, and it has no parameter at each instance.
fn is_read_late(
    of: &Subject<'_>,
    events: &[EventPort],
    event: &Option<Name>,
    mentions: &[Mention],
    variable: &Name,
) -> bool
    ensures { result ≡ spec.is_read_late of.now.library.now of.now.name.now events.now event.now (meant_all mentions.now) variable.now }
{
    is_read_unsampled(events, event, mentions, variable) && !is_given(of, variable)
}

/// A transition of a basic type, by its index.
#[derive(Clone, Copy)]
struct Passage<'a> {
    of: Subject<'a>,
    index: usize,
    transition: &'a Transition,
}

/// Adds the data inputs that are among what a guard names, that the event of its transition does not sample, and that have
/// no parameter at each instance.
fn push_unsampled_by_guard(
    all: &mut Vec<Warning>,
    at: &Passage<'_>,
    events: &[EventPort],
    mentions: &[Mention],
    inputs: &[Variable],
) -> Result<(), AllocError>
    ensures { OnOk result (all.new.items ≡ all.old.items ++ spec.unsampled_by_guard at.now.of.library.now at.now.of.name.now at.now.of.block at.now.index events.now at.now.transition.now.condition.event (meant_all mentions.now) inputs.now) }
{
    for (input, variable) in inputs.iter().enumerate() {
        let event = &at.transition.condition.event;
        let applies = is_read_late(&at.of, events, event, mentions, &variable.name);
        let warning = Warning::UnsampledInGuard {
            block: at.of.block,
            transition: at.index,
            input,
        };
        push_if(all, applies, warning)?;
    }
    Ok(())
}

/// Adds what a guard names, if there is one.
pub(crate) fn push_guard<'a>(
    mentions: &mut Vec<Mention<'a>>,
    transition: &'a Transition,
) -> Result<(), AllocError>
    ensures { IfOk result (λ _. meant_all mentions.new.items ≡ meant_all mentions.old.items ++ guard_mentions transition.now) }
{
    match &transition.condition.guard {
        Some(guard) => push_expression(mentions, guard),
        None => Ok(()),
    }
}

/// Adds the data inputs that the guard of a transition reads and that its event does not sample.
fn push_unsampled_at(
    alloc: Global,
    all: &mut Vec<Warning>,
    at: &Passage<'_>,
    events: &[EventPort],
    inputs: &[Variable],
) -> Result<(), AllocError>
    ensures { OnOk result (all.new.items ≡ all.old.items ++ spec.unsampled_at at.now.of.library.now at.now.of.name.now at.now.of.block events.now inputs.now at.now.index at.now.transition.now) }
{
    let mut mentions = Vec::new(alloc);
    push_guard(&mut mentions, at.transition)?;
    push_unsampled_by_guard(all, at, events, mentions.as_slice(), inputs)
}

/// Adds the data inputs that guards read and that the events of their transitions do not sample.
pub(crate) fn push_unsampled_in_guards(
    alloc: Global,
    all: &mut Vec<Warning>,
    of: &Subject<'_>,
    events: &[EventPort],
    inputs: &[Variable],
    transitions: &[Transition],
) -> Result<(), AllocError>
    ensures { OnOk result (all.new.items ≡ all.old.items ++ spec.unsampled_in_guards of.now.library.now of.now.name.now of.now.block events.now inputs.now transitions.now) }
{
    for (index, transition) in transitions.iter().enumerate() {
        let at = Passage {
            of: *of,
            index,
            transition,
        };
        push_unsampled_at(alloc, all, &at, events, inputs)?;
    }
    Ok(())
}
