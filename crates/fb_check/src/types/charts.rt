//! Names in WITH lists and in execution control charts that are unknown (IEC 61499-1, 5.1 and 5.2).

ghost use Rattle.std.specs.Prelude.{◌≡◌, ◌++◌, IfOk, option_map};
ghost use Rattle.fb_types.specs.Repeated.{algorithm_names};
ghost use Rattle.fb_check_names.specs.PortKinds.{names_of_kind};
ghost use Rattle.fb_check_names.specs.declared.location.Direction.TheVariants as direction;
ghost use Rattle.fb_check_names.specs.Listed.{each_at};
ghost use Rattle.fb_check.specs.types.Unknowns.{is_optional_met, unknown_in_state, unknown_names, unknown_variables, unknown_withs};

use crate::types::interface::Interface;
use crate::types::scope::Scope;
use fb_check_names::{ActionPart, Direction, PortKind, TransitionPart, UnknownName, push_unless};
use fb_types::{EventPort, Name, State, Transition};
use std::alloc::AllocError;

/// Adds the variables in the WITH list of an event that are not of the kind.
fn push_variables(
    found: &mut Vec<UnknownName>,
    interface: &Interface,
    port_kind: PortKind,
    block: usize,
    direction: Direction,
    event: usize,
    declared: &EventPort,
) -> Result<(), AllocError>
    ensures { IfOk result (λ _. found.new.items ≡ found.old.items ++ unknown_variables (names_of_kind port_kind interface.now.ports) block direction event declared.now) }
{
    let names = declared.with.as_slice();
    for (variable, name) in names.iter().enumerate() {
        let is_of_kind = interface.has_port(port_kind, name);
        let location = UnknownName::With {
            block,
            direction,
            event,
            variable,
        };
        push_unless(found, is_of_kind, location)?;
    }
    Ok(())
}

/// The same for these events of a block type.
fn push_in_events(
    found: &mut Vec<UnknownName>,
    interface: &Interface,
    port_kind: PortKind,
    block: usize,
    direction: Direction,
    events: &[EventPort],
) -> Result<(), AllocError>
    ensures { IfOk result (λ _. found.new.items ≡ found.old.items ++ each_at (unknown_variables (names_of_kind port_kind interface.now.ports) block direction) events.now) }
{
    for (event, declared) in events.iter().enumerate() {
        push_variables(
            found, interface, port_kind, block, direction, event, declared,
        )?;
    }
    Ok(())
}

/// Adds the names in the WITH lists of a block type that are no data inputs, at event inputs, or no data outputs, at event
/// outputs.
pub fn push_in_withs(
    found: &mut Vec<UnknownName>,
    block: usize,
    interface: &Interface,
) -> Result<(), AllocError>
    ensures { IfOk result (λ _. found.new.items ≡ found.old.items ++ (unknown_withs block direction.Input interface.now.ports ++ unknown_withs block direction.Output interface.now.ports)) }
{
    let (inputs, outputs) = (Direction::Input, Direction::Output);
    let ports = interface.ports();
    let events = ports.event_inputs.as_slice();
    push_in_events(found, interface, PortKind::Input, block, inputs, events)?;
    let events = ports.event_outputs.as_slice();
    push_in_events(found, interface, PortKind::Output, block, outputs, events)
}

/// Whether a name, if there is one, is that of an event port of the kind.
fn is_event(scope: &Scope, port_kind: PortKind, name: &Option<Name>) -> bool
    ensures { result ≡ is_optional_met (option_map (λ n. (n, names_of_kind port_kind scope.now.ports)) name.now) }
{
    match name {
        Some(name) => scope.interface().has_port(port_kind, name),
        None => true,
    }
}

/// Whether a name, if there is one, is that of an algorithm.
fn is_algorithm(scope: &Scope, name: &Option<Name>) -> bool
    ensures { result ≡ is_optional_met (option_map (λ n. (n, algorithm_names scope.now)) name.now) }
{
    match name {
        Some(name) => scope.is_algorithm(name),
        None => true,
    }
}

/// Adds the names of a transition that are unknown.
pub fn push_names(
    found: &mut Vec<UnknownName>,
    scope: &Scope,
    block: usize,
    transition: usize,
    declared: &Transition,
) -> Result<(), AllocError>
    ensures { IfOk result (λ _. found.new.items ≡ found.old.items ++ unknown_names scope.now block transition declared.now) }
{
    let from = UnknownName::Transition {
        block,
        transition,
        part: TransitionPart::From,
    };
    let to = UnknownName::Transition {
        block,
        transition,
        part: TransitionPart::To,
    };
    let event = UnknownName::Transition {
        block,
        transition,
        part: TransitionPart::Event,
    };
    let is_known = is_event(scope, PortKind::EventInput, &declared.condition.event);
    push_unless(found, scope.is_state(&declared.from), from)
        .and(push_unless(found, scope.is_state(&declared.to), to))
        .and(push_unless(found, is_known, event))
}

/// Adds the names of the actions of a state that are unknown.
fn push_in_state(
    found: &mut Vec<UnknownName>,
    scope: &Scope,
    block: usize,
    state: usize,
    declared: &State,
) -> Result<(), AllocError>
    ensures { IfOk result (λ _. found.new.items ≡ found.old.items ++ unknown_in_state scope.now block state declared.now) }
{
    let actions = declared.actions.as_slice();
    for (action, each) in actions.iter().enumerate() {
        let algorithm = UnknownName::Action {
            block,
            state,
            action,
            part: ActionPart::Algorithm,
        };
        let output = UnknownName::Action {
            block,
            state,
            action,
            part: ActionPart::Output,
        };
        let is_known = is_event(scope, PortKind::EventOutput, &each.output);
        push_unless(found, is_algorithm(scope, &each.algorithm), algorithm).and(push_unless(
            found, is_known, output,
        ))?;
    }
    Ok(())
}

/// The same for all states of a basic type.
pub fn push_in_states(
    found: &mut Vec<UnknownName>,
    scope: &Scope,
    block: usize,
    states: &[State],
) -> Result<(), AllocError>
    ensures { IfOk result (λ _. found.new.items ≡ found.old.items ++ each_at (unknown_in_state scope.now block) states.now) }
{
    for (state, declared) in states.iter().enumerate() {
        push_in_state(found, scope, block, state, declared)?;
    }
    Ok(())
}
