//! States that no transition leaves (L06), transitions after one that always clears (L07), algorithms that no
//! action runs (L09), and event outputs that no action emits (L11).

ghost use Rattle.std.specs.Prelude.{◌≡◌, ◌++◌, OnOk};
ghost use Rattle.std.specs.List.{list_any};
ghost use Rattle.fb_types.specs.Syntax.{expr_of};
ghost use Rattle.fb_lint.specs.Charts as spec;

use crate::findings::push_if;
use crate::names::is_named;
use crate::warning::Warning;
use fb_check_names::PortKind;
use fb_types::{Action, Algorithm, EventPort, Expr, Name, State, Transition};
use std::alloc::AllocError;

/// Whether a transition leaves the state.
fn is_left(transitions: &[Transition], state: &Name) -> bool
    ensures { result ≡ list_any (spec.leaves state.now) transitions.now }
{
    for transition in transitions {
        if state.is(&transition.from) {
            return true;
        }
    }
    false
}

/// Adds the states that no transition leaves.
pub(crate) fn push_final_states(
    all: &mut Vec<Warning>,
    block: usize,
    transitions: &[Transition],
    states: &[State],
) -> Result<(), AllocError>
    ensures { OnOk result (all.new.items ≡ all.old.items ++ spec.final_states block transitions.now states.now) }
{
    for (state, entry) in states.iter().enumerate() {
        let is_final = !is_left(transitions, &entry.name);
        push_if(all, is_final, Warning::FinalState { block, state })?;
    }
    Ok(())
}

/// Whether an expression is TRUE, also in parentheses.
fn is_true(expr: &Expr) -> bool
    ensures { result ≡ spec.is_true (expr_of expr.now) }
{
    match expr {
        Expr::Truth(value) => *value,
        Expr::Group(inner) => is_true(inner.get()),
        Expr::Whole(_)
        | Expr::Variable(_)
        | Expr::Unary(_, _)
        | Expr::Binary(_, _, _)
        | Expr::Call(_, _) => false,
    }
}

/// Whether there is no guard, or it is TRUE.
pub(crate) fn always_holds(guard: &Option<Expr>) -> bool
    ensures { result ≡ spec.always_holds guard.now }
{
    match guard {
        Some(guard) => is_true(guard),
        None => true,
    }
}

/// Whether the event of an earlier transition is present whenever that of a later one is.
fn is_met_with(earlier: &Option<Name>, later: &Option<Name>) -> bool
    ensures { result ≡ spec.is_met_with earlier.now later.now }
{
    match earlier {
        Some(event) => is_named(event, later),
        None => true,
    }
}

/// Whether one of the earlier transitions leaves the same state and clears whenever the later one would.
fn is_shadowed(later: &Transition, earlier: &[Transition]) -> bool
    ensures { result ≡ list_any (spec.shadows later.now) earlier.now }
{
    for entry in earlier {
        if later.from.is(&entry.from)
            && always_holds(&entry.condition.guard)
            && is_met_with(&entry.condition.event, &later.condition.event)
        {
            return true;
        }
    }
    false
}

/// Adds the transitions after one that always clears.
pub(crate) fn push_shadowed_transitions(
    all: &mut Vec<Warning>,
    block: usize,
    transitions: &[Transition],
) -> Result<(), AllocError>
    ensures { OnOk result (all.new.items ≡ all.old.items ++ spec.shadowed_transitions block transitions.now) }
{
    for (transition, later) in transitions.iter().enumerate() {
        let is_behind = is_shadowed(later, &transitions[..transition]);
        let warning = Warning::ShadowedTransition { block, transition };
        push_if(all, is_behind, warning)?;
    }
    Ok(())
}

/// Whether one of the actions runs the algorithm.
pub(crate) fn runs(actions: &[Action], algorithm: &Name) -> bool
    ensures { result ≡ list_any (spec.runs algorithm.now) actions.now }
{
    for action in actions {
        if is_named(algorithm, &action.algorithm) {
            return true;
        }
    }
    false
}

/// Whether one of the states has an action that runs the algorithm.
fn is_run(states: &[State], algorithm: &Name) -> bool
    ensures { result ≡ list_any (spec.runs_in algorithm.now) states.now }
{
    for state in states {
        if runs(state.actions.as_slice(), algorithm) {
            return true;
        }
    }
    false
}

/// Adds the algorithms that no action runs.
pub(crate) fn push_unused_algorithms(
    all: &mut Vec<Warning>,
    block: usize,
    states: &[State],
    algorithms: &[Algorithm],
) -> Result<(), AllocError>
    ensures { OnOk result (all.new.items ≡ all.old.items ++ spec.unused_algorithms block states.now algorithms.now) }
{
    for (algorithm, entry) in algorithms.iter().enumerate() {
        let is_unused = !is_run(states, &entry.name);
        let warning = Warning::UnusedAlgorithm { block, algorithm };
        push_if(all, is_unused, warning)?;
    }
    Ok(())
}

/// Whether one of the actions emits the event.
fn emits(actions: &[Action], event: &Name) -> bool
    ensures { result ≡ list_any (spec.emits event.now) actions.now }
{
    for action in actions {
        if is_named(event, &action.output) {
            return true;
        }
    }
    false
}

/// Whether one of the states has an action that emits the event.
fn is_emitted(states: &[State], event: &Name) -> bool
    ensures { result ≡ list_any (spec.emits_in event.now) states.now }
{
    for state in states {
        if emits(state.actions.as_slice(), event) {
            return true;
        }
    }
    false
}

/// Adds the event outputs that no action emits.
pub(crate) fn push_silent_outputs(
    all: &mut Vec<Warning>,
    block: usize,
    states: &[State],
    events: &[EventPort],
) -> Result<(), AllocError>
    ensures { OnOk result (all.new.items ≡ all.old.items ++ spec.silent_outputs block states.now events.now) }
{
    for (port, event) in events.iter().enumerate() {
        let is_silent = !is_emitted(states, &event.name);
        let warning = Warning::UnusedPort {
            block,
            port_kind: PortKind::EventOutput,
            port,
        };
        push_if(all, is_silent, warning)?;
    }
    Ok(())
}
