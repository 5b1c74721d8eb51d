//! States that go in a circle by transitions that always clear (L19).

ghost use Rattle.std.specs.Prelude.{◌≡◌, ◌++◌, IfOk, OnOk};
ghost use Rattle.std.specs.List.{list_any};
ghost use Rattle.fb_lint.specs.Circles as spec;
ghost use Rattle.fb_lint.specs.Findings.{each_from};
ghost use Rattle.fb_lint.specs.Reached.{edges_are, leads};

use crate::charts::always_holds;
use crate::findings::push_if;
use crate::names::is_listed;
use crate::reached::{Edge, reached_by};
use crate::warning::Warning;
use fb_types::{Name, State, Transition};
use std::alloc::{AllocError, Global};

/// Whether one of the transitions leaves the state without an event.
fn has_eventless(transitions: &[Transition], state: &Name) -> bool
    ensures { result ≡ list_any (spec.is_eventless_from state.now) transitions.now }
{
    for transition in transitions {
        if state.is(&transition.from) && transition.condition.event.is_none() {
            return true;
        }
    }
    false
}

/// Whether a transition clears whenever its state is entered: its condition is `1` or TRUE, and each earlier one from the
/// state waits for an event.
fn is_certain(earlier: &[Transition], transition: &Transition) -> bool
    ensures { result ≡ spec.is_certain earlier.now transition.now }
{
    let condition = &transition.condition;
    condition.event.is_none()
        && always_holds(&condition.guard)
        && !has_eventless(earlier, &transition.from)
}

/// Adds the edge of a transition, if it applies.
fn push_edge<'a>(
    edges: &mut Vec<Edge<'a>>,
    applies: bool,
    transition: &'a Transition,
) -> Result<(), AllocError>
    ensures { IfOk result (λ _. edges_are edges.new.items ≡ edges_are edges.old.items ++ spec.edge_if applies transition.now) }
{
    if applies {
        edges.push(Edge {
            from: &transition.from,
            to: &transition.to,
        })?;
    }
    Ok(())
}

/// The edges of the transitions that clear whenever their state is entered.
fn certain_edges<'a>(
    alloc: Global,
    transitions: &'a [Transition],
) -> Result<Vec<Edge<'a>>, AllocError>
    ensures { IfOk result (λ v. edges_are v.items ≡ spec.certain_edges transitions.now) }
{
    let mut edges = Vec::new(alloc);
    for (index, transition) in transitions.iter().enumerate() {
        let applies = is_certain(&transitions[..index], transition);
        push_edge(&mut edges, applies, transition)?;
    }
    Ok(edges)
}

/// Whether edges lead from one state to another.
fn leads_to<'a>(
    alloc: Global,
    edges: &[Edge<'a>],
    from: &'a Name,
    to: &Name,
) -> Result<bool, AllocError>
    ensures { IfOk result (λ b. b ≡ leads (edges_are edges.now) from.now to.now) }
{
    let reached = reached_by(alloc, from, Vec::from_slice(alloc, edges)?)?;
    Ok(is_listed(reached.as_slice(), to))
}

/// Whether an edge leaves the state from whose end edges lead back to the state.
fn goes_round(alloc: Global, edges: &[Edge], state: &Name) -> Result<bool, AllocError>
    ensures { IfOk result (λ b. b ≡ list_any (spec.leads_back (edges_are edges.now) state.now) (edges_are edges.now)) }
{
    for edge in edges {
        if state.is(edge.from) && leads_to(alloc, edges, edge.to, state)? {
            return Ok(true);
        }
    }
    Ok(false)
}

/// Adds the states that go in a circle by these edges.
fn push_round(
    alloc: Global,
    all: &mut Vec<Warning>,
    block: usize,
    edges: &[Edge],
    states: &[State],
) -> Result<(), AllocError>
    ensures { OnOk result (all.new.items ≡ all.old.items ++ each_from (spec.endless_state block (edges_are edges.now)) 0 states.now) }
{
    for (state, entry) in states.iter().enumerate() {
        let is_endless = goes_round(alloc, edges, &entry.name)?;
        push_if(all, is_endless, Warning::EndlessState { block, state })?;
    }
    Ok(())
}

/// Adds the states that go in a circle by transitions that always clear.
pub(crate) fn push_endless_states(
    alloc: Global,
    all: &mut Vec<Warning>,
    block: usize,
    transitions: &[Transition],
    states: &[State],
) -> Result<(), AllocError>
    ensures { OnOk result (all.new.items ≡ all.old.items ++ spec.endless_states block transitions.now states.now) }
{
    let edges = certain_edges(alloc, transitions)?;
    push_round(alloc, all, block, edges.as_slice(), states)
}
