//! States to which no transitions lead from the initial state (L05).

ghost use Rattle.std.specs.Prelude.{◌≡◌, ◌++◌, IfOk, OnOk, map, not};
ghost use Rattle.std.specs.List.{filter};
ghost use Rattle.fb_types.specs.Names.{same_name};
ghost use Rattle.fb_lint.specs.Reached as spec;
ghost use Rattle.fb_lint.specs.Findings.{names_are};
ghost use Rattle.fb_lint.specs.Reached.{AreReached, edge_of, edges_are};

use crate::findings::push_if;
use crate::names::is_listed;
use crate::warning::Warning;
use fb_types::{Name, State, Transition};
use std::alloc::{AllocError, Global};

/// A transition, from state to state.
#[derive(Clone, Copy)]
pub struct Edge<'a> {
    /// The state that it leaves.
    pub from: &'a Name,
    /// The state that it enters.
    pub to: &'a Name,
}

/// The edges of a chart.
fn edges<'a>(alloc: Global, transitions: &'a [Transition]) -> Result<Vec<Edge<'a>>, AllocError>
    ensures { IfOk result (λ v. edges_are v.items ≡ map edge_of transitions.now) }
{
    let mut edges = Vec::new(alloc);
    for transition in transitions {
        edges.push(Edge {
            from: &transition.from,
            to: &transition.to,
        })?;
    }
    Ok(edges)
}

/// Adds the states to which edges lead from a state, and answers the other edges.
fn follow<'a>(
    alloc: Global,
    state: &Name,
    edges: &[Edge<'a>],
    todo: &mut Vec<&'a Name>,
) -> Result<Vec<Edge<'a>>, AllocError>
    ensures others { IfOk result (λ v. edges_are v.items ≡ filter (λ e. not (same_name state.now e.0)) (edges_are edges.now)) }
    ensures todo { IfOk result (λ _. names_are todo.new.items ≡ names_are todo.old.items ++ map (λ e. e.1) (filter (λ e. same_name state.now e.0) (edges_are edges.now))) }
{
    let mut others = Vec::new(alloc);
    for edge in edges {
        if state.is(edge.from) {
            todo.push(edge.to)?;
        } else {
            others.push(*edge)?;
        }
    }
    Ok(others)
}

/// The names of the states to which edges lead from the initial state, and of this one. A name may be there more than once.
pub(crate) fn reached_by<'a>(
    alloc: Global,
    initial: &'a Name,
    edges: Vec<Edge<'a>>,
) -> Result<Vec<&'a Name>, AllocError>
    ensures { IfOk result (λ v. AreReached (edges_are edges.entry.items) initial.now (names_are v.items)) }
{
    let mut rest = edges;
    let mut todo = Vec::new(alloc);
    todo.push(initial)?;
    let mut reached = Vec::new(alloc);
    while let Some(state) = todo.pop() {
        rest = follow(alloc, state, rest.as_slice(), &mut todo)?;
        reached.push(state)?;
    }
    Ok(reached)
}

/// The names of the states to which transitions lead from the initial state, and of this one.
fn reached_from<'a>(
    alloc: Global,
    initial: &'a Name,
    transitions: &'a [Transition],
) -> Result<Vec<&'a Name>, AllocError>
    ensures { IfOk result (λ v. AreReached (map edge_of transitions.now) initial.now (names_are v.items)) }
{
    let edges = edges(alloc, transitions)?;
    reached_by(alloc, initial, edges)
}

/// Adds the states that are not among the names.
fn push_unlisted(
    all: &mut Vec<Warning>,
    block: usize,
    names: &[&Name],
    states: &[State],
) -> Result<(), AllocError>
    ensures { OnOk result (all.new.items ≡ all.old.items ++ spec.unlisted_states block (names_are names.now) states.now) }
{
    for (state, entry) in states.iter().enumerate() {
        let is_unlisted = !is_listed(names, &entry.name);
        push_if(all, is_unlisted, Warning::UnreachedState { block, state })?;
    }
    Ok(())
}

/// Adds the states to which no transitions lead from the initial state, which is the first one.
pub(crate) fn push_unreached_states(
    alloc: Global,
    all: &mut Vec<Warning>,
    block: usize,
    transitions: &[Transition],
    states: &[State],
) -> Result<(), AllocError>
    ensures { OnOk result (all.new.items ≡ all.old.items ++ spec.unreached_states block transitions.now states.now) }
{
    let [initial, ..] = states else {
        return Ok(());
    };
    let reached = reached_from(alloc, &initial.name, transitions)?;
    push_unlisted(all, block, reached.as_slice(), states)
}
