//! Data inputs that an algorithm reads and that no event on a way to it samples (L04).

ghost use Rattle.std.specs.Prelude.{◌≡◌, ◌++◌, IfOk, OnOk, map};
ghost use Rattle.std.specs.List.{filter, list_any};
ghost use Rattle.fb_check.specs.types.Mentions.{meant_all};
ghost use Rattle.fb_lint.specs.Reads as spec;
ghost use Rattle.fb_lint.specs.Reads.{chart_of};
ghost use Rattle.fb_lint.specs.Reached.{edge_of, edges_are};

use crate::charts::runs;
use crate::findings::push_if;
use crate::names::is_listed;
use crate::parameters::{Subject, is_given};
use crate::reached::{Edge, reached_by};
use crate::reads::{is_mentioned, is_unsampled, samples};
use crate::warning::Warning;
use fb_check::types::mentions::{Mention, push_body};
use fb_types::{Algorithm, EventPort, Name, State, Transition, Variable};
use std::alloc::{AllocError, Global};

/// A chart, and the event inputs of its type.
#[derive(Clone, Copy)]
pub struct Chart<'a> {
    /// The states.
    pub states: &'a [State],
    /// The transitions.
    pub transitions: &'a [Transition],
    /// The event inputs.
    pub events: &'a [EventPort],
}

/// Whether a state with the name runs the algorithm.
fn runs_at(states: &[State], algorithm: &Name, state: &Name) -> bool
    ensures { result ≡ list_any (spec.runs_at algorithm.now state.now) states.now }
{
    for entry in states {
        if state.is(&entry.name) && runs(entry.actions.as_slice(), algorithm) {
            return true;
        }
    }
    false
}

/// Whether no event of the transition samples the variable.
fn passes_by(events: &[EventPort], variable: &Name, transition: &Transition) -> bool
    ensures { result ≡ spec.passes_by events.now variable.now transition.now }
{
    match &transition.condition.event {
        Some(event) => !samples(events, event, variable),
        None => true,
    }
}

/// The edges of the transitions that sample the variable by no event.
fn passing_edges<'a>(
    alloc: Global,
    chart: &Chart<'a>,
    transitions: &'a [Transition],
    variable: &Name,
) -> Result<Vec<Edge<'a>>, AllocError>
    ensures { IfOk result (λ v. edges_are v.items ≡ map edge_of (filter (spec.passes_by chart.now.events.now variable.now) transitions.now)) }
{
    let mut edges = Vec::new(alloc);
    for transition in transitions {
        if passes_by(chart.events, variable, transition) {
            edges.push(Edge {
                from: &transition.from,
                to: &transition.to,
            })?;
        }
    }
    Ok(edges)
}

/// Whether transitions that sample the variable by no event lead from the first state to this one.
fn leads_passing(
    alloc: Global,
    chart: &Chart,
    variable: &Name,
    state: &Name,
) -> Result<bool, AllocError>
    ensures { IfOk result (λ b. b ≡ spec.leads_passing (chart_of chart.now) variable.now chart.now.states.now state.now) }
{
    let [initial, ..] = chart.states else {
        return Ok(false);
    };
    let edges = passing_edges(alloc, chart, chart.transitions, variable)?;
    let reached = reached_by(alloc, &initial.name, edges)?;
    Ok(is_listed(reached.as_slice(), state))
}

/// Whether an event that does not sample the variable leads to a state that runs the algorithm, and nothing on the way from
/// the first state has sampled it.
fn leads_unsampled(
    alloc: Global,
    chart: &Chart,
    algorithm: &Name,
    variable: &Name,
    transition: &Transition,
) -> Result<bool, AllocError>
    ensures { IfOk result (λ b. b ≡ spec.leads_unsampled (chart_of chart.now) algorithm.now variable.now transition.now) }
{
    if is_unsampled(chart.events, &transition.condition.event, variable)
        && runs_at(chart.states, algorithm, &transition.to)
    {
        return leads_passing(alloc, chart, variable, &transition.from);
    }
    Ok(false)
}

/// Whether one of the transitions leads so.
fn has_leading(
    alloc: Global,
    chart: &Chart,
    transitions: &[Transition],
    algorithm: &Name,
    variable: &Name,
) -> Result<bool, AllocError>
    ensures { IfOk result (λ b. b ≡ list_any (spec.leads_unsampled (chart_of chart.now) algorithm.now variable.now) transitions.now) }
{
    for transition in transitions {
        if leads_unsampled(alloc, chart, algorithm, variable, transition)? {
            return Ok(true);
        }
    }
    Ok(false)
}

/// Whether the variable is named and an event that does not sample it leads to the algorithm.
fn is_led_unsampled(
    alloc: Global,
    chart: &Chart,
    algorithm: &Name,
    mentions: &[Mention],
    variable: &Name,
) -> Result<bool, AllocError>
    ensures { IfOk result (λ b. b ≡ spec.is_led_unsampled (chart_of chart.now) algorithm.now (meant_all mentions.now) variable.now) }
{
    if is_mentioned(mentions, variable) {
        return has_leading(alloc, chart, chart.transitions, algorithm, variable);
    }
    Ok(false)
}

/// An algorithm, by its index.
#[derive(Clone, Copy)]
struct Located<'a> {
    of: Subject<'a>,
    index: usize,
    algorithm: &'a Algorithm,
}

/// Whether the same holds of the algorithm, and the variable has no parameter at each instance.
fn is_led_late(
    alloc: Global,
    chart: &Chart,
    at: &Located<'_>,
    mentions: &[Mention],
    variable: &Name,
) -> Result<bool, AllocError>
    ensures { IfOk result (λ b. b ≡ spec.is_led_late at.now.of.library.now at.now.of.name.now (chart_of chart.now) at.now.algorithm.now.name (meant_all mentions.now) variable.now) }
{
    if is_led_unsampled(alloc, chart, &at.algorithm.name, mentions, variable)? {
        return Ok(!is_given(&at.of, variable));
    }
    Ok(false)
}

/// Adds the data inputs that are among what an algorithm names, that an event which leads to it does not sample, and that
/// have no parameter at each instance.
fn push_unsampled_by(
    alloc: Global,
    all: &mut Vec<Warning>,
    chart: &Chart,
    at: &Located<'_>,
    mentions: &[Mention],
    inputs: &[Variable],
) -> Result<(), AllocError>
    ensures { OnOk result (all.new.items ≡ all.old.items ++ spec.unsampled_by_algorithm at.now.of.library.now at.now.of.name.now (chart_of chart.now) at.now.of.block at.now.index at.now.algorithm.now.name (meant_all mentions.now) inputs.now) }
{
    for (input, variable) in inputs.iter().enumerate() {
        let name = &variable.name;
        let applies = is_led_late(alloc, chart, at, mentions, name)?;
        let warning = Warning::UnsampledInAlgorithm {
            block: at.of.block,
            algorithm: at.index,
            input,
        };
        push_if(all, applies, warning)?;
    }
    Ok(())
}

/// Adds the data inputs that an algorithm reads and that an event which leads to it does not sample.
fn push_unsampled_in(
    alloc: Global,
    all: &mut Vec<Warning>,
    chart: &Chart,
    at: &Located<'_>,
    inputs: &[Variable],
) -> Result<(), AllocError>
    ensures { OnOk result (all.new.items ≡ all.old.items ++ spec.unsampled_in at.now.of.library.now at.now.of.name.now (chart_of chart.now) at.now.of.block inputs.now at.now.index at.now.algorithm.now) }
{
    let mut mentions = Vec::new(alloc);
    push_body(&mut mentions, &at.algorithm.body)?;
    push_unsampled_by(alloc, all, chart, at, mentions.as_slice(), inputs)
}

/// Adds the data inputs that algorithms read and that events which lead to them do not sample.
pub(crate) fn push_unsampled_in_algorithms(
    alloc: Global,
    all: &mut Vec<Warning>,
    chart: &Chart,
    of: &Subject<'_>,
    inputs: &[Variable],
    algorithms: &[Algorithm],
) -> Result<(), AllocError>
    ensures { OnOk result (all.new.items ≡ all.old.items ++ spec.unsampled_in_algorithms of.now.library.now of.now.name.now (chart_of chart.now) of.now.block inputs.now algorithms.now) }
{
    for (index, algorithm) in algorithms.iter().enumerate() {
        let at = Located {
            of: *of,
            index,
            algorithm,
        };
        push_unsampled_in(alloc, all, chart, &at, inputs)?;
    }
    Ok(())
}
