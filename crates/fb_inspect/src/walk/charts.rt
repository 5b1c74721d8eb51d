//! The reactions of basic blocks, step by step.

ghost use Rattle.std.specs.Prelude.{◌≡◌, ◌<◌, ◌≤◌, ◌∷◌, [], All, IfErr, IfOk, IfSome, IsSome, List, OnOk, Some, length, map, option_map, slice_get};
ghost use Rattle.fb_types.specs.Charts.{Acts, actions_of};
ghost use Rattle.fb_types.specs.Numbers.{event_at};
ghost use Rattle.fb_types.specs.Values.{Values};
ghost use Rattle.fb_types.specs.declared.library.Action.{Action};
ghost use Rattle.fb_st.specs.Frames.{values_of};
ghost use Rattle.fb_ecc.specs.Indexes.{IsBlockOf, IsStateOf, IsWellFormed, index, state_at};
ghost use Rattle.fb_ecc.specs.Sound.{IsSound};
ghost use Rattle.fb_ecc.specs.Trials.{transition_at};
ghost use Rattle.fb_coverage.specs.Sets.{with_cleared};
ghost use Rattle.fb_inspect.specs.walk.Chains.{Acting, ShowsChain};
ghost use Rattle.fb_inspect.specs.walk.Charting.{ChartGoes, HasLinked, IsChartOf, IsChartTaking, place};
ghost use Rattle.fb_inspect.specs.walk.Lines.{IsPlain};
ghost use Rattle.fb_inspect.specs.Markings as marking;
ghost use Rattle.fb_inspect.specs.walk.Moves.{HasNoted};
ghost use Rattle.fb_inspect.specs.walk.Notes.{cleared_note, lost_if, ran_by_action, stop_note};
ghost use Rattle.fb_inspect.specs.Refusals.{ChartFails, IsNoRefusal, Refuses};
ghost use Rattle.fb_inspect.specs.declared.walk.charts.Linked.TheVariants.{Went};
ghost use Rattle.fb_inspect.specs.walk.OfWalk.{HasNames, IsNext};

use crate::walk::blocks::{Chart, keep_values};
use crate::walk::error::WalkError;
use crate::walk::notes::{put_cleared, put_lost, put_ran, put_stopped};
use crate::walk::trail::{Fixed, Trail};
use fb_ecc::{BasicState, act, action_count, clear};
use fb_st::{Frame, Meter};
use fb_types::{BasicType, Emits, Halt, Line, Name, Reason, Reference, Value};
use std::alloc::AllocError;
use std::io::BufRead;

/// Taking an event by a basic block of a type, in a line of a trace.
#[derive(Clone, Copy)]
pub(crate) struct ChartTaking<'a, 'f, 's> {
    pub(crate) fixed: Fixed<'f, 's>,
    pub(crate) block: &'a BasicType,
    /// The number of the type among the declared ones.
    pub(crate) number: usize,
    pub(crate) line: &'a Line,
}

/// The algorithm of an action of the state in which a chart is.
fn algorithm_of(block: &BasicType, state: usize, action: usize) -> Option<&Name>
    requires sound { IsSound block.now }
    requires state { IsStateOf block.now state }
    ensures { (a : Action) → slice_get (actions_of block.now (state_at block.now state)) action ≡ Some a → option_map (λ n. n.now) result ≡ a.algorithm }
{
    let state = block.states.get(state)?;
    let action = state.actions.get(action)?;
    action.algorithm.as_ref()
}

/// Keeps the values of the variables before an action, if it has an algorithm.
fn keep_before(
    before: &mut Vec<Value>,
    variables: &[Reference],
    frame: &Frame,
    algorithm: Option<&Name>,
) -> Result<(), AllocError>
    ensures { OnOk result (IsSome algorithm.entry → before.new.items ≡ map (values_of frame.now) variables.now) }
{
    match algorithm {
        Some(_) => keep_values(before, variables, frame),
        None => Ok(()),
    }
}

/// The index of an algorithm of a type, or the number of them if it has none with this name.
fn algorithm_number(block: &BasicType, algorithm: &Name) -> usize
    ensures { result ≡ marking.algorithm_number block.now algorithm.now }
{
    let algorithms = block.algorithms.as_slice();
    for (index, it) in algorithms.iter().enumerate() {
        if it.name.is(algorithm) {
            return index;
        }
    }
    algorithms.len()
}

/// Marks the algorithm of an action and notes what it changed, if the action has one and was begun.
fn note_ran(
    taking: &ChartTaking<'_, '_, '_>,
    trail: &mut Trail,
    chart: &Chart,
    algorithm: Option<&Name>,
    left: u64,
) -> Result<(), AllocError>
    requires { IsSome algorithm → length chart.now.before.items ≡ length chart.now.own.items }
    ensures noted { (values : Values) → (IsSome algorithm.entry → chart.now.before.items ≡ map values chart.now.own.items)
        → let name = option_map (λ n. n.now) algorithm.entry in
        OnOk result (HasNoted (ran_by_action name left values (values_of chart.now.state.frame) chart.now.own.items)
        (marking.with_ran_by taking.now.block.now taking.now.number name left trail.old.marks.charts) trail.old trail.new) }
    ensures reading { trail.new.reading ≡ trail.old.reading }
{
    match algorithm {
        Some(algorithm) if left > 0 => {
            let number = algorithm_number(taking.block, algorithm);
            trail.marks.charts.mark_ran(taking.number, number);
            if !trail.is_shown {
                return Ok(());
            }
            let variables = chart.own.as_slice();
            let before = chart.before.as_slice();
            put_ran(
                taking.fixed.alloc,
                &mut trail.page.text,
                algorithm,
                variables,
                before,
                &chart.state.frame,
            )
        }
        _ => Ok(()),
    }
}

/// Performs an action. Answers the reason that ends the reaction, if one does.
fn acted(
    block: &BasicType,
    state: &mut BasicState,
    meter: &mut Meter,
    action: usize,
    emits: &mut Emits,
) -> Result<Option<Reason>, WalkError>
    requires sound { IsSound block.now }
    requires block { IsBlockOf block.now state.old }
    requires within { action < length (actions_of block.now (state_at block.now state.old.state)) }
    ensures acted { (a : Action) → slice_get (actions_of block.now (state_at block.now state.old.state)) action ≡ Some a →
        IfOk result (λ stop. Acts block.now (a ∷ []) meter.old.left (index block.now state.old.state state.old.frame meter.old.left emits.old) stop (index block.now state.new.state state.new.frame meter.new.left emits.new)) }
    ensures block { IsBlockOf block.now state.new }
    ensures state { state.new.state ≡ state.old.state }
    ensures fewer { meter.new.left ≤ meter.old.left }
    ensures fit { emits.old ≡ [] → All (IsWellFormed block.now) emits.new }
    ensures fault { IfErr result IsNoRefusal }
{
    match act(state, block, action, meter, emits) {
        Ok(()) => Ok(None),
        Err(Halt::Stop(reason)) => Ok(Some(reason)),
        Err(Halt::Memory) => Err(WalkError::Memory),
    }
}

/// Performs an action of the state in which the chart is, and takes the line of what it emits. Answers the reason that
/// ends the reaction, if one does.
fn perform<R: BufRead>(
    taking: &ChartTaking<'_, '_, '_>,
    trail: &mut Trail,
    chart: &mut Chart,
    meter: &mut Meter,
    action: usize,
    input: &mut R,
) -> Result<Option<Reason>, WalkError>
    requires taking { IsChartTaking taking.now }
    requires chart { IsChartOf taking.now.block.now chart.old }
    requires within { action < length (actions_of taking.now.block.now (state_at taking.now.block.now chart.old.state.state)) }
    requires next { IsNext taking.now.fixed taking.now.line.now.key.tick trail.old.reading }
    ensures shown { (a : Action) → slice_get (actions_of taking.now.block.now (state_at taking.now.block.now chart.old.state.state)) action ≡ Some a →
        IfOk result (λ stop. let t = taking.now.block.now in
        ChartGoes taking.now (Acting t (a ∷ [])) (place t chart.old meter.old.left) stop (place t chart.new meter.new.left) trail.old trail.new (R.remaining input.old) (R.remaining input.new)) }
    ensures refused { (a : Action) (others : List Action) → slice_get (actions_of taking.now.block.now (state_at taking.now.block.now chart.old.state.state)) action ≡ Some a
        → HasNames taking.now.fixed → IsPlain taking.now.fixed.form taking.now.line.now.key → let t = taking.now.block.now in
        IfErr result (Refuses (λ n. ChartFails taking.now (Acting t (a ∷ others)) (place t chart.old meter.old.left) trail.old.reading trail.new.reading (R.remaining input.old) (R.remaining input.new) n)) }
    ensures chart { OnOk result (IsChartOf taking.now.block.now chart.new) }
    ensures state { chart.new.state.state ≡ chart.old.state.state }
    ensures fewer { meter.new.left ≤ meter.old.left }
    ensures next { OnOk result (IsNext taking.now.fixed taking.now.line.now.key.tick trail.new.reading) }
{
    let algorithm = algorithm_of(taking.block, chart.state.state, action);
    let variables = chart.own.as_slice();
    keep_before(&mut chart.before, variables, &chart.state.frame, algorithm)?;
    let left = meter.left;
    let mut emits = Emits::new(taking.fixed.alloc);
    let end = acted(taking.block, &mut chart.state, meter, action, &mut emits)?;
    note_ran(taking, trail, chart, algorithm, left)?;
    trail
        .emit_all(&taking.fixed, taking.line, &mut emits, input)
        .and(Ok(end))
}

/// Performs all actions of the state in which the chart is.
fn perform_all<R: BufRead>(
    taking: &ChartTaking<'_, '_, '_>,
    trail: &mut Trail,
    chart: &mut Chart,
    meter: &mut Meter,
    input: &mut R,
) -> Result<Option<Reason>, WalkError>
    requires taking { IsChartTaking taking.now }
    requires chart { IsChartOf taking.now.block.now chart.old }
    requires next { IsNext taking.now.fixed taking.now.line.now.key.tick trail.old.reading }
    ensures shown { IfOk result (λ stop. let t = taking.now.block.now in
        ChartGoes taking.now (Acting t (actions_of t (state_at t chart.old.state.state))) (place t chart.old meter.old.left) stop (place t chart.new meter.new.left) trail.old trail.new (R.remaining input.old) (R.remaining input.new)) }
    ensures refused { HasNames taking.now.fixed → IsPlain taking.now.fixed.form taking.now.line.now.key → let t = taking.now.block.now in
        IfErr result (Refuses (λ n. ChartFails taking.now (Acting t (actions_of t (state_at t chart.old.state.state))) (place t chart.old meter.old.left) trail.old.reading trail.new.reading (R.remaining input.old) (R.remaining input.new) n)) }
    ensures chart { OnOk result (IsChartOf taking.now.block.now chart.new) }
    ensures fewer { meter.new.left ≤ meter.old.left }
    ensures next { OnOk result (IsNext taking.now.fixed taking.now.line.now.key.tick trail.new.reading) }
{
    for action in 0..action_count(&chart.state) {
        if let Some(reason) = perform(taking, trail, chart, meter, action, input)? {
            return Ok(Some(reason));
        }
    }
    Ok(None)
}

/// The name of the state at an index.
pub(crate) fn state_name(block: &BasicType, state: usize) -> &[u8]
    ensures { result.now ≡ state_at block.now state }
{
    match block.states.get(state) {
        Some(state) => state.name.as_bytes(),
        None => b"",
    }
}

/// Marks and notes an event that cleared no transition. The end of a chain after other links is neither.
fn note_lost(trail: &mut Trail, state: &[u8], present: Option<usize>) -> Result<(), AllocError>
    ensures noted { OnOk result (HasNoted (lost_if present state.now) (marking.with_lost_if present trail.old.marks.charts) trail.old trail.new) }
    ensures reading { trail.new.reading ≡ trail.old.reading }
{
    if present.is_none() {
        return Ok(());
    }
    trail.marks.charts.mark_lost();
    if !trail.is_shown {
        return Ok(());
    }
    put_lost(&mut trail.page.text, state)
}

/// Marks the transition at an index, which cleared, and the state to which it led, and notes the transition.
fn note_cleared(
    taking: &ChartTaking<'_, '_, '_>,
    trail: &mut Trail,
    index: usize,
    state: usize,
) -> Result<(), AllocError>
    requires { index < length taking.now.block.now.transitions }
    ensures noted { OnOk result (HasNoted (cleared_note (transition_at taking.now.block.now index))
        (with_cleared taking.now.number index state taking.now.line.now.event trail.old.marks.charts) trail.old trail.new) }
    ensures reading { trail.new.reading ≡ trail.old.reading }
{
    trail
        .marks
        .charts
        .mark_cleared(taking.number, index, state, taking.line.event);
    if !trail.is_shown {
        return Ok(());
    }
    let transition = &taking.block.transitions.as_slice()[index];
    put_cleared(taking.fixed.alloc, &mut trail.page.text, transition)
}

/// How a link of a chain ended.
pub(crate) enum Linked {
    /// A transition cleared, and all actions of its target were performed.
    Went,
    /// No transition cleared, so the chain is over.
    Rested,
    /// A reason ended the reaction.
    Stopped(Reason),
}

/// One link of the chain: a transition, and the actions of the state to which it leads.
fn link<R: BufRead>(
    taking: &ChartTaking<'_, '_, '_>,
    trail: &mut Trail,
    chart: &mut Chart,
    meter: &mut Meter,
    present: Option<usize>,
    input: &mut R,
) -> Result<Linked, WalkError>
    requires taking { IsChartTaking taking.now }
    requires chart { IsChartOf taking.now.block.now chart.old }
    requires present { IfSome present (λ event. event < length taking.now.block.now.ports.event_inputs) }
    requires next { IsNext taking.now.fixed taking.now.line.now.key.tick trail.old.reading }
    ensures linked { let event = option_map (event_at taking.now.block.now.ports.event_inputs) present in let t = taking.now.block.now in
        IfOk result (HasLinked taking.now event (place t chart.old meter.old.left) (place t chart.new meter.new.left) trail.old trail.new (R.remaining input.old) (R.remaining input.new)) }
    ensures refused { HasNames taking.now.fixed → IsPlain taking.now.fixed.form taking.now.line.now.key → let t = taking.now.block.now in
        IfErr result (Refuses (λ n. ChartFails taking.now (ShowsChain t (option_map (event_at t.ports.event_inputs) present)) (place t chart.old meter.old.left) trail.old.reading trail.new.reading (R.remaining input.old) (R.remaining input.new) n)) }
    ensures chart { OnOk result (IsChartOf taking.now.block.now chart.new) }
    ensures less { IfOk result (λ how. how ≡ Went → meter.new.left < meter.old.left) }
    ensures fewer { meter.new.left ≤ meter.old.left }
    ensures next { OnOk result (IsNext taking.now.fixed taking.now.line.now.key.tick trail.new.reading) }
{
    match clear(&mut chart.state, taking.block, present, meter) {
        Err(reason) => Ok(Linked::Stopped(reason)),
        Ok(None) => {
            let state = state_name(taking.block, chart.state.state);
            note_lost(trail, state, present)?;
            Ok(Linked::Rested)
        }
        Ok(Some(index)) => {
            note_cleared(taking, trail, index, chart.state.state)?;
            match perform_all(taking, trail, chart, meter, input)? {
                Some(reason) => Ok(Linked::Stopped(reason)),
                None => Ok(Linked::Went),
            }
        }
    }
}

/// Goes through the chain of transitions that an event begins. Answers the reason that ends the reaction, if one does.
pub(crate) fn follow<R: BufRead>(
    taking: &ChartTaking<'_, '_, '_>,
    trail: &mut Trail,
    chart: &mut Chart,
    meter: &mut Meter,
    input: &mut R,
) -> Result<Option<Reason>, WalkError>
    requires taking { IsChartTaking taking.now }
    requires chart { IsChartOf taking.now.block.now chart.old }
    requires next { IsNext taking.now.fixed taking.now.line.now.key.tick trail.old.reading }
    ensures shown { let t = taking.now.block.now in
        IfOk result (λ stop. ChartGoes taking.now (ShowsChain t (Some (event_at t.ports.event_inputs taking.now.line.now.event))) (place t chart.old meter.old.left) stop (place t chart.new meter.new.left) trail.old trail.new (R.remaining input.old) (R.remaining input.new)) }
    ensures refused { HasNames taking.now.fixed → IsPlain taking.now.fixed.form taking.now.line.now.key → let t = taking.now.block.now in
        IfErr result (Refuses (λ n. ChartFails taking.now (ShowsChain t (Some (event_at t.ports.event_inputs taking.now.line.now.event))) (place t chart.old meter.old.left) trail.old.reading trail.new.reading (R.remaining input.old) (R.remaining input.new) n)) }
    ensures chart { OnOk result (IsChartOf taking.now.block.now chart.new) }
    ensures next { OnOk result (IsNext taking.now.fixed taking.now.line.now.key.tick trail.new.reading) }
{
    let mut present = Some(taking.line.event as usize);
    loop {
        match link(taking, trail, chart, meter, present, input)? {
            Linked::Went => {}
            Linked::Rested => return Ok(None),
            Linked::Stopped(reason) => return Ok(Some(reason)),
        }
        present = None;
    }
}

/// Notes the reason that ended a reaction, if one did.
pub(crate) fn note_stop(trail: &mut Trail, end: Option<Reason>) -> Result<(), AllocError>
    ensures noted { OnOk result (HasNoted (stop_note end) trail.old.marks.charts trail.old trail.new) }
    ensures reading { trail.new.reading ≡ trail.old.reading }
{
    match end {
        Some(reason) if trail.is_shown => put_stopped(&mut trail.page.text, reason),
        _ => Ok(()),
    }
}
