//! A chain of transitions, step by step, for callers that look at each one. `react` goes through the same steps.

ghost use Rattle.std.specs.Prelude.{◌≡◌, ◌<◌, ◌≤◌, ◌∷◌, [], IfNone, IfOk, IfSome, OnErr, OnSome, Some, length, slice_get};
ghost use Rattle.fb_types.specs.Charts.{Acts, actions_of, leaving, trial_of};
ghost use Rattle.fb_types.specs.declared.library.Action.{Action};
ghost use Rattle.fb_types.specs.declared.library.BasicType.{BasicType as Basic};
ghost use Rattle.fb_st.specs.Frames.{values_of};
ghost use Rattle.fb_ecc.specs.Blocks.{BeginsWith, IsInput, StillFit, input_named};
ghost use Rattle.fb_ecc.specs.Indexes.{Ended, IsBlockOf, index as index_of, sampled, state_at};
ghost use Rattle.fb_ecc.specs.Sound.{Each, IsSound};
ghost use Rattle.fb_ecc.specs.Steps.{IsFirst, acts_at, clearing_index, trial_by};
ghost use Rattle.fb_ecc.specs.Trials.{transition_at};

use crate::action::perform_all;
use crate::chart::{Act, ChartState};
use crate::reaction::sample;
use crate::state::BasicState;
use crate::trial::first_exit;
use fb_st::Meter;
use fb_types::{BasicType, Emits, Halt, Reason, Value};
use std::slice::from_ref;

/// A reaction begins: gives the variables WITH an event the values that were sampled.
pub fn begin(state: &mut BasicState, block: &BasicType, event: u32, values: &[Value])
    requires sound { IsSound block.now }
    requires block { IsBlockOf block.now state.old }
    requires event { event < length block.now.ports.event_inputs }
    ensures sampled { values_of state.new.frame ≡ sampled block.now event values.now (values_of state.old.frame) }
    ensures block { IsBlockOf block.now state.new }
    ensures state { state.new.state ≡ state.old.state }
{
    let sampled = state.chart.parts().chart.sampled.as_slice();
    let slots = sampled[event as usize].as_slice();
    sample(slots, values, &mut state.frame);
}

/// Enters the target of the first transition whose condition is true, and answers the index of the transition among
/// those of the type. The event is present in the first trial of a reaction only. Each transition that is tried costs
/// a step.
///
/// # Errors
/// The reason that ends the reaction. The chart stays in its state.
pub fn clear(
    state: &mut BasicState,
    block: &BasicType,
    present: Option<usize>,
    meter: &mut Meter,
) -> Result<Option<usize>, Reason>
    requires sound { IsSound block.now }
    requires block { IsBlockOf block.now state.old }
    requires present { IsInput block.now present }
    ensures trial { let event = input_named block.now present in
        trial_of (leaving block.now (state_at block.now state.old.state)) event (values_of state.old.frame) meter.old.left
        ≡ trial_by block.now result meter.new.left }
    ensures first { let event = input_named block.now present in
        IfOk result (λ o. IfSome o (IsFirst block.now (state_at block.now state.old.state) event (values_of state.old.frame))) }
    ensures index { let event = input_named block.now present in
        IfOk result (λ o. IfSome o (λ k. clearing_index (state_at block.now state.old.state) 0 block.now.transitions event (values_of state.old.frame) ≡ Some k)) }
    ensures within { IfOk result (λ o. IfSome o (λ k. k < length block.now.transitions)) }
    ensures entered { IfOk result (λ o. IfSome o (λ k. state_at block.now state.new.state ≡ (transition_at block.now k).to)) }
    ensures stays { IfOk result (λ o. IfNone o (state.new.state ≡ state.old.state)) }
    ensures stopped { OnErr result (state.new.state ≡ state.old.state) }
    ensures frame { state.new.frame ≡ state.old.frame }
    ensures block { IsBlockOf block.now state.new }
    ensures fewer { meter.new.left ≤ meter.old.left }
    ensures less { IfOk result (λ o. OnSome o (meter.new.left < meter.old.left)) }
{
    let exits = state.chart.leaving(state.state);
    let program = &state.chart.parts().program;
    match first_exit(block, program, exits, present, &state.frame, meter)? {
        Some(exit) => {
            state.state = exit.target;
            Ok(Some(exit.transition))
        }
        None => Ok(None),
    }
}

/// The actions of the state at an index, or none where there is no state.
fn acts_of(rows: &[ChartState], state: usize) -> &[Act]
    ensures { result.now ≡ acts_at rows.now state }
{
    match rows.get(state) {
        Some(row) => row.acts.as_slice(),
        None => &[],
    }
}

/// The number of actions of the state in which the chart is.
pub fn action_count(state: &BasicState) -> usize
    ensures { (t : Basic) → IsSound t → IsBlockOf t state.now → result ≡ length (actions_of t (state_at t state.now.state)) }
{
    acts_of(state.chart.parts().chart.rows.as_slice(), state.state).len()
}

/// Performs the action at an index among those of the state in which the chart is: its algorithm, and then its output
/// event. It costs a step in addition to those of the statements.
///
/// # Errors
/// `Halt::Stop` with the reason that ends the reaction, and `Halt::Memory`.
pub fn act(
    state: &mut BasicState,
    block: &BasicType,
    index: usize,
    meter: &mut Meter,
    emits: &mut Emits,
) -> Result<(), Halt>
    requires sound { IsSound block.now }
    requires block { IsBlockOf block.now state.old }
    requires within { index < length (actions_of block.now (state_at block.now state.old.state)) }
    ensures performed { (a : Action) → slice_get (actions_of block.now (state_at block.now state.old.state)) index ≡ Some a →
        Ended result (Acts block.now (a ∷ []) meter.old.left) (index_of block.now state.old.state state.old.frame meter.old.left emits.old) (index_of block.now state.new.state state.new.frame meter.new.left emits.new) }
    ensures state { state.new.state ≡ state.old.state }
    ensures block { IsBlockOf block.now state.new }
    ensures fewer { meter.new.left ≤ meter.old.left }
    ensures kept { BeginsWith emits.old emits.new }
    ensures well_formed { StillFit block.now emits.old emits.new }
{
    let acts = acts_of(state.chart.parts().chart.rows.as_slice(), state.state);
    let act = from_ref(&acts[index]);
    perform_all(block, &state.chart, act, &mut state.frame, meter, emits)
}
