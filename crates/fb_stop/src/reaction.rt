//! The reaction of a basic block, gone through link by link and action by action, up to the reason that stops it.

ghost use Rattle.std.specs.Prelude.{◌≡◌, ◌<◌, ◌≤◌, IfOk, IfSome, length, option_map};
ghost use Rattle.fb_types.specs.Numbers.{event_at};
ghost use Rattle.fb_st.specs.Frames.{values_of};
ghost use Rattle.fb_ecc.specs.Indexes.{IsBlockOf, index, sampled};
ghost use Rattle.fb_ecc.specs.Sound.{IsSound};
ghost use Rattle.fb_stop.specs.Links.{GoesOn, HasPerformed, HasReacted, failing_index};

use crate::before::{copy_of, inside_action, inside_guard};
use crate::site::{ReactionStop, Site};
use fb_ecc::{BasicState, act, action_count, begin, clear};
use fb_st::Meter;
use fb_types::{BasicType, Emits, Halt, Reason, Value};
use std::alloc::AllocError;

/// What a link of the chain of states came to.
#[derive(Clone, Copy)]
enum LinkEnd {
    /// It entered a state and performed its actions.
    Went,
    /// No transition cleared.
    Rested,
    /// A reason stopped it.
    Stopped(ReactionStop),
}

/// Performs the actions of the state that was entered.
fn perform(
    state: &mut BasicState,
    block: &BasicType,
    meter: &mut Meter,
    emits: &mut Emits,
) -> Result<LinkEnd, AllocError>
    requires sound { IsSound block.now }
    requires block { IsBlockOf block.now state.old }
    ensures performed { IfOk result (λ link. HasPerformed block.now state.old.state link (index block.now state.old.state state.old.frame meter.old.left emits.old) (index block.now state.new.state state.new.frame meter.new.left emits.new)) }
    ensures block { IsBlockOf block.now state.new }
    ensures fewer { meter.new.left ≤ meter.old.left }
{
    for action in 0..action_count(state) {
        let mut before = copy_of(emits.allocator(), block, &state.frame)?;
        let left = meter.left;
        match act(state, block, action, meter, emits) {
            Ok(()) => {}
            Err(Halt::Stop(reason)) => {
                let at = state.state;
                let inside = inside_action(block, at, action, &mut before, left, reason);
                let site = Site::Action {
                    state: at,
                    action,
                    inside,
                };
                return Ok(LinkEnd::Stopped(ReactionStop { reason, site }));
            }
            Err(Halt::Memory) => return Err(AllocError),
        }
    }
    Ok(LinkEnd::Went)
}

/// The index of the transition whose trial fails, from the steps that are left before the trials and after them: each
/// transition that is tried costs a step.
fn failing(before: u64, after: u64, reason: Reason) -> u64
    ensures { result ≡ failing_index before after reason }
{
    match reason {
        Reason::Steps => before,
        Reason::Divide | Reason::Range => before.saturating_sub(after).saturating_sub(1),
    }
}

/// One link of the chain. The event is present in the first one of a reaction only.
fn link(
    state: &mut BasicState,
    block: &BasicType,
    present: Option<usize>,
    meter: &mut Meter,
    emits: &mut Emits,
) -> Result<LinkEnd, AllocError>
    requires sound { IsSound block.now }
    requires block { IsBlockOf block.now state.old }
    requires present { IfSome present (λ event. event < length block.now.ports.event_inputs) }
    ensures link { let event = option_map (event_at block.now.ports.event_inputs) present in
        IfOk result (λ link. GoesOn block.now event link (index block.now state.old.state state.old.frame meter.old.left emits.old) (index block.now state.new.state state.new.frame meter.new.left emits.new)) }
    ensures block { IsBlockOf block.now state.new }
    ensures fewer { meter.new.left ≤ meter.old.left }
    ensures less { IfOk result (λ link. link ≡ LinkEnd.Went → meter.new.left < meter.old.left) }
{
    let before = meter.left;
    let from = state.state;
    match clear(state, block, present, meter) {
        Ok(Some(_)) => perform(state, block, meter, emits),
        Ok(None) => Ok(LinkEnd::Rested),
        Err(reason) => {
            let transition = failing(before, meter.left, reason) as usize;
            let operation = inside_guard(block, from, transition, &state.frame, reason);
            let site = Site::Transition {
                state: from,
                transition,
                operation,
            };
            Ok(LinkEnd::Stopped(ReactionStop { reason, site }))
        }
    }
}

/// Where the reaction of a basic block to the event input at an index stops, or `None` if it rests. `values` are
/// the sampled values of the variables WITH the event, in the order of the declaration, and `meter` has the steps that
/// are left. The block and the emissions are afterwards what the reaction makes of them.
///
/// # Errors
/// When memory runs out.
pub(crate) fn locate(
    state: &mut BasicState,
    block: &BasicType,
    event: u32,
    values: &[Value],
    meter: &mut Meter,
    emits: &mut Emits,
) -> Result<Option<ReactionStop>, AllocError>
    requires sound { IsSound block.now }
    requires block { IsBlockOf block.now state.old }
    requires event { event < length block.now.ports.event_inputs }
    ensures reacted { let start = index block.now state.old.state state.old.frame meter.old.left emits.old in
        let begun = record start { vars = sampled block.now event values.now (values_of state.old.frame) } in
        IfOk result (λ stop. HasReacted block.now (event_at block.now.ports.event_inputs event) stop begun (index block.now state.new.state state.new.frame meter.new.left emits.new)) }
    ensures block { IsBlockOf block.now state.new }
{
    begin(state, block, event, values);
    let mut present = Some(event as usize);
    loop {
        match link(state, block, present, meter, emits)? {
            LinkEnd::Went => present = None,
            LinkEnd::Rested => return Ok(None),
            LinkEnd::Stopped(stop) => return Ok(Some(stop)),
        }
    }
}
