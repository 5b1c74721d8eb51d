//! Which transition clears.

ghost use Rattle.std.specs.Prelude.{◌≡◌, ◌≤◌, ◌<◌, IfOk, OnSome, IfSome, if◌then◌else◌, Ok, Some, false};
ghost use Rattle.fb_types.specs.Charts.{guard_value, trial_of};
ghost use Rattle.fb_st.specs.Frames.{values_of};
ghost use Rattle.fb_ecc.specs.Blocks.{IsFrameOf, IsInput, MayRun, input_named};
ghost use Rattle.fb_ecc.specs.Programs.{IsProgramOf};
ghost use Rattle.fb_ecc.specs.Sound.{Each};
ghost use Rattle.fb_ecc.specs.Steps.{clearing_exit, first_true, trial_at_exit};
ghost use Rattle.fb_ecc.specs.Trials.{IsExit, transition_at, transitions_at, is_number_present};

use crate::chart::Exit;
use crate::program::Program;
use fb_st::{Frame, Meter, holds_compiled};
use fb_types::{BasicType, Reason};

/// Whether the event at this index is the one that is present. No event at all always is.
#[inline(always)]
fn is_present(event: Option<usize>, present: Option<usize>) -> bool
    ensures { result ≡ is_number_present event present }
{
    match (event, present) {
        (None, _) => true,
        (Some(_), None) => false,
        (Some(event), Some(present)) => event == present,
    }
}

/// Whether the condition of a transition is true. A guard after an event is evaluated only when that event is present, and
/// where there is no guard, none is looked up.
#[inline(always)]
fn is_true(
    block: &BasicType,
    program: &Program,
    exit: &Exit,
    present: Option<usize>,
    frame: &Frame,
) -> Result<bool, Reason>
    requires exit { IsExit block.now exit.now }
    requires program { IsProgramOf block.now program.now }
    requires declared { IsFrameOf block.now frame.now }
    ensures { result ≡ (if is_number_present exit.now.event present then guard_value (transition_at block.now exit.now.transition).condition.guard (values_of frame.now) else Ok false) }
{
    if !is_present(exit.event, present) {
        return Ok(false);
    }
    if !exit.is_guarded {
        return Ok(true);
    }
    let transition = &block.transitions.as_slice()[exit.transition];
    match &transition.condition.guard {
        Some(guard) => {
            let compiled = program.guard(exit.transition);
            holds_compiled(guard, compiled, &program.layout, frame)
        }
        None => Ok(true),
    }
}

/// The first exit whose condition is true, in the order of the text. Each one that is tried costs a step.
#[inline(always)]
pub(crate) fn first_exit(
    block: &BasicType,
    program: &Program,
    exits: &[Exit],
    present: Option<usize>,
    frame: &Frame,
    meter: &mut Meter,
) -> Result<Option<Exit>, Reason>
    requires may { MayRun block.now program.now frame.now }
    requires exits { Each (IsExit block.now) exits.now }
    requires present { IsInput block.now present }
    ensures trial { let event = input_named block.now present in
        trial_of (transitions_at block.now exits.now) event (values_of frame.now) meter.old.left
        ≡ trial_at_exit block.now result meter.new.left }
    ensures first { let event = input_named block.now present in
        IfOk result (λ o. IfSome o (λ e. first_true (transitions_at block.now exits.now) event (values_of frame.now) ≡ Some (transition_at block.now e.transition))) }
    ensures clearing { let event = input_named block.now present in
        IfOk result (λ o. IfSome o (λ e. clearing_exit block.now exits.now event (values_of frame.now) ≡ Some e)) }
    ensures exit { IfOk result (λ o. IfSome o (IsExit block.now)) }
    ensures fewer { meter.new.left ≤ meter.old.left }
    ensures less { IfOk result (λ o. OnSome o (meter.new.left < meter.old.left)) }
{
    for exit in exits {
        meter.step()?;
        if is_true(block, program, exit, present, frame)? {
            return Ok(Some(*exit));
        }
    }
    Ok(None)
}
