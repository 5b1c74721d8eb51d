//! What the variables of a basic block hold before an action, and the statement at which a reason comes from there.

ghost use Rattle.std.specs.Prelude.{◌≡◌, ◌≢◌, ◌++◌, IfNone, IfOk, IfSome, OnOk, Some, map, slice_get};
ghost use Rattle.std.specs.List.{find};
ghost use Rattle.std.specs.Option.{option_copied};
ghost use Rattle.fb_types.specs.Charts.{actions_of, leaving};
ghost use Rattle.fb_types.specs.Names.{same_name};
ghost use Rattle.fb_types.specs.Syntax.{body_of};
ghost use Rattle.fb_types.specs.declared.library.Action.{Action};
ghost use Rattle.fb_st.specs.Frames.{declared_in, types_in, values_of};
ghost use Rattle.fb_st.specs.Known.{AllKnown};
ghost use Rattle.fb_ecc.specs.Indexes.{IsStateOf, state_at};
ghost use Rattle.fb_ecc.specs.Sound.{IsSound, declared_by};
ghost use Rattle.fb_stop.specs.Sites.{AreOtherwise, FailsInGuard, IsActionOtherwise, IsGuardOtherwise, StopsInBody, StopsInStatements, slot_in};

use crate::place::transition_index;
use crate::site::Inside;
use crate::{Fault, Operation, operation_in, operation_of, run_body};
use fb_st::{Frame, Meter, Slot, SlotList};
use fb_types::{Algorithm, BasicType, Body, Name, Reason, Reference, Variable};
use std::alloc::{AllocError, Global};

/// A variable with the value that it has in a frame.
fn slot_of(alloc: Global, variable: &Variable, frame: &Frame) -> Result<Slot, AllocError>
    ensures { IfOk result (λ slot. slot ≡ slot_in frame.now variable.now) }
{
    let reference = Reference::new(variable.name.try_clone(alloc)?);
    let value = frame.value(&reference);
    let name = variable.name.try_clone(alloc)?;
    Ok(Slot::new(name, variable.ty, value))
}

/// Adds variables after the others, each with the value that it has in a frame.
fn add_all(
    alloc: Global,
    variables: &[Variable],
    frame: &Frame,
    slots: &mut SlotList,
) -> Result<(), AllocError>
    ensures { OnOk result (slots.new ≡ slots.old ++ map (slot_in frame.now) variables.now) }
{
    for variable in variables {
        slots.push(slot_of(alloc, variable, frame)?)?;
    }
    Ok(())
}

/// A frame with the same variables and values.
pub(crate) fn copy_of(alloc: Global, block: &BasicType, frame: &Frame) -> Result<Frame, AllocError>
    requires sound { IsSound block.now }
    requires declared { declared_in frame.now ≡ declared_by block.now }
    ensures values { IfOk result (λ f. values_of f ≡ values_of frame.now) }
    ensures declared { IfOk result (λ f. declared_in f ≡ declared_by block.now) }
{
    let mut slots = SlotList::new(alloc);
    add_all(alloc, block.ports.inputs.as_slice(), frame, &mut slots)?;
    add_all(alloc, block.ports.outputs.as_slice(), frame, &mut slots)?;
    add_all(alloc, block.internals.as_slice(), frame, &mut slots)?;
    Ok(Frame::of(slots))
}

/// The algorithm that has the name.
fn algorithm_named<'a>(algorithms: &'a [Algorithm], name: &Name) -> Option<&'a Algorithm>
    ensures { option_copied result ≡ find (λ a. same_name a.name name.now) algorithms.now }
{
    for algorithm in algorithms {
        if algorithm.name.is(name) {
            return Some(algorithm);
        }
    }
    None
}

/// A fault, if it has this reason.
fn fault_of(fault: Fault, reason: Reason) -> Option<Fault>
    ensures found { IfSome result (λ f. fault ≡ record { reason = reason; number = f.number; value = f.value }) }
    ensures none { IfNone result (fault.reason ≢ reason) }
{
    if fault.reason == reason {
        Some(fault)
    } else {
        None
    }
}

/// The statement of a body at which a reason comes, and the operation, from these variables and with that many steps
/// left before the action. `None` if no step is left for the action, or the body does not stop for this reason.
fn inside_body(body: &Body, frame: &mut Frame, left: u64, reason: Reason) -> Option<Inside>
    requires { AllKnown (declared_in frame.old) (body_of body.now) }
    ensures found { IfSome result (StopsInStatements (types_in (declared_in frame.old)) body.now (values_of frame.old) left reason) }
    ensures none { IfNone result (AreOtherwise (types_in (declared_in frame.old)) body.now (values_of frame.old) left reason) }
{
    if left == 0 {
        return None;
    }
    let mut meter = Meter { left: left - 1 };
    match run_body(body, frame, &mut meter)? {
        Ok(_) => None,
        Err(fault) => {
            let fault = fault_of(fault, reason)?;
            let operation = operation_of(body, fault.number, frame, reason);
            Some(Inside {
                statement: fault.number,
                operation,
                value: fault.value,
            })
        }
    }
}

/// The statement at which a reason comes that stops the action at an index of a state, from these variables and with
/// that many steps left before it. `None` if no step is left for the action, or it does not stop for this reason.
pub(crate) fn inside_action(
    block: &BasicType,
    state: usize,
    action: usize,
    frame: &mut Frame,
    left: u64,
    reason: Reason,
) -> Option<Inside>
    requires sound { IsSound block.now }
    requires declared { declared_in frame.old ≡ declared_by block.now }
    requires state { IsStateOf block.now state }
    ensures found { (a : Action) → slice_get (actions_of block.now (state_at block.now state)) action ≡ Some a →
        IfSome result (StopsInBody block.now a (values_of frame.old) left reason) }
    ensures none { (a : Action) → slice_get (actions_of block.now (state_at block.now state)) action ≡ Some a →
        IfNone result (IsActionOtherwise block.now a (values_of frame.old) left reason) }
{
    let found = block.states.get(state)?.actions.get(action)?;
    match &found.algorithm {
        Some(name) => {
            let algorithm = algorithm_named(block.algorithms.as_slice(), name)?;
            inside_body(&algorithm.body, frame, left, reason)
        }
        None => None,
    }
}

/// The operation at which the guard of a transition has no value for a reason. The transition is the one at an index
/// among those that leave a state. `None` if the guard has a value, or none for another reason.
pub(crate) fn inside_guard(
    block: &BasicType,
    state: usize,
    nth: usize,
    frame: &Frame,
    reason: Reason,
) -> Option<Operation>
    requires sound { IsSound block.now }
    requires state { IsStateOf block.now state }
    ensures found { IfSome result (FailsInGuard (leaving block.now (state_at block.now state)) nth (values_of frame.now) reason) }
    ensures none { IfNone result (IsGuardOtherwise (leaving block.now (state_at block.now state)) nth (values_of frame.now) reason) }
{
    let from = &block.states.get(state)?.name;
    let index = transition_index(block, from, nth)?;
    match &block.transitions.get(index)?.condition.guard {
        Some(guard) => operation_in(guard, frame, 0, reason),
        None => None,
    }
}
