//! The reactions of event blocks, to an event and to their timer.

ghost use Rattle.std.specs.Prelude.{◌≡◌, ◌++◌, ◌≤◌, ◌^◌, [], All, IfErr, IfSome, IsOk, OnOk, map};
ghost use Rattle.fb_event.specs.Block.{state_of, IsInRange};
ghost use Rattle.fb_event.specs.Emissions.{emission_at};
ghost use Rattle.fb_event.specs.Reactions.{BeginsWith, EmitsAfter, FitInputs, reaction_to, expiry_of, emissions_of, first_value, meanings, IsEventOutput, IsWellFormed, PassesTo};

use crate::emission::emit_all;
use crate::state::EventState;
use crate::step::{expiry, reaction};
use fb_types::{Emits, EventKind, Halt, TimerAsk, Value};

/// The reaction of an event block to the event input at an index of its event inputs, in a tick that is at most
/// 10^12. `inputs` are the values of all its data inputs, in the order of the declaration, as they are
/// after the sampling. The reaction is the defined one, for E_DELAY and E_CYCLE where DT fits its type: a longer time
/// counts as the longest. What it emits is put after the other emissions, which stay as they are, by the allocator that
/// they keep.
///
/// # Errors
/// `Halt::Memory` where memory ran out, and never a stop. Nothing is said of what the block remembers then.
/// A reaction that emits nothing takes no memory.
#[inline(always)]
pub fn react(
    state: &mut EventState,
    event: u32,
    tick: u64,
    inputs: &[Value],
    emits: &mut Emits,
    ask: &mut TimerAsk,
) -> Result<(), Halt>
    requires early { tick ≤ 10 ^ 12 }

    // Where DT of E_DELAY or E_CYCLE fits its type. Nothing is asked of the inputs of other kinds.
    ensures memory { let reaction = reaction_to state.old event tick inputs.now in
        FitInputs state.old.kind inputs.now → OnOk result (state.new.memory ≡ reaction.memory) }
    ensures timer { let reaction = reaction_to state.old event tick inputs.now in
        FitInputs state.old.kind inputs.now → OnOk result (ask.new ≡ reaction.timer) }
    ensures emitted { let reaction = reaction_to state.old event tick inputs.now in
        FitInputs state.old.kind inputs.now → OnOk result (meanings state.old.kind emits.new
        ≡ meanings state.old.kind emits.old ++ emissions_of state.old.kind reaction) }
    ensures appended { let reaction = reaction_to state.old event tick inputs.now in
        FitInputs state.old.kind inputs.now → OnOk result (EmitsAfter state.old.kind reaction emits.old emits.new) }

    // Of any inputs, also where memory runs out.
    ensures kind { state.new.kind ≡ state.old.kind }
    ensures well_formed { let IsFit = IsWellFormed state.old.kind in All IsFit emits.old → All IsFit emits.new }
    ensures kept { BeginsWith emits.old emits.new }
    ensures only_memory { IfErr result (λ halt. halt ≡ Halt.Memory) }
    ensures silent { (reaction_to state.old event tick inputs.now).emits ≡ [] → IsOk result }
{
    let step = reaction(state.kind, &mut state.memory, event, tick, first(inputs));
    emit_all(state.kind, &state.memory, step.emits, emits)?;
    *ask = step.ask;
    Ok(())
}

/// The event output that a block of a kind emits for each event, where this is all that it ever does: it has no data,
/// and it remembers and asks nothing. `None` says nothing of the kind.
#[inline(always)]
pub fn passes_to(kind: EventKind) -> Option<u32>
    ensures { IfSome result (PassesTo kind) }
{
    match kind {
        EventKind::Merge => Some(0),
        _ => None,
    }
}

/// The reaction of an event block to its timer, which goes off in a tick that is at most 10^12. It reads no
/// input. What it emits is put after the other emissions, which stay as they are, by the allocator that they keep.
///
/// # Errors
/// `Halt::Memory` where memory ran out, and never a stop. Nothing is said of what the block remembers then.
/// A reaction that emits nothing takes no memory.
#[inline(always)]
pub fn expire(
    state: &mut EventState,
    tick: u64,
    emits: &mut Emits,
    ask: &mut TimerAsk,
) -> Result<(), Halt>
    requires early { tick ≤ 10 ^ 12 }
    ensures memory { OnOk result (state.new.memory ≡ (expiry_of state.old tick).memory) }
    ensures timer { OnOk result (ask.new ≡ (expiry_of state.old tick).timer) }
    ensures emitted { let reaction = expiry_of state.old tick in
        OnOk result (meanings state.old.kind emits.new
        ≡ meanings state.old.kind emits.old ++ emissions_of state.old.kind reaction) }
    ensures appended { let reaction = expiry_of state.old tick in
        OnOk result (EmitsAfter state.old.kind reaction emits.old emits.new) }

    // Also where memory runs out.
    ensures kind { state.new.kind ≡ state.old.kind }
    ensures well_formed { let IsFit = IsWellFormed state.old.kind in All IsFit emits.old → All IsFit emits.new }
    ensures kept { BeginsWith emits.old emits.new }
    ensures only_memory { IfErr result (λ halt. halt ≡ Halt.Memory) }
    ensures silent { (expiry_of state.old tick).emits ≡ [] → IsOk result }
{
    let step = expiry(state.kind, &mut state.memory, tick);
    emit_all(state.kind, &state.memory, step.emits, emits)?;
    *ask = step.ask;
    Ok(())
}

/// The value of the data input, if there is one.
fn first(inputs: &[Value]) -> Value
    ensures { result ≡ first_value inputs.now }
{
    match inputs {
        [] => Value::Whole(0),
        [value, ..] => *value,
    }
}
