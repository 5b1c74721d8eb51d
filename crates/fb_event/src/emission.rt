//! Emissions, and the values of the data outputs that go with them.

ghost use Rattle.std.specs.Prelude.{◌≡◌, false, [], ◌∷◌, ◌++◌, All, IfOk, IsOk, IsTrue, OnErr, OnOk, map};
ghost use Rattle.fb_event.specs.Block.{state_of, values_of, values_in, IsInRange};
ghost use Rattle.fb_event.specs.Emissions.{emission_at};
ghost use Rattle.fb_event.specs.Reactions.{BeginsWith, IsEventOutput, IsWellFormed};

use crate::memory::EventMemory;
use fb_types::{Emission, Emits, EventKind, Value, Values, event_block_output};
use std::alloc::{AllocError, Global};

/// Emits the events at these indexes in order, each with the values of all data outputs: of the fourteen
/// blocks, those that have data outputs emit no event without them. The memory is that after the reaction; it is lent,
/// since mostly only its variant is read.
#[inline(always)]
pub(crate) fn emit_all(
    kind: EventKind,
    memory: &EventMemory,
    events: &[u32],
    emits: &mut Emits,
) -> Result<(), AllocError>
    requires in_range { IsInRange kind memory.now }
    requires events { All (IsEventOutput kind) events.now }
    ensures ok { OnOk result (emits.new ≡ emits.old ++ map (emission_at (state_of kind memory.now)) events.now) }
    ensures well_formed { let IsFit = IsWellFormed kind in All IsFit emits.old → All IsFit emits.new }
    ensures kept { BeginsWith emits.old emits.new }
    ensures silent { events.now ≡ [] → IsOk result }
{
    // Most event blocks have no data outputs.
    if is_bare(kind, memory) {
        return emit_all_bare(kind, memory, events, emits);
    }
    for event in events {
        emit(kind, memory, *event, emits)?;
    }
    Ok(())
}

/// The same as `emit_all`, of a block without data outputs.
#[inline(always)]
fn emit_all_bare(
    kind: EventKind,
    memory: &EventMemory,
    events: &[u32],
    emits: &mut Emits,
) -> Result<(), AllocError>
    requires events { All (IsEventOutput kind) events.now }
    requires bare { values_of (state_of kind memory.now) ≡ [] }
    ensures ok { OnOk result (emits.new ≡ emits.old ++ map (emission_at (state_of kind memory.now)) events.now) }
    ensures well_formed { let IsFit = IsWellFormed kind in All IsFit emits.old → All IsFit emits.new }
    ensures kept { BeginsWith emits.old emits.new }
    ensures silent { events.now ≡ [] → IsOk result }
{
    // Mostly it is one event.
    if let [event] = events {
        return emit_bare(kind, memory, *event, emits);
    }
    emit_each_bare(kind, memory, events, emits)
}

/// The same as `emit_all_bare`, for any number of events.
#[inline(never)]
fn emit_each_bare(
    kind: EventKind,
    memory: &EventMemory,
    events: &[u32],
    emits: &mut Emits,
) -> Result<(), AllocError>
    requires events { All (IsEventOutput kind) events.now }
    requires bare { values_of (state_of kind memory.now) ≡ [] }
    ensures ok { OnOk result (emits.new ≡ emits.old ++ map (emission_at (state_of kind memory.now)) events.now) }
    ensures well_formed { let IsFit = IsWellFormed kind in All IsFit emits.old → All IsFit emits.new }
    ensures kept { BeginsWith emits.old emits.new }
    ensures silent { events.now ≡ [] → IsOk result }
{
    for event in events {
        emit_bare(kind, memory, *event, emits)?;
    }
    Ok(())
}

#[inline(always)]
fn emit_bare(
    kind: EventKind,
    memory: &EventMemory,
    event: u32,
    emits: &mut Emits,
) -> Result<(), AllocError>
    requires { values_of (state_of kind memory.now) ≡ [] }
    ensures ok { OnOk result (emits.new ≡ emits.old ++ emission_at (state_of kind memory.now) event ∷ []) }
    ensures err { OnErr result (emits.new ≡ emits.old) }
{
    emits.push_bare(event)
}

fn emit(
    kind: EventKind,
    memory: &EventMemory,
    event: u32,
    emits: &mut Emits,
) -> Result<(), AllocError>
    requires { values_of (state_of kind memory.now) ≡ values_in memory.now }
    ensures ok { OnOk result (emits.new ≡ emits.old ++ emission_at (state_of kind memory.now) event ∷ []) }
    ensures err { OnErr result (emits.new ≡ emits.old) }
{
    let values = outputs(memory, emits.allocator())?;
    emits.push(Emission { event, values })
}

/// Whether a block has no data outputs, as most. What it remembers says so mostly, and the table is asked where it
/// does not.
#[tactic(auto, using(crate::proofs::lemmas::Emissions::shown_values))]
#[inline(always)]
fn is_bare(kind: EventKind, memory: &EventMemory) -> bool
    requires { IsInRange kind memory.now }
    ensures bare { IsTrue result → values_of (state_of kind memory.now) ≡ [] }
    ensures shown { result ≡ false → values_of (state_of kind memory.now) ≡ values_in memory.now }
{
    match memory {
        EventMemory::Idle | EventMemory::Marks { .. } | EventMemory::Running(_) => true,
        EventMemory::Flag(_) | EventMemory::Count { .. } => event_block_output(kind, 0).is_none(),
    }
}

/// The values of the data outputs, of a block that has any.
#[inline(always)]
fn outputs(memory: &EventMemory, alloc: Global) -> Result<Values, AllocError>
    ensures { IfOk result (λ values. values ≡ values_in memory.now) }
{
    match memory {
        EventMemory::Flag(q) => Values::from_slice(alloc, &[Value::Bool(*q)]),
        EventMemory::Count { count, reached } => {
            Values::from_slice(
                alloc,
                &[Value::Bool(*reached), Value::Whole(*count as i128)],
            )
        }
        EventMemory::Idle | EventMemory::Marks { .. } | EventMemory::Running(_) => Ok(Values::new(
            alloc,
        )),
    }
}
