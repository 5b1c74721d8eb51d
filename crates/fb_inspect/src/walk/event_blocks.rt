//! The reactions of event blocks.

ghost use Rattle.std.specs.Prelude.{◌≡◌, ◌≤◌, ◌^◌, ◌&&◌, [], All, IfErr, IfOk, IsTrue, None, OnOk, false, if◌then◌else◌, true};
ghost use Rattle.fb_event.specs.Reactions.{FitInputs, IsWellFormed, reaction_to};
ghost use Rattle.fb_event.specs.Seen.{seen_memory};
ghost use Rattle.fb_inspect.specs.walk.Lines.{IsPlain};
ghost use Rattle.fb_inspect.specs.walk.Looks as spec;
ghost use Rattle.fb_inspect.specs.walk.Looks.{Seen, emissions_by};
ghost use Rattle.fb_inspect.specs.walk.Moves.{HasNoted};
ghost use Rattle.fb_inspect.specs.walk.Notes.{memory_note};
ghost use Rattle.fb_inspect.specs.Refusals.{IsNoRefusal, Refuses};
ghost use Rattle.fb_inspect.specs.walk.Timing.{HasExpired, HasReacted, IsBlockKept, IsNoExpiry, IsNotOnly, IsOnly, inputs_after};
ghost use Rattle.fb_inspect.specs.walk.OfWalk.{EmitsFail, HasNames, IsBlockLine, IsNext, IsNotDue, IsTextOf, TakenGoes, TimerGoes, reaction_at};

use crate::refused::finding::Finding;
use crate::walk::blocks::EventBlock;
use crate::walk::error::WalkError;
use crate::walk::notes::put_memory;
use crate::walk::trail::{Fixed, Trail, is_emission};
use fb_event::{EventMemory, expire, memory_of, react};
use fb_types::{Emits, Items, Line, TimerAsk, Value};
use std::alloc::{AllocError, Global};
use std::io::BufRead;

/// What is shown of an event block: what it remembers, and when its timer goes off.
#[derive(Clone, Copy)]
struct BlockMemory {
    memory: EventMemory,
    due: Option<u64>,
}

/// The tick at which the timer goes off, where it runs.
fn due_of(memory: EventMemory, due: Option<u64>) -> Option<u64>
    ensures { result ≡ spec.due_of (seen_memory memory) due }
{
    match memory {
        EventMemory::Running(_) => due,
        _ => None,
    }
}

fn seen_of(block: &EventBlock) -> BlockMemory
    ensures memory { seen_memory result.memory ≡ block.now.state.memory }
    ensures due { result.due ≡ spec.due_of (seen_memory result.memory) block.now.due }
{
    let memory = memory_of(&block.state);
    let due = due_of(memory, block.due);
    BlockMemory { memory, due }
}

fn is_same_memory(before: EventMemory, after: EventMemory) -> bool
    ensures { result ≡ spec.same_memory (seen_memory before) (seen_memory after) }
{
    match (before, after) {
        (EventMemory::Idle, EventMemory::Idle) => true,
        (
            EventMemory::Marks { first, second },
            EventMemory::Marks {
                first: new_first,
                second: new_second,
            },
        ) => first == new_first && second == new_second,
        (EventMemory::Flag(old), EventMemory::Flag(new)) => old == new,
        (EventMemory::Running(old), EventMemory::Running(new)) => old == new,
        (
            EventMemory::Count { count, reached },
            EventMemory::Count {
                count: new_count,
                reached: new_reached,
            },
        ) => count == new_count && reached == new_reached,
        _ => false,
    }
}

fn is_same_tick(before: Option<u64>, after: Option<u64>) -> bool
    ensures { result ≡ spec.same_tick before after }
{
    match (before, after) {
        (None, None) => true,
        (Some(old), Some(new)) => old == new,
        _ => false,
    }
}

/// Notes what an event block remembers, if that has changed.
fn note_change(
    alloc: Global,
    trail: &mut Trail,
    before: BlockMemory,
    after: BlockMemory,
) -> Result<(), AllocError>
    ensures noted { OnOk result (HasNoted (if spec.same_memory (seen_memory before.memory) (seen_memory after.memory) && spec.same_tick before.due after.due then [] else memory_note (seen_memory after.memory) after.due) trail.old.marks.charts trail.old trail.new) }
    ensures reading { trail.new.reading ≡ trail.old.reading }
    ensures charts { trail.new.marks.charts ≡ trail.old.marks.charts }
{
    let is_same = is_same_memory(before.memory, after.memory)
        && is_same_tick(before.due, after.due);
    if is_same || !trail.is_shown {
        return Ok(());
    }
    put_memory(alloc, &mut trail.page.text, after.memory, after.due)
}

/// The tick at which the timer goes off after a reaction that requests this.
fn due_after(due: Option<u64>, ask: TimerAsk) -> Option<u64>
    ensures { result ≡ spec.due_after ask due }
{
    match ask {
        TimerAsk::Keep => due,
        TimerAsk::Clear => None,
        TimerAsk::At(tick) => Some(tick),
    }
}

/// Puts the values of a line in the place of the inputs. All inputs are WITH its event, or none is.
fn sample(alloc: Global, inputs: &mut Items<Value>, values: &[Value]) -> Result<(), AllocError>
    ensures { OnOk result (inputs.new ≡ inputs_after inputs.old values.now) }
{
    if !values.is_empty() {
        *inputs = Items::from_slice(alloc, values)?;
    }
    Ok(())
}

/// The reaction of an event block, which has sampled its inputs, to the event of a line.
fn answer(block: &mut EventBlock, line: &Line, emits: &mut Emits) -> Result<(), WalkError>
    requires early { line.now.key.tick ≤ 10 ^ 12 }
    requires typed { FitInputs block.old.state.kind block.old.inputs }
    requires fresh { emits.old ≡ [] }
    ensures reacted { OnOk result (HasReacted (reaction_to block.old.state line.now.event line.now.key.tick block.old.inputs) block.old.due block.old block.new emits.new) }
    ensures fit { OnOk result (All (IsWellFormed block.old.state.kind) emits.new) }
    ensures fault { IfErr result IsNoRefusal }
{
    let mut ask = TimerAsk::Keep;
    let inputs = block.inputs.as_slice();
    match react(
        &mut block.state,
        line.event,
        line.key.tick,
        inputs,
        emits,
        &mut ask,
    ) {
        Ok(()) => {
            block.due = due_after(block.due, ask);
            Ok(())
        }
        // A reaction of an event block never stops a resource.
        Err(_) => Err(WalkError::Memory),
    }
}

/// The reaction of an event block to the event of a line.
pub(crate) fn react_block<R: BufRead>(
    fixed: &Fixed<'_, '_>,
    trail: &mut Trail,
    block: &mut EventBlock,
    line: &Line,
    input: &mut R,
) -> Result<(), WalkError>
    requires line { IsBlockLine fixed.now block.old line.now }
    requires taken { line.now.taken ≡ true }
    requires next { IsNext fixed.now line.now.key.tick trail.old.reading }
    ensures takes { (s : Seen) → IsBlockKept block.old.state.kind block.old s → OnOk result (TakenGoes fixed.now block.old.state.kind line.now s block.new trail.old trail.new (R.remaining input.old) (R.remaining input.new)) }
    ensures refused { (s : Seen) → IsBlockKept block.old.state.kind block.old s
        → HasNames fixed.now → IsPlain fixed.now.form line.now.key
        → IfErr result (Refuses (λ n. EmitsFail fixed.now line.now (emissions_by block.old.state.kind (reaction_at fixed.now block.old.state.kind s line.now)) trail.old.reading trail.new.reading (R.remaining input.old) (R.remaining input.new) n)) }
    ensures next { OnOk result (IsNext fixed.now line.now.key.tick trail.new.reading) }
    ensures charts { trail.new.marks.charts ≡ trail.old.marks.charts }
{
    let alloc = fixed.alloc;
    sample(alloc, &mut block.inputs, line.values.as_slice())?;
    let before = seen_of(block);
    let mut emits = Emits::new(alloc);
    answer(block, line, &mut emits)?;
    let after = seen_of(block);
    note_change(alloc, trail, before, after)?;
    trail.emit_all(fixed, line, &mut emits, input)
}

/// Whether a line is that of the first of some emissions, which is the only one.
fn is_only(line: &Line, emits: &mut Emits) -> bool
    ensures only { IsTrue result → IsOnly line.now emits.old }
    ensures other { result ≡ false → IsNotOnly line.now emits.old }
{
    let Some(emission) = emits.pop_first() else {
        return false;
    };
    if !emits.is_empty() {
        return false;
    }
    is_emission(line, line, &emission)
}

/// The reaction of an event block to its timer, which goes off at the tick of a line. Answers whether the line is that
/// of its only emission.
fn expire_to(alloc: Global, block: &mut EventBlock, line: &Line) -> Result<bool, WalkError>
    requires early { line.now.key.tick ≤ 10 ^ 12 }
    ensures only { IfOk result (λ is_only. IsTrue is_only → HasExpired line.now block.old block.new) }
    ensures other { IfOk result (λ is_only. is_only ≡ false → IsNoExpiry line.now block.old) }
    ensures fault { IfErr result IsNoRefusal }
{
    if block.due != Some(line.key.tick) {
        return Ok(false);
    }
    let mut emits = Emits::new(alloc);
    let mut ask = TimerAsk::Keep;
    match expire(&mut block.state, line.key.tick, &mut emits, &mut ask) {
        Ok(()) => {
            block.due = due_after(None, ask);
            Ok(is_only(line, &mut emits))
        }
        Err(_) => Err(WalkError::Memory),
    }
}

/// The reaction of an event block to its timer, whose emission is in the next line.
pub(crate) fn expire_block<R: BufRead>(
    fixed: &Fixed<'_, '_>,
    trail: &mut Trail,
    block: &mut EventBlock,
    line: &Line,
    input: &mut R,
) -> Result<(), WalkError>
    requires line { IsBlockLine fixed.now block.old line.now }
    requires text { IsTextOf fixed.now line.now trail.old.reading.line.items }
    ensures takes { (s : Seen) → IsBlockKept block.old.state.kind block.old s → OnOk result (TimerGoes fixed.now block.old.state.kind line.now s block.new trail.old trail.new (R.remaining input.old) (R.remaining input.new)) }
    ensures refused { (s : Seen) → IsBlockKept block.old.state.kind block.old s
        → HasNames fixed.now → IsPlain fixed.now.form line.now.key
        → IfErr result (Refuses (λ n. IsNotDue fixed.now block.old.state.kind s line.now trail.old.reading trail.new.reading n)) }
    ensures next { OnOk result (IsNext fixed.now line.now.key.tick trail.new.reading) }
    ensures charts { trail.new.marks.charts ≡ trail.old.marks.charts }
{
    let before = seen_of(block);
    if !expire_to(fixed.alloc, block, line)? {
        return Err(trail.reading.refusal(Finding::NotDue));
    }
    let after = seen_of(block);
    trail.pass(fixed, line, input)?;
    note_change(fixed.alloc, trail, before, after)?;
    Ok(())
}
