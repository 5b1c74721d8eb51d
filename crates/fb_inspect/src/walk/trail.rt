//! The progress of a walk through a trace: its lines, and the text that is written of them.

ghost use Rattle.std.specs.Prelude.{◌≡◌, [], ◌∷◌, ◌++◌, ◌<◌, ◌^◌, All, IfErr, IsTrue, OnOk, false, map};
ghost use Rattle.fb_types.specs.Numbers.{emission_of};
ghost use Rattle.fb_types.specs.declared.run.Line as run;
ghost use Rattle.fb_system.specs.Lines.{IsEmission as IsEmissionOf};
ghost use Rattle.fb_inspect.specs.Refusals.{IsNoRefusal, Refuses};
ghost use Rattle.fb_inspect.specs.walk.Moves.{HavePassed, IsEmission, StaysAlone, shown_text};
ghost use Rattle.fb_inspect.specs.walk.OfWalk.{EmitsFail, EmitsGo, GoesPast, IsNext, IsPlainLine, IsTextOf, ports_in};

use crate::refused::finding::Finding;
use crate::walk::error::WalkError;
use crate::walk::notes::are_same;
use crate::walk::reading::{Next, Reading};
use fb_coverage::Marks;
use fb_trace::Outcome;
use fb_types::{Emission, Emits, Form, Key, Line, Reason, Value, Values};
use fb_wave::{Page, PortTable};
use std::alloc::{AllocError, Global};
use std::io::BufRead;
use std::mem;

/// What stays the same during a walk through a trace.
#[derive(Clone, Copy)]
pub struct Fixed<'t, 's> {
    pub alloc: Global,
    pub table: &'t PortTable<'s>,
    pub form: Form,
    /// The most steps of a resource in a tick.
    pub limit: u64,
}

/// Copies of the lines that were passed, where they are kept.
#[derive(Drop)]
pub struct PassedLines {
    /// The copies, in the order of the trace.
    pub lines: Vec<Line>,
    /// Whether the next lines are kept.
    pub are_kept: bool,
}

/// The progress of a walk through a trace.
pub struct Trail {
    pub reading: Reading,
    pub page: Page,
    /// Whether the instance of the line that was taken last is shown.
    pub is_shown: bool,
    /// What is covered of the system.
    pub marks: Marks,
    /// The lines that were passed.
    pub passed: PassedLines,
}

impl Drop for Trail {
    fn drop(self) {
        let Trail {
            reading: _,
            page: _,
            is_shown: _,
            marks: _,
            passed: _,
        } = self;
    }
}

impl PassedLines {
    /// A line was passed.
    fn pass(&mut self, alloc: Global, line: &Line) -> Result<(), AllocError>
        ensures { OnOk result (HavePassed (line.now ∷ []) self.old self.new) }
    {
        if self.are_kept {
            self.lines.push(Line {
                key: line.key,
                taken: line.taken,
                instance: line.instance,
                event: line.event,
                values: Values::from_slice(alloc, line.values.as_slice())?,
            })?;
        }
        Ok(())
    }
}

/// Whether this is the stop of a resource at a tick, for this reason.
pub fn is_stop(next: &Next, key: &Key, reason: Reason) -> bool
    ensures other { result ≡ false → next.now ≡ Next.End (Outcome.Stop (record { tick = key.now.tick; resource = key.now.resource; reason = reason })) → ⊥ }
    ensures stop { IsTrue result → next.now ≡ Next.End (Outcome.Stop (record { tick = key.now.tick; resource = key.now.resource; reason = reason })) }
{
    match next {
        Next::End(Outcome::Stop(mark)) => {
            mark.tick == key.tick && mark.resource == key.resource && mark.reason == reason
        }
        _ => false,
    }
}

/// The number of the event of an emission.
fn event_of(emission: &Emission) -> u32
    ensures is { result ≡ emission.now.event }
    ensures small { emission.now.event < 2 ^ 32 }
{
    emission.event
}

/// Whether the values of two rows are the same.
fn have_same_values(left: &[Value], right: &[Value]) -> bool
    ensures same { IsTrue result → left.now ≡ right.now }
    ensures other { result ≡ false → ¬ (left.now ≡ right.now) }
{
    if left.len() != right.len() {
        return false;
    }
    for (index, value) in left.iter().enumerate() {
        if !are_same(*value, right[index]) {
            return false;
        }
    }
    true
}

/// Whether a line is that of an emission of the block of another line.
pub(crate) fn is_emission(next: &Line, line: &Line, emission: &Emission) -> bool
    ensures same { IsTrue result → IsEmission next.now line.now emission.now }
    ensures other { result ≡ false → ¬ (IsEmission next.now line.now emission.now) }
    ensures small { emission.now.event < 2 ^ 32 }
{
    let event = emission.event;
    if next.taken {
        return false;
    }
    if next.instance != line.instance {
        return false;
    }
    if next.event != event {
        return false;
    }
    if next.key != line.key {
        return false;
    }
    have_same_values(next.values.as_slice(), emission.values.as_slice())
}

/// Adds a line, if its instance is shown.
pub(crate) fn put_line(text: &mut Vec<u8>, line: &[u8], is_shown: bool) -> Result<(), AllocError>
    ensures { OnOk result (text.new.items ≡ text.old.items ++ shown_text is_shown line.now) }
{
    if is_shown {
        text.extend_from_slice(line)?;
    }
    Ok(())
}

impl Trail {
    /// The refusal of the next line, where the block of a line makes this emission.
    fn refusal_for(&self, alloc: Global, line: &Line, emission: &Emission) -> WalkError
        ensures refused { Refuses (λ refusal. refusal ≡ record { number = self.now.reading.number; finding = Finding.Emits line.now.instance emission.now }) result }
        ensures small { emission.now.event < 2 ^ 32 }
    {
        let event = event_of(emission);
        let Ok(values) = Values::from_slice(alloc, emission.values.as_slice()) else {
            return WalkError::Memory;
        };
        self.reading.refusal(Finding::Emits {
            instance: line.instance,
            emission: Emission { event, values },
        })
    }

    /// Forgets the lines that were passed.
    pub(crate) fn forget(&mut self)
        ensures none { self.new.passed.lines.items ≡ [] }
        ensures others { self.new ≡ record self.old { passed = record self.old.passed { lines = self.new.passed.lines } } }
    {
        self.passed.lines.clear();
    }

    /// Goes past the next line, which is this one. It is added, if its instance is shown.
    pub(crate) fn pass<R: BufRead>(
        &mut self,
        fixed: &Fixed<'_, '_>,
        line: &Line,
        input: &mut R,
    ) -> Result<(), WalkError>
        requires { IsTextOf fixed.now line.now self.old.reading.line.items }
        ensures goes { OnOk result (GoesPast fixed.now line.now.key.tick line.now self.old self.new (R.remaining input.old) (R.remaining input.new)) }
        ensures next { OnOk result (IsNext fixed.now line.now.key.tick self.new.reading) }
        ensures charts { self.new.marks.charts ≡ self.old.marks.charts }
        ensures alone { OnOk result (StaysAlone self.old.reading self.new.reading (R.remaining input.old) (R.remaining input.new)) }
        ensures fault { IfErr result IsNoRefusal }
    {
        let whole = self.reading.line.as_slice();
        put_line(&mut self.page.text, whole, self.is_shown)?;
        self.passed.pass(fixed.alloc, line)?;
        self.marks.ports.mark(line.instance, line.taken, line.event);
        self.reading
            .advance(fixed.alloc, fixed.table, fixed.form, line.key.tick, input)
    }

    /// Goes past the next line, which must be that of an emission of the block of this line.
    pub(crate) fn emit<R: BufRead>(
        &mut self,
        fixed: &Fixed<'_, '_>,
        line: &Line,
        emission: &Emission,
        input: &mut R,
    ) -> Result<(), WalkError>
        requires { IsNext fixed.now line.now.key.tick self.old.reading }
        ensures goes { OnOk result ((l : run.Line) × IsEmission l line.now emission.now
            × GoesPast fixed.now line.now.key.tick l self.old self.new (R.remaining input.old) (R.remaining input.new)) }
        ensures next { OnOk result (IsNext fixed.now line.now.key.tick self.new.reading) }
        ensures charts { self.new.marks.charts ≡ self.old.marks.charts }
        ensures alone { OnOk result (StaysAlone self.old.reading self.new.reading (R.remaining input.old) (R.remaining input.new)) }
        ensures refused { let its = ports_in fixed.now line.now in
            IsPlainLine fixed.now line.now → IsEmissionOf its emission.now
            → IfErr result (Refuses (λ n. EmitsFail fixed.now line.now (emission_of its emission.now ∷ []) self.old.reading self.new.reading (R.remaining input.old) (R.remaining input.new) n)) }
    {
        let next = mem::replace(&mut self.reading.next, Next::Bad);
        let Next::Event(next) = next else {
            return Err(self.refusal_for(fixed.alloc, line, emission));
        };
        if !is_emission(&next, line, emission) {
            return Err(self.refusal_for(fixed.alloc, line, emission));
        }
        self.pass(fixed, &next, input)
    }

    /// Goes past the next lines, which must be those of these emissions of the block of a line.
    pub(crate) fn emit_all<R: BufRead>(
        &mut self,
        fixed: &Fixed<'_, '_>,
        line: &Line,
        emits: &mut Emits,
        input: &mut R,
    ) -> Result<(), WalkError>
        requires { IsNext fixed.now line.now.key.tick self.old.reading }
        ensures goes { OnOk result (EmitsGo fixed.now line.now emits.old self.old self.new (R.remaining input.old) (R.remaining input.new)) }
        ensures next { OnOk result (IsNext fixed.now line.now.key.tick self.new.reading) }
        ensures charts { self.new.marks.charts ≡ self.old.marks.charts }
        ensures refused { let its = ports_in fixed.now line.now in
            IsPlainLine fixed.now line.now → All (IsEmissionOf its) emits.old
            → IfErr result (Refuses (λ n. EmitsFail fixed.now line.now (map (emission_of its) emits.old) self.old.reading self.new.reading (R.remaining input.old) (R.remaining input.new) n)) }
    {
        while let Some(emission) = emits.pop_first() {
            self.emit(fixed, line, &emission, input)?;
        }
        Ok(())
    }
}
