//! Through a trace, taking by taking.

ghost use Rattle.std.specs.Prelude.{◌≡◌, ◌<◌, ◌≤◌, ◌+◌, ◌∷◌, ◌++◌, ℕ, List, Option, Some, [], All, IfErr, IfOk, IfSome, IsTrue, OnErr, OnOk, length, true, false};
ghost use Rattle.std.specs.Io.KnownBytes.{Consumes};
ghost use Rattle.fb_types.specs.Systems.{System as Flat};
ghost use Rattle.fb_trace.specs.declared.last.Outcome.{Outcome};
ghost use Rattle.fb_types.specs.declared.run.Line as run;
ghost use Rattle.fb_types.specs.OfSystem.{IsInstance, kind_at, path_at};
ghost use Rattle.fb_system.specs.OfSystem.{BelongsTo};
ghost use Rattle.fb_inspect.specs.Inspections.{most};
ghost use Rattle.fb_inspect.specs.walk.Looks.{Look};
ghost use Rattle.fb_inspect.specs.Refusals.{IsNoRefusal, IsRefusalAfter, Refuses};
ghost use Rattle.fb_inspect.specs.walk.Walking.{unread};
ghost use Rattle.fb_inspect.specs.dump.Saved.{IsBefore};
ghost use Rattle.fb_inspect.specs.dump.StateDumps.{Taken};
ghost use Rattle.fb_inspect.specs.dump.Waving.{FinishesCut, HasGrown, SendsCutPart};
ghost use Rattle.fb_inspect.specs.OfSystem.{AreKept, CanShow, Finishes, IsLineAt, IsNextKept, IsPortDump, SendsPart, Shows, ShowsTaking, ShowsUntaken};
ghost use Rattle.fb_inspect.specs.walk.OfWalk.{GoesAfter, GoesWhole, HasGoneOn, HasLook, HasNames, HasWaved, IsNext, IsShownWith, IsUncut, IsWrongFor, StandsWell, StandsWhole, WaveStarts, WritesBefore, WritesRead};

use crate::Terms;
use crate::dump::before::Before;
use crate::dump::port_dump::PortDump;
use crate::held::flush_front;
use crate::walk::ahead::Ahead;
use crate::walk::error::WalkError;
use crate::walk::reading::Next;
use crate::walk::trail::Fixed;
use crate::walk::{Step, Walk};
use fb_system::System;
use fb_trace::Outcome;
use fb_wave::{Cut, Page};
use std::alloc::AllocError;
use std::io::{BufRead, Write};

/// A dump of what a walk has passed of a trace.
pub(crate) struct StateWave {
    pub(crate) walk: Walk,
    pub(crate) dump: PortDump,
    pub(crate) page: Page,
    pub(crate) before: Before,
}

impl Drop for StateWave {
    fn drop(self) {
        let StateWave {
            walk: _,
            dump: _,
            page: _,
            before: _,
        } = self;
    }
}

/// An event of an instance, in a tick.
#[derive(Clone, Copy)]
pub(crate) struct EventAt {
    instance: u32,
    /// The tick, in milliseconds.
    tick: u64,
}

/// Keeps the inside of the instance of the next line, if that is the line of an event.
fn keep_next(
    before: &mut Before,
    system: &System,
    walk: &Walk,
) -> Result<Option<EventAt>, AllocError>
    requires next { (line : run.Line) → walk.now.trail.reading.next ≡ Next.Event line → IsInstance system.now line.instance }
    requires kept { (look : Look) × AreKept system.now walk.now.blocks.items look }
    ensures { IfOk result (IsNextKept system.now walk.now before.new) }
{
    let Next::Event(line) = &walk.trail.reading.next else {
        return Ok(None);
    };
    let at = EventAt {
        instance: line.instance,
        tick: line.key.tick,
    };
    before.keep(system, walk.blocks.as_slice(), at.instance)?;
    Ok(Some(at))
}

/// Whether a trace is cut off there.
fn is_cut_off(step: Step) -> bool
    ensures yes { IsTrue result → step ≡ Step.CutOff }
    ensures no { result ≡ false → step ≡ Step.CutOff → ⊥ }
{
    match step {
        Step::CutOff => true,
        Step::Taken | Step::Ended(_) => false,
    }
}

impl StateWave {
    /// Shows the taking of an event that the walk has passed.
    fn show(&mut self, system: &System, at: EventAt) -> Result<(), AllocError>
        requires { CanShow system.now at self.old }
        ensures numbers { OnOk result (IsPortDump system.now self.new.dump) }
        ensures walk { self.new.walk ≡ self.old.walk }
        ensures shown { (look after : Look) → let p = path_at system.now at.instance in
            IsBefore (kind_at system.now p) self.old.before (look.blocks p)
            → AreKept system.now self.old.walk.blocks.items after
            → OnOk result (ShowsTaking system.now at look after self.old self.new) }
    {
        system.facts(); // for the prover: what holds of every accepted system
        let text = &mut self.page.text;
        self.dump.go_to(at.tick, text)?;
        let is_lost = self.walk.trail.marks.charts.lost;
        let blocks = self.walk.blocks.as_slice();
        self.before
            .put_changes(text, system, blocks, at.instance, is_lost)?;
        let lines = self.walk.trail.passed.lines.as_slice();
        self.dump.show_lines(system, lines)
    }

    /// Shows the line of the event in which the trace is cut off, and those of its block that come after it.
    fn show_untaken(&mut self, system: &System, ahead: &Ahead) -> Result<(), AllocError>
        requires dump { IsPortDump system.now self.old.dump }
        requires next { (line : run.Line) × (self.old.walk.trail.reading.next ≡ Next.Event line) × BelongsTo system.now line }
        requires rows { All (BelongsTo system.now) ahead.now.rows.items }
        ensures numbers { OnOk result (IsPortDump system.now self.new.dump) }
        ensures shown { (line : run.Line) (xs : List Taken) (sent : List ℕ) → self.old.walk.trail.reading.next ≡ Next.Event line
            → All (IsLineAt system.now line.key.tick) ahead.now.rows.items
            → Shows system.now xs (sent ++ self.old.page.text.items) self.old.dump
            → OnOk result (ShowsUntaken system.now xs (line ∷ ahead.now.rows.items) (sent ++ self.new.page.text.items) self.new.dump) }
    {
        let Next::Event(line) = &self.walk.trail.reading.next else {
            unreachable!()
        };
        self.dump.go_to(line.key.tick, &mut self.page.text)?;
        self.dump.show_line(system, line)?;
        self.dump.show_lines(system, ahead.rows.as_slice())
    }

    /// Goes on by one event, or to the end of the trace, and shows what was taken.
    fn advance<R: BufRead>(
        &mut self,
        fixed: &Fixed<'_, '_>,
        terms: Terms,
        ahead: &mut Ahead,
        input: &mut R,
    ) -> Result<Step, WalkError>
        requires look { HasLook fixed.now self.old.walk }
        requires next { (tick : ℕ) × IsNext fixed.now tick self.old.walk.trail.reading }
        requires limit { fixed.now.limit ≡ most }
        requires kept { self.old.walk.trail.passed.are_kept ≡ true }
        requires dump { IsPortDump fixed.now.table.now.system.now self.old.dump }
        ensures goes { (known old new : Option (List ℕ))
            → HasWaved fixed.now terms.steps self.old known (unread ahead.old (R.remaining input.old)) old new
            → IfOk result (HasGoneOn fixed.now terms.steps self.new known (unread ahead.new (R.remaining input.new)) old new) }
        ensures stands { (rest text : List ℕ) → terms.steps ≤ most → HasNames fixed.now → R.remaining input.old ≡ Some rest
            → StandsWell fixed.now terms.steps self.old.walk ahead.old rest text → GoesAfter fixed.now terms.steps self.new.walk ahead.new (R.remaining input.new) text result }
        ensures grows { (known old new : Option (List ℕ))
            → HasWaved fixed.now terms.steps self.old known (unread ahead.old (R.remaining input.old)) old new
            → IfOk result (λ step. step ≡ Step.Taken → HasGrown self.old self.new) }
        ensures ends { (known old new : Option (List ℕ))
            → HasWaved fixed.now terms.steps self.old known (unread ahead.old (R.remaining input.old)) old new
            → IfOk result (λ step. (end : Outcome) → step ≡ Step.Ended end → self.old.walk.trail.reading.number ≤ self.new.walk.trail.reading.number) }
        ensures later { (rest text : List ℕ) → HasNames fixed.now → R.remaining input.old ≡ Some rest
            → StandsWell fixed.now terms.steps self.old.walk ahead.old rest text → IfErr result (Refuses (λ refusal. self.old.walk.trail.reading.number ≤ refusal.number)) }
        ensures uncut { (rest text : List ℕ) → terms.steps ≤ most → HasNames fixed.now → R.remaining input.old ≡ Some rest → StandsWhole fixed.now terms.steps self.old.walk ahead.old rest text
            → terms.cut ≡ Cut.Allowed → GoesWhole fixed.now terms.steps self.new.walk ahead.new (R.remaining input.new) text result }
        ensures cut { IfOk result (λ step. step ≡ Step.CutOff → terms.cut ≡ Cut.Allowed) }
    {
        let system = fixed.table.system;
        let kept = keep_next(&mut self.before, system, &self.walk)?;
        self.walk.trail.forget();
        let step = self.walk.advance(fixed, terms, ahead, input)?;
        if is_cut_off(step) {
            self.show_untaken(system, ahead)?;
            return Ok(step);
        }
        let Some(event) = kept else {
            return Ok(step);
        };
        self.show(system, event)?;
        Ok(step)
    }

    /// Puts the end, and writes all that waits, if nothing is left after the last line.
    fn finish<R: BufRead, W: Write>(
        &mut self,
        system: &System,
        end: Outcome,
        ahead: &Ahead,
        input: &mut R,
        out: &mut W,
    ) -> Result<(), WalkError>
        ensures finishes { OnOk result (Finishes system.now end self.old (unread ahead.now (R.remaining input.old)) (W.contents out.old) (W.contents out.new)) }
        ensures fault { OnErr result (SendsPart system.now end self.old (W.contents out.old) (W.contents out.new)) }
        ensures kept { IfErr result (Refuses (λ refusal. W.contents out.new ≡ W.contents out.old)) }
        ensures refused { IfErr result (Refuses (λ refusal. IsRefusalAfter self.old.walk.trail.reading.number refusal × IfSome (unread ahead.now (R.remaining input.old)) (λ rest. 0 < length rest))) }
    {
        self.dump.end(system, end, &mut self.page.text)?;
        self.walk.trail.reading.finish(ahead, input)?;
        self.page.flush(out)?;
        Ok(())
    }

    /// Puts that the trace is cut off, and writes all that waits.
    pub(crate) fn finish_cut<W: Write>(&mut self, out: &mut W) -> Result<(), WalkError>
        ensures finishes { (sys : Flat) → OnOk result (FinishesCut sys self.old (W.contents out.old) (W.contents out.new)) }
        ensures fault { (sys : Flat) → OnErr result (SendsCutPart sys self.old (W.contents out.old) (W.contents out.new)) }
        ensures none { IfErr result IsNoRefusal }
    {
        self.dump.cut_off(&mut self.page.text)?;
        self.page.flush(out)?;
        Ok(())
    }

    /// Goes through a trace to its end. What is shown of an event is held back until the next one was taken.
    pub(crate) fn go<R: BufRead, W: Write>(
        &mut self,
        fixed: &Fixed<'_, '_>,
        terms: Terms,
        ahead: &mut Ahead,
        input: &mut R,
        out: &mut W,
    ) -> Result<(), WalkError>
        requires starts { WaveStarts fixed.now self.old }
        requires limit { fixed.now.limit ≡ most }
        requires empty { ahead.old.text.items ≡ [] }
        ensures whole { (known : Option (List ℕ)) → Consumes known (R.remaining input.old) self.old.walk.trail.reading.line.items
            → OnOk result (IfSome known (λ text. IsShownWith terms.cut fixed.now terms.steps text (W.contents out.old) (W.contents out.new))) }
        ensures fault { (known : Option (List ℕ)) → Consumes known (R.remaining input.old) self.old.walk.trail.reading.line.items
            → OnErr result (WritesRead fixed.now terms.steps known (W.contents out.old) (W.contents out.new)) }
        ensures refused { (rest text : List ℕ)
            → terms.steps ≤ most → HasNames fixed.now → R.remaining input.old ≡ Some rest → StandsWell fixed.now terms.steps self.old.walk ahead.old rest text → text ≡ self.old.walk.trail.reading.line.items ++ rest
            → IfErr result (Refuses (λ refusal. IsWrongFor fixed.now terms.steps refusal self.new.walk.trail.reading.line.items text)) }
        ensures before { (rest text : List ℕ)
            → terms.steps ≤ most → HasNames fixed.now → R.remaining input.old ≡ Some rest → StandsWell fixed.now terms.steps self.old.walk ahead.old rest text → text ≡ self.old.walk.trail.reading.line.items ++ rest
            → IfErr result (Refuses (λ refusal. WritesBefore fixed.now refusal.number text (W.contents out.old) (W.contents out.new))) }
        ensures uncut { (rest text : List ℕ)
            → terms.steps ≤ most → HasNames fixed.now → R.remaining input.old ≡ Some rest → StandsWhole fixed.now terms.steps self.old.walk ahead.old rest text → text ≡ self.old.walk.trail.reading.line.items ++ rest
            → terms.cut ≡ Cut.Allowed → IfErr result (Refuses (λ refusal. IsUncut fixed.now refusal.number text)) }
    {
        for _ in 0..u64::MAX {
            let before = self.page.text.len();
            match self.advance(fixed, terms, ahead, input)? {
                Step::Taken => flush_front(fixed.alloc, &mut self.page, before, out)?,
                Step::Ended(end) => {
                    return self.finish(fixed.table.system, end, ahead, input, out);
                }
                Step::CutOff => return self.finish_cut(out),
            }
        }
        Err(WalkError::Read)
    }
}
