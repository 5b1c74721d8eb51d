//! Through a trace, event by event: `Walk` is what the blocks remember and how far the walk has come.
//!
//! Read in this order: `reading`, the lines, and `ahead`, lines that are read ahead; `trail`, how far a walk has come;
//! `blocks`, what blocks remember; `steps`, the steps of a tick. Then the reactions: `charts` and `event_blocks`, with
//! `notes`, what is written of them. Last, what is here.

ghost use Rattle.std.specs.Prelude.{◌≡◌, ◌<◌, ◌≤◌, ◌⊎◌, ◌↔◌, ℕ, ◌+◌, List, [], IfErr, IfOk, IfSome, IsTrue, OnErr, OnOk, All, Option, Some, None, if◌then◌else◌, length, slice_get, take, true, false};
ghost use Rattle.std.specs.Bool.{OnFalse, OnTrue};
ghost use Rattle.std.specs.Io.KnownBytes.{Consumes};
ghost use Rattle.fb_types.specs.Blocks.{Basic};
ghost use Rattle.fb_types.specs.Systems.{System};
ghost use Rattle.fb_types.specs.declared.run.Line as run;
ghost use Rattle.fb_coverage.specs.declared.marks.Marks.{Marks};
ghost use Rattle.fb_trace.specs.End.{ending_of};
ghost use Rattle.fb_wave.specs.CutOff.{is_unended};
ghost use Rattle.fb_wave.specs.Dumps.{last_tick};
ghost use Rattle.fb_wave.specs.Lines.{IsEndOf};
ghost use Rattle.fb_inspect.specs.walk.Counted.{left_of};
ghost use Rattle.fb_inspect.specs.Inspections.{KeepSteps};
ghost use Rattle.fb_inspect.specs.walk.Lines.{IsAlone, IsPlain};
ghost use Rattle.fb_inspect.specs.walk.Looks.{Look, Taking, left_at, most};
ghost use Rattle.fb_inspect.specs.Selections.{Selection, is_wanted};
ghost use Rattle.fb_inspect.specs.walk.Walking as spec;
ghost use Rattle.fb_inspect.specs.Refusals.{IsNoRefusal, IsRefusalAfter, Refuses};
ghost use Rattle.fb_inspect.specs.declared.walk.error.WalkError.TheVariants.{Refused};
ghost use Rattle.fb_inspect.specs.walk.Standing.{IsStepsStop};
ghost use Rattle.fb_inspect.specs.walk.Walking.{Finishes, FinishesCut, HasLimited, HasStepped, IsLookOf, MayEnd, SendsCutPart, SendsPart, unread};
ghost use Rattle.fb_inspect.specs.declared.walk.blocks.Remembered.TheVariants as kept;
ghost use Rattle.fb_inspect.specs.walk.OfWalk.{AreAhead, AreApart, AreKept, BeginsText, BlamesSteps, CanReact, FailsAt, GoesAfter, GoesWhole, HasAdvanced, HasCovered, HasLook, HasNames, IsCoveredBy, IsKeptAt, IsLineOf, IsNear, IsNext, IsNextLine, IsNotNear, IsOwnStop, IsShownBy, IsTextOf, IsUncut, IsWrongFor, KeepsSteps, KeepsTakings, KeptGoes, LineGoes, LooksAs, ShowsBefore, ShowsRead, StandsAt, StandsWell, StandsWhole, StandsWholeAt, Starts, StepGoes, TakingFails, WalkTakes, Watches};

pub mod ahead;
pub mod blocks;
pub(crate) mod charts;
pub mod error;
mod event_blocks;
pub mod notes;
pub mod reading;
pub mod steps;
pub mod trail;

use crate::filter::Shown;
use crate::held::flush_front;
use crate::refused::finding::Finding;
use crate::walk::ahead::Ahead;
use crate::walk::blocks::{Chart, Remembered, basic_type, chart_at, type_number};
use crate::walk::charts::{ChartTaking, follow, note_stop};
use crate::walk::error::{Refusal, WalkError};
use crate::walk::event_blocks::{expire_block, react_block};
use crate::walk::notes::put_cut;
use crate::walk::reading::Next;
use crate::walk::steps::TickSteps;
use crate::walk::trail::{Fixed, Trail, is_stop, put_line};
use fb_ecc::begin;
use fb_st::Meter;
use fb_trace::Outcome;
use fb_types::{Key, LATEST_TICK, Line, MOST_STEPS, Reason, StopMark};
use fb_wave::{Cut, read_last};
use std::io::{BufRead, Write};
use std::mem;

/// What the blocks of a system remember at a line, and the steps of its resources.
pub struct Walk {
    pub blocks: Vec<Remembered>,
    /// For each resource the steps that it has left.
    pub steps: Vec<TickSteps>,
    pub trail: Trail,
    /// Which events are shown.
    pub shown: Shown,
}

impl Drop for Walk {
    fn drop(self) {
        let Walk {
            blocks: _,
            steps: _,
            trail: _,
            shown: _,
        } = self;
    }
}

/// The reaction of a basic block to the event of the next line.
fn react_basic<R: BufRead>(
    fixed: &Fixed<'_, '_>,
    trail: &mut Trail,
    chart: &mut Chart,
    meter: &mut Meter,
    line: &Line,
    input: &mut R,
) -> Result<Option<Reason>, WalkError>
    requires { CanReact fixed.now (kept.Basic chart.old) line.now trail.old.reading.line.items }
    ensures goes { (look : Look)
        → IsKeptAt fixed.now line.now (kept.Basic chart.old) look → IfOk result (λ stop.
        KeptGoes fixed.now look meter.old.left line.now stop (kept.Basic chart.new) meter.new.left trail.old trail.new (R.remaining input.old) (R.remaining input.new)) }
    ensures refused { (look : Look)
        → HasNames fixed.now → IsPlain fixed.now.form line.now.key → IsKeptAt fixed.now line.now (kept.Basic chart.old) look
        → IfErr result (Refuses (FailsAt fixed.now meter.old.left look line.now trail.old.reading trail.new.reading (R.remaining input.old) (R.remaining input.new))) }
    ensures next { OnOk result (IsNext fixed.now line.now.key.tick trail.new.reading) }
{
    let Some(block) = basic_type(fixed.table.system, line.instance) else {
        unreachable!()
    };
    if !line.taken {
        return Err(trail.reading.refusal(Finding::Unmade));
    }
    trail.pass(fixed, line, input)?;
    let number = type_number(fixed.table.system, line.instance);
    trail.marks.charts.mark_taken(number, line.event);
    let fixed = *fixed;
    let taking = ChartTaking {
        fixed,
        block,
        number,
        line,
    };
    begin(&mut chart.state, block, line.event, line.values.as_slice());
    let end = follow(&taking, trail, chart, meter, input)?;
    note_stop(trail, end)?;
    Ok(end)
}

/// The reaction of an instance to the event of the next line. Answers the reason that stops the resource, if one does.
fn react_kept<R: BufRead>(
    fixed: &Fixed<'_, '_>,
    trail: &mut Trail,
    block: &mut Remembered,
    meter: &mut Meter,
    line: &Line,
    input: &mut R,
) -> Result<Option<Reason>, WalkError>
    requires { CanReact fixed.now block.old line.now trail.old.reading.line.items }
    ensures goes { (look : Look)
        → IsKeptAt fixed.now line.now block.old look → IfOk result (λ stop.
        KeptGoes fixed.now look meter.old.left line.now stop block.new meter.new.left trail.old trail.new (R.remaining input.old) (R.remaining input.new)) }
    ensures refused { (look : Look)
        → HasNames fixed.now → IsPlain fixed.now.form line.now.key → IsKeptAt fixed.now line.now block.old look
        → IfErr result (Refuses (FailsAt fixed.now meter.old.left look line.now trail.old.reading trail.new.reading (R.remaining input.old) (R.remaining input.new))) }
    ensures next { OnOk result (IsNext fixed.now line.now.key.tick trail.new.reading) }
{
    match block {
        Remembered::Basic(chart) => react_basic(fixed, trail, chart, meter, line, input),
        // Its timer has gone off.
        Remembered::Event(block) if !line.taken => {
            expire_block(fixed, trail, block, line, input).and(Ok(None))
        }
        Remembered::Event(block) => {
            trail.pass(fixed, line, input)?;
            react_block(fixed, trail, block, line, input).and(Ok(None))
        }
        Remembered::Composite => trail.pass(fixed, line, input).and(Ok(None)),
    }
}

/// Uses a step of the resource of a key, of this limit. Answers `false` where no step is left.
fn use_step(steps: &mut Vec<TickSteps>, limit: u64, key: &Key) -> bool
    requires { key.now.resource < length steps.old.items }
    ensures used { OnTrue result (HasStepped limit key.now steps.old.items steps.new.items) }
    ensures none { OnFalse result ((own : TickSteps) → slice_get steps.old.items key.now.resource ≡ Some own → left_at limit key.now.tick (left_of own) ≡ 0) }
{
    steps[key.resource as usize].step(limit, key.tick)
}

/// How a walk goes on.
#[derive(Clone, Copy)]
pub enum Step {
    /// An event was taken, and the trace goes on.
    Taken,
    /// The next line is the last one, and the trace can end so there.
    Ended(Outcome),
    /// The trace is cut off in the next line, or in the lines after it that were read ahead.
    CutOff,
}

/// How much of a trace there is.
#[derive(Clone, Copy)]
pub enum Extent {
    /// All of it.
    Whole,
    /// It is cut off.
    CutOff,
}

/// What a trace may be.
#[derive(Clone, Copy)]
pub struct Terms {
    /// Whether it may be cut off.
    pub cut: Cut,
    /// The most steps of a resource in a tick, if the trace ends where they are used up.
    pub steps: u64,
}

/// Whether a stop is one of the resource and the tick of a key, for its steps.
fn is_steps_of(mark: StopMark, key: &Key) -> bool
    ensures { IsTrue result ↔ (mark ≡ record { tick = key.now.tick; resource = key.now.resource; reason = Reason.Steps }) }
{
    mark.tick == key.tick && mark.resource == key.resource && mark.reason == Reason::Steps
}

/// Whether a text is the stop for its steps of the resource of a line, in its tick.
fn is_own_stop(fixed: &Fixed<'_, '_>, text: &[u8], line: &Line) -> bool
    ensures stop { IsTrue result → IsOwnStop fixed.now line.now text.now }
    ensures other { HasNames fixed.now → AreApart fixed.now → IsLineOf fixed.now line.now → result ≡ false → IsOwnStop fixed.now line.now text.now → ⊥ }
{
    let Some(end) = read_last(fixed.table.system, text) else {
        return false;
    };
    match end {
        Outcome::Stop(mark) => is_steps_of(mark, &line.key),
        Outcome::End(_) => false,
    }
}

fn is_for_steps(reason: Reason) -> bool
    ensures steps { IsTrue result → reason ≡ Reason.Steps }
    ensures other { result ≡ false → reason ≡ Reason.Steps → ⊥ }
{
    match reason {
        Reason::Steps => true,
        Reason::Divide | Reason::Range => false,
    }
}

/// What is found where a taking that ended so should have run out of steps: the reason that stopped it, or else this.
fn found_by(stop: Option<Reason>, other: Finding) -> Finding
    ensures stopped { (reason : Reason) → stop ≡ Some reason → result ≡ Finding.Stops reason }
    ensures other { stop ≡ None → result ≡ other }
{
    match stop {
        Some(reason) => Finding::Stops(reason),
        None => other,
    }
}

/// The stop of the resource of a key in its tick.
fn stop_of(key: &Key, reason: Reason) -> Outcome
    ensures { result ≡ Outcome.Stop (record { tick = key.now.tick; resource = key.now.resource; reason = reason }) }
{
    Outcome::Stop(StopMark {
        tick: key.tick,
        resource: key.resource,
        reason,
    })
}

impl Walk {
    /// Takes the event of the next line. Answers the reason that stops the resource, if one does.
    ///
    /// # Errors
    /// `Refused` where no run gives the next line, or one of those that the event causes; `Read` and `Memory`.
    pub(crate) fn take_event<R: BufRead>(
        &mut self,
        fixed: &Fixed<'_, '_>,
        line: &Line,
        input: &mut R,
    ) -> Result<Option<Reason>, WalkError>
        requires is { IsTextOf fixed.now line.now self.old.trail.reading.line.items }
        requires look { HasLook fixed.now self.old }
        ensures goes { (look : Look) → LooksAs fixed.now self.old look
            → IfOk result (λ stop. WalkTakes fixed.now look line.now stop self.old self.new (R.remaining input.old) (R.remaining input.new)) }
        ensures alone { OnOk result (IsAlone self.old.trail.reading.line.items (R.remaining input.old) → IsAlone self.new.trail.reading.line.items (R.remaining input.new)) }
        ensures refused { (look : Look)
            → HasNames fixed.now → IsPlain fixed.now.form line.now.key → LooksAs fixed.now self.old look
            → IfErr result (Refuses (TakingFails fixed.now look line.now self.old.trail.reading self.new.trail.reading (R.remaining input.old) (R.remaining input.new))) }
        ensures next { OnOk result (IsNext fixed.now line.now.key.tick self.new.trail.reading) }
    {
        fixed.table.system.facts(); // for the prover: what holds of every accepted system
        self.trail.is_shown = self.shown.may_show(line);
        let before = self.trail.page.text.len();
        if line.key.tick > LATEST_TICK {
            return Err(self.trail.reading.refusal(Finding::Late));
        }
        if !use_step(&mut self.steps, fixed.limit, &line.key) {
            return Err(self.trail.reading.refusal(Finding::NoStep));
        }
        let steps = &mut self.steps[line.key.resource as usize];
        let block = &mut self.blocks[line.instance as usize];
        let trail = &mut self.trail;
        let stop = react_kept(fixed, trail, block, &mut steps.meter, line, input);
        steps.settle();
        self.leave_out(line.instance, before);
        stop
    }

    /// Whether the event that an instance took last was lost.
    fn has_lost(&self, instance: u32) -> bool
        ensures { result ≡ spec.has_lost self.now instance }
    {
        if !self.trail.marks.charts.lost {
            return false;
        }
        chart_at(self.blocks.as_slice(), instance).is_some()
    }

    /// Leaves out what was added of the event of an instance to a text of this length, unless the event is wanted.
    fn leave_out(&mut self, instance: u32, before: usize)
        ensures others { self.new ≡ record self.old { trail = record self.old.trail { page = self.new.trail.page } } }
        ensures text { self.new.trail.page.text.items
            ≡ (if is_wanted self.old.shown.events (spec.has_lost self.old instance) then self.old.trail.page.text.items else take before self.old.trail.page.text.items) }
    {
        if !self.shown.events.are_lost || self.has_lost(instance) {
            return;
        }
        self.trail.page.text.truncate(before);
    }

    /// Whether a trace may end so where no reaction was stopped: at a horizon, or where a resource has used up these
    /// steps.
    pub fn may_end(&self, steps: u64, end: Outcome) -> bool
        ensures may { (sys : System) (look : Look) → IsLookOf sys self.now.blocks.items self.now.steps.items look → IsTrue result → MayEnd sys steps look (ending_of end) }
        ensures other { (sys : System) (look : Look) → IsLookOf sys self.now.blocks.items self.now.steps.items look → IsEndOf sys (ending_of end) → result ≡ false → MayEnd sys steps look (ending_of end) → ⊥ }
    {
        match end {
            Outcome::End(_) => true,
            Outcome::Stop(mark) => {
                mark.reason == Reason::Steps
                    && self.has_used(steps, mark.tick, mark.resource)
                    && self.keep_steps(steps)
            }
        }
    }

    /// Whether no resource used more than these steps in a tick so far, of the greatest limit.
    fn keep_steps(&self, steps: u64) -> bool
        ensures kept { (sys : System) (look : Look) → IsLookOf sys self.now.blocks.items self.now.steps.items look → IsTrue result → KeepSteps sys steps look }
        ensures more { (sys : System) (look : Look) → IsLookOf sys self.now.blocks.items self.now.steps.items look → result ≡ false → KeepSteps sys steps look → ⊥ }
    {
        for own in self.steps.as_slice() {
            if !own.keeps(steps) {
                return false;
            }
        }
        true
    }

    /// The refusal of the next line, which is a stop for steps: too many were used before, or else this was found.
    fn refusal_for_steps(&self, ahead: &Ahead, finding: Finding) -> WalkError
        ensures excess { (n : ℕ) → ahead.now.excess ≡ Some n → result ≡ Refused (record { number = self.now.trail.reading.number; finding = Finding.Excess n }) }
        ensures none { ahead.now.excess ≡ None → result ≡ Refused (record { number = self.now.trail.reading.number; finding = finding }) }
        ensures number { Refuses (λ refusal. refusal.number ≡ self.now.trail.reading.number) result }
    {
        let Some(line) = ahead.excess else {
            return self.trail.reading.refusal(finding);
        };
        self.trail.reading.refusal(Finding::Excess { line })
    }

    /// The refusal of the last line, which ends the trace so.
    fn refusal_of_end(&self, ahead: &Ahead, end: Outcome) -> WalkError
        ensures excess { (n : ℕ) → ahead.now.excess ≡ Some n → IsStepsStop end → result ≡ Refused (record { number = self.now.trail.reading.number; finding = Finding.Excess n }) }
        ensures none { ahead.now.excess ≡ None → result ≡ Refused (record { number = self.now.trail.reading.number; finding = Finding.Runs }) }
        ensures other { (IsStepsStop end → ⊥) → result ≡ Refused (record { number = self.now.trail.reading.number; finding = Finding.Runs }) }
        ensures number { Refuses (λ refusal. refusal.number ≡ self.now.trail.reading.number) result }
    {
        match end {
            Outcome::Stop(mark) if mark.reason == Reason::Steps => {
                self.refusal_for_steps(ahead, Finding::Runs)
            }
            Outcome::Stop(_) | Outcome::End(_) => self.trail.reading.refusal(Finding::Runs),
        }
    }

    /// The refusal of the next line, where the event of a line was taken with the greatest limit. If that line is the stop
    /// of its resource for its steps, and too many were used before, then that is why, or else this was found.
    fn refusal_after(
        &self,
        fixed: &Fixed<'_, '_>,
        line: &Line,
        ahead: &Ahead,
        finding: Finding,
    ) -> WalkError
        ensures found { HasNames fixed.now → AreApart fixed.now → IsLineOf fixed.now line.now
            → BlamesSteps fixed.now line.now ahead.now.excess self.now.trail.reading finding result }
        ensures number { Refuses (λ refusal. refusal.number ≡ self.now.trail.reading.number) result }
    {
        if is_own_stop(fixed, self.trail.reading.line.as_slice(), line) {
            return self.refusal_for_steps(ahead, finding);
        }
        self.trail.reading.refusal(finding)
    }

    /// Whether a resource has used these steps in a tick, of the greatest limit.
    fn has_used(&self, steps: u64, tick: u64, resource: u32) -> bool
        ensures used { (sys : System) (look : Look) → IsLookOf sys self.now.blocks.items self.now.steps.items look → IsTrue result → left_at most tick (look.steps resource) + steps ≡ most }
        ensures other { (sys : System) (look : Look) → IsLookOf sys self.now.blocks.items self.now.steps.items look → resource < length sys.resource_names → result ≡ false → left_at most tick (look.steps resource) + steps ≡ most → ⊥ }
    {
        match self.steps.get(resource as usize) {
            Some(own) => own.left_at(MOST_STEPS, tick).checked_add(steps) == Some(MOST_STEPS),
            None => false,
        }
    }

    /// Leaves the resource of a key in its tick what is left of these steps, in place of what is left of the greatest
    /// limit. Answers `false` where more were used.
    fn limit(&mut self, steps: u64, key: &Key) -> bool
        requires { key.now.resource < length self.old.steps.items }
        ensures limited { IsTrue result → HasLimited steps key.now self.old.steps.items self.new.steps.items }
        ensures more { result ≡ false → steps ≤ most → (own : TickSteps) → slice_get self.old.steps.items key.now.resource ≡ Some own → left_at most key.now.tick (left_of own) + steps < most }
        ensures blocks { self.new.blocks ≡ self.old.blocks }
        ensures trail { self.new.trail ≡ self.old.trail }
        ensures shown { self.new.shown ≡ self.old.shown }
    {
        self.steps[key.resource as usize].limit(steps, key.tick)
    }

    /// Whether the taking of the event of a line may end by its steps: the line that was read ahead is that of such a
    /// stop, and no resource used more than these steps in a tick before.
    fn is_near(&self, fixed: &Fixed<'_, '_>, steps: u64, ahead: &Ahead, line: &Line) -> bool
        requires { line.now.instance < length self.now.blocks.items }
        ensures near { (look : Look) → AreKept fixed.now self.now.blocks.items look → IsTrue result → IsNear fixed.now line.now ahead.now.last.items }
        ensures kept { (look : Look) → LooksAs fixed.now self.now look → IsTrue result → KeepsSteps fixed.now steps look }
        ensures other { (look : Look) → LooksAs fixed.now self.now look → HasNames fixed.now → AreApart fixed.now → IsLineOf fixed.now line.now
            → result ≡ false → IsNotNear fixed.now line.now ahead.now.last.items ⊎ (KeepsSteps fixed.now steps look → ⊥) }
    {
        let Some(_chart) = chart_at(self.blocks.as_slice(), line.instance) else {
            return false;
        };
        if !is_own_stop(fixed, ahead.last.as_slice(), line) {
            return false;
        }
        self.keep_steps(steps)
    }

    /// Takes the event of the next line, and goes on in what was read ahead. Answers the reason that stops the
    /// resource, if one does.
    fn take_from_ahead(
        &mut self,
        fixed: &Fixed<'_, '_>,
        line: &Line,
        ahead: &mut Ahead,
    ) -> Result<Option<Reason>, WalkError>
        requires is { IsTextOf fixed.now line.now self.old.trail.reading.line.items }
        requires look { HasLook fixed.now self.old }
        ensures goes { (look : Look) (remaining : Option (List ℕ)) → LooksAs fixed.now self.old look
            → IfOk result (λ stop. WalkTakes fixed.now look line.now stop self.old self.new (unread ahead.old remaining) (unread ahead.new remaining)) }
        ensures alone { OnOk result (IsAlone self.old.trail.reading.line.items (Some ahead.old.text.items) → IsAlone self.new.trail.reading.line.items (Some ahead.new.text.items)) }
        ensures last { OnOk result (ahead.new.last ≡ ahead.old.last) }
        ensures excess { ahead.new.excess ≡ ahead.old.excess }
        ensures refused { (look : Look)
            → HasNames fixed.now → IsPlain fixed.now.form line.now.key → LooksAs fixed.now self.old look
            → IfErr result (Refuses (λ n. (rest : List ℕ) × TakingFails fixed.now look line.now self.old.trail.reading self.new.trail.reading (Some ahead.old.text.items) (Some rest) n)) }
        ensures next { OnOk result (IsNext fixed.now line.now.key.tick self.new.trail.reading) }
    {
        let mut rest = ahead.text.as_slice();
        let stop = self.take_event(fixed, line, &mut rest)?;
        let left = Vec::from_slice(fixed.alloc, rest)?;
        ahead.keep(left)?;
        Ok(stop)
    }

    /// Takes the event of the next line, whose resource has all steps of the greatest limit, and notes if it is the
    /// first after which its resource had used more than these in a tick.
    fn take_counting_steps(
        &mut self,
        fixed: &Fixed<'_, '_>,
        steps: u64,
        line: &Line,
        ahead: &mut Ahead,
    ) -> Result<Step, WalkError>
        requires is { IsTextOf fixed.now line.now self.old.trail.reading.line.items }
        requires look { HasLook fixed.now self.old }
        requires limit { fixed.now.limit ≡ most }
        ensures takes { (look : Look) (remaining : Option (List ℕ))
            → LooksAs fixed.now self.old look
            → IfOk result (LineGoes fixed.now steps look line.now self.old self.new ahead.new (unread ahead.old remaining) (unread ahead.new remaining)) }
        ensures stands { (takings : List Taking) (rest text : List ℕ) (rows : List run.Line) → StandsAt fixed.now takings self.old ahead.old.text.items ahead.old.last.items line.now rest text
            → Watches fixed.now steps takings ahead.old.excess
            → AreAhead fixed.now line.now rows ahead.old.text.items ahead.old.last.items rest → (IsNotNear fixed.now line.now ahead.old.last.items ⊎ (KeepsTakings fixed.now steps takings → ⊥))
            → GoesAfter fixed.now steps self.new ahead.new (Some rest) text result }
        ensures later { (takings : List Taking) (rest text : List ℕ) → StandsAt fixed.now takings self.old ahead.old.text.items ahead.old.last.items line.now rest text
            → IfErr result (Refuses (λ refusal. self.old.trail.reading.number ≤ refusal.number)) }
        ensures whole { IfOk result (λ step. step ≡ Step.CutOff → ⊥) }
    {
        let number = self.trail.reading.number;
        let stop = match self.take_from_ahead(fixed, line, ahead) {
            Ok(stop) => stop,
            Err(WalkError::Refused(refusal)) => {
                let Refusal { number: _, finding } = refusal;
                return Err(self.refusal_after(fixed, line, ahead, finding));
            }
            Err(error) => return Err(error),
        };
        let own = &self.steps[line.key.resource as usize];
        ahead.note(number, !own.keeps(steps));
        let Some(reason) = stop else {
            return Ok(Step::Taken);
        };
        // A stop for the steps is one of the limit that the trace has, which is judged by itself.
        if is_for_steps(reason) {
            return Err(self.refusal_after(fixed, line, ahead, Finding::Stops(reason)));
        }
        if !is_stop(&self.trail.reading.next, &line.key, reason) {
            return Err(self.refusal_after(fixed, line, ahead, Finding::Stops(reason)));
        }
        Ok(Step::Ended(stop_of(&line.key, reason)))
    }

    /// Takes the event of the next line, after which a resource must have used up these steps.
    fn take_to_last_step(
        &mut self,
        fixed: &Fixed<'_, '_>,
        steps: u64,
        line: &Line,
        ahead: &mut Ahead,
    ) -> Result<Step, WalkError>
        requires is { IsTextOf fixed.now line.now self.old.trail.reading.line.items }
        requires look { HasLook fixed.now self.old }
        requires kept { (look : Look) → LooksAs fixed.now self.old look → KeepsSteps fixed.now steps look }
        ensures takes { (look : Look) (remaining : Option (List ℕ))
            → LooksAs fixed.now self.old look
            → IfOk result (LineGoes fixed.now steps look line.now self.old self.new ahead.new (unread ahead.old remaining) (unread ahead.new remaining)) }
        ensures stands { (takings : List Taking) (rest text : List ℕ) (rows : List run.Line) → steps ≤ most → StandsAt fixed.now takings self.old ahead.old.text.items ahead.old.last.items line.now rest text
            → AreAhead fixed.now line.now rows ahead.old.text.items ahead.old.last.items rest → IsNear fixed.now line.now ahead.old.last.items
            → GoesAfter fixed.now steps self.new ahead.new (Some rest) text result }
        ensures later { (takings : List Taking) (rest text : List ℕ) → StandsAt fixed.now takings self.old ahead.old.text.items ahead.old.last.items line.now rest text
            → IfErr result (Refuses (λ refusal. self.old.trail.reading.number ≤ refusal.number)) }
        ensures whole { IfOk result (λ step. step ≡ Step.CutOff → ⊥) }
    {
        fixed.table.system.facts(); // for the prover: what holds of every accepted system
        if !self.limit(steps, &line.key) {
            return Err(self.trail.reading.refusal(Finding::NoStep));
        }
        let near = Fixed {
            alloc: fixed.alloc,
            table: fixed.table,
            form: fixed.form,
            limit: steps,
        };
        let stop = self.take_from_ahead(&near, line, ahead)?;
        if !is_stop(&self.trail.reading.next, &line.key, Reason::Steps) {
            return Err(self.trail.reading.refusal(found_by(stop, Finding::Unmade)));
        }
        if !self.has_run_out(steps, &line.key, stop) {
            return Err(self.trail.reading.refusal(found_by(stop, Finding::Runs)));
        }
        Ok(Step::Ended(stop_of(&line.key, Reason::Steps)))
    }

    /// Whether a resource has run out of steps in a taking that ended so, or just after it.
    fn has_run_out(&self, limit: u64, key: &Key, stop: Option<Reason>) -> bool
        ensures other { (sys : System) (look : Look) → IsLookOf sys self.now.blocks.items self.now.steps.items look → key.now.resource < length sys.resource_names → result ≡ false
            → ((stop ≡ Some Reason.Steps) ⊎ ((stop ≡ None) × (left_at limit key.now.tick (look.steps key.now.resource) ≡ 0))) → ⊥ }
        ensures out { (sys : System) (look : Look) → IsLookOf sys self.now.blocks.items self.now.steps.items look → IsTrue result
            → (stop ≡ Some Reason.Steps) ⊎ ((stop ≡ None) × (left_at limit key.now.tick (look.steps key.now.resource) ≡ 0)) }
    {
        if let Some(reason) = stop {
            return is_for_steps(reason);
        }
        match self.steps.as_slice().get(key.resource as usize) {
            Some(own) => own.left_at(limit, key.tick) == 0,
            None => false,
        }
    }

    /// Goes on with the line of an event, which is the next one.
    fn advance_by_event<R: BufRead>(
        &mut self,
        fixed: &Fixed<'_, '_>,
        terms: Terms,
        line: &Line,
        ahead: &mut Ahead,
        input: &mut R,
    ) -> Result<Step, WalkError>
        requires is { IsTextOf fixed.now line.now self.old.trail.reading.line.items }
        requires look { HasLook fixed.now self.old }
        requires limit { fixed.now.limit ≡ most }
        ensures goes { (first : Marks) (what : Selection) (known old new : Option (List ℕ))
            → (covered : HasCovered fixed.now first what terms.steps self.old known (unread ahead.old (R.remaining input.old)) old new) → last_tick 0 covered.gone.gone.lines ≤ line.now.key.tick
            → IfOk result (HasAdvanced fixed.now first what terms.steps self.new known (unread ahead.new (R.remaining input.new)) old new) }
        ensures takes { (look : Look)
            → LooksAs fixed.now self.old look
            → IfOk result (LineGoes fixed.now terms.steps look line.now self.old self.new ahead.new (unread ahead.old (R.remaining input.old)) (unread ahead.new (R.remaining input.new))) }
        ensures stands { (takings : List Taking) (rest text : List ℕ) → terms.steps ≤ most → R.remaining input.old ≡ Some rest
            → StandsAt fixed.now takings self.old ahead.old.text.items ahead.old.last.items line.now rest text
            → Watches fixed.now terms.steps takings ahead.old.excess
            → GoesAfter fixed.now terms.steps self.new ahead.new (R.remaining input.new) text result }
        ensures later { (takings : List Taking) (rest text : List ℕ) → R.remaining input.old ≡ Some rest
            → StandsAt fixed.now takings self.old ahead.old.text.items ahead.old.last.items line.now rest text
            → IfErr result (Refuses (λ refusal. self.old.trail.reading.number ≤ refusal.number)) }
        ensures uncut { (rest text : List ℕ) → terms.steps ≤ most → R.remaining input.old ≡ Some rest → StandsWholeAt fixed.now terms.steps self.old ahead.old line.now rest text
            → terms.cut ≡ Cut.Allowed → GoesWhole fixed.now terms.steps self.new ahead.new (R.remaining input.new) text result }
        ensures cut { IfOk result (λ step. step ≡ Step.CutOff → terms.cut ≡ Cut.Allowed) }
    {
        let is_cut = ahead.look(fixed, terms.cut, line, input)?;
        if is_cut {
            // The event is not taken, since the trace is cut off in its lines.
            let is_shown = self.shown.shows_untaken(line);
            let whole = self.trail.reading.line.as_slice();
            let text = &mut self.trail.page.text;
            put_line(text, whole, is_shown).and(put_line(text, ahead.text.as_slice(), is_shown))?;
            return Ok(Step::CutOff);
        }
        if self.is_near(fixed, terms.steps, ahead, line) {
            return self.take_to_last_step(fixed, terms.steps, line, ahead);
        }
        self.take_counting_steps(fixed, terms.steps, line, ahead)
    }

    /// Goes on by one event, or to the end of the trace. Lines are read ahead as far as that needs.
    ///
    /// # Errors
    /// `Refused` where no run gives the next line or one after it; `Read` and `Memory`.
    pub(crate) fn advance<R: BufRead>(
        &mut self,
        fixed: &Fixed<'_, '_>,
        terms: Terms,
        ahead: &mut Ahead,
        input: &mut R,
    ) -> Result<Step, WalkError>
        requires look { HasLook fixed.now self.old }
        requires next { (tick : ℕ) × IsNextLine fixed.now tick self.old.trail.reading }
        requires limit { fixed.now.limit ≡ most }
        ensures goes { (first : Marks) (what : Selection) (known old new : Option (List ℕ))
            → HasCovered fixed.now first what terms.steps self.old known (unread ahead.old (R.remaining input.old)) old new
            → IfOk result (HasAdvanced fixed.now first what terms.steps self.new known (unread ahead.new (R.remaining input.new)) old new) }
        ensures takes { (look : Look)
            → LooksAs fixed.now self.old look
            → IfOk result (StepGoes fixed.now terms.steps look self.old self.new ahead.new (unread ahead.old (R.remaining input.old)) (unread ahead.new (R.remaining input.new))) }
        ensures stands { (rest text : List ℕ) → terms.steps ≤ most → HasNames fixed.now → R.remaining input.old ≡ Some rest
            → StandsWell fixed.now terms.steps self.old ahead.old rest text → GoesAfter fixed.now terms.steps self.new ahead.new (R.remaining input.new) text result }
        ensures later { (rest text : List ℕ) → HasNames fixed.now → R.remaining input.old ≡ Some rest
            → StandsWell fixed.now terms.steps self.old ahead.old rest text → IfErr result (Refuses (λ refusal. self.old.trail.reading.number ≤ refusal.number)) }
        ensures uncut { (rest text : List ℕ) → terms.steps ≤ most → HasNames fixed.now → R.remaining input.old ≡ Some rest → StandsWhole fixed.now terms.steps self.old ahead.old rest text
            → terms.cut ≡ Cut.Allowed → GoesWhole fixed.now terms.steps self.new ahead.new (R.remaining input.new) text result }
        ensures cut { IfOk result (λ step. step ≡ Step.CutOff → terms.cut ≡ Cut.Allowed) }
    {
        fixed.table.system.facts(); // for the prover: what holds of every accepted system
        match mem::replace(&mut self.trail.reading.next, Next::Bad) {
            Next::Event(line) => match self.advance_by_event(fixed, terms, &line, ahead, input)? {
                // Nothing was taken, so it is the next line again.
                Step::CutOff => {
                    self.trail.reading.put_back(line);
                    Ok(Step::CutOff)
                }
                Step::Taken => Ok(Step::Taken),
                Step::Ended(end) => Ok(Step::Ended(end)),
            },
            Next::End(end) if self.may_end(terms.steps, end) => Ok(Step::Ended(end)),
            Next::End(end) => Err(self.refusal_of_end(ahead, end)),
            Next::Bad => Err(self.trail.reading.refusal(Finding::Line)),
        }
    }

    /// Adds the last line, which is the next one, and writes all that waits, if nothing is left after it.
    fn finish<R: BufRead, W: Write>(
        &mut self,
        ahead: &Ahead,
        input: &mut R,
        out: &mut W,
    ) -> Result<(), WalkError>
        ensures finishes { OnOk result (Finishes self.old (unread ahead.now (R.remaining input.old)) (W.contents out.old) (W.contents out.new)) }
        ensures marks { self.new.trail.marks ≡ self.old.trail.marks }
        ensures fault { OnErr result (SendsPart self.old (W.contents out.old) (W.contents out.new)) }
        ensures kept { IfErr result (Refuses (λ refusal. W.contents out.new ≡ W.contents out.old)) }
        ensures refused { IfErr result (Refuses (λ refusal. IsRefusalAfter self.old.trail.reading.number refusal × IfSome (unread ahead.now (R.remaining input.old)) (λ rest. 0 < length rest))) }
    {
        let line = self.trail.reading.line.as_slice();
        put_line(&mut self.trail.page.text, line, true)?;
        self.trail.reading.finish(ahead, input)?;
        self.trail.page.flush(out)?;
        Ok(())
    }

    /// Adds that the trace is cut off, and writes all that waits.
    pub(crate) fn finish_cut<W: Write>(&mut self, out: &mut W) -> Result<(), WalkError>
        ensures finishes { OnOk result (FinishesCut self.old (W.contents out.old) (W.contents out.new)) }
        ensures marks { self.new.trail.marks ≡ self.old.trail.marks }
        ensures fault { OnErr result (SendsCutPart self.old (W.contents out.old) (W.contents out.new)) }
        ensures none { IfErr result IsNoRefusal }
    {
        put_cut(&mut self.trail.page.text)?;
        self.trail.page.flush(out)?;
        Ok(())
    }

    /// Goes through a trace to its end. What is shown of an event is held back until the next one was taken.
    pub(crate) fn go<R: BufRead, W: Write>(
        &mut self,
        fixed: &Fixed<'_, '_>,
        terms: Terms,
        ahead: &mut Ahead,
        input: &mut R,
        out: &mut W,
    ) -> Result<Extent, WalkError>
        requires starts { (what : Selection) × Starts fixed.now what self.old }
        requires limit { fixed.now.limit ≡ most }
        requires empty { ahead.old.text.items ≡ [] }
        ensures whole { (what : Selection) (known : Option (List ℕ))
            → Starts fixed.now what self.old → Consumes known (R.remaining input.old) self.old.trail.reading.line.items
            → OnOk result (IfSome known (λ text. IsShownBy terms.cut fixed.now what terms.steps text (W.contents out.old) (W.contents out.new))) }
        ensures covered { (what : Selection) (known : Option (List ℕ))
            → Starts fixed.now what self.old → Consumes known (R.remaining input.old) self.old.trail.reading.line.items
            → IfOk result (λ extent. IfSome known (λ text. IsCoveredBy terms.cut fixed.now what terms.steps text self.old.trail.marks self.new.trail.marks extent)) }
        ensures fault { (what : Selection) (known : Option (List ℕ))
            → Starts fixed.now what self.old → Consumes known (R.remaining input.old) self.old.trail.reading.line.items
            → OnErr result (ShowsRead fixed.now what terms.steps known (W.contents out.old) (W.contents out.new)) }
        ensures refused { (what : Selection) (rest text : List ℕ)
            → terms.steps ≤ most → HasNames fixed.now → Starts fixed.now what self.old → R.remaining input.old ≡ Some rest → BeginsText fixed.now self.old.trail.reading.line.items ahead.old.excess rest text
            → IfErr result (Refuses (λ refusal. IsWrongFor fixed.now terms.steps refusal self.new.trail.reading.line.items text)) }
        ensures before { (what : Selection) (rest text : List ℕ)
            → terms.steps ≤ most → HasNames fixed.now → Starts fixed.now what self.old → R.remaining input.old ≡ Some rest → BeginsText fixed.now self.old.trail.reading.line.items ahead.old.excess rest text
            → IfErr result (Refuses (λ refusal. ShowsBefore fixed.now what refusal.number text (W.contents out.old) (W.contents out.new))) }
        ensures uncut { (what : Selection) (rest text : List ℕ)
            → terms.steps ≤ most → HasNames fixed.now → Starts fixed.now what self.old → R.remaining input.old ≡ Some rest → BeginsText fixed.now self.old.trail.reading.line.items ahead.old.excess rest text
            → terms.cut ≡ Cut.Allowed → is_unended self.old.trail.reading.line.items ≡ false → IfErr result (Refuses (λ refusal. IsUncut fixed.now refusal.number text)) }
    {
        for _ in 0..u64::MAX {
            let before = self.trail.page.text.len();
            match self.advance(fixed, terms, ahead, input)? {
                Step::Taken => flush_front(fixed.alloc, &mut self.trail.page, before, out)?,
                Step::Ended(_) => {
                    return self.finish(ahead, input, out).and(Ok(Extent::Whole));
                }
                Step::CutOff => return self.finish_cut(out).and(Ok(Extent::CutOff)),
            }
        }
        Err(WalkError::Read)
    }
}
