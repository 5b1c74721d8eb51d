//! What happens inside the blocks of a trace.

ghost use Rattle.std.specs.Prelude.{◌≡◌, ◌≤◌, ◌++◌, ◌∷◌, if◌then◌else◌, ℕ, List, Option, Some, None, IfErr, IfOk, IfSome, OnErr, OnOk, true};
ghost use Rattle.std.specs.Io.KnownBytes.{Consumes};
ghost use Rattle.std.specs.List.{list_any};
ghost use Rattle.fb_types.specs.Names.{Path};
ghost use Rattle.fb_types.specs.Text.{path_text};
ghost use Rattle.fb_wave.specs.Copying.{IsFirstLine};
ghost use Rattle.fb_wave.specs.Named.{is_digit};
ghost use Rattle.fb_wave.specs.Words.{is_word};
ghost use Rattle.fb_inspect.specs.Covering.{Covers};
ghost use Rattle.fb_inspect.specs.Selections as spec;
ghost use Rattle.fb_inspect.specs.Selections.{Selection, selection_of};
ghost use Rattle.fb_wave.specs.OfSystem.{HasNames, IsUncut};
ghost use Rattle.fb_inspect.specs.walk.Looks.{most};
ghost use Rattle.fb_inspect.specs.Refusals.{IsNoRefusal, OfRefusal, Refuses};
ghost use Rattle.fb_inspect.specs.walk.Walking.{AreUnused};
ghost use Rattle.fb_inspect.specs.OfSystem.{BeginsWalk, IsNamesFault, IsNext, IsPathFault, IsShownBy, IsWrongAt, IsWrongFor, ShowsBefore, ShowsFront, ShowsRead, AreShown};
ghost use Rattle.fb_inspect.specs.declared.error.InspectError.TheVariants.{Unknown};
ghost use Rattle.fb_inspect.specs.walk.OfWalk as of_walk;
ghost use Rattle.fb_inspect.specs.walk.OfWalk.{BeginsText, IsCoveredBy, Starts};

use crate::covering::Covered;
use crate::error::InspectError;
use crate::filter::{EventFilter, Shown};
use crate::refused::fault_names::instance_of;
use crate::refused::finding::RefusedLine;
use crate::walk::ahead::Ahead;
use crate::walk::blocks::opened_all;
use crate::walk::error::WalkError;
use crate::walk::reading::{Reading, judged, read_on};
use crate::walk::steps::TickSteps;
use crate::walk::trail::{Fixed, PassedLines, Trail};
use crate::walk::{Extent, Terms, Walk};
use fb_coverage::Marks;
use fb_system::System;
use fb_types::{Form, MOST_STEPS, Name};
use fb_wave::truncation::is_cut;
use fb_wave::words::after_front;
use fb_wave::{CurrentLine, Cut, Guess, Page, PortTable, SystemPorts, form_of};
use std::alloc::{AllocError, Global};
use std::io::{BufRead, Write};
use std::mem;

/// What must be shown of a trace.
#[derive(Clone, Copy)]
pub struct Inspection<'a> {
    /// The paths of the instances that are shown, each with its components; all are where there is none.
    pub only: &'a [Name],
    /// Which of their events are shown.
    pub events: EventFilter,
    /// What the trace may be.
    pub terms: Terms,
}

/// Whether nothing is left of a path, or a full stop and more.
fn is_cut_there(rest: &[u8]) -> bool
    ensures { result ≡ spec.is_cut_there rest.now }
{
    match rest {
        [] => true,
        [first, ..] => *first == b'.',
    }
}

/// Whether an instance at a path is one at another path, or a component of it.
fn is_within(path: &[u8], whole: &[u8]) -> bool
    ensures { result ≡ spec.is_within whole.now path.now }
{
    match after_front(path, whole) {
        Some(rest) => is_cut_there(rest),
        None => false,
    }
}

/// Whether an instance at a path is one at one of these paths, or a component of one.
fn is_one_of(path: &[u8], only: &[Name]) -> bool
    ensures { result ≡ list_any (λ v. spec.is_within v path.now) only.now }
{
    for whole in only {
        if is_within(path, whole.as_bytes()) {
            return true;
        }
    }
    false
}

/// Whether an instance at a path is shown.
fn is_shown(path: &[u8], only: &[Name]) -> bool
    ensures { (p : Path) → path.now ≡ path_text p → result ≡ spec.is_kept only.now p }
{
    if only.is_empty() {
        return true;
    }
    is_one_of(path, only)
}

/// For each instance whether it is shown.
fn shown_of(alloc: Global, system: &System, only: &[Name]) -> Result<Vec<bool>, AllocError>
    ensures { IfOk result (λ shown. AreShown system.now only.now shown.items) }
{
    let mut shown = Vec::new(alloc);
    system.facts(); // for the prover: what holds of every accepted system
    for index in 0..system.count() {
        let path = system.path(index as u32);
        shown.push(is_shown(path, only))?;
    }
    Ok(shown)
}

/// The steps that each of this many resources has used at the beginning: none.
fn steps_of(alloc: Global, resources: usize) -> Result<Vec<TickSteps>, AllocError>
    ensures { IfOk result (λ all. AreUnused resources all.items) }
{
    let mut all = Vec::new(alloc);
    for _ in 0..resources {
        all.push(TickSteps::new())?;
    }
    Ok(all)
}

/// Reads the first line of a trace, which says in which form the trace is.
pub(crate) fn first_reading<R: BufRead>(
    alloc: Global,
    table: &PortTable<'_>,
    input: &mut R,
) -> Result<(Form, Reading), WalkError>
    ensures read { IfOk result (λ r. Consumes (R.remaining input.old) (R.remaining input.new) r.1.line.items) }
    ensures first { IfOk result (λ r. IsFirstLine r.1.line.items (R.remaining input.old)) }
    ensures form { IfOk result (λ r. (word rest : List ℕ) (b : ℕ) → is_word word ≡ true → r.1.line.items ≡ word ++ 32 ∷ (b ∷ rest)
        → r.0 ≡ (if is_digit b then Form.Two else Form.One)) }
    ensures next { IfOk result (λ r. IsNext table.now.system.now r.0 0 r.1.line.items r.1.next) }
    ensures number { IfOk result (λ r. r.1.number ≡ 1) }
    ensures fault { IfErr result IsNoRefusal }
{
    let mut line = Vec::new(alloc);
    read_on(input, &mut line)?;
    let form = form_of(line.as_slice());
    let mut guess = Guess::new(alloc, table)?;
    let next = judged(alloc, table, &mut guess, form, 0, line.as_slice())?;
    let reading = Reading {
        guess,
        number: 1,
        line,
        next,
        tick: 0,
        after_end: false,
    };
    Ok((form, reading))
}

/// A walk at the first line of a trace.
pub fn begun(
    alloc: Global,
    system: &System,
    only: &[Name],
    events: EventFilter,
    marks: Marks,
    reading: Reading,
) -> Result<Walk, AllocError>
    ensures { IfOk result (λ walk. BeginsWalk system.now (record { only = only.now; events = events }) marks reading walk) }
{
    let blocks = opened_all(alloc, system)?;
    let steps = steps_of(alloc, system.resources())?;
    let instances = shown_of(alloc, system, only)?;
    let trail = Trail {
        reading,
        page: Page::new(alloc),
        is_shown: true,
        marks,
        passed: PassedLines {
            lines: Vec::new(alloc),
            are_kept: false,
        },
    };
    Ok(Walk {
        blocks,
        steps,
        trail,
        shown: Shown { instances, events },
    })
}

/// Lends the line at which a walk has refused a trace.
pub fn lend(alloc: Global, form: Form, trail: &mut Trail, refused: &mut RefusedLine)
    ensures marks { trail.new.marks ≡ trail.old.marks }
    ensures line { refused.new.current ≡ record { text = trail.old.reading.line; form = form; tick = trail.old.reading.tick; after_end = trail.old.reading.after_end } }
{
    refused.current = CurrentLine {
        text: mem::replace(&mut trail.reading.line, Vec::new(alloc)),
        form,
        tick: trail.reading.tick,
        after_end: trail.reading.after_end,
    };
}

/// Goes through a trace from its first line, which the walk has read: to its end, or as far as it goes if it is cut off.
fn go_through<R: BufRead, W: Write>(
    walk: &mut Walk,
    fixed: &Fixed<'_, '_>,
    terms: Terms,
    refused: &mut RefusedLine,
    input: &mut R,
    out: &mut W,
) -> Result<Extent, WalkError>
    requires starts { (what : Selection) × Starts fixed.now what walk.old }
    requires limit { fixed.now.limit ≡ most }
    ensures whole { (what : Selection) (known : Option (List ℕ))
        → Starts fixed.now what walk.old → Consumes known (R.remaining input.old) walk.old.trail.reading.line.items → IsFirstLine walk.old.trail.reading.line.items known
        → OnOk result (IfSome known (λ text. of_walk.IsShownBy terms.cut fixed.now what terms.steps text (W.contents out.old) (W.contents out.new))) }
    ensures covered { (what : Selection) (known : Option (List ℕ))
        → Starts fixed.now what walk.old → Consumes known (R.remaining input.old) walk.old.trail.reading.line.items → IsFirstLine walk.old.trail.reading.line.items known
        → IfOk result (λ extent. IfSome known (λ text. IsCoveredBy terms.cut fixed.now what terms.steps text walk.old.trail.marks walk.new.trail.marks extent)) }
    ensures fault { (what : Selection) (known : Option (List ℕ))
        → Starts fixed.now what walk.old → Consumes known (R.remaining input.old) walk.old.trail.reading.line.items → IsFirstLine walk.old.trail.reading.line.items known
        → OnErr result (of_walk.ShowsRead fixed.now what terms.steps known (W.contents out.old) (W.contents out.new)) }
    ensures refused { (what : Selection) (rest text : List ℕ)
        → terms.steps ≤ most → of_walk.HasNames fixed.now → Starts fixed.now what walk.old → R.remaining input.old ≡ Some rest → BeginsText fixed.now walk.old.trail.reading.line.items None rest text
        → IfErr result (Refuses (λ refusal. of_walk.IsWrongFor fixed.now terms.steps refusal refused.new.current.text.items text)) }
    ensures before { (what : Selection) (rest text : List ℕ)
        → terms.steps ≤ most → of_walk.HasNames fixed.now → Starts fixed.now what walk.old → R.remaining input.old ≡ Some rest → BeginsText fixed.now walk.old.trail.reading.line.items None rest text
        → IfErr result (Refuses (λ refusal. of_walk.ShowsBefore fixed.now what refusal.number text (W.contents out.old) (W.contents out.new))) }
    ensures uncut { (what : Selection) (rest text : List ℕ)
        → terms.steps ≤ most → of_walk.HasNames fixed.now → Starts fixed.now what walk.old → R.remaining input.old ≡ Some rest → BeginsText fixed.now walk.old.trail.reading.line.items None rest text
        → terms.cut ≡ Cut.Allowed → IfErr result (Refuses (λ refusal. of_walk.IsUncut fixed.now refusal.number text)) }
{
    if is_cut(terms.cut, walk.trail.reading.line.as_slice()) {
        return walk.finish_cut(out).and(Ok(Extent::CutOff));
    }
    let mut ahead = Ahead::new(fixed.alloc, fixed.table)?;
    let gone = walk.go(fixed, terms, &mut ahead, input, out);
    lend(fixed.alloc, fixed.form, &mut walk.trail, refused);
    gone
}

/// Reads a trace of the system of a table, writes it with what happens inside the blocks between its lines, and marks
/// what it covers next to what others covered.
fn inspect_with<R: BufRead, W: Write>(
    alloc: Global,
    table: &PortTable<'_>,
    inspection: Inspection<'_>,
    marks: Marks,
    refused: &mut RefusedLine,
    input: &mut R,
    out: &mut W,
) -> Result<Covered, WalkError>
    ensures whole { OnOk result (IfSome (R.remaining input.old) (λ text. IsShownBy inspection.entry.terms.cut table.now.system.now (selection_of inspection.entry) inspection.entry.terms.steps text (W.contents out.old) (W.contents out.new))) }
    ensures covered { IfOk result (λ covered. IfSome (R.remaining input.old) (λ text. Covers inspection.entry.terms.cut table.now.system.now inspection.entry.terms.steps text marks covered.marks covered.extent)) }
    ensures fault { OnErr result (ShowsRead table.now.system.now (selection_of inspection.entry) inspection.entry.terms.steps (R.remaining input.old) (W.contents out.old) (W.contents out.new)) }
    ensures refused { HasNames table.now.system.now → inspection.entry.terms.steps ≤ most
        → IfErr result (Refuses (λ refusal. IfSome (R.remaining input.old) (IsWrongFor table.now.system.now inspection.entry.terms.steps refusal refused.new.current.text.items))) }
    ensures before { HasNames table.now.system.now → inspection.entry.terms.steps ≤ most
        → IfErr result (Refuses (λ refusal. IfSome (R.remaining input.old) (λ text. ShowsBefore table.now.system.now (selection_of inspection.entry) refusal.number text (W.contents out.old) (W.contents out.new)))) }
    ensures uncut { HasNames table.now.system.now → inspection.entry.terms.steps ≤ most → inspection.entry.terms.cut ≡ Cut.Allowed
        → IfErr result (Refuses (λ refusal. IfSome (R.remaining input.old) (IsUncut table.now.system.now refusal.number))) }
{
    table.system.facts(); // for the prover: what holds of every accepted system
    let (form, reading) = first_reading(alloc, table, input)?;
    let mut walk = begun(
        alloc,
        table.system,
        inspection.only,
        inspection.events,
        marks,
        reading,
    )?;
    let fixed = Fixed {
        alloc,
        table,
        form,
        limit: MOST_STEPS,
    };
    let extent = go_through(&mut walk, &fixed, inspection.terms, refused, input, out)?;
    let marks = mem::replace(&mut walk.trail.marks, Marks::none(alloc));
    Ok(Covered { marks, extent })
}

/// Reads a trace of the system, writes it with what happens inside the blocks between its lines, and marks what it
/// covers next to what others covered.
///
/// # Errors
/// As those of `inspect`. The marks are lost then.
pub(crate) fn inspect_and_mark<R: BufRead, W: Write>(
    alloc: Global,
    system: &System,
    inspection: Inspection<'_>,
    marks: Marks,
    refused: &mut RefusedLine,
    input: &mut R,
    out: &mut W,
) -> Result<Covered, InspectError>
    ensures whole { OnOk result (IfSome (R.remaining input.old) (λ text. IsShownBy inspection.entry.terms.cut system.now (selection_of inspection.entry) inspection.entry.terms.steps text (W.contents out.old) (W.contents out.new))) }
    ensures covered { IfOk result (λ covered. IfSome (R.remaining input.old) (λ text. Covers inspection.entry.terms.cut system.now inspection.entry.terms.steps text marks covered.marks covered.extent)) }
    ensures fault { OnErr result (ShowsRead system.now (selection_of inspection.entry) inspection.entry.terms.steps (R.remaining input.old) (W.contents out.old) (W.contents out.new)) }
    ensures refused { HasNames system.now → inspection.entry.terms.steps ≤ most
        → IfErr result (OfRefusal (λ n. IfSome (R.remaining input.old) (IsWrongAt system.now inspection.entry.terms.steps n))) }
    ensures found { HasNames system.now → inspection.entry.terms.steps ≤ most
        → IfErr result (OfRefusal (λ n. IfSome (R.remaining input.old) (IsWrongFor system.now inspection.entry.terms.steps (record { number = n; finding = refused.new.finding }) refused.new.current.text.items))) }
    ensures before { HasNames system.now → inspection.entry.terms.steps ≤ most
        → IfErr result (OfRefusal (λ n. IfSome (R.remaining input.old) (λ text. ShowsBefore system.now (selection_of inspection.entry) n text (W.contents out.old) (W.contents out.new)))) }
    ensures uncut { HasNames system.now → inspection.entry.terms.steps ≤ most → inspection.entry.terms.cut ≡ Cut.Allowed
        → IfErr result (OfRefusal (λ n. IfSome (R.remaining input.old) (IsUncut system.now n))) }
    ensures names { IfErr result (IsNamesFault system.now) }
    ensures paths { IfErr result (λ e. e ≡ Unknown → ⊥) }
{
    let ports = SystemPorts::of(alloc, system)?;
    let Some(table) = PortTable::of(alloc, &ports)? else {
        return Err(InspectError::Names);
    };
    match inspect_with(alloc, &table, inspection, marks, refused, input, out) {
        Ok(covered) => Ok(covered),
        Err(error) => Err(refused.keep(error)),
    }
}

/// Reads a trace of the system, in either form, and writes it with what happens inside the blocks between its lines.
/// Each line between them begins with two spaces.
///
/// If a trace ends where a resource has used up its steps, the walk uses the limit of the terms, otherwise the greatest
/// that a run may have. What is written of a trace that is cut off ends in a line that says so, if the terms allow it.
/// Before that, lines that may be only a part of what an event causes are written as they are.
///
/// All memory is that of the blocks, of a line, of a page, of the lines that an event causes, and of what is shown of
/// it and of the event before it.
///
/// # Errors
/// `Refused` with the number of the first line that shows that no run has the trace: it is no line of the system, or
/// not what the blocks emit there. That line is lent then. Sampled values and the ticks of events are taken as they
/// are. `Unknown` if no instance has one of the paths that must be shown, and `Names` if lines do not distinguish
/// the ports of the system. No trace is refused because it is cut off, if the terms allow that.
///
/// What was written before a refusal begins what is written of each whole trace with the lines before the refused one
/// (clause `before`, `laws::lines_are_shown_alike`). After another error it is a beginning of what is shown of the first
/// events of the trace, each taken as a whole. If the end of the trace was read, it may go on with a part of that.
pub fn inspect<R: BufRead, W: Write>(
    alloc: Global,
    system: &System,
    inspection: Inspection<'_>,
    refused: &mut RefusedLine,
    input: &mut R,
    out: &mut W,
) -> Result<(), InspectError>
    ensures whole { OnOk result (IfSome (R.remaining input.old) (λ text. IsShownBy inspection.entry.terms.cut system.now (selection_of inspection.entry) inspection.entry.terms.steps text (W.contents out.old) (W.contents out.new))) }
    ensures fault { OnErr result (ShowsFront system.now (selection_of inspection.entry) inspection.entry.terms.steps (W.contents out.old) (W.contents out.new)) }
    ensures read { OnErr result (ShowsRead system.now (selection_of inspection.entry) inspection.entry.terms.steps (R.remaining input.old) (W.contents out.old) (W.contents out.new)) }
    ensures refused { HasNames system.now → inspection.entry.terms.steps ≤ most
        → IfErr result (OfRefusal (λ n. IfSome (R.remaining input.old) (IsWrongAt system.now inspection.entry.terms.steps n))) }
    ensures found { HasNames system.now → inspection.entry.terms.steps ≤ most
        → IfErr result (OfRefusal (λ n. IfSome (R.remaining input.old) (IsWrongFor system.now inspection.entry.terms.steps (record { number = n; finding = refused.new.finding }) refused.new.current.text.items))) }
    ensures before { HasNames system.now → inspection.entry.terms.steps ≤ most
        → IfErr result (OfRefusal (λ n. IfSome (R.remaining input.old) (λ text. ShowsBefore system.now (selection_of inspection.entry) n text (W.contents out.old) (W.contents out.new)))) }
    ensures uncut { HasNames system.now → inspection.entry.terms.steps ≤ most → inspection.entry.terms.cut ≡ Cut.Allowed
        → IfErr result (OfRefusal (λ n. IfSome (R.remaining input.old) (IsUncut system.now n))) }
    ensures names { IfErr result (IsNamesFault system.now) }
    ensures paths { IfErr result (IsPathFault system.now inspection.entry.only.now) }
{
    for path in inspection.only {
        if instance_of(system, path.as_bytes()).is_none() {
            return Err(InspectError::Unknown);
        }
    }
    let marks = Marks::none(alloc);
    inspect_and_mark(alloc, system, inspection, marks, refused, input, out)?;
    Ok(())
}
