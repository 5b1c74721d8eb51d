//! Where a run stops, which is reported after the run if that is asked for.

ghost use Rattle.std.specs.Prelude.{◌≡◌, ◌^◌, ◌≤◌, ◌++◌, ℕ, IsTrue, List, Option, map, IfNone, IfOk, IfSome, string_bytes};
ghost use Rattle.fb_sim.specs.Reports.{Hears};
ghost use Rattle.fb_stop.specs.Shown.{IsStopShown};
ghost use Rattle.fbsim_command.specs.Notes.{noted_of};
ghost use Rattle.fbsim_command.specs.Stops as spec;
ghost use Rattle.fbsim_command.specs.Stops.{IsNoteAtStop, IsPositionPlace, IsStopPlace, IsUnshownStop, NotesRun, NotesStop, ReportsStop, SaysStop};
ghost use Rattle.fbsim_command.specs.Texts.{given_of, lines_of};

use crate::failure::Failure;
use crate::lint::report_lines;
use crate::opening::open_accepted;
use crate::own_lines::note_at;
use crate::statuses::Done;
use crate::texts::Texts;
use fb_read_positions::{Place, excerpt, place_at, place_between};
use fb_sim::discard;
use fb_stop::{FoundStop, Shown, find_stop, position_of, shown_of, spent_words, words_of};
use fb_system::System;
use fb_types::{LATEST_TICK, MOST_STEPS};
use fbsim_line::{Action, Task};
use std::alloc::{AllocError, Global};
use std::io::Write;

/// Where the position of a stop is in the text that declares the system.
fn place_of_position(
    alloc: Global,
    declaration: &[u8],
    system: &System,
    stop: &FoundStop,
) -> Result<Option<Place>, AllocError>
    ensures { IfOk result (IsPositionPlace declaration.now system.now stop.now) }
{
    match position_of(system, stop) {
        Some(position) => place_at(alloc, declaration, system.library(), position),
        None => Ok(None),
    }
}

/// Where a stop is shown in the text that declares the system, if it has a place there.
fn place_of(
    alloc: Global,
    declaration: &[u8],
    system: &System,
    stop: &FoundStop,
    shown: Option<Shown>,
) -> Result<Option<Place>, AllocError>
    requires shown { IfSome shown (IsStopShown declaration.now system.now stop.now) }
    requires unshown { IfNone shown (IsUnshownStop declaration.now system.now stop.now) }
    ensures { IfOk result (IsStopPlace declaration.now system.now stop.now) }
{
    match shown {
        // The place of the operator of an operation.
        Some(shown) => {
            let operator = shown.operator;
            Ok(place_between(declaration, operator.start, operator.end))
        }
        None => place_of_position(alloc, declaration, system, stop),
    }
}

/// What is the matter at a stop: its words, the source line with a mark, if it has a place, and where the steps ran
/// out, how they were used.
fn matter_of(
    alloc: Global,
    declaration: &[u8],
    at: Option<Place>,
    words: &str,
    spent: &str,
) -> Result<String, AllocError> {
    let Some(at) = at else {
        return Ok(format!(in alloc; "{words}{spent}")?);
    };
    let source = excerpt(alloc, declaration, at)?;
    Ok(format!(in alloc; "{words}\n{source}{spent}")?)
}

/// The note of what is the matter, with its place, if it has one.
fn note_with(
    alloc: Global,
    types: &[&str],
    own: &str,
    texts: &Texts,
    at: Option<Place>,
    matter: String,
) -> Result<String, AllocError>
    ensures { IfOk result (λ note. IsNoteAtStop (map (λ t. t.now) types.now) own.now (lines_of texts.now) at (string_bytes matter) (string_bytes note)) }
{
    match at {
        Some(at) => {
            let lines = texts.lines.as_slice();
            note_at(alloc, types, own, lines, at, matter.as_str())
        }
        None => Ok(matter),
    }
}

/// The note of the stop of a system, if it stops below the horizon: its place, its words, the source line with a mark,
/// and where the steps ran out, how they were used.
fn note_in(
    alloc: Global,
    types: &[&str],
    own: &str,
    texts: &Texts,
    system: &System,
    horizon: u64,
    steps: u64,
) -> Result<Option<String>, AllocError>
    requires early { horizon ≤ 10 ^ 12 }
    requires few { steps ≤ 10 ^ 7 }
    ensures { IfOk (noted_of result) (NotesRun (map (λ t. t.now) types.now) own.now (lines_of texts.now) (given_of texts.now) system.now horizon steps) }
{
    match find_stop(alloc, system, horizon, steps)? {
        Some(stop) => {
            let declaration = texts.declaration.as_slice();
            let shown = shown_of(alloc, declaration, system, &stop)?;
            let at = place_of(alloc, declaration, system, &stop, shown)?;
            let words = words_of(alloc, system, &stop, declaration, shown)?;
            let spent = spent_words(alloc, system, horizon, steps, &stop)?;
            let matter = matter_of(alloc, declaration, at, words.as_str(), spent.as_str())?;
            Ok(Some(note_with(alloc, types, own, texts, at, matter)?))
        }
        None => Ok(None),
    }
}

/// The note of the stop of a run, if it stops below the horizon.
fn note_of_stop(
    alloc: Global,
    types: &[&str],
    own: &str,
    texts: &Texts,
    horizon: u64,
    steps: u64,
) -> Result<Option<String>, AllocError>
    ensures { IfOk (noted_of result) (NotesStop (map (λ t. t.now) types.now) own.now (lines_of texts.now) (given_of texts.now) horizon steps) }
{
    if horizon > LATEST_TICK || steps > MOST_STEPS {
        return Ok(None);
    }
    let Some(system) = open_accepted(alloc, &texts.inputs())? else {
        return Ok(None);
    };
    let note = note_in(alloc, types, own, texts, &system, horizon, steps);
    // Dropped by one call: the end of its scope would prove the drop part by part.
    discard(system);
    note
}

/// Whether a run has stopped.
fn has_stopped(end: &Result<Done, Failure>) -> bool
    ensures { result ≡ spec.has_stopped end.now }
{
    match end {
        Ok(Done::Stopped) => true,
        _ => false,
    }
}

/// The horizon and the steps of a run.
fn run_of(action: Action) -> Option<(u64, u64)>
    ensures { result ≡ spec.run_of action }
{
    match action {
        Action::Run { horizon, steps, .. } => Some((horizon, steps)),
        Action::Check { .. } => None,
    }
}

/// The horizon and the steps of a run that stopped, if it is asked where.
fn asked(task: &Task<'_>, end: &Result<Done, Failure>) -> Option<(u64, u64)>
    ensures { result ≡ spec.asked_run task.now end.now }
{
    if task.why && has_stopped(end) {
        run_of(task.action)
    } else {
        None
    }
}

/// The line of the note of the stop of a run, if it stops below the horizon.
fn stop_line(
    alloc: Global,
    types: &[&str],
    own: &str,
    texts: &Texts,
    horizon: u64,
    steps: u64,
) -> Result<Option<String>, AllocError>
    ensures { IfOk (noted_of result) (SaysStop (map (λ t. t.now) types.now) own.now (lines_of texts.now) (given_of texts.now) horizon steps) }
{
    match note_of_stop(alloc, types, own, texts, horizon, steps)? {
        Some(note) => Ok(Some(format!(in alloc; "{note}\n")?)),
        None => Ok(None),
    }
}

/// Reports where a run stopped, if that is asked for, after other reports, of which standard error took all or not. It
/// says whether it took all of them and this one, for which there may be no memory.
pub(crate) fn report_stop_after<E: Write>(
    alloc: Global,
    types: &[&str],
    task: &Task<'_>,
    end: &Result<Done, Failure>,
    texts: &Texts,
    err: &mut E,
    is_heard: bool,
) -> bool
    ensures all { IsTrue result → IsTrue is_heard }
    ensures reported { (report : List ℕ) × ReportsStop (map (λ t. t.now) types.now) task.now (lines_of texts.now) (given_of texts.now) end.now result report
        × ((old : Option (List ℕ)) (first : List ℕ) → Hears is_heard old (E.contents err.old) first → Hears result old (E.contents err.new) (first ++ report)) }
{
    if !is_heard {
        return false;
    }
    let Some((horizon, steps)) = asked(task, end) else {
        return true;
    };
    match stop_line(alloc, types, task.declaration, texts, horizon, steps) {
        Ok(Some(line)) => report_lines(err, line.as_bytes()),
        Ok(None) => true,
        Err(_) => false,
    }
}
