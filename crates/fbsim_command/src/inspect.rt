//! What happens inside the blocks of a trace.

ghost use Rattle.std.specs.Prelude.{◌≡◌, ◌≤◌, IfErr, IfOk, IfSome, OnErr, OnOk, map};
ghost use Rattle.fb_inspect.specs.OfSystem.{IsPathFault, IsShownBy, ShowsBefore, ShowsRead};
ghost use Rattle.fb_inspect.specs.Refusals.{OfRefusal};
ghost use Rattle.fb_inspect.specs.walk.Looks.{most};
ghost use Rattle.fb_inspect.specs.declared.error.InspectError.TheVariants as error;
ghost use Rattle.fb_wave.specs.OfSystem.{HasNames};
ghost use Rattle.fbsim_command.specs.WrongLines.{IsWrongIn};
ghost use Rattle.fbsim_command.specs.InsideNotes.{IsFoundAt, NotesInside};
ghost use Rattle.fbsim_command.specs.Notes.{noted_of};
ghost use Rattle.fbsim_command.specs.Inspecting.{Inspects, NotesPaths, SaysPath, SaysPaths, SaysPathsOf, ShowsInsides, cut_of, events_of, selection_of, upper};

use crate::failure::{Failure, failure_of_inspection};
use crate::inside_notes::note_of_gone;
use crate::known::instance_at;
use crate::line_notes::note_of_wave;
use crate::near::nearest_path;
use crate::notes::{note_of_file, note_of_trace_end, note_where_asked, one_of};
use crate::opening::{open_accepted, open_inputs};
use crate::own_lines::end_with;
use crate::sources::{Source, Streams};
use crate::statuses::Done;
use crate::texts::{cut_of, files_of, read_files};
use crate::unknown_name::{is_unknown, unknown_line};
use fb_inspect::{EventFilter, InspectError, Inspection, RefusedLine, Terms};
use fb_sim::{Inputs, discard};
use fb_system::System;
use fb_types::Name;
use fbsim_line::Inspect;
use std::alloc::{AllocError, Global};
use std::io::{BufRead, Write};

/// A path in upper case.
pub(crate) fn path_of(alloc: Global, bytes: &[u8]) -> Result<Name, AllocError>
    ensures { IfOk result (λ path. path ≡ upper bytes.now) }
{
    let mut path = Vec::with_capacity(alloc, bytes.len())?;
    for byte in bytes {
        path.push_reserved(byte.to_ascii_uppercase());
    }
    Name::from_slice(alloc, path.as_slice())
}

fn paths_of(alloc: Global, texts: &[&str]) -> Result<Vec<Name>, AllocError>
    ensures { IfOk result (λ paths. paths.items ≡ map (λ t. upper t.now) texts.now) }
{
    let mut names = Vec::with_capacity(alloc, texts.len())?;
    for text in texts {
        names.push_reserved(path_of(alloc, text.as_bytes())?);
    }
    Ok(names)
}

/// The events that a call shows.
fn filter_of(inspect: &Inspect<'_>) -> EventFilter
    ensures { result ≡ events_of inspect.now }
{
    EventFilter {
        from: inspect.from.unwrap_or(0),
        to: inspect.to,
        are_lost: inspect.lost,
    }
}

/// Goes through a trace of a system that has names.
fn go<R: BufRead, W: Write>(
    alloc: Global,
    system: &System,
    inspect: &Inspect<'_>,
    refused: &mut RefusedLine,
    trace: &mut R,
    out: &mut W,
) -> Result<(), InspectError>
    requires { HasNames system.now }
    ensures whole { OnOk result (IfSome (R.remaining trace.old) (λ text. IsShownBy (cut_of inspect.now) system.now (selection_of inspect.now) inspect.now.steps text (W.contents out.old) (W.contents out.new))) }
    ensures fault { OnErr result (ShowsRead system.now (selection_of inspect.now) inspect.now.steps (R.remaining trace.old) (W.contents out.old) (W.contents out.new)) }
    ensures refused { IfErr result (OfRefusal (IsWrongIn (cut_of inspect.now) system.now inspect.now.steps (R.remaining trace.old))) }
    ensures before { IfErr result (OfRefusal (λ line. inspect.now.steps ≤ most → IfSome (R.remaining trace.old) (λ text. ShowsBefore system.now (selection_of inspect.now) line text (W.contents out.old) (W.contents out.new)))) }
    ensures names { IfErr result (λ e. e ≡ error.Names → ⊥) }
    ensures paths { IfErr result (IsPathFault system.now (selection_of inspect.now).only) }
    ensures found { IfErr result (OfRefusal (λ line. IsFoundAt system.now inspect.now.steps (R.remaining trace.old) line refused.new)) }
{
    let only = paths_of(alloc, inspect.only.as_slice())?;
    let inspection = Inspection {
        only: only.as_slice(),
        events: filter_of(inspect),
        terms: Terms {
            cut: cut_of(inspect.is_cut),
            steps: inspect.steps,
        },
    };
    fb_inspect::inspect(alloc, system, inspection, refused, trace, out)
}

/// Reads a trace of what is declared, and writes it with what happens inside its blocks. It says how that ends, and
/// what is reported of the line at which the trace is refused.
fn write_inspected<R: BufRead, W: Write>(
    alloc: Global,
    inputs: &Inputs<'_>,
    inspect: &Inspect<'_>,
    trace: &mut R,
    out: &mut W,
) -> (Result<Done, Failure>, Result<Option<String>, AllocError>)
    ensures inspected { Inspects inputs.now inspect.now (R.remaining trace.old) (W.contents out.old) (W.contents out.new) result.0 }
    ensures noted { IfOk (noted_of result.1) (NotesInside inspect.now.why inputs.now inspect.now.steps (R.remaining trace.old) result.0) }
{
    let system = match open_inputs(alloc, inputs) {
        Ok(system) => system,
        Err(failure) => return (Err(failure), Ok(None)),
    };
    let mut refused = RefusedLine::new(alloc);
    let gone = go(alloc, &system, inspect, &mut refused, trace, out);
    let note = note_of_gone(alloc, inspect.why, &system, &gone, &refused);
    // Dropped by one call: the end of its scope would prove the drop part by part.
    discard(system);
    match gone {
        Ok(()) => (Ok(Done::Shown), note),
        Err(error) => (Err(failure_of_inspection(error)), note),
    }
}

/// The line for a path that no instance has: it names the nearest path. There is none for the path of an instance.
fn path_line(alloc: Global, system: &System, text: &str) -> Result<Option<String>, AllocError>
    ensures { IfOk (noted_of result) (SaysPath system.now text.now) }
{
    let path = path_of(alloc, text.as_bytes())?;
    if instance_at(system, path.as_bytes()).is_some() {
        return Ok(None);
    }
    let near = nearest_path(alloc, system, path.as_bytes())?;
    Ok(Some(unknown_line(alloc, "only", "instance", text, near)?))
}

/// The line for the first of the paths that no instance has, if there is one.
fn first_line(alloc: Global, system: &System, texts: &[&str]) -> Result<Option<String>, AllocError>
    ensures { IfOk (noted_of result) (SaysPaths system.now (map (λ t. t.now) texts.now)) }
{
    for text in texts {
        if let Some(line) = path_line(alloc, system, text)? {
            return Ok(Some(line));
        }
    }
    Ok(None)
}

/// The same for what is declared. There is none where the inputs are refused.
fn unknown_path(
    alloc: Global,
    inputs: &Inputs<'_>,
    texts: &[&str],
) -> Result<Option<String>, AllocError>
    ensures { IfOk (noted_of result) (SaysPathsOf inputs.now (map (λ t. t.now) texts.now)) }
{
    let Some(system) = open_accepted(alloc, inputs)? else {
        return Ok(None);
    };
    let line = first_line(alloc, &system, texts);
    // Dropped by one call: the end of its scope would prove the drop part by part.
    discard(system);
    line
}

/// The note to a call that ends so: the line for an unknown path, where it is asked for.
fn note_of_path(
    alloc: Global,
    inspect: &Inspect<'_>,
    inputs: &Inputs<'_>,
    end: &Result<Done, Failure>,
) -> Result<Option<String>, AllocError>
    ensures { IfOk (noted_of result) (NotesPaths inspect.now inputs.now end.now) }
{
    if inspect.why && is_unknown(end) {
        unknown_path(alloc, inputs, inspect.only.as_slice())
    } else {
        Ok(None)
    }
}

/// Reads the files of a call and its trace, and writes the trace with what happens inside its blocks. It says how that
/// ends, and what is reported after the line of a failure.
pub(crate) fn show_insides<S: Source + Streams, W: Write>(
    alloc: Global,
    types: &[&str],
    inspect: &Inspect<'_>,
    source: &mut S,
    out: &mut W,
) -> (Result<Done, Failure>, Result<Option<String>, AllocError>)
    ensures { ShowsInsides S.gives S.opens source.old source.new (map (λ t. t.now) types.now) inspect.now (W.contents out.old) (W.contents out.new) result.0 (noted_of result.1) }
{
    let task = files_of(inspect.declaration, inspect.deploy, inspect.why);
    let texts = match read_files(alloc, types, &task, source) {
        Ok(texts) => texts,
        Err(unread) => {
            let note = note_of_file(alloc, types, &task, unread);
            return (Err(Failure::from(unread.fault)), note);
        }
    };
    let mut trace = match source.open(alloc, inspect.trace) {
        Ok(trace) => trace,
        Err(fault) => {
            let note = note_where_asked(alloc, inspect.why, "trace", inspect.trace, fault);
            return (Err(Failure::from(fault)), note);
        }
    };
    let inputs = texts.inputs();
    let (end, line) = write_inspected(alloc, &inputs, inspect, &mut trace, out);
    let rest = note_of_trace_end(alloc, inspect.why, inspect.trace, &end);
    let path = note_of_path(alloc, inspect, &inputs, &end);
    let line = one_of(path, one_of(rest, line));
    let note = note_of_wave(alloc, types, &task, &end, &texts, line);
    let end = end_with(alloc, types, inspect.declaration, &texts, end);
    (end, note)
}
