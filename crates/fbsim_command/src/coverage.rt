//! What traces cover.

ghost use Rattle.std.specs.Prelude.{◌≡◌, ◌<◌, ◌+◌, ◌^◌, ◌++◌, IfErr, IfOk, OnOk, codes, decimal, map, string_bytes, true};
ghost use Rattle.fb_inspect.specs.declared.error.InspectError.TheVariants as inspection;
ghost use Rattle.fb_wave.specs.OfSystem.{HasNames};
ghost use Rattle.fbsim_command.specs.declared.coverage.Gleaned.{Gleaned};
ghost use Rattle.fbsim_command.specs.Covering as spec;
ghost use Rattle.fbsim_command.specs.InsideNotes.{SaysInside};
ghost use Rattle.fbsim_command.specs.Notes.{IsUnnoted, Notes, NotesEnd, noted_of};
ghost use Rattle.fbsim_command.specs.Covering.{AreGoneThrough, AreStopped, GoesThrough, IsStopped, IsTraceFailure, NotesWalk, RefusesAt, ReportsCoverage, WritesReport, are_several, coverage_text, cut_line, cut_of, note_front};

use crate::expect::refused_trace;
use crate::failure::{Failure, RefusalLine};
use crate::inside_notes::note_of_inside;
use crate::line_notes::note_of_wave;
use crate::notes::{note_of_file, note_of_rest, note_where_asked};
use crate::opening::open_inputs;
use crate::output::write_text;
use crate::own_lines::end_with;
use crate::shown::shown_name;
use crate::sources::{Source, Streams};
use crate::statuses::Done;
use crate::texts::{cut_of, files_of, read_files};
use fb_coverage::{Marks, is_below, report_of};
use fb_inspect::{Covered, Extent, InspectError, RefusedLine, Terms, cover};
use fb_sim::{Inputs, discard};
use fb_system::System;
use fbsim_line::Coverage;
use std::alloc::{AllocError, Global};
use std::io::Write;

/// Whether there are several traces, so that a refusal names one.
fn are_several(coverage: &Coverage<'_>) -> bool
    ensures { result ≡ are_several coverage.now }
{
    coverage.traces.len() > 1
}

/// What is gleaned from traces.
struct Gleaned {
    /// What they cover together.
    marks: Marks,
    /// How many of them are cut off.
    cut: u64,
}

// Drop is written by hand, so that callers need not prove it again (docs/DECISIONS.md, "Drop").
impl Drop for Gleaned {
    fn drop(self) {
        let Gleaned { marks: _, cut: _ } = self;
    }
}

impl Gleaned {
    fn parts(self) -> (Marks, u64)
        ensures marks { result.0 ≡ self.marks }
        ensures cut { result.1 ≡ self.cut }
    {
        let Gleaned { marks, cut } = self;
        (marks, cut)
    }
}

/// The failure for a trace that is refused at this line.
fn refusal_of(alloc: Global, is_named: bool, name: &str, line: u64) -> Failure
    ensures { RefusesAt is_named name.now line result }
{
    if is_named {
        refused_trace(alloc, name, line)
    } else {
        Failure::Refused(RefusalLine::Trace(line))
    }
}

/// How the note to a line of the trace of this name begins.
fn named_front(alloc: Global, name: &str) -> Result<String, AllocError>
    ensures { IfOk result (λ front. string_bytes front ≡ note_front true name.now) }
{
    let name = shown_name(alloc, name)?;
    Ok(format!(in alloc; "trace {name}")?)
}

/// How the note to a line begins, which names the trace where there are several.
fn front_of(alloc: Global, is_named: bool, name: &str) -> Result<String, AllocError>
    ensures { IfOk result (λ front. string_bytes front ≡ note_front is_named name.now) }
{
    if is_named {
        return named_front(alloc, name);
    }
    Ok(String::from_str(alloc, "trace")?)
}

/// The note to a line at which this trace is refused, where one is asked for.
fn note_of_refusal(
    alloc: Global,
    coverage: &Coverage<'_>,
    name: &str,
    system: &System,
    line: u64,
    refused: &RefusedLine,
) -> Result<Option<String>, AllocError>
    ensures { IfOk (noted_of result) (Notes coverage.now.why (SaysInside system.now refused.now (note_front (are_several coverage.now) name.now) line)) }
{
    let front = front_of(alloc, are_several(coverage), name)?;
    note_of_inside(alloc, coverage.why, front.as_str(), system, line, refused)
}

/// The note to a trace that can't be read to its end, where one is asked for.
fn note_of_unread(
    alloc: Global,
    coverage: &Coverage<'_>,
    name: &str,
) -> Result<Option<String>, AllocError>
    ensures { IfOk (noted_of result) (NotesEnd coverage.now.why name.now) }
{
    if !coverage.why {
        return Ok(None);
    }
    Ok(Some(note_of_rest(alloc, "trace", name)?))
}

/// The failure for which a trace is not gone through. Whatever was read has names, and no path is given.
fn failure_of_trace(alloc: Global, is_named: bool, name: &str, error: InspectError) -> Failure
    requires names { error ≡ inspection.Names → ⊥ }
    requires paths { error ≡ inspection.Unknown → ⊥ }
    ensures { IsTraceFailure is_named name.now error result }
{
    match error {
        InspectError::Refused(line) => refusal_of(alloc, is_named, name, line),
        InspectError::Read => Failure::File,
        // What is written is dropped, so no writer fails.
        InspectError::Memory | InspectError::Write(_) => Failure::Memory,
        InspectError::Names | InspectError::Unknown => unreachable!(),
    }
}

/// The note to a trace that is not gone through, where one is asked for.
fn note_of_fault(
    alloc: Global,
    coverage: &Coverage<'_>,
    name: &str,
    system: &System,
    error: &InspectError,
    refused: &RefusedLine,
) -> Result<Option<String>, AllocError>
    ensures { NotesWalk system.now coverage.now name.now refused.now error.now (noted_of result) }
{
    match error {
        InspectError::Refused(line) => {
            note_of_refusal(alloc, coverage, name, system, *line, refused)
        }
        InspectError::Read => note_of_unread(alloc, coverage, name),
        _ => Ok(None),
    }
}

/// One more trace that is cut off, or not.
fn cut_count(extent: Extent, cut: u64) -> u64
    requires { cut + 1 < 2 ^ 64 }
    ensures { result ≡ spec.cut_count extent cut }
{
    match extent {
        Extent::Whole => cut,
        Extent::CutOff => cut + 1,
    }
}

/// What is gleaned, after a trace that covers this, and after this number of traces that are cut off before it.
fn gleaned_with(covered: Covered, cut: u64) -> Gleaned
    requires { cut + 1 < 2 ^ 64 }
    ensures marks { result.marks ≡ covered.marks }
    ensures cut { result.cut ≡ spec.cut_count covered.extent cut }
{
    let cut = cut_count(covered.extent, cut);
    Gleaned {
        marks: covered.into_marks(),
        cut,
    }
}

/// Opens a trace, and gleans from it what it covers next to what others covered.
fn cover_one<S: Streams>(
    alloc: Global,
    system: &System,
    coverage: &Coverage<'_>,
    name: &str,
    gleaned: Gleaned,
    note: &mut Result<Option<String>, AllocError>,
    source: &mut S,
) -> Result<Gleaned, Failure>
    requires names { HasNames system.now }
    requires room { gleaned.cut + 1 < 2 ^ 64 }
    requires unnoted { IsUnnoted (noted_of note.old) }
    ensures covered { IfOk result (GoesThrough S.opens system.now coverage.now name.now source.old source.new gleaned) }
    ensures unnoted { IfOk result (λ gleaned. IsUnnoted (noted_of note.new)) }
    ensures stopped { IfErr result (IsStopped S.opens system.now coverage.now name.now source.old source.new (noted_of note.new)) }
{
    let mut trace = match source.open(alloc, name) {
        Ok(trace) => trace,
        Err(fault) => {
            *note = note_where_asked(alloc, coverage.why, "trace", name, fault);
            return Err(Failure::from(fault));
        }
    };
    let mut refused = RefusedLine::new(alloc);
    let terms = Terms {
        cut: cut_of(coverage.is_cut),
        steps: coverage.steps,
    };
    let (marks, cut) = gleaned.parts();
    match cover(alloc, system, terms, marks, &mut refused, &mut trace) {
        Ok(covered) => Ok(gleaned_with(covered, cut)),
        Err(error) => {
            *note = note_of_fault(alloc, coverage, name, system, &error, &refused);
            Err(failure_of_trace(alloc, are_several(coverage), name, error))
        }
    }
}

/// Goes through the traces of a system, one after another, and gleans from them what they cover together.
fn cover_all<S: Streams>(
    alloc: Global,
    system: &System,
    coverage: &Coverage<'_>,
    note: &mut Result<Option<String>, AllocError>,
    source: &mut S,
) -> Result<Gleaned, Failure>
    requires names { HasNames system.now }
    requires unnoted { IsUnnoted (noted_of note.old) }
    ensures covered { IfOk result (AreGoneThrough S.opens system.now coverage.now source.old source.new) }
    ensures unnoted { IfOk result (λ covered. IsUnnoted (noted_of note.new)) }
    ensures stopped { IfErr result (AreStopped S.opens system.now coverage.now source.old source.new (noted_of note.new)) }
{
    let mut gleaned = Gleaned {
        marks: Marks::of(alloc, system)?,
        cut: 0,
    };
    for name in &coverage.traces {
        gleaned = cover_one(alloc, system, coverage, name, gleaned, note, source)?;
    }
    Ok(gleaned)
}

/// How many of the traces are cut off.
fn cut_text(alloc: Global, cut: u64, traces: usize) -> Result<String, AllocError>
    ensures { IfOk result (λ text. string_bytes text ≡ codes "traces cut " ++ (decimal cut ++ (codes " of " ++ (decimal traces ++ codes "\n")))) }
{
    Ok(format!(in alloc; "traces cut {cut} of {traces}\n")?)
}

/// Adds how many of the traces are cut off, where some are.
fn put_cut(alloc: Global, text: &mut Vec<u8>, cut: u64, traces: usize) -> Result<(), AllocError>
    ensures { OnOk result (text.new.items ≡ text.old.items ++ cut_line cut traces) }
{
    if cut == 0 {
        return Ok(());
    }
    let line = cut_text(alloc, cut, traces)?;
    text.extend_from_slice(line.as_bytes())
}

/// Whether traces cover less than a call asks for.
fn is_too_little(system: &System, coverage: &Coverage<'_>, marks: &Marks) -> bool
    ensures { result ≡ spec.is_too_little system.now coverage.now.least marks.now }
{
    match coverage.least {
        Some(least) => is_below(system, marks, least),
        None => false,
    }
}

/// The report of what the traces of a system cover, and whether that is less than a call asks for.
fn report<S: Streams>(
    alloc: Global,
    system: &System,
    coverage: &Coverage<'_>,
    note: &mut Result<Option<String>, AllocError>,
    source: &mut S,
) -> Result<(Vec<u8>, bool), Failure>
    requires names { HasNames system.now }
    requires unnoted { IsUnnoted (noted_of note.old) }
    ensures report { IfOk result (λ r. (gleaned : Gleaned) × AreGoneThrough S.opens system.now coverage.now source.old source.new gleaned
        × (r.0.items ≡ coverage_text system.now coverage.now gleaned) × (r.1 ≡ spec.is_too_little system.now coverage.now.least gleaned.marks)) }
    ensures unnoted { IfOk result (λ covered. IsUnnoted (noted_of note.new)) }
    ensures stopped { IfErr result (AreStopped S.opens system.now coverage.now source.old source.new (noted_of note.new)) }
{
    let gleaned = cover_all(alloc, system, coverage, note, source)?;
    let mut text = report_of(alloc, system, &gleaned.marks)?;
    put_cut(alloc, &mut text, gleaned.cut, coverage.traces.len())?;
    let below = is_too_little(system, coverage, &gleaned.marks);
    Ok((text, below))
}

/// How a call ends that has written a report: by whether traces cover less than it asks for.
fn end_by(is_too_little: bool) -> Done
    ensures { result ≡ spec.covered_by is_too_little }
{
    if is_too_little {
        Done::Unmet
    } else {
        Done::Shown
    }
}

/// Writes the report of what traces of what the inputs declare cover.
fn write_report<S: Streams, W: Write>(
    alloc: Global,
    inputs: &Inputs<'_>,
    coverage: &Coverage<'_>,
    note: &mut Result<Option<String>, AllocError>,
    source: &mut S,
    out: &mut W,
) -> Result<Done, Failure>
    requires { IsUnnoted (noted_of note.old) }
    ensures { WritesReport S.opens inputs.now coverage.now source.old source.new (W.contents out.old) (W.contents out.new) (noted_of note.new) result }
{
    let system = open_inputs(alloc, inputs)?;
    let reported = report(alloc, &system, coverage, note, source);
    // Dropped by one call: the end of its scope would prove the drop part by part.
    discard(system);
    let (text, is_too_little) = reported?;
    write_text(out, text.as_slice())?;
    Ok(end_by(is_too_little))
}

/// Reads the files of a call and its traces, and writes what they cover. It says how that ends, and what is reported
/// after the line of a failure.
pub(crate) fn show_coverage<S: Source + Streams, W: Write>(
    alloc: Global,
    types: &[&str],
    coverage: &Coverage<'_>,
    source: &mut S,
    out: &mut W,
) -> (Result<Done, Failure>, Result<Option<String>, AllocError>)
    ensures { ReportsCoverage S.gives S.opens source.old source.new (map (λ t. t.now) types.now) coverage.now (W.contents out.old) (W.contents out.new) result.0 (noted_of result.1) }
{
    let task = files_of(coverage.declaration, coverage.deploy, coverage.why);
    let texts = match read_files(alloc, types, &task, source) {
        Ok(texts) => texts,
        Err(unread) => {
            let note = note_of_file(alloc, types, &task, unread);
            return (Err(Failure::from(unread.fault)), note);
        }
    };
    let mut line = Ok(None);
    let end = write_report(alloc, &texts.inputs(), coverage, &mut line, source, out);
    let note = note_of_wave(alloc, types, &task, &end, &texts, line);
    let end = end_with(alloc, types, coverage.declaration, &texts, end);
    (end, note)
}
