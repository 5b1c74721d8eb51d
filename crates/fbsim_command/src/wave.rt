//! The waveforms of a trace.

ghost use Rattle.std.specs.Prelude.{IfOk, map};
ghost use Rattle.fbsim_command.specs.Notes.{noted_of};
ghost use Rattle.fbsim_command.specs.Showing.{DumpsAs, NotesAs, Shows, cut_of};

use crate::failure::{Failure, failure_of_wave};
use crate::line_notes::{note_of_trace_line, note_of_wave};
use crate::notes::{note_of_file, note_of_trace_end, note_where_asked, one_of};
use crate::opening::open_inputs;
use crate::own_lines::end_with;
use crate::sources::{Source, Streams};
use crate::state_dump::dump_states;
use crate::statuses::Done;
use crate::texts::{cut_of, files_of, read_files};
use fb_inspect::Terms;
use fb_sim::{Inputs, discard};
use fb_wave::{CurrentLine, write_wave_with};
use fbsim_line::Wave;
use std::alloc::{AllocError, Global};
use std::io::{BufRead, Write};

/// Reads a trace of what is declared, and writes its waveforms, with the inside of basic blocks where that is asked for.
/// It says how that ends, and what is reported of the line at which the trace is refused.
fn dump<R: BufRead, W: Write>(
    alloc: Global,
    wave: &Wave<'_>,
    inputs: &Inputs<'_>,
    trace: &mut R,
    out: &mut W,
) -> (Result<Done, Failure>, Result<Option<String>, AllocError>)
    ensures dumped { DumpsAs wave.now.has_states wave.now.steps (cut_of wave.now) inputs.now (R.remaining trace.old) (W.contents out.old) (W.contents out.new) result.0 }
    ensures noted { IfOk (noted_of result.1) (NotesAs wave.now.has_states wave.now.why wave.now.steps inputs.now (R.remaining trace.old) result.0) }
{
    let cut = cut_of(wave.is_cut);
    if wave.has_states {
        let terms = Terms {
            cut,
            steps: wave.steps,
        };
        return dump_states(alloc, wave.why, terms, inputs, trace, out);
    }
    let system = match open_inputs(alloc, inputs) {
        Ok(system) => system,
        Err(failure) => return (Err(failure), Ok(None)),
    };
    let mut current = CurrentLine::new(alloc);
    let written = write_wave_with(alloc, &system, cut, &mut current, trace, out);
    let note = note_of_trace_line(alloc, wave.why, &system, &written, &current);
    // Dropped by one call: the end of its scope would prove the drop part by part.
    discard(system);
    match written {
        Ok(()) => (Ok(Done::Shown), note),
        Err(error) => (Err(failure_of_wave(error)), note),
    }
}

/// Reads what a trace is of, and the trace, and writes its waveforms. It says how that ends, and what is reported after
/// the line of a failure.
pub fn show<S: Source + Streams, W: Write>(
    alloc: Global,
    types: &[&str],
    wave: &Wave<'_>,
    source: &mut S,
    out: &mut W,
) -> (Result<Done, Failure>, Result<Option<String>, AllocError>)
    ensures { Shows S.gives S.opens source.old source.new (map (λ t. t.now) types.now) wave.now (W.contents out.old) (W.contents out.new) result.0 (noted_of result.1) }
{
    let task = files_of(wave.declaration, wave.deploy, wave.why);
    let texts = match read_files(alloc, types, &task, source) {
        Ok(texts) => texts,
        Err(unread) => {
            let note = note_of_file(alloc, types, &task, unread);
            return (Err(Failure::from(unread.fault)), note);
        }
    };
    let mut trace = match source.open(alloc, wave.trace) {
        Ok(trace) => trace,
        Err(fault) => {
            let note = note_where_asked(alloc, wave.why, "trace", wave.trace, fault);
            return (Err(Failure::from(fault)), note);
        }
    };
    let (end, line) = dump(alloc, wave, &texts.inputs(), &mut trace, out);
    let rest = note_of_trace_end(alloc, wave.why, wave.trace, &end);
    let note = note_of_wave(alloc, types, &task, &end, &texts, one_of(rest, line));
    let end = end_with(alloc, types, wave.declaration, &texts, end);
    (end, note)
}
