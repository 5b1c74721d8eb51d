//! What is reported after the refusal of a line of a trace: what is wrong with it.

ghost use Rattle.std.specs.Prelude.{◌≡◌, IfOk, map};
ghost use Rattle.fbsim_command.specs.LineNotes as spec;
ghost use Rattle.fbsim_command.specs.Notes.{Follows, Notes, NotesOf, noted_of};
ghost use Rattle.fbsim_command.specs.Texts.{given_of, lines_of};
ghost use Rattle.fbsim_command.specs.OfSystem.{SaysLine, SaysWritten};

use crate::failure::Failure;
use crate::program::note_to;
use crate::statuses::Done;
use crate::texts::Texts;
use fb_inspect::{fault_of, line_message};
use fb_system::System;
use fb_wave::{CurrentLine, WaveError};
use fbsim_line::Task;
use std::alloc::{AllocError, Global};

/// The note to the line of this number: what is wrong with it, if something is.
fn line_note(
    alloc: Global,
    system: &System,
    line: u64,
    current: &CurrentLine,
) -> Result<Option<String>, AllocError>
    ensures { IfOk (noted_of result) (SaysLine system.now current.now line) }
{
    match fault_of(system, current) {
        Some(fault) => {
            let words = line_message(alloc, system, current, fault)?;
            Ok(Some(format!(in alloc; "trace: line {line}: {words}")?))
        }
        None => Ok(None),
    }
}

/// The line at which a trace was refused, if it was.
fn refused_at(written: &Result<(), WaveError>) -> Option<u64>
    ensures { result ≡ spec.refused_at written.now }
{
    match written {
        Err(WaveError::Refused(line)) => Some(*line),
        _ => None,
    }
}

/// The note to a trace of which this was written, where one is asked for: what is wrong with the line at which it is
/// refused.
pub(crate) fn note_of_trace_line(
    alloc: Global,
    why: bool,
    system: &System,
    written: &Result<(), WaveError>,
    current: &CurrentLine,
) -> Result<Option<String>, AllocError>
    ensures { IfOk (noted_of result) (Notes why (SaysWritten system.now current.now written.now)) }
{
    if !why {
        return Ok(None);
    }
    match refused_at(written) {
        Some(line) => line_note(alloc, system, line, current),
        None => Ok(None),
    }
}

/// The note to the end of a call for waveforms: that of a line, if there is one, or that of a check.
pub(crate) fn note_of_wave(
    alloc: Global,
    types: &[&str],
    task: &Task<'_>,
    end: &Result<Done, Failure>,
    texts: &Texts,
    line: Result<Option<String>, AllocError>,
) -> Result<Option<String>, AllocError>
    ensures { Follows (noted_of line) (NotesOf (map (λ t. t.now) types.now) task.now (lines_of texts.now) (given_of texts.now) end.now) (noted_of result) }
{
    match line? {
        Some(note) => Ok(Some(note)),
        None => note_to(alloc, types, task, end, texts),
    }
}
