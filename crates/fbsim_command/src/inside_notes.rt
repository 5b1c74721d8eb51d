//! What is reported after a walk through a trace has refused it: what is wrong with the line.

ghost use Rattle.std.specs.Prelude.{◌≡◌, IfOk, string_bytes};
ghost use Rattle.fbsim_command.specs.InsideNotes as spec;
ghost use Rattle.fbsim_command.specs.InsideNotes.{IsWordsOf, SaysGone, SaysInside};
ghost use Rattle.fbsim_command.specs.Notes.{Notes, noted_of};

use fb_inspect::{InspectError, RefusedLine, fault_of, finding_message, line_message};
use fb_system::System;
use std::alloc::{AllocError, Global};

/// What is wrong with a line at which a trace is refused: as a line of the system, or else as one that the reactions
/// give. It is empty where that is not known.
fn words_of(alloc: Global, system: &System, refused: &RefusedLine) -> Result<String, AllocError>
    ensures { IfOk result (λ words. IsWordsOf system.now refused.now (string_bytes words)) }
{
    match fault_of(system, &refused.current) {
        Some(fault) => line_message(alloc, system, &refused.current, fault),
        None => finding_message(alloc, system, refused),
    }
}

/// The note to the line of this number at which a trace is refused, which begins so: what is wrong with it, if that is
/// known.
fn inside_note(
    alloc: Global,
    front: &str,
    system: &System,
    line: u64,
    refused: &RefusedLine,
) -> Result<Option<String>, AllocError>
    ensures { IfOk (noted_of result) (SaysInside system.now refused.now front.now line) }
{
    let words = words_of(alloc, system, refused)?;
    if words.is_empty() {
        return Ok(None);
    }
    Ok(Some(format!(in alloc; "{front}: line {line}: {words}")?))
}

/// The note to a line at which a trace is refused, which begins so, if that is asked for. Where nothing is known there is
/// none.
pub(crate) fn note_of_inside(
    alloc: Global,
    why: bool,
    front: &str,
    system: &System,
    line: u64,
    refused: &RefusedLine,
) -> Result<Option<String>, AllocError>
    ensures { IfOk (noted_of result) (Notes why (SaysInside system.now refused.now front.now line)) }
{
    if why {
        inside_note(alloc, front, system, line, refused)
    } else {
        Ok(None)
    }
}

/// The line at which a walk has refused a trace, if it did.
fn refused_at(gone: &Result<(), InspectError>) -> Option<u64>
    ensures { result ≡ spec.refused_at gone.now }
{
    match gone {
        Err(InspectError::Refused(line)) => Some(*line),
        _ => None,
    }
}

/// What is wrong with the line at which a walk through a trace refuses it, if that is asked for.
pub(crate) fn note_of_gone(
    alloc: Global,
    why: bool,
    system: &System,
    gone: &Result<(), InspectError>,
    refused: &RefusedLine,
) -> Result<Option<String>, AllocError>
    ensures { IfOk (noted_of result) (Notes why (SaysGone system.now refused.now gone.now)) }
{
    match refused_at(gone) {
        Some(line) => note_of_inside(alloc, why, "trace", system, line, refused),
        None => Ok(None),
    }
}
