//! The waveforms of a trace with the inside of basic blocks.

ghost use Rattle.std.specs.Prelude.{IfOk};
ghost use Rattle.fbsim_command.specs.InsideNotes.{NotesInside};
ghost use Rattle.fbsim_command.specs.Notes.{noted_of};
ghost use Rattle.fbsim_command.specs.StateDumping.{DumpsStates};

use crate::failure::{Failure, failure_of_inspection};
use crate::inside_notes::note_of_gone;
use crate::opening::open_inputs;
use crate::statuses::Done;
use fb_inspect::{RefusedLine, Terms, write_states};
use fb_sim::{Inputs, discard};
use std::alloc::{AllocError, Global};
use std::io::{BufRead, Write};

/// Reads a trace of what is declared, and writes its waveforms with the inside of basic blocks. It says how that ends,
/// and what is reported of the line at which the trace is refused.
pub(crate) fn dump_states<R: BufRead, W: Write>(
    alloc: Global,
    why: bool,
    terms: Terms,
    inputs: &Inputs<'_>,
    trace: &mut R,
    out: &mut W,
) -> (Result<Done, Failure>, Result<Option<String>, AllocError>)
    ensures dumped { DumpsStates terms.cut terms.steps inputs.now (R.remaining trace.old) (W.contents out.old) (W.contents out.new) result.0 }
    ensures noted { IfOk (noted_of result.1) (NotesInside why inputs.now terms.steps (R.remaining trace.old) result.0) }
{
    let system = match open_inputs(alloc, inputs) {
        Ok(system) => system,
        Err(failure) => return (Err(failure), Ok(None)),
    };
    let mut refused = RefusedLine::new(alloc);
    let gone = write_states(alloc, &system, terms, &mut refused, trace, out);
    let note = note_of_gone(alloc, why, &system, &gone, &refused);
    // Dropped by one call: the end of its scope would prove the drop part by part.
    discard(system);
    match gone {
        Ok(()) => (Ok(Done::Shown), note),
        Err(error) => (Err(failure_of_inspection(error)), note),
    }
}
