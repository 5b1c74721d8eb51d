//! Calls on one thread: the check of inputs, and a run.

ghost use Rattle.std.specs.Prelude.{IfOk, IfErr, OnOk};
ghost use Rattle.fb_sim.specs.Rounds.{FailsRun};
ghost use Rattle.fb_trace.specs.End.{ending_of};
ghost use Rattle.fb_sim.specs.Serial.{IsDeclared, IsRefusal, Writes};

use crate::one_agenda::run_one_agenda;
use crate::options::{Inputs, Options};
use crate::outcome::RunError;
use crate::reading::{judge_inputs, open};
use fb_trace::Outcome;
use std::alloc::Global;
use std::io::Write;

/// Whether a declaration, a deployment and stimuli are accepted together.
///
/// # Errors
/// `Refused` with the first that refuses: the declaration, the deployment, the stimuli, or the check of them all;
/// and `Memory`.
pub fn check(alloc: Global, inputs: &Inputs<'_>) -> Result<(), RunError>
    ensures accepted { OnOk result (IsDeclared inputs.now) }
    ensures refused { IfErr result (IsRefusal inputs.now) }
{
    judge_inputs(alloc, inputs)
}

/// Runs the application of the inputs on one thread and writes its trace: the events below the horizon, the
/// least key first, up to the first stop. The lines are written piece by piece, as the run goes on. No memory is
/// allocated between the first byte of a piece and its last.
///
/// # Errors
/// `BadOption` before all else; then `Refused`, after which nothing was written; `Memory`, after which a beginning of
/// the trace was written; and `Write` with the count of the bytes written.
pub fn run_serial<W: Write>(
    alloc: Global,
    inputs: &Inputs<'_>,
    options: Options,
    out: &mut W,
) -> Result<Outcome, RunError>
    ensures trace { IfOk result (λ o. Writes inputs.now options (W.contents out.old) (W.contents out.new) (ending_of o)) }
    ensures failed { IfErr result (FailsRun inputs.now options (W.contents out.old) (W.contents out.new)) }
{
    if !options.are_within() {
        return Err(RunError::BadOption);
    }
    let system = open(alloc, inputs)?;
    run_one_agenda(alloc, &system, options, out)
}
