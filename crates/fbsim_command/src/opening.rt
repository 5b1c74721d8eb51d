//! What the inputs of a call declare, or why they are not accepted.

ghost use Rattle.std.specs.Prelude.{IfErr, IfOk, MatchOption, OnOk};
ghost use Rattle.fb_sim.specs.Serial.{Declares, IsDeclared};
ghost use Rattle.fbsim_command.specs.Outcomes.{HasRefusal, IsUndeclared};

use crate::failure::{Failure, failure_of_run};
use fb_sim::{Inputs, check, open};
use fb_system::System;
use std::alloc::{AllocError, Global};

/// The system that inputs declare.
///
/// # Errors
/// Their refusal, and `Memory`.
pub(crate) fn open_inputs(alloc: Global, inputs: &Inputs<'_>) -> Result<System, Failure>
    ensures system { IfOk result (Declares inputs.now) }
    ensures refused { IfErr result (IsUndeclared inputs.now) }
{
    match open(alloc, inputs) {
        Ok(system) => Ok(system),
        Err(error) => Err(failure_of_run(error)),
    }
}

/// The system that inputs declare, if they are accepted.
pub(crate) fn open_accepted(
    alloc: Global,
    inputs: &Inputs<'_>,
) -> Result<Option<System>, AllocError>
    ensures { IfOk result (λ system. MatchOption system (HasRefusal inputs.now) (Declares inputs.now)) }
{
    match open_inputs(alloc, inputs) {
        Ok(system) => Ok(Some(system)),
        Err(Failure::Refused(_)) => Ok(None),
        // There is no other failure.
        Err(_) => Err(AllocError),
    }
}

/// Says that inputs are accepted.
///
/// # Errors
/// Their refusal, and `Memory`.
pub(crate) fn accept_inputs(alloc: Global, inputs: &Inputs<'_>) -> Result<(), Failure>
    ensures accepted { OnOk result (IsDeclared inputs.now) }
    ensures refused { IfErr result (IsUndeclared inputs.now) }
{
    match check(alloc, inputs) {
        Ok(()) => Ok(()),
        Err(error) => Err(failure_of_run(error)),
    }
}
