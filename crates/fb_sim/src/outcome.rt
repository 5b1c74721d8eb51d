//! Why there is no run, or no whole one.

ghost use Rattle.std.specs.Prelude.{◌≡◌};
ghost use Rattle.fb_sim.specs.declared.outcome.RunError.TheVariants.{Memory};

use fb_check::CheckError;
use fb_inputs::InputError;
use fb_phase::PhaseError;
use fb_read::ReadError;
use fb_window::Failed;
use std::alloc::AllocError;
use thiserror::Error;

/// What refuses the inputs: the first of the declaration, the deployment, the stimuli and the check. Its error is never
/// the variant `Memory`: a run that is out of memory answers `RunError::Memory`.
#[derive(Debug, Drop, Error)]
pub enum Refusal {
    /// The declaration is no text of the language.
    #[error("{0}")]
    Declaration(ReadError),
    /// The deployment is no plan of resources and links.
    #[error("{0}")]
    Deployment(InputError),
    /// The stimuli are no rows of events.
    #[error("{0}")]
    Stimuli(InputError),
    /// They are not accepted together.
    #[error("{0}")]
    Check(CheckError),
}

/// Why there is no run, or no whole one.
#[derive(Debug, Drop, Error)]
pub enum RunError {
    /// The inputs are refused.
    #[error("{0}")]
    Refused(Refusal),
    /// A growth of memory was refused.
    #[error("out of memory")]
    Memory,
    /// The writer failed after this many bytes of the trace.
    #[error("write fault after {0} bytes")]
    Write(u128),
    /// The horizon, the steps or the workers are out of their range, or the tick to advance to is.
    #[error("an option is out of range")]
    BadOption,
    /// An earlier call on the same simulation ran out of memory or could not write, so nothing is run any more.
    #[error("the run failed before")]
    Failed,
}

impl From<AllocError> for RunError {
    ghost from_gives = { λ _ e. e ≡ Memory };

    fn from(_error: AllocError) -> RunError {
        RunError::Memory
    }
}

impl From<PhaseError> for RunError {
    ghost from_gives = { λ _ e. e ≡ Memory };

    fn from(_error: PhaseError) -> RunError {
        RunError::Memory
    }
}

impl From<Failed> for RunError {
    ghost from_gives = { λ _ e. e ≡ Memory };

    fn from(_error: Failed) -> RunError {
        RunError::Memory
    }
}
