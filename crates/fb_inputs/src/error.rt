//! Why an input is refused.

ghost use Rattle.std.specs.Prelude.{◌≡◌};
ghost use Rattle.fb_inputs.specs.Refusals.{number_of};
ghost use Rattle.fb_inputs.specs.declared.error.InputError.TheVariants.{Memory};

use std::alloc::AllocError;
use thiserror::Error;

/// Why a deployment or stimuli are refused. Each refusal has a number, and `Memory` has none.
#[derive(Debug, Drop, Error)]
pub enum InputError {
    #[error("out of memory")]
    Memory,
    #[error("the deployment is not TOML")]
    Document,
    #[error("a key of the deployment is missing, unknown or of the wrong kind")]
    Shape,
    #[error("a latency is not within 1 to 1,000,000 ticks")]
    Latency,
    #[error("a row of the stimuli has the wrong shape")]
    Row,
    #[error("a tick or a value of the stimuli is neither a number nor a truth value")]
    Number,
    #[error("over a limit")]
    Limit,
    #[error("a table of latencies does not rise from tick 0")]
    Table,
}

impl From<AllocError> for InputError {
    ghost from_gives = { λ _ e. e ≡ Memory };

    fn from(_error: AllocError) -> InputError {
        InputError::Memory
    }
}

impl InputError {
    /// The number of the refusal, from 10 to 16. `Memory` has none.
    pub fn number(&self) -> Option<u8>
        ensures { result ≡ number_of self.now }
    {
        match self {
            InputError::Memory => None,
            InputError::Document => Some(10),
            InputError::Shape => Some(11),
            InputError::Latency => Some(12),
            InputError::Row => Some(13),
            InputError::Number => Some(14),
            InputError::Limit => Some(15),
            InputError::Table => Some(16),
        }
    }
}
