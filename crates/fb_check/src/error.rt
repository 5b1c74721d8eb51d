//! Why inputs are not accepted.

ghost use Rattle.std.specs.Prelude.{◌≡◌};
ghost use Rattle.fb_check.specs.Refusals.{number_of};
ghost use Rattle.fb_check.specs.declared.error.CheckError.TheVariants.{Memory};

use crate::fault::Fault;
use std::alloc::AllocError;
use thiserror::Error;

/// Why a declaration, a deployment and stimuli are not accepted.
#[derive(Clone, Copy, Debug, Error)]
pub enum CheckError {
    #[error("out of memory")]
    Memory,
    /// The fault with the least number, of those that apply.
    #[error("{0}")]
    Refused(Fault),
}

impl From<AllocError> for CheckError {
    ghost from_gives = { λ _ e. e ≡ Memory };

    fn from(_error: AllocError) -> CheckError {
        CheckError::Memory
    }
}

impl CheckError {
    /// The number of the refusal, from 20 to 30. `Memory` has none.
    pub fn number(&self) -> Option<u8>
        ensures { result ≡ number_of self.now }
    {
        match self {
            CheckError::Memory => None,
            CheckError::Refused(fault) => Some(fault.number()),
        }
    }
}
