//! Why a trace is not inspected, or not as a whole.

ghost use Rattle.std.specs.Prelude.{◌≡◌};
ghost use Rattle.fb_inspect.specs.declared.error.InspectError.TheVariants.{Memory};

use std::alloc::AllocError;
use thiserror::Error;

/// Why a trace is not inspected, or not as a whole.
#[derive(Debug, Drop, Error)]
pub enum InspectError {
    /// The line, from 1, at which it shows that no run of the system has this trace.
    #[error("refused trace line {0}")]
    Refused(u64),
    /// Two ports are written alike, so lines do not distinguish them. No declaration that was read has such ports.
    #[error("names of the declaration do not distinguish its ports")]
    Names,
    /// No instance has a path that must be shown.
    #[error("no instance has this path")]
    Unknown,
    #[error("out of memory")]
    Memory,
    /// The reader of the trace failed, other than for memory.
    #[error("file fault")]
    Read,
    /// The writer failed when it had taken this number of bytes, up to the greatest `u128`.
    #[error("write fault after {0} bytes")]
    Write(u128),
}

impl From<AllocError> for InspectError {
    ghost from_gives = { λ _ e. e ≡ Memory };

    fn from(_error: AllocError) -> InspectError {
        InspectError::Memory
    }
}
