//! Why a trace is not read to its end.

ghost use Rattle.std.specs.Prelude.{◌≡◌};
ghost use Rattle.fb_expect.specs.Faults.{trace_error};
ghost use Rattle.fb_expect.specs.declared.fault.TraceError.TheVariants.{Memory};

use crate::lines::ReadFault;
use std::alloc::AllocError;
use thiserror::Error;

/// Why a trace is not read to its end.
#[derive(Debug, Drop, Error)]
pub enum TraceError {
    /// The line, from 1, at which it shows first that the text is no trace.
    #[error("refused trace line {0}")]
    Refused(u64),
    #[error("out of memory")]
    Memory,
    /// The reader of the trace failed, other than for memory.
    #[error("file fault")]
    Read,
}

impl From<AllocError> for TraceError {
    ghost from_gives = { λ _ e. e ≡ Memory };

    fn from(_error: AllocError) -> TraceError {
        TraceError::Memory
    }
}

impl From<ReadFault> for TraceError {
    ghost from_gives = { λ fault e. e ≡ trace_error fault };

    fn from(fault: ReadFault) -> TraceError {
        match fault {
            ReadFault::Memory => TraceError::Memory,
            ReadFault::Read => TraceError::Read,
        }
    }
}
