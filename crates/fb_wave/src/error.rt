//! Why there is no dump, or no whole one.

ghost use Rattle.std.specs.Prelude.{◌≡◌};
ghost use Rattle.std.specs.IoError.{error_kind};
ghost use Rattle.fb_wave.specs.Faults.{IsFaultOf};
ghost use Rattle.fb_wave.specs.declared.error.WaveError.TheVariants.{Memory, Write};

use crate::page::PageFault;
use std::alloc::AllocError;
use std::io;
use thiserror::Error;

/// Why a trace has no dump, or no whole one.
#[derive(Debug, Drop, Error)]
pub enum WaveError {
    /// The line, from 1, that no trace of the system has after the lines before it.
    #[error("refused trace line {0}")]
    Refused(u64),
    /// A resource, an instance or a port has a name of other bytes than upper-case letters, digits and underscores. Then
    /// lines may not show which port they mean. No declaration or deployment that was read from a text has such a name.
    #[error("two ports of the declaration are written alike")]
    Names,
    #[error("out of memory")]
    Memory,
    /// The reader of the trace failed, other than for memory.
    #[error("file fault")]
    Read,
    /// The writer failed after it took this many bytes of the dump, up to the greatest `u128`.
    #[error("write fault after {0} bytes")]
    Write(u128),
}

impl From<AllocError> for WaveError {
    ghost from_gives = { λ _ e. e ≡ Memory };

    fn from(_error: AllocError) -> WaveError {
        WaveError::Memory
    }
}

/// The fault of a reader that fails with an error of this kind.
fn fault_of(kind: io::ErrorKind) -> WaveError
    ensures { IsFaultOf kind result }
{
    if kind == io::ErrorKind::OutOfMemory {
        return WaveError::Memory;
    }
    WaveError::Read
}

/// A reader fails for memory too: if the line that it reads into can't grow.
impl From<io::Error> for WaveError {
    ghost from_gives = { λ error e. IsFaultOf (error_kind error) e };

    fn from(error: io::Error) -> WaveError {
        fault_of(error.kind())
    }
}

impl From<PageFault> for WaveError {
    ghost from_gives = { λ fault e. e ≡ Write fault.written };

    fn from(fault: PageFault) -> WaveError {
        WaveError::Write(fault.written)
    }
}
