//! Why a walk through a trace does not come to its end.

ghost use Rattle.std.specs.Prelude.{◌≡◌};
ghost use Rattle.fb_wave.specs.Faults.{IsReadFault};
ghost use Rattle.fb_inspect.specs.Refusals.{IsNoRefusal};
ghost use Rattle.fb_inspect.specs.declared.walk.error.WalkError.TheVariants.{Memory, Write};

use crate::refused::finding::Finding;
use fb_wave::{PageFault, WaveError};
use std::alloc::AllocError;

/// The line at which it shows that no run of the system has a trace.
#[derive(Drop)]
pub struct Refusal {
    /// The number of the line, from 1.
    pub number: u64,
    /// Why no run gives it.
    pub finding: Finding,
}

/// Why a walk through a trace does not come to its end.
#[derive(Drop)]
pub enum WalkError {
    /// No run of the system has this trace.
    Refused(Refusal),
    Memory,
    /// The reader of the trace failed, other than for memory.
    Read,
    /// The writer failed when it had taken this number of bytes, up to the greatest `u128`.
    Write(u128),
}

impl From<AllocError> for WalkError {
    ghost from_gives = { λ _ e. e ≡ Memory };

    fn from(_error: AllocError) -> WalkError {
        WalkError::Memory
    }
}

impl From<PageFault> for WalkError {
    ghost from_gives = { λ fault e. e ≡ Write fault.written };

    fn from(fault: PageFault) -> WalkError {
        WalkError::Write(fault.written)
    }
}

/// Why a line was not read.
pub(crate) fn read_fault(error: WaveError) -> WalkError
    requires { IsReadFault error }
    ensures { IsNoRefusal result }
{
    match error {
        WaveError::Memory => WalkError::Memory,
        WaveError::Read => WalkError::Read,
        WaveError::Refused(_) | WaveError::Names | WaveError::Write(_) => unreachable!(),
    }
}
