//! Why a session does not do what it is asked for.

ghost use Rattle.std.specs.Prelude.{◌≡◌};
ghost use Rattle.fb_session.specs.declared.fault.SessionFault.TheVariants.{Memory};

use fb_check::StimulusFault;
use fb_inputs::RowFault;
use fb_types::Stimulus;
use std::alloc::AllocError;

/// Why a row is not accepted. The session is then as it was.
#[derive(Drop)]
pub enum GiveFault {
    /// The session has stopped or failed, so it takes no rows.
    NotGoing,
    /// The row can't be read: E13, E14 or E15.
    Unread(RowFault),
    /// The row does not fit the application: E29.
    Unfit(Stimulus, StimulusFault),
    /// The tick of the row, in milliseconds, has begun.
    Late(u64),
    /// There are as many rows as there are numbers for them, 2^64 - 1.
    Full,
    /// Out of memory.
    Memory,
}

impl From<AllocError> for GiveFault {
    ghost use Rattle.fb_session.specs.declared.fault.GiveFault.TheVariants as give;

    ghost from_gives = { λ _ e. e ≡ give.Memory };

    fn from(_error: AllocError) -> GiveFault {
        GiveFault::Memory
    }
}

/// Why a session is over.
#[derive(Clone, Copy, Debug)]
pub enum SessionFault {
    /// Out of memory.
    Memory,
    /// The writer failed after this many bytes of the call that failed.
    Write(u128),
}

impl From<AllocError> for SessionFault {
    ghost from_gives = { λ _ e. e ≡ Memory };

    fn from(_error: AllocError) -> SessionFault {
        SessionFault::Memory
    }
}
