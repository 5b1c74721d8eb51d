//! How a call of the program ends, as a number.

ghost use Rattle.std.specs.Prelude.{◌≡◌};
ghost use Rattle.fbsim_command.specs.Failures.{status_of};

use crate::failure::Failure;

/// What a call of the program has done.
#[derive(Clone, Copy)]
pub enum Done {
    /// The help is written, or the version.
    Helped,
    /// What a refusal means is written.
    Explained,
    /// The declaration is accepted.
    Accepted,
    /// The waveforms of a trace are written, or a graph.
    Shown,
    /// The run came to its horizon.
    Ended,
    /// A resource stopped before.
    Stopped,
    /// Rules were held against traces, and none breaks.
    Met,
    /// A rule breaks, a warning is denied, or traces cover less than they must.
    Unmet,
    /// Two traces are the same.
    Same,
    /// Two traces differ.
    Different,
}

/// What the program ends with.
#[derive(Clone, Copy)]
pub struct ExitStatus {
    /// The status of the program.
    pub status: u8,
    /// Whether all that is to be reported was: standard error took it, and memory was there for it.
    pub is_reported: bool,
}

/// The status of the program: 0 where all went well, 1 where the run stopped, 2 where the inputs are refused,
/// 3 where a file or the output failed, 4 where it is out of memory, and 5 where the words name no call.
pub fn status(end: &Result<Done, Failure>) -> u8
    ensures { result ≡ status_of end.now }
{
    match end {
        Ok(Done::Helped | Done::Explained | Done::Accepted | Done::Shown | Done::Ended) => 0,
        Ok(Done::Met | Done::Same) => 0,
        Ok(Done::Stopped | Done::Unmet | Done::Different) => 1,
        Err(Failure::Refused(_) | Failure::RefusedTrace(_)) => 2,
        Err(Failure::File | Failure::Write(_)) => 3,
        Err(Failure::Memory) => 4,
        Err(Failure::Line(_) | Failure::BadOption) => 5,
    }
}
