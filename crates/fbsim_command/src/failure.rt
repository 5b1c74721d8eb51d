//! Why a call of the program does not do what is asked, and how that is reported.

ghost use Rattle.std.specs.Prelude.{◌≡◌};
ghost use Rattle.fbsim_command.specs.Failures.{failure_of, failure_of_check, failure_of_read, failure_of_input, failure_of_refusal, failure_of_rules, failure_of_source, failure_of_part, IsInspectionFailure, IsWaveFailure};
ghost use Rattle.fbsim_command.specs.declared.failure.Failure.TheVariants.{Memory};
ghost use Rattle.fb_inspect.specs.declared.error.InspectError.TheVariants as inspection;
ghost use Rattle.fb_sim.specs.declared.outcome.RunError.TheVariants as run;
ghost use Rattle.fb_wave.specs.declared.error.WaveError.TheVariants as wave;

use crate::sources::SourceFault;
use fb_check::CheckError;
use fb_expect::{PartFault, RulesError};
use fb_inputs::InputError;
use fb_inspect::InspectError;
use fb_read::ReadError;
use fb_sim::{Refusal, RunError};
use fb_wave::WaveError;
use std::alloc::AllocError;
use std::fmt;

/// What the line of a refusal says.
#[derive(Clone, Copy)]
pub enum RefusalLine {
    /// The refusal of this number, 1 to 45.
    Numbered(u8),
    /// A syntax fault in this line, counted from 1.
    Syntax(u32),
    /// The file is no trace; the first line that shows it, counted from 1.
    Trace(u64),
}

/// Why a call of the program does not do what is asked.
#[derive(Drop)]
pub enum Failure {
    Refused(RefusalLine),
    /// A file is no trace; the text names it and the first line that shows it.
    RefusedTrace(String),
    /// A file could not be read.
    File,
    /// The output failed when it had taken this number of bytes.
    Write(u128),
    Memory,
    /// The words are no command; the text says why.
    Line(String),
    /// A number of the call is out of its range.
    BadOption,
}

impl From<AllocError> for Failure {
    ghost from_gives = { λ error failure. failure ≡ Memory };

    fn from(_error: AllocError) -> Failure {
        Failure::Memory
    }
}

impl From<ReadError> for Failure {
    ghost from_gives = { λ error failure. failure ≡ failure_of_read error };

    fn from(error: ReadError) -> Failure {
        match error {
            ReadError::Syntax { line } => Failure::Refused(RefusalLine::Syntax(line)),
            _ => match error.number() {
                Some(number) => Failure::Refused(RefusalLine::Numbered(number)),
                None => Failure::Memory,
            },
        }
    }
}

impl From<InputError> for Failure {
    ghost from_gives = { λ error failure. failure ≡ failure_of_input error };

    fn from(error: InputError) -> Failure {
        match error.number() {
            Some(number) => Failure::Refused(RefusalLine::Numbered(number)),
            None => Failure::Memory,
        }
    }
}

impl From<CheckError> for Failure {
    ghost from_gives = { λ error failure. failure ≡ failure_of_check error };

    fn from(error: CheckError) -> Failure {
        match error.number() {
            Some(number) => Failure::Refused(RefusalLine::Numbered(number)),
            None => Failure::Memory,
        }
    }
}

impl From<Refusal> for Failure {
    ghost from_gives = { λ refusal failure. failure ≡ failure_of_refusal refusal };

    fn from(refusal: Refusal) -> Failure {
        match refusal {
            Refusal::Declaration(error) => Failure::from(error),
            Refusal::Deployment(error) => Failure::from(error),
            Refusal::Stimuli(error) => Failure::from(error),
            Refusal::Check(error) => Failure::from(error),
        }
    }
}

impl From<PartFault> for Failure {
    ghost from_gives = { λ fault failure. failure ≡ failure_of_part fault };

    fn from(fault: PartFault) -> Failure {
        match fault {
            PartFault::Memory => Failure::Memory,
            PartFault::First | PartFault::Second => Failure::File,
        }
    }
}

impl From<RulesError> for Failure {
    ghost from_gives = { λ error failure. failure ≡ failure_of_rules error };

    fn from(error: RulesError) -> Failure {
        match error.number() {
            Some(number) => Failure::Refused(RefusalLine::Numbered(number)),
            None => Failure::Memory,
        }
    }
}

impl From<SourceFault> for Failure {
    ghost from_gives = { λ fault failure. failure ≡ failure_of_source fault };

    fn from(fault: SourceFault) -> Failure {
        match fault {
            SourceFault::File | SourceFault::Folder => Failure::File,
            SourceFault::Memory => Failure::Memory,
        }
    }
}

/// The failure for which inputs are not accepted, or a run is not whole. Only a simulation that is used after a failed
/// call answers `Failed`.
pub(crate) fn failure_of_run(error: RunError) -> Failure
    requires { error ≡ run.Failed → ⊥ }
    ensures { result ≡ failure_of error }
{
    match error {
        RunError::Refused(refusal) => Failure::from(refusal),
        RunError::Memory => Failure::Memory,
        RunError::Write(written) => Failure::Write(written),
        RunError::BadOption => Failure::BadOption,
        RunError::Failed => unreachable!(),
    }
}

/// The failure for which a trace of what was read has no dump, or no whole one. Whatever was read has names.
pub(crate) fn failure_of_wave(error: WaveError) -> Failure
    requires { error ≡ wave.Names → ⊥ }
    ensures { IsWaveFailure error result }
{
    match error {
        WaveError::Refused(line) => Failure::Refused(RefusalLine::Trace(line)),
        WaveError::Memory => Failure::Memory,
        WaveError::Read => Failure::File,
        WaveError::Write(written) => Failure::Write(written),
        WaveError::Names => unreachable!(),
    }
}

/// The failure for which a trace of what was read is not inspected, or not as a whole. Whatever was read has names.
pub(crate) fn failure_of_inspection(error: InspectError) -> Failure
    requires { error ≡ inspection.Names → ⊥ }
    ensures { IsInspectionFailure error result }
{
    match error {
        InspectError::Refused(line) => Failure::Refused(RefusalLine::Trace(line)),
        InspectError::Unknown => Failure::Refused(RefusalLine::Numbered(21)),
        InspectError::Memory => Failure::Memory,
        InspectError::Read => Failure::File,
        InspectError::Write(written) => Failure::Write(written),
        InspectError::Names => unreachable!(),
    }
}

impl fmt::Display for RefusalLine {
    ghost use Rattle.std.specs.Prelude.{Some};
    ghost use Rattle.fbsim_command.specs.Failures.{refusal_text};

    ghost output = { λ refusal. Some (refusal_text refusal) };

    fn fmt<W: fmt::Write>(&self, f: &mut fmt::Formatter<W>) -> fmt::Result {
        match self {
            RefusalLine::Numbered(number) => {
                let tens = number / 10;
                let ones = number % 10;
                write!(f, "refused E{tens}{ones}")
            }
            RefusalLine::Syntax(line) => write!(f, "refused E03 line {line}"),
            RefusalLine::Trace(line) => write!(f, "refused trace line {line}"),
        }
    }
}

impl fmt::Display for Failure {
    ghost use Rattle.std.specs.Prelude.{Some};
    ghost use Rattle.fbsim_command.specs.Failures.{failure_text};

    ghost output = { λ failure. Some (failure_text failure) };

    fn fmt<W: fmt::Write>(&self, f: &mut fmt::Formatter<W>) -> fmt::Result {
        match self {
            Failure::Refused(refusal) => write!(f, "{refusal}"),
            Failure::RefusedTrace(text) => write!(f, "{text}"),
            Failure::File => write!(f, "file fault"),
            Failure::Write(written) => write!(f, "write fault after {written} bytes"),
            Failure::Memory => write!(f, "out of memory"),
            Failure::Line(text) => write!(f, "{text}"),
            Failure::BadOption => write!(f, "an option is out of range"),
        }
    }
}
