//! Why no run gives a line of a trace.

ghost use Rattle.std.specs.Prelude.{◌≡◌};
ghost use Rattle.fb_inspect.specs.Faults.{error_of_walk};
ghost use Rattle.fb_inspect.specs.Refusals.{Refuses};

use crate::error::InspectError;
use crate::walk::error::{Refusal, WalkError};
use fb_types::{Emission, Reason};
use fb_wave::CurrentLine;
use std::alloc::Global;

/// Why no run gives a line, as far as the reactions tell.
#[derive(Drop)]
pub enum Finding {
    /// They tell nothing: a trace of the system has no such line there.
    Line,
    /// The block of an instance emits an event there.
    Emits {
        /// The number of the instance.
        instance: u32,
        /// The event, with its values.
        emission: Emission,
    },
    /// The block of the line emits nothing there.
    Unmade,
    /// The timer of the block does not go off in that tick, or it emits something else.
    NotDue,
    /// No run has such a late tick.
    Late,
    /// The resource has no step left in that tick.
    NoStep,
    /// The trace stops there for its steps, but after an earlier event a resource had used more in a tick than it has.
    Excess {
        /// The number of the line of the first such event, from 1.
        line: u64,
    },
    /// This reason stops the resource there.
    Stops(Reason),
    /// Nothing stops the resource there.
    Runs,
}

/// The line at which a trace is refused, and why.
pub struct RefusedLine {
    /// The line, and what was known before it.
    pub current: CurrentLine,
    /// Why no run gives it.
    pub finding: Finding,
}

impl Drop for RefusedLine {
    fn drop(self) {
        let RefusedLine {
            current: _,
            finding: _,
        } = self;
    }
}

impl RefusedLine {
    /// No line is refused yet.
    pub fn new(alloc: Global) -> RefusedLine {
        RefusedLine {
            current: CurrentLine::new(alloc),
            finding: Finding::Line,
        }
    }

    /// The error of a walk, as callers have it. If a line is refused, what was found there is kept.
    pub(crate) fn keep(&mut self, error: WalkError) -> InspectError
        ensures error { result ≡ error_of_walk error }
        ensures found { Refuses (λ refusal. self.new.finding ≡ refusal.finding) error }
        ensures current { self.new.current ≡ self.old.current }
    {
        match error {
            WalkError::Refused(refusal) => {
                let Refusal { number, finding } = refusal;
                self.finding = finding;
                InspectError::Refused(number)
            }
            WalkError::Memory => InspectError::Memory,
            WalkError::Read => InspectError::Read,
            WalkError::Write(written) => InspectError::Write(written),
        }
    }
}
