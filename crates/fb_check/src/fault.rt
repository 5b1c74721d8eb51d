//! What is refused.

ghost use Rattle.std.specs.Prelude.{◌≡◌};
ghost use Rattle.fb_check.specs.Faults.{number_of};

use thiserror::Error;

/// Why inputs are not accepted. Each refusal has a number.
#[derive(Clone, Copy, Debug, Error)]
pub enum Fault {
    #[error("a name or a connection is given twice")]
    NameTwice,
    #[error("nothing of the required kind has a name")]
    NameUnknown,
    #[error("an expression, a statement or a value has the wrong kind")]
    KindWrong,
    #[error("a data connection leads to a type that does not contain all values")]
    OutOfRange,
    #[error("two data connections lead to one port")]
    TwoSources,
    #[error("a composite contains itself, or has a height over 16")]
    TooHigh,
    #[error("an instance is not mapped to one resource")]
    NotMapped,
    #[error("a connection between two resources has no link")]
    NoLink,
    #[error("no event serves a data connection between two resources")]
    NoEvent,
    #[error("a stimulus does not fit its event input")]
    BadStimulus,
    #[error("over a limit")]
    OverLimit,
}

impl Fault {
    /// The number of the refusal, from 20 to 30.
    pub fn number(self) -> u8
        ensures { result ≡ number_of self }
    {
        match self {
            Fault::NameTwice => 20,
            Fault::NameUnknown => 21,
            Fault::KindWrong => 22,
            Fault::OutOfRange => 23,
            Fault::TwoSources => 24,
            Fault::TooHigh => 25,
            Fault::NotMapped => 26,
            Fault::NoLink => 27,
            Fault::NoEvent => 28,
            Fault::BadStimulus => 29,
            Fault::OverLimit => 30,
        }
    }
}
