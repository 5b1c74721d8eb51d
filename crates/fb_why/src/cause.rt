//! What a refusal is about, by its number.

ghost use Rattle.std.specs.Prelude.{◌≡◌};
ghost use Rattle.fb_why.specs.Causes.{IsCause, is_of_stimuli};

use fb_check::Fault;

/// What a refusal is about.
#[derive(Clone, Copy)]
pub enum Cause {
    /// The text of the declaration (E01 to E05).
    Text,
    /// The bytes of the deployment or of the stimuli (E10 to E16).
    Bytes,
    /// What the inputs say together (E20 to E30).
    Check(Fault),
    /// No location is reported.
    Other,
}

/// Whether a refusal is about the stimuli too.
pub(crate) fn is_of_stimuli(fault: Fault) -> bool
    ensures { result ≡ is_of_stimuli fault }
{
    matches!(fault, Fault::BadStimulus | Fault::OverLimit)
}

/// What the refusal with this number is about.
pub(crate) fn cause_of(number: u8) -> Cause
    ensures { IsCause number result }
{
    match number {
        1..=5 => Cause::Text,
        10..=16 => Cause::Bytes,
        20 => Cause::Check(Fault::NameTwice),
        21 => Cause::Check(Fault::NameUnknown),
        22 => Cause::Check(Fault::KindWrong),
        23 => Cause::Check(Fault::OutOfRange),
        24 => Cause::Check(Fault::TwoSources),
        25 => Cause::Check(Fault::TooHigh),
        26 => Cause::Check(Fault::NotMapped),
        27 => Cause::Check(Fault::NoLink),
        28 => Cause::Check(Fault::NoEvent),
        29 => Cause::Check(Fault::BadStimulus),
        30 => Cause::Check(Fault::OverLimit),
        _ => Cause::Other,
    }
}
