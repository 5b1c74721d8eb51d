//! Locations at which refusals apply, and limits.

use fb_check_names::{
    GivenTwice, KindWrongAt, NoLinkAt, NotMappedAt, OutOfRangeAt, TooHighAt, TwoSourcesAt,
    UnknownName,
};

/// A location at which a refusal applies, under the name of its fault. It counts what is meant by its indexes in the
/// lists of a declaration, a deployment or stimuli.
#[derive(Clone, Copy)]
pub enum Location {
    /// What is given twice (E20).
    NameTwice(GivenTwice),
    /// A name that nothing of the required kind has (E21).
    NameUnknown(UnknownName),
    /// An expression, a statement or a value of a wrong kind (E22).
    KindWrong(KindWrongAt),
    /// A data connection to a type that does not contain all values (E23).
    OutOfRange(OutOfRangeAt),
    /// Two data connections that lead to one port (E24).
    TwoSources(TwoSourcesAt),
    /// A composite type that contains itself or is too high (E25).
    TooHigh(TooHighAt),
    /// An instance of the application that is not mapped to one resource (E26).
    NotMapped(NotMappedAt),
    /// A connection between two resources without a link (E27).
    NoLink(NoLinkAt),
    /// A data connection between two resources that no event serves, by its index in the application (E28).
    NoEvent(usize),
    /// A stimulus that the application can't take (E29).
    BadStimulus(StimulusLocation),
    /// A limit that is exceeded (E30).
    OverLimit(Limit),
}

/// What is wrong with a stimulus (E29). Settings are counted from 0.
#[derive(Clone, Copy)]
pub enum StimulusFault {
    /// It names no event input of an instance of the application.
    Event,
    /// It sets a variable that does not go WITH the event, to which a connection leads, or whose type does not contain
    /// the value.
    Setting(usize),
    /// It sets a variable that a setting before this one sets.
    Twice(usize),
}

/// A stimulus that the application can't take, counted from 0 (E29).
#[derive(Clone, Copy)]
pub struct StimulusLocation {
    /// The index of the row.
    pub row: usize,
    /// What is wrong with it.
    pub fault: StimulusFault,
}

/// A limit on inputs (E30).
#[derive(Clone, Copy)]
pub enum Limit {
    /// The number of instances, including components.
    Instances,
    Stimuli,
}
