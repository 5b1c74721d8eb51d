//! The view of a stimulus.

use fb_types::{InputValue, Target};

/// A stimulus of a system: its tick in milliseconds, the event input that it triggers, and the slots that it sets.
#[derive(Clone, Copy)]
pub struct StimulusAt<'a> {
    /// In milliseconds.
    pub tick: u64,
    /// The event input.
    pub target: Target,
    /// The slots that it sets before the event is taken.
    pub sets: &'a [InputValue],
}
