//! Stimuli by number.

use fb_types::{InputValue, Items};

/// A stimulus by number.
#[derive(Drop)]
pub struct StimulusRow {
    /// In milliseconds.
    pub tick: u64,
    /// The index among the instances of the application's network.
    pub instance: u32,
    /// The index among the event inputs of the instance's type.
    pub event: u32,
    /// The slots that it sets, in the order of the stimulus. The indexes are among the data inputs of the type.
    pub sets: Items<InputValue>,
}
