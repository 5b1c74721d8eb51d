//! The progress of a run.

use fb_types::StopMark;
use fb_window::Core;

/// The progress of a run after a round.
#[derive(Drop)]
pub enum Round {
    /// Some resource has ticks to run yet.
    Going(Core),
    /// Every clock is at the horizon, and all lines are written.
    Ended(Core),
    /// A resource has stopped, and all lines up to its stop are written.
    Stopped(StopMark),
}
