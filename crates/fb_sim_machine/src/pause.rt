//! Where a run pauses.

use fb_types::StopMark;

/// Why a run of all resources pauses.
#[derive(Clone, Copy)]
pub enum Pause {
    /// There are as many lines as were asked for. The run can go on.
    Lines,
    /// All events below the horizon are taken.
    Horizon,
    /// A resource has stopped.
    Stop(StopMark),
}

/// What came of taking one event.
#[derive(Clone, Copy)]
pub enum Step {
    /// Nothing waits below the horizon.
    Nothing,
    /// The least event was taken, at this tick in milliseconds.
    Took(u64),
    /// The least event was taken, and stopped its resource.
    Stopped(StopMark),
}
