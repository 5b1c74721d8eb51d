//! What becomes of an event that is taken.

use fb_types::Reason;

/// What became of an event that was taken.
#[derive(Clone, Copy)]
pub struct Taken {
    /// Why its resource stops, if it does.
    pub stop: Option<Reason>,
    /// Whether `Least` has the local event that was put out, which is on no agenda. That is so if nothing else was put
    /// out, nothing is asked of the timer, and the resource goes on. All else is posted.
    pub raised: bool,
}
