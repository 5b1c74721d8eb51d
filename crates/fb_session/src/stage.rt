//! How far a session is.

use crate::fault::SessionFault;
use fb_types::StopMark;

/// How far a session is.
#[derive(Clone, Copy)]
pub enum Stage {
    /// It goes on.
    Running,
    /// A resource has stopped.
    Stopped(StopMark),
    /// A call failed of this: it ran out of memory or could not write.
    Failed(SessionFault),
}
