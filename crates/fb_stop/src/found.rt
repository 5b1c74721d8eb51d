//! What is found of a stop.

ghost use Rattle.std.specs.Prelude.{◌≡◌};
ghost use Rattle.fb_stop.specs.Found.{instance_of};

use crate::site::Site;
use fb_types::{Key, Reason, Target};

/// Where an event arrives.
#[derive(Clone, Copy)]
pub enum EventSite {
    /// It is the timer of the instance of this number.
    Timer(u32),
    /// A port of an instance.
    Port(Target),
}

/// What gives the reason.
#[derive(Clone, Copy)]
pub enum StopSite {
    /// No step is left for the event: it is not taken.
    BeforeEvent,
    /// The reaction of the basic block at whose port the event arrives.
    InReaction(Site),
}

/// A stop of a simulation.
#[derive(Clone, Copy)]
pub struct FoundStop {
    /// The key of the event at which it stops.
    pub key: Key,
    /// Where this event arrives.
    pub at: EventSite,
    pub reason: Reason,
    pub site: StopSite,
}

/// The number of the instance at which an event arrives.
pub(crate) fn instance_of(at: EventSite) -> u32
    ensures { result ≡ instance_of at }
{
    match at {
        EventSite::Timer(instance) => instance,
        EventSite::Port(target) => target.instance,
    }
}
