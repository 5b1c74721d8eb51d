//! What acceptance guarantees of links and resources.

ghost use Rattle.fb_laws.specs.Sound.{AcceptedAreSound};

/// An accepted system is sound: a message arrives later than it was sent, what leaves a resource goes over a link that
/// exists, and the ends of links are resources of the system.
///
/// This function does nothing when it runs, and no program calls it: it is there for its contract.
pub fn accepted_are_sound()
    ensures { AcceptedAreSound }
{}
