//! What one resource does by itself, and what the simulation of all resources has of it.

ghost use Rattle.fb_laws.specs.ResourceLaw.{OfEach, HasHistories, OneRun, HasLines, HasStops};

/// A resource that runs alone has its history.
///
/// What the one-thread simulation has of a resource at a tick is what the events of that resource alone, taken one
/// after another below the tick, leave, where the simulation's messages to it wait under the keys of their arrivals.
/// What the resource takes alone is one thing. The lines of the simulation below a tick are the resources' lines by
/// tick, then resource. The simulation stops at a tick and resource exactly where that resource alone stops there.
///
/// This holds of every simulation of accepted inputs. This function does nothing when it runs, and no program calls
/// it: it is there for its contract.
pub fn histories()
    ensures alone { OfEach HasHistories }
    ensures one { OfEach OneRun }
    ensures lines { OfEach HasLines }
    ensures stops { OfEach HasStops }
{}
