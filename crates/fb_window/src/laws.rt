//! What every schedule of core steps leads to.

ghost use Rattle.fb_laws.specs.Phases.{HasPhases};
ghost use Rattle.fb_laws.specs.ScheduleLaw.{OfEachSchedule, HasStates, HasMessages, HasEnd, HasStop, HasFinalLines};

/// Any schedule of the core's steps gives the simulation that always takes the least key.
///
/// A resource that has not stopped is at its history for its clock. A message that was sent and not taken is in its
/// sender's outbox or on its receiver's agenda, and nothing else arrives. At the horizon the lines of the core, by tick,
/// then resource, are those of the simulation, which ends there. At the least stop, which all that have not stopped
/// are past, the simulation stops, and its lines are those of the core, cut after the stop. The final lines of a core
/// are what the lines of the simulation begin with. Resources that may leave together may do so, and come back, in any
/// order, and all orders lead to one core.
///
/// This holds of every schedule of accepted inputs, with any number of workers. This function does nothing when it
/// runs, and no program calls it: it is there for its contract.
pub fn schedules()
    ensures states { OfEachSchedule HasStates }
    ensures messages { OfEachSchedule HasMessages }
    ensures end { OfEachSchedule HasEnd }
    ensures stop { OfEachSchedule HasStop }
    ensures finals { OfEachSchedule HasFinalLines }
    ensures phases { OfEachSchedule HasPhases }
{}
