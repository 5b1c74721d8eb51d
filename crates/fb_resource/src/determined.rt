//! The one-thread simulation is there, and takes keys in rising order.

ghost use Rattle.fb_laws.specs.GivenRows.{RowsMayFollow};
ghost use Rattle.fb_laws.specs.ResourceLaw.{HasSimulation, HasRisingKeys, OfEach};

/// Accepted inputs have a simulation, to each horizon and with each limit on steps. `fb_types::laws::one_simulation`
/// says that it is the only one.
///
/// This function does nothing when it runs, and no program calls it: it is there for its contract.
pub fn simulation_exists()
    ensures { HasSimulation }
{}

/// Every new key is greater than the one taken.
///
/// In each simulation of accepted inputs a local event, a timer or a message is put under a key that is greater than
/// that of the event whose taking puts it there. So nothing is put before what was taken already.
///
/// This function does nothing when it runs, and no program calls it: it is there for its contract.
pub fn keys_rise()
    ensures { OfEach HasRisingKeys }
{}

/// A row of stimuli may be given while the simulation goes on, if its key comes after every key taken.
///
/// The same takings are then those of the simulation with the row at the end of its stimuli, and what waits is what
/// waited and the row. So it makes no difference when a row is given, as long as it is not late.
///
/// This function does nothing when it runs, and no program calls it: it is there for its contract.
pub fn rows_may_follow()
    ensures { RowsMayFollow }
{}
