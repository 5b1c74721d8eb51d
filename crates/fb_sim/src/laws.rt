//! What follows from the promise of a round.

ghost use Rattle.fb_sim.specs.Horizons.{HorizonsRise};

/// A run goes on beyond its horizon: where rounds have led to the horizon, the core has come as far on the way to each later
/// one, with the same lines. So the promise of `round` holds of a chain of rounds whose horizons rise, from the opening on.
///
/// This function does nothing when it runs, and no program calls it: it is there for its contract.
pub fn horizons_rise()
    ensures { HorizonsRise }
{}
