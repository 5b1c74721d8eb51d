//! Laws of the definitions that contracts cite.

ghost use Rattle.fb_laws.specs.Simulations.{AcceptedAreTyped, SimulationsAreTyped};
ghost use Rattle.fb_laws.specs.Typed.{TypesAreKept};

/// Where sources fit what they feed, a reaction to an event that carries values of their types leaves each variable
/// with a value of its type, and what it sends carries such values.
///
/// This function does nothing when it runs, and no program calls it: it is there for its contract.
pub fn types_are_kept()
    ensures { TypesAreKept }
{}

/// What was accepted is typed: sources fit what they feed, no other variable has the name of an output, each variable
/// begins with a value of its type, and stimuli set such values.
///
/// This function does nothing when it runs, and no program calls it: it is there for its contract.
pub fn accepted_are_typed()
    ensures { AcceptedAreTyped }
{}

/// In each simulation of what was accepted, each event that is taken has values of the types of its variables, and
/// leaves each variable with a value of its type.
///
/// This function does nothing when it runs, and no program calls it: it is there for its contract.
pub fn simulations_are_typed()
    ensures { SimulationsAreTyped }
{}
