//! What the conditions at locations mean for a declaration and a deployment.

ghost use Rattle.fb_check.specs.types.Applies.{NoneLeftOut, UnknownApplies};

/// If a location is listed, its number applies: a name is unknown (E21).
pub fn locations_apply()
    ensures { UnknownApplies }
{}

/// All locations at which a name is unknown are listed.
pub fn locations_are_all()
    ensures { NoneLeftOut }
{}
