//! What the conditions at locations mean for a declaration and a deployment.

ghost use Rattle.fb_check_names.specs.Applies.{TwiceApplies};

/// If a location is listed, its number applies: something is given twice (E20).
pub fn locations_apply()
    ensures { TwiceApplies }
{}
