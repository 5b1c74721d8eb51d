//! What the conditions at locations mean for a declaration.

ghost use Rattle.fb_check.specs.types.KindsApply.{KindWrongApplies};

/// If a location is listed, its number applies: a value, an expression or a statement has the wrong kind (E22).
pub fn locations_apply()
    ensures { KindWrongApplies }
{}
