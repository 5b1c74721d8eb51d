//! What the conditions at locations mean for a declaration and a deployment.

ghost use Rattle.fb_check.specs.networks.Applies.{TooHighApplies, TwoSourcesApplies, OutOfRangeApplies, NoLinkApplies, NotMappedApplies, NoEventApplies};

/// If a location is listed, its number applies:
///
/// - E23: a data connection leads to a type that does not contain all values of the source type.
/// - E24: two data connections lead to one port.
/// - E25: a composite type is too high or contains itself.
/// - E26: an instance is not mapped to one resource.
/// - E27: a connection between two resources has no link.
/// - E28: no event serves a data connection between two resources.
pub fn locations_apply()
    ensures out_of_range { OutOfRangeApplies }
    ensures joined { TwoSourcesApplies }
    ensures too_high { TooHighApplies }
    ensures not_mapped { NotMappedApplies }
    ensures no_link { NoLinkApplies }
    ensures no_event { NoEventApplies }
{}
