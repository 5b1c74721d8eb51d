//! Where a refusal applies to inputs that can be read.

ghost use Rattle.std.specs.Prelude.{IfOk};
ghost use Rattle.fb_why.specs.Listings.{AreLocations};

use crate::roots::reported;
use fb_check::{Case, Fault, Location, why_refused};
use std::alloc::{AllocError, Global};

/// The locations at which the refusal applies to inputs, if the check refuses them for this fault: all, in the order of
/// the declaration or of the stimuli. Of unknown names it is those that do not follow from an unknown type, of types that
/// are too high and of limits one.
pub fn locations_in(alloc: Global, fault: Fault, case: &Case) -> Result<Vec<Location>, AllocError>
    ensures { IfOk result (λ found. AreLocations fault case.now.library.now case.now.plan.now case.now.stimuli.now found.items) }
{
    let Some(refusal) = why_refused(alloc, case)? else {
        return Ok(Vec::new(alloc));
    };
    if refusal.fault.number() != fault.number() {
        return Ok(Vec::new(alloc));
    }
    reported(alloc, fault, case.library, refusal.into_locations())
}
