//! Why inputs are refused, and where.

ghost use Rattle.std.specs.Prelude.{◌≡◌, ◌≢◌, [], ◌∷◌, ⊤, IfOk, IfErr, MatchOption};
ghost use Rattle.fb_types.specs.Headline.{Inputs};
ghost use Rattle.fb_check.specs.Refusals.{IsCheckEnd, IsRefusal, error_of};
ghost use Rattle.fb_check.specs.declared.refusal.CheckEnd.TheVariants.{Memory, Refused};

use crate::error::CheckError;
use crate::fault::Fault;
use crate::location::Location;
use std::alloc::{AllocError, Global};

/// Why inputs are refused, and where: all locations at which the fault applies, in the order of the declaration or of
/// the stimuli. Of types that are too high and of limits it is one.
pub struct Refusal {
    /// The fault with the least number, of those that apply.
    pub fault: Fault,
    /// Where it applies: one location at least, each of this fault.
    pub locations: Vec<Location>,
}

// Drop is written by hand, so that callers need not prove it again (docs/DECISIONS.md, "Drop").
impl Drop for Refusal {
    fn drop(self) {
        let Refusal {
            fault: _,
            locations: _,
        } = self;
    }
}

impl Refusal {
    /// A refusal at one location.
    pub(crate) fn at(alloc: Global, fault: Fault, location: Location) -> Result<Refusal, AllocError>
        ensures { IfOk result (λ r. (r.fault ≡ fault) × (r.locations.items ≡ location ∷ [])) }
    {
        let mut locations = Vec::new(alloc);
        locations.push(location)?;
        Ok(Refusal { fault, locations })
    }

    /// The locations alone.
    pub fn into_locations(self) -> Vec<Location>
        ensures { result.items ≡ self.locations.items }
    {
        let Refusal {
            fault: _,
            locations,
        } = self;
        locations
    }
}

/// Why a check ends before its last number.
pub enum CheckEnd {
    Memory,
    /// The inputs are refused.
    Refused(Refusal),
}

impl Drop for CheckEnd {
    fn drop(self) {
        match self {
            CheckEnd::Memory | CheckEnd::Refused(_) => {}
        }
    }
}

impl From<AllocError> for CheckEnd {
    ghost from_gives = { λ _ e. e ≡ Memory };

    fn from(_error: AllocError) -> CheckEnd {
        CheckEnd::Memory
    }
}

impl CheckEnd {
    /// The error of a check that ends so.
    pub(crate) fn error(&self) -> CheckError
        ensures { result ≡ error_of self.now }
    {
        match self {
            CheckEnd::Memory => CheckError::Memory,
            CheckEnd::Refused(refusal) => CheckError::Refused(refusal.fault),
        }
    }

    /// Why the inputs are refused, unless memory ran out.
    pub(crate) fn refusal(self) -> Option<Refusal>
        ensures { (i : Inputs) → IsCheckEnd i self → MatchOption result ⊤ (IsRefusal i) }
    {
        match self {
            CheckEnd::Memory => None,
            CheckEnd::Refused(refusal) => Some(refusal),
        }
    }
}

/// What a check made, if it found no location. Otherwise the check ends, and the inputs are refused for this fault.
pub(crate) fn passed<T: Drop>(
    fault: Fault,
    locations: Vec<Location>,
    made: T,
) -> Result<T, CheckEnd>
    ensures ok { IfOk result (λ x. (x ≡ made) × (locations.items ≡ [])) }
    ensures refused { IfErr result (λ e. (e ≡ Refused (record { fault = fault; locations = locations })) × (locations.items ≢ [])) }
{
    if locations.is_empty() {
        Ok(made)
    } else {
        Err(CheckEnd::Refused(Refusal { fault, locations }))
    }
}
