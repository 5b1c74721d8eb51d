//! The checks of types and networks, from E22 to E25.

ghost use Rattle.std.specs.Prelude.{IfOk, IfErr};
ghost use Rattle.fb_check_names.specs.Catalog.{IsCatalog};
ghost use Rattle.fb_check_names.specs.Numbers.{IsResolved};
ghost use Rattle.fb_check.specs.Refusals.{IsCheckEnd, inputs_in};
ghost use Rattle.fb_check.specs.Verdicts.{HasPassed};

use crate::case::Case;
use crate::fault::Fault;
use crate::location::Location;
use crate::networks::{out_of_range_locations, too_high_location, two_sources_locations};
use crate::refusal::{CheckEnd, Refusal, passed};
use crate::types::kind_wrong_locations;
use fb_check_names::{Catalog, Resolved};
use std::alloc::Global;

/// E22: expressions, statements and values of the right kind.
fn judge_kinds(
    alloc: Global,
    case: &Case,
    catalog: &Catalog,
    resolved: &Resolved,
) -> Result<(), CheckEnd>
    requires catalog { IsCatalog case.now.library.now case.now.plan.now catalog.now }
    requires resolved { IsResolved case.now.library.now case.now.plan.now resolved.now }
    requires passed { HasPassed 22 case.now }
    ensures ok { IfOk result (λ _. HasPassed 23 case.now) }
    ensures refused { IfErr result (IsCheckEnd (inputs_in case.now)) }
{
    let found = kind_wrong_locations(alloc, case.library, catalog, resolved)?;
    let locations = found
        .into_iter()
        .map(|kind_wrong| Location::KindWrong(kind_wrong))
        .collect(alloc)?;
    passed(Fault::KindWrong, locations, ())
}

/// E23: data connections to types that contain all values.
fn judge_ranges(alloc: Global, case: &Case, resolved: &Resolved) -> Result<(), CheckEnd>
    requires resolved { IsResolved case.now.library.now case.now.plan.now resolved.now }
    requires passed { HasPassed 23 case.now }
    ensures ok { IfOk result (λ _. HasPassed 24 case.now) }
    ensures refused { IfErr result (IsCheckEnd (inputs_in case.now)) }
{
    let found = out_of_range_locations(alloc, case.library, resolved)?;
    let locations = found
        .into_iter()
        .map(|connection| Location::OutOfRange(connection))
        .collect(alloc)?;
    passed(Fault::OutOfRange, locations, ())
}

/// E24: one source for each port.
fn judge_sources(alloc: Global, case: &Case) -> Result<(), CheckEnd>
    requires { HasPassed 24 case.now }
    ensures ok { IfOk result (λ _. HasPassed 25 case.now) }
    ensures refused { IfErr result (IsCheckEnd (inputs_in case.now)) }
{
    let found = two_sources_locations(alloc, case.library)?;
    let locations = found
        .into_iter()
        .map(|joined| Location::TwoSources(joined))
        .collect(alloc)?;
    passed(Fault::TwoSources, locations, ())
}

/// The checks from E22 to E25: those above, one source for each port, and composites of a height up to 16.
pub fn judge_networks(
    alloc: Global,
    case: &Case,
    catalog: &Catalog,
    resolved: &Resolved,
) -> Result<(), CheckEnd>
    requires catalog { IsCatalog case.now.library.now case.now.plan.now catalog.now }
    requires resolved { IsResolved case.now.library.now case.now.plan.now resolved.now }
    ensures ok { IfOk result (λ _. HasPassed 26 case.now) }
    ensures refused { IfErr result (IsCheckEnd (inputs_in case.now)) }
{
    judge_kinds(alloc, case, catalog, resolved)?;
    judge_ranges(alloc, case, resolved)?;
    judge_sources(alloc, case)?;
    match too_high_location(alloc, resolved)? {
        Some(too_high) => {
            let high = Location::TooHigh(too_high);
            Err(CheckEnd::Refused(Refusal::at(alloc, Fault::TooHigh, high)?))
        }
        None => Ok(()),
    }
}
