//! The checks of how instances and connections are mapped, from E26 to E28.

ghost use Rattle.std.specs.Prelude.{◌≡◌, IfOk, IfErr};
ghost use Rattle.fb_check_names.specs.Numbers.{IsResolved};
ghost use Rattle.fb_system.specs.Linking.{holders_of};
ghost use Rattle.fb_check.specs.Refusals.{IsCheckEnd, inputs_in};
ghost use Rattle.fb_check.specs.Verdicts.{HasPassed};
ghost use Rattle.fb_check.specs.networks.Mapping.{IsMapping};

use crate::case::Case;
use crate::fault::Fault;
use crate::location::Location;
use crate::networks::{Mapping, holders_of, mapping_of, no_event_locations, no_link_locations};
use crate::refusal::{CheckEnd, passed};
use fb_check_names::Resolved;
use fb_types::Items;
use std::alloc::Global;

/// E26: the resources of instances, if each instance is mapped to one.
fn mapping<'a>(alloc: Global, case: &Case<'a>) -> Result<Mapping<'a>, CheckEnd>
    requires { HasPassed 26 case.now }
    ensures mapping { IfOk result (IsMapping case.now.library.now case.now.plan.now) }
    ensures ok { IfOk result (λ _. HasPassed 27 case.now) }
    ensures refused { IfErr result (IsCheckEnd (inputs_in case.now)) }
{
    let mut found = Vec::new(alloc);
    let mapping = mapping_of(alloc, &mut found, case.library, case.plan)?;
    let locations = found
        .into_iter()
        .map(|not_mapped| Location::NotMapped(not_mapped))
        .collect(alloc)?;
    passed(Fault::NotMapped, locations, mapping)
}

/// E27: a link for each connection between two resources.
fn judge_links(alloc: Global, case: &Case, mapping: &Mapping) -> Result<(), CheckEnd>
    requires mapping { IsMapping case.now.library.now case.now.plan.now mapping.now }
    requires passed { HasPassed 27 case.now }
    ensures ok { IfOk result (λ _. HasPassed 28 case.now) }
    ensures refused { IfErr result (IsCheckEnd (inputs_in case.now)) }
{
    let found = no_link_locations(alloc, case.library, case.plan, mapping)?;
    let locations = found
        .into_iter()
        .map(|connection| Location::NoLink(connection))
        .collect(alloc)?;
    passed(Fault::NoLink, locations, ())
}

/// E28: an event for each data connection between two resources.
fn judge_events(
    alloc: Global,
    case: &Case,
    mapping: &Mapping,
    resolved: &Resolved,
) -> Result<(), CheckEnd>
    requires mapping { IsMapping case.now.library.now case.now.plan.now mapping.now }
    requires resolved { IsResolved case.now.library.now case.now.plan.now resolved.now }
    requires passed { HasPassed 28 case.now }
    ensures ok { IfOk result (λ _. HasPassed 29 case.now) }
    ensures refused { IfErr result (IsCheckEnd (inputs_in case.now)) }
{
    let found = no_event_locations(alloc, case.library, case.plan, mapping, resolved)?;
    let locations = found
        .into_iter()
        .map(|connection| Location::NoEvent(connection))
        .collect(alloc)?;
    passed(Fault::NoEvent, locations, ())
}

/// The checks from E26 to E28: each instance is mapped once, there is a link for each connection between two resources,
/// and an event for each data connection between two. Returns, for each instance of the application, the resource that
/// holds it.
pub fn judge_mapping(
    alloc: Global,
    case: &Case,
    resolved: &Resolved,
) -> Result<Items<usize>, CheckEnd>
    requires resolved { IsResolved case.now.library.now case.now.plan.now resolved.now }
    requires passed { HasPassed 26 case.now }
    ensures holders { IfOk result (λ h. h ≡ holders_of case.now.library.now case.now.plan.now) }
    ensures ok { IfOk result (λ _. HasPassed 29 case.now) }
    ensures refused { IfErr result (IsCheckEnd (inputs_in case.now)) }
{
    let mapping = mapping(alloc, case)?;
    judge_links(alloc, case, &mapping)?;
    judge_events(alloc, case, &mapping, resolved)?;
    let holders = holders_of(alloc, case.library, &mapping)?;
    Ok(holders)
}
