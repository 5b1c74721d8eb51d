//! The checks in the order of their numbers.

ghost use Rattle.std.specs.Prelude.{◌≡◌, IfOk, IfErr, MatchOption};
ghost use Rattle.fb_check_names.specs.Catalog.{IsCatalog};
ghost use Rattle.fb_check_names.specs.Numbers.{IsResolved};
ghost use Rattle.fb_system.specs.Linking.{holders_of};
ghost use Rattle.fb_system.specs.Rows.{AreRows};
ghost use Rattle.fb_check.specs.Refusals.{IsCheckEnd, IsRefusal, IsRightly, inputs_in};
ghost use Rattle.fb_check.specs.Verdicts.{AreAccepted, HasPassed};

use crate::case::{Case, Judged};
use crate::error::CheckError;
use crate::fault::Fault;
use crate::location::{Limit, Location};
use crate::mapping_checks::judge_mapping;
use crate::network_checks::judge_networks;
use crate::networks::has_too_many_instances;
use crate::refusal::{CheckEnd, Refusal, passed};
use crate::stimuli::stimulus_rows;
use crate::types::resolve;
use fb_check_names::{Catalog, Resolved, catalog_of};
use fb_system::StimulusRow;
use fb_types::{Items, MOST_STIMULI};
use std::alloc::{AllocError, Global};

/// E20: the indexes of all names, if none is given twice.
fn catalog<'a>(alloc: Global, case: &Case<'a>) -> Result<Catalog<'a>, CheckEnd>
    ensures ok { IfOk result (IsCatalog case.now.library.now case.now.plan.now) }
    ensures refused { IfErr result (IsCheckEnd (inputs_in case.now)) }
{
    let mut found = Vec::new(alloc);
    let catalog = catalog_of(alloc, &mut found, case.library, case.plan)?;
    let locations = found
        .into_iter()
        .map(|given| Location::NameTwice(given))
        .collect(alloc)?;
    passed(Fault::NameTwice, locations, catalog)
}

/// E21: the numbers of all names, if each is known.
fn numbers(alloc: Global, case: &Case, catalog: &Catalog) -> Result<Resolved, CheckEnd>
    requires { IsCatalog case.now.library.now case.now.plan.now catalog.now }
    ensures ok { IfOk result (IsResolved case.now.library.now case.now.plan.now) }
    ensures refused { IfErr result (IsCheckEnd (inputs_in case.now)) }
{
    let mut found = Vec::new(alloc);
    let resolved = resolve(alloc, &mut found, case.library, case.plan, catalog)?;
    let locations = found
        .into_iter()
        .map(|name| Location::NameUnknown(name))
        .collect(alloc)?;
    passed(Fault::NameUnknown, locations, resolved)
}

/// E29: the stimuli by number, if each fits.
fn judge_stimuli(
    alloc: Global,
    case: &Case,
    catalog: &Catalog,
) -> Result<Items<StimulusRow>, CheckEnd>
    requires catalog { IsCatalog case.now.library.now case.now.plan.now catalog.now }
    requires passed { HasPassed 29 case.now }
    ensures rows { IfOk result (AreRows case.now.library.now case.now.stimuli.now) }
    ensures ok { IfOk result (λ _. HasPassed 30 case.now) }
    ensures refused { IfErr result (IsCheckEnd (inputs_in case.now)) }
{
    let mut found = Vec::new(alloc);
    let rows = stimulus_rows(alloc, &mut found, case.library, catalog, case.stimuli)?;
    let locations = found
        .into_iter()
        .map(|stimulus| Location::BadStimulus(stimulus))
        .collect(alloc)?;
    passed(Fault::BadStimulus, locations, rows)
}

/// E30: whether the inputs keep the limits.
fn judge_limits(alloc: Global, case: &Case, resolved: &Resolved) -> Result<(), CheckEnd>
    requires resolved { IsResolved case.now.library.now case.now.plan.now resolved.now }
    requires passed { HasPassed 30 case.now }
    ensures ok { IfOk result (λ _. AreAccepted case.now) }
    ensures refused { IfErr result (IsCheckEnd (inputs_in case.now)) }
{
    if case.stimuli.len() > MOST_STIMULI {
        let many = Location::OverLimit(Limit::Stimuli);
        return Err(CheckEnd::Refused(Refusal::at(alloc, Fault::OverLimit, many)?));
    }
    if has_too_many_instances(alloc, resolved)? {
        let many = Location::OverLimit(Limit::Instances);
        return Err(CheckEnd::Refused(Refusal::at(alloc, Fault::OverLimit, many)?));
    }
    Ok(())
}

/// The checks from E22 on, by the indexes and the numbers of names. Returns, for each instance of the application, the
/// resource that holds it, and the stimuli by number.
fn judge_by_numbers(
    alloc: Global,
    case: &Case,
    catalog: &Catalog,
    resolved: &Resolved,
) -> Result<(Items<usize>, Items<StimulusRow>), CheckEnd>
    requires catalog { IsCatalog case.now.library.now case.now.plan.now catalog.now }
    requires resolved { IsResolved case.now.library.now case.now.plan.now resolved.now }
    ensures accepted { IfOk result (λ _. AreAccepted case.now) }
    ensures holders { IfOk result (λ made. made.0 ≡ holders_of case.now.library.now case.now.plan.now) }
    ensures rows { IfOk result (λ made. AreRows case.now.library.now case.now.stimuli.now made.1) }
    ensures refused { IfErr result (IsCheckEnd (inputs_in case.now)) }
{
    judge_networks(alloc, case, catalog, resolved)?;
    let holders = judge_mapping(alloc, case, resolved)?;
    let rows = judge_stimuli(alloc, case, catalog)?;
    judge_limits(alloc, case, resolved)?;
    Ok((holders, rows))
}

/// What the check makes of inputs that are accepted, or why it ends before.
fn try_judge<'a>(alloc: Global, case: &Case<'a>) -> Result<Judged<'a>, CheckEnd>
    ensures accepted { IfOk result (λ _. AreAccepted case.now) }
    ensures catalog { IfOk result (λ j. IsCatalog case.now.library.now case.now.plan.now j.catalog) }
    ensures numbers { IfOk result (λ j. IsResolved case.now.library.now case.now.plan.now j.numbers) }
    ensures holders { IfOk result (λ j. j.holders ≡ holders_of case.now.library.now case.now.plan.now) }
    ensures rows { IfOk result (λ j. AreRows case.now.library.now case.now.stimuli.now j.rows) }
    ensures refused { IfErr result (IsCheckEnd (inputs_in case.now)) }
{
    let catalog = catalog(alloc, case)?;
    let numbers = numbers(alloc, case, &catalog)?;
    let (holders, rows) = judge_by_numbers(alloc, case, &catalog, &numbers)?;
    Ok(Judged {
        catalog,
        numbers,
        holders,
        rows,
    })
}

/// What the check makes of inputs that are accepted. The errors are those of `judge`.
pub fn judged<'a>(alloc: Global, case: &Case<'a>) -> Result<Judged<'a>, CheckError>
    ensures accepted { IfOk result (λ _. AreAccepted case.now) }
    ensures catalog { IfOk result (λ j. IsCatalog case.now.library.now case.now.plan.now j.catalog) }
    ensures numbers { IfOk result (λ j. IsResolved case.now.library.now case.now.plan.now j.numbers) }
    ensures holders { IfOk result (λ j. j.holders ≡ holders_of case.now.library.now case.now.plan.now) }
    ensures rows { IfOk result (λ j. AreRows case.now.library.now case.now.stimuli.now j.rows) }
    ensures refused { IfErr result (IsRightly (inputs_in case.now)) }
{
    match try_judge(alloc, case) {
        Ok(judged) => Ok(judged),
        Err(end) => Err(end.error()),
    }
}

/// Checks whether the inputs are accepted.
///
/// # Errors
///
/// `Refused` with the least number from E20 to E30 that applies, and `Memory`.
pub fn judge(alloc: Global, case: &Case) -> Result<(), CheckError>
    ensures accepted { IfOk result (λ _. AreAccepted case.now) }
    ensures refused { IfErr result (IsRightly (inputs_in case.now)) }
{
    match judged(alloc, case) {
        Ok(judged) => {
            drop(judged);
            Ok(())
        }
        Err(error) => Err(error),
    }
}

/// Why the inputs are refused, with all locations at which the least number applies. `None` if they are accepted.
///
/// # Errors
///
/// When memory runs out.
pub fn why_refused(alloc: Global, case: &Case) -> Result<Option<Refusal>, AllocError>
    ensures { IfOk result (λ o. MatchOption o (AreAccepted case.now) (IsRefusal (inputs_in case.now))) }
{
    match try_judge(alloc, case) {
        Ok(judged) => {
            drop(judged);
            Ok(None)
        }
        Err(end) => match end.refusal() {
            Some(refusal) => Ok(Some(refusal)),
            None => Err(AllocError),
        },
    }
}
