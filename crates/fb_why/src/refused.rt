//! Where the bytes of a declaration, of a deployment or of stimuli are refused.

ghost use Rattle.std.specs.Prelude.{◌≡◌, None, IfOk, IfSome, MatchOption, option_map};
ghost use Rattle.fb_why.specs.Findings.{IsFoundAt, IsSilentOfBytes, IsSilentOfDeployment, IsSilentOfStimuli, IsSilentOfText, FindsInBytes, FindsInDeployment, FindsInStimuli, FindsInText};
ghost use Rattle.fb_why.specs.Places.{IsPlacedFinding};

use crate::location::{Finding, FindingLocation};
use crate::place::PlacedFinding;
use crate::{deployment_message, stimuli_message, text_message, text_refusal};
use fb_inputs::{deployment_location, stimuli_location};
use fb_read_positions::Place;
use std::alloc::{AllocError, Global};

/// A finding at a location, with its place if it has one in the declaration, or an error if memory ran out for its text.
fn found(
    location: FindingLocation,
    place: Option<Place>,
    text: Result<String, AllocError>,
) -> Result<Option<PlacedFinding>, AllocError>
    ensures { IfOk result (IsFoundAt location place) }
{
    let text = text?;
    let finding = Finding { location, text };
    Ok(Some(PlacedFinding { finding, place }))
}

/// Where the text of a declaration is refused, if its refusal has this number.
pub fn text_finding(
    alloc: Global,
    number: u8,
    declaration: &[u8],
) -> Result<Option<PlacedFinding>, AllocError>
    ensures found { IfOk result (λ o. MatchOption o (IsSilentOfText number declaration.now) (λ r. FindsInText number declaration.now r.finding.location)) }
    ensures placed { IfOk result (λ o. IfSome o (IsPlacedFinding declaration.now)) }
{
    let Some(refused) = text_refusal(alloc, declaration)? else {
        return Ok(None);
    };
    if refused.refusal.fault.number() != number {
        return Ok(None);
    }
    let words = text_message(alloc, declaration, refused);
    found(
        FindingLocation::Text(refused.place),
        Some(refused.place),
        words,
    )
}

/// Where the bytes of a deployment, if given, are refused, if their refusal has this number.
fn deployment_finding(
    alloc: Global,
    number: u8,
    deploy: Option<&[u8]>,
) -> Result<Option<PlacedFinding>, AllocError>
    ensures found { let plan = option_map (λ b. b.now) deploy.entry in
        IfOk result (λ o. MatchOption o (IfSome plan (IsSilentOfDeployment number)) (λ r. FindsInDeployment number plan r.finding.location)) }
    ensures elsewhere { IfOk result (λ o. IfSome o (λ r. r.place ≡ None)) }
{
    let Some(bytes) = deploy else {
        return Ok(None);
    };
    match deployment_location(alloc, bytes)? {
        Some(location) if location.number() == number => {
            let words = deployment_message(alloc, bytes, location);
            found(FindingLocation::Deployment(location), None, words)
        }
        _ => Ok(None),
    }
}

/// Where the bytes of stimuli, if given, are refused, if their refusal has this number.
fn stimuli_finding(
    alloc: Global,
    number: u8,
    stimuli: Option<&[u8]>,
) -> Result<Option<PlacedFinding>, AllocError>
    ensures found { let rows = option_map (λ b. b.now) stimuli.entry in
        IfOk result (λ o. MatchOption o (IfSome rows (IsSilentOfStimuli number)) (λ r. FindsInStimuli number rows r.finding.location)) }
    ensures elsewhere { IfOk result (λ o. IfSome o (λ r. r.place ≡ None)) }
{
    let Some(bytes) = stimuli else {
        return Ok(None);
    };
    match stimuli_location(alloc, bytes)? {
        Some(location) if location.number() == number => {
            let words = stimuli_message(alloc, bytes, location);
            found(FindingLocation::Stimuli(location), None, words)
        }
        _ => Ok(None),
    }
}

/// Where the bytes of a deployment or those of stimuli are refused with this number.
pub fn bytes_finding(
    alloc: Global,
    number: u8,
    deploy: Option<&[u8]>,
    stimuli: Option<&[u8]>,
) -> Result<Option<PlacedFinding>, AllocError>
    ensures found { let plan = option_map (λ b. b.now) deploy.entry in let rows = option_map (λ b. b.now) stimuli.entry in
        IfOk result (λ o. MatchOption o (IsSilentOfBytes number plan rows) (λ r. FindsInBytes number plan rows r.finding.location)) }
    ensures elsewhere { IfOk result (λ o. IfSome o (λ r. r.place ≡ None)) }
{
    match deployment_finding(alloc, number, deploy)? {
        Some(finding) => Ok(Some(finding)),
        None => stimuli_finding(alloc, number, stimuli),
    }
}
