//! Finds where a refusal applies: reads the bytes again, and searches for the locations at which the refusal applies.

ghost use Rattle.std.specs.Prelude.{All, IfOk, MatchOption, option_map};
ghost use Rattle.fb_read.specs.Whole.{IsLibraryText};
ghost use Rattle.fb_why.specs.Findings.{AreFed, AreNotFed, IsNoPlan, IsPlan};
ghost use Rattle.fb_why.specs.Listings.{AreFlaws, AreFound};
ghost use Rattle.fb_why.specs.Places.{IsPlacedFinding};

use crate::cause::{Cause, cause_of, is_of_stimuli};
use crate::declared::locations_in;
use crate::listing::{Findings, listed, one};
use crate::place::PlacedFinding;
use crate::refused::{bytes_finding, text_finding};
use fb_check::{Case, Fault};
use fb_inputs::{InputError, read_deploy, read_stimuli};
use fb_read::{ReadError, discard, read_library};
use fb_types::{Deploy, Library, Stimulus};
use std::alloc::{AllocError, Global};

/// The deployment that is given, or the default one if none is given. `None` if the bytes are refused.
fn deploy_of(alloc: Global, deploy: Option<&[u8]>) -> Result<Option<Deploy>, AllocError>
    ensures { let given = option_map (λ b. b.now) deploy.entry in IfOk result (λ o. MatchOption o (IsNoPlan given) (IsPlan given)) }
{
    let Some(bytes) = deploy else {
        return Ok(Some(Deploy::single(alloc)?));
    };
    match read_deploy(alloc, bytes) {
        Ok(deploy) => Ok(Some(deploy)),
        Err(InputError::Memory) => Err(AllocError),
        Err(_) => Ok(None),
    }
}

/// The stimuli that a refusal is about: those that are given, or none. `None` if the bytes are refused.
fn fed_stimuli(
    alloc: Global,
    flaw: Fault,
    stimuli: Option<&[u8]>,
) -> Result<Option<Vec<Stimulus>>, AllocError>
    ensures { let given = option_map (λ b. b.now) stimuli.entry in IfOk result (λ o. MatchOption o (AreNotFed flaw given) (λ v. AreFed flaw given v.items)) }
{
    if !is_of_stimuli(flaw) {
        return Ok(Some(Vec::new(alloc)));
    }
    let Some(bytes) = stimuli else {
        return Ok(Some(Vec::new(alloc)));
    };
    match read_stimuli(alloc, bytes) {
        Ok(stimuli) => Ok(Some(stimuli)),
        Err(InputError::Memory) => Err(AllocError),
        Err(_) => Ok(None),
    }
}

/// Where the refusal applies to a library, which this text declares, and to the deployment and the stimuli in these
/// bytes.
fn flaws_in(
    alloc: Global,
    flaw: Fault,
    declaration: &[u8],
    library: &Library,
    deploy: Option<&[u8]>,
    stimuli: Option<&[u8]>,
) -> Result<Findings, AllocError>
    requires { IsLibraryText declaration.now library.now }
    ensures found { IfOk result (AreFlaws flaw declaration.now (option_map (λ b. b.now) deploy.entry) (option_map (λ b. b.now) stimuli.entry)) }
    ensures placed { IfOk result (λ f. All (IsPlacedFinding declaration.now) f.shown.items) }
{
    let Some(deploy) = deploy_of(alloc, deploy)? else {
        return one(alloc, None);
    };
    let Some(stimuli) = fed_stimuli(alloc, flaw, stimuli)? else {
        return one(alloc, None);
    };
    let case = Case {
        library,
        plan: deploy.plan(),
        stimuli: stimuli.as_slice(),
    };
    let locations = locations_in(alloc, flaw, &case)?;
    listed(alloc, declaration, &case, locations.as_slice())
}

/// Where the refusal applies to the inputs in these bytes.
fn flaw_findings(
    alloc: Global,
    flaw: Fault,
    declaration: &[u8],
    deploy: Option<&[u8]>,
    stimuli: Option<&[u8]>,
) -> Result<Findings, AllocError>
    ensures found { IfOk result (AreFlaws flaw declaration.now (option_map (λ b. b.now) deploy.entry) (option_map (λ b. b.now) stimuli.entry)) }
    ensures placed { IfOk result (λ f. All (IsPlacedFinding declaration.now) f.shown.items) }
{
    match read_library(alloc, declaration) {
        Ok(library) => {
            let findings = flaws_in(alloc, flaw, declaration, &library, deploy, stimuli);
            discard(library);
            findings
        }
        Err(ReadError::Memory) => Err(AllocError),
        Err(_) => one(alloc, None),
    }
}

/// Where the refusal with this number applies to the bytes of a declaration, a deployment and stimuli, of which the last
/// two may be missing: the first findings, with their places in the declaration.
///
/// # Errors
///
/// When memory runs out.
pub fn findings_of(
    alloc: Global,
    number: u8,
    declaration: &[u8],
    deploy: Option<&[u8]>,
    stimuli: Option<&[u8]>,
) -> Result<Findings, AllocError>
    ensures found { let plan = option_map (λ b. b.now) deploy.entry in let rows = option_map (λ b. b.now) stimuli.entry in
        IfOk result (AreFound declaration.now plan rows number) }
    ensures placed { IfOk result (λ f. All (IsPlacedFinding declaration.now) f.shown.items) }
{
    let cause = cause_of(number);
    match cause {
        Cause::Text => one(alloc, text_finding(alloc, number, declaration)?),
        Cause::Bytes => one(alloc, bytes_finding(alloc, number, deploy, stimuli)?),
        Cause::Check(flaw) => flaw_findings(alloc, flaw, declaration, deploy, stimuli),
        Cause::Other => one(alloc, None),
    }
}
