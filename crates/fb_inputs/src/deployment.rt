//! Deployments.

ghost use Rattle.std.specs.Prelude.{◌≡◌, ◌≤◌, length, Some, IfErr, IfOk, MatchOption};
ghost use Rattle.toml.specs.View.{table_view};
ghost use Rattle.fb_inputs.specs.Refusals.{Answers};
ghost use Rattle.fb_inputs.specs.DeployFaults.{IsPlanned, IsRefusedAt};
ghost use Rattle.fb_inputs.specs.DeployLocations.{AnswersInDocument};
ghost use Rattle.fb_inputs.specs.Deployments.{IsNoDocument, Locates};
ghost use Rattle.fb_inputs.specs.Deployments as spec;

use crate::deploy_location::{DeployFault, DeployLocation, deploy_error};
use crate::document::{LinkDraft, PlanDraft, draft_of};
use crate::error::InputError;
use crate::table::{TableTest, fault_among, links_of};
use fb_types::{Deploy, MOST_BYTES, MOST_LINKS, MOST_RESOURCES, Plan};
use std::alloc::{AllocError, Global};
use toml::Table;

/// Where the numbers of a deployment are refused.
fn fault_in(resources: usize, links: &[LinkDraft]) -> Option<DeployLocation>
    ensures { result ≡ spec.fault_in resources links.now }
{
    if let Some(location) = fault_among(TableTest::Latencies, links) {
        return Some(location);
    }
    if let Some(location) = fault_among(TableTest::Starts, links) {
        return Some(location);
    }
    if resources > MOST_RESOURCES {
        return Some(DeployLocation::Resources);
    }
    if links.len() > MOST_LINKS {
        return Some(DeployLocation::Links);
    }
    fault_among(TableTest::Entries, links)
}

/// The deployment, if its numbers are within their limits.
fn judge(alloc: Global, draft: PlanDraft) -> Result<Deploy, DeployFault>
    requires { 1 ≤ length draft.resources }
    ensures { AnswersInDocument (λ d. d) (spec.judged draft) result }
{
    let PlanDraft { resources, links } = draft;
    if let Some(location) = fault_in(resources.len(), links.as_slice()) {
        return Err(DeployFault::At(location));
    }
    let links = links_of(alloc, links)?;
    Ok(Deploy::new(Plan {
        resources,
        links,
        holds_all: false,
    }))
}

/// The document in TOML.
///
/// # Errors
///
/// Where it is none, or `Memory`.
pub fn document(alloc: Global, bytes: &[u8]) -> Result<Table, DeployFault>
    ensures found { IfOk result (λ t. spec.document bytes.now ≡ Some (table_view t)) }
    ensures refused { IfErr result (IsNoDocument bytes.now) }
{
    match toml::table_from_slice(alloc, bytes) {
        Ok(keys) => Ok(keys),
        Err(error) => match error.span() {
            Some(span) => Err(DeployFault::At(DeployLocation::Document(span.start))),
            None => Err(DeployFault::Memory),
        },
    }
}

/// Reads a deployment in TOML as [`read_deploy`] does.
///
/// # Errors
///
/// Where the deployment is refused, or `Memory`.
pub fn locate_deploy(alloc: Global, bytes: &[u8]) -> Result<Deploy, DeployFault>
    ensures { Locates (λ d. d) bytes.now result }
{
    if bytes.len() > MOST_BYTES {
        return Err(DeployFault::At(DeployLocation::Bytes));
    }
    let keys = document(alloc, bytes)?;
    let draft = draft_of(alloc, &keys);
    // Drops with one call. Each exit would drop each part of the document.
    drop(keys);
    let draft = draft?;
    judge(alloc, draft)
}

/// Reads a deployment in TOML: resources with their instances, and links with their latencies in ticks, which are
/// milliseconds. Names become upper case.
///
/// # Errors
///
/// The first of these that applies to the whole document:
///
/// - E15: more than 1 MiB;
/// - E10: not TOML;
/// - E11: a key that is missing, unknown or of the wrong kind; a text that is no name; a link from a resource to itself;
/// - E12: a latency outside 1 to 1,000,000;
/// - E16: a table of latencies that doesn't rise from tick 0 to at most 10^12;
/// - E15: more than 256 resources, 1,024 links or 64 entries of a table.
///
/// `Memory` if memory runs out.
pub fn read_deploy(alloc: Global, bytes: &[u8]) -> Result<Deploy, InputError>
    ensures { Answers (λ d. d) (spec.deploy_of bytes.now) result }
{
    match locate_deploy(alloc, bytes) {
        Ok(deploy) => Ok(deploy),
        Err(fault) => Err(deploy_error(fault)),
    }
}

/// Where the deployment in these bytes is refused, or `None` if it is accepted.
///
/// # Errors
///
/// When memory runs out.
pub fn deployment_location(
    alloc: Global,
    bytes: &[u8],
) -> Result<Option<DeployLocation>, AllocError>
    ensures { IfOk result (λ o. MatchOption o (IsPlanned bytes.now) (IsRefusedAt bytes.now)) }
{
    match locate_deploy(alloc, bytes) {
        Ok(deploy) => {
            drop(deploy);
            Ok(None)
        }
        Err(DeployFault::Memory) => Err(AllocError),
        Err(DeployFault::At(location)) => Ok(Some(location)),
    }
}
