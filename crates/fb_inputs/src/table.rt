//! Tables of latencies.

ghost use Rattle.std.specs.Prelude.{◌≡◌, map, None, IfOk, unsigned_abs};
ghost use Rattle.fb_inputs.specs.Deployments as spec;

use crate::deploy_location::DeployLocation;
use crate::document::{LatencyDraft, LinkDraft};
use fb_types::{Entry, Items, LATEST_TICK, Latency, Link, MOST_ENTRIES, MOST_LATENCY};
use std::alloc::{AllocError, Global};

/// Whether a latency is within 1 to 1,000,000 ticks.
fn has_latency(pair: &LatencyDraft) -> bool
    ensures { result ≡ spec.has_latency pair.now }
{
    1 <= pair.ticks && pair.ticks <= MOST_LATENCY as i64
}

/// The first entry whose latency is out of range.
fn wrong_latency(table: &[LatencyDraft]) -> Option<usize>
    ensures { result ≡ spec.first_failing spec.has_latency 0 table.now }
{
    for (entry, pair) in table.iter().enumerate() {
        if !has_latency(pair) {
            return Some(entry);
        }
    }
    None
}

/// Whether an entry may begin at a tick after one that begins at `last`.
fn is_after(last: u64, start: i64) -> bool
    ensures { result ≡ spec.is_after last start }
{
    0 <= start && last < start.unsigned_abs() && start <= LATEST_TICK as i64
}

fn is_zero(start: i64) -> bool
    ensures { result ≡ spec.is_zero start }
{
    start == 0
}

/// Whether an entry may follow the one that begins at `last`. The first one begins at 0.
fn follows(last: Option<u64>, pair: &LatencyDraft) -> bool
    ensures { result ≡ spec.follows last pair.now.start }
{
    match last {
        Some(last) => is_after(last, pair.start),
        None => is_zero(pair.start),
    }
}

/// The tick at which an entry begins.
fn start_of(pair: &LatencyDraft) -> u64
    ensures { result ≡ unsigned_abs pair.now.start }
{
    pair.start.unsigned_abs()
}

/// The first entry that does not follow the one before it.
fn wrong_start(table: &[LatencyDraft]) -> Option<usize>
    ensures { result ≡ spec.out_of_order None 0 table.now }
{
    let mut last = None;
    for (entry, pair) in table.iter().enumerate() {
        if !follows(last, pair) {
            return Some(entry);
        }
        last = Some(start_of(pair));
    }
    None
}

/// What the table of a link is tested for.
#[derive(Clone, Copy)]
pub(crate) enum TableTest {
    /// Latencies within their range.
    Latencies,
    /// Ticks that rise from 0.
    Starts,
    /// A number of entries within its limit.
    Entries,
}

/// Where a link fails a test.
fn fault_of_link(test: TableTest, link: usize, draft: &LinkDraft) -> Option<DeployLocation>
    ensures { result ≡ spec.fault_of_link test link draft.now }
{
    match test {
        TableTest::Latencies => {
            let entry = wrong_latency(draft.table.as_slice())?;
            Some(DeployLocation::Latency { link, entry })
        }
        TableTest::Starts => {
            if draft.table.len() == 0 {
                return Some(DeployLocation::NoEntry { link });
            }
            let entry = wrong_start(draft.table.as_slice())?;
            Some(DeployLocation::Entry { link, entry })
        }
        TableTest::Entries => {
            if draft.table.len() <= MOST_ENTRIES {
                None
            } else {
                Some(DeployLocation::Entries { link })
            }
        }
    }
}

/// Where the first link that fails this test fails it.
pub(crate) fn fault_among(test: TableTest, links: &[LinkDraft]) -> Option<DeployLocation>
    ensures { result ≡ spec.among_links (spec.fault_of_link test) 0 links.now }
{
    for (link, draft) in links.iter().enumerate() {
        if let Some(location) = fault_of_link(test, link, draft) {
            return Some(location);
        }
    }
    None
}

fn entry_of(pair: LatencyDraft) -> Entry
    ensures { result ≡ spec.entry pair }
{
    Entry {
        from: pair.start.unsigned_abs(),
        latency: pair.ticks.unsigned_abs(),
    }
}

fn entries_of(alloc: Global, table: &[LatencyDraft]) -> Result<Items<Entry>, AllocError>
    ensures { IfOk result (λ t. t ≡ map spec.entry table.now) }
{
    let mut entries = Vec::with_capacity(alloc, table.len())?;
    for pair in table {
        entries.push_reserved(entry_of(*pair));
    }
    Ok(Items::from_vec(entries))
}

/// The links whose tables were checked.
pub(crate) fn links_of(alloc: Global, drafts: Items<LinkDraft>) -> Result<Items<Link>, AllocError>
    requires latencies { spec.among_links spec.latency_of_link 0 drafts ≡ None }
    requires rising { spec.among_links spec.start_of_link 0 drafts ≡ None }
    requires short { spec.among_links spec.entries_of_link 0 drafts ≡ None }
    ensures { IfOk result (λ l. l ≡ map spec.link_of drafts) }
{
    let mut found = Items::new(alloc);
    for draft in drafts.into_vec() {
        let LinkDraft { start, end, table } = draft;
        let entries = entries_of(alloc, table.as_slice())?;
        let latency = Latency::new(entries);
        found.push(Link {
            from: start,
            to: end,
            latency,
        })?;
    }
    Ok(found)
}
