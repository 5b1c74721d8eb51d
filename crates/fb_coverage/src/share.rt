//! How many of how many are covered.

ghost use Rattle.std.specs.Prelude.{◌≡◌, ◌<◌, ◌+◌, ◌*◌, ◌^◌, ◌∷◌, ◌++◌, [], OnOk};
ghost use Rattle.fb_types.specs.OfSystem.{IsInstance, path_at};
ghost use Rattle.fb_coverage.specs.Listed.{listed};
ghost use Rattle.fb_coverage.specs.Shares as spec;
ghost use Rattle.fb_coverage.specs.OfSystem.{counted_row, is_below, is_in, port_share, shares_of};
ghost use Rattle.fb_coverage.specs.declared.group.Group.TheVariants.{Connected};

use crate::group::{Group, is_in};
use crate::marks::Marks;
use crate::part::basic_of;
use crate::table::{Table, is_set};
use fb_system::System;
use fb_text::put_number;
use fb_types::EventPort;
use std::alloc::{AllocError, Global};

/// How many of how many are covered, each up to the greatest `u64`.
#[derive(Clone, Copy)]
pub(crate) struct Share {
    pub(crate) covered: u64,
    pub(crate) all: u64,
}

impl Share {
    /// Nothing was counted yet.
    pub(crate) fn new() -> Share
        ensures { result ≡ record { covered = 0; all = 0 } }
    {
        Share { covered: 0, all: 0 }
    }

    /// Counts the flags of a thing.
    fn count(&mut self, flags: &[bool])
        ensures { self.new ≡ spec.with_row self.old flags.now }
    {
        let covered = flags.iter().filter(|flag| **flag).count();
        self.covered = self.covered.saturating_add(covered as u64);
        self.all = self.all.saturating_add(flags.len() as u64);
    }

    /// Counts a flag.
    fn count_flag(&mut self, flag: bool)
        ensures { self.new ≡ spec.with_row self.old (flag ∷ []) }
    {
        self.count(&[flag]);
    }

    /// Adds another share.
    fn add(&mut self, other: Share)
        ensures { self.new ≡ spec.added self.old other }
    {
        self.covered = self.covered.saturating_add(other.covered);
        self.all = self.all.saturating_add(other.all);
    }

    /// Counts the flags of a table.
    pub(crate) fn count_all(&mut self, table: &Table)
        ensures { self.new ≡ spec.with_rows self.old table.now.rows }
    {
        for row in table.rows.as_slice() {
            self.count(row.as_slice());
        }
    }
}

/// How many of how many are covered, of each kind of things.
#[derive(Clone, Copy)]
pub(crate) struct Shares {
    pub(crate) states: Share,
    pub(crate) transitions: Share,
    pub(crate) algorithms: Share,
    pub(crate) events: Share,
    /// Connected event ports of event blocks and composites.
    pub(crate) ports: Share,
}

/// How much of a table is covered.
fn share_of(table: &Table) -> Share
    ensures { result ≡ spec.with_rows spec.none_counted table.now.rows }
{
    let mut share = Share::new();
    share.count_all(table);
    share
}

/// How much of the connected ports of a side is covered.
fn side_share(system: &System, instance: u32, events: &[EventPort], flags: &[bool]) -> Share
    requires { IsInstance system.now instance }
    ensures { result ≡ spec.with_row spec.none_counted (listed (spec.flag_if (is_in Connected system.now (path_at system.now instance)) flags.now) 0 events.now) }
{
    let mut share = Share::new();
    for (index, event) in events.iter().enumerate() {
        if !is_in(Group::Connected, system, instance, index, event) {
            continue;
        }
        share.count_flag(is_set(flags, index));
    }
    share
}

/// How much of the connected ports of an instance is covered: none are counted where it is a basic block.
fn instance_share(system: &System, marks: &Marks, instance: u32) -> Share
    requires { IsInstance system.now instance }
    ensures { result ≡ spec.with_row spec.none_counted (counted_row system.now marks.now instance (path_at system.now instance)) }
{
    if basic_of(system, instance).is_some() {
        return Share::new();
    }
    let ports = system.ports(instance);
    let taken = marks.ports.inputs.row(instance as usize);
    let inputs = ports.event_inputs.as_slice();
    let mut share = side_share(system, instance, inputs, taken);
    let emitted = marks.ports.outputs.row(instance as usize);
    let outputs = ports.event_outputs.as_slice();
    let others = side_share(system, instance, outputs, emitted);
    share.add(others);
    share
}

/// How much of the connected ports is covered.
fn port_share(system: &System, marks: &Marks) -> Share
    ensures { result ≡ port_share system.now marks.now }
{
    let mut share = Share::new();
    system.facts(); // for the prover: what holds of every accepted system
    for instance in 0..system.count() {
        let own = instance_share(system, marks, instance as u32);
        share.add(own);
    }
    share
}

/// How much is covered.
pub(crate) fn shares_of(system: &System, marks: &Marks) -> Shares
    ensures { result ≡ shares_of system.now marks.now }
{
    let charts = &marks.charts;
    Shares {
        states: share_of(&charts.states),
        transitions: share_of(&charts.transitions),
        algorithms: share_of(&charts.algorithms),
        events: share_of(&charts.clearing),
        ports: port_share(system, marks),
    }
}

/// The sum of what is covered, or of what counts, of each kind of things.
fn sum_of(states: u64, transitions: u64, algorithms: u64, events: u64, ports: u64) -> u128
    ensures sum { result ≡ states + transitions + algorithms + events + ports }
    ensures small { result < 5 * 2 ^ 64 }
{
    u128::from(states)
        + u128::from(transitions)
        + u128::from(algorithms)
        + u128::from(events)
        + u128::from(ports)
}

/// How much of all is covered.
fn covered_in(shares: &Shares) -> u128
    ensures sum { result ≡ spec.covered_in shares.now }
    ensures small { result < 5 * 2 ^ 64 }
{
    sum_of(
        shares.states.covered,
        shares.transitions.covered,
        shares.algorithms.covered,
        shares.events.covered,
        shares.ports.covered,
    )
}

/// How much counts in all.
fn counted_in(shares: &Shares) -> u128
    ensures { result ≡ spec.counted_in shares.now }
{
    sum_of(
        shares.states.all,
        shares.transitions.all,
        shares.algorithms.all,
        shares.events.all,
        shares.ports.all,
    )
}

/// Whether less than a part of all that counts is covered.
fn is_less(shares: &Shares, least: u64) -> bool
    ensures { result ≡ spec.is_less least shares.now }
{
    let covered = covered_in(shares);
    match u128::from(least).checked_mul(counted_in(shares)) {
        Some(wanted) => 100 * covered < wanted,
        // What is wanted is more than can be covered.
        None => true,
    }
}

/// Whether less than this part of all that counts is covered, in percent. What is covered and what counts are the sums
/// of the numbers in the last line of the report. Where nothing counts, all of it is covered.
pub fn is_below(system: &System, marks: &Marks, least: u64) -> bool
    ensures { result ≡ is_below system.now least marks.now }
{
    is_less(&shares_of(system, marks), least)
}

/// Adds a word, and then how many of how many are covered.
pub(crate) fn put_share(
    alloc: Global,
    text: &mut Vec<u8>,
    word: &[u8],
    share: Share,
) -> Result<(), AllocError>
    ensures { OnOk result (text.new.items ≡ text.old.items ++ spec.share_text word.now share) }
{
    text.extend_from_slice(word)?;
    put_number(alloc, text, share.covered)?;
    text.extend_from_slice(b" of ")?;
    put_number(alloc, text, share.all)
}
