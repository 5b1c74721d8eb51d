//! Lines that have become final and are not written yet.

ghost use Rattle.std.specs.Prelude.{◌≡◌, ◌<◌, ◌≤◌, ◌^◌, [], map, length, All, IfErr, IfOk, IfSome, None};
ghost use Rattle.fb_system.specs.OfSystem.{BelongsTo};
ghost use Rattle.fb_trace.specs.Merging.{flat};
ghost use Rattle.fb_sim.specs.Rounds.{FailsToHandOut, HandsOut, AreUnwrittenOf};
ghost use Rattle.fb_sim.specs.Texts.{AreUnwrittenIn};
ghost use Rattle.fb_sim.specs.MergedText.{IsMergedText, all_bytes};
ghost use Rattle.fb_sim.specs.declared.outcome.RunError.TheVariants.{Memory};

use crate::outcome::RunError;
use crate::rounds::hand_out;
use crate::rounds::job_texts::FinalTexts;
use crate::rounds::join_texts::joined_text;
use crate::rounds::make_text::{texts_of, with_last};
use fb_system::System;
use fb_trace::{MarkedText, merge};
use fb_types::{Form, Line};
use fb_window::Core;
use std::alloc::{AllocError, Global};
use std::io::Write;
use std::thread::Threads;

/// The text of fewer lines than this is made before a thread has started.
const MANY: usize = 4096;

/// The text of fewer lines than this is made by this thread, also where they are at few ticks.
const FEW: usize = 1024;

/// No memory has this many lines.
const MOST: usize = 1_000_000_000_000;

/// How many lines are in the lists, up to the greatest `usize`.
fn count_in(lists: &[Vec<Line>]) -> usize
    ensures count { result < MOST → result ≡ length (flat lists.now) }
    ensures least { result ≤ length (flat lists.now) }
{
    let mut count: usize = 0;
    for list in lists {
        count = count.saturating_add(list.len());
    }
    count
}

/// How many ticks the lines of a list reach over, where their ticks do not fall.
fn ticks_in(list: &[Line]) -> u64 {
    match (list.first(), list.last()) {
        (Some(first), Some(last)) => last.key.tick.saturating_sub(first.key.tick),
        _ => 0,
    }
}

/// Whether this many lines are at few ticks: then looking at each list in each tick takes less time than sorting them.
fn are_close(lists: &[Vec<Line>], count: usize) -> bool {
    let mut ticks: u64 = 0;
    for list in lists {
        ticks = ticks.max(ticks_in(list.as_slice()));
    }
    ticks.saturating_mul(lists.len() as u64) <= (count as u64).saturating_mul(4)
}

/// Whether other threads make the text of this many lines.
fn are_many(lists: &[Vec<Line>], count: usize) -> bool {
    count >= MANY || (count >= FEW && are_close(lists, count))
}

/// Lines that have become final and are not written yet: the next round writes them.
#[derive(Drop)]
pub(crate) struct UnwrittenLines {
    /// For each resource its lines.
    lists: Vec<Vec<Line>>,
    /// How many lines they are.
    count: usize,
    /// For each resource the text of its lines, where workers made it.
    texts: Option<FinalTexts>,
}

impl UnwrittenLines {
    /// No lines.
    pub(crate) fn none(alloc: Global) -> UnwrittenLines
        ensures lists { result.lists.items ≡ [] }
        ensures count { result.count ≡ 0 }
        ensures texts { result.texts ≡ None }
    {
        UnwrittenLines {
            lists: Vec::new(alloc),
            count: 0,
            texts: None,
        }
    }

    /// The lines of lists, one for each resource, with the text of each if it was made.
    ///
    /// # Errors
    /// `Memory` if there are 10^12 lines.
    pub(crate) fn of(
        lists: Vec<Vec<Line>>,
        texts: Option<FinalTexts>,
    ) -> Result<UnwrittenLines, RunError>
        ensures lists { IfOk result (λ h. h.lists ≡ lists) }
        ensures texts { IfOk result (λ h. h.texts ≡ texts) }
        ensures count { IfOk result (λ h. h.count ≡ length (flat lists.items)) }
        ensures few { IfOk result (λ h. h.count < 10 ^ 12) }
        ensures memory { IfErr result (λ e. e ≡ Memory) }
        ensures many { IfErr result (λ e. 10 ^ 12 ≤ length (flat lists.items)) }
    {
        let count = count_in(&lists);
        if count >= MOST {
            return Err(RunError::Memory);
        }
        Ok(UnwrittenLines {
            lists,
            count,
            texts,
        })
    }

    /// How many lines they are.
    pub(crate) fn count(&self) -> usize
        ensures { result ≡ self.now.count }
    {
        self.count
    }

    /// Whether another thread makes their text, where a run has this many workers.
    pub(crate) fn is_shared(&self, workers: u64) -> bool {
        workers > 1 && (self.texts.is_some() || are_many(&self.lists, self.count))
    }

    /// The text of each list in a form, where workers made it.
    fn texts_in(&self, form: Form) -> Option<&[MarkedText]>
        ensures { IfSome result (λ s. AreUnwrittenIn form self.now.texts s.now) }
    {
        let texts = self.texts.as_ref()?;
        if texts.form == form {
            Some(texts.all.as_slice())
        } else {
            None
        }
    }

    /// Whether workers made the text of each list, which is only to be joined.
    pub(crate) fn has_text(&self) -> bool {
        self.texts.is_some()
    }

    /// The lists alone.
    pub(crate) fn into_lists(self) -> Vec<Vec<Line>>
        ensures { result ≡ self.lists }
    {
        let UnwrittenLines { lists, .. } = self;
        lists
    }

    /// Their text in parts, one after another, each of which one of this many threads makes. Where workers made that of
    /// each list, this thread joins them.
    ///
    /// # Errors
    /// When memory runs out.
    pub(crate) fn text<R: Threads + Sync>(
        &self,
        rt: &R,
        alloc: Global,
        system: &System,
        form: Form,
        threads: usize,
    ) -> Result<Vec<Vec<u8>>, AllocError>
        requires { AreUnwrittenOf system.now self.now }
        ensures { IfOk result (λ v. IsMergedText system.now form (map (λ p. p.items) self.now.lists.items) (all_bytes v.items)) }
    {
        match self.texts_in(form) {
            Some(texts) => with_last(Ok(Vec::new(alloc)), joined_text(alloc, texts)),
            None => texts_of(rt, alloc, system, form, &self.lists, threads),
        }
    }

    /// Writes them in the order of the trace. It answers how many bytes they have, and how many they are.
    ///
    /// # Errors
    /// `Memory`, after which nothing was written; and `Write` with the count of the bytes written.
    pub(crate) fn hand_out<W: Write>(
        self,
        alloc: Global,
        system: &System,
        form: Form,
        out: &mut W,
    ) -> Result<(u128, u128), RunError>
        requires { All (λ p. All (BelongsTo system.now) p.items) self.lists.items }
        ensures whole { IfOk result (λ r. HandsOut system.now form self.lists.items (W.contents out.old) (W.contents out.new) r.0 r.1) }
        ensures failed { IfErr result (FailsToHandOut system.now form self.lists.items (W.contents out.old) (W.contents out.new)) }
    {
        let lines = merge(alloc, self.lists)?;
        let bytes = hand_out(out, system, form, &lines)?;
        Ok((bytes, lines.len() as u128))
    }
}

/// Where a run is between two rounds.
#[derive(Drop)]
pub(crate) struct RoundState {
    pub core: Core,
    /// The lines that have become final in the round before.
    pub unwritten: UnwrittenLines,
}
