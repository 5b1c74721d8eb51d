//! The state of a rule that pairs each P with a Q: by equal values, or by turns.
//!
//! What is kept grows with the P's that wait: one for each.

ghost use Rattle.std.specs.Prelude.{◌≡◌, ◌++◌, ◌∷◌, ℕ, [], MatchOption, OnOk, false, true};
ghost use Rattle.fb_expect.specs.Paired as spec;
ghost use Rattle.fb_expect.specs.Paired.{KnowsPairs, PairsApply, PairsEnd, PairsOn, PairsSettle};
ghost use Rattle.fb_expect.specs.declared.rule.Pairing.{Pairing as PairingModel};

use crate::alike::are_same;
use crate::ending::End;
use crate::hit::Hit;
use crate::rule::{Need, Pairing};
use crate::verdict::{Breach, Fault, Verdict};
use crate::watch::{Mark, is_past};
use fb_types::Items;
use std::alloc::{AllocError, Global};

/// A P that waits for its Q.
#[derive(Drop)]
pub struct Waiting {
    pub mark: Mark,
    /// What comes after its port.
    pub values: Items<u8>,
}

/// The state of a rule that pairs each P with a Q.
#[derive(Drop)]
pub struct Pairs {
    /// The P's that wait, in the order of their lines.
    pub waiting: Vec<Waiting>,
    /// The first P that no Q answers in time. Then no more lines count.
    pub late: Option<Breach>,
}

/// A line as a rule that pairs lines sees it.
#[derive(Clone, Copy)]
pub(crate) struct PairLine<'a> {
    /// Its number, from 1.
    pub(crate) line: u64,
    pub(crate) hit: Hit,
    /// What comes after its port.
    pub(crate) values: &'a [u8],
}

/// Whether one that waits has these values.
fn has_values(pairing: &Pairing, one: &Waiting, values: &[u8]) -> bool
    ensures { result ≡ spec.has_values pairing.now values.now one.now }
{
    are_same(pairing.same.as_slice(), one.values.as_slice(), values)
}

/// The place of the first P that waits for a Q with these values.
fn place_of(pairing: &Pairing, waiting: &[Waiting], values: &[u8]) -> Option<usize>
    ensures { result ≡ spec.place_in pairing.now values.now waiting.now }
{
    waiting
        .iter()
        .position(|one| has_values(pairing, one, values))
}

/// The first P that waits, if at a tick it is too late for it.
fn overdue(waiting: &[Waiting], within: u64, tick: u64) -> Option<Breach>
    ensures { MatchOption result (spec.IsInTime within tick waiting.now) (spec.IsOverdue within tick waiting.now) }
{
    match waiting {
        [first, ..] => {
            if is_past(first.mark.tick, within, tick) {
                Some(Breach {
                    line: first.mark.line,
                    tick: first.mark.tick,
                    fault: Fault::Unanswered,
                })
            } else {
                None
            }
        }
        [] => None,
    }
}

impl Pairs {
    /// The state before the first line.
    pub(crate) fn new(alloc: Global) -> Pairs
        ensures { (within : ℕ) (p : PairingModel) → KnowsPairs within p [] result }
    {
        Pairs {
            waiting: Vec::new(alloc),
            late: None,
        }
    }

    /// Ends the wait of the first P that this line answers.
    fn answer_first(&mut self, pairing: &Pairing, values: &[u8])
        ensures waiting { self.new.waiting.items ≡ spec.answered_by true pairing.now values.now self.old.waiting.items }
        ensures late { self.new.late ≡ self.old.late }
    {
        if let Some(index) = place_of(pairing, self.waiting.as_slice(), values) {
            drop(self.waiting.remove(index));
        }
    }

    /// Ends the wait of all P's that this line answers.
    fn answer_all(&mut self, pairing: &Pairing, values: &[u8])
        ensures waiting { self.new.waiting.items ≡ spec.answered_by false pairing.now values.now self.old.waiting.items }
        ensures late { self.new.late ≡ self.old.late }
    {
        self.waiting.retain(|one| !has_values(pairing, one, values));
    }

    /// Ends the wait of the P's that this line, which is a Q, answers: by turns the first, and otherwise all with its
    /// values.
    fn answer(&mut self, pairing: &Pairing, values: &[u8])
        ensures waiting { self.new.waiting.items ≡ spec.answered pairing.now values.now self.old.waiting.items }
        ensures late { self.new.late ≡ self.old.late }
    {
        if pairing.is_each {
            self.answer_first(pairing, values);
        } else {
            self.answer_all(pairing, values);
        }
    }

    /// Ends the wait of the P's that a line answers, if it is a Q.
    fn answer_if(&mut self, second: bool, pairing: &Pairing, values: &[u8])
        ensures waiting { self.new.waiting.items ≡ spec.if_second second (spec.answered pairing.now values.now self.old.waiting.items) self.old.waiting.items }
        ensures late { self.new.late ≡ self.old.late }
    {
        if second {
            self.answer(pairing, values);
        }
    }

    /// Adds a line, if it is a P, which then waits.
    fn wait_if(
        &mut self,
        alloc: Global,
        first: bool,
        mark: Mark,
        values: &[u8],
    ) -> Result<(), AllocError>
        ensures waiting { OnOk result (self.new.waiting.items ≡ self.old.waiting.items ++ spec.one_if first (record { mark = mark; values = values.now })) }
        ensures late { OnOk result (self.new.late ≡ self.old.late) }
    {
        if first {
            self.waiting.push(Waiting {
                mark,
                values: Items::from_slice(alloc, values)?,
            })?;
        }
        Ok(())
    }

    /// Takes one more line that comes in time for all that wait.
    fn pair(
        &mut self,
        alloc: Global,
        pairing: &Pairing,
        taken: PairLine<'_>,
    ) -> Result<(), AllocError>
        ensures waiting { OnOk result (self.new.waiting.items ≡ spec.waits_after pairing.now taken.entry.line (spec.seen_line taken.entry) self.old.waiting.items) }
        ensures late { OnOk result (self.new.late ≡ self.old.late) }
    {
        let PairLine { line, hit, values } = taken;
        let mark = Mark {
            line,
            tick: hit.tick,
        };
        self.answer_if(hit.second, pairing, values);
        self.wait_if(alloc, hit.first, mark, values)
    }

    /// Takes one more line.
    pub(crate) fn take(
        &mut self,
        alloc: Global,
        within: u64,
        pairing: &Pairing,
        taken: PairLine<'_>,
    ) -> Result<(), AllocError>
        ensures { OnOk result (PairsOn within pairing.now self.old taken.entry.line (spec.seen_line taken.entry) self.new) }
    {
        if self.late.is_some() {
            return Ok(());
        }
        match overdue(self.waiting.as_slice(), within, taken.hit.tick) {
            Some(late) => {
                self.late = Some(late);
                Ok(())
            }
            None => self.pair(alloc, pairing, taken),
        }
    }

    /// Whether some P is decided at the end of the trace: one that waits no more, or too long. There are `often` P's.
    fn settles(&self, within: u64, often: u64, end: End) -> bool
        ensures { (p : PairingModel) → PairsSettle within p self.now end often result }
    {
        if self.late.is_some() {
            return true;
        }
        if overdue(self.waiting.as_slice(), within, end.tick()).is_some() {
            return true;
        }
        (self.waiting.len() as u64) < often
    }

    /// Whether the rule was decided at least once. `often` is the count of P.
    pub(crate) fn is_applied(&self, need: Need, often: u64, end: End) -> bool
        ensures { (p : PairingModel) → PairsApply need p self.now end often result }
    {
        match need {
            Need::See { within } => self.settles(within, often, end),
            Need::Not { .. } | Need::Before { .. } | Need::Never { .. } | Need::Count { .. } => {
                often != 0
            }
        }
    }

    /// The result at the end of the trace.
    pub(crate) fn conclude(&self, within: u64, end: End) -> Verdict
        ensures { (p : PairingModel) → PairsEnd within p self.now end result }
    {
        match self.late {
            Some(late) => Verdict::Broken(late),
            None => match overdue(self.waiting.as_slice(), within, end.tick()) {
                Some(late) => Verdict::Broken(late),
                None => {
                    if self.waiting.is_empty() {
                        Verdict::Holds
                    } else {
                        Verdict::Undecided
                    }
                }
            },
        }
    }
}
