//! A trace, line by line, against rules.

ghost use Rattle.std.specs.Prelude.{◌≡◌, ◌+◌, ◌^◌, ◌<◌, ◌≤◌, List, [], IfErr, IfNone, IfOk, IfSome, OnOk, IsTrue, Some, length, true};
ghost use Rattle.std.specs.Io.KnownBytes.{IsAtEnd};
ghost use Rattle.fb_expect.specs.Events.{Event, IsLine, event_of};
ghost use Rattle.fb_expect.specs.Judging.{AllFollow, AllMove, Applies, AreJudged, Concludes, Follows, IsEndRefusal, IsFollowed, IsFormOf, IsJudged, IsRefusal, Judges, KnowsState, Moves, StateOn, rules_of};
ghost use Rattle.fb_expect.specs.Hits.{hit_of};
ghost use Rattle.fb_expect.specs.Lines.{IsOneLine};
ghost use Rattle.fb_expect.specs.Paired.{PairsOn, pair_hit_of, within_of};
ghost use Rattle.fb_expect.specs.Traces.{AreBelow, EndsAfter, HasNoEnd, IsLast, tick_of};
ghost use Rattle.fb_expect.specs.declared.ending.End.{End as EndModel};
ghost use Rattle.fb_expect.specs.declared.rule.Pairing.{Pairing as PairingModel};

use crate::ending::{End, can_end, read_end};
use crate::entry::Entry;
use crate::event::read_entry;
use crate::fault::TraceError;
use crate::hit::{Hit, hit_of};
use crate::lines::{is_over, next_line};
use crate::pairs::{PairLine, Pairs};
use crate::port_set::{PortSet, ports_of};
use crate::rule::{Need, Rule};
use crate::settled::{first_after, is_applied};
use crate::sight::{Sights, begin_sights, see_line};
use crate::tally::{Tally, begin_tally, count_line, decided_by};
use crate::verdict::{Verdict, verdict_of};
use crate::watch::{Mark, Watch, begin, step};
use fb_types::Form;
use std::alloc::{AllocError, Global};
use std::io::BufRead;

/// What decides a rule after the lines that were read.
#[derive(Drop)]
pub enum State {
    /// Each line by itself.
    Alone(Watch),
    /// Pairs of lines.
    Paired(Pairs),
}

/// A rule, and its state after the lines that were read.
pub struct Watcher<'a> {
    rule: &'a Rule,
    state: State,
    tally: Tally,
    /// The first P.
    first: Option<Mark>,
    sights: Sights,
    /// The ports whose lines matter to the rule.
    ports: PortSet,
}

impl Drop for Watcher<'_> {
    fn drop(self) {
        let Watcher {
            rule: _,
            state: _,
            tally: _,
            first: _,
            sights: _,
            ports: _,
        } = self;
    }
}

/// The result of a rule at a trace.
#[derive(Clone, Copy)]
pub struct Judged {
    pub verdict: Verdict,
    /// How often the rule was decided: at each P of a rule `after` or `before`, also if it waits at the end, at each line
    /// in a stretch, and at the end of each window.
    pub decided: u64,
    /// Whether it was decided at least once. P's that wait at the end of the trace are not decided.
    pub is_applied: bool,
    /// What the trace has of its patterns.
    pub sights: Sights,
    /// How the trace ends.
    pub end: End,
}

/// Whether a trace may be cut off: end without a last line, or within a line, which then does not count.
#[derive(Clone, Copy)]
pub enum Cut {
    Refused,
    Allowed,
}

/// The form of the lines of a trace that begins with this one.
fn form_of(line: &[u8]) -> Form
    ensures { IsFormOf result line.now }
{
    match read_entry(Form::Two, line) {
        Some(_) => Form::Two,
        None => Form::One,
    }
}

/// What decides a rule before the first line.
fn state_of(alloc: Global, rule: &Rule) -> State
    ensures { KnowsState rule.now [] result }
{
    match &rule.pairing {
        Some(_) => State::Paired(Pairs::new(alloc)),
        None => State::Alone(begin(rule.need)),
    }
}

/// The state of all rules before the first line.
fn begun<'a>(alloc: Global, rules: &'a [Rule]) -> Result<Vec<Watcher<'a>>, AllocError>
    ensures rules { IfOk result (λ ws. rules_of ws.items ≡ rules.now) }
    ensures follow { IfOk result (λ ws. AllFollow [] ws.items) }
{
    let mut watchers = Vec::with_capacity(alloc, rules.len())?;
    for rule in rules {
        watchers.push_reserved(Watcher {
            rule,
            state: state_of(alloc, rule),
            tally: begin_tally(rule.need),
            first: None,
            sights: begin_sights(rule),
            ports: ports_of(rule),
        });
    }
    Ok(watchers)
}

/// The time in which an answer must come.
fn within_of(need: Need) -> u64
    ensures { result ≡ within_of need }
{
    match need {
        Need::See { within } | Need::Not { within } | Need::Before { within } => within,
        Need::Never { .. } | Need::Count { .. } => 0,
    }
}

/// The state of a rule that pairs lines after one more line, of this number.
fn pairs_on(
    alloc: Global,
    rule: &Rule,
    pairs: &mut Pairs,
    number: u64,
    hit: Hit,
    entry: &Entry<'_>,
) -> Result<(), AllocError>
    requires { hit ≡ hit_of rule.now (event_of entry.now) }
    ensures { OnOk result ((p : PairingModel) → rule.now.pairing ≡ Some p → PairsOn (within_of rule.now.need) p pairs.old number (pair_hit_of rule.now (event_of entry.now)) pairs.new) }
{
    match &rule.pairing {
        Some(pairing) => {
            let taken = PairLine {
                line: number,
                hit,
                values: entry.values,
            };
            pairs.take(alloc, within_of(rule.need), pairing, taken)
        }
        None => Ok(()),
    }
}

/// The state after one more line, of this number.
fn state_on(
    alloc: Global,
    rule: &Rule,
    state: &mut State,
    number: u64,
    hit: Hit,
    entry: &Entry<'_>,
) -> Result<(), AllocError>
    requires { hit ≡ hit_of rule.now (event_of entry.now) }
    ensures { OnOk result (StateOn rule.now number (event_of entry.now) state.old state.new) }
{
    match state {
        State::Alone(watch) => {
            *watch = step(rule.need, *watch, number, hit);
            Ok(())
        }
        State::Paired(pairs) => pairs_on(alloc, rule, pairs, number, hit, entry),
    }
}

/// Takes one more line, of this number. Most lines don't matter to a rule, which their ports show.
#[inline(always)]
fn next(
    alloc: Global,
    watcher: &mut Watcher<'_>,
    number: u64,
    entry: &Entry<'_>,
) -> Result<(), AllocError>
    ensures { OnOk result (Moves number (event_of entry.now) watcher.old watcher.new) }
{
    if watcher.ports.may_have(entry) {
        take_line_for_rule(alloc, watcher, number, entry)
    } else {
        Ok(())
    }
}

/// Takes one more line, of this number, whatever its port.
#[inline(never)]
fn take_line_for_rule(
    alloc: Global,
    watcher: &mut Watcher<'_>,
    number: u64,
    entry: &Entry<'_>,
) -> Result<(), AllocError>
    ensures { OnOk result (Moves number (event_of entry.now) watcher.old watcher.new) }
{
    let rule = watcher.rule;
    let hit = hit_of(rule, entry);
    state_on(alloc, rule, &mut watcher.state, number, hit, entry)?;
    watcher.tally = count_line(watcher.tally, number, hit);
    watcher.first = first_after(watcher.first, number, hit);
    watcher.sights = see_line(rule, watcher.sights, hit, entry);
    Ok(())
}

/// Takes one more line for all rules.
fn take_line(
    alloc: Global,
    watchers: &mut [Watcher<'_>],
    number: u64,
    entry: &Entry<'_>,
) -> Result<(), AllocError>
    ensures rules { OnOk result (rules_of watchers.new ≡ rules_of watchers.old) }
    ensures moves { OnOk result (AllMove number (event_of entry.now) watchers.old watchers.new) }
{
    for watcher in watchers.iter_mut() {
        next(alloc, watcher, number, entry)?;
    }
    Ok(())
}

/// The result of a rule after the whole trace, whose last line has this number.
fn verdict_at(rule: &Rule, state: &State, number: u64, end: End) -> Verdict
    ensures { Concludes rule.now state.now number end result }
{
    match state {
        State::Alone(watch) => verdict_of(rule.need, *watch, number, end),
        State::Paired(pairs) => pairs.conclude(within_of(rule.need), end),
    }
}

/// Whether a rule was decided at least once, which was decided so often or has so many P's.
fn has_applied(watcher: &Watcher<'_>, often: u64, end: End) -> bool
    ensures { Applies watcher.now often end result }
{
    let need = watcher.rule.need;
    match &watcher.state {
        State::Alone(watch) => is_applied(need, *watch, watcher.first, often, end),
        State::Paired(pairs) => pairs.is_applied(need, often, end),
    }
}

/// The result of a rule.
fn conclude_one(watcher: &Watcher<'_>, number: u64, end: End) -> Judged
    ensures { (es : List Event) → number ≡ length es + 1 → AreBelow es (tick_of end) → Follows es watcher.now → IsJudged es end watcher.now.rule.now result }
{
    let rule = watcher.rule;
    let decided = decided_by(rule.need, watcher.tally, number, end);
    Judged {
        verdict: verdict_at(rule, &watcher.state, number, end),
        decided,
        is_applied: has_applied(watcher, decided, end),
        sights: watcher.sights,
        end,
    }
}

/// The results of all rules.
fn conclude(
    alloc: Global,
    watchers: &[Watcher<'_>],
    number: u64,
    end: End,
) -> Result<Vec<Judged>, AllocError>
    ensures judged { IfOk result (λ js. (es : List Event) → number ≡ length es + 1 → AreBelow es (tick_of end) → AllFollow es watchers.now → AreJudged es end (rules_of watchers.now) js.items) }
    ensures counted { IfOk result (λ js. length js.items ≡ length (rules_of watchers.now)) }
{
    let mut all = Vec::with_capacity(alloc, watchers.len())?;
    for watcher in watchers {
        all.push(conclude_one(watcher, number, end))?;
    }
    Ok(all)
}

/// Whether a trace can be cut off before this line: before none, or before one that has no end.
fn is_cut(line: &[u8]) -> bool
    ensures cut { IsTrue result → IsOneLine line.now → HasNoEnd line.now }
    ensures whole { HasNoEnd line.now → result ≡ true }
{
    match line.last() {
        Some(last) => *last != b'\n',
        None => true,
    }
}

/// The end in a line, or that there is before it where a trace may be cut off.
fn end_at(line: &[u8], tick: u64, cut: Cut) -> Option<End>
    ensures last { IfSome result (λ end. IsOneLine line.now → IsLast cut line.now end) }
    ensures only { (end : EndModel) → IsOneLine line.now → IsLast cut line.now end → EndsAfter tick end → result ≡ Some end }
{
    match cut {
        Cut::Allowed => {
            if is_cut(line) {
                Some(End::Cut(tick))
            } else {
                read_end(line)
            }
        }
        Cut::Refused => read_end(line),
    }
}

/// The entry in a line of this form that may come after a line of this tick.
fn next_entry(form: Form, line: &[u8], tick: u64) -> Option<Entry<'_>>
    ensures some { IfSome result (λ e. IsLine form line.now (event_of e) × (tick ≤ e.tick)) }
    ensures none { IfNone result ((e : Event) → IsLine form line.now e → tick ≤ e.tick → ⊥) }
{
    match read_entry(form, line) {
        Some(entry) => {
            if tick <= entry.tick {
                Some(entry)
            } else {
                None
            }
        }
        None => None,
    }
}

/// Reads a trace, in either form, and returns the result of each rule. Ticks are milliseconds. All memory is that of the
/// rules, of a line, and of the P's that wait in rules that pair lines.
///
/// # Errors
/// `Refused` with the first line at which it shows that the text is no trace, `Read` where the reader fails, `Memory`.
pub fn judge<R: BufRead>(
    alloc: Global,
    rules: &[Rule],
    cut: Cut,
    input: &mut R,
) -> Result<Vec<Judged>, TraceError>
    ensures judged { IfOk result (λ js. IfSome (R.remaining input.old) (λ text. Judges cut text rules.now js.items)) }
    ensures counted { IfOk result (λ js. length js.items ≡ length rules.now) }
    ensures refused { IfErr result (IsRefusal cut (R.remaining input.old)) }
{
    let mut watchers = begun(alloc, rules)?;
    let mut line = Vec::new(alloc);
    let (number, end) = follow(alloc, cut, &mut watchers, &mut line, input)?;
    Ok(conclude(alloc, watchers.as_slice(), number, end)?)
}

/// Reads the lines of a trace, up to its end, which is reported with the number of its line. The buffer is for the line
/// that was read last.
fn follow<R: BufRead>(
    alloc: Global,
    cut: Cut,
    watchers: &mut Vec<Watcher<'_>>,
    line: &mut Vec<u8>,
    input: &mut R,
) -> Result<(u64, End), TraceError>
    requires { AllFollow [] watchers.old.items }
    ensures rules { OnOk result (rules_of watchers.new.items ≡ rules_of watchers.old.items) }
    ensures followed { IfOk result (λ p. IsFollowed cut (R.remaining input.old) watchers.new.items p.0 p.1) }
    ensures refused { IfErr result (IsRefusal cut (R.remaining input.old)) }
{
    next_line(input, line)?;
    let form = form_of(line.as_slice());
    let mut tick = 0;
    for number in 1..u64::MAX {
        if let Some(end) = end_at(line.as_slice(), tick, cut) {
            finish(tick, end, number, line, input)?;
            return Ok((number, end));
        }
        let Some(entry) = next_entry(form, line.as_slice(), tick) else {
            return Err(TraceError::Refused(number));
        };
        take_line(alloc, watchers.as_mut_slice(), number, &entry)?;
        tick = entry.tick;
        next_line(input, line)?;
    }
    Err(TraceError::Read)
}

/// Refuses an end that can't come after a line of this tick, or after which there is more.
fn finish<R: BufRead>(
    tick: u64,
    end: End,
    number: u64,
    line: &mut Vec<u8>,
    input: &mut R,
) -> Result<(), TraceError>
    requires { number + 1 < 2 ^ 64 }
    ensures ends { OnOk result (EndsAfter tick end × IsAtEnd (R.remaining input.old)) }
    ensures refused { IfErr result (IsEndRefusal tick end number (R.remaining input.old)) }
{
    if !can_end(tick, end) {
        return Err(TraceError::Refused(number));
    }
    if !is_over(input, line)? {
        return Err(TraceError::Refused(number.saturating_add(1)));
    }
    Ok(())
}
