//! The state of a rule after a part of the trace.

ghost use Rattle.std.specs.Prelude.{◌≡◌, ◌+◌, ◌<◌, ◌↔◌, ◌&&◌, ◌||◌, [], IsTrue, MatchOption, not};
ghost use Rattle.fb_expect.specs.Rules as spec;
ghost use Rattle.fb_expect.specs.Watching.{CountsOn, InTime, IsPast, Knows, Lacks, Steps, WaitsFresh, WaitsNext};

use crate::hit::Hit;
use crate::rule::Need;
use crate::verdict::{Breach, Fault};

/// A line that waits for another.
#[derive(Clone, Copy)]
pub struct Mark {
    /// The number of the line, from 1.
    pub line: u64,
    pub tick: u64,
}

/// The state of a rule after a part of the trace. P is its first pattern, Q the second and R the third.
#[derive(Clone, Copy)]
pub enum Watch {
    /// The first P that no Q has followed yet, if there is one. A Q in time for it is in time for all later ones.
    See(Option<Mark>),
    /// The tick of the last P.
    Not(Option<u64>),
    /// The tick of the last Q.
    Before(Option<u64>),
    /// Whether the next line is after a Q, or the beginning, with no R since.
    Never(bool),
    /// The window of the last line, and the count of P in it.
    Count { window: u64, count: u64 },
    /// The rule is broken.
    Broken(Breach),
}

/// The state before the first line.
pub(crate) fn begin(need: Need) -> Watch
    ensures { Knows need [] result }
{
    match need {
        Need::See { .. } => Watch::See(None),
        Need::Not { .. } => Watch::Not(None),
        Need::Before { .. } => Watch::Before(None),
        Need::Never { from_start } => Watch::Never(from_start),
        Need::Count { .. } => Watch::Count {
            window: 0,
            count: 0,
        },
    }
}

/// Whether a tick is more than `within` ticks after another.
pub(crate) fn is_past(from: u64, within: u64, tick: u64) -> bool
    ensures { IsTrue result ↔ (from + within < tick) }
{
    u128::from(from) + u128::from(within) < u128::from(tick)
}

/// The same, if there is a tick to count from; true without one.
fn is_long_past(from: Option<u64>, within: u64, tick: u64) -> bool
    ensures { IsTrue result ↔ IsPast from within tick }
{
    match from {
        Some(from) => is_past(from, within, tick),
        None => true,
    }
}

fn broken(line: u64, tick: u64, fault: Fault) -> Watch
    ensures { result ≡ Watch.Broken (record { line = line; tick = tick; fault = fault }) }
{
    Watch::Broken(Breach { line, tick, fault })
}

/// What waits after a line, if `mark` waited before it.
fn mark_after(mark: Option<Mark>, line: u64, hit: Hit) -> Option<Mark>
    ensures { WaitsNext mark line hit result }
{
    if hit.second {
        fresh(line, hit)
    } else {
        match mark {
            Some(mark) => Some(mark),
            None => fresh(line, hit),
        }
    }
}

/// A line waits if it is a P.
fn fresh(line: u64, hit: Hit) -> Option<Mark>
    ensures { WaitsFresh line hit result }
{
    if hit.first {
        Some(Mark {
            line,
            tick: hit.tick,
        })
    } else {
        None
    }
}

/// What waited, if at a tick it is too late for it.
fn overdue(mark: Option<Mark>, within: u64, tick: u64) -> Option<Mark>
    ensures { MatchOption result (InTime within mark tick) (λ m. (mark ≡ Some m) × (m.tick + within < tick)) }
{
    match mark {
        Some(late) => {
            if is_past(late.tick, within, tick) {
                Some(late)
            } else {
                None
            }
        }
        None => None,
    }
}

fn see(within: u64, mark: Option<Mark>, line: u64, hit: Hit) -> Watch
    ensures { Steps (Need.See within) (Watch.See mark) line hit result }
{
    match overdue(mark, within, hit.tick) {
        Some(late) => broken(late.line, late.tick, Fault::Unanswered),
        None => Watch::See(mark_after(mark, line, hit)),
    }
}

fn not(within: u64, last: Option<u64>, line: u64, hit: Hit) -> Watch
    ensures { Steps (Need.Not within) (Watch.Not last) line hit result }
{
    if hit.second && !is_long_past(last, within, hit.tick) {
        return broken(line, hit.tick, Fault::Answered);
    }
    if hit.first {
        Watch::Not(Some(hit.tick))
    } else {
        Watch::Not(last)
    }
}

fn before(within: u64, last: Option<u64>, line: u64, hit: Hit) -> Watch
    ensures { Steps (Need.Before within) (Watch.Before last) line hit result }
{
    if hit.first && is_long_past(last, within, hit.tick) {
        return broken(line, hit.tick, Fault::Unprepared);
    }
    if hit.second {
        Watch::Before(Some(hit.tick))
    } else {
        Watch::Before(last)
    }
}

/// Both of two.
fn both(first: bool, second: bool) -> bool
    ensures { result ≡ (first && second) }
{
    first && second
}

/// One of two, or both.
fn either(first: bool, second: bool) -> bool
    ensures { result ≡ (first || second) }
{
    first || second
}

fn never(from_start: bool, is_on: bool, line: u64, hit: Hit) -> Watch
    ensures { Steps (Need.Never from_start) (Watch.Never is_on) line hit result }
{
    let stays_on = both(is_on, !hit.third);
    if both(stays_on, hit.first) {
        return broken(line, hit.tick, Fault::Forbidden);
    }
    Watch::Never(either(stays_on, hit.second))
}

/// The number of the window in which a tick is. Without windows all ticks are in the first.
pub(crate) fn window_of(every: Option<u64>, tick: u64) -> u64
    ensures { result ≡ spec.window_of every tick }
{
    match every {
        None | Some(0) => 0,
        Some(length) => tick / length,
    }
}

/// Whether a window before `next` has too few P. `window` is the last one with a line, and `count` is its count of P.
pub(crate) fn lacks(least: u64, window: u64, count: u64, next: u64) -> bool
    ensures { IsTrue result ↔ Lacks least window count next }
{
    if next <= window {
        return false;
    }
    count < least || (next - window > 1 && 0 < least)
}

fn is_over(most: Option<u64>, count: u64) -> bool
    ensures { IsTrue result ↔ spec.IsOver most count }
{
    match most {
        Some(most) => most < count,
        None => false,
    }
}

/// The state of a count after one more line, if the windows before its own have enough. `before` is the count of P in
/// its window before it.
fn count_on(most: Option<u64>, window: u64, before: u64, line: u64, hit: Hit) -> Watch
    ensures { CountsOn most window before line hit result }
{
    if hit.first {
        let count = before.saturating_add(1);
        if is_over(most, count) {
            broken(line, hit.tick, Fault::More)
        } else {
            Watch::Count { window, count }
        }
    } else {
        Watch::Count {
            window,
            count: before,
        }
    }
}

/// The numbers of a rule that counts.
#[derive(Clone, Copy)]
pub(crate) struct Bounds {
    pub(crate) least: u64,
    pub(crate) most: Option<u64>,
    pub(crate) every: Option<u64>,
}

fn count(bounds: Bounds, window: u64, count: u64, line: u64, hit: Hit) -> Watch
    ensures { Steps (Need.Count bounds.least bounds.most bounds.every) (Watch.Count window count) line hit result }
{
    let next = window_of(bounds.every, hit.tick);
    if lacks(bounds.least, window, count, next) {
        return broken(line, hit.tick, Fault::Fewer);
    }
    let before = if window < next { 0 } else { count };
    count_on(bounds.most, next, before, line, hit)
}

/// The state after one more line, which has this number. A rule that is broken stays so.
pub(crate) fn step(need: Need, watch: Watch, line: u64, hit: Hit) -> Watch
    ensures { Steps need watch line hit result }
{
    match need {
        Need::See { within } => match watch {
            Watch::See(mark) => see(within, mark, line, hit),
            _ => watch,
        },
        Need::Not { within } => match watch {
            Watch::Not(last) => not(within, last, line, hit),
            _ => watch,
        },
        Need::Before { within } => match watch {
            Watch::Before(last) => before(within, last, line, hit),
            _ => watch,
        },
        Need::Never { from_start } => match watch {
            Watch::Never(is_on) => never(from_start, is_on, line, hit),
            _ => watch,
        },
        Need::Count { least, most, every } => match watch {
            Watch::Count { window, count } => {
                self::count(Bounds { least, most, every }, window, count, line, hit)
            }
            _ => watch,
        },
    }
}
