//! The result of a rule.

ghost use Rattle.std.specs.Prelude.{◌≡◌, List};
ghost use Rattle.fb_expect.specs.Rules as spec;
ghost use Rattle.fb_expect.specs.Rules.{IsVerdict};
ghost use Rattle.fb_expect.specs.Traces.{tick_of};
ghost use Rattle.fb_expect.specs.Watching.{Concludes, IsBelow, IsClean, KnowsLast, KnowsSee};
ghost use Rattle.fb_expect.specs.declared.hit.Hit.{Hit};

use crate::ending::End;
use crate::rule::Need;
use crate::watch::{Bounds, Mark, Watch, is_past, lacks, window_of};

/// What is wrong at a line.
#[derive(Clone, Copy)]
pub enum Fault {
    /// No line that is asked for follows in time.
    Unanswered,
    /// The line follows another that it must not follow so soon.
    Answered,
    /// No line that is asked for comes before it, or too long before.
    Unprepared,
    /// The line is where none may.
    Forbidden,
    /// A window is over, and has too few of the lines.
    Fewer,
    /// With this line there are too many.
    More,
}

/// Where a rule breaks first.
#[derive(Clone, Copy)]
pub struct Breach {
    /// The number of the line, from 1.
    pub line: u64,
    pub tick: u64,
    pub fault: Fault,
}

/// The result of a rule at a trace.
#[derive(Clone, Copy)]
pub enum Verdict {
    Holds,
    /// It breaks, and at this line first.
    Broken(Breach),
    /// It does not break, and the trace ends before that is settled.
    Undecided,
}

/// The result of a rule if this line waits, or none does.
fn conclude_mark(within: u64, mark: Option<Mark>, end: End) -> Verdict
    ensures { (hs : List Hit) → IsBelow hs (tick_of end) → KnowsSee within hs mark → IsVerdict (Need.See within) hs end result }
{
    match mark {
        Some(mark) => {
            if is_past(mark.tick, within, end.tick()) {
                Verdict::Broken(Breach {
                    line: mark.line,
                    tick: mark.tick,
                    fault: Fault::Unanswered,
                })
            } else {
                Verdict::Undecided
            }
        }
        None => Verdict::Holds,
    }
}

/// The result of a rule if this is the tick of its last P.
fn conclude_last(within: u64, last: Option<u64>, end: End) -> Verdict
    ensures { (hs : List Hit) → KnowsLast (λ h. h.first) hs last → IsClean (Need.Not within) hs → IsVerdict (Need.Not within) hs end result }
{
    match last {
        Some(last) => {
            if is_past(last, within, end.tick()) {
                Verdict::Holds
            } else {
                Verdict::Undecided
            }
        }
        None => Verdict::Holds,
    }
}

/// How many windows are over at an end.
pub(crate) fn windows_over(every: Option<u64>, end: End) -> u64
    ensures { result ≡ spec.windows_over every end }
{
    match every {
        Some(length) => window_of(Some(length), end.tick()),
        None => match end {
            End::Cut(_) => 0,
            End::Horizon(_) | End::Stop(_) => 1,
        },
    }
}

/// Whether an end is within a window.
fn is_amid(every: Option<u64>, end: End) -> bool
    ensures { result ≡ spec.is_amid every end }
{
    match end {
        End::Cut(_) => true,
        End::Stop(_) => every.is_some(),
        End::Horizon(horizon) => match every {
            None | Some(0) => false,
            Some(length) => horizon % length != 0,
        },
    }
}

/// The result of counts if this is the state of the last window.
fn conclude_window(bounds: Bounds, window: u64, count: u64, line: u64, end: End) -> Verdict
    ensures { Concludes (Need.Count bounds.least bounds.most bounds.every) (Watch.Count window count) line end result }
{
    if lacks(bounds.least, window, count, windows_over(bounds.every, end)) {
        return Verdict::Broken(Breach {
            line,
            tick: end.tick(),
            fault: Fault::Fewer,
        });
    }
    if is_amid(bounds.every, end) {
        Verdict::Undecided
    } else {
        Verdict::Holds
    }
}

/// The result of a rule after the whole trace, whose last line has this number.
pub(crate) fn verdict_of(need: Need, watch: Watch, line: u64, end: End) -> Verdict
    ensures { Concludes need watch line end result }
{
    if let Watch::Broken(breach) = watch {
        return Verdict::Broken(breach);
    }
    match need {
        Need::See { within } => match watch {
            Watch::See(mark) => conclude_mark(within, mark, end),
            _ => Verdict::Holds,
        },
        Need::Not { within } => match watch {
            Watch::Not(last) => conclude_last(within, last, end),
            _ => Verdict::Holds,
        },
        // Of these rules each line decides at once.
        Need::Before { .. } | Need::Never { .. } => Verdict::Holds,
        Need::Count { least, most, every } => match watch {
            Watch::Count { window, count } => {
                conclude_window(Bounds { least, most, every }, window, count, line, end)
            }
            _ => Verdict::Holds,
        },
    }
}
