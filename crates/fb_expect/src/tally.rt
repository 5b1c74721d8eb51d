//! How often a rule was decided.

ghost use Rattle.std.specs.Prelude.{◌≡◌, ◌-◌, ◌<◌, ◌^◌, []};
ghost use Rattle.fb_expect.specs.Deciding as spec;
ghost use Rattle.fb_expect.specs.Deciding.{Counts, Decides, Tallies, judged_up_to};

use crate::ending::End;
use crate::hit::Hit;
use crate::rule::Need;
use crate::verdict::windows_over;

/// How often a rule was decided by a part of the trace. P is its first pattern, Q the second and R the third.
#[derive(Clone, Copy)]
pub enum Tally {
    /// The count of P.
    Events(u64),
    /// The lines between a Q, or the beginning, and the next R. A rule that broke is counted on.
    Stretches {
        /// The count of lines before the stretch that is not over, if there is one.
        since: Option<u64>,
        /// The count of lines in the stretches that are over.
        closed: u64,
    },
    /// Windows, which only the end of the trace counts.
    Windows,
}

/// What is counted before the first line.
pub(crate) fn begin_tally(need: Need) -> Tally
    ensures { Tallies need [] result }
{
    match need {
        Need::See { .. } | Need::Not { .. } | Need::Before { .. } => Tally::Events(0),
        Need::Never { from_start } => Tally::Stretches {
            since: if from_start { Some(0) } else { None },
            closed: 0,
        },
        Need::Count { .. } => Tally::Windows,
    }
}

/// The count of lines in stretches among the first lines.
fn lines_inside(since: Option<u64>, closed: u64, lines: u64) -> u64
    ensures { judged_up_to since closed lines < 2 ^ 64 → result ≡ judged_up_to since closed lines }
{
    match since {
        Some(start) => closed.saturating_add(lines.saturating_sub(start)),
        None => closed,
    }
}

/// The count of lines before a stretch that begins after the line of this number, if it is a Q.
fn fresh(line: u64, second: bool) -> Option<u64>
    ensures { result ≡ spec.fresh second line }
{
    if second { Some(line) } else { None }
}

/// The count of lines before the stretch that is not over after the line of this number. An R ends one, and a Q begins
/// one after it.
fn since_after(since: Option<u64>, line: u64, hit: Hit) -> Option<u64>
    ensures { result ≡ spec.since_after since hit.third hit.second line }
{
    if hit.third {
        return fresh(line, hit.second);
    }
    match since {
        Some(start) => Some(start),
        None => fresh(line, hit.second),
    }
}

/// The count of lines in the stretches that are over after the line of this number. A line that is an R is in none.
fn closed_after(since: Option<u64>, closed: u64, line: u64, third: bool) -> u64
    ensures { judged_up_to since closed (line - 1) < 2 ^ 64 → result ≡ spec.closed_after since closed third line }
{
    if third {
        lines_inside(since, closed, line.saturating_sub(1))
    } else {
        closed
    }
}

fn count_stretches(since: Option<u64>, closed: u64, line: u64, hit: Hit) -> Tally
    ensures { Counts (Tally.Stretches since closed) line hit result }
{
    Tally::Stretches {
        since: since_after(since, line, hit),
        closed: closed_after(since, closed, line, hit.third),
    }
}

fn count_event(count: u64, line: u64, hit: Hit) -> Tally
    ensures { Counts (Tally.Events count) line hit result }
{
    if hit.first {
        Tally::Events(count.saturating_add(1))
    } else {
        Tally::Events(count)
    }
}

/// The count after one more line, which has this number.
pub(crate) fn count_line(tally: Tally, line: u64, hit: Hit) -> Tally
    ensures { Counts tally line hit result }
{
    match tally {
        Tally::Events(count) => count_event(count, line, hit),
        Tally::Stretches { since, closed } => count_stretches(since, closed, line, hit),
        Tally::Windows => Tally::Windows,
    }
}

/// How many windows of a rule are over at an end.
fn windows_of(need: Need, end: End) -> u64
    ensures { spec.AreWindows need end result }
{
    match need {
        Need::Count { every, .. } => windows_over(every, end),
        Need::See { .. } | Need::Not { .. } | Need::Before { .. } | Need::Never { .. } => 0,
    }
}

/// How often the rule was decided by the whole trace, whose last line has this number.
pub(crate) fn decided_by(need: Need, tally: Tally, line: u64, end: End) -> u64
    ensures { Decides need tally line end result }
{
    match tally {
        Tally::Events(count) => count,
        Tally::Stretches { since, closed } => lines_inside(since, closed, line.saturating_sub(1)),
        Tally::Windows => windows_of(need, end),
    }
}
