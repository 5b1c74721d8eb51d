//! Whether a rule was decided at least once.
//!
//! A P of a rule `after` is decided if a Q follows it in time, or if its time is over when the trace ends. Ticks do not
//! fall, so that some P is decided exactly if the first one is.

ghost use Rattle.std.specs.Prelude.{◌≡◌, List};
ghost use Rattle.fb_expect.specs.Deciding.{Applies, FirstOn, KnowsFirst, Settles, comes_before};
ghost use Rattle.fb_expect.specs.Watching.{IsClean, KnowsSee};
ghost use Rattle.fb_expect.specs.declared.hit.Hit.{Hit as HitModel};

use crate::ending::End;
use crate::hit::Hit;
use crate::rule::Need;
use crate::watch::{Mark, Watch, is_past};

/// The first P after one more line, of this number.
pub(crate) fn first_after(first: Option<Mark>, line: u64, hit: Hit) -> Option<Mark>
    ensures { FirstOn first line hit result }
{
    match first {
        Some(mark) => Some(mark),
        None => {
            if hit.first {
                Some(Mark {
                    line,
                    tick: hit.tick,
                })
            } else {
                None
            }
        }
    }
}

/// Whether the first P is before what waits, or nothing waits.
fn is_before(first: Mark, waiting: Option<Mark>) -> bool
    ensures { result ≡ comes_before first waiting }
{
    match waiting {
        Some(mark) => first.line < mark.line,
        None => true,
    }
}

/// Whether some P is decided of a rule `see` that is not broken.
fn see_settles(within: u64, waiting: Option<Mark>, first: Option<Mark>, end: End) -> bool
    ensures { (hs : List HitModel) → KnowsFirst hs first → KnowsSee within hs waiting → Settles within hs end result }
{
    match first {
        Some(mark) => is_before(mark, waiting) || is_past(mark.tick, within, end.tick()),
        None => false,
    }
}

/// Whether some P is decided of a rule `not` that is not broken.
fn not_settles(within: u64, first: Option<Mark>, end: End) -> bool
    ensures { (hs : List HitModel) → KnowsFirst hs first → IsClean (Need.Not within) hs → Settles within hs end result }
{
    match first {
        Some(mark) => is_past(mark.tick, within, end.tick()),
        None => false,
    }
}

/// Whether a rule was decided at least once that judges each line by itself. `often` is how often it was decided, or
/// the count of P.
pub(crate) fn is_applied(
    need: Need,
    watch: Watch,
    first: Option<Mark>,
    often: u64,
    end: End,
) -> bool
    ensures { Applies need watch first end often result }
{
    match need {
        Need::See { within } => match watch {
            Watch::See(waiting) => see_settles(within, waiting, first, end),
            _ => true,
        },
        Need::Not { within } => match watch {
            Watch::Not(_) => not_settles(within, first, end),
            _ => true,
        },
        Need::Before { .. } | Need::Never { .. } | Need::Count { .. } => often != 0,
    }
}
