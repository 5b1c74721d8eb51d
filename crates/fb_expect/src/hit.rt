//! What a line is to a rule.

ghost use Rattle.std.specs.Prelude.{◌≡◌};
ghost use Rattle.fb_expect.specs.Events.{event_of};
ghost use Rattle.fb_expect.specs.Hits as spec;

use crate::entry::Entry;
use crate::meeting::meets;
use crate::pattern::Pattern;
use crate::rule::Rule;

/// A line as a rule sees it: its tick, and which patterns of the rule it meets.
#[derive(Clone, Copy)]
pub struct Hit {
    pub tick: u64,
    pub first: bool,
    pub second: bool,
    pub third: bool,
}

fn may_meet(pattern: &Option<Pattern>, entry: &Entry<'_>) -> bool
    ensures { result ≡ spec.may_meet pattern.now (event_of entry.now) }
{
    match pattern {
        Some(pattern) => meets(pattern, entry),
        None => false,
    }
}

/// What a line is to a rule.
pub(crate) fn hit_of(rule: &Rule, entry: &Entry<'_>) -> Hit
    ensures { result ≡ spec.hit_of rule.now (event_of entry.now) }
{
    Hit {
        tick: entry.tick,
        first: meets(&rule.first, entry),
        second: may_meet(&rule.second, entry),
        third: may_meet(&rule.third, entry),
    }
}
