//! Which patterns of a rule a trace has lines for, so that a misspelt one shows.

ghost use Rattle.std.specs.Prelude.{◌≡◌, [], ◌∷◌, ◌++◌, List};
ghost use Rattle.fb_expect.specs.Events.{Event, event_of};
ghost use Rattle.fb_expect.specs.Hits as hits;
ghost use Rattle.fb_expect.specs.Patterns as patterns;
ghost use Rattle.fb_expect.specs.Sights as spec;

use crate::entry::Entry;
use crate::hit::Hit;
use crate::meeting::{has_all, has_kinds, is_at};
use crate::pattern::Pattern;
use crate::rule::Rule;

/// What a trace has of a pattern, so far.
#[derive(Clone, Copy)]
pub enum Sight {
    /// No line of its ports.
    Nothing,
    /// A line of its ports, but none with all its variables.
    Port,
    /// A line with all its variables, but none in which all have values of the kinds that it compares.
    Named,
    /// A line with such values, but none that meets it.
    Fitting,
    /// A line that meets it; or there is no such pattern.
    Met,
}

/// What a trace has of the patterns of a rule.
#[derive(Clone, Copy)]
pub struct Sights {
    pub first: Sight,
    pub second: Sight,
    pub third: Sight,
}

fn begin_one(pattern: &Option<Pattern>) -> Sight
    ensures { result ≡ spec.may_sight pattern.now [] }
{
    match pattern {
        Some(_) => Sight::Nothing,
        None => Sight::Met,
    }
}

/// What is seen before the first line.
pub(crate) fn begin_sights(rule: &Rule) -> Sights
    ensures { result ≡ spec.sights_of rule.now [] }
{
    Sights {
        first: Sight::Nothing,
        second: begin_one(&rule.second),
        third: begin_one(&rule.third),
    }
}

/// What a line of the ports of a pattern shows that does not meet it.
fn nearest(pattern: &Pattern, entry: &Entry<'_>) -> Sight
    ensures { result ≡ spec.nearest (patterns.has_kinds pattern.now (event_of entry.now)) (patterns.has_all pattern.now (event_of entry.now)) }
{
    if has_kinds(pattern, entry) {
        return Sight::Fitting;
    }
    if has_all(pattern, entry) {
        return Sight::Named;
    }
    Sight::Port
}

/// What is seen of a pattern with one more line, which meets it or not.
fn see_one(pattern: &Pattern, sight: Sight, is_met: bool, entry: &Entry<'_>) -> Sight
    requires { is_met ≡ patterns.meets pattern.now (event_of entry.now) }
    ensures { (es : List Event) → sight ≡ spec.sight_of pattern.now es → result ≡ spec.sight_of pattern.now (es ++ event_of entry.now ∷ []) }
{
    if is_met {
        return Sight::Met;
    }
    match sight {
        Sight::Met => Sight::Met,
        Sight::Fitting => Sight::Fitting,
        Sight::Named => {
            if has_kinds(pattern, entry) {
                Sight::Fitting
            } else {
                Sight::Named
            }
        }
        Sight::Port => nearest(pattern, entry),
        Sight::Nothing => {
            if is_at(pattern, entry) {
                nearest(pattern, entry)
            } else {
                Sight::Nothing
            }
        }
    }
}

fn may_see_one(pattern: &Option<Pattern>, sight: Sight, is_met: bool, entry: &Entry<'_>) -> Sight
    requires { is_met ≡ hits.may_meet pattern.now (event_of entry.now) }
    ensures { (es : List Event) → sight ≡ spec.may_sight pattern.now es → result ≡ spec.may_sight pattern.now (es ++ event_of entry.now ∷ []) }
{
    match pattern {
        Some(pattern) => see_one(pattern, sight, is_met, entry),
        None => Sight::Met,
    }
}

/// What is seen with one more line.
pub(crate) fn see_line(rule: &Rule, sights: Sights, hit: Hit, entry: &Entry<'_>) -> Sights
    requires { hit ≡ hits.hit_of rule.now (event_of entry.now) }
    ensures { (es : List Event) → sights ≡ spec.sights_of rule.now es → result ≡ spec.sights_of rule.now (es ++ event_of entry.now ∷ []) }
{
    Sights {
        first: see_one(&rule.first, sights.first, hit.first, entry),
        second: may_see_one(&rule.second, sights.second, hit.second, entry),
        third: may_see_one(&rule.third, sights.third, hit.third, entry),
    }
}
