//! The steps of a resource in a tick.

ghost use Rattle.std.specs.Prelude.{◌≡◌, ◌<◌, ◌≤◌, ◌+◌, ◌-◌, suc, min, IfNone, IfSome, IsTrue, Some, None, false};
ghost use Rattle.std.specs.Bool.{OnFalse, OnTrue};
ghost use Rattle.fb_inspect.specs.walk.Counted.{left_of};
ghost use Rattle.fb_inspect.specs.walk.Looks.{most};
ghost use Rattle.fb_inspect.specs.walk.Looks as spec;

use fb_st::Meter;
use fb_types::MOST_STEPS;

/// The steps that a resource has left in the tick of the last event that it took.
#[derive(Clone, Copy)]
pub struct TickSteps {
    pub tick: Option<u64>,
    pub meter: Meter,
    /// The fewest steps that were left after an event, of the greatest limit.
    pub least: u64,
}

/// What is left of these steps where this is left of the greatest limit. `None` where more were used, or what is left of
/// more steps than that limit is not below 2^64.
fn limited(left: u64, steps: u64) -> Option<u64>
    ensures within { IfSome result (λ n. most ≤ left + steps) }
    ensures left { IfSome result (λ n. n ≡ (left + steps) - most) }
    ensures none { IfNone result (steps ≤ most → left + steps < most) }
{
    if steps <= MOST_STEPS {
        left.checked_sub(MOST_STEPS - steps)
    } else {
        left.checked_add(steps - MOST_STEPS)
    }
}

impl TickSteps {
    /// Nothing was taken yet.
    pub(crate) fn new() -> TickSteps
        ensures { left_of result ≡ record { tick = None; left = 0; least = most } }
    {
        TickSteps {
            tick: None,
            meter: Meter { left: 0 },
            least: MOST_STEPS,
        }
    }

    /// The number of steps that are left in a tick, of this limit.
    pub fn left_at(&self, limit: u64, tick: u64) -> u64
        ensures { result ≡ spec.left_at limit tick (left_of self.now) }
    {
        if self.tick == Some(tick) {
            self.meter.left
        } else {
            limit
        }
    }

    /// Uses a step of a tick, of this limit. Where no step is left nothing changes, and the answer is `false`.
    pub(crate) fn step(&mut self, limit: u64, tick: u64) -> bool
        ensures used { OnTrue result (spec.left_at limit tick (left_of self.old) ≡ suc self.new.meter.left) }
        ensures tick { OnTrue result (self.new.tick ≡ Some tick) }
        ensures least { OnTrue result (self.new.least ≡ self.old.least) }
        ensures none { OnFalse result (spec.left_at limit tick (left_of self.old) ≡ 0) }
        ensures kept { OnFalse result (self.new ≡ self.old) }
    {
        let left = self.left_at(limit, tick);
        if left == 0 {
            return false;
        }
        *self = TickSteps {
            tick: Some(tick),
            meter: Meter { left: left - 1 },
            least: self.least,
        };
        true
    }

    /// Leaves in a tick what is left of these steps, in place of what is left of the greatest limit. Where more were
    /// used nothing changes, and the answer is `false`.
    pub(crate) fn limit(&mut self, steps: u64, tick: u64) -> bool
        ensures within { OnTrue result (most ≤ spec.left_at most tick (left_of self.old) + steps) }
        ensures left { OnTrue result (left_of self.new ≡ record { tick = Some tick; left = (spec.left_at most tick (left_of self.old) + steps) - most; least = self.old.least }) }
        ensures none { OnFalse result (steps ≤ most → spec.left_at most tick (left_of self.old) + steps < most) }
    {
        let Some(left) = limited(self.left_at(MOST_STEPS, tick), steps) else {
            return false;
        };
        *self = TickSteps {
            tick: Some(tick),
            meter: Meter { left },
            least: self.least,
        };
        true
    }

    /// An event was taken.
    pub(crate) fn settle(&mut self)
        ensures { self.new ≡ record self.old { least = min self.old.least self.old.meter.left } }
    {
        self.least = self.least.min(self.meter.left);
    }

    /// Whether no more than these steps were used in a tick, of the greatest limit.
    pub(crate) fn keeps(&self, steps: u64) -> bool
        ensures kept { IsTrue result → most ≤ self.now.least + steps }
        ensures more { result ≡ false → most ≤ self.now.least + steps → ⊥ }
    {
        self.least.saturating_add(steps) >= MOST_STEPS
    }
}
