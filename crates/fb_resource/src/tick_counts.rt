//! What is counted in one tick.

ghost use Rattle.std.specs.Prelude.{◌≡◌, Some, None};
ghost use Rattle.std.specs.Bool.{OnFalse, OnTrue};
ghost use Rattle.fb_types.specs.Takes.{begun};
ghost use Rattle.fb_resource.specs.Counts.{HasNoSteps, IsMetered, before_step, meter_of};

use fb_st::Meter;

/// The steps that are left in the tick of the last event that was taken, and how many local events were
/// raised in it.
#[derive(Clone, Copy)]
pub struct TickCounts {
    /// In milliseconds. `None` before the first event.
    pub tick: Option<u64>,
    /// The steps that are left.
    pub meter: Meter,
    /// The count of local events.
    pub locals: u128,
}

impl TickCounts {
    /// Nothing was taken yet.
    pub fn new() -> TickCounts
        ensures { result ≡ record { tick = None; meter = record { left = 0 }; locals = 0 } }
    {
        TickCounts {
            tick: None,
            meter: Meter { left: 0 },
            locals: 0,
        }
    }

    /// Uses a step of a tick, and counts afresh where the tick is another one. Where no step is left nothing changes,
    /// and the answer is `false`.
    #[inline(always)]
    pub fn step(&mut self, limit: u64, tick: u64) -> bool
        requires { IsMetered limit self.old }
        ensures used { OnTrue result (meter_of (before_step self.new) ≡ begun limit tick (meter_of self.old)) }
        ensures metered { OnTrue result (IsMetered limit (before_step self.new)) }
        ensures tick { OnTrue result (self.new.tick ≡ Some tick) }
        ensures none { OnFalse result (HasNoSteps (begun limit tick (meter_of self.old))) }
        ensures kept { OnFalse result (self.new ≡ self.old) }
    {
        if self.tick != Some(tick) {
            if limit == 0 {
                return false;
            }
            *self = TickCounts {
                tick: Some(tick),
                meter: Meter { left: limit - 1 },
                locals: 0,
            };
            return true;
        }
        if self.meter.left == 0 {
            return false;
        }
        self.meter.left -= 1;
        true
    }
}
