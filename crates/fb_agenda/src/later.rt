//! The events outside the queue of the running tick: timers, and in a store all others.

ghost use Rattle.std.specs.Prelude.{◌≡◌, ◌≢◌, ◌<◌, IsSome, List, [], IfSome, IfNone, OnOk, OnErr, Some, None, length, slice_index, slice_set};
ghost use Rattle.std.specs.Bool.{OnFalse, OnTrue};
ghost use Rattle.std.specs.Map.{lookup};
ghost use Rattle.fb_types.specs.Keys.{same_key, timer_key};
ghost use Rattle.fb_types.specs.declared.key.Key as keys;
ghost use Rattle.fb_types.specs.declared.run.Event as events;
ghost use Rattle.fb_types.specs.declared.run.Event.TheVariants.{Timer};
ghost use Rattle.fb_agenda.specs.Agendas.{AreRising, IsFirst};
ghost use Rattle.fb_agenda.specs.Lists.{BeginsAt, IsPopped, Leads, Sets};
ghost use Rattle.fb_agenda.specs.Moments.{IsPast};
ghost use Rattle.fb_agenda.specs.LeastEvents.{taken};

use crate::least::Least;
use crate::moment::Moment;
use crate::store::Store;
use crate::timer_row::Timers;
use fb_types::{Event, Key};
use std::alloc::{AllocError, Global};
use std::marker::Model;

/// Events under their keys, at most one under each, and the ticks of the timers. Contracts see the events as a list.
#[derive(Drop)]
pub(crate) struct Later {
    /// The timers.
    timers: Timers,
    /// All other events: stimuli and messages, and local events that did not follow those of the running tick.
    others: Store,
    /// For each instance, the tick in milliseconds at which its timer goes off, or went off last.
    due: Vec<u64>,
    /// Whether a local event may be among the others. In a run none ever is.
    has_local: bool,
    /// No event waits before this moment.
    quiet: Moment,
}

impl Model for Later {
    ghost use Rattle.std.specs.Prelude.{◌++◌};
    ghost use Rattle.fb_agenda.specs.Laters.{AreKept, Pending};

    ghost Value = { Pending };

    ghost view = { λ l. record { events = l.timers ++ l.others; due = l.due.items } };

    ghost invariant = { λ l. AreKept l.timers l.others l.has_local l.quiet };
}

/// Whether a timer waits, and no other event comes before the first one.
#[inline(always)]
fn is_timer_first(timers: &Timers, others: &Store) -> bool
    requires { AreRising timers.now }
    ensures timers { OnTrue result (Leads timers.now others.now) }
    ensures others { OnFalse result (Leads others.now timers.now) }
{
    let Some(first) = timers.first() else {
        return false;
    };
    let Some(other) = others.first() else {
        return true;
    };
    first < *other
}

impl Later {
    /// No events, for the instances that have these ticks of timers.
    pub(crate) fn new(alloc: Global, due: Vec<u64>) -> Later
        ensures none { result.events ≡ [] }
        ensures due { result.due ≡ due.items }
    {
        Later {
            timers: Timers::new(alloc),
            others: Store::new(alloc),
            due,
            has_local: false,
            quiet: Moment {
                tick: 0,
                resource: 0,
            },
        }
    }

    /// Puts an event that is no timer under its key. It replaces an event that waits there.
    ///
    /// # Errors
    ///
    /// When memory runs out. The events are then as they were, and the key is not among them.
    #[inline(always)]
    pub(crate) fn put(&mut self, key: Key, event: Event) -> Result<(), AllocError>
        requires { key.class ≢ 1 }
        ensures put { OnOk result (Sets key (Some event) self.old.events self.new.events) }
        ensures absent { OnErr result (lookup (same_key key) self.old.events ≡ None) }
        ensures due { self.new.due ≡ self.old.due }
        ensures err { OnErr result (self.new ≡ self.old) }
    {
        self.has_local |= key.is_local();
        self.quiet.lower(Moment::of(&key));
        self.others.put(key, event)
    }

    /// Whether a local event may be among the events.
    #[inline(always)]
    pub(crate) fn has_local(&self) -> bool
        ensures { OnFalse result ((j : keys.Key) → j.class ≡ 3 → lookup (same_key j) self.now.events ≡ None) }
    {
        self.has_local
    }

    /// Removes the event under a key that is no timer's, if one waits there.
    pub(crate) fn remove(&mut self, key: &Key)
        requires { key.now.class ≢ 1 }
        ensures gone { Sets key.now None self.old.events self.new.events }
        ensures due { self.new.due ≡ self.old.due }
    {
        self.others.remove(key);
    }

    /// Puts a timer under its key. It replaces one that waits there.
    ///
    /// # Errors
    ///
    /// When memory runs out. The events are then as they were.
    #[inline(always)]
    pub(crate) fn set_timer(
        &mut self,
        tick: u64,
        resource: u32,
        instance: u32,
    ) -> Result<(), AllocError>
        requires { instance < length self.old.due }
        ensures put { OnOk result (Sets (timer_key tick resource instance) (Some (Timer instance)) self.old.events self.new.events) }
        ensures due { OnOk result (self.new.due ≡ slice_set self.old.due instance tick) }
        ensures counted { length self.new.due ≡ length self.old.due }
        ensures err { OnErr result (self.new ≡ self.old) }
    {
        self.quiet.lower(Moment { tick, resource });
        self.timers.set(tick, resource, instance)?;
        self.due[instance as usize] = tick;
        Ok(())
    }

    /// The tick of the timer of an instance, in milliseconds, if it waits there.
    pub(crate) fn timer(&self, resource: u32, instance: u32) -> Option<u64>
        requires { instance < length self.now.due }
        ensures tick { IfSome result (λ t. t ≡ slice_index self.now.due instance) }
        ensures some { IfSome result (λ t. IsSome (lookup (same_key (timer_key t resource instance)) self.now.events)) }
        ensures none { IfNone result (lookup (same_key (timer_key (slice_index self.now.due instance) resource instance)) self.now.events ≡ None) }
    {
        let tick = self.due[instance as usize];
        if self.timers.has(tick, resource, instance) {
            Some(tick)
        } else {
            None
        }
    }

    /// Removes the timer of an instance, if it waits at the instance's tick.
    #[inline(always)]
    pub(crate) fn clear_timer(&mut self, resource: u32, instance: u32)
        requires { instance < length self.old.due }
        ensures gone { Sets (timer_key (slice_index self.old.due instance) resource instance) None self.old.events self.new.events }
        ensures due { self.new.due ≡ self.old.due }
    {
        let tick = self.due[instance as usize];
        self.timers.cancel(tick, resource, instance);
    }

    /// The first key.
    #[inline(always)]
    pub(crate) fn first(&self) -> Option<Key>
        ensures some { IfSome result (IsFirst self.now.events) }
        ensures none { IfNone result (self.now.events ≡ []) }
    {
        if is_timer_first(&self.timers, &self.others) {
            return self.timers.first();
        }
        let first = self.others.first()?;
        Some(*first)
    }

    /// Whether it is known from an earlier call that no event waits at this moment or before.
    #[inline(always)]
    pub(crate) fn is_past(&self, moment: Moment) -> bool
        ensures { OnTrue result (IsPast moment self.now.events) }
    {
        moment.is_before(&self.quiet)
    }

    /// Keeps the moment of the first key, which is given, for the next calls.
    #[inline(always)]
    fn note_first(&mut self, first: &Key)
        requires { IsFirst self.old.events first.now }
        ensures { self.new ≡ self.old }
    {
        self.quiet = Moment::of(first);
    }

    /// Whether no event waits at this moment or before. The moment of the first event is kept for the next calls.
    #[inline(never)]
    pub(crate) fn comes_past(&mut self, moment: Moment) -> bool
        ensures past { OnTrue result (IsPast moment self.old.events) }
        ensures kept { self.new ≡ self.old }
    {
        let Some(first) = self.first() else {
            return true;
        };
        self.note_first(&first);
        self.is_past(moment)
    }

    /// Whether no event waits before this key. The moment of the first event is kept for the next calls.
    #[inline(never)]
    pub(crate) fn comes_after(&mut self, key: &Key) -> bool
        ensures after { OnTrue result ((es : List (keys.Key × events.Event)) → IsFirst es key.now → Leads es self.old.events) }
        ensures before { OnFalse result ((es : List (keys.Key × events.Event)) → IsFirst es key.now → Leads self.old.events es) }
        ensures kept { self.new ≡ self.old }
    {
        let Some(first) = self.first() else {
            return true;
        };
        self.note_first(&first);
        *key < first
    }

    /// Takes the event with the first key, if its tick is below the horizon, and moves it into `Least`. Returns whether
    /// it did.
    #[inline(never)]
    pub(crate) fn pop_into(&mut self, horizon: u64, least_event: &mut Least) -> bool
        ensures popped { IsPopped self.old.events self.new.events (taken result least_event.new) }
        ensures below { IfSome (taken result least_event.new) (λ r. r.0.tick < horizon) }
        ensures none { IfNone (taken result least_event.new) (BeginsAt horizon self.old.events) }
        ensures due { self.new.due ≡ self.old.due }
    {
        if is_timer_first(&self.timers, &self.others) {
            self.timers.pop_into(horizon, least_event)
        } else {
            self.others.pop_into(horizon, least_event)
        }
    }
}
