//! The timers that wait, in the order of their keys.
//!
//! A timer is its tick, its resource and its instance. So a row of timers takes 16 bytes for each, where a row of events
//! with their keys takes 112.

ghost use Rattle.std.specs.Prelude.{IsSome, ◌≡◌, ◌<◌, ◌++◌, [], None, option_to_list, IfSome, IfNone, OnErr, OnOk, option_map};
ghost use Rattle.std.specs.Bool.{OnFalse, OnTrue};
ghost use Rattle.std.specs.List.{AllByRecursion};
ghost use Rattle.std.specs.Map.{keys_of, lookup};
ghost use Rattle.std.specs.BTreeMap.{insert_entry};
ghost use Rattle.fb_types.specs.Keys.{Precedes, key_cmp, same_key, timer_key};
ghost use Rattle.fb_types.specs.declared.run.Event.TheVariants.{Timer};
ghost use Rattle.fb_agenda.specs.Agendas.{AreRising, IsFirst};
ghost use Rattle.fb_agenda.specs.Lists.{BeginsAt, IsPopped, Sets};
ghost use Rattle.fb_agenda.specs.LeastEvents.{taken};
ghost use Rattle.fb_agenda.specs.Timing.{timer_event};

use crate::least::Least;
use crate::store::make_room;
use fb_types::{Event, Key};
use std::alloc::{AllocError, Global};
use std::collections::VecDeque;
use std::marker::Model;

/// A timer that waits.
#[derive(Clone, Copy)]
pub(crate) struct Timed {
    /// When it goes off, in milliseconds.
    tick: u64,
    /// The number of the resource.
    resource: u32,
    /// The number of the instance.
    instance: u32,
}

impl Timed {
    /// The key under which it waits.
    #[inline(always)]
    fn key(self) -> Key
        ensures { result ≡ timer_key self.tick self.resource self.instance }
    {
        Key::timer(self.tick, self.resource, self.instance)
    }
}

/// Timers in the order of their keys. Contracts see each as an event with its key.
#[derive(Drop)]
pub(crate) struct Timers {
    row: VecDeque<Timed>,
}

impl Model for Timers {
    ghost use Rattle.std.specs.Prelude.{List};
    ghost use Rattle.fb_types.specs.declared.key.Key.{Key};
    ghost use Rattle.fb_types.specs.declared.run.Event.{Event};
    ghost use Rattle.fb_agenda.specs.Timing.{timer_events};

    ghost Value = { List (Key × Event) };

    ghost view = { λ t. timer_events t.row.items };
}

impl Timers {
    /// No timers.
    pub(crate) fn new(alloc: Global) -> Timers
        ensures { result ≡ [] }
    {
        Timers {
            row: VecDeque::new(alloc),
        }
    }

    /// The key of the first timer.
    #[inline(always)]
    pub(crate) fn first(&self) -> Option<Key>
        requires { AreRising self.now }
        ensures some { IfSome result (IsFirst self.now) }
        ensures none { IfNone result (self.now ≡ []) }
    {
        let first = self.row.front()?;
        Some(first.key())
    }

    /// Whether the timer of an instance waits at this tick.
    pub(crate) fn has(&self, tick: u64, resource: u32, instance: u32) -> bool
        requires { AreRising self.now }
        ensures there { OnTrue result (IsSome (lookup (same_key (timer_key tick resource instance)) self.now)) }
        ensures none { OnFalse result (lookup (same_key (timer_key tick resource instance)) self.now ≡ None) }
    {
        let key = Key::timer(tick, resource, instance);
        match self.row.binary_search_by_key(&key, |timed| timed.key()) {
            Ok(_) => true,
            Err(_) => false,
        }
    }

    /// Puts a timer under its key, if it does not wait there already.
    ///
    /// # Errors
    ///
    /// When memory runs out. The timers are then as they were.
    #[inline(always)]
    pub(crate) fn set(&mut self, tick: u64, resource: u32, instance: u32) -> Result<(), AllocError>
        requires { AreRising self.old }
        ensures ok { OnOk result (self.new ≡ insert_entry key_cmp self.old (timer_key tick resource instance) (Timer instance)) }
        ensures err { OnErr result (self.new ≡ self.old) }
    {
        if self.is_past(&Key::timer(tick, resource, instance)) {
            make_room(&mut self.row)?;
            self.row.push_back_reserved(Timed {
                tick,
                resource,
                instance,
            });
            return Ok(());
        }
        self.set_within(tick, resource, instance)
    }

    /// Whether the key comes after all keys of the timers.
    #[inline(always)]
    fn is_past(&self, key: &Key) -> bool
        requires { AreRising self.now }
        ensures { OnTrue result (AllByRecursion (λ j. Precedes j key.now) (keys_of self.now)) }
    {
        match self.row.back() {
            Some(last) => last.key() < *key,
            None => true,
        }
    }

    /// The same as `set`, for a timer that is not after all others.
    #[inline(never)]
    fn set_within(&mut self, tick: u64, resource: u32, instance: u32) -> Result<(), AllocError>
        requires { AreRising self.old }
        ensures ok { OnOk result (self.new ≡ insert_entry key_cmp self.old (timer_key tick resource instance) (Timer instance)) }
        ensures err { OnErr result (self.new ≡ self.old) }
    {
        let timed = Timed {
            tick,
            resource,
            instance,
        };
        match self
            .row
            .binary_search_by_key(&timed.key(), |other| other.key())
        {
            Ok(index) => {
                self.row[index] = timed;
                Ok(())
            }
            Err(index) => {
                self.row.insert(index, timed)?;
                Ok(())
            }
        }
    }

    /// Removes the timer of an instance, if it waits at this tick.
    #[inline(always)]
    pub(crate) fn cancel(&mut self, tick: u64, resource: u32, instance: u32)
        requires { AreRising self.old }
        ensures sets { Sets (timer_key tick resource instance) None self.old self.new }
        ensures rising { AreRising self.new }
    {
        let key = Key::timer(tick, resource, instance);
        // A timer that has gone off is usually before all others.
        if self.is_before(&key) {
            return;
        }
        self.remove_within(&key);
    }

    /// Whether the key comes before all keys of the timers.
    #[inline(always)]
    fn is_before(&self, key: &Key) -> bool
        requires { AreRising self.now }
        ensures { OnTrue result (lookup (same_key key.now) self.now ≡ None) }
    {
        match self.row.front() {
            Some(first) => *key < first.key(),
            None => true,
        }
    }

    /// Removes the timer under a key, which a binary search finds, if it waits.
    #[inline(never)]
    fn remove_within(&mut self, key: &Key)
        requires { AreRising self.old }
        ensures sets { Sets key.now None self.old self.new }
        ensures rising { AreRising self.new }
    {
        if let Ok(index) = self.row.binary_search_by_key(key, |other| other.key()) {
            self.row.remove(index);
        }
    }

    /// Takes the first timer, if its tick is below the horizon.
    #[inline(always)]
    fn pop_below(&mut self, horizon: u64) -> Option<Timed>
        requires { AreRising self.old }
        ensures items { self.old ≡ option_to_list (option_map timer_event result) ++ self.new }
        ensures below { IfSome result (λ t. t.tick < horizon) }
        ensures none { IfNone result (BeginsAt horizon self.old) }
    {
        let first = self.row.front()?;
        if first.tick >= horizon {
            return None;
        }
        self.row.pop_front()
    }

    /// Takes the first timer, if its tick is below the horizon, and moves it into `Least`. Returns whether it did.
    #[inline(always)]
    pub(crate) fn pop_into(&mut self, horizon: u64, least_event: &mut Least) -> bool
        requires { AreRising self.old }
        ensures popped { IsPopped self.old self.new (taken result least_event.new) }
        ensures rising { AreRising self.new }
        ensures below { IfSome (taken result least_event.new) (λ r. r.0.tick < horizon) }
        ensures none { IfNone (taken result least_event.new) (BeginsAt horizon self.old) }
    {
        let Some(first) = self.pop_below(horizon) else {
            return false;
        };
        least_event.key = first.key();
        least_event.event = Event::Timer(first.instance);
        true
    }
}
