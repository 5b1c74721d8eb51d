//! The queue of the running tick: local events in the order of their keys.
//!
//! An event raises local events of the same tick and resource, with numbers that follow the last one. So the queue has
//! the tick and the resource once, and of each event its number and its target. Appending one, and finding the next
//! one, takes constant time and compares no keys.

ghost use Rattle.std.specs.Prelude.{◌≡◌, ◌<◌, ◌++◌, ◌∷◌, [], None, IfSome, IfNone, OnErr, OnOk, length, slice_index_or};
ghost use Rattle.std.specs.Bool.{OnTrue};
ghost use Rattle.std.specs.List.{AllByRecursion};
ghost use Rattle.std.specs.Map.{lookup};
ghost use Rattle.fb_types.specs.Keys.{local_key, same_key};
ghost use Rattle.fb_types.specs.declared.key.Key as keys;
ghost use Rattle.fb_types.specs.declared.run.Target.{Target as Waiting};
ghost use Rattle.fb_agenda.specs.Agendas.{AreRising, IsAt, IsFirst, IsQueue, MayFollow, local_events};
ghost use Rattle.fb_agenda.specs.Lists.{BeginsAt, IsIndexOf, IsPopped, Sets};
ghost use Rattle.fb_agenda.specs.Moments.{IsMomentOf};
ghost use Rattle.fb_agenda.specs.LeastEvents.{taken};

use crate::least::Least;
use crate::moment::Moment;
use crate::store::make_room;
use fb_types::{Key, Target};
use std::alloc::{AllocError, Global};
use std::collections::VecDeque;
use std::marker::Model;

/// Local events of one tick and resource, in the order of their numbers. Contracts see each with its key.
#[derive(Drop)]
pub(crate) struct Queue {
    /// In milliseconds.
    tick: u64,
    /// The number of the resource.
    resource: u32,
    /// The numbers of the events within the tick and the resource, and their targets.
    waiting: VecDeque<(u128, Target)>,
}

impl Model for Queue {
    ghost use Rattle.std.specs.Prelude.{List, map};
    ghost use Rattle.fb_types.specs.declared.key.Key.{Key};
    ghost use Rattle.fb_types.specs.declared.run.Target.{Target};
    ghost use Rattle.fb_agenda.specs.Agendas.{keyed};

    ghost Value = { List (Key × Target) };

    ghost view = { λ q. map (keyed q.tick q.resource) q.waiting.items };
}

impl Queue {
    /// The queue without events.
    pub(crate) fn new(alloc: Global) -> Queue
        ensures { result ≡ [] }
    {
        Queue {
            tick: 0,
            resource: 0,
            waiting: VecDeque::new(alloc),
        }
    }

    /// Whether no event waits.
    #[inline(always)]
    pub(crate) fn is_empty(&self) -> bool
        ensures { OnTrue result (self.now ≡ []) }
    {
        self.waiting.is_empty()
    }

    /// The key of the first event.
    #[inline(always)]
    pub(crate) fn first(&self) -> Option<Key>
        requires { AreRising (local_events self.now) }
        ensures some { IfSome result (IsFirst (local_events self.now)) }
        ensures none { IfNone result (local_events self.now ≡ []) }
    {
        let (number, _) = self.waiting.front()?;
        Some(Key::local(self.tick, self.resource, *number))
    }

    /// The tick and the resource of the events, if there are any.
    #[inline(always)]
    pub(crate) fn moment(&self) -> Option<Moment>
        requires { AreRising (local_events self.now) }
        ensures some { IfSome result (IsMomentOf (local_events self.now)) }
        ensures none { IfNone result (local_events self.now ≡ []) }
    {
        if self.waiting.is_empty() {
            return None;
        }
        Some(Moment {
            tick: self.tick,
            resource: self.resource,
        })
    }

    /// Whether an event of this tick and resource may be appended: the queue is empty, or its last event has the same
    /// tick and resource, and an earlier number.
    #[inline(always)]
    pub(crate) fn follows(&self, tick: u64, resource: u32, number: u128) -> bool
        requires { IsQueue (local_events self.now) }
        ensures follows { OnTrue result (MayFollow (local_events self.now) (local_key tick resource number)) }
        ensures at { OnTrue result (AllByRecursion (IsAt tick resource) self.now) }
    {
        let Some((last, _)) = self.waiting.back() else {
            return true;
        };
        self.tick == tick && self.resource == resource && *last < number
    }

    /// Appends an event of the tick and the resource of the others.
    ///
    /// # Errors
    ///
    /// When memory runs out. The queue is then as it was.
    #[inline(always)]
    pub(crate) fn push(
        &mut self,
        tick: u64,
        resource: u32,
        number: u128,
        target: Target,
    ) -> Result<(), AllocError>
        requires { AllByRecursion (IsAt tick resource) self.old }
        ensures ok { OnOk result (self.new ≡ self.old ++ (local_key tick resource number, target) ∷ []) }
        ensures err { OnErr result (self.new ≡ self.old) }
    {
        make_room(&mut self.waiting)?;
        self.waiting.push_back_reserved((number, target));
        self.tick = tick;
        self.resource = resource;
        Ok(())
    }

    /// The key of the event at an index.
    fn key_at(&self, index: usize) -> Key
        requires { index < length self.now }
        ensures { (d : keys.Key × Waiting) → (slice_index_or self.now index d).0 ≡ result }
    {
        let (number, _) = self.waiting[index];
        Key::local(self.tick, self.resource, number)
    }

    /// The index of a key, if the queue has it.
    fn index_of(&self, key: &Key) -> Option<usize>
        ensures there { IfSome result (IsIndexOf (local_events self.now) key.now) }
        ensures absent { IfNone result (lookup (same_key key.now) (local_events self.now) ≡ None) }
    {
        for index in 0..self.waiting.len() {
            if key.cmp(&self.key_at(index)).is_eq() {
                return Some(index);
            }
        }
        None
    }

    /// Removes the event under a key, if one waits there.
    pub(crate) fn remove(&mut self, key: &Key)
        requires { IsQueue (local_events self.old) }
        ensures gone { Sets key.now None (local_events self.old) (local_events self.new) }
        ensures queue { IsQueue (local_events self.new) }
    {
        if let Some(index) = self.index_of(key) {
            self.waiting.remove(index);
        }
    }

    /// Takes the first event, if its tick is below the horizon, and moves it into `Least`. Returns whether it did.
    #[inline(always)]
    pub(crate) fn pop_into(&mut self, horizon: u64, least_event: &mut Least) -> bool
        requires { AreRising (local_events self.old) }
        ensures popped { IsPopped (local_events self.old) (local_events self.new) (taken result least_event.new) }
        ensures rising { AreRising (local_events self.new) }
        ensures below { IfSome (taken result least_event.new) (λ r. r.0.tick < horizon) }
        ensures none { IfNone (taken result least_event.new) (BeginsAt horizon (local_events self.old)) }
    {
        let Some(first) = self.first() else {
            return false;
        };
        if first.tick >= horizon {
            return false;
        }
        let Some(waiting) = self.waiting.pop_front() else {
            return false;
        };
        least_event.hold_local(Key::local(self.tick, self.resource, waiting.0), &waiting.1);
        true
    }
}
