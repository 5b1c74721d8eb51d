//! The events that wait, under their keys.

ghost use Rattle.std.specs.Prelude.{◌≡◌, ◌<◌, ℕ, IsSome, length, if◌then◌else◌, slice_set, None, IfSome, IfNone, IfOk, IfErr, OnOk, OnErr, Some};
ghost use Rattle.std.specs.Bool.{OnFalse, OnTrue};
ghost use Rattle.fb_types.specs.Keys.{Precedes, changed_to, found, local_key, or_else, same_key, stimulus_key, timer_key};
ghost use Rattle.fb_types.specs.Takes.{is_timer_of};
ghost use Rattle.fb_types.specs.declared.key.Key as keys;
ghost use Rattle.fb_types.specs.declared.run.Event.TheVariants.{Arrival, Given, Local, Stimulus, Timer};
ghost use Rattle.fb_agenda.specs.Agendas.{waiting, AreRising, IsClear, IsLeast, IsNext, IsPut, IsTimed, IsInResource, local_events, timer_set};
ghost use Rattle.fb_agenda.specs.Arrivals.{AreNew, arrival_at, arrivals_at};
ghost use Rattle.fb_agenda.specs.Lists.{Leads};
ghost use Rattle.fb_agenda.specs.LeastEvents.{IsRaised};

use crate::arrivals;
use crate::later::Later;
use crate::least::Least;
use crate::moment::Moment;
use crate::queue::Queue;
use fb_types::{Event, GivenRow, Key, Message, Target, TimerAsk};
use std::alloc::{AllocError, Global};
use std::marker::Model;

/// The events that wait, at most one under each key, and the ticks at which the timers of the instances go off.
pub struct Agenda {
    /// Stimuli, timers and messages.
    later: Later,
    /// The queue of the running tick: local events in rising order of their keys, all of one tick. `later` has none of
    /// these keys.
    now: Queue,
}

// Drop is written by hand, so that callers need not prove it again (docs/DECISIONS.md, "Drop").
impl Drop for Agenda {
    fn drop(self) {
        let Agenda { later: _, now: _ } = self;
    }
}

impl Model for Agenda {
    ghost use Rattle.fb_agenda.specs.Agendas.{Contents, AreApart};

    ghost Value = { Contents };

    ghost use Rattle.fb_agenda.specs.Inside.{contents_of};

    ghost view = { contents_of };

    ghost invariant = { λ a. AreApart (contents_of a) };
}

/// Whether the queue has an event, and no other event comes before its first.
#[inline(always)]
fn is_now_first(now: &Queue, later: &mut Later) -> bool
    requires { AreRising (local_events now.now) }
    ensures running { OnTrue result (Leads (local_events now.now) later.old.events) }
    ensures later { OnFalse result (Leads later.old.events (local_events now.now)) }
    ensures kept { later.new ≡ later.old }
{
    let Some(moment) = now.moment() else {
        return false;
    };
    // Mostly no other event waits at the running tick in this resource or before.
    if later.is_past(moment) {
        return true;
    }
    match now.first() {
        Some(first) => later.comes_after(&first),
        None => false,
    }
}

impl Agenda {
    /// An agenda without events, for the instances that have these ticks of timers.
    fn of(alloc: Global, due: Vec<u64>) -> Agenda
        ensures empty { (j : Key) → waiting result j ≡ None }
        ensures due { result.due ≡ due.items }
    {
        Agenda {
            later: Later::new(alloc, due),
            now: Queue::new(alloc),
        }
    }

    /// An agenda without events, for no instance. It takes no memory. It is put in place of an agenda that was moved
    /// out.
    pub fn none(alloc: Global) -> Agenda
        ensures { (j : Key) → waiting result j ≡ None }
    {
        Agenda::of(alloc, Vec::new(alloc))
    }

    /// An agenda without events, for this number of instances.
    ///
    /// # Errors
    ///
    /// When memory runs out.
    pub fn new(alloc: Global, instances: usize) -> Result<Agenda, AllocError>
        ensures empty { IfOk result (λ a. (j : Key) → waiting a j ≡ None) }
        ensures due { IfOk result (λ a. length a.due ≡ instances) }
    {
        let due = vec![in alloc; 0u64; instances]?;
        Ok(Agenda::of(alloc, due))
    }

    /// Puts the stimulus of a row under its key, at a tick in milliseconds. It replaces an event that waits there.
    /// Stimuli may come at any time and in any order.
    ///
    /// # Errors
    ///
    /// When memory runs out. The agenda is then as it was.
    #[inline(always)]
    pub fn put_stimulus(&mut self, tick: u64, resource: u32, row: u32) -> Result<(), AllocError>
        ensures put { OnOk result (IsPut self.old self.new (stimulus_key tick resource row) (Stimulus row)) }
        ensures due { self.new.due ≡ self.old.due }
        ensures err { OnErr result (self.new ≡ self.old) }
    {
        let key = Key::stimulus(tick, resource, row);
        self.later.put(key, Event::Stimulus(row))
    }

    /// Puts a stimulus that was given under the key of its row, at a tick in milliseconds. It replaces an event that
    /// waits there.
    ///
    /// # Errors
    ///
    /// When memory runs out. The agenda is then as it was, and the row is dropped.
    pub fn put_given(&mut self, tick: u64, resource: u32, given: GivenRow) -> Result<(), AllocError>
        ensures put { OnOk result (IsPut self.old self.new (stimulus_key tick resource given.row) (Given given)) }
        ensures due { self.new.due ≡ self.old.due }
        ensures err { OnErr result (self.new ≡ self.old) }
    {
        let key = Key::given(tick, resource, given.row);
        self.later.put(key, Event::Given(given))
    }

    /// Puts a message under its key at the resource that receives it. It replaces an event that waits there.
    ///
    /// # Errors
    ///
    /// When memory runs out. The agenda is then as it was, and the message is dropped.
    #[inline(always)]
    pub fn put_message(&mut self, receiver: u32, message: Message) -> Result<(), AllocError>
        ensures put { OnOk result (IsPut self.old self.new (arrival_at receiver message).0 (Arrival message)) }
        ensures due { self.new.due ≡ self.old.due }
        ensures err { OnErr result (self.new ≡ self.old) }
    {
        let key = arrivals::key_of_arrival(receiver, &message);
        self.later.put(key, Event::Arrival(message))
    }

    /// Puts a local event under the key of its number. It replaces an event that waits there. What an event raises
    /// comes after all local events that wait: it goes to the end of the queue.
    ///
    /// # Errors
    ///
    /// When memory runs out. The agenda is then as it was.
    #[inline(always)]
    pub fn put_local(
        &mut self,
        tick: u64,
        resource: u32,
        number: u128,
        target: Target,
    ) -> Result<(), AllocError>
        ensures put { OnOk result (IsPut self.old self.new (local_key tick resource number) (Local target)) }
        ensures due { self.new.due ≡ self.old.due }
        ensures err { OnErr result (self.new ≡ self.old) }
    {
        if !self.later.has_local() && self.now.follows(tick, resource, number) {
            self.now.push(tick, resource, number, target)
        } else {
            self.put_local_aside(Key::local(tick, resource, number), target)
        }
    }

    /// Puts a local event outside the queue: one that does not follow those in it, or that may be outside already.
    ///
    /// # Errors
    ///
    /// When memory runs out. The agenda is then as it was.
    #[inline(never)]
    fn put_local_aside(&mut self, key: Key, target: Target) -> Result<(), AllocError>
        requires { key.class ≡ 3 }
        ensures put { OnOk result (IsPut self.old self.new key (Local target)) }
        ensures due { self.new.due ≡ self.old.due }
        ensures err { OnErr result (self.new ≡ self.old) }
    {
        self.later.put(key, Event::Local(target))?;
        self.now.remove(&key);
        Ok(())
    }

    /// Puts the local event in `Least` back on the agenda, under its key. It replaces an event that waits there.
    ///
    /// # Errors
    ///
    /// When memory runs out. The agenda is then as it was.
    #[inline(always)]
    pub fn put_back(&mut self, least: &Least) -> Result<(), AllocError>
        requires { IsRaised least.now.key least.now.event }
        ensures put { OnOk result (IsPut self.old self.new least.now.key least.now.event) }
        ensures due { self.new.due ≡ self.old.due }
        ensures err { OnErr result (self.new ≡ self.old) }
    {
        let Event::Local(target) = &least.event else {
            return Ok(());
        };
        self.put_local(least.key.tick, least.key.resource, least.key.a, *target)
    }

    /// Puts messages for a resource under their keys: all of them or none.
    ///
    /// # Errors
    ///
    /// When memory runs out. The messages are then still in their list, in the same order. If their keys were new, the
    /// agenda is as it was.
    pub fn receive(
        &mut self,
        receiver: u32,
        messages: Vec<Message>,
    ) -> Result<(), (AllocError, Vec<Message>)>
        ensures put { OnOk result ((j : Key) → waiting self.new j ≡ or_else (found j (arrivals_at receiver messages.items)) (waiting self.old j)) }
        ensures back { IfErr result (λ e. e.1.items ≡ messages.items) }
        ensures err { OnErr result (AreNew receiver messages.items self.old → (j : Key) → waiting self.new j ≡ waiting self.old j) }
        ensures due { self.new.due ≡ self.old.due }
    {
        if arrivals::reserve_keys(&mut self.later, receiver, &messages).is_err() {
            arrivals::release_keys(&mut self.later, receiver, &messages);
            return Err((AllocError, messages));
        }
        arrivals::fill_keys(&mut self.later, receiver, messages);
        Ok(())
    }

    /// Whether no event waits at this tick (in milliseconds) in this resource, nor before, where the queue is empty. So
    /// an event at this tick and resource would be the next one.
    #[inline(always)]
    pub fn is_clear(&mut self, tick: u64, resource: u32) -> bool
        ensures clear { OnTrue result (IsClear tick resource self.old) }
        ensures kept { self.new ≡ self.old }
    {
        if !self.now.is_empty() {
            return false;
        }
        let moment = Moment { tick, resource };
        if self.later.is_past(moment) {
            return true;
        }
        self.later.comes_past(moment)
    }

    /// Takes the event with the least key, if its tick is below the horizon (in milliseconds), and moves it into the
    /// `Least`. Returns whether it did.
    #[inline(always)]
    pub fn take_least_into(&mut self, horizon: u64, least_event: &mut Least) -> bool
        ensures found { OnTrue result (waiting self.old least_event.new.key ≡ Some least_event.new.event) }
        ensures below { OnTrue result (least_event.new.key.tick < horizon) }
        ensures least { OnTrue result ((j : Key) → Precedes j least_event.new.key → waiting self.old j ≡ None) }
        ensures left { OnTrue result ((j : Key) → waiting self.new j ≡ (if same_key least_event.new.key j then None else waiting self.old j)) }
        ensures due { self.new.due ≡ self.old.due }
        ensures none { OnFalse result ((j : Key) → j.tick < horizon → waiting self.old j ≡ None) }
        ensures kept { OnFalse result (self.new ≡ self.old) }
    {
        if is_now_first(&self.now, &mut self.later) {
            self.now.pop_into(horizon, least_event)
        } else {
            self.later.pop_into(horizon, least_event)
        }
    }

    /// The tick of the next event in milliseconds, if any event waits.
    pub fn next(&self) -> Option<u64>
        ensures some { IfSome result (IsNext self.entry.now) }
        ensures none { IfNone result ((j : Key) → waiting self.entry.now j ≡ None) }
    {
        // The least key has the lesser of the two ticks, so this compares no keys.
        let Some(first) = self.now.first() else {
            let later = self.later.first()?;
            return Some(later.tick);
        };
        let Some(later) = self.later.first() else {
            return Some(first.tick);
        };
        Some(first.tick.min(later.tick))
    }

    /// The least key under which an event waits, if any does.
    pub fn first(&self) -> Option<Key>
        ensures some { IfSome result (IsLeast self.entry.now) }
        ensures none { IfNone result ((j : keys.Key) → waiting self.entry.now j ≡ None) }
    {
        let Some(first) = self.now.first() else {
            return self.later.first();
        };
        let Some(later) = self.later.first() else {
            return Some(first);
        };
        if later < first {
            Some(later)
        } else {
            Some(first)
        }
    }

    /// The tick in milliseconds at which the timer of an instance goes off, if it waits. The instance is in this
    /// resource.
    pub fn timer(&self, resource: u32, instance: u32) -> Option<u64>
        requires instance { instance < length self.now.due }
        requires timed { IsTimed self.now }
        ensures some { IfSome result (λ t. IsSome (waiting self.entry.now (timer_key t resource instance))) }
        ensures none { IfNone result ((t : ℕ) → waiting self.entry.now (timer_key t resource instance) ≡ None) }
    {
        self.later.timer(resource, instance)
    }

    /// Sets, clears or keeps the timer of an instance, as its reaction requests. The instance is in this resource.
    ///
    /// # Errors
    ///
    /// When memory runs out. The timer may then be cleared.
    pub fn set_timer(
        &mut self,
        resource: u32,
        instance: u32,
        ask: TimerAsk,
    ) -> Result<(), AllocError>
        requires instance { instance < length self.old.due }
        requires timed { IsTimed self.old }
        requires home { IsInResource resource instance self.old }
        ensures changed { OnOk result ((j : Key) → waiting self.new j ≡ changed_to (timer_set resource instance ask j) (waiting self.old j)) }
        ensures timed { OnOk result (IsTimed self.new) }
        ensures counted { length self.new.due ≡ length self.old.due }
    {
        match ask {
            TimerAsk::Keep => Ok(()),
            TimerAsk::Clear => {
                self.clear_timer(resource, instance);
                Ok(())
            }
            TimerAsk::At(tick) => {
                self.clear_timer(resource, instance);
                self.start_timer(resource, instance, tick)
            }
        }
    }

    /// Removes the timer of an instance, if it waits.
    fn clear_timer(&mut self, resource: u32, instance: u32)
        requires instance { instance < length self.old.due }
        requires timed { IsTimed self.old }
        ensures cleared { (j : Key) → waiting self.new j ≡ (if is_timer_of resource instance j then None else waiting self.old j) }
        ensures due { self.new.due ≡ self.old.due }
    {
        self.later.clear_timer(resource, instance);
    }

    /// Sets the timer of an instance, which does not wait.
    ///
    /// # Errors
    ///
    /// When memory runs out. The agenda is then as it was.
    fn start_timer(&mut self, resource: u32, instance: u32, tick: u64) -> Result<(), AllocError>
        requires { instance < length self.old.due }
        ensures put { OnOk result (IsPut self.old self.new (timer_key tick resource instance) (Timer instance)) }
        ensures due { OnOk result (self.new.due ≡ slice_set self.old.due instance tick) }
        ensures counted { length self.new.due ≡ length self.old.due }
    {
        self.later.set_timer(tick, resource, instance)
    }
}
