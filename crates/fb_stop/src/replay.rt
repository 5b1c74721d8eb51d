//! A run with copies of its basic blocks, which react to the same events.

ghost use Rattle.std.specs.Prelude.{◌≡◌, ◌^◌, ◌≤◌, ℕ, suc, IfNone, IfOk, IfSome, None, OnOk};
ghost use Rattle.fb_types.specs.Headline.{stimuli_of};
ghost use Rattle.fb_types.specs.Keys.{without};
ghost use Rattle.fb_types.specs.States.{State};
ghost use Rattle.fb_types.specs.States as model;
ghost use Rattle.fb_types.specs.Takes.{begun};
ghost use Rattle.fb_types.specs.OfSystem.{IsResource, opening_agenda, opening_state};
ghost use Rattle.fb_laws.specs.OfSystem.{IsTypedEvent};
ghost use Rattle.fb_net.specs.Events.{IsEventIn, IsKeyOf, event_of};
ghost use Rattle.fb_resource.specs.Counts.{IsMetered, meter_of};
ghost use Rattle.fb_sim_machine.specs.Machines.{IsAt, IsReady};
ghost use Rattle.fb_sim_machine.specs.Runs.{IsSpent};
ghost use Rattle.fb_stop.specs.Copies.{AreAllCopies, IsFollowed, IsSiteBy, Steps, Stopping};
ghost use Rattle.fb_stop.specs.Found.{Finds};
ghost use Rattle.fb_stop.specs.OfSystem.{ArrivesAt};

use crate::copies::{basic_type, copy_of, follow, locate_in};
use crate::found::{EventSite, FoundStop, StopSite};
use fb_agenda::Least;
use fb_ecc::BasicState;
use fb_resource::TickCounts;
use fb_sim_machine::Machine;
use fb_system::System;
use fb_types::{Emits, Event};
use std::alloc::{AllocError, Global};
use std::collections::BTreeMap;

/// A run, and for each instance that is a basic block a copy of it.
pub(crate) struct Replay {
    pub(crate) run: Machine,
    pub(crate) copies: Vec<Option<BasicState>>,
    /// Room for what a copy emits in one reaction.
    pub(crate) emits: Emits,
}

// Drop is written by hand, so that callers need not prove it again (docs/DECISIONS.md, "Drop").
impl Drop for Replay {
    fn drop(self) {
        let Replay {
            run: _,
            copies: _,
            emits: _,
        } = self;
    }
}

/// Where an event arrives.
pub(crate) fn site_of(system: &System, event: &Event) -> EventSite
    requires { (resource : ℕ) × IsEventIn system.now resource event.now }
    ensures { ArrivesAt system.now (event_of system.now event.now) result }
{
    match event {
        Event::Stimulus(row) => EventSite::Port(system.stimulus(*row).target),
        Event::Timer(instance) => EventSite::Timer(*instance),
        Event::Arrival(message) => EventSite::Port(message.target),
        Event::Local(target) => EventSite::Port(*target),
        Event::Given(given) => EventSite::Port(given.target),
    }
}

/// The steps that are left for the reaction to an event at a tick, or `None` if none is left for the event itself.
fn steps_left(counts: TickCounts, limit: u64, tick: u64) -> Option<u64>
    requires { IsMetered limit counts }
    ensures some { IfSome result (λ left. (begun limit tick (meter_of counts)).left ≡ suc left) }
    ensures none { IfNone result ((begun limit tick (meter_of counts)).left ≡ 0) }
{
    let mut counts = counts;
    if counts.step(limit, tick) {
        Some(counts.meter.left)
    } else {
        None
    }
}

impl Replay {
    /// The run of a system at its beginning.
    ///
    /// # Errors
    /// When memory runs out.
    pub(crate) fn open(alloc: Global, system: &System) -> Result<Replay, AllocError>
        ensures ready { IfOk result (λ m. (limit : ℕ) → IsReady system.now limit 0 m.run) }
        ensures at { IfOk result (λ m. IsAt system.now (opening_state system.now) (opening_agenda system.now (stimuli_of system.now)) m.run) }
        ensures copies { IfOk result (λ m. AreAllCopies system.now (opening_state system.now) m.copies.items) }
    {
        system.facts(); // for the prover: what holds of every accepted system
        let run = Machine::open(alloc, system)?;
        let mut charts = BTreeMap::new(alloc);
        let mut copies = Vec::new(alloc);
        for instance in 0..system.count() {
            let copy = copy_of(alloc, system, instance as u32, &mut charts)?;
            copies.push(copy)?;
        }
        let emits = Emits::new(alloc);
        Ok(Replay { run, copies, emits })
    }

    /// The copy of the block at which an event arrived reacts to it, with what the line of the event says, which is the
    /// first one, and with these steps left.
    ///
    /// # Errors
    /// When memory runs out.
    fn follow_at(
        &mut self,
        system: &System,
        at: EventSite,
        left: Option<u64>,
    ) -> Result<(), AllocError>
        requires copies { (s : State) × AreAllCopies system.now s self.old.copies.items }
        requires arrives { (e : model.Event) × ArrivesAt system.now e at }
        ensures followed { OnOk result (IsFollowed system.now at left self.old.run.traffic.outbox.lines.items self.old.copies.items self.new.copies.items) }
        ensures run { self.new.run ≡ self.old.run }
    {
        let EventSite::Port(target) = at else {
            return Ok(());
        };
        let Some(left) = left else {
            return Ok(());
        };
        let Some(block) = basic_type(system, target.instance) else {
            return Ok(());
        };
        let Some(line) = self.run.traffic.outbox.lines.first() else {
            return Ok(());
        };
        follow(
            &mut self.copies[target.instance as usize],
            block,
            target.event,
            line.values.as_slice(),
            left,
            &mut self.emits,
        )
    }

    /// What gives the reason at an event that stops the run. If `left` is `None`, no step was left for the event.
    /// Otherwise the reaction stops where that of the copy does, which has not reacted yet.
    ///
    /// # Errors
    /// When memory runs out.
    fn site_at(
        &mut self,
        system: &System,
        at: EventSite,
        left: Option<u64>,
    ) -> Result<StopSite, AllocError>
        requires { IfSome left (λ n. Stopping system.now at n self.old.run.traffic.outbox.lines.items self.old.copies.items) }
        ensures site { IfOk result (IsSiteBy system.now at left self.old.run.traffic.outbox.lines.items self.old.copies.items) }
        ensures run { self.new.run ≡ self.old.run }
    {
        let Some(left) = left else {
            return Ok(StopSite::BeforeEvent);
        };
        let EventSite::Port(target) = at else {
            unreachable!();
        };
        let Some(block) = basic_type(system, target.instance) else {
            unreachable!();
        };
        let Some(line) = self.run.traffic.outbox.lines.first() else {
            unreachable!();
        };
        let stop = locate_in(
            &mut self.copies[target.instance as usize],
            block,
            target.event,
            line.values.as_slice(),
            left,
            &mut self.emits,
        )?;
        match stop {
            Some(stop) => Ok(StopSite::InReaction(stop.site)),
            None => unreachable!(),
        }
    }

    /// Takes the event in the slot, which has left the agenda; the copy of its block reacts to it too. `Some` is where
    /// the event stops the run.
    ///
    /// # Errors
    /// When memory runs out, or a link has carried 2^128 messages.
    fn step(
        &mut self,
        system: &System,
        limit: u64,
        least: &mut Least,
    ) -> Result<Option<FoundStop>, AllocError>
        requires ready { IsReady system.now limit least.old.key.tick self.old.run }
        requires represents { (s : State) × (a : model.Agenda) × IsAt system.now s (without least.old.key a) self.old.run × AreAllCopies system.now s self.old.copies.items }
        requires event { IsEventIn system.now least.old.key.resource least.old.event }
        requires own { IsKeyOf least.old.key least.old.event }
        requires typed { IsTypedEvent system.now (event_of system.now least.old.event) }
        requires named { IsResource system.now least.old.key.resource }
        requires early { least.old.key.tick ≤ 10 ^ 12 }
        requires few { limit ≤ 10 ^ 7 }
        ensures steps { IfOk result (λ found. (s : State) (a : model.Agenda) → IsAt system.now s (without least.old.key a) self.old.run → AreAllCopies system.now s self.old.copies.items
            → Steps system.now limit s a least.old.key (event_of system.now least.old.event) self.new found) }
        ensures ready { OnOk result (IsReady system.now limit least.old.key.tick self.new.run) }
        ensures spent { IfOk result (λ found. found ≡ None → IsSpent limit least.old.key self.old.run.meters.items self.new.run.meters.items) }
    {
        system.facts(); // for the prover: what holds of every accepted system
        self.run.clear_lines();
        let key = least.key;
        let at = site_of(system, &least.event);
        let left = steps_left(self.run.meters[key.resource as usize], limit, key.tick);
        let Some(reason) = self.run.take_event(system, limit, least)? else {
            self.follow_at(system, at, left)?;
            return Ok(None);
        };
        let site = self.site_at(system, at, left)?;
        Ok(Some(FoundStop {
            key,
            at,
            reason,
            site,
        }))
    }

    /// Takes all events below the horizon, least key first, or up to the first stop, which is answered.
    ///
    /// # Errors
    /// When memory runs out, or a link has carried 2^128 messages.
    pub(crate) fn go_on(
        &mut self,
        system: &System,
        horizon: u64,
        limit: u64,
    ) -> Result<Option<FoundStop>, AllocError>
        requires ready { IsReady system.now limit 0 self.old.run }
        requires at { IsAt system.now (opening_state system.now) (opening_agenda system.now (stimuli_of system.now)) self.old.run }
        requires copies { AreAllCopies system.now (opening_state system.now) self.old.copies.items }
        requires early { horizon ≤ 10 ^ 12 }
        requires few { limit ≤ 10 ^ 7 }
        ensures { IfOk result (Finds system.now horizon limit) }
    {
        let mut least = Least::new();
        while self.run.traffic.agenda.take_least_into(horizon, &mut least) {
            if let Some(found) = self.step(system, limit, &mut least)? {
                return Ok(Some(found));
            }
        }
        Ok(None)
    }
}
