//! The state of a run of all resources, and taking one event after another.

ghost use Rattle.std.specs.Prelude.{◌≡◌, ◌^◌, ◌<◌, ◌≤◌, ℕ, [], ◌∷◌, IfNone, IfOk, IfSome, None, OnErr, OnOk};
ghost use Rattle.std.specs.Bool.{OnTrue};
ghost use Rattle.fb_agenda.specs.Agendas.{IsLeast, waiting};
ghost use Rattle.fb_system.specs.Stimuli.{IsGivenRow};
ghost use Rattle.fb_types.specs.Headline.{Inputs, system_of};
ghost use Rattle.fb_types.specs.Keys.{stimulus_key, with_all, without};
ghost use Rattle.fb_types.specs.declared.key.Key as keys;
ghost use Rattle.fb_types.specs.declared.run.Event.TheVariants as events;
ghost use Rattle.fb_types.specs.States.{Config, State};
ghost use Rattle.fb_types.specs.States as model;
ghost use Rattle.fb_types.specs.OfSystem.{IsResource, path_at, resource_at};
ghost use Rattle.fb_laws.specs.OfSystem.{IsTypedEvent};
ghost use Rattle.fb_net.specs.Events.{IsEventIn, IsKeyOf, event_of};
ghost use Rattle.fb_resource.specs.Takings.{IsRaised};
ghost use Rattle.fb_sim_machine.specs.Machines.{IsAt, IsReady, IsTaken, with_raised};
ghost use Rattle.fb_sim_machine.specs.Pauses.{IsSooner, Pauses, Stands, Steps};
ghost use Rattle.fb_sim_machine.specs.Runs.{IsSpent};

use crate::deliver::deliver;
use crate::pause::{Pause, Step};
use fb_agenda::Least;
use fb_net::Tree;
use fb_resource::{Taken, TickCounts, Traffic, find_next, put_next, take};
use fb_system::System;
use fb_types::{GivenRow, Line, Reason, StopMark};
use std::alloc::AllocError;

/// The one agenda of all resources, with the counts of their messages and what takings give, and the blocks and the
/// counts of each.
pub struct Machine {
    /// The one agenda, the counts of the messages of each link, and room for what takings give.
    pub traffic: Traffic,
    /// The blocks of each resource, by its number.
    pub trees: Vec<Tree>,
    /// What each resource has counted in its tick, by its number.
    pub meters: Vec<TickCounts>,
}

// Drop is written by hand, so that callers need not prove it again (docs/DECISIONS.md, "Drop").
impl Drop for Machine {
    fn drop(self) {
        let Machine {
            traffic: _,
            trees: _,
            meters: _,
        } = self;
    }
}

impl Machine {
    /// Takes the event in `Least`, which has left the agenda, and delivers the messages that it gave. A local event
    /// that was put out alone moves into `Least`.
    #[inline(always)]
    fn take(&mut self, system: &System, limit: u64, least: &mut Least) -> Result<Taken, AllocError>
        requires ready { IsReady system.now limit least.old.key.tick self.old }
        requires represents { (s : State) × (a : model.Agenda) × IsAt system.now s a self.old }
        requires event { IsEventIn system.now least.old.key.resource least.old.event }
        requires own { IsKeyOf least.old.key least.old.event }
        requires typed { IsTypedEvent system.now (event_of system.now least.old.event) }
        requires named { IsResource system.now least.old.key.resource }
        requires early { least.old.key.tick ≤ 10 ^ 12 }
        requires few { limit ≤ 10 ^ 7 }
        ensures taken { IfOk result (λ t. (s : State) (a : model.Agenda) → IsAt system.now s (without least.old.key a) self.old
            → IsTaken system.now limit s a least.old.key (event_of system.now least.old.event) t.stop self.old (with_raised t.raised least.new self.new)) }
        ensures ready { IfOk result (λ t. IsReady system.now limit least.old.key.tick (with_raised t.raised least.new self.new)) }
        ensures raised { IfOk result (λ t. OnTrue t.raised (IsRaised least.new.key least.new.event)) }
        ensures moment { OnOk result ((least.new.key.tick ≡ least.old.key.tick) × (least.new.key.resource ≡ least.old.key.resource)) }
        ensures spent { IfOk result (λ t. t.stop ≡ None → IsSpent limit least.old.key self.old.meters.items self.new.meters.items) }
    {
        let resource = least.key.resource as usize;
        let taken = take(
            &mut self.trees[resource],
            &mut self.meters[resource],
            &mut self.traffic,
            system,
            limit,
            least,
        )?;
        // Where a local event was put out alone, there is no message.
        if taken.raised {
            return Ok(taken);
        }
        deliver(&mut self.traffic.agenda, &mut self.traffic.mail, system)?;
        Ok(taken)
    }

    /// Takes the event in `Least`, which has left the agenda, and delivers the messages that it gave. This is for callers
    /// that look at each event before and after it is taken. Afterwards `Least` may have another event. `Some` is the
    /// reason for which the resource stops.
    ///
    /// # Errors
    /// When memory runs out, or a link has carried 2^128 messages.
    pub fn take_event(
        &mut self,
        system: &System,
        limit: u64,
        least: &mut Least,
    ) -> Result<Option<Reason>, AllocError>
        requires ready { IsReady system.now limit least.old.key.tick self.old }
        requires represents { (s : State) × (a : model.Agenda) × IsAt system.now s a self.old }
        requires event { IsEventIn system.now least.old.key.resource least.old.event }
        requires own { IsKeyOf least.old.key least.old.event }
        requires typed { IsTypedEvent system.now (event_of system.now least.old.event) }
        requires named { IsResource system.now least.old.key.resource }
        requires early { least.old.key.tick ≤ 10 ^ 12 }
        requires few { limit ≤ 10 ^ 7 }
        ensures taken { IfOk result (λ stop. (s : State) (a : model.Agenda) → IsAt system.now s (without least.old.key a) self.old
            → IsTaken system.now limit s a least.old.key (event_of system.now least.old.event) stop self.old self.new) }
        ensures ready { OnOk result (IsReady system.now limit least.old.key.tick self.new) }
        ensures spent { IfOk result (λ stop. stop ≡ None → IsSpent limit least.old.key self.old.meters.items self.new.meters.items) }
    {
        let taken = self.take(system, limit, least)?;
        put_next(&mut self.traffic.agenda, taken.raised, least)?;
        Ok(taken.stop)
    }

    /// Takes events below the horizon, least key first, until there are `many` lines, or up to the first stop. It takes
    /// at least one event where there is one, and appends its lines to those that are there.
    ///
    /// # Errors
    /// When memory runs out, or a link has carried 2^128 messages.
    pub fn go_on(
        &mut self,
        system: &System,
        horizon: u64,
        limit: u64,
        many: usize,
    ) -> Result<Pause, AllocError>
        requires ready { (tick : ℕ) × IsReady system.now limit tick self.old }
        requires represents { (c : Config) × IsAt system.now c.state c.agenda self.old }
        requires early { horizon ≤ 10 ^ 12 }
        requires few { limit ≤ 10 ^ 7 }
        ensures pauses { IfOk result (λ p. (c : Config) → IsAt system.now c.state c.agenda self.old → Pauses system.now horizon limit c self.old self.new p) }
        ensures ready { OnOk result ((tick : ℕ) × IsReady system.now limit tick self.new) }
        ensures sooner { IfOk result (IsSooner horizon limit self.old self.new) }
        ensures stands { IfOk result (λ p. (c : Config) → IsAt system.now c.state c.agenda self.old → Stands system.now horizon limit many c self.old self.new p) }
    {
        // for the prover: what holds of each system
        system.facts();
        let mut least = Least::new();
        let mut found = self.traffic.agenda.take_least_into(horizon, &mut least);
        'events: while found {
            let taken = self.take(system, limit, &mut least)?;
            if let Some(reason) = taken.stop {
                put_next(&mut self.traffic.agenda, taken.raised, &least)?;
                return Ok(Pause::Stop(StopMark {
                    tick: least.key.tick,
                    resource: least.key.resource,
                    reason,
                }));
            }
            if self.traffic.outbox.lines.len() >= many {
                put_next(&mut self.traffic.agenda, taken.raised, &least)?;
                return Ok(Pause::Lines);
            }
            found = find_next(&mut self.traffic.agenda, horizon, taken.raised, &mut least)?;
        }
        Ok(Pause::Horizon)
    }

    /// Takes the least event, if its tick is below the horizon, and appends its lines to those that are there.
    ///
    /// # Errors
    /// When memory runs out, or a link has carried 2^128 messages.
    pub fn take_next(
        &mut self,
        system: &System,
        horizon: u64,
        limit: u64,
    ) -> Result<Step, AllocError>
        requires ready { (tick : ℕ) × IsReady system.now limit tick self.old }
        requires represents { (c : Config) × IsAt system.now c.state c.agenda self.old }
        requires early { horizon ≤ 10 ^ 12 }
        requires few { limit ≤ 10 ^ 7 }
        ensures { IfOk result (λ s. (c : Config) → IsAt system.now c.state c.agenda self.old → Steps system.now horizon limit c self.old self.new s) }
    {
        let mut least = Least::new();
        if !self.traffic.agenda.take_least_into(horizon, &mut least) {
            return Ok(Step::Nothing);
        }
        let (tick, resource) = (least.key.tick, least.key.resource);
        match self.take_event(system, limit, &mut least)? {
            Some(reason) => Ok(Step::Stopped(StopMark {
                tick,
                resource,
                reason,
            })),
            None => Ok(Step::Took(tick)),
        }
    }

    /// The tick and the resource of the least event, if one waits below the horizon. It stays where it is.
    pub fn first(&self, horizon: u64) -> Option<(u64, u32)>
        ensures some { IfSome result (λ f. (k : keys.Key) × (k.tick ≡ f.0) × (k.resource ≡ f.1) × IsLeast self.now.traffic.agenda k × (f.0 < horizon)) }
        ensures none { IfNone result ((j : keys.Key) → j.tick < horizon → waiting self.now.traffic.agenda j ≡ None) }
    {
        let key = self.traffic.agenda.first()?;
        if key.tick < horizon {
            Some((key.tick, key.resource))
        } else {
            None
        }
    }

    /// Puts a row that was given, at a tick in milliseconds.
    ///
    /// # Errors
    /// When memory runs out. The machine is then as it was.
    pub fn give(&mut self, system: &System, tick: u64, given: GivenRow) -> Result<(), AllocError>
        requires row { IsGivenRow (system_of system.now) given }
        requires typed { IsTypedEvent system.now (event_of system.now (events.Given given)) }
        ensures given { OnOk result ((s : State) (a : model.Agenda) → IsAt system.now s a self.old
            → IsAt system.now s (with_all ((stimulus_key tick (resource_at system.now (path_at system.now given.target.instance)) given.row, event_of system.now (events.Given given)) ∷ []) a) self.new) }
        ensures ready { OnOk result ((limit : ℕ) (from : ℕ) → from ≤ tick → IsReady system.now limit from self.old → IsReady system.now limit from self.new) }
        ensures lines { self.new.traffic.outbox.lines.items ≡ self.old.traffic.outbox.lines.items }
        ensures err { OnErr result (self.new ≡ self.old) }
    {
        // for the prover: what holds of each system
        system.facts();
        let resource = system.resource(given.target.instance) as u32;
        self.traffic.agenda.put_given(tick, resource, given)
    }

    /// The lines that are there.
    pub fn lines(&self) -> &[Line]
        ensures { result.now ≡ self.now.traffic.outbox.lines.items }
    {
        self.traffic.outbox.lines.as_slice()
    }

    /// Drops the lines, and nothing else. Their memory is kept for the next ones.
    pub fn clear_lines(&mut self)
        ensures none { self.new.traffic.outbox.lines.items ≡ [] }
        ensures at { (i : Inputs) (s : State) (a : model.Agenda) → IsAt i s a self.old → IsAt i s a self.new }
        ensures ready { (i : Inputs) (limit tick : ℕ) → IsReady i limit tick self.old → IsReady i limit tick self.new }
        ensures meters { self.new.meters ≡ self.old.meters }
    {
        self.traffic.outbox.lines.clear();
    }
}
