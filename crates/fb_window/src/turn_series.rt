//! Turns of one resource after another, on one thread.

ghost use Rattle.std.specs.Prelude.{◌≡◌, ◌^◌, ◌<◌, ◌≤◌, All, IfOk, OnOk, length};
ghost use Rattle.fb_types.specs.OfSystem.{IsInstance};
ghost use Rattle.fb_laws.specs.Sound.{AreGood};
ghost use Rattle.fb_system.specs.OfSystem.{BelongsTo};
ghost use Rattle.fb_window.specs.Frontiers.{AreLive};
ghost use Rattle.fb_window.specs.Reached.{KeepHorizon};
ghost use Rattle.fb_window.specs.ManyTurns.{HasTurned, TakesTurns};

use crate::cores::{Core, CoreState, Failed};
use crate::ends::first_stop;
use crate::home::append_lines;
use crate::nexts::Nexts;
use fb_system::System;
use fb_types::{Message, StopMark};
use std::alloc::{AllocError, Global};

/// Turns of one resource after another: the core and when each of its resources has its next event, and the system,
/// which stays.
#[derive(Drop)]
struct TurnSeries<'a> {
    core: &'a mut CoreState,
    nexts: &'a mut Nexts,
    alloc: Global,
    system: &'a System,
    // The inputs are accepted, and the deployment keeps the limits of its type.
    ghost good: { AreGood system.now },
}

impl TurnSeries<'_> {
    ghost use Rattle.fb_window.specs.Turning.{AllBelong, HasCome, HasGiven, HasHanded, IsSame, MayRun, MayTurn};

    /// Puts messages on the agenda of the resource at an index, and looks when it has its next event.
    fn hand(&mut self, index: usize, messages: Vec<Message>) -> Result<(), AllocError>
        requires may { MayTurn self.old }
        requires index { index < length self.old.core.now.resources.items }
        ensures handed { OnOk result (HasHanded self.old index messages.items self.new) }
        ensures may { OnOk result (MayTurn self.new) }
        ensures same { IsSame self.old self.new }
    {
        match self.core.resources[index].receive(messages) {
            Ok(()) => {
                self.nexts.look_again(index, &self.core.resources[index]);
                Ok(())
            }
            Err((error, _messages)) => Err(error),
        }
    }

    /// Puts each message on the agenda of its receiver.
    fn give(&mut self, sent: Vec<Message>) -> Result<(), AllocError>
        requires may { MayTurn self.old }
        requires targets { All (λ m. IsInstance self.old.system.now m.target.instance) sent.items }
        ensures given { OnOk result (HasGiven self.old sent.items self.new) }
        ensures may { OnOk result (MayTurn self.new) }
        ensures same { IsSame self.old self.new }
    {
        // A list of one message is handed on as it is.
        if sent.len() == 1 {
            let receiver = self.system.resource(sent[0].target.instance);
            return self.hand(receiver, sent);
        }
        for message in sent {
            let receiver = self.system.resource(message.target.instance);
            let mut one = Vec::new(self.alloc);
            one.push(message)?;
            self.hand(receiver, one)?;
        }
        Ok(())
    }

    /// Runs a resource below a tick, keeps its lines, and delivers its messages. Returns where it stopped, if it did.
    fn turn(&mut self, index: usize, to: u64) -> Result<Option<StopMark>, AllocError>
        requires may { MayTurn self.old }
        requires run { MayRun self.old index to }
        ensures turned { IfOk result (HasTurned self.old.core.now.system self.old.core.now.steps index to self.old.core.now self.new.core.now) }
        ensures may { OnOk result (MayTurn self.new) }
        ensures same { IsSame self.old self.new }
    {
        let steps = self.core.steps;
        let spent = Vec::new(self.alloc);
        let output = self.core.resources[index].run_here(
            self.alloc,
            self.system,
            to,
            steps,
            spent,
        )?;
        append_lines(&mut self.core.pending[index], output.lines)?;
        self.nexts.look_again(index, &self.core.resources[index]);
        self.give(output.sent)?;
        Ok(output.stop)
    }

    /// Up to `most` turns, each of the first resource that has the least event of all, where no resource has stopped.
    /// What the core holds is lent here, so that no exit of the loop drops it.
    fn take_turns(&mut self, most: u64) -> Result<(), AllocError>
        requires may { MayTurn self.old }
        requires come { HasCome self.old }
        requires lines { AllBelong self.old }
        requires live { AreLive self.old.core.now.resources.items }
        requires early { self.old.nexts.now.horizon ≤ 10 ^ 12 }
        ensures takes_turns { OnOk result (TakesTurns self.old.core.now.system self.old.core.now.steps self.old.nexts.now.horizon most self.old.core.now self.new.core.now) }
        ensures may { OnOk result (MayTurn self.new) }
        ensures lines { OnOk result (AllBelong self.new) }
        ensures same { IsSame self.old self.new }
    {
        let horizon = self.nexts.horizon;
        for _ in 0..most {
            let (index, tick) = self.nexts.least();
            if tick == horizon {
                return Ok(());
            }
            let stop = self.turn(index, tick + 1)?;
            if stop.is_some() {
                return Ok(());
            }
        }
        Ok(())
    }
}

impl Core {
    /// Up to `most` turns, each of the first resource that has the least event of all: it takes what it has at the
    /// tick of this event, and its messages are delivered. All is done on this thread, and no line is handed out. The
    /// series of turns ends early where a resource has stopped, or no event comes before the horizon. Ticks are milliseconds.
    ///
    /// This is for stretches in which a round would have little to do: a round looks at each resource and each link.
    ///
    /// # Errors
    /// When memory runs out.
    pub fn turn_series(
        self,
        alloc: Global,
        system: &System,
        horizon: u64,
        most: u64,
    ) -> Result<Core, Failed>
        requires system { system.now ≡ self.system }
        requires clocks { KeepHorizon horizon self.resources.items }
        requires early { horizon ≤ 10 ^ 12 }
        ensures system { IfOk result (λ d. d.system ≡ self.system) }
        ensures steps { IfOk result (λ d. d.steps ≡ self.steps) }
        ensures pending { IfOk result (λ d. All (λ p. All (BelongsTo self.system) p.items) d.pending.items) }
        ensures takes_turns { IfOk result (TakesTurns self.system self.steps horizon most self) }
    {
        // for the prover: what holds of each system
        system.facts();
        let Core { mut state } = self;
        if first_stop(&state.resources).is_some() {
            return Ok(Core { state });
        }
        let mut nexts = Nexts::of_all(alloc, &state.resources, horizon)?;
        let mut turn_series = TurnSeries {
            core: &mut state,
            nexts: &mut nexts,
            alloc,
            system,
        };
        turn_series.take_turns(most)?;
        Ok(Core { state })
    }
}
