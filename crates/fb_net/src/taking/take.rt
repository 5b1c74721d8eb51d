//! Taking an event, by what it is and where it arrives.

ghost use Rattle.std.specs.Prelude.{◌≢◌, ℕ, Ok, OnOk};
ghost use Rattle.fb_net.specs.Steps.{HasBrought, IsSame, MayTake, StaysWhole, WasTaken};

use crate::taking::Taking;
use crate::taking::bring::{hold_carried, set_slots};
use crate::taking::event_blocks::expire_event;
use fb_check_names::TypeNumber;
use fb_st::Meter;
use fb_types::{BlockType, Emits, Event, Halt, Target, TimerAsk};
use std::alloc::AllocError;

impl Taking<'_> {
    /// Sets what an event brings, the slots of a stimulus or the held copies of a message, and says where it arrives. The
    /// event is no timer.
    #[inline(always)]
    fn bring(&mut self, event: &Event) -> Target
        requires may { MayTake self.old event.now }
        requires no_timer { (instance : ℕ) → event.now ≢ Event.Timer instance }
        ensures { HasBrought self.old event.now result self.new }
    {
        let system = self.system;
        match event {
            Event::Stimulus(row) => {
                let stimulus = system.stimulus(*row);
                set_slots(self.forest, system, stimulus.target.instance, stimulus.sets);
                stimulus.target
            }
            Event::Timer(_) => unreachable!(),
            Event::Arrival(message) => {
                hold_carried(self.forest, system, &message.values);
                message.target
            }
            Event::Local(target) => *target,
            Event::Given(given) => {
                let sets = given.sets.as_slice();
                set_slots(self.forest, system, given.target.instance, sets);
                given.target
            }
        }
    }

    /// Takes the timer of an instance. Nothing happens where it is no event block. The error is that memory runs out: it
    /// is returned in a register, where that of `arrive`, which may be a stop, goes through memory.
    fn expire(&mut self, instance: u32, emits: &mut Emits) -> Result<(), AllocError>
        requires { MayTake self.old (Event.Timer instance) }
        ensures taken { OnOk result ((left : ℕ) → WasTaken self.old (Event.Timer instance) left (Ok tt) self.new left) }
        ensures whole { StaysWhole self.old self.new }
    {
        match self.system.kind(instance) {
            TypeNumber::Event(kind) => {
                emits.clear();
                let mut ask = TimerAsk::Keep;
                let tick = self.key.tick;
                match expire_event(
                    self.forest,
                    self.system,
                    kind,
                    instance,
                    tick,
                    emits,
                    &mut ask,
                ) {
                    Ok(()) => {
                        self.outbox.ask_timer(ask);
                        self.emit_all(instance, emits)
                    }
                    Err(_) => Err(AllocError),
                }
            }
            TypeNumber::Declared(_) => Ok(()),
        }
    }

    /// Takes an event, whatever it is. `emits` is room for what a leaf emits.
    ///
    /// # Errors
    /// `Halt::Stop` where a reason ends the reaction: what was put out before it is kept.
    #[inline(always)]
    pub fn arrive(
        &mut self,
        event: &Event,
        meter: &mut Meter,
        emits: &mut Emits,
    ) -> Result<(), Halt>
        requires { MayTake self.old event.now }
        ensures taken { WasTaken self.old event.now meter.old.left result self.new meter.new.left }
        ensures same { IsSame self.old self.new }
    {
        if let Event::Timer(instance) = event {
            return Ok(self.expire(*instance, emits)?);
        }
        let at = self.bring(event);
        let system = self.system;
        // for the prover: the inputs are accepted
        system.facts();
        match system.kind(at.instance) {
            TypeNumber::Event(kind) => self.arrive_event(kind, at, emits),
            TypeNumber::Declared(index) => match system.library().blocks.get(index) {
                Some(BlockType::Basic(block)) => self.arrive_basic(block, at, meter, emits),
                Some(BlockType::Composite(_)) => {
                    if at.is_output {
                        Ok(self.leave(at)?)
                    } else {
                        Ok(self.enter(at)?)
                    }
                }
                None => unreachable!(),
            },
        }
    }
}
