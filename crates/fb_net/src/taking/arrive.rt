//! The arrival of an event at a block of each kind.

ghost use Rattle.std.specs.Prelude.{◌≡◌, false, true, IfErr, OnOk};
ghost use Rattle.fb_event.specs.Reactions.{PassesTo};
ghost use Rattle.fb_net.specs.Arrivals.{entering, leaving, reacting, sampling};
ghost use Rattle.fb_net.specs.Steps.{HasArrived, HasDone, MayChart, MayCross, MayReact, MaySample, StaysWhole};
ghost use Rattle.fb_system.specs.OfSystem.{IsWith};

use crate::taking::Taking;
use crate::taking::basic_blocks::react_at;
use crate::taking::bring::keep_samples;
use crate::taking::emit::{indexes_of, row_of, send_out, write_taken};
use crate::taking::event_blocks::react_event;
use crate::taking::samples::{sampled_values, shown_values};
use fb_event::passes_to;
use fb_st::Meter;
use fb_system::{Source, With};
use fb_types::{
    BasicType, Emission, Emits, EventKind, Halt, InstanceVariable, Target, TimerAsk, Values,
};
use std::alloc::AllocError;

impl Taking<'_> {
    /// An event block or a composite takes an event at an event input: it keeps what the variables WITH the event
    /// sample, and the line of the event says their values.
    #[inline(always)]
    fn keep_sampled(&mut self, at: Target, with: &With) -> Result<(), AllocError>
        requires may { MaySample self.old at }
        requires with { IsWith self.old.system.now at with.now }
        ensures taken { OnOk result (HasDone (sampling self.old.system.now self.old.key.now at) self.old self.new) }
        ensures whole { StaysWhole self.old self.new }
    {
        if let With::One(variable, source) = with {
            return self.keep_value(at, *variable, source);
        }
        let alloc = *self.outbox.lines.allocator();
        let values = sampled_values(alloc, self.forest, self.system, at, with)?;
        let indexes = indexes_of(self.system, at, with);
        keep_samples(self.forest, self.system, at, indexes, values.as_slice());
        write_taken(self.outbox, self.system, self.key, at, values)
    }

    // Fast path: without it, an event of `fed_chains` takes 28 % more instructions.

    /// An event arrives at an event input of an event block that only passes events on. No block is looked up.
    #[inline(always)]
    fn pass_on(&mut self, kind: EventKind, at: Target, event: u32) -> Result<(), AllocError>
        requires may { MayReact self.old kind at }
        requires passes { PassesTo kind event }
        ensures reacted { OnOk result (HasDone (reacting self.old.system.now self.old.key.now kind at) self.old self.new) }
        ensures whole { StaysWhole self.old self.new }
    {
        let values = Values::new(*self.outbox.lines.allocator());
        write_taken(self.outbox, self.system, self.key, at, values)?;
        self.emit_bare(at.instance, event)
    }

    /// An event arrives at an event input of an event block. `emits` is room for what it emits.
    ///
    /// # Errors
    /// When memory runs out, and never a stop.
    #[inline(always)]
    pub(crate) fn arrive_event(
        &mut self,
        kind: EventKind,
        at: Target,
        emits: &mut Emits,
    ) -> Result<(), Halt>
        requires { MayReact self.old kind at }
        ensures reacted { OnOk result (HasDone (reacting self.old.system.now self.old.key.now kind at) self.old self.new) }
        ensures whole { StaysWhole self.old self.new }
        ensures only_memory { IfErr result (λ halt. halt ≡ Halt.Memory) }
    {
        match passes_to(kind) {
            Some(event) => Ok(self.pass_on(kind, at, event)?),
            None => {
                let row = row_of(self.system, at);
                self.keep_sampled(at, &row.with)?;
                emits.clear();
                let mut ask = TimerAsk::Keep;
                let tick = self.key.tick;
                react_event(self.forest, self.system, kind, at, tick, emits, &mut ask)?;
                self.outbox.ask_timer(ask);
                Ok(self.emit_all(at.instance, emits)?)
            }
        }
    }

    /// An event from outside arrives at an event input of a composite, and goes on inside.
    pub(crate) fn enter(&mut self, at: Target) -> Result<(), AllocError>
        requires { MayCross self.old at false }
        ensures entered { OnOk result (HasDone (entering self.old.system.now self.old.key.now at) self.old self.new) }
        ensures whole { StaysWhole self.old self.new }
    {
        let row = row_of(self.system, at);
        self.keep_sampled(at, &row.with)?;
        send_out(&mut self.outbox.outs, self.system, at, &row.first, &[], &[])
    }

    /// An event from inside arrives at an event output of a composite, which shows the outputs WITH the event and emits
    /// it.
    pub(crate) fn leave(&mut self, at: Target) -> Result<(), AllocError>
        requires { MayCross self.old at true }
        ensures left { OnOk result (HasDone (leaving self.old.system.now self.old.key.now at) self.old self.new) }
        ensures whole { StaysWhole self.old self.new }
    {
        let row = row_of(self.system, at);
        if let With::One(variable, source) = &row.with {
            let output = InstanceVariable {
                instance: at.instance,
                variable: *variable,
                is_output: true,
            };
            let value = *self.forest.shown_inside(self.system, output, source);
            return self.emit_value(at.instance, at.event, &row.first, *variable, &value);
        }
        let alloc = *self.outbox.lines.allocator();
        let values = shown_values(alloc, self.forest, self.system, at, &row.with)?;
        let event = at.event;
        self.emit_one(at.instance, Emission { event, values })
    }

    /// An event arrives at an event input of a basic block. `emits` is room for what it emits.
    ///
    /// # Errors
    /// `Halt::Stop` where a reason ends the reaction: what was put out before it is kept.
    pub(crate) fn arrive_basic(
        &mut self,
        block: &BasicType,
        at: Target,
        meter: &mut Meter,
        emits: &mut Emits,
    ) -> Result<(), Halt>
        requires { MayChart self.old block.now at }
        ensures arrived { HasArrived self.old at meter.old.left result self.new meter.new.left }
        ensures whole { StaysWhole self.old self.new }
    {
        let system = self.system;
        // for the prover: the inputs are accepted
        system.facts();
        let alloc = *self.outbox.lines.allocator();
        let row = row_of(system, at);
        let values = sampled_values(alloc, self.forest, system, at, &row.with)?;
        emits.clear();
        let (first, below) = self.forest.way(system, at.instance);
        let end = react_at(
            &mut self.forest.blocks,
            first,
            below,
            block,
            at.event,
            values.as_slice(),
            meter,
            emits,
        );
        write_taken(self.outbox, system, self.key, at, values)?;
        self.emit_all(at.instance, emits)?;
        end
    }

    // Fast path: one variable is neither put together nor walked over. Without it, and `emit_value` for emissions, an
    // event of `towers` takes 13 % more instructions.

    /// As `keep_sampled`, where one variable is WITH the event.
    #[inline(always)]
    fn keep_value(
        &mut self,
        at: Target,
        variable: u32,
        source: &Option<Source>,
    ) -> Result<(), AllocError>
        requires may { MaySample self.old at }
        requires one { IsWith self.old.system.now at (With.One variable source.now) }
        ensures taken { OnOk result (HasDone (sampling self.old.system.now self.old.key.now at) self.old self.new) }
        ensures whole { StaysWhole self.old self.new }
    {
        let input = InstanceVariable {
            instance: at.instance,
            variable,
            is_output: false,
        };
        let value = *self.forest.sampled(self.system, input, source);
        self.forest.set_input(self.system, input, value);
        let values = Values::one(*self.outbox.lines.allocator(), value);
        write_taken(self.outbox, self.system, self.key, at, values)
    }
}
