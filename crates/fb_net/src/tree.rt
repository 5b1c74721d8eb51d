//! The blocks of one resource.

ghost use Rattle.std.specs.Prelude.{◌≡◌, ◌<◌, ◌≤◌, ◌^◌, IfOk};
ghost use Rattle.fb_types.specs.Reactions.{World};
ghost use Rattle.fb_types.specs.Takes.{world_of};
ghost use Rattle.fb_types.specs.Headline.{system_of};
ghost use Rattle.fb_types.specs.OfSystem.{IsInstance, IsResource, opening_state, path_at};
ghost use Rattle.fb_laws.specs.OfSystem.{AreTyped, IsTypedEvent};
ghost use Rattle.fb_net.specs.Outs.{StillAreOuts};
ghost use Rattle.fb_net.specs.Worlds.{IsForest, Represents, ShellRepresents, Stands};
ghost use Rattle.fb_net.specs.Events.{HasTaken, IsEventIn, Remembered, event_of, key_at};

use crate::arrival::Arrival;
use crate::block::Block;
use crate::opening::copies::held_of;
use crate::opening::roots::roots_of;
use crate::opening::shell_indexes::index_shells;
use crate::opening::trees::blocks_of;
use crate::outbox::Outbox;
use crate::resource::Forest;
use crate::shell::Shell;
use crate::taking::Taking;
use fb_st::Meter;
use fb_system::System;
use fb_types::{Emits, Event, Halt, Items, Key};
use std::alloc::{AllocError, Global};
use std::collections::BTreeMap;
use std::marker::Model;

/// How many names deep an instance is at most: the components of the highest composite's lowest one.
const DEPTH: usize = 17;

/// The blocks and held copies of one resource of a system. Contracts see what the blocks represent in the model.
pub struct Tree {
    forest: Forest,
    /// Room for what a leaf emits in one taking. It is kept from taking to taking.
    emits: Emits,
}

// Drop is written by hand, so that callers need not prove it again (docs/DECISIONS.md, "Drop").
impl Drop for Tree {
    fn drop(self) {
        let Tree {
            forest: _,
            emits: _,
        } = self;
    }
}

impl Model for Tree {
    ghost use Rattle.fb_net.specs.declared.resource.Forest.{Forest};
    ghost use Rattle.fb_net.specs.contracts.resource.Forest.{the_row};

    ghost Value = { Forest };

    ghost coded = { the_row.coded };

    ghost view = { λ t. t.forest };

    ghost use Rattle.std.specs.Prelude.{◌<◌};
    ghost use Rattle.fb_net.specs.Whole.{IsTree};

    // There are at most 256 resources.
    ghost invariant = { λ t. (t.forest.resource < 256) × ∥ IsTree t.forest ∥₁ };
}

impl Tree {
    /// The blocks of a resource, as they are before the first event, each with what it begins with, and the held copies
    /// of the variables of other resources to which they are connected.
    ///
    /// # Errors
    /// When memory runs out.
    pub fn build(alloc: Global, system: &System, resource: u32) -> Result<Tree, AllocError>
        requires { IsResource system.now resource }
        ensures opened { IfOk result (λ t. IsForest system.now t (world_of (opening_state system.now) resource)) }
        ensures resource { IfOk result (λ t. t.resource ≡ resource) }
    {
        // for the prover: there are at most 256 resources
        system.facts();
        let resource = resource as usize;
        let roots = roots_of(alloc, system, resource)?;
        let mut charts = BTreeMap::new(alloc);
        let blocks = blocks_of(
            alloc,
            system,
            roots.instances.as_slice(),
            DEPTH,
            &mut charts,
        )?;
        let held = held_of(alloc, system, resource)?;
        let mut forest = Forest {
            resource,
            roots: roots.indexes,
            blocks,
            shell_indexes: Items::new(alloc),
            shells: Items::new(alloc),
            held,
        };
        index_shells(alloc, system, &mut forest)?;
        Ok(Tree {
            forest,
            emits: Emits::new(alloc),
        })
    }

    /// The number of the resource whose blocks these are, 0 to 255.
    #[inline(always)]
    pub fn resource(&self) -> u32
        ensures { result ≡ self.now.resource }
    {
        self.forest.resource as u32
    }

    /// What the instance has, which is in this resource: its own block, and what connections and stimuli set of it.
    pub fn instance(&self, system: &System, instance: u32) -> (&Block, &Shell)
        requires instance { IsInstance system.now instance }
        requires stands { Stands system.now self.now instance }
        ensures block { (w : World) → IsForest system.now self.now w → Represents (system_of system.now) (path_at system.now instance) result.0.now (w.blocks (path_at system.now instance)) }
        ensures shell { (w : World) → IsForest system.now self.now w → ShellRepresents (system_of system.now) (path_at system.now instance) result.1.now (w.blocks (path_at system.now instance)) }
    {
        (
            self.forest.block(system, instance),
            self.forest.shell(system, instance),
        )
    }

    /// Takes an event of the resource at a tick, which is at most 10^12 milliseconds. `meter` has the steps that are
    /// left in the tick after that of the event itself. Lines and events that go out are put after those in the outbox.
    /// What was asked of the timer before stays where the reaction asks nothing.
    ///
    /// # Errors
    /// `Halt::Stop` where a reason stops the resource: the lines before it are kept. `Halt::Memory`, after which each
    /// instance of the resource has its block still, and no more is said of the blocks.
    ///
    /// # Example
    ///
    /// The test `a_tree_takes_a_timer` of `fb_tests`, whose function `built` gives the blocks of a resource:
    ///
    /// ```
    /// let declaration = "APPLICATION A FBS S : E_RESTART; END_FBS END_APPLICATION";
    /// let system = accepted(&rt, rt.alloc(), declaration, "", "tick,event,values\n");
    /// let mut tree = built(&rt, rt.alloc(), &system, 0);
    /// let mut outbox = Outbox {
    ///     lines: Vec::new(rt.alloc()),
    ///     outs: Vec::new(rt.alloc()),
    ///     timer: TimerAsk::Keep,
    /// };
    /// let mut meter = Meter { left: 100 };
    /// assert!(rt; system.count() == 1 && system.resource(0) == 0);
    /// let arrival = Arrival {
    ///     event: &Event::Timer(0),
    ///     number: 0,
    /// };
    /// tree.take(&system, arrival, 0, &mut meter, &mut outbox)
    ///     .expect(&rt, "taken");
    /// assert!(rt; outbox.lines.len() == 1 && outbox.outs.is_empty());
    /// forget((tree, outbox));
    /// drop(system);
    /// ```
    #[tactic(auto, using(crate::proofs::lemmas::taking::ArrivalKeys::keys))]
    pub fn take(
        &mut self,
        system: &System,
        arrival: Arrival<'_>,
        tick: u64,
        meter: &mut Meter,
        outbox: &mut Outbox,
    ) -> Result<(), Halt>
        requires event { IsEventIn system.now self.old.resource arrival.event.now }
        requires named { IsResource system.now self.old.resource }
        requires early { tick ≤ 10 ^ 12 }
        requires belongs { (w : World) × IsForest system.now self.old w × AreTyped system.now w }
        requires typed { IsTypedEvent system.now (event_of system.now arrival.event.now) }
        ensures taken { HasTaken system.now (key_at tick self.old.resource arrival.entry) arrival.entry.event.now self.old outbox.old meter.old.left result self.new meter.new.left outbox.new }
        ensures outs { Remembered result (StillAreOuts system.now self.old outbox.old self.new outbox.new) }
        ensures fewer { meter.new.left ≤ meter.old.left }
        ensures resource { self.new.resource ≡ self.old.resource }

        // Also where memory runs out.
        ensures whole { (w : World) × IsForest system.now self.new w }
    {
        let key = arrival.key(tick, self.resource());
        self.deliver(system, arrival.event, &key, meter, outbox)
    }

    /// The same as `take`, for an event that waited under its key.
    ///
    /// # Errors
    /// As `take`.
    #[inline(always)]
    pub fn deliver(
        &mut self,
        system: &System,
        event: &Event,
        key: &Key,
        meter: &mut Meter,
        outbox: &mut Outbox,
    ) -> Result<(), Halt>
        requires here { key.now.resource ≡ self.old.resource }
        requires event { IsEventIn system.now self.old.resource event.now }
        requires named { IsResource system.now self.old.resource }
        requires early { key.now.tick ≤ 10 ^ 12 }
        requires belongs { (w : World) × IsForest system.now self.old w × AreTyped system.now w }
        requires typed { IsTypedEvent system.now (event_of system.now event.now) }
        ensures taken { HasTaken system.now key.now event.now self.old outbox.old meter.old.left result self.new meter.new.left outbox.new }
        ensures outs { Remembered result (StillAreOuts system.now self.old outbox.old self.new outbox.new) }
        ensures fewer { meter.new.left ≤ meter.old.left }
        ensures resource { self.new.resource ≡ self.old.resource }

        // Also where memory runs out.
        ensures whole { (w : World) × IsForest system.now self.new w }
    {
        // for the prover: there are at most 256 resources
        system.facts();
        let mut taking = Taking {
            system,
            key,
            forest: &mut self.forest,
            outbox,
        };
        taking.arrive(event, meter, &mut self.emits)
    }
}
