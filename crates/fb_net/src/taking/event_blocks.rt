//! The reactions of an event block among the blocks of its resource, to an event and to its timer.

ghost use Rattle.std.specs.Prelude.{◌≡◌, ◌∷◌, ◌≤◌, ◌^◌, [], All, IfErr, OnOk, Some, false};
ghost use Rattle.fb_types.specs.Blocks.{Event, ports_of_event_block};
ghost use Rattle.fb_types.specs.Reactions.{World};
ghost use Rattle.fb_types.specs.OfSystem.{IsInstance, kind_at, path_at};
ghost use Rattle.fb_system.specs.Lines.{IsEmission};
ghost use Rattle.fb_event.specs.Reactions.{expiry_of, reaction_to};
ghost use Rattle.fb_system.specs.OfSystem.{IsPort};
ghost use Rattle.fb_net.specs.Trees.{Changed};
ghost use Rattle.fb_net.specs.Worlds.{InForest, IsForest};
ghost use Rattle.fb_net.specs.Leaves.{EventCame, HasTurned, HasTypedInputs, IsEventAt, IsOne, IsTypedAt, taken_reaction, expiry_reaction};

use crate::block::Block;
use crate::resource::Forest;
use fb_event::{expire, react};
use fb_system::System;
use fb_types::{Emits, EventKind, Halt, Items, Target, TimerAsk, Value};

/// The reaction of an event block, which is in the resource and has sampled its inputs, to one of its event inputs,
/// in a tick that is at most 10^12. What it emits is put into `emits`, which is empty before.
///
/// # Errors
/// `Halt::Memory`, after which each instance has its block still, and no more is said. Never a stop.
#[inline(always)]
pub fn react_event(
    forest: &mut Forest,
    system: &System,
    kind: EventKind,
    at: Target,
    tick: u64,
    emits: &mut Emits,
    ask: &mut TimerAsk,
) -> Result<(), Halt>
    requires port { IsPort system.now at }
    requires input { at.is_output ≡ false }
    requires kind { kind_at system.now (path_at system.now at.instance) ≡ Some (Event kind) }
    requires typed { (w : World) × IsForest system.now forest.old w × InForest system.now forest.old at.instance × HasTypedInputs system.now kind at.instance w }
    requires early { tick ≤ 10 ^ 12 }
    requires fresh { emits.old ≡ [] }
    ensures reacted { OnOk result ((w : World) → IsForest system.now forest.old w → InForest system.now forest.old at.instance →
        EventCame system.now at.instance kind (taken_reaction system.now kind at tick w) forest.new ask.new emits.new w) }

    // Also where memory runs out.
    ensures emissions { All (IsEmission (ports_of_event_block kind)) emits.new }
    ensures resource { forest.new.resource ≡ forest.old.resource }
    ensures whole { (w : World) × IsForest system.now forest.new w }
    ensures only_memory { IfErr result (λ halt. halt ≡ Halt.Memory) }
{
    // for the prover: the inputs are accepted
    system.facts();
    let (first, below) = forest.way(system, at.instance);
    let shell_index = forest.shell_index(at.instance);
    let Some(shell) = forest.shells.get(shell_index) else {
        unreachable!()
    };
    let inputs = shell.inputs.as_slice();
    let blocks = &mut forest.blocks;
    react_at(blocks, first, below, at.event, tick, inputs, emits, ask)
}

/// The reaction of the event block on a way to an event: goes down by the first index, and on by those below. It calls
/// itself for each composite.
///
/// # Errors
/// As of `react_event`.
fn react_at(
    blocks: &mut Items<Block>,
    first: usize,
    below: &[u32],
    event: u32,
    tick: u64,
    inputs: &[Value],
    emits: &mut Emits,
    ask: &mut TimerAsk,
) -> Result<(), Halt>
    requires early { tick ≤ 10 ^ 12 }
    requires event { IsTypedAt inputs.now blocks.old (first ∷ below.now) }
    requires fresh { emits.old ≡ [] }
    ensures reacted { Changed (HasTurned (λ s. reaction_to s event tick inputs.now) ask.new emits.new) blocks.old (first ∷ below.now) result blocks.new }
    ensures only_memory { IfErr result (λ halt. halt ≡ Halt.Memory) }
{
    let Some(slot) = blocks.get_mut(first) else {
        unreachable!()
    };
    match below {
        [] => match slot {
            Block::Event(state) => react(state, event, tick, inputs, emits, ask),
            Block::Basic(_) | Block::Composite(_) => unreachable!(),
        },
        [next, rest @ ..] => match slot.components_mut() {
            Some(components) => {
                let next = *next as usize;
                react_at(components, next, rest, event, tick, inputs, emits, ask)
            }
            None => unreachable!(),
        },
    }
}

/// The reaction of an event block, which is in the resource, to its timer, in a tick that is at most 10^12. What it
/// emits is put into `emits`, which is empty before.
///
/// # Errors
/// As of `react_event`.
#[inline(always)]
pub fn expire_event(
    forest: &mut Forest,
    system: &System,
    kind: EventKind,
    instance: u32,
    tick: u64,
    emits: &mut Emits,
    ask: &mut TimerAsk,
) -> Result<(), Halt>
    requires instance { IsInstance system.now instance }
    requires kind { kind_at system.now (path_at system.now instance) ≡ Some (Event kind) }
    requires one { IsOne system.now forest.old instance }
    requires early { tick ≤ 10 ^ 12 }
    requires fresh { emits.old ≡ [] }
    ensures reacted { OnOk result ((w : World) → IsForest system.now forest.old w → InForest system.now forest.old instance →
        EventCame system.now instance kind (expiry_reaction system.now kind instance tick w) forest.new ask.new emits.new w) }

    // Also where memory runs out.
    ensures emissions { All (IsEmission (ports_of_event_block kind)) emits.new }
    ensures resource { forest.new.resource ≡ forest.old.resource }
    ensures whole { (w : World) × IsForest system.now forest.new w }
    ensures only_memory { IfErr result (λ halt. halt ≡ Halt.Memory) }
{
    // for the prover: the inputs are accepted
    system.facts();
    let (first, below) = forest.way(system, instance);
    let blocks = &mut forest.blocks;
    expire_at(blocks, first, below, tick, emits, ask)
}

/// The reaction of the event block on a way to its timer: goes down by the first index, and on by those below. It calls
/// itself for each composite.
///
/// # Errors
/// As of `react_event`.
fn expire_at(
    blocks: &mut Items<Block>,
    first: usize,
    below: &[u32],
    tick: u64,
    emits: &mut Emits,
    ask: &mut TimerAsk,
) -> Result<(), Halt>
    requires early { tick ≤ 10 ^ 12 }
    requires event { IsEventAt blocks.old (first ∷ below.now) }
    requires fresh { emits.old ≡ [] }
    ensures reacted { Changed (HasTurned (λ s. expiry_of s tick) ask.new emits.new) blocks.old (first ∷ below.now) result blocks.new }
    ensures only_memory { IfErr result (λ halt. halt ≡ Halt.Memory) }
{
    let Some(slot) = blocks.get_mut(first) else {
        unreachable!()
    };
    match below {
        [] => match slot {
            Block::Event(state) => expire(state, tick, emits, ask),
            Block::Basic(_) | Block::Composite(_) => unreachable!(),
        },
        [next, rest @ ..] => match slot.components_mut() {
            Some(components) => {
                let next = *next as usize;
                expire_at(components, next, rest, tick, emits, ask)
            }
            None => unreachable!(),
        },
    }
}
