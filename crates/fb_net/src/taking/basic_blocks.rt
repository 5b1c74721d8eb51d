//! The reaction of a basic block among the blocks of its resource.

ghost use Rattle.std.specs.Prelude.{◌<◌, ◌≤◌, ◌∷◌, length, All};
ghost use Rattle.fb_ecc.specs.Indexes.{IsWellFormed};
ghost use Rattle.fb_ecc.specs.Sound.{IsSound};
ghost use Rattle.fb_net.specs.Trees.{Changed};
ghost use Rattle.fb_net.specs.Leaves.{HasCharted, IsReadyAt};

use crate::block::Block;
use fb_ecc::react;
use fb_st::Meter;
use fb_types::{BasicType, Emits, Halt, Items, Value};

/// The reaction of the basic block on a way to an event input: goes down by the first index, and on by those below. It
/// calls itself for each composite. `values` are the sampled values of the variables WITH the event. What it emits is put
/// into `emits`, after what is there.
///
/// # Errors
/// `Halt::Stop` where a reason ends the reaction: the emissions before it are kept. `Halt::Memory`, after which each
/// instance has its block still, and no more is said.
pub(crate) fn react_at(
    blocks: &mut Items<Block>,
    first: usize,
    below: &[u32],
    block: &BasicType,
    event: u32,
    values: &[Value],
    meter: &mut Meter,
    emits: &mut Emits,
) -> Result<(), Halt>
    requires sound { IsSound block.now }
    requires event { event < length block.now.ports.event_inputs }
    requires ready { IsReadyAt block.now blocks.old (first ∷ below.now) }
    ensures reacted { Changed (HasCharted block.now event values.now meter.old.left emits.old meter.new.left emits.new) blocks.old (first ∷ below.now) result blocks.new }
    ensures fewer { meter.new.left ≤ meter.old.left }
    ensures well_formed { let IsFit = IsWellFormed block.now in All IsFit emits.old → All IsFit emits.new }
{
    let Some(slot) = blocks.get_mut(first) else {
        unreachable!()
    };
    match below {
        [] => match slot {
            Block::Basic(state) => react(state, block, event, values, meter, emits),
            Block::Event(_) | Block::Composite(_) => unreachable!(),
        },
        [next, rest @ ..] => match slot.components_mut() {
            Some(components) => {
                let next = *next as usize;
                react_at(components, next, rest, block, event, values, meter, emits)
            }
            None => unreachable!(),
        },
    }
}
