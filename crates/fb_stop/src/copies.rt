//! Copies of the basic blocks, which react to the same events as those of a run. A run shows nobody the memory of its
//! blocks, and after a stop it has what the reaction left: the copies still have what the block remembered before.

ghost use Rattle.std.specs.Prelude.{◌≡◌, ◌<◌, IfNone, IfOk, IfSome, OnOk, Some, length};
ghost use Rattle.fb_types.specs.Blocks.{Basic};
ghost use Rattle.fb_types.specs.declared.library.BasicType.{BasicType as Declared};
ghost use Rattle.fb_types.specs.OfSystem.{IsInstance, kind_at, opening_block, path_at};
ghost use Rattle.fb_net.specs.Opening.{AreCharts};
ghost use Rattle.fb_stop.specs.Copies.{HasFollowed, HasLocated, IsCopy, IsWhole};

use crate::reaction::locate;
use crate::site::ReactionStop;
use fb_check_names::TypeNumber;
use fb_ecc::{BasicState, react};
use fb_net::{Block, Charts, block_of};
use fb_st::Meter;
use fb_system::System;
use fb_types::{BasicType, BlockType, Emits, Halt, Items, Value};
use std::alloc::{AllocError, Global};

/// The type of an instance, if it is a basic one.
pub(crate) fn basic_type(system: &System, instance: u32) -> Option<&BasicType>
    requires { IsInstance system.now instance }
    ensures some { IfSome result (λ t. kind_at system.now (path_at system.now instance) ≡ Some (Basic t.now)) }
    ensures none { IfNone result ((t : Declared) → ¬ (kind_at system.now (path_at system.now instance) ≡ Some (Basic t))) }
{
    match system.kind(instance) {
        TypeNumber::Event(_) => None,
        TypeNumber::Declared(index) => match system.library().blocks.get(index) {
            Some(BlockType::Basic(block)) => Some(block),
            Some(BlockType::Composite(_)) | None => None,
        },
    }
}

/// The copy of an instance before the first event, if it is a basic block.
pub(crate) fn copy_of(
    alloc: Global,
    system: &System,
    instance: u32,
    charts: &mut Charts,
) -> Result<Option<BasicState>, AllocError>
    requires instance { IsInstance system.now instance }
    requires charts { AreCharts system.now charts.old }
    ensures copy { IfOk result (IsCopy system.now instance (opening_block system.now (path_at system.now instance))) }
    ensures charts { OnOk result (AreCharts system.now charts.new) }
{
    match block_of(alloc, system, instance, Items::new(alloc), charts)? {
        Block::Basic(state) => Ok(Some(state)),
        Block::Event(_) | Block::Composite(_) => Ok(None),
    }
}

/// A copy reacts to the event input at an index, with these sampled values and that many steps left.
pub(crate) fn follow(
    copy: &mut Option<BasicState>,
    block: &BasicType,
    event: u32,
    values: &[Value],
    left: u64,
    emits: &mut Emits,
) -> Result<(), AllocError>
    requires copy { IsWhole block.now copy.old }
    requires event { event < length block.now.ports.event_inputs }
    ensures { OnOk result (HasFollowed block.now event values.now left copy.old copy.new) }
{
    let Some(state) = copy else {
        unreachable!();
    };
    emits.clear();
    let mut meter = Meter { left };
    match react(state, block, event, values, &mut meter, emits) {
        Ok(()) | Err(Halt::Stop(_)) => Ok(()),
        Err(Halt::Memory) => Err(AllocError),
    }
}

/// Where the reaction of a copy stops, as for `follow`, or `None` if it rests.
pub(crate) fn locate_in(
    copy: &mut Option<BasicState>,
    block: &BasicType,
    event: u32,
    values: &[Value],
    left: u64,
    emits: &mut Emits,
) -> Result<Option<ReactionStop>, AllocError>
    requires copy { IsWhole block.now copy.old }
    requires event { event < length block.now.ports.event_inputs }
    ensures { IfOk result (HasLocated block.now event values.now left copy.old) }
{
    let Some(state) = copy else {
        unreachable!();
    };
    emits.clear();
    let mut meter = Meter { left };
    locate(state, block, event, values, &mut meter, emits)
}
