//! Blocks with all that is inside them, before the first event.

ghost use Rattle.std.specs.Prelude.{IfOk, OnOk};
ghost use Rattle.fb_net.specs.Opening.{AreCharts, AreDeep, AreGrown};

use crate::block::Block;
use crate::opening::blocks::block_of;
use crate::opening::charts::Charts;
use fb_system::System;
use fb_types::Items;
use std::alloc::{AllocError, Global};

/// The blocks of some instances, each with its components, at most `depth` names deep.
pub(crate) fn blocks_of(
    alloc: Global,
    system: &System,
    instances: &[u32],
    depth: usize,
    charts: &mut Charts,
) -> Result<Items<Block>, AllocError>
    requires deep { AreDeep system.now depth instances.now }
    requires charts { AreCharts system.now charts.old }
    ensures grown { IfOk result (AreGrown system.now depth instances.now) }
    ensures charts { OnOk result (AreCharts system.now charts.new) }
{
    // for the prover: the inputs are accepted
    system.facts();
    let mut blocks = Items::new(alloc);
    for instance in instances {
        let inside = system.components(*instance);
        let components = blocks_of(alloc, system, inside, depth - 1, charts)?;
        blocks.push(block_of(alloc, system, *instance, components, charts)?)?;
    }
    Ok(blocks)
}
