//! The shells of a resource before the first event, each at its index.

ghost use Rattle.std.specs.Prelude.{◌≡◌, [], OnOk};
ghost use Rattle.fb_types.specs.OfSystem.{instance_count};
ghost use Rattle.fb_net.specs.Opening.{HaveShells, IsShellAlone};

use crate::opening::shells::shell_of;
use crate::resource::Forest;
use fb_system::System;
use std::alloc::{AllocError, Global};

/// Gives each instance its index, and makes the shells of those that are in the resource, in the order of their numbers.
pub(crate) fn index_shells(
    alloc: Global,
    system: &System,
    forest: &mut Forest,
) -> Result<(), AllocError>
    requires shell_indexes { forest.old.shell_indexes ≡ [] }
    requires shells { forest.old.shells ≡ [] }
    ensures has_shells { OnOk result (HaveShells system.now (instance_count system.now) forest.new) }
    ensures alone { IsShellAlone forest.old forest.new }
{
    // for the prover: there are at most 4,096 instances
    system.facts();
    for instance in 0..system.count() as u32 {
        // There are no more shells than instances, and so their number fits.
        let shell_index = forest.shells.len() as u32;
        forest.shell_indexes.push(shell_index)?;
        if system.resource(instance) == forest.resource {
            let shell = shell_of(alloc, system, instance)?;
            forest.shells.push(shell)?;
        }
    }
    Ok(())
}
