//! What connections and stimuli have set of one instance before the first event.

ghost use Rattle.std.specs.Prelude.{◌≡◌, ◌≢◌, Some, IfOk};
ghost use Rattle.fb_types.specs.Blocks.{Basic};
ghost use Rattle.fb_types.specs.declared.library.BasicType.{BasicType};
ghost use Rattle.fb_types.specs.OfSystem.{IsInstance, kind_at, opening_block, path_at};
ghost use Rattle.fb_system.specs.OfSystem.{initial_inputs};
ghost use Rattle.fb_net.specs.OfSystem.{ShellRepresents};

use crate::shell::Shell;
use fb_check_names::TypeNumber;
use fb_system::System;
use fb_types::{BlockType, Items, Value};
use std::alloc::{AllocError, Global};

/// What an event block or a composite has sampled before the first event. For a basic block there is none.
fn sampled_of(alloc: Global, system: &System, instance: u32) -> Result<Items<Value>, AllocError>
    requires { IsInstance system.now instance }
    ensures { IfOk result (λ vs. let p = path_at system.now instance in ((t : BasicType) → kind_at system.now p ≢ Some (Basic t)) → vs ≡ initial_inputs system.now p) }
{
    if let TypeNumber::Declared(index) = system.kind(instance) {
        if let Some(BlockType::Basic(_)) = system.library().blocks.get(index) {
            return Ok(Items::new(alloc));
        }
    }
    system.initial_inputs(alloc, instance)
}

/// What connections and stimuli have set of an instance before the first event.
pub(crate) fn shell_of(alloc: Global, system: &System, instance: u32) -> Result<Shell, AllocError>
    requires { IsInstance system.now instance }
    ensures { IfOk result (λ s. let p = path_at system.now instance in ShellRepresents system.now p s (opening_block system.now p)) }
{
    let slots = system.initial_inputs(alloc, instance)?;
    let published = system.initial_outputs(alloc, instance)?;
    let inputs = sampled_of(alloc, system, instance)?;
    Ok(Shell {
        slots,
        published,
        inputs,
    })
}
