//! Values that an event brings to variables, slots and held copies.

ghost use Rattle.std.specs.Prelude.{◌≡◌, ◌<◌, ◌≢◌, false, length, All, Some};
ghost use Rattle.fb_types.specs.Blocks.{Basic};
ghost use Rattle.fb_types.specs.declared.library.BasicType.{BasicType};
ghost use Rattle.fb_types.specs.OfSystem.{IsInstance, kind_at, path_at, ports_at};
ghost use Rattle.fb_system.specs.IndexLists.{AreIndexes};
ghost use Rattle.fb_system.specs.OfSystem.{IsCarried, IsPort};
ghost use Rattle.fb_net.specs.Changes.{Changes};
ghost use Rattle.fb_net.specs.Samples.{HoldsAll, all_sampled};
ghost use Rattle.fb_net.specs.OfSystem.{names_in, slots_set};
ghost use Rattle.fb_net.specs.Worlds.{Stands};

use crate::resource::Forest;
use fb_system::System;
use fb_types::{Carried, InputValue, InstanceVariable, MessageValues, Target, Value};

/// Gives the variables WITH an event input, which are at `indexes`, the values that they sampled. The instance is an
/// event block or a composite, and is in the resource.
pub(crate) fn keep_samples(
    forest: &mut Forest,
    system: &System,
    at: Target,
    indexes: &[u32],
    values: &[Value],
)
    requires port { IsPort system.now at }
    requires input { at.is_output ≡ false }
    requires stands { Stands system.now forest.old at.instance }
    requires no_basic { (t : BasicType) → kind_at system.now (path_at system.now at.instance) ≢ Some (Basic t) }
    requires indexes { AreIndexes (ports_at system.now (path_at system.now at.instance)).inputs (names_in system.now at) indexes.now }
    requires values { length values.now ≡ length (names_in system.now at) }
    ensures { Changes system.now forest.old at.instance (all_sampled (names_in system.now at) values.now) forest.new }
{
    for (index, value) in indexes.iter().zip(values) {
        let input = InstanceVariable {
            instance: at.instance,
            variable: *index,
            is_output: false,
        };
        forest.set_input(system, input, *value);
    }
}

/// Sets the slots of a stimulus, at an instance that is in the resource.
pub(crate) fn set_slots(forest: &mut Forest, system: &System, instance: u32, sets: &[InputValue])
    requires instance { IsInstance system.now instance }
    requires stands { Stands system.now forest.old instance }
    requires within { All (λ s. s.index < length (ports_at system.now (path_at system.now instance)).inputs) sets.now }
    ensures { Changes system.now forest.old instance (slots_set system.now instance sets.now) forest.new }
{
    // for the prover: the inputs are accepted
    system.facts();
    for set in sets {
        let Some(shell) = forest.shell_mut(instance) else {
            unreachable!()
        };
        shell.slots.set(set.index as usize, set.value);
    }
}

/// Puts the values that a message carries into the held copies of the resource. One alone is in place.
pub(crate) fn hold_carried(forest: &mut Forest, system: &System, values: &MessageValues)
    requires { All (IsCarried system.now) values.now }
    ensures { HoldsAll system.now forest.old values.now forest.new }
{
    match values.only() {
        Ok(item) => {
            let output = InstanceVariable {
                instance: item.instance,
                variable: item.variable,
                is_output: true,
            };
            forest.hold(system, output, item.value);
        }
        Err(items) => hold_each(forest, system, items),
    }
}

/// Puts the values of a list into the held copies of the resource.
fn hold_each(forest: &mut Forest, system: &System, carried: &[Carried])
    requires { All (IsCarried system.now) carried.now }
    ensures { HoldsAll system.now forest.old carried.now forest.new }
{
    for item in carried {
        let output = InstanceVariable {
            instance: item.instance,
            variable: item.variable,
            is_output: true,
        };
        forest.hold(system, output, item.value);
    }
}
