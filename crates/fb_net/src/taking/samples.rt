//! The values that an event brings with it.

ghost use Rattle.std.specs.Prelude.{◌≡◌, false, true, length, IfOk};
ghost use Rattle.fb_types.specs.OfSystem.{path_at, ports_at};
ghost use Rattle.fb_system.specs.IndexLists.{AreIndexes};
ghost use Rattle.fb_system.specs.OfSystem.{IsCompositeAt, IsPort, IsWith};
ghost use Rattle.fb_net.specs.Samples.{AreSampled, AreShown};
ghost use Rattle.fb_net.specs.OfSystem.{names_in, names_out};
ghost use Rattle.fb_net.specs.Worlds.{Stands};

use crate::resource::Forest;
use fb_system::{System, With};
use fb_types::{InstanceVariable, Target, Values};
use std::alloc::{AllocError, Global};

/// What the data inputs WITH an event input sample, in the order in which they are declared. The instance is in the
/// resource. One value alone takes no memory.
#[inline(always)]
pub(crate) fn sampled_values(
    alloc: Global,
    forest: &Forest,
    system: &System,
    at: Target,
    with: &With,
) -> Result<Values, AllocError>
    requires port { IsPort system.now at }
    requires input { at.is_output ≡ false }
    requires stands { Stands system.now forest.now at.instance }
    requires with { IsWith system.now at with.now }
    ensures sampled { IfOk result (AreSampled system.now forest.now at) }
    ensures counted { IfOk result (λ vs. length vs ≡ length (names_in system.now at)) }
{
    match with {
        With::Nothing => Ok(Values::new(alloc)),
        With::One(variable, source) => {
            let input = InstanceVariable {
                instance: at.instance,
                variable: *variable,
                is_output: false,
            };
            let value = *forest.sampled(system, input, source);
            Ok(Values::one(alloc, value))
        }
        With::Several => {
            let indexes = system.inputs_with(at.instance, at.event);
            sampled_each(alloc, forest, system, at, indexes)
        }
    }
}

/// What any number of data inputs WITH an event input sample, which are at `indexes`.
#[inline(never)]
fn sampled_each(
    alloc: Global,
    forest: &Forest,
    system: &System,
    at: Target,
    indexes: &[u32],
) -> Result<Values, AllocError>
    requires port { IsPort system.now at }
    requires input { at.is_output ≡ false }
    requires stands { Stands system.now forest.now at.instance }
    requires indexes { AreIndexes (ports_at system.now (path_at system.now at.instance)).inputs (names_in system.now at) indexes.now }
    ensures sampled { IfOk result (AreSampled system.now forest.now at) }
    ensures counted { IfOk result (λ vs. length vs ≡ length (names_in system.now at)) }
{
    let mut values = Values::new(alloc);
    for index in indexes {
        let input = InstanceVariable {
            instance: at.instance,
            variable: *index,
            is_output: false,
        };
        let source = system.placed_source(input);
        values.push(*forest.sampled(system, input, &source))?;
    }
    Ok(values)
}

/// What a composite, which is in the resource, shows from inside of the data outputs WITH an event output, in the
/// order in which they are declared. One value alone takes no memory.
#[inline(always)]
pub(crate) fn shown_values(
    alloc: Global,
    forest: &Forest,
    system: &System,
    at: Target,
    with: &With,
) -> Result<Values, AllocError>
    requires port { IsPort system.now at }
    requires output { at.is_output ≡ true }
    requires stands { Stands system.now forest.now at.instance }
    requires composite { IsCompositeAt system.now at.instance }
    requires with { IsWith system.now at with.now }
    ensures shown { IfOk result (AreShown system.now forest.now at) }
    ensures counted { IfOk result (λ vs. length vs ≡ length (names_out system.now at)) }
{
    match with {
        With::Nothing => Ok(Values::new(alloc)),
        With::One(variable, source) => {
            let output = InstanceVariable {
                instance: at.instance,
                variable: *variable,
                is_output: true,
            };
            let value = *forest.shown_inside(system, output, source);
            Ok(Values::one(alloc, value))
        }
        With::Several => {
            let indexes = system.outputs_with(at.instance, at.event);
            shown_each(alloc, forest, system, at, indexes)
        }
    }
}

/// What a composite shows from inside of any number of data outputs WITH an event output, which are at `indexes`.
#[inline(never)]
fn shown_each(
    alloc: Global,
    forest: &Forest,
    system: &System,
    at: Target,
    indexes: &[u32],
) -> Result<Values, AllocError>
    requires port { IsPort system.now at }
    requires output { at.is_output ≡ true }
    requires stands { Stands system.now forest.now at.instance }
    requires composite { IsCompositeAt system.now at.instance }
    requires indexes { AreIndexes (ports_at system.now (path_at system.now at.instance)).outputs (names_out system.now at) indexes.now }
    ensures shown { IfOk result (AreShown system.now forest.now at) }
    ensures counted { IfOk result (λ vs. length vs ≡ length (names_out system.now at)) }
{
    let mut values = Values::new(alloc);
    for index in indexes {
        let output = InstanceVariable {
            instance: at.instance,
            variable: *index,
            is_output: true,
        };
        let source = system.placed_source(output);
        values.push(*forest.shown_inside(system, output, &source))?;
    }
    Ok(values)
}
