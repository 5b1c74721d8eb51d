//! The held copies of a resource before the first event.

ghost use Rattle.std.specs.Prelude.{◌≡◌, Some, if◌then◌else◌, IfOk, OnOk};
ghost use Rattle.fb_types.specs.OfSystem.{IsInstance, path_at};
ghost use Rattle.fb_system.specs.OfSystem.{IsVariable, initial_at, initial_inputs, initial_outputs, variable_of};
ghost use Rattle.fb_net.specs.HeldAt.{held_at};
ghost use Rattle.fb_net.specs.Opening.{Covers, CoversAll, CoversSources, KeepsCovers, KeepsInitial};

use crate::held_copies::HeldCopies;
use fb_system::System;
use fb_types::{InstanceVariable, Items, Value};
use std::alloc::{AllocError, Global};

/// What the variables on the side of its instance on which a variable is begin with.
fn initials(
    alloc: Global,
    system: &System,
    variable: InstanceVariable,
) -> Result<Items<Value>, AllocError>
    requires { IsVariable system.now variable }
    ensures { IfOk result (λ vs. vs ≡ (if variable.is_output then initial_outputs system.now (path_at system.now variable.instance) else initial_inputs system.now (path_at system.now variable.instance))) }
{
    if variable.is_output {
        system.initial_outputs(alloc, variable.instance)
    } else {
        system.initial_inputs(alloc, variable.instance)
    }
}

/// Holds copies of the variables on the side of its instance on which a variable is, each with what it begins with,
/// unless there are some.
fn hold_side(
    alloc: Global,
    system: &System,
    variable: InstanceVariable,
    held: &mut HeldCopies,
) -> Result<(), AllocError>
    requires { IsVariable system.now variable }
    ensures here { OnOk result (held_at held.new variable ≡ Some (initial_at system.now (variable_of system.now variable))) }
    ensures kept { OnOk result (KeepsInitial system.now held.old held.new) }
{
    let values = initials(alloc, system, variable)?;
    match held.get(&variable) {
        Some(_) => {
            held.set(&variable, values.as_slice()[variable.variable as usize]);
            Ok(())
        }
        None => held.add(&variable, values),
    }
}

/// Holds a copy of what a variable is connected to, where that is in another resource.
fn hold(
    alloc: Global,
    system: &System,
    resource: usize,
    to: InstanceVariable,
    held: &mut HeldCopies,
) -> Result<(), AllocError>
    requires { IsVariable system.now to }
    ensures covered { OnOk result (Covers system.now resource held.new to) }
    ensures kept { OnOk result (KeepsCovers system.now resource held.old held.new) }
{
    // for the prover: the inputs are accepted
    system.facts();
    if let Some(source) = system.source(to) {
        if system.resource(source.instance) != resource {
            hold_side(alloc, system, source, held)?;
        }
    }
    Ok(())
}

/// Holds copies of what the data inputs of an instance, or its data outputs, are connected to.
fn hold_sources(
    alloc: Global,
    system: &System,
    resource: usize,
    instance: u32,
    is_output: bool,
    held: &mut HeldCopies,
) -> Result<(), AllocError>
    requires { IsInstance system.now instance }
    ensures covered { OnOk result (CoversSources system.now resource held.new instance is_output) }
    ensures kept { OnOk result (KeepsCovers system.now resource held.old held.new) }
{
    let ports = system.ports(instance);
    let count = if is_output {
        ports.outputs.count()
    } else {
        ports.inputs.count()
    };
    for variable in 0..count {
        let to = InstanceVariable {
            instance,
            variable,
            is_output,
        };
        hold(alloc, system, resource, to, held)?;
    }
    Ok(())
}

/// The copies of the variables of other resources to which those of a resource are connected, each with what the
/// variable begins with.
pub(crate) fn held_of(
    alloc: Global,
    system: &System,
    resource: usize,
) -> Result<HeldCopies, AllocError>
    ensures { IfOk result (CoversAll system.now resource) }
{
    // for the prover: there are at most 4,096 instances
    system.facts();
    let mut held = HeldCopies::new(alloc);
    for instance in 0..system.count() as u32 {
        if system.resource(instance) == resource {
            hold_sources(alloc, system, resource, instance, false, &mut held)?;
            hold_sources(alloc, system, resource, instance, true, &mut held)?;
        }
    }
    Ok(held)
}
