//! Initial values of the data inputs and the data outputs of an instance.

ghost use Rattle.std.specs.Prelude.{◌≡◌, IfOk, Some, map};
ghost use Rattle.fb_types.specs.Blocks.{initial_of, variable_names};
ghost use Rattle.fb_types.specs.Repeated.{Twice};
ghost use Rattle.fb_types.specs.Unknown.{data_ins};
ghost use Rattle.fb_check_names.specs.Numbers.{each_or_none, index_of};
ghost use Rattle.fb_system.specs.Begins.{begins_with, parameter_names};

use fb_types::{Items, Parameter, Ports, Value, Variable};
use std::alloc::{AllocError, Global};

/// The initial values of variables.
fn first_values(alloc: Global, variables: &[Variable]) -> Result<Vec<Value>, AllocError>
    ensures { IfOk result (λ vs. vs.items ≡ map initial_of variables.now) }
{
    let mut values = Vec::with_capacity(alloc, variables.len())?;
    for variable in variables {
        values.push(variable.first_value())?;
    }
    Ok(values)
}

/// The initial values of the data inputs of an instance: the instance's parameter, else the declared initial value, else
/// 0 or FALSE. `indexes` has the indexes of the inputs that the parameters set.
///
/// # Errors
///
/// When memory runs out.
pub(crate) fn input_values(
    alloc: Global,
    ports: &Ports,
    parameters: &[Parameter],
    indexes: &[usize],
) -> Result<Items<Value>, AllocError>
    requires indexes { each_or_none (λ x. index_of (data_ins ports.now) x.name) parameters.now ≡ Some indexes.now }
    requires inputs { ¬ (Twice (variable_names ports.now.inputs)) }
    requires parameters { ¬ (Twice (parameter_names parameters.now)) }
    ensures { IfOk result (λ vs. vs ≡ begins_with ports.now parameters.now) }
{
    let mut values = first_values(alloc, ports.inputs.as_slice())?;
    for (number, parameter) in parameters.iter().enumerate() {
        values[indexes[number]] = parameter.value;
    }
    Ok(Items::from_vec(values))
}

/// The initial values of the data outputs of an instance: the declared initial value, else 0 or FALSE.
///
/// # Errors
///
/// When memory runs out.
pub(crate) fn output_values(alloc: Global, ports: &Ports) -> Result<Items<Value>, AllocError>
    ensures { IfOk result (λ vs. vs ≡ map initial_of ports.now.outputs) }
{
    let values = first_values(alloc, ports.outputs.as_slice())?;
    Ok(Items::from_vec(values))
}
