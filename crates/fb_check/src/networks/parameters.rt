//! E22: parameters that are not values of their inputs' types.

ghost use Rattle.std.specs.Prelude.{◌≡◌, ◌++◌, IfOk, Some, not};
ghost use Rattle.fb_types.specs.Repeated.{OwnedNetwork};
ghost use Rattle.fb_check_names.specs.Numbers.{IsNetwork, parameter_numbers, type_number};
ghost use Rattle.fb_check.specs.networks.Parameters as spec;
ghost use Rattle.fb_check.specs.networks.Parameters.{kind_wrong_parameters, kinds_wrong_in_network};

use crate::networks::variables::input_type;
use fb_check_names::{KindWrongAt, NetworkNumbers, Site, TypeNumber, push_unless};
use fb_types::{Instance, Library, Network, Parameter};
use std::alloc::AllocError;

/// Whether a parameter is a value of the type of the input that it sets.
fn is_right(library: &Library, number: TypeNumber, parameter: &Parameter, input: usize) -> bool
    ensures { result ≡ not (spec.is_wrong library.now number parameter.now input) }
{
    match input_type(library, number, input) {
        Some(ty) => ty.holds(parameter.value),
        None => true,
    }
}

/// Adds the parameters of an instance that are not, by the number of its type and the inputs that they set.
fn push_parameters(
    found: &mut Vec<KindWrongAt>,
    library: &Library,
    site: Site,
    instance: usize,
    declared: &Instance,
    number: TypeNumber,
    inputs: &[usize],
) -> Result<(), AllocError>
    requires number { type_number library.now declared.now.block_type ≡ Some number }
    requires inputs { parameter_numbers library.now declared.now ≡ Some inputs.now }
    ensures { IfOk result (λ _. found.new.items ≡ found.old.items ++ kind_wrong_parameters library.now site instance declared.now) }
{
    let parameters = declared.parameters.as_slice();
    for (parameter, set) in parameters.iter().enumerate() {
        let Some(input) = inputs.get(parameter) else {
            return Ok(());
        };
        let location = KindWrongAt::Parameter {
            site,
            instance,
            parameter,
        };
        push_unless(found, is_right(library, number, set, *input), location)?;
    }
    Ok(())
}

/// Adds the parameters of the instances of a network that are not values of their inputs' types. The numbers are those
/// of the network.
///
/// # Errors
///
/// When memory runs out.
pub fn push_wrong_parameters(
    found: &mut Vec<KindWrongAt>,
    library: &Library,
    site: Site,
    network: &Network,
    numbers: &NetworkNumbers,
) -> Result<(), AllocError>
    requires { (n : OwnedNetwork) × (n.1 ≡ network.now) × IsNetwork library.now n numbers.now }
    ensures { IfOk result (λ _. found.new.items ≡ found.old.items ++ kinds_wrong_in_network library.now site network.now.instances) }
{
    let instances = network.instances.as_slice();
    for (instance, declared) in instances.iter().enumerate() {
        let Some(number) = numbers.types.get(instance) else {
            return Ok(());
        };
        let Some(inputs) = numbers.parameters.get(instance) else {
            return Ok(());
        };
        let inputs = inputs.as_slice();
        push_parameters(found, library, site, instance, declared, *number, inputs)?;
    }
    Ok(())
}
