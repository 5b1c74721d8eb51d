//! Networks by number, and their names that are unknown.

ghost use Rattle.std.specs.Prelude.{◌≡◌, ◌∷◌, ◌++◌, [], Some, IfOk, is_some};
ghost use Rattle.fb_types.specs.Unknown.{data_ins};
ghost use Rattle.fb_check_names.specs.Numbers.{IsNetwork};
ghost use Rattle.fb_check_names.specs.Types.{AreTypes, port_number};
ghost use Rattle.fb_check.specs.types.Scopes.{IsScope, inputs_in, number_in, placed};
ghost use Rattle.fb_check.specs.types.Present.{each_some};
ghost use Rattle.fb_check.specs.types.Unknowns.{unknown_in_instance, unknown_in_network};
ghost use Rattle.fb_check_names.specs.Listed.{each_at, unless};
ghost use Rattle.fb_check_names.specs.declared.location.UnknownName.TheVariants as location;

use crate::types::adding::{push_found, push_one};
use crate::types::ends::{NetworkScope, wires_of};
use fb_check_names::types::Types;
use fb_check_names::{FlowKind, NetworkNumbers, PortKind, Site, TypeNumber, UnknownName};
use fb_types::{Instance, Items, Parameter};
use std::alloc::{AllocError, Global};

/// The indexes of the inputs that the parameters of an instance set, from the number of its type. Adds the parameters
/// that are no inputs of the type.
fn inputs_of(
    alloc: Global,
    found: &mut Vec<UnknownName>,
    types: &Types,
    number: TypeNumber,
    site: Site,
    instance: usize,
    parameters: &[Parameter],
) -> Result<Items<usize>, AllocError>
    requires { AreTypes types.now }
    ensures listed { IfOk result (λ _. found.new.items ≡ found.old.items ++ each_at (λ p x. unless (is_some (port_number types.now.library.now number data_ins x.name)) (location.Parameter site instance p)) parameters.now) }
    ensures numbers { IfOk result (λ ks. ks ≡ each_some (λ x. port_number types.now.library.now number data_ins x.name) parameters.now) }
{
    let mut inputs = Items::new(alloc);
    for (parameter, declared) in parameters.iter().enumerate() {
        let input = types.port_of(number, PortKind::Input, &declared.name);
        let location = UnknownName::Parameter {
            site,
            instance,
            parameter,
        };
        push_found(&mut inputs, found, input, location)?;
    }
    Ok(inputs)
}

/// Adds the number of an instance's type and the inputs that its parameters set, or those names of them that are
/// unknown. If the type is unknown, the parameters are not looked at, and the number is one that no type has.
fn push_instance(
    alloc: Global,
    found: &mut Vec<UnknownName>,
    kinds: &mut Items<TypeNumber>,
    inputs: &mut Items<Items<usize>>,
    types: &Types,
    site: Site,
    instance: usize,
    declared: &Instance,
) -> Result<(), AllocError>
    requires { AreTypes types.now }
    ensures listed { IfOk result (λ _. found.new.items ≡ found.old.items ++ unknown_in_instance types.now.library.now site instance declared.now) }
    ensures kind { IfOk result (λ _. kinds.new ≡ kinds.old ++ number_in types.now.library.now declared.now.block_type ∷ []) }
    ensures inputs { IfOk result (λ _. inputs.new ≡ inputs.old ++ inputs_in types.now.library.now declared.now ∷ []) }
{
    match types.number_of(&declared.block_type) {
        Some(number) => {
            let parameters = declared.parameters.as_slice();
            let set = inputs_of(alloc, found, types, number, site, instance, parameters)?;
            kinds.push(number).and(inputs.push(set))
        }
        None => {
            let past = TypeNumber::Declared(types.library.blocks.len());
            push_one(found, UnknownName::InstanceType { site, instance })
                .and(kinds.push(past))
                .and(inputs.push(Items::new(alloc)))
        }
    }
}

/// The same for all instances of a network.
fn push_instances(
    alloc: Global,
    found: &mut Vec<UnknownName>,
    kinds: &mut Items<TypeNumber>,
    inputs: &mut Items<Items<usize>>,
    types: &Types,
    site: Site,
    instances: &[Instance],
) -> Result<(), AllocError>
    requires { AreTypes types.now }
    ensures listed { IfOk result (λ _. found.new.items ≡ found.old.items ++ each_at (unknown_in_instance types.now.library.now site) instances.now) }
    ensures kinds { IfOk result (λ _. kinds.new ≡ kinds.old ++ each_some (λ i. Some (number_in types.now.library.now i.block_type)) instances.now) }
    ensures inputs { IfOk result (λ _. inputs.new ≡ inputs.old ++ each_some (λ i. Some (inputs_in types.now.library.now i)) instances.now) }
{
    for (instance, declared) in instances.iter().enumerate() {
        push_instance(alloc, found, kinds, inputs, types, site, instance, declared)?;
    }
    Ok(())
}

/// A network by number. Adds its types, parameters and ends of connections that are unknown.
pub fn network_numbers(
    alloc: Global,
    found: &mut Vec<UnknownName>,
    types: &Types,
    site: Site,
    scope: &NetworkScope,
) -> Result<NetworkNumbers, AllocError>
    requires types { AreTypes types.now }
    requires scope { IsScope scope.now }
    ensures listed { IfOk result (λ _. found.new.items ≡ found.old.items ++ unknown_in_network types.now.library.now site (placed scope.now)) }
    ensures numbers { IfOk result (λ x. unknown_in_network types.now.library.now site (placed scope.now) ≡ [] → IsNetwork types.now.library.now (placed scope.now) x) }
{
    let network = scope.network;
    let mut kinds = Items::new(alloc);
    let mut inputs = Items::new(alloc);
    let instances = network.instances.as_slice();
    push_instances(
        alloc,
        found,
        &mut kinds,
        &mut inputs,
        types,
        site,
        instances,
    )?;
    let events = network.event_connections.as_slice();
    let flow = FlowKind::Events;
    let event_wires = wires_of(alloc, found, types, scope, &kinds, site, flow, events)?;
    let data = network.data_connections.as_slice();
    let flow = FlowKind::Data;
    let data_wires = wires_of(alloc, found, types, scope, &kinds, site, flow, data)?;
    Ok(NetworkNumbers {
        types: kinds,
        parameters: inputs,
        event_wires,
        data_wires,
    })
}
