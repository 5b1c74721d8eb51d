//! The types of variables by the numbers of block types and the indexes of ports.

ghost use Rattle.std.specs.Prelude.{◌≡◌};
ghost use Rattle.std.specs.Option.{option_copied};
ghost use Rattle.fb_types.specs.Blocks as blocks;
ghost use Rattle.fb_check.specs.networks.Variables as spec;

use fb_check_names::{ConnectionEnd, TypeNumber};
use fb_types::{Library, Ports, Ty, Variable, event_block_input, event_block_output};

fn type_at(variables: &[Variable], index: usize) -> Option<Ty>
    ensures { result ≡ blocks.type_at variables.now index }
{
    Some(variables.get(index)?.ty)
}

/// The type of a data input of a block type.
pub fn input_type(library: &Library, number: TypeNumber, index: usize) -> Option<Ty>
    ensures { result ≡ spec.input_type library.now number index }
{
    match number {
        TypeNumber::Event(kind) => event_block_input(kind, index),
        TypeNumber::Declared(block) => {
            let ports = library.blocks.get(block)?.ports();
            type_at(ports.inputs.as_slice(), index)
        }
    }
}

/// The type of the variable at which a data connection begins, in a network with these ports around it.
pub fn source_type(
    library: &Library,
    boundary: Option<&Ports>,
    types: &[TypeNumber],
    end: ConnectionEnd,
) -> Option<Ty>
    ensures { result ≡ spec.source_type library.now (option_copied boundary.entry) types.now end }
{
    let Some(component) = end.component else {
        return type_at(boundary?.inputs.as_slice(), end.port);
    };
    match *types.get(component)? {
        TypeNumber::Event(kind) => event_block_output(kind, end.port),
        TypeNumber::Declared(block) => {
            let ports = library.blocks.get(block)?.ports();
            type_at(ports.outputs.as_slice(), end.port)
        }
    }
}

/// The type of the variable to which a data connection leads, in a network with these ports around it.
pub fn target_type(
    library: &Library,
    boundary: Option<&Ports>,
    types: &[TypeNumber],
    end: ConnectionEnd,
) -> Option<Ty>
    ensures { result ≡ spec.target_type library.now (option_copied boundary.entry) types.now end }
{
    match end.component {
        Some(component) => input_type(library, *types.get(component)?, end.port),
        None => type_at(boundary?.outputs.as_slice(), end.port),
    }
}
