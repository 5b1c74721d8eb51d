//! Variables, found by comparing names.

ghost use Rattle.std.specs.Prelude.{◌≡◌, ◌++◌};
ghost use Rattle.fb_types.specs.Blocks.{type_named};

use crate::types::value_kinds::Typing;
use fb_types::{BasicType, Name, Ports, Ty, Variable};

/// The type of the variable that has the name.
pub fn variable_type(variables: &[Variable], name: &Name) -> Option<Ty>
    ensures { result ≡ type_named variables.now name.now }
{
    for variable in variables {
        if variable.name.is(name) {
            return Some(variable.ty);
        }
    }
    None
}

/// The type of the data input or output that has the name.
pub fn port_type(ports: &Ports, name: &Name) -> Option<Ty>
    ensures { result ≡ type_named (ports.now.inputs ++ ports.now.outputs) name.now }
{
    match variable_type(ports.inputs.as_slice(), name) {
        Some(ty) => Some(ty),
        None => variable_type(ports.outputs.as_slice(), name),
    }
}

/// The same for all variables of a basic type.
pub fn type_among(ports: &Ports, internals: &[Variable], name: &Name) -> Option<Ty>
    ensures { result ≡ type_named ((ports.now.inputs ++ ports.now.outputs) ++ internals.now) name.now }
{
    match port_type(ports, name) {
        Some(ty) => Some(ty),
        None => variable_type(internals, name),
    }
}

impl Typing for BasicType {
    ghost use Rattle.fb_types.specs.Blocks.{types_of};

    ghost types = { types_of };

    fn type_of(&self, name: &Name) -> Ty {
        type_among(&self.ports, self.internals.as_slice(), name).unwrap_or(Ty::Bool)
    }
}
