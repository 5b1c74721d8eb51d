//! What is wrong with the values of a line.

ghost use Rattle.std.specs.Prelude.{◌≡◌, ◌<◌, List, ℕ, false, All, MatchOption, length, slice_index};
ghost use Rattle.fb_types.specs.declared.value.Value.{Value};
ghost use Rattle.fb_wave.specs.Reading.{AreRead, IsUnbound, name_at, type_at};
ghost use Rattle.fb_wave.specs.OfSystem.{AreValuesOf, IsPortOf};
ghost use Rattle.fb_inspect.specs.refused.LineFaults.{HasFirst, IsNoVariable, IsValueFault, variables};
ghost use Rattle.fb_inspect.specs.OfSystem.{IsPortValueFault};

use crate::refused::fault_words::named_value;
use crate::refused::line_fault::ValueFault;
use fb_system::System;
use fb_types::{Ports, Variable};
use fb_wave::Port;
use fb_wave::values::{binding, value_of};

/// Whether one of the variables at some indexes has a name.
fn is_known(variables: &[Variable], indexes: &[u32], name: &[u8]) -> bool
    requires { All (λ k. k < length variables.now) indexes.now }
    ensures { result ≡ false → IsNoVariable variables.now indexes.now name.now }
{
    for index in indexes {
        if variables[*index as usize].name.as_bytes() == name {
            return true;
        }
    }
    false
}

/// What is wrong with a text that does not begin with the value of the variable with this number in a list of indexes.
fn unbound_fault<'a>(
    variables: &[Variable],
    indexes: &[u32],
    number: usize,
    text: &'a [u8],
) -> ValueFault<'a>
    requires within { All (λ k. k < length variables.now) indexes.now }
    requires number { number < length indexes.now }
    requires unbound { let k = slice_index indexes.now number in IsUnbound (name_at variables.now k) (type_at variables.now k) text.now }
    ensures { (all : List ℕ) → HasFirst variables.now indexes.now all number text.now → IsValueFault variables.now indexes.now all result }
{
    let index = indexes[number];
    let Some(named) = named_value(text) else {
        return ValueFault::Missing(index);
    };
    if !is_known(variables, indexes, named.0) {
        return ValueFault::Variable(named.0);
    }
    let variable = &variables[index as usize];
    if variable.name.as_bytes() != named.0 {
        return ValueFault::Missing(index);
    }
    match value_of(variable.ty, named.1) {
        None => ValueFault::Value(index, named.1),
        Some(_) => ValueFault::Missing(index),
    }
}

/// What is wrong with the values of the variables at some indexes, up to the end of a line.
fn value_fault<'a>(
    variables: &[Variable],
    indexes: &[u32],
    text: &'a [u8],
) -> Option<ValueFault<'a>>
    requires { All (λ k. k < length variables.now) indexes.now }
    ensures { MatchOption result ((values : List Value) × AreRead variables.now indexes.now text.now values) (IsValueFault variables.now indexes.now text.now) }
{
    let mut rest = text;
    for (number, index) in indexes.iter().enumerate() {
        let Some(bound) = binding(&variables[*index as usize], rest) else {
            return Some(unbound_fault(variables, indexes, number, rest));
        };
        rest = bound.1;
    }
    if rest == b"\n".as_slice() {
        None
    } else {
        Some(ValueFault::More(rest))
    }
}

/// The data inputs of an interface, or its data outputs.
pub(crate) fn variables_of(ports: &Ports, taken: bool) -> &[Variable]
    ensures { result.now ≡ variables ports.now taken }
{
    if taken {
        ports.inputs.as_slice()
    } else {
        ports.outputs.as_slice()
    }
}

/// What is wrong with the values of a port.
pub(crate) fn port_values_fault<'a>(
    system: &System,
    port: Port,
    text: &'a [u8],
) -> Option<ValueFault<'a>>
    requires { IsPortOf system.now port }
    ensures { MatchOption result ((values : List Value) × AreValuesOf system.now port text.now values) (IsPortValueFault system.now port text.now) }
{
    let ports = system.ports(port.instance);
    if port.taken {
        let indexes = system.inputs_with(port.instance, port.event);
        value_fault(ports.inputs.as_slice(), indexes, text)
    } else {
        let indexes = system.outputs_with(port.instance, port.event);
        value_fault(ports.outputs.as_slice(), indexes, text)
    }
}
