//! Whether some values of the types of variables meet a condition, and one value all conditions on a variable.

ghost use Rattle.std.specs.Prelude.{◌≡◌, ◌<◌, All, length, map};
ghost use Rattle.fb_system.specs.IndexLists.{variable_at};
ghost use Rattle.fb_expect.specs.Written as written;
ghost use Rattle.fbsim_command.specs.Possible as spec;

use fb_expect::{Comparison, Condition, Operand, has_number_within, has_truth};
use fb_types::{Name, Ty, Value, Variable};

/// The least and the greatest number of a number type; 0 twice for BOOL, which has none.
pub(crate) fn range_of(ty: Ty) -> (i128, i128)
    ensures { result ≡ (spec.least_of ty, spec.most_of ty) }
{
    match ty {
        Ty::Sint => (i128::from(i8::MIN), i128::from(i8::MAX)),
        Ty::Int => (i128::from(i16::MIN), i128::from(i16::MAX)),
        Ty::Dint => (i128::from(i32::MIN), i128::from(i32::MAX)),
        Ty::Lint | Ty::Time => (i128::from(i64::MIN), i128::from(i64::MAX)),
        Ty::Usint => (0, i128::from(u8::MAX)),
        Ty::Uint => (0, i128::from(u16::MAX)),
        Ty::Udint => (0, i128::from(u32::MAX)),
        Ty::Ulint => (0, i128::from(u64::MAX)),
        Ty::Bool => (0, 0),
    }
}

/// Whether some number of a type compares so with a number.
fn can_be_number(ty: Ty, comparison: Comparison, number: i128) -> bool
    ensures { result ≡ spec.can_be_number ty comparison number }
{
    let (least, most) = range_of(ty);
    match comparison {
        Comparison::Equal => ty.holds(Value::Whole(number)),
        Comparison::Unequal => true,
        Comparison::Less => least < number,
        Comparison::AtMost => least <= number,
        Comparison::Greater => number < most,
        Comparison::AtLeast => number <= most,
    }
}

fn is_truth(ty: Ty) -> bool
    ensures { result ≡ spec.is_truth ty }
{
    matches!(ty, Ty::Bool)
}

/// Whether a comparison asks for no order.
fn is_equation(comparison: Comparison) -> bool
    ensures { result ≡ written.is_equation comparison }
{
    matches!(comparison, Comparison::Equal | Comparison::Unequal)
}

/// Whether some value of a type compares so with a value.
fn can_be(ty: Ty, comparison: Comparison, value: Value) -> bool
    ensures { result ≡ spec.can_be ty comparison value }
{
    match value {
        Value::Bool(_) => is_truth(ty) && is_equation(comparison),
        Value::Whole(number) => !is_truth(ty) && can_be_number(ty, comparison, number),
    }
}

/// Whether some values of two types compare so.
fn can_be_both(left: Ty, right: Ty, comparison: Comparison) -> bool
    ensures { result ≡ spec.can_be_both left right comparison }
{
    match (is_truth(left), is_truth(right)) {
        (true, true) => is_equation(comparison),
        (left, right) => left == right,
    }
}

/// Whether a value compares so with itself.
fn is_reflexive(comparison: Comparison) -> bool
    ensures { result ≡ spec.is_reflexive comparison }
{
    matches!(
        comparison,
        Comparison::Equal | Comparison::AtMost | Comparison::AtLeast
    )
}

/// The type of the variable of this name.
fn type_of(variables: &[Variable], name: &Name) -> Option<Ty>
    ensures { result ≡ spec.type_of variables.now name.now }
{
    for variable in variables {
        if variable.name.is(name) {
            return Some(variable.ty);
        }
    }
    None
}

/// Whether a variable is among those at some indexes.
fn is_among(name: &Name, variables: &[Variable], indexes: &[u32]) -> bool
    requires { All (λ k. k < length variables.now) indexes.now }
    ensures { result ≡ spec.is_among name.now (map (variable_at variables.now) indexes.now) }
{
    for index in indexes {
        if variables[*index as usize].name.is(name) {
            return true;
        }
    }
    false
}

/// Whether some values of the variables of an event meet a condition. Its variables are those at some indexes.
pub(crate) fn is_possible(condition: &Condition, variables: &[Variable], indexes: &[u32]) -> bool
    requires { All (λ k. k < length variables.now) indexes.now }
    ensures { result ≡ spec.is_possible variables.now (map (variable_at variables.now) indexes.now) condition.now }
{
    let name = &condition.variable;
    if !is_among(name, variables, indexes) {
        return false;
    }
    let Some(ty) = type_of(variables, name) else {
        return false;
    };
    match &condition.operand {
        Operand::Value(value) => can_be(ty, condition.comparison, *value),
        Operand::Variable(other) => match type_of(variables, other) {
            Some(right) => {
                is_among(other, variables, indexes)
                    && can_be_both(ty, right, condition.comparison)
                    && (!name.is(other) || is_reflexive(condition.comparison))
            }
            None => false,
        },
    }
}

/// Whether some value of a type suits all conditions on a variable.
fn can_suit(ty: Ty, variable: &Name, conditions: &[Condition]) -> bool
    ensures { result ≡ spec.can_suit ty variable.now conditions.now }
{
    if is_truth(ty) {
        return has_truth(variable, conditions);
    }
    let range = range_of(ty);
    has_number_within(range.0, range.1, variable, conditions)
}

/// The same of each variable of an interface.
pub(crate) fn can_suit_all(variables: &[Variable], conditions: &[Condition]) -> bool
    ensures { result ≡ spec.can_suit_all variables.now conditions.now }
{
    for variable in variables {
        if !can_suit(variable.ty, &variable.name, conditions) {
            return false;
        }
    }
    true
}
