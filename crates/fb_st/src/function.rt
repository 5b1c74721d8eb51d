//! Functions at their arguments (IEC 61131-3, 6.6.2.5).

ghost use Rattle.std.specs.Prelude.{◌≡◌, ◌∷◌, []};
ghost use Rattle.std.specs.Int.{int_min, int_max};
ghost use Rattle.fb_types.specs.Values.{judged, whole, absolute, value_if_known};

use crate::operator::{negated, truth_value, whole_of};
use fb_types::{Function, Reason, Value};

/// The function ABS.
fn magnitude(number: i128) -> Result<Value, Reason>
    ensures { result ≡ judged (absolute number) }
{
    if number < 0 {
        Ok(Value::Whole(negated(number)?))
    } else {
        Ok(Value::Whole(number))
    }
}

/// The function LIMIT: a number that is raised to the least and then cut to the most.
fn limited(least: i128, number: i128, most: i128) -> Value
    ensures { result ≡ Value.Whole (int_min (int_max number least) most) }
{
    Value::Whole(number.max(least).min(most))
}

/// A function at one argument. What takes another number of arguments is 0 here, and in no accepted text.
pub fn call_with_one(function: Option<Function>, value: Value) -> Result<Value, Reason>
    ensures { result ≡ value_if_known function (value ∷ []) }
{
    match function {
        Some(Function::Abs) => magnitude(whole_of(value)),
        _ => Ok(Value::Whole(0)),
    }
}

/// A function at two arguments. What takes another number of arguments is 0 here, and in no accepted text.
pub fn call_with_two(
    function: Option<Function>,
    first: Value,
    second: Value,
) -> Result<Value, Reason>
    ensures { result ≡ value_if_known function (first ∷ second ∷ []) }
{
    match function {
        Some(Function::Min) => Ok(Value::Whole(whole_of(first).min(whole_of(second)))),
        Some(Function::Max) => Ok(Value::Whole(whole_of(first).max(whole_of(second)))),
        _ => Ok(Value::Whole(0)),
    }
}

/// A function at three arguments. What takes another number of arguments is 0 here, and in no accepted text.
pub fn call_with_three(
    function: Option<Function>,
    first: Value,
    second: Value,
    third: Value,
) -> Result<Value, Reason>
    ensures { result ≡ value_if_known function (first ∷ second ∷ third ∷ []) }
{
    match function {
        Some(Function::Limit) => Ok(limited(whole_of(first), whole_of(second), whole_of(third))),
        Some(Function::Sel) => Ok(if truth_value(first) { third } else { second }),
        _ => Ok(Value::Whole(0)),
    }
}
