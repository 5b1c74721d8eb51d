//! Values of expressions (IEC 61131-3, 7.3.2).

ghost use Rattle.std.specs.Prelude.{◌≡◌, map};
ghost use Rattle.fb_types.specs.Syntax.{expr_of, exprs};
ghost use Rattle.fb_types.specs.Values.{truth_of, value_of, values_of as values_of_all, and_then, value_if_known, function_named};
ghost use Rattle.fb_st.specs.Frames.{values_of};
ghost use Rattle.fb_st.specs.Required.{both};

use crate::frame::Frame;
use crate::function::{call_with_one, call_with_three, call_with_two};
use crate::operator::{binary, truth_value, unary};
use fb_types::{Expr, Function, Name, Reason, Value};

/// The value of an expression, or the first reason that is met. All operands and arguments are evaluated,
/// from left to right.
#[cycle(eval)]
pub fn eval(expr: &Expr, frame: &Frame) -> Result<Value, Reason>
    ensures { result ≡ value_of (expr_of expr.now) (values_of frame.now) }
{
    match expr {
        Expr::Whole(number) => Ok(Value::Whole(*number)),
        Expr::Truth(truth) => Ok(Value::Bool(*truth)),
        Expr::Variable(variable) => Ok(frame.value(variable)),
        Expr::Group(inner) => eval(inner.get(), frame),
        Expr::Unary(operator, operand) => unary(*operator, eval(operand.get(), frame)),
        Expr::Binary(operator, left, right) => binary(
            *operator,
            eval(left.get(), frame),
            eval(right.get(), frame),
        ),
        Expr::Call(name, arguments) => call(name, arguments.as_slice(), frame),
    }
}

/// The values of two arguments.
#[cycle(eval)]
#[inline(always)]
fn both_values(left: &Expr, right: &Expr, frame: &Frame) -> Result<(Value, Value), Reason>
    ensures { result ≡ both (value_of (expr_of left.now) (values_of frame.now)) (value_of (expr_of right.now) (values_of frame.now)) }
{
    let first = eval(left, frame)?;
    Ok((first, eval(right, frame)?))
}

/// The function of this name at its arguments.
#[cycle(eval)]
#[inline(never)]
fn call(name: &Name, arguments: &[Expr], frame: &Frame) -> Result<Value, Reason>
    ensures { result ≡ and_then (values_of_all (exprs (map expr_of arguments.now)) (values_of frame.now)) (value_if_known (function_named name.now)) }
{
    let function = Function::named(name);
    match arguments {
        [one] => call_with_one(function, eval(one, frame)?),
        [one, two] => {
            let (first, second) = both_values(one, two, frame)?;
            call_with_two(function, first, second)
        }
        [one, two, three] => {
            let (first, second) = both_values(one, two, frame)?;
            call_with_three(function, first, second, eval(three, frame)?)
        }
        _ => {
            for argument in arguments {
                let _ = eval(argument, frame)?;
            }
            Ok(Value::Whole(0))
        }
    }
}

/// Whether a condition or a guard is true. A whole number, as no accepted text has there, counts as FALSE.
#[inline(never)]
pub fn holds(condition: &Expr, frame: &Frame) -> Result<bool, Reason>
    ensures { result ≡ truth_of (expr_of condition.now) (values_of frame.now) }
{
    Ok(truth_value(eval(condition, frame)?))
}
