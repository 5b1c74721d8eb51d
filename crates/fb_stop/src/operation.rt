//! The operation at which an expression has no value, as tokens.

ghost use Rattle.std.specs.Prelude.{◌≡◌, ◌<◌, IfNone, IfSome, None, length, map, true, false};
ghost use Rattle.fb_st.specs.Frames.{values_of};
ghost use Rattle.fb_stop.specs.Tokens as spec;
ghost use Rattle.fb_stop.specs.Operations as operations;
ghost use Rattle.fb_stop.specs.Operations.{AllHaveValues, FaultIn, HasNoValue, HasValue, IsCallOtherwise, IsFirstWithout, IsOfCall, IsOtherwise, IsOutermost, IsWithout};

use crate::number::next;
use fb_st::{Frame, eval};
use fb_types::{Expr, Reason, Value};

/// An operation with its operands, or a call with its arguments. Tokens are counted from one of the statement or the
/// guard.
#[derive(Clone, Copy)]
pub struct Operation {
    /// The first token.
    pub first: usize,
    /// The operator, or the name of the function.
    pub operator: usize,
    /// The token after the last one.
    pub end: usize,
    /// The values of its operands.
    pub operands: Operands,
}

/// The values of the operands of an operation from left to right, or of the first three arguments of a call. `None` for
/// what is not there.
#[derive(Clone, Copy)]
pub struct Operands {
    pub first: Option<Value>,
    pub second: Option<Value>,
    pub third: Option<Value>,
}

impl Operands {
    /// The value of one operand.
    fn one(first: Option<Value>) -> Operands
        ensures { result ≡ record { first = first; second = None; third = None } }
    {
        Operands {
            first,
            second: None,
            third: None,
        }
    }

    /// The values of two operands.
    fn two(first: Option<Value>, second: Option<Value>) -> Operands
        ensures { result ≡ record { first = first; second = second; third = None } }
    {
        Operands {
            first,
            second,
            third: None,
        }
    }

    /// The values of the first arguments.
    fn of_call(arguments: &[Expr], frame: &Frame) -> Operands
        ensures { result ≡ operations.of_call (values_of frame.now) arguments.now }
    {
        Operands {
            first: nth_value(arguments, 0, frame),
            second: nth_value(arguments, 1, frame),
            third: nth_value(arguments, 2, frame),
        }
    }
}

/// The token after an expression that begins at this one.
#[cycle(past)]
pub(crate) fn past(expr: &Expr, first: usize) -> usize
    ensures { result ≡ spec.past expr.now first }
{
    match expr {
        Expr::Whole(_) | Expr::Truth(_) | Expr::Variable(_) => next(first),
        Expr::Group(inner) => next(past(inner.get(), next(first))),
        Expr::Unary(_, operand) => past(operand.get(), next(first)),
        Expr::Binary(_, left, right) => past(right.get(), next(past(left.get(), first))),
        Expr::Call(_, arguments) => {
            let inside = next(next(first));
            past_call(arguments.as_slice(), inside)
        }
    }
}

/// The token after a call whose arguments begin at this one.
#[cycle(past)]
fn past_call(arguments: &[Expr], first: usize) -> usize
    ensures { result ≡ spec.past_call (map spec.past arguments.now) first }
{
    if arguments.is_empty() {
        next(first)
    } else {
        past_each(arguments, first)
    }
}

/// The token after arguments of which each has a token after it, and the first begins at this one.
#[cycle(past)]
fn past_each(arguments: &[Expr], first: usize) -> usize
    ensures { result ≡ spec.past_each (map spec.past arguments.now) first }
{
    let mut token = first;
    for argument in arguments {
        token = next(past(argument, token));
    }
    token
}

/// The value of an expression, if it has one.
fn value_in(expr: &Expr, frame: &Frame) -> Option<Value>
    ensures { result ≡ operations.value_in (values_of frame.now) expr.now }
{
    match eval(expr, frame) {
        Ok(value) => Some(value),
        Err(_) => None,
    }
}

/// The value of the expression at an index, if there is one, and it has one.
fn nth_value(expressions: &[Expr], index: usize, frame: &Frame) -> Option<Value>
    ensures { result ≡ operations.nth_value (values_of frame.now) expressions.now index }
{
    match expressions.get(index) {
        Some(expr) => value_in(expr, frame),
        None => None,
    }
}

/// Whether an expression has a value.
fn has_value(expr: &Expr, frame: &Frame) -> bool
    ensures has { result ≡ true → HasValue (values_of frame.now) expr.now }
    ensures none { result ≡ false → HasNoValue (values_of frame.now) expr.now }
{
    match eval(expr, frame) {
        Ok(_) => true,
        Err(_) => false,
    }
}

/// Whether an expression has no value for this reason.
fn fails(expr: &Expr, frame: &Frame, reason: Reason) -> bool
    ensures without { result ≡ true → IsWithout (values_of frame.now) reason expr.now }
    ensures otherwise { result ≡ false → IsOtherwise (values_of frame.now) reason expr.now }
{
    match eval(expr, frame) {
        Ok(_) => false,
        Err(found) => found == reason,
    }
}

/// The index of the first argument that has no value.
fn first_without(arguments: &[Expr], frame: &Frame) -> Option<usize>
    ensures some { IfSome result (IsFirstWithout (values_of frame.now) arguments.now) }
    ensures none { IfNone result (AllHaveValues (values_of frame.now) arguments.now) }
    ensures within { IfSome result (λ k. k < length arguments.now) }
{
    for (index, argument) in arguments.iter().enumerate() {
        if !has_value(argument, frame) {
            return Some(index);
        }
    }
    None
}

/// The operation at which a call has no value for this reason. The call begins at this token, and ends before that one.
#[cycle(operation)]
fn operation_in_call(
    arguments: &[Expr],
    frame: &Frame,
    first: usize,
    end: usize,
    reason: Reason,
) -> Option<Operation>
    ensures found { IfSome result (IsOfCall (values_of frame.now) reason arguments.now first end) }
    ensures none { IfNone result (IsCallOtherwise (values_of frame.now) reason arguments.now) }
{
    match first_without(arguments, frame) {
        Some(index) => {
            let from = past_each(&arguments[..index], next(next(first)));
            operation_in(&arguments[index], frame, from, reason)
        }
        None => Some(Operation {
            first,
            operator: first,
            end,
            operands: Operands::of_call(arguments, frame),
        }),
    }
}

/// The operation at which an expression has no value for this reason: its operands have values, and what is evaluated
/// before it has them too. The expression begins at this token. `None` if it has a value, or none for another reason.
#[cycle(operation)]
pub fn operation_in(expr: &Expr, frame: &Frame, first: usize, reason: Reason) -> Option<Operation>
    ensures found { IfSome result (FaultIn (values_of frame.now) reason expr.now first) }
    ensures none { IfNone result (IsOtherwise (values_of frame.now) reason expr.now) }
{
    if !fails(expr, frame, reason) {
        return None;
    }
    let end = past(expr, first);
    match expr {
        Expr::Whole(_) | Expr::Truth(_) | Expr::Variable(_) => None,
        Expr::Group(inner) => operation_in(inner.get(), frame, next(first), reason),
        Expr::Unary(_, operand) => {
            if !has_value(operand.get(), frame) {
                return operation_in(operand.get(), frame, next(first), reason);
            }
            Some(Operation {
                first,
                operator: first,
                end,
                operands: Operands::one(value_in(operand.get(), frame)),
            })
        }
        Expr::Binary(_, left, right) => {
            let operator = past(left.get(), first);
            if !has_value(left.get(), frame) {
                return operation_in(left.get(), frame, first, reason);
            }
            if !has_value(right.get(), frame) {
                return operation_in(right.get(), frame, next(operator), reason);
            }
            let (before, after) = (value_in(left.get(), frame), value_in(right.get(), frame));
            Some(Operation {
                first,
                operator,
                end,
                operands: Operands::two(before, after),
            })
        }
        Expr::Call(_, arguments) => {
            operation_in_call(arguments.as_slice(), frame, first, end, reason)
        }
    }
}

/// An expression with the values of its operands: an operation or a call, or a literal or a variable, which has none. Of
/// an expression in parentheses it is the one inside. The expression begins at this token.
pub(crate) fn outermost(expr: &Expr, frame: &Frame, first: usize) -> Operation
    ensures { IsOutermost (values_of frame.now) expr.now first result }
{
    let end = past(expr, first);
    match expr {
        Expr::Whole(_) | Expr::Truth(_) | Expr::Variable(_) => Operation {
            first,
            operator: first,
            end,
            operands: Operands::one(None),
        },
        Expr::Group(inner) => outermost(inner.get(), frame, next(first)),
        Expr::Unary(_, operand) => Operation {
            first,
            operator: first,
            end,
            operands: Operands::one(value_in(operand.get(), frame)),
        },
        Expr::Binary(_, left, right) => Operation {
            first,
            operator: past(left.get(), first),
            end,
            operands: Operands::two(value_in(left.get(), frame), value_in(right.get(), frame)),
        },
        Expr::Call(_, arguments) => Operation {
            first,
            operator: first,
            end,
            operands: Operands::of_call(arguments.as_slice(), frame),
        },
    }
}
