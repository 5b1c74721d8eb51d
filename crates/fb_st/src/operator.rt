//! Operators (IEC 61131-3, 7.3.2). Whole numbers are exact: a result outside 128 bits is a reason.

ghost use Rattle.std.specs.Prelude.{◌≡◌, false, ◌+ℤ◌, ◌-ℤ◌, ◌*ℤ◌, neg_ℤ, int_div, int_rem, IfSome};
ghost use Rattle.fb_types.specs.Values.{and_then, judged, bool_result, whole, truth, unary_value, binary_value, same_value, quotient, modulus};
ghost use Rattle.fb_st.specs.Required.{wholes, as_whole, gives_number};

use fb_types::{BinaryOperator, Reason, UnaryOperator, Value};

/// The whole number that a value is. A truth value, which no accepted text has here, counts as 0.
#[inline(always)]
pub fn whole_of(value: Value) -> i128
    ensures { result ≡ whole value }
{
    match value {
        Value::Bool(_) => 0,
        Value::Whole(number) => number,
    }
}

/// The truth value that a value is. A whole number, which no accepted text has here, counts as FALSE.
#[inline(always)]
pub fn truth_value(value: Value) -> bool
    ensures { result ≡ truth value }
{
    match value {
        Value::Bool(truth) => truth,
        Value::Whole(_) => false,
    }
}

#[inline(always)]
fn sum(x: i128, y: i128) -> Result<i128, Reason>
    ensures { result ≡ wholes (judged (x +ℤ y)) }
{
    match x.checked_add(y) {
        Some(z) => Ok(z),
        None => Err(Reason::Range),
    }
}

#[inline(always)]
fn difference(x: i128, y: i128) -> Result<i128, Reason>
    ensures { result ≡ wholes (judged (x -ℤ y)) }
{
    match x.checked_sub(y) {
        Some(z) => Ok(z),
        None => Err(Reason::Range),
    }
}

fn product(x: i128, y: i128) -> Result<i128, Reason>
    ensures { result ≡ wholes (judged (x *ℤ y)) }
{
    match x.checked_mul(y) {
        Some(z) => Ok(z),
        None => Err(Reason::Range),
    }
}

/// The quotient of two numbers of 64 bits, which takes no call.
#[inline(always)]
fn divided_at_once(x: i128, y: i128) -> Option<i128>
    ensures { IfSome result (λ z. z ≡ int_div x y) }
{
    match (i64::try_from(x), i64::try_from(y)) {
        (Ok(a), Ok(b)) => Some(i128::from(a.checked_div(b)?)),
        _ => None,
    }
}

/// The remainder of two numbers of 64 bits, which takes no call.
#[inline(always)]
fn remainder_at_once(x: i128, y: i128) -> Option<i128>
    ensures { IfSome result (λ z. z ≡ int_rem x y) }
{
    match (i64::try_from(x), i64::try_from(y)) {
        (Ok(a), Ok(b)) => Some(i128::from(a.checked_rem(b)?)),
        _ => None,
    }
}

/// `/`, which cuts toward zero.
#[inline(always)]
fn divide(x: i128, y: i128) -> Result<i128, Reason>
    ensures { result ≡ wholes (quotient x y) }
{
    if y == 0 {
        return Err(Reason::Divide);
    }
    if let Some(z) = divided_at_once(x, y) {
        return Ok(z);
    }
    match x.checked_div(y) {
        Some(z) => Ok(z),
        None => Err(Reason::Range),
    }
}

/// MOD, which is 0 where the divisor is 0.
#[inline(always)]
fn remainder(x: i128, y: i128) -> Result<i128, Reason>
    ensures { result ≡ wholes (modulus x y) }
{
    if y == 0 {
        return Ok(0);
    }
    if let Some(z) = remainder_at_once(x, y) {
        return Ok(z);
    }
    match x.checked_rem(y) {
        Some(z) => Ok(z),
        // -2^127 MOD -1: the quotient is out of range, and the remainder is not
        None => Ok(0),
    }
}

/// Unary minus.
#[inline(always)]
pub fn negated(x: i128) -> Result<i128, Reason>
    ensures { result ≡ wholes (judged (neg_ℤ x)) }
{
    match x.checked_neg() {
        Some(z) => Ok(z),
        None => Err(Reason::Range),
    }
}

#[inline(always)]
pub fn are_same(left: Value, right: Value) -> bool
    ensures { result ≡ same_value left right }
{
    match (left, right) {
        (Value::Bool(a), Value::Bool(b)) => a == b,
        (Value::Whole(x), Value::Whole(y)) => x == y,
        _ => false,
    }
}

/// The whole number that an operator gives at two. One that gives a truth value counts as 0.
#[inline(always)]
pub fn number_of_two(operator: BinaryOperator, x: i128, y: i128) -> Result<i128, Reason>
    ensures { result ≡ wholes (binary_value operator (Value.Whole x) (Value.Whole y)) }
{
    match operator {
        BinaryOperator::Add => sum(x, y),
        BinaryOperator::Subtract => difference(x, y),
        BinaryOperator::Multiply => product(x, y),
        BinaryOperator::Divide => divide(x, y),
        BinaryOperator::Modulo => remainder(x, y),
        _ => Ok(0),
    }
}

/// Whether an operator gives a number.
pub fn is_arithmetic(operator: BinaryOperator) -> bool
    ensures { result ≡ gives_number operator }
{
    matches!(
        operator,
        BinaryOperator::Add
            | BinaryOperator::Subtract
            | BinaryOperator::Multiply
            | BinaryOperator::Divide
            | BinaryOperator::Modulo
    )
}

/// The truth value that an operator gives at two values, where it does not give a number.
fn truth_of_two(operator: BinaryOperator, left: Value, right: Value) -> bool
    ensures { gives_number operator ≡ false → binary_value operator left right ≡ bool_result result }
{
    match operator {
        BinaryOperator::Or => truth_value(left) || truth_value(right),
        BinaryOperator::Xor => truth_value(left) != truth_value(right),
        BinaryOperator::And => truth_value(left) && truth_value(right),
        BinaryOperator::Equal => are_same(left, right),
        BinaryOperator::NotEqual => !are_same(left, right),
        BinaryOperator::Less => whole_of(left) < whole_of(right),
        BinaryOperator::Greater => whole_of(right) < whole_of(left),
        BinaryOperator::LessOrEqual => whole_of(left) <= whole_of(right),
        BinaryOperator::GreaterOrEqual => whole_of(right) <= whole_of(left),
        BinaryOperator::Add
        | BinaryOperator::Subtract
        | BinaryOperator::Multiply
        | BinaryOperator::Divide
        | BinaryOperator::Modulo => false,
    }
}

/// The value that a number is, or the reason why there is none.
fn whole_value(number: Result<i128, Reason>) -> Result<Value, Reason>
    ensures { result ≡ as_whole number }
{
    Ok(Value::Whole(number?))
}

/// The value of a unary operator at an operand, or the reason of the operand.
pub fn unary(operator: UnaryOperator, operand: Result<Value, Reason>) -> Result<Value, Reason>
    ensures { result ≡ and_then operand (unary_value operator) }
{
    let value = operand?;
    match operator {
        UnaryOperator::Negate => whole_value(negated(whole_of(value))),
        UnaryOperator::Not => Ok(Value::Bool(!truth_value(value))),
    }
}

/// The value of a binary operator at two operands, or the first reason.
pub fn binary(
    operator: BinaryOperator,
    left: Result<Value, Reason>,
    right: Result<Value, Reason>,
) -> Result<Value, Reason>
    ensures { result ≡ and_then left (λ v. and_then right (λ w. binary_value operator v w)) }
{
    let first = left?;
    let second = right?;
    if is_arithmetic(operator) {
        return whole_value(number_of_two(operator, whole_of(first), whole_of(second)));
    }
    Ok(Value::Bool(truth_of_two(operator, first, second)))
}
