//! Evaluates compiled expressions whose numbers all fit 64 bits, as most do, in registers. If a number does not fit or
//! there is a reason, the result is `None`, and `exact` evaluates the expression again. Expressions have no effects, so
//! that is allowed.

ghost use Rattle.std.specs.Prelude.{◌≡◌, ◌<◌, true, length, Ok, IfSome};
ghost use Rattle.fb_st.specs.Compiled.{number_said, truth_said, number_at, truth_at, fits_number, fits_truth, two_numbers, compared_by, word_at, unsigned_of, truth_of_word};

use crate::compiled::{NumberExpr, TruthExpr};
use fb_types::BinaryOperator;

/// The word of a slot.
#[inline(always)]
pub(crate) fn word(words: &[i64], slot: usize) -> i64
    requires { slot < length words.now }
    ensures { result ≡ word_at words.now slot }
{
    words[slot]
}

#[inline(always)]
fn sum(x: i64, y: i64) -> Option<i64>
    ensures { IfSome result (λ z. two_numbers BinaryOperator.Add (Ok x) (Ok y) ≡ Ok z) }
{
    x.checked_add(y)
}

#[inline(always)]
fn difference(x: i64, y: i64) -> Option<i64>
    ensures { IfSome result (λ z. two_numbers BinaryOperator.Subtract (Ok x) (Ok y) ≡ Ok z) }
{
    x.checked_sub(y)
}

#[inline(always)]
fn product(x: i64, y: i64) -> Option<i64>
    ensures { IfSome result (λ z. two_numbers BinaryOperator.Multiply (Ok x) (Ok y) ≡ Ok z) }
{
    x.checked_mul(y)
}

/// The divisor is mostly above 0: then there is a quotient.
#[inline(always)]
fn quotient(x: i64, y: i64) -> Option<i64>
    ensures { IfSome result (λ z. two_numbers BinaryOperator.Divide (Ok x) (Ok y) ≡ Ok z) }
{
    if 0 < y { Some(x / y) } else { x.checked_div(y) }
}

#[inline(always)]
fn remainder(x: i64, y: i64) -> Option<i64>
    ensures { IfSome result (λ z. two_numbers BinaryOperator.Modulo (Ok x) (Ok y) ≡ Ok z) }
{
    if 0 < y { Some(x % y) } else { x.checked_rem(y) }
}

/// The result of an operator between two numbers, if it fits.
#[inline(always)]
fn of_two(operator: BinaryOperator, x: i64, y: i64) -> Option<i64>
    ensures { IfSome result (λ z. two_numbers operator (Ok x) (Ok y) ≡ Ok z) }
{
    match operator {
        BinaryOperator::Add => sum(x, y),
        BinaryOperator::Subtract => difference(x, y),
        BinaryOperator::Multiply => product(x, y),
        BinaryOperator::Divide => quotient(x, y),
        BinaryOperator::Modulo => remainder(x, y),
        _ => None,
    }
}

/// Whether a comparison of two numbers is true.
#[inline(always)]
fn is_so(operator: BinaryOperator, x: i64, y: i64) -> bool
    ensures { result ≡ compared_by operator x y }
{
    match operator {
        BinaryOperator::Equal => x == y,
        BinaryOperator::NotEqual => x != y,
        BinaryOperator::Less => x < y,
        BinaryOperator::Greater => y < x,
        BinaryOperator::LessOrEqual => x <= y,
        BinaryOperator::GreaterOrEqual => y <= x,
        _ => false,
    }
}

/// The number of a word of type ULINT, if it fits.
#[inline(always)]
fn unsigned(word: i64) -> Option<i64>
    ensures { IfSome result (λ z. unsigned_of word ≡ z) }
{
    if 0 <= word { Some(word) } else { None }
}

/// The number of any expression. A number, a variable, or an operator between two of these needs no call.
#[cycle(short)]
#[inline(always)]
pub(crate) fn number(expr: &NumberExpr, words: &[i64]) -> Option<i64>
    requires { fits_number (length words.now) (number_said expr.now) ≡ true }
    ensures { IfSome result (λ z. number_at (number_said expr.now) words.now ≡ Ok z) }
{
    match expr {
        NumberExpr::Constant(number) => Some(*number),
        NumberExpr::Slot(i) => Some(word(words, *i)),
        NumberExpr::AddSlots(i, j) => sum(word(words, *i), word(words, *j)),
        NumberExpr::AddConstant(i, number) => sum(word(words, *i), *number),
        NumberExpr::SubtractSlots(i, j) => difference(word(words, *i), word(words, *j)),
        NumberExpr::SubtractConstant(i, number) => difference(word(words, *i), *number),
        NumberExpr::MultiplySlots(i, j) => product(word(words, *i), word(words, *j)),
        NumberExpr::MultiplyConstant(i, number) => product(word(words, *i), *number),
        NumberExpr::DivideSlots(i, j) => quotient(word(words, *i), word(words, *j)),
        NumberExpr::DivideConstant(i, number) => quotient(word(words, *i), *number),
        NumberExpr::ModuloSlots(i, j) => remainder(word(words, *i), word(words, *j)),
        NumberExpr::ModuloConstant(i, number) => remainder(word(words, *i), *number),
        // Not the result as it is: the built program would test it again where it is known.
        _ => Some(any_number(expr, words)?),
    }
}

/// The same as `number`, for all that needs a call.
#[cycle(short)]
#[inline(never)]
fn any_number(expr: &NumberExpr, words: &[i64]) -> Option<i64>
    requires { fits_number (length words.now) (number_said expr.now) ≡ true }
    ensures { IfSome result (λ z. number_at (number_said expr.now) words.now ≡ Ok z) }
{
    match expr {
        NumberExpr::UnsignedSlot(i) => unsigned(word(words, *i)),
        NumberExpr::AddNested(i, right) => {
            let y = number(right.get(), words)?;
            sum(word(words, *i), y)
        }
        NumberExpr::AddToNested(left, i) => {
            let x = number(left.get(), words)?;
            sum(x, word(words, *i))
        }
        NumberExpr::SubtractNested(i, right) => {
            let y = number(right.get(), words)?;
            difference(word(words, *i), y)
        }
        NumberExpr::MultiplyNested(i, right) => {
            let y = number(right.get(), words)?;
            product(word(words, *i), y)
        }
        NumberExpr::DivideNested(i, right) => {
            let y = number(right.get(), words)?;
            quotient(word(words, *i), y)
        }
        NumberExpr::ModuloNested(i, right) => {
            let y = number(right.get(), words)?;
            remainder(word(words, *i), y)
        }
        NumberExpr::Binary(operator, left, right) => {
            let x = number(left.get(), words)?;
            let y = number(right.get(), words)?;
            of_two(*operator, x, y)
        }
        NumberExpr::Lesser(left, right) => {
            let x = number(left.get(), words)?;
            let y = number(right.get(), words)?;
            Some(x.min(y))
        }
        NumberExpr::Greater(left, right) => {
            let x = number(left.get(), words)?;
            let y = number(right.get(), words)?;
            Some(x.max(y))
        }
        NumberExpr::Limited(least, inner, most) => {
            let least = number(least.get(), words)?;
            let x = number(inner.get(), words)?;
            let most = number(most.get(), words)?;
            Some(x.max(least).min(most))
        }
        _ => None,
    }
}

/// The truth value of a variable, of a constant, or of a comparison of variables and numbers.
#[inline(always)]
fn truth_leaf(expr: &TruthExpr, words: &[i64]) -> Option<bool>
    requires { fits_truth (length words.now) (truth_said expr.now) ≡ true }
    ensures { IfSome result (λ b. truth_at (truth_said expr.now) words.now ≡ Ok b) }
{
    match expr {
        TruthExpr::Known(truth) => Some(*truth),
        TruthExpr::Flag(i) => Some(word(words, *i) != 0),
        TruthExpr::EqualSlots(i, j) => Some(word(words, *i) == word(words, *j)),
        TruthExpr::EqualConstant(i, number) => Some(word(words, *i) == *number),
        TruthExpr::NotEqualSlots(i, j) => Some(word(words, *i) != word(words, *j)),
        TruthExpr::NotEqualConstant(i, number) => Some(word(words, *i) != *number),
        TruthExpr::LessSlots(i, j) => Some(word(words, *i) < word(words, *j)),
        TruthExpr::LessConstant(i, number) => Some(word(words, *i) < *number),
        TruthExpr::GreaterSlots(i, j) => Some(word(words, *j) < word(words, *i)),
        TruthExpr::GreaterConstant(i, number) => Some(*number < word(words, *i)),
        TruthExpr::LessOrEqualSlots(i, j) => Some(word(words, *i) <= word(words, *j)),
        TruthExpr::LessOrEqualConstant(i, number) => Some(word(words, *i) <= *number),
        TruthExpr::GreaterOrEqualSlots(i, j) => Some(word(words, *j) <= word(words, *i)),
        TruthExpr::GreaterOrEqualConstant(i, number) => Some(*number <= word(words, *i)),
        _ => None,
    }
}

/// The truth value of any expression. One of variables and numbers needs no call.
#[cycle(short_truth)]
#[inline(always)]
pub(crate) fn truth(expr: &TruthExpr, words: &[i64]) -> Option<bool>
    requires { fits_truth (length words.now) (truth_said expr.now) ≡ true }
    ensures { IfSome result (λ b. truth_at (truth_said expr.now) words.now ≡ Ok b) }
{
    match truth_leaf(expr, words) {
        Some(truth) => Some(truth),
        // Not the result as it is: the built program would test it again for a leaf.
        None => Some(any_truth(expr, words)?),
    }
}

/// The same as `truth`, for what is no leaf.
#[cycle(short_truth)]
#[inline(never)]
fn any_truth(expr: &TruthExpr, words: &[i64]) -> Option<bool>
    requires { fits_truth (length words.now) (truth_said expr.now) ≡ true }
    ensures { IfSome result (λ b. truth_at (truth_said expr.now) words.now ≡ Ok b) }
{
    match expr {
        TruthExpr::Both(left, right) => {
            let a = truth(left.get(), words)?;
            let b = truth(right.get(), words)?;
            Some(a && b)
        }
        TruthExpr::Joined(BinaryOperator::Or, left, right) => {
            let a = truth(left.get(), words)?;
            let b = truth(right.get(), words)?;
            Some(a || b)
        }
        TruthExpr::Not(inner) => Some(!truth(inner.get(), words)?),
        TruthExpr::Compared(operator, left, right) => {
            let x = number(left.get(), words)?;
            let y = number(right.get(), words)?;
            Some(is_so(*operator, x, y))
        }
        _ => None,
    }
}
