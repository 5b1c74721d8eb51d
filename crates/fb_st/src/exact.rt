//! Evaluates compiled expressions with numbers of 128 bits, or to the first reason. All operands are evaluated, from
//! left to right.

ghost use Rattle.std.specs.Prelude.{◌≡◌, ◌<◌, ◌&&◌, nat_lt, true, not, length, Ok, neg_ℤ};
ghost use Rattle.std.specs.Int.{int_min, int_max};
ghost use Rattle.fb_types.specs.Values.{absolute, and_then, judged};
ghost use Rattle.fb_st.specs.Required.{wholes};
ghost use Rattle.fb_st.specs.Compiled.{number_said, truth_said, number_at, truth_at, fits_number, fits_truth, with_two, two_numbers, two_compared, two_truths, chosen, compared_by, joined_by, word_at, unsigned_of};

use crate::compiled::{NumberExpr, TruthExpr};
use crate::operator::{negated, number_of_two};
use crate::short::word;
use fb_types::{BinaryOperator, Reason};

/// The number of a word of type ULINT.
pub(crate) fn unsigned(word: i64) -> i128
    ensures { result ≡ unsigned_of word }
{
    let number = i128::from(word);
    if word < 0 {
        number + 18_446_744_073_709_551_616
    } else {
        number
    }
}

/// An operator between the words of two slots.
fn of_slots(operator: BinaryOperator, words: &[i64], i: usize, j: usize) -> Result<i128, Reason>
    requires { (nat_lt i (length words.now) && nat_lt j (length words.now)) ≡ true }
    ensures { result ≡ two_numbers operator (Ok (word_at words.now i)) (Ok (word_at words.now j)) }
{
    let x = i128::from(word(words, i));
    let y = i128::from(word(words, j));
    number_of_two(operator, x, y)
}

/// An operator between the word of a slot and a number.
fn of_slot(operator: BinaryOperator, words: &[i64], i: usize, y: i128) -> Result<i128, Reason>
    requires { i < length words.now }
    ensures { result ≡ two_numbers operator (Ok (word_at words.now i)) (Ok y) }
{
    number_of_two(operator, i128::from(word(words, i)), y)
}

// What follows takes results and not values, so that `number` and `truth`, which have many ways, need no way for each
// reason.

/// An operator between the word of a slot and a result, or the reason of that.
#[inline(always)]
fn of_nested(
    operator: BinaryOperator,
    words: &[i64],
    i: usize,
    right: Result<i128, Reason>,
) -> Result<i128, Reason>
    requires { i < length words.now }
    ensures { result ≡ two_numbers operator (Ok (word_at words.now i)) right }
{
    let y = right?;
    of_slot(operator, words, i, y)
}

/// An operator between two results, or the first reason.
#[inline(always)]
fn of_two(
    operator: BinaryOperator,
    left: Result<i128, Reason>,
    right: Result<i128, Reason>,
) -> Result<i128, Reason>
    ensures { result ≡ two_numbers operator left right }
{
    let x = left?;
    let y = right?;
    number_of_two(operator, x, y)
}

/// Unary minus of a result.
#[inline(always)]
fn negate(inner: Result<i128, Reason>) -> Result<i128, Reason>
    ensures { result ≡ and_then inner (λ x. wholes (judged (neg_ℤ x))) }
{
    let x = inner?;
    negated(x)
}

/// A number without its sign.
fn magnitude(x: i128) -> Result<i128, Reason>
    ensures { result ≡ wholes (judged (absolute x)) }
{
    if x < 0 { negated(x) } else { Ok(x) }
}

/// A result without its sign.
#[inline(always)]
fn magnitude_of(inner: Result<i128, Reason>) -> Result<i128, Reason>
    ensures { result ≡ and_then inner (λ x. wholes (judged (absolute x))) }
{
    let x = inner?;
    magnitude(x)
}

/// The lesser of two results, or the first reason.
#[inline(always)]
fn lesser(left: Result<i128, Reason>, right: Result<i128, Reason>) -> Result<i128, Reason>
    ensures { result ≡ with_two (λ x y. Ok (int_min x y)) left right }
{
    let x = left?;
    let y = right?;
    Ok(x.min(y))
}

/// The greater of two results, or the first reason.
#[inline(always)]
fn greater(left: Result<i128, Reason>, right: Result<i128, Reason>) -> Result<i128, Reason>
    ensures { result ≡ with_two (λ x y. Ok (int_max x y)) left right }
{
    let x = left?;
    let y = right?;
    Ok(x.max(y))
}

/// A result between the least and the most, or the first reason.
#[inline(always)]
fn limit_number(
    least: Result<i128, Reason>,
    inner: Result<i128, Reason>,
    most: Result<i128, Reason>,
) -> Result<i128, Reason>
    ensures { result ≡ and_then least (λ low. with_two (λ x high. Ok (int_min (int_max x low) high)) inner most) }
{
    let low = least?;
    let x = inner?;
    let high = most?;
    Ok(x.max(low).min(high))
}

/// The left result at FALSE and the right one at TRUE, or the first reason of the three.
#[inline(always)]
fn pick_number(
    condition: Result<bool, Reason>,
    left: Result<i128, Reason>,
    right: Result<i128, Reason>,
) -> Result<i128, Reason>
    ensures { result ≡ chosen condition left right }
{
    let is_true = condition?;
    let x = left?;
    let y = right?;
    Ok(if is_true { y } else { x })
}

/// The number of an expression, or the first reason that it meets.
#[cycle(exact)]
pub(crate) fn number(expr: &NumberExpr, words: &[i64]) -> Result<i128, Reason>
    requires { fits_number (length words.now) (number_said expr.now) ≡ true }
    ensures { result ≡ number_at (number_said expr.now) words.now }
{
    match expr {
        NumberExpr::Constant(number) => Ok(i128::from(*number)),
        NumberExpr::Wide(number) => Ok(*number.get()),
        NumberExpr::Slot(i) => Ok(i128::from(word(words, *i))),
        NumberExpr::UnsignedSlot(i) => Ok(unsigned(word(words, *i))),
        NumberExpr::AddSlots(i, j) => of_slots(BinaryOperator::Add, words, *i, *j),
        NumberExpr::AddConstant(i, number) => {
            of_slot(BinaryOperator::Add, words, *i, i128::from(*number))
        }
        NumberExpr::AddNested(i, right) => {
            of_nested(BinaryOperator::Add, words, *i, number(right.get(), words))
        }
        NumberExpr::AddToNested(left, i) => of_two(
            BinaryOperator::Add,
            number(left.get(), words),
            Ok(i128::from(word(words, *i))),
        ),
        NumberExpr::SubtractSlots(i, j) => of_slots(BinaryOperator::Subtract, words, *i, *j),
        NumberExpr::SubtractConstant(i, number) => {
            of_slot(BinaryOperator::Subtract, words, *i, i128::from(*number))
        }
        NumberExpr::SubtractNested(i, right) => {
            of_nested(
                BinaryOperator::Subtract,
                words,
                *i,
                number(right.get(), words),
            )
        }
        NumberExpr::MultiplySlots(i, j) => of_slots(BinaryOperator::Multiply, words, *i, *j),
        NumberExpr::MultiplyConstant(i, number) => {
            of_slot(BinaryOperator::Multiply, words, *i, i128::from(*number))
        }
        NumberExpr::MultiplyNested(i, right) => {
            of_nested(
                BinaryOperator::Multiply,
                words,
                *i,
                number(right.get(), words),
            )
        }
        NumberExpr::DivideSlots(i, j) => of_slots(BinaryOperator::Divide, words, *i, *j),
        NumberExpr::DivideConstant(i, number) => {
            of_slot(BinaryOperator::Divide, words, *i, i128::from(*number))
        }
        NumberExpr::DivideNested(i, right) => {
            of_nested(
                BinaryOperator::Divide,
                words,
                *i,
                number(right.get(), words),
            )
        }
        NumberExpr::ModuloSlots(i, j) => of_slots(BinaryOperator::Modulo, words, *i, *j),
        NumberExpr::ModuloConstant(i, number) => {
            of_slot(BinaryOperator::Modulo, words, *i, i128::from(*number))
        }
        NumberExpr::ModuloNested(i, right) => {
            of_nested(
                BinaryOperator::Modulo,
                words,
                *i,
                number(right.get(), words),
            )
        }
        NumberExpr::Binary(operator, left, right) => of_two(
            *operator,
            number(left.get(), words),
            number(right.get(), words),
        ),
        NumberExpr::Negated(inner) => negate(number(inner.get(), words)),
        NumberExpr::Magnitude(inner) => magnitude_of(number(inner.get(), words)),
        NumberExpr::Lesser(left, right) => {
            lesser(number(left.get(), words), number(right.get(), words))
        }
        NumberExpr::Greater(left, right) => {
            greater(number(left.get(), words), number(right.get(), words))
        }
        NumberExpr::Limited(least, inner, most) => limit_number(
            number(least.get(), words),
            number(inner.get(), words),
            number(most.get(), words),
        ),
        NumberExpr::Chosen(condition, left, right) => pick_number(
            truth(condition.get(), words),
            number(left.get(), words),
            number(right.get(), words),
        ),
    }
}

/// Whether a comparison of two numbers is true.
fn compare_numbers(operator: BinaryOperator, x: i128, y: i128) -> bool
    ensures { result ≡ compared_by operator x y }
{
    match operator {
        BinaryOperator::Equal => x == y,
        BinaryOperator::NotEqual => x != y,
        BinaryOperator::Less => x < y,
        BinaryOperator::Greater => y < x,
        BinaryOperator::LessOrEqual => x <= y,
        BinaryOperator::GreaterOrEqual => y <= x,
        _ => false,
    }
}

/// Two truth values, joined.
fn of_truths(operator: BinaryOperator, a: bool, b: bool) -> bool
    ensures { result ≡ joined_by operator a b }
{
    match operator {
        BinaryOperator::Or => a || b,
        BinaryOperator::And => a && b,
        BinaryOperator::Equal => a == b,
        BinaryOperator::Xor | BinaryOperator::NotEqual => a != b,
        _ => false,
    }
}

/// A comparison of two results, or the first reason.
#[inline(always)]
fn results_compared(
    operator: BinaryOperator,
    left: Result<i128, Reason>,
    right: Result<i128, Reason>,
) -> Result<bool, Reason>
    ensures { result ≡ two_compared operator left right }
{
    let x = left?;
    let y = right?;
    Ok(compare_numbers(operator, x, y))
}

/// Two truth values, joined, or the first reason.
#[inline(always)]
fn combine_truths(
    operator: BinaryOperator,
    left: Result<bool, Reason>,
    right: Result<bool, Reason>,
) -> Result<bool, Reason>
    ensures { result ≡ two_truths operator left right }
{
    let a = left?;
    let b = right?;
    Ok(of_truths(operator, a, b))
}

/// The other truth value.
#[inline(always)]
fn invert(inner: Result<bool, Reason>) -> Result<bool, Reason>
    ensures { result ≡ and_then inner (λ b. Ok (not b)) }
{
    let is_true = inner?;
    Ok(!is_true)
}

/// The left truth value at FALSE and the right one at TRUE, or the first reason of the three.
#[inline(always)]
fn pick_truth(
    condition: Result<bool, Reason>,
    left: Result<bool, Reason>,
    right: Result<bool, Reason>,
) -> Result<bool, Reason>
    ensures { result ≡ chosen condition left right }
{
    let is_true = condition?;
    let a = left?;
    let b = right?;
    Ok(if is_true { b } else { a })
}

/// The truth value of an expression, or the first reason that it meets.
#[cycle(exact)]
pub(crate) fn truth(expr: &TruthExpr, words: &[i64]) -> Result<bool, Reason>
    requires { fits_truth (length words.now) (truth_said expr.now) ≡ true }
    ensures { result ≡ truth_at (truth_said expr.now) words.now }
{
    match expr {
        TruthExpr::Known(truth) => Ok(*truth),
        TruthExpr::Flag(i) => Ok(word(words, *i) != 0),
        TruthExpr::EqualSlots(i, j) => slots_compared(BinaryOperator::Equal, words, *i, *j),
        TruthExpr::EqualConstant(i, number) => {
            slot_compared(BinaryOperator::Equal, words, *i, *number)
        }
        TruthExpr::NotEqualSlots(i, j) => slots_compared(BinaryOperator::NotEqual, words, *i, *j),
        TruthExpr::NotEqualConstant(i, number) => {
            slot_compared(BinaryOperator::NotEqual, words, *i, *number)
        }
        TruthExpr::LessSlots(i, j) => slots_compared(BinaryOperator::Less, words, *i, *j),
        TruthExpr::LessConstant(i, number) => {
            slot_compared(BinaryOperator::Less, words, *i, *number)
        }
        TruthExpr::GreaterSlots(i, j) => slots_compared(BinaryOperator::Greater, words, *i, *j),
        TruthExpr::GreaterConstant(i, number) => {
            slot_compared(BinaryOperator::Greater, words, *i, *number)
        }
        TruthExpr::LessOrEqualSlots(i, j) => slots_compared(
            BinaryOperator::LessOrEqual,
            words,
            *i,
            *j,
        ),
        TruthExpr::LessOrEqualConstant(i, number) => {
            slot_compared(BinaryOperator::LessOrEqual, words, *i, *number)
        }
        TruthExpr::GreaterOrEqualSlots(i, j) => slots_compared(
            BinaryOperator::GreaterOrEqual,
            words,
            *i,
            *j,
        ),
        TruthExpr::GreaterOrEqualConstant(i, number) => {
            slot_compared(BinaryOperator::GreaterOrEqual, words, *i, *number)
        }
        TruthExpr::Both(left, right) => combine_truths(
            BinaryOperator::And,
            truth(left.get(), words),
            truth(right.get(), words),
        ),
        TruthExpr::Joined(operator, left, right) => combine_truths(
            *operator,
            truth(left.get(), words),
            truth(right.get(), words),
        ),
        TruthExpr::Compared(operator, left, right) => results_compared(
            *operator,
            number(left.get(), words),
            number(right.get(), words),
        ),
        TruthExpr::Not(inner) => invert(truth(inner.get(), words)),
        TruthExpr::Picked(condition, left, right) => pick_truth(
            truth(condition.get(), words),
            truth(left.get(), words),
            truth(right.get(), words),
        ),
    }
}

/// A comparison of the words of two slots.
fn slots_compared(
    operator: BinaryOperator,
    words: &[i64],
    i: usize,
    j: usize,
) -> Result<bool, Reason>
    requires { (nat_lt i (length words.now) && nat_lt j (length words.now)) ≡ true }
    ensures { result ≡ Ok (compared_by operator (word_at words.now i) (word_at words.now j)) }
{
    let x = i128::from(word(words, i));
    let y = i128::from(word(words, j));
    Ok(compare_numbers(operator, x, y))
}

/// A comparison of the word of a slot and a number.
fn slot_compared(
    operator: BinaryOperator,
    words: &[i64],
    i: usize,
    number: i64,
) -> Result<bool, Reason>
    requires { i < length words.now }
    ensures { result ≡ Ok (compared_by operator (word_at words.now i) number) }
{
    let x = i128::from(word(words, i));
    Ok(compare_numbers(operator, x, i128::from(number)))
}
