//! Whether some value meets all conditions of a pattern on a variable.

ghost use Rattle.std.specs.Prelude.{◌≡◌, ◌||◌, ℤ, ◌≤ℤ◌, false, option_map, true};
ghost use Rattle.std.specs.List.{list_all, list_any};
ghost use Rattle.fb_types.specs.Names.{same_name};
ghost use Rattle.fb_types.specs.declared.value.Value.TheVariants as value;
ghost use Rattle.fb_expect.specs.Contradictions as spec;
ghost use Rattle.fb_expect.specs.Patterns.{compares_whole};

use crate::meeting::compares;
use crate::pattern::{Comparison, Condition, Operand};
use fb_types::{Name, Value};

/// Whole numbers, from the least to the most.
#[derive(Clone, Copy)]
pub struct Span {
    least: i128,
    most: i128,
}

/// The numbers that lines can have.
const NUMBERS: Span = Span {
    least: -18_446_744_073_709_551_615,
    most: 18_446_744_073_709_551_615,
};

/// No numbers.
const NOTHING: Span = Span { least: 1, most: 0 };

/// Whether a value compares so with what the variable is compared with, if that is a value or the variable itself.
fn suits_operand(variable: &Name, comparison: Comparison, operand: &Operand, value: Value) -> bool
    ensures { result ≡ spec.suits_operand variable.now comparison operand.now value }
{
    match operand {
        Operand::Value(required) => compares(comparison, value, *required),
        Operand::Variable(other) => !other.is(variable) || compares(comparison, value, value),
    }
}

/// Whether a value of a variable suits a condition.
fn suits(variable: &Name, value: Value, condition: &Condition) -> bool
    ensures { result ≡ spec.suits variable.now value condition.now }
{
    !condition.variable.is(variable)
        || suits_operand(variable, condition.comparison, &condition.operand, value)
}

/// Whether a value of a variable suits all of these conditions.
fn suits_all(variable: &Name, value: Value, conditions: &[Condition]) -> bool
    ensures { result ≡ list_all (spec.suits variable.now value) conditions.now }
{
    for condition in conditions {
        if !suits(variable, value, condition) {
            return false;
        }
    }
    true
}

/// The numbers of a span from a number on.
fn from(span: Span, number: i128) -> Span
    ensures all { (z : ℤ) → spec.IsIn span z → number ≤ℤ z → spec.IsIn result z }
    ensures part { (z : ℤ) → spec.IsIn result z → spec.IsIn span z }
{
    if span.least < number {
        Span {
            least: number,
            most: span.most,
        }
    } else {
        span
    }
}

/// The numbers of a span up to a number.
fn up_to(span: Span, number: i128) -> Span
    ensures all { (z : ℤ) → spec.IsIn span z → z ≤ℤ number → spec.IsIn result z }
    ensures part { (z : ℤ) → spec.IsIn result z → spec.IsIn span z }
{
    if number < span.most {
        Span {
            least: span.least,
            most: number,
        }
    } else {
        span
    }
}

/// The numbers of a span that are a number.
fn only(span: Span, number: i128) -> Span
    ensures all { (z : ℤ) → spec.IsIn span z → number ≤ℤ z → z ≤ℤ number → spec.IsIn result z }
    ensures part { (z : ℤ) → spec.IsIn result z → spec.IsIn span z }
{
    if span.least <= number && number <= span.most {
        Span {
            least: number,
            most: number,
        }
    } else {
        NOTHING
    }
}

/// A part of a span in which all its numbers are that compare so with a number.
fn compared(span: Span, comparison: Comparison, number: i128) -> Span
    ensures all { (z : ℤ) → spec.IsIn span z → compares_whole comparison z number ≡ true → spec.IsIn result z }
    ensures part { (z : ℤ) → spec.IsIn result z → spec.IsIn span z }
{
    match comparison {
        Comparison::Equal => only(span, number),
        Comparison::Unequal => span,
        Comparison::Less | Comparison::AtMost => up_to(span, number),
        Comparison::Greater | Comparison::AtLeast => from(span, number),
    }
}

/// Whether numbers compare so with themselves.
fn is_reflexive(comparison: Comparison) -> bool
    ensures { (z : ℤ) → compares_whole comparison z z ≡ result }
{
    matches!(
        comparison,
        Comparison::Equal | Comparison::AtMost | Comparison::AtLeast
    )
}

/// A part of a span in which all its numbers are that suit a condition.
#[tactic(auto, unfolding(crate::specs::Patterns::compares))]
fn narrowed(span: Span, variable: &Name, condition: &Condition) -> Span
    ensures all { (z : ℤ) → spec.IsIn span z → spec.suits variable.now (value.Whole z) condition.now ≡ true → spec.IsIn result z }
    ensures part { (z : ℤ) → spec.IsIn result z → spec.IsIn span z }
{
    if !condition.variable.is(variable) {
        return span;
    }
    match &condition.operand {
        Operand::Value(Value::Whole(number)) => compared(span, condition.comparison, *number),
        Operand::Value(Value::Bool(_)) => NOTHING,
        Operand::Variable(other) => {
            if other.is(variable) && !is_reflexive(condition.comparison) {
                NOTHING
            } else {
                span
            }
        }
    }
}

/// A part of a span in which all its numbers are that suit all of these conditions.
fn span_of(whole: Span, variable: &Name, conditions: &[Condition]) -> Span
    ensures all { (z : ℤ) → spec.IsIn whole z → list_all (spec.suits variable.now (value.Whole z)) conditions.now ≡ true → spec.IsIn result z }
    ensures part { (z : ℤ) → spec.IsIn result z → spec.IsIn whole z }
{
    let mut span = whole;
    for condition in conditions {
        span = narrowed(span, variable, condition);
    }
    span
}

/// Whether a number of a span suits all of these conditions. Of its numbers only those fail that a condition names.
fn has_number(span: Span, variable: &Name, conditions: &[Condition]) -> bool
    ensures some { result ≡ true → (z : ℤ) × spec.IsIn span z × (list_all (spec.suits variable.now (value.Whole z)) conditions.now ≡ true) }
    ensures none { result ≡ false → (z : ℤ) → spec.IsIn span z → list_all (spec.suits variable.now (value.Whole z)) conditions.now ≡ false }
{
    let mut number = span.least;
    while number < span.most {
        if suits_all(variable, Value::Whole(number), conditions) {
            return true;
        }
        number += 1;
    }
    if number == span.most {
        return suits_all(variable, Value::Whole(number), conditions);
    }
    false
}

/// Whether a number from `least` to `most` suits all of these conditions on a variable.
pub fn has_number_within(least: i128, most: i128, variable: &Name, conditions: &[Condition]) -> bool
    ensures some { result ≡ true → (z : ℤ) × spec.IsIn (record { least = least; most = most }) z × (list_all (spec.suits variable.now (value.Whole z)) conditions.now ≡ true) }
    ensures none { result ≡ false → (z : ℤ) → spec.IsIn (record { least = least; most = most }) z → list_all (spec.suits variable.now (value.Whole z)) conditions.now ≡ false }
{
    let whole = Span { least, most };
    let span = span_of(whole, variable, conditions);
    has_number(span, variable, conditions)
}

/// Whether a truth value suits all of these conditions on a variable.
pub fn has_truth(variable: &Name, conditions: &[Condition]) -> bool
    ensures { result ≡ (list_all (spec.suits variable.now (value.Bool true)) conditions.now || list_all (spec.suits variable.now (value.Bool false)) conditions.now) }
{
    suits_all(variable, Value::Bool(true), conditions)
        || suits_all(variable, Value::Bool(false), conditions)
}

/// Whether some value of a variable suits all of these conditions.
fn has_value(conditions: &[Condition], variable: &Name) -> bool
    ensures { result ≡ spec.has_value conditions.now variable.now }
{
    if has_truth(variable, conditions) {
        return true;
    }
    let span = span_of(NUMBERS, variable, conditions);
    has_number(span, variable, conditions)
}

/// Whether one of these conditions is on a variable.
fn is_on(conditions: &[Condition], variable: &Name) -> bool
    ensures { result ≡ list_any (λ c. same_name c.variable variable.now) conditions.now }
{
    for condition in conditions {
        if condition.variable.is(variable) {
            return true;
        }
    }
    false
}

/// The first condition on a variable of which no value suits all.
pub(crate) fn impossible(conditions: &[Condition]) -> Option<&Condition>
    ensures { option_map (λ c. c.now) result ≡ spec.impossible conditions.now }
{
    for (index, condition) in conditions.iter().enumerate() {
        let variable = &condition.variable;
        // Each variable once, however many conditions are on it.
        if !is_on(&conditions[..index], variable) && !has_value(conditions, variable) {
            return Some(condition);
        }
    }
    None
}
