//! Whether a line meets a pattern.

ghost use Rattle.std.specs.Prelude.{◌≡◌, ◌≢◌, ◌↔◌, IsTrue, true, false, take, length, nat_eq};
ghost use Rattle.std.specs.List.{list_all, list_any, slice_split};
ghost use Rattle.fb_expect.specs.Events.{event_of};
ghost use Rattle.fb_expect.specs.Patterns as spec;

use crate::entry::Entry;
use crate::number::value_of;
use crate::pattern::{Comparison, Condition, Operand, Pattern, Way};
use crate::port_pattern::{PortForm, PortPattern};
use crate::stars::has_form;
use crate::words::{after_blank, split_at_mark};
use fb_types::{Name, Value};

fn compares_truth(comparison: Comparison, found: bool, required: bool) -> bool
    ensures { result ≡ spec.compares_truth comparison found required }
{
    match comparison {
        Comparison::Equal => found == required,
        Comparison::Unequal => found != required,
        _ => false,
    }
}

fn compares_whole(comparison: Comparison, found: i128, required: i128) -> bool
    ensures { result ≡ spec.compares_whole comparison found required }
{
    match comparison {
        Comparison::Equal => found == required,
        Comparison::Unequal => found != required,
        Comparison::Less => found < required,
        Comparison::AtMost => found <= required,
        Comparison::Greater => found > required,
        Comparison::AtLeast => found >= required,
    }
}

/// Whether a value compares so with the given one. Values of two kinds do not.
#[tactic(auto, unfolding(crate::specs::Patterns::compares))]
pub(crate) fn compares(comparison: Comparison, found: Value, required: Value) -> bool
    ensures { result ≡ spec.compares comparison found required }
{
    match (found, required) {
        (Value::Bool(found), Value::Bool(required)) => compares_truth(comparison, found, required),
        (Value::Whole(found), Value::Whole(required)) => compares_whole(
            comparison, found, required,
        ),
        _ => false,
    }
}

/// Whether both are truth values, or both numbers.
fn is_alike(found: Value, required: Value) -> bool
    ensures { result ≡ spec.is_alike found required }
{
    matches!(
        (found, required),
        (Value::Bool(_), Value::Bool(_)) | (Value::Whole(_), Value::Whole(_))
    )
}

/// What a line must have for a condition.
#[derive(Clone, Copy)]
pub enum Demand {
    /// Its variables.
    Named,
    /// Values of the kinds that it compares.
    Fitting,
    /// Values for which the comparison holds.
    Met,
}

/// The value of a word `VAR=value`, if it is of a variable.
#[tactic(auto, unfolding(crate::specs::Patterns::value_in))]
fn value_in(name: &Name, word: &[u8]) -> Option<Value>
    ensures { result ≡ spec.value_in name.now word.now }
{
    let (found, text) = split_at_mark(word, b'=')?;
    if found == name.as_bytes() {
        value_of(text)
    } else {
        None
    }
}

/// Whether two values are as a demand asks for, where names are there.
fn are_as(demand: Demand, comparison: Comparison, found: Value, required: Value) -> bool
    ensures { result ≡ spec.are_as demand comparison found required }
{
    match demand {
        Demand::Named => true,
        Demand::Fitting => is_alike(found, required),
        Demand::Met => compares(comparison, found, required),
    }
}

/// Whether a word has a value of a variable that is as a demand asks for beside another one.
fn is_other(name: &Name, demand: Demand, comparison: Comparison, found: Value, word: &[u8]) -> bool
    ensures { result ≡ spec.is_value_of name.now (λ other. spec.are_as demand comparison found other) word.now }
{
    match value_in(name, word) {
        Some(other) => are_as(demand, comparison, found, other),
        None => false,
    }
}

/// Whether one of these words has a value of a variable that is as a demand asks for beside another one.
fn has_other(
    name: &Name,
    demand: Demand,
    comparison: Comparison,
    found: Value,
    words: &[u8],
) -> bool
    ensures { result ≡ spec.has_value name.now (λ other. spec.are_as demand comparison found other) (slice_split (nat_eq 32) words.now) }
{
    let mut rest = words;
    while let Some((word, after)) = split_at_mark(rest, b' ') {
        if is_other(name, demand, comparison, found, word) {
            return true;
        }
        rest = after;
    }
    is_other(name, demand, comparison, found, rest)
}

/// Whether a value of the variable of a condition is as a demand asks for, in a line with these words.
fn is_right(condition: &Condition, demand: Demand, found: Value, words: &[u8]) -> bool
    ensures { result ≡ spec.is_right_for condition.now demand (slice_split (nat_eq 32) words.now) found }
{
    match &condition.operand {
        Operand::Value(required) => are_as(demand, condition.comparison, found, *required),
        Operand::Variable(name) => has_other(name, demand, condition.comparison, found, words),
    }
}

/// Whether a word `VAR=value` of a line with these words has what a demand asks for of a condition.
fn is_found_by(condition: &Condition, demand: Demand, word: &[u8], words: &[u8]) -> bool
    ensures { result ≡ spec.is_value_of condition.now.variable (spec.is_right_for condition.now demand (slice_split (nat_eq 32) words.now)) word.now }
{
    match value_in(&condition.variable, word) {
        Some(value) => is_right(condition, demand, value, words),
        None => false,
    }
}

/// Whether a line has what a demand asks for of a condition.
fn is_found(condition: &Condition, demand: Demand, values: &[u8]) -> bool
    ensures { result ≡ spec.is_found condition.now demand values.now }
{
    let Some(words) = after_blank(values) else {
        return false;
    };
    let mut rest = words;
    while let Some((word, after)) = split_at_mark(rest, b' ') {
        if is_found_by(condition, demand, word, words) {
            return true;
        }
        rest = after;
    }
    is_found_by(condition, demand, rest, words)
}

fn is_way(way: Way, taken: bool) -> bool
    ensures { result ≡ spec.is_way way taken }
{
    match way {
        Way::Taken => taken,
        Way::Emitted => !taken,
        Way::Either => true,
    }
}

fn is_of(pattern: &PortPattern, port: &[u8]) -> bool
    ensures { result ≡ spec.is_of pattern.now port.now }
{
    let text = pattern.text.as_slice();
    match pattern.form {
        PortForm::Whole => port == text,
        PortForm::Open => port.starts_with(text),
        PortForm::Stars => has_form(text, port),
    }
}

fn is_in(resource: &Option<Name>, found: &[u8]) -> bool
    ensures { result ≡ spec.is_in resource.now found.now }
{
    match resource {
        Some(name) => found == name.as_bytes(),
        None => true,
    }
}

/// Whether a line is of the resource, the side and the ports of a pattern, whatever its values.
#[tactic(auto, unfolding(crate::specs::Patterns::is_at))]
pub fn is_at(pattern: &Pattern, entry: &Entry<'_>) -> bool
    ensures { result ≡ spec.is_at pattern.now (event_of entry.now) }
{
    is_way(pattern.way, entry.taken)
        && is_of(&pattern.port, entry.port)
        && is_in(&pattern.resource, entry.resource)
}

/// Whether a line has what a demand asks for of each condition.
fn are_found(conditions: &[Condition], demand: Demand, values: &[u8]) -> bool
    ensures { result ≡ list_all (λ c. spec.is_found c demand values.now) conditions.now }
{
    for condition in conditions {
        if !is_found(condition, demand, values) {
            return false;
        }
    }
    true
}

/// Whether a line meets a pattern.
#[tactic(auto, unfolding(crate::specs::Patterns::meets))]
pub fn meets(pattern: &Pattern, entry: &Entry<'_>) -> bool
    ensures { result ≡ spec.meets pattern.now (event_of entry.now) }
{
    is_at(pattern, entry) && are_found(pattern.conditions.as_slice(), Demand::Met, entry.values)
}

/// Whether a line is of the ports of a pattern and has values of the kinds that its conditions compare.
#[tactic(auto, unfolding(crate::specs::Patterns::has_kinds))]
pub(crate) fn has_kinds(pattern: &Pattern, entry: &Entry<'_>) -> bool
    ensures { result ≡ spec.has_kinds pattern.now (event_of entry.now) }
{
    is_at(pattern, entry) && are_found(pattern.conditions.as_slice(), Demand::Fitting, entry.values)
}

/// Whether a line is of the ports of a pattern and has all variables of its conditions.
#[tactic(auto, unfolding(crate::specs::Patterns::has_all))]
pub(crate) fn has_all(pattern: &Pattern, entry: &Entry<'_>) -> bool
    ensures { result ≡ spec.has_all pattern.now (event_of entry.now) }
{
    is_at(pattern, entry) && are_found(pattern.conditions.as_slice(), Demand::Named, entry.values)
}
