//! The values of a line.

ghost use Rattle.std.specs.Prelude.{◌≡◌, ◌<◌, ◌^◌, ◌++◌, true, All, MatchOption, IfOk, length, decimal, codes};
ghost use Rattle.fb_types.specs.Text.{value_text};
ghost use Rattle.fb_types.specs.Values.{fits};
ghost use Rattle.fb_wave.specs.Reading.{AreRead, AreUnread, HasNoDigits, IsBound, IsNoTruth, IsNoValue, IsNoWhole, IsNone, IsTextOfValue, IsTextOfWhole, IsUnbound};

use crate::number::magnitude;
use crate::words::{after_front, cut};
use fb_types::{Ty, Value, Values, Variable};
use std::alloc::{AllocError, Global};

/// The number below 0 whose digits after the sign are this text.
fn below_zero(digits: &[u8]) -> Option<i128>
    ensures { MatchOption result (HasNoDigits digits.now) (λ z. IsTextOfWhole z (codes "-" ++ digits.now)) }
{
    match magnitude(digits)? {
        0 => None,
        number => Some(-i128::from(number)),
    }
}

/// Reads a number below 2^64 in magnitude, with a sign if it is below 0.
fn whole(text: &[u8]) -> Option<i128>
    ensures { MatchOption result (IsNoWhole text.now) (λ z. IsTextOfWhole z text.now) }
{
    match after_front(text, b"-") {
        Some(digits) => below_zero(digits),
        None => Some(i128::from(magnitude(text)?)),
    }
}

/// Reads a truth value.
fn truth(text: &[u8]) -> Option<bool>
    ensures { MatchOption result (IsNoTruth text.now) (λ b. text.now ≡ value_text (Value.Bool b)) }
{
    if text == b"TRUE".as_slice() {
        return Some(true);
    }
    if text == b"FALSE".as_slice() {
        return Some(false);
    }
    None
}

/// Reads a truth value, or a whole number below 2^64 in magnitude.
fn value_in(text: &[u8]) -> Option<Value>
    ensures { MatchOption result (IsNone text.now) (λ v. IsTextOfValue v text.now) }
{
    match truth(text) {
        Some(truth) => Some(Value::Bool(truth)),
        None => Some(Value::Whole(whole(text)?)),
    }
}

/// Reads a value of this type.
pub fn value_of(ty: Ty, text: &[u8]) -> Option<Value>
    ensures { MatchOption result (IsNoValue ty text.now) (λ v. (fits ty v ≡ true) × (text.now ≡ value_text v)) }
{
    let value = value_in(text)?;
    if ty.holds(value) { Some(value) } else { None }
}

/// A variable with a value of its type, and what comes after them.
pub fn binding<'a>(variable: &Variable, text: &'a [u8]) -> Option<(Value, &'a [u8])>
    ensures { MatchOption result (IsUnbound variable.now.name variable.now.ty text.now)
        (λ p. IsBound variable.now.name variable.now.ty text.now p.0 p.1.now) }
{
    let text = after_front(text, b" ")?;
    let text = after_front(text, variable.name.as_bytes())?;
    let text = after_front(text, b"=")?;
    let parts = cut(text)?;
    Some((value_of(variable.ty, parts.0)?, parts.1))
}

/// The values of the variables at some indexes, up to the end of a line.
pub(crate) fn values_of(
    alloc: Global,
    variables: &[Variable],
    indexes: &[u32],
    text: &[u8],
) -> Result<Option<Values>, AllocError>
    requires { All (λ k. k < length variables.now) indexes.now }
    ensures { IfOk result (λ o. MatchOption o (AreUnread variables.now indexes.now text.now) (AreRead variables.now indexes.now text.now)) }
{
    let mut values = Values::new(alloc);
    let mut rest = text;
    for index in indexes {
        let Some(bound) = binding(&variables[*index as usize], rest) else {
            return Ok(None);
        };
        values.push(bound.0)?;
        rest = bound.1;
    }
    if rest == b"\n".as_slice() {
        Ok(Some(values))
    } else {
        Ok(None)
    }
}
