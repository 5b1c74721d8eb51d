//! Numbers and values of a text.

ghost use Rattle.std.specs.Prelude.{◌≡◌, ◌<◌, ◌≤◌, ◌^◌, ◌-◌, is_some, IfSome};
ghost use Rattle.fb_expect.specs.Words as spec;

use fb_types::Value;

/// The number that decimal digits make, without needless zeros, where it is at most `most`.
#[tactic(auto, unfolding(crate::specs::Words::natural))]
fn natural(text: &[u8], most: u128) -> Option<u128>
    requires { 9 ≤ most }
    ensures value { result ≡ spec.natural most text.now }
    ensures within { IfSome result (λ n. n ≤ most) }
{
    if text.is_empty() || (text.len() > 1 && text[0] == b'0') {
        return None;
    }
    let mut value: u128 = 0;
    for byte in text {
        if !byte.is_ascii_digit() {
            return None;
        }
        let digit = u128::from(*byte - b'0');
        if value > (most - digit) / 10 {
            return None;
        }
        value = 10 * value + digit;
    }
    Some(value)
}

/// Whether a text is a number that is at most `most`.
pub(crate) fn is_number(text: &[u8], most: u128) -> bool
    requires { 9 ≤ most }
    ensures { result ≡ is_some (spec.natural most text.now) }
{
    natural(text, most).is_some()
}

/// The number below 2^64 that decimal digits make.
pub(crate) fn magnitude(text: &[u8]) -> Option<u64>
    ensures { result ≡ spec.magnitude text.now }
{
    Some(natural(text, u128::from(u64::MAX))? as u64)
}

/// The number below 0 of which a text has the digits after the sign.
fn below_zero(digits: &[u8]) -> Option<i128>
    ensures { result ≡ spec.below_zero digits.now }
{
    let number = magnitude(digits)?;
    if number == 0 {
        return None;
    }
    Some(-i128::from(number))
}

/// The number below 2^64 in magnitude that a text is, with a sign if it is below 0.
#[tactic(auto, unfolding(crate::specs::Words::whole))]
fn whole(text: &[u8]) -> Option<i128>
    ensures { result ≡ spec.whole text.now }
{
    let [first, digits @ ..] = text else {
        return None;
    };
    if *first == b'-' {
        below_zero(digits)
    } else {
        Some(i128::from(magnitude(text)?))
    }
}

/// The value that a text is: a truth value in upper case, or a whole number below 2^64 in magnitude.
#[tactic(auto, unfolding(crate::specs::Words::value_of))]
pub(crate) fn value_of(text: &[u8]) -> Option<Value>
    ensures { result ≡ spec.value_of text.now }
{
    if text == b"TRUE".as_slice() {
        return Some(Value::Bool(true));
    }
    if text == b"FALSE".as_slice() {
        return Some(Value::Bool(false));
    }
    Some(Value::Whole(whole(text)?))
}
