//! Whole numbers and values.

ghost use Rattle.std.specs.Prelude.{◌≡◌, ◌<◌, ◌≤◌, ◌+◌, ◌-◌, ◌^◌, min, pos, neg_ℤ, option_map};
ghost use Rattle.fb_inputs.specs.Numbers as spec;

use fb_types::Value;

/// The greatest magnitude of a negative number.
const MOST_BELOW: u128 = 170_141_183_460_469_231_731_687_303_715_884_105_728;

/// The number of decimal digits, or one more than the greatest number if it is greater.
pub fn natural(text: &[u8], most: u128) -> Option<u128>
    requires low { 9 ≤ most }
    requires high { most < 2 ^ 128 - 1 }
    ensures { result ≡ option_map (λ n. min n (most + 1)) (spec.natural text.now) }
{
    if text.is_empty() {
        return None;
    }
    let mut value: u128 = 0;
    for b in text {
        if !b.is_ascii_digit() {
            return None;
        }
        let digit = u128::from(*b - b'0');
        value = if value > (most - digit) / 10 {
            most + 1
        } else {
            10 * value + digit
        };
    }
    Some(value)
}

fn negative(magnitude: u128) -> i128
    requires { magnitude ≤ 2 ^ 127 }
    ensures { result ≡ neg_ℤ (pos magnitude) }
{
    if magnitude == 0 {
        0
    } else {
        -1 - (magnitude - 1) as i128
    }
}

#[tactic(auto, unfolding(crate::specs::Numbers::whole))]
fn whole(text: &[u8]) -> Option<i128>
    ensures { result ≡ spec.whole text.now }
{
    let [first, digits @ ..] = text else {
        return None;
    };
    if *first == b'-' {
        let magnitude = natural(digits, MOST_BELOW)?;
        if magnitude > MOST_BELOW {
            None
        } else {
            Some(negative(magnitude))
        }
    } else {
        let magnitude = natural(text, MOST_BELOW - 1)?;
        if magnitude >= MOST_BELOW {
            None
        } else {
            Some(magnitude as i128)
        }
    }
}

/// A truth value, in any letter case, or a whole number within 128 bits.
#[tactic(auto, unfolding(crate::specs::Numbers::value_of))]
pub fn value_of(text: &[u8]) -> Option<Value>
    ensures { result ≡ spec.value_of text.now }
{
    if text.eq_ignore_ascii_case(b"TRUE") {
        Some(Value::Bool(true))
    } else if text.eq_ignore_ascii_case(b"FALSE") {
        Some(Value::Bool(false))
    } else {
        Some(Value::Whole(whole(text)?))
    }
}
