//! Numbers from digits.

ghost use Rattle.std.specs.Prelude.{◌≡◌, ◌≤◌, ◌<◌, ◌+◌, ◌*◌, MatchOption};
ghost use Rattle.std.specs.Option.{ForSome};
ghost use Rattle.fb_read.specs.Limits.{most};
ghost use Rattle.fb_read.specs.Numbers as spec;

use crate::token::MOST;

/// The value of a digit, or 16 if the byte is no digit.
fn digit_of(b: u8) -> u8
    ensures value { result ≡ spec.digit_of b }
    ensures bounded { result ≤ 16 }
{
    match b {
        b'0'..=b'9' => b - b'0',
        b'A'..=b'F' => b - b'A' + 10,
        b'a'..=b'f' => b - b'a' + 10,
        _ => 16,
    }
}

/// The number with one more digit, if it is not too large.
fn with_digit(base: u8, value: u128, digit: u8) -> Option<u128>
    ensures { MatchOption result (most < base * value + digit) (λ n. (n ≡ base * value + digit) × (n ≤ most)) }
{
    let shifted = u128::from(base).checked_mul(value)?;
    let longer = shifted.checked_add(u128::from(digit))?;
    if longer <= MOST { Some(longer) } else { None }
}

/// The number of digits in this base, with single underscores between them. `None` if they are not such digits, or if
/// the number is too large.
#[tactic(auto, unfolding(crate::specs::Numbers::number))]
pub fn number(base: u8, digits: &[u8]) -> Option<u128>
    requires low { 2 ≤ base }
    requires high { base ≤ 16 }
    ensures value { result ≡ spec.number base digits.now }
    ensures small { ForSome result (λ n. n ≤ most) }
{
    let mut value: u128 = 0;
    let mut expected = true;
    for b in digits {
        if *b == b'_' && !expected {
            expected = true;
            continue;
        }
        let digit = digit_of(*b);
        if digit >= base {
            return None;
        }
        let Some(longer) = with_digit(base, value, digit) else {
            return None;
        };
        value = longer;
        expected = false;
    }
    if expected { None } else { Some(value) }
}
