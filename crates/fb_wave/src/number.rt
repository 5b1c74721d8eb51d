//! Numbers of a line.

ghost use Rattle.std.specs.Prelude.{◌≡◌, ◌+◌, ◌-◌, ◌*◌, ◌^◌, ◌<◌, ◌≤◌, ◌++◌, decimal, IfSome, MatchOption};
ghost use Rattle.fb_wave.specs.Reading.{HasNoNumber, IsGrown, IsNoNumber, IsWide, number_text};

use crate::words::{after_front, cut};

/// A number with one more digit after its digits, below 2^128.
fn grown(number: u128, byte: u8) -> Option<u128>
    ensures { MatchOption result (48 ≤ byte → byte < 58 → 2 ^ 128 ≤ number * 10 + (byte - 48)) (IsGrown number byte) }
{
    if !byte.is_ascii_digit() {
        return None;
    }
    number.checked_mul(10)?.checked_add(u128::from(byte - b'0'))
}

/// The number whose decimal digits these are, below 2^128, without leading zeros.
pub(crate) fn natural(text: &[u8]) -> Option<u128>
    ensures { MatchOption result (IsNoNumber (2 ^ 128) text.now) (λ n. text.now ≡ decimal n) }
{
    let mut value = 0;
    for (index, byte) in text.iter().enumerate() {
        if index > 0 && value == 0 {
            return None;
        }
        value = grown(value, *byte)?;
    }
    if text.is_empty() { None } else { Some(value) }
}

/// The number, if it is below 2^64.
pub(crate) fn narrow(number: u128) -> Option<u64>
    ensures { MatchOption result (IsWide number) (λ n. n ≡ number) }
{
    if number < 1 << 64 {
        Some(number as u64)
    } else {
        None
    }
}

/// Reads a number below 2^64.
pub(crate) fn magnitude(text: &[u8]) -> Option<u64>
    ensures { MatchOption result (IsNoNumber (2 ^ 64) text.now) (λ n. text.now ≡ decimal n) }
{
    narrow(natural(text)?)
}

/// A number before a blank, and what comes after the blank.
pub(crate) fn number(text: &[u8]) -> Option<(u128, &[u8])>
    ensures number { MatchOption result (HasNoNumber (2 ^ 128) text.now) (λ p. text.now ≡ number_text p.0 ++ p.1.now) }
    ensures range { IfSome result (λ p. p.0 < 2 ^ 128) }
{
    let parts = cut(text)?;
    Some((natural(parts.0)?, after_front(parts.1, b" ")?))
}

/// A number of 64 bits before a blank, and what comes after the blank.
pub fn tick(text: &[u8]) -> Option<(u64, &[u8])>
    ensures tick { MatchOption result (HasNoNumber (2 ^ 64) text.now) (λ p. text.now ≡ number_text p.0 ++ p.1.now) }
    ensures range { IfSome result (λ p. p.0 < 2 ^ 64) }
{
    let parts = number(text)?;
    Some((narrow(parts.0)?, parts.1))
}
