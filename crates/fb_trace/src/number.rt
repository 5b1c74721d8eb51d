//! Numbers as decimal digits.

ghost use Rattle.std.specs.Prelude.{◌≡◌, ◌≤◌, ◌++◌, codes, drop, decimal, length, take};

use crate::copy::copy_text;
use std::marker::Model;

/// The most digits that a `u128` has.
pub(crate) const MOST_DIGITS: usize = 39;

/// Writes the digits of a number at the end of the buffer, and returns the index at which they begin.
pub(crate) fn write_digits(number: u128, digits: &mut [u8; MOST_DIGITS]) -> usize
    ensures within { result ≤ MOST_DIGITS }
    ensures length { length digits.new ≡ MOST_DIGITS }
    ensures written { drop result digits.new ≡ decimal number }
{
    let mut start = MOST_DIGITS;
    let mut high = number;
    while high > u64::MAX as u128 {
        start -= 1;
        digits[start] = b'0' + (high % 10) as u8;
        high /= 10;
    }
    let mut low = high as u64;
    while low >= 10 {
        start -= 1;
        digits[start] = b'0' + (low % 10) as u8;
        low /= 10;
    }
    start -= 1;
    digits[start] = b'0' + low as u8;
    start
}

/// The size in bytes of a kept number. The digits of a `u64` and a blank take no more.
pub(crate) const LAST_TICK: usize = 24;

/// The last number as digits and a blank. Usually a line has the tick of the line before.
#[derive(Drop)]
pub(crate) struct LastNumber {
    number: u64,
    /// The number without its last digit.
    tens: u64,
    text: [u8; LAST_TICK],
    width: usize,
}

impl Model for LastNumber {
    ghost use Rattle.std.specs.Prelude.{◌≡◌, ◌≤◌, ◌/◌, ◌++◌, ℕ, codes, decimal, take};
    ghost use Rattle.fb_trace.specs.declared.number.TheConstants.{LAST_TICK};

    ghost Value = { ℕ };

    ghost view = { λ n. n.number };

    ghost invariant = { λ n. (n.width ≤ LAST_TICK) × (take n.width n.text ≡ decimal n.number ++ codes " ") × (n.tens ≡ n.number / 10) };
}

impl LastNumber {
    /// A number as its digits and a blank.
    pub(crate) fn of(number: u64) -> LastNumber
        ensures { result ≡ number }
    {
        let mut digits = [0; MOST_DIGITS];
        let start = write_digits(number as u128, &mut digits);
        let count = MOST_DIGITS - start;
        let mut text = [0; LAST_TICK];
        copy_text(&mut text[..count], &digits[start..]);
        text[count] = b' ';
        LastNumber {
            number,
            tens: number / 10,
            text,
            width: count + 1,
        }
    }

    /// Replaces the number by one that differs in more than the last digit.
    #[inline(never)]
    fn renew(&mut self, number: u64)
        ensures { self.new ≡ number }
    {
        *self = LastNumber::of(number);
    }

    /// Replaces the number. If only the last digit differs, only this digit is written.
    #[inline(always)]
    pub(crate) fn replace(&mut self, number: u64)
        ensures { self.new ≡ number }
    {
        if number == self.number {
            return;
        }
        if number / 10 == self.tens {
            self.text[self.width - 2] = b'0' + (number % 10) as u8;
            self.number = number;
        } else {
            self.renew(number);
        }
    }

    /// The bytes that begin with the digits of the number and a blank, and the number of these.
    #[inline(always)]
    pub(crate) fn text(&self) -> (&[u8; LAST_TICK], usize)
        ensures within { result.1 ≤ LAST_TICK }
        ensures text { take result.1 result.0.now ≡ decimal self.now ++ codes " " }
    {
        (&self.text, self.width)
    }
}
