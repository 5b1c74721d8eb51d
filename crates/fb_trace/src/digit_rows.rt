//! The digits of small numbers.

ghost use Rattle.std.specs.Prelude.{◌≡◌, ◌<◌, ◌≤◌, decimal, take};
ghost use Rattle.fb_trace.specs.DigitRows.{IsMade};

use std::marker::Model;

/// The numbers below this have a row.
pub(crate) const MOST: usize = 1000;

/// The bytes of a row.
pub(crate) const ROW: usize = 4;

/// A row of bytes that begins with the digits of a number.
#[derive(Clone, Copy)]
pub(crate) struct DigitRow {
    /// The digits, and blanks after them.
    pub text: [u8; ROW],
    /// The number of digits, or 0 if the row is not made yet.
    pub width: u8,
}

impl DigitRow {
    /// The row of a number.
    fn of(number: usize) -> DigitRow
        requires { number < MOST }
        ensures some { 0 < result.width }
        ensures width { result.width ≤ ROW }
        ensures text { take result.width result.text ≡ decimal number }
    {
        let hundreds = b'0' + (number / 100) as u8;
        let tens = b'0' + (number / 10 % 10) as u8;
        let ones = b'0' + (number % 10) as u8;
        if number >= 100 {
            return DigitRow {
                text: [hundreds, tens, ones, b' '],
                width: 3,
            };
        }
        if number >= 10 {
            return DigitRow {
                text: [tens, ones, b' ', b' '],
                width: 2,
            };
        }
        DigitRow {
            text: [ones, b' ', b' ', b' '],
            width: 1,
        }
    }
}

/// The rows of the numbers below 1,000. A row is made when its number comes first: then a copy of it takes the place of
/// the divisions that its digits need.
#[derive(Drop)]
pub(crate) struct DigitRows {
    rows: [DigitRow; MOST],
}

impl Model for DigitRows {
    ghost use Rattle.std.specs.Prelude.{List};
    ghost use Rattle.fb_trace.specs.DigitRows.{AreRows};
    ghost use Rattle.fb_trace.specs.declared.digit_rows.DigitRow.{DigitRow};

    ghost Value = { List DigitRow };

    ghost view = { λ d. d.rows };

    ghost invariant = { λ d. AreRows d.rows };
}

impl DigitRows {
    /// Rows of which none is made yet.
    pub(crate) fn new() -> DigitRows {
        let none = DigitRow {
            text: [0; ROW],
            width: 0,
        };
        DigitRows { rows: [none; MOST] }
    }

    /// Makes the row of a number, unless it is made.
    #[inline(always)]
    pub(crate) fn prepare(&mut self, number: usize)
        requires { number < MOST }
        ensures { IsMade self.new number }
    {
        let row = self.rows[number];
        if row.width > 0 {
            return;
        }
        self.make(number);
    }

    /// Makes the row of a number.
    #[inline(never)]
    fn make(&mut self, number: usize)
        requires { number < MOST }
        ensures { IsMade self.new number }
    {
        let row = DigitRow::of(number);
        self.rows[number] = row;
    }

    /// The row of a number, which is made.
    #[inline(always)]
    pub(crate) fn row(&self, number: usize) -> DigitRow
        requires number { number < MOST }
        requires made { IsMade self.now number }
        ensures width { result.width ≤ ROW }
        ensures text { take result.width result.text ≡ decimal number }
    {
        self.rows[number]
    }
}
