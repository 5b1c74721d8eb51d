//! A buffer for text, so that a long trace does not call the writer for each line.

ghost use Rattle.std.specs.Prelude.{◌≡◌, ◌+◌, ◌-◌, ◌^◌, ◌<◌, ◌≤◌, ◌↔◌, [], ◌∷◌, ◌++◌, length, min, take, decimal, IfOk, IfErr, IsTrue, OnOk};
ghost use Rattle.std.specs.Io.KnownBytes.{Appends};
ghost use Rattle.fb_trace.specs.Progress.{Gathers, Fails, bounded};

use crate::copy::{copy_row, copy_text};
use crate::digit_rows::{DigitRow, DigitRows, MOST, ROW};
use crate::fault::WriteFault;
use crate::front::write_front;
use crate::number::{MOST_DIGITS, write_digits};
use std::io::Write;
use std::marker::Model;

/// The most bytes that wait.
pub(crate) const SIZE: usize = 8192;

/// A text of at most this many bytes is short: an empty page has room for three short texts and all that is between
/// them.
pub(crate) const SHORT: usize = 2048;

/// Text that waits to be written, and the number of bytes that were written before it.
#[derive(Drop)]
pub(crate) struct Page {
    bytes: [u8; SIZE],
    used: usize,
    written: u128,
    digits: DigitRows,
}

impl Model for Page {
    ghost use Rattle.fb_trace.specs.Page as spec;
    ghost use Rattle.std.specs.Prelude.{take, ◌≤◌};

    ghost Value = { spec.Page };

    ghost view = { λ p. record { waiting = take p.used p.bytes; written = p.written } };

    ghost use Rattle.fb_trace.specs.declared.page.TheConstants.{SIZE};

    ghost invariant = { λ p. p.used ≤ SIZE };
}

/// Writes all the bytes. `written` counts earlier bytes, and the result counts both.
fn write_all<W: Write>(out: &mut W, bytes: &[u8], written: u128) -> Result<u128, WriteFault>
    ensures got { OnOk result (Appends (W.contents out.old) (W.contents out.new) bytes.now) }
    ensures counted { IfOk result (λ n. n ≡ bounded (written + length bytes.now)) }
    ensures part { IfErr result (λ f. Fails (W.contents out.old) (W.contents out.new)
        (record { waiting = []; written = written }) bytes.now f.written) }
{
    let taken = write_front(out, bytes);
    let written = written.saturating_add(taken as u128);
    if taken < bytes.len() {
        return Err(WriteFault { written });
    }
    Ok(written)
}

/// The number of bytes before the last ones, of which there are `count`.
#[inline(always)]
fn before_last(bytes: &[u8; SIZE], count: usize) -> usize
    requires { count ≤ SIZE }
    ensures rest { result ≡ SIZE - count }
    ensures long { length bytes.now ≡ SIZE }
{
    bytes.len() - count
}

impl Page {
    /// An empty page, with nothing written before.
    pub(crate) fn new() -> Page
        ensures { result ≡ record { waiting = []; written = 0 } }
    {
        Page {
            bytes: [0; SIZE],
            used: 0,
            written: 0,
            digits: DigitRows::new(),
        }
    }

    /// The number of bytes that were written, up to the greatest `u128`.
    pub(crate) fn written(&self) -> u128
        ensures { result ≡ self.now.written }
    {
        self.written
    }

    /// How many bytes wait.
    pub(crate) fn waiting_count(&self) -> usize
        ensures count { result ≡ length self.now.waiting }
        ensures few { result ≤ SIZE }
    {
        self.bytes[..self.used].len()
    }

    /// Writes all that waits.
    pub(crate) fn flush<W: Write>(&mut self, out: &mut W) -> Result<(), WriteFault>
        ensures text { Gathers (W.contents out.old) (W.contents out.new) self.old self.new [] result }
        ensures empty { OnOk result (self.new.waiting ≡ []) }
    {
        self.written = write_all(out, &self.bytes[..self.used], self.written)?;
        self.used = 0;
        Ok(())
    }

    /// Appends bytes. If they do not fit, all that waits is written first.
    pub(crate) fn put<W: Write>(&mut self, out: &mut W, bytes: &[u8]) -> Result<(), WriteFault>
        ensures { Gathers (W.contents out.old) (W.contents out.new) self.old self.new bytes.now result }
    {
        if bytes.len() > SIZE - self.used {
            self.flush(out)?;
            if bytes.len() > SIZE {
                self.written = write_all(out, bytes, self.written)?;
                return Ok(());
            }
        }
        self.append(bytes);
        Ok(())
    }

    /// Makes room for this number of bytes: if they do not fit, all that waits is written first.
    #[inline(always)]
    pub(crate) fn make_room<W: Write>(
        &mut self,
        out: &mut W,
        count: usize,
    ) -> Result<(), WriteFault>
        requires { count ≤ SIZE }
        ensures text { Gathers (W.contents out.old) (W.contents out.new) self.old self.new [] result }
        ensures room { OnOk result (length self.new.waiting + count ≤ SIZE) }
    {
        if count > SIZE - self.used {
            self.flush(out)?;
        }
        Ok(())
    }

    /// Appends bytes that fit.
    #[inline(always)]
    pub(crate) fn append(&mut self, bytes: &[u8])
        requires { length self.old.waiting + length bytes.now ≤ SIZE }
        ensures text { self.new ≡ record self.old { waiting = self.old.waiting ++ bytes.now } }
        ensures length { length self.new.waiting ≡ length self.old.waiting + length bytes.now }
    {
        let end = self.used + bytes.len();
        copy_text(&mut self.bytes[self.used..end], bytes);
        self.used = end;
    }

    /// Whether this number of bytes fits.
    #[inline(always)]
    pub(crate) fn has_room(&self, count: usize) -> bool
        requires { count ≤ SIZE }
        ensures { IsTrue result ↔ (length self.now.waiting + count ≤ SIZE) }
    {
        // Callers pass constants, so what is compared with is one.
        self.used <= before_last(&self.bytes, count)
    }

    /// Appends the first bytes of a row. The whole row fits, and is copied: a copy of constant length is faster than one
    /// of the length that is needed.
    #[inline(always)]
    pub(crate) fn append_front<const N: usize>(&mut self, row: &[u8; N], count: usize)
        requires count { count ≤ N }
        requires room { length self.old.waiting + N ≤ SIZE }
        ensures text { self.new ≡ record self.old { waiting = self.old.waiting ++ take count row.now } }
        ensures length { length self.new.waiting ≡ length self.old.waiting + count }
    {
        let used = self.used;
        copy_row(&mut self.bytes[used..used + N], row);
        self.used = used + count;
    }

    /// Appends the fronts of two rows, one after the other. The whole rows fit, and are copied.
    #[inline(always)]
    pub(crate) fn append_both<const N: usize, const M: usize>(
        &mut self,
        first: &[u8; N],
        count: usize,
        second: &[u8; M],
        more: usize,
    )
        requires count { count ≤ N }
        requires more { more ≤ M }
        requires room { length self.old.waiting + (N + M) ≤ SIZE }
        ensures text { self.new ≡ record self.old { waiting = self.old.waiting ++ (take count first.now ++ take more second.now) } }
        ensures length { length self.new.waiting ≡ length self.old.waiting + (count + more) }
    {
        let used = self.used;
        copy_row(&mut self.bytes[used..used + N], first);
        let next = used + count;
        copy_row(&mut self.bytes[next..next + M], second);
        self.used = next + more;
    }

    /// Appends the fronts of two rows, one after the other, and a byte. The whole rows fit, and are copied.
    #[inline(always)]
    pub(crate) fn append_fronts<const N: usize, const M: usize>(
        &mut self,
        first: &[u8; N],
        count: usize,
        second: &[u8; M],
        more: usize,
        byte: u8,
    )
        requires count { count ≤ N }
        requires more { more ≤ M }
        requires room { length self.old.waiting + (N + M + 1) ≤ SIZE }
        ensures { self.new ≡ record self.old { waiting = self.old.waiting ++ (take count first.now ++ take more second.now ++ byte ∷ []) } }
    {
        let used = self.used;
        copy_row(&mut self.bytes[used..used + N], first);
        let next = used + count;
        copy_row(&mut self.bytes[next..next + M], second);
        let end = next + more;
        self.bytes[end] = byte;
        self.used = end + 1;
    }

    /// Appends a byte that fits.
    #[inline(always)]
    pub(crate) fn append_byte(&mut self, byte: u8)
        requires { length self.old.waiting + 1 ≤ SIZE }
        ensures text { self.new ≡ record self.old { waiting = self.old.waiting ++ byte ∷ [] } }
        ensures length { length self.new.waiting ≡ length self.old.waiting + 1 }
    {
        let used = self.used;
        self.bytes[used] = byte;
        self.used = used + 1;
    }

    /// Appends a digit that fits.
    #[inline(always)]
    fn append_digit(&mut self, digit: u32)
        requires digit { digit < 10 }
        requires room { length self.old.waiting + 1 ≤ SIZE }
        ensures text { self.new ≡ record self.old { waiting = self.old.waiting ++ decimal digit } }
        ensures length { length self.new.waiting ≡ length self.old.waiting + 1 }
    {
        self.append_byte(b'0' + digit as u8);
    }

    /// Appends the digits of a number below 100.
    #[inline(always)]
    fn append_two(&mut self, number: u32)
        requires number { number < 100 }
        requires room { length self.old.waiting + 2 ≤ SIZE }
        ensures text { self.new ≡ record self.old { waiting = self.old.waiting ++ decimal number } }
        ensures length { length self.new.waiting ≤ length self.old.waiting + 2 }
    {
        if number >= 10 {
            self.append_digit(number / 10);
        }
        self.append_digit(number % 10);
    }

    /// Appends the digits of a number below 10,000, one by one.
    #[inline(always)]
    pub(crate) fn append_four(&mut self, number: u32)
        requires number { number < 10000 }
        requires room { length self.old.waiting + 4 ≤ SIZE }
        ensures text { self.new ≡ record self.old { waiting = self.old.waiting ++ decimal number } }
        ensures length { length self.new.waiting ≤ length self.old.waiting + 4 }
    {
        if number < 100 {
            return self.append_two(number);
        }
        self.append_two(number / 100);
        self.append_digit(number / 10 % 10);
        self.append_digit(number % 10);
    }

    /// The row of a small number.
    #[inline(always)]
    pub(crate) fn digits_of(&mut self, number: usize) -> DigitRow
        requires { number < MOST }
        ensures width { result.width ≤ ROW }
        ensures digits { take result.width result.text ≡ decimal number }
        ensures kept { self.new ≡ self.old }
    {
        // The call that makes a row returns nothing, and the row is read here: so it stays in registers.
        self.digits.prepare(number);
        self.digits.row(number)
    }

    /// Appends the digits of a small number, which are copied from its row.
    #[inline(always)]
    pub(crate) fn append_small(&mut self, number: usize)
        requires number { number < MOST }
        requires room { length self.old.waiting + ROW ≤ SIZE }
        ensures text { self.new ≡ record self.old { waiting = self.old.waiting ++ decimal number } }
        ensures length { length self.new.waiting ≤ length self.old.waiting + ROW }
    {
        let row = self.digits_of(number);
        self.append_front(&row.text, row.width as usize);
    }

    /// Appends the decimal digits of a number. There is room for the longest number.
    #[inline(never)]
    pub(crate) fn append_number(&mut self, number: u128)
        requires { length self.old.waiting + MOST_DIGITS ≤ SIZE }
        ensures text { self.new ≡ record self.old { waiting = self.old.waiting ++ decimal number } }
        ensures length { length self.new.waiting ≤ length self.old.waiting + MOST_DIGITS }
    {
        let mut digits = [0; MOST_DIGITS];
        let start = write_digits(number, &mut digits);
        self.append(&digits[start..]);
    }

    /// Appends the decimal digits of a number.
    pub(crate) fn put_number<W: Write>(
        &mut self,
        out: &mut W,
        number: u128,
    ) -> Result<(), WriteFault>
        ensures { Gathers (W.contents out.old) (W.contents out.new) self.old self.new (decimal number) result }
    {
        let mut digits = [0; MOST_DIGITS];
        let start = write_digits(number, &mut digits);
        self.put(out, &digits[start..])
    }
}
