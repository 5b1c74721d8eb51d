//! Numbers as digits.

ghost use Rattle.std.specs.Prelude.{◌≡◌, ◌≤◌, ◌++◌, false, drop, decimal, length, OnOk};
ghost use Rattle.std.specs.Fmt.{digits};
ghost use Rattle.fb_wave.specs.Changes.{binary, line};

use std::alloc::AllocError;

/// No `u64` has more digits.
const MOST_DIGITS: usize = 64;

/// Writes the digits of a number to a base at the end of the buffer, and returns where they begin.
fn write_digits(base: u64, number: u64, indexes: &mut [u8; MOST_DIGITS]) -> usize
    requires low { 2 ≤ base }
    requires high { base ≤ 10 }
    ensures within { result ≤ MOST_DIGITS }
    ensures length { length indexes.new ≡ MOST_DIGITS }
    ensures written { drop result indexes.new ≡ digits base false number }
{
    let mut start = MOST_DIGITS;
    let mut rest = number;
    while start > 0 {
        start -= 1;
        indexes[start] = b'0' + (rest % base) as u8;
        rest /= base;
        if rest == 0 {
            break;
        }
    }
    start
}

/// Appends the decimal digits of a number.
pub fn put_decimal(text: &mut Vec<u8>, number: u64) -> Result<(), AllocError>
    ensures { OnOk result (text.new.items ≡ text.old.items ++ decimal number) }
{
    let mut indexes = [0; MOST_DIGITS];
    let start = write_digits(10, number, &mut indexes);
    text.extend_from_slice(&indexes[start..])
}

/// Appends the binary digits of a number.
pub fn put_binary(text: &mut Vec<u8>, number: u64) -> Result<(), AllocError>
    ensures { OnOk result (text.new.items ≡ text.old.items ++ binary number) }
{
    let mut indexes = [0; MOST_DIGITS];
    let start = write_digits(2, number, &mut indexes);
    text.extend_from_slice(&indexes[start..])
}

/// Appends a line: a front, and the decimal digits of a number.
pub fn put_line(text: &mut Vec<u8>, front: &[u8], number: u64) -> Result<(), AllocError>
    ensures { OnOk result (text.new.items ≡ text.old.items ++ line (front.now ++ decimal number)) }
{
    text.extend_from_slice(front)?;
    put_decimal(text, number)?;
    text.extend_from_slice(b"\n")
}
