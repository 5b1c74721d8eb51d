//! Writes bytes until the writer fails.

ghost use Rattle.std.specs.Prelude.{◌≤◌, length, take};
ghost use Rattle.std.specs.Io.KnownBytes.{Appends};

use std::io::Write;

/// Writes as many of the bytes as the writer takes before it fails, and returns their number.
pub fn write_front<W: Write>(out: &mut W, bytes: &[u8]) -> usize
    ensures within { result ≤ length bytes.now }
    ensures got { Appends (W.contents out.old) (W.contents out.new) (take result bytes.now) }
{
    let mut taken = 0;
    while taken < bytes.len() {
        match out.write(&bytes[taken..]) {
            Ok(0) | Err(_) => return taken,
            Ok(count) => taken += count,
        }
    }
    taken
}
