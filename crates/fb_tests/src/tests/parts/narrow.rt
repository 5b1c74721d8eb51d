//! A writer that takes little at each call.

use std::alloc::Global;
use std::io;
use std::io::Write;

/// More bytes than any text here has.
pub const ALL_AT_ONCE: usize = 1_000_000;

/// Takes at most `step` bytes at each call.
#[derive(Drop)]
pub struct Narrow {
    pub got: Vec<u8>,
    step: usize,
}

impl Narrow {
    pub fn new(alloc: Global, step: usize) -> Narrow {
        Narrow {
            got: Vec::new(alloc),
            step,
        }
    }
}

impl Write for Narrow {
    ghost use Rattle.std.specs.Prelude.{Some};

    ghost contents = { λ w. Some w.got.items };

    fn write(&mut self, bytes: &[u8]) -> io::Result<usize> {
        let count = bytes.len().min(self.step);
        self.got.extend_from_slice(&bytes[..count])?;
        Ok(count)
    }

    fn flush(&mut self) -> io::Result<()> {
        Ok(())
    }
}
