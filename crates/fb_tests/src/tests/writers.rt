//! A writer that takes little at each call, and fails. (What the program does with such is tried by `tools/narrow.py`.)

use std::alloc::Global;
use std::io;
use std::io::Write;

/// More bytes than any text here has.
pub const ANY: usize = 1_000_000;

/// Takes at most `step` bytes at each call and `room` bytes in all, and then gives an error.
#[derive(Drop)]
pub struct Narrow {
    pub got: Vec<u8>,
    step: usize,
    room: usize,
}

impl Write for Narrow {
    ghost use Rattle.std.specs.Prelude.{Some};

    ghost contents = { λ w. Some w.got.items };

    fn write(&mut self, bytes: &[u8]) -> io::Result<usize> {
        if self.room == 0 {
            return Err(io::Error::from(io::ErrorKind::BrokenPipe));
        }
        let count = bytes.len().min(self.step).min(self.room);
        self.got.extend_from_slice(&bytes[..count])?;
        self.room -= count;
        Ok(count)
    }

    fn flush(&mut self) -> io::Result<()> {
        Ok(())
    }
}

pub fn with_room(alloc: Global, step: usize, room: usize) -> Narrow {
    Narrow {
        got: Vec::new(alloc),
        step,
        room,
    }
}

/// A writer with room for all that is written here.
pub fn page(alloc: Global) -> Narrow {
    with_room(alloc, ANY, ANY)
}
