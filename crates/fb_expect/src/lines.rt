//! Reads a text line by line.

ghost use Rattle.std.specs.Prelude.{◌≡◌, [], IfOk, IfSome, OnErr, OnOk, IsTrue, false};
ghost use Rattle.std.specs.Io.BufRead.{DropsThrough, take_through};
ghost use Rattle.std.specs.Io.KnownBytes.{Consumes, IsAtEnd};
ghost use Rattle.fb_expect.specs.Lines.{IsOneLine};

use std::io;
use std::io::BufRead;

/// Why the next line of a text is not read.
#[derive(Debug, Drop)]
pub enum ReadFault {
    /// There is no memory for the line.
    Memory,
    /// The reader failed, other than for memory.
    Read,
}

impl From<io::Error> for ReadFault {
    ghost use Rattle.std.specs.IoError.{error_kind};
    ghost use Rattle.fb_expect.specs.Faults.{IsFaultOf};

    ghost from_gives = { λ error fault. IsFaultOf (error_kind error) fault };

    fn from(error: io::Error) -> ReadFault {
        if error.kind() == io::ErrorKind::OutOfMemory {
            return ReadFault::Memory;
        }
        ReadFault::Read
    }
}

/// Reads the next line into a buffer, with its line feed. At the end of the text the buffer is empty.
pub(crate) fn next_line<R: BufRead>(input: &mut R, line: &mut Vec<u8>) -> Result<(), ReadFault>
    ensures read { OnOk result (Consumes (R.remaining input.old) (R.remaining input.new) line.new.items) }
    ensures one { OnOk result (IsOneLine line.new.items) }
    ensures line { OnOk result (IfSome (R.remaining input.old) (λ xs. line.new.items ≡ take_through 10 xs)) }
    ensures rest { OnOk result (DropsThrough (R.remaining input.old) (R.remaining input.new) 10) }
    ensures end { OnOk result (line.new.items ≡ [] → IsAtEnd (R.remaining input.old)) }
    ensures part { OnErr result (IsOneLine line.new.items × Consumes (R.remaining input.old) (R.remaining input.new) line.new.items) }
{
    line.clear();
    match input.read_until(b'\n', line) {
        Ok(_) => Ok(()),
        Err(error) => Err(ReadFault::from(error)),
    }
}

/// Whether the text is at its end. Otherwise this reads a line.
pub(crate) fn is_over<R: BufRead>(input: &mut R, line: &mut Vec<u8>) -> Result<bool, ReadFault>
    ensures over { IfOk result (λ over. IsTrue over → IsAtEnd (R.remaining input.old)) }
    ensures more { IfOk result (λ over. over ≡ false → IfSome (R.remaining input.old) (λ rest. rest ≡ [] → ⊥)) }
{
    next_line(input, line)?;
    Ok(line.is_empty())
}
