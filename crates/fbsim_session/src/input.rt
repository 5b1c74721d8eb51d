//! Lines of commands.

ghost use Rattle.std.specs.Prelude.{IfErr};
ghost use Rattle.fbsim_session.specs.Talks.{IsNoWrite};

use crate::talking::TalkFault;
use std::io::{BufRead, Read};

/// The most bytes of a line.
pub(crate) const MOST_BYTES: usize = 65_536;

/// What was read.
#[derive(Clone, Copy)]
pub(crate) enum Line {
    /// A line is in the buffer, without its end.
    Whole,
    /// A line was too long, and is skipped.
    Long,
    /// There is no line any more.
    Over,
}

/// Reads the next line into a buffer, without its line feed and the carriage return before it. Of a longer one than the
/// limit nothing more is kept.
///
/// # Errors
/// That of the reader, or out of memory.
pub(crate) fn next_line<R: BufRead>(input: &mut R, line: &mut Vec<u8>) -> Result<Line, TalkFault>
    ensures { IfErr result IsNoWrite }
{
    line.clear();
    let most = MOST_BYTES as u64 + 1;
    if input.by_ref().take(most).read_until(b'\n', line)? == 0 {
        return Ok(Line::Over);
    }
    if line.last() == Some(&b'\n') {
        line.pop();
        if line.last() == Some(&b'\r') {
            line.pop();
        }
        return Ok(Line::Whole);
    }
    if line.len() > MOST_BYTES {
        input.skip_until(b'\n')?;
        return Ok(Line::Long);
    }
    Ok(Line::Whole)
}
