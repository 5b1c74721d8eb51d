//! Texts that are written, with a count of their bytes where the writer fails.

ghost use Rattle.std.specs.Prelude.{OnOk, IfErr};
ghost use Rattle.std.specs.Io.KnownBytes.{Appends};
ghost use Rattle.fbsim_command.specs.Failures.{WritesPart};

use crate::failure::Failure;
use fb_trace::write_front;
use std::io::Write;

/// Writes a text.
///
/// # Errors
/// `Write` where the writer failed before it had got all of it, with the bytes that it has got.
pub(crate) fn write_text<W: Write>(out: &mut W, text: &[u8]) -> Result<(), Failure>
    ensures whole { OnOk result (Appends (W.contents out.old) (W.contents out.new) text.now) }
    ensures part { IfErr result (WritesPart (W.contents out.old) (W.contents out.new) text.now) }
{
    let taken = write_front(out, text);
    if taken < text.len() {
        return Err(Failure::Write(taken as u128));
    }
    Ok(())
}
