//! Text that waits to be written.

ghost use Rattle.std.specs.Prelude.{◌≡◌, ◌+◌, [], IfErr, OnOk, length};
ghost use Rattle.std.specs.Io.KnownBytes.{Appends};
ghost use Rattle.fb_trace.specs.Progress.{bounded};
ghost use Rattle.fb_wave.specs.Pages.{IsCutShort, IsFlushed};

use fb_trace::write_front;
use std::alloc::Global;
use std::io::Write;

/// Bytes wait up to this count, so that there are few writes.
const MANY: usize = 65_536;

/// The writer failed.
#[derive(Clone, Copy, Debug)]
pub struct PageFault {
    /// The count of bytes that the writer took of the whole text, up to the greatest `u128`.
    pub written: u128,
}

/// Text that waits to be written, and the count of bytes written before it, up to the greatest `u128`.
#[derive(Drop)]
pub struct Page {
    pub text: Vec<u8>,
    pub(crate) written: u128,
}

impl Page {
    /// An empty page, before which nothing was written.
    pub fn new(alloc: Global) -> Page
        ensures empty { result.text.items ≡ [] }
        ensures none { result.written ≡ 0 }
    {
        Page {
            text: Vec::new(alloc),
            written: 0,
        }
    }

    /// Writes all that waits.
    ///
    /// # Errors
    /// When the writer fails. The fault counts all bytes that it took.
    pub fn flush<W: Write>(&mut self, out: &mut W) -> Result<(), PageFault>
        ensures whole { OnOk result (Appends (W.contents out.old) (W.contents out.new) self.old.text.items) }
        ensures empty { OnOk result (self.new.text.items ≡ []) }
        ensures counted { OnOk result (self.new.written ≡ bounded (self.old.written + length self.old.text.items)) }
        ensures part { IfErr result (IsCutShort (W.contents out.old) (W.contents out.new) self.old) }
    {
        let taken = write_front(out, self.text.as_slice());
        self.written = self.written.saturating_add(taken as u128);
        if taken < self.text.len() {
            return Err(PageFault {
                written: self.written,
            });
        }
        self.text.clear();
        Ok(())
    }

    /// Writes all that waits, if it is at least `MANY` bytes.
    ///
    /// # Errors
    /// As those of `flush`.
    pub fn flush_much<W: Write>(&mut self, out: &mut W) -> Result<(), PageFault>
        ensures whole { OnOk result (IsFlushed (W.contents out.old) (W.contents out.new) self.old self.new) }
        ensures part { IfErr result (IsCutShort (W.contents out.old) (W.contents out.new) self.old) }
    {
        if self.text.len() < MANY {
            return Ok(());
        }
        self.flush(out)
    }
}
