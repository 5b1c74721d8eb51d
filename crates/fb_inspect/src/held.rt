//! Text that is held back: what is written is never of the event that was taken last, since the next line may be refused.

ghost use Rattle.std.specs.Prelude.{◌≤◌, IfErr, OnErr, OnOk, length};
ghost use Rattle.fb_inspect.specs.Refusals.{IsNoRefusal};
ghost use Rattle.fb_inspect.specs.walk.Walking.{HasFlushed, SendsSome};

use crate::walk::error::WalkError;
use fb_wave::Page;
use std::alloc::Global;
use std::io::Write;
use std::mem;

/// Text waits up to this count of bytes, so that there are few writes.
const MANY: usize = 65_536;

/// Writes the first bytes of a page, up to this count, if they are many. The rest waits.
pub(crate) fn flush_front<W: Write>(
    alloc: Global,
    page: &mut Page,
    count: usize,
    out: &mut W,
) -> Result<(), WalkError>
    requires { count ≤ length page.old.text.items }
    ensures flushed { OnOk result (HasFlushed count (W.contents out.old) (W.contents out.new) page.old.text.items page.new.text.items) }
    ensures part { OnErr result (SendsSome page.old.text.items (W.contents out.old) (W.contents out.new)) }
    ensures none { IfErr result IsNoRefusal }
{
    if count < MANY {
        return Ok(());
    }
    let whole = page.text.as_slice();
    let mut rest = Vec::from_slice(alloc, &whole[count..])?;
    page.text.truncate(count);
    page.flush(out)?;
    mem::swap(&mut page.text, &mut rest);
    Ok(())
}
