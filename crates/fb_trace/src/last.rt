//! The last line of a trace.

ghost use Rattle.std.specs.Prelude.{◌≡◌, [], ◌∷◌, ◌++◌, codes, decimal, length, IfErr, IfOk, OnOk};
ghost use Rattle.std.specs.Io.KnownBytes.{Appends};
ghost use Rattle.fb_types.specs.Text.{reason_text};
ghost use Rattle.fb_types.specs.OfSystem.{last_line};
ghost use Rattle.fb_trace.specs.End.{ending_of};
ghost use Rattle.fb_trace.specs.Progress.{Gathers, IsPartWritten, bounded};
ghost use Rattle.fb_trace.specs.OfSystem.{EndsIn};

use crate::fault::WriteFault;
use crate::page::Page;
use crate::pieces::put_tick_and_resource;
use fb_system::System;
use fb_types::{Reason, StopMark};
use std::io::Write;

/// How a run ends.
#[derive(Clone, Copy, PartialEq, Eq)]
pub enum Outcome {
    /// It reached its horizon, the tick in milliseconds at which it had to end.
    End(u64),
    /// A resource stopped before its horizon.
    Stop(StopMark),
}

fn put_horizon<W: Write>(page: &mut Page, out: &mut W, horizon: u64) -> Result<(), WriteFault>
    ensures { Gathers (W.contents out.old) (W.contents out.new) page.old page.new
        (codes "end " ++ decimal horizon ++ 10 ∷ []) result }
{
    page.put(out, b"end ")?;
    page.put_number(out, horizon as u128)?;
    page.put(out, b"\n")
}

fn reason_name(reason: Reason) -> &'static [u8]
    ensures { result.now ≡ reason_text reason }
{
    match reason {
        Reason::Steps => b"steps",
        Reason::Divide => b"divide",
        Reason::Range => b"range",
    }
}

/// Puts the last line.
fn put_last<W: Write>(
    page: &mut Page,
    out: &mut W,
    system: &System,
    end: Outcome,
) -> Result<(), WriteFault>
    requires { EndsIn system.now end }
    ensures { Gathers (W.contents out.old) (W.contents out.new) page.old page.new
        (last_line system.now (ending_of end)) result }
{
    match end {
        Outcome::End(horizon) => put_horizon(page, out, horizon),
        Outcome::Stop(mark) => {
            page.put(out, b"stop ")?;
            put_tick_and_resource(page, out, system, mark.tick, mark.resource)?;
            page.put(out, b" ")?;
            page.put(out, reason_name(mark.reason))?;
            page.put(out, b"\n")
        }
    }
}

/// Writes the last line of a trace of the system, and returns how many bytes it has, up to the greatest `u128`. It takes
/// no memory.
///
/// # Errors
/// If the writer returns an error or takes no byte. It then has a beginning of the line, but not all of it. The fault
/// says how many bytes.
pub fn write_last_with_count<W: Write>(
    out: &mut W,
    system: &System,
    end: Outcome,
) -> Result<u128, WriteFault>
    requires { EndsIn system.now end }
    ensures whole { OnOk result
        (Appends (W.contents out.old) (W.contents out.new) (last_line system.now (ending_of end))) }
    ensures counted { IfOk result (λ n. n ≡ bounded (length (last_line system.now (ending_of end)))) }
    ensures part { IfErr result (λ fault. IsPartWritten (W.contents out.old) (W.contents out.new)
        (last_line system.now (ending_of end)) fault.written) }
{
    let mut page = Page::new();
    put_last(&mut page, out, system, end)?;
    page.flush(out)?;
    Ok(page.written())
}

/// Writes the last line of a trace of the system. It takes no memory.
///
/// # Errors
/// Those of `write_last_with_count`.
pub fn write_last<W: Write>(out: &mut W, system: &System, end: Outcome) -> Result<(), WriteFault>
    requires { EndsIn system.now end }
    ensures whole { OnOk result
        (Appends (W.contents out.old) (W.contents out.new) (last_line system.now (ending_of end))) }
    ensures part { IfErr result (λ fault. IsPartWritten (W.contents out.old) (W.contents out.new)
        (last_line system.now (ending_of end)) fault.written) }
{
    write_last_with_count(out, system, end)?;
    Ok(())
}
