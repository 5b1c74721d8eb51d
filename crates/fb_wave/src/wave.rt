//! The dump of a trace.

ghost use Rattle.std.specs.Prelude.{IfErr, IfSome, OnOk};
ghost use Rattle.fb_wave.specs.OfSystem.{Blames, BlamesShown, FailsShown, FailsWave, IsRefusedLine, IsShown, IsWave, WritesBefore};

use crate::copy::Progress;
use crate::current_line::CurrentLine;
use crate::error::WaveError;
use crate::names::has_names;
use crate::system_ports::SystemPorts;
use crate::table::PortTable;
use crate::truncation::Cut;
use fb_system::System;
use std::alloc::Global;
use std::io::{BufRead, Write};

/// Reads a trace of the system, in either form, and writes its value change dump.
///
/// A time of the dump is a tick, in milliseconds. In a tick each signal changes once at most. An event port fires if it
/// had an event, and the count next to it has 64 bits. A variable takes its last value. The memory is that of the
/// signals, a line and a page.
///
/// # Errors
/// `Refused` with the number of the first line that no trace of the system has after the lines before it. So no trace
/// is refused. What was written then begins the dump of each trace that begins with the lines before it, and ends at a
/// line. If the reader fails (`Read`) or memory runs out (`Memory`), it is the beginning of a dump. If the writer fails (`Write`), it got as many bytes as the error says, but
/// not all.
///
/// # Example
///
/// The test `a_trace_is_shown_as_waves` of `fb_tests`:
///
/// ```
/// let declaration = "APPLICATION A FBS S : E_RESTART; END_FBS END_APPLICATION";
/// let system = accepted(&rt, rt.alloc(), declaration, "", "tick,event,values\n");
/// let mut trace: &[u8] = b"0 MAIN < S.COLD\nend 5\n";
/// let mut dump = Vec::new(rt.alloc());
/// write_wave(rt.alloc(), &system, &mut trace, &mut dump).expect(&rt, "waves");
/// assert!(rt; dump.as_slice().ends_with(b"#5\n"));
/// drop(system);
/// ```
pub fn write_wave<R: BufRead, W: Write>(
    alloc: Global,
    system: &System,
    input: &mut R,
    out: &mut W,
) -> Result<(), WaveError>
    ensures whole { OnOk result (IfSome (R.remaining input.old) (λ text. IsWave system.now text (W.contents out.old) (W.contents out.new))) }
    ensures part { IfErr result (FailsWave system.now (W.contents out.old) (W.contents out.new)) }
    ensures refused { IfErr result (Blames system.now (R.remaining input.old)) }
    ensures before { IfErr result (WritesBefore system.now (R.remaining input.old) (W.contents out.old) (W.contents out.new)) }
{
    let mut current = CurrentLine::new(alloc);
    write_wave_with(alloc, system, Cut::Refused, &mut current, input, out)
}

/// As `write_wave`, for a trace that may be cut off: it ends without a last line, or within a line, which then does not
/// count. Its dump ends in a comment that says so.
///
/// The caller lends the buffer for lines, so that it has the refused line after a refusal.
///
/// # Errors
/// As those of `write_wave`, but no trace is refused because it is cut off.
pub fn write_wave_with<R: BufRead, W: Write>(
    alloc: Global,
    system: &System,
    cut: Cut,
    current: &mut CurrentLine,
    input: &mut R,
    out: &mut W,
) -> Result<(), WaveError>
    ensures whole { OnOk result (IfSome (R.remaining input.old) (λ text. IsShown cut system.now text (W.contents out.old) (W.contents out.new))) }
    ensures part { IfErr result (FailsShown cut system.now (W.contents out.old) (W.contents out.new)) }
    ensures refused { IfErr result (BlamesShown cut system.now (R.remaining input.old)) }
    ensures before { IfErr result (WritesBefore system.now (R.remaining input.old) (W.contents out.old) (W.contents out.new)) }
    ensures current { IfErr result (IsRefusedLine system.now (R.remaining input.old) current.new) }
{
    system.facts(); // for the prover: what holds of every accepted system
    if !has_names(system) {
        return Err(WaveError::Names);
    }
    let ports = SystemPorts::of(alloc, system)?;
    let Some(table) = PortTable::of(alloc, &ports)? else {
        unreachable!()
    };
    let mut progress = Progress::begin(alloc, &table)?;
    current.after_end = false;
    let written = progress.copy(alloc, &table, cut, current, input, out);
    current.follow(progress.tick);
    written
}
