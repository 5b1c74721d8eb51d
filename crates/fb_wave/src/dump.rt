//! A dump, line by line.

ghost use Rattle.std.specs.Prelude.{◌≡◌, ℕ, List, [], ◌∷◌, ◌++◌, length, OnOk};
ghost use Rattle.fb_types.specs.Systems.{System as Flat};
ghost use Rattle.fb_types.specs.Text.{reason_text};
ghost use Rattle.fb_system.specs.OfSystem.{BelongsTo};
ghost use Rattle.fb_trace.specs.End.{ending_of};
ghost use Rattle.fb_wave.specs.CutOff.{cut_text};
ghost use Rattle.fb_wave.specs.Dumps.{stop_comment};
ghost use Rattle.fb_wave.specs.Writing.{Shows, Turns};
ghost use Rattle.fb_wave.specs.Writing as writing;
ghost use Rattle.fb_wave.specs.OfSystem.{HasShown, IsDump, dump_text, end_text};

use crate::change::{put_changes, put_time};
use crate::levels::Levels;
use crate::system_signals::Signals;
use fb_system::System;
use fb_trace::Outcome;
use fb_types::{Line, Reason};
use std::alloc::AllocError;

/// The dump of the lines of a trace so far. It keeps a cell for each signal.
#[derive(Drop)]
pub(crate) struct Dump {
    pub(crate) signals: Signals,
    /// The tick of the last line, or 0 before the first.
    pub(crate) tick: u64,
}

fn reason_text(reason: Reason) -> &'static [u8]
    ensures { result.now ≡ reason_text reason }
{
    match reason {
        Reason::Steps => b"steps",
        Reason::Divide => b"divide",
        Reason::Range => b"range",
    }
}

/// Appends the time of an end, and why a resource stopped.
pub fn put_end(
    text: &mut Vec<u8>,
    system: &System,
    shown: u64,
    end: Outcome,
) -> Result<(), AllocError>
    ensures { OnOk result (text.new.items ≡ text.old.items ++ end_text system.now shown (ending_of end)) }
{
    match end {
        Outcome::End(horizon) => put_time(text, shown, horizon),
        Outcome::Stop(mark) => {
            put_time(text, shown, mark.tick)?;
            let resource = mark.resource as usize;
            if resource < system.resources() {
                put_stop(text, system.resource_name(resource), mark.reason)
            } else {
                put_stop(text, b"", mark.reason)
            }
        }
    }
}

/// Appends a comment that a resource stopped.
fn put_stop(text: &mut Vec<u8>, resource: &[u8], reason: Reason) -> Result<(), AllocError>
    ensures { OnOk result (text.new.items ≡ text.old.items ++ stop_comment resource.now reason) }
{
    text.extend_from_slice(b"$comment stop ")?;
    text.extend_from_slice(resource)?;
    text.extend_from_slice(b" ")?;
    text.extend_from_slice(reason_text(reason))?;
    text.extend_from_slice(b" $end\n")
}

/// Goes on to a tick: appends what changed in the tick before, unless it is the same.
fn move_to(levels: &mut Levels, shown: u64, tick: u64, text: &mut Vec<u8>) -> Result<(), AllocError>
    ensures counted { length levels.new.cells.items ≡ length levels.old.cells.items }
    ensures turned { (sys : Flat) (ls : List Line) (sent : List ℕ) → Shows sys ls (sent ++ text.old.items) shown levels.old
        → OnOk result (Turns sys ls (sent ++ text.new.items) tick levels.new) }
{
    if tick == shown {
        return Ok(());
    }
    put_changes(text, levels)?;
    put_time(text, shown, tick)
}

impl Dump {
    /// Shows a line of the trace. If it is the first of its tick, this appends what changed in the tick before.
    pub(crate) fn take(
        &mut self,
        system: &System,
        line: &Line,
        text: &mut Vec<u8>,
    ) -> Result<(), AllocError>
        requires dump { IsDump system.now self.old }
        requires line { BelongsTo system.now line.now }
        ensures numbers { OnOk result (IsDump system.now self.new) }
        ensures shown { (ls : List Line) (sent : List ℕ) → HasShown system.now ls (sent ++ text.old.items) self.old
            → OnOk result (HasShown system.now (ls ++ line.now ∷ []) (sent ++ text.new.items) self.new) }
    {
        move_to(&mut self.signals.levels, self.tick, line.key.tick, text)?;
        self.tick = line.key.tick;
        self.signals.show(system, line)
    }

    /// Appends what changed in the last tick, and that the trace is cut off.
    pub(crate) fn cut_off(&mut self, text: &mut Vec<u8>) -> Result<(), AllocError>
        ensures { (sys : Flat) (ls : List Line) (sent : List ℕ) → writing.HasShown sys ls (sent ++ text.old.items) self.old
            → OnOk result (sent ++ text.new.items ≡ cut_text sys ls) }
    {
        put_changes(text, &mut self.signals.levels)?;
        text.extend_from_slice(b"$comment cut $end\n")
    }

    /// Appends what changed in the last tick, and the end.
    pub(crate) fn end(
        &mut self,
        system: &System,
        end: Outcome,
        text: &mut Vec<u8>,
    ) -> Result<(), AllocError>
        ensures { (ls : List Line) (sent : List ℕ) → HasShown system.now ls (sent ++ text.old.items) self.old
            → OnOk result (sent ++ text.new.items ≡ dump_text system.now ls (ending_of end)) }
    {
        put_changes(text, &mut self.signals.levels)?;
        put_end(text, system, self.tick, end)
    }
}
