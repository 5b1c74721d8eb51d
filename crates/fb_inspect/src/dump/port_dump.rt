//! The part of the ports in a dump with the inside of basic blocks.

ghost use Rattle.std.specs.Prelude.{◌≡◌, ◌∷◌, ◌++◌, ℕ, List, [], All, IfOk, OnOk, true};
ghost use Rattle.fb_types.specs.Systems.{System as Flat};
ghost use Rattle.fb_types.specs.declared.run.Line as run;
ghost use Rattle.fb_system.specs.OfSystem.{BelongsTo};
ghost use Rattle.fb_trace.specs.End.{ending_of};
ghost use Rattle.fb_inspect.specs.Inspections.{BeginsWith};
ghost use Rattle.fb_inspect.specs.dump.Dumping.{ShowsUpTo};
ghost use Rattle.fb_inspect.specs.dump.Dumping as dumping;
ghost use Rattle.fb_inspect.specs.dump.StateDumps.{Taken, cut_dump};
ghost use Rattle.fb_inspect.specs.OfSystem.{AreKept, IsPortDump, Shows, ShowsLines, opening_look, state_dump};

use crate::dump::head::put_head;
use crate::walk::blocks::Remembered;
use fb_system::System;
use fb_trace::Outcome;
use fb_types::Line;
use fb_wave::change::{put_changes, put_time};
use fb_wave::dump::put_end;
use fb_wave::system_signals::Signals;
use std::alloc::{AllocError, Global};

/// What signals of ports show, as far as takings were written.
#[derive(Drop)]
pub(crate) struct PortDump {
    pub(crate) signals: Signals,
    /// The tick of the last line, or 0 before the first.
    pub(crate) tick: u64,
}

impl PortDump {
    /// Begins a dump of a trace of the system: puts its head after a text.
    pub(crate) fn begin(
        alloc: Global,
        system: &System,
        blocks: &[Remembered],
        text: &mut Vec<u8>,
    ) -> Result<PortDump, AllocError>
        requires { AreKept system.now blocks.now (opening_look system.now) }
        ensures numbers { IfOk result (IsPortDump system.now) }
        ensures shown { text.old.items ≡ [] → IfOk result (Shows system.now [] text.new.items) }
    {
        let signals = Signals::of(alloc, system)?;
        put_head(alloc, text, system, signals.firsts.as_slice(), blocks)?;
        Ok(PortDump { signals, tick: 0 })
    }

    /// Goes on to a tick: puts what changed at ports in the one before after a text, unless it is the same.
    pub(crate) fn go_to(&mut self, tick: u64, text: &mut Vec<u8>) -> Result<(), AllocError>
        ensures numbers { (sys : Flat) → dumping.IsPortDump sys self.old → OnOk result (dumping.IsPortDump sys self.new) }
        ensures shown { (sys : Flat) (xs : List Taken) (sent : List ℕ) → dumping.Shows sys xs (sent ++ text.old.items) self.old
            → OnOk result (ShowsUpTo sys xs (sent ++ text.new.items) tick self.new) }
        ensures grows { (sys : Flat) (xs : List Taken) (sent : List ℕ) → dumping.Shows sys xs (sent ++ text.old.items) self.old
            → OnOk result (BeginsWith text.old.items text.new.items) }
    {
        if tick == self.tick {
            return Ok(());
        }
        put_changes(text, &mut self.signals.levels)?;
        put_time(text, self.tick, tick)?;
        self.tick = tick;
        Ok(())
    }

    /// Shows a line of the tick.
    pub(crate) fn show_line(&mut self, system: &System, line: &Line) -> Result<(), AllocError>
        requires dump { IsPortDump system.now self.old }
        requires line { BelongsTo system.now line.now }
        ensures numbers { OnOk result (IsPortDump system.now self.new) }
        ensures shown { OnOk result (ShowsLines system.now (line.now ∷ []) self.old self.new) }
    {
        self.signals.show(system, line)
    }

    /// Shows lines of the tick.
    pub(crate) fn show_lines(&mut self, system: &System, lines: &[Line]) -> Result<(), AllocError>
        requires dump { IsPortDump system.now self.old }
        requires lines { All (BelongsTo system.now) lines.now }
        ensures numbers { OnOk result (IsPortDump system.now self.new) }
        ensures shown { OnOk result (ShowsLines system.now lines.now self.old self.new) }
    {
        for line in lines {
            self.show_line(system, line)?;
        }
        Ok(())
    }

    /// Puts what changed at ports in the last tick, and the end, after a text.
    pub(crate) fn end(
        &mut self,
        system: &System,
        end: Outcome,
        text: &mut Vec<u8>,
    ) -> Result<(), AllocError>
        ensures { (xs : List Taken) (sent : List ℕ) → Shows system.now xs (sent ++ text.old.items) self.old
            → OnOk result (sent ++ text.new.items ≡ state_dump system.now xs (ending_of end)) }
    {
        put_changes(text, &mut self.signals.levels)?;
        put_end(text, system, self.tick, end)
    }

    /// Puts what changed at ports in the last tick, and that the trace is cut off, after a text.
    pub(crate) fn cut_off(&mut self, text: &mut Vec<u8>) -> Result<(), AllocError>
        ensures { (sys : Flat) (xs : List Taken) (us : List run.Line) (sent : List ℕ) → dumping.ShowsUntaken sys xs us (sent ++ text.old.items) self.old
            → OnOk result (sent ++ text.new.items ≡ cut_dump true sys xs us) }
    {
        put_changes(text, &mut self.signals.levels)?;
        text.extend_from_slice(b"$comment cut $end\n")
    }
}
