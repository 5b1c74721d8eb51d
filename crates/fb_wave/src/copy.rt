//! From the lines of a trace to its dump.

ghost use Rattle.std.specs.Prelude.{◌≡◌, ◌<◌, ◌↔◌, ℕ, ◌+◌, ◌^◌, List, [], ◌∷◌, ◌++◌, true, false, length, if◌then◌else◌, IfErr, IfOk, IfSome, OnOk, IsTrue};
ghost use Rattle.std.specs.Io.KnownBytes.{Consumes, IsAtEnd};
ghost use Rattle.fb_types.specs.Systems.{System as Flat};
ghost use Rattle.fb_wave.specs.Copying.{IsAfter, IsCutFinished, IsCutUnfinished, IsFirstLine, IsNoWriteError, IsRefusedAt, RefusesEnd};
ghost use Rattle.fb_wave.specs.Faults.{IsReadFault};
ghost use Rattle.fb_wave.specs.Forms.{form_by};
ghost use Rattle.fb_wave.specs.Named as named;
ghost use Rattle.fb_wave.specs.Words.{IsCut, is_word};
ghost use Rattle.fb_wave.specs.OfSystem.{BlamesShown, FailsShown, HasNames, HasShown, IsDump, IsFinished, IsLast, IsRefusedLine, IsShown, IsTaken, IsUnfinished, RefusesLine, WritesBefore};

use crate::current_line::CurrentLine;
use crate::dump::Dump;
use crate::error::WaveError;
use crate::head::put_head;
use crate::last::read_last;
use crate::line::read_line;
use crate::page::Page;
use crate::system_signals::Signals;
use crate::table::{Guess, PortTable};
use crate::truncation::{Cut, is_cut};
use crate::words::{cut, is_digit};
use fb_system::System;
use fb_trace::Outcome;
use fb_types::Form;
use std::alloc::{AllocError, Global};
use std::io::{BufRead, Write};

/// Reads the next line into a buffer, with its line feed. At the end of the text the buffer is empty.
///
/// # Errors
/// `Memory` if the buffer can't grow, and `Read` if the reader fails otherwise.
pub fn next_line<R: BufRead>(input: &mut R, line: &mut Vec<u8>) -> Result<(), WaveError>
    ensures read { OnOk result (Consumes (R.remaining input.old) (R.remaining input.new) line.new.items) }
    ensures line { OnOk result (IsFirstLine line.new.items (R.remaining input.old)) }
    ensures end { OnOk result (line.new.items ≡ [] → IsAtEnd (R.remaining input.old)) }
    ensures fault { IfErr result IsReadFault }
{
    line.clear();
    input.read_until(b'\n', line)?;
    Ok(())
}

/// The form of a line by what comes after its first word.
fn form_after(rest: &[u8]) -> Form
    ensures { result ≡ form_by rest.now }
{
    match rest {
        [_, first, ..] if is_digit(*first) => Form::Two,
        _ => Form::One,
    }
}

/// The form of the lines of a trace that begins with this one. In form two the second word is a number, and in form one
/// it is a name.
pub fn form_of(line: &[u8]) -> Form
    ensures form { (word rest : List ℕ) (b : ℕ) → is_word word ≡ true → line.now ≡ word ++ 32 ∷ (b ∷ rest)
        → result ≡ (if named.is_digit b then Form.Two else Form.One) }
    ensures whole { is_word line.now ≡ true → result ≡ Form.One }
    ensures parted { (first rest : List ℕ) → IsCut line.now first rest → result ≡ form_by rest }
{
    match cut(line) {
        Some(parts) => form_after(parts.1),
        None => Form::One,
    }
}

/// Whether this end can come after a line of this tick.
pub fn can_end(tick: u64, end: Outcome) -> bool
    ensures { IsTrue result ↔ IsAfter tick end }
{
    match end {
        Outcome::End(horizon) => tick < horizon,
        Outcome::Stop(mark) => tick <= mark.tick,
    }
}

/// Whether the text is at its end. Otherwise this reads a line.
///
/// # Errors
/// As those of `next_line`.
pub fn is_over<R: BufRead>(input: &mut R, line: &mut Vec<u8>) -> Result<bool, WaveError>
    ensures over { IfOk result (λ over. IsTrue over → IsAtEnd (R.remaining input.old)) }
    ensures more { IfOk result (λ over. over ≡ false → IfSome (R.remaining input.old) (λ rest. 0 < length rest)) }
    ensures line { OnOk result (IsFirstLine line.new.items (R.remaining input.old)) }
    ensures fault { IfErr result IsReadFault }
{
    next_line(input, line)?;
    Ok(line.is_empty())
}

/// The dump of the part of a trace that was read.
#[derive(Drop)]
pub(crate) struct Progress {
    pub(crate) dump: Dump,
    pub(crate) page: Page,
    pub(crate) guess: Guess,
    /// The tick of the last line, or 0 before the first.
    pub(crate) tick: u64,
}

impl Progress {
    /// Before the first line: the head of the dump waits to be written.
    pub(crate) fn begin(alloc: Global, table: &PortTable) -> Result<Progress, AllocError>
        ensures dump { IfOk result (λ p. IsDump table.now.system.now p.dump) }
        ensures tick { IfOk result (λ p. p.tick ≡ 0) }
        ensures shown { IfOk result (λ p. HasShown table.now.system.now [] p.page.text.items p.dump) }
        ensures written { IfOk result (λ p. p.page.written ≡ 0) }
    {
        let guess = Guess::new(alloc, table)?;
        let signals = Signals::of(alloc, table.system)?;
        let mut text = Vec::new(alloc);
        put_head(alloc, &mut text, table.system, signals.firsts.as_slice())?;
        Ok(Progress {
            dump: Dump { signals, tick: 0 },
            page: Page { text, written: 0 },
            guess,
            tick: 0,
        })
    }

    /// Shows the line with this number, if a trace can go on with it.
    fn take(
        &mut self,
        alloc: Global,
        table: &PortTable,
        form: Form,
        number: u64,
        line: &[u8],
    ) -> Result<(), WaveError>
        requires { IsDump table.now.system.now self.old.dump }
        ensures taken { OnOk result (IsTaken table.now.system.now form line.now self.old self.new) }
        ensures fault { IfErr result IsNoWriteError }
        ensures tick { IfErr result (λ e. self.new.tick ≡ self.old.tick) }
        ensures refused { HasNames table.now.system.now
            → IfErr result (RefusesLine table.now.system.now form self.old.tick number line.now) }
    {
        let Some(line) = read_line(alloc, table, &mut self.guess, form, line)? else {
            return Err(WaveError::Refused(number));
        };
        if line.key.tick < self.tick {
            return Err(WaveError::Refused(number));
        }
        self.dump.take(table.system, &line, &mut self.page.text)?;
        self.tick = line.key.tick;
        Ok(())
    }

    /// Shows the end and writes all that waits, if the text is at its end. The line of the end has this number.
    fn finish<R: BufRead, W: Write>(
        &mut self,
        system: &System,
        end: Outcome,
        number: u64,
        current: &mut CurrentLine,
        input: &mut R,
        out: &mut W,
    ) -> Result<(), WaveError>
        requires number { number + 1 < 2 ^ 64 }
        requires end { IsLast system.now current.old.text.items end }
        ensures whole { OnOk result (IsFinished system.now end self.old (R.remaining input.old) (W.contents out.old) (W.contents out.new)) }
        ensures part { IfErr result (IsUnfinished system.now self.old (W.contents out.old) (W.contents out.new)) }
        ensures refused { IfErr result (RefusesEnd end self.old.tick number (R.remaining input.old)) }
        ensures tick { self.new.tick ≡ self.old.tick }
        ensures current { IfErr result (IsRefusedAt end self.old.tick number (R.remaining input.old) current.old current.new) }
    {
        if !can_end(self.tick, end) {
            return Err(WaveError::Refused(number));
        }
        self.dump.end(system, end, &mut self.page.text)?;
        current.after_end = true;
        if !is_over(input, &mut current.text)? {
            return Err(WaveError::Refused(number + 1));
        }
        self.page.flush(out)?;
        Ok(())
    }

    /// Shows that the trace is cut off, and writes all that waits.
    fn finish_cut<W: Write>(&mut self, out: &mut W) -> Result<(), WaveError>
        ensures whole { (sys : Flat) → OnOk result (IsCutFinished sys self.old (W.contents out.old) (W.contents out.new)) }
        ensures part { (sys : Flat) → IfErr result (IsCutUnfinished sys self.old (W.contents out.old) (W.contents out.new)) }
    {
        self.dump.cut_off(&mut self.page.text)?;
        self.page.flush(out)?;
        Ok(())
    }

    /// Reads a trace and writes its dump. The caller lends the buffer for lines, so that it has the line of a refusal.
    pub(crate) fn copy<R: BufRead, W: Write>(
        &mut self,
        alloc: Global,
        table: &PortTable,
        cut: Cut,
        current: &mut CurrentLine,
        input: &mut R,
        out: &mut W,
    ) -> Result<(), WaveError>
        requires dump { IsDump table.now.system.now self.old.dump }
        requires tick { self.old.tick ≡ 0 }
        requires shown { HasShown table.now.system.now [] self.old.page.text.items self.old.dump }
        requires written { self.old.page.written ≡ 0 }
        requires current { current.old.after_end ≡ false }
        ensures whole { OnOk result (IfSome (R.remaining input.old) (λ text. IsShown cut table.now.system.now text (W.contents out.old) (W.contents out.new))) }
        ensures part { IfErr result (FailsShown cut table.now.system.now (W.contents out.old) (W.contents out.new)) }
        ensures refused { HasNames table.now.system.now
            → IfErr result (BlamesShown cut table.now.system.now (R.remaining input.old)) }
        ensures before { HasNames table.now.system.now
            → IfErr result (WritesBefore table.now.system.now (R.remaining input.old) (W.contents out.old) (W.contents out.new)) }
        ensures current { HasNames table.now.system.now
            → IfErr result (IsRefusedLine table.now.system.now (R.remaining input.old) (record current.new { tick = self.new.tick })) }
    {
        next_line(input, &mut current.text)?;
        let form = form_of(current.text.as_slice());
        current.form = form;
        for number in 1..u64::MAX {
            if let Some(end) = read_last(table.system, current.text.as_slice()) {
                return self.finish(table.system, end, number, current, input, out);
            }
            if is_cut(cut, current.text.as_slice()) {
                return self.finish_cut(out);
            }
            self.take(alloc, table, form, number, current.text.as_slice())?;
            self.page.flush_much(out)?;
            next_line(input, &mut current.text)?;
        }
        Err(WaveError::Read)
    }
}
