//! The lines of a trace, with a look at the next one.

ghost use Rattle.std.specs.Prelude.{[], IsTrue, false, IfErr, IfOk, IfSome, OnOk, ◌≡◌, ◌<◌, ◌+◌, length};
ghost use Rattle.std.specs.Io.KnownBytes.{Consumes, IsAtEnd};
ghost use Rattle.fb_wave.specs.Copying.{IsFirstLine};
ghost use Rattle.fb_inspect.specs.walk.Lines.{IsPlain};
ghost use Rattle.fb_inspect.specs.OfSystem.{IsNext};
ghost use Rattle.fb_inspect.specs.Refusals.{IsNoRefusal, IsRefusalAfter, Refuses};
ghost use Rattle.fb_inspect.specs.walk.Walking.{unread};
ghost use Rattle.fb_inspect.specs.declared.walk.error.WalkError.TheVariants.{Refused};

use crate::refused::finding::Finding;
use crate::walk::ahead::Ahead;
use crate::walk::error::{Refusal, WalkError, read_fault};
use fb_trace::Outcome;
use fb_types::{Form, Key, Line};
use fb_wave::{Guess, PortTable, can_end, is_over, next_line, read_last, read_line};
use std::alloc::{AllocError, Global};
use std::io::BufRead;

/// What a line of a trace is.
#[derive(Drop)]
pub enum Next {
    Event(Line),
    /// The last line.
    End(Outcome),
    /// No line that can come here.
    Bad,
}

/// How far a trace was read.
pub struct Reading {
    pub guess: Guess,
    /// The number of the next line, from 1.
    pub number: u64,
    /// The next line, with its line feed.
    pub line: Vec<u8>,
    /// What the next line is.
    pub next: Next,
    /// The tick of the line before it, in milliseconds, or 0 before the first.
    pub tick: u64,
    /// Whether it comes after a last line.
    pub after_end: bool,
}

impl Drop for Reading {
    fn drop(self) {
        let Reading {
            guess: _,
            number: _,
            line: _,
            next: _,
            tick: _,
            after_end: _,
        } = self;
    }
}

/// Reads the next line into a buffer, with its line feed.
pub(crate) fn read_on<R: BufRead>(input: &mut R, line: &mut Vec<u8>) -> Result<(), WalkError>
    ensures read { OnOk result (Consumes (R.remaining input.old) (R.remaining input.new) line.new.items) }
    ensures line { OnOk result (IsFirstLine line.new.items (R.remaining input.old)) }
    ensures end { OnOk result (line.new.items ≡ [] → IsAtEnd (R.remaining input.old)) }
    ensures fault { IfErr result IsNoRefusal }
{
    match next_line(input, line) {
        Ok(()) => Ok(()),
        Err(error) => Err(read_fault(error)),
    }
}

/// Whether the text is at its end. Otherwise this reads a line.
fn is_all_read<R: BufRead>(input: &mut R, line: &mut Vec<u8>) -> Result<bool, WalkError>
    ensures over { IfOk result (λ over. IsTrue over → IsAtEnd (R.remaining input.old)) }
    ensures more { IfOk result (λ over. over ≡ false → IfSome (R.remaining input.old) (λ rest. 0 < length rest)) }
    ensures fault { IfErr result IsNoRefusal }
{
    match is_over(input, line) {
        Ok(over) => Ok(over),
        Err(error) => Err(read_fault(error)),
    }
}

/// A key with 0 for what a form does not show of it.
fn plain_key(form: Form, key: Key) -> Key
    ensures tick { result.tick ≡ key.tick }
    ensures resource { result.resource ≡ key.resource }
    ensures plain { IsPlain form result }
    ensures two { form ≡ Form.Two → result ≡ key }
{
    match form {
        Form::One => Key {
            tick: key.tick,
            resource: key.resource,
            class: 0,
            a: 0,
            b: 0,
        },
        Form::Two => key,
    }
}

/// What a line is that comes after one of this tick.
pub(crate) fn judged(
    alloc: Global,
    table: &PortTable<'_>,
    guess: &mut Guess,
    form: Form,
    tick: u64,
    line: &[u8],
) -> Result<Next, AllocError>
    ensures { IfOk result (IsNext table.now.system.now form tick line.now) }
{
    if let Some(end) = read_last(table.system, line) {
        if !can_end(tick, end) {
            return Ok(Next::Bad);
        }
        return Ok(Next::End(end));
    }
    let Some(mut event) = read_line(alloc, table, guess, form, line)? else {
        return Ok(Next::Bad);
    };
    if event.key.tick < tick {
        return Ok(Next::Bad);
    }
    event.key = plain_key(form, event.key);
    Ok(Next::Event(event))
}

impl Reading {
    /// Reads on: the next line, which is of this tick, is passed, and the line after it is the next one then.
    pub(crate) fn advance<R: BufRead>(
        &mut self,
        alloc: Global,
        table: &PortTable<'_>,
        form: Form,
        tick: u64,
        input: &mut R,
    ) -> Result<(), WalkError>
        ensures next { OnOk result (IsNext table.now.system.now form tick self.new.line.items self.new.next) }
        ensures read { OnOk result (Consumes (R.remaining input.old) (R.remaining input.new) self.new.line.items) }
        ensures first { OnOk result (IsFirstLine self.new.line.items (R.remaining input.old)) }
        ensures number { OnOk result (self.new.number ≡ self.old.number + 1) }
        ensures fault { IfErr result IsNoRefusal }
    {
        read_on(input, &mut self.line)?;
        // No reader has more lines than that.
        let Some(number) = self.number.checked_add(1) else {
            return Err(WalkError::Read);
        };
        self.number = number;
        self.tick = tick;
        let line = self.line.as_slice();
        self.next = judged(alloc, table, &mut self.guess, form, tick, line)?;
        Ok(())
    }

    /// The next line was the last one, so nothing may come after it. What comes was read ahead, or this reads it.
    pub(crate) fn finish<R: BufRead>(
        &mut self,
        ahead: &Ahead,
        input: &mut R,
    ) -> Result<(), WalkError>
        ensures over { OnOk result (IsAtEnd (unread ahead.now (R.remaining input.old))) }
        ensures refused { IfErr result (Refuses (λ refusal. IsRefusalAfter self.old.number refusal × IfSome (unread ahead.now (R.remaining input.old)) (λ rest. 0 < length rest))) }
    {
        self.after_end = true;
        if !ahead.text.is_empty() {
            return Err(self.refusal_after());
        }
        if is_all_read(input, &mut self.line)? {
            Ok(())
        } else {
            Err(self.refusal_after())
        }
    }

    /// The line that was the next one is it again.
    pub(crate) fn put_back(&mut self, line: Line)
        ensures { self.new ≡ record self.old { next = Next.Event line } }
    {
        self.next = Next::Event(line);
    }

    /// The refusal of the next line, for what was found.
    pub fn refusal(&self, finding: Finding) -> WalkError
        ensures { result ≡ Refused (record { number = self.now.number; finding = finding }) }
    {
        WalkError::Refused(Refusal {
            number: self.number,
            finding,
        })
    }

    /// The refusal of the line after the next one.
    pub fn refusal_after(&self) -> WalkError
        ensures { Refuses (IsRefusalAfter self.now.number) result }
    {
        // No reader has more lines than that.
        match self.number.checked_add(1) {
            Some(number) => WalkError::Refused(Refusal {
                number,
                finding: Finding::Line,
            }),
            None => WalkError::Read,
        }
    }
}
