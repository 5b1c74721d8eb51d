//! Lines that are read ahead.

ghost use Rattle.std.specs.Prelude.{◌≡◌, ◌∷◌, ◌++◌, [], IfErr, IfNone, IfOk, IfSome, IsTrue, List, None, OnOk, Some, ℕ, true, false};
ghost use Rattle.fb_types.specs.declared.run.Line as run;
ghost use Rattle.fb_inspect.specs.Refusals.{IsNoRefusal};
ghost use Rattle.fb_inspect.specs.walk.Standing.{IsLeft};
ghost use Rattle.fb_inspect.specs.walk.Walking.{IsOwnRow, IsReadOn, unread};
ghost use Rattle.fb_inspect.specs.walk.OfWalk.{AreAhead, AreCutOff, AreGathered, HasNames, IsTextOf, MayBeAhead, ReadsWhole};

use crate::walk::error::WalkError;
use crate::walk::reading::{Next, judged, read_on};
use crate::walk::trail::Fixed;
use fb_types::Line;
use fb_wave::truncation::is_cut;
use fb_wave::{Cut, Guess, PortTable};
use std::alloc::{AllocError, Global};
use std::io::BufRead;

/// The lines after that of an event: those of emissions of its block in its tick, and the line after them. They are read
/// before the event is taken, since that last line decides whether the trace ends with it.
pub struct Ahead {
    /// The lines that the walk has not passed yet.
    pub text: Vec<u8>,
    /// Those of emissions that were read last, as they were read.
    pub rows: Vec<Line>,
    /// The last line that was read.
    pub last: Vec<u8>,
    guess: Guess,
    /// The number of the line of the first event after which a resource had used too many steps in a tick, if there is
    /// one.
    pub excess: Option<u64>,
}

impl Drop for Ahead {
    fn drop(self) {
        let Ahead {
            text: _,
            rows: _,
            last: _,
            guess: _,
            excess: _,
        } = self;
    }
}

/// Whether a line is one of an emission of the block of another line, in its tick.
fn is_own(line: &Line, first: &Line) -> bool
    ensures own { IsTrue result → IsOwnRow line.now first.now }
    ensures other { result ≡ false → IsOwnRow line.now first.now → ⊥ }
{
    !line.taken && line.instance == first.instance && line.key.tick == first.key.tick
}

/// The line that was read, if it is one of an emission of the block of another line, in its tick.
fn own_row(next: Next, first: &Line) -> Option<Line>
    ensures own { IfSome result (λ line. (next ≡ Next.Event line) × IsOwnRow line first.now) }
    ensures none { IfNone result ((line : run.Line) → next ≡ Next.Event line → IsOwnRow line first.now → ⊥) }
{
    let Next::Event(line) = next else {
        return None;
    };
    if !is_own(&line, first) {
        return None;
    }
    Some(line)
}

fn keep_row(rows: &mut Vec<Line>, row: Line) -> Result<(), AllocError>
    ensures { OnOk result (rows.new.items ≡ rows.old.items ++ row ∷ []) }
{
    rows.push(row)?;
    Ok(())
}

impl Ahead {
    /// Nothing was read ahead yet.
    ///
    /// # Errors
    /// When memory runs out.
    pub fn new(alloc: Global, table: &PortTable<'_>) -> Result<Ahead, AllocError>
        ensures empty { IfOk result (λ ahead. ahead.text.items ≡ []) }
        ensures excess { IfOk result (λ ahead. ahead.excess ≡ None) }
    {
        Ok(Ahead {
            text: Vec::new(alloc),
            rows: Vec::new(alloc),
            last: Vec::new(alloc),
            guess: Guess::new(alloc, table)?,
            excess: None,
        })
    }

    /// Notes whether the resource of the event whose line has this number had used too many steps after it. The first
    /// such event stays.
    pub(crate) fn note(&mut self, number: u64, is_excess: bool)
        ensures text { self.new.text ≡ self.old.text }
        ensures rows { self.new.rows ≡ self.old.rows }
        ensures last { self.new.last ≡ self.old.last }
        ensures first { (first : ℕ) → self.old.excess ≡ Some first → self.new.excess ≡ Some first }
        ensures over { self.old.excess ≡ None → is_excess ≡ true → self.new.excess ≡ Some number }
        ensures none { self.old.excess ≡ None → is_excess ≡ false → self.new.excess ≡ None }
    {
        if self.excess.is_none() && is_excess {
            self.excess = Some(number);
        }
    }

    /// Reads the lines after that of an event. The last of them is not added to the text.
    fn gather<R: BufRead>(
        &mut self,
        fixed: &Fixed<'_, '_>,
        first: &Line,
        input: &mut R,
    ) -> Result<(), WalkError>
        ensures gathered { OnOk result (AreGathered fixed.now first.now self.new.rows.items self.new.text.items self.new.last.items (R.remaining input.old) (R.remaining input.new)) }
        ensures excess { OnOk result (self.new.excess ≡ self.old.excess) }
        ensures other { HasNames fixed.now → OnOk result ((m : run.Line) → IsTextOf fixed.now m self.new.last.items → IsOwnRow m first.now → ⊥) }
        ensures fault { IfErr result IsNoRefusal }
    {
        self.text.clear();
        self.rows.clear();
        for _ in 0..u64::MAX {
            read_on(input, &mut self.last)?;
            let line = self.last.as_slice();
            let tick = first.key.tick;
            let next = judged(
                fixed.alloc,
                fixed.table,
                &mut self.guess,
                fixed.form,
                tick,
                line,
            )?;
            let Some(row) = own_row(next, first) else {
                return Ok(());
            };
            self.text.extend_from_slice(line)?;
            keep_row(&mut self.rows, row)?;
        }
        Err(WalkError::Read)
    }

    /// Reads the lines after that of an event, if the walk has passed all lines that were read ahead. Answers whether
    /// the trace is cut off in them, if it may be: then the part of a line is not added to the text.
    pub(crate) fn look<R: BufRead>(
        &mut self,
        fixed: &Fixed<'_, '_>,
        cut: Cut,
        first: &Line,
        input: &mut R,
    ) -> Result<bool, WalkError>
        ensures whole { IfOk result (λ is_cut. is_cut ≡ false → IsReadOn (unread self.old (R.remaining input.old)) (unread self.new (R.remaining input.new))) }
        ensures excess { OnOk result (self.new.excess ≡ self.old.excess) }
        ensures ahead { HasNames fixed.now → IfOk result (λ is_cut. is_cut ≡ false
            → IfSome (R.remaining input.old) (λ before. MayBeAhead fixed.now first.now self.old.text.items self.old.last.items before
            → IsLeft (R.remaining input.new) (λ rest. (self.old.text.items ++ before ≡ self.new.text.items ++ rest)
            × ((rows : List run.Line) × AreAhead fixed.now first.now rows self.new.text.items self.new.last.items rest)))) }
        ensures uncut { HasNames fixed.now → cut ≡ Cut.Allowed → IfOk result (λ is_cut. is_cut ≡ false
            → IfSome (R.remaining input.old) (λ before. ReadsWhole fixed.now first.now self.old self.new before (R.remaining input.new))) }
        ensures fault { IfErr result IsNoRefusal }
        ensures cut { IfOk result (λ is_cut. is_cut ≡ true → (cut ≡ Cut.Allowed) × (self.old.text.items ≡ []) × AreCutOff fixed.now first.now self.new.rows.items self.new.text.items (R.remaining input.old)) }
    {
        if !self.text.is_empty() {
            return Ok(false);
        }
        self.gather(fixed, first, input)?;
        if is_cut(cut, self.last.as_slice()) {
            return Ok(true);
        }
        self.text.extend_from_slice(self.last.as_slice())?;
        Ok(false)
    }

    /// Keeps the rest of the text, which the walk has not passed.
    pub(crate) fn keep(&mut self, rest: Vec<u8>) -> Result<(), AllocError>
        ensures text { OnOk result (self.new.text.items ≡ rest.items) }
        ensures last { self.new.last ≡ self.old.last }
        ensures excess { self.new.excess ≡ self.old.excess }
    {
        self.text.clear();
        self.text.extend_from_slice(rest.as_slice())
    }
}
