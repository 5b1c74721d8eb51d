//! How events are taken, and the end.

ghost use Rattle.std.specs.Prelude.{◌≡◌, ◌+◌, ◌^◌, ◌≤◌, IfErr, IfOk, OnErr, OnOk, length};
ghost use Rattle.std.specs.Io.KnownBytes.{Appends};
ghost use Rattle.fb_trace.specs.End.{ending_of};
ghost use Rattle.fb_trace.specs.OfSystem.{EndsIn};
ghost use Rattle.fb_types.specs.OfSystem.{last_line};
ghost use Rattle.fb_trace.specs.Progress.{bounded};
ghost use Rattle.fb_session.specs.Going.{EndsAt, GoesUntil, IsBeginning, IsWhole, Peeks, TakesOne};
ghost use Rattle.fb_session.specs.Pasts.{IsOf, Past, StandsBy};
ghost use Rattle.fb_session.specs.Running.{IsWriteAfter};
ghost use Rattle.fb_session.specs.declared.stage.Stage.TheVariants as going;

use crate::fault::SessionFault;
use crate::run::{Reach, run_on};
use crate::session::Session;
use crate::stage::Stage;
use fb_sim_machine::Step;
use fb_system::System;
use fb_trace::{Outcome, write_last_with_count, write_lines_with_count};
use fb_types::{LATEST_TICK, StopMark};
use std::io::Write;

/// Where a session comes to. Ticks are milliseconds.
#[derive(Clone, Copy)]
pub enum Until {
    /// All events below the tick are taken.
    At,
    /// It pauses after an event with a line of the break with this number, at this tick.
    Break(u64, u64),
    /// A resource stopped. The line of the stop is written.
    Stop(StopMark),
    /// It had stopped or failed before. Nothing is written.
    Stopped,
    /// The tick is below this one, which is the least to which it may go. Nothing is written.
    Below(u64),
}

/// What came of taking one event.
#[derive(Clone, Copy)]
pub enum Next {
    /// Nothing waits below the greatest tick.
    Nothing,
    /// An event was taken, at this tick in milliseconds.
    Took(u64),
    /// An event was taken, and stopped its resource. The line of the stop is written.
    Stop(StopMark),
    /// The session had stopped or failed before.
    Stopped,
}

/// How a session ends.
#[derive(Clone, Copy)]
pub enum End {
    /// It is over: at its tick, or where a resource stopped.
    Over(Outcome),
    /// The tick is below this one, which is the least at which it may end.
    Below(u64),
}

/// Writes the last line of a trace, after this many bytes of the call. Returns the count of all bytes of the call.
///
/// # Errors
/// If the writer fails. The fault has the count of all bytes of the call.
fn write_end<W: Write>(
    out: &mut W,
    system: &System,
    end: Outcome,
    written: u128,
) -> Result<u128, SessionFault>
    requires { EndsIn system.now end }
    ensures whole { OnOk result (Appends (W.contents out.old) (W.contents out.new) (last_line system.now (ending_of end))) }
    ensures counted { IfOk result (λ n. n ≡ bounded (written + length (last_line system.now (ending_of end)))) }
    ensures part { IfErr result (IsWriteAfter (W.contents out.old) (W.contents out.new) (last_line system.now (ending_of end)) written) }
{
    match write_last_with_count(out, system, end) {
        Ok(bytes) => Ok(written.saturating_add(bytes)),
        Err(fault) => Err(SessionFault::Write(written.saturating_add(fault.written))),
    }
}

impl Session<'_, '_> {
    /// Takes all events below this tick, which is 1 to 10^12, and writes their lines. It pauses after the first event that
    /// has a line of a break.
    ///
    /// # Errors
    /// When memory runs out, or the writer fails. The session has then failed, and writes nothing any more.
    pub fn until<W: Write>(&mut self, to: u64, out: &mut W) -> Result<Until, SessionFault>
        requires stands { (p : Past) × StandsBy self.old p }
        requires most { to ≤ 10 ^ 12 }
        ensures { GoesUntil to self.old self.new (W.contents out.old) (W.contents out.new) result }
    {
        let Stage::Running = self.stage else {
            return Ok(Until::Stopped);
        };
        if to < self.reached {
            return Ok(Until::Below(self.reached));
        }
        let reach = Reach {
            to,
            steps: self.steps,
            form: self.form,
            is_watched: !self.breaks.is_empty(),
        };
        match run_on(self.system, &mut self.machine, &mut self.breaks, reach, out) {
            Ok((end, written)) => match end {
                Until::At => {
                    self.written = self.written.saturating_add(written);
                    self.reached = to;
                    Ok(Until::At)
                }
                Until::Break(number, tick) => {
                    self.written = self.written.saturating_add(written);
                    self.reached = tick + 1;
                    Ok(Until::Break(number, tick))
                }
                Until::Stop(mark) => {
                    self.reached = mark.tick + 1;
                    match write_end(out, self.system, Outcome::Stop(mark), written) {
                        Ok(bytes) => {
                            self.written = self.written.saturating_add(bytes);
                            self.stage = Stage::Stopped(mark);
                            Ok(Until::Stop(mark))
                        }
                        Err(fault) => {
                            self.stage = Stage::Failed(fault);
                            Err(fault)
                        }
                    }
                }
                Until::Stopped | Until::Below(_) => unreachable!(),
            },
            Err(fault) => {
                self.stage = Stage::Failed(fault);
                Err(fault)
            }
        }
    }

    /// Takes the least event that waits below tick 10^12, and writes its lines. It pauses at no break.
    ///
    /// # Errors
    /// As `until`.
    pub fn next<W: Write>(&mut self, out: &mut W) -> Result<Next, SessionFault>
        requires { (p : Past) × StandsBy self.old p }
        ensures { TakesOne self.old self.new (W.contents out.old) (W.contents out.new) result }
    {
        let Stage::Running = self.stage else {
            return Ok(Next::Stopped);
        };
        let step = match self.machine.take_next(self.system, LATEST_TICK, self.steps) {
            Ok(step) => step,
            Err(_) => {
                self.stage = Stage::Failed(SessionFault::Memory);
                return Err(SessionFault::Memory);
            }
        };
        let written = match write_lines_with_count(
            out,
            self.system,
            self.form,
            self.machine.lines(),
        ) {
            Ok(bytes) => bytes,
            Err(fault) => {
                self.stage = Stage::Failed(SessionFault::Write(fault.written));
                return Err(SessionFault::Write(fault.written));
            }
        };
        self.machine.clear_lines();
        match step {
            Step::Nothing => {
                self.written = self.written.saturating_add(written);
                Ok(Next::Nothing)
            }
            Step::Took(tick) => {
                self.written = self.written.saturating_add(written);
                self.reached = tick + 1;
                Ok(Next::Took(tick))
            }
            Step::Stopped(mark) => {
                self.reached = mark.tick + 1;
                match write_end(out, self.system, Outcome::Stop(mark), written) {
                    Ok(bytes) => {
                        self.written = self.written.saturating_add(bytes);
                        self.stage = Stage::Stopped(mark);
                        Ok(Next::Stop(mark))
                    }
                    Err(fault) => {
                        self.stage = Stage::Failed(fault);
                        Err(fault)
                    }
                }
            }
        }
    }

    /// Takes all events below this tick without a pause, writes their lines, and then the last line. After a stop nothing
    /// is written: its line is the last one. The session is over. `Below` says that the tick is below the least to which it
    /// may go; then nothing is written, and the session goes on.
    ///
    /// # Errors
    /// As `until`. After a call that failed it is the fault of that call, and nothing is written.
    pub fn end<W: Write>(&mut self, to: u64, out: &mut W) -> Result<End, SessionFault>
        requires stands { (p : Past) × StandsBy self.old p }
        requires most { to ≤ 10 ^ 12 }
        ensures { EndsAt to self.old self.new (W.contents out.old) (W.contents out.new) result }
    {
        if to < self.reached {
            return Ok(End::Below(self.reached));
        }
        match self.stage {
            Stage::Failed(fault) => Err(fault),
            Stage::Stopped(mark) => Ok(End::Over(Outcome::Stop(mark))),
            Stage::Running => match self.finish(to, out) {
                Ok(outcome) => Ok(End::Over(outcome)),
                Err(fault) => {
                    self.stage = Stage::Failed(fault);
                    Err(fault)
                }
            },
        }
    }

    /// Takes all that is left below the tick, and writes it with the last line.
    fn finish<W: Write>(&mut self, to: u64, out: &mut W) -> Result<Outcome, SessionFault>
        requires stands { (p : Past) × StandsBy self.old p }
        requires least { self.old.reached ≤ to }
        requires most { to ≤ 10 ^ 12 }
        requires running { self.old.stage ≡ going.Running }
        ensures whole { IfOk result (λ o. IsWhole to self.old self.new (W.contents out.old) (W.contents out.new) (ending_of o)) }
        ensures of { IsOf self.old self.new }
        ensures counted { OnErr result (self.new.written ≡ self.old.written) }
        ensures failed { IfErr result (λ e. (p : Past) → StandsBy self.old p → IsBeginning self.old p e (W.contents out.old) (W.contents out.new)) }
    {
        let reach = Reach {
            to,
            steps: self.steps,
            form: self.form,
            is_watched: false,
        };
        let (end, written) = run_on(self.system, &mut self.machine, &mut self.breaks, reach, out)?;
        match end {
            Until::At => {
                let bytes = write_end(out, self.system, Outcome::End(to), written)?;
                self.written = self.written.saturating_add(bytes);
                Ok(Outcome::End(to))
            }
            Until::Stop(mark) => {
                let bytes = write_end(out, self.system, Outcome::Stop(mark), written)?;
                self.written = self.written.saturating_add(bytes);
                Ok(Outcome::Stop(mark))
            }
            Until::Break(..) | Until::Stopped | Until::Below(_) => unreachable!(),
        }
    }

    /// The tick, in milliseconds, and the resource of the least event that waits below tick 10^12, if there is one and the
    /// session goes on.
    pub fn peek(&self) -> Option<(u64, u32)>
        requires { (p : Past) × StandsBy self.now p }
        ensures { Peeks self.now result }
    {
        match self.stage {
            Stage::Running => self.machine.first(LATEST_TICK),
            Stage::Stopped(_) | Stage::Failed(_) => None,
        }
    }
}
