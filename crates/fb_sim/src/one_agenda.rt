//! A run on one thread: one agenda of all resources, of which the least event is always taken (`fb_sim_machine`). The
//! lines are written as the run goes on. `run_serial` uses it, and so does `run` with one worker.

ghost use Rattle.std.specs.Prelude.{◌≡◌, [], IfOk, IfErr, Err};
ghost use Rattle.fb_types.specs.Headline.{stimuli_of};
ghost use Rattle.fb_types.specs.OfSystem.{opening_agenda, opening_state};
ghost use Rattle.fb_sim_machine.specs.Machines.{IsAt, IsReady};
ghost use Rattle.fb_trace.specs.End.{ending_of};
ghost use Rattle.fb_trace.specs.OfSystem.{EndsIn};
ghost use Rattle.fb_sim.specs.Given.{Given};
ghost use Rattle.fb_sim.specs.OneAgenda.{RunsThrough};
ghost use Rattle.fb_sim.specs.Rounds.{FailsRun, RunsOn};
ghost use Rattle.fb_sim.specs.Serial.{AreWithin, Declares, Writes};

use crate::options::Options;
use crate::outcome::RunError;
use crate::rounds::all_rounds::with_written;
use crate::rounds::hand_out;
use crate::rounds::pace::{AgendaTrial, Pace, Verdict};
use crate::runs::close;
use fb_sim_machine::{Machine, Pause};
use fb_system::System;
use fb_trace::Outcome;
use std::alloc::{AllocError, Global};
use std::io;
use std::io::Write;
use std::time::CpuClock;

/// This many lines are gathered before they are written: enough for few writes, and few enough to stay in a processor's
/// cache until then.
const MANY_LINES: usize = 4096;

/// Takes all events below the horizon, or up to the first stop, and writes their lines, but no last line. The count is
/// that of the bytes written. No memory is allocated between the first byte of a piece and its last.
fn run_through<W: Write>(
    system: &System,
    machine: &mut Machine,
    options: Options,
    out: &mut W,
) -> Result<(Outcome, u128), RunError>
    requires options { AreWithin options }
    requires ready { IsReady system.now options.steps 0 machine.old }
    requires at { IsAt system.now (opening_state system.now) (opening_agenda system.now (stimuli_of system.now)) machine.old }
    requires none { machine.old.traffic.outbox.lines.items ≡ [] }
    ensures ends { IfOk result (λ r. EndsIn system.now r.0) }
    ensures ran { IfOk result (λ r. RunsThrough system.now options (W.contents out.old) (W.contents out.new) (ending_of r.0) r.1) }
    ensures failed { IfErr result (λ e. RunsOn system.now options [] (W.contents out.old) (W.contents out.new) (Err e)) }
{
    system.facts(); // for the prover: what holds of every accepted system
    let mut written: u128 = 0;
    loop {
        let pause = machine.go_on(system, options.horizon, options.steps, MANY_LINES)?;
        match hand_out(out, system, options.form, machine.lines()) {
            Ok(bytes) => written = written.saturating_add(bytes),
            Err(error) => return Err(with_written(written, error)),
        }
        match pause {
            Pause::Lines => machine.clear_lines(),
            Pause::Horizon => return Ok((Outcome::End(options.horizon), written)),
            Pause::Stop(mark) => return Ok((Outcome::Stop(mark), written)),
        }
    }
}

/// After this many lines a trial reads the clock again.
const SOME_LINES: usize = 64;

/// Whether one agenda gives the first lines of a run, and their text, at a higher pace than rounds did. Nothing is
/// written.
///
/// # Errors
/// When memory runs out.
pub(crate) fn is_quicker<C: CpuClock>(
    alloc: Global,
    system: &System,
    options: Options,
    rounds: Pace,
    clock: &C,
) -> Result<bool, AllocError>
    requires options { AreWithin options }
{
    let mut machine = Machine::open(alloc, system)?;
    let mut trial = AgendaTrial::new(rounds, clock);
    loop {
        let pause = machine.go_on(system, options.horizon, options.steps, SOME_LINES)?;
        if hand_out(&mut io::sink(), system, options.form, machine.lines()).is_err() {
            return Ok(false);
        }
        match trial.count(clock, machine.lines().len()) {
            Verdict::Slower => return Ok(false),
            Verdict::Quicker => return Ok(true),
            Verdict::Open => {}
        }
        match pause {
            Pause::Lines => machine.clear_lines(),
            Pause::Horizon | Pause::Stop(_) => return Ok(true),
        }
    }
}

/// Runs an accepted system on this thread, and writes its trace.
pub(crate) fn run_one_agenda<W: Write>(
    alloc: Global,
    system: &System,
    options: Options,
    out: &mut W,
) -> Result<Outcome, RunError>
    requires { AreWithin options }
    ensures trace { (given : Given) → Declares given system.now → IfOk result (λ o. Writes given options (W.contents out.old) (W.contents out.new) (ending_of o)) }
    ensures failed { (given : Given) → Declares given system.now → IfErr result (FailsRun given options (W.contents out.old) (W.contents out.new)) }
{
    let mut machine = Machine::open(alloc, system)?;
    let (end, written) = run_through(system, &mut machine, options, out)?;
    close(out, system, end, written)?;
    Ok(end)
}
