//! A run that reports its progress, from one hundredth of its horizon to the next.

ghost use Rattle.std.specs.Prelude.{◌≡◌, ◌^◌, ◌+◌, ◌<◌, ◌≤◌, ℕ, List, Option, IfOk, IfErr, string_bytes};
ghost use Rattle.fb_laws.specs.Sound.{AreGood};
ghost use Rattle.fb_trace.specs.End.{ending_of};
ghost use Rattle.fb_sim.specs.Serial.{AreWithin, Writes};
ghost use Rattle.fb_sim.specs.Rounds.{FailsRun};
ghost use Rattle.fb_trace.specs.Progress.{bounded};
ghost use Rattle.fb_sim.specs.declared.state.Stage.TheVariants as going;
ghost use Rattle.fb_sim.specs.Reports.{AreReports, Came, Comes, Ends, GoesOn, HasReported, Hears, hundredth, report_text, view_at};

use crate::options::{Inputs, Options};
use crate::outcome::RunError;
use crate::rounds::all_rounds::with_written;
use crate::rounds::tally::Written;
use crate::simulation::Simulation;
use fb_phase::OpenGate;
use fb_trace::{Outcome, write_front};
use std::alloc::{AllocError, Global};
use std::io::Write;
use std::sync::Wait;
use std::thread::Threads;

/// How much of a trace is written, and whether standard error took every report.
#[derive(Clone, Copy)]
struct ReportTally {
    bytes: u128,
    lines: u128,
    is_heard: bool,
}

impl ReportTally {
    /// The tally once this is written too.
    fn with(self, written: Written) -> ReportTally
        ensures { result ≡ record self { bytes = bounded (self.bytes + written.bytes); lines = bounded (self.lines + written.lines) } }
    {
        ReportTally {
            bytes: self.bytes.saturating_add(written.bytes),
            lines: self.lines.saturating_add(written.lines),
            is_heard: self.is_heard,
        }
    }
}

/// The tick of this many hundredths of the horizon.
fn hundredth(horizon: u64, count: u64) -> u64
    requires horizon { horizon ≤ 10 ^ 12 }
    requires count { count ≤ 100 }
    ensures value { result ≡ hundredth horizon count }
    ensures early { result ≤ horizon }
{
    horizon * count / 100
}

/// Runs a simulation on to a later tick, and writes what that gives, round by round.
fn go_on<R: Threads + Wait + Sync, W: Write>(
    rt: &R,
    simulation: &mut Simulation,
    to: u64,
    out: &mut W,
    tally: &mut ReportTally,
) -> Result<Outcome, RunError>
    requires running { simulation.old.stage ≡ going.Running }
    requires later { simulation.old.to < to }
    requires early { to ≤ 10 ^ 12 }
    ensures { GoesOn simulation.old simulation.new to (W.contents out.old) (W.contents out.new) tally.old tally.new result }
{
    match simulation.go_on(rt, to, out, &OpenGate) {
        Ok((outcome, written)) => {
            *tally = tally.with(written);
            Ok(outcome)
        }
        Err(error) => Err(with_written(tally.bytes, error)),
    }
}

/// The report that there are this many lines below a tick.
fn report_text(alloc: Global, horizon: u64, tick: u64, lines: u128) -> Result<String, AllocError>
    ensures { IfOk result (λ text. string_bytes text ≡ report_text horizon tick lines) }
{
    Ok(format!(in alloc; "progress: tick {tick} of {horizon}, {lines} lines\n")?)
}

/// Reports how many lines there are below a tick, and answers whether standard error took it. A report for which there
/// is no memory is one that it did not take.
fn report<E: Write>(alloc: Global, err: &mut E, horizon: u64, tick: u64, lines: u128) -> bool
    ensures { Hears result (E.contents err.old) (E.contents err.new) (report_text horizon tick lines) }
{
    match report_text(alloc, horizon, tick, lines) {
        Ok(text) => {
            let bytes = text.as_bytes();
            write_front(err, bytes) == bytes.len()
        }
        Err(_) => false,
    }
}

/// Goes from one hundredth of the horizon to the next, and reports it where that is another tick.
fn go_to_next<R: Threads + Wait + Sync, W: Write, E: Write>(
    rt: &R,
    alloc: Global,
    simulation: &mut Simulation,
    options: Options,
    count: u64,
    out: &mut W,
    err: &mut E,
    tally: &mut ReportTally,
) -> Result<Outcome, RunError>
    requires within { AreWithin options }
    requires good { AreGood simulation.old.inputs }
    requires count { count < 100 }
    requires at { simulation.old ≡ view_at simulation.old.inputs options (hundredth options.horizon count) }
    ensures { (first : Option (List ℕ)) → (quiet : Option (List ℕ)) → Came simulation.old.inputs options first (W.contents out.old) quiet (E.contents err.old) count tally.old
        → Comes simulation.old.inputs options simulation.new first (W.contents out.new) quiet (E.contents err.new) (count + 1) tally.new result }
{
    let before = hundredth(options.horizon, count);
    let tick = hundredth(options.horizon, count + 1);
    if tick <= before {
        return Ok(Outcome::End(tick));
    }
    match go_on(rt, simulation, tick, out, tally) {
        Ok(Outcome::End(_)) => {
            // Once standard error did not take a report, it gets no other.
            if tally.is_heard {
                tally.is_heard = report(alloc, err, options.horizon, tick, tally.lines);
            }
            Ok(Outcome::End(tick))
        }
        Ok(Outcome::Stop(mark)) => Ok(Outcome::Stop(mark)),
        Err(error) => Err(error),
    }
}

/// Goes with a simulation before its first event from hundredth to hundredth, to the horizon or as far as it comes.
fn go_far<R: Threads + Wait + Sync, W: Write, E: Write>(
    rt: &R,
    alloc: Global,
    simulation: &mut Simulation,
    options: Options,
    out: &mut W,
    err: &mut E,
) -> (Result<Outcome, RunError>, ReportTally)
    requires within { AreWithin options }
    requires good { AreGood simulation.old.inputs }
    requires first { simulation.old ≡ view_at simulation.old.inputs options 0 }
    ensures { Comes simulation.old.inputs options simulation.new (W.contents out.old) (W.contents out.new) (E.contents err.old) (E.contents err.new) 100 result.1 result.0 }
{
    let mut tally = ReportTally {
        bytes: 0,
        lines: 0,
        is_heard: true,
    };
    for count in 0..100 {
        match go_to_next(rt, alloc, simulation, options, count, out, err, &mut tally) {
            Ok(Outcome::End(_)) => {}
            Ok(Outcome::Stop(mark)) => return (Ok(Outcome::Stop(mark)), tally),
            Err(error) => return (Err(error), tally),
        }
    }
    (Ok(Outcome::End(options.horizon)), tally)
}

/// How a run ends that reports its progress.
#[derive(Drop)]
pub struct ReportedRun {
    /// What `run` answers.
    pub end: Result<Outcome, RunError>,
    /// Whether standard error took every report.
    pub is_heard: bool,
}

/// Goes with a simulation before its first event to its end, and drops it.
fn go_through<R: Threads + Wait + Sync, W: Write, E: Write>(
    rt: &R,
    alloc: Global,
    mut simulation: Simulation,
    options: Options,
    out: &mut W,
    err: &mut E,
) -> ReportedRun
    requires within { AreWithin options }
    requires good { AreGood simulation.inputs }
    requires first { simulation ≡ view_at simulation.inputs options 0 }
    ensures ends { Ends simulation.inputs options (W.contents out.old) (W.contents out.new) result.end }
    ensures reported { HasReported simulation.inputs options (W.contents out.old) (W.contents out.new) (E.contents err.old) (E.contents err.new) result.is_heard result.end }
{
    let (end, tally) = go_far(rt, alloc, &mut simulation, options, out, err);
    let is_heard = tally.is_heard;
    match end {
        Ok(_) => match simulation.finish(out) {
            Ok(outcome) => ReportedRun {
                end: Ok(outcome),
                is_heard,
            },
            Err(error) => ReportedRun {
                end: Err(with_written(tally.bytes, error)),
                is_heard,
            },
        },
        Err(error) => {
            // Dropping the ended simulation is one step of the proof; at the end of its scope it would be proved part
            // by part.
            let _ = simulation.finish(&mut Vec::new(alloc));
            ReportedRun {
                end: Err(error),
                is_heard,
            }
        }
    }
}

/// Runs the application of the inputs with workers, and writes its trace, as `run` does: the lines of each round as soon
/// as they are final. At each hundredth of the horizon, when all lines below it are written, it reports the tick and how
/// many lines these are. Once standard error did not take a report, it gets no other. It waits for its workers, as `run`
/// does.
pub fn run_with_progress<R: Threads + Wait + Sync, W: Write, E: Write>(
    rt: &R,
    alloc: Global,
    inputs: &Inputs<'_>,
    options: Options,
    out: &mut W,
    err: &mut E,
) -> ReportedRun
    ensures trace { IfOk result.end (λ o. Writes inputs.now options (W.contents out.old) (W.contents out.new) (ending_of o)) }
    ensures failed { IfErr result.end (FailsRun inputs.now options (W.contents out.old) (W.contents out.new)) }
    ensures reported { (reports : List ℕ) × AreReports inputs.now options (W.contents out.old) (W.contents out.new) result.end reports
        × Hears result.is_heard (E.contents err.old) (E.contents err.new) reports }
{
    if !options.are_within() {
        return ReportedRun {
            end: Err(RunError::BadOption),
            is_heard: true,
        };
    }
    let (steps, workers) = (options.steps, options.workers);
    match Simulation::open(alloc, inputs, steps, workers, options.form) {
        Ok(opened) => go_through(rt, alloc, opened, options, out, err),
        Err(error) => ReportedRun {
            end: Err(error),
            is_heard: true,
        },
    }
}
