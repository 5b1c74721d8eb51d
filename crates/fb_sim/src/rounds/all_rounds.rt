//! Rounds, one after another, up to the end.

ghost use Rattle.std.specs.Prelude.{◌≡◌, All, List, IfErr, IfOk};
ghost use Rattle.fb_types.specs.States as model;
ghost use Rattle.fb_system.specs.OfSystem.{BelongsTo};
ghost use Rattle.fb_sim.specs.Serial.{AreWithin};
ghost use Rattle.fb_sim.specs.Rounds.{FailsAfter, HandsOutAfter, HasCome, RunsOn, after_bytes, outcome_at};

use crate::options::Options;
use crate::outcome::RunError;
use crate::progress::Round;
use crate::rounds::round_with_counts;
use crate::rounds::tally::{RoundPlan, Written, first_window};
use crate::rounds::unwritten_lines::{RoundState, UnwrittenLines};
use crate::rounds::workers::Workers;
use fb_phase::Gate;
use fb_system::System;
use fb_trace::Outcome;
use fb_types::{Form, StopMark};
use fb_window::Core;
use std::alloc::Global;
use std::io::Write;
use std::sync::Wait;
use std::thread::Threads;

/// How a run ends.
#[derive(Drop)]
pub enum Finish {
    /// Every clock is at the horizon.
    AtEnd(Core),
    /// A resource has stopped.
    AtMark(StopMark),
}

/// How a run to this horizon, in milliseconds, has ended.
pub(crate) fn outcome_of(finish: Finish, horizon: u64) -> Outcome
    ensures { result ≡ outcome_at horizon finish }
{
    match finish {
        Finish::AtEnd(_) => Outcome::End(horizon),
        Finish::AtMark(mark) => Outcome::Stop(mark),
    }
}

/// The error of a round, with the bytes that were written before it counted in a write fault.
pub(crate) fn with_written(written: u128, error: RunError) -> RunError
    ensures { result ≡ after_bytes written error }
{
    match error {
        RunError::Write(count) => RunError::Write(written.saturating_add(count)),
        error => error,
    }
}

/// Writes the unwritten lines after the last round. It answers all that is written, with what was written before.
pub(crate) fn write_unwritten<W: Write>(
    alloc: Global,
    system: &System,
    form: Form,
    unwritten: UnwrittenLines,
    written: Written,
    out: &mut W,
) -> Result<Written, RunError>
    requires { All (λ p. All (BelongsTo system.now) p.items) unwritten.lists.items }
    ensures whole { IfOk result (HandsOutAfter system.now form unwritten.lists.items (W.contents out.old) (W.contents out.new) written) }
    ensures failed { IfErr result (FailsAfter system.now form unwritten.lists.items (W.contents out.old) (W.contents out.new) written.bytes) }
{
    match unwritten.hand_out(alloc, system, form, out) {
        Ok((bytes, lines)) => Ok(written.and(Written { bytes, lines })),
        Err(error) => Err(with_written(written.bytes, error)),
    }
}

/// Runs a core by rounds to the horizon, or to a stop, and writes all lines, but no last line. It answers what was
/// written. The first round has all workers. After a light round the next one has a single worker. There is at most
/// one round more than there are ticks below the horizon.
pub(crate) fn run_on<R: Threads + Wait + Sync, W: Write, P: Gate>(
    rt: &R,
    alloc: Global,
    system: &System,
    first: Core,
    options: Options,
    out: &mut W,
    pool: &Workers<'_, P>,
) -> Result<(Finish, Written), RunError>
    requires options { AreWithin options }
    requires come { (ls : List model.Line) × HasCome system.now options.steps options.horizon first ls }
    ensures { (ls : List model.Line) → HasCome system.now options.steps options.horizon first ls → RunsOn system.now options ls (W.contents out.old) (W.contents out.new) result }
{
    system.facts(); // for the prover: what holds of every accepted system
    let unwritten = UnwrittenLines::none(alloc);
    let mut round_state = RoundState {
        core: first,
        unwritten,
    };
    let mut written = Written { bytes: 0, lines: 0 };
    let mut workers = options.workers;
    let mut turns = 0;
    let mut ticks = first_window(system.count());
    // Each round that the run goes on after has passed a tick: none is left after as many.
    for _ in 0..options.horizon + 1 {
        let plan = RoundPlan {
            options: Options { workers, ..options },
            turns,
            ticks,
        };
        match round_with_counts(rt, alloc, system, round_state, plan, out, pool) {
            Ok((round, unwritten, tally)) => {
                written = written.with(&tally);
                workers = tally.workers(options.workers);
                turns = tally.turns();
                ticks = tally.ticks(ticks);
                match round {
                    Round::Going(core) => round_state = RoundState { core, unwritten },
                    Round::Ended(last) => {
                        let all = write_unwritten(
                            alloc,
                            system,
                            options.form,
                            unwritten,
                            written,
                            out,
                        )?;
                        return Ok((Finish::AtEnd(last), all));
                    }
                    Round::Stopped(mark) => {
                        let all = write_unwritten(
                            alloc,
                            system,
                            options.form,
                            unwritten,
                            written,
                            out,
                        )?;
                        return Ok((Finish::AtMark(mark), all));
                    }
                }
            }
            Err(error) => return Err(with_written(written.bytes, error)),
        }
    }
    unreachable!()
}
