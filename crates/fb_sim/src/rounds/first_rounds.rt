//! The first rounds of a run with workers, whose text waits in memory until it is known whether one agenda is quicker.

ghost use Rattle.std.specs.Prelude.{◌≡◌, [], All, IfOk, IfErr, Some};
ghost use Rattle.fb_system.specs.OfSystem.{BelongsTo};
ghost use Rattle.fb_sim.specs.Serial.{AreWithin};
ghost use Rattle.fb_sim.specs.Rounds.{HandsOutAfter, HasCome, AreFirstRounds, RunsOn};
ghost use Rattle.fb_sim.specs.declared.outcome.RunError.TheVariants.{Memory};

use crate::options::Options;
use crate::outcome::RunError;
use crate::progress::Round;
use crate::rounds::all_rounds::{Finish, run_on, with_written, write_unwritten};
use crate::rounds::pace::{FIRST_TEXT, Pace, RoundTrial};
use crate::rounds::round_with_counts;
use crate::rounds::tally::{RoundPlan, Written, first_window};
use crate::rounds::unwritten_lines::{RoundState, UnwrittenLines};
use crate::rounds::workers::Workers;
use fb_phase::Gate;
use fb_system::System;
use fb_trace::write_front;
use fb_types::Form;
use fb_window::Core;
use std::alloc::Global;
use std::io::Write;
use std::sync::Wait;
use std::thread::Threads;
use std::time::Clock;

/// Where the first rounds of a run have led.
#[derive(Drop)]
pub enum FirstRounds {
    /// It goes on from this core.
    Going(Core),
    /// It has ended.
    Over(Finish),
}

/// Reserves the memory of the text of the first rounds, if there is any: a text that grows would be copied. Memory that is
/// reserved and not written costs next to nothing.
pub(crate) fn reserve_text(text: &mut Vec<u8>)
    ensures { text.new.items ≡ text.old.items }
{
    let _ = text.reserve(FIRST_TEXT);
}

/// Writes zeros where this many bytes more of a text will be, if there is memory for them. The system clears a page of
/// memory when it is written for the first time, which would count as the work of a round.
fn make_room(text: &mut Vec<u8>, more: usize)
    ensures { text.new.items ≡ text.old.items }
{
    let count = text.len();
    let _ = text.resize(count.saturating_add(more), 0);
    text.truncate(count);
}

/// Appends the text of the unwritten lines. It answers all that is written, with what was written before.
fn put_unwritten(
    alloc: Global,
    system: &System,
    form: Form,
    unwritten: UnwrittenLines,
    written: Written,
    text: &mut Vec<u8>,
) -> Result<Written, RunError>
    requires { All (λ p. All (BelongsTo system.now) p.items) unwritten.lists.items }
    ensures whole { IfOk result (HandsOutAfter system.now form unwritten.lists.items (Some text.old.items) (Some text.new.items) written) }
    ensures memory { IfErr result (λ e. e ≡ Memory) }
{
    match write_unwritten(alloc, system, form, unwritten, written, text) {
        Ok(all) => Ok(all),
        // A writer into memory fails for memory alone.
        Err(_) => Err(RunError::Memory),
    }
}

/// Makes the first rounds of a run, one at least, as long as the trial takes. Their text goes into memory. The answer
/// has what is written so, and what the rounds took, if the run goes on and the clock can be read.
///
/// # Errors
/// `Memory`.
pub(crate) fn run_first<R: Threads + Wait + Sync, P: Gate, C: Clock>(
    rt: &R,
    alloc: Global,
    system: &System,
    first: Core,
    options: Options,
    text: &mut Vec<u8>,
    pool: &Workers<'_, P>,
    clock: &C,
) -> Result<(FirstRounds, Written, Option<Pace>), RunError>
    requires options { AreWithin options }
    requires come { HasCome system.now options.steps options.horizon first [] }
    requires text { text.old.items ≡ [] }
    ensures first_rounds { IfOk result (λ r. AreFirstRounds system.now options r.0 r.1 text.new.items) }
    ensures memory { IfErr result (λ e. e ≡ Memory) }
{
    system.facts(); // for the prover: what holds of every accepted system
    let unwritten = UnwrittenLines::none(alloc);
    let mut round_state = RoundState {
        core: first,
        unwritten,
    };
    let mut written = Written { bytes: 0, lines: 0 };
    let mut trial = RoundTrial::new();
    let mut workers = options.workers;
    let mut turns = 0;
    let mut ticks = first_window(system.count());
    // The first round starts threads of its own while those of the crew begin.
    let mut crew = None;
    for _ in 0..options.horizon + 1 {
        let plan = RoundPlan {
            options: Options { workers, ..options },
            turns,
            ticks,
        };
        let now = Workers {
            gate: pool.gate,
            work: pool.work,
            crew,
            threads: pool.threads,
        };
        trial.begin(clock);
        match round_with_counts(rt, alloc, system, round_state, plan, text, &now) {
            Ok((round, unwritten, tally)) => {
                written = written.with(&tally);
                workers = tally.workers(options.workers);
                turns = tally.turns();
                ticks = tally.ticks(ticks);
                let lines = tally.final_lines.max(tally.lines as u128);
                let is_over = trial.count(clock, lines, text.len());
                match round {
                    Round::Going(core) => {
                        if is_over {
                            let all = put_unwritten(
                                alloc,
                                system,
                                options.form,
                                unwritten,
                                written,
                                text,
                            )?;
                            return Ok((FirstRounds::Going(core), all, trial.pace()));
                        }
                        make_room(text, tally.room());
                        round_state = RoundState { core, unwritten };
                        crew = pool.crew;
                    }
                    Round::Ended(last) => {
                        let all = put_unwritten(
                            alloc,
                            system,
                            options.form,
                            unwritten,
                            written,
                            text,
                        )?;
                        return Ok((FirstRounds::Over(Finish::AtEnd(last)), all, None));
                    }
                    Round::Stopped(mark) => {
                        let all = put_unwritten(
                            alloc,
                            system,
                            options.form,
                            unwritten,
                            written,
                            text,
                        )?;
                        return Ok((FirstRounds::Over(Finish::AtMark(mark)), all, None));
                    }
                }
            }
            // A writer into memory fails for memory alone.
            Err(_) => return Err(RunError::Memory),
        }
    }
    unreachable!()
}

/// Writes the text of the first rounds, and makes the others. The text may have several megabytes, so it is dropped
/// before them.
pub(crate) fn run_rest<R: Threads + Wait + Sync, W: Write, P: Gate>(
    rt: &R,
    alloc: Global,
    system: &System,
    first_rounds: FirstRounds,
    begun: Written,
    text: Vec<u8>,
    options: Options,
    out: &mut W,
    pool: &Workers<'_, P>,
) -> Result<(Finish, Written), RunError>
    requires options { AreWithin options }
    requires first_rounds { AreFirstRounds system.now options first_rounds begun text.items }
    ensures { RunsOn system.now options [] (W.contents out.old) (W.contents out.new) result }
{
    system.facts(); // for the prover: what holds of every accepted system
    let length = text.len();
    let count = write_front(out, text.as_slice());
    drop(text);
    if count < length {
        return Err(with_written(0, RunError::Write(count as u128)));
    }
    match first_rounds {
        FirstRounds::Over(finish) => Ok((finish, begun)),
        FirstRounds::Going(core) => match run_on(rt, alloc, system, core, options, out, pool) {
            Ok((finish, written)) => Ok((finish, begun.and(written))),
            Err(error) => Err(with_written(begun.bytes, error)),
        },
    }
}
