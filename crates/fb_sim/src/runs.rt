//! Runs with workers.

ghost use Rattle.std.specs.Prelude.{◌^◌, ◌≤◌, ℕ, [], IfOk, IfErr, OnOk};
ghost use Rattle.std.specs.Io.KnownBytes.{Appends};
ghost use Rattle.fb_types.specs.OfSystem.{last_line};
ghost use Rattle.fb_trace.specs.End.{ending_of};
ghost use Rattle.fb_trace.specs.OfSystem.{EndsIn};
ghost use Rattle.fb_sim.specs.Given.{Given};
ghost use Rattle.fb_sim.specs.Serial.{AreWithin, Declares, Writes};
ghost use Rattle.fb_sim.specs.Rounds.{FailsRun, HasCome, IsShort};

use crate::one_agenda::{is_quicker, run_one_agenda};
use crate::options::{Inputs, Options};
use crate::outcome::RunError;
use crate::reading::open;
use crate::rounds::all_rounds::outcome_of;
use crate::rounds::first_rounds::{reserve_text, run_first, run_rest};
use crate::rounds::pace::{NoClock, threads_for};
use crate::rounds::workers::{TextJobs, Workers, workers_on};
use fb_phase::{Crew, Gate};
use fb_resource::Resource;
use fb_system::System;
use fb_trace::{Outcome, write_last};
use fb_window::Core;
use std::alloc::{AllocError, Global};
use std::io::Write;
use std::sync::Wait;
use std::thread::{Threads, join_mut};
use std::time::{Clock, CpuClock};

/// This many bytes are as many as a round with workers frees on one thread, and more.
const FREED: usize = 2_097_152;

/// Lets the C library keep what a round frees for the next one. It gives freed memory back to the system, which clears
/// each page that it hands out again, unless it is less than twice the largest block that was freed.
fn keep_freed_memory(alloc: Global) {
    let block: Result<Vec<u8>, AllocError> = Vec::with_capacity(alloc, FREED);
    drop(block);
}

/// The core of a system before the first event.
pub fn open_core(alloc: Global, system: &System, steps: u64) -> Result<Core, AllocError>
    requires some { 1 ≤ steps }
    requires few { steps ≤ 10 ^ 7 }
    ensures { IfOk result (λ c. (horizon : ℕ) → HasCome system.now steps horizon c []) }
{
    keep_freed_memory(alloc);
    let resources = Resource::open_all(alloc, system)?;
    Core::open(alloc, system, resources, steps)
}

/// Writes the last line, after this many bytes.
pub(crate) fn close<W: Write>(
    out: &mut W,
    system: &System,
    end: Outcome,
    written: u128,
) -> Result<(), RunError>
    requires { EndsIn system.now end }
    ensures whole { OnOk result (Appends (W.contents out.old) (W.contents out.new) (last_line system.now (ending_of end))) }
    ensures part { IfErr result (IsShort (W.contents out.old) (W.contents out.new) (last_line system.now (ending_of end)) written) }
{
    match write_last(out, system, end) {
        Ok(()) => Ok(()),
        Err(fault) => Err(RunError::Write(written.saturating_add(fault.written))),
    }
}

/// Runs an accepted system in rounds with these workers, or on one agenda, and writes its trace.
fn run_rounds<R: Threads + Wait + Sync, W: Write, P: Gate, C: Clock + CpuClock>(
    rt: &R,
    alloc: Global,
    system: &System,
    options: Options,
    out: &mut W,
    pool: &Workers<'_, P>,
    clock: &C,
) -> Result<Outcome, RunError>
    requires { AreWithin options }
    ensures trace { (given : Given) → Declares given system.now → IfOk result (λ o. Writes given options (W.contents out.old) (W.contents out.new) (ending_of o)) }
    ensures failed { (given : Given) → Declares given system.now → IfErr result (FailsRun given options (W.contents out.old) (W.contents out.new)) }
{
    let workers = workers_on(pool.threads, options.workers);
    let fewer = Options { workers, ..options };
    let core = open_core(alloc, system, options.steps)?;
    let mut text = Vec::new(alloc);
    reserve_text(&mut text);
    let (first_rounds, begun, pace) = run_first(
        rt, alloc, system, core, fewer, &mut text, pool, clock,
    )?;
    if let Some(pace) = pace {
        // Where one agenda is quicker than the first rounds, it runs from the opening.
        if is_quicker(alloc, system, options, pace, clock)? {
            // Neither the resources nor the text are needed any more: the run makes its own.
            drop(first_rounds);
            drop(text);
            return run_one_agenda(alloc, system, options, out);
        }
    }
    let (finish, written) = run_rest(
        rt,
        alloc,
        system,
        first_rounds,
        begun,
        text,
        fewer,
        out,
        pool,
    )?;
    let end = outcome_of(finish, options.horizon);
    close(out, system, end, written.bytes)?;
    Ok(end)
}

/// Runs an accepted system with several workers, and writes its trace. They live until it has ended.
fn run_workers<R: Threads + Wait + Sync, W: Write, P: Gate, C: Clock + CpuClock>(
    rt: &R,
    alloc: Global,
    system: &System,
    options: Options,
    out: &mut W,
    gate: &P,
    clock: &C,
) -> Result<Outcome, RunError>
    requires { AreWithin options }
    ensures trace { (given : Given) → Declares given system.now → IfOk result (λ o. Writes given options (W.contents out.old) (W.contents out.new) (ending_of o)) }
    ensures failed { (given : Given) → Declares given system.now → IfErr result (FailsRun given options (W.contents out.old) (W.contents out.new)) }
{
    let threads = threads_for(rt, options.workers);
    let others = (threads - 1) as usize;
    let crew = Crew::new(alloc);
    let work = TextJobs::new(alloc, options.form);
    let pool = Workers::living(gate, &work, &crew, threads);
    // The first closure gets a thread. If none can be started, it is called last, and ends at once.
    let (_, ended) = join_mut(
        rt,
        &mut || crew.serve(rt, alloc, &work, gate, others),
        &mut || -> Result<Outcome, RunError>
            requires { AreWithin options }
            ensures { (given : Given) → Declares given system.entry.now → IfOk result (λ o. Writes given options (W.contents out.entry.now) (W.contents out.exit.now) (ending_of o)) × IfErr result (FailsRun given options (W.contents out.entry.now) (W.contents out.exit.now)) }
        {
            let ended = run_rounds(rt, alloc, system, options, out, &pool, clock);
            crew.dismiss(rt);
            ended
        },
    );
    ended
}

/// Runs the application of the inputs with workers, and writes its trace, which is that of a run on one thread.
///
/// One worker always takes the least event of all, and writes the lines piece by piece, without a gate: it runs as
/// `run_serial` does. So does any number of workers if there is one resource. Otherwise several run in rounds: each
/// round runs every resource as far as no message can reach it any more, and then exchanges the messages. Workers make
/// the text of their lines with their jobs. What has become final is written after the next round, and joined while its
/// workers run. After a light round the run makes up to 256 turns of single resources, on the calling thread and
/// without a gate. There are no more workers than processors, but two at least. The text of the first round is gathered
/// in memory. No memory is allocated between the first byte of a piece or a round and its last. It waits for its
/// workers, and for the gate where that waits. It reads no clock: `run_with_clock` does.
///
/// # Errors
/// `BadOption` before all else; then `Refused`, after which nothing was written; `Memory`, after which a beginning of
/// the trace was written; and `Write` with the count of the bytes written.
///
/// # Example
///
/// The test `a_cycle_runs_for_eight_ticks` of `fb_tests`:
///
/// ```
/// let inputs = Inputs {
///     declaration: b"APPLICATION A\n\
///         FBS S : E_RESTART; C : E_CYCLE(DT := T#3ms); END_FBS\n\
///         EVENT_CONNECTIONS S.COLD TO C.START; END_CONNECTIONS\n\
///         END_APPLICATION",
///     deploy: None,
///     stimuli: None,
/// };
/// let options = Options {
///     horizon: 8,
///     steps: 10_000,
///     workers: 2,
///     form: Form::One,
/// };
/// let mut out = Vec::new(rt.alloc());
/// let outcome = run(&rt, rt.alloc(), &inputs, options, &mut out, &OpenGate).expect(&rt, "run");
/// assert!(rt; outcome == Outcome::End(8));
/// let trace = "0 MAIN < S.COLD\n\
///     0 MAIN > C.START DT=3\n\
///     3 MAIN < C.EO\n\
///     6 MAIN < C.EO\n\
///     end 8\n";
/// assert!(rt; out.as_slice() == trace.as_bytes());
/// ```
pub fn run<R: Threads + Wait + Sync, W: Write, P: Gate>(
    rt: &R,
    alloc: Global,
    inputs: &Inputs<'_>,
    options: Options,
    out: &mut W,
    gate: &P,
) -> Result<Outcome, RunError>
    ensures trace { IfOk result (λ o. Writes inputs.now options (W.contents out.old) (W.contents out.new) (ending_of o)) }
    ensures failed { IfErr result (FailsRun inputs.now options (W.contents out.old) (W.contents out.new)) }
{
    run_with_clock(rt, alloc, inputs, options, out, gate, &NoClock)
}

/// Runs the application of the inputs as `run` does, and lets clocks decide how. Several workers make three rounds, and
/// then rounds for two milliseconds, two at least, whose text waits in memory. Then one agenda gives at most as many
/// lines as these: if it is quicker by a fifth, by the processor time of this thread, the run begins again on it. If a
/// clock can't be read, rounds go on. The trace is the same.
///
/// # Errors
/// Those of `run`.
pub fn run_with_clock<R: Threads + Wait + Sync, W: Write, P: Gate, C: Clock + CpuClock>(
    rt: &R,
    alloc: Global,
    inputs: &Inputs<'_>,
    options: Options,
    out: &mut W,
    gate: &P,
    clock: &C,
) -> Result<Outcome, RunError>
    ensures trace { IfOk result (λ o. Writes inputs.now options (W.contents out.old) (W.contents out.new) (ending_of o)) }
    ensures failed { IfErr result (FailsRun inputs.now options (W.contents out.old) (W.contents out.new)) }
{
    if !options.are_within() {
        return Err(RunError::BadOption);
    }
    let system = open(alloc, inputs)?;
    // One resource leaves nothing to do for a second worker.
    if options.workers == 1 || system.resources() == 1 {
        run_one_agenda(alloc, &system, options, out)
    } else {
        run_workers(rt, alloc, &system, options, out, gate, clock)
    }
}
