//! Runs with several workers: rounds, and the choice between rounds, turns and one agenda.
//!
//! One round: each resource runs to its bound, the messages are exchanged, and the lines that have become final are
//! written. `round` is the round that callers make themselves. A run, and a simulation that is advanced, use
//! `round_with_counts`, which writes the same lines. It differs in four choices, all for speed. No contract depends on
//! them, and no byte of the trace does.
//!
//! 1. **Rounds or one agenda** (`first_rounds`, `pace`). A run times its first rounds, for some milliseconds. Their text
//!    waits in memory. Then it runs one agenda of all resources from the opening, and writes nothing. If that is quicker,
//!    the whole run is made so (`crate::one_agenda`); otherwise the text is written, and `all_rounds` goes on.
//! 2. **Turns before a round** (`tally`). After a light round, of fewer than two busy resources or few lines, the next
//!    one has one worker, and up to 256 turns are made before it. A turn lets one resource take its events of the least
//!    tick, and costs no look at the others but at when their next events are.
//! 3. **Longer or shorter windows** (`tally`). A window is at most 1,024 ticks, and fewer if earlier windows gave more
//!    lines than a processor's cache holds.
//! 4. **Who makes the text** (`unwritten_lines`). Lines that have become final in a round are written in the next one,
//!    so that their text is made while workers run jobs. There are three ways. Each worker makes the text of its job, with
//!    a mark at each tick (`job_texts`), and `join_texts` joins these. Or several threads make the text of all lines, each a
//!    part (`make_text`), from lists that stay where they are (`merge_text`). Or few lines are merged and written by one
//!    thread.
//!
//! Read in this order: `workers`, who runs jobs; `tally`; `unwritten_lines` with `merge_text`, `make_text`, `job_texts`
//! and `join_texts`; this file; `all_rounds`; `first_rounds` with `pace`.

ghost use Rattle.std.specs.Global.{Vec};
ghost use Rattle.std.specs.Prelude.{◌≡◌, ◌≤◌, List, None, map, length, vec_len, if◌then◌else◌, All, IfOk, IfErr, IfSome};
ghost use Rattle.std.specs.Io.KnownBytes.{Appends};
ghost use Rattle.std.specs.List.{AllZip};
ghost use Rattle.fb_types.specs.States as model;
ghost use Rattle.fb_types.specs.declared.run.Line.{Line};
ghost use Rattle.fb_types.specs.OfSystem.{line_of, lines_text};
ghost use Rattle.fb_trace.specs.Progress.{bounded};
ghost use Rattle.fb_laws.specs.Finality.{core_of};
ghost use Rattle.fb_system.specs.OfSystem.{BelongsTo};
ghost use Rattle.fb_window.specs.Jobs.{Does};
ghost use Rattle.fb_window.specs.Reached.{KeepHorizon};
ghost use Rattle.fb_window.specs.Settling.{IsMerged, settled_of};
ghost use Rattle.fb_sim.specs.Serial.{AreWithin};
ghost use Rattle.fb_sim.specs.Rounds as spec;
ghost use Rattle.fb_sim.specs.Rounds.{RoundsWithCounts, HasCome, HoldsTo, AreUnwrittenOf, IsHomeAgain, IsOnItsWay, Rounds, WritesPartOf, lines_out};
ghost use Rattle.fb_sim.specs.Texts.{AreDone};
ghost use Rattle.fb_sim.specs.MergedText.{IsMergedText, all_bytes};
ghost use Rattle.fb_sim.specs.declared.outcome.RunError.TheVariants.{Memory};

pub(crate) mod all_rounds;
pub(crate) mod first_rounds;
mod job_texts;
mod join_texts;
mod make_text;
mod merge_text;
pub mod pace;
pub(crate) mod tally;
mod unwritten_lines;
pub(crate) mod workers;

use crate::options::Options;
use crate::outcome::RunError;
use crate::progress::Round;
use crate::rounds::job_texts::final_texts;
use crate::rounds::make_text::write_texts;
use crate::rounds::tally::{LONGEST_WINDOW, RoundPlan, Tally};
use crate::rounds::unwritten_lines::{RoundState, UnwrittenLines};
use crate::rounds::workers::{Jobs, RoundDone, Workers, apart};
use fb_phase::{Gate, run_all};
use fb_resource::WindowDone;
use fb_system::System;
use fb_trace::write_lines_with_count;
use fb_types::{Form, Line};
use fb_window::{Core, Job, Reach, Settled};
use std::alloc::{AllocError, Global};
use std::io::Write;
use std::sync::Wait;
use std::thread::Threads;

/// How many of the jobs have something to do.
fn busy_in(jobs: &[Job]) -> usize {
    let mut busy: usize = 0;
    for job in jobs {
        if !job.is_idle() {
            busy = busy.saturating_add(1);
        }
    }
    busy
}

/// How many lines the jobs gave.
fn lines_in(dones: &[WindowDone]) -> usize {
    let mut count: usize = 0;
    for done in dones {
        if let WindowDone::Ran { lines, .. } = done {
            count = count.saturating_add(lines.len());
        }
    }
    count
}

/// How many workers the busy jobs want: no more than there are of them, since the others cost next to nothing, and a
/// thread costs more than one job.
fn workers_for(busy: usize, most: u64) -> usize
    requires some { 1 ≤ most }
    requires few { most ≤ 64 }
    ensures some { 1 ≤ result }
    ensures few { result ≤ 64 }
{
    busy.min(most as usize).max(1)
}

/// Runs the jobs one after another on this thread, as one worker does that passes the gate before each: without a
/// board, which costs more than a light round.
fn run_here<R: Wait, P: Gate>(
    rt: &R,
    alloc: Global,
    jobs: Vec<Job>,
    gate: &P,
) -> Result<Vec<WindowDone>, AllocError>
    ensures { IfOk result (λ v. AllZip Does jobs.items v.items) }
{
    let mut dones = Vec::with_capacity(alloc, jobs.len())?;
    for job in jobs {
        gate.at(rt, dones.len());
        dones.push_reserved(job.run(alloc));
    }
    Ok(dones)
}

/// Runs all jobs, and gives what was made of each in their order, with the texts that workers made.
fn run_jobs<R: Threads + Wait + Sync, P: Gate>(
    rt: &R,
    alloc: Global,
    jobs: Vec<Job>,
    workers: usize,
    pool: &Workers<'_, P>,
) -> Result<RoundDone, RunError>
    requires few_jobs { vec_len jobs ≤ 256 }
    requires some { 1 ≤ workers }
    requires few { workers ≤ 64 }
    ensures done { IfOk result (AreDone jobs.items) }
    ensures memory { IfErr result (λ e. e ≡ Memory) }
{
    if workers == 1 {
        let dones = run_here(rt, alloc, jobs, pool.gate)?;
        return Ok(RoundDone { dones, texts: None });
    }
    let all = pool.run(rt, alloc, jobs, workers)?;
    Ok(apart(alloc, all)?)
}

/// The text of fewer lines than this is made before a thread that helps has started.
const LONG_TEXT: usize = 8192;

/// How many threads make the text of lines while a crew of this many workers runs jobs. With four workers one thread
/// would mostly take longer for it than the others for the jobs, but not where it only joins the texts of jobs.
fn text_threads(workers: usize, unwritten: &UnwrittenLines) -> usize
    ensures { 1 ≤ result }
{
    if unwritten.has_text() || unwritten.count() < LONG_TEXT {
        return 1;
    }
    (workers / 2).max(1)
}

/// Runs all jobs, of which this many are busy, and makes the text of lines if some are unwritten. Where there is a crew, this
/// thread makes the text while the others run jobs, and then takes its share of those that are left. Threads that help
/// it with the text take the place of as many of the crew, which come late. Without a crew as many threads as workers
/// make it afterwards.
fn run_round<R: Threads + Wait + Sync, P: Gate>(
    rt: &R,
    alloc: Global,
    system: &System,
    options: Options,
    jobs: Vec<Job>,
    busy: usize,
    unwritten: Option<UnwrittenLines>,
    pool: &Workers<'_, P>,
) -> Result<(Vec<Vec<u8>>, RoundDone), RunError>
    requires options { AreWithin options }
    requires few_jobs { vec_len jobs ≤ 256 }
    requires unwritten { IfSome unwritten (AreUnwrittenOf system.now) }
    ensures text { IfOk result (λ r. IfSome unwritten (λ h. IsMergedText system.now options.form (map (λ p. p.items) h.lists.items) (all_bytes r.0.items))) }
    ensures done { IfOk result (λ r. AreDone jobs.items r.1) }
    ensures memory { IfErr result (λ e. e ≡ Memory) }
{
    let Some(unwritten) = unwritten else {
        let seats = workers_for(busy, options.workers);
        let dones = run_jobs(rt, alloc, jobs, seats, pool)?;
        return Ok((Vec::new(alloc), dones));
    };
    let form = options.form;
    let workers = options.workers as usize;
    let Some(crew) = pool.crew else {
        let seats = workers_for(busy, options.workers);
        let dones = run_jobs(rt, alloc, jobs, seats, pool)?;
        let texts = unwritten.text(rt, alloc, system, form, workers)?;
        return Ok((texts, dones));
    };
    let threads = text_threads(workers, &unwritten);
    let seats = workers_for(busy.saturating_add(1), options.workers);
    let late = (threads - 1).saturating_sub(workers.saturating_sub(seats));
    let mut phase = crew.begin(rt, alloc, jobs, seats, late)?;
    let texts = unwritten.text(rt, alloc, system, form, threads);
    crew.call_late(rt, alloc, &mut phase);
    // To drop many lines takes a while: the workers do it.
    pool.work.leave(rt, unwritten.into_lists());
    // Also where there is no memory for the text, the phase is finished.
    let all = crew.finish(rt, alloc, pool.work, phase, pool.gate)?;
    Ok((texts?, apart(alloc, all)?))
}

/// What became of a window.
#[derive(Drop)]
struct WindowResult {
    /// How far the run is.
    reach: Reach,
    /// The lines that have become final.
    finals: UnwrittenLines,
    /// How many resources had something to do.
    busy: usize,
    /// How many lines they gave.
    lines: usize,
}

impl WindowResult {
    /// What a round gives that has written this many bytes, of this many lines.
    fn after(self, bytes: u128, final_lines: u128) -> (Round, UnwrittenLines, Tally)
        ensures round { (all : Vec Line) → result.0 ≡ spec.round_of (settled_of self.reach all) }
        ensures unwritten { result.1 ≡ self.finals }
        ensures bytes { result.2.bytes ≡ bytes }
        ensures lines { result.2.final_lines ≡ final_lines }
    {
        let WindowResult {
            reach,
            finals,
            busy,
            lines,
        } = self;
        let tally = Tally {
            bytes,
            busy,
            lines,
            final_lines,
        };
        match reach {
            Reach::Going(core) => (Round::Going(core), finals, tally),
            Reach::Ended(core) => (Round::Ended(core), finals, tally),
            Reach::Stopped(mark) => (Round::Stopped(mark), finals, tally),
        }
    }
}

/// A value, if it is of use.
fn only_if<T: Drop>(is_used: bool, value: Option<T>) -> Option<T>
    ensures { result ≡ (if is_used then value else None) }
{
    if is_used { value } else { None }
}

/// Runs each resource to its bound, with the workers, and puts all back together. A bound is at most this many ticks
/// past the least event. Meanwhile it makes the text of lines, in parts, if some are unwritten.
fn window<R: Threads + Wait + Sync, P: Gate>(
    rt: &R,
    alloc: Global,
    system: &System,
    core: Core,
    unwritten: Option<UnwrittenLines>,
    plan: RoundPlan,
    pool: &Workers<'_, P>,
) -> Result<(Vec<Vec<u8>>, WindowResult), RunError>
    requires options { AreWithin plan.options }
    requires ticks { 1 ≤ plan.ticks }
    requires come { (ls : List model.Line) × IsOnItsWay system.now plan.options.steps plan.options.horizon core ls }
    requires unwritten { IfSome unwritten (AreUnwrittenOf system.now) }
    ensures text { IfOk result (λ r. IfSome unwritten (λ h. IsMergedText system.now plan.options.form (map (λ p. p.items) h.lists.items) (all_bytes r.0.items))) }
    ensures home { (ls : List model.Line) (way : IsOnItsWay system.now plan.options.steps plan.options.horizon core ls)
        → IfOk result (λ r. (all : Vec Line) → IsMerged r.1.finals.lists.items all.items
        → IsHomeAgain system.now plan.options.steps plan.options.horizon (core_of system.now plan.options.steps way.steps) ls (settled_of r.1.reach all)) }
    ensures unwritten { IfOk result (λ r. AreUnwrittenOf system.now r.1.finals) }
    ensures memory { IfErr result (λ e. e ≡ Memory) }
{
    system.facts(); // for the prover: what holds of every accepted system
    let RoundPlan { options, ticks, .. } = plan;
    let bounds = core.bounds(options.horizon, ticks);
    let (away, jobs) = core.jobs(alloc, system, bounds)?;
    let busy = busy_in(jobs.as_slice());
    // The text of lines that come after others which were kept would be of no use.
    pool.work.set_text(away.keeps_nothing());
    let (texts, done) = run_round(rt, alloc, system, options, jobs, busy, unwritten, pool)?;
    let RoundDone { dones, texts: made } = done;
    let lines = lines_in(dones.as_slice());
    let made = only_if(away.keeps_nothing(), made);
    let (reach, finals) = away.settle_apart(alloc, system, dones)?;
    let made = final_texts(alloc, system, options.form, &finals, made)?;
    let finals = UnwrittenLines::of(finals, made)?;
    let result = WindowResult {
        reach,
        finals,
        busy,
        lines,
    };
    Ok((texts, result))
}

/// The progress of the run, once the lines are written, and these lines.
fn parted(settled: Settled) -> (Round, Vec<Line>)
    ensures round { result.0 ≡ spec.round_of settled }
    ensures lines { result.1.items ≡ lines_out settled }
{
    match settled {
        Settled::Going(core, lines) => (Round::Going(core), lines),
        Settled::Ended(core, lines) => (Round::Ended(core), lines),
        Settled::Stopped(lines, mark) => (Round::Stopped(mark), lines),
    }
}

/// Writes lines, and answers how many bytes they have.
pub(crate) fn hand_out<W: Write>(
    out: &mut W,
    system: &System,
    form: Form,
    lines: &[Line],
) -> Result<u128, RunError>
    requires { All (BelongsTo system.now) lines.now }
    ensures whole { IfOk result (λ n. let text = lines_text form system.now (map (line_of system.now) lines.now) in
        Appends (W.contents out.old) (W.contents out.new) text × (n ≡ bounded (length text))) }
    ensures part { IfErr result (λ e. WritesPartOf (W.contents out.old) (W.contents out.new) (lines_text form system.now (map (line_of system.now) lines.now)) e) }
{
    match write_lines_with_count(out, system, form, lines) {
        Ok(count) => Ok(count),
        Err(fault) => Err(RunError::Write(fault.written)),
    }
}

/// A round of a run, as planned, with what it has done. It writes the lines that the round before left unwritten, and
/// leaves those that have become final in it. The text of many lines is made while workers run its window. No byte is
/// written before its window has ended, and no memory is allocated from the first byte to the last.
pub(crate) fn round_with_counts<R: Threads + Wait + Sync, W: Write, P: Gate>(
    rt: &R,
    alloc: Global,
    system: &System,
    round_state: RoundState,
    plan: RoundPlan,
    out: &mut W,
    pool: &Workers<'_, P>,
) -> Result<(Round, UnwrittenLines, Tally), RunError>
    requires options { AreWithin plan.options }
    requires ticks { 1 ≤ plan.ticks }
    requires holds { (ws : List model.Line) × HoldsTo system.now plan.options.steps plan.options.horizon round_state.core round_state.unwritten ws }
    ensures { (ws : List model.Line) (holds : HoldsTo system.now plan.options.steps plan.options.horizon round_state.core round_state.unwritten ws)
        → RoundsWithCounts system.now plan.options round_state.core round_state.unwritten ws holds (W.contents out.old) (W.contents out.new) result }
{
    system.facts(); // for the prover: what holds of every accepted system
    let RoundState { core, unwritten } = round_state;
    let options = plan.options;
    // What becomes final in the turns of single resources is handed out after the next window.
    let core = core.turn_series(alloc, system, options.horizon, plan.turns)?;
    if unwritten.is_shared(options.workers) {
        let lines = unwritten.count();
        let (texts, result) = window(rt, alloc, system, core, Some(unwritten), plan, pool)?;
        let bytes = write_texts(out, texts.as_slice())?;
        return Ok(result.after(bytes, lines as u128));
    }
    let (_, result) = window(rt, alloc, system, core, None, plan, pool)?;
    let (bytes, lines) = unwritten.hand_out(alloc, system, options.form, out)?;
    Ok(result.after(bytes, lines))
}

/// Runs each resource to its bound, exchanges their messages, and writes the lines that have become final, but no last
/// line: one phase and one exchange, for every number of workers. The bounds are the greatest legal ones that are at
/// most 1,024 ticks past the least event. A chain of rounds from the opening writes the text of the final lines. While
/// a run goes on, the least tick of all events rises in each round and is below the horizon: so there is at most one
/// round more than there are ticks below the horizon.
///
/// It waits for its workers, and for the gate where that waits.
///
/// # Errors
/// `Memory`, after which nothing was written; and `Write` with the count of the bytes written. The core is given up.
pub fn round<R: Threads + Wait + Sync, W: Write, P: Gate>(
    rt: &R,
    alloc: Global,
    system: &System,
    core: Core,
    options: Options,
    out: &mut W,
    gate: &P,
) -> Result<Round, RunError>
    requires options { AreWithin options }
    requires system { core.system ≡ system.now }
    requires steps { core.steps ≡ options.steps }
    requires clocks { KeepHorizon options.horizon core.resources.items }
    ensures { (ls : List model.Line) (come : HasCome system.now options.steps options.horizon core ls)
        → Rounds system.now options come.steps ls (W.contents out.old) (W.contents out.new) result }
{
    system.facts(); // for the prover: what holds of every accepted system
    core.facts(); // for the prover: what its type keeps
    let bounds = core.bounds(options.horizon, LONGEST_WINDOW);
    let (away, jobs) = core.jobs(alloc, system, bounds)?;
    let workers = options.workers as usize;
    let dones = run_all(rt, alloc, &Jobs, jobs, workers, gate)?;
    let settled = away.settle(alloc, system, dones)?;
    let (round, lines) = parted(settled);
    hand_out(out, system, options.form, &lines)?;
    Ok(round)
}
