//! Runs that are advanced piece by piece.
//!
//! Each simulation is ended here, also where a call on it failed. So none is dropped in this crate, and the destructors
//! of all that a simulation holds are not proved once more.

use super::rounds::{WAYS, Way};
use super::texts::{
    ARRIVAL, BETWEEN, BETWEEN_RUN, BETWEEN_TRACE, CYCLE, CYCLE_RUN, CYCLE_TRACE, Case, RING_RUN,
    RING_TRACE, Run,
};
use super::writers::{ANY, Narrow, page, with_room};
use super::{inputs_of, must, to};
use fb_phase::OpenGate;
use fb_sim::{Inputs, Outcome, RunError, Simulation, run_serial};
use fb_types::Form;
use std::alloc::Global;
use std::mem::forget;
use std::process::Abort;
use std::sync::Wait;
use std::thread::Threads;

/// The simulation of a run by this many workers.
pub fn opened(rt: &impl Abort, alloc: Global, run: &Run, workers: u64) -> Simulation {
    let inputs = inputs_of(run.declaration, run.deploy, run.stimuli);
    let simulation = Simulation::open(alloc, &inputs, run.steps, workers, Form::One);
    must(rt, simulation, "not opened")
}

/// The greatest tick to advance to.
const LAST: u64 = 1_000_000_000_000;

/// A run in pieces.
#[derive(Clone, Copy)]
struct Pieces {
    run: Run,
    /// The ticks that it is advanced to, in this order, before it is ended.
    ticks: &'static [u64],
    /// What all of this writes.
    trace: &'static str,
}

/// A tick that was advanced to before writes nothing again. A tick past the last is none.
static CYCLE_PIECES: Pieces = Pieces {
    run: CYCLE_RUN,
    ticks: &[1_000_000_000_001, 4, 4, 2, 8],
    trace: CYCLE_TRACE,
};

static NO_PIECES: Pieces = Pieces {
    run: CYCLE_RUN,
    ticks: &[],
    trace: "end 0\n",
};

/// A tick at which it has stopped writes nothing again.
static BETWEEN_PIECES: Pieces = Pieces {
    run: BETWEEN_RUN,
    ticks: &[9, 9],
    trace: BETWEEN_TRACE,
};

static RING_PIECES: Pieces = Pieces {
    run: RING_RUN,
    ticks: &[7, 20, 50],
    trace: RING_TRACE,
};

/// How a run is at a tick.
fn outcome_at(run: &Run, tick: u64) -> Outcome {
    match run.outcome {
        Outcome::Stop(mark) if mark.tick < tick => run.outcome,
        _ => Outcome::End(tick),
    }
}

/// Each advance to a tick, and the end, answers as the outcome at the greatest tick so far. All together write the
/// trace, into a writer that takes at most `step` bytes a call.
fn expect_pieces<R: Abort + Threads + Wait + Sync>(
    rt: &R,
    alloc: Global,
    (workers, step): Way,
    pieces: &Pieces,
) {
    let mut out = with_room(alloc, step, ANY);
    let mut most = 0;
    let mut simulation = opened(rt, alloc, &pieces.run, workers);
    for tick in pieces.ticks {
        match simulation.advance(rt, *tick, &mut out, &OpenGate) {
            Ok(found) => {
                most = most.max(*tick);
                assert!(rt; *tick <= LAST && found == outcome_at(&pieces.run, most));
            }
            Err(error) => {
                assert!(rt; *tick > LAST && matches!(error, RunError::BadOption));
                forget(error);
            }
        }
    }
    let ended = must(rt, simulation.finish(&mut out), "not ended");
    assert!(rt; ended == outcome_at(&pieces.run, most));
    assert!(rt; out.got.as_slice() == pieces.trace.as_bytes());
}

fn expect_all_ways<R: Abort + Threads + Wait + Sync>(rt: &R, alloc: Global, pieces: &Pieces) {
    for way in &WAYS {
        expect_pieces(rt, alloc, *way, pieces);
    }
}

#[test]
fn pieces_make_the_whole(rt: HostRuntime) {
    expect_all_ways(&rt, rt.alloc(), &CYCLE_PIECES);
    expect_all_ways(&rt, rt.alloc(), &NO_PIECES);
    expect_all_ways(&rt, rt.alloc(), &BETWEEN_PIECES);
    expect_all_ways(&rt, rt.alloc(), &RING_PIECES);
}

/// A horizon, steps and workers, of which one is out of its range.
static OUT_OF_RANGE: [(u64, u64, u64); 6] = [
    (0, 1, 1),
    (1_000_000_000_001, 1, 1),
    (1, 0, 1),
    (1, 10_000_001, 1),
    (1, 1, 0),
    (1, 1, 65),
];

/// What opens is ended at once.
fn is_bad_option(alloc: Global, inputs: &Inputs<'_>, steps: u64, workers: u64) -> bool {
    match Simulation::open(alloc, inputs, steps, workers, Form::One) {
        Ok(simulation) => {
            forget(simulation.finish(&mut page(alloc)));
            false
        }
        Err(error) => {
            let is_bad = matches!(error, RunError::BadOption);
            forget(error);
            is_bad
        }
    }
}

/// They are answered before the declaration is read, which is none. A simulation has no horizon.
#[test]
fn options_out_of_range_come_first(rt: HostRuntime) {
    let inputs = inputs_of("?", "", "");
    let mut out = page(rt.alloc());
    for (horizon, steps, workers) in &OUT_OF_RANGE {
        let options = to(*horizon, *steps, *workers);
        let found = run_serial(rt.alloc(), &inputs, options, &mut out);
        assert!(rt; matches!(found, Err(RunError::BadOption)));
        forget(found);
        let is_bad = is_bad_option(rt.alloc(), &inputs, *steps, *workers);
        assert!(rt; is_bad == ((*steps, *workers) != (1, 1)));
    }
    assert!(rt; out.got.is_empty());
}

#[test]
fn after_a_fault_nothing_is_written(rt: HostRuntime) {
    let mut out = with_room(rt.alloc(), 1000, 10);
    let mut later = page(rt.alloc());
    let mut simulation = opened(&rt, rt.alloc(), &CYCLE_RUN, 2);
    let at_fault = simulation.advance(&rt, 8, &mut out, &OpenGate);
    let advanced = simulation.advance(&rt, 9, &mut later, &OpenGate);
    let ended = simulation.finish(&mut later);
    assert!(rt; matches!(at_fault, Err(RunError::Write(10))));
    assert!(rt; out.got.as_slice() == b"0 MAIN < S".as_slice());
    assert!(rt; matches!(advanced, Err(RunError::Failed)));
    assert!(rt; matches!(ended, Err(RunError::Failed)));
    assert!(rt; later.got.is_empty());
    forget(at_fault);
    forget(advanced);
    forget(ended);
}

/// What became of a simulation to which memory may have been refused.
#[derive(Clone, Copy)]
struct Tried {
    /// Whether it was opened.
    is_open: bool,
    /// Whether a call failed.
    has_failed: bool,
    /// Whether each call after the first that failed answered that, and wrote nothing.
    stays_failed: bool,
}

impl Tried {
    /// Notes an answer, and whether anything was written meanwhile.
    fn note(&mut self, answer: &Result<Outcome, RunError>, is_longer: bool) {
        let answers_it = matches!(answer, Err(RunError::Failed)) && !is_longer;
        self.stays_failed = self.stays_failed && (!self.has_failed || answers_it);
        self.has_failed = self.has_failed || answer.is_err();
    }
}

/// Advances a run to half of its horizon and to the horizon twice, also where an advance failed, and ends it.
fn try_pieces<R: Threads + Wait + Sync>(
    rt: &R,
    alloc: Global,
    run: &Run,
    workers: u64,
    out: &mut Narrow,
) -> Tried {
    let mut tried = Tried {
        is_open: false,
        has_failed: false,
        stays_failed: true,
    };
    let inputs = inputs_of(run.declaration, run.deploy, run.stimuli);
    let mut simulation = match Simulation::open(alloc, &inputs, run.steps, workers, Form::One) {
        Ok(simulation) => simulation,
        Err(error) => {
            forget(error);
            return tried;
        }
    };
    tried.is_open = true;
    for tick in [run.horizon / 2, run.horizon, run.horizon] {
        let before = out.got.len();
        let found = simulation.advance(rt, tick, out, &OpenGate);
        tried.note(&found, out.got.len() > before);
        forget(found);
    }
    let before = out.got.len();
    let ended = simulation.finish(out);
    tried.note(&ended, out.got.len() > before);
    forget(ended);
    tried
}

/// One request was refused if the first try is not open, so the second one has its memory.
fn expect_failed_for_good<R: Abort + Threads + Wait + Sync>(
    rt: &R,
    alloc: Global,
    case: &Case,
    workers: u64,
) {
    let mut out = page(alloc);
    let mut tried = try_pieces(rt, alloc, &case.run, workers, &mut out);
    if !tried.is_open {
        tried = try_pieces(rt, alloc, &case.run, workers, &mut out);
    }
    let (trace, got) = (case.trace.as_bytes(), out.got.as_slice());
    assert!(rt; tried.is_open && tried.stays_failed);
    assert!(rt; trace.starts_with(got) && (tried.has_failed || got == trace));
}

// A simulation that was once out of memory has failed for good. `tools/refuse.py` runs each of these with each request
// refused in turn. Without that no call fails.

#[test]
fn a_cycle_of_one_worker_fails_for_good(rt: HostRuntime) {
    expect_failed_for_good(&rt, rt.alloc(), &CYCLE, 1);
}

#[test]
fn a_cycle_of_two_workers_fails_for_good(rt: HostRuntime) {
    expect_failed_for_good(&rt, rt.alloc(), &CYCLE, 2);
}

#[test]
fn an_arrival_of_one_worker_fails_for_good(rt: HostRuntime) {
    expect_failed_for_good(&rt, rt.alloc(), &ARRIVAL, 1);
}

#[test]
fn an_arrival_of_two_workers_fails_for_good(rt: HostRuntime) {
    expect_failed_for_good(&rt, rt.alloc(), &ARRIVAL, 2);
}

#[test]
fn a_stop_of_one_worker_fails_for_good(rt: HostRuntime) {
    expect_failed_for_good(&rt, rt.alloc(), &BETWEEN, 1);
}

#[test]
fn a_stop_of_two_workers_fails_for_good(rt: HostRuntime) {
    expect_failed_for_good(&rt, rt.alloc(), &BETWEEN, 2);
}
