//! A gate that sees how workers pass it. Workers work at the same time.

use super::advances::opened;
use super::texts::{BETWEEN_RUN, BETWEEN_TRACE};
use super::writers::page;
use super::{inputs_of, must, to};
use fb_phase::Gate;
use fb_sim::{Inputs, Options, Outcome, run};
use std::alloc::Global;
use std::process::Abort;
use std::sync::Wait;
use std::sync::atomic::Ordering::SeqCst;
use std::sync::atomic::{AtomicBool, AtomicU64};
use std::thread::Threads;

/// In one of the rounds the workers that draw the first numbers wait for one another, but give up in the end. Each round
/// has a job of each of these numbers. It counts how often workers pass, too, and looks whether the first numbers that
/// pass are those of three jobs in their order.
#[derive(Drop)]
pub struct Meeting {
    workers: u64,
    /// How often one of these numbers is drawn before that round, and up to its end.
    first: u64,
    last: u64,
    draws: AtomicU64,
    gave_up: AtomicBool,
    passes: AtomicU64,
    differs: AtomicBool,
}

impl Meeting {
    /// How often a worker looks for the others before it gives up.
    const LOOKS: u32 = 100_000_000;

    /// How many numbers are to pass in their order.
    const IN_ORDER: u64 = 3;

    /// A meeting of this many workers, in the round after this many others.
    pub fn new(workers: u64, before: u64) -> Meeting {
        let first = workers.saturating_mul(before);
        Meeting {
            workers,
            first,
            last: first.saturating_add(workers),
            draws: AtomicU64::new(0),
            gave_up: AtomicBool::new(false),
            passes: AtomicU64::new(0),
            differs: AtomicBool::new(false),
        }
    }

    /// Whether they met.
    pub fn is_over(&self) -> bool {
        self.draws.load(SeqCst) >= self.last && !self.gave_up.load(SeqCst)
    }

    /// How often workers passed.
    pub fn passes(&self) -> u64 {
        self.passes.load(SeqCst)
    }

    fn wait(&self) {
        for _ in 0..Self::LOOKS {
            if self.draws.load(SeqCst) >= self.last {
                return;
            }
        }
        self.gave_up.store(true, SeqCst);
    }
}

impl Gate for Meeting {
    fn at<R: Wait>(&self, _rt: &R, number: usize) {
        let pass = self.passes.fetch_add(1, SeqCst);
        if pass < Self::IN_ORDER && number as u64 != pass {
            self.differs.store(true, SeqCst);
        }
        if number as u64 >= self.workers {
            return;
        }
        let draw = self.draws.fetch_add(1, SeqCst);
        if self.first <= draw && draw < self.last {
            self.wait();
        }
    }
}

/// A run by workers who meet writes this trace.
pub fn expect_meeting<R: Abort + Threads + Wait + Sync>(
    rt: &R,
    alloc: Global,
    inputs: &Inputs<'_>,
    options: Options,
    gate: &Meeting,
    (outcome, trace): (Outcome, &[u8]),
) {
    let mut out = page(alloc);
    let found = run(rt, alloc, inputs, options, &mut out, gate);
    assert!(rt; must(rt, found, "no run") == outcome && out.got.as_slice() == trace);
    assert!(rt; gate.is_over(), "they did not meet");
}

/// In the first round of the run each of the three resources has an event, so that there is work for this many workers.
#[test]
fn workers_meet(rt: HostRuntime) {
    let run = &BETWEEN_RUN;
    let inputs = inputs_of(run.declaration, run.deploy, run.stimuli);
    for workers in [2, 3] {
        let options = to(run.horizon, run.steps, workers);
        let result = (run.outcome, BETWEEN_TRACE.as_bytes());
        expect_meeting(
            &rt,
            rt.alloc(),
            &inputs,
            options,
            &Meeting::new(workers, 0),
            result,
        );
    }
}

/// A simulation that is advanced makes rounds, also with one worker, who does the jobs on the calling thread. There is a
/// job for each of the three resources.
#[test]
fn one_worker_passes_the_gate_in_the_order_of_the_jobs(rt: HostRuntime) {
    let gate = Meeting::new(0, 0);
    let mut out = page(rt.alloc());
    let run = &BETWEEN_RUN;
    let mut simulation = opened(&rt, rt.alloc(), run, 1);
    let advanced = simulation.advance(&rt, run.horizon, &mut out, &gate);
    assert!(rt; must(&rt, advanced, "not advanced") == run.outcome);
    assert!(rt; must(&rt, simulation.finish(&mut out), "not ended") == run.outcome);
    assert!(rt; gate.passes() >= Meeting::IN_ORDER, "a job passed no gate");
    assert!(rt; !gate.differs.load(SeqCst), "another number passed");
}
