//! Many phases with few and with many workers, whose jobs take no time or up to 5 ms. Nobody waits for ever: a watch ends
//! the process when no phase has ended for a while. And threads really are started: of few workers, all work at once.

use super::phase::{Squares, numbers};
use fb_board::{MAX_JOBS, MAX_SEATS};
use fb_phase::{Crew, Gate, run_all};
use std::alloc::Global;
use std::hint::spin_loop;
use std::process::Abort;
use std::sync::Wait;
use std::sync::atomic::Ordering::SeqCst;
use std::sync::atomic::{AtomicBool, AtomicU64};
use std::thread;
use std::thread::{Threads, join};
use std::time::{Clock, Duration};

/// How many workers there are, in how many phases their threads are started, and how many workers meet at the gate in
/// some phase at least: all of a few workers, and of many more than there are processors.
static STARTS: [(usize, u64, u64); 3] = [(2, 1_000, 2), (3, 1_000, 3), (64, 400, 8)];

/// How many workers the crews have, how many phases, and how many workers are at the gate at once.
static CREWS: [(usize, u64, u64); 3] = [(2, 4_000, 2), (3, 4_000, 3), (64, 2_000, 17)];

/// Jobs take time in one phase of this number.
const SLOW: u64 = 50;

/// The gate at which jobs take their time, and what is seen of it.
#[derive(Drop)]
struct Naps {
    /// The number of the running phase.
    phase: AtomicU64,
    /// It stays 0, and nobody is woken here before the time.
    bed: AtomicU64,
    /// How many workers are at the gate, and how many were at most.
    present: AtomicU64,
    most: AtomicU64,
    /// How many phases have ended.
    ended: AtomicU64,
    is_over: AtomicBool,
}

impl Naps {
    fn new() -> Naps {
        Naps {
            phase: AtomicU64::new(0),
            bed: AtomicU64::new(0),
            present: AtomicU64::new(0),
            most: AtomicU64::new(0),
            ended: AtomicU64::new(0),
            is_over: AtomicBool::new(false),
        }
    }

    /// For how many milliseconds the job with this number stays at the gate: in most phases for none, else for 0 to 5.
    fn length(&self, number: u64) -> u64 {
        let phase = self.phase.load(SeqCst);
        if phase % SLOW != 0 {
            return 0;
        }
        (phase / SLOW)
            .wrapping_mul(7)
            .wrapping_add(number.wrapping_mul(3))
            % 6
    }
}

impl Gate for Naps {
    fn at<R: Wait>(&self, rt: &R, number: usize) {
        let length = self.length(number as u64);
        if length == 0 {
            return;
        }
        let present = self.present.fetch_add(1, SeqCst).wrapping_add(1);
        self.most.fetch_max(present, SeqCst);
        self.bed.park_timeout(rt, 0, Duration::from_millis(length));
        self.present.fetch_sub(1, SeqCst);
    }
}

/// Ends the process when no phase has ended for 20 seconds.
fn watch<R: Abort + Clock>(rt: &R, naps: &Naps) {
    let mut seen = 0;
    let mut looks: u64 = 0;
    for _ in 0..u64::MAX {
        if naps.is_over.load(SeqCst) {
            return;
        }
        let ended = naps.ended.load(SeqCst);
        looks = if ended == seen {
            looks.wrapping_add(1)
        } else {
            0
        };
        seen = ended;
        assert!(rt; looks < 200, "a thread waits for ever");
        thread::sleep(rt, Duration::from_millis(100));
    }
}

/// A phase of two jobs for each worker, by a crew if there is one, gives their squares in order.
fn expect_phase<R: Abort + Threads + Wait + Sync>(
    rt: &R,
    alloc: Global,
    naps: &Naps,
    work: &Squares,
    crew: Option<&Crew<Squares>>,
    (phase, workers): (u64, usize),
) {
    naps.phase.store(phase, SeqCst);
    let count = u32::try_from(workers).unwrap_or(0).wrapping_mul(2);
    let jobs = numbers(rt, alloc, count);
    assert!(rt; jobs.len() <= MAX_JOBS && 1 <= workers && workers <= MAX_SEATS);
    let count = jobs.len();
    let made = match crew {
        Some(crew) => crew.run_all(rt, alloc, work, jobs, workers, naps),
        None => run_all(rt, alloc, work, jobs, workers, naps),
    };
    let Ok(squares) = made else {
        panic!(rt; "a shift is out, or memory ran out");
    };
    assert!(rt; squares.len() == count);
    let (mut expected, mut odd): (u64, u64) = (0, 1);
    for square in squares.iter() {
        assert!(rt; *square == expected);
        expected = expected.wrapping_add(odd);
        odd = odd.wrapping_add(2);
    }
    naps.ended.fetch_add(1, SeqCst);
}

/// At least `least` workers were at the gate at once in some phase.
fn expect_together(rt: &impl Abort, naps: &Naps, least: u64) {
    let most = naps.most.swap(0, SeqCst);
    assert!(rt; least <= most, "the workers were not together");
}

/// Threads are started for each phase, and dismissed after it.
fn expect_starts<R: Abort + Threads + Wait + Sync>(
    rt: &R,
    alloc: Global,
    naps: &Naps,
    work: &Squares,
) {
    for (workers, phases, least) in &STARTS {
        for phase in 0..*phases {
            expect_phase(rt, alloc, naps, work, None, (phase, *workers));
        }
        expect_together(rt, naps, *least);
    }
}

/// A crew has all of the phases.
fn expect_crew<R: Abort + Threads + Wait + Sync>(
    rt: &R,
    alloc: Global,
    naps: &Naps,
    work: &Squares,
    (workers, phases, least): (usize, u64, u64),
) {
    let crew: Crew<Squares> = Crew::new(alloc);
    join(
        rt,
        || crew.serve(rt, alloc, work, naps, workers.saturating_sub(1)),
        || {
            for phase in 0..phases {
                expect_phase(rt, alloc, naps, work, Some(&crew), (phase, workers));
            }
            crew.dismiss(rt);
        },
    );
    expect_together(rt, naps, least);
}

#[test]
fn nobody_waits_for_ever(rt: HostRuntime) {
    let alloc = rt.alloc();
    let naps = Naps::new();
    let work = Squares::unseen();
    join(
        &rt,
        || watch(&rt, &naps),
        || {
            expect_starts(&rt, alloc, &naps, &work);
            for case in &CREWS {
                expect_crew(&rt, alloc, &naps, &work, *case);
            }
            naps.is_over.store(true, SeqCst);
        },
    );
}

/// How many phases a crew of one thread has, each with a shift for each of 63 workers: a million and a half shifts.
const PHASES: u32 = 24_000;

/// The gate of a crew's thread, which counts how often it is passed.
#[derive(Drop)]
struct Counts {
    passes: AtomicU64,
}

impl Gate for Counts {
    fn at<R: Wait>(&self, _rt: &R, _number: usize) {
        self.passes.fetch_add(1, SeqCst);
    }
}

/// Waits until the gate was passed once more, but not for ever. It answers whether it was.
fn is_passed(counts: &Counts, before: u64) -> bool {
    for _ in 0..1_000_000_000u32 {
        if counts.passes.load(SeqCst) != before {
            return true;
        }
        spin_loop();
    }
    false
}

/// The job of each phase is done by the crew's thread, before the thread that calls finishes the phase. So this one goes on
/// after more than a million shifts. It takes the other shifts of a phase, which find no job, while the caller pauses.
#[test]
fn a_thread_serves_more_than_a_million_shifts(rt: HostRuntime) {
    let alloc = rt.alloc();
    let counts = Counts {
        passes: AtomicU64::new(0),
    };
    let work = Squares::unseen();
    let crew: Crew<Squares> = Crew::new(alloc);
    join(
        &rt,
        || crew.serve(&rt, alloc, &work, &counts, 1),
        || {
            for _ in 0..PHASES {
                let before = counts.passes.load(SeqCst);
                let jobs = numbers(&rt, alloc, 1);
                assert!(rt; jobs.len() <= MAX_JOBS);
                let begun = crew.begin(&rt, alloc, jobs, MAX_SEATS, 0);
                let Ok(phase) = begun else {
                    panic!(rt; "memory ran out");
                };
                assert!(rt;
                    is_passed(&counts, before),
                    "the thread serves no more shifts"
                );
                for _ in 0..2_000u32 {
                    spin_loop();
                }
                let done = crew.finish(&rt, alloc, &work, phase, &counts);
                assert!(rt; done.is_ok());
            }
            crew.dismiss(&rt);
        },
    );
    assert!(rt; counts.passes.load(SeqCst) == u64::from(PHASES));
}
