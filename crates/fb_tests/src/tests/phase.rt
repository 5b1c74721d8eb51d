//! Jobs that are numbers, to be squared by several workers.
ghost use Rattle.std.specs.Prelude.{◌≡◌, ◌*◌};

use fb_board::{Deal, MAX_JOBS, MAX_SEATS};
use fb_phase::{Crew, Gate, Work, run_all};
use std::alloc::Global;
use std::process::Abort;
use std::sync::Wait;
use std::sync::atomic::Ordering::SeqCst;
use std::sync::atomic::{AtomicBool, AtomicU64};
use std::thread::{Threads, join};

/// A digit of a number to base 16 for each of the first ten numbers of jobs.
pub static DIGITS: [u64; 10] = [
    0x1,
    0x10,
    0x100,
    0x1000,
    0x1_0000,
    0x10_0000,
    0x100_0000,
    0x1000_0000,
    0x1_0000_0000,
    0x10_0000_0000,
];

/// Each of the ten digits once.
pub const EACH_ONCE: u64 = 0x11_1111_1111;

/// How numbers are squared, and what is seen of it. It is the gate too.
#[derive(Drop)]
pub struct Squares {
    /// Whether the job that begins first waits for nine others, but gives up in the end.
    first_waits: bool,
    begun: AtomicU64,
    ended: AtomicU64,
    /// How often each of the first ten numbers passed the gate, as digits.
    passed: AtomicU64,
    /// Whether a job was run that had not passed the gate once, or the first one gave up.
    is_wrong: AtomicBool,
    /// Whether jobs pass another gate than this one.
    has_other_gate: AtomicBool,
}

impl Squares {
    const LOOKS: u32 = 100_000_000;

    fn new(first_waits: bool) -> Squares {
        Squares {
            first_waits,
            begun: AtomicU64::new(0),
            ended: AtomicU64::new(0),
            passed: AtomicU64::new(0),
            is_wrong: AtomicBool::new(false),
            has_other_gate: AtomicBool::new(false),
        }
    }

    /// Where the gate is another one.
    pub fn unseen() -> Squares {
        let squares = Squares::new(false);
        squares.has_other_gate.store(true, SeqCst);
        squares
    }

    /// Another list of jobs is to be run.
    fn begin_again(&self) {
        self.begun.store(0, SeqCst);
        self.ended.store(0, SeqCst);
        self.passed.store(0, SeqCst);
    }

    fn nine_have_ended(&self) -> bool {
        for _ in 0..Self::LOOKS {
            if self.ended.load(SeqCst) == 9 {
                return true;
            }
        }
        false
    }

    fn has_passed_once(&self, number: usize) -> bool {
        match DIGITS.get(number) {
            Some(digit) => self.passed.load(SeqCst).checked_div(*digit).unwrap_or(0) % 16 == 1,
            None => true,
        }
    }
}

impl Gate for Squares {
    fn at<R: Wait>(&self, _rt: &R, number: usize) {
        if let Some(digit) = DIGITS.get(number) {
            self.passed.fetch_add(*digit, SeqCst);
        }
    }
}

impl Deal for Squares {
    ghost use Rattle.std.specs.Prelude.{◌≡◌, ◌*◌};

    type Job = u32;

    type Done = u64;

    ghost does = { λ job done. done ≡ job * job };
}

impl Work for Squares {
    // A job is its own number.
    fn run(&self, _alloc: Global, job: u32) -> u64 {
        if !self.has_other_gate.load(SeqCst) && !self.has_passed_once(job as usize) {
            self.is_wrong.store(true, SeqCst);
        }
        if self.begun.fetch_add(1, SeqCst) == 0 && self.first_waits && !self.nine_have_ended() {
            self.is_wrong.store(true, SeqCst);
        }
        self.ended.fetch_add(1, SeqCst);
        let job = u64::from(job);
        job * job
    }
}

/// The numbers below a count.
pub fn numbers(rt: &impl Abort, alloc: Global, count: u32) -> Vec<u32> {
    let mut jobs = Vec::new(alloc);
    for job in 0..count {
        let Ok(()) = jobs.push(job) else {
            panic!(rt; "memory");
        };
    }
    jobs
}

/// How many numbers are squared, and by how many workers.
type Case = (u32, usize);

/// The squares of the numbers below a count come in order, by a crew if there is one, and each of the first ten numbers
/// has passed the gate once, before its work. A square is the one before it and the next odd number.
fn expect_squares<R: Abort + Threads + Wait + Sync>(
    rt: &R,
    alloc: Global,
    work: &Squares,
    crew: Option<&Crew<Squares>>,
    (count, workers): Case,
) {
    work.begin_again();
    let jobs = numbers(rt, alloc, count);
    assert!(rt; jobs.len() <= MAX_JOBS && 1 <= workers && workers <= MAX_SEATS);
    let made = match crew {
        Some(crew) => crew.run_all(rt, alloc, work, jobs, workers, work),
        None => run_all(rt, alloc, work, jobs, workers, work),
    };
    let Ok(squares) = made else {
        panic!(rt; "memory");
    };
    assert!(rt; squares.len() == count as usize);
    let (mut expected, mut odd): (u64, u64) = (0, 1);
    for square in squares.iter() {
        assert!(rt; *square == expected);
        expected = expected.wrapping_add(odd);
        odd = odd.wrapping_add(2);
    }
    assert!(rt; !work.is_wrong.load(SeqCst));
    assert!(rt; count == 0 || work.passed.load(SeqCst) == EACH_ONCE);
}

/// Ten jobs, none, and as many jobs and workers as there may be.
static CASES: [Case; 8] = [
    (10, 1),
    (10, 2),
    (10, 3),
    (10, 64),
    (0, 1),
    (0, 2),
    (0, 64),
    (1_024, 64),
];

fn expect_all<R: Abort + Threads + Wait + Sync>(
    rt: &R,
    alloc: Global,
    work: &Squares,
    crew: Option<&Crew<Squares>>,
) {
    for case in &CASES {
        expect_squares(rt, alloc, work, crew, *case);
    }
}

#[test]
fn squares_come_in_order(rt: HostRuntime) {
    expect_all(&rt, rt.alloc(), &Squares::new(false), None);
}

/// One worker is held up by its first job, so the other has to do the nine others: both work at the same time, and
/// neither has a fixed part of the jobs.
#[test]
fn two_workers_draw_as_they_become_free(rt: HostRuntime) {
    expect_squares(&rt, rt.alloc(), &Squares::new(true), None, (10, 2));
}

/// Nine jobs, all of which the crew has done before its caller takes its share. They come in order, and each has passed
/// the gate once.
fn expect_done_meanwhile<R: Abort + Threads + Wait + Sync>(
    rt: &R,
    alloc: Global,
    work: &Squares,
    crew: &Crew<Squares>,
) {
    work.begin_again();
    let jobs = numbers(rt, alloc, 9);
    assert!(rt; jobs.len() <= MAX_JOBS);
    let Ok(mut phase) = crew.begin(rt, alloc, jobs, 4, 1) else {
        panic!(rt; "memory");
    };
    crew.call_late(rt, alloc, &mut phase);
    assert!(rt; work.nine_have_ended(), "the crew did not begin");
    let Ok(squares) = crew.finish(rt, alloc, work, phase, work) else {
        panic!(rt; "memory");
    };
    assert!(rt; squares.as_slice() == [0, 1, 4, 9, 16, 25, 36, 49, 64].as_slice());
    assert!(rt; !work.is_wrong.load(SeqCst));
    assert!(rt; work.passed.load(SeqCst) == EACH_ONCE / 16);
}

/// A crew of three threads runs list after list, also while its caller does something else. When the threads have ended,
/// the calling thread does all jobs.
#[test]
fn squares_come_in_order_from_a_crew(rt: HostRuntime) {
    let alloc = rt.alloc();
    let crew: Crew<Squares> = Crew::new(alloc);
    let work = Squares::new(false);
    join(
        &rt,
        || crew.serve(&rt, alloc, &work, &work, 3),
        || {
            expect_done_meanwhile(&rt, alloc, &work, &crew);
            expect_all(&rt, alloc, &work, Some(&crew));
            crew.dismiss(&rt);
        },
    );
    expect_all(&rt, alloc, &work, Some(&crew));
}
