//! Threads that live for many phases. Between them they sleep, so that a phase does not start any.
//!
//! Shifts wait under a lock, and a thread that finds none sleeps at its condition. What was served comes back through the
//! channel of its phase.

ghost use Rattle.std.specs.Prelude.{◌≡◌, ◌≢◌, ◌≤◌, ◌↔◌, ◌++◌, [], IsTrue, IsFalse, vec_len};
ghost use Rattle.fb_phase.specs.declared.crew.Turn.TheVariants.{Leave, Sleep};

use crate::gate::Gate;
use crate::shift::Shift;
use crate::work::Work;
use std::alloc::Global;
use std::sync::atomic::AtomicU64;
use std::sync::atomic::Ordering::SeqCst;
use std::sync::{Condvar, Mutex, Wait};
use std::thread::Threads;
use std::{mem, thread};

/// What a crew's lock keeps.
#[derive(Drop)]
struct Desk<W: Work> {
    /// The number of the phase whose shifts wait.
    phase: u64,
    /// The shifts that nobody has taken.
    waiting: Vec<Shift<W>>,
    is_dismissed: bool,
}

/// What a thread of a crew does next.
#[derive(Clone, Copy)]
enum Turn {
    /// It leaves.
    Leave,
    /// It sleeps.
    Sleep,
    /// It takes a shift.
    Serve,
}

/// Decides what a thread does next, by whether the crew is dismissed, and how many shifts wait. It leaves once the crew is
/// dismissed, and then alone.
fn turn_of(is_dismissed: bool, waiting: usize) -> Turn
    ensures leave { (result ≡ Leave) ↔ IsTrue is_dismissed }
    ensures sleep { (result ≡ Sleep) ↔ IsFalse is_dismissed × (waiting ≡ 0) }
{
    if is_dismissed {
        Turn::Leave
    } else if waiting == 0 {
        Turn::Sleep
    } else {
        Turn::Serve
    }
}

impl<W: Work> Desk<W> {
    /// What a thread does next.
    fn next_turn(&self) -> Turn
        ensures leave { (result ≡ Leave) ↔ IsTrue self.now.is_dismissed }
        ensures sleep { (result ≡ Sleep) ↔ IsFalse self.now.is_dismissed × (vec_len self.now.waiting ≡ 0) }
    {
        turn_of(self.is_dismissed, self.waiting.len())
    }

    /// Puts the shifts of a phase among those that wait. It gives back those that it does not put there: all of them while
    /// shifts of another phase wait, and if there is no memory for them.
    fn put(&mut self, phase: u64, mut shifts: Vec<Shift<W>>) -> Vec<Shift<W>>
        ensures fewer { vec_len result ≤ vec_len shifts }
        ensures dismissed { self.new.is_dismissed ≡ self.old.is_dismissed }
        ensures none { self.old.waiting.items ≡ [] → (self.new.phase ≡ phase) × (self.new.waiting.items ≡ shifts.items) × (result.items ≡ []) }
        ensures others { self.old.waiting.items ≢ [] → self.old.phase ≢ phase → (self.new.phase ≡ self.old.phase) × (self.new.waiting.items ≡ self.old.waiting.items) × (result.items ≡ shifts.items) }
    {
        if self.waiting.is_empty() {
            self.phase = phase;
            return mem::replace(&mut self.waiting, shifts);
        }
        if self.phase == phase {
            let _ = self.waiting.append(&mut shifts);
        }
        shifts
    }

    /// Takes all shifts of this phase that wait.
    fn take_all(&mut self, alloc: Global, phase: u64) -> Vec<Shift<W>>
        ensures dismissed { self.new.is_dismissed ≡ self.old.is_dismissed }
        ensures own { self.old.phase ≡ phase → (result.items ≡ self.old.waiting.items) × (self.new.waiting.items ≡ []) }
        ensures others { self.old.phase ≢ phase → (result.items ≡ []) × (self.new.waiting.items ≡ self.old.waiting.items) }
    {
        if self.phase != phase {
            return Vec::new(alloc);
        }
        mem::replace(&mut self.waiting, Vec::new(alloc))
    }
}

/// A crew of threads. They share it by reference, with the one thread that calls them.
///
/// A thread with nothing to do sleeps until it is called. Nobody waits for a thread that has taken no shift. So if no
/// thread can be started, or none wakes, the one that calls does everything.
#[derive(Drop)]
pub struct Crew<W: Work> {
    desk: Mutex<Desk<W>>,
    /// Shifts wait, or the crew is dismissed.
    called: Condvar,
    /// How many phases have begun.
    phases: AtomicU64,
}

impl<W: Work> Crew<W> {
    /// A crew with no threads yet.
    pub fn new(alloc: Global) -> Crew<W> {
        Crew {
            desk: Mutex::new(Desk {
                phase: 0,
                waiting: Vec::new(alloc),
                is_dismissed: false,
            }),
            called: Condvar::new(),
            phases: AtomicU64::new(0),
        }
    }

    /// Serves on this thread and on others that it starts, this many threads in all, until the crew is dismissed. They
    /// pass this gate. If a thread can't be started, there are fewer. Called after the dismissal, it returns at once.
    pub fn serve<R: Threads + Wait + Sync, P: Gate>(
        &self,
        rt: &R,
        alloc: Global,
        work: &W,
        gate: &P,
        threads: usize,
    ) {
        thread::scope(thread::scope_env(), rt, move |scope| {
            for _ in 1..threads {
                let _ = scope.spawn(move || self.stand_by(rt, alloc, work, gate));
            }
            self.stand_by(rt, alloc, work, gate);
        });
    }

    /// Serves until the crew is dismissed.
    pub(crate) fn stand_by<R: Wait, P: Gate>(&self, rt: &R, alloc: Global, work: &W, gate: &P) {
        for _ in rt.forever() {
            let Some(shift) = self.next(rt) else {
                return;
            };
            shift.serve(rt, alloc, work, gate);
        }
    }

    /// Sleeps until a shift waits, and takes it. There is none once the crew is dismissed.
    fn next<R: Wait>(&self, rt: &R) -> Option<Shift<W>> {
        for _ in rt.forever() {
            let mut desk = self.called.wait_while(rt, self.desk.lock(rt), |desk| {
                matches!(desk.next_turn(), Turn::Sleep)
            });
            match desk.next_turn() {
                Turn::Leave => return None,
                Turn::Sleep => {}
                Turn::Serve => return desk.waiting.pop(),
            }
        }
        unreachable!()
    }

    /// The number of the next phase, from 1.
    pub(crate) fn next_phase(&self) -> u64 {
        self.phases.fetch_add(1, SeqCst).wrapping_add(1)
    }

    /// Hands out these shifts of a phase, and wakes a thread for each. It gives back those that it does not hand out: while
    /// shifts of another phase wait, and if there is no memory for them.
    pub(crate) fn call<R: Wait>(&self, rt: &R, phase: u64, shifts: Vec<Shift<W>>) -> Vec<Shift<W>>
        ensures { vec_len result ≤ vec_len shifts }
    {
        let count = shifts.len();
        if count == 0 {
            return shifts;
        }
        let kept = self.desk.lock(rt).put(phase, shifts);
        for _ in 0..count - kept.len() {
            self.called.notify_one();
        }
        kept
    }

    /// Takes back the shifts of a phase that nobody has taken.
    pub(crate) fn take_back<R: Wait>(&self, rt: &R, alloc: Global, phase: u64) -> Vec<Shift<W>> {
        self.desk.lock(rt).take_all(alloc, phase)
    }

    /// Lets each thread end once it has done what it took.
    pub fn dismiss<R: Wait>(&self, rt: &R) {
        self.desk.lock(rt).is_dismissed = true;
        self.called.notify_all();
    }
}
