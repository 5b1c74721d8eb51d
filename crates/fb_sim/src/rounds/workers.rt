//! What a worker does with a job, and who the workers are.

ghost use Rattle.std.specs.Prelude.{◌≤◌, List, IfOk, vec_len};
ghost use Rattle.std.specs.List.{AllZip};
ghost use Rattle.fb_window.specs.Jobs.{JobModel};
ghost use Rattle.fb_sim.specs.Texts.{AreDone, DoesWithText};

use fb_board::{Deal, MAX_SEATS};
use fb_phase::{Crew, Gate, PhaseError, Work, run_all};
use fb_resource::WindowDone;
use fb_trace::MarkedText;
use fb_types::{Form, Line};
use fb_window::Job;
use std::alloc::{AllocError, Global};
use std::mem;
use std::sync::atomic::AtomicBool;
use std::sync::atomic::Ordering::SeqCst;
use std::sync::{Mutex, Wait};
use std::thread::Threads;

/// Each job is a resource that runs to its bound.
pub(crate) struct Jobs;

impl Deal for Jobs {
    ghost use Rattle.fb_window.specs.Jobs.{Does};

    type Job = Job;

    type Done = WindowDone;

    ghost does = { Does };
}

impl Work for Jobs {
    fn run(&self, alloc: Global, job: Job) -> WindowDone {
        job.run(alloc)
    }
}

/// What becomes of a resource that ran to its bound, with the text of its lines where it was made.
#[derive(Drop)]
pub(crate) struct JobDone {
    pub done: WindowDone,
    pub text: Option<MarkedText>,
}

/// The text of fewer lines than this is not made with a job.
const FEW: usize = 32;

/// Each job is a resource that runs to its bound. Where the text of its lines will be of use, the worker makes it too,
/// while its processor's cache holds them.
#[derive(Drop)]
pub(crate) struct TextJobs {
    /// The form of the text.
    form: Form,
    /// Whether jobs make text.
    has_text: AtomicBool,
    /// Lists whose lines are no longer needed. The workers drop these, and put the lines of their jobs there.
    spent: Mutex<Vec<Vec<Line>>>,
}

impl TextJobs {
    /// Jobs that make no text yet.
    pub(crate) fn new(alloc: Global, form: Form) -> TextJobs {
        TextJobs {
            form,
            has_text: AtomicBool::new(false),
            spent: Mutex::new(Vec::new(alloc)),
        }
    }

    /// Lets the jobs of the next round make text in the form of the run, or not.
    pub(crate) fn set_text(&self, has_text: bool) {
        self.has_text.store(has_text, SeqCst);
    }

    /// Leaves lists whose lines are no longer needed to the workers. Those of an earlier call that none has taken are
    /// dropped.
    pub(crate) fn leave<R: Wait>(&self, rt: &R, lists: Vec<Vec<Line>>) {
        let before = mem::replace(&mut *self.spent.lock(rt), lists);
        drop(before);
    }

    /// A list whose lines are no longer needed, if there is one and they take up at least a quarter of its memory: lists
    /// that are mostly empty are dropped, so that few are as large as that of the busiest resource.
    fn take_spent(&self) -> Option<Vec<Line>> {
        let list = self.spent.try_lock()?.pop()?;
        if list.len() < list.capacity() / 4 {
            return None;
        }
        Some(list)
    }
}

impl Deal for TextJobs {
    ghost use Rattle.fb_sim.specs.Texts.{DoesWithText};

    type Job = Job;

    type Done = JobDone;

    ghost does = { DoesWithText };
}

impl Work for TextJobs {
    fn run(&self, alloc: Global, job: Job) -> JobDone {
        let spent = self.take_spent().unwrap_or(Vec::new(alloc));
        if !self.has_text.load(SeqCst) {
            let done = job.run_over(alloc, spent);
            return JobDone { done, text: None };
        }
        let (done, text) = job.run_with_text(alloc, spent, self.form, FEW);
        JobDone { done, text }
    }
}

/// What becomes of all jobs of a round, in their order.
#[derive(Drop)]
pub(crate) struct RoundDone {
    pub dones: Vec<WindowDone>,
    /// For each the text of its lines, if it was made. There are none where no worker ran the jobs.
    pub texts: Option<Vec<Option<MarkedText>>>,
}

/// What becomes of all jobs, with the texts apart.
pub(crate) fn apart(alloc: Global, all: Vec<JobDone>) -> Result<RoundDone, AllocError>
    ensures { (jobs : List JobModel) → AllZip DoesWithText jobs all.items → IfOk result (AreDone jobs) }
{
    let mut dones = Vec::with_capacity(alloc, all.len())?;
    let mut texts = Vec::with_capacity(alloc, all.len())?;
    for one in all {
        let JobDone { done, text } = one;
        dones.push_reserved(done);
        texts.push_reserved(text);
    }
    Ok(RoundDone {
        dones,
        texts: Some(texts),
    })
}

/// The number of workers of a run that asks for `most`: no more than there are threads, at least 1.
pub(crate) fn workers_on(threads: u64, most: u64) -> u64
    requires { 1 ≤ most }
    ensures some { 1 ≤ result }
    ensures few { result ≤ most }
{
    most.min(threads.max(1))
}

/// Who runs the jobs of a round, and the gate that they pass.
#[derive(Drop)]
pub(crate) struct Workers<'a, P> {
    pub gate: &'a P,
    /// What a worker does with a job.
    pub work: &'a TextJobs,
    /// The threads that live for the whole run. Where there are none, those of a round are started for it.
    pub crew: Option<&'a Crew<TextJobs>>,
    /// How many threads run jobs at most, with the one that makes the rounds.
    pub threads: u64,
}

impl<'a, P: Gate> Workers<'a, P> {
    /// Threads that are started for each round.
    pub(crate) fn started(gate: &'a P, work: &'a TextJobs) -> Workers<'a, P> {
        Workers {
            gate,
            work,
            crew: None,
            threads: MAX_SEATS as u64,
        }
    }

    /// A crew of this many threads, with the one that makes the rounds.
    pub(crate) fn living(
        gate: &'a P,
        work: &'a TextJobs,
        crew: &'a Crew<TextJobs>,
        threads: u64,
    ) -> Workers<'a, P> {
        let crew = Some(crew);
        Workers {
            gate,
            work,
            crew,
            threads,
        }
    }

    /// Runs all jobs, and gives what was made of each in their order.
    pub(crate) fn run<R: Threads + Wait + Sync>(
        &self,
        rt: &R,
        alloc: Global,
        jobs: Vec<Job>,
        workers: usize,
    ) -> Result<Vec<JobDone>, PhaseError>
        requires few_jobs { vec_len jobs ≤ 256 }
        requires some { 1 ≤ workers }
        requires few { workers ≤ 64 }
        ensures { IfOk result (λ v. AllZip DoesWithText jobs.items v.items) }
    {
        match self.crew {
            Some(crew) => crew.run_all(rt, alloc, self.work, jobs, workers, self.gate),
            None => run_all(rt, alloc, self.work, jobs, workers, self.gate),
        }
    }
}
