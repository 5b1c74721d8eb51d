//! Jobs of a round by themselves: the text of the lines that they give, and the order in which they run.

ghost use Rattle.std.specs.Prelude.{◌≡◌, ◌^◌, ◌≤◌};
ghost use Rattle.std.specs.List.{AllZip};
ghost use Rattle.fb_window.specs.Jobs.{Does};
ghost use Rattle.fb_window.specs.Reached.{KeepHorizon};

use super::later_rounds::lines_in;
use super::parts::all_belong;
use super::rounds::{CAP, opened, system_of};
use super::texts::{CYCLE_RUN, Run, TWO_STOPS};
use super::writers::{ANY, with_room};
use super::{ENOUGH, inputs_of, must, to};
use fb_resource::WindowDone;
use fb_sim::{Outcome, discard, run_serial};
use fb_system::System;
use fb_trace::{MarkedText, write_lines};
use fb_types::{Form, Line};
use fb_window::{Core, Job, Settled};
use std::alloc::Global;
use std::mem::forget;
use std::process::Abort;

/// What a job of the first round gives.
#[derive(Clone, Copy)]
struct Given {
    /// The text of its lines.
    text: &'static str,
    /// The ticks of its lines, and where in the text the lines of each end.
    marks: &'static [(u64, usize)],
    /// How many lines it gives.
    lines: usize,
    /// How many of them are final when all jobs have come home.
    finals: usize,
}

/// The lines of tick 0 have 16 and 22 bytes, and those of the ticks 3 and 6 have 14 each.
static CYCLE_GIVES: [Given; 1] = [Given {
    text: "0 MAIN < S.COLD\n\
        0 MAIN > C.START DT=3\n\
        3 MAIN < C.EO\n\
        6 MAIN < C.EO\n",
    marks: &[(0, 38), (3, 52), (6, 66)],
    lines: 4,
    finals: 4,
}];

/// The lines have 12 and 16 bytes. Those of the second resource come after the stop of the first one, so that they are
/// never final.
static TWO_STOPS_GIVE: [Given; 2] = [
    Given {
        text: "7 R1 > K.GO\n7 R1 < K.TICKED\n",
        marks: &[(7, 28)],
        lines: 2,
        finals: 2,
    },
    Given {
        text: "7 R2 > L.GO\n7 R2 < L.TICKED\n",
        marks: &[(7, 28)],
        lines: 2,
        finals: 0,
    },
];

/// Runs jobs. What became of them comes in their order, and so do their texts.
fn run_jobs<R: Abort>(
    rt: &R,
    alloc: Global,
    mut jobs: Vec<Job>,
    texts: &mut Vec<MarkedText>,
) -> Vec<WindowDone>
    ensures { AllZip Does jobs.items result.items }
{
    let Some(last) = jobs.pop() else {
        forget(jobs);
        return Vec::new(alloc);
    };
    let mut dones = run_jobs(rt, alloc, jobs, texts);
    let (done, made) = last.run_with_text(alloc, Vec::new(alloc), Form::One, 0);
    let Some(text) = made else {
        panic!(rt; "memory");
    };
    let Ok(()) = texts.push(text) else {
        panic!(rt; "memory");
    };
    let Ok(()) = dones.push(done) else {
        panic!(rt; "memory");
    };
    dones
}

/// The first round of a run, before which nothing is kept. It returns the lines that are final, for each resource.
fn first_round<R: Abort>(
    rt: &R,
    alloc: Global,
    system: &System,
    core: Core,
    horizon: u64,
    texts: &mut Vec<MarkedText>,
) -> Vec<Vec<Line>>
    requires early { horizon ≤ 10 ^ 12 }
    requires system { core.system ≡ system.now }
    requires clocks { KeepHorizon horizon core.resources.items }
{
    let bounds = core.bounds(horizon, CAP);
    let Ok((away, jobs)) = core.jobs(alloc, system, bounds) else {
        panic!(rt; "memory");
    };
    let dones = run_jobs(rt, alloc, jobs, texts);
    assert!(rt; away.keeps_nothing());
    let Ok((reach, finals)) = away.settle_apart(alloc, system, dones) else {
        panic!(rt; "memory");
    };
    forget(reach);
    finals
}

fn expect_text<R: Abort>(rt: &R, made: &MarkedText, given: &Given) {
    assert!(rt; made.text.as_slice() == given.text.as_bytes());
    assert!(rt; made.lines == given.lines && made.marks.len() == given.marks.len());
    for (index, (tick, end)) in given.marks.iter().enumerate() {
        let mark = &made.marks[index];
        assert!(rt; mark.tick == *tick && mark.end == *end);
    }
}

/// The jobs of the first round of a run make these texts.
fn expect_texts<R: Abort>(rt: &R, alloc: Global, run: &Run, given: &[Given]) {
    assert!(rt; 1 <= run.steps && run.steps <= 10_000_000 && run.horizon <= 1_000_000_000_000);
    let system = system_of(rt, alloc, run);
    system.facts(); // for the prover: what holds of every accepted system
    let core = opened(rt, alloc, &system, run.steps);
    let mut texts = Vec::new(alloc);
    let finals = first_round(rt, alloc, &system, core, run.horizon, &mut texts);
    assert!(rt; texts.len() == given.len() && finals.len() == given.len());
    for (index, row) in given.iter().enumerate() {
        expect_text(rt, &texts[index], row);
        assert!(rt; finals[index].len() == row.finals);
    }
    forget(texts);
    forget(finals);
    discard(system);
}

#[test]
fn jobs_make_the_text_of_their_lines(rt: HostRuntime) {
    expect_texts(&rt, rt.alloc(), &CYCLE_RUN, &CYCLE_GIVES);
    expect_texts(&rt, rt.alloc(), &TWO_STOPS, &TWO_STOPS_GIVE);
}

/// Three resources that have one round to the horizon: what the first one sends arrives later.
static APART: Run = Run {
    declaration: "APPLICATION A FBS\n\
        S1 : E_RESTART; S2 : E_RESTART; S3 : E_RESTART; M : E_MERGE;\n\
        C1 : E_CYCLE(DT := T#2ms); C2 : E_CYCLE(DT := T#3ms); C3 : E_CYCLE(DT := T#5ms);\n\
        END_FBS\n\
        EVENT_CONNECTIONS S1.COLD TO C1.START; S2.COLD TO C2.START; S3.COLD TO C3.START;\n\
        C1.EO TO M.EI1; END_CONNECTIONS END_APPLICATION",
    deploy: "resource = [\n\
        { device = 'D', name = 'R1', instances = ['S1', 'C1'] },\n\
        { device = 'D', name = 'R2', instances = ['S2', 'C2', 'M'] },\n\
        { device = 'D', name = 'R3', instances = ['S3', 'C3'] },\n\
        ]\n\
        link = [{ from = 'R1', to = 'R2', latency = 40 }]\n",
    stimuli: "",
    horizon: 30,
    steps: ENOUGH,
    outcome: Outcome::End(30),
};

/// Two lines of each resource at tick 0, then 14 of the cycle of 2 ticks, 9 of that of 3, and 5 of that of 5.
const APART_LINES: u32 = 34;

/// Runs jobs, the last one first. What became of them comes in their order.
fn run_falling<R: Abort>(rt: &R, alloc: Global, mut jobs: Vec<Job>) -> Vec<WindowDone>
    ensures { AllZip Does jobs.items result.items }
{
    let Some(last) = jobs.pop() else {
        forget(jobs);
        return Vec::new(alloc);
    };
    let done = last.run(alloc);
    let mut dones = run_falling(rt, alloc, jobs);
    let Ok(()) = dones.push(done) else {
        panic!(rt; "memory");
    };
    dones
}

/// Runs jobs, the first one first.
fn run_rising<R: Abort>(rt: &R, alloc: Global, jobs: Vec<Job>) -> Vec<WindowDone>
    ensures { AllZip Does jobs.items result.items }
{
    let mut texts = Vec::new(alloc);
    let dones = run_jobs(rt, alloc, jobs, &mut texts);
    forget(texts);
    dones
}

/// Runs jobs in falling or in rising order.
fn run_in_order<R: Abort>(rt: &R, alloc: Global, jobs: Vec<Job>, falls: bool) -> Vec<WindowDone>
    ensures { AllZip Does jobs.items result.items }
{
    if falls {
        run_falling(rt, alloc, jobs)
    } else {
        run_rising(rt, alloc, jobs)
    }
}

/// The lines of a run that ends with its first round, whose jobs run in this order.
fn only_round<R: Abort>(
    rt: &R,
    alloc: Global,
    system: &System,
    core: Core,
    horizon: u64,
    falls: bool,
) -> Vec<Line>
    requires early { horizon ≤ 10 ^ 12 }
    requires system { core.system ≡ system.now }
    requires clocks { KeepHorizon horizon core.resources.items }
{
    let bounds = core.bounds(horizon, CAP);
    let Ok((away, jobs)) = core.jobs(alloc, system, bounds) else {
        panic!(rt; "memory");
    };
    let dones = run_in_order(rt, alloc, jobs, falls);
    let Ok(Settled::Ended(last, lines)) = away.settle(alloc, system, dones) else {
        panic!(rt; "memory, or another round");
    };
    forget(last);
    lines
}

/// The lines of a run are these bytes when the jobs of its only round run in this order.
fn expect_lines<R: Abort>(rt: &R, alloc: Global, run: &Run, falls: bool, expected: &[u8]) {
    assert!(rt; 1 <= run.steps && run.steps <= 10_000_000 && run.horizon <= 1_000_000_000_000);
    let system = system_of(rt, alloc, run);
    system.facts(); // for the prover: what holds of every accepted system
    let core = opened(rt, alloc, &system, run.steps);
    let lines = only_round(rt, alloc, &system, core, run.horizon, falls);
    assert!(rt; all_belong(&system, lines.as_slice()));
    let mut out = with_room(alloc, ANY, ANY);
    let written = write_lines(&mut out, &system, Form::One, lines.as_slice());
    assert!(rt; written.is_ok() && out.got.as_slice() == expected);
    forget(lines);
    discard(system);
}

#[test]
fn jobs_in_either_order_give_the_lines_of_one_agenda(rt: HostRuntime) {
    let alloc = rt.alloc();
    let inputs = inputs_of(APART.declaration, APART.deploy, APART.stimuli);
    let mut serial = with_room(alloc, ANY, ANY);
    let ended = run_serial(
        alloc,
        &inputs,
        to(APART.horizon, APART.steps, 1),
        &mut serial,
    );
    assert!(rt; must(&rt, ended, "no run") == APART.outcome);
    let Some(lines) = serial.got.as_slice().strip_suffix(b"end 30\n") else {
        panic!(rt; "another end");
    };
    assert!(rt; lines_in(lines) == APART_LINES);
    expect_lines(&rt, alloc, &APART, false, lines);
    expect_lines(&rt, alloc, &APART, true, lines);
}
