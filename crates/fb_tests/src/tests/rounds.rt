//! Rounds that the caller makes, one after the other.

ghost use Rattle.std.specs.Prelude.{◌≤◌, ◌^◌, ℕ, []};
ghost use Rattle.fb_sim.specs.Rounds.{HasCome};
ghost use Rattle.fb_sim.specs.Serial.{AreWithin};
ghost use Rattle.fb_window.specs.Reached.{KeepHorizon};

use super::later_rounds::lines_in;
use super::rows::{
    ARRIVAL_ROW, BETWEEN_ROW, CYCLE_ROW, LATER_FIRST_ROW, LATER_STOP_ROW, OLD_COPY_ROW,
    OVERTAKEN_ROW, PAST_A_STOP_ROW, Part, RING_ROW, Row, TOGETHER_ROW, TWO_STOPS_ROW,
};
use super::texts::Run;
use super::writers::{ANY, Narrow, with_room};
use super::{inputs_of, must, to};
use fb_phase::OpenGate;
use fb_sim::{
    Inputs, Options, Outcome, Round, RunError, discard, open, open_core, round, run, run_serial,
};
use fb_system::System;
use fb_types::Form;
use fb_window::Core;
use std::alloc::Global;
use std::mem::forget;
use std::process::Abort;
use std::sync::Wait;
use std::thread::Threads;

/// How many ticks past the least event a bound may be.
pub const CAP: u64 = 1024;

/// These are the bounds of the resources before a round, and 0 for one that has stopped.
fn expect_bounds(rt: &impl Abort, core: &Core, horizon: u64, expected: &[u64])
    requires clocks { KeepHorizon horizon core.now.resources.items }
    requires early { horizon ≤ 10 ^ 12 }
{
    let bounds = core.bounds(horizon, CAP);
    let resources = core.state().resources.as_slice();
    assert!(rt; resources.len() == expected.len(), "another resource");
    assert!(rt; expected.len() <= bounds.all.len());
    for (index, wanted) in expected.iter().enumerate() {
        let found = if resources[index].stopped().is_some() {
            0
        } else {
            bounds.all[index]
        };
        assert!(rt; found == *wanted);
    }
}

/// The round wrote these lines, and nothing else, after the bytes that were there.
fn expect_lines(rt: &impl Abort, out: &Narrow, before: usize, lines: &str) {
    assert!(rt; out.got.len() == before.saturating_add(lines.len()));
    assert!(rt; out.got.as_slice().ends_with(lines.as_bytes()));
}

/// The system of a run.
pub fn system_of<R: Abort>(rt: &R, alloc: Global, run: &Run) -> System {
    let inputs = inputs_of(run.declaration, run.deploy, run.stimuli);
    must(rt, open(alloc, &inputs), "no system")
}

/// The core of a run before its first event.
pub fn opened<R: Abort>(rt: &R, alloc: Global, system: &System, steps: u64) -> Core
    requires some { 1 ≤ steps }
    requires few { steps ≤ 10 ^ 7 }
    ensures { (horizon : ℕ) → HasCome system.now steps horizon result [] }
{
    let Ok(core) = open_core(alloc, system, steps) else {
        panic!(rt; "memory for the core");
    };
    core
}

/// The options of a run, which are within their ranges.
fn options_of(rt: &impl Abort, run: &Run, form: Form, workers: u64) -> Options
    ensures { AreWithin result }
{
    assert!(rt; 1 <= workers && workers <= 64 && 1 <= run.steps && run.steps <= 10_000_000);
    assert!(rt; 1 <= run.horizon && run.horizon <= 1_000_000_000_000);
    Options {
        horizon: run.horizon,
        steps: run.steps,
        workers,
        form,
    }
}

/// The rounds of a run, how many there are, and how it ends. A round that is out of memory has written nothing. It ends
/// the test, and so does a writer that is.
fn make_rounds<R: Abort + Threads + Wait + Sync>(
    rt: &R,
    alloc: Global,
    system: &System,
    options: Options,
    rounds: &[Part],
    out: &mut Narrow,
) -> (usize, Outcome)
    requires { AreWithin options }
{
    system.facts(); // for the prover: what holds of every accepted system
    let mut core = opened(rt, alloc, system, options.steps);
    for (number, part) in rounds.iter().enumerate() {
        expect_bounds(rt, &core, options.horizon, part.bounds);
        let before = out.got.len();
        match round(rt, alloc, system, core, options, out, &OpenGate) {
            Ok(Round::Going(next)) => core = next,
            Ok(Round::Ended(last)) => {
                forget(last);
                expect_lines(rt, out, before, part.lines);
                return (number, Outcome::End(options.horizon));
            }
            Ok(Round::Stopped(mark)) => {
                expect_lines(rt, out, before, part.lines);
                return (number, Outcome::Stop(mark));
            }
            Err(error) => {
                assert!(rt; !matches!(error, RunError::Memory) || out.got.len() == before);
                panic!(rt; "memory for a round or its lines");
            }
        }
        expect_lines(rt, out, before, part.lines);
    }
    rt.panic("it came to no end")
}

/// How rounds are made: the count of workers, and how many bytes the writer takes a call.
pub type Way = (u64, usize);

fn expect_rounds<R: Abort + Threads + Wait + Sync>(
    rt: &R,
    alloc: Global,
    (workers, step): Way,
    row: &Row,
) {
    let system = system_of(rt, alloc, &row.run);
    let options = options_of(rt, &row.run, row.form, workers);
    let mut out = with_room(alloc, step, ANY);
    let (number, outcome) = make_rounds(rt, alloc, &system, options, row.rounds, &mut out);
    assert!(rt; number.saturating_add(1) == row.rounds.len() && outcome == row.run.outcome);
    discard(system);
}

// `tools/refuse.py` runs each of these with each request for memory refused in turn.

#[test]
fn rounds_of_one_worker_write_what_has_become_final(rt: HostRuntime) {
    expect_rounds(&rt, rt.alloc(), (1, ANY), &ARRIVAL_ROW);
}

#[test]
fn rounds_of_two_workers_write_what_has_become_final(rt: HostRuntime) {
    expect_rounds(&rt, rt.alloc(), (2, ANY), &ARRIVAL_ROW);
}

#[test]
fn rounds_of_64_workers_write_what_has_become_final(rt: HostRuntime) {
    expect_rounds(&rt, rt.alloc(), (64, ANY), &ARRIVAL_ROW);
}

pub static WAYS: [Way; 12] = [
    (1, 1),
    (1, 2),
    (1, 3),
    (1, ANY),
    (2, 1),
    (2, 2),
    (2, 3),
    (2, ANY),
    (64, 1),
    (64, 2),
    (64, 3),
    (64, ANY),
];

fn expect_all_ways<R: Abort + Threads + Wait + Sync>(rt: &R, alloc: Global, row: &Row) {
    for way in &WAYS {
        expect_rounds(rt, alloc, *way, row);
    }
}

#[test]
fn each_round_of_messages_has_its_bounds_and_lines(rt: HostRuntime) {
    expect_all_ways(&rt, rt.alloc(), &ARRIVAL_ROW);
    expect_all_ways(&rt, rt.alloc(), &LATER_FIRST_ROW);
    expect_all_ways(&rt, rt.alloc(), &OLD_COPY_ROW);
    expect_all_ways(&rt, rt.alloc(), &OVERTAKEN_ROW);
    expect_all_ways(&rt, rt.alloc(), &TOGETHER_ROW);
}

#[test]
fn each_round_before_a_stop_has_its_bounds_and_lines(rt: HostRuntime) {
    expect_all_ways(&rt, rt.alloc(), &BETWEEN_ROW);
    expect_all_ways(&rt, rt.alloc(), &TWO_STOPS_ROW);
    expect_all_ways(&rt, rt.alloc(), &LATER_STOP_ROW);
    expect_all_ways(&rt, rt.alloc(), &PAST_A_STOP_ROW);
    expect_all_ways(&rt, rt.alloc(), &CYCLE_ROW);
}

#[test]
fn each_round_of_a_ring_has_its_bounds_and_lines(rt: HostRuntime) {
    expect_all_ways(&rt, rt.alloc(), &RING_ROW);
}

/// What the digits of a number below 1,000 count.
static UNITS: [u64; 3] = [100, 10, 1];

/// Appends a number below 1,000.
fn push_number(rt: &impl Abort, text: &mut Vec<u8>, number: u64) {
    for unit in &UNITS {
        let count = number.checked_div(*unit).unwrap_or(0);
        if *unit == 1 || count > 0 {
            let pushed = text.push(b"0123456789"[(count % 10) as usize]);
            assert!(rt; pushed.is_ok(), "memory");
        }
    }
}

/// Appends texts, with this number between each two.
fn push_all(rt: &impl Abort, text: &mut Vec<u8>, parts: &[&str], number: u64) {
    for (index, part) in parts.iter().enumerate() {
        if index > 0 {
            push_number(rt, text, number);
        }
        let pushed = text.extend_from_slice(part.as_bytes());
        assert!(rt; pushed.is_ok(), "memory");
    }
}

/// How many lines the trace of the ring has to tick 10,000. A way round takes 253 ticks. There are 3 lines of the
/// first event, 2 of each message that arrives before the horizon, and the last one.
const RING_LINES: u32 = 5062;

/// How many resources are in the ring.
const RING: u64 = 64;

/// An event goes round a ring of 64 resources.
fn ring_of_64(rt: &impl Abort, alloc: Global) -> Vec<u8> {
    let mut text = Vec::new(alloc);
    push_all(rt, &mut text, &["APPLICATION A FBS S : E_RESTART;"], 0);
    for number in 0..RING {
        push_all(rt, &mut text, &[" M", " : E_MERGE;"], number);
    }
    push_all(
        rt,
        &mut text,
        &[" END_FBS EVENT_CONNECTIONS S.COLD TO M0.EI2;"],
        0,
    );
    for number in 0..RING {
        push_all(rt, &mut text, &[" M", ".EO TO M"], number);
        push_all(rt, &mut text, &["", ".EI1;"], number.wrapping_add(1) % RING);
    }
    push_all(rt, &mut text, &[" END_CONNECTIONS END_APPLICATION"], 0);
    text
}

/// Each of its blocks is in a resource of its own. The latencies of the links are 1 to 7 ticks.
fn deploy_of_64(rt: &impl Abort, alloc: Global) -> Vec<u8> {
    let mut text = Vec::new(alloc);
    for number in 0..RING {
        let start = if number == 0 { "\"S\", " } else { "" };
        push_all(
            rt,
            &mut text,
            &[
                "[[resource]]\ndevice = \"D\"\nname = \"R",
                "\"\ninstances = [",
            ],
            number,
        );
        push_all(rt, &mut text, &[start], 0);
        push_all(rt, &mut text, &["\"M", "\"]\n"], number);
    }
    for number in 0..RING {
        push_all(rt, &mut text, &["[[link]]\nfrom = \"R", "\"\n"], number);
        push_all(
            rt,
            &mut text,
            &["to = \"R", "\"\n"],
            number.wrapping_add(1) % RING,
        );
        push_all(
            rt,
            &mut text,
            &["latency = ", "\n"],
            (number % 7).wrapping_add(1),
        );
    }
    text
}

/// Makes rounds until the run has ended at its horizon. Answers how many there were.
fn make_all<R: Abort + Threads + Wait + Sync>(
    rt: &R,
    alloc: Global,
    system: &System,
    options: Options,
    out: &mut Narrow,
) -> u32
    requires { AreWithin options }
{
    system.facts();
    let mut core = opened(rt, alloc, system, options.steps);
    for number in 0..10_001u32 {
        match round(rt, alloc, system, core, options, out, &OpenGate) {
            Ok(Round::Going(next)) => core = next,
            Ok(Round::Ended(last)) => {
                forget(last);
                return number + 1;
            }
            Ok(Round::Stopped(_)) => panic!(rt; "it stopped"),
            Err(_) => panic!(rt; "memory for a round or its lines"),
        }
    }
    rt.panic("there are more rounds than ticks")
}

/// The texts that declare the ring.
#[derive(Drop)]
struct Ring {
    declaration: Vec<u8>,
    deploy: Vec<u8>,
}

fn inputs_in(ring: &Ring) -> Inputs<'_> {
    Inputs {
        declaration: ring.declaration.as_slice(),
        deploy: Some(ring.deploy.as_slice()),
        stimuli: None,
    }
}

/// The last line of the trace of the ring.
const RING_END: &[u8] = b"end 10000\n";

/// Rounds from outside write these lines, and `run` these and the last one, each through a writer of one byte a call.
fn expect_ring<R: Abort + Threads + Wait + Sync>(
    rt: &R,
    alloc: Global,
    ring: &Ring,
    (of_rounds, of_run): (u64, u64),
    lines: &[u8],
) {
    assert!(rt; 1 <= of_rounds && of_rounds <= 64);
    let options = Options {
        horizon: 10_000,
        steps: 10_000,
        workers: of_rounds,
        form: Form::One,
    };
    let inputs = inputs_in(ring);
    let system = must(rt, open(alloc, &inputs), "no system");
    let mut out = with_room(alloc, 1, ANY);
    make_all(rt, alloc, &system, options, &mut out);
    discard(system);
    assert!(rt; out.got.as_slice() == lines, "other bytes by rounds");
    let mut out = with_room(alloc, 1, ANY);
    let options = to(10_000, 10_000, of_run);
    let ended = run(rt, alloc, &inputs, options, &mut out, &OpenGate);
    assert!(rt; must(rt, ended, "no run") == Outcome::End(10_000));
    let Some(found) = out.got.as_slice().strip_suffix(RING_END) else {
        panic!(rt; "another last line");
    };
    assert!(rt; found == lines, "other bytes by the run");
}

/// The ring to tick 10,000 has the trace of one agenda by rounds from outside, whose workers are started anew in each
/// round, and by `run`, whose workers live as long as it does.
fn expect_ring_of_64<R: Abort + Threads + Wait + Sync>(rt: &R, alloc: Global, workers: (u64, u64)) {
    let ring = Ring {
        declaration: ring_of_64(rt, alloc),
        deploy: deploy_of_64(rt, alloc),
    };
    let mut serial = with_room(alloc, ANY, ANY);
    let ended = run_serial(alloc, &inputs_in(&ring), to(10_000, 10_000, 1), &mut serial);
    assert!(rt; must(rt, ended, "no run") == Outcome::End(10_000));
    let trace = serial.got.as_slice();
    assert!(rt; lines_in(trace) == RING_LINES);
    let Some(lines) = trace.strip_suffix(RING_END) else {
        panic!(rt; "another last line");
    };
    expect_ring(rt, alloc, &ring, workers, lines);
}

#[test]
fn a_ring_of_64_resources_by_rounds_of_one_worker(rt: HostRuntime) {
    expect_ring_of_64(&rt, rt.alloc(), (1, 64));
}

#[test]
fn a_ring_of_64_resources_by_rounds_of_three_workers(rt: HostRuntime) {
    expect_ring_of_64(&rt, rt.alloc(), (3, 2));
}

/// How many bursts follow one another.
const BURSTS: u64 = 17;

/// A cycle of one tick goes to a burst of sixty events, from there to another one, and so on.
fn bursts(rt: &impl Abort, alloc: Global) -> Vec<u8> {
    let mut text = Vec::new(alloc);
    push_all(
        rt,
        &mut text,
        &[
            "FUNCTION_BLOCK BURST EVENT_INPUT GO; END_EVENT EVENT_OUTPUT TICKED; DONE; END_EVENT EC_STATES IDLE; RUN :",
        ],
        0,
    );
    for _ in 0..60u32 {
        push_all(rt, &mut text, &[" -> TICKED,"], 0);
    }
    push_all(
        rt,
        &mut text,
        &[
            " -> DONE; END_STATES EC_TRANSITIONS IDLE TO RUN := GO; RUN TO IDLE := 1; END_TRANSITIONS END_FUNCTION_BLOCK \
            APPLICATION A FBS S : E_RESTART; C : E_CYCLE(DT := T#1ms);",
        ],
        0,
    );
    for number in 0..BURSTS {
        push_all(rt, &mut text, &[" B", " : BURST;"], number);
    }
    push_all(
        rt,
        &mut text,
        &[" END_FBS EVENT_CONNECTIONS S.COLD TO C.START; C.EO TO B0.GO;"],
        0,
    );
    for number in 1..BURSTS {
        push_all(rt, &mut text, &[" B", ".DONE TO B"], number.wrapping_sub(1));
        push_all(rt, &mut text, &["", ".GO;"], number);
    }
    push_all(rt, &mut text, &[" END_CONNECTIONS END_APPLICATION"], 0);
    text
}

/// At tick 0 there are 2 lines. At each of the 1,000 ticks after it there are one of the cycle and, of each burst, one of
/// what comes and 61 of what goes.
const LINES_OF_BURSTS: u32 = 1_055_002;

/// More bytes than these lines have.
const ENOUGH_BYTES: usize = 100_000_000;

/// A round may have more than 2^20 lines.
#[test]
fn a_round_of_a_million_lines_is_written(rt: HostRuntime) {
    let alloc = rt.alloc();
    let declaration = bursts(&rt, alloc);
    let inputs = Inputs {
        declaration: declaration.as_slice(),
        deploy: None,
        stimuli: None,
    };
    let system = must(&rt, open(alloc, &inputs), "no system");
    let mut out = with_room(alloc, ANY, ENOUGH_BYTES);
    let options = Options {
        horizon: 1_001,
        steps: 10_000,
        workers: 2,
        form: Form::One,
    };
    let rounds = make_all(&rt, alloc, &system, options, &mut out);
    assert!(rt; rounds == 1);
    assert!(rt; lines_in(out.got.as_slice()) == LINES_OF_BURSTS);
    assert!(rt;
        out.got
            .as_slice()
            .ends_with(b"\n1000 MAIN < B16.TICKED\n1000 MAIN < B16.DONE\n")
    );
    discard(system);
}
