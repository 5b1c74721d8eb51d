//! Later rounds of a run have several workers too, where the window before them gave many lines. Clocks decide how such
//! a run goes on, and change no byte of the trace.

use super::clocks::{Pace, Stepping};
use super::gates::{Meeting, expect_meeting};
use super::writers::{ANY, Narrow, page, with_room};
use super::{ENOUGH, inputs_of, must, to};
use fb_sim::{Inputs, Outcome, RunError, run, run_serial, run_with_clock};
use std::alloc::Global;
use std::process::Abort;
use std::sync::Wait;
use std::thread::Threads;

/// The tick at which the runs end.
const HORIZON: u64 = 40;

/// In each resource a cycle of one tick goes to a burst of sixty events, and from there to a merge of the next resource,
/// from which nothing goes on.
static DECLARATION: &str = concat!(
    "FUNCTION_BLOCK BURST\n",
    "EVENT_INPUT GO; END_EVENT\n",
    "EVENT_OUTPUT TICKED; DONE; END_EVENT\n",
    "EC_STATES IDLE; RUN :\n",
    "-> TICKED, -> TICKED, -> TICKED, -> TICKED, -> TICKED, -> TICKED, -> TICKED, -> TICKED, -> TICKED, -> TICKED,\n",
    "-> TICKED, -> TICKED, -> TICKED, -> TICKED, -> TICKED, -> TICKED, -> TICKED, -> TICKED, -> TICKED, -> TICKED,\n",
    "-> TICKED, -> TICKED, -> TICKED, -> TICKED, -> TICKED, -> TICKED, -> TICKED, -> TICKED, -> TICKED, -> TICKED,\n",
    "-> TICKED, -> TICKED, -> TICKED, -> TICKED, -> TICKED, -> TICKED, -> TICKED, -> TICKED, -> TICKED, -> TICKED,\n",
    "-> TICKED, -> TICKED, -> TICKED, -> TICKED, -> TICKED, -> TICKED, -> TICKED, -> TICKED, -> TICKED, -> TICKED,\n",
    "-> TICKED, -> TICKED, -> TICKED, -> TICKED, -> TICKED, -> TICKED, -> TICKED, -> TICKED, -> TICKED, -> TICKED,\n",
    "-> DONE; END_STATES\n",
    "EC_TRANSITIONS IDLE TO RUN := GO; RUN TO IDLE := 1; END_TRANSITIONS\n",
    "END_FUNCTION_BLOCK\n",
    "APPLICATION A FBS\n",
    "POWER0 : E_RESTART; BEAT0 : E_CYCLE(DT := T#1ms); SHOTS0 : BURST; JOIN0 : E_MERGE;\n",
    "POWER1 : E_RESTART; BEAT1 : E_CYCLE(DT := T#1ms); SHOTS1 : BURST; JOIN1 : E_MERGE;\n",
    "POWER2 : E_RESTART; BEAT2 : E_CYCLE(DT := T#1ms); SHOTS2 : BURST; JOIN2 : E_MERGE;\n",
    "POWER3 : E_RESTART; BEAT3 : E_CYCLE(DT := T#1ms); SHOTS3 : BURST; JOIN3 : E_MERGE;\n",
    "END_FBS\n",
    "EVENT_CONNECTIONS\n",
    "POWER0.COLD TO BEAT0.START; BEAT0.EO TO SHOTS0.GO; SHOTS0.DONE TO JOIN1.EI1;\n",
    "POWER1.COLD TO BEAT1.START; BEAT1.EO TO SHOTS1.GO; SHOTS1.DONE TO JOIN2.EI1;\n",
    "POWER2.COLD TO BEAT2.START; BEAT2.EO TO SHOTS2.GO; SHOTS2.DONE TO JOIN3.EI1;\n",
    "POWER3.COLD TO BEAT3.START; BEAT3.EO TO SHOTS3.GO; SHOTS3.DONE TO JOIN0.EI1;\n",
    "END_CONNECTIONS END_APPLICATION"
);

/// The resources, each with a link to the next, over which a message takes these ticks: that of the first, and those of
/// the others.
macro_rules! cells {
    ($first:literal, $other:literal) => {
        concat!(
            "resource = [\n",
            "{ device = 'D', name = 'CELL0', instances = ['POWER0', 'BEAT0', 'SHOTS0', 'JOIN0'] },\n",
            "{ device = 'D', name = 'CELL1', instances = ['POWER1', 'BEAT1', 'SHOTS1', 'JOIN1'] },\n",
            "{ device = 'D', name = 'CELL2', instances = ['POWER2', 'BEAT2', 'SHOTS2', 'JOIN2'] },\n",
            "{ device = 'D', name = 'CELL3', instances = ['POWER3', 'BEAT3', 'SHOTS3', 'JOIN3'] },\n",
            "]\n",
            "link = [\n",
            "{ from = 'CELL0', to = 'CELL1', latency = ", $first, " },\n",
            "{ from = 'CELL1', to = 'CELL2', latency = ", $other, " },\n",
            "{ from = 'CELL2', to = 'CELL3', latency = ", $other, " },\n",
            "{ from = 'CELL3', to = 'CELL0', latency = ", $other, " },\n",
            "]\n"
        )
    };
}

/// A round is of five ticks.
const FIVE: &str = cells!("5", "5");

/// Messages are on their way at the end of the run.
const FIFTY: &str = cells!("50", "50");

/// A message from CELL0 takes two ticks.
const TWO: &str = cells!("2", "5");

/// Where the first of these traces ends: an arrival is taken before the event of its tick that the cycle sent to the
/// burst.
static LAST_LINES: &str = "\n39 CELL3 < SHOTS3.TICKED\n39 CELL3 < SHOTS3.DONE\nend 40\n";

/// A way to run the resources.
#[derive(Clone, Copy)]
struct Way {
    /// The numbers of workers.
    workers: &'static [u64],
    /// How the clocks go on. There are none without it.
    pace: Option<Pace>,
    /// How often workers pass the gate, where that is known: four times in each round.
    passes: Option<u64>,
}

/// No reading is late.
const NEVER: u64 = u64::MAX;

/// A round takes ten milliseconds, one agenda no time.
const QUICK: Pace = Pace {
    by_wall: 10_000_000,
    by_thread: 0,
    late_from: NEVER,
};

/// A round of 1,280 lines takes two milliseconds; 64 lines on one agenda take a tenth of it.
const SLOWER: Pace = Pace {
    by_wall: 2_000_000,
    by_thread: 200_000,
    late_from: NEVER,
};

/// A deployment of the resources, how many lines its trace has, and ways to run it.
#[derive(Clone, Copy)]
struct Deployed {
    deploy: &'static str,
    lines: u32,
    ways: &'static [Way],
}

/// A resource gives 2 lines at tick 0; 1, 1, 60 and 1 at each of the 39 ticks from 1 on; and 2 for each message, which
/// were sent at the 34 ticks from 1 to 34: 2 + 39 * 63 + 34 * 2 = 2,527. Four of them, and the last line: 10,109. A round
/// of five ticks writes more than 20,000 bytes.
static WITH_FIVE: Deployed = Deployed {
    deploy: FIVE,
    lines: 10_109,
    // Eight rounds of some 1,280 lines. A run begins with three that are not timed, and two that are.
    ways: &[
        // One agenda goes on.
        Way {
            workers: &[2, 3, 64],
            pace: Some(QUICK),
            passes: Some(20),
        },
        // One agenda takes a second for 64 lines: rounds go on.
        Way {
            workers: &[2, 3, 64],
            pace: Some(Pace {
                by_thread: 1_000_000_000,
                ..QUICK
            }),
            passes: Some(32),
        },
        // No round takes any time, so the trial does not end before the run.
        Way {
            workers: &[2, 3, 64],
            pace: Some(Pace {
                by_wall: 0,
                ..QUICK
            }),
            passes: Some(32),
        },
        // Without a clock rounds go on.
        Way {
            workers: &[2, 3, 7, 64],
            pace: None,
            passes: Some(32),
        },
        // One agenda takes twice as long as a round for as many lines, or half as long: that is read after the
        // lines that are not timed, and before all others.
        Way {
            workers: &[2],
            pace: Some(SLOWER),
            passes: Some(32),
        },
        Way {
            workers: &[2],
            pace: Some(Pace {
                by_thread: 50_000,
                ..SLOWER
            }),
            passes: Some(20),
        },
        // Another program takes ten seconds from the fourth round. Only the fifth counts.
        Way {
            workers: &[2],
            pace: Some(Pace {
                late_from: 7,
                ..SLOWER
            }),
            passes: Some(32),
        },
    ],
};

/// It is one round, whose text threads make. Its lines are those above without two for each message:
/// 4 * (2 + 39 * 63) = 9,836, and the last line.
static WITH_FIFTY: Deployed = Deployed {
    deploy: FIFTY,
    lines: 9_837,
    ways: &[Way {
        workers: &[2, 3, 64],
        pace: None,
        passes: None,
    }],
};

/// CELL1 runs less far than the others, and the last lines of these are kept for a round. Three messages more arrive
/// than above, of two lines each: 10,109 + 6 = 10,115.
static WITH_TWO: Deployed = Deployed {
    deploy: TWO,
    lines: 10_115,
    ways: &[Way {
        workers: &[4],
        pace: None,
        passes: None,
    }],
};

/// One resource leaves nothing to do for a second worker, so nobody passes the gate. Each message arrives in its
/// tick: 4 * (2 + 39 * 65) = 10,148, and the last line.
static ALONE: Deployed = Deployed {
    deploy: "",
    lines: 10_149,
    ways: &[Way {
        workers: &[2],
        pace: Some(QUICK),
        passes: Some(0),
    }],
};

/// How many lines a trace has.
pub fn lines_in(trace: &[u8]) -> u32 {
    let mut lines: u32 = 0;
    for byte in trace {
        if *byte == b'\n' {
            lines = lines.saturating_add(1);
        }
    }
    lines
}

fn deployed_by(deploy: &str) -> Inputs<'_> {
    inputs_of(DECLARATION, deploy, "")
}

/// What one agenda writes.
fn serial<R: Abort>(rt: &R, alloc: Global, inputs: &Inputs<'_>) -> Narrow {
    let mut out = page(alloc);
    let outcome = run_serial(alloc, inputs, to(HORIZON, ENOUGH, 1), &mut out);
    assert!(rt; must(rt, outcome, "no run") == Outcome::End(HORIZON));
    out
}

/// A run with workers writes this trace. Returns how often they passed the gate.
fn passes_of<R: Abort + Threads + Wait + Sync>(
    rt: &R,
    alloc: Global,
    inputs: &Inputs<'_>,
    (workers, pace): (u64, Option<Pace>),
    trace: &[u8],
) -> u64 {
    let gate = Meeting::new(0, 0);
    let options = to(HORIZON, ENOUGH, workers);
    let mut out = page(alloc);
    let ended = match pace {
        Some(pace) => {
            let clock = Stepping::new(pace);
            run_with_clock(rt, alloc, inputs, options, &mut out, &gate, &clock)
        }
        None => run(rt, alloc, inputs, options, &mut out, &gate),
    };
    assert!(rt; must(rt, ended, "no run") == Outcome::End(HORIZON));
    assert!(rt; out.got.as_slice() == trace);
    gate.passes()
}

fn expect_ways<R: Abort + Threads + Wait + Sync>(rt: &R, alloc: Global, deployed: &Deployed) {
    let inputs = deployed_by(deployed.deploy);
    let trace = serial(rt, alloc, &inputs);
    let trace = trace.got.as_slice();
    assert!(rt; lines_in(trace) == deployed.lines);
    for way in deployed.ways {
        for workers in way.workers {
            let passes = passes_of(rt, alloc, &inputs, (*workers, way.pace), trace);
            assert!(rt; passes == way.passes.unwrap_or(passes));
        }
    }
}

#[test]
fn clocks_choose_how_a_run_goes_on(rt: HostRuntime) {
    expect_ways(&rt, rt.alloc(), &WITH_FIVE);
    expect_ways(&rt, rt.alloc(), &WITH_FIFTY);
    expect_ways(&rt, rt.alloc(), &WITH_TWO);
    expect_ways(&rt, rt.alloc(), &ALONE);
}

/// They meet in the fourth round.
#[test]
fn workers_meet_in_a_later_round(rt: HostRuntime) {
    let inputs = deployed_by(WITH_FIVE.deploy);
    let trace = serial(&rt, rt.alloc(), &inputs);
    let trace = trace.got.as_slice();
    assert!(rt; trace.ends_with(LAST_LINES.as_bytes()));
    let options = to(HORIZON, ENOUGH, 2);
    let result = (Outcome::End(HORIZON), trace);
    expect_meeting(
        &rt,
        rt.alloc(),
        &inputs,
        options,
        &Meeting::new(2, 3),
        result,
    );
}

/// Clocks that stand still: no round takes any time.
static STILL: Pace = Pace {
    by_wall: 0,
    by_thread: 0,
    late_from: u64::MAX,
};

/// The horizon of the longest run.
const LATEST: u64 = 1_000_000_000_000;

/// The text of the first rounds is written once it is long, also where no clock says that they took any time. Without that
/// a run to the last tick would write nothing before its end.
#[test]
fn a_run_writes_where_clocks_stand_still(rt: HostRuntime) {
    let inputs = deployed_by(WITH_FIVE.deploy);
    let gate = Meeting::new(0, 0);
    let clock = Stepping::new(STILL);
    let mut out = with_room(rt.alloc(), ANY, 0);
    let options = to(LATEST, ENOUGH, 2);
    let ended = run_with_clock(&rt, rt.alloc(), &inputs, options, &mut out, &gate, &clock);
    assert!(rt; matches!(ended, Err(RunError::Write(0))));
}
