//! How calls of the program end with files and outputs in memory, once for each status. (All else of calls is tried with
//! the built program, by `tools/calls.py` and `tools/narrow.py`.)

use super::memory::Memory;
use super::texts::CYCLE_TRACE;
use super::writers::{ANY, with_room};
use fbsim_command::command;
use std::alloc::Global;
use std::process::Abort;
use std::sync::Wait;
use std::thread::Threads;

const RING_TRACE: &str =
    "0 MAIN < S.COLD\n0 MAIN > M.EI1\n0 MAIN < M.EO\n0 MAIN > M.EI2\n0 MAIN < M.EO\n\
    stop 0 MAIN steps\n";

/// The words of a call, how many bytes its output takes, its status, the output, and what is reported of it.
type Call = (
    &'static [&'static str],
    usize,
    u8,
    &'static str,
    &'static str,
);

static CALLS: [Call; 9] = [
    (
        &["fbsim", "run", "-", "--horizon", "8"],
        ANY,
        0,
        CYCLE_TRACE,
        "",
    ),
    (&["fbsim", "check", "cycle"], ANY, 0, "accepted\n", ""),
    (
        &["fbsim", "run", "ring", "--horizon", "1", "--steps", "3"],
        ANY,
        1,
        RING_TRACE,
        "",
    ),
    (
        &["fbsim", "run", "cut_off", "--horizon", "1"],
        ANY,
        2,
        "",
        "refused E03 line 2\n",
    ),
    (
        &["fbsim", "check", "cycle", "--stim", "nowhere"],
        ANY,
        3,
        "",
        "file fault\n",
    ),
    (
        &["fbsim", "run", "-", "--deploy", "-", "--horizon", "8"],
        ANY,
        3,
        "",
        "file fault\n",
    ),
    (
        &["fbsim", "run", "cycle", "--horizon", "8"],
        10,
        3,
        "0 MAIN < S",
        "write fault after 10 bytes\n",
    ),
    (
        &["fbsim", "run", "full", "--horizon", "8"],
        ANY,
        4,
        "",
        "out of memory\n",
    ),
    (
        &["fbsim", "explain", "E99"],
        ANY,
        5,
        "",
        "error: no refusal or stop is called E99\n",
    ),
];

/// Makes a call twice. The second time standard error fails, which changes neither the status nor the output.
fn expect_end<R: Abort + Threads + Wait + Sync>(
    rt: &R,
    alloc: Global,
    (words, takes, end, text, line): Call,
) {
    for room in [ANY, 0] {
        let mut out = with_room(alloc, ANY, takes);
        let mut err = with_room(alloc, ANY, room);
        let status = command(rt, alloc, words, &mut Memory::new(), &mut out, &mut err);
        assert!(rt; status == end && out.got.as_slice() == text.as_bytes());
        assert!(rt; room == 0 || err.got.as_slice() == line.as_bytes());
    }
}

#[test]
fn calls_end_with_their_status(rt: HostRuntime) {
    for call in &CALLS {
        expect_end(&rt, rt.alloc(), *call);
    }
}
