//! A link counts its messages in 128 bits. It carries each that it can count, and then the run is out of memory.

use super::chain::{ENOUGH, accepted};
use fb_sim_machine::{Machine, Pause};
use fb_system::System;
use std::alloc::Global;
use std::process::Abort;

/// One event that sends a message, and one that sends two, over one link.
static DECLARATION: &str = "APPLICATION A FBS A : E_MERGE; P : E_SPLIT; M : E_MERGE; END_FBS\n\
    EVENT_CONNECTIONS A.EO TO M.EI1; P.EO1 TO M.EI1; P.EO2 TO M.EI2; END_CONNECTIONS END_APPLICATION";

static DEPLOY: &str = "resource = [\n\
    { device = 'D', name = 'R1', instances = ['A', 'P'] },\n\
    { device = 'D', name = 'R2', instances = ['M'] },\n\
    ]\n\
    link = [{ from = 'R1', to = 'R2', latency = 1 }]\n";

static STIMULI: &str = "tick,event,values\n0,A.EI1,\n1,P.EI,\n";

/// The two events have 5 lines, and the three messages 2 each.
const LINES: usize = 11;

/// How many messages the link has carried before, and how many after three more, if these can be counted.
static COUNTS: [(u128, Option<u128>); 6] = [
    (0, Some(3)),
    (4_294_967_294, Some(4_294_967_297)),
    (18_446_744_073_709_551_614, Some(18_446_744_073_709_551_617)),
    (
        340_282_366_920_938_463_463_374_607_431_768_211_452,
        Some(340_282_366_920_938_463_463_374_607_431_768_211_455),
    ),
    (340_282_366_920_938_463_463_374_607_431_768_211_453, None),
    (340_282_366_920_938_463_463_374_607_431_768_211_455, None),
];

/// Three messages go over the link, which has carried this many. Answers how many it has carried then, or nothing where
/// the run is out of memory.
fn carry_three<R: Abort>(rt: &R, alloc: Global, system: &System, before: u128) -> Option<u128> {
    system.facts(); // for the prover: what holds of every accepted system
    let Ok(mut machine) = Machine::open(alloc, system) else {
        rt.panic("memory")
    };
    assert!(rt; machine.traffic.sent.len() == 1);
    machine.traffic.sent[0] = before;
    let Ok(pause) = machine.go_on(system, 3, ENOUGH, usize::MAX) else {
        return None;
    };
    let Pause::Horizon = pause else {
        rt.panic("it pauses")
    };
    assert!(rt; machine.traffic.outbox.lines.len() == LINES);
    machine.traffic.sent.first().copied()
}

#[test]
fn a_link_carries_each_message_that_it_can_count(rt: HostRuntime) {
    let alloc = rt.alloc();
    let system = accepted(&rt, alloc, DECLARATION, DEPLOY, STIMULI);
    for (before, after) in &COUNTS {
        assert!(rt; carry_three(&rt, alloc, &system, *before) == *after);
    }
    drop(system);
}
