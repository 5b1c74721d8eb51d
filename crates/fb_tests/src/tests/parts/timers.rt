//! What is asked of the timers of a delay and of a cycle with the longest time, at the latest tick, which no trace
//! shows.

use super::emissions::{expect_first, expect_none};
use fb_event::{EventState, expire, react};
use fb_types::{Emits, EventKind, TimerAsk, Value};
use std::alloc::Global;
use std::process::Abort;

static LONGEST: [Value; 1] = [Value::Whole(9_223_372_036_854_775_807)];

const LATEST: u64 = 1_000_000_000_000;

/// The latest tick that a timer is ever set to.
const LAST: TimerAsk = TimerAsk::At(9_223_373_036_854_775_807);

const START: u32 = 0;

/// What is asked of the timer as the block takes an event with the longest time, and emits nothing.
fn asked(
    rt: &impl Abort,
    alloc: Global,
    state: &mut EventState,
    event: u32,
    tick: u64,
) -> TimerAsk {
    let mut emits = Emits::new(alloc);
    let mut ask = TimerAsk::At(77);
    assert!(rt; tick <= LATEST);
    let reacted = react(state, event, tick, &LONGEST, &mut emits, &mut ask);
    assert!(rt; reacted.is_ok() && emits.is_empty());
    ask
}

#[test]
fn the_longest_delay_fits(rt: HostRuntime) {
    let mut state = EventState::new(EventKind::Delay);
    assert!(rt; asked(&rt, rt.alloc(), &mut state, START, LATEST) == LAST);
    assert!(rt; asked(&rt, rt.alloc(), &mut state, START, LATEST) == TimerAsk::Keep);
    assert!(rt; asked(&rt, rt.alloc(), &mut state, 1, LATEST) == TimerAsk::Clear);
}

/// The timer of a cycle goes off at the latest tick, after something was emitted. The event of the cycle comes after it.
fn expect_expiry(rt: &impl Abort, state: &mut EventState, emits: &mut Emits) {
    let mut ask = TimerAsk::At(77);
    let expired = expire(state, LATEST, emits, &mut ask);
    assert!(rt; expired.is_ok() && ask == LAST);
    expect_first(rt, emits, 77, None);
    expect_first(rt, emits, 0, None);
    expect_none(rt, emits);
}

#[test]
fn the_longest_cycle_fits(rt: HostRuntime) {
    let mut state = EventState::new(EventKind::Cycle);
    let first = asked(&rt, rt.alloc(), &mut state, START, 0);
    assert!(rt; first == TimerAsk::At(9_223_372_036_854_775_807));
    let mut emits = Emits::new(rt.alloc());
    emits.push_bare(77).expect(&rt, "memory");
    expect_expiry(&rt, &mut state, &mut emits);
}
