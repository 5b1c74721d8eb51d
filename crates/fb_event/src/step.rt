//! The table: what each event block remembers at the start, and its reactions to events and to its timer.

ghost use Rattle.std.specs.Prelude.{false, ◌≡◌, ◌≤◌, ◌<◌, ◌^◌, [], ◌∷◌, pos, if◌then◌else◌, ◌<ℤ◌};
ghost use Rattle.fb_types.specs.Values.{truth, whole as whole_of};
ghost use Rattle.fb_types.specs.EventBlocks.{memory_at_start, flag as flag_of, ticks as ticks_of};
ghost use Rattle.fb_event.specs.Block.{state_of, as_time, input_of, IsInRange, IsTimeInRange};
ghost use Rattle.fb_event.specs.Reactions.{expiry_of};
ghost use Rattle.fb_event.specs.Seen.{seen_memory};
ghost use Rattle.fb_event.specs.Step.{IsTimerAfter, Performs, reaction_with, timed_with};

use crate::memory::EventMemory;
use fb_types::{EventKind, TimerAsk, Value};

// Indexes of event inputs.
const EI0_OF_SELECT: u32 = 0;

const EI1_OF_RENDEZVOUS: u32 = 0;

const EI2_OF_RENDEZVOUS: u32 = 1;

const R_OF_RENDEZVOUS: u32 = 2;

const START: u32 = 0;

const S_OF_SET_RESET: u32 = 0;

const R_OF_COUNT_UP: u32 = 1;

/// The last time in the range of TIME.
const LONGEST: i128 = i64::MAX as i128;

/// The result of a reaction of an event block, without the block's new memory: what it emits, and what it asks of its
/// timer.
#[derive(Clone, Copy)]
pub(crate) struct Step {
    /// The indexes of the event outputs that are emitted, in order. The same values go with each.
    pub emits: &'static [u32],
    /// What is asked of the timer.
    pub ask: TimerAsk,
}

impl Step {
    /// Nothing is emitted, and the timer stays as it is.
    fn silent() -> Step
        ensures emits { result.emits.now ≡ [] }
        ensures ask { result.ask ≡ TimerAsk.Keep }
    {
        Step::emitting(&[])
    }

    /// The event outputs at these indexes are emitted, in order. The timer stays as it is.
    fn emitting(emits: &'static [u32]) -> Step
        ensures emits { result.emits.now ≡ emits.now }
        ensures ask { result.ask ≡ TimerAsk.Keep }
    {
        Step {
            emits,
            ask: TimerAsk::Keep,
        }
    }

    /// The first event output is emitted if the condition holds. The timer stays as it is.
    fn emitting_if(condition: bool) -> Step
        ensures emits { result.emits.now ≡ (if condition then 0 ∷ [] else []) }
        ensures ask { result.ask ≡ TimerAsk.Keep }
    {
        if condition {
            Step::emitting(&[0])
        } else {
            Step::silent()
        }
    }
}

/// What a block of a kind remembers at the start.
pub(crate) fn at_start(kind: EventKind) -> EventMemory
    ensures memory { seen_memory result ≡ memory_at_start kind }
    ensures in_range { IsInRange kind result }
{
    match kind {
        EventKind::Rendezvous => EventMemory::Marks {
            first: false,
            second: false,
        },
        EventKind::SetReset
        | EventKind::DataLatch
        | EventKind::RisingEdge
        | EventKind::FallingEdge => EventMemory::Flag(false),
        EventKind::CountUp => EventMemory::Count {
            count: 0,
            reached: false,
        },
        _ => EventMemory::Idle,
    }
}

/// The reaction to the event input at an index, with the value of the data input, if the block has one. The memory is
/// changed where the block remembers something else then.
///
/// It is a call, since the table is large: what takes an event keeps its own hint on inlining that way.
#[tactic(auto, using(crate::proofs::lemmas::EventIndexes::indexes_of_events))]
#[inline(never)]
pub(crate) fn reaction(
    kind: EventKind,
    memory: &mut EventMemory,
    event: u32,
    tick: u64,
    input: Value,
) -> Step
    requires early { tick ≤ 10 ^ 12 }
    requires running { IsInRange kind memory.old }
    ensures { let before = state_of kind memory.old in
        Performs before (reaction_with before event tick (input_of kind input)) memory.new result }
{
    match kind {
        EventKind::Restart => Step::silent(),
        EventKind::Split => Step::emitting(&[0, 1]),
        EventKind::Merge => Step::emitting(&[0]),
        EventKind::Rendezvous => {
            let (after, step) = rendezvous(*memory, event);
            *memory = after;
            step
        }
        EventKind::Permit => Step::emitting_if(is_true(input)),
        EventKind::Select => Step::emitting_if((event == EI0_OF_SELECT) != is_true(input)),
        EventKind::Switch => Step::emitting(if is_true(input) { &[1] } else { &[0] }),
        EventKind::Delay | EventKind::Cycle => {
            let (after, ask) = timer_after(*memory, event, tick, input);
            *memory = after;
            Step {
                ask,
                ..Step::silent()
            }
        }
        EventKind::SetReset => {
            let (q, set) = (flag(*memory), event == S_OF_SET_RESET);
            *memory = EventMemory::Flag(set);
            Step::emitting_if(q != set)
        }
        EventKind::DataLatch => {
            let (q, d) = (flag(*memory), is_true(input));
            *memory = EventMemory::Flag(d);
            Step::emitting_if(q != d)
        }
        EventKind::RisingEdge => {
            let (before, now) = (flag(*memory), is_true(input));
            *memory = EventMemory::Flag(now);
            Step::emitting_if(!before && now)
        }
        EventKind::FallingEdge => {
            let (before, now) = (flag(*memory), is_true(input));
            *memory = EventMemory::Flag(now);
            Step::emitting_if(before && !now)
        }
        EventKind::CountUp => {
            let (after, step) = count_up(*memory, event, input);
            *memory = after;
            step
        }
    }
}

/// The reaction to the timer. The memory is changed where the block remembers something else then.
pub(crate) fn expiry(kind: EventKind, memory: &mut EventMemory, tick: u64) -> Step
    requires early { tick ≤ 10 ^ 12 }
    requires running { IsInRange kind memory.old }
    ensures { let before = state_of kind memory.old in Performs before (expiry_of before tick) memory.new result }
{
    match kind {
        EventKind::Restart => Step::emitting(&[0]),
        EventKind::Delay => {
            *memory = EventMemory::Idle;
            Step::emitting(&[0])
        }
        EventKind::Cycle => restart_cycle(*memory, tick),
        _ => Step::silent(),
    }
}

/// E_CYCLE emits EO, and its timer is set again, for the time of the START that began it.
fn restart_cycle(memory: EventMemory, tick: u64) -> Step
    requires early { tick ≤ 10 ^ 12 }
    requires running { IsInRange EventKind.Cycle memory }
    ensures { let before = state_of EventKind.Cycle memory in Performs before (expiry_of before tick) memory result }
{
    match memory {
        EventMemory::Running(time) => Step {
            emits: &[0],
            ask: TimerAsk::At(tick + time),
        },
        _ => Step::silent(),
    }
}

/// E_REND emits EO when both events have come, and R clears both marks.
fn rendezvous(memory: EventMemory, event: u32) -> (EventMemory, Step)
    requires { IsInRange EventKind.Rendezvous memory }
    ensures { let before = state_of EventKind.Rendezvous memory in
        Performs before (reaction_with before event 0 (Value.Bool false)) result.0 result.1 }
{
    match memory {
        EventMemory::Marks { first, second } => mark_rendezvous(first, second, event),
        _ => (memory, Step::silent()),
    }
}

fn mark_rendezvous(first: bool, second: bool, event: u32) -> (EventMemory, Step)
    ensures { let before = state_of EventKind.Rendezvous (EventMemory.Marks first second) in
        Performs before (reaction_with before event 0 (Value.Bool false)) result.0 result.1 }
{
    let cleared = EventMemory::Marks {
        first: false,
        second: false,
    };
    if event == R_OF_RENDEZVOUS {
        return (cleared, Step::silent());
    }
    let first = first || event == EI1_OF_RENDEZVOUS;
    let second = second || event == EI2_OF_RENDEZVOUS;
    if first && second {
        (cleared, Step::emitting(&[0]))
    } else {
        (EventMemory::Marks { first, second }, Step::silent())
    }
}

/// The timer of E_DELAY and E_CYCLE after START or STOP, and what is asked of it. A time past the range of TIME, which
/// no input of that type has, counts as the longest.
fn timer_after(memory: EventMemory, event: u32, tick: u64, input: Value) -> (EventMemory, TimerAsk)
    requires early { tick ≤ 10 ^ 12 }
    requires running { IsTimeInRange memory }
    ensures { IsTimerAfter (timed_with (seen_memory memory) event tick (as_time input)) result.0 result.1 }
{
    if event != START {
        return (EventMemory::Idle, TimerAsk::Clear);
    }
    match memory {
        EventMemory::Running(_) => (memory, TimerAsk::Keep),
        _ => {
            let time = ticks(whole(input).min(LONGEST));
            (EventMemory::Running(time), TimerAsk::At(tick + time))
        }
    }
}

/// E_CTU counts up to 65535, and R sets it to 0.
fn count_up(memory: EventMemory, event: u32, input: Value) -> (EventMemory, Step)
    requires { IsInRange EventKind.CountUp memory }
    ensures { let before = state_of EventKind.CountUp memory in
        Performs before (reaction_with before event 0 input) result.0 result.1 }
{
    if event == R_OF_COUNT_UP {
        let cleared = EventMemory::Count {
            count: 0,
            reached: false,
        };
        return (cleared, Step::emitting(&[1]));
    }
    let EventMemory::Count { count, .. } = memory else {
        return (memory, Step::silent());
    };
    if count == u16::MAX {
        return (memory, Step::silent());
    }
    let count = count + 1;
    let reached = whole(input) <= count as i128;
    (EventMemory::Count { count, reached }, Step::emitting(&[0]))
}

/// Q, or QI as it was sampled before.
fn flag(memory: EventMemory) -> bool
    ensures { result ≡ flag_of (seen_memory memory) }
{
    match memory {
        EventMemory::Flag(flag) => flag,
        _ => false,
    }
}

/// A time in ticks. Below 1 it counts as 1.
fn ticks(time: i128) -> u64
    requires { time <ℤ pos (2 ^ 63) }
    ensures value { result ≡ ticks_of time }
    ensures in_range { result < 2 ^ 63 }
{
    if time < 1 { 1 } else { time as u64 }
}

fn is_true(value: Value) -> bool
    ensures { result ≡ truth value }
{
    match value {
        Value::Bool(is_true) => is_true,
        Value::Whole(_) => false,
    }
}

fn whole(value: Value) -> i128
    ensures { result ≡ whole_of value }
{
    match value {
        Value::Bool(_) => 0,
        Value::Whole(whole) => whole,
    }
}
