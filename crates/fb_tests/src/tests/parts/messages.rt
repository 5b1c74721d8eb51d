//! Messages that one resource sends and another takes.

use super::chain::{
    ENOUGH, Ran, accepted, deliver_first, expect_text, handed, opened, run, turned,
};
use fb_types::{Form, Message, Reason, StopMark};
use std::alloc::Global;
use std::mem::forget;
use std::process::Abort;

/// Two resources of which the first sends to the second.
struct Talk {
    declaration: &'static str,
    deploy: &'static str,
    /// The first runs below this tick, and then the second below another.
    sent_below: u64,
    taken_below: u64,
    stimuli: &'static str,
    /// How many messages the second gets, and the tick at which they arrive.
    inbox: (usize, u64),
    /// The least tick of the events of the second before it gets the messages, and with them. After its run there is
    /// none.
    alone: Option<u64>,
    with_messages: Option<u64>,
    /// The lines of the second, and where each of their ticks ends.
    trace: &'static str,
    marks: &'static [(u64, usize)],
}

/// A text, and another one sixty times after it.
macro_rules! sixty {
    ($first:literal, $text:literal) => {
        concat!(
            $first,
            $text, $text, $text, $text, $text, $text, $text, $text, $text, $text,
            $text, $text, $text, $text, $text, $text, $text, $text, $text, $text,
            $text, $text, $text, $text, $text, $text, $text, $text, $text, $text,
            $text, $text, $text, $text, $text, $text, $text, $text, $text, $text,
            $text, $text, $text, $text, $text, $text, $text, $text, $text, $text,
            $text, $text, $text, $text, $text, $text, $text, $text, $text, $text
        )
    };
}

/// A latch whose event and value go to a switch.
static LATCH: Talk = Talk {
    declaration: "APPLICATION A FBS F : E_SR; W : E_SWITCH; END_FBS\n\
        EVENT_CONNECTIONS F.EO TO W.EI; END_CONNECTIONS\n\
        DATA_CONNECTIONS F.Q TO W.G; END_CONNECTIONS END_APPLICATION",
    deploy: "resource = [\n\
        { device = 'D', name = 'R1', instances = ['F'] },\n\
        { device = 'D', name = 'R2', instances = ['W'] },\n\
        ]\n\
        link = [{ from = 'R1', to = 'R2', latency = 2 }]\n",
    sent_below: 5,
    taken_below: 6,
    stimuli: "tick,event,values\n3,F.S,\n5,W.EI,\n",
    inbox: (1, 5),
    alone: Some(5),
    with_messages: Some(5),
    // The stimulus of the tick of the arrival is taken first, and sees the value that was held before.
    trace: "5 R2 > W.EI G=FALSE\n5 R2 < W.EO0\n5 R2 > W.EI G=TRUE\n5 R2 < W.EO1\n",
    marks: &[(5, 65)],
};

/// A split whose second output is first among the connections.
static SPLIT: Talk = Talk {
    declaration: "APPLICATION A FBS P : E_SPLIT; M : E_MERGE; END_FBS\n\
        EVENT_CONNECTIONS P.EO2 TO M.EI2; P.EO1 TO M.EI1; END_CONNECTIONS END_APPLICATION",
    deploy: "resource = [\n\
        { device = 'D', name = 'R1', instances = ['P'] },\n\
        { device = 'D', name = 'R2', instances = ['M'] },\n\
        ]\n\
        link = [{ from = 'R1', to = 'R2', latency = 1 }]\n",
    sent_below: 1,
    taken_below: 2,
    stimuli: "tick,event,values\n0,P.EI,\n",
    inbox: (2, 1),
    alone: None,
    with_messages: Some(1),
    trace: "1 R2 > M.EI1\n1 R2 < M.EO\n1 R2 > M.EI2\n1 R2 < M.EO\n",
    marks: &[(1, 50)],
};

/// A merge passes each of sixty events on: this many messages need several indexes to be.
static PASS: Talk = Talk {
    declaration: "APPLICATION A FBS A : E_MERGE; M : E_MERGE; END_FBS\n\
        EVENT_CONNECTIONS A.EO TO M.EI1; END_CONNECTIONS END_APPLICATION",
    deploy: "resource = [\n\
        { device = 'D', name = 'R1', instances = ['A'] },\n\
        { device = 'D', name = 'R2', instances = ['M'] },\n\
        ]\n\
        link = [{ from = 'R1', to = 'R2', latency = 1 }]\n",
    stimuli: sixty!("tick,event,values\n", "0,A.EI1,\n"),
    inbox: (60, 1),
    sent_below: 1,
    taken_below: 2,
    alone: None,
    with_messages: Some(1),
    trace: sixty!("", "1 R2 > M.EI1\n1 R2 < M.EO\n"),
    marks: &[(1, 1500)],
};

/// The messages of a link in the order in which they were sent.
fn expect_inbox(rt: &impl Abort, inbox: &[Message], (count, arrives): (usize, u64)) {
    assert!(rt; inbox.len() == count);
    for (number, message) in inbox.iter().enumerate() {
        assert!(rt; message.number == number as u128 && message.arrives == arrives);
    }
}

/// What the first resource sends to the second one, whose lines go where those of the first were. The messages are handed
/// over in the order in which they were sent, or in the other one.
fn expect_received(rt: &impl Abort, alloc: Global, talk: &Talk, turns: bool) {
    let owned = accepted(rt, alloc, talk.declaration, talk.deploy, talk.stimuli);
    let system = &owned;
    let sender = opened(rt, alloc, system, 0);
    let below = talk.sent_below;
    let Ran {
        lines,
        sent,
        stop,
        next: _,
    } = run(rt, sender, alloc, system, below, ENOUGH, Vec::new(alloc));
    assert!(rt; stop.is_none() && !lines.is_empty());
    let inbox = handed(rt, alloc, system, turned(system, sent, turns));
    expect_inbox(rt, inbox.as_slice(), talk.inbox);
    let receiver = opened(rt, alloc, system, 1);
    assert!(rt; receiver.next() == talk.alone);
    let receiver = deliver_first(rt, receiver, 1, system, inbox);
    assert!(rt; receiver.next() == talk.with_messages);
    let below = talk.taken_below;
    let Ran {
        lines,
        sent,
        stop,
        next,
    } = run(rt, receiver, alloc, system, below, ENOUGH, lines);
    assert!(rt; stop.is_none() && sent.is_empty() && next.is_none());
    let text = talk.trace.as_bytes();
    expect_text(rt, alloc, system, Form::One, &lines, text, talk.marks);
    forget(lines);
    forget(sent);
    drop(owned);
}

/// Where one request for memory is refused to a resource that takes messages, it takes them at a second try. Any other
/// that is refused ends the test. `tools/refuse.py` runs this with each request refused in turn.
#[test]
fn messages_come_after_out_of_memory(rt: HostRuntime) {
    expect_received(&rt, rt.alloc(), &LATCH, true);
    expect_received(&rt, rt.alloc(), &SPLIT, true);
    expect_received(&rt, rt.alloc(), &PASS, true);
}

/// The order in which messages are handed over changes nothing.
#[test]
fn messages_come_as_they_were_sent(rt: HostRuntime) {
    expect_received(&rt, rt.alloc(), &LATCH, false);
    expect_received(&rt, rt.alloc(), &SPLIT, false);
    expect_received(&rt, rt.alloc(), &PASS, false);
}

/// A resource that runs without end once it has begun: a looper, whose third, fifth, seventh and ninth steps emit.
static LOOPER: &str = "FUNCTION_BLOCK LOOPER\n\
    EVENT_INPUT GO; END_EVENT\n\
    EVENT_OUTPUT TICKED; END_EVENT\n\
    EC_STATES IDLE; BUSY : -> TICKED; END_STATES\n\
    EC_TRANSITIONS IDLE TO BUSY := GO; BUSY TO BUSY := 1; END_TRANSITIONS\n\
    END_FUNCTION_BLOCK\n\
    APPLICATION A FBS A : E_MERGE; L : LOOPER; C : E_MERGE; END_FBS END_APPLICATION";

static IN_THREE: &str = "resource = [\n\
    { device = 'D', name = 'R1', instances = ['A'] },\n\
    { device = 'D', name = 'R2', instances = ['L'] },\n\
    { device = 'D', name = 'R3', instances = ['C'] },\n\
    ]\n";

static LOOPER_LINES: &str =
    "7 R2 > L.GO\n7 R2 < L.TICKED\n7 R2 < L.TICKED\n7 R2 < L.TICKED\n7 R2 < L.TICKED\n";

static STOP: StopMark = StopMark {
    tick: 7,
    resource: 1,
    reason: Reason::Steps,
};

/// The second of three resources, below tick 9 with ten steps a tick.
#[test]
fn a_resource_stops_by_itself(rt: HostRuntime) {
    let alloc = rt.alloc();
    let stimuli = "tick,event,values\n7,C.EI1,\n7,L.GO,\n7,A.EI1,\n";
    let system = accepted(&rt, alloc, LOOPER, IN_THREE, stimuli);
    let looper = opened(&rt, alloc, &system, 1);
    let Ran {
        lines,
        sent,
        stop,
        next: _,
    } = run(&rt, looper, alloc, &system, 9, 10, Vec::new(alloc));
    assert!(rt; stop == Some(STOP) && sent.is_empty());
    let text = LOOPER_LINES.as_bytes();
    expect_text(&rt, alloc, &system, Form::One, &lines, text, &[(7, 76)]);
    forget(lines);
    forget(sent);
    drop(system);
}
