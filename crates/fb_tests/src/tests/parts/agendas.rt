//! An agenda by itself. What is taken follows from the keys.

use fb_agenda::{Agenda, Least};
use fb_types::{GivenRow, Items, Key, Target, TimerAsk};
use std::alloc::Global;
use std::mem::forget;
use std::process::Abort;

const TARGET: Target = Target {
    instance: 0,
    event: 0,
    is_output: false,
};

/// A step with an agenda: local events by their ticks and numbers, stimuli by their ticks and rows.
enum Step {
    PutLocal(u64, u128),
    PutStimulus(u64, u32),
    /// The least tick that there is.
    Next(Option<u64>),
    /// Nothing is taken below a tick.
    TakeNone(u64),
    /// The local event that is taken below a tick.
    Take(u64, u64, u128),
    /// The stimulus that is taken below a tick.
    TakeStimulus(u64, u64, u32),
}

/// This is the least tick that there is.
fn expect_next(rt: &impl Abort, agenda: &Agenda, tick: Option<u64>) {
    assert!(rt; agenda.next() == tick);
}

/// The event of this key is taken below the horizon, or none.
fn expect_taken(rt: &impl Abort, agenda: &mut Agenda, horizon: u64, expected: Option<Key>) {
    let mut least = Least::new();
    let is_taken = agenda.take_least_into(horizon, &mut least);
    let Least { key, event } = least;
    forget(event);
    let found = if is_taken { Some(key) } else { None };
    assert!(rt; found == expected);
}

fn expect_step(rt: &impl Abort, agenda: &mut Agenda, step: &Step) {
    match *step {
        Step::PutLocal(tick, number) => agenda
            .put_local(tick, 0, number, TARGET)
            .expect(rt, "memory"),
        Step::PutStimulus(tick, row) => agenda.put_stimulus(tick, 0, row).expect(rt, "memory"),
        Step::Next(tick) => expect_next(rt, agenda, tick),
        Step::TakeNone(horizon) => expect_taken(rt, agenda, horizon, None),
        Step::Take(horizon, tick, number) => {
            expect_taken(rt, agenda, horizon, Some(Key::local(tick, 0, number)))
        }
        Step::TakeStimulus(horizon, tick, row) => {
            expect_taken(rt, agenda, horizon, Some(Key::stimulus(tick, 0, row)))
        }
    }
}

/// What is put under a key that has an event replaces it. Nothing is taken at the horizon. Events are taken in the order
/// of their keys, also where one comes out of turn, or twice.
static STEPS: [Step; 31] = [
    Step::PutLocal(2, 1),
    Step::PutLocal(2, 0),
    Step::PutLocal(2, 1),
    Step::TakeNone(2),
    Step::Take(3, 2, 0),
    Step::Take(3, 2, 1),
    Step::TakeNone(10),
    Step::PutLocal(7, 0),
    Step::PutLocal(7, 1),
    Step::PutLocal(9, 0),
    Step::PutLocal(7, 4),
    Step::PutLocal(7, 3),
    Step::PutLocal(7, 4),
    Step::PutLocal(7, 1),
    Step::PutStimulus(9, 2),
    Step::PutStimulus(7, 1),
    Step::PutStimulus(8, 0),
    Step::PutStimulus(7, 1),
    Step::Next(Some(7)),
    Step::TakeStimulus(10, 7, 1),
    Step::Take(10, 7, 0),
    Step::Next(Some(7)),
    Step::Take(10, 7, 1),
    Step::Take(10, 7, 3),
    Step::Next(Some(7)),
    Step::Take(10, 7, 4),
    Step::TakeStimulus(10, 8, 0),
    Step::Next(Some(9)),
    Step::TakeStimulus(10, 9, 2),
    Step::Take(10, 9, 0),
    Step::Next(None),
];

#[test]
fn the_least_key_is_taken_once(rt: HostRuntime) {
    let mut agenda = Agenda::new(rt.alloc(), 1).expect(&rt, "memory");
    for step in &STEPS {
        expect_step(&rt, &mut agenda, step);
    }
    forget(agenda);
}

/// How many stimuli: more than what a row takes at any index.
const MANY: u32 = 600;

#[test]
fn stimuli_that_come_in_falling_order_are_taken_in_rising_order(rt: HostRuntime) {
    let mut agenda = Agenda::new(rt.alloc(), 1).expect(&rt, "memory");
    for number in 0..MANY {
        let row = MANY - 1 - number;
        agenda
            .put_stimulus(u64::from(row), 0, row)
            .expect(&rt, "memory");
    }
    for row in 0..MANY {
        expect_taken(
            &rt,
            &mut agenda,
            1_000,
            Some(Key::stimulus(u64::from(row), 0, row)),
        );
    }
    expect_next(&rt, &agenda, None);
    forget(agenda);
}

#[test]
fn a_timer_that_is_set_anew_goes_off_once(rt: HostRuntime) {
    let mut agenda = Agenda::new(rt.alloc(), 1).expect(&rt, "memory");
    agenda
        .set_timer(0, 0, TimerAsk::At(5))
        .expect(&rt, "memory");
    agenda
        .set_timer(0, 0, TimerAsk::At(3))
        .expect(&rt, "memory");
    expect_next(&rt, &agenda, Some(3));
    expect_taken(&rt, &mut agenda, 10, Some(Key::timer(3, 0, 0)));
    expect_next(&rt, &agenda, None);
    forget(agenda);
}

/// Puts a row that was given at a tick.
fn give(rt: &impl Abort, agenda: &mut Agenda, alloc: Global, tick: u64, row: u64) {
    let given = GivenRow {
        row,
        target: TARGET,
        sets: Items::new(alloc),
    };
    agenda.put_given(tick, 0, given).expect(rt, "memory");
}

/// A row that was given comes after the stimuli of its tick, whose numbers are lower, and before a timer. Its number may
/// be over 2^32.
#[test]
fn a_given_row_is_taken_by_its_key(rt: HostRuntime) {
    let mut agenda = Agenda::new(rt.alloc(), 1).expect(&rt, "memory");
    agenda
        .set_timer(0, 0, TimerAsk::At(5))
        .expect(&rt, "memory");
    assert!(rt; agenda.timer(0, 0) == Some(5));
    let far = 1 << 40;
    give(&rt, &mut agenda, rt.alloc(), 5, far);
    agenda.put_stimulus(5, 0, 7).expect(&rt, "memory");
    give(&rt, &mut agenda, rt.alloc(), 4, far + 1);
    assert!(rt; agenda.first() == Some(Key::given(4, 0, far + 1)));
    expect_taken(&rt, &mut agenda, 10, Some(Key::given(4, 0, far + 1)));
    expect_taken(&rt, &mut agenda, 10, Some(Key::stimulus(5, 0, 7)));
    assert!(rt; agenda.first() == Some(Key::given(5, 0, far)));
    expect_taken(&rt, &mut agenda, 10, Some(Key::given(5, 0, far)));
    expect_taken(&rt, &mut agenda, 10, Some(Key::timer(5, 0, 0)));
    assert!(rt; agenda.first() == None);
    forget(agenda);
}
