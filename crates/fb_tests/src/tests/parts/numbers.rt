//! Lines with numbers that no run reaches, up to the greatest and down to the least, marks where each tick ends, and
//! last lines.

use super::belonging::ends_in;
use super::chain::{accepted, expect_text};
use fb_trace::{Outcome, write_last};
use fb_types::{Form, Key, Line, Reason, StopMark, Value, Values};
use std::alloc::Global;
use std::mem::forget;
use std::process::Abort;

/// The instance G is in the second of two resources.
const DECLARATION: &str =
    "FUNCTION_BLOCK GAUGE EVENT_INPUT GO WITH G, N; HALT; END_EVENT VAR_INPUT N : LINT; G : BOOL; END_VAR\n\
    EC_STATES IDLE; END_STATES END_FUNCTION_BLOCK\n\
    APPLICATION P FBS G : GAUGE; END_FBS END_APPLICATION";

const RESOURCES: &str = "resource = [\n\
    { device = 'D', name = 'R1', instances = [] },\n\
    { device = 'E', name = 'CELLAR_2', instances = ['G'] },\n\
    ]\n";

/// An event of G that is taken, under the key of these parts.
struct Row {
    tick: u64,
    class: u8,
    a: u128,
    b: u128,
    event: u32,
    values: &'static [Value],
}

/// GO with these values of N and G.
macro_rules! go {
    ($tick:expr, $number:expr, $flag:literal) => {
        Row {
            tick: $tick,
            class: 0,
            a: 0,
            b: 0,
            event: 0,
            values: &[Value::Whole($number), Value::Bool($flag)],
        }
    };
}

macro_rules! halt {
    ($tick:expr, $class:expr, $a:expr, $b:expr) => {
        Row {
            tick: $tick,
            class: $class,
            a: $a,
            b: $b,
            event: 1,
            values: &[],
        }
    };
}

/// Lines with their text, and the marks in it, each as its tick and where its run ends.
struct Page {
    form: Form,
    rows: &'static [Row],
    text: &'static [u8],
    marks: &'static [(u64, usize)],
}

static PAGES: [Page; 4] = [
    Page {
        form: Form::One,
        rows: &[],
        text: b"",
        marks: &[],
    },
    Page {
        form: Form::One,
        rows: &[
            halt!(7, 0, 0, 0),
            go!(7, -1, true),
            halt!(12, 0, 0, 0),
            halt!(100, 0, 0, 0),
            halt!(100, 0, 0, 0),
        ],
        text: b"7 CELLAR_2 > G.HALT\n\
        7 CELLAR_2 > G.GO N=-1 G=TRUE\n\
        12 CELLAR_2 > G.HALT\n\
        100 CELLAR_2 > G.HALT\n\
        100 CELLAR_2 > G.HALT\n",
        marks: &[(7, 50), (12, 71), (100, 115)],
    },
    Page {
        form: Form::One,
        rows: &[
            go!(12, 0, false),
            go!(12, 1, true),
            go!(12, 9, false),
            go!(12, 10, true),
            go!(12, -1, false),
            go!(12, -10, true),
            go!(12, 9_223_372_036_854_775_807, false),
            go!(12, -9_223_372_036_854_775_808, true),
            go!(12, 18_446_744_073_709_551_615, false),
            go!(12, 18_446_744_073_709_551_616, true),
            go!(12, -18_446_744_073_709_551_616, false),
            go!(
                12,
                100_000_000_000_000_000_000_000_000_000_000_000_000,
                true
            ),
            go!(12, i128::MAX, false),
            go!(12, i128::MIN, true),
        ],
        text: b"12 CELLAR_2 > G.GO N=0 G=FALSE\n\
        12 CELLAR_2 > G.GO N=1 G=TRUE\n\
        12 CELLAR_2 > G.GO N=9 G=FALSE\n\
        12 CELLAR_2 > G.GO N=10 G=TRUE\n\
        12 CELLAR_2 > G.GO N=-1 G=FALSE\n\
        12 CELLAR_2 > G.GO N=-10 G=TRUE\n\
        12 CELLAR_2 > G.GO N=9223372036854775807 G=FALSE\n\
        12 CELLAR_2 > G.GO N=-9223372036854775808 G=TRUE\n\
        12 CELLAR_2 > G.GO N=18446744073709551615 G=FALSE\n\
        12 CELLAR_2 > G.GO N=18446744073709551616 G=TRUE\n\
        12 CELLAR_2 > G.GO N=-18446744073709551616 G=FALSE\n\
        12 CELLAR_2 > G.GO N=100000000000000000000000000000000000000 G=TRUE\n\
        12 CELLAR_2 > G.GO N=170141183460469231731687303715884105727 G=FALSE\n\
        12 CELLAR_2 > G.GO N=-170141183460469231731687303715884105728 G=TRUE\n",
        marks: &[(12, 641)],
    },
    Page {
        form: Form::Two,
        rows: &[
            halt!(0, 0, 0, 0),
            halt!(10, 3, 9, 100),
            halt!(
                1_000_000_000_000,
                2,
                18_446_744_073_709_551_615,
                18_446_744_073_709_551_616
            ),
            halt!(
                1,
                2,
                100_000_000_000_000_000_000,
                100_000_000_000_000_000_000_000_000_000_000_000_000
            ),
            halt!(2, 2, u128::MAX, 0),
            halt!(3, 2, 0, u128::MAX),
            halt!(u64::MAX, u8::MAX, u128::MAX, u128::MAX),
        ],
        text: b"0 0 0 0 CELLAR_2 > G.HALT\n\
        3 9 100 10 CELLAR_2 > G.HALT\n\
        2 18446744073709551615 18446744073709551616 1000000000000 CELLAR_2 > G.HALT\n\
        2 100000000000000000000 100000000000000000000000000000000000000 1 CELLAR_2 > G.HALT\n\
        2 340282366920938463463374607431768211455 0 2 CELLAR_2 > G.HALT\n\
        2 0 340282366920938463463374607431768211455 3 CELLAR_2 > G.HALT\n\
        255 340282366920938463463374607431768211455 340282366920938463463374607431768211455 18446744073709551615 CELLAR_2 > G.HALT\n",
        marks: &[
            (0, 26),
            (10, 55),
            (1_000_000_000_000, 131),
            (1, 215),
            (2, 279),
            (3, 343),
            (u64::MAX, 466),
        ],
    },
];

/// Adds a line of an event that G takes.
fn add(rt: &impl Abort, alloc: Global, lines: &mut Vec<Line>, row: &Row) {
    let line = Line {
        key: Key {
            tick: row.tick,
            resource: 1,
            class: row.class,
            a: row.a,
            b: row.b,
        },
        taken: true,
        instance: 0,
        event: row.event,
        values: Values::from_slice(alloc, row.values).expect(rt, "memory"),
    };
    lines.push(line).expect(rt, "memory");
}

#[test]
fn lines_have_their_texts_and_marks(rt: HostRuntime) {
    let alloc = rt.alloc();
    let system = accepted(&rt, alloc, DECLARATION, RESOURCES, "tick,event,values\n");
    for page in &PAGES {
        let mut lines = Vec::new(alloc);
        for row in page.rows {
            add(&rt, alloc, &mut lines, row);
        }
        expect_text(
            &rt, alloc, &system, page.form, &lines, page.text, page.marks,
        );
        forget(lines);
    }
    drop(system);
}

/// This many lines of one tick have more bytes than wait at a time.
const MANY: u64 = 1000;

/// Adds many lines of one tick, and their text.
fn add_many(
    rt: &impl Abort,
    alloc: Global,
    lines: &mut Vec<Line>,
    text: &mut Vec<u8>,
    row: &Row,
    line: &[u8],
) {
    for _ in 0..MANY {
        add(rt, alloc, lines, row);
        text.extend_from_slice(line).expect(rt, "memory");
    }
}

static FIFTH: Row = halt!(5, 0, 0, 0);

static SIXTH: Row = halt!(6, 0, 0, 0);

#[test]
fn marks_count_bytes_that_wait_and_others(rt: HostRuntime) {
    let alloc = rt.alloc();
    let system = accepted(&rt, alloc, DECLARATION, RESOURCES, "tick,event,values\n");
    let mut lines = Vec::new(alloc);
    let mut text = Vec::new(alloc);
    let (fifth, sixth) = (b"5 CELLAR_2 > G.HALT\n", b"6 CELLAR_2 > G.HALT\n");
    add_many(&rt, alloc, &mut lines, &mut text, &FIFTH, fifth);
    add_many(&rt, alloc, &mut lines, &mut text, &SIXTH, sixth);
    expect_text(
        &rt,
        alloc,
        &system,
        Form::One,
        &lines,
        &text,
        &[(5, 20_000), (6, 40_000)],
    );
    forget(lines);
    drop(system);
}

/// Last lines, each with its text.
static ENDS: [(Outcome, &[u8]); 8] = [
    (Outcome::End(0), b"end 0\n"),
    (Outcome::End(8), b"end 8\n"),
    (Outcome::End(1_000_000_000_000), b"end 1000000000000\n"),
    (Outcome::End(u64::MAX), b"end 18446744073709551615\n"),
    (
        Outcome::Stop(StopMark {
            tick: 0,
            resource: 0,
            reason: Reason::Steps,
        }),
        b"stop 0 R1 steps\n",
    ),
    (
        Outcome::Stop(StopMark {
            tick: 7,
            resource: 1,
            reason: Reason::Divide,
        }),
        b"stop 7 CELLAR_2 divide\n",
    ),
    (
        Outcome::Stop(StopMark {
            tick: 999_999_999_999,
            resource: 0,
            reason: Reason::Range,
        }),
        b"stop 999999999999 R1 range\n",
    ),
    (
        Outcome::Stop(StopMark {
            tick: u64::MAX,
            resource: 1,
            reason: Reason::Steps,
        }),
        b"stop 18446744073709551615 CELLAR_2 steps\n",
    ),
];

#[test]
fn last_lines_have_their_texts(rt: HostRuntime) {
    let alloc = rt.alloc();
    let system = accepted(&rt, alloc, DECLARATION, RESOURCES, "tick,event,values\n");
    for (end, text) in &ENDS {
        assert!(rt; ends_in(&system, end));
        let mut out = Vec::new(alloc);
        write_last(&mut out, &system, *end).expect(&rt, "written");
        assert!(rt; out.as_slice() == *text);
    }
    drop(system);
}
