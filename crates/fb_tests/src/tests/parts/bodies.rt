//! What a body leaves where it stops, and which names a frame has. The expected values are worked by hand.

ghost use Rattle.std.specs.Prelude.{◌≡◌, ◌++◌, ◌∷◌, []};

use fb_read::read_library;
use fb_st::{Flow, Frame, Meter, Slot, SlotList, exec, knows};
use fb_types::{Algorithm, BlockType, Name, Reason, Reference, Ty, Value};
use std::alloc::Global;
use std::mem::forget;
use std::process::Abort;

/// A body for each of ROWS, and one that names a variable that there is not. EXIT outside of loops is in no accepted
/// text.
static BODIES: &str = "FUNCTION_BLOCK F VAR X : INT; END_VAR EC_STATES S; END_STATES\n\
    ALGORITHM A0 IN ST: X := 32767 + 1; END_ALGORITHM\n\
    ALGORITHM A1 IN ST: X := 1 / 0; END_ALGORITHM\n\
    ALGORITHM A2 IN ST: X := 5; X := 1; END_ALGORITHM\n\
    ALGORITHM A3 IN ST: X := 5; X := 32768; END_ALGORITHM\n\
    ALGORITHM A4 IN ST: FOR X := 1 TO 10 BY 0 DO ; END_FOR; END_ALGORITHM\n\
    ALGORITHM A5 IN ST: FOR X := 32766 TO 32767 DO ; END_FOR; END_ALGORITHM\n\
    ALGORITHM A6 IN ST: FOR X := 32767 TO 40000 DO ; END_FOR; END_ALGORITHM\n\
    ALGORITHM A7 IN ST: FOR X := 40000 TO 50000 DO ; END_FOR; END_ALGORITHM\n\
    ALGORITHM A8 IN ST: REPEAT X := X + 1; UNTIL X < 0 END_REPEAT; END_ALGORITHM\n\
    ALGORITHM A9 IN ST: EXIT; END_ALGORITHM\n\
    ALGORITHM A10 IN ST: WHILE TRUE DO REPEAT RETURN; X := 9; UNTIL TRUE END_REPEAT; X := 9; END_WHILE; X := 9; END_ALGORITHM\n\
    ALGORITHM A11 IN ST: WHILE X < 3 DO X := X + 1; END_WHILE; END_ALGORITHM\n\
    ALGORITHM A12 IN ST: WHILE TRUE DO Z := 1; END_WHILE; END_ALGORITHM\n\
    END_FUNCTION_BLOCK APPLICATION A FBS END_FBS END_APPLICATION";

/// The steps that are left, the answer, the steps that are left then, and what X holds.
type Row = (u64, Result<Flow, Reason>, u64, i128);

static ROWS: [Row; 12] = [
    (9, Err(Reason::Range), 8, 0),
    (9, Err(Reason::Divide), 8, 0),
    (1, Err(Reason::Steps), 0, 5),
    (9, Err(Reason::Range), 7, 5),
    (99, Err(Reason::Steps), 0, 1),
    (4, Err(Reason::Steps), 0, 32767),
    (99, Err(Reason::Range), 96, 32767),
    (99, Err(Reason::Range), 98, 0),
    (20, Err(Reason::Steps), 0, 9),
    (99, Ok(Flow::Left), 98, 0),
    (99, Ok(Flow::Returned), 94, 0),
    (99, Ok(Flow::Went), 92, 3),
];

fn named(rt: &impl Abort, alloc: Global, text: &str) -> Name {
    Name::from_text(alloc, text).expect(rt, "memory")
}

/// Adds a variable after the others.
fn add(rt: &impl Abort, slots: &mut SlotList, name: Name, ty: Ty, value: Value)
    ensures { slots.new ≡ slots.old ++ record { name = name; ty = ty; value = value } ∷ [] }
{
    slots.push(Slot::new(name, ty, value)).expect(rt, "memory");
}

/// A frame with X : INT, which is 0, and Y : UINT, which is 7.
fn frame(rt: &impl Abort, alloc: Global) -> Frame {
    let (x, y) = (named(rt, alloc, "X"), named(rt, alloc, "Y"));
    assert!(rt; !y.is(&x));
    let mut slots = SlotList::new(alloc);
    add(rt, &mut slots, x, Ty::Int, Value::Whole(0));
    add(rt, &mut slots, y, Ty::Uint, Value::Whole(7));
    Frame::of(slots)
}

/// The body of an algorithm goes as the row says.
fn expect_row(rt: &impl Abort, alloc: Global, algorithm: &Algorithm, row: &Row) {
    let (left, answer, after, x) = *row;
    let mut frame = frame(rt, alloc);
    let mut meter = Meter { left };
    assert!(rt; knows(&algorithm.body, &frame));
    let found = exec(&algorithm.body, &mut frame, &mut meter);
    let variable = Reference::new(named(rt, alloc, "X"));
    assert!(rt; found == answer && meter.left == after);
    assert!(rt; frame.value(&variable) == Value::Whole(x));
    forget(frame);
    forget(variable);
}

/// The body of each algorithm goes as its row says. The last one names a variable that there is not.
fn expect_rows(rt: &impl Abort, alloc: Global, algorithms: &[Algorithm]) {
    assert!(rt; algorithms.len() == 13);
    let frame = frame(rt, alloc);
    assert!(rt; !knows(&algorithms[12].body, &frame));
    forget(frame);
    for (index, row) in ROWS.iter().enumerate() {
        expect_row(rt, alloc, &algorithms[index], row);
    }
}

#[test]
fn bodies_leave_what_they_did_before_a_stop(rt: HostRuntime) {
    let library = read_library(rt.alloc(), BODIES.as_bytes()).expect(&rt, "no library");
    let [BlockType::Basic(block)] = library.blocks.as_slice() else {
        rt.panic("a basic type")
    };
    expect_rows(&rt, rt.alloc(), block.algorithms.as_slice());
    forget(library);
}

/// Indexes at which a reference expects its variable. The name alone decides which one it is.
static INDEXES: [usize; 3] = [0, 1, 9];

#[test]
fn the_name_decides_which_variable_is_meant(rt: HostRuntime) {
    let alloc = rt.alloc();
    let frame = frame(&rt, alloc);
    let (x, y) = (named(&rt, alloc, "X"), named(&rt, alloc, "Y"));
    let other = named(&rt, alloc, "Z");
    assert!(rt; frame.has(&x) && frame.has(&y) && !frame.has(&other));
    forget(other);
    let (x, y) = (Reference::new(x), Reference::new(y));
    assert!(rt; frame.value(&x) == Value::Whole(0));
    for index in &INDEXES {
        y.expect_at(*index);
        assert!(rt; frame.value(&y) == Value::Whole(7));
    }
    forget(frame);
    forget(x);
    forget(y);
}
