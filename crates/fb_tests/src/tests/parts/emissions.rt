//! Emissions without values, which leave their list as a number where they are alone in it.

use fb_types::{Emission, Emits, Value};
use std::mem::forget;
use std::process::Abort;

/// What leaves the list as a number, if anything does.
fn expect_bare(rt: &impl Abort, emits: &mut Emits, event: Option<u32>) {
    assert!(rt; emits.pop_bare() == event);
}

/// Takes the first emission, which is of this event, and has this value or none.
pub fn expect_first(rt: &impl Abort, emits: &mut Emits, event: u32, value: Option<Value>) {
    let first = emits.pop_first().expect(rt, "an emission");
    let Emission {
        event: found,
        values,
    } = first;
    assert!(rt; found == event && values.as_slice().first().copied() == value);
    forget(values);
}

/// There is no emission.
pub fn expect_none(rt: &impl Abort, emits: &Emits) {
    assert!(rt; emits.is_empty());
}

#[test]
fn only_an_emission_that_is_alone_leaves_as_a_number(rt: HostRuntime) {
    let mut emits = Emits::new(rt.alloc());
    expect_bare(&rt, &mut emits, None);
    emits.push_bare(7).expect(&rt, "memory");
    emits.push_bare(8).expect(&rt, "memory");
    expect_bare(&rt, &mut emits, None);
    expect_first(&rt, &mut emits, 7, None);
    expect_bare(&rt, &mut emits, Some(8));
    expect_none(&rt, &emits);
    emits.push_one(3, Value::Whole(5)).expect(&rt, "memory");
    expect_bare(&rt, &mut emits, None);
    expect_first(&rt, &mut emits, 3, Some(Value::Whole(5)));
    expect_none(&rt, &emits);
}

#[test]
fn the_only_emission_with_one_value_is_its_event_and_the_value(rt: HostRuntime) {
    let mut emits = Emits::new(rt.alloc());
    assert!(rt; emits.only().is_none());
    emits.push_bare(7).expect(&rt, "memory");
    assert!(rt; emits.only().is_none());
    emits.clear();
    emits.push_one(3, Value::Whole(5)).expect(&rt, "memory");
    let Some((event, value)) = emits.only() else {
        rt.panic("one emission with one value")
    };
    assert!(rt; event == 3 && *value == Value::Whole(5));
    emits.clear();
    expect_none(&rt, &emits);
}
