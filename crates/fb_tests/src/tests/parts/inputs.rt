//! What stimuli are read as, where no trace shows it: values that no type holds.

use fb_inputs::{read_row, read_stimuli};
use fb_types::{Name, Setting, Value};
use std::mem::forget;
use std::process::Abort;

fn is(name: &Name, text: &[u8]) -> bool {
    name.as_bytes() == text
}

fn expect_setting(rt: &impl Abort, setting: &Setting, letter: u8, value: Value) {
    assert!(rt; is(&setting.variable, &[letter]) && setting.value == value);
}

/// The variables are called by the letters from A on.
fn expect_settings(rt: &impl Abort, settings: &[Setting]) {
    assert!(rt; settings.len() == VALUES.len());
    let mut letter = b'A';
    for (index, value) in VALUES.iter().enumerate() {
        expect_setting(rt, &settings[index], letter, *value);
        letter = letter.wrapping_add(1);
    }
}

const STIMULI: &[u8] = b"tick,event,values\n\
    0,D.START,A=TRUE B=false C=tRuE D=0 E=-0 F=12 G=-12 H=000012 \
    I=170141183460469231731687303715884105727 J=-170141183460469231731687303715884105727 \
    K=-170141183460469231731687303715884105728 L=-0000170141183460469231731687303715884105728\n";

static VALUES: [Value; 12] = [
    Value::Bool(true),
    Value::Bool(false),
    Value::Bool(true),
    Value::Whole(0),
    Value::Whole(0),
    Value::Whole(12),
    Value::Whole(-12),
    Value::Whole(12),
    Value::Whole(i128::MAX),
    Value::Whole(-i128::MAX),
    Value::Whole(i128::MIN),
    Value::Whole(i128::MIN),
];

#[test]
fn a_row_has_its_values(rt: HostRuntime) {
    let stimuli = read_stimuli(rt.alloc(), STIMULI).expect(&rt, "no stimuli");
    let [row] = stimuli.as_slice() else {
        rt.panic("one row")
    };
    assert!(rt; row.tick == 0 && is(&row.instance, b"D") && is(&row.event, b"START"));
    expect_settings(&rt, row.settings.as_slice());
    forget(stimuli);
}

/// A row by itself is read as the same row of a list.
#[test]
fn one_row_is_read_by_itself(rt: HostRuntime) {
    let Ok(row) = read_row(rt.alloc(), b"104", b"D.START", b"A=TRUE B=-12") else {
        panic!(rt; "no row");
    };
    let settings = row.settings.as_slice();
    assert!(rt; row.tick == 104 && is(&row.instance, b"D") && is(&row.event, b"START"));
    assert!(rt; settings.len() == 2);
    expect_setting(&rt, &settings[0], b'A', Value::Bool(true));
    expect_setting(&rt, &settings[1], b'B', Value::Whole(-12));
    forget(row);
    assert!(rt; read_row(rt.alloc(), b"104", b"D", b"").is_err());
    assert!(rt; read_row(rt.alloc(), b"1000000000001", b"D.START", b"").is_err());
}
