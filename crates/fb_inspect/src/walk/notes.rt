//! What is written between the lines of a trace.

ghost use Rattle.std.specs.Prelude.{◌≡◌, ◌++◌, IsTrue, OnOk, length, map};
ghost use Rattle.fb_types.specs.Text.{reason_text};
ghost use Rattle.fb_types.specs.Values.{Values, same_value};
ghost use Rattle.fb_event.specs.Seen.{seen_memory};
ghost use Rattle.fb_st.specs.Frames.{values_of};
ghost use Rattle.fb_inspect.specs.Inspections.{cut_note};
ghost use Rattle.fb_inspect.specs.walk.Notes as spec;

use fb_event::EventMemory;
use fb_st::Frame;
use fb_text::{put_all, put_condition, put_number, put_value};
use fb_types::{Name, Reason, Reference, Transition, Value};
use std::alloc::{AllocError, Global};

/// A transition that cleared.
pub(crate) fn put_cleared(
    alloc: Global,
    text: &mut Vec<u8>,
    transition: &Transition,
) -> Result<(), AllocError>
    ensures { OnOk result (text.new.items ≡ text.old.items ++ spec.cleared_note transition.now) }
{
    put_all(
        text,
        &[
            b"  ",
            transition.from.as_bytes(),
            b" -> ",
            transition.to.as_bytes(),
            b" by ",
        ],
    )?;
    put_condition(alloc, text, &transition.condition)?;
    text.extend_from_slice(b"\n")
}

/// An event that cleared no transition.
pub(crate) fn put_lost(text: &mut Vec<u8>, state: &[u8]) -> Result<(), AllocError>
    ensures { OnOk result (text.new.items ≡ text.old.items ++ spec.lost_note state.now) }
{
    put_all(text, &[b"  lost in ", state, b"\n"])
}

/// Whether two values are the same.
pub fn are_same(left: Value, right: Value) -> bool
    ensures value { result ≡ same_value left right }
    ensures same { IsTrue result → left ≡ right }
{
    match (left, right) {
        (Value::Bool(a), Value::Bool(b)) => a == b,
        (Value::Whole(x), Value::Whole(y)) => x == y,
        _ => false,
    }
}

/// A variable with its value, if it had another value before.
fn put_change(
    alloc: Global,
    text: &mut Vec<u8>,
    name: &Name,
    before: Value,
    after: Value,
) -> Result<(), AllocError>
    ensures { OnOk result (text.new.items ≡ text.old.items ++ spec.change_text name.now before after) }
{
    if are_same(after, before) {
        return Ok(());
    }
    put_all(text, &[b" ", name.as_bytes(), b"="])?;
    put_value(alloc, text, after)
}

/// The variables of these that have another value than before.
fn put_changes(
    alloc: Global,
    text: &mut Vec<u8>,
    variables: &[Reference],
    before: &[Value],
    frame: &Frame,
) -> Result<(), AllocError>
    requires { length before.now ≡ length variables.now }
    ensures { (values : Values) → before.now ≡ map values variables.now
        → OnOk result (text.new.items ≡ text.old.items ++ spec.changes_text values (values_of frame.now) variables.now) }
{
    for (index, variable) in variables.iter().enumerate() {
        put_change(
            alloc,
            text,
            variable.name(),
            before[index],
            frame.value(variable),
        )?;
    }
    Ok(())
}

/// An algorithm that ran, with the variables of these that have another value than before.
pub(crate) fn put_ran(
    alloc: Global,
    text: &mut Vec<u8>,
    algorithm: &Name,
    variables: &[Reference],
    before: &[Value],
    frame: &Frame,
) -> Result<(), AllocError>
    requires { length before.now ≡ length variables.now }
    ensures { (values : Values) → before.now ≡ map values variables.now
        → OnOk result (text.new.items ≡ text.old.items ++ spec.ran_text algorithm.now values (values_of frame.now) variables.now) }
{
    put_all(text, &[b"  ", algorithm.as_bytes(), b":"])?;
    put_changes(alloc, text, variables, before, frame)?;
    text.extend_from_slice(b"\n")
}

/// The word of a reason, as a last line has it.
pub(crate) fn word_of(reason: Reason) -> &'static [u8]
    ensures { result.now ≡ reason_text reason }
{
    match reason {
        Reason::Steps => b"steps",
        Reason::Divide => b"divide",
        Reason::Range => b"range",
    }
}

/// A reason that ended a reaction.
pub(crate) fn put_stopped(text: &mut Vec<u8>, reason: Reason) -> Result<(), AllocError>
    ensures { OnOk result (text.new.items ≡ text.old.items ++ spec.stopped_note reason) }
{
    put_all(text, &[b"  stops: ", word_of(reason), b"\n"])
}

/// The tick at which a timer goes off.
fn put_due(alloc: Global, text: &mut Vec<u8>, due: Option<u64>) -> Result<(), AllocError>
    ensures { OnOk result (text.new.items ≡ text.old.items ++ spec.due_text due) }
{
    match due {
        Some(tick) => put_number(alloc, text, tick),
        None => Ok(()),
    }
}

/// A word, and then a number.
fn put_counted(
    alloc: Global,
    text: &mut Vec<u8>,
    word: &[u8],
    number: Option<u64>,
) -> Result<(), AllocError>
    ensures { OnOk result (text.new.items ≡ text.old.items ++ (word.now ++ spec.due_text number)) }
{
    text.extend_from_slice(word)?;
    put_due(alloc, text, number)
}

/// What an event block remembers, without the end of the line.
fn put_memory_text(
    alloc: Global,
    text: &mut Vec<u8>,
    memory: EventMemory,
    due: Option<u64>,
) -> Result<(), AllocError>
    ensures { OnOk result (text.new.items ≡ text.old.items ++ spec.memory_text (seen_memory memory) due) }
{
    match memory {
        EventMemory::Idle => text.extend_from_slice(b"  idle"),
        EventMemory::Flag(true) => text.extend_from_slice(b"  set"),
        EventMemory::Flag(false) => text.extend_from_slice(b"  reset"),
        EventMemory::Running(_) => put_counted(alloc, text, b"  due ", due),
        EventMemory::Count { count, .. } => {
            put_counted(alloc, text, b"  count ", Some(u64::from(count)))
        }
        EventMemory::Marks { first: true, .. } => text.extend_from_slice(b"  has EI1"),
        EventMemory::Marks { second: true, .. } => text.extend_from_slice(b"  has EI2"),
        EventMemory::Marks { .. } => text.extend_from_slice(b"  has none"),
    }
}

/// What an event block remembers.
pub(crate) fn put_memory(
    alloc: Global,
    text: &mut Vec<u8>,
    memory: EventMemory,
    due: Option<u64>,
) -> Result<(), AllocError>
    ensures { OnOk result (text.new.items ≡ text.old.items ++ spec.memory_note (seen_memory memory) due) }
{
    put_memory_text(alloc, text, memory, due)?;
    text.extend_from_slice(b"\n")
}

/// That the trace is cut off.
pub(crate) fn put_cut(text: &mut Vec<u8>) -> Result<(), AllocError>
    ensures { OnOk result (text.new.items ≡ text.old.items ++ cut_note) }
{
    text.extend_from_slice(b"  cut\n")
}
