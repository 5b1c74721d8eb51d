//! What is not covered of basic types.

ghost use Rattle.std.specs.Prelude.{◌≡◌, ◌++◌, IfOk, OnOk};
ghost use Rattle.fb_coverage.specs.Reports as spec;
ghost use Rattle.fb_coverage.specs.Listed.{listed};
ghost use Rattle.fb_coverage.specs.Tables.{row_of};

use crate::marks::Marks;
use crate::table::is_set;
use fb_text::{put_all, put_condition};
use fb_types::{Algorithm, BasicType, BlockType, EventPort, Name, State, Transition};
use std::alloc::{AllocError, Global};

/// Adds a part with a title, if there is any.
pub(crate) fn put_titled(
    text: &mut Vec<u8>,
    word: &[u8],
    name: &[u8],
    part: &[u8],
) -> Result<(), AllocError>
    ensures { OnOk result (text.new.items ≡ text.old.items ++ spec.titled word.now name.now part.now) }
{
    if part.is_empty() {
        return Ok(());
    }
    put_all(text, &[word, name, b"\n", part])
}

/// Adds the line of a part, if its flag is not set.
pub(crate) fn put_unless(
    text: &mut Vec<u8>,
    is_covered: bool,
    word: &[u8],
    name: &Name,
    rest: &[u8],
) -> Result<(), AllocError>
    ensures { OnOk result (text.new.items ≡ text.old.items ++ spec.line_unless is_covered word.now name.now rest.now) }
{
    if is_covered {
        return Ok(());
    }
    put_all(text, &[word, name.as_bytes(), rest])
}

/// Adds the states that were never entered.
fn put_states(text: &mut Vec<u8>, states: &[State], flags: &[bool]) -> Result<(), AllocError>
    ensures { OnOk result (text.new.items ≡ text.old.items ++ listed (spec.state_line flags.now) 0 states.now) }
{
    for (index, state) in states.iter().enumerate() {
        let is_covered = is_set(flags, index);
        put_unless(
            text,
            is_covered,
            b"  state ",
            &state.name,
            b" was never entered\n",
        )?;
    }
    Ok(())
}

/// Adds a transition that never cleared.
fn put_transition(
    alloc: Global,
    text: &mut Vec<u8>,
    transition: &Transition,
) -> Result<(), AllocError>
    ensures { OnOk result (text.new.items ≡ text.old.items ++ spec.transition_text transition.now) }
{
    put_all(
        text,
        &[
            b"  transition ",
            transition.from.as_bytes(),
            b" -> ",
            transition.to.as_bytes(),
            b" by ",
        ],
    )?;
    put_condition(alloc, text, &transition.condition)?;
    text.extend_from_slice(b" never cleared\n")
}

/// Adds a transition, if its flag is not set.
fn put_uncleared(
    alloc: Global,
    text: &mut Vec<u8>,
    transition: &Transition,
    is_covered: bool,
) -> Result<(), AllocError>
    ensures { OnOk result (text.new.items ≡ text.old.items ++ spec.transition_unless is_covered transition.now) }
{
    if is_covered {
        return Ok(());
    }
    put_transition(alloc, text, transition)
}

/// Adds the transitions that never cleared, as they were written.
fn put_transitions(
    alloc: Global,
    text: &mut Vec<u8>,
    transitions: &[Transition],
    flags: &[bool],
) -> Result<(), AllocError>
    ensures { OnOk result (text.new.items ≡ text.old.items ++ listed (spec.transition_line flags.now) 0 transitions.now) }
{
    for (index, transition) in transitions.iter().enumerate() {
        put_uncleared(alloc, text, transition, is_set(flags, index))?;
    }
    Ok(())
}

/// Adds the algorithms that never ran.
fn put_algorithms(
    text: &mut Vec<u8>,
    algorithms: &[Algorithm],
    flags: &[bool],
) -> Result<(), AllocError>
    ensures { OnOk result (text.new.items ≡ text.old.items ++ listed (spec.algorithm_line flags.now) 0 algorithms.now) }
{
    for (index, algorithm) in algorithms.iter().enumerate() {
        let is_covered = is_set(flags, index);
        put_unless(
            text,
            is_covered,
            b"  algorithm ",
            &algorithm.name,
            b" never ran\n",
        )?;
    }
    Ok(())
}

/// What is said of an event that never cleared a transition.
fn lost_words(is_taken: bool) -> &'static [u8]
    ensures { result.now ≡ spec.lost_words is_taken }
{
    if is_taken {
        b" was only lost\n"
    } else {
        b" was never taken\n"
    }
}

/// Adds the event inputs at which no event cleared a transition.
fn put_events(
    text: &mut Vec<u8>,
    events: &[EventPort],
    taken: &[bool],
    clearing: &[bool],
) -> Result<(), AllocError>
    ensures { OnOk result (text.new.items ≡ text.old.items ++ listed (spec.event_line taken.now clearing.now) 0 events.now) }
{
    for (index, event) in events.iter().enumerate() {
        let is_covered = is_set(clearing, index);
        let words = lost_words(is_set(taken, index));
        put_unless(text, is_covered, b"  event ", &event.name, words)?;
    }
    Ok(())
}

/// Adds what is not covered of a basic type that an instance has.
fn put_parts(
    alloc: Global,
    text: &mut Vec<u8>,
    marks: &Marks,
    index: usize,
    basic: &BasicType,
) -> Result<(), AllocError>
    ensures { OnOk result (text.new.items ≡ text.old.items ++ spec.parts_text marks.now index basic.now) }
{
    put_states(
        text,
        basic.states.as_slice(),
        marks.charts.states.row(index),
    )?;
    let transitions = basic.transitions.as_slice();
    put_transitions(
        alloc,
        text,
        transitions,
        marks.charts.transitions.row(index),
    )?;
    let algorithms = basic.algorithms.as_slice();
    put_algorithms(text, algorithms, marks.charts.algorithms.row(index))?;
    let events = basic.ports.event_inputs.as_slice();
    let taken = marks.charts.taken.row(index);
    put_events(text, events, taken, marks.charts.clearing.row(index))
}

/// What is not covered of a basic type, or that no instance has it.
fn part_of(
    alloc: Global,
    marks: &Marks,
    index: usize,
    basic: &BasicType,
) -> Result<Vec<u8>, AllocError>
    ensures { IfOk result (λ text. text.items ≡ spec.unused_or (row_of marks.now.charts.states index) (spec.parts_text marks.now index basic.now)) }
{
    let mut text = Vec::new(alloc);
    if marks.charts.states.row(index).is_empty() {
        text.extend_from_slice(b"  no instance has it\n")?;
    } else {
        put_parts(alloc, &mut text, marks, index, basic)?;
    }
    Ok(text)
}

/// Adds what is not covered of a declared type, if it is a basic one.
fn put_block(
    alloc: Global,
    text: &mut Vec<u8>,
    marks: &Marks,
    index: usize,
    block: &BlockType,
) -> Result<(), AllocError>
    ensures { OnOk result (text.new.items ≡ text.old.items ++ spec.block_text marks.now index block.now) }
{
    match block {
        BlockType::Basic(basic) => {
            let part = part_of(alloc, marks, index, basic)?;
            put_titled(text, b"type ", basic.name.as_bytes(), part.as_slice())
        }
        BlockType::Composite(_) => Ok(()),
    }
}

/// Adds what is not covered of the declared types.
pub(crate) fn put_blocks(
    alloc: Global,
    text: &mut Vec<u8>,
    marks: &Marks,
    blocks: &[BlockType],
) -> Result<(), AllocError>
    ensures { OnOk result (text.new.items ≡ text.old.items ++ listed (spec.block_text marks.now) 0 blocks.now) }
{
    for (index, block) in blocks.iter().enumerate() {
        put_block(alloc, text, marks, index, block)?;
    }
    Ok(())
}
