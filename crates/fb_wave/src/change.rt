//! The changes of signals.

ghost use Rattle.std.specs.Prelude.{◌≡◌, ℕ, List, [], ◌++◌, OnOk, length, decimal};
ghost use Rattle.fb_wave.specs.Changes.{changed, changes, event_changed, in_bits, number_changed, time_text, value_changed};
ghost use Rattle.fb_wave.specs.Levels.{AreLevels};

use crate::digits::{put_binary, put_line};
use crate::levels::{Level, Levels};
use fb_types::Value;
use std::alloc::AllocError;

/// The low 64 bits of a number: one below 0 has its complement to 2^64.
pub fn in_bits(number: i128) -> u64
    ensures { result ≡ in_bits (Value.Whole number) }
{
    if number < 0 {
        u64::MAX - (((-1 - number) as u128) % (1 << 64)) as u64
    } else {
        ((number as u128) % (1 << 64)) as u64
    }
}

/// Appends a number that a signal shows. The dump calls the signal by a letter and its number.
fn put_bits(text: &mut Vec<u8>, bits: u64, letter: &[u8], signal: usize) -> Result<(), AllocError>
    ensures { OnOk result (text.new.items ≡ text.old.items ++ number_changed bits (letter.now ++ decimal signal)) }
{
    text.extend_from_slice(b"b")?;
    put_binary(text, bits)?;
    text.extend_from_slice(b" ")?;
    put_line(text, letter, signal as u64)
}

/// Appends the value of a variable.
pub(crate) fn put_value(text: &mut Vec<u8>, signal: usize, value: Value) -> Result<(), AllocError>
    ensures { OnOk result (text.new.items ≡ text.old.items ++ value_changed signal value) }
{
    match value {
        Value::Bool(truth) => {
            let front: &[u8] = if truth { b"1v" } else { b"0v" };
            put_line(text, front, signal as u64)
        }
        Value::Whole(number) => put_bits(text, in_bits(number), b"v", signal),
    }
}

fn put_event(text: &mut Vec<u8>, signal: usize, count: u64) -> Result<(), AllocError>
    ensures { OnOk result (text.new.items ≡ text.old.items ++ event_changed signal count) }
{
    put_line(text, b"1e", signal as u64)?;
    put_bits(text, count, b"n", signal)
}

/// Appends what a signal shows.
fn put_change(text: &mut Vec<u8>, signal: usize, shown: Level) -> Result<(), AllocError>
    ensures { OnOk result (text.new.items ≡ text.old.items ++ changed signal shown) }
{
    match shown {
        Level::Count(count) => put_event(text, signal, count),
        Level::Last(value) => put_value(text, signal, value),
    }
}

/// Appends a time, in ticks (milliseconds), unless it is the one that is shown already.
pub fn put_time(text: &mut Vec<u8>, shown: u64, tick: u64) -> Result<(), AllocError>
    ensures { OnOk result (text.new.items ≡ text.old.items ++ time_text shown tick) }
{
    if tick == shown {
        return Ok(());
    }
    put_line(text, b"#", tick)
}

/// Appends the changes of a tick, and unmarks its signals for the next tick.
pub fn put_changes(text: &mut Vec<u8>, levels: &mut Levels) -> Result<(), AllocError>
    ensures counted { length levels.new.cells.items ≡ length levels.old.cells.items }
    ensures none { OnOk result (levels.new.marked.items ≡ []) }
    ensures text { (n : ℕ) (fires : List ℕ) (sets : List (ℕ × Value)) (touches : List ℕ) → AreLevels n fires sets touches levels.old
        → OnOk result (text.new.items ≡ text.old.items ++ changes fires sets touches) }
    ensures levels { (n : ℕ) (fires : List ℕ) (sets : List (ℕ × Value)) (touches : List ℕ) → AreLevels n fires sets touches levels.old
        → OnOk result (AreLevels n fires sets [] levels.new) }
{
    for index in 0..levels.marked.len() {
        let signal = levels.marked[index];
        put_change(text, signal, levels.cells[signal].shown)?;
        levels.cells[signal].is_marked = false;
    }
    levels.marked.clear();
    Ok(())
}
