//! The texts of answers. Their words are only tested.

ghost use Rattle.std.specs.Prelude.{◌≡◌, ◌⊎◌, OnOk};
ghost use Rattle.fbsim_session.specs.Talks.{IsAnswer, IsBegun};

use fb_check::StimulusLocation;
use fb_inputs::StimuliLocation;
use fb_read_positions::words::{front, shown};
use fb_read_positions::{BlockTypes, Text};
use fb_session::GiveFault;
use fb_system::System;
use fb_text::{put_all, put_number};
use fb_types::Stimulus;
use fb_why::{row_message, unfit_message};
use std::alloc::{AllocError, Global};

/// The most bytes of a path that an error has.
const MOST_OF_PATH: usize = 60;

/// What most commands answer after a stop.
pub(crate) const STOPPED: &[u8] = b"the run has stopped";

/// The commands, a line each. A client that waits finds the last one by its `= help: `.
pub(crate) const HELP: &[&[u8]] = &[
    b"give TICK INSTANCE.EVENT VAR=value ..: one more stimulus",
    b"until TICK: takes all events below the tick",
    b"next: takes the least event",
    b"break PATTERN: until pauses after an event with such a line",
    b"clear N: removes break N",
    b"show PATH: what the block at the path has",
    b"peek: the least event that waits",
    b"end TICK: takes all events below the tick, and ends the session",
    b"help: these lines",
];

/// Whether a line is an answer or an error.
#[derive(Clone, Copy)]
pub(crate) enum Sign {
    Answer,
    Error,
}

impl Sign {
    /// How a line with this sign begins.
    fn letter(self) -> u8
        ensures { (result ≡ 61) ⊎ (result ≡ 33) }
    {
        match self {
            Sign::Answer => b'=',
            Sign::Error => b'!',
        }
    }
}

/// A byte as a line has it: no line feed.
fn in_line(byte: u8) -> u8
    ensures { result ≡ 10 → ⊥ }
{
    if byte == b'\n' { b'?' } else { byte }
}

/// Begins a line in place of what is in the buffer.
fn begin_line(line: &mut Vec<u8>, sign: Sign) -> Result<(), AllocError>
    ensures { OnOk result (IsBegun line.new.items) }
{
    line.clear();
    line.push(sign.letter())?;
    line.push(b' ')?;
    Ok(())
}

/// Adds a byte to a line that has begun.
fn put_byte(line: &mut Vec<u8>, byte: u8) -> Result<(), AllocError>
    requires { IsBegun line.old.items }
    ensures { OnOk result (IsBegun line.new.items) }
{
    line.push(in_line(byte))?;
    Ok(())
}

/// Makes the line of an answer or an error: its sign, the words, and a line feed. It has no other line feed.
pub(crate) fn put_line(line: &mut Vec<u8>, sign: Sign, words: &[u8]) -> Result<(), AllocError>
    ensures { OnOk result (IsAnswer line.new.items) }
{
    begin_line(line, sign)?;
    for byte in words {
        put_byte(line, *byte)?;
    }
    line.push(b'\n')?;
    Ok(())
}

/// Puts the words for a row of this number and text in place of what is in the buffer.
pub(crate) fn put_row(
    alloc: Global,
    text: &mut Vec<u8>,
    row: u64,
    line: &[u8],
) -> Result<(), AllocError> {
    text.clear();
    put_all(text, &[b"row "])?;
    put_number(alloc, text, row)?;
    put_all(text, &[b" ", line])
}

/// Puts why a row is not accepted in place of what is in the buffer.
pub(crate) fn put_fault(
    alloc: Global,
    text: &mut Vec<u8>,
    system: &System,
    row: u64,
    fields: [&[u8]; 3],
    fault: &GiveFault,
) -> Result<(), AllocError> {
    text.clear();
    let [tick, event, values] = fields;
    match fault {
        GiveFault::NotGoing => put_all(text, &[STOPPED]),
        GiveFault::Full => put_all(text, &[b"there are 18446744073709551615 rows"]),
        GiveFault::Late(tick) => {
            put_all(text, &[b"late: tick "])?;
            put_number(alloc, text, *tick)?;
            put_all(text, &[b" has begun"])
        }
        GiveFault::Unread(fault) => {
            let words = row_message(alloc, row as usize, tick, event, values, *fault)?;
            let location = StimuliLocation::Row {
                row: 0,
                fault: *fault,
            };
            let name: &[u8] = match location.number() {
                13 => b"E13: ",
                14 => b"E14: ",
                _ => b"E15: ",
            };
            put_all(text, &[name])?;
            put_all(text, &[words.as_bytes()])
        }
        GiveFault::Unfit(stimulus, fault) => {
            let location = StimulusLocation {
                row: row as usize,
                fault: *fault,
            };
            let words = unfit_words(alloc, system, stimulus, location)?;
            put_all(text, &[b"E29: "])?;
            put_all(text, &[words.as_bytes()])
        }
        GiveFault::Memory => Err(AllocError),
    }
}

/// Why a row does not fit the application.
fn unfit_words(
    alloc: Global,
    system: &System,
    stimulus: &Stimulus,
    location: StimulusLocation,
) -> Result<String, AllocError> {
    let types = BlockTypes::new(alloc, system.library())?;
    unfit_message(alloc, &types, stimulus, location)
}

/// Puts that a text is no pattern in place of what is in the buffer.
pub(crate) fn put_no_pattern(
    alloc: Global,
    text: &mut Vec<u8>,
    pattern: &[u8],
) -> Result<(), AllocError> {
    let mut words = Text::new(alloc);
    words.quoted(pattern);
    words.words(" is no pattern: expected RESOURCE > PATH.EVENT VAR=value ..");
    put_words(text, &words.into_string()?)
}

/// Puts that no instance has a path in place of what is in the buffer.
pub(crate) fn put_no_instance(
    alloc: Global,
    text: &mut Vec<u8>,
    path: &[u8],
) -> Result<(), AllocError> {
    let mut words = Text::new(alloc);
    words.words("there is no instance ");
    for byte in front(path, MOST_OF_PATH) {
        words.letter(shown(*byte));
    }
    put_words(text, &words.into_string()?)
}

/// Puts words in place of what is in the buffer.
fn put_words(text: &mut Vec<u8>, words: &String) -> Result<(), AllocError> {
    text.clear();
    put_all(text, &[words.as_bytes()])
}

/// A path in upper case.
pub(crate) fn in_upper(alloc: Global, path: &[u8]) -> Result<Vec<u8>, AllocError> {
    let mut upper = Vec::with_capacity(alloc, path.len())?;
    for byte in path {
        upper.push(byte.to_ascii_uppercase())?;
    }
    Ok(upper)
}
