//! The text of the lines of one resource, with marks by which it is joined with that of others, tick by tick.

ghost use Rattle.std.specs.Prelude.{◌≡◌, ◌+◌, ◌<◌, ◌≤◌, ◌^◌, [], ◌∷◌, ◌++◌, length, take, All, IfOk, OnOk, Some};
ghost use Rattle.fb_system.specs.OfSystem.{BelongsTo};
ghost use Rattle.fb_trace.specs.Fronts.{tick_at};
ghost use Rattle.fb_trace.specs.Marks.{IsMarkedText, IsRun, text_of_lines};

use crate::lines::put_lines;
use crate::number::LastNumber;
use crate::page::Page;
use fb_system::System;
use fb_types::{Form, Line};
use std::alloc::{AllocError, Global};

/// Where the text of a run of lines of one tick ends.
#[derive(Clone, Copy)]
pub struct Mark {
    /// The tick of the lines.
    pub tick: u64,
    /// How many bytes of the text are before its end.
    pub end: usize,
}

/// The text of lines, with a mark where each run of lines of one tick ends.
#[derive(Drop)]
pub struct MarkedText {
    /// The form of the lines.
    pub form: Form,
    /// The text of all lines.
    pub text: Vec<u8>,
    /// A mark for each run, in order.
    pub marks: Vec<Mark>,
    /// How many lines it is the text of.
    pub lines: usize,
}

/// A line mostly has no more bytes.
const LINE_ROOM: usize = 48;

/// How many lines there are before the first one of another tick. The tick is that of the first line.
fn run_length(lines: &[Line], tick: u64) -> usize
    requires { tick_at lines.now ≡ Some tick }
    ensures within { result ≤ length lines.now }
    ensures some { 0 < result }
    ensures run { IsRun tick (take result lines.now) }
{
    let mut count = 1;
    while count < lines.len() {
        if lines[count].key.tick != tick {
            return count;
        }
        count += 1;
    }
    count
}

/// Puts the text of lines. Bytes that the page has no room for are appended to those in memory.
fn put_run(
    page: &mut Page,
    text: &mut Vec<u8>,
    system: &System,
    form: Form,
    tick: &mut LastNumber,
    lines: &[Line],
) -> Result<(), AllocError>
    requires { All (BelongsTo system.now) lines.now }
    ensures { OnOk result (text.new.items ++ page.new.waiting ≡ (text.old.items ++ page.old.waiting) ++ text_of_lines system.now form lines.now) }
{
    match put_lines(page, text, system, form, tick, lines) {
        Ok(()) => Ok(()),
        // A writer into memory fails for memory alone.
        Err(_) => Err(AllocError),
    }
}

/// Appends all that waits in a page.
fn append_rest(page: &mut Page, text: &mut Vec<u8>) -> Result<(), AllocError>
    ensures { OnOk result (text.new.items ≡ text.old.items ++ page.old.waiting) }
{
    match page.flush(text) {
        Ok(()) => Ok(()),
        // A writer into memory fails for memory alone.
        Err(_) => Err(AllocError),
    }
}

/// Marks the end of a run of lines of one tick, whose text is in memory but for the bytes that wait.
fn add_mark(
    marks: &mut Vec<Mark>,
    tick: u64,
    in_memory: usize,
    waiting: usize,
) -> Result<(), AllocError>
    requires { in_memory + waiting < 2 ^ 64 }
    ensures { OnOk result (marks.new.items ≡ marks.old.items ++ record { tick = tick; end = in_memory + waiting } ∷ []) }
{
    let end = in_memory + waiting;
    marks.push(Mark { tick, end })?;
    Ok(())
}

/// The text of lines that belong to the system, with a mark where each run of lines of one tick ends.
///
/// # Errors
/// When memory runs out.
pub fn marked_text(
    alloc: Global,
    system: &System,
    form: Form,
    lines: &[Line],
) -> Result<MarkedText, AllocError>
    requires { All (BelongsTo system.now) lines.now }
    ensures { IfOk result (λ t. IsMarkedText system.now form lines.now t) }
{
    let mut text = Vec::with_capacity(alloc, lines.len().saturating_mul(LINE_ROOM))?;
    let mut marks = Vec::new(alloc);
    let mut page = Page::new();
    let mut digits = LastNumber::of(0);
    let mut rest = lines;
    while let Some(first) = rest.first() {
        let tick = first.key.tick;
        let (run, later) = rest.split_at(run_length(rest, tick));
        put_run(&mut page, &mut text, system, form, &mut digits, run)?;
        add_mark(&mut marks, tick, text.len(), page.waiting_count())?;
        rest = later;
    }
    append_rest(&mut page, &mut text)?;
    Ok(MarkedText {
        form,
        text,
        marks,
        lines: lines.len(),
    })
}
