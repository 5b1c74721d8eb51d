//! The lines of a trace.

ghost use Rattle.std.specs.Prelude.{◌≡◌, ◌+◌, ◌≤◌, ◌++◌, drop, false, map, length, All, IfErr, IfOk, IsTrue, OnOk};
ghost use Rattle.std.specs.Io.KnownBytes.{Appends};
ghost use Rattle.fb_types.specs.Text.{values_text};
ghost use Rattle.fb_types.specs.declared.run.Form.TheVariants.{One};
ghost use Rattle.fb_types.specs.OfSystem.{line_of, line_text, lines_text, path_at, ports_at};
ghost use Rattle.fb_system.specs.OfSystem.{BelongsTo, IsHead};
ghost use Rattle.fb_trace.specs.Fronts.{joint};
ghost use Rattle.fb_trace.specs.Starts.{head_of_line};
ghost use Rattle.fb_trace.specs.Progress.{Gathers, IsPartWritten, bounded};

use crate::fault::WriteFault;
use crate::names::{event_name, head_of, shown_by};
use crate::number::LastNumber;
use crate::page::{Page, SIZE};
use crate::pieces::{put_head, put_key, put_values};
use crate::start::{START, append_bare, append_start, append_with_one};
use fb_system::{Head, System};
use fb_types::{Form, Line, Ports};
use std::io::Write;

/// Puts the values of a line after the first, each with the name of its variable.
#[inline(never)]
fn put_more<W: Write>(
    page: &mut Page,
    out: &mut W,
    system: &System,
    line: &Line,
) -> Result<(), WriteFault>
    requires belongs { BelongsTo system.now line.now }
    requires some { 1 ≤ length line.now.values }
    ensures text { Gathers (W.contents out.old) (W.contents out.new) page.old page.new
        (values_text (drop 1 (line_of system.now line.now).values)) result }
    ensures room { OnOk result (length page.new.waiting + 1 ≤ SIZE) }
{
    let ports = system.ports(line.instance);
    let shown = shown_by(system, ports, line);
    let values = line.values.as_slice();
    put_values(
        page,
        out,
        shown.variables,
        &shown.indexes[1..],
        &values[1..],
    )?;
    page.make_room(out, 1)
}

/// Puts the values of a line after the first, if there are any, and leaves room for the end of the line.
#[inline(always)]
fn put_others<W: Write>(
    page: &mut Page,
    out: &mut W,
    system: &System,
    line: &Line,
) -> Result<(), WriteFault>
    requires belongs { BelongsTo system.now line.now }
    requires room { length page.old.waiting + 1 ≤ SIZE }
    ensures text { Gathers (W.contents out.old) (W.contents out.new) page.old page.new
        (values_text (drop 1 (line_of system.now line.now).values)) result }
    ensures room { OnOk result (length page.new.waiting + 1 ≤ SIZE) }
{
    if line.values.as_slice().len() <= 1 {
        return Ok(());
    }
    put_more(page, out, system, line)
}

/// Puts the values of a line, each with the name of its variable.
fn put_bindings<W: Write>(
    page: &mut Page,
    out: &mut W,
    system: &System,
    ports: &Ports,
    line: &Line,
) -> Result<(), WriteFault>
    requires belongs { BelongsTo system.now line.now }
    requires ports { ports.now ≡ ports_at system.now (path_at system.now line.now.instance) }
    ensures { Gathers (W.contents out.old) (W.contents out.new) page.old page.new
        (values_text (line_of system.now line.now).values) result }
{
    if line.values.is_empty() {
        return Ok(());
    }
    let shown = shown_by(system, ports, line);
    put_values(
        page,
        out,
        shown.variables,
        shown.indexes,
        line.values.as_slice(),
    )
}

/// Puts a line of form one with the names of its numbers. The tick is kept as digits.
#[inline(never)]
fn put_by_names<W: Write>(
    page: &mut Page,
    out: &mut W,
    system: &System,
    tick: &LastNumber,
    line: &Line,
) -> Result<(), WriteFault>
    requires belongs { BelongsTo system.now line.now }
    requires tick { tick.now ≡ line.now.key.tick }
    ensures { Gathers (W.contents out.old) (W.contents out.new) page.old page.new
        (line_text One system.now (line_of system.now line.now)) result }
{
    let ports = system.ports(line.instance);
    put_head(
        page,
        out,
        tick,
        system.resource_name(line.key.resource as usize),
        line.taken,
        system.path(line.instance),
        event_name(ports, line),
    )?;
    put_bindings(page, out, system, ports, line)?;
    page.make_room(out, 1)?;
    page.append_byte(b'\n');
    Ok(())
}

/// Puts a line of form one whose head is kept. The tick is kept as digits. The page has room for all but the values
/// after the first, so no other piece checks for room.
#[inline(always)]
fn put_by_head<W: Write>(
    page: &mut Page,
    out: &mut W,
    system: &System,
    tick: &LastNumber,
    head: &Head,
    line: &Line,
) -> Result<(), WriteFault>
    requires belongs { BelongsTo system.now line.now }
    requires tick { tick.now ≡ line.now.key.tick }
    requires head { IsHead system.now (head_of_line line.now) head.now }
    ensures { Gathers (W.contents out.old) (W.contents out.new) page.old page.new
        (line_text One system.now (line_of system.now line.now)) result }
{
    page.make_room(out, START + 1)?;
    append_start(page, tick, head, line.values.as_slice());
    put_others(page, out, system, line)?;
    page.append_byte(b'\n');
    Ok(())
}

/// Puts the text of a line, of either form and any length. The tick is kept as digits.
#[inline(never)]
fn put_any<W: Write>(
    page: &mut Page,
    out: &mut W,
    system: &System,
    form: Form,
    tick: &LastNumber,
    line: &Line,
) -> Result<(), WriteFault>
    requires belongs { BelongsTo system.now line.now }
    requires tick { tick.now ≡ line.now.key.tick }
    ensures { Gathers (W.contents out.old) (W.contents out.new) page.old page.new
        (line_text form system.now (line_of system.now line.now)) result }
{
    put_key(page, out, form, &line.key)?;
    match system.head(head_of(line)) {
        Some(head) => put_by_head(page, out, system, tick, head, line),
        None => put_by_names(page, out, system, tick, line),
    }
}

/// Puts a line in one step if it can: a line of form one, whose head is kept, with at most one value, if the page has
/// room for any such line. Otherwise it returns that it has put nothing.
#[inline(always)]
fn append_line(page: &mut Page, system: &System, form: Form, tick: &LastNumber, line: &Line) -> bool
    requires belongs { BelongsTo system.now line.now }
    requires tick { tick.now ≡ line.now.key.tick }
    ensures put { IsTrue result → page.new ≡ record page.old {
      waiting = page.old.waiting ++ (line_text form system.now (line_of system.now line.now));
    } }
    ensures kept { result ≡ false → page.new ≡ page.old }
{
    let Form::One = form else {
        return false;
    };
    if !page.has_room(START + 1) {
        return false;
    }
    // Such a line needs no slice of its values.
    if line.values.is_empty() {
        let Some(head) = system.head(head_of(line)) else {
            return false;
        };
        append_bare(page, tick, head);
        return true;
    }
    let [value] = line.values.as_slice() else {
        return false;
    };
    let Some(head) = system.head(head_of(line)) else {
        return false;
    };
    append_with_one(page, tick, head, value);
    true
}

/// Puts the text of lines. The tick of the last line is kept as digits.
pub(crate) fn put_lines<W: Write>(
    page: &mut Page,
    out: &mut W,
    system: &System,
    form: Form,
    tick: &mut LastNumber,
    lines: &[Line],
) -> Result<(), WriteFault>
    requires { All (BelongsTo system.now) lines.now }
    ensures { Gathers (W.contents out.old) (W.contents out.new) page.old page.new
        (lines_text form system.now (map (line_of system.now) lines.now)) result }
{
    for line in lines {
        tick.replace(line.key.tick);
        // Most lines are put in one step, and need no result: the built program clears a result when it makes one.
        if append_line(page, system, form, tick, line) {
            continue;
        }
        put_any(page, out, system, form, tick, line)?;
    }
    Ok(())
}

/// Writes the text of lines that belong to the system, and returns how many bytes it has, up to the greatest `u128`. It
/// takes no memory.
///
/// # Errors
/// If the writer returns an error or takes no byte. It then has a beginning of the text, but not all of it. The fault
/// says how many bytes.
pub fn write_lines_with_count<W: Write>(
    out: &mut W,
    system: &System,
    form: Form,
    lines: &[Line],
) -> Result<u128, WriteFault>
    requires { All (BelongsTo system.now) lines.now }
    ensures whole { OnOk result (Appends (W.contents out.old) (W.contents out.new) (lines_text form system.now (map (line_of system.now) lines.now))) }
    ensures counted { IfOk result (λ n. n ≡ bounded (length (lines_text form system.now (map (line_of system.now) lines.now)))) }
    ensures part { IfErr result (λ fault. IsPartWritten (W.contents out.old) (W.contents out.new) (lines_text form system.now (map (line_of system.now) lines.now)) fault.written) }
{
    let mut page = Page::new();
    let mut tick = LastNumber::of(0);
    put_lines(&mut page, out, system, form, &mut tick, lines)?;
    page.flush(out)?;
    Ok(page.written())
}

/// Writes the text of lines that belong to the system. It takes no memory.
///
/// # Errors
/// If the writer returns an error or takes no byte. It then has a beginning of the text, but not all of it. The fault
/// says how many bytes.
pub fn write_lines<W: Write>(
    out: &mut W,
    system: &System,
    form: Form,
    lines: &[Line],
) -> Result<(), WriteFault>
    requires { All (BelongsTo system.now) lines.now }
    ensures whole { OnOk result (Appends (W.contents out.old) (W.contents out.new) (lines_text form system.now (map (line_of system.now) lines.now))) }
    ensures part { IfErr result (λ fault. IsPartWritten (W.contents out.old) (W.contents out.new) (lines_text form system.now (map (line_of system.now) lines.now)) fault.written) }
{
    write_lines_with_count(out, system, form, lines)?;
    Ok(())
}

/// Writes the text of the lines of parts, one part after another, as `write_lines` does. All parts use one page, so
/// thousands of small parts take about as long as one list of their lines.
///
/// # Errors
/// Those of `write_lines`.
pub fn write_parts<W: Write>(
    out: &mut W,
    system: &System,
    form: Form,
    parts: &[&[Line]],
) -> Result<(), WriteFault>
    requires { All (λ q. All (BelongsTo system.now) q.now) parts.now }
    ensures whole { OnOk result (Appends (W.contents out.old) (W.contents out.new) (lines_text form system.now (map (line_of system.now) (joint (map (λ q. q.now) parts.now))))) }
    ensures part { IfErr result (λ fault. IsPartWritten (W.contents out.old) (W.contents out.new) (lines_text form system.now (map (line_of system.now) (joint (map (λ q. q.now) parts.now)))) fault.written) }
{
    let mut page = Page::new();
    let mut tick = LastNumber::of(0);
    for part in parts {
        put_lines(&mut page, out, system, form, &mut tick, *part)?;
    }
    page.flush(out)
}
