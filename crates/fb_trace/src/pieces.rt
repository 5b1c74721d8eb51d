//! The pieces of a line.

ghost use Rattle.std.specs.Prelude.{◌≡◌, ◌<◌, ◌≤◌, ◌+◌, ◌++◌, ℕ, List, Option, length, map, All, codes, decimal, if◌then◌else◌};
ghost use Rattle.fb_types.specs.Numbers.{pair_up};
ghost use Rattle.fb_types.specs.Text.{key_text, value_text, values_text};
ghost use Rattle.fb_types.specs.OfSystem.{IsResource};
ghost use Rattle.fb_system.specs.IndexLists.{variable_at};
ghost use Rattle.fb_trace.specs.Progress.{Gathers, Puts};
ghost use Rattle.fb_trace.specs.OfSystem.{tick_and_resource_text};

use crate::digit_rows::MOST;
use crate::fault::WriteFault;
use crate::number::{LAST_TICK, LastNumber};
use crate::page::{Page, SHORT, SIZE};
use fb_system::System;
use fb_types::{Form, Key, Value, Variable};
use std::io::Write;

/// Puts a part of a key, and a blank.
fn put_part<W: Write>(page: &mut Page, out: &mut W, part: u128) -> Result<(), WriteFault>
    ensures { Gathers (W.contents out.old) (W.contents out.new) page.old page.new (decimal part ++ codes " ") result }
{
    page.put_number(out, part)?;
    page.put(out, b" ")
}

/// Puts what a line of a form begins with.
pub(crate) fn put_key<W: Write>(
    page: &mut Page,
    out: &mut W,
    form: Form,
    key: &Key,
) -> Result<(), WriteFault>
    ensures { Gathers (W.contents out.old) (W.contents out.new) page.old page.new (key_text form key.now) result }
{
    match form {
        Form::One => Ok(()),
        Form::Two => {
            put_part(page, out, key.class as u128)?;
            put_part(page, out, key.a)?;
            put_part(page, out, key.b)
        }
    }
}

/// Puts a tick and the name of a resource.
pub(crate) fn put_tick_and_resource<W: Write>(
    page: &mut Page,
    out: &mut W,
    system: &System,
    tick: u64,
    resource: u32,
) -> Result<(), WriteFault>
    requires { IsResource system.now resource }
    ensures { Gathers (W.contents out.old) (W.contents out.new) page.old page.new (tick_and_resource_text system.now tick resource) result }
{
    page.put_number(out, tick as u128)?;
    page.put(out, b" ")?;
    page.put(out, system.resource_name(resource as usize))
}

/// The most bytes of the row with the tick and of what is between the texts of a head.
const HEAD: usize = LAST_TICK + SIGN + 1;

/// The length of the sign of an event.
const SIGN: usize = 3;

/// The most bytes of a number with its sign.
pub(crate) const VALUE: usize = 40;

/// The most bytes of a value with what is before and after its name.
const BINDING: usize = VALUE + 2;

/// Puts what is before the path: the sign of an event that was taken, or of one that was emitted. It fits.
#[inline(always)]
fn append_sign(page: &mut Page, taken: bool)
    requires { length page.old.waiting + SIGN ≤ SIZE }
    ensures text { page.new ≡ record page.old { waiting = page.old.waiting ++ (if taken then codes " > " else codes " < ") } }
    ensures length { length page.new.waiting ≡ length page.old.waiting + SIGN }
{
    if taken {
        page.append(b" > ");
    } else {
        page.append(b" < ");
    }
}

/// Puts a head of short texts. It fits.
#[inline(always)]
fn append_head(
    page: &mut Page,
    tick: &LastNumber,
    resource: &[u8],
    taken: bool,
    path: &[u8],
    event: &[u8],
)
    requires { length page.old.waiting + (HEAD + length resource.now + length path.now + length event.now) ≤ SIZE }
    ensures { (a : Option (List ℕ)) → Puts a a page.old page.new
        (decimal tick.now ++ codes " " ++ resource.now ++ (if taken then codes " > " else codes " < ") ++ path.now ++ codes "." ++ event.now) }
{
    let (row, width) = tick.text();
    page.append_front(row, width);
    page.append(resource);
    append_sign(page, taken);
    page.append(path);
    page.append(b".");
    page.append(event);
}

/// Puts a head piece by piece, of any length.
#[inline(never)]
fn put_long_head<W: Write>(
    page: &mut Page,
    out: &mut W,
    tick: &LastNumber,
    resource: &[u8],
    taken: bool,
    path: &[u8],
    event: &[u8],
) -> Result<(), WriteFault>
    ensures { Gathers (W.contents out.old) (W.contents out.new) page.old page.new
        (decimal tick.now ++ codes " " ++ resource.now ++ (if taken then codes " > " else codes " < ") ++ path.now ++ codes "." ++ event.now) result }
{
    let (row, width) = tick.text();
    page.put(out, &row[..width])?;
    page.put(out, resource)?;
    page.make_room(out, SIGN)?;
    append_sign(page, taken);
    page.put(out, path)?;
    page.put(out, b".")?;
    page.put(out, event)
}

/// Puts the head of a line: its tick, the name of a resource, a sign, a path, and the name of an event. If all are
/// short, the page has room for the whole, and no piece checks for room.
#[inline(always)]
pub(crate) fn put_head<W: Write>(
    page: &mut Page,
    out: &mut W,
    tick: &LastNumber,
    resource: &[u8],
    taken: bool,
    path: &[u8],
    event: &[u8],
) -> Result<(), WriteFault>
    ensures { Gathers (W.contents out.old) (W.contents out.new) page.old page.new
        (decimal tick.now ++ codes " " ++ resource.now ++ (if taken then codes " > " else codes " < ") ++ path.now ++ codes "." ++ event.now) result }
{
    if resource.len() > SHORT || path.len() > SHORT || event.len() > SHORT {
        return put_long_head(page, out, tick, resource, taken, path, event);
    }
    page.make_room(out, HEAD + resource.len() + path.len() + event.len())?;
    append_head(page, tick, resource, taken, path, event);
    Ok(())
}

/// Puts a whole number that fits. Most have few digits and no sign.
#[inline(always)]
fn append_whole(page: &mut Page, number: i128)
    requires { length page.old.waiting + VALUE ≤ SIZE }
    ensures text { page.new ≡ record page.old { waiting = page.old.waiting ++ value_text (Value.Whole number) } }
    ensures length { length page.new.waiting ≤ length page.old.waiting + VALUE }
{
    if number >= 0 && number < MOST as i128 {
        return page.append_small(number as usize);
    }
    if number >= 0 && number < 10000 {
        return page.append_four(number as u32);
    }
    if number < 0 {
        page.append_byte(b'-');
    }
    page.append_number(number.unsigned_abs());
}

/// Puts a value that fits.
#[inline(always)]
pub(crate) fn append_value(page: &mut Page, value: Value)
    requires { length page.old.waiting + VALUE ≤ SIZE }
    ensures text { page.new ≡ record page.old { waiting = page.old.waiting ++ value_text value } }
    ensures length { length page.new.waiting ≤ length page.old.waiting + VALUE }
{
    match value {
        Value::Bool(true) => page.append_front(b"TRUE", 4),
        Value::Bool(false) => page.append_front(b"FALSE   ", 5),
        Value::Whole(number) => append_whole(page, number),
    }
}

/// Puts a variable with a short name and its value. They fit.
#[inline(always)]
fn append_binding(page: &mut Page, name: &[u8], value: Value)
    requires { length page.old.waiting + (BINDING + length name.now) ≤ SIZE }
    ensures { (a : Option (List ℕ)) → Puts a a page.old page.new (codes " " ++ name.now ++ codes "=" ++ value_text value) }
{
    page.append(b" ");
    page.append(name);
    page.append(b"=");
    append_value(page, value);
}

/// Puts a variable and its value. The name may have any length.
#[inline(never)]
fn put_long_binding<W: Write>(
    page: &mut Page,
    out: &mut W,
    name: &[u8],
    value: Value,
) -> Result<(), WriteFault>
    ensures { Gathers (W.contents out.old) (W.contents out.new) page.old page.new
        (codes " " ++ name.now ++ codes "=" ++ value_text value) result }
{
    page.put(out, b" ")?;
    page.put(out, name)?;
    page.make_room(out, BINDING)?;
    page.append(b"=");
    append_value(page, value);
    Ok(())
}

/// Puts a variable and its value.
#[inline(always)]
fn put_binding<W: Write>(
    page: &mut Page,
    out: &mut W,
    name: &[u8],
    value: Value,
) -> Result<(), WriteFault>
    ensures { Gathers (W.contents out.old) (W.contents out.new) page.old page.new
        (codes " " ++ name.now ++ codes "=" ++ value_text value) result }
{
    if name.len() > SHORT {
        return put_long_binding(page, out, name, value);
    }
    page.make_room(out, BINDING + name.len())?;
    append_binding(page, name, value);
    Ok(())
}

/// Puts values, each with the name of the variable at its index.
pub(crate) fn put_values<W: Write>(
    page: &mut Page,
    out: &mut W,
    variables: &[Variable],
    indexes: &[u32],
    values: &[Value],
) -> Result<(), WriteFault>
    requires counted { length values.now ≡ length indexes.now }
    requires within { All (λ k. k < length variables.now) indexes.now }
    ensures { Gathers (W.contents out.old) (W.contents out.new) page.old page.new
        (values_text (pair_up (map (variable_at variables.now) indexes.now) values.now)) result }
{
    for (index, value) in indexes.iter().zip(values) {
        let name = variables[*index as usize].name.as_bytes();
        put_binding(page, out, name, *value)?;
    }
    Ok(())
}
