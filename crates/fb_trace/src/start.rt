//! Lines whose head is kept: the tick, the head, and the first value.

ghost use Rattle.std.specs.Prelude.{◌≡◌, ◌<◌, ◌≤◌, ◌+◌, [], ◌∷◌, ◌++◌, codes, decimal, length, take, IfSome};
ghost use Rattle.fb_types.specs.Text.{value_text};
ghost use Rattle.fb_trace.specs.Starts.{first_value};

use crate::digit_rows::MOST;
use crate::number::{LAST_TICK, LastNumber};
use crate::page::{Page, SIZE};
use crate::pieces::{VALUE, append_value};
use fb_system::{Head, ROW};
use fb_types::Value;
use std::slice::from_ref;

/// The most bytes of the rows of a tick and of a head, and a value.
pub(crate) const START: usize = LAST_TICK + ROW + VALUE;

/// Puts the first value, if there is one. It fits.
#[inline(always)]
fn append_first(page: &mut Page, values: &[Value])
    requires { length page.old.waiting + VALUE ≤ SIZE }
    ensures text { page.new ≡ record page.old { waiting = page.old.waiting ++ first_value values.now } }
    ensures length { length page.new.waiting ≤ length page.old.waiting + VALUE }
{
    match values.first() {
        Some(value) => append_value(page, *value),
        None => (),
    }
}

/// Puts a line without values. It fits.
#[inline(always)]
pub(crate) fn append_bare(page: &mut Page, tick: &LastNumber, head: &Head)
    requires within { head.now.width ≤ ROW }
    requires room { length page.old.waiting + START ≤ SIZE }
    ensures { page.new ≡ record page.old {
      waiting = page.old.waiting ++ (decimal tick.now ++ codes " " ++ take head.now.width head.now.text ++ 10 ∷ []);
    } }
{
    let (row, width) = tick.text();
    page.append_fronts(row, width, &head.text, head.width as usize, b'\n');
}

/// Puts the start of a line with these values. It fits.
#[inline(always)]
pub(crate) fn append_start(page: &mut Page, tick: &LastNumber, head: &Head, values: &[Value])
    requires within { head.now.width ≤ ROW }
    requires room { length page.old.waiting + START ≤ SIZE }
    ensures text { page.new ≡ record page.old {
      waiting = page.old.waiting
          ++ (decimal tick.now ++ codes " " ++ take head.now.width head.now.text ++ first_value values.now);
    } }
    ensures length { length page.new.waiting ≤ length page.old.waiting + START }
{
    let (row, width) = tick.text();
    page.append_both(row, width, &head.text, head.width as usize);
    append_first(page, values);
}

/// The number that a value is, if it is so small that its digits are a row.
#[inline(always)]
fn small_number(value: &Value) -> Option<usize>
    ensures small { IfSome result (λ n. n < MOST) }
    ensures text { IfSome result (λ n. value_text value.now ≡ decimal n) }
{
    let Value::Whole(number) = value else {
        return None;
    };
    if *number >= 0 && *number < MOST as i128 {
        return Some(*number as usize);
    }
    None
}

/// Puts a line with one value, which is a small number. It fits.
#[inline(always)]
fn append_with_number(page: &mut Page, tick: &LastNumber, head: &Head, number: usize)
    requires within { head.now.width ≤ ROW }
    requires number { number < MOST }
    requires room { length page.old.waiting + START + 1 ≤ SIZE }
    ensures { page.new ≡ record page.old {
      waiting = page.old.waiting
          ++ (decimal tick.now ++ codes " " ++ take head.now.width head.now.text ++ decimal number ++ 10 ∷ []);
    } }
{
    // The digits are looked up first. After that nothing is called, and the number of bytes is stored once.
    let digits = page.digits_of(number);
    let (row, width) = tick.text();
    page.append_both(row, width, &head.text, head.width as usize);
    page.append_front(&digits.text, digits.width as usize);
    page.append_byte(b'\n');
}

/// Puts a line with one value. It fits. Most values are small numbers.
#[inline(always)]
pub(crate) fn append_with_one(page: &mut Page, tick: &LastNumber, head: &Head, value: &Value)
    requires within { head.now.width ≤ ROW }
    requires room { length page.old.waiting + START + 1 ≤ SIZE }
    ensures { page.new ≡ record page.old {
      waiting = page.old.waiting
          ++ (decimal tick.now ++ codes " " ++ take head.now.width head.now.text ++ value_text value.now ++ 10 ∷ []);
    } }
{
    if let Some(number) = small_number(value) {
        return append_with_number(page, tick, head, number);
    }
    append_start(page, tick, head, from_ref(value));
    page.append_byte(b'\n');
}
