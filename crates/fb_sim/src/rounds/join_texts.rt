//! The marked texts of several lists of lines, joined to one text: tick by tick, those of a tick list by list.

ghost use Rattle.std.specs.Prelude.{◌≡◌, ◌≤◌, ℕ, [], List, drop, length, sum_by, IfOk, OnOk};
ghost use Rattle.std.specs.List.{AllZip};
ghost use Rattle.fb_types.specs.Headline.{Inputs};
ghost use Rattle.fb_types.specs.declared.run.Form.{Form};
ghost use Rattle.fb_types.specs.declared.run.Line.{Line};
ghost use Rattle.fb_trace.specs.Fronts.{tick_at};
ghost use Rattle.fb_trace.specs.Marks.{AreMarked, IsMarkedText};
ghost use Rattle.fb_sim.specs.JoinedTexts.{ArePut, IsCut, IsPassed, IsPut, IsRest, past_at};
ghost use Rattle.fb_sim.specs.MergedText.{IsMergedText};

use crate::rounds::merge_text::lesser;
use fb_trace::{Mark, MarkedText};
use std::alloc::{AllocError, Global};

/// What is left of a marked text.
#[derive(Clone, Copy)]
struct Rest<'a> {
    /// The tick of the first line, if a line is left.
    tick: Option<u64>,
    /// The marks of the runs that are left.
    marks: &'a [Mark],
    /// Their text.
    text: &'a [u8],
    /// How many bytes are before it in the whole text.
    before: usize,
}

/// The tick of the first run, if there is one.
fn first_tick(marks: &[Mark]) -> Option<u64>
    ensures { (i : Inputs) (form : Form) (before : ℕ) (lines : List Line) → AreMarked i form before marks.now lines
        → result ≡ tick_at lines }
{
    match marks.first() {
        Some(mark) => Some(mark.tick),
        None => None,
    }
}

/// How many runs are before the first one past a tick, and where their text ends, if it begins after this many bytes.
fn passed(marks: &[Mark], before: usize, tick: u64) -> (usize, usize)
    ensures within { result.0 ≤ length marks.now }
    ensures passed { (i : Inputs) (form : Form) (lines : List Line) → AreMarked i form before marks.now lines
        → IsPassed i form tick before lines result.1 (drop result.0 marks.now) }
{
    let mut count = 0;
    let mut end = before;
    while count < marks.len() {
        let mark = marks[count];
        if mark.tick > tick {
            return (count, end);
        }
        end = mark.end;
        count += 1;
    }
    (count, end)
}

/// The text of the lines up to a tick, and what is left then.
fn cut<'a>(rest: &Rest<'a>, tick: u64) -> (&'a [u8], Rest<'a>)
    ensures { (i : Inputs) (form : Form) (lines : List Line) → IsRest i form lines rest.now
        → IsCut i form tick lines result.0.now result.1 }
{
    let (count, end) = passed(rest.marks, rest.before, tick);
    let (_, marks) = rest.marks.split_at(count);
    // In a marked text an end is after the ones before it, and within the text.
    let taken = end.saturating_sub(rest.before).min(rest.text.len());
    let (now, later) = rest.text.split_at(taken);
    let left = Rest {
        tick: first_tick(marks),
        marks,
        text: later,
        before: end,
    };
    (now, left)
}

/// Whether all lines are past a tick, by the first one.
fn is_past(rest: &Rest<'_>, tick: u64) -> bool
    ensures { result ≡ past_at tick rest.now.tick }
{
    match rest.tick {
        Some(first) => tick < first,
        None => true,
    }
}

/// Appends the text of the lines up to a tick, and returns the tick of the first line that is left then.
fn put<'a>(text: &mut Vec<u8>, rest: &mut Rest<'a>, tick: u64) -> Result<Option<u64>, AllocError>
    ensures { (i : Inputs) (form : Form) (lines : List Line) → IsRest i form lines rest.old
        → IfOk result (λ next. IsPut i form tick lines text.old.items text.new.items rest.new next) }
{
    if is_past(&*rest, tick) {
        return Ok(rest.tick);
    }
    let (now, later) = cut(&*rest, tick);
    text.extend_from_slice(now)?;
    *rest = later;
    Ok(later.tick)
}

/// Appends the text of the lines of each list up to a tick, and returns the least tick of the lines that are left then.
fn put_all<'a>(
    text: &mut Vec<u8>,
    rests: &mut Vec<Rest<'a>>,
    tick: u64,
) -> Result<Option<u64>, AllocError>
    ensures { (i : Inputs) (form : Form) (lists : List (List Line)) → AllZip (IsRest i form) lists rests.old.items
        → IfOk result (λ next. ArePut i form tick lists text.old.items text.new.items rests.new.items next) }
{
    let mut next = None;
    for index in 0..rests.len() {
        let first = put(text, &mut rests[index], tick)?;
        next = lesser(next, first);
    }
    Ok(next)
}

/// A whole marked text.
fn whole<'a>(text: &'a MarkedText) -> Rest<'a>
    ensures { (i : Inputs) (form : Form) (lines : List Line) → IsMarkedText i form lines text.now
        → IsRest i form lines result }
{
    let marks = text.marks.as_slice();
    Rest {
        tick: first_tick(marks),
        marks,
        text: text.text.as_slice(),
        before: 0,
    }
}

/// All marked texts, each whole.
fn all_whole<'a>(alloc: Global, texts: &'a [MarkedText]) -> Result<Vec<Rest<'a>>, AllocError>
    ensures { (i : Inputs) (form : Form) (lists : List (List Line)) → AllZip (IsMarkedText i form) lists texts.now
        → IfOk result (λ v. AllZip (IsRest i form) lists v.items) }
{
    let mut rests = Vec::with_capacity(alloc, texts.len())?;
    for text in texts {
        rests.push_reserved(whole(text));
    }
    Ok(rests)
}

/// How many lines the texts are of.
fn count_lines(texts: &[MarkedText]) -> u128
    ensures { result ≡ sum_by (λ t. t.lines) texts.now }
{
    let mut count: u128 = 0;
    for text in texts {
        count += text.lines as u128;
    }
    count
}

/// How many bytes the texts have, up to the greatest `usize`.
fn count_bytes(texts: &[MarkedText]) -> usize {
    let mut count: usize = 0;
    for text in texts {
        count = count.saturating_add(text.text.len());
    }
    count
}

/// Joins marked texts, of which all is left, where there is no text yet.
fn join_all<'a>(
    texts: &[MarkedText],
    rests: &mut Vec<Rest<'a>>,
    text: &mut Vec<u8>,
) -> Result<(), AllocError>
    requires { text.old.items ≡ [] }
    ensures { (i : Inputs) (form : Form) (lists : List (List Line)) → AllZip (IsMarkedText i form) lists texts.now → AllZip (IsRest i form) lists rests.old.items
        → OnOk result (IsMergedText i form lists text.new.items) }
{
    text.reserve(count_bytes(texts))?;
    // Each turn takes a line at least, if there is one at its tick.
    let mut turns = count_lines(texts);
    let mut next = put_all(text, rests, 0)?;
    while let Some(tick) = next {
        if turns == 0 {
            return Ok(());
        }
        turns -= 1;
        next = put_all(text, rests, tick)?;
    }
    Ok(())
}

/// The text of all lines, tick by tick, those of a tick list by list: joined from the marked text of each list.
///
/// # Errors
/// When memory runs out.
pub(crate) fn joined_text(alloc: Global, texts: &[MarkedText]) -> Result<Vec<u8>, AllocError>
    ensures { (i : Inputs) (form : Form) (lists : List (List Line)) → AllZip (IsMarkedText i form) lists texts.now
        → IfOk result (λ v. IsMergedText i form lists v.items) }
{
    let mut rests = all_whole(alloc, texts)?;
    let mut text = Vec::new(alloc);
    join_all(texts, &mut rests, &mut text)?;
    Ok(text)
}
