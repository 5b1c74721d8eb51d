//! The text of lines that lie in several lists, in the order of the trace. The lines stay where they are.

ghost use Rattle.std.specs.Prelude.{◌≡◌, ◌++◌, ◌<◌, ◌≤◌, drop, length, map, nat_lt, take, All, IfOk, OnOk};
ghost use Rattle.fb_types.specs.Machines.{Each};
ghost use Rattle.fb_types.specs.OfSystem.{line_of, lines_text};
ghost use Rattle.fb_system.specs.OfSystem.{BelongsTo};
ghost use Rattle.fb_trace.specs.Fronts as fronts;
ghost use Rattle.fb_trace.specs.Fronts.{IsLeast, all_early, all_late, early, joint, late, tick_at};
ghost use Rattle.fb_trace.specs.Merging.{Rises, tick_of};
ghost use Rattle.fb_sim.specs.MergedText.{AreDivided, IsMergedText, until};

use fb_system::System;
use fb_trace::write_parts;
use fb_types::{Form, Line};
use std::alloc::{AllocError, Global};

/// Each list as a slice.
///
/// # Errors
/// When memory runs out.
pub(crate) fn slices<'a>(
    alloc: Global,
    lists: &'a [Vec<Line>],
) -> Result<Vec<&'a [Line]>, AllocError>
    ensures { IfOk result (λ v. map (λ q. q.now) v.items ≡ map (λ q. q.items) lists.now) }
{
    let mut slices = Vec::with_capacity(alloc, lists.len())?;
    for list in lists {
        slices.push_reserved(list.as_slice());
    }
    Ok(slices)
}

/// The tick of the first line, if there is one.
fn first_tick(list: &[Line]) -> Option<u64>
    ensures { result ≡ tick_at list.now }
{
    match list.first() {
        Some(line) => Some(line.key.tick),
        None => None,
    }
}

/// The least tick of all first lines, if there is a line.
fn least_tick(lists: &[&[Line]]) -> Option<u64>
    ensures { IsLeast (map (λ q. q.now) lists.now) result }
{
    let mut least = None;
    for list in lists {
        least = lesser(least, first_tick(*list));
    }
    least
}

/// The lesser of two ticks, or the one that is there.
pub(crate) fn lesser(one: Option<u64>, other: Option<u64>) -> Option<u64>
    ensures { result ≡ fronts.lesser one other }
{
    match (one, other) {
        (Some(a), Some(b)) => { if b < a { Some(b) } else { Some(a) } }
        (one, None) => one,
        (None, other) => other,
    }
}

/// How many lines are before the first one past a tick.
fn early_count(list: &[Line], tick: u64) -> usize
    ensures within { result ≤ length list.now }
    ensures early { take result list.now ≡ early tick list.now }
    ensures late { drop result list.now ≡ late tick list.now }
{
    let mut count = 0;
    while count < list.len() {
        if list[count].key.tick > tick {
            return count;
        }
        count += 1;
    }
    count
}

/// Puts lines after the others that are taken, unless there are none.
fn add<'a>(parts: &mut Vec<&'a [Line]>, part: &'a [Line]) -> Result<(), AllocError>
    ensures { OnOk result (joint (map (λ q. q.now) parts.new.items) ≡ joint (map (λ q. q.now) parts.old.items) ++ part.now) }
{
    if part.is_empty() {
        return Ok(());
    }
    parts.push(part)?;
    Ok(())
}

/// Takes the lines up to a tick of each list in turn, and returns the lists that have lines left.
fn take_early<'a>(
    alloc: Global,
    parts: &mut Vec<&'a [Line]>,
    lists: &[&'a [Line]],
    tick: u64,
) -> Result<Vec<&'a [Line]>, AllocError>
    ensures parts { OnOk result (joint (map (λ q. q.now) parts.new.items) ≡ joint (map (λ q. q.now) parts.old.items) ++ all_early tick (map (λ q. q.now) lists.now)) }
    ensures left { IfOk result (λ v. map (λ q. q.now) v.items ≡ all_late tick (map (λ q. q.now) lists.now)) }
{
    let mut left = Vec::with_capacity(alloc, lists.len())?;
    for list in lists {
        let (now, later) = list.split_at(early_count(*list, tick));
        add(parts, now)?;
        if !later.is_empty() {
            left.push_reserved(later);
        }
    }
    Ok(left)
}

/// Appends the text of the lines of parts.
fn append_parts(
    text: &mut Vec<u8>,
    system: &System,
    form: Form,
    parts: &[&[Line]],
) -> Result<(), AllocError>
    requires { All (λ q. All (BelongsTo system.now) q.now) parts.now }
    ensures { OnOk result (text.new.items ≡ text.old.items ++ lines_text form system.now (map (line_of system.now) (joint (map (λ q. q.now) parts.now)))) }
{
    match write_parts(text, system, form, parts) {
        Ok(()) => Ok(()),
        // A writer into memory fails for memory alone.
        Err(_) => Err(AllocError),
    }
}

/// A line mostly has no more bytes.
const LINE_ROOM: usize = 48;

/// This many lines are sorted before their text is made; a processor's cache holds them then.
const AT_ONCE: usize = 2048;

/// How many lines are in the lists, up to the greatest `usize`.
fn count_in(lists: &[&[Line]]) -> usize {
    let mut count: usize = 0;
    for list in lists {
        count = count.saturating_add(list.len());
    }
    count
}

/// The text of the lines of all lists, tick by tick, those of a tick list by list.
///
/// # Errors
/// When memory runs out.
pub(crate) fn merged_text(
    alloc: Global,
    system: &System,
    form: Form,
    lists: &[&[Line]],
) -> Result<Vec<u8>, AllocError>
    requires { All (λ q. All (BelongsTo system.now) q.now) lists.now }
    ensures { IfOk result (λ v. IsMergedText system.now form (map (λ q. q.now) lists.now) v.items) }
{
    let mut to_put = count_in(lists);
    // A text that grows would be copied.
    let mut text = Vec::with_capacity(alloc, to_put.saturating_mul(LINE_ROOM))?;
    let mut parts = Vec::new(alloc);
    let mut left = Vec::from_slice(alloc, lists)?;
    let mut next = least_tick(&left);
    while let Some(tick) = next {
        left = take_early(alloc, &mut parts, &left, tick)?;
        next = least_tick(&left);
        let to_take = count_in(&left);
        if to_put.saturating_sub(to_take) >= AT_ONCE {
            append_parts(&mut text, system, form, &parts)?;
            parts.clear();
            to_put = to_take;
        }
    }
    append_parts(&mut text, system, form, &parts)?;
    Ok(text)
}

/// A position in the order of lines: before it are the lines before the tick, and those at the tick of the lists
/// before the list.
#[derive(Clone, Copy)]
pub(crate) struct Cut {
    tick: u64,
    list: usize,
}

/// The longest list.
fn longest<'a>(lists: &[&'a [Line]]) -> &'a [Line] {
    let mut longest: &'a [Line] = &[];
    for list in lists {
        if list.len() > longest.len() {
            longest = *list;
        }
    }
    longest
}

/// A cut before which some of a number of equal parts of all lines are, if each list is like the longest.
fn cut_at(lists: &[&[Line]], some: usize, parts: usize) -> Cut {
    let list = longest(lists);
    let index = list.len().saturating_mul(some) / parts.max(1);
    match list.get(index) {
        Some(line) => {
            let tick = line.key.tick;
            let start = count_before(list, 0, &Cut { tick, list: 0 });
            let end = count_before(list, 0, &Cut { tick, list: 1 });
            let before = index.saturating_sub(start);
            let all = end.saturating_sub(start).max(1);
            Cut {
                tick,
                list: lists.len().saturating_mul(before) / all,
            }
        }
        None => Cut { tick: 0, list: 0 },
    }
}

impl Cut {
    /// Whether a line of the list at an index, at a tick, is before it.
    fn is_after(&self, index: usize, tick: u64) -> bool
        ensures { result ≡ nat_lt tick (until self.now index) }
    {
        if index < self.list {
            tick <= self.tick
        } else {
            tick < self.tick
        }
    }
}

/// How many lines of the list at an index are before a cut, if its ticks do not fall.
fn count_before(list: &[Line], index: usize, cut: &Cut) -> usize
    ensures within { result ≤ length list.now }
    ensures before { Rises tick_of list.now → Each (λ x. tick_of x < until cut.now index) (take result list.now) }
    ensures from { Rises tick_of list.now → Each (λ x. until cut.now index ≤ tick_of x) (drop result list.now) }
{
    list.partition_point(|line| cut.is_after(index, line.key.tick))
}

/// Each list in two parts, so that all lines of the first parts come before those of the last ones. The first parts
/// have some of a number of equal parts of all lines, if each list is like the longest.
///
/// # Errors
/// When memory runs out.
pub(crate) fn divide<'a>(
    alloc: Global,
    lists: &[&'a [Line]],
    some: usize,
    parts: usize,
) -> Result<(Vec<&'a [Line]>, Vec<&'a [Line]>), AllocError>
    ensures { IfOk result (λ r. AreDivided (map (λ q. q.now) lists.now) (map (λ q. q.now) r.0.items) (map (λ q. q.now) r.1.items)) }
{
    let cut = cut_at(lists, some, parts);
    let mut firsts = Vec::with_capacity(alloc, lists.len())?;
    let mut lasts = Vec::with_capacity(alloc, lists.len())?;
    for list in lists {
        let count = count_before(*list, firsts.len(), &cut);
        let (first, last) = list.split_at(count);
        firsts.push_reserved(first);
        lasts.push_reserved(last);
    }
    Ok((firsts, lasts))
}
