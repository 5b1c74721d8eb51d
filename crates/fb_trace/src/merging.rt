//! Merges the lines of several resources into one list.

ghost use Rattle.std.specs.Prelude.{◌≡◌, ◌++◌, [], ◌∷◌, IfNone, IfOk, IfSome, OnOk, map};
ghost use Rattle.std.specs.List.Sorted.{IsPermutation};
ghost use Rattle.fb_trace.specs.Merging.{AreMerged, AreRising, flat};
ghost use Rattle.fb_trace.specs.Fronts as fronts;
ghost use Rattle.fb_trace.specs.Fronts.{IsLeast, all_early, all_late, early, late, present, tick_at};

use fb_types::Line;
use std::alloc::{AllocError, Global};
use std::collections::VecDeque;

/// With fewer lines than this, sorting is faster, since the merge looks at each list in each tick.
const FEW: usize = 4096;

/// All lines, one list after another. The first lines stay in their own list.
#[tactic(auto, using(crate::proofs::lemmas::order::StableSort::flat_snoc))]
fn joined(alloc: Global, lists: Vec<Vec<Line>>) -> Result<Vec<Line>, AllocError>
    ensures { IfOk result (λ v. v.items ≡ flat lists.items) }
{
    let mut all = Vec::new(alloc);
    for mut list in lists {
        if all.is_empty() {
            all = list;
        } else {
            all.append(&mut list)?;
        }
    }
    Ok(all)
}

/// Merges by a stable sort.
fn sorted(alloc: Global, lists: Vec<Vec<Line>>) -> Result<Vec<Line>, AllocError>
    ensures merged { IfOk result (λ all. AreRising lists.items → AreMerged lists.items all.items) }
    ensures kept { IfOk result (λ all. IsPermutation (flat lists.items) all.items) }
{
    let mut all = joined(alloc, lists)?;
    all.sort_by_key(|line| line.key.tick)?;
    Ok(all)
}

/// The tick of the first line, if there is one.
fn first_tick(list: &VecDeque<Line>) -> Option<u64>
    ensures { result ≡ tick_at list.now.items }
{
    match list.front() {
        Some(line) => Some(line.key.tick),
        None => None,
    }
}

/// The lesser of two ticks, or the one that is there.
fn lesser(one: Option<u64>, other: Option<u64>) -> Option<u64>
    ensures { result ≡ fronts.lesser one other }
{
    match (one, other) {
        (Some(a), Some(b)) => { if b < a { Some(b) } else { Some(a) } }
        (one, None) => one,
        (None, other) => other,
    }
}

/// The least tick of all first lines, if there is a line.
fn least_tick(lists: &[VecDeque<Line>]) -> Option<u64>
    ensures { IsLeast (map (λ q. q.items) lists.now) result }
{
    let mut least = None;
    for list in lists {
        least = lesser(least, first_tick(list));
    }
    least
}

/// The lists that have lines, in their order.
fn queues(alloc: Global, lists: Vec<Vec<Line>>) -> Result<Vec<VecDeque<Line>>, AllocError>
    ensures { IfOk result (λ v. map (λ q. q.items) v.items ≡ present (map (λ q. q.items) lists.items)) }
{
    let mut queues = Vec::new(alloc);
    for list in lists {
        if !list.is_empty() {
            queues.push(VecDeque::from_vec(list))?;
        }
    }
    Ok(queues)
}

/// Moves the lines before the first one past a tick to the end of a list.
fn take_early(list: &mut VecDeque<Line>, tick: u64, all: &mut Vec<Line>) -> Result<(), AllocError>
    ensures taken { OnOk result (all.new.items ≡ all.old.items ++ early tick list.old.items) }
    ensures left { OnOk result (list.new.items ≡ late tick list.old.items) }
{
    while let Some(first) = first_tick(list) {
        if first > tick {
            return Ok(());
        }
        let Some(line) = list.pop_front() else {
            return Ok(());
        };
        all.push(line)?;
    }
    Ok(())
}

/// Moves the lines up to a tick from each list in turn to the end of one list, and returns the lists that have lines
/// left.
fn take_all_early(
    alloc: Global,
    lists: Vec<VecDeque<Line>>,
    tick: u64,
    all: &mut Vec<Line>,
) -> Result<Vec<VecDeque<Line>>, AllocError>
    ensures taken { OnOk result (all.new.items ≡ all.old.items ++ all_early tick (map (λ q. q.items) lists.items)) }
    ensures left { IfOk result (λ v. map (λ q. q.items) v.items ≡ all_late tick (map (λ q. q.items) lists.items)) }
{
    let mut left = Vec::with_capacity(alloc, lists.len())?;
    for mut list in lists {
        take_early(&mut list, tick, all)?;
        if !list.is_empty() {
            left.push(list)?;
        }
    }
    Ok(left)
}

/// The lines of the only list, if there is no other.
fn lone(lists: &mut Vec<VecDeque<Line>>) -> Option<Vec<Line>>
    ensures one { IfSome result (λ v. map (λ q. q.items) lists.old.items ≡ v.items ∷ []) }
    ensures more { IfNone result (lists.new.items ≡ lists.old.items) }
{
    if lists.len() != 1 {
        return None;
    }
    match lists.pop() {
        Some(only) => Some(only.into_vec()),
        None => None,
    }
}

/// Merges tick by tick: each line is moved once, and none if only one list has lines.
fn gathered(alloc: Global, lists: Vec<Vec<Line>>, count: usize) -> Result<Vec<Line>, AllocError>
    ensures merged { IfOk result (λ all. AreRising lists.items → AreMerged lists.items all.items) }
    ensures kept { IfOk result (λ all. IsPermutation (flat lists.items) all.items) }
{
    let mut left = queues(alloc, lists)?;
    if let Some(only) = lone(&mut left) {
        return Ok(only);
    }
    let mut all = Vec::with_capacity(alloc, count)?;
    let mut next = least_tick(&left);
    while let Some(tick) = next {
        left = take_all_early(alloc, left, tick, &mut all)?;
        next = least_tick(&left);
    }
    Ok(all)
}

/// The number of lines.
fn count_in(lists: &[Vec<Line>]) -> usize {
    let mut count: usize = 0;
    for list in lists {
        count = count.saturating_add(list.len());
    }
    count
}

/// The lines of several resources by tick, then resource, those of one resource in their own order. This order holds if
/// the list at each index has only lines of that resource, with ticks that do not fall. In any case all lines are in the
/// result.
///
/// # Errors
/// When memory runs out.
pub fn merge(alloc: Global, lists: Vec<Vec<Line>>) -> Result<Vec<Line>, AllocError>
    ensures merged { IfOk result (λ all. AreRising lists.items → AreMerged lists.items all.items) }
    ensures kept { IfOk result (λ all. IsPermutation (flat lists.items) all.items) }
{
    let count = count_in(&lists);
    if count < FEW {
        sorted(alloc, lists)
    } else {
        gathered(alloc, lists, count)
    }
}
