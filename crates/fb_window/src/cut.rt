//! Lines, cut where they are final.

ghost use Rattle.std.specs.Prelude.{◌≡◌, ◌≤◌, nat_lt, true, false, length, [], IfOk, OnOk};
ghost use Rattle.std.specs.List.Sorted.{IsPartitionPoint};
ghost use Rattle.fb_trace.specs.Merging.{Rises, tick_of};
ghost use Rattle.fb_laws.specs.Finality.{until};
ghost use Rattle.fb_window.specs.Frontiers.{AreCut, IsSplit, edge_of};

use crate::frontier::Frontier;
use fb_types::Line;
use std::alloc::{AllocError, Global};

/// How many lines of a resource are final, where their ticks do not fall. Mostly all are: so the last one is looked at
/// first.
fn final_count(lines: &[Line], resource: usize, frontier: &Frontier) -> usize
    ensures within { result ≤ length lines.now }
    ensures point { Rises tick_of lines.now → let tick = until (edge_of frontier.now) resource in
        IsPartitionPoint (λ x. nat_lt x.key.tick tick ≡ true) (λ x. nat_lt x.key.tick tick ≡ false) lines.now result }
{
    let count = lines.len();
    if count > 0 {
        if frontier.is_past(resource, lines[count - 1].key.tick) {
            return count;
        }
    }
    lines.partition_point(|line| frontier.is_past(resource, line.key.tick))
}

/// The lines of a resource that are final, and the others. Where there are only the one or the other, none is moved.
fn cut(
    alloc: Global,
    mut lines: Vec<Line>,
    resource: usize,
    frontier: &Frontier,
) -> Result<(Vec<Line>, Vec<Line>), AllocError>
    ensures { IfOk result (λ p. IsSplit (until (edge_of frontier.now) resource) lines.items p.0.items p.1.items) }
{
    let count = final_count(&lines, resource, frontier);
    if count == 0 {
        return Ok((Vec::new(alloc), lines));
    }
    if count == lines.len() {
        return Ok((lines, Vec::new(alloc)));
    }
    let rest = lines.split_off(count)?;
    Ok((lines, rest))
}

/// Puts what is final of each list of lines after the fronts, and the others after the rests. These are lent here, so
/// that no exit of the loop drops them.
fn cut_each(
    alloc: Global,
    lists: Vec<Vec<Line>>,
    frontier: &Frontier,
    fronts: &mut Vec<Vec<Line>>,
    rests: &mut Vec<Vec<Line>>,
) -> Result<(), AllocError>
    requires no_fronts { fronts.old.items ≡ [] }
    requires no_rests { rests.old.items ≡ [] }
    ensures { OnOk result (AreCut (edge_of frontier.now) lists.items fronts.new.items rests.new.items) }
{
    for lines in lists {
        let (front, rest) = cut(alloc, lines, fronts.len(), frontier)?;
        fronts.push(front)?;
        rests.push(rest)?;
    }
    Ok(())
}

/// For each resource its lines that are final, and for each its others.
///
/// # Errors
/// When memory runs out.
pub(crate) fn cut_all(
    alloc: Global,
    lists: Vec<Vec<Line>>,
    frontier: &Frontier,
) -> Result<(Vec<Vec<Line>>, Vec<Vec<Line>>), AllocError>
    ensures { IfOk result (λ p. AreCut (edge_of frontier.now) lists.items p.0.items p.1.items) }
{
    let mut fronts = Vec::new(alloc);
    let mut rests = Vec::new(alloc);
    cut_each(alloc, lists, frontier, &mut fronts, &mut rests)?;
    Ok((fronts, rests))
}
