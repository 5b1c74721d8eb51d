//! The lines of a round as text, which several threads make if there are many.

ghost use Rattle.std.specs.Prelude.{◌≡◌, ◌++◌, ◌≤◌, map, length, All, IfErr, IfOk, IsOkAnd};
ghost use Rattle.std.specs.Io.KnownBytes.{Appends};
ghost use Rattle.fb_system.specs.OfSystem.{BelongsTo};
ghost use denote.Param.Send.{IsSync};
ghost use Rattle.fb_trace.specs.Progress.{bounded};
ghost use Rattle.fb_sim.specs.Rounds.{WritesPartOf};
ghost use Rattle.fb_sim.specs.MergedText.{IsMergedText, all_bytes};

use crate::outcome::RunError;
use crate::rounds::all_rounds::with_written;
use crate::rounds::merge_text::{divide, merged_text, slices};
use fb_system::System;
use fb_trace::write_front;
use fb_types::{Form, Line};
use std::alloc::{AllocError, Global};
use std::io::Write;
use std::thread;
use std::thread::Threads;

/// Texts with one more after them, where memory did not run out.
pub(crate) fn with_last(
    texts: Result<Vec<Vec<u8>>, AllocError>,
    last: Result<Vec<u8>, AllocError>,
) -> Result<Vec<Vec<u8>>, AllocError>
    ensures { IfOk result (λ v. IsOkAnd texts (λ ts. IsOkAnd last (λ t. all_bytes v.items ≡ all_bytes ts.items ++ t.items))) }
{
    let mut texts = texts?;
    let last = last?;
    texts.push(last)?;
    Ok(texts)
}

/// The text of the lines of lists in parts, each of which one of this many threads makes, several.
#[cycle(parts)]
fn parts_by<R: Threads + Sync>(
    rt: &R,
    alloc: Global,
    system: &System,
    form: Form,
    lists: &[&[Line]],
    threads: usize,
) -> Result<Vec<Vec<u8>>, AllocError>
    requires belong { All (λ q. All (BelongsTo system.now) q.now) lists.now }
    requires several { 2 ≤ threads }
    ensures { IfOk result (λ v. IsMergedText system.now form (map (λ q. q.now) lists.now) (all_bytes v.items)) }
{
    let fewer = threads - 1;
    let (firsts, lasts) = divide(alloc, lists, fewer, threads)?;
    let front_lists = firsts.as_slice();
    let back_lists = lasts.as_slice();
    let back = move || -> Result<Vec<u8>, AllocError>
        requires { All (λ q. All (BelongsTo system.now) q.now) back_lists.now }
        ensures { IfOk result (λ v. IsMergedText system.entry.now form (map (λ q. q.now) back_lists.entry.now) v.items) }
    { merged_text(alloc, system, form, back_lists) };
    let front = move || -> Result<Vec<Vec<u8>>, AllocError>
        requires { IsSync R.row × All (λ q. All (BelongsTo system.now) q.now) front_lists.now }
        ensures { IfOk result (λ v. IsMergedText system.entry.now form (map (λ q. q.now) front_lists.entry.now) (all_bytes v.items)) }
    { texts_by(rt, alloc, system, form, front_lists, fewer) };
    // The first closure gets a thread, and the second one runs here: so this thread starts all others. One that starts a
    // thread and works on often keeps it waiting for its own processor.
    let (last, texts) = thread::join(rt, back, front);
    with_last(texts, last)
}

/// The text of the lines of lists in parts, one after another, each of which one of this many threads makes.
#[cycle(parts)]
fn texts_by<R: Threads + Sync>(
    rt: &R,
    alloc: Global,
    system: &System,
    form: Form,
    lists: &[&[Line]],
    threads: usize,
) -> Result<Vec<Vec<u8>>, AllocError>
    requires { All (λ q. All (BelongsTo system.now) q.now) lists.now }
    ensures { IfOk result (λ v. IsMergedText system.now form (map (λ q. q.now) lists.now) (all_bytes v.items)) }
{
    if threads < 2 {
        let text = merged_text(alloc, system, form, lists);
        return with_last(Ok(Vec::new(alloc)), text);
    }
    parts_by(rt, alloc, system, form, lists, threads)
}

/// Writes a text, and answers how many bytes it has.
fn write_text<W: Write>(out: &mut W, text: &[u8]) -> Result<u128, RunError>
    ensures whole { IfOk result (λ n. Appends (W.contents out.old) (W.contents out.new) text.now × (n ≡ bounded (length text.now))) }
    ensures part { IfErr result (WritesPartOf (W.contents out.old) (W.contents out.new) text.now) }
{
    let count = write_front(out, text);
    if count < text.len() {
        return Err(RunError::Write(count as u128));
    }
    Ok(count as u128)
}

/// Writes texts, one after another, and answers how many bytes they have.
pub(crate) fn write_texts<W: Write>(out: &mut W, texts: &[Vec<u8>]) -> Result<u128, RunError>
    ensures whole { IfOk result (λ n. Appends (W.contents out.old) (W.contents out.new) (all_bytes texts.now) × (n ≡ bounded (length (all_bytes texts.now)))) }
    ensures part { IfErr result (WritesPartOf (W.contents out.old) (W.contents out.new) (all_bytes texts.now)) }
{
    let mut written: u128 = 0;
    for text in texts {
        match write_text(out, text.as_slice()) {
            Ok(count) => written = written.saturating_add(count),
            Err(error) => return Err(with_written(written, error)),
        }
    }
    Ok(written)
}

/// The text of lines in parts, one after another, each of which one of this many threads makes.
pub(crate) fn texts_of<R: Threads + Sync>(
    rt: &R,
    alloc: Global,
    system: &System,
    form: Form,
    lists: &[Vec<Line>],
    threads: usize,
) -> Result<Vec<Vec<u8>>, AllocError>
    requires { All (λ p. All (BelongsTo system.now) p.items) lists.now }
    ensures { IfOk result (λ v. IsMergedText system.now form (map (λ p. p.items) lists.now) (all_bytes v.items)) }
{
    let whole = slices(alloc, lists)?;
    texts_by(rt, alloc, system, form, whole.as_slice(), threads)
}
