//! Reports how two lines differ.

ghost use Rattle.std.specs.Prelude.{◌≡◌, IfNone, IfOk, IfSome};
ghost use Rattle.std.specs.Str.{bytes_eq};
ghost use Rattle.fb_expect.specs.DifferenceReport as spec;
ghost use Rattle.fb_expect.specs.DifferenceReport.{IsKind, ShowsDifference};
ghost use Rattle.fb_expect.specs.Events.{Event, IsLine};
ghost use Rattle.fb_types.specs.declared.run.Form.{Form as FormModel};

use crate::ending::read_end;
use crate::entry::Entry;
use crate::event::read_entry;
use crate::parting::Difference;
use crate::tap::{digits_of, join};
use crate::words::before;
use fb_types::Form;
use std::alloc::{AllocError, Global};

/// The kind of a line of a text.
#[derive(Clone, Copy)]
pub(crate) enum LineKind<'a> {
    Event(Entry<'a>),
    /// A last line, of this tick.
    Last(u64),
    /// No line: the text ends before it.
    Missing,
    /// A line that no trace has.
    Other,
}

fn kind_of(line: &[u8]) -> LineKind<'_>
    ensures { IsKind line.now result }
{
    if line.is_empty() {
        return LineKind::Missing;
    }
    match read_end(line) {
        Some(end) => LineKind::Last(end.tick()),
        None => match entry_in(line) {
            Some(entry) => LineKind::Event(entry),
            None => LineKind::Other,
        },
    }
}

/// The entry whose text this is, in either form.
fn entry_in(line: &[u8]) -> Option<Entry<'_>>
    ensures some { IfSome result (λ e. IsKind line.now (LineKind.Event e)) }
    ensures none { IfNone result ((form : FormModel) (e : Event) → IsLine form line.now e → ⊥) }
{
    match read_entry(Form::One, line) {
        Some(entry) => Some(entry),
        None => read_entry(Form::Two, line),
    }
}

fn is_same(left: &[u8], right: &[u8]) -> bool
    ensures { result ≡ bytes_eq left.now right.now }
{
    left == right
}

/// The word, unless two parts are the same.
fn word_unless(same: bool, word: &'static [u8]) -> &'static [u8]
    ensures { result.now ≡ spec.word_unless same word.entry.now }
{
    if same { b"" } else { word }
}

/// The parts in which two events differ, each after a comma and a blank: their ticks, resources, ports and values.
#[tactic(auto, unfolding(crate::specs::DifferenceReport::parts))]
fn parts(
    alloc: Global,
    is_without_ticks: bool,
    left: &Entry<'_>,
    right: &Entry<'_>,
) -> Result<Vec<u8>, AllocError>
    ensures { IfOk result (λ t. t.items ≡ spec.parts is_without_ticks left.now right.now) }
{
    let is_same_port = is_same(left.port, right.port) && left.taken == right.taken;
    join(
        alloc,
        &[
            word_unless(is_without_ticks || left.tick == right.tick, b", tick"),
            word_unless(is_same(left.resource, right.resource), b", resource"),
            word_unless(is_same_port, b", port"),
            word_unless(is_same(left.values, right.values), b", value"),
        ],
    )
}

/// The parts without the first comma. If there are none, the key differs.
fn listed(alloc: Global, parts: &[u8]) -> Result<Vec<u8>, AllocError>
    ensures { IfOk result (λ t. t.items ≡ spec.listed parts.now) }
{
    if parts.len() < 2 {
        return join(alloc, &[b"key"]);
    }
    join(alloc, &[&parts[2..]])
}

/// What differs in two last lines.
fn last_part(is_without_ticks: bool, left: u64, right: u64) -> &'static [u8]
    ensures { result.now ≡ spec.last_part is_without_ticks left right }
{
    if is_without_ticks || left == right {
        b"end"
    } else {
        b"tick"
    }
}

/// What differs in two lines.
fn difference_of(
    alloc: Global,
    is_without_ticks: bool,
    left: &LineKind<'_>,
    right: &LineKind<'_>,
) -> Result<Vec<u8>, AllocError>
    ensures { IfOk result (λ t. t.items ≡ spec.difference_of is_without_ticks left.now right.now) }
{
    match (left, right) {
        (LineKind::Event(left), LineKind::Event(right)) => {
            let parts = parts(alloc, is_without_ticks, left, right)?;
            listed(alloc, parts.as_slice())
        }
        (LineKind::Last(left), LineKind::Last(right)) => {
            join(alloc, &[last_part(is_without_ticks, *left, *right)])
        }
        (LineKind::Missing, _) | (_, LineKind::Missing) => join(alloc, &[b"length"]),
        _ => join(alloc, &[b"kind"]),
    }
}

/// A line without its line feed.
fn bare(line: &[u8]) -> &[u8]
    ensures { result.now ≡ spec.bare line.now }
{
    match before(line, b"\n") {
        Some(line) => line,
        None => line,
    }
}

/// A line with the name of its file and its tick.
fn with_tick(alloc: Global, name: &str, line: &[u8], tick: u64) -> Result<Vec<u8>, AllocError>
    ensures { IfOk result (λ t. t.items ≡ spec.with_tick name.now line.now tick) }
{
    let digits = digits_of(alloc, u128::from(tick))?;
    join(
        alloc,
        &[
            name.as_bytes(),
            b", tick ",
            digits.as_bytes(),
            b": ",
            bare(line),
            b"\n",
        ],
    )
}

/// A line with the name of its file, and with its tick if it has one.
fn shown_line(
    alloc: Global,
    name: &str,
    line: &[u8],
    kind: &LineKind<'_>,
) -> Result<Vec<u8>, AllocError>
    ensures { IfOk result (λ t. t.items ≡ spec.shown_line name.now line.now kind.now) }
{
    match kind {
        LineKind::Event(entry) => with_tick(alloc, name, line, entry.tick),
        LineKind::Last(tick) => with_tick(alloc, name, line, *tick),
        LineKind::Missing => join(alloc, &[name.as_bytes(), b" has no such line\n"]),
        LineKind::Other => join(alloc, &[name.as_bytes(), b": ", bare(line), b"\n"]),
    }
}

/// The number of two lines, and what differs in them.
#[tactic(auto, unfolding(crate::specs::DifferenceReport::difference_line))]
fn difference_line(
    alloc: Global,
    is_without_ticks: bool,
    number: u64,
    left: &LineKind<'_>,
    right: &LineKind<'_>,
) -> Result<Vec<u8>, AllocError>
    ensures { IfOk result (λ t. t.items ≡ spec.difference_line is_without_ticks number left.now right.now) }
{
    let digits = digits_of(alloc, u128::from(number))?;
    let what = difference_of(alloc, is_without_ticks, left, right)?;
    join(
        alloc,
        &[
            b"line ",
            digits.as_bytes(),
            b" differs in: ",
            what.as_slice(),
            b"\n",
        ],
    )
}

/// Reports how two files differ: the number of the line and the parts that differ, and then both lines. Ticks may be
/// no part.
///
/// # Errors
/// Out of memory.
pub fn difference_text(
    alloc: Global,
    first: &str,
    second: &str,
    is_without_ticks: bool,
    difference: &Difference,
) -> Result<Vec<u8>, AllocError>
    ensures { IfOk result (λ t. ShowsDifference first.now second.now is_without_ticks difference.now t.items) }
{
    let left_line = difference.left.as_slice();
    let right_line = difference.right.as_slice();
    let left = kind_of(left_line);
    let right = kind_of(right_line);
    let line = difference_line(alloc, is_without_ticks, difference.number, &left, &right)?;
    let first = shown_line(alloc, first, left_line, &left)?;
    let second = shown_line(alloc, second, right_line, &right)?;
    join(
        alloc,
        &[line.as_slice(), first.as_slice(), second.as_slice()],
    )
}
