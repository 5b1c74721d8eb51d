//! Finds a position of stimuli in their text.

ghost use Rattle.std.specs.Prelude.{◌≡◌, ◌+◌, ◌<◌, ◌≤◌, ℕ, IfOk, length};
ghost use Rattle.std.specs.List.{AllZip};
ghost use Rattle.fb_inputs.specs.Counts.{IsNth};
ghost use Rattle.fb_inputs.specs.NearSpans.{IsField, IsFieldAt, IsInStimuli, IsNearInStimuli, IsSearch, IsWordIn};
ghost use Rattle.fb_inputs.specs.Records.{begins_record};
ghost use Rattle.fb_inputs.specs.Searches.{FindsOne};

use crate::csv_records::{
    RecordScan, field_begin, field_len, first_scan, said, scan_to, skipped, word_begin, word_len,
};
use crate::position::StimuliPosition;
use crate::row_positions::{RecordReader, reader_of, reads_field};
use crate::scan::start_of;
use fb_read::token::Span;
use std::alloc::{AllocError, Global};

/// No position of stimuli has more positions around it than this.
const MOST_AROUND: usize = 3;

/// The index of the field that has the words.
const WORDS: usize = 2;

/// How far a text was searched: scanned for records, and read as CSV. Positions in the order of the text are found by
/// one scan and one reading.
#[derive(Drop)]
struct Search<'a> {
    scan: RecordScan,
    reader: RecordReader<'a>,
}

/// The bytes of a field, as the scan finds them in the record that begins here.
fn scanned_field(text: &[u8], begin: usize, field: usize) -> Option<Span>
    requires { begin < length text.now }
    ensures { (record_index : ℕ) → IsNth text.now (begins_record text.now) record_index begin → FindsOne result (IsFieldAt text.now record_index field) }
{
    let start = begin + field_begin(&text[begin..], field)?;
    let end = start + field_len(&text[start..]);
    Some(Span { start, end })
}

/// The bytes of a field, if the reader of CSV reads there what they say.
fn read_field<'a>(
    alloc: Global,
    text: &'a [u8],
    search: &mut Search<'a>,
    record_index: usize,
    field: usize,
    span: Span,
) -> Result<Option<Span>, AllocError>
    requires search { IsSearch text.now search.old }
    requires scanned { IsFieldAt text.now record_index field span }
    ensures search { IfOk result (λ _. IsSearch text.now search.new) }
    ensures found { IfOk result (λ o. FindsOne o (IsField text.now record_index field)) }
{
    let value = said(&text[span.start..span.end]);
    let reader = &mut search.reader;
    if reads_field(alloc, text, reader, record_index, field, value)? {
        Ok(Some(span))
    } else {
        Ok(None)
    }
}

/// The bytes of a field, if the scan finds them and the reader of CSV reads there what they say.
fn field_span<'a>(
    alloc: Global,
    text: &'a [u8],
    search: &mut Search<'a>,
    record_index: usize,
    field: usize,
) -> Result<Option<Span>, AllocError>
    requires { IsSearch text.now search.old }
    ensures search { IfOk result (λ _. IsSearch text.now search.new) }
    ensures found { IfOk result (λ o. FindsOne o (IsField text.now record_index field)) }
{
    let Some(scan) = scan_to(text, search.scan, record_index) else {
        return Ok(None);
    };
    search.scan = scan;
    match scanned_field(text, scan.at, field) {
        Some(span) => read_field(alloc, text, search, record_index, field, span),
        None => Ok(None),
    }
}

/// The bytes of a word in the field at these bytes.
fn word_in(text: &[u8], field: Span, word: usize) -> Option<Span>
    requires ordered { field.start ≤ field.end }
    requires within { field.end ≤ length text.now }
    ensures { FindsOne result (IsWordIn text.now field word) }
{
    let raw = &text[field.start..field.end];
    let value = said(raw);
    let begin = word_begin(value, word)?;
    let start = field.start + skipped(raw) + begin;
    let end = start + word_len(&value[begin..]);
    Some(Span { start, end })
}

/// The bytes of a field of a row.
fn field_of_row<'a>(
    alloc: Global,
    text: &'a [u8],
    search: &mut Search<'a>,
    row: usize,
    field: usize,
) -> Result<Option<Span>, AllocError>
    requires { IsSearch text.now search.old }
    ensures search { IfOk result (λ _. IsSearch text.now search.new) }
    ensures found { IfOk result (λ o. FindsOne o (IsField text.now (row + 1) field)) }
{
    match row.checked_add(1) {
        Some(record_index) => field_span(alloc, text, search, record_index, field),
        None => Ok(None),
    }
}

/// The bytes at a position.
fn span_at<'a>(
    alloc: Global,
    text: &'a [u8],
    search: &mut Search<'a>,
    position: StimuliPosition,
) -> Result<Option<Span>, AllocError>
    requires { IsSearch text.now search.old }
    ensures search { IfOk result (λ _. IsSearch text.now search.new) }
    ensures found { IfOk result (λ o. FindsOne o (IsInStimuli text.now position)) }
{
    match position {
        StimuliPosition::Start => Ok(Some(start_of(text))),
        StimuliPosition::Heading => field_span(alloc, text, search, 0, 0),
        StimuliPosition::Row(row) => field_of_row(alloc, text, search, row, 0),
        StimuliPosition::Field(row, field) => field_of_row(alloc, text, search, row, field),
        StimuliPosition::Word(row, word) => {
            match field_of_row(alloc, text, search, row, WORDS)? {
                Some(field) => Ok(word_in(text, field, word)),
                None => Ok(None),
            }
        }
    }
}

/// The bytes at a position, or at the nearest one around it at which there are any.
fn nearest_at<'a>(
    alloc: Global,
    text: &'a [u8],
    search: &mut Search<'a>,
    position: StimuliPosition,
) -> Result<Span, AllocError>
    requires { IsSearch text.now search.old }
    ensures search { IfOk result (λ _. IsSearch text.now search.new) }
    ensures found { IfOk result (IsNearInStimuli text.now position) }
{
    let mut here = position;
    for _ in 0..MOST_AROUND {
        if let Some(span) = span_at(alloc, text, search, here)? {
            return Ok(span);
        }
        here = here.around();
    }
    Ok(start_of(text))
}

/// The bytes at each of these positions, or at the nearest ones around them.
fn all_nearest<'a>(
    alloc: Global,
    text: &'a [u8],
    search: &mut Search<'a>,
    positions: &[StimuliPosition],
) -> Result<Vec<Span>, AllocError>
    requires { IsSearch text.now search.old }
    ensures { IfOk result (λ spans. AllZip (IsNearInStimuli text.now) positions.now spans.items) }
{
    let mut spans = Vec::with_capacity(alloc, positions.len())?;
    for position in positions {
        spans.push_reserved(nearest_at(alloc, text, search, *position)?);
    }
    Ok(spans)
}

/// The bytes at positions of stimuli, or at the nearest ones around them at which there are any, each at the index of its
/// position. Where the positions follow the order of the text, it is scanned and read once for all of them.
///
/// # Errors
///
/// When memory runs out.
pub fn nearest_spans(
    alloc: Global,
    text: &[u8],
    positions: &[StimuliPosition],
) -> Result<Vec<Span>, AllocError>
    ensures { IfOk result (λ spans. AllZip (IsNearInStimuli text.now) positions.now spans.items) }
{
    let mut search = Search {
        scan: first_scan(),
        reader: reader_of(alloc, text),
    };
    let spans = all_nearest(alloc, text, &mut search, positions);
    drop(search);
    spans
}
