//! The fields of a text in CSV, as the reader of CSV reads them.

ghost use Rattle.std.specs.Prelude.{◌≡◌, ◌+◌, ◌<◌, ◌≤◌, ◌^◌, IfOk, IsSomeAnd, Some, length, option_map, slice_get};
ghost use Rattle.std.specs.Bool.{MatchBool};
ghost use Rattle.csv.specs.Reading.{default_config, records, strip_bom};
ghost use Rattle.csv.specs.Records.{field_at, fields_of};
ghost use Rattle.fb_inputs.specs.Readers.{IsAt, IsReaderOf, rows_from};
ghost use Rattle.fb_inputs.specs.Counts.{Text};
ghost use Rattle.fb_inputs.specs.NearSpans.{IsNextRow};
ghost use Rattle.fb_inputs.specs.Records.{IsReadAt};

use crate::records_of;
use csv::{ByteRecord, ByteRecordsIntoIter};
use std::alloc::{AllocError, Global};
use std::mem;

/// The next record, if there is one. A reader of bytes fails for memory alone.
fn next_row(rows: &mut ByteRecordsIntoIter<&[u8]>) -> Result<Option<ByteRecord>, AllocError>
    requires { (left : Text) × IsAt rows.old left }
    ensures { (left : Text) → IsAt rows.old left → IfOk result (IsNextRow rows.old rows.new left) }
{
    let Some(read) = rows.next() else {
        return Ok(None);
    };
    match read {
        Ok(row) => Ok(Some(row)),
        Err(_) => Err(AllocError),
    }
}

/// The record with this index among those that are left, if there is one.
fn nth_row(
    rows: &mut ByteRecordsIntoIter<&[u8]>,
    index: usize,
) -> Result<Option<ByteRecord>, AllocError>
    requires { (left : Text) × IsAt rows.old left }
    ensures { (left : Text) → IsAt rows.old left → IfOk result (λ o. option_map fields_of o ≡ slice_get (rows_from rows.old.rdr.state left) index) }
{
    for _ in 0..index {
        match next_row(rows)? {
            Some(row) => drop(row),
            None => return Ok(None),
        }
    }
    next_row(rows)
}

/// The record with this index, the heading among them, as the reader of CSV reads it. `None` if the text has no such
/// record.
///
/// # Errors
///
/// When memory runs out.
pub fn record_at(
    alloc: Global,
    text: &[u8],
    record_index: usize,
) -> Result<Option<ByteRecord>, AllocError>
    ensures { IfOk result (λ o. option_map fields_of o ≡ slice_get (records default_config (strip_bom text.now)) record_index) }
{
    let mut rows = records_of(alloc, text);
    nth_row(&mut rows, record_index)
}

/// A reader of the records of a text, one after another.
#[derive(Drop)]
pub(crate) struct RecordReader<'a> {
    rows: ByteRecordsIntoIter<&'a [u8]>,
    /// How many records were read.
    read: usize,
    /// The last one that was read.
    last: Option<ByteRecord>,
}

/// A reader that has read nothing of a text.
pub(crate) fn reader_of(alloc: Global, text: &[u8]) -> RecordReader<'_>
    ensures reader { IsReaderOf text.now result }
    ensures none { result.read ≡ 0 }
{
    RecordReader {
        rows: records_of(alloc, text),
        read: 0,
        last: None,
    }
}

/// Begins again, with a reader that has read nothing.
fn begin_again<'a>(alloc: Global, text: &'a [u8], reader: &mut RecordReader<'a>)
    ensures reader { IsReaderOf text.now reader.new }
    ensures none { reader.new.read ≡ 0 }
{
    drop(mem::replace(reader, reader_of(alloc, text)));
}

/// Keeps a record that was read, and counts it.
fn keep(reader: &mut RecordReader<'_>, row: ByteRecord)
    requires { reader.old.read + 1 < 2 ^ 64 }
    ensures rows { reader.new.rows ≡ reader.old.rows }
    ensures read { reader.new.read ≡ reader.old.read + 1 }
    ensures last { reader.new.last ≡ Some row }
{
    reader.last = Some(row);
    reader.read += 1;
}

/// Reads one record more, if there is one, and returns whether there was. After the last one it begins again.
fn read_next<'a>(
    alloc: Global,
    text: &'a [u8],
    reader: &mut RecordReader<'a>,
) -> Result<bool, AllocError>
    requires reader { IsReaderOf text.now reader.old }
    requires room { reader.old.read + 1 < 2 ^ 64 }
    ensures reader { IfOk result (λ _. IsReaderOf text.now reader.new) }
    ensures one { IfOk result (λ more. MatchBool more (reader.new.read ≡ reader.old.read + 1) (length (records default_config (strip_bom text.now)) ≤ reader.old.read)) }
{
    match next_row(&mut reader.rows)? {
        Some(row) => {
            keep(reader, row);
            Ok(true)
        }
        None => {
            begin_again(alloc, text, reader);
            Ok(false)
        }
    }
}

/// Reads on until this number of records was read, and returns whether the text has that many.
fn read_up_to<'a>(
    alloc: Global,
    text: &'a [u8],
    reader: &mut RecordReader<'a>,
    count: usize,
) -> Result<bool, AllocError>
    requires reader { IsReaderOf text.now reader.old }
    requires before { reader.old.read ≤ count }
    ensures reader { IfOk result (λ _. IsReaderOf text.now reader.new) }
    ensures all { IfOk result (λ all. MatchBool all (reader.new.read ≡ count) (length (records default_config (strip_bom text.now)) < count)) }
{
    while reader.read < count {
        if !read_next(alloc, text, reader)? {
            return Ok(false);
        }
    }
    Ok(true)
}

/// Begins again, if more records than this number were read.
fn go_back<'a>(alloc: Global, text: &'a [u8], reader: &mut RecordReader<'a>, count: usize)
    requires { IsReaderOf text.now reader.old }
    ensures reader { IsReaderOf text.now reader.new }
    ensures before { reader.new.read ≤ count }
{
    if count < reader.read {
        begin_again(alloc, text, reader);
    }
}

/// Whether a field of a record, if there is one, is this value.
fn is_field(row: &Option<ByteRecord>, field: usize, value: &[u8]) -> bool
    ensures { MatchBool result (IsSomeAnd row.now (λ r. field_at (fields_of r) field ≡ Some value.now)) (IsSomeAnd row.now (λ r. field_at (fields_of r) field ≡ Some value.now) → ⊥) }
{
    match row {
        Some(row) => match row.get(field) {
            Some(read) => read == value,
            None => false,
        },
        None => false,
    }
}

/// Whether the reader of CSV reads this value as a field of a text, by the indexes of the record and the field. It
/// reads on for that, or from the beginning of the text if it has read a later record.
pub(crate) fn reads_field<'a>(
    alloc: Global,
    text: &'a [u8],
    reader: &mut RecordReader<'a>,
    record_index: usize,
    field: usize,
    value: &[u8],
) -> Result<bool, AllocError>
    requires reader { IsReaderOf text.now reader.old }
    requires room { record_index + 1 < 2 ^ 64 }
    ensures reader { IfOk result (λ _. IsReaderOf text.now reader.new) }
    ensures read { IfOk result (λ b. MatchBool b (IsReadAt text.now record_index field value.now) (IsReadAt text.now record_index field value.now → ⊥)) }
{
    let count = record_index + 1;
    go_back(alloc, text, reader, count);
    if !read_up_to(alloc, text, reader, count)? {
        return Ok(false);
    }
    Ok(is_field(&reader.last, field, value))
}
