//! Stimuli.

ghost use Rattle.std.specs.Prelude.{◌≡◌, ◌≤◌, [], ◌∷◌, length, IfErr, IfOk, MatchOption, nat_le, not, ◌^◌, option_map};
ghost use Rattle.csv.specs.Reading.{error_kind, strip_bom};
ghost use Rattle.csv.specs.Records.{fields_of};
ghost use Rattle.fb_inputs.specs.Readers.{IsAdded, IsAt, IsOpened, IsRead, Opens, rows_from};
ghost use Rattle.fb_inputs.specs.Faults.{AreTaken, IsRefusedAt};
ghost use Rattle.fb_inputs.specs.Lists.{all_after};
ghost use Rattle.fb_inputs.specs.StimuliLocations.{AnswersAt, AnswersInRow, location_of};
ghost use Rattle.fb_inputs.specs.Refusals.{Answers, number_of};
ghost use Rattle.fb_inputs.specs.Stimuli as spec;
ghost use Rattle.fb_inputs.specs.Words.{Text};

use crate::error::InputError;
use crate::location::{RowError, RowFault, StimuliFault, StimuliLocation, at_row, error_at};
use crate::number::natural;
use crate::row::{Draft, draft_of, settings};
use csv::{ByteRecord, ByteRecordsIntoIter, Error, ErrorKind, ReaderBuilder};
use fb_types::{Items, LATEST_TICK, MOST_STIMULI, MOST_STIMULI_BYTES, Stimulus};
use std::alloc::{AllocError, Global};

/// The tick, the event and the values of a record, if it has three fields.
#[tactic(auto, using(crate::proofs::lemmas::stimuli::Fields::three_fields), unfolding(crate::specs::Stimuli::three))]
fn columns(row: &ByteRecord) -> Option<(&[u8], &[u8], &[u8])>
    ensures { option_map (λ f. (f.0.now, f.1.now, f.2.now)) result ≡ spec.three (fields_of row.now) }
{
    match (row.len(), row.get(0), row.get(1), row.get(2)) {
        (3, Some(tick), Some(event), Some(values)) => Some((tick, event, values)),
        _ => None,
    }
}

/// Whether the record is `tick,event,values`.
fn is_head(row: &ByteRecord) -> bool
    ensures { result ≡ spec.is_head (fields_of row.now) }
{
    match columns(row) {
        Some((tick, event, values)) => {
            tick == b"tick".as_slice()
                && event == b"event".as_slice()
                && values == b"values".as_slice()
        }
        None => false,
    }
}

/// Whether a tick is over the greatest one.
fn is_late(tick: u128) -> bool
    ensures { result ≡ not (nat_le tick (10 ^ 12)) }
{
    tick > LATEST_TICK as u128
}

/// The stimulus of a row of three fields, after this number of rows.
fn stimulus_of(
    alloc: Global,
    before: usize,
    tick: &[u8],
    event: &[u8],
    values: &[u8],
) -> Result<Stimulus, RowError>
    ensures { AnswersInRow (λ s. s) (spec.stimulus before (tick.now ∷ event.now ∷ values.now ∷ [])) result }
{
    let draft = draft_of(alloc, event, values)?;
    let Some(tick) = natural(tick, LATEST_TICK as u128) else {
        return Err(RowError::At(RowFault::Tick));
    };
    let Draft {
        instance,
        event,
        words,
    } = draft;
    let settings = settings(alloc, words)?;
    if is_late(tick) {
        return Err(RowError::At(RowFault::Late));
    }
    if before >= MOST_STIMULI {
        return Err(RowError::At(RowFault::Crowded));
    }
    Ok(Stimulus {
        tick: tick as u64,
        instance,
        event,
        settings,
    })
}

/// The stimulus of a record, after this number of rows.
#[tactic(auto, unfolding(crate::specs::Stimuli::stimulus))]
fn stimulus_in(alloc: Global, before: usize, row: &ByteRecord) -> Result<Stimulus, RowError>
    ensures { AnswersInRow (λ s. s) (spec.stimulus before (fields_of row.now)) result }
{
    match columns(row) {
        Some((tick, event, values)) => stimulus_of(alloc, before, tick, event, values),
        None => Err(RowError::At(RowFault::Fields)),
    }
}

/// The stimulus of a record, after this number of rows. The record is dropped here, so that no caller has to drop it at
/// its exits.
#[tactic(auto, unfolding(crate::specs::Stimuli::stimulus_at))]
fn stimulus_at(alloc: Global, before: usize, row: ByteRecord) -> Result<Stimulus, StimuliFault>
    ensures { AnswersAt (λ s. s) (spec.stimulus_at before (fields_of row)) result }
{
    let read = stimulus_in(alloc, before, &row);
    drop(row);
    match read {
        Ok(stimulus) => Ok(stimulus),
        Err(error) => Err(at_row(before, error)),
    }
}

/// The refusal for an error of the CSV reader. Records of bytes may have any length, so over a slice only memory can
/// fail.
fn refusal(error: Error) -> StimuliFault
    requires { spec.IsOfReading (error_kind error) }
    ensures { result ≡ StimuliFault.Memory }
{
    match error.kind() {
        ErrorKind::OutOfMemory | ErrorKind::Io(_) => StimuliFault::Memory,
        _ => unreachable!(),
    }
}

/// The CSV reader of records of bytes, of any length. One leading byte order mark is skipped.
pub fn records_of(alloc: Global, bytes: &[u8]) -> ByteRecordsIntoIter<&[u8]>
    ensures { IsOpened result (strip_bom bytes.now) }
{
    let reader = ReaderBuilder::new()
        .has_headers(false)
        .flexible(true)
        .from_reader(alloc, bytes);
    reader.into_byte_records()
}

/// Tests the first record: `true` if it is the heading, or else where that should be.
fn is_headed(read: Result<ByteRecord, Error>) -> Result<bool, StimuliFault>
    requires { IfErr read (λ e. spec.IsOfReading (error_kind e)) }
    ensures { IsRead read result }
{
    match read {
        Ok(row) => {
            let found = is_head(&row);
            drop(row);
            if found {
                Ok(true)
            } else {
                Err(StimuliFault::At(StimuliLocation::Heading))
            }
        }
        Err(error) => Err(refusal(error)),
    }
}

/// Reads the heading, and returns whether there is any record.
fn take_heading(rows: &mut ByteRecordsIntoIter<&[u8]>) -> Result<bool, StimuliFault>
    requires { (left : Text) × IsOpened rows.old left }
    ensures { (bytes : Text) → IsOpened rows.old (strip_bom bytes) → Opens bytes rows.new result }
{
    match rows.next() {
        Some(first) => is_headed(first),
        None => Ok(false),
    }
}

/// Appends the stimulus of a record.
fn add(
    alloc: Global,
    read: Result<ByteRecord, Error>,
    found: &mut Items<Stimulus>,
) -> Result<(), StimuliFault>
    requires { IfErr read (λ e. spec.IsOfReading (error_kind e)) }
    ensures { IsAdded read found.old found.new result }
{
    match read {
        Ok(row) => {
            found.push(stimulus_at(alloc, found.len(), row)?)?;
            Ok(())
        }
        Err(error) => Err(refusal(error)),
    }
}

/// Appends the stimuli of the remaining records.
fn add_all(
    alloc: Global,
    rows: &mut ByteRecordsIntoIter<&[u8]>,
    found: &mut Items<Stimulus>,
) -> Result<(), StimuliFault>
    requires { (left : Text) × IsAt rows.old left }
    ensures { (left : Text) → IsAt rows.old left → AnswersAt (λ u. found.new) (all_after found.old (spec.stimuli_from (length found.old) (rows_from rows.old.rdr.state left))) result }
{
    for read in rows {
        add(alloc, read, found)?;
    }
    Ok(())
}

/// Reads the heading, and appends the stimuli of the records after it, if there is any record.
fn add_after_heading(
    alloc: Global,
    rows: &mut ByteRecordsIntoIter<&[u8]>,
    found: &mut Items<Stimulus>,
) -> Result<(), StimuliFault>
    requires opened { (bytes : Text) × IsOpened rows.old (strip_bom bytes) }
    requires none { found.old ≡ [] }
    ensures { (bytes : Text) → length bytes ≤ spec.most_bytes → IsOpened rows.old (strip_bom bytes) → AnswersAt (λ u. found.new) (spec.stimuli_in bytes) result }
{
    if take_heading(rows)? {
        add_all(alloc, rows, found)
    } else {
        Ok(())
    }
}

/// Reads stimuli in CSV as [`read_stimuli`] does.
///
/// # Errors
///
/// Where the stimuli are refused, or `Memory`.
#[tactic(auto, unfolding(crate::specs::Stimuli::stimuli_in))]
pub fn locate_stimuli(alloc: Global, bytes: &[u8]) -> Result<Vec<Stimulus>, StimuliFault>
    ensures { AnswersAt (λ v. v.items) (spec.stimuli_in bytes.now) result }
{
    if bytes.len() > MOST_STIMULI_BYTES {
        return Err(StimuliFault::At(StimuliLocation::Bytes));
    }
    let mut rows = records_of(alloc, bytes);
    let mut found = Items::new(alloc);
    let read = add_after_heading(alloc, &mut rows, &mut found);
    // Drops with one call. Each exit would drop each part of the reader.
    drop(rows);
    read?;
    Ok(found.into_vec())
}

/// Reads stimuli in CSV: none without a record, otherwise those of the rows after the heading `tick,event,values`. Ticks
/// are milliseconds.
///
/// # Errors
///
/// More than 16 MiB (E15), otherwise the first faulty row: its shape (E13), a tick or a value that is not a number
/// (E14), a tick over 10^12 or a row after 100,000 others (E15). `Memory` if memory runs out.
#[tactic(auto, unfolding(crate::specs::Stimuli::stimuli_of))]
pub fn read_stimuli(alloc: Global, bytes: &[u8]) -> Result<Vec<Stimulus>, InputError>
    ensures { Answers (λ v. v.items) (spec.stimuli_of bytes.now) result }
{
    match locate_stimuli(alloc, bytes) {
        Ok(stimuli) => Ok(stimuli),
        Err(fault) => Err(error_at(fault)),
    }
}

/// Reads one row from its three fields, as [`read_stimuli`] reads those of a list. How many rows there are before it does
/// not matter.
///
/// # Errors
///
/// What is wrong with the row: its shape (E13), a tick or a value that is not a number (E14), a tick over 10^12 (E15). Or
/// memory runs out.
pub fn read_row(
    alloc: Global,
    tick: &[u8],
    event: &[u8],
    values: &[u8],
) -> Result<Stimulus, RowError>
    ensures { AnswersInRow (λ s. s) (spec.stimulus 0 (tick.now ∷ event.now ∷ values.now ∷ [])) result }
{
    stimulus_of(alloc, 0, tick, event, values)
}

/// Where stimuli in CSV are refused, or `None` if they are accepted.
///
/// # Errors
///
/// When memory runs out.
pub fn stimuli_location(alloc: Global, bytes: &[u8]) -> Result<Option<StimuliLocation>, AllocError>
    ensures { IfOk result (λ o. MatchOption o (AreTaken bytes.now) (IsRefusedAt bytes.now)) }
{
    match locate_stimuli(alloc, bytes) {
        Ok(stimuli) => {
            drop(stimuli);
            Ok(None)
        }
        Err(StimuliFault::Memory) => Err(AllocError),
        Err(StimuliFault::At(location)) => Ok(Some(location)),
    }
}
