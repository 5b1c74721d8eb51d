//! The texts that say where stimuli are refused.

use csv::ByteRecord;
use fb_inputs::{RowFault, StimuliLocation, record_at};
use fb_read_positions::Text;
use fb_read_positions::words::{ByteKind, split_front};
use std::alloc::{AllocError, Global};

/// The most fields of a record that are shown.
const MOST_FIELDS: usize = 6;

/// What is wrong with a value that is no number and no truth value.
const NO_VALUE: &str = ": its value is neither a number nor TRUE or FALSE";

/// What is wrong with a number that is too great.
const TOO_GREAT: &str =
    ": its value is over the greatest number, 170141183460469231731687303715884105727";

/// What is wrong with a number that is too small.
const TOO_SMALL: &str =
    ": its value is under the least number, -170141183460469231731687303715884105728";

/// What is wrong at a location of stimuli, and what was expected there. Rows are counted from 0 after the heading, as
/// in the keys of events.
pub fn stimuli_message(
    alloc: Global,
    bytes: &[u8],
    location: StimuliLocation,
) -> Result<String, AllocError> {
    let mut text = Text::new(alloc);
    match location {
        StimuliLocation::Bytes => text.words("there are more than 16,777,216 bytes"),
        StimuliLocation::Heading => push_record(alloc, &mut text, bytes, 0, None),
        StimuliLocation::Row { row, fault } => {
            text.numbered("row ", row, ": ");
            push_record(alloc, &mut text, bytes, row.saturating_add(1), Some(fault));
        }
    }
    text.into_string()
}

/// Adds what is wrong with the record at this index; the one at 0 is the heading. There is no text if it was not read
/// because memory ran out.
fn push_record(alloc: Global, text: &mut Text, bytes: &[u8], at: usize, fault: Option<RowFault>) {
    match (record_at(alloc, bytes, at), fault) {
        (Ok(Some(row)), Some(fault)) => {
            let fields = Fields {
                count: row.len(),
                tick: row.get(0),
                event: row.get(1),
                values: row.get(2),
            };
            push_fault(text, &fields, fault);
        }
        (Ok(Some(first)), None) => push_fields(text, &first),
        (Ok(None), _) => {}
        (Err(_), _) => text.give_up(),
    }
}

/// Adds the fields of the first record.
fn push_fields(text: &mut Text, first: &ByteRecord) {
    text.words("the first record ");
    for index in 0..first.len().min(MOST_FIELDS) {
        if index > 0 {
            text.words(",");
        }
        text.quoted(first.get(index).unwrap_or(&[]));
    }
    text.words(if first.len() > MOST_FIELDS { ",.." } else { "" });
    text.words(" is not tick,event,values");
}

/// The fields of a row, as far as it has them.
#[derive(Clone, Copy)]
struct Fields<'a> {
    count: usize,
    tick: Option<&'a [u8]>,
    event: Option<&'a [u8]>,
    values: Option<&'a [u8]>,
}

/// What is wrong with a row that is given by its three fields, under the number that it would have.
pub fn row_message(
    alloc: Global,
    row: usize,
    tick: &[u8],
    event: &[u8],
    values: &[u8],
    fault: RowFault,
) -> Result<String, AllocError> {
    let mut text = Text::new(alloc);
    text.numbered("row ", row, ": ");
    let fields = Fields {
        count: 3,
        tick: Some(tick),
        event: Some(event),
        values: Some(values),
    };
    push_fault(&mut text, &fields, fault);
    text.into_string()
}

fn push_fault(text: &mut Text, row: &Fields<'_>, fault: RowFault) {
    match fault {
        RowFault::Fields => text.numbered("", row.count, " instead of 3 fields"),
        RowFault::Event => push_field(text, "the event ", row.event, " is not INSTANCE.EVENT"),
        RowFault::Word(word) => {
            push_field(text, "the word ", word_at(row, word), " is not NAME=VALUE");
        }
        RowFault::Tick => push_field(text, "the tick ", row.tick, " is not a number"),
        RowFault::Value(word) => {
            let word = word_at(row, word);
            push_field(text, "the word ", word, value_fault(word.unwrap_or(&[])));
        }
        RowFault::Late => push_field(text, "the tick ", row.tick, " is over 1,000,000,000,000"),
        RowFault::Crowded => text.words("100,000 rows are before it"),
    }
}

/// What is wrong with the value of a word NAME=VALUE.
fn value_fault(word: &[u8]) -> &'static str {
    match value_of(word) {
        [b'-', digits @ ..] if is_number(digits) => TOO_SMALL,
        digits if is_number(digits) => TOO_GREAT,
        _ => NO_VALUE,
    }
}

/// The bytes after the first equals sign of a word.
fn value_of(word: &[u8]) -> &[u8] {
    for (index, byte) in word.iter().enumerate() {
        if *byte == b'=' {
            return word.get(index.saturating_add(1)..).unwrap_or(&[]);
        }
    }
    &[]
}

/// Whether bytes are decimal digits, and there is one.
fn is_number(bytes: &[u8]) -> bool {
    !bytes.is_empty() && split_front(bytes, ByteKind::Digits).1.is_empty()
}

/// The word of the last field at an index among those between spaces.
fn word_at<'a>(row: &Fields<'a>, index: usize) -> Option<&'a [u8]> {
    let mut rest = row.values?;
    for _ in 0..index {
        rest = split_front(split_front(rest, ByteKind::Spaces).1, ByteKind::NotSpaces).1;
    }
    Some(split_front(split_front(rest, ByteKind::Spaces).1, ByteKind::NotSpaces).0)
}

/// Adds a field, between words.
fn push_field(text: &mut Text, before: &str, field: Option<&[u8]>, after: &str) {
    text.words(before);
    if let Some(field) = field {
        text.quoted(field);
    }
    text.words(after);
}
