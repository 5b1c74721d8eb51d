//! Scans for the records and fields of a text in CSV, and for the words of a field.

ghost use Rattle.std.specs.Prelude.{◌≡◌, ◌⊎◌, ◌+◌, ◌<◌, ◌≤◌, IfSome, MatchOption, false, true, length};
ghost use Rattle.fb_inputs.specs.Counts.{IsNth, Text, count_below, mark_len};
ghost use Rattle.fb_inputs.specs.Records as spec;
ghost use Rattle.fb_inputs.specs.Searches.{FindsOne, HasNone};

use crate::scan::{count_if, mark_len};

/// Whether a byte is a line end.
fn is_line_end(byte: u8) -> bool
    ensures { result ≡ spec.is_line_end byte }
{
    byte == b'\n' || byte == b'\r'
}

/// Whether a line begins at an offset, in a text with a byte order mark of this length.
fn begins_line(text: &[u8], mark: usize, at: usize) -> bool
    requires marked { mark ≡ mark_len text.now }
    requires within { at < length text.now }
    ensures { result ≡ spec.begins_line text.now at }
{
    at == mark || (at > 0 && is_line_end(text[at - 1]))
}

/// Whether a record begins at an offset that this number of quotes precedes.
fn begins_record(text: &[u8], mark: usize, quotes: usize, at: usize) -> bool
    requires marked { mark ≡ mark_len text.now }
    requires within { at < length text.now }
    requires counted { quotes ≡ count_below (spec.is_quote text.now) at }
    ensures { result ≡ spec.begins_record text.now at }
{
    quotes % 2 == 0 && begins_line(text, mark, at) && !is_line_end(text[at])
}

/// How far a text was scanned for records.
#[derive(Clone, Copy)]
pub(crate) struct RecordScan {
    /// The offset up to which it was scanned.
    pub(crate) at: usize,
    /// How many quotes are before that.
    quotes: usize,
    /// How many records begin before that.
    records: usize,
}

/// The scan of which nothing is done.
pub(crate) fn first_scan() -> RecordScan
    ensures scanned { (text : Text) → spec.IsScan text result }
    ensures none { result.records ≡ 0 }
{
    RecordScan {
        at: 0,
        quotes: 0,
        records: 0,
    }
}

/// Scans on to the record with this index, which does not begin before.
fn scan_on(text: &[u8], from: RecordScan, index: usize) -> Option<RecordScan>
    requires scanned { spec.IsScan text.now from }
    requires before { from.records ≤ index }
    ensures scanned { IfSome result (spec.IsScan text.now) }
    ensures begins { MatchOption result (HasNone (IsNth text.now (spec.begins_record text.now) index)) (λ scan. IsNth text.now (spec.begins_record text.now) index scan.at) }
{
    let mark = mark_len(text);
    let mut quotes = from.quotes;
    let mut records = from.records;
    for at in from.at..text.len() {
        let begins = begins_record(text, mark, quotes, at);
        if begins && records == index {
            return Some(RecordScan {
                at,
                quotes,
                records,
            });
        }
        records = count_if(records, begins);
        quotes = count_if(quotes, text[at] == b'"');
    }
    None
}

/// Scans to the beginning of the record with this index: on, or from the beginning of the text if it begins before.
pub(crate) fn scan_to(text: &[u8], from: RecordScan, index: usize) -> Option<RecordScan>
    requires { spec.IsScan text.now from }
    ensures scanned { IfSome result (spec.IsScan text.now) }
    ensures begins { MatchOption result (HasNone (IsNth text.now (spec.begins_record text.now) index)) (λ scan. IsNth text.now (spec.begins_record text.now) index scan.at) }
{
    if index < from.records {
        scan_on(text, first_scan(), index)
    } else {
        scan_on(text, from, index)
    }
}

/// Whether an offset that this number of quotes precedes is that of a comma between fields.
fn is_comma(rest: &[u8], quotes: usize, at: usize) -> bool
    requires within { at < length rest.now }
    requires counted { quotes ≡ count_below (spec.is_quote rest.now) at }
    ensures { result ≡ spec.is_comma rest.now at }
{
    quotes % 2 == 0 && rest[at] == b','
}

/// Whether the record ends at an offset that this number of quotes precedes.
fn ends_record(rest: &[u8], quotes: usize, at: usize) -> bool
    requires within { at < length rest.now }
    requires counted { quotes ≡ count_below (spec.is_quote rest.now) at }
    ensures { result ≡ spec.ends_record rest.now at }
{
    quotes % 2 == 0 && is_line_end(rest[at])
}

/// The offset of the comma with this index in the record with which a text begins.
fn comma(rest: &[u8], index: usize) -> Option<usize>
    ensures { FindsOne result (λ at. IsNth rest.now (spec.is_comma rest.now) index at × spec.IsInRecord rest.now at) }
{
    let mut quotes = 0;
    let mut before = 0;
    for at in 0..rest.len() {
        if ends_record(rest, quotes, at) {
            return None;
        }
        let parts = is_comma(rest, quotes, at);
        if parts && before == index {
            return Some(at);
        }
        before = count_if(before, parts);
        quotes = count_if(quotes, rest[at] == b'"');
    }
    None
}

/// The offset at which a field begins, by its index in the record with which a text begins.
pub(crate) fn field_begin(rest: &[u8], index: usize) -> Option<usize>
    ensures { MatchOption result (HasNone (spec.BeginsField rest.now index)) (λ at. spec.BeginsField rest.now index at × (at ≤ length rest.now)) }
{
    if index == 0 {
        return Some(0);
    }
    let at = comma(rest, index - 1)?;
    Some(at + 1)
}

/// Whether the field ends before an offset that this number of quotes precedes.
fn ends_field(field: &[u8], quotes: usize, at: usize) -> bool
    requires within { at < length field.now }
    requires counted { quotes ≡ count_below (spec.is_quote field.now) at }
    ensures { result ≡ spec.ends_field field.now at }
{
    is_comma(field, quotes, at) || ends_record(field, quotes, at)
}

/// The length of the field with which a text begins.
pub(crate) fn field_len(field: &[u8]) -> usize
    ensures { spec.HasLength field.now result }
{
    let mut quotes = 0;
    for at in 0..field.len() {
        if ends_field(field, quotes, at) {
            return at;
        }
        quotes = count_if(quotes, field[at] == b'"');
    }
    field.len()
}

/// Whether a field is in quotes.
fn is_quoted(raw: &[u8]) -> bool
    ensures { result ≡ spec.is_quoted raw.now }
{
    raw.len() > 1 && raw[0] == b'"' && raw[raw.len() - 1] == b'"'
}

/// How many bytes of a field are before what it says.
pub(crate) fn skipped(raw: &[u8]) -> usize
    ensures value { result ≡ spec.skipped raw.now }
    ensures within { result ≤ length raw.now }
{
    if is_quoted(raw) { 1 } else { 0 }
}

/// What a field says: its bytes without the quotes round them.
pub(crate) fn said(raw: &[u8]) -> &[u8]
    ensures { result.now ≡ spec.said raw.now }
{
    if is_quoted(raw) {
        &raw[1..raw.len() - 1]
    } else {
        raw
    }
}

/// Whether a word begins at an offset.
fn begins_word(said: &[u8], at: usize) -> bool
    requires { at < length said.now }
    ensures { result ≡ spec.begins_word said.now at }
{
    said[at] != b' ' && (at == 0 || said[at - 1] == b' ')
}

/// The offset at which a word begins, by its index in what a field says.
pub(crate) fn word_begin(said: &[u8], index: usize) -> Option<usize>
    ensures { FindsOne result (IsNth said.now (spec.begins_word said.now) index) }
{
    let mut before = 0;
    for at in 0..said.len() {
        let begins = begins_word(said, at);
        if begins && before == index {
            return Some(at);
        }
        before = count_if(before, begins);
    }
    None
}

/// The length of the word with which a text begins.
pub(crate) fn word_len(word: &[u8]) -> usize
    ensures { spec.HasWordLength word.now result }
{
    for at in 0..word.len() {
        if word[at] == b' ' {
            return at;
        }
    }
    word.len()
}
