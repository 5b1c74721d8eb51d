//! What is probably meant at a place of a declaration at which its text is refused: a word that the profile leaves out,
//! a semicolon or ELSIF, a time with a fraction, a comment inside another one. `habits` has what other languages write.

use crate::find::{discard, tokens_of};
use crate::words::{ByteKind, Text, front, split_front};
use fb_read::Expected;
use fb_read::token::{Located, Mark, Token};
use std::alloc::Global;

/// Words of IEC 61131-3 that the profile leaves out.
const LANGUAGE: &str =
    "REAL LREAL BYTE WORD DWORD LWORD STRING WSTRING CHAR WCHAR DATE TIME_OF_DAY TOD DATE_AND_TIME DT LTIME LDATE LTOD LDT ARRAY STRUCT TYPE CONSTANT RETAIN VAR_IN_OUT VAR_EXTERNAL VAR_GLOBAL VAR_TEMP VAR_CONFIG VAR_ACCESS FUNCTION PROGRAM CONFIGURATION CONTINUE";

/// Words of IEC 61499-1 that the profile leaves out.
const BLOCKS: &str =
    "ADAPTER ADAPTER_CONNECTIONS PLUGS SOCKETS SERVICE SUBAPPLICATION SUBAPPS SYSTEM DEVICE RESOURCE SEGMENT MAPPING";

/// Event blocks of IEC 61499-1 that the profile leaves out, and that share/annex_a.iec declares.
const EVENT_BLOCKS: &str = "E_RS E_TRAIN E_TABLE E_N_TABLE E_DEMUX E_T_FF";

/// Blocks of IEC 61131-3 that share/annex_a.iec declares.
const LANGUAGE_BLOCKS: &str = "TON TOF TP CTU CTD CTUD SR RS";

/// Whether bytes are among words that are separated by spaces, whatever their case.
fn is_among(bytes: &[u8], words: &str) -> bool {
    for word in words.split(' ') {
        if word.as_bytes().eq_ignore_ascii_case(bytes) {
            return true;
        }
    }
    false
}

/// The standard that has a word which the profile leaves out.
fn standard_of(word: &[u8]) -> Option<&'static str> {
    if is_among(word, LANGUAGE) {
        Some("IEC 61131-3")
    } else if is_among(word, BLOCKS) {
        Some("IEC 61499-1")
    } else {
        None
    }
}

/// Says of a word of a standard that the profile leaves it out.
pub fn push_left_out(message: &mut Text, here: &[u8]) {
    if let Some(standard) = standard_of(here) {
        message.phrase(&[" (a word of ", standard, " that the profile leaves out)"]);
    }
}

/// The same of the word before. Before an assignment it is a name, and DT is an input of E_CYCLE and E_DELAY.
pub(crate) fn push_left_out_before(message: &mut Text, word: &[u8], here: &[u8]) {
    if matches!(here, [b'=']) || word.eq_ignore_ascii_case(b"DT") {
        return;
    }
    if let Some(standard) = standard_of(word) {
        message.words(" (");
        message.shown(word);
        message.phrase(&[" is a word of ", standard, " that the profile leaves out)"]);
    }
}

/// Blocks of IEC 61499-1 for messages, each with a number after it. A link stands in their place.
const MESSAGE_BLOCKS: &str = "PUBLISH_ SUBSCRIBE_ CLIENT_ SERVER_";

/// Whether a name is that of a block for messages: one of these words, and digits.
fn is_message_block(name: &[u8]) -> bool {
    for index in (0..name.len()).rev() {
        if !name[index].is_ascii_digit() {
            let word = front(name, index.saturating_add(1));
            return is_among(word, MESSAGE_BLOCKS);
        }
    }
    false
}

/// Says of the name of an unknown block type that the profile leaves the block of this name out.
pub fn push_left_out_block(message: &mut Text, name: &[u8]) {
    if is_among(name, EVENT_BLOCKS) {
        message.words(
            " (an event block of IEC 61499-1 that is not built in: annex_a.iec declares it)",
        );
    } else if is_among(name, LANGUAGE_BLOCKS) {
        message.words(" (a block of IEC 61131-3 that is not built in: annex_a.iec declares it)");
    } else if is_message_block(name) {
        message.words(
            " (a block of IEC 61499-1 that the profile leaves out: links carry messages)",
        );
    }
}

/// Whether a semicolon is missing, where this was expected. A statement that may begin there may also be empty, so that
/// none is missing there.
pub fn misses_semicolon(alloc: Global, expected: Expected) -> bool {
    match expected.words(alloc) {
        Ok(words) => is_among(b";", words.as_str()) && !is_among(b"name", words.as_str()),
        Err(_) => false,
    }
}

/// Whether an algorithm that these tokens end in has IF after ELSE.
fn has_else_if(tokens: &[Located]) -> bool {
    let mut after_else = false;
    let mut found = false;
    for located in tokens {
        match located.token {
            Token::Mark(Mark::Algorithm) => found = false,
            Token::Mark(Mark::If) if after_else => found = true,
            _ => {}
        }
        after_else = matches!(located.token, Token::Mark(Mark::Else));
    }
    found
}

/// Says that ELSE IF begins another IF, if an END_IF was expected after these bytes.
pub fn push_else_if(alloc: Global, message: &mut Text, before: &[u8], expected: &str) {
    if !is_among(b"END_IF", expected) {
        return;
    }
    let Ok(Some(tokens)) = tokens_of(alloc, before) else {
        return;
    };
    if has_else_if(tokens.as_slice()) {
        message.words(" (ELSE IF begins another IF with an END_IF of its own, ELSIF does not)");
    }
    discard(tokens);
}

// ---- Times with a fraction, as `T#1.5s`, and how they are written in whole numbers.

/// No more digits than this are read, so that no product of such a number with a unit saturates.
const MOST_DIGITS: usize = 9;

/// The units of a time, each with its milliseconds.
const UNITS: &[(&str, usize)] = &[
    ("d", 86_400_000),
    ("h", 3_600_000),
    ("m", 60_000),
    ("s", 1_000),
    ("ms", 1),
];

/// The number that digits are, and the power of ten with as many zeros, if there are any digits, and not too many.
fn number(digits: &[u8]) -> Option<(usize, usize)> {
    if digits.is_empty() || digits.len() > MOST_DIGITS {
        return None;
    }
    let mut value = 0usize;
    let mut scale = 1usize;
    for digit in digits {
        let ones = usize::from(digit.wrapping_sub(b'0'));
        value = value.saturating_mul(10).saturating_add(ones);
        scale = scale.saturating_mul(10);
    }
    Some((value, scale))
}

/// The milliseconds of a unit.
fn milliseconds_of(unit: &[u8]) -> Option<usize> {
    for (name, milliseconds) in UNITS {
        if name.as_bytes().eq_ignore_ascii_case(unit) {
            return Some(*milliseconds);
        }
    }
    None
}

/// The milliseconds of a whole number and a fraction of a unit, if they are whole.
fn milliseconds(whole: &[u8], fraction: &[u8], unit: &[u8]) -> Option<usize> {
    let (Some(unit), Some((whole, _)), Some((parts, scale))) = (
        milliseconds_of(unit),
        number(whole),
        number(fraction),
    ) else {
        return None;
    };
    let parts = parts.saturating_mul(unit);
    let more = parts.checked_div(scale)?;
    if more.saturating_mul(scale) != parts {
        return None;
    }
    Some(whole.saturating_mul(unit).saturating_add(more))
}

/// The time with a fraction with which bytes begin, and its milliseconds, if they are a whole number.
pub fn fraction_of(bytes: &[u8]) -> Option<(&[u8], usize)> {
    let (word, rest) = split_front(bytes, ByteKind::Letters);
    if !is_among(word, "T TIME") {
        return None;
    }
    let [b'#', rest @ ..] = rest else {
        return None;
    };
    let (whole, rest) = split_front(rest, ByteKind::Digits);
    let [b'.', rest @ ..] = rest else {
        return None;
    };
    let (fraction, rest) = split_front(rest, ByteKind::Digits);
    let (unit, rest) = split_front(rest, ByteKind::Letters);
    let literal = front(bytes, bytes.len().saturating_sub(rest.len()));
    Some((literal, milliseconds(whole, fraction, unit)?))
}

/// Appends a time of whole numbers and units.
pub fn push_time(message: &mut Text, milliseconds: usize) {
    message.words(if milliseconds == 0 { "T#0s" } else { "T#" });
    let mut rest = milliseconds;
    for (name, unit) in UNITS {
        let count = rest.checked_div(*unit).unwrap_or(0);
        if count > 0 {
            message.numbered("", count, name);
        }
        rest = rest.saturating_sub(count.saturating_mul(*unit));
    }
}

// ---- Comments that have another one's beginning inside.

/// Where a scan for comments is.
#[derive(Clone, Copy)]
enum Scan {
    Code,
    /// In a comment that began at this offset, and whether another beginning was in it.
    Comment(usize, bool),
    /// In a comment up to the end of the line.
    Line,
}

/// The scan past the first of these bytes, and whether the next byte is taken with it.
fn after(scan: Scan, at: usize, rest: &[u8]) -> (Scan, bool) {
    match (scan, rest) {
        (Scan::Code, [b'(', b'*', ..]) => (Scan::Comment(at, false), true),
        (Scan::Code, [b'/', b'/', ..]) => (Scan::Line, true),
        (Scan::Comment(begin, _), [b'(', b'*', ..]) => (Scan::Comment(begin, true), false),
        (Scan::Comment(_, _), [b'*', b')', ..]) => (Scan::Code, true),
        (Scan::Line, [b'\n', ..]) => (Scan::Code, false),
        _ => (scan, false),
    }
}

/// Where the last comment of a text began that ended and had another beginning inside.
fn outer_comment(text: &[u8]) -> Option<usize> {
    let mut scan = Scan::Code;
    let mut is_second = false;
    let mut found = None;
    for at in 0..text.len() {
        if is_second {
            is_second = false;
            continue;
        }
        let (next, is_pair) = after(scan, at, &text[at..]);
        if let (Scan::Comment(begin, true), Scan::Code) = (scan, next) {
            found = Some(begin);
        }
        scan = next;
        is_second = is_pair;
    }
    found
}

/// Says which comment before an offset has another beginning inside.
pub fn push_comment(message: &mut Text, text: &[u8], start: usize) {
    let before = text.get(..start).unwrap_or(&[]);
    if let Some(begin) = outer_comment(before) {
        message.words(" (comments do not nest: the first *) ends the one that begins with ");
        message.quoted(before.get(begin..).unwrap_or(&[]));
        message.words(")");
    }
}
