//! The source line of a place, with a mark.

use crate::places::Place;
use crate::words::{Text, front, shown};
use memchr::memchr;
use std::alloc::{AllocError, Global};

/// The most bytes of a line that are shown.
const MOST_OF_LINE: usize = 200;

/// How many of them are before the place, if the line is cut.
const MOST_BEFORE: usize = 100;

/// The bytes of a text from the beginning of a line on, up to the end of the line, or as far past the marked byte as a
/// line is shown. A carriage return at the end is no part of it.
fn line_round(bytes: &[u8], start: usize, marked: usize) -> &[u8] {
    let rest = bytes.get(start..).unwrap_or(&[]);
    let before = marked.saturating_sub(start);
    let near = front(rest, before.saturating_add(MOST_OF_LINE + 1));
    let after = near.get(before..).unwrap_or(&[]);
    // The line ends past the mark: it is the line of the mark.
    let line = match memchr(b'\n', after) {
        Some(len) => front(near, before.saturating_add(len)),
        None => near,
    };
    match line {
        [shown @ .., b'\r'] => shown,
        _ => line,
    }
}

/// The offset in a line of this length from which on it is shown.
fn first_shown(len: usize, at: usize) -> usize {
    at.saturating_sub(MOST_BEFORE)
        .min(len.saturating_sub(MOST_OF_LINE))
}

/// How a byte of a line is shown. A tab stays one.
fn shown_in_line(byte: u8) -> u8 {
    if byte == b'\t' { byte } else { shown(byte) }
}

/// Adds the line of a text that begins at an offset, cut round the byte at the other offset, and a line with a mark
/// under this byte. A tab before the byte is a tab in the line of the mark too, so that the mark is under the byte.
fn push_marked(text: &mut Text, bytes: &[u8], start: usize, marked: usize) {
    let line = line_round(bytes, start, marked);
    let at = marked.saturating_sub(start);
    let first = first_shown(line.len(), at);
    for byte in front(line.get(first..).unwrap_or(&[]), MOST_OF_LINE) {
        text.letter(shown_in_line(*byte));
    }
    text.letter(b'\n');
    for index in first..at {
        text.letter(match line.get(index) {
            Some(b'\t') => b'\t',
            _ => b' ',
        });
    }
    text.letter(b'^');
}

/// The line in which a place begins, and a line with a mark under its first byte.
///
/// # Errors
///
/// When memory runs out.
pub fn excerpt(alloc: Global, bytes: &[u8], place: Place) -> Result<String, AllocError> {
    let mut text = Text::new(alloc);
    let before = place.column.saturating_sub(1);
    push_marked(
        &mut text,
        bytes,
        place.start.saturating_sub(before),
        place.start,
    );
    text.into_string()
}
