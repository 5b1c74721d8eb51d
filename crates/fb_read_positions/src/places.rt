//! Places in a text, with their lines and columns.

ghost use Rattle.std.specs.Prelude.{◌≡◌, ◌≤◌, ◌<◌, ◌==◌, IfSome, IsTrue, count_by, length};
ghost use Rattle.std.specs.Option.{is_some};
ghost use Rattle.fb_read.specs.Blank as spec;
ghost use Rattle.fb_read.specs.Tokens.{after_mark};
ghost use Rattle.fb_read_positions.specs.Places.{IsCounted, IsPlace, IsStretch, IsWithin};

use memchr::memrchr;

/// A place in a text: the bytes from `start` up to `end`, both offsets in bytes. It is empty at the end of the text.
#[derive(Clone, Copy)]
pub struct Place {
    /// The offset of the first byte.
    pub start: usize,
    /// The offset past the last byte.
    pub end: usize,
    /// The line of `start`, counted from 1 by line feeds.
    pub line: usize,
    /// The column of `start`, counted from 1 by bytes.
    pub column: usize,
}

/// The byte at an index, or 0 past the end.
fn at(bytes: &[u8], i: usize) -> u8
    ensures value { result ≡ spec.at bytes.now i }
    ensures within { 0 < result → i < length bytes.now }
{
    if i < bytes.len() { bytes[i] } else { 0 }
}

/// What follows one leading byte order mark.
pub fn after_mark(text: &[u8]) -> &[u8]
    ensures value { result.now ≡ after_mark text.now }
    ensures shorter { length result.now ≤ length text.now }
{
    if at(text, 0) == 0xEF && at(text, 1) == 0xBB && at(text, 2) == 0xBF {
        &text[3..]
    } else {
        text
    }
}

/// The line and the column at an offset of a text, both counted from 1: lines by line feeds, columns by bytes.
#[derive(Clone, Copy)]
pub struct Counted {
    pub line: usize,
    pub column: usize,
}

/// The most bytes whose line feeds are counted in one byte.
const MOST_AT_ONCE: usize = 255;

/// How many line feeds a few bytes have. The sum is a byte, so that the compiler adds up many at once.
fn few_line_feeds(bytes: &[u8]) -> u8
    requires { length bytes.now ≤ 255 }
    ensures { result ≡ count_by (λ b. b == 10) bytes.now }
{
    let mut found = 0;
    for byte in bytes {
        found += u8::from(*byte == b'\n');
    }
    found
}

/// How many line feeds these bytes have.
fn line_feeds(bytes: &[u8]) -> usize
    ensures { result ≡ count_by (λ b. b == 10) bytes.now }
{
    let mut found = 0;
    let mut from = 0;
    while from < bytes.len() {
        let to = bytes.len().min(from + MOST_AT_ONCE);
        found += usize::from(few_line_feeds(&bytes[from..to]));
        from = to;
    }
    found
}

/// The line and the column at an offset, from those at an earlier one.
fn count_to(text: &[u8], from: usize, to: usize, earlier: Counted) -> Counted
    requires ordered { from ≤ to }
    requires within { to ≤ length text.now }
    requires there { IsCounted text.now from earlier }
    ensures { IsCounted text.now to result }
{
    let passed = &text[from..to];
    let line = earlier.line + line_feeds(passed);
    match memrchr(b'\n', passed) {
        Some(at) => Counted {
            line,
            column: passed.len() - at,
        },
        None => Counted {
            line,
            column: earlier.column + passed.len(),
        },
    }
}

/// The line and the column at an offset, counted on from an earlier place, if there is one that is not after it.
fn count_from(text: &[u8], earlier: Option<Place>, to: usize) -> Counted
    requires within { to ≤ length text.now }
    requires earlier { IfSome earlier (IsPlace text.now) }
    ensures { IsCounted text.now to result }
{
    match earlier {
        Some(from) if from.start <= to => {
            let Place { line, column, .. } = from;
            count_to(text, from.start, to, Counted { line, column })
        }
        _ => {
            let start = Counted { line: 1, column: 1 };
            count_to(text, 0, to, start)
        }
    }
}

/// The bytes between two offsets, if the text has them after its byte order mark. Lines are counted on from an earlier
/// place, if one is given.
pub fn place_counted_from(
    text: &[u8],
    earlier: Option<Place>,
    start: usize,
    end: usize,
) -> Option<Place>
    requires { IfSome earlier (IsPlace text.now) }
    ensures place { IfSome result (IsPlace text.now) }
    ensures there { IfSome result (λ place. IsStretch start end place) }
    ensures within { IsWithin text.now start end → IsTrue (is_some result) }
{
    if start > end || end > text.len() || start < text.len() - after_mark(text).len() {
        return None;
    }
    let Counted { line, column } = count_from(text, earlier, start);
    Some(Place {
        start,
        end,
        line,
        column,
    })
}

/// The bytes between two offsets, if the text has them after its byte order mark.
pub fn place_between(text: &[u8], start: usize, end: usize) -> Option<Place>
    ensures place { IfSome result (IsPlace text.now) }
    ensures there { IfSome result (λ place. IsStretch start end place) }
    ensures within { IsWithin text.now start end → IsTrue (is_some result) }
{
    place_counted_from(text, None, start, end)
}
