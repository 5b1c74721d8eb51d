//! What the words of a stop say of values: the value that does not fit and its limits, and the operands.

use crate::assigned::assigned_type;
use crate::found::{FoundStop, StopSite};
use crate::operation::Operands;
use crate::shown::{Shown, any_operation};
use crate::site::{Inside, Site};
use fb_read_positions::words::{Text, shown as printable};
use fb_types::{BasicType, Body, Reason, Ty, Value};

/// The greatest number of bytes of an operation that are shown.
const MOST_WRITTEN: usize = 100;

/// The bytes between two offsets of a text, or none.
fn between(text: &[u8], start: usize, end: usize) -> &[u8] {
    text.get(start..end).unwrap_or(&[])
}

/// The bytes of an operation in a text.
fn written(text: &[u8], shown: Option<Shown>) -> &[u8] {
    match shown {
        Some(Shown { start, end, .. }) => between(text, start, end),
        None => &[],
    }
}

/// Appends bytes as they are written, on one line: what is between two tokens is one blank. A long text is cut off.
fn push_written(text: &mut Text, bytes: &[u8]) {
    let mut is_apart = false;
    for (index, byte) in bytes.iter().enumerate() {
        if index == MOST_WRITTEN {
            text.words(" ..");
            return;
        }
        if byte.is_ascii_whitespace() {
            is_apart = true;
        } else {
            if is_apart {
                text.words(" ");
            }
            is_apart = false;
            text.letter(printable(*byte));
        }
    }
}

/// Appends the operation of a stop as it is written in a text, if it has one.
pub(crate) fn push_operation(text: &mut Text, declaration: &[u8], shown: Option<Shown>) {
    let bytes = written(declaration, shown);
    if !bytes.is_empty() {
        push_written(text, bytes);
        text.words(": ");
    }
}

/// What a reason is called, as in a trace.
fn reason_word(reason: Reason) -> &'static str {
    match reason {
        Reason::Steps => "steps",
        Reason::Divide => "divide",
        Reason::Range => "range",
    }
}

/// The least and the greatest number of a type, as they are shown. BOOL has none.
fn limits_of(ty: Ty) -> &'static str {
    match ty {
        Ty::Bool => "FALSE to TRUE",
        Ty::Sint => "-128 to 127",
        Ty::Int => "-32768 to 32767",
        Ty::Dint => "-2147483648 to 2147483647",
        Ty::Lint | Ty::Time => "-9223372036854775808 to 9223372036854775807",
        Ty::Usint => "0 to 255",
        Ty::Uint => "0 to 65535",
        Ty::Udint => "0 to 4294967295",
        Ty::Ulint => "0 to 18446744073709551615",
    }
}

/// The body of the algorithm of an action.
fn body_of(block: &BasicType, state: usize, action: usize) -> Option<&Body> {
    let name = block
        .states
        .get(state)?
        .actions
        .get(action)?
        .algorithm
        .as_ref()?;
    for algorithm in block.algorithms.as_slice() {
        if algorithm.name.is(name) {
            return Some(&algorithm.body);
        }
    }
    None
}

/// Appends the value that does not fit a variable, and what its type holds.
fn push_unfit(text: &mut Text, block: &BasicType, site: Site) {
    let Site::Action {
        state,
        action,
        inside: Some(
            Inside {
                statement,
                value: Some(value),
                ..
            },
        ),
    } = site
    else {
        text.words(": the result is not within -2^127 to 2^127-1");
        return;
    };
    text.words(": ");
    text.value(value);
    if let Some(body) = body_of(block, state, action) {
        if let Some(ty) = assigned_type(body, statement, block) {
            text.phrase(&[" is not within ", limits_of(ty)]);
        }
    }
}

/// Where a scan of a text is among its comments, which do not nest.
#[derive(Clone, Copy)]
struct Comments {
    /// Whether it is in a comment that ends with a mark.
    is_marked: bool,
    /// Whether it is in a comment up to the end of a line.
    is_line: bool,
    /// Whether the next byte is the second one of a mark that begins or ends a comment.
    is_second: bool,
}

/// A scan that is in no comment.
const NO_COMMENT: Comments = Comments {
    is_marked: false,
    is_line: false,
    is_second: false,
};

impl Comments {
    /// Goes past the first of these bytes. Returns whether it is a blank, or part of a comment.
    fn passes(&mut self, rest: &[u8]) -> bool {
        match rest {
            [byte, ..] if self.is_line => self.is_line = *byte != b'\n',
            _ if self.is_second => self.is_second = false,
            [b'*', b')', ..] if self.is_marked => {
                self.is_marked = false;
                self.is_second = true;
            }
            _ if self.is_marked => {}
            [b'(', b'*', ..] => {
                self.is_marked = true;
                self.is_second = true;
            }
            [b'/', b'/', ..] => self.is_line = true,
            [byte, ..] => return byte.is_ascii_whitespace(),
            [] => {}
        }
        true
    }
}

/// The bytes without the blanks and the comments at both ends.
fn trimmed(bytes: &[u8]) -> &[u8] {
    let mut comments = NO_COMMENT;
    let mut first = bytes.len();
    let mut end = 0;
    for at in 0..bytes.len() {
        if !comments.passes(&bytes[at..]) {
            first = first.min(at);
            end = at + 1;
        }
    }
    between(bytes, first, end)
}

/// Whether bytes are a number or nothing, of which nothing need be said.
fn is_plain(bytes: &[u8]) -> bool {
    for byte in bytes {
        if !byte.is_ascii_digit() && *byte != b'_' && *byte != b'-' {
            return false;
        }
    }
    true
}

/// Whether a closing parenthesis before the last byte is the one of the first byte.
fn closes_early(bytes: &[u8]) -> bool {
    let mut comments = NO_COMMENT;
    let mut depth = 0_usize;
    for at in 0..bytes.len() {
        if comments.passes(&bytes[at..]) {
            continue;
        }
        match bytes[at] {
            b'(' => depth = depth.saturating_add(1),
            b')' => depth = depth.saturating_sub(1),
            _ => {}
        }
        if depth == 0 {
            return at < bytes.len() - 1;
        }
    }
    false
}

/// An operand without the blanks and the comments at its ends, and the parentheses that are round all of it.
fn bared(bytes: &[u8]) -> &[u8] {
    match trimmed(bytes) {
        [b'(', inside @ .., b')'] if !closes_early(trimmed(bytes)) => trimmed(inside),
        bytes => bytes,
    }
}

/// Operands that are said, one after the other in parentheses.
#[derive(Clone, Copy)]
struct Said<'a> {
    /// What was said last.
    last: &'a [u8],
    before: &'static str,
}

impl<'a> Said<'a> {
    /// Appends an operand as it is written, with its value. One that was said last is not said again.
    fn push(&mut self, text: &mut Text, bytes: &'a [u8], value: Option<Value>) {
        let bytes = bared(bytes);
        let Some(value) = value else {
            return;
        };
        if is_plain(bytes) || bytes == self.last {
            return;
        }
        text.words(self.before);
        push_written(text, bytes);
        text.words(" is ");
        text.value(value);
        self.last = bytes;
        self.before = ", ";
    }
}

/// The bytes of the first argument of a call, and those after its comma. The bytes begin after the parenthesis.
fn split_argument(bytes: &[u8]) -> (&[u8], &[u8]) {
    let mut comments = NO_COMMENT;
    let mut depth = 0_usize;
    for at in 0..bytes.len() {
        if comments.passes(&bytes[at..]) {
            continue;
        }
        match bytes[at] {
            b'(' => depth = depth.saturating_add(1),
            b')' if depth == 0 => return (&bytes[..at], &[]),
            b')' => depth -= 1,
            b',' if depth == 0 => return (&bytes[..at], &bytes[at + 1..]),
            _ => {}
        }
    }
    (bytes, &[])
}

/// Appends the arguments of a call. The bytes begin at its parenthesis.
fn push_arguments<'a>(text: &mut Text, said: &mut Said<'a>, bytes: &'a [u8], values: Operands) {
    let inside = match trimmed(bytes) {
        [b'(', inside @ ..] => inside,
        _ => &[],
    };
    let (first, rest) = split_argument(inside);
    let (second, rest) = split_argument(rest);
    let (third, _) = split_argument(rest);
    said.push(text, first, values.first);
    said.push(text, second, values.second);
    said.push(text, third, values.third);
}

/// Appends the operands of an operation that is written there, with their values. Of a division by 0 this is the
/// dividend.
fn push_operands(
    text: &mut Text,
    declaration: &[u8],
    shown: Shown,
    values: Operands,
    reason: Reason,
) {
    let mut said = Said {
        last: &[],
        before: " (",
    };
    let sign = between(declaration, shown.operator.start, shown.operator.end);
    let after = between(declaration, shown.operator.end, shown.end);
    let is_divided = matches!(reason, Reason::Divide);
    if shown.start < shown.operator.start {
        let before = between(declaration, shown.start, shown.operator.start);
        said.push(text, before, values.first);
        if !is_divided {
            said.push(text, after, values.second);
        }
    } else if sign.first().is_some_and(|byte| byte.is_ascii_alphabetic()) {
        push_arguments(text, &mut said, after, values);
    } else {
        said.push(text, after, values.first);
    }
    if said.before == ", " {
        text.words(")");
    }
}

/// Appends the reason of a stop, and the values that give it.
pub(crate) fn push_reason(
    text: &mut Text,
    block: Option<&BasicType>,
    stop: &FoundStop,
    declaration: &[u8],
    shown: Option<Shown>,
) {
    text.words(reason_word(stop.reason));
    if let (Reason::Range, Some(block), StopSite::InReaction(site)) = (
        stop.reason,
        block,
        stop.site,
    ) {
        push_unfit(text, block, site);
    }
    if let (Some(operation), Some(shown)) = (any_operation(stop.site), shown) {
        push_operands(text, declaration, shown, operation.operands, stop.reason);
    }
}
