//! Bytes of a text that no statement is needed for.

ghost use Rattle.std.specs.Prelude.{◌≡◌, ◌≤◌, length};
ghost use Rattle.fb_inputs.specs.Counts as counts;
ghost use Rattle.fb_deploy_positions.specs.Entries as spec;

use fb_read::token::Span;

/// The length of a byte order mark at the beginning of a text, or 0 if there is none.
fn mark_len(text: &[u8]) -> usize
    ensures value { result ≡ counts.mark_len text.now }
    ensures within { result ≤ length text.now }
{
    match text {
        [0xEF, 0xBB, 0xBF, ..] => 3,
        _ => 0,
    }
}

/// The beginning of a text, after its byte order mark.
pub(crate) fn start_of(text: &[u8]) -> Span
    ensures { result ≡ spec.start_of text.now }
{
    let mark = mark_len(text);
    Span {
        start: mark,
        end: mark,
    }
}

/// An offset of a text after its byte order mark, or its end.
pub(crate) fn byte_span(text: &[u8], at: usize) -> Option<Span>
    ensures { result ≡ spec.byte_span text.now at }
{
    if mark_len(text) <= at && at <= text.len() {
        Some(Span { start: at, end: at })
    } else {
        None
    }
}
