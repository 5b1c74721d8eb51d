//! What scans of a text have in common.

ghost use Rattle.std.specs.Prelude.{◌≡◌, ◌+◌, ◌<◌, ◌≤◌, ◌^◌, if◌then◌else◌, length};
ghost use Rattle.fb_inputs.specs.Counts.{mark_len};
ghost use Rattle.fb_inputs.specs.NearSpans.{IsStart};

use fb_read::token::Span;

/// The length of a byte order mark at the beginning of a text, or 0 if there is none.
pub(crate) fn mark_len(text: &[u8]) -> usize
    ensures value { result ≡ mark_len text.now }
    ensures within { result ≤ length text.now }
{
    match text {
        [0xEF, 0xBB, 0xBF, ..] => 3,
        _ => 0,
    }
}

/// The beginning of a text, after its byte order mark.
pub(crate) fn start_of(text: &[u8]) -> Span
    ensures { IsStart text.now result }
{
    let mark = mark_len(text);
    Span {
        start: mark,
        end: mark,
    }
}

/// A count, and one more if a test was passed.
pub(crate) fn count_if(count: usize, passes: bool) -> usize
    requires { count < 2 ^ 63 }
    ensures { result ≡ (if passes then count + 1 else count) }
{
    if passes { count + 1 } else { count }
}
