//! Blanks and comments.

ghost use Rattle.std.specs.Prelude.{◌≡◌, ◌<◌, ◌≤◌, length, drop, None, option_map, IfSome};
ghost use Rattle.fb_read.specs.Blank as spec;
ghost use Rattle.fb_read.specs.Located as located;

/// What the next byte may be part of.
#[derive(Clone, Copy)]
pub enum BlankState {
    Between,
    /// The star of `(*`.
    Opening,
    Inside,
    /// The bracket of `*)`.
    Closing,
    /// A comment that began with `//`.
    Line,
}

/// The byte at an index, or 0 past the end.
pub fn at(bytes: &[u8], i: usize) -> u8
    ensures value { result ≡ spec.at bytes.now i }
    ensures within { 0 < result → i < length bytes.now }
{
    if i < bytes.len() { bytes[i] } else { 0 }
}

fn is_blank(b: u8) -> bool
    ensures { result ≡ spec.is_blank b }
{
    b == b' ' || b == b'\t' || b == b'\r' || b == b'\n'
}

/// The position after this byte, or `None` if a token begins.
fn step(state: BlankState, b: u8, next: u8) -> Option<BlankState>
    ensures { result ≡ spec.step state b next }
{
    match state {
        BlankState::Between => {
            if is_blank(b) {
                Some(BlankState::Between)
            } else if b == b'(' && next == b'*' {
                Some(BlankState::Opening)
            } else if b == b'/' && next == b'/' {
                Some(BlankState::Line)
            } else {
                None
            }
        }
        BlankState::Opening => Some(BlankState::Inside),
        BlankState::Inside => {
            if b == b'*' && next == b')' {
                Some(BlankState::Closing)
            } else {
                Some(BlankState::Inside)
            }
        }
        BlankState::Closing => Some(BlankState::Between),
        BlankState::Line => {
            if b == b'\n' {
                Some(BlankState::Between)
            } else {
                Some(BlankState::Line)
            }
        }
    }
}

fn may_end(state: BlankState) -> bool
    ensures { result ≡ spec.may_end state }
{
    match state {
        BlankState::Between | BlankState::Line => true,
        _ => false,
    }
}

/// The text from its next token on, or `None` if a comment is not closed.
pub fn skip(bytes: &[u8]) -> Option<&[u8]>
    ensures value { option_map (λ s. s.now) result ≡ spec.skip spec.start bytes.now }
    ensures shorter { IfSome result (λ s. length s.now ≤ length bytes.now) }
{
    let mut state = BlankState::Between;
    for i in 0..bytes.len() {
        match step(state, bytes[i], at(bytes, i + 1)) {
            Some(next) => state = next,
            None => return Some(&bytes[i..]),
        }
    }
    if may_end(state) { Some(&[]) } else { None }
}

/// The index at which the comment begins that goes on after a byte, if one does: the last index between comments.
fn begun(state: BlankState, i: usize, before: usize) -> usize
    ensures { result ≡ located.begun state i before }
{
    match state {
        BlankState::Between => i,
        _ => before,
    }
}

/// The index at which the comment begins that is not closed.
pub fn open_comment(bytes: &[u8]) -> usize
    requires { spec.skip spec.start bytes.now ≡ None }
    ensures within { result < length bytes.now }
    ensures there { spec.at bytes.now result ≡ 40 }
    ensures none { spec.skip spec.start (drop result bytes.now) ≡ None }
{
    let mut state = BlankState::Between;
    let mut before = 0;
    for i in 0..bytes.len() {
        before = begun(state, i, before);
        match step(state, bytes[i], at(bytes, i + 1)) {
            Some(next) => state = next,
            None => unreachable!(),
        }
    }
    before
}
