//! Traces that are cut off.

ghost use Rattle.std.specs.Prelude.{◌≡◌, ◌-◌, length, slice_get};
ghost use Rattle.fb_wave.specs.CutOff as spec;

/// Whether a trace may be cut off: end without a last line, or within a line, which then does not count.
#[derive(Clone, Copy, PartialEq, Eq)]
pub enum Cut {
    Refused,
    Allowed,
}

/// Whether a line does not end in a line feed.
pub fn is_unended(line: &[u8]) -> bool
    ensures { result ≡ spec.is_unended line.now }
{
    match line.last() {
        Some(last) => *last != b'\n',
        None => true,
    }
}

/// Whether a trace that may be cut off ends before this line: the line is empty, or does not end in a line feed.
pub fn is_cut(cut: Cut, line: &[u8]) -> bool
    ensures { result ≡ spec.is_cut cut line.now }
{
    match cut {
        Cut::Refused => false,
        Cut::Allowed => is_unended(line),
    }
}
