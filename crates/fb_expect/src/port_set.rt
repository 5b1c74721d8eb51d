//! Which lines matter to a rule, by the prints of their ports, so that most lines are passed over at once.

ghost use Rattle.std.specs.Prelude.{◌≡◌, ◌%◌, false, replicate, slice_index_or, slice_set, true};
ghost use Rattle.fb_expect.specs.Events.{event_of};
ghost use Rattle.fb_expect.specs.Passing.{Adds, AddsOptional, Covers, IsTimeless};
ghost use Rattle.fb_expect.specs.Fingerprints as prints;

use crate::entry::Entry;
use crate::fingerprint::fingerprint_of;
use crate::pattern::Pattern;
use crate::port_pattern::PortForm;
use crate::rule::{Need, Rule};

/// For how many remainders of a print a set says whether ports with it matter.
const REMAINDERS: usize = 64;

/// For each remainder of a print, whether ports with it may matter.
#[derive(Clone, Copy)]
pub(crate) struct PortSet {
    marks: [bool; REMAINDERS],
}

/// All ports.
fn everything() -> [bool; REMAINDERS]
    ensures { result ≡ replicate 64 true }
{
    [true; REMAINDERS]
}

/// No ports.
fn nothing() -> [bool; REMAINDERS] {
    [false; REMAINDERS]
}

/// The marks with that for a port.
fn with_port(mut marks: [bool; REMAINDERS], port: &[u8]) -> [bool; REMAINDERS]
    ensures { result ≡ slice_set marks (prints.fingerprint port.now % 64) true }
{
    marks[(fingerprint_of(port) % 64) as usize] = true;
    marks
}

/// The marks with those for the ports of a pattern.
fn with_pattern(marks: [bool; REMAINDERS], pattern: &Pattern) -> [bool; REMAINDERS]
    ensures { Adds marks pattern.now result }
{
    match pattern.port.form {
        PortForm::Whole => with_port(marks, pattern.port.text.as_slice()),
        PortForm::Open | PortForm::Stars => everything(),
    }
}

/// The same for a pattern that may be absent.
fn with_optional(marks: [bool; REMAINDERS], pattern: &Option<Pattern>) -> [bool; REMAINDERS]
    ensures { AddsOptional marks pattern.now result }
{
    match pattern {
        Some(pattern) => with_pattern(marks, pattern),
        None => marks,
    }
}

/// Whether the tick of each line matters to a rule, whatever its port: a window may be over.
fn has_windows(need: Need) -> bool
    ensures { result ≡ false → IsTimeless need }
{
    matches!(need, Need::Count { every: Some(_), .. })
}

/// The ports whose lines matter to a rule.
pub(crate) fn ports_of(rule: &Rule) -> PortSet
    ensures { Covers result.marks rule.now }
{
    if has_windows(rule.need) {
        return PortSet {
            marks: everything(),
        };
    }
    let marks = with_pattern(nothing(), &rule.first);
    let marks = with_optional(marks, &rule.second);
    PortSet {
        marks: with_optional(marks, &rule.third),
    }
}

impl PortSet {
    /// Whether a line may matter.
    #[inline(always)]
    pub(crate) fn may_have(&self, entry: &Entry<'_>) -> bool
        ensures { result ≡ slice_index_or self.now.marks (prints.fingerprint entry.now.port.now % 64) true }
    {
        self.marks[(entry.fingerprint() % 64) as usize]
    }
}
