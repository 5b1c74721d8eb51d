//! What a round has done, and how the next one is made of it.

ghost use Rattle.std.specs.Prelude.{◌≡◌, ◌+◌, ◌≤◌};
ghost use Rattle.fb_trace.specs.Progress.{bounded};

use crate::options::Options;

/// If a round gives fewer lines than this, a thread would cost more than it saves. So would looking at each resource and
/// each link, which a round does and a turn of a single resource does not.
const MANY_LINES: usize = 64;

/// How many turns of single resources go before a window, where the one before had little to do. The lines that they
/// give wait for that window.
const TURNS: u64 = 256;

/// A window is to give no more lines: they are all in memory at once, and are moved and written soonest while a
/// processor's cache holds them.
const FULL: usize = 32_768;

/// No more bytes are kept ready for the text of a round.
const MOST_ROOM: u128 = 4_194_304;

/// How many ticks past the least event a bound may be at most, so that a round does not gather lines without end.
pub(crate) const LONGEST_WINDOW: u64 = 1024;

/// How many ticks past the least event a bound of the first round may be at least.
const SHORT_WINDOW: u64 = 16;

/// How many ticks past the least event a bound of the first round may be. Nobody knows yet how many lines a tick gives:
/// these are few enough where each instance gives one.
pub(crate) fn first_window(instances: usize) -> u64
    ensures some { 1 ≤ result }
    ensures few { result ≤ 1024 }
{
    let ticks = (FULL / instances.max(1)) as u64;
    ticks.max(SHORT_WINDOW).min(LONGEST_WINDOW)
}

/// What a round has done.
#[derive(Clone, Copy)]
pub(crate) struct Tally {
    /// The bytes that it wrote.
    pub bytes: u128,
    /// The resources that had something to do in its window.
    pub busy: usize,
    /// The lines that they gave.
    pub lines: usize,
    /// The lines that it wrote.
    pub final_lines: u128,
}

/// What a run has written, without a last line.
#[derive(Clone, Copy)]
pub(crate) struct Written {
    /// The bytes, up to the greatest `u128`.
    pub bytes: u128,
    /// The lines, up to the greatest `u128`.
    pub lines: u128,
}

impl Written {
    /// What is written once a round is written too.
    pub(crate) fn with(self, round: &Tally) -> Written
        ensures { result ≡ record { bytes = bounded (self.bytes + round.now.bytes); lines = bounded (self.lines + round.now.final_lines) } }
    {
        Written {
            bytes: self.bytes.saturating_add(round.bytes),
            lines: self.lines.saturating_add(round.final_lines),
        }
    }

    /// What is written once this is written too.
    pub(crate) fn and(self, rest: Written) -> Written
        ensures { result ≡ record { bytes = bounded (self.bytes + rest.bytes); lines = bounded (self.lines + rest.lines) } }
    {
        Written {
            bytes: self.bytes.saturating_add(rest.bytes),
            lines: self.lines.saturating_add(rest.lines),
        }
    }
}

/// How a round is made.
#[derive(Clone, Copy)]
pub(crate) struct RoundPlan {
    /// The options of the run, but with as many workers as the round has at most.
    pub options: Options,
    /// How many turns of single resources go before its window, at most.
    pub turns: u64,
    /// How many ticks past the least event a bound of its window may be.
    pub ticks: u64,
}

impl Tally {
    /// Whether it was a light round: fewer than two resources had something to do, or they gave few lines.
    fn is_light(&self) -> bool {
        self.busy < 2 || self.lines < MANY_LINES
    }

    /// How many workers the next round has at most.
    pub(crate) fn workers(&self, most: u64) -> u64
        requires some { 1 ≤ most }
        requires few { most ≤ 64 }
        ensures some { 1 ≤ result }
        ensures few { result ≤ 64 }
    {
        if self.is_light() { 1 } else { most }
    }

    /// How many turns of single resources go before the window of the next round, at most.
    pub(crate) fn turns(&self) -> u64
        ensures few { result ≤ 256 }
    {
        if self.is_light() { TURNS } else { 0 }
    }

    /// How many bytes the next round will mostly write at most.
    pub(crate) fn room(&self) -> usize {
        let bytes = self.bytes.min(MOST_ROOM) as usize;
        bytes + bytes / 4
    }

    /// How many ticks past the least event a bound of the next round may be, where it was this many in this one.
    pub(crate) fn ticks(&self, last: u64) -> u64
        requires some { 1 ≤ last }
        requires few { last ≤ 1024 }
        ensures some { 1 ≤ result }
        ensures few { result ≤ 1024 }
    {
        if self.lines > FULL {
            let ticks = last * (FULL as u64) / (self.lines as u64);
            ticks.max(1).min(LONGEST_WINDOW)
        } else if self.lines < FULL / 4 {
            (last * 2).min(LONGEST_WINDOW)
        } else {
            last
        }
    }
}
