//! The end of a trace.

ghost use Rattle.std.specs.Prelude.{◌≡◌, ◌++◌, ◌↔◌, IfSome, IsTrue, Some, codes};
ghost use Rattle.fb_expect.specs.LineReading as reading;
ghost use Rattle.fb_expect.specs.Traces.{EndsAfter, IsEndOf, IsReason, IsStopText, tick_of};
ghost use Rattle.fb_expect.specs.declared.ending.End.{End as EndModel};

use crate::event::start_of;
use crate::number::magnitude;
use crate::words::{after_front, before};

/// How a trace ends. Ticks are milliseconds.
#[derive(Clone, Copy)]
pub enum End {
    /// All events below this tick were taken.
    Horizon(u64),
    /// A resource stopped in this tick.
    Stop(u64),
    /// The trace is cut off after a line of this tick, or before its first line.
    Cut(u64),
}

impl End {
    /// The tick before which the trace is whole: a deadline below it is decided.
    pub fn tick(self) -> u64
        ensures { result ≡ tick_of self }
    {
        match self {
            End::Horizon(tick) | End::Stop(tick) | End::Cut(tick) => tick,
        }
    }
}

/// Whether a text is a reason to stop.
fn is_reason(text: &[u8]) -> bool
    ensures exact { result ≡ reading.is_reason text.now }
    ensures reason { IsTrue result → IsReason text.now }
{
    text == b"steps".as_slice() || text == b"divide".as_slice() || text == b"range".as_slice()
}

/// The tick of a stop in a text, without the line feed.
#[tactic(auto, unfolding(crate::specs::LineReading::stop_of))]
fn stop_of(text: &[u8]) -> Option<u64>
    ensures text { IfSome result (IsStopText text.now) }
    ensures exact { result ≡ reading.stop_of text.now }
{
    let (tick, _, text) = start_of(text)?;
    if is_reason(after_front(text, b" ")?) {
        Some(tick)
    } else {
        None
    }
}

/// The end in a line, read part by part.
#[tactic(auto, unfolding(crate::specs::LineReading::read_end))]
fn end_of(text: &[u8]) -> Option<End>
    ensures line { IfSome result (IsEndOf text.now) }
    ensures exact { result ≡ reading.read_end text.now }
{
    let text = before(text, b"\n")?;
    match after_front(text, b"end ") {
        Some(digits) => Some(End::Horizon(magnitude(digits)?)),
        None => Some(End::Stop(stop_of(after_front(text, b"stop ")?)?)),
    }
}

/// The end in a line, with its line feed. The line has no other end, and without one it is no last line.
pub(crate) fn read_end(text: &[u8]) -> Option<End>
    ensures line { IfSome result (IsEndOf text.now) }
    ensures only { (end : EndModel) → IsEndOf text.now end → result ≡ Some end }
{
    end_of(text)
}

/// Whether a trace whose last line is of a tick can end so.
pub(crate) fn can_end(tick: u64, end: End) -> bool
    ensures { IsTrue result ↔ EndsAfter tick end }
{
    match end {
        End::Horizon(horizon) => tick < horizon,
        End::Stop(stop) => tick <= stop,
        End::Cut(last) => tick == last,
    }
}
