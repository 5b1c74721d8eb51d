//! What is wrong with the line of a trace that was read last.

ghost use Rattle.std.specs.Prelude.{MatchOption};
ghost use Rattle.fb_inspect.specs.OfSystem.{Applies, CanGoOn, IsLineNext};

use crate::refused::fault_port::port_fault;
use crate::refused::line_fault::LineFault;
use fb_system::System;
use fb_wave::last::read_last;
use fb_wave::line::parts_of;
use fb_wave::number::tick;
use fb_wave::truncation::is_unended;
use fb_wave::words::after_front;
use fb_wave::{CurrentLine, can_end};

/// Whether a line begins like a last line.
fn is_like_end(text: &[u8]) -> bool {
    after_front(text, b"end ").is_some() || after_front(text, b"stop ").is_some()
}

/// What is wrong with a line of an event.
fn event_line_fault<'a>(system: &System, current: &'a CurrentLine) -> Option<LineFault<'a>>
    ensures { MatchOption result (IsLineNext system.now current.now) (Applies system.now current.now) }
{
    system.facts(); // for the prover: what holds of every accepted system
    let Some(head) = parts_of(current.form, current.text.as_slice()) else {
        return Some(LineFault::Key);
    };
    let Some(tick) = tick(head.1) else {
        return Some(LineFault::Tick);
    };
    if tick.0 < current.tick {
        return Some(LineFault::Falls(tick.0));
    }
    match port_fault(system, tick.1) {
        Some(fault) => Some(LineFault::Port(fault)),
        None => None,
    }
}

/// The first thing that is wrong in the line that was read last. If there is nothing, a trace can go on with the line.
pub fn fault_of<'a>(system: &System, current: &'a CurrentLine) -> Option<LineFault<'a>>
    ensures { MatchOption result (CanGoOn system.now current.now) (Applies system.now current.now) }
{
    let text = current.text.as_slice();
    if current.after_end {
        return Some(LineFault::AfterEnd);
    }
    if text.is_empty() {
        return Some(LineFault::Missing);
    }
    if is_unended(text) {
        return Some(LineFault::Unended);
    }
    if let Some(end) = read_last(system, text) {
        return if can_end(current.tick, end) {
            None
        } else {
            Some(LineFault::Early(end))
        };
    }
    if is_like_end(text) {
        return Some(LineFault::NoEnd);
    }
    event_line_fault(system, current)
}
