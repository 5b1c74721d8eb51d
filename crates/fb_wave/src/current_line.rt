//! The line of a trace that was read last.

ghost use Rattle.std.specs.Prelude.{◌≡◌};

use fb_types::Form;
use std::alloc::Global;

/// The line of a trace that was read last, and what was known before it. After a refusal it is the refused line.
#[derive(Drop)]
pub struct CurrentLine {
    /// The line with its line feed, if it has one. It is empty at the end of the text.
    pub text: Vec<u8>,
    /// The form of the lines of the trace.
    pub form: Form,
    /// The tick of the line before it, in milliseconds, or 0 before the first.
    pub tick: u64,
    /// Whether a last line of the trace comes before it.
    pub after_end: bool,
}

impl CurrentLine {
    /// Before any line was read.
    pub fn new(alloc: Global) -> CurrentLine {
        CurrentLine {
            text: Vec::new(alloc),
            form: Form::One,
            tick: 0,
            after_end: false,
        }
    }

    /// Notes the tick of the line before it.
    pub(crate) fn follow(&mut self, tick: u64)
        ensures { self.new ≡ record self.old { tick = tick } }
    {
        self.tick = tick;
    }
}
