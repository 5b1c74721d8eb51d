//! What taking an event puts out.

ghost use Rattle.std.specs.Prelude.{◌≡◌};
ghost use Rattle.fb_net.specs.Outs.{asked};

use fb_types::{Line, MessageValues, Target, TimerAsk};

/// An event on its way to another resource, before it has a number and a tick of arrival.
#[derive(Drop)]
pub struct OutgoingMessage {
    pub link: u32,
    pub target: Target,
    /// The values of the variables WITH the event that was emitted.
    pub values: MessageValues,
}

/// What a reaction puts out: an event in the same resource, or one that goes to another.
#[derive(Drop)]
pub enum Out {
    Local(Target),
    Send(OutgoingMessage),
}

/// The lines, the events that go out in their order, and what the reactions ask of the timer of their instance.
pub struct Outbox {
    pub lines: Vec<Line>,
    pub outs: Vec<Out>,
    pub timer: TimerAsk,
}

// Drop is written by hand, so that callers need not prove it again (docs/DECISIONS.md, "Drop").
impl Drop for Outbox {
    fn drop(self) {
        let Outbox {
            lines: _,
            outs: _,
            timer: _,
        } = self;
    }
}

impl Outbox {
    /// Asks this of the timer. Where it asks nothing, what was asked before stays.
    #[inline(always)]
    pub(crate) fn ask_timer(&mut self, ask: TimerAsk)
        ensures { self.new ≡ record self.old { timer = asked self.old.timer ask } }
    {
        match ask {
            TimerAsk::Keep => {}
            TimerAsk::Clear | TimerAsk::At(_) => self.timer = ask,
        }
    }
}
