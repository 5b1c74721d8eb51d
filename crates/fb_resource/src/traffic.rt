//! What the takings of events read and add to: the agenda, the messages and the lines.

ghost use Rattle.std.specs.Prelude.{◌≡◌};
ghost use Rattle.fb_resource.specs.Takings.{IsEmpty};

use fb_agenda::Agenda;
use fb_net::Outbox;
use fb_types::{Line, Message, TimerAsk};
use std::alloc::Global;

/// What the takings of events read and add to.
pub struct Traffic {
    /// The events that wait.
    pub agenda: Agenda,
    /// For each link the count of the messages that were sent on it.
    pub sent: Vec<u128>,
    /// The messages that were sent, in their order.
    pub mail: Vec<Message>,
    /// The lines, and room for what one reaction puts out.
    pub outbox: Outbox,
}

// Drop is written by hand, so that callers need not prove it again (docs/DECISIONS.md, "Drop").
impl Drop for Traffic {
    fn drop(self) {
        let Traffic {
            agenda: _,
            sent: _,
            mail: _,
            outbox: _,
        } = self;
    }
}

impl Traffic {
    /// These events wait, and these counts are those of the links. No taking has given anything.
    pub fn new(alloc: Global, agenda: Agenda, sent: Vec<u128>) -> Traffic
        ensures agenda { result.agenda ≡ agenda }
        ensures sent { result.sent ≡ sent }
        ensures empty { IsEmpty result }
    {
        Traffic::over(alloc, agenda, sent, Vec::new(alloc))
    }

    /// The same, but lines go where those of this list were, which are dropped.
    pub(crate) fn over(
        alloc: Global,
        agenda: Agenda,
        sent: Vec<u128>,
        mut spent: Vec<Line>,
    ) -> Traffic
        ensures agenda { result.agenda ≡ agenda }
        ensures sent { result.sent ≡ sent }
        ensures empty { IsEmpty result }
    {
        spent.clear();
        Traffic {
            agenda,
            sent,
            mail: Vec::new(alloc),
            outbox: Outbox {
                lines: spent,
                outs: Vec::new(alloc),
                timer: TimerAsk::Keep,
            },
        }
    }

    /// The agenda and the counts of the links. What takings gave is dropped.
    pub(crate) fn into_kept(self) -> (Agenda, Vec<u128>)
        ensures agenda { result.0 ≡ self.agenda }
        ensures sent { result.1 ≡ self.sent }
    {
        let Traffic {
            agenda,
            sent,
            mail: _,
            outbox: _,
        } = self;
        (agenda, sent)
    }
}
