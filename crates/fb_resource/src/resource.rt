//! One resource by itself: what it holds, and what is asked of it between its runs.

ghost use Rattle.std.specs.Prelude.{◌≡◌, ◌<◌, None, IfNone, IfSome};
ghost use Rattle.std.specs.Bool.{OnFalse, OnTrue};
ghost use Rattle.fb_types.specs.declared.key.Key.{Key};
ghost use Rattle.fb_agenda.specs.Agendas.{IsNext, waiting};
ghost use Rattle.fb_resource.specs.Resources.{IsBusy};

mod open;
mod receive;
mod run;

use fb_agenda::Agenda;
use fb_net::Tree;
use fb_types::{Line, Message, Reason, StopMark};

/// One resource by itself, between two runs.
pub struct Resource {
    /// Its blocks, and its copies of other resources' variables.
    tree: Tree,
    /// All below this tick is taken; where it stopped, the tick of its stop.
    clock: u64,
    /// Its events that wait.
    agenda: Agenda,
    /// For each link the count of the messages that it has sent on it.
    sent: Vec<u128>,
    /// Why it stopped, if it has.
    stopped: Option<Reason>,
}

// Drop is written by hand, so that callers need not prove it again (docs/DECISIONS.md, "Drop").
impl Drop for Resource {
    fn drop(self) {
        let Resource {
            tree: _,
            clock: _,
            agenda: _,
            sent: _,
            stopped: _,
        } = self;
    }
}

/// What a resource gave in a run.
#[derive(Drop)]
pub struct Output {
    /// The lines, in its order.
    pub lines: Vec<Line>,
    /// The messages that it sent, in its order.
    pub sent: Vec<Message>,
    /// Where and why it stopped, if it did.
    pub stop: Option<StopMark>,
}

/// What became of a resource that ran below a tick.
#[derive(Drop)]
pub enum WindowDone {
    /// It has taken all below the tick, or up to its stop.
    Ran {
        resource: Resource,
        /// The lines that it gave, in its order.
        lines: Vec<Line>,
        /// The messages that it sent, in its order.
        sent: Vec<Message>,
        /// Where and why it stopped, if it did.
        stop: Option<StopMark>,
    },
    /// Memory ran out, and nothing is left of the resource.
    NoMemory,
}

impl Resource {
    /// The tick, in milliseconds, below which it has taken all, or that of its stop.
    pub fn clock(&self) -> u64
        ensures { result ≡ self.now.clock }
    {
        self.clock
    }

    /// Why it stopped, if it has.
    pub fn stopped(&self) -> Option<Reason>
        ensures { result ≡ self.now.stopped }
    {
        self.stopped
    }

    /// The least tick of an event on its agenda, in milliseconds.
    pub fn next(&self) -> Option<u64>
        ensures some { IfSome result (IsNext self.now.agenda) }
        ensures none { IfNone result ((j : Key) → waiting self.now.agenda j ≡ None) }
    {
        self.agenda.next()
    }

    /// Whether no event below a tick is on its agenda.
    pub fn is_idle(&self, to: u64) -> bool
        ensures idle { OnTrue result ((j : Key) → j.tick < to → waiting self.now.agenda j ≡ None) }
        ensures busy { OnFalse result (IsBusy to self.now) }
    {
        match self.next() {
            Some(tick) => to <= tick,
            None => true,
        }
    }
}
