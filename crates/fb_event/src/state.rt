//! What an event block is and remembers.

ghost use Rattle.std.specs.Prelude.{◌≡◌};
ghost use Rattle.fb_types.specs.EventBlocks.{memory_at_start};
ghost use Rattle.fb_event.specs.Seen.{seen_memory};

use crate::memory::EventMemory;
use crate::step::at_start;
use fb_types::EventKind;
use std::marker::Model;

/// An event block: its kind, and what it remembers from one reaction to the next.
#[derive(Drop)]
pub struct EventState {
    pub(crate) kind: EventKind,
    pub(crate) memory: EventMemory,
}

impl Model for EventState {
    ghost use Rattle.fb_event.specs.State.{State};

    ghost Value = { State };

    ghost use Rattle.fb_event.specs.Block.{state_of, IsInRange};

    ghost view = { λ s. state_of s.kind s.memory };

    ghost invariant = { λ s. IsInRange s.kind s.memory };
}

impl EventState {
    /// An event block of this kind, as it is when a simulation starts.
    pub fn new(kind: EventKind) -> EventState
        ensures kind { result.kind ≡ kind }
        ensures memory { result.memory ≡ memory_at_start kind }
    {
        EventState {
            kind,
            memory: at_start(kind),
        }
    }

    /// The kind of the block, which never changes.
    pub fn kind(&self) -> EventKind
        ensures { result ≡ self.now.kind }
    {
        self.kind
    }
}

/// What an event block remembers.
pub fn memory_of(state: &EventState) -> EventMemory
    ensures { seen_memory result ≡ state.now.memory }
{
    state.memory
}
