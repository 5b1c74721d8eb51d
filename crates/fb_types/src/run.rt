//! What waits in a simulation and what it produces: events, lines, messages, emissions, and how it ends. Instances,
//! events and variables are numbers here. They become names only when a trace is written.

ghost use Rattle.std.specs.Prelude.{◌≡◌};
ghost use Rattle.fb_types.specs.declared.run.Halt.TheVariants.{Memory, Stop};

use crate::few::Few;
use crate::items::Items;
use crate::key::Key;
use crate::message_values::MessageValues;
use crate::value::{Reason, Value};
use std::alloc::AllocError;

/// The values that go with an event.
pub type Values = Few<Value>;

/// A line of the trace: an event that was taken at an input of an instance, or emitted at an output.
pub struct Line {
    /// The key of the event whose taking gave the line.
    pub key: Key,
    /// Set if the event was taken, not emitted.
    pub taken: bool,
    /// The number of the instance in the whole application.
    pub instance: u32,
    /// The index of the event among the event inputs, or outputs, of the instance's type.
    pub event: u32,
    /// The values of the variables WITH the event, in the order in which the variables are declared.
    pub values: Values,
}

// Drop is written by hand, so that callers need not prove it again (docs/DECISIONS.md, "Drop").
impl Drop for Line {
    fn drop(self) {
        let Line {
            key: _,
            taken: _,
            instance: _,
            event: _,
            values: _,
        } = self;
    }
}

/// An event input of an instance, or an event output of a composite that is reached from inside.
#[derive(Clone, Copy, PartialEq, Eq)]
pub struct Target {
    /// The number of the instance in the whole application.
    pub instance: u32,
    /// The index among the event inputs, or outputs, of the instance's type.
    pub event: u32,
    /// Set if the event is an output, which an event reaches from inside.
    pub is_output: bool,
}

/// A variable of an instance, by its index among the data inputs or the data outputs of the instance's type.
#[derive(Clone, Copy, PartialEq, Eq)]
pub struct InstanceVariable {
    /// The number of the instance in the whole application.
    pub instance: u32,
    /// The index among the data inputs, or outputs, of the instance's type.
    pub variable: u32,
    /// Set if the variable is an output.
    pub is_output: bool,
}

/// A value that was emitted, with the output variable that it is of.
#[derive(Clone, Copy)]
pub struct Carried {
    /// The number of the instance that emitted it.
    pub instance: u32,
    /// The index of the variable among the outputs of the instance's type.
    pub variable: u32,
    /// The value, which is one of the variable's type.
    pub value: Value,
}

/// An event on its way over a link. Its fields are in an order that leaves few gaps, since messages are moved often.
pub struct Message {
    /// Its number on its link, from 0.
    pub number: u128,
    /// The tick of its arrival.
    pub arrives: u64,
    /// The number of the link, from 0 in the order of the deployment.
    pub link: u32,
    /// The event input, or the composite's event output, at which it arrives.
    pub target: Target,
    /// The values that it carries.
    pub values: MessageValues,
}

impl Drop for Message {
    fn drop(self) {
        let Message {
            number: _,
            arrives: _,
            link: _,
            target: _,
            values: _,
        } = self;
    }
}

/// A value for the slot of the data input at an index.
#[derive(Clone, Copy)]
pub struct InputValue {
    /// The index among the data inputs of the type.
    pub index: u32,
    /// The value, which is one of the input's type.
    pub value: Value,
}

/// A stimulus that a caller gave while the simulation went on, with all that its taking needs: it is in no list of
/// stimuli, and its memory is freed when it is taken. It is not larger than a message, so that events that wait are as
/// small as without it.
pub struct GivenRow {
    /// Its row, from 0: after all rows of the system and all that were given before.
    pub row: u64,
    /// The event input.
    pub target: Target,
    /// The slots that it sets before the event is taken, in the order of the row.
    pub sets: Items<InputValue>,
}

impl Drop for GivenRow {
    fn drop(self) {
        let GivenRow {
            row: _,
            target: _,
            sets: _,
        } = self;
    }
}

/// An event that waits.
pub enum Event {
    /// A stimulus of the system, by its row.
    Stimulus(u32),
    /// The timer of an instance.
    Timer(u32),
    /// A message, at its arrival.
    Arrival(Message),
    /// A local event, at its target.
    Local(Target),
    /// A stimulus that was given while the simulation went on.
    Given(GivenRow),
}

impl Drop for Event {
    fn drop(self) {
        match self {
            Event::Stimulus(_)
            | Event::Timer(_)
            | Event::Arrival(_)
            | Event::Local(_)
            | Event::Given(_) => {}
        }
    }
}

/// An output event that was emitted, by its index among the event outputs, with the values of its WITH variables in the
/// order in which these are declared.
#[derive(Drop)]
pub struct Emission {
    /// The index among the event outputs of the block.
    pub event: u32,
    /// The values of the WITH variables.
    pub values: Values,
}

pub use crate::emits::Emits;

/// What a reaction requests for the timer of its event block.
#[derive(Clone, Copy, PartialEq, Eq)]
pub enum TimerAsk {
    /// The timer stays as it is.
    Keep,
    /// The timer is removed, if there is one.
    Clear,
    /// The timer goes off at this tick.
    At(u64),
}

/// Why a reaction ends early.
#[derive(Clone, Copy, Debug)]
pub enum Halt {
    Stop(Reason),
    Memory,
}

impl From<AllocError> for Halt {
    ghost from_gives = { λ _ halt. halt ≡ Memory };

    fn from(_error: AllocError) -> Halt {
        Halt::Memory
    }
}

impl From<Reason> for Halt {
    ghost from_gives = { λ reason halt. halt ≡ Stop reason };

    fn from(reason: Reason) -> Halt {
        Halt::Stop(reason)
    }
}

/// Where and why a simulation stops.
#[derive(Clone, Copy, PartialEq, Eq)]
pub struct StopMark {
    /// In milliseconds.
    pub tick: u64,
    /// The number of the resource, from 0 in the order of the deployment.
    pub resource: u32,
    /// Why it stops.
    pub reason: Reason,
}

/// The form of a trace. With `Two`, each line except the last begins with the class and the parts of the key.
#[derive(Clone, Copy)]
pub enum Form {
    One,
    Two,
}
