//! What can be wrong with a line of a trace.

use fb_trace::Outcome;
use fb_wave::Port;

/// What is wrong with a line. Texts are parts of it.
#[derive(Clone, Copy)]
pub enum LineFault<'a> {
    /// A last line comes before it.
    AfterEnd,
    /// The text ends without a last line.
    Missing,
    /// It does not end in a line feed.
    Unended,
    /// It is this end, which may not come after the tick of the line before.
    Early(Outcome),
    /// It begins like a last line, and is no last line of the system.
    NoEnd,
    /// It lacks the class and the parts of a key, which a line of form two has.
    Key,
    /// It has no number of 64 bits in the place of the tick.
    Tick,
    /// It has this tick, in milliseconds, which is below that of the line before.
    Falls(u64),
    /// Something is wrong after the tick.
    Port(PortFault<'a>),
}

/// What is wrong with a line after its tick.
#[derive(Clone, Copy)]
pub enum PortFault<'a> {
    /// It ends before its third word: a resource, a sign, and an instance with an event.
    Short,
    /// No resource has this name.
    Resource(&'a [u8]),
    /// This is neither `>` nor `<`.
    Sign(&'a [u8]),
    /// This has no full stop between an instance and an event.
    NoEvent(&'a [u8]),
    /// No instance has this path.
    Instance(&'a [u8]),
    /// The instance of this number has no event input, if the event is taken, or no event output of this name.
    Event {
        instance: u32,
        taken: bool,
        name: &'a [u8],
    },
    /// The instance of this port is in another resource than the one in the line.
    Elsewhere(Port),
    /// Something is wrong with the values of this port.
    Values(Port, ValueFault<'a>),
}

/// What is wrong with the values of a line.
#[derive(Clone, Copy)]
pub enum ValueFault<'a> {
    /// No variable of this name is WITH the event.
    Variable(&'a [u8]),
    /// The input with this index, or the output, has no value in its place.
    Missing(u32),
    /// This is no value of the input with this index, or of the output.
    Value(u32, &'a [u8]),
    /// This comes after the last value, and is not the end of the line alone.
    More(&'a [u8]),
}
