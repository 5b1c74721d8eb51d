//! An event that arrives at the blocks of a resource.

ghost use Rattle.std.specs.Prelude.{◌≡◌};
ghost use Rattle.fb_net.specs.Events.{key_at};

use fb_types::{Event, Key};

/// An event of a resource, whose time has come: a stimulus by its row, a timer by its instance, a message, a local event
/// by its port, or a stimulus that was given while the simulation went on.
#[derive(Clone, Copy)]
pub struct Arrival<'a> {
    pub event: &'a Event,
    /// Of a local event, its number within the tick and the resource, from 0. Of another it means nothing.
    pub number: u128,
}

impl Arrival<'_> {
    /// The key under which the event comes at a tick, in milliseconds, in a resource.
    pub(crate) fn key(&self, tick: u64, resource: u32) -> Key
        ensures { result ≡ key_at tick resource self.now }
    {
        match self.event {
            Event::Stimulus(row) => Key::stimulus(tick, resource, *row),
            Event::Timer(instance) => Key::timer(tick, resource, *instance),
            Event::Arrival(message) => Key::arrival(tick, resource, message.link, message.number),
            Event::Local(_) => Key::local(tick, resource, self.number),
            Event::Given(given) => Key::given(tick, resource, given.row),
        }
    }
}
