//! What keeps the event that is taken.

ghost use Rattle.std.specs.Prelude.{◌≡◌};
ghost use Rattle.fb_types.specs.Keys.{local_key};
ghost use Rattle.fb_types.specs.declared.run.Event.TheVariants.{Local};
ghost use Rattle.fb_agenda.specs.LeastEvents.{taken};

use fb_types::{Event, Key, Target};

/// The class of the keys of local events.
const LOCAL: u8 = 3;

/// An event that was taken from an agenda, with its key.
///
/// An event is large, and returning it would copy it from function to function. So a loop that takes events has one
/// `Least`, and each event moves into it.
#[derive(Drop)]
pub struct Least {
    /// The key under which the event waited.
    pub key: Key,
    /// The event itself.
    pub event: Event,
}

impl Least {
    /// An empty `Least`.
    pub fn new() -> Least {
        Least {
            key: Key::stimulus(0, 0, 0),
            event: Event::Stimulus(0),
        }
    }

    /// Moves what was found into `Least`, and returns whether anything was found.
    #[inline(always)]
    pub(crate) fn hold(&mut self, found: Option<(Key, Event)>) -> bool
        ensures { taken result self.new ≡ found }
    {
        let Some((key, event)) = found else {
            return false;
        };
        self.event = event;
        self.key = key;
        true
    }

    /// Moves the local event of this number into `Least`, at the tick and in the resource of the event that was there.
    #[inline(always)]
    pub fn follow(&mut self, number: u128, target: &Target)
        ensures key { self.new.key ≡ local_key self.old.key.tick self.old.key.resource number }
        ensures event { self.new.event ≡ Local target.now }
    {
        self.key.class = LOCAL;
        self.key.a = number;
        self.key.b = 0;
        self.hold_target(target);
    }

    /// Moves a local event into `Least`.
    #[inline(always)]
    pub(crate) fn hold_local(&mut self, key: Key, target: &Target)
        ensures key { self.new.key ≡ key }
        ensures event { self.new.event ≡ Local target.now }
    {
        self.key = key;
        self.hold_target(target);
    }

    /// Makes the event in `Least` a local one, and keeps the key.
    #[inline(always)]
    fn hold_target(&mut self, target: &Target)
        ensures key { self.new.key ≡ self.old.key }
        ensures event { self.new.event ≡ Local target.now }
    {
        // Mostly the event before was local too. Only its target is replaced then: a new event is as large as a message.
        match &mut self.event {
            Event::Local(place) => *place = *target,
            _ => self.event = Event::Local(*target),
        }
    }
}
