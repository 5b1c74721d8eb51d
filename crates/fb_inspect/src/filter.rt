//! Which events of a trace are shown.

ghost use Rattle.std.specs.Prelude.{◌≡◌, false};
ghost use Rattle.fb_inspect.specs.Selections as spec;
ghost use Rattle.fb_inspect.specs.walk.Walking as walking;

use fb_types::Line;

/// Which events are shown, by their ticks and by what they do.
#[derive(Clone, Copy)]
pub struct EventFilter {
    /// The first tick whose events are shown, in milliseconds.
    pub from: u64,
    /// The first tick after those whose events are shown. If there is none, those of all later ticks are.
    pub to: Option<u64>,
    /// Whether events are shown only if they cleared no transition.
    pub are_lost: bool,
}

impl EventFilter {
    /// All events are shown.
    pub fn all() -> EventFilter
        ensures { result ≡ spec.all_events }
    {
        EventFilter {
            from: 0,
            to: None,
            are_lost: false,
        }
    }

    /// Whether events of a tick are shown.
    fn has(&self, tick: u64) -> bool
        ensures { result ≡ spec.is_during self.now tick }
    {
        if tick < self.from {
            return false;
        }
        match self.to {
            Some(to) => tick < to,
            None => true,
        }
    }
}

/// What is shown of a system.
pub struct Shown {
    /// For each instance whether its events are shown.
    pub instances: Vec<bool>,
    /// Which of its events are.
    pub events: EventFilter,
}

// Drop is written by hand, so that callers need not prove it again (docs/DECISIONS.md, "Drop").
impl Drop for Shown {
    fn drop(self) {
        let Shown {
            instances: _,
            events: _,
        } = self;
    }
}

/// Whether an instance is shown.
fn flag_at(flags: &[bool], instance: u32) -> bool
    ensures { result ≡ walking.flag_at flags.now instance }
{
    match flags.get(instance as usize) {
        Some(flag) => *flag,
        None => false,
    }
}

impl Shown {
    /// Whether the event of a line is shown, if it does what is wanted.
    pub(crate) fn may_show(&self, line: &Line) -> bool
        ensures { result ≡ walking.may_show self.now line.now }
    {
        flag_at(self.instances.as_slice(), line.instance) && self.events.has(line.key.tick)
    }

    /// Whether the event of a line is shown if nothing is known of what it does.
    pub(crate) fn shows_untaken(&self, line: &Line) -> bool
        ensures { result ≡ walking.shows self.now line.now false }
    {
        self.may_show(line) && !self.events.are_lost
    }
}
