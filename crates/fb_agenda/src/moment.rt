//! The tick and the resource of keys. Keys are compared by these first.

ghost use Rattle.std.specs.Prelude.{◌≡◌};
ghost use Rattle.std.specs.Bool.{OnFalse, OnTrue};
ghost use Rattle.fb_agenda.specs.Moments.{IsNoLater, IsSooner};

use fb_types::Key;

/// A tick and a resource.
#[derive(Clone, Copy)]
pub(crate) struct Moment {
    /// In milliseconds.
    pub tick: u64,
    /// The number of the resource.
    pub resource: u32,
}

impl Moment {
    /// The moment of a key.
    #[inline(always)]
    pub(crate) fn of(key: &Key) -> Moment
        ensures tick { result.tick ≡ key.now.tick }
        ensures resource { result.resource ≡ key.now.resource }
    {
        Moment {
            tick: key.tick,
            resource: key.resource,
        }
    }

    /// Whether this moment comes before another, which is read where it is. Mostly the ticks tell, and its resource is
    /// not read.
    #[inline(always)]
    pub(crate) fn is_before(self, other: &Moment) -> bool
        ensures sooner { OnTrue result (IsSooner self other.now) }
        ensures later { OnFalse result (IsNoLater other.now self) }
    {
        if self.tick != other.tick {
            return self.tick < other.tick;
        }
        self.resource < other.resource
    }

    /// Makes this the earlier of itself and another moment. Mostly it is, and nothing is written.
    #[inline(always)]
    pub(crate) fn lower(&mut self, other: Moment)
        ensures first { IsNoLater self.new self.old }
        ensures second { IsNoLater self.new other }
    {
        if other.is_before(self) {
            *self = other;
        }
    }
}
