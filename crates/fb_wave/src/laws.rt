//! Laws of the definitions, which show the shape of a dump.

ghost use Rattle.fb_wave.specs.ByTick.{AreTickByTick};
ghost use Rattle.fb_wave.specs.Nested.{AreNested};

/// After its head a dump has the changes of each tick, one tick after another.
pub fn ticks_follow()
    ensures { AreTickByTick }
{}

/// The scopes of a dump are nested as the networks of the declaration are. Each instance is declared once.
pub fn scopes_are_nested()
    ensures { AreNested }
{}
