//! Rows that a system keeps in addition to its tables.

ghost use Rattle.std.specs.Prelude.{◌≡◌, [], IfOk};
ghost use Rattle.fb_system.specs.Systems.{IsKept};

use crate::ends::Ends;
use crate::ends_of::ends_of;
use crate::heads::Heads;
use crate::heads_of::heads_of;
use crate::system::System;
use std::alloc::{AllocError, Global};

/// Rows that are made once, so that the most frequent lookups of an event take one step.
pub(crate) struct Kept {
    /// The heads of its lines.
    pub heads: Heads,
    /// Its event ports and the ends of its connections.
    pub ends: Ends,
}

// Drop is written by hand, so that callers need not prove it again (docs/DECISIONS.md, "Drop").
impl Drop for Kept {
    fn drop(self) {
        let Kept { heads: _, ends: _ } = self;
    }
}

impl Kept {
    /// No rows.
    pub(crate) fn new(alloc: Global) -> Kept
        ensures heads { result.heads.ranges ≡ [] }
        ensures ports { result.ends.port_ranges ≡ [] }
        ensures sources { result.ends.source_ranges ≡ [] }
    {
        Kept {
            heads: Heads::new(alloc),
            ends: Ends::new(alloc),
        }
    }
}

/// The rows of a system.
pub(crate) fn kept_of(alloc: Global, system: &System) -> Result<Kept, AllocError>
    ensures { IfOk result (IsKept system.now) }
{
    let heads = heads_of(alloc, system)?;
    let ends = ends_of(alloc, system)?;
    Ok(Kept { heads, ends })
}
