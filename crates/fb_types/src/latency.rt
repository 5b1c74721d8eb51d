//! The latency of a link, which depends on the tick of sending.

ghost use Rattle.std.specs.Prelude.{◌≡◌, ◌≤◌, ◌^◌, [], ◌∷◌, IfOk};
ghost use Rattle.fb_types.specs.Latencies.{IsLatencyTable, constant_table};

use crate::items::Items;
use std::alloc::{AllocError, Global};
use std::marker::Model;

/// From this tick of sending on, a message takes this number of ticks.
#[derive(Clone, Copy)]
pub struct Entry {
    /// The tick of sending from which the entry holds, in milliseconds.
    pub from: u64,
    /// The latency in ticks.
    pub latency: u64,
}

/// A table of latencies by the tick of sending: 1 to 64 entries, the first at tick 0, in strictly rising ticks of at
/// most 10^12, each with a latency from 1 to 1,000,000 ticks. Contracts see the list of its entries.
pub struct Latency {
    entries: Items<Entry>,
}

// Drop is written by hand, so that callers need not prove it again (docs/DECISIONS.md, "Drop").
impl Drop for Latency {
    fn drop(self) {
        let Latency { entries: _ } = self;
    }
}

impl Model for Latency {
    ghost use Rattle.std.specs.Prelude.{List};
    ghost use Rattle.fb_types.specs.declared.latency.Entry.{Entry};
    ghost use Rattle.fb_types.specs.Latencies.{IsLatencyTable};

    ghost Value = { List Entry };

    ghost view = { λ l. l.entries };

    ghost invariant = { λ l. IsLatencyTable l.entries };
}

impl Latency {
    /// The latency of a table: 1 to 64 entries in rising ticks, the first at tick 0 and none past 10^12, each with a
    /// latency from 1 to 1,000,000 ticks.
    pub fn new(entries: Items<Entry>) -> Latency
        requires { IsLatencyTable entries }
        ensures { result ≡ entries }
    {
        Latency { entries }
    }

    /// The same latency at every tick.
    pub fn constant(alloc: Global, latency: u64) -> Result<Latency, AllocError>
        requires least { 1 ≤ latency }
        requires most { latency ≤ 10 ^ 6 }
        ensures { IfOk result (λ l. l ≡ constant_table latency) }
    {
        let entries = Items::from_slice(alloc, &[Entry { from: 0, latency }])?;
        Ok(Latency { entries })
    }

    /// The table. Each entry holds from its tick on.
    pub fn entries(&self) -> &[Entry]
        ensures value { result.now ≡ self.now }
        ensures table { IsLatencyTable self.now }
    {
        self.entries.as_slice()
    }
}
