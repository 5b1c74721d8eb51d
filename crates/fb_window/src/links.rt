//! What a core keeps of its system: the ends and the latency of each link.

ghost use Rattle.std.specs.Prelude.{◌≡◌, [], IfOk, OnOk};
ghost use Rattle.fb_types.specs.Headline.{AreAccepted};
ghost use Rattle.fb_types.specs.Limits.{IsWithinLimits};
ghost use Rattle.fb_window.specs.LinkRows.{AreLinksOf};

use fb_system::System;
use fb_types::{Items, Latency};
use std::alloc::{AllocError, Global};
use std::marker::Model;
use std::snapshot::Snapshot;

/// A link.
#[derive(Drop)]
pub struct LinkRow {
    /// The number of the resource that sends.
    pub from: usize,
    /// The number of the resource that receives.
    pub to: usize,
    /// How many ticks (milliseconds) a message takes, by the tick at which it is sent.
    pub latency: Latency,
}

/// The links of a system, in order. They are copied from it, so that whoever asks for all of them again and again finds
/// them side by side, and needs no share of the system. Contracts see the inputs that the system represents.
pub struct SystemLinks {
    /// The links.
    rows: Vec<LinkRow>,
    /// Their system, for contracts only.
    system: Snapshot<System>,
}

// Drop is written by hand, so that callers need not prove it again (docs/DECISIONS.md, "Drop").
impl Drop for SystemLinks {
    fn drop(self) {
        let SystemLinks { rows: _, system: _ } = self;
    }
}

impl Model for SystemLinks {
    ghost use Rattle.fb_types.specs.Headline.{Inputs};
    ghost use Rattle.fb_system.specs.contracts.system.System.{the_row};

    ghost Value = { Inputs };

    ghost coded = { the_row.coded };

    ghost use Rattle.fb_window.specs.LinkRows.{AreLinksOf};

    ghost view = { λ l. l.system.value };

    ghost invariant = { λ l. AreLinksOf l.system.value l.rows.items };
}

/// Copies a table of latencies.
fn copy_of(alloc: Global, latency: &Latency) -> Result<Latency, AllocError>
    ensures { IfOk result (λ l. l ≡ latency.now) }
{
    let entries = Items::from_slice(alloc, latency.entries())?;
    Ok(Latency::new(entries))
}

/// Copies each link of a system into a row of its own. The rows are lent here, so that no exit of the loop drops them.
fn copy_all(rows: &mut Vec<LinkRow>, alloc: Global, system: &System) -> Result<(), AllocError>
    requires { rows.old.items ≡ [] }
    ensures { OnOk result (AreLinksOf system.now rows.new.items) }
{
    // for the prover: what holds of each system
    system.facts();
    for link in 0..system.links() {
        let latency = copy_of(alloc, system.latency(link))?;
        rows.push(LinkRow {
            from: system.sender(link),
            to: system.receiver(link),
            latency,
        })?;
    }
    Ok(())
}

impl SystemLinks {
    /// The links of a system.
    ///
    /// # Errors
    /// When memory runs out.
    pub(crate) fn of(alloc: Global, system: &System) -> Result<SystemLinks, AllocError>
        ensures { IfOk result (λ l. l ≡ system.now) }
    {
        let mut rows = Vec::new(alloc);
        copy_all(&mut rows, alloc, system)?;
        Ok(SystemLinks {
            rows,
            system: Snapshot::of(system),
        })
    }

    /// The links, each at its number.
    pub(crate) fn rows(&self) -> &[LinkRow]
        ensures { AreLinksOf self.now result.now }
    {
        self.rows.as_slice()
    }

    /// What was accepted with their system.
    pub(crate) fn facts(&self)
        ensures accepted { AreAccepted self.now }
        ensures limits { IsWithinLimits self.now.plan }
    {
        // for the prover: what its type keeps
        let _rows = &self.rows;
    }
}
