//! Event ports and the sources of variables, in rows that are found by the indexes of ports.

ghost use Rattle.std.specs.Prelude.{◌≡◌, [], IfSome};
ghost use Rattle.fb_types.specs.Systems.{System};
ghost use Rattle.fb_types.specs.Headline.{Inputs};
ghost use Rattle.fb_system.specs.Ends.{AreSources, ComesFrom};
ghost use Rattle.fb_system.specs.PortRows.{ArePortRows, IsPortRow};

use crate::port_row::PortRow;
use crate::row_ranges::RowRanges;
use fb_types::{InstanceVariable, Items, Target};
use std::alloc::Global;

/// The most rows that are kept of each kind. They take 2 MB.
pub(crate) const MOST_ENDS: usize = 16384;

/// What a variable is connected to.
#[derive(Clone, Copy)]
pub(crate) struct SourceRow {
    /// `None` if the variable has no connection.
    pub source: Option<InstanceVariable>,
}

/// The event ports and the ends of the connections of a system.
#[derive(Drop)]
pub(crate) struct Ends {
    /// The rows of event ports.
    pub ports: Items<PortRow>,
    /// For each instance that has rows, where those of its event inputs are, and then those of its event outputs.
    pub port_ranges: Items<RowRanges>,
    /// The rows of data connections.
    pub sources: Items<SourceRow>,
    /// For each instance that has rows, where those of its data inputs are, and then those of its data outputs.
    pub source_ranges: Items<RowRanges>,
}

impl Ends {
    /// A table without rows.
    pub(crate) fn new(alloc: Global) -> Ends
        ensures ports { result.port_ranges ≡ [] }
        ensures sources { result.source_ranges ≡ [] }
    {
        Ends {
            ports: Items::new(alloc),
            port_ranges: Items::new(alloc),
            sources: Items::new(alloc),
            source_ranges: Items::new(alloc),
        }
    }

    /// The row of an event port, if it is kept.
    #[inline(always)]
    pub(crate) fn port(&self, at: Target) -> Option<&PortRow>
        requires { (i : Inputs) × ArePortRows i self.now }
        ensures { (i : Inputs) → ArePortRows i self.now → IfSome result (λ r. IsPortRow i at r.now) }
    {
        let ranges = self.port_ranges.get(at.instance as usize)?;
        let row = ranges.row(at.is_output, at.event)?;
        let ports = self.ports.as_slice();
        Some(&ports[row])
    }

    /// What a variable is connected to, if its row is kept.
    #[inline(always)]
    pub(crate) fn source(&self, to: InstanceVariable) -> Option<&SourceRow>
        requires { (sys : System) × AreSources sys self.now }
        ensures { (sys : System) → AreSources sys self.now → IfSome result (λ r. ComesFrom sys to r.now.source) }
    {
        let ranges = self.source_ranges.get(to.instance as usize)?;
        let row = ranges.row(to.is_output, to.variable)?;
        let sources = self.sources.as_slice();
        Some(&sources[row])
    }
}
