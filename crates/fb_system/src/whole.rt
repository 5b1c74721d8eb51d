//! The tables of a system.

ghost use Rattle.std.specs.Prelude.{◌≡◌, ◌<◌, Some, length, slice_get};

use crate::interfaces::Interfaces;
use crate::kept::Kept;
use crate::links::Links;
use crate::netlist::Netlist;
use crate::rows::StimulusRow;
use fb_types::{Deploy, Items, Ports, Stimulus};

/// Accepted inputs, with the tables in which their numbers are looked up.
pub(crate) struct Whole {
    /// The deployment.
    pub deploy: Deploy,
    /// The stimuli, as they were read.
    pub stimuli: Items<Stimulus>,
    /// The declaration, its instances, and what their ports are connected to.
    pub netlist: Netlist,
    /// The resources of the instances, and the links.
    pub links: Links,
    /// The interfaces of the event blocks, in the order of their kinds.
    pub event_blocks: Items<Ports>,
    /// The variables WITH the events of each type.
    pub interfaces: Interfaces,
    /// The stimuli by number.
    pub rows: Items<StimulusRow>,
    /// For each instance, the resource that holds it.
    pub instance_resources: Items<usize>,
    /// Rows for the most frequent lookups of an event.
    pub kept: Kept,
}

impl Whole {
    /// The same tables with these rows.
    pub(crate) fn with_kept(self, rows: Kept) -> Whole
        ensures { result ≡ record self { kept = rows } }
    {
        let Whole {
            deploy,
            stimuli,
            netlist,
            links,
            event_blocks,
            interfaces,
            rows: stimulus_rows,
            instance_resources,
            kept: _,
        } = self;
        Whole {
            deploy,
            stimuli,
            netlist,
            links,
            event_blocks,
            interfaces,
            rows: stimulus_rows,
            instance_resources,
            kept: rows,
        }
    }
}

// Drop is written by hand, so that callers need not prove it again (docs/DECISIONS.md, "Drop").
impl Drop for Whole {
    fn drop(self) {
        let Whole {
            deploy: _,
            stimuli: _,
            netlist: _,
            links: _,
            event_blocks: _,
            interfaces: _,
            rows: _,
            instance_resources: _,
            kept: _,
        } = self;
    }
}

/// The stimulus at a row.
pub(crate) fn row_at(tables: &Whole, row: u32) -> &StimulusRow
    requires { row < length tables.now.rows }
    ensures { slice_get tables.now.rows row ≡ Some result.now }
{
    &tables.rows.as_slice()[row as usize]
}
