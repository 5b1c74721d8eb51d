//! The heads of lines: what follows the tick. They are made once, so that writing a line copies a whole row.

ghost use Rattle.std.specs.Prelude.{◌≡◌, ◌^◌, ◌<◌, ◌≤◌, [], take, IfSome};
ghost use Rattle.fb_types.specs.Systems.{System};
ghost use Rattle.fb_system.specs.Heads.{AreHeads, IsHead};

use crate::row_ranges::RowRanges;
use fb_types::Items;
use std::alloc::Global;

/// The bytes of a row. A longer head is not kept.
pub const ROW: usize = 48;

/// The most rows that are kept. They take 4 MB.
pub(crate) const MOST_ROWS: usize = 65536;

/// What a row names that has no text. The number of a resource is a `u32`, so it is never this one.
const NO_RESOURCE: u64 = u64::MAX;

/// What a head belongs to: an event that an instance takes or emits, with the resource that the line names.
#[derive(Clone, Copy)]
pub struct HeadOf {
    /// The number of the resource.
    pub resource: u32,
    /// The number of the instance.
    pub instance: u32,
    /// The index among the event inputs of the instance's type, or among its event outputs.
    pub event: u32,
    /// Set if the event is taken, not emitted.
    pub taken: bool,
}

/// The text of a head in a row of fixed size. Rows are found by instance and event, so a row does not name these.
#[derive(Clone, Copy)]
pub struct Head {
    /// The number of the resource that the text names. It is no `u32` if the text does not fit, so that one comparison
    /// finds out whether the row has the text of a line.
    pub resource: u64,
    /// The number of bytes that the text takes in the row.
    pub width: u8,
    /// The bytes of the row, of which the first `width` are the text.
    pub text: [u8; ROW],
}

/// The heads of a system.
#[derive(Drop)]
pub(crate) struct Heads {
    /// The heads of all instances, one after another.
    pub rows: Items<Head>,
    /// For each instance that has rows, where they are: those of the events that it emits, and then of those that it
    /// takes.
    pub ranges: Items<RowRanges>,
}

impl Head {
    /// The row of a head that is not kept.
    pub(crate) fn none() -> Head
        ensures unnamed { 2 ^ 32 ≤ result.resource }
        ensures empty { result.width ≡ 0 }
    {
        Head {
            resource: NO_RESOURCE,
            width: 0,
            text: [0; ROW],
        }
    }

    /// The row with the text of a head that names a resource, or an empty row if the text is too long.
    pub(crate) fn with_text(resource: u32, text: &[u8]) -> Head
        ensures named { result.resource < 2 ^ 32 → result.resource ≡ resource }
        ensures within { result.width ≤ ROW }
        ensures text { result.resource < 2 ^ 32 → take result.width result.text ≡ text.now }
    {
        if text.len() > ROW {
            return Head::none();
        }
        let mut row = [0; ROW];
        row[..text.len()].copy_from_slice(text);
        Head {
            resource: resource as u64,
            width: text.len() as u8,
            text: row,
        }
    }
}

impl Heads {
    /// A table without rows.
    pub(crate) fn new(alloc: Global) -> Heads
        ensures { result.ranges ≡ [] }
    {
        Heads {
            rows: Items::new(alloc),
            ranges: Items::new(alloc),
        }
    }

    /// The row with the text of a head, if it is kept.
    #[inline(always)]
    pub(crate) fn find(&self, of: HeadOf) -> Option<&Head>
        requires { (sys : System) × AreHeads sys self.now }
        ensures { (sys : System) → AreHeads sys self.now → IfSome result (λ h. IsHead sys of h.now) }
    {
        let ranges = self.ranges.get(of.instance as usize)?;
        let row = ranges.row(of.taken, of.event)?;
        let rows = self.rows.as_slice();
        let head = &rows[row];
        // By its index the row is that of the event. Only the resource can be another, or none.
        if head.resource == of.resource as u64 {
            Some(head)
        } else {
            None
        }
    }
}
