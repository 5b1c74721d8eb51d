//! Flags in rows.

ghost use Rattle.std.specs.Prelude.{◌≡◌, ◌++◌, ◌∷◌, [], IfOk, OnOk, false, replicate};
ghost use Rattle.fb_coverage.specs.Tables as spec;

use fb_types::Items;
use std::alloc::{AllocError, Global};

/// Flags in rows: a row for each of some things, and in it a flag for each part that the thing has.
pub struct Table {
    /// The rows, each with the flags of one thing.
    pub rows: Items<Items<bool>>,
}

// Drop is written by hand, so that callers need not prove it again (docs/DECISIONS.md, "Drop").
impl Drop for Table {
    fn drop(self) {
        let Table { rows: _ } = self;
    }
}

/// This many flags, none of which is set.
pub(crate) fn unset(alloc: Global, count: usize) -> Result<Items<bool>, AllocError>
    ensures { IfOk result (λ flags. flags ≡ replicate count false) }
{
    let mut flags = Items::new(alloc);
    for _ in 0..count {
        flags.push(false)?;
    }
    Ok(flags)
}

/// Whether the flag at an index is set; where there is none, it is not.
pub(crate) fn is_set(flags: &[bool], index: usize) -> bool
    ensures { result ≡ spec.is_set flags.now index }
{
    match flags.get(index) {
        Some(flag) => *flag,
        None => false,
    }
}

impl Table {
    /// A table with no rows.
    pub(crate) fn new(alloc: Global) -> Table
        ensures { result.rows ≡ [] }
    {
        Table {
            rows: Items::new(alloc),
        }
    }

    /// Adds a row.
    ///
    /// # Errors
    /// When memory runs out.
    pub(crate) fn push(&mut self, row: Items<bool>) -> Result<(), AllocError>
        ensures { OnOk result (self.new.rows ≡ self.old.rows ++ row ∷ []) }
    {
        self.rows.push(row)
    }

    /// The flags of the thing at an index.
    pub(crate) fn row(&self, index: usize) -> &[bool]
        ensures { result.now ≡ spec.row_of self.now index }
    {
        match self.rows.get(index) {
            Some(row) => row.as_slice(),
            None => &[],
        }
    }

    /// Sets the flag of a part of a thing, if there is one.
    pub(crate) fn set(&mut self, row: usize, column: usize)
        ensures { self.new ≡ spec.with_flag self.old row column }
    {
        if let Some(flags) = self.rows.get_mut(row) {
            flags.set(column, true);
        }
    }
}
