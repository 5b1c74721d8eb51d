//! The types of a declaration and the event blocks, with the indexes of the variables WITH each event.

ghost use Rattle.std.specs.Prelude.{◌≡◌, ◌<◌, ℕ, IfOk, Some, length, slice_get};
ghost use Rattle.fb_types.specs.Blocks.{ports_of, ports_of_event_block};
ghost use Rattle.fb_types.specs.Flat.{kind_of};
ghost use Rattle.fb_types.specs.Unknown.{NameUnknown};
ghost use Rattle.fb_types.specs.declared.deploy.Plan.{Plan};
ghost use Rattle.fb_types.specs.declared.library.BlockType.{BlockType as Declared};
ghost use Rattle.fb_types.specs.declared.library.Library.{Library as Declaration};
ghost use Rattle.fb_check_names.specs.Catalog.{IsCatalog};
ghost use Rattle.fb_system.specs.IndexLists.{AreWithIndexes};
ghost use Rattle.fb_system.specs.Tables.{AreBlocks, AreInterfaces, AreOfBlocks};

use crate::event_block_with_indexes::of_event_blocks;
use crate::with_indexes::{WithIndexes, with_indexes};
use fb_check_names::{BlockIndexes, Catalog};
use fb_types::{BlockType, EventKind, Items, Library};
use std::alloc::{AllocError, Global};

/// The types of a declaration and the event blocks: for each event the indexes of the variables WITH it.
pub struct Interfaces {
    blocks: Items<WithIndexes>,
    event_blocks: Items<WithIndexes>,
}

// Drop is written by hand, so that callers need not prove it again (docs/DECISIONS.md, "Drop").
impl Drop for Interfaces {
    fn drop(self) {
        let Interfaces {
            blocks: _,
            event_blocks: _,
        } = self;
    }
}

impl Interfaces {
    /// The variables WITH each event of the block type at an index of the declaration.
    pub(crate) fn of_block(&self, block: usize) -> &WithIndexes
        requires { (library : Declaration) × AreInterfaces library self.now × (block < length library.blocks) }
        ensures { (library : Declaration) (t : Declared) → AreInterfaces library self.now → slice_get library.blocks block ≡ Some t → AreWithIndexes (ports_of (kind_of t)) result.now }
    {
        &self.blocks.as_slice()[block]
    }

    /// The variables WITH each event of an event block.
    pub(crate) fn of_event_block(&self, kind: EventKind) -> &WithIndexes
        requires { (library : Declaration) × AreInterfaces library self.now }
        ensures { AreWithIndexes (ports_of_event_block kind) result.now }
    {
        &self.event_blocks.as_slice()[kind.index()]
    }
}

fn of_blocks(
    alloc: Global,
    blocks: &[BlockType],
    names: &[BlockIndexes],
) -> Result<Items<WithIndexes>, AllocError>
    requires { AreBlocks blocks.now names.now }
    ensures { IfOk result (AreOfBlocks blocks.now) }
{
    let mut all = Items::new(alloc);
    for (index, block) in blocks.iter().enumerate() {
        all.push(with_indexes(alloc, block.ports(), &names[index].ports)?)?;
    }
    Ok(all)
}

/// The indexes of the variables WITH each event of each type of a declaration, and of each event block, in near linear
/// time. In the declaration no name is given twice, and each is known.
///
/// # Errors
///
/// When memory runs out.
pub fn interfaces_of(
    alloc: Global,
    library: &Library,
    catalog: &Catalog,
) -> Result<Interfaces, AllocError>
    requires { (plan : Plan) × IsCatalog library.now plan catalog.now × ¬ (NameUnknown library.now plan) }
    ensures { IfOk result (AreInterfaces library.now) }
{
    let blocks = of_blocks(alloc, library.blocks.as_slice(), catalog.blocks.as_slice())?;
    let event_blocks = of_event_blocks(alloc)?;
    Ok(Interfaces {
        blocks,
        event_blocks,
    })
}
