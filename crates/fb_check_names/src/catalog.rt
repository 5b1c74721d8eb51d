//! The indexes of all names of a declaration and a deployment.

ghost use Rattle.std.specs.Prelude.{◌≡◌, ◌++◌, IfOk};
ghost use Rattle.fb_types.specs.Repeated.{NameTwice};
ghost use Rattle.fb_check_names.specs.Catalog.{IsCatalog};
ghost use Rattle.fb_check_names.specs.TwiceLists.{twice_all};

use crate::location::Site;
use crate::placing::Indexes;
use crate::repeats::NameSpace;
use crate::spaces::{
    blocks_indexes, called_indexes, network_indexes, push_event_blocks, resource_indexes,
};
use crate::twice::GivenTwice;
use fb_types::{Library, Plan};
use std::alloc::{AllocError, Global};

/// The indexes of the names of a block type.
pub struct BlockIndexes<'a> {
    /// Event inputs, event outputs, inputs, outputs and internal variables, numbered in this order as one list.
    pub ports: Indexes<'a>,
    /// The states of a basic type, otherwise none.
    pub states: Indexes<'a>,
    /// The algorithms of a basic type, otherwise none.
    pub algorithms: Indexes<'a>,
    /// The instances of a composite type, otherwise none.
    pub instances: Indexes<'a>,
}

// Drop is written by hand, so that callers need not prove it again (docs/DECISIONS.md, "Drop").
impl Drop for BlockIndexes<'_> {
    fn drop(self) {
        let BlockIndexes {
            ports: _,
            states: _,
            algorithms: _,
            instances: _,
        } = self;
    }
}

/// The indexes of the names of a declaration and a deployment, in which no name is given twice.
pub struct Catalog<'a> {
    /// The block types of the declaration. The event blocks are not among them.
    pub types: Indexes<'a>,
    /// For each block type of the declaration, its names.
    pub blocks: Vec<BlockIndexes<'a>>,
    /// The instances of the application.
    pub instances: Indexes<'a>,
    /// The resources.
    pub resources: Indexes<'a>,
}

impl Drop for Catalog<'_> {
    fn drop(self) {
        let Catalog {
            types: _,
            blocks: _,
            instances: _,
            resources: _,
        } = self;
    }
}

/// The indexes of all names, if nothing is given twice. Adds what is (E20), in the order of the declaration: the names
/// of block types, what each block type gives twice, then the application, the resources and the links.
///
/// # Errors
///
/// When memory runs out.
pub fn catalog_of<'a>(
    alloc: Global,
    found: &mut Vec<GivenTwice>,
    library: &'a Library,
    plan: &'a Plan,
) -> Result<Catalog<'a>, AllocError>
    ensures found { IfOk result (λ _. found.new.items ≡ found.old.items ++ twice_all library.now plan.now) }
    ensures catalog { IfOk result (λ c. ¬ (NameTwice library.now plan.now) → IsCatalog library.now plan.now c) }
{
    let blocks = library.blocks.as_slice();
    push_event_blocks(found, blocks)?;
    let types = called_indexes(alloc, found, NameSpace::Types, blocks)?;
    let blocks = blocks_indexes(alloc, found, blocks)?;
    let network = &library.application.network;
    let instances = network_indexes(alloc, found, Site::Application, network)?;
    let resources = resource_indexes(alloc, found, plan)?;
    Ok(Catalog {
        types,
        blocks,
        instances,
        resources,
    })
}
