//! The meaning of names in a declaration, found by comparing names.

ghost use Rattle.std.specs.Prelude.{◌≡◌, IfOk, option_map};
ghost use Rattle.std.specs.Option.{option_copied};
ghost use Rattle.fb_types.specs.Blocks.{ports_of};
ghost use Rattle.fb_types.specs.EventPorts.{ArePortsOfKinds};
ghost use Rattle.fb_types.specs.Flat as spec;

use fb_types::{Items, Library, Name, Ports, all_ports, block_named, kind_named};
use std::alloc::{AllocError, Global};

/// The block types of a declaration, and the ports of the event blocks in the order of their kinds.
#[derive(Drop)]
pub struct BlockTypes<'a> {
    /// The declaration.
    pub library: &'a Library,
    event_ports: Items<Ports>,
    ghost of_kinds: { ArePortsOfKinds event_ports },
}

impl<'a> BlockTypes<'a> {
    /// The types of a declaration.
    ///
    /// # Errors
    ///
    /// When memory runs out.
    pub fn new(alloc: Global, library: &'a Library) -> Result<BlockTypes<'a>, AllocError>
        ensures { IfOk result (λ t. t.library.now ≡ library.now) }
    {
        Ok(BlockTypes {
            library,
            event_ports: all_ports(alloc)?,
        })
    }

    /// The ports of the type that a name represents.
    pub fn ports_named(&self, name: &Name) -> Option<&Ports>
        ensures { option_copied result ≡ option_map ports_of (spec.type_named self.now.library.now name.now) }
    {
        match kind_named(name.as_bytes()) {
            Some(kind) => self.event_ports.get(kind.index()),
            None => {
                let block = block_named(self.library.blocks.as_slice(), name)?;
                Some(block.ports())
            }
        }
    }
}
