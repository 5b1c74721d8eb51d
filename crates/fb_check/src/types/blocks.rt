//! The block types of a declaration: their networks by number, and their names that are unknown.

ghost use Rattle.std.specs.Prelude.{◌≡◌, ◌++◌, Some, [], IfOk, slice_get};
ghost use Rattle.fb_check_names.specs.Types.{AreTypes};
ghost use Rattle.fb_check_names.specs.Unknown.{AreBlocks, IsBlockNumbers};
ghost use Rattle.fb_check.specs.types.Unknowns.{unknown_in_block};
ghost use Rattle.fb_check_names.specs.Listed.{each_at};

use crate::types::basics::push_in_basic;
use crate::types::charts::push_in_withs;
use crate::types::ends::NetworkScope;
use crate::types::interface::Interface;
use crate::types::networks::network_numbers;
use fb_check_names::types::Types;
use fb_check_names::{NetworkNumbers, Site, UnknownName};
use fb_types::{BlockType, Items};
use std::alloc::{AllocError, Global};

/// The network of the block type at an index, by number, or none for a basic type. Adds the unknown names of the type.
fn block_numbers(
    alloc: Global,
    found: &mut Vec<UnknownName>,
    types: &Types,
    block: usize,
    declared: &BlockType,
) -> Result<Option<NetworkNumbers>, AllocError>
    requires types { AreTypes types.now }
    requires index { slice_get types.now.library.now.blocks block ≡ Some declared.now }
    ensures listed { IfOk result (λ _. found.new.items ≡ found.old.items ++ unknown_in_block types.now.library.now block declared.now) }
    ensures numbers { IfOk result (λ o. unknown_in_block types.now.library.now block declared.now ≡ [] → IsBlockNumbers types.now.library.now declared.now o) }
{
    match declared {
        BlockType::Basic(basic) => {
            push_in_basic(alloc, found, types, block, basic)?;
            Ok(None)
        }
        BlockType::Composite(composite) => {
            let indexes = &types.catalog.blocks[block];
            let interface = Interface::new(&composite.ports, &[], &indexes.ports);
            push_in_withs(found, block, &interface)?;
            let scope = NetworkScope {
                composite: Some((composite, &indexes.ports)),
                network: &composite.network,
                instances: &indexes.instances,
            };
            let numbers = network_numbers(alloc, found, types, Site::Inside(block), &scope)?;
            Ok(Some(numbers))
        }
    }
}

/// For each block type of the declaration its network, or none for a basic type. Adds the unknown names of all types.
pub fn blocks_of(
    alloc: Global,
    found: &mut Vec<UnknownName>,
    types: &Types,
) -> Result<Items<Option<NetworkNumbers>>, AllocError>
    requires { AreTypes types.now }
    ensures listed { IfOk result (λ _. found.new.items ≡ found.old.items ++ each_at (unknown_in_block types.now.library.now) types.now.library.now.blocks) }
    ensures numbers { IfOk result (λ all. each_at (unknown_in_block types.now.library.now) types.now.library.now.blocks ≡ [] → AreBlocks types.now.library.now all) }
{
    let blocks = types.library.blocks.as_slice();
    let mut all = Items::new(alloc);
    for (block, declared) in blocks.iter().enumerate() {
        let numbers = block_numbers(alloc, found, types, block, declared)?;
        all.push(numbers)?;
    }
    Ok(all)
}
