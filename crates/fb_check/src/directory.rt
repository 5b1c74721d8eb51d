//! What stimuli may name, looked up by name.

ghost use Rattle.std.specs.Prelude.{◌<◌, length, OnSome};
ghost use Rattle.std.specs.Option.{option_copied};
ghost use Rattle.fb_types.specs.declared.deploy.Plan.{Plan};
ghost use Rattle.fb_check_names.specs.Catalog.{IsCatalog};
ghost use Rattle.fb_check.specs.Directory.{IsDirectory, IsFound, ports_at_index};

use crate::directory_making::{Pairs, TypeInputs};
use fb_check_names::{Catalog, index_of_name};
use fb_types::{Items, Library, kind_named};

/// What stimuli may name: of each type its event inputs and its data inputs, and the ports of the
/// application to which data connections lead.
#[derive(Drop)]
pub struct Directory<'a> {
    /// For each event block, by the index of its interface.
    pub event_blocks: Items<TypeInputs<'a>>,
    /// For each block type of the declaration.
    pub declared: Items<TypeInputs<'a>>,
    /// The ports to which data connections of the application lead.
    pub targets: Pairs<'a>,
}

/// What a stimulus may name of the instance at an index of the application, or `None` if there is no such instance or
/// no such type.
pub fn inputs_at<'d, 'a>(
    library: &Library,
    catalog: &Catalog,
    directory: &'d Directory<'a>,
    index: usize,
) -> Option<&'d TypeInputs<'a>>
    requires catalog { (plan : Plan) × IsCatalog library.now plan catalog.now }
    requires directory { IsDirectory library.now directory.now }
    ensures found { IsFound (ports_at_index library.now index) (option_copied result) }
    ensures within { OnSome result (index < length library.now.application.network.instances) }
{
    let instance = library.application.network.instances.get(index)?;
    let name = &instance.block_type;
    match kind_named(name.as_bytes()) {
        Some(kind) => directory.event_blocks.get(kind.index()),
        None => directory.declared.get(index_of_name(&catalog.types, name)?),
    }
}
