//! Networks of instances.

ghost use Rattle.std.specs.Prelude.{◌≡◌, ◌++◌, OnOk};
ghost use Rattle.std.specs.List.{flat_map};
ghost use Rattle.std.specs.Option.{option_copied};
ghost use Rattle.fb_types.specs.Blocks.{named};
ghost use Rattle.fb_types.specs.Flat.{type_name};
ghost use Rattle.fb_draw.specs.Networks as spec;

use crate::block::{put_block, put_sides};
use crate::connection::put_edges;
use crate::dot::{put_foot, put_head};
use fb_types::{
    BlockType, CompositeType, Instance, Library, Name, Network, block_named, kind_named, ports_of,
};
use std::alloc::{AllocError, Global};

/// The declared type that has a name.
pub(crate) fn find_type<'a>(library: &'a Library, name: &Name) -> Option<&'a BlockType>
    ensures { option_copied result ≡ named type_name name.now library.now.blocks }
{
    block_named(library.blocks.as_slice(), name)
}

/// Adds the node of an instance.
fn put_instance(
    alloc: Global,
    text: &mut Vec<u8>,
    library: &Library,
    instance: &Instance,
) -> Result<(), AllocError>
    ensures { OnOk result (text.new.items ≡ text.old.items ++ spec.instance_node library.now instance.now) }
{
    match kind_named(instance.block_type.as_bytes()) {
        Some(kind) => {
            let ports = ports_of(alloc, kind)?;
            put_block(alloc, text, instance, &ports)
        }
        // A declared type exists, as the check has found.
        None => match find_type(library, &instance.block_type) {
            Some(block) => put_block(alloc, text, instance, block.ports()),
            None => Ok(()),
        },
    }
}

/// Adds the nodes of instances.
fn put_instances(
    alloc: Global,
    text: &mut Vec<u8>,
    library: &Library,
    instances: &[Instance],
) -> Result<(), AllocError>
    ensures { OnOk result (text.new.items ≡ text.old.items ++ flat_map (spec.instance_node library.now) instances.now) }
{
    for instance in instances {
        put_instance(alloc, text, library, instance)?;
    }
    Ok(())
}

/// Adds a network: its instances, its event connections, and its data connections, which are dashed.
pub(crate) fn put_network(
    alloc: Global,
    text: &mut Vec<u8>,
    library: &Library,
    network: &Network,
) -> Result<(), AllocError>
    ensures { OnOk result (text.new.items ≡ text.old.items ++ spec.network_text library.now network.now) }
{
    put_instances(alloc, text, library, network.instances.as_slice())?;
    put_edges(text, b"", network.event_connections.as_slice())?;
    put_edges(
        text,
        b" [style=dashed]",
        network.data_connections.as_slice(),
    )
}

/// Adds a composite type: its two sides and its network.
pub(crate) fn put_composite(
    alloc: Global,
    text: &mut Vec<u8>,
    library: &Library,
    composite: &CompositeType,
) -> Result<(), AllocError>
    ensures { OnOk result (text.new.items ≡ text.old.items ++ spec.composite_text library.now composite.now) }
{
    put_head(text, b"record", &composite.name)?;
    put_sides(text, &composite.ports)?;
    put_network(alloc, text, library, &composite.network)?;
    put_foot(text)
}
