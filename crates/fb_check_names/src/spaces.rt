//! The indexes of the names of one block type, one network or one deployment, and what is given twice there.

ghost use Rattle.std.specs.Prelude.{◌≡◌, ◌++◌, [], map, IfOk};
ghost use Rattle.fb_types.specs.Flat.{resource_names_of};
ghost use Rattle.fb_types.specs.Repeated.{Twice, instance_names};
ghost use Rattle.fb_types.specs.declared.library.BlockType.TheVariants as kind;
ghost use Rattle.fb_check_names.specs.Listed.{each_at};
ghost use Rattle.fb_check_names.specs.Catalog.{IsBlock};
ghost use Rattle.fb_check_names.specs.GivenTwice.{AreBlocks, BlockTwice, NetworkTwice, PortTwice, names_of_ports};
ghost use Rattle.fb_check_names.specs.Indexes.{IsIndex, names_in};
ghost use Rattle.fb_check_names.specs.TwiceLists.{event_block_at, names_twice, parameters_twice, twice_in_block, twice_in_network, twice_in_plan, twice_in_ports, with_twice};
ghost use Rattle.fb_check_names.specs.declared.repeats.NameSpace.TheVariants as space;

use crate::catalog::BlockIndexes;
use crate::listed::push_unless;
use crate::location::{Direction, Site};
use crate::named::{Named, push_names};
use crate::placing::{Indexes, last_indexes};
use crate::repeats::{NameSpace, push_connections, push_links, push_pairs};
use crate::twice::GivenTwice;
use fb_types::{
    BasicType, BlockType, CompositeType, EventPort, Instance, Name, Network, Plan, Ports, Variable,
    kind_named,
};
use std::alloc::{AllocError, Global};
use std::collections::BTreeMap;

/// The indexes of the names of a name space, if they differ. Adds those that are given twice.
fn name_indexes<'a>(
    alloc: Global,
    found: &mut Vec<GivenTwice>,
    name_space: NameSpace,
    names: &[&'a Name],
) -> Result<Indexes<'a>, AllocError>
    ensures found { IfOk result (λ _. found.new.items ≡ found.old.items ++ names_twice name_space (names_in names.now)) }
    ensures indexes { IfOk result (λ m. ¬ (Twice (names_in names.now)) → IsIndex (names_in names.now) m) }
{
    let mut pairs = Vec::new(alloc);
    let indexes = last_indexes(alloc, &mut pairs, names)?;
    push_pairs(found, name_space, pairs.as_slice())?;
    Ok(indexes)
}

/// The same for the names of the items of a list.
pub fn called_indexes<'a, T: Named>(
    alloc: Global,
    found: &mut Vec<GivenTwice>,
    name_space: NameSpace,
    items: &'a [T],
) -> Result<Indexes<'a>, AllocError>
    ensures found { IfOk result (λ _. found.new.items ≡ found.old.items ++ names_twice name_space (map T.called items.now)) }
    ensures indexes { IfOk result (λ m. ¬ (Twice (map T.called items.now)) → IsIndex (map T.called items.now) m) }
{
    let mut names = Vec::new(alloc);
    push_names(&mut names, items)?;
    name_indexes(alloc, found, name_space, names.as_slice())
}

/// Adds what the WITH lists of events of one direction give twice.
fn push_in_withs(
    alloc: Global,
    found: &mut Vec<GivenTwice>,
    block: usize,
    direction: Direction,
    events: &[EventPort],
) -> Result<(), AllocError>
    ensures { IfOk result (λ _. found.new.items ≡ found.old.items ++ each_at (with_twice block direction) events.now) }
{
    for (event, declared) in events.iter().enumerate() {
        let name_space = NameSpace::With(block, direction, event);
        called_indexes(alloc, found, name_space, declared.with.as_slice())?;
    }
    Ok(())
}

/// Adds the names of ports and internal variables.
fn push_port_names<'a>(
    names: &mut Vec<&'a Name>,
    ports: &'a Ports,
    internals: &'a [Variable],
) -> Result<(), AllocError>
    ensures { IfOk result (λ _. names_in names.new.items ≡ names_in names.old.items ++ names_of_ports ports.now internals.now) }
{
    push_names(names, ports.event_inputs.as_slice())?;
    push_names(names, ports.event_outputs.as_slice())?;
    push_names(names, ports.inputs.as_slice())?;
    push_names(names, ports.outputs.as_slice())?;
    push_names(names, internals)
}

/// The indexes of ports and of internal variables, as one list. Adds the names that are given twice.
fn port_indexes<'a>(
    alloc: Global,
    found: &mut Vec<GivenTwice>,
    block: usize,
    ports: &'a Ports,
    internals: &'a [Variable],
) -> Result<Indexes<'a>, AllocError>
    ensures found { IfOk result (λ _. found.new.items ≡ found.old.items ++ names_twice (space.Ports block) (names_of_ports ports.now internals.now)) }
    ensures indexes { IfOk result (λ m. ¬ (Twice (names_of_ports ports.now internals.now)) → IsIndex (names_of_ports ports.now internals.now) m) }
{
    let mut names = Vec::new(alloc);
    push_port_names(&mut names, ports, internals)?;
    name_indexes(alloc, found, NameSpace::Ports(block), names.as_slice())
}

/// The same, and adds the variables that are twice WITH an event.
fn interface_indexes<'a>(
    alloc: Global,
    found: &mut Vec<GivenTwice>,
    block: usize,
    ports: &'a Ports,
    internals: &'a [Variable],
) -> Result<Indexes<'a>, AllocError>
    ensures found { IfOk result (λ _. found.new.items ≡ found.old.items ++ twice_in_ports block ports.now internals.now) }
    ensures indexes { IfOk result (λ m. ¬ (PortTwice ports.now internals.now) → IsIndex (names_of_ports ports.now internals.now) m) }
{
    let indexes = port_indexes(alloc, found, block, ports, internals)?;
    let inputs = ports.event_inputs.as_slice();
    push_in_withs(alloc, found, block, Direction::Input, inputs)?;
    let outputs = ports.event_outputs.as_slice();
    push_in_withs(alloc, found, block, Direction::Output, outputs)?;
    Ok(indexes)
}

/// Adds the parameters that instances give twice.
fn push_parameters(
    alloc: Global,
    found: &mut Vec<GivenTwice>,
    site: Site,
    instances: &[Instance],
) -> Result<(), AllocError>
    ensures { IfOk result (λ _. found.new.items ≡ found.old.items ++ each_at (parameters_twice site) instances.now) }
{
    for (instance, declared) in instances.iter().enumerate() {
        let name_space = NameSpace::Parameters(site, instance);
        called_indexes(alloc, found, name_space, declared.parameters.as_slice())?;
    }
    Ok(())
}

/// The indexes of the instances of a network. Adds the names, the parameters of an instance and the event connections
/// that are given twice.
pub fn network_indexes<'a>(
    alloc: Global,
    found: &mut Vec<GivenTwice>,
    site: Site,
    network: &'a Network,
) -> Result<Indexes<'a>, AllocError>
    ensures found { IfOk result (λ _. found.new.items ≡ found.old.items ++ twice_in_network site network.now) }
    ensures indexes { IfOk result (λ m. ¬ (NetworkTwice network.now) → IsIndex (instance_names network.now) m) }
{
    let instances = network.instances.as_slice();
    let indexes = called_indexes(alloc, found, NameSpace::Instances(site), instances)?;
    push_parameters(alloc, found, site, instances)?;
    push_connections(alloc, found, site, network)?;
    Ok(indexes)
}

fn basic_indexes<'a>(
    alloc: Global,
    found: &mut Vec<GivenTwice>,
    block: usize,
    basic: &'a BasicType,
) -> Result<BlockIndexes<'a>, AllocError>
    ensures found { IfOk result (λ _. found.new.items ≡ found.old.items ++ twice_in_block block (kind.Basic basic.now)) }
    ensures indexes { IfOk result (λ x. ¬ (BlockTwice (kind.Basic basic.now)) → IsBlock (kind.Basic basic.now) x) }
{
    let internals = basic.internals.as_slice();
    let ports = interface_indexes(alloc, found, block, &basic.ports, internals)?;
    let states = basic.states.as_slice();
    let states = called_indexes(alloc, found, NameSpace::States(block), states)?;
    let algorithms = basic.algorithms.as_slice();
    let algorithms = called_indexes(alloc, found, NameSpace::Algorithms(block), algorithms)?;
    Ok(BlockIndexes {
        ports,
        states,
        algorithms,
        instances: BTreeMap::new(alloc),
    })
}

fn composite_indexes<'a>(
    alloc: Global,
    found: &mut Vec<GivenTwice>,
    block: usize,
    composite: &'a CompositeType,
) -> Result<BlockIndexes<'a>, AllocError>
    ensures found { IfOk result (λ _. found.new.items ≡ found.old.items ++ twice_in_block block (kind.Composite composite.now)) }
    ensures indexes { IfOk result (λ x. ¬ (BlockTwice (kind.Composite composite.now)) → IsBlock (kind.Composite composite.now) x) }
{
    let ports = interface_indexes(alloc, found, block, &composite.ports, &[])?;
    let instances = network_indexes(alloc, found, Site::Inside(block), &composite.network)?;
    Ok(BlockIndexes {
        ports,
        states: BTreeMap::new(alloc),
        algorithms: BTreeMap::new(alloc),
        instances,
    })
}

/// The indexes of the names of the block type at an index. Adds what it gives twice.
fn block_indexes<'a>(
    alloc: Global,
    found: &mut Vec<GivenTwice>,
    block: usize,
    declared: &'a BlockType,
) -> Result<BlockIndexes<'a>, AllocError>
    ensures found { IfOk result (λ _. found.new.items ≡ found.old.items ++ twice_in_block block declared.now) }
    ensures indexes { IfOk result (λ x. ¬ (BlockTwice declared.now) → IsBlock declared.now x) }
{
    match declared {
        BlockType::Basic(basic) => basic_indexes(alloc, found, block, basic),
        BlockType::Composite(composite) => composite_indexes(alloc, found, block, composite),
    }
}

/// The indexes of the names of each block type. Adds what they give twice.
pub fn blocks_indexes<'a>(
    alloc: Global,
    found: &mut Vec<GivenTwice>,
    blocks: &'a [BlockType],
) -> Result<Vec<BlockIndexes<'a>>, AllocError>
    ensures found { IfOk result (λ _. found.new.items ≡ found.old.items ++ each_at twice_in_block blocks.now) }
    ensures indexes { IfOk result (λ xs. AreBlocks blocks.now xs.items) }
{
    let mut all = Vec::new(alloc);
    for (block, declared) in blocks.iter().enumerate() {
        let indexes = block_indexes(alloc, found, block, declared)?;
        all.push(indexes)?;
    }
    Ok(all)
}

/// Adds the block types with the name of an event block.
pub fn push_event_blocks(
    found: &mut Vec<GivenTwice>,
    blocks: &[BlockType],
) -> Result<(), AllocError>
    ensures { IfOk result (λ _. found.new.items ≡ found.old.items ++ each_at event_block_at blocks.now) }
{
    for (block, declared) in blocks.iter().enumerate() {
        let is_own_name = kind_named(declared.name().as_bytes()).is_none();
        push_unless(found, is_own_name, GivenTwice::EventBlock(block))?;
    }
    Ok(())
}

/// The indexes of the resources. Adds the names and the links that are given twice.
pub fn resource_indexes<'a>(
    alloc: Global,
    found: &mut Vec<GivenTwice>,
    plan: &'a Plan,
) -> Result<Indexes<'a>, AllocError>
    ensures found { IfOk result (λ _. found.new.items ≡ found.old.items ++ twice_in_plan plan.now) }
    ensures indexes { IfOk result (λ m. ¬ (Twice (resource_names_of plan.now)) → IsIndex (resource_names_of plan.now) m) }
{
    let resources = plan.resources.as_slice();
    let indexes = called_indexes(alloc, found, NameSpace::Resources, resources)?;
    push_links(alloc, found, plan.links.as_slice())?;
    Ok(indexes)
}
