//! E23: data connections to a type that does not contain all values of the source type.

ghost use Rattle.std.specs.Prelude.{◌≡◌, ◌++◌, [], All, IfOk};
ghost use Rattle.std.specs.Option.{option_copied};
ghost use Rattle.fb_types.specs.Joined.{OutOfRange};
ghost use Rattle.fb_types.specs.Repeated.{NameTwice};
ghost use Rattle.fb_types.specs.declared.deploy.Plan.{Plan};
ghost use Rattle.fb_check_names.specs.Numbers.{IsResolved};
ghost use Rattle.fb_check_names.specs.Listed.{each_at};
ghost use Rattle.fb_check.specs.networks.Joins as spec;
ghost use Rattle.fb_check.specs.networks.OutOfRange.{IsOutOfRangeAt, out_of_range_all, out_at_index, out_in};

use crate::networks::values::is_within;
use crate::networks::variables::{source_type, target_type};
use fb_check_names::{
    NetworkNumbers, NumberedConnection, OutOfRangeAt, Resolved, Site, TypeNumber, push_unless,
};
use fb_types::{BlockType, Items, Library, Ports};
use std::alloc::{AllocError, Global};

/// Whether a data connection leads out of the range of the type at its end, in a network with these ports
/// around it.
fn leads_out(
    library: &Library,
    boundary: Option<&Ports>,
    types: &[TypeNumber],
    wire: &NumberedConnection,
) -> bool
    ensures { result ≡ spec.leads_out library.now (option_copied boundary.entry) types.now wire.now }
{
    let from = source_type(library, boundary, types, wire.from);
    let to = target_type(library, boundary, types, wire.to);
    match (from, to) {
        (Some(from), Some(to)) => !is_within(from, to),
        _ => false,
    }
}

/// Adds the data connections of a network that lead out of range.
fn push_in_network(
    found: &mut Vec<OutOfRangeAt>,
    library: &Library,
    site: Site,
    boundary: Option<&Ports>,
    numbers: &NetworkNumbers,
) -> Result<(), AllocError>
    ensures { IfOk result (λ _. found.new.items ≡ found.old.items ++ out_in library.now site (option_copied boundary.entry) numbers.now) }
{
    let types = numbers.types.as_slice();
    let wires = numbers.data_wires.as_slice();
    for (connection, wire) in wires.iter().enumerate() {
        let leads_out = leads_out(library, boundary, types, wire);
        push_unless(found, !leads_out, OutOfRangeAt { site, connection })?;
    }
    Ok(())
}

/// The same for the network inside the block type at an index, if there is one, by the numbers of all.
fn push_inside(
    found: &mut Vec<OutOfRangeAt>,
    library: &Library,
    blocks: &Items<Option<NetworkNumbers>>,
    block: usize,
    declared: &BlockType,
) -> Result<(), AllocError>
    ensures { IfOk result (λ _. found.new.items ≡ found.old.items ++ out_at_index library.now blocks.now block declared.now) }
{
    match (declared, blocks.get(block)) {
        (BlockType::Composite(composite), Some(Some(numbers))) => push_in_network(
            found,
            library,
            Site::Inside(block),
            Some(&composite.ports),
            numbers,
        ),
        _ => Ok(()),
    }
}

/// The same for all block types.
fn push_in_blocks(
    found: &mut Vec<OutOfRangeAt>,
    library: &Library,
    blocks: &Items<Option<NetworkNumbers>>,
) -> Result<(), AllocError>
    ensures { IfOk result (λ _. found.new.items ≡ found.old.items ++ each_at (out_at_index library.now blocks.now) library.now.blocks) }
{
    let types = library.blocks.as_slice();
    for (block, declared) in types.iter().enumerate() {
        push_inside(found, library, blocks, block, declared)?;
    }
    Ok(())
}

/// All data connections to a type that does not contain all values of the source type, in the order of the declaration.
/// No name is given twice, and the numbers are those of the declaration.
///
/// # Errors
///
/// When memory runs out.
pub fn out_of_range_locations(
    alloc: Global,
    library: &Library,
    numbers: &Resolved,
) -> Result<Vec<OutOfRangeAt>, AllocError>
    requires { (plan : Plan) × IsResolved library.now plan numbers.now × ¬ (NameTwice library.now plan) }
    ensures listed { IfOk result (λ found. found.items ≡ out_of_range_all library.now) }
    ensures each { IfOk result (λ found. All (IsOutOfRangeAt library.now) found.items) }
    ensures none { IfOk result (λ found. found.items ≡ [] → ¬ (OutOfRange library.now)) }
{
    let mut found = Vec::new(alloc);
    let application = &numbers.application;
    push_in_blocks(&mut found, library, &numbers.blocks)
        .and(push_in_network(&mut found, library, Site::Application, None, application))
        .and(Ok(found))
}
