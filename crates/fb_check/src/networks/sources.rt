//! E24: ports to which two data connections lead.

ghost use Rattle.std.specs.Prelude.{◌≡◌, ◌++◌, [], All, IfOk, map};
ghost use Rattle.fb_types.specs.Joined.{TwoSources};
ghost use Rattle.fb_types.specs.Names.{same_port};
ghost use Rattle.fb_check_names.specs.Ends.{end_port};
ghost use Rattle.fb_check_names.specs.Listed.{each_at};
ghost use Rattle.fb_check_names.specs.Repeats.{repeats};
ghost use Rattle.fb_check_names.specs.Sites.{inside_of};
ghost use Rattle.fb_check.specs.networks.Sources.{IsTwoSourcesAt, two_sources_all, two_sources_among, two_sources_at, two_sources_in, target, targets};

use fb_check_names::{EndNames, Repeat, Site, TwoSourcesAt, end_names, push_pair};
use fb_types::{BlockType, Connection, Library};
use std::alloc::{AllocError, Global};
use std::collections::BTreeMap;

/// The names at the end to which a connection leads.
fn target_of(connection: &Connection) -> EndNames<'_>
    ensures { end_port result ≡ target connection.now }
{
    end_names(&connection.to)
}

/// Each connection that leads to the port of one before, with the index of the nearest such connection.
fn target_pairs(alloc: Global, connections: &[Connection]) -> Result<Vec<Repeat>, AllocError>
    ensures { IfOk result (λ pairs. pairs.items ≡ repeats same_port (targets connections.now)) }
{
    let mut seen: BTreeMap<EndNames, usize, Global> = BTreeMap::new(alloc);
    let mut pairs = Vec::new(alloc);
    for (second, connection) in connections.iter().enumerate() {
        let first = seen.insert(target_of(connection), second)?;
        push_pair(&mut pairs, first, second)?;
    }
    Ok(pairs)
}

/// Adds pairs of data connections of a network.
fn push_pairs(found: &mut Vec<TwoSourcesAt>, site: Site, pairs: &[Repeat]) -> Result<(), AllocError>
    ensures { IfOk result (λ _. found.new.items ≡ found.old.items ++ map (two_sources_at site) pairs.now) }
{
    for pair in pairs {
        found.push(TwoSourcesAt {
            site,
            connections: *pair,
        })?;
    }
    Ok(())
}

/// Adds the data connections of a network that lead to the port of one before.
fn push_in_network(
    alloc: Global,
    found: &mut Vec<TwoSourcesAt>,
    site: Site,
    connections: &[Connection],
) -> Result<(), AllocError>
    ensures { IfOk result (λ _. found.new.items ≡ found.old.items ++ two_sources_among site connections.now) }
{
    let pairs = target_pairs(alloc, connections)?;
    push_pairs(found, site, pairs.as_slice())
}

/// The same for the network inside a block type, if there is one.
fn push_inside(
    alloc: Global,
    found: &mut Vec<TwoSourcesAt>,
    block: usize,
    declared: &BlockType,
) -> Result<(), AllocError>
    ensures { IfOk result (λ _. found.new.items ≡ found.old.items ++ inside_of two_sources_in block declared.now) }
{
    match declared {
        BlockType::Basic(_) => Ok(()),
        BlockType::Composite(composite) => push_in_network(
            alloc,
            found,
            Site::Inside(block),
            composite.network.data_connections.as_slice(),
        ),
    }
}

/// The same for all block types.
fn push_in_blocks(
    alloc: Global,
    found: &mut Vec<TwoSourcesAt>,
    blocks: &[BlockType],
) -> Result<(), AllocError>
    ensures { IfOk result (λ _. found.new.items ≡ found.old.items ++ each_at (inside_of two_sources_in) blocks.now) }
{
    for (block, declared) in blocks.iter().enumerate() {
        push_inside(alloc, found, block, declared)?;
    }
    Ok(())
}

/// All data connections that lead to the port of one before, in the order of the declaration.
///
/// # Errors
///
/// When memory runs out.
pub fn two_sources_locations(
    alloc: Global,
    library: &Library,
) -> Result<Vec<TwoSourcesAt>, AllocError>
    ensures listed { IfOk result (λ found. found.items ≡ two_sources_all library.now) }
    ensures each { IfOk result (λ found. All (IsTwoSourcesAt library.now) found.items) }
    ensures none { IfOk result (λ found. found.items ≡ [] → ¬ (TwoSources library.now)) }
{
    let mut found = Vec::new(alloc);
    let connections = library.application.network.data_connections.as_slice();
    push_in_blocks(alloc, &mut found, library.blocks.as_slice())
        .and(push_in_network(alloc, &mut found, Site::Application, connections))
        .and(Ok(found))
}
