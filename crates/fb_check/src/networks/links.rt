//! E27: connections between two resources that have no link.

ghost use Rattle.std.specs.Prelude.{◌≡◌, ◌++◌, [], All, IfOk, OnOk};
ghost use Rattle.fb_types.specs.Flat.{name_of_resource};
ghost use Rattle.fb_types.specs.Mapped.{NoLink};
ghost use Rattle.fb_check.specs.networks.Mapping.{IsMapping, IsHolding};
ghost use Rattle.fb_check_names.specs.Listed.{each_at};
ghost use Rattle.fb_check_names.specs.Pairs.{link_names};
ghost use Rattle.fb_check.specs.networks.Links.{AreWays, IsNoLinkAt, names_of_link, no_link_all, no_link_at};

use crate::networks::mapping::{Mapping, resource_of};
use fb_check_names::{FlowKind, NoLinkAt, push_unless};
use fb_types::{Connection, Library, Link, Plan};
use std::alloc::{AllocError, Global};
use std::collections::BTreeSet;

/// The names of two resources: the sender, and the receiver.
type Way<'a> = (&'a [u8], &'a [u8]);

/// The names of the resources that a link joins.
fn way_of(link: &Link) -> Way<'_>
    ensures { link_names result ≡ names_of_link link.now }
{
    (link.from.as_bytes(), link.to.as_bytes())
}

/// Adds the ordered pairs of resources that have a link to an empty set.
fn add_ways<'a>(ways: &mut BTreeSet<Way<'a>, Global>, links: &'a [Link]) -> Result<(), AllocError>
    requires { AreWays [] ways.old }
    ensures { OnOk result (AreWays links.now ways.new) }
{
    for link in links {
        ways.insert(way_of(link))?;
    }
    Ok(())
}

/// The name of the resource at an index.
fn name_of(plan: &Plan, resource: usize) -> &[u8]
    ensures { result.now ≡ name_of_resource plan.now resource }
{
    match plan.resources.get(resource) {
        Some(resource) => resource.name.as_bytes(),
        None => &[],
    }
}

/// Adds those of these connections, which carry the same, that go from one resource to another with no link for it.
fn push_no_link<'a>(
    found: &mut Vec<NoLinkAt>,
    plan: &'a Plan,
    mapping: &Mapping,
    ways: &BTreeSet<Way<'a>, Global>,
    flow: FlowKind,
    connections: &[Connection],
) -> Result<(), AllocError>
    requires mapping { IsHolding plan.now mapping.now }
    requires ways { AreWays plan.now.links ways.now }
    ensures { IfOk result (λ _. found.new.items ≡ found.old.items ++ each_at (no_link_at plan.now flow) connections.now) }
{
    for (connection, declared) in connections.iter().enumerate() {
        let from = resource_of(mapping, &declared.from);
        let to = resource_of(mapping, &declared.to);
        // One resource holds both ends, or there is a link.
        let is_linked = from == to || ways.contains(&(name_of(plan, from), name_of(plan, to)));
        push_unless(found, is_linked, NoLinkAt { flow, connection })?;
    }
    Ok(())
}

/// All connections of the application, of events or of data, that go from one resource to another with no link from the
/// one to the other (E27), in the order of the declaration.
///
/// # Errors
///
/// When memory runs out.
pub fn no_link_locations(
    alloc: Global,
    library: &Library,
    plan: &Plan,
    mapping: &Mapping,
) -> Result<Vec<NoLinkAt>, AllocError>
    requires { IsMapping library.now plan.now mapping.now }
    ensures listed { IfOk result (λ found. found.items ≡ no_link_all library.now plan.now) }
    ensures each { IfOk result (λ found. All (IsNoLinkAt library.now plan.now) found.items) }
    ensures none { IfOk result (λ found. found.items ≡ [] → ¬ (NoLink library.now plan.now)) }
{
    let mut ways = BTreeSet::new(alloc);
    add_ways(&mut ways, plan.links.as_slice())?;
    let network = &library.application.network;
    let mut found = Vec::new(alloc);
    let events = network.event_connections.as_slice();
    let data = network.data_connections.as_slice();
    push_no_link(&mut found, plan, mapping, &ways, FlowKind::Events, events)
        .and(push_no_link(&mut found, plan, mapping, &ways, FlowKind::Data, data))
        .and(Ok(found))
}
