//! Resources and links by number, and the names of a deployment that are unknown.

ghost use Rattle.std.specs.Prelude.{◌≡◌, ◌++◌, Some, IfOk, option_map, option_and_then};
ghost use Rattle.fb_check_names.specs.Indexes.{index_in};
ghost use Rattle.fb_check.specs.types.Present.{each_some, ends_in, mapped_unless, sides_unless};
ghost use Rattle.fb_check_names.specs.Listed.{each_at};

use crate::types::adding::{push_found, push_some};
use fb_check_names::{Indexes, LinkEnds, Side, UnknownName, index_of_name, push_unless};
use fb_types::{Items, Link, Name, ResourceEntry};
use std::alloc::{AllocError, Global};

/// The indexes of the instances that a resource lists. Adds the names that are no instances.
fn listed_of(
    alloc: Global,
    found: &mut Vec<UnknownName>,
    instances: &Indexes,
    resource: usize,
    names: &[Name],
) -> Result<Items<usize>, AllocError>
    ensures listed { IfOk result (λ _. found.new.items ≡ found.old.items ++ each_at (mapped_unless instances.now resource) names.now) }
    ensures numbers { IfOk result (λ ks. ks ≡ each_some (index_in instances.now) names.now) }
{
    let mut numbers = Items::new(alloc);
    for (instance, name) in names.iter().enumerate() {
        let number = index_of_name(instances, name);
        let location = UnknownName::Mapped { resource, instance };
        push_found(&mut numbers, found, number, location)?;
    }
    Ok(numbers)
}

/// The instances that each resource lists. Adds the names that are no instances.
pub fn held_of(
    alloc: Global,
    found: &mut Vec<UnknownName>,
    instances: &Indexes,
    resources: &[ResourceEntry],
) -> Result<Items<Items<usize>>, AllocError>
    ensures listed { IfOk result (λ _. found.new.items ≡ found.old.items ++ each_at (λ r x. each_at (mapped_unless instances.now r) x.instances) resources.now) }
    ensures numbers { IfOk result (λ hs. hs ≡ each_some (λ x. Some (each_some (index_in instances.now) x.instances)) resources.now) }
{
    let mut held = Items::new(alloc);
    for (resource, declared) in resources.iter().enumerate() {
        let names = declared.instances.as_slice();
        let numbers = listed_of(alloc, found, instances, resource, names)?;
        held.push(numbers)?;
    }
    Ok(held)
}

/// The resources of a link, if both are known.
fn link_between(from: Option<usize>, to: Option<usize>) -> Option<LinkEnds>
    ensures { result ≡ option_and_then (λ x. option_map (λ y. record { from = x; to = y }) to) from }
{
    match (from, to) {
        (Some(from), Some(to)) => Some(LinkEnds { from, to }),
        _ => None,
    }
}

/// The resources of each link, if both are known. Adds the ends that are no resources.
pub fn links_of(
    alloc: Global,
    found: &mut Vec<UnknownName>,
    resources: &Indexes,
    links: &[Link],
) -> Result<Items<LinkEnds>, AllocError>
    ensures listed { IfOk result (λ _. found.new.items ≡ found.old.items ++ each_at (sides_unless resources.now) links.now) }
    ensures numbers { IfOk result (λ es. es ≡ each_some (ends_in resources.now) links.now) }
{
    let mut all = Items::new(alloc);
    for (link, declared) in links.iter().enumerate() {
        let from = index_of_name(resources, &declared.from);
        let from_end = UnknownName::LinkEnd {
            link,
            side: Side::From,
        };
        let to = index_of_name(resources, &declared.to);
        let to_end = UnknownName::LinkEnd {
            link,
            side: Side::To,
        };
        push_unless(found, from.is_some(), from_end)
            .and(push_unless(found, to.is_some(), to_end))
            .and(push_some(&mut all, link_between(from, to)))?;
    }
    Ok(all)
}
