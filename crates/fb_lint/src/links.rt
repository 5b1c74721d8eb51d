//! Links that no connection crosses (L13).

ghost use Rattle.std.specs.Prelude.{◌≡◌, ◌++◌, OnOk};
ghost use Rattle.std.specs.List.{list_any};
ghost use Rattle.fb_lint.specs.Networks as spec;

use crate::findings::push_if;
use crate::names::is_among;
use crate::warning::Warning;
use fb_types::{Connection, Link, Name, ResourceEntry};
use std::alloc::AllocError;

/// Whether a resource with the name lists the instance.
fn is_held(resources: &[ResourceEntry], name: &Name, instance: &Name) -> bool
    ensures { result ≡ list_any (spec.holds name.now instance.now) resources.now }
{
    for resource in resources {
        if name.is(&resource.name) && is_among(resource.instances.as_slice(), instance) {
            return true;
        }
    }
    false
}

/// Whether the component at an end of a connection is in the resource with the name.
fn is_end_in(resources: &[ResourceEntry], name: &Name, component: &Option<Name>) -> bool
    ensures { result ≡ spec.is_end_in resources.now name.now component.now }
{
    match component {
        Some(instance) => is_held(resources, name, instance),
        None => false,
    }
}

/// Whether one of the connections crosses the link.
fn is_crossed_by(resources: &[ResourceEntry], link: &Link, connections: &[Connection]) -> bool
    ensures { result ≡ list_any (spec.crosses resources.now link.now) connections.now }
{
    for connection in connections {
        if is_end_in(resources, &link.from, &connection.from.component)
            && is_end_in(resources, &link.to, &connection.to.component)
        {
            return true;
        }
    }
    false
}

/// Whether one of the connections of events or of data crosses the link.
fn is_crossed(
    resources: &[ResourceEntry],
    events: &[Connection],
    values: &[Connection],
    link: &Link,
) -> bool
    ensures { result ≡ spec.is_crossed resources.now events.now values.now link.now }
{
    is_crossed_by(resources, link, events) || is_crossed_by(resources, link, values)
}

/// Adds the links that none of these connections of events and of data crosses.
pub(crate) fn push_unused_links(
    all: &mut Vec<Warning>,
    resources: &[ResourceEntry],
    events: &[Connection],
    values: &[Connection],
    links: &[Link],
) -> Result<(), AllocError>
    ensures { OnOk result (all.new.items ≡ all.old.items ++ spec.unused_links resources.now events.now values.now links.now) }
{
    for (link, entry) in links.iter().enumerate() {
        let is_unused = !is_crossed(resources, events, values, entry);
        push_if(all, is_unused, Warning::UnusedLink { link })?;
    }
    Ok(())
}
