//! The application in its resources.

ghost use Rattle.std.specs.Prelude.{◌≡◌, ◌++◌, OnOk};
ghost use Rattle.std.specs.List.{flat_map};
ghost use Rattle.fb_draw.specs.Resources as spec;

use crate::dot::{put_foot, put_head};
use crate::network::put_network;
use fb_text::{put_all, put_number};
use fb_types::{Entry, Instance, Library, Link, Name, Plan, ResourceEntry};
use std::alloc::{AllocError, Global};

/// Adds the line of an instance that a resource holds.
fn put_member(text: &mut Vec<u8>, name: &Name) -> Result<(), AllocError>
    ensures { OnOk result (text.new.items ≡ text.old.items ++ spec.member name.now) }
{
    put_all(text, &[b"    \"", name.as_bytes(), b"\";\n"])
}

/// Adds the lines of the instances that a resource lists.
fn put_listed(text: &mut Vec<u8>, names: &[Name]) -> Result<(), AllocError>
    ensures { OnOk result (text.new.items ≡ text.old.items ++ flat_map spec.member names.now) }
{
    for name in names {
        put_member(text, name)?;
    }
    Ok(())
}

/// Adds the lines of all instances of the application.
fn put_whole(text: &mut Vec<u8>, instances: &[Instance]) -> Result<(), AllocError>
    ensures { OnOk result (text.new.items ≡ text.old.items ++ flat_map (λ i. spec.member i.name) instances.now) }
{
    for instance in instances {
        put_member(text, &instance.name)?;
    }
    Ok(())
}

/// Adds the instances that a resource holds, which are all of these if it holds all.
fn put_members(
    text: &mut Vec<u8>,
    plan: &Plan,
    instances: &[Instance],
    resource: &ResourceEntry,
) -> Result<(), AllocError>
    ensures { OnOk result (text.new.items ≡ text.old.items ++ spec.members plan.now instances.now resource.now) }
{
    if plan.holds_all {
        put_whole(text, instances)
    } else {
        put_listed(text, resource.instances.as_slice())
    }
}

/// Adds the beginning of the cluster of a resource: its name, and a point at which links begin and end.
fn put_resource_head(text: &mut Vec<u8>, resource: &ResourceEntry) -> Result<(), AllocError>
    ensures { OnOk result (text.new.items ≡ text.old.items ++ spec.resource_head resource.now.device resource.now.name) }
{
    let name = resource.name.as_bytes();
    put_all(
        text,
        &[
            b"  subgraph \"cluster ",
            name,
            b"\" {\n    label=\"",
            resource.device.as_bytes(),
            b".",
            name,
            b"\";\n    \"resource ",
            name,
            b"\" [shape=point, style=invis];\n",
        ],
    )
}

/// Adds the clusters of resources.
fn put_resources(
    text: &mut Vec<u8>,
    plan: &Plan,
    instances: &[Instance],
    resources: &[ResourceEntry],
) -> Result<(), AllocError>
    ensures { OnOk result (text.new.items ≡ text.old.items ++ flat_map (spec.resource_cluster plan.now instances.now) resources.now) }
{
    for resource in resources {
        put_resource_head(text, resource)?;
        put_members(text, plan, instances, resource)?;
        text.extend_from_slice(b"  }\n")?;
    }
    Ok(())
}

/// Adds an entry of a table of latencies, with the tick from which it holds.
fn put_entry(alloc: Global, text: &mut Vec<u8>, entry: Entry) -> Result<(), AllocError>
    ensures { OnOk result (text.new.items ≡ text.old.items ++ spec.entry_text entry) }
{
    if entry.from != 0 {
        text.extend_from_slice(b", from ")?;
        put_number(alloc, text, entry.from)?;
        text.extend_from_slice(b": ")?;
    }
    put_number(alloc, text, entry.latency)?;
    text.extend_from_slice(b" ms")
}

/// Adds a table of latencies.
fn put_entries(alloc: Global, text: &mut Vec<u8>, entries: &[Entry]) -> Result<(), AllocError>
    ensures { OnOk result (text.new.items ≡ text.old.items ++ flat_map spec.entry_text entries.now) }
{
    for entry in entries {
        put_entry(alloc, text, *entry)?;
    }
    Ok(())
}

/// Adds the edge of a link up to its latency.
fn put_link_head(text: &mut Vec<u8>, link: &Link) -> Result<(), AllocError>
    ensures { OnOk result (text.new.items ≡ text.old.items ++ spec.link_head link.now.from link.now.to) }
{
    let from = link.from.as_bytes();
    let to = link.to.as_bytes();
    put_all(
        text,
        &[
            b"  \"resource ",
            from,
            b"\" -> \"resource ",
            to,
            b"\" [ltail=\"cluster ",
            from,
            b"\", lhead=\"cluster ",
            to,
            b"\", style=bold, label=\"",
        ],
    )
}

/// Adds the edge of a link, with its latency in milliseconds.
fn put_link(alloc: Global, text: &mut Vec<u8>, link: &Link) -> Result<(), AllocError>
    ensures { OnOk result (text.new.items ≡ text.old.items ++ spec.link_edge link.now) }
{
    put_link_head(text, link)?;
    put_entries(alloc, text, link.latency.entries())?;
    text.extend_from_slice(b"\"];\n")
}

/// Adds the edges of links.
fn put_links(alloc: Global, text: &mut Vec<u8>, links: &[Link]) -> Result<(), AllocError>
    ensures { OnOk result (text.new.items ≡ text.old.items ++ flat_map spec.link_edge links.now) }
{
    for link in links {
        put_link(alloc, text, link)?;
    }
    Ok(())
}

/// Adds the application: its network, the resources with their instances, and the links.
pub(crate) fn put_application(
    alloc: Global,
    text: &mut Vec<u8>,
    library: &Library,
    plan: &Plan,
) -> Result<(), AllocError>
    ensures { OnOk result (text.new.items ≡ text.old.items ++ spec.application_text library.now plan.now) }
{
    let application = &library.application;
    put_head(text, b"record", &application.name)?;
    put_network(alloc, text, library, &application.network)?;
    put_resources(
        text,
        plan,
        application.network.instances.as_slice(),
        plan.resources.as_slice(),
    )?;
    put_links(alloc, text, plan.links.as_slice())?;
    put_foot(text)
}
