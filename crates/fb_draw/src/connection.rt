//! Connections.

ghost use Rattle.std.specs.Prelude.{◌≡◌, ◌++◌, OnOk, unwrap_or};
ghost use Rattle.std.specs.List.{flat_map};
ghost use Rattle.fb_draw.specs.Networks as spec;

use fb_text::put_all;
use fb_types::{Connection, PortName};
use std::alloc::AllocError;

/// The node that has a port: an instance, or the one that represents a side of the composite.
fn node_of<'a>(port: &'a PortName, side: &'a [u8]) -> &'a [u8]
    ensures { result.now ≡ unwrap_or port.now.component side.now }
{
    match &port.component {
        Some(component) => component.as_bytes(),
        None => side,
    }
}

/// Adds an end of an edge.
fn put_end(text: &mut Vec<u8>, side: &[u8], port: &PortName) -> Result<(), AllocError>
    ensures { OnOk result (text.new.items ≡ text.old.items ++ spec.edge_end side.now port.now) }
{
    put_all(
        text,
        &[
            b"\"",
            node_of(port, side),
            b"\":\"",
            port.port.as_bytes(),
            b"\"",
        ],
    )
}

/// Adds the edge of a connection, with attributes.
fn put_edge(
    text: &mut Vec<u8>,
    attributes: &[u8],
    connection: &Connection,
) -> Result<(), AllocError>
    ensures { OnOk result (text.new.items ≡ text.old.items ++ spec.edge attributes.now connection.now) }
{
    text.extend_from_slice(b"  ")?;
    put_end(text, b"in", &connection.from)?;
    text.extend_from_slice(b" -> ")?;
    put_end(text, b"out", &connection.to)?;
    put_all(text, &[attributes, b";\n"])
}

/// Adds the edges of connections, with attributes.
pub(crate) fn put_edges(
    text: &mut Vec<u8>,
    attributes: &[u8],
    connections: &[Connection],
) -> Result<(), AllocError>
    ensures { OnOk result (text.new.items ≡ text.old.items ++ flat_map (spec.edge attributes.now) connections.now) }
{
    for connection in connections {
        put_edge(text, attributes, connection)?;
    }
    Ok(())
}
