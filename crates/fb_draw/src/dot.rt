//! The head and the foot of a graph in the DOT language.

ghost use Rattle.std.specs.Prelude.{◌≡◌, ◌++◌, OnOk};
ghost use Rattle.fb_draw.specs.Dot as spec;

use fb_text::put_all;
use fb_types::Name;
use std::alloc::AllocError;

/// Adds the head of a graph, whose nodes are of a shape.
pub(crate) fn put_head(text: &mut Vec<u8>, shape: &[u8], name: &Name) -> Result<(), AllocError>
    ensures { OnOk result (text.new.items ≡ text.old.items ++ spec.head shape.now name.now) }
{
    put_all(
        text,
        &[
            b"digraph \"",
            name.as_bytes(),
            b"\" {\n  graph [rankdir=LR, compound=true, newrank=true];\n  node [shape=",
            shape,
            b"];\n",
        ],
    )
}

/// Adds the end of a graph.
pub(crate) fn put_foot(text: &mut Vec<u8>) -> Result<(), AllocError>
    ensures { OnOk result (text.new.items ≡ text.old.items ++ spec.foot) }
{
    text.extend_from_slice(b"}\n")
}
