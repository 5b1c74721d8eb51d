//! What is drawn.

ghost use Rattle.std.specs.Prelude.{◌≡◌, IfOk, option_map};
ghost use Rattle.std.specs.Option.{option_copied};
ghost use Rattle.fb_draw.specs.Drawings as spec;

use crate::chart::put_chart;
use crate::network::{find_type, put_composite};
use crate::resource::put_application;
use fb_types::{BlockType, Library, Name, Plan};
use std::alloc::{AllocError, Global};

/// The graph of the application in its resources, or of the block type that has a name: of a basic type its chart, and
/// of a composite type its network. There is none if no declared type has the name.
///
/// # Errors
/// When memory runs out.
pub fn draw(
    alloc: Global,
    library: &Library,
    plan: &Plan,
    block_type: Option<&Name>,
) -> Result<Option<Vec<u8>>, AllocError>
    ensures { IfOk result (λ graph. option_map (λ v. v.items) graph ≡ spec.graph_text library.now plan.now (option_copied block_type.entry)) }
{
    let mut text = Vec::new(alloc);
    match block_type {
        Some(name) => match find_type(library, name) {
            Some(BlockType::Basic(basic)) => put_chart(alloc, &mut text, basic)?,
            Some(BlockType::Composite(composite)) => {
                put_composite(alloc, &mut text, library, composite)?
            }
            None => return Ok(None),
        },
        None => put_application(alloc, &mut text, library, plan)?,
    }
    Ok(Some(text))
}
