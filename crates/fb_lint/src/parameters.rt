//! Data inputs to which each instance of their type gives a parameter.

ghost use Rattle.std.specs.Prelude.{◌≡◌};
ghost use Rattle.std.specs.List.{list_any};
ghost use Rattle.fb_lint.specs.Parameters as spec;

use crate::networks::{has_parameter, is_used_type};
use fb_types::{BlockType, Instance, Library, Name};

/// A block type, by its name and its index in a declaration.
#[derive(Clone, Copy)]
pub(crate) struct Subject<'a> {
    /// The declaration.
    pub(crate) library: &'a Library,
    /// The index of the block type.
    pub(crate) block: usize,
    /// The name of the block type.
    pub(crate) name: &'a Name,
}

/// Whether one of the instances is of the type and gives the input no parameter.
fn has_lacking(instances: &[Instance], of: &Name, input: &Name) -> bool
    ensures { result ≡ list_any (spec.lacks of.now input.now) instances.now }
{
    for instance in instances {
        if of.is(&instance.block_type) && !has_parameter(instance.parameters.as_slice(), input) {
            return true;
        }
    }
    false
}

/// Whether an instance inside a block type is of the type and gives the input no parameter.
fn lacks_inside(block: &BlockType, of: &Name, input: &Name) -> bool
    ensures { result ≡ spec.lacks_inside of.now input.now block.now }
{
    match block {
        BlockType::Basic(_) => false,
        BlockType::Composite(composite) => {
            has_lacking(composite.network.instances.as_slice(), of, input)
        }
    }
}

fn is_lacking_inside(blocks: &[BlockType], of: &Name, input: &Name) -> bool
    ensures { result ≡ list_any (spec.lacks_inside of.now input.now) blocks.now }
{
    for block in blocks {
        if lacks_inside(block, of, input) {
            return true;
        }
    }
    false
}

/// Whether the type has instances, and each of them gives the input a parameter.
pub(crate) fn is_given(of: &Subject, input: &Name) -> bool
    ensures { result ≡ spec.is_given of.now.library.now of.now.name.now input.now }
{
    let library = of.library;
    is_used_type(library, of.name)
        && !has_lacking(
            library.application.network.instances.as_slice(),
            of.name,
            input,
        )
        && !is_lacking_inside(library.blocks.as_slice(), of.name, input)
}
