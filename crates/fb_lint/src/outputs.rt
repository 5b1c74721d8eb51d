//! Data outputs that are assigned or read, and that are WITH no event output (L14).

ghost use Rattle.std.specs.Prelude.{◌≡◌, ◌++◌, IfOk, OnOk};
ghost use Rattle.std.specs.List.{list_any};
ghost use Rattle.fb_lint.specs.Outputs as spec;

use crate::findings::push_if;
use crate::interfaces::{has_with, is_joined};
use crate::names::is_listed;
use crate::parameters::Subject;
use crate::uses::assigned;
use crate::warning::Warning;
use fb_check_names::PortKind;
use fb_types::{BlockType, Connection, Instance, Library, Name, Network, Variable};
use std::alloc::{AllocError, Global};

/// Whether the instance with the name is of the type.
fn is_instance_of(instances: &[Instance], of: &Name, name: &Name) -> bool
    ensures { result ≡ list_any (spec.is_instance of.now name.now) instances.now }
{
    for instance in instances {
        if name.is(&instance.name) && of.is(&instance.block_type) {
            return true;
        }
    }
    false
}

/// Whether the component at an end of a connection is an instance of the type.
fn is_end_of(instances: &[Instance], of: &Name, component: &Option<Name>) -> bool
    ensures { result ≡ spec.is_end_of instances.now of.now component.now }
{
    match component {
        Some(instance) => is_instance_of(instances, of, instance),
        None => false,
    }
}

/// Whether one of the connections comes from the data output of an instance of the type.
fn has_reading(instances: &[Instance], connections: &[Connection], of: &Name, output: &Name) -> bool
    ensures { result ≡ list_any (spec.reads instances.now of.now output.now) connections.now }
{
    for connection in connections {
        if output.is(&connection.from.port)
            && is_end_of(instances, of, &connection.from.component)
        {
            return true;
        }
    }
    false
}

/// Whether a connection of the network reads the data output of the type.
fn reads_in(network: &Network, of: &Name, output: &Name) -> bool
    ensures { result ≡ spec.reads_in of.now output.now network.now }
{
    let instances = network.instances.as_slice();
    has_reading(instances, network.data_connections.as_slice(), of, output)
}

/// Whether a connection inside a block type reads the data output of the type.
fn reads_inside(block: &BlockType, of: &Name, output: &Name) -> bool
    ensures { result ≡ spec.reads_inside of.now output.now block.now }
{
    match block {
        BlockType::Basic(_) => false,
        BlockType::Composite(composite) => reads_in(&composite.network, of, output),
    }
}

fn is_read_inside(blocks: &[BlockType], of: &Name, output: &Name) -> bool
    ensures { result ≡ list_any (spec.reads_inside of.now output.now) blocks.now }
{
    for block in blocks {
        if reads_inside(block, of, output) {
            return true;
        }
    }
    false
}

/// Whether a data connection reads the output at an instance of the type.
fn is_read(library: &Library, of: &Name, output: &Name) -> bool
    ensures { result ≡ spec.is_read library.now of.now output.now }
{
    reads_in(&library.application.network, of, output)
        || is_read_inside(library.blocks.as_slice(), of, output)
}

/// Whether an algorithm assigns the data output, or a connection inside leads to it.
fn is_written(alloc: Global, block: &BlockType, output: &Name) -> Result<bool, AllocError>
    ensures { IfOk result (λ b. b ≡ spec.is_written block.now output.now) }
{
    match block {
        BlockType::Basic(basic) => {
            let names = assigned(alloc, basic.algorithms.as_slice())?;
            Ok(is_listed(names.as_slice(), output))
        }
        BlockType::Composite(composite) => {
            let connections = composite.network.data_connections.as_slice();
            Ok(is_joined(PortKind::Output, output, connections))
        }
    }
}

/// Whether the data output is used and WITH no event output.
fn is_unsent(
    alloc: Global,
    of: &Subject<'_>,
    block: &BlockType,
    output: &Name,
) -> Result<bool, AllocError>
    ensures { IfOk result (λ b. b ≡ spec.is_unsent of.now.library.now of.now.name.now block.now output.now) }
{
    if has_with(block.ports().event_outputs.as_slice(), output) {
        return Ok(false);
    }
    if is_read(of.library, of.name, output) {
        return Ok(true);
    }
    is_written(alloc, block, output)
}

/// Adds the data outputs of a block type that are used and WITH no event output.
pub(crate) fn push_unsent_outputs(
    alloc: Global,
    all: &mut Vec<Warning>,
    of: &Subject<'_>,
    entry: &BlockType,
    outputs: &[Variable],
) -> Result<(), AllocError>
    ensures { OnOk result (all.new.items ≡ all.old.items ++ spec.unsent_outputs of.now.library.now of.now.name.now of.now.block entry.now outputs.now) }
{
    for (output, variable) in outputs.iter().enumerate() {
        let applies = is_unsent(alloc, of, entry, &variable.name)?;
        let warning = Warning::UnsentOutput {
            block: of.block,
            output,
        };
        push_if(all, applies, warning)?;
    }
    Ok(())
}
