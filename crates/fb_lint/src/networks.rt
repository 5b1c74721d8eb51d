//! Data inputs of instances that have no source, no parameter and no stimulus (L02), and block types without an instance
//! (L10).

ghost use Rattle.std.specs.Prelude.{◌≡◌, ◌++◌, OnOk};
ghost use Rattle.std.specs.List.{list_any};
ghost use Rattle.fb_lint.specs.Networks as spec;

use crate::findings::push_if;
use crate::names::{is_called, is_named};
use crate::parameters::Subject;
use crate::warning::Warning;
use fb_check_names::Site;
use fb_read_positions::BlockTypes;
use fb_types::{
    BlockType, Connection, Instance, Library, Name, Parameter, Setting, Stimulus, Variable,
};
use std::alloc::AllocError;

/// Whether one of the connections leads to the input of the instance.
pub(crate) fn has_source(connections: &[Connection], instance: &Name, input: &Name) -> bool
    ensures { result ≡ list_any (spec.leads_to instance.now input.now) connections.now }
{
    for connection in connections {
        if is_named(instance, &connection.to.component) && input.is(&connection.to.port) {
            return true;
        }
    }
    false
}

/// Whether one of the parameters is for the input.
pub(crate) fn has_parameter(parameters: &[Parameter], input: &Name) -> bool
    ensures { result ≡ list_any (spec.is_parameter input.now) parameters.now }
{
    for parameter in parameters {
        if input.is(&parameter.name) {
            return true;
        }
    }
    false
}

fn has_setting(settings: &[Setting], input: &Name) -> bool
    ensures { result ≡ list_any (spec.is_setting input.now) settings.now }
{
    for setting in settings {
        if input.is(&setting.variable) {
            return true;
        }
    }
    false
}

/// Whether one of the stimuli sets the data input of the instance.
fn has_stimulus(stimuli: &[Stimulus], instance: &Name, input: &Name) -> bool
    ensures { result ≡ list_any (spec.sets instance.now input.now) stimuli.now }
{
    for stimulus in stimuli {
        if instance.is(&stimulus.instance) && has_setting(stimulus.settings.as_slice(), input) {
            return true;
        }
    }
    false
}

/// Whether one of the connections comes from the data output of the instance.
fn is_read_at(connections: &[Connection], instance: &Name, output: &str) -> bool
    ensures { result ≡ list_any (spec.comes_from instance.now output.now) connections.now }
{
    for connection in connections {
        if is_called(&connection.from.port, output)
            && is_named(instance, &connection.from.component)
        {
            return true;
        }
    }
    false
}

/// Whether the instance is a counter whose Q no connection reads: its limit makes no difference.
fn is_plain_counter(connections: &[Connection], instance: &Instance) -> bool
    ensures { result ≡ spec.is_plain_counter connections.now instance.now }
{
    is_called(&instance.block_type, "E_CTU") && !is_read_at(connections, &instance.name, "Q")
}

/// Whether a data input may stay as it begins: it has a declared value, or its instance is a counter without a limit.
fn may_stay(connections: &[Connection], instance: &Instance, input: &Variable) -> bool
    ensures { result ≡ spec.may_stay connections.now instance.now input.now }
{
    input.initial.is_some() || is_plain_counter(connections, instance)
}

/// Whether the data input of an instance has a source, a parameter or a stimulus.
fn is_fed(
    connections: &[Connection],
    stimuli: &[Stimulus],
    instance: &Instance,
    input: &Name,
) -> bool
    ensures { result ≡ spec.is_fed connections.now stimuli.now instance.now input.now }
{
    has_source(connections, &instance.name, input)
        || has_parameter(instance.parameters.as_slice(), input)
        || has_stimulus(stimuli, &instance.name, input)
}

/// Whether the data input of an instance has none of them, and may not stay as it begins.
fn is_forgotten(
    connections: &[Connection],
    stimuli: &[Stimulus],
    instance: &Instance,
    input: &Variable,
) -> bool
    ensures { result ≡ spec.is_forgotten connections.now stimuli.now instance.now input.now }
{
    !is_fed(connections, stimuli, instance, &input.name) && !may_stay(connections, instance, input)
}

/// An instance, by its network and its index there.
#[derive(Clone, Copy)]
pub(crate) struct Located<'a> {
    /// The network.
    pub(crate) site: Site,
    /// The index of the instance in it.
    pub(crate) index: usize,
    /// The instance.
    pub(crate) instance: &'a Instance,
}

/// Adds the data inputs of an instance that have none of them.
fn push_unfed_inputs(
    all: &mut Vec<Warning>,
    connections: &[Connection],
    stimuli: &[Stimulus],
    at: &Located<'_>,
    inputs: &[Variable],
) -> Result<(), AllocError>
    ensures { OnOk result (all.new.items ≡ all.old.items ++ spec.unfed_inputs at.now.site connections.now stimuli.now at.now.index at.now.instance.now inputs.now) }
{
    for (input, variable) in inputs.iter().enumerate() {
        let is_unfed = is_forgotten(connections, stimuli, at.instance, variable);
        let warning = Warning::UnfedInput {
            site: at.site,
            instance: at.index,
            input,
        };
        push_if(all, is_unfed, warning)?;
    }
    Ok(())
}

/// Adds the data inputs of an instance that have none of them. If its type is unknown there are none.
fn push_unfed_of(
    all: &mut Vec<Warning>,
    types: &BlockTypes,
    connections: &[Connection],
    stimuli: &[Stimulus],
    at: &Located<'_>,
) -> Result<(), AllocError>
    ensures { OnOk result (all.new.items ≡ all.old.items ++ spec.unfed_in_instance types.now.library.now at.now.site connections.now stimuli.now at.now.index at.now.instance.now) }
{
    match types.ports_named(&at.instance.block_type) {
        Some(ports) => { push_unfed_inputs(all, connections, stimuli, at, ports.inputs.as_slice()) }
        None => Ok(()),
    }
}

/// Adds the data inputs of the instances of a network that have no source, no parameter and no stimulus.
pub(crate) fn push_unfed(
    all: &mut Vec<Warning>,
    types: &BlockTypes,
    site: Site,
    connections: &[Connection],
    stimuli: &[Stimulus],
    instances: &[Instance],
) -> Result<(), AllocError>
    ensures { OnOk result (all.new.items ≡ all.old.items ++ spec.unfed_in_network types.now.library.now site connections.now stimuli.now instances.now) }
{
    for (index, instance) in instances.iter().enumerate() {
        let at = Located {
            site,
            index,
            instance,
        };
        push_unfed_of(all, types, connections, stimuli, &at)?;
    }
    Ok(())
}

/// Whether one of the instances is of the type.
fn has_instance(instances: &[Instance], name: &Name) -> bool
    ensures { result ≡ list_any (spec.is_of_type name.now) instances.now }
{
    for instance in instances {
        if name.is(&instance.block_type) {
            return true;
        }
    }
    false
}

/// Whether an instance of the type is inside a block type.
fn has_inside(block: &BlockType, name: &Name) -> bool
    ensures { result ≡ spec.has_inside name.now block.now }
{
    match block {
        BlockType::Basic(_) => false,
        BlockType::Composite(composite) => {
            has_instance(composite.network.instances.as_slice(), name)
        }
    }
}

fn is_inside(blocks: &[BlockType], name: &Name) -> bool
    ensures { result ≡ list_any (spec.has_inside name.now) blocks.now }
{
    for block in blocks {
        if has_inside(block, name) {
            return true;
        }
    }
    false
}

/// Whether the application or a composite type has an instance of the type.
pub(crate) fn is_used_type(library: &Library, name: &Name) -> bool
    ensures { result ≡ spec.is_used_type library.now name.now }
{
    has_instance(library.application.network.instances.as_slice(), name)
        || is_inside(library.blocks.as_slice(), name)
}

/// Adds a block type if neither the application nor a composite type has an instance of it.
pub(crate) fn push_unused_type(all: &mut Vec<Warning>, of: &Subject<'_>) -> Result<(), AllocError>
    ensures { OnOk result (all.new.items ≡ all.old.items ++ spec.unused_type of.now.library.now of.now.name.now of.now.block) }
{
    let is_unused = !is_used_type(of.library, of.name);
    push_if(all, is_unused, Warning::UnusedType { block: of.block })
}
