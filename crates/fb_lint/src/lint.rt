//! All warnings.

ghost use Rattle.std.specs.Prelude.{◌≡◌, ◌++◌, IfOk, OnOk};
ghost use Rattle.fb_lint.specs.Warnings as spec;

use crate::algorithms::{Chart, push_unsampled_in_algorithms};
use crate::charts::{
    push_final_states, push_shadowed_transitions, push_silent_outputs, push_unused_algorithms,
};
use crate::circles::push_endless_states;
use crate::constants::push_of_constants;
use crate::events::push_unnamed_events;
use crate::instances::{push_early_stimuli, push_silent_sources, push_unreached};
use crate::interfaces::{push_unjoined_ports, push_unsampled_inputs};
use crate::links::push_unused_links;
use crate::networks::{push_unfed, push_unused_type};
use crate::outputs::push_unsent_outputs;
use crate::parameters::Subject;
use crate::reached::push_unreached_states;
use crate::reads::push_unsampled_in_guards;
use crate::statements::{push_repeated_labels, push_unread_internals};
use crate::uses::{assigned, mentions_of, push_unassigned_events, push_unmentioned};
use crate::warning::Warning;
use fb_check_names::{PortKind, Site};
use fb_read_positions::BlockTypes;
use fb_types::{BasicType, BlockType, Library, Network, Plan, Stimulus};
use std::alloc::{AllocError, Global};

/// Adds the data inputs that a basic type reads and that events do not sample.
fn push_readings(
    alloc: Global,
    all: &mut Vec<Warning>,
    of: &Subject<'_>,
    basic: &BasicType,
) -> Result<(), AllocError>
    ensures { OnOk result (all.new.items ≡ all.old.items ++ spec.readings of.now.library.now of.now.name.now of.now.block basic.now) }
{
    let events = basic.ports.event_inputs.as_slice();
    let inputs = basic.ports.inputs.as_slice();
    let transitions = basic.transitions.as_slice();
    push_unsampled_in_guards(alloc, all, of, events, inputs, transitions)?;
    let chart = Chart {
        states: basic.states.as_slice(),
        transitions,
        events,
    };
    push_unsampled_in_algorithms(alloc, all, &chart, of, inputs, basic.algorithms.as_slice())
}

/// Adds the warnings about the states, the transitions, the events and the algorithms of a basic type.
fn push_of_states(
    alloc: Global,
    all: &mut Vec<Warning>,
    block: usize,
    basic: &BasicType,
) -> Result<(), AllocError>
    ensures { OnOk result (all.new.items ≡ all.old.items ++ spec.of_states block basic.now) }
{
    let states = basic.states.as_slice();
    let transitions = basic.transitions.as_slice();
    push_unreached_states(alloc, all, block, transitions, states)?;
    push_final_states(all, block, transitions, states)?;
    push_shadowed_transitions(all, block, transitions)?;
    push_unnamed_events(
        alloc,
        all,
        block,
        basic,
        basic.ports.event_inputs.as_slice(),
    )?;
    push_unused_algorithms(all, block, states, basic.algorithms.as_slice())
}

/// Adds the warnings about the chart of a basic type.
fn push_of_chart(
    alloc: Global,
    all: &mut Vec<Warning>,
    block: usize,
    basic: &BasicType,
) -> Result<(), AllocError>
    ensures { OnOk result (all.new.items ≡ all.old.items ++ spec.of_chart block basic.now) }
{
    push_of_states(alloc, all, block, basic)?;
    let transitions = basic.transitions.as_slice();
    let states = basic.states.as_slice();
    push_endless_states(alloc, all, block, transitions, states)
}

/// Adds the warnings about the ports of a basic type.
fn push_of_ports(
    alloc: Global,
    all: &mut Vec<Warning>,
    block: usize,
    basic: &BasicType,
) -> Result<(), AllocError>
    ensures { OnOk result (all.new.items ≡ all.old.items ++ spec.of_ports block basic.now) }
{
    let ports = &basic.ports;
    let algorithms = basic.algorithms.as_slice();
    let outputs = ports.event_outputs.as_slice();
    push_silent_outputs(all, block, basic.states.as_slice(), outputs)?;
    let mentions = mentions_of(alloc, algorithms, basic.transitions.as_slice())?;
    let mentions = mentions.as_slice();
    push_unmentioned(
        all,
        block,
        PortKind::Input,
        mentions,
        ports.inputs.as_slice(),
    )?;
    push_unmentioned(
        all,
        block,
        PortKind::Output,
        mentions,
        ports.outputs.as_slice(),
    )?;
    let assigned = assigned(alloc, algorithms)?;
    push_unassigned_events(all, block, assigned.as_slice(), outputs)
}

/// Adds the warnings about the statements, the guards and the internal variables of a basic type.
fn push_of_statements(
    alloc: Global,
    all: &mut Vec<Warning>,
    block: usize,
    basic: &BasicType,
) -> Result<(), AllocError>
    ensures { OnOk result (all.new.items ≡ all.old.items ++ spec.of_statements block basic.now) }
{
    push_of_constants(alloc, all, block, basic)?;
    push_repeated_labels(alloc, all, block, basic.algorithms.as_slice())?;
    push_unread_internals(alloc, all, block, basic)
}

/// Adds the warnings about a basic type.
fn push_of_basic(
    alloc: Global,
    all: &mut Vec<Warning>,
    of: &Subject<'_>,
    basic: &BasicType,
) -> Result<(), AllocError>
    ensures { OnOk result (all.new.items ≡ all.old.items ++ spec.of_basic of.now.library.now of.now.name.now of.now.block basic.now) }
{
    let block = of.block;
    push_readings(alloc, all, of, basic)?;
    push_of_chart(alloc, all, block, basic)?;
    push_of_ports(alloc, all, block, basic)?;
    push_of_statements(alloc, all, block, basic)
}

/// Adds the warnings about the instances and the connections of a network.
fn push_of_network(
    all: &mut Vec<Warning>,
    types: &BlockTypes,
    site: Site,
    network: &Network,
    stimuli: &[Stimulus],
) -> Result<(), AllocError>
    ensures { OnOk result (all.new.items ≡ all.old.items ++ spec.of_network types.now.library.now site network.now stimuli.now) }
{
    let events = network.event_connections.as_slice();
    let values = network.data_connections.as_slice();
    let instances = network.instances.as_slice();
    push_unfed(all, types, site, values, stimuli, instances)?;
    push_unreached(all, types, site, events, stimuli, instances)?;
    push_silent_sources(all, site, instances, events)
}

/// Adds the warnings about the ports of a block type that each kind of type has.
fn push_of_interface(
    alloc: Global,
    all: &mut Vec<Warning>,
    of: &Subject<'_>,
    entry: &BlockType,
) -> Result<(), AllocError>
    ensures { OnOk result (all.new.items ≡ all.old.items ++ spec.of_interface of.now.library.now of.now.name.now of.now.block entry.now) }
{
    let ports = entry.ports();
    push_unused_type(all, of)?;
    push_unsampled_inputs(
        all,
        of,
        ports.event_inputs.as_slice(),
        ports.inputs.as_slice(),
    )?;
    push_unsent_outputs(alloc, all, of, entry, ports.outputs.as_slice())
}

/// Adds the warnings about a block type.
fn push_of_block(
    alloc: Global,
    all: &mut Vec<Warning>,
    types: &BlockTypes,
    block: usize,
    entry: &BlockType,
) -> Result<(), AllocError>
    ensures { OnOk result (all.new.items ≡ all.old.items ++ spec.of_block types.now.library.now block entry.now) }
{
    let of = Subject {
        library: types.library,
        block,
        name: entry.type_name(),
    };
    push_of_interface(alloc, all, &of, entry)?;
    match entry {
        BlockType::Basic(basic) => push_of_basic(alloc, all, &of, basic),
        BlockType::Composite(composite) => {
            push_of_network(all, types, Site::Inside(block), &composite.network, &[])?;
            push_unjoined_ports(all, block, composite)
        }
    }
}

/// Adds the warnings about all block types.
fn push_of_blocks(
    alloc: Global,
    all: &mut Vec<Warning>,
    types: &BlockTypes,
    blocks: &[BlockType],
) -> Result<(), AllocError>
    ensures { OnOk result (all.new.items ≡ all.old.items ++ spec.of_blocks types.now.library.now blocks.now) }
{
    for (block, entry) in blocks.iter().enumerate() {
        push_of_block(alloc, all, types, block, entry)?;
    }
    Ok(())
}

/// Adds the warnings about a declaration, a deployment and stimuli.
fn push_of_all(
    alloc: Global,
    all: &mut Vec<Warning>,
    types: &BlockTypes,
    plan: &Plan,
    stimuli: &[Stimulus],
) -> Result<(), AllocError>
    ensures { OnOk result (all.new.items ≡ all.old.items ++ spec.warnings types.now.library.now plan.now stimuli.now) }
{
    let blocks = types.library.blocks.as_slice();
    let network = &types.library.application.network;
    let instances = network.instances.as_slice();
    let events = network.event_connections.as_slice();
    let values = network.data_connections.as_slice();
    let resources = plan.resources.as_slice();
    let links = plan.links.as_slice();
    push_of_blocks(alloc, all, types, blocks)?;
    push_of_network(all, types, Site::Application, network, stimuli)?;
    push_early_stimuli(all, instances, events, stimuli)?;
    push_unused_links(all, resources, events, values, links)
}

/// The warnings about a declaration, a deployment and stimuli, block type by block type, then of the application, of the
/// stimuli and of the links.
///
/// # Errors
///
/// When memory runs out.
pub fn warnings(
    alloc: Global,
    library: &Library,
    plan: &Plan,
    stimuli: &[Stimulus],
) -> Result<Vec<Warning>, AllocError>
    ensures { IfOk result (λ v. v.items ≡ spec.warnings library.now plan.now stimuli.now) }
{
    let types = BlockTypes::new(alloc, library)?;
    let mut all = Vec::new(alloc);
    push_of_all(alloc, &mut all, &types, plan, stimuli)?;
    Ok(all)
}
