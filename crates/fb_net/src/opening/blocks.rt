//! One block before the first event.

ghost use Rattle.std.specs.Prelude.{◌≡◌, length, slice_get, Some, IfOk, OnOk};
ghost use Rattle.fb_types.specs.Blocks.{Basic, Composite, variable_names};
ghost use Rattle.fb_types.specs.declared.library.BlockType.TheVariants as types;
ghost use Rattle.fb_types.specs.declared.library.CompositeType.{CompositeType};
ghost use Rattle.fb_types.specs.OfSystem.{IsInstance, kind_at, opening_block, path_at};
ghost use Rattle.fb_st.specs.Frames.{declared_in, values_of};
ghost use Rattle.fb_net.specs.Blocks.{components_of, own_of};
ghost use Rattle.fb_net.specs.Worlds.{BasicRepresents};
ghost use Rattle.fb_net.specs.Opening.{AreCharts, AreDeclared, begun_all};
ghost use Rattle.fb_net.specs.OfSystem.{Represents};

use crate::block::Block;
use crate::opening::charts::{Charts, chart_at};
use fb_check_names::TypeNumber;
use fb_ecc::BasicState;
use fb_event::EventState;
use fb_st::Frame;
use fb_system::System;
use fb_types::{BasicType, BlockType, Items, Reference, Value, Variable};
use std::alloc::{AllocError, Global};

/// Gives data inputs, which are the first variables of a frame, their values.
fn set_inputs(
    alloc: Global,
    inputs: &[Variable],
    values: &[Value],
    frame: &mut Frame,
) -> Result<(), AllocError>
    requires as_many { length values.now ≡ length inputs.now }
    requires declared { AreDeclared (declared_in frame.old) (variable_names inputs.now) }
    ensures values { OnOk result (values_of frame.new ≡ begun_all (variable_names inputs.now) values.now (values_of frame.old)) }
    ensures declared { OnOk result (declared_in frame.new ≡ declared_in frame.old) }
{
    for (index, input) in inputs.iter().enumerate() {
        let variable = Reference::new(input.name.try_clone(alloc)?);
        variable.expect_at(index);
        frame.put(&variable, values[index]);
    }
    Ok(())
}

/// A basic block of a type in its first state, with the values that its variables begin with. It shares the chart of its
/// type, which is put among the others where the block is the first of the type.
fn basic_of(
    alloc: Global,
    system: &System,
    instance: u32,
    block: &BasicType,
    index: usize,
    charts: &mut Charts,
) -> Result<BasicState, AllocError>
    requires instance { IsInstance system.now instance }
    requires kind { kind_at system.now (path_at system.now instance) ≡ Some (Basic block.now) }
    requires index { slice_get system.now.library.blocks index ≡ Some (types.Basic block.now) }
    requires charts { AreCharts system.now charts.old }
    ensures represents { IfOk result (λ s. let b = opening_block system.now (path_at system.now instance) in BasicRepresents block.now s b.memory b.variables) }
    ensures charts { OnOk result (AreCharts system.now charts.new) }
{
    // for the prover: the inputs are accepted
    system.facts();
    let chart = chart_at(alloc, block, index, charts)?;
    let mut state = BasicState::open(alloc, block, chart)?;
    let values = system.initial_inputs(alloc, instance)?;
    let inputs = block.ports.inputs.as_slice();
    set_inputs(alloc, inputs, values.as_slice(), &mut state.frame)?;
    Ok(state)
}

/// The block of an instance. Where it is a composite, the components are inside it; for others there are none. The
/// charts are those of the types of the basic blocks that were made before.
pub fn block_of(
    alloc: Global,
    system: &System,
    instance: u32,
    components: Items<Block>,
    charts: &mut Charts,
) -> Result<Block, AllocError>
    requires instance { IsInstance system.now instance }
    requires charts { AreCharts system.now charts.old }
    ensures represents { IfOk result (λ b. let p = path_at system.now instance in Represents system.now p (own_of b) (opening_block system.now p)) }
    ensures components { IfOk result (λ b. (c : CompositeType) → kind_at system.now (path_at system.now instance) ≡ Some (Composite c) → components_of b ≡ components) }
    ensures charts { OnOk result (AreCharts system.now charts.new) }
{
    // for the prover: the inputs are accepted
    system.facts();
    match system.kind(instance) {
        TypeNumber::Event(kind) => Ok(Block::Event(EventState::new(kind))),
        TypeNumber::Declared(index) => match system.library().blocks.get(index) {
            Some(BlockType::Basic(block)) => {
                let state = basic_of(alloc, system, instance, block, index, charts)?;
                Ok(Block::Basic(state))
            }
            Some(BlockType::Composite(_)) => Ok(Block::Composite(components)),
            None => unreachable!(),
        },
    }
}
