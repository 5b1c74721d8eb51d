//! What the blocks of a system remember.

ghost use Rattle.std.specs.Prelude.{◌≡◌, ◌≢◌, ◌++◌, IfNone, IfOk, IfSome, OnOk, Some, map, slice_get};
ghost use Rattle.std.specs.List.{filter};
ghost use Rattle.fb_types.specs.Blocks.{Basic, Event, variable_names};
ghost use Rattle.fb_types.specs.declared.library.BasicType.{BasicType};
ghost use Rattle.fb_types.specs.declared.library.BlockType.TheVariants as declared;
ghost use Rattle.fb_types.specs.OfSystem.{IsInstance, instance_count, kind_at, path_at};
ghost use Rattle.fb_st.specs.Frames.{values_of};
ghost use Rattle.fb_net.specs.Opening.{AreCharts};
ghost use Rattle.fb_inspect.specs.walk.Looks as spec;
ghost use Rattle.fb_inspect.specs.walk.Notes.{hidden_variables, is_unpublished, own_variables};
ghost use Rattle.fb_inspect.specs.OfSystem.{OpenAll, OpensAs};

use fb_check_names::TypeNumber;
use fb_ecc::BasicState;
use fb_event::EventState;
use fb_laws::accepted_are_typed;
use fb_net::{Block, Charts, block_of};
use fb_st::Frame;
use fb_system::System;
use fb_types::{BasicType, BlockType, EventKind, Items, Reference, Value, Variable};
use fb_wave::signals::is_carried;
use std::alloc::{AllocError, Global};
use std::collections::BTreeMap;

/// A basic block.
pub struct Chart {
    pub state: BasicState,
    /// Its output and internal variables.
    pub own: Vec<Reference>,
    /// Its variables that no line carries: output variables that no event publishes, and internal ones.
    pub hidden: Vec<Reference>,
    /// The values of its own variables before the last algorithm.
    pub before: Vec<Value>,
}

impl Drop for Chart {
    fn drop(self) {
        let Chart {
            state: _,
            own: _,
            hidden: _,
            before: _,
        } = self;
    }
}

/// Puts the values of variables in the place of others.
pub fn keep_values(
    before: &mut Vec<Value>,
    variables: &[Reference],
    frame: &Frame,
) -> Result<(), AllocError>
    ensures { OnOk result (before.new.items ≡ map (values_of frame.now) variables.now) }
{
    before.clear();
    for variable in variables {
        before.push(frame.value(variable))?;
    }
    Ok(())
}

/// An event block, with its inputs as they were sampled last, and the tick at which its timer goes off.
pub struct EventBlock {
    pub state: EventState,
    pub inputs: Items<Value>,
    pub due: Option<u64>,
}

impl Drop for EventBlock {
    fn drop(self) {
        let EventBlock {
            state: _,
            inputs: _,
            due: _,
        } = self;
    }
}

/// What an instance remembers.
pub enum Remembered {
    Basic(Chart),
    Event(EventBlock),
    Composite,
}

impl Drop for Remembered {
    fn drop(self) {
        match self {
            Remembered::Basic(_) | Remembered::Event(_) | Remembered::Composite => {}
        }
    }
}

/// The basic block at a number, if there is one.
pub(crate) fn chart_at(blocks: &[Remembered], instance: u32) -> Option<&Chart>
    ensures some { IfSome result (λ c. slice_get blocks.now instance ≡ Some (Remembered.Basic c.now)) }
    ensures none { IfNone result ((c : Chart) → slice_get blocks.now instance ≡ Some (Remembered.Basic c) → ⊥) }
{
    match blocks.get(instance as usize) {
        Some(Remembered::Basic(chart)) => Some(chart),
        _ => None,
    }
}

/// Adds variables after others, each at its index in the frame.
fn add_own(
    alloc: Global,
    own: &mut Vec<Reference>,
    first: usize,
    variables: &[Variable],
) -> Result<(), AllocError>
    ensures { OnOk result (own.new.items ≡ own.old.items ++ variable_names variables.now) }
{
    for (index, variable) in variables.iter().enumerate() {
        let reference = Reference::new(variable.name.try_clone(alloc)?);
        reference.expect_at(first.saturating_add(index));
        own.push(reference)?;
    }
    Ok(())
}

/// The output and internal variables of a type.
fn own_of(alloc: Global, block: &BasicType) -> Result<Vec<Reference>, AllocError>
    ensures { IfOk result (λ own. own.items ≡ own_variables block.now) }
{
    let mut own = Vec::new(alloc);
    let outputs = block.ports.outputs.as_slice();
    let first = block.ports.inputs.len();
    add_own(alloc, &mut own, first, outputs)?;
    let first = first.saturating_add(outputs.len());
    add_own(alloc, &mut own, first, block.internals.as_slice())?;
    Ok(own)
}

/// Adds the output variables that no event publishes.
fn add_unpublished(
    alloc: Global,
    hidden: &mut Vec<Reference>,
    block: &BasicType,
) -> Result<(), AllocError>
    ensures { OnOk result (hidden.new.items ≡ hidden.old.items ++ variable_names (filter (is_unpublished block.now) block.now.ports.outputs)) }
{
    let events = block.ports.event_outputs.as_slice();
    let outputs = block.ports.outputs.as_slice();
    let first = block.ports.inputs.len();
    for (index, variable) in outputs.iter().enumerate() {
        if is_carried(events, variable) {
            continue;
        }
        let reference = Reference::new(variable.name.try_clone(alloc)?);
        reference.expect_at(first.saturating_add(index));
        hidden.push(reference)?;
    }
    Ok(())
}

/// The variables of a type that no line carries.
fn hidden_of(alloc: Global, block: &BasicType) -> Result<Vec<Reference>, AllocError>
    ensures { IfOk result (λ hidden. hidden.items ≡ variable_names (hidden_variables block.now)) }
{
    let mut hidden = Vec::new(alloc);
    add_unpublished(alloc, &mut hidden, block)?;
    let ports = &block.ports;
    let first = ports.inputs.len().saturating_add(ports.outputs.len());
    add_own(alloc, &mut hidden, first, block.internals.as_slice())?;
    Ok(hidden)
}

/// The basic type of an instance, if it has one.
pub(crate) fn basic_type(system: &System, instance: u32) -> Option<&BasicType>
    requires { IsInstance system.now instance }
    ensures basic { IfSome result (λ t. kind_at system.now (path_at system.now instance) ≡ Some (Basic t.now)) }
    ensures other { IfNone result ((t : BasicType) → kind_at system.now (path_at system.now instance) ≢ Some (Basic t)) }
{
    match system.kind(instance) {
        TypeNumber::Event(_) => None,
        TypeNumber::Declared(index) => match system.library().blocks.get(index) {
            Some(BlockType::Basic(block)) => Some(block),
            _ => None,
        },
    }
}

/// The number of the type of a basic block among the declared types.
pub(crate) fn type_number(system: &System, instance: u32) -> usize
    requires { IsInstance system.now instance }
    ensures { (t : BasicType) → kind_at system.now (path_at system.now instance) ≡ Some (Basic t)
        → slice_get system.now.library.blocks result ≡ Some (declared.Basic t) }
{
    match system.kind(instance) {
        TypeNumber::Declared(index) => index,
        TypeNumber::Event(_) => 0,
    }
}

/// The tick at which the timer of an event block goes off, before the first event.
fn first_due(kind: EventKind) -> Option<u64>
    ensures { result ≡ spec.first_due (Some (Event kind)) }
{
    match kind {
        EventKind::Restart => Some(0),
        _ => None,
    }
}

/// What an instance remembers before the first event.
fn opened(
    alloc: Global,
    system: &System,
    instance: u32,
    charts: &mut Charts,
) -> Result<Remembered, AllocError>
    requires instance { IsInstance system.now instance }
    requires charts { AreCharts system.now charts.old }
    ensures opens { IfOk result (OpensAs system.now instance) }
    ensures charts { OnOk result (AreCharts system.now charts.new) }
{
    match block_of(alloc, system, instance, Items::new(alloc), charts)? {
        Block::Basic(state) => {
            let Some(block) = basic_type(system, instance) else {
                unreachable!()
            };
            let own = own_of(alloc, block)?;
            let hidden = hidden_of(alloc, block)?;
            let before = Vec::new(alloc);
            Ok(Remembered::Basic(Chart {
                state,
                own,
                hidden,
                before,
            }))
        }
        Block::Event(state) => {
            system.facts(); // for the prover: what holds of every accepted system
            accepted_are_typed(); // for the prover: values have the types of their variables
            let inputs = system.initial_inputs(alloc, instance)?;
            let due = first_due(state.kind());
            Ok(Remembered::Event(EventBlock { state, inputs, due }))
        }
        Block::Composite(_) => Ok(Remembered::Composite),
    }
}

/// What all instances remember before the first event, each at its number.
pub(crate) fn opened_all(alloc: Global, system: &System) -> Result<Vec<Remembered>, AllocError>
    ensures { IfOk result (λ all. OpenAll system.now (instance_count system.now) all.items) }
{
    let mut all = Vec::new(alloc);
    let mut charts = BTreeMap::new(alloc);
    system.facts(); // for the prover: what holds of every accepted system
    for index in 0..system.count() {
        all.push(opened(alloc, system, index as u32, &mut charts)?)?;
    }
    Ok(all)
}
