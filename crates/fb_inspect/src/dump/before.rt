//! The inside of a basic block before a taking, and what is not as it was after it.

ghost use Rattle.std.specs.Prelude.{◌≡◌, ◌++◌, [], IfNone, IfSome, OnOk, Some, if◌then◌else◌, length, map};
ghost use Rattle.fb_types.specs.Blocks.{Basic, variable_names};
ghost use Rattle.fb_types.specs.Names.{Name};
ghost use Rattle.fb_types.specs.Values.{same_value};
ghost use Rattle.fb_types.specs.declared.library.BasicType.{BasicType};
ghost use Rattle.fb_types.specs.OfSystem.{IsInstance, kind_at, path_at};
ghost use Rattle.fb_st.specs.Frames.{values_of};
ghost use Rattle.fb_coverage.specs.Listed.{listed};
ghost use Rattle.fb_inspect.specs.walk.Looks.{Look, Seen};
ghost use Rattle.fb_inspect.specs.walk.Notes.{hidden_variables};
ghost use Rattle.fb_inspect.specs.walk.Walking.{IsChartKept};
ghost use Rattle.fb_inspect.specs.dump.Inner as spec;
ghost use Rattle.fb_inspect.specs.dump.Saved.{IsBefore, IsSaved};
ghost use Rattle.fb_inspect.specs.OfSystem.{AreKept};

use crate::dump::inner::{put_lost, put_state, put_value};
use crate::walk::blocks::{Chart, Remembered, basic_type, chart_at, keep_values};
use crate::walk::charts::state_name;
use crate::walk::notes::are_same;
use fb_st::Frame;
use fb_system::System;
use fb_types::{BasicType, Reference, Value};
use std::alloc::{AllocError, Global};

/// A basic block of a type.
#[derive(Clone, Copy)]
pub(crate) struct Inside<'a> {
    pub(crate) block: &'a BasicType,
    pub(crate) chart: &'a Chart,
}

/// What an instance remembers, if it is a basic block.
pub(crate) fn inside_of<'a>(
    system: &'a System,
    blocks: &'a [Remembered],
    instance: u32,
) -> Option<Inside<'a>>
    requires { IsInstance system.now instance }
    ensures some { (look : Look) → AreKept system.now blocks.now look → let p = path_at system.now instance in
        IfSome result (λ x. (kind_at system.now p ≡ Some (Basic x.block.now)) × IsChartKept x.block.now x.chart.now (look.blocks p)) }
    ensures none { (look : Look) → AreKept system.now blocks.now look →
        IfNone result ((t : BasicType) → kind_at system.now (path_at system.now instance) ≡ Some (Basic t) → ⊥) }
{
    let block = basic_type(system, instance)?;
    let chart = chart_at(blocks, instance)?;
    Some(Inside { block, chart })
}

/// Puts a state, if it was another one before.
fn put_state_change(
    text: &mut Vec<u8>,
    instance: u32,
    before: &[u8],
    after: &[u8],
) -> Result<(), AllocError>
    ensures { OnOk result (text.new.items ≡ text.old.items ++ spec.state_change instance before.now after.now) }
{
    if after == before {
        return Ok(());
    }
    put_state(text, instance, after)
}

/// Puts the value of a variable that no line carries, if it was another one before.
fn put_value_change(
    text: &mut Vec<u8>,
    instance: u32,
    index: usize,
    before: Value,
    after: Value,
) -> Result<(), AllocError>
    ensures { OnOk result (text.new.items ≡ text.old.items
        ++ (if same_value after before then [] else spec.value_by (spec.hidden_code instance index) after)) }
{
    if are_same(after, before) {
        return Ok(());
    }
    put_value(text, instance, index, after)
}

/// Puts the values of such variables that were others before.
fn put_value_changes(
    text: &mut Vec<u8>,
    instance: u32,
    variables: &[Reference],
    before: &[Value],
    frame: &Frame,
) -> Result<(), AllocError>
    requires { length before.now ≡ length variables.now }
    ensures { (a b : Seen) → before.now ≡ map a.variables variables.now → ((n : Name) → b.variables n ≡ values_of frame.now n)
        → OnOk result (text.new.items ≡ text.old.items ++ listed (spec.hidden_change instance a b) 0 variables.now) }
{
    for (index, variable) in variables.iter().enumerate() {
        put_value_change(text, instance, index, before[index], frame.value(variable))?;
    }
    Ok(())
}

/// Puts the values of such variables.
fn put_values(
    text: &mut Vec<u8>,
    instance: u32,
    variables: &[Reference],
    frame: &Frame,
) -> Result<(), AllocError>
    ensures { (s : Seen) → ((n : Name) → s.variables n ≡ values_of frame.now n)
        → OnOk result (text.new.items ≡ text.old.items ++ listed (spec.hidden_begun instance s) 0 variables.now) }
{
    for (index, variable) in variables.iter().enumerate() {
        put_value(text, instance, index, frame.value(variable))?;
    }
    Ok(())
}

/// Puts the state of a basic block, and the variables that no line carries.
pub(crate) fn put_inside(
    text: &mut Vec<u8>,
    instance: u32,
    inside: &Inside<'_>,
) -> Result<(), AllocError>
    requires { inside.now.chart.now.hidden.items ≡ variable_names (hidden_variables inside.now.block.now) }
    ensures { (s : Seen) → IsChartKept inside.now.block.now inside.now.chart.now s
        → OnOk result (text.new.items ≡ text.old.items ++ spec.chart_begun instance s inside.now.block.now) }
{
    let state = state_name(inside.block, inside.chart.state.state);
    put_state(text, instance, state)?;
    let hidden = inside.chart.hidden.as_slice();
    put_values(text, instance, hidden, &inside.chart.state.frame)
}

/// The state of a basic block and its variables that no line carries, as they were.
#[derive(Drop)]
pub(crate) struct Before {
    state: usize,
    values: Vec<Value>,
}

impl Before {
    /// Nothing is known yet.
    pub(crate) fn new(alloc: Global) -> Before {
        Before {
            state: 0,
            values: Vec::new(alloc),
        }
    }

    /// Keeps the inside of an instance, if it is a basic block.
    pub(crate) fn keep(
        &mut self,
        system: &System,
        blocks: &[Remembered],
        instance: u32,
    ) -> Result<(), AllocError>
        requires instance { IsInstance system.now instance }
        requires kept { (look : Look) × AreKept system.now blocks.now look }
        ensures { (look : Look) → AreKept system.now blocks.now look → let p = path_at system.now instance in
            OnOk result (IsBefore (kind_at system.now p) self.new (look.blocks p)) }
    {
        let Some(inside) = inside_of(system, blocks, instance) else {
            return Ok(());
        };
        self.state = inside.chart.state.state;
        let hidden = inside.chart.hidden.as_slice();
        keep_values(&mut self.values, hidden, &inside.chart.state.frame)
    }

    /// Puts what is not as it was inside a basic block, and whether it lost an event.
    fn put_chart_changes(
        &self,
        text: &mut Vec<u8>,
        instance: u32,
        inside: &Inside<'_>,
        is_lost: bool,
    ) -> Result<(), AllocError>
        requires hidden { inside.now.chart.now.hidden.items ≡ variable_names (hidden_variables inside.now.block.now) }
        requires saved { (s : Seen) × IsSaved inside.now.block.now self.now s }
        ensures { (a b : Seen) → IsSaved inside.now.block.now self.now a → IsChartKept inside.now.block.now inside.now.chart.now b
            → OnOk result (text.new.items ≡ text.old.items ++ spec.chart_changes instance a b is_lost inside.now.block.now) }
    {
        let before = state_name(inside.block, self.state);
        let after = state_name(inside.block, inside.chart.state.state);
        put_state_change(text, instance, before, after)?;
        let hidden = inside.chart.hidden.as_slice();
        let values = self.values.as_slice();
        put_value_changes(text, instance, hidden, values, &inside.chart.state.frame)?;
        put_lost(text, instance, is_lost)
    }

    /// Puts what is not as it was inside an instance, if it is a basic block, and whether it lost an event.
    pub(crate) fn put_changes(
        &self,
        text: &mut Vec<u8>,
        system: &System,
        blocks: &[Remembered],
        instance: u32,
        is_lost: bool,
    ) -> Result<(), AllocError>
        requires instance { IsInstance system.now instance }
        requires kept { (look : Look) × AreKept system.now blocks.now look }
        requires saved { (s : Seen) × IsBefore (kind_at system.now (path_at system.now instance)) self.now s }
        ensures { (a : Seen) (look : Look) → let p = path_at system.now instance in
            IsBefore (kind_at system.now p) self.now a → AreKept system.now blocks.now look
            → OnOk result (text.new.items ≡ text.old.items ++ spec.of_chart (spec.chart_changes instance a (look.blocks p) is_lost) (kind_at system.now p)) }
    {
        let Some(inside) = inside_of(system, blocks, instance) else {
            return Ok(());
        };
        self.put_chart_changes(text, instance, &inside, is_lost)
    }
}
