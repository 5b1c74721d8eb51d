//! What a basic block is between reactions.

ghost use Rattle.std.specs.Prelude.{◌≡◌, ◌++◌, IfOk, OnOk, map};
ghost use Rattle.fb_types.specs.Blocks.{variable_names, variables_of};
ghost use Rattle.fb_types.specs.Repeated.{Twice};
ghost use Rattle.fb_ecc.specs.Opened.{IsOfDeclaration, IsOpened, slot_of};
ghost use Rattle.fb_ecc.specs.Programs.{IsSharedOf};

use crate::shared::SharedChart;
use fb_st::{Frame, Slot, SlotList};
use fb_types::{BasicType, Variable};
use std::alloc::{AllocError, Global};

/// A basic block: the state in which its chart is, its variables, and the chart and the program of its type.
pub struct BasicState {
    /// The index of the state among the states of the type.
    pub state: usize,
    /// The input, output and internal variables, in this order.
    pub frame: Frame,
    pub(crate) chart: SharedChart,
}

// Drop is written by hand, so that callers need not prove it again (docs/DECISIONS.md, "Drop").
impl Drop for BasicState {
    fn drop(self) {
        let BasicState {
            state: _,
            frame: _,
            chart: _,
        } = self;
    }
}

/// Adds variables after the others, each with its initial value.
fn add_all(alloc: Global, variables: &[Variable], slots: &mut SlotList) -> Result<(), AllocError>
    ensures { OnOk result (slots.new ≡ slots.old ++ map slot_of variables.now) }
{
    for variable in variables {
        let name = variable.name.try_clone(alloc)?;
        let value = variable.first_value();
        let ty = variable.ty;
        slots.push(Slot::new(name, ty, value))?;
    }
    Ok(())
}

/// The variables of a type with their initial values. No two have one name.
fn frame_of(alloc: Global, block: &BasicType) -> Result<Frame, AllocError>
    requires { ¬ (Twice (variable_names (variables_of block.now))) }
    ensures { IfOk result (λ frame. frame ≡ map slot_of (variables_of block.now)) }
{
    let mut slots = SlotList::new(alloc);
    add_all(alloc, block.ports.inputs.as_slice(), &mut slots)?;
    add_all(alloc, block.ports.outputs.as_slice(), &mut slots)?;
    add_all(alloc, block.internals.as_slice(), &mut slots)?;
    Ok(Frame::of(slots))
}

impl BasicState {
    /// A block of a type of an accepted declaration, in the first state, with the initial values of its variables.
    ///
    /// # Errors
    /// When memory runs out.
    pub fn open(
        alloc: Global,
        block: &BasicType,
        chart: SharedChart,
    ) -> Result<BasicState, AllocError>
        requires declared { IsOfDeclaration block.now }
        requires chart { IsSharedOf block.now chart }
        ensures { IfOk result (IsOpened block.now) }
    {
        let frame = frame_of(alloc, block)?;
        Ok(BasicState {
            state: 0,
            frame,
            chart,
        })
    }
}
