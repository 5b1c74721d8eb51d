//! Copies of the variables of other resources.

ghost use Rattle.std.specs.Prelude.{◌≡◌, ◌<◌, ℕ, length, OnOk};
ghost use Rattle.std.specs.Option.{option_copied};
ghost use Rattle.fb_net.specs.HeldAt.{IsAdded, IsSet, held_at, side_in, side_index_of};

use fb_types::{InstanceVariable, Items, Value};
use std::alloc::{AllocError, Global};

/// Copies of the variables of other resources, by the sides of their instances: each instance has a side with its data
/// inputs, and then one with its data outputs.
pub struct HeldCopies {
    /// For each side up to the last one that has copies, those of its variables, in the order in which these are declared.
    /// A side without copies has an empty list, which takes no memory.
    pub sides: Items<Items<Value>>,
}

// Drop is written by hand, so that callers need not prove it again (docs/DECISIONS.md, "Drop").
impl Drop for HeldCopies {
    fn drop(self) {
        let HeldCopies { sides: _ } = self;
    }
}

/// The index of the side of its instance on which a variable is.
#[inline(always)]
fn side_index_of(variable: &InstanceVariable) -> usize
    ensures { result ≡ side_index_of variable.now }
{
    let side = if variable.is_output { 1 } else { 0 };
    2 * variable.instance as usize + side
}

/// Makes room for the copies of a side. Those of other sides stay.
fn make_room(sides: &mut Items<Items<Value>>, side_index: usize) -> Result<(), AllocError>
    ensures long { OnOk result (side_index < length sides.new) }
    ensures same { OnOk result ((other : ℕ) → side_in sides.new other ≡ side_in sides.old other) }
{
    while sides.len() <= side_index {
        let none = Items::new(sides.allocator());
        sides.push(none)?;
    }
    Ok(())
}

impl HeldCopies {
    /// No copies.
    pub(crate) fn new(alloc: Global) -> HeldCopies {
        HeldCopies {
            sides: Items::new(alloc),
        }
    }

    /// The copy of a variable, if there is one.
    #[inline(always)]
    pub(crate) fn get(&self, variable: &InstanceVariable) -> Option<&Value>
        ensures { option_copied result ≡ held_at self.now variable.now }
    {
        let side = self.sides.get(side_index_of(variable))?;
        side.get(variable.variable as usize)
    }

    /// Gives the copy of a variable another value, if there is one.
    #[inline(always)]
    pub(crate) fn set(&mut self, variable: &InstanceVariable, value: Value)
        ensures { IsSet self.old variable.now value self.new }
    {
        if let Some(side) = self.sides.get_mut(side_index_of(variable)) {
            side.set(variable.variable as usize, value);
        }
    }

    /// Adds copies of all variables on the side of its instance on which a variable is. The error is that memory runs
    /// out.
    pub(crate) fn add(
        &mut self,
        variable: &InstanceVariable,
        values: Items<Value>,
    ) -> Result<(), AllocError>
        ensures { OnOk result (IsAdded self.old variable.now values self.new) }
    {
        let side_index = side_index_of(variable);
        make_room(&mut self.sides, side_index)?;
        let Some(side) = self.sides.get_mut(side_index) else {
            unreachable!()
        };
        *side = values;
        Ok(())
    }
}
