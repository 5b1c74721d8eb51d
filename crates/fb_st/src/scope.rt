//! Finds the slots of names while algorithms and guards are compiled.

ghost use Rattle.std.specs.Prelude.{◌≡◌, ◌<◌, length, IfSome, IfOk};
ghost use Rattle.fb_st.specs.Fitting.{name_at, ty_at};

use crate::layout::Layout;
use fb_types::{Name, Ty};
use std::alloc::{AllocError, Global};
use std::collections::BTreeMap;

/// A layout with an index of its names, so that a name is found quickly among many variables.
pub struct Scope<'a> {
    layout: &'a Layout,
    slots: BTreeMap<&'a [u8], usize, Global>,
}

// Drop is written by hand, so that callers need not prove it again (docs/DECISIONS.md, "Drop").
impl<'a> Drop for Scope<'a> {
    fn drop(self) {
        let Scope {
            layout: _,
            slots: _,
        } = self;
    }
}

impl<'a> Scope<'a> {
    /// The scope of a layout.
    ///
    /// # Errors
    /// When memory runs out.
    pub fn of(alloc: Global, layout: &'a Layout) -> Result<Scope<'a>, AllocError>
        ensures { IfOk result (λ scope. scope.layout.now ≡ layout.now) }
    {
        let mut slots = BTreeMap::new(alloc);
        for (slot, variable) in layout.variables().iter().enumerate() {
            slots.insert(variable.0.as_bytes(), slot)?;
        }
        Ok(Scope { layout, slots })
    }

    /// The slot of the variable of a name. The variable's own name confirms what the index says.
    pub(crate) fn slot(&self, name: &Name) -> Option<usize>
        ensures within { IfSome result (λ i. i < length self.now.layout.now) }
        ensures named { IfSome result (λ i. name_at self.now.layout.now i ≡ name.now) }
    {
        let slot = *self.slots.get(name.as_bytes())?;
        self.layout.is_named(slot, name).then_some(slot)
    }

    /// The type of the variable of a slot.
    pub(crate) fn ty(&self, slot: usize) -> Ty
        requires { slot < length self.now.layout.now }
        ensures { result ≡ ty_at self.now.layout.now slot }
    {
        self.layout.ty(slot)
    }
}
