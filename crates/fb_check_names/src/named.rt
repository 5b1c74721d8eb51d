//! Items with names, and the names of a list.

ghost use Rattle.std.specs.Prelude.{◌≡◌, ◌++◌, map, IfOk, MatchOption};
ghost use Rattle.fb_check_names.specs.Indexes.{IsIndex, names_in};
ghost use Rattle.fb_check_names.specs.Repeats.{IsFirstRepeat};
ghost use Rattle.fb_types.specs.Repeated.{Twice};

use crate::placing::{Indexes, indexes_of};
use fb_types::{
    Algorithm, BlockType, EventPort, Instance, Name, Parameter, ResourceEntry, Setting, State,
    Variable,
};
use std::alloc::{AllocError, Global};
use std::collections::BTreeMap;

/// An item that has a name in a name space.
pub trait Named {
    ghost use Rattle.std.specs.Prelude.{List, ℕ};

    ghost called: { Self → List ℕ };

    /// Its name.
    fn name(&self) -> &Name
        ensures { result.now ≡ called self.now };
}

impl Named for Name {
    ghost called = { λ n. n };

    fn name(&self) -> &Name {
        self
    }
}

impl Named for EventPort {
    ghost called = { λ p. p.name };

    fn name(&self) -> &Name {
        &self.name
    }
}

impl Named for Variable {
    ghost called = { λ v. v.name };

    fn name(&self) -> &Name {
        &self.name
    }
}

impl Named for State {
    ghost called = { λ s. s.name };

    fn name(&self) -> &Name {
        &self.name
    }
}

impl Named for Algorithm {
    ghost called = { λ a. a.name };

    fn name(&self) -> &Name {
        &self.name
    }
}

impl Named for Instance {
    ghost called = { λ i. i.name };

    fn name(&self) -> &Name {
        &self.name
    }
}

impl Named for Parameter {
    ghost called = { λ x. x.name };

    fn name(&self) -> &Name {
        &self.name
    }
}

impl Named for Setting {
    ghost called = { λ s. s.variable };

    fn name(&self) -> &Name {
        &self.variable
    }
}

impl Named for BlockType {
    ghost use Rattle.fb_types.specs.Flat.{type_name};

    ghost called = { type_name };

    fn name(&self) -> &Name {
        self.type_name()
    }
}

impl Named for ResourceEntry {
    ghost called = { λ r. r.name };

    fn name(&self) -> &Name {
        &self.name
    }
}

/// Adds the names of a list, in its order.
pub fn push_names<'a, T: Named>(names: &mut Vec<&'a Name>, items: &'a [T]) -> Result<(), AllocError>
    ensures { IfOk result (λ _. names_in names.new.items ≡ names_in names.old.items ++ map T.called items.now) }
{
    for item in items {
        names.push(item.name())?;
    }
    Ok(())
}

/// The indexes of the names of a list, or `None` if a name is given twice.
pub fn indexes<'a, T: Named>(
    alloc: Global,
    items: &'a [T],
) -> Result<Option<Indexes<'a>>, AllocError>
    ensures { IfOk result (λ o. MatchOption o (Twice (map T.called items.now)) (IsIndex (map T.called items.now))) }
{
    let mut names = Vec::new(alloc);
    push_names(&mut names, items)?;
    indexes_of(alloc, names.as_slice())
}

/// The index of the first item with the name of one before it, if there is one.
///
/// # Errors
///
/// When memory runs out.
pub fn first_repeat<T: Named>(alloc: Global, items: &[T]) -> Result<Option<usize>, AllocError>
    ensures { IfOk result (λ o. MatchOption o (¬ (Twice (map T.called items.now))) (IsFirstRepeat (map T.called items.now))) }
{
    let mut seen = BTreeMap::new(alloc);
    for (index, item) in items.iter().enumerate() {
        if seen.insert(item.name(), index)?.is_some() {
            return Ok(Some(index));
        }
    }
    Ok(None)
}
