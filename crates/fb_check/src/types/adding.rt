//! Items added to lists.

ghost use Rattle.std.specs.Prelude.{◌≡◌, ◌∷◌, ◌++◌, [], IfOk, is_some};
ghost use Rattle.fb_check_names.specs.Listed.{unless};
ghost use Rattle.fb_check.specs.types.Present.{some_of};

use fb_types::Items;
use std::alloc::AllocError;

/// Adds an item.
pub(crate) fn push_one<T: Copy>(all: &mut Vec<T>, item: T) -> Result<(), AllocError>
    ensures { IfOk result (λ _. all.new.items ≡ all.old.items ++ (item ∷ [])) }
{
    all.push(item)?;
    Ok(())
}

/// Adds an item, if it is there.
pub(crate) fn push_some<T: Copy>(items: &mut Items<T>, item: Option<T>) -> Result<(), AllocError>
    ensures { IfOk result (λ _. items.new ≡ items.old ++ some_of item) }
{
    match item {
        Some(item) => items.push(item),
        None => Ok(()),
    }
}

/// Adds an item, or the location at which it is missing.
pub(crate) fn push_found<T: Copy, P: Copy>(
    items: &mut Items<T>,
    found: &mut Vec<P>,
    item: Option<T>,
    location: P,
) -> Result<(), AllocError>
    ensures listed { IfOk result (λ _. found.new.items ≡ found.old.items ++ unless (is_some item) location) }
    ensures item { IfOk result (λ _. items.new ≡ items.old ++ some_of item) }
{
    match item {
        Some(item) => items.push(item),
        None => push_one(found, location),
    }
}
