//! Items of a list that are in it before.

ghost use Rattle.std.specs.Prelude.{◌≡◌, ◌++◌, IfOk};
ghost use Rattle.fb_check_names.specs.Repeats.{pair_at};

use std::alloc::AllocError;

/// The indexes of two equal items in a list, the earlier one first.
pub type Repeat = (usize, usize);

/// Adds a pair for an item that is in the list before.
pub fn push_pair(
    pairs: &mut Vec<Repeat>,
    first: Option<usize>,
    second: usize,
) -> Result<(), AllocError>
    ensures { IfOk result (λ _. pairs.new.items ≡ pairs.old.items ++ pair_at second first) }
{
    if let Some(first) = first {
        pairs.push((first, second))?;
    }
    Ok(())
}
