//! Lists of locations.

ghost use Rattle.std.specs.Prelude.{◌≡◌, ◌++◌, IfOk};
ghost use Rattle.fb_check_names.specs.Listed.{unless};

use std::alloc::AllocError;

/// Adds a location, unless what is required there holds.
pub fn push_unless<P: Copy>(found: &mut Vec<P>, holds: bool, location: P) -> Result<(), AllocError>
    ensures { IfOk result (λ _. found.new.items ≡ found.old.items ++ unless holds location) }
{
    if !holds {
        found.push(location)?;
    }
    Ok(())
}
