//! Scopes.

ghost use Rattle.std.specs.Prelude.{◌≡◌, ◌++◌, OnOk};
ghost use Rattle.fb_wave.specs.Scopes as spec;

use std::alloc::AllocError;

/// Opens a scope with a name.
pub fn put_opened(text: &mut Vec<u8>, name: &[u8]) -> Result<(), AllocError>
    ensures { OnOk result (text.new.items ≡ text.old.items ++ spec.opened name.now) }
{
    text.extend_from_slice(b"$scope module ")?;
    text.extend_from_slice(name)?;
    text.extend_from_slice(b" $end\n")
}

/// Closes the given number of scopes.
pub fn put_closed(text: &mut Vec<u8>, count: usize) -> Result<(), AllocError>
    ensures { OnOk result (text.new.items ≡ text.old.items ++ spec.closed count) }
{
    let mut left = count;
    while left > 0 {
        text.extend_from_slice(b"$upscope $end\n")?;
        left -= 1;
    }
    Ok(())
}
