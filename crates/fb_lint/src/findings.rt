//! Lists of warnings that grow.

ghost use Rattle.std.specs.Prelude.{◌≡◌, ◌++◌, OnOk};
ghost use Rattle.fb_lint.specs.Findings.{when};

use crate::warning::Warning;
use std::alloc::AllocError;

/// Adds a warning if it applies.
pub(crate) fn push_if(
    all: &mut Vec<Warning>,
    applies: bool,
    warning: Warning,
) -> Result<(), AllocError>
    ensures { OnOk result (all.new.items ≡ all.old.items ++ when applies warning) }
{
    if applies {
        all.push(warning)?;
    }
    Ok(())
}
