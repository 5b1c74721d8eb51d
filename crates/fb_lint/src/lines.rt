//! Warnings as lines of text.

ghost use Rattle.std.specs.Prelude.{IfOk, string_bytes};
ghost use Rattle.fb_lint.specs.Lines.{IsLine};

use crate::warning::Warning;
use crate::words::warning_message;
use fb_types::{Library, Plan};
use std::alloc::{AllocError, Global};

/// The line of a warning, without its place: `L`, the number in two digits, and words.
///
/// # Errors
///
/// When memory runs out.
pub fn line_of(
    alloc: Global,
    library: &Library,
    plan: &Plan,
    warning: &Warning,
) -> Result<String, AllocError>
    ensures { IfOk result (λ line. IsLine warning.now (string_bytes line)) }
{
    let words = warning_message(alloc, library, plan, warning)?;
    let number = warning.number();
    let tens = number / 10;
    let ones = number % 10;
    Ok(format!(in alloc; "L{tens}{ones}: {words}\n")?)
}
