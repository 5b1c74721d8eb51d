//! The names of files, as reports show them.

ghost use Rattle.std.specs.Prelude.{◌≡◌, IfOk, string_bytes};
ghost use Rattle.fbsim_command.specs.Shown as spec;

use std::alloc::{AllocError, Global};

/// A character of a name, on the same line as the others: a control character is shown as a question mark.
fn shown_char(c: char) -> char
    ensures { result ≡ spec.shown_char c }
{
    if c.is_control() { '?' } else { c }
}

/// A name of a file as reports show it. A line feed or another control character in it is shown as a question mark, so
/// that no name begins a line.
pub(crate) fn shown_name(alloc: Global, name: &str) -> Result<String, AllocError>
    ensures { IfOk result (λ shown. string_bytes shown ≡ spec.shown_name name.now) }
{
    name.chars().map(|c| shown_char(c)).collect(alloc)
}
