//! Conditions of transitions.

ghost use Rattle.std.specs.Prelude.{◌≡◌, ◌++◌, OnOk};
ghost use Rattle.fb_text.specs.Conditions as spec;

use crate::expression::put_expression;
use crate::pieces::put_all;
use fb_types::{Condition, Expr};
use std::alloc::{AllocError, Global};

/// Adds a guard in brackets.
fn put_guard(alloc: Global, text: &mut Vec<u8>, guard: &Expr) -> Result<(), AllocError>
    ensures { OnOk result (text.new.items ≡ text.old.items ++ spec.guard_text guard.now) }
{
    text.extend_from_slice(b"[")?;
    put_expression(alloc, text, guard)?;
    text.extend_from_slice(b"]")
}

/// Adds the condition of a transition, as it was written.
pub fn put_condition(
    alloc: Global,
    text: &mut Vec<u8>,
    condition: &Condition,
) -> Result<(), AllocError>
    ensures { OnOk result (text.new.items ≡ text.old.items ++ spec.condition_text condition.now.event condition.now.guard) }
{
    match (&condition.event, &condition.guard) {
        (None, None) => text.extend_from_slice(b"1"),
        (Some(event), None) => text.extend_from_slice(event.as_bytes()),
        (None, Some(guard)) => put_guard(alloc, text, guard),
        (Some(event), Some(guard)) => {
            put_all(text, &[event.as_bytes(), b" "])?;
            put_guard(alloc, text, guard)
        }
    }
}
