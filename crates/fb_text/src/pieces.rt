//! Texts in pieces.

ghost use Rattle.std.specs.Prelude.{◌≡◌, ◌++◌, OnOk, decimal, map};
ghost use Rattle.fb_types.specs.Text.{value_text};
ghost use Rattle.fb_text.specs.Pieces as spec;

use fb_types::Value;
use std::alloc::{AllocError, Global};

/// Adds pieces to a text.
pub fn put_all(text: &mut Vec<u8>, pieces: &[&[u8]]) -> Result<(), AllocError>
    ensures { OnOk result (text.new.items ≡ text.old.items ++ spec.joined (map (λ p. p.now) pieces.entry.now)) }
{
    for piece in pieces {
        text.extend_from_slice(piece)?;
    }
    Ok(())
}

/// Adds the decimal digits of a number.
pub fn put_number(alloc: Global, text: &mut Vec<u8>, number: u64) -> Result<(), AllocError>
    ensures { OnOk result (text.new.items ≡ text.old.items ++ decimal number) }
{
    let digits = format!(in alloc; "{number}")?;
    text.extend_from_slice(digits.as_bytes())
}

/// Adds a value, as a trace has it.
pub fn put_value(alloc: Global, text: &mut Vec<u8>, value: Value) -> Result<(), AllocError>
    ensures { OnOk result (text.new.items ≡ text.old.items ++ value_text value) }
{
    match value {
        Value::Bool(true) => text.extend_from_slice(b"TRUE"),
        Value::Bool(false) => text.extend_from_slice(b"FALSE"),
        Value::Whole(number) => {
            let digits = format!(in alloc; "{number}")?;
            text.extend_from_slice(digits.as_bytes())
        }
    }
}
