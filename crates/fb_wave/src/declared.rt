//! The declarations of signals.

ghost use Rattle.std.specs.Prelude.{◌≡◌, ◌++◌, OnOk, decimal, codes};
ghost use Rattle.fb_wave.specs.Changes.{line};
ghost use Rattle.fb_wave.specs.Scopes as spec;

use crate::digits::put_decimal;
use fb_types::Ty;
use std::alloc::AllocError;

/// Declares a signal. The front has its kind, and ends in the letter with which the dump calls it. The mark is the end
/// of its name.
fn put_declared(
    text: &mut Vec<u8>,
    front: &[u8],
    signal: usize,
    name: &[u8],
    mark: &[u8],
) -> Result<(), AllocError>
    ensures { OnOk result (text.new.items ≡ text.old.items
        ++ line (front.now ++ decimal signal ++ codes " " ++ (name.now ++ mark.now) ++ codes " $end")) }
{
    text.extend_from_slice(front)?;
    put_decimal(text, signal as u64)?;
    text.extend_from_slice(b" ")?;
    text.extend_from_slice(name)?;
    text.extend_from_slice(mark)?;
    text.extend_from_slice(b" $end\n")
}

/// Declares the event of a port, and the register that counts its events.
pub(crate) fn put_event(text: &mut Vec<u8>, signal: usize, name: &[u8]) -> Result<(), AllocError>
    ensures { OnOk result (text.new.items ≡ text.old.items ++ spec.event_declared signal name.now) }
{
    put_declared(text, b"$var event 1 e", signal, name, b"")?;
    put_declared(text, b"$var reg 64 n", signal, name, b"_count")
}

/// The front of the declaration of a variable: a truth value is a wire.
fn front_of(ty: Ty) -> &'static [u8]
    ensures { result.now ≡ codes "$var " ++ spec.variable_kind ty ++ codes " v" }
{
    match ty {
        Ty::Bool => b"$var wire 1 v",
        _ => b"$var reg 64 v",
    }
}

/// Declares a variable.
pub(crate) fn put_variable(
    text: &mut Vec<u8>,
    signal: usize,
    name: &[u8],
    ty: Ty,
) -> Result<(), AllocError>
    ensures { OnOk result (text.new.items ≡ text.old.items ++ spec.variable_declared signal name.now ty) }
{
    put_declared(text, front_of(ty), signal, name, b"")
}
