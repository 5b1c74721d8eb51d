//! Lines of a trace.

ghost use Rattle.std.specs.Prelude.{◌≡◌, ◌≤◌, ◌^◌, IfNone, IfOk, IfSome, MatchOption};
ghost use Rattle.fb_types.specs.Headline.{AreAccepted};
ghost use Rattle.fb_wave.specs.Lines.{AreInRange, HasNoHead, IsHead};
ghost use Rattle.fb_wave.specs.OfSystem.{AreNoValuesOf, AreValuesOf, HasNames, IsNoTextOf, IsPortOf, IsTextOf};

use crate::number::{number, tick};
use crate::ports::{Port, holder_of};
use crate::table::{Guess, PortTable};
use crate::values::values_of;
use fb_system::System;
use fb_types::{Form, Key, Line, Values};
use std::alloc::{AllocError, Global};

/// The class and the parts of a key.
#[derive(Clone, Copy)]
pub struct Parts {
    pub class: u8,
    pub a: u128,
    pub b: u128,
}

/// The class, if it is below 256.
fn class_of(number: u128) -> Option<u8>
    ensures { MatchOption result (2 ^ 8 ≤ number) (λ class. class ≡ number) }
{
    if number < 1 << 8 {
        Some(number as u8)
    } else {
        None
    }
}

/// The beginning of a line in this form, and what comes after it.
pub fn parts_of(form: Form, text: &[u8]) -> Option<(Parts, &[u8])>
    ensures head { MatchOption result (HasNoHead form text.now) (λ p. IsHead form text.now p.0 p.1.now) }
    ensures range { IfSome result (λ p. AreInRange p.0) }
{
    match form {
        Form::One => Some((
            Parts {
                class: 0,
                a: 0,
                b: 0,
            },
            text,
        )),
        Form::Two => {
            let class = number(text)?;
            let a = number(class.1)?;
            let b = number(a.1)?;
            let parts = Parts {
                class: class_of(class.0)?,
                a: a.0,
                b: b.0,
            };
            Some((parts, b.1))
        }
    }
}

/// The values of a line of a port, up to its end.
fn port_values(
    alloc: Global,
    system: &System,
    port: Port,
    text: &[u8],
) -> Result<Option<Values>, AllocError>
    requires { IsPortOf system.now port }
    ensures values { IfOk result (λ o. IfSome o (AreValuesOf system.now port text.now)) }
    ensures none { AreAccepted system.now → IfOk result (λ o. IfNone o (AreNoValuesOf system.now port text.now)) }
{
    let ports = system.ports(port.instance);
    if port.taken {
        let indexes = system.inputs_with(port.instance, port.event);
        values_of(alloc, ports.inputs.as_slice(), indexes, text)
    } else {
        let indexes = system.outputs_with(port.instance, port.event);
        values_of(alloc, ports.outputs.as_slice(), indexes, text)
    }
}

/// Reads a line of the system in this form from a text with its line feed. `None` if it is no line of the system.
pub fn read_line(
    alloc: Global,
    table: &PortTable,
    guess: &mut Guess,
    form: Form,
    text: &[u8],
) -> Result<Option<Line>, AllocError>
    ensures line { IfOk result (λ o. IfSome o (λ l. IsTextOf table.now.system.now form l text.now)) }
    ensures none { HasNames table.now.system.now → IfOk result (λ o. IfNone o (IsNoTextOf table.now.system.now form text.now)) }
{
    let Some(head) = parts_of(form, text) else {
        return Ok(None);
    };
    let Some(tick) = tick(head.1) else {
        return Ok(None);
    };
    let Some(found) = table.find(guess, tick.1) else {
        return Ok(None);
    };
    let port = found.0;
    let Some(values) = port_values(alloc, table.system, port, found.1)? else {
        return Ok(None);
    };
    let key = Key {
        tick: tick.0,
        resource: holder_of(table.system, port),
        class: head.0.class,
        a: head.0.a,
        b: head.0.b,
    };
    Ok(Some(Line {
        key,
        taken: port.taken,
        instance: port.instance,
        event: port.event,
        values,
    }))
}
