//! The lines that a dump has of the inside of basic blocks.

ghost use Rattle.std.specs.Prelude.{◌≡◌, ◌++◌, IfOk, OnOk, codes, map};
ghost use Rattle.fb_coverage.specs.Listed.{listed};
ghost use Rattle.fb_wave.specs.Scopes.{declares, variable_kind};
ghost use Rattle.fb_inspect.specs.dump.Inner as spec;
ghost use Rattle.fb_inspect.specs.walk.Notes.{hidden_variables};

use fb_types::{BasicType, Ty, Value, Variable};
use fb_wave::change::in_bits;
use fb_wave::digits::{put_binary, put_decimal, put_line};
use fb_wave::signals::is_carried;
use std::alloc::{AllocError, Global};

/// Puts what the dump calls a variable that no line carries, by the number of its instance and its index.
fn put_code(text: &mut Vec<u8>, instance: u32, index: usize) -> Result<(), AllocError>
    ensures { OnOk result (text.new.items ≡ text.old.items ++ spec.hidden_code instance index) }
{
    text.extend_from_slice(b"i")
        .and(put_decimal(text, u64::from(instance)))
        .and(text.extend_from_slice(b"_"))
        .and(put_decimal(text, index as u64))
}

/// The front of the declaration of a variable: a truth value is a wire.
fn front_of(ty: Ty) -> &'static [u8]
    ensures { result.now ≡ codes "$var " ++ variable_kind ty ++ codes " " }
{
    match ty {
        Ty::Bool => b"$var wire 1 ",
        _ => b"$var reg 64 ",
    }
}

/// Declares a variable that no line carries.
fn put_hidden(
    text: &mut Vec<u8>,
    instance: u32,
    index: usize,
    variable: &Variable,
) -> Result<(), AllocError>
    ensures { OnOk result (text.new.items ≡ text.old.items ++ spec.hidden_declared instance index variable.now) }
{
    text.extend_from_slice(front_of(variable.ty))?;
    put_code(text, instance, index)?;
    text.extend_from_slice(b" ")?;
    text.extend_from_slice(variable.name.as_bytes())?;
    text.extend_from_slice(b" $end\n")
}

/// The variables of a type that no line carries: output variables that no event publishes, and internal ones.
fn hidden_variables(alloc: Global, block: &BasicType) -> Result<Vec<&Variable>, AllocError>
    ensures { IfOk result (λ hidden. map (λ v. v.now) hidden.items ≡ hidden_variables block.now) }
{
    let events = block.ports.event_outputs.as_slice();
    let outputs = block.ports.outputs.as_slice();
    let mut hidden = Vec::new(alloc);
    for variable in outputs {
        if is_carried(events, variable) {
            continue;
        }
        hidden.push(variable)?;
    }
    let internals = block.internals.as_slice();
    for variable in internals {
        hidden.push(variable)?;
    }
    Ok(hidden)
}

/// Declares variables that no line carries.
fn put_all_hidden(
    text: &mut Vec<u8>,
    instance: u32,
    variables: &[&Variable],
) -> Result<(), AllocError>
    ensures { OnOk result (text.new.items ≡ text.old.items ++ listed (λ k v. spec.hidden_declared instance k v.now) 0 variables.now) }
{
    for (index, variable) in variables.iter().enumerate() {
        put_hidden(text, instance, index, variable)?;
    }
    Ok(())
}

/// Declares the signal of a state.
fn put_state_signal(text: &mut Vec<u8>, instance: u32) -> Result<(), AllocError>
    ensures { OnOk result (text.new.items ≡ text.old.items ++ declares (codes "string 1") (spec.state_code instance) (codes "state")) }
{
    text.extend_from_slice(b"$var string 1 s")
        .and(put_decimal(text, u64::from(instance)))
        .and(text.extend_from_slice(b" state $end\n"))
}

/// Declares the signal of lost events.
fn put_lost_signal(text: &mut Vec<u8>, instance: u32) -> Result<(), AllocError>
    ensures { OnOk result (text.new.items ≡ text.old.items ++ declares (codes "event 1") (spec.lost_code instance) (codes "lost")) }
{
    text.extend_from_slice(b"$var event 1 l")
        .and(put_decimal(text, u64::from(instance)))
        .and(text.extend_from_slice(b" lost $end\n"))
}

/// Declares the signals of an instance of a basic type.
pub(crate) fn put_chart(
    alloc: Global,
    text: &mut Vec<u8>,
    instance: u32,
    block: &BasicType,
) -> Result<(), AllocError>
    ensures { OnOk result (text.new.items ≡ text.old.items ++ spec.chart_declared instance block.now) }
{
    put_state_signal(text, instance)?;
    let hidden = hidden_variables(alloc, block)?;
    put_all_hidden(text, instance, hidden.as_slice())?;
    put_lost_signal(text, instance)
}

/// Puts that an instance is in a state.
pub(crate) fn put_state(text: &mut Vec<u8>, instance: u32, state: &[u8]) -> Result<(), AllocError>
    ensures { OnOk result (text.new.items ≡ text.old.items ++ spec.state_changed instance state.now) }
{
    text.extend_from_slice(b"s")?;
    text.extend_from_slice(state)?;
    put_line(text, b" s", u64::from(instance))
}

/// Puts a truth value of a variable that no line carries.
fn put_truth(text: &mut Vec<u8>, instance: u32, index: usize, truth: bool) -> Result<(), AllocError>
    ensures { OnOk result (text.new.items ≡ text.old.items ++ spec.value_by (spec.hidden_code instance index) (Value.Bool truth)) }
{
    let front: &[u8] = if truth { b"1" } else { b"0" };
    text.extend_from_slice(front)?;
    put_code(text, instance, index)?;
    text.extend_from_slice(b"\n")
}

/// Puts a number of a variable that no line carries.
fn put_number(
    text: &mut Vec<u8>,
    instance: u32,
    index: usize,
    number: i128,
) -> Result<(), AllocError>
    ensures { OnOk result (text.new.items ≡ text.old.items ++ spec.value_by (spec.hidden_code instance index) (Value.Whole number)) }
{
    text.extend_from_slice(b"b")?;
    put_binary(text, in_bits(number))?;
    text.extend_from_slice(b" ")?;
    put_code(text, instance, index)?;
    text.extend_from_slice(b"\n")
}

/// Puts the value of a variable that no line carries.
pub(crate) fn put_value(
    text: &mut Vec<u8>,
    instance: u32,
    index: usize,
    value: Value,
) -> Result<(), AllocError>
    ensures { OnOk result (text.new.items ≡ text.old.items ++ spec.value_by (spec.hidden_code instance index) value) }
{
    match value {
        Value::Bool(truth) => put_truth(text, instance, index, truth),
        Value::Whole(number) => put_number(text, instance, index, number),
    }
}

/// Puts that an event was lost, if one was.
pub(crate) fn put_lost(text: &mut Vec<u8>, instance: u32, is_lost: bool) -> Result<(), AllocError>
    ensures { OnOk result (text.new.items ≡ text.old.items ++ spec.lost_change instance is_lost) }
{
    if !is_lost {
        return Ok(());
    }
    put_line(text, b"1l", u64::from(instance))
}
