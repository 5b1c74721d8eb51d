//! Blocks with their ports.

ghost use Rattle.std.specs.Prelude.{◌≡◌, ◌++◌, OnOk};
ghost use Rattle.std.specs.List.{flat_map};
ghost use Rattle.fb_draw.specs.Networks as spec;

use fb_text::{put_all, put_value};
use fb_types::{EventPort, Instance, Name, Parameter, Ports, Variable};
use std::alloc::{AllocError, Global};

/// Adds a field with a name, which edges name too. A separator comes before it.
fn put_field(text: &mut Vec<u8>, separator: &[u8], name: &Name) -> Result<(), AllocError>
    ensures { OnOk result (text.new.items ≡ text.old.items ++ (separator.now ++ spec.field name.now)) }
{
    let name = name.as_bytes();
    put_all(text, &[separator, b"<", name, b"> ", name])
}

/// Adds a field for each event, with a stroke before it.
fn put_next_events(text: &mut Vec<u8>, events: &[EventPort]) -> Result<(), AllocError>
    ensures { OnOk result (text.new.items ≡ text.old.items ++ flat_map (λ e. spec.next_field e.name) events.now) }
{
    for event in events {
        put_field(text, b"|", &event.name)?;
    }
    Ok(())
}

/// Adds a field for each event, with strokes between them.
pub(crate) fn put_events(text: &mut Vec<u8>, events: &[EventPort]) -> Result<(), AllocError>
    ensures { OnOk result (text.new.items ≡ text.old.items ++ spec.event_fields events.now) }
{
    let [first, others @ ..] = events else {
        return Ok(());
    };
    put_field(text, b"", &first.name)?;
    put_next_events(text, others)
}

/// Adds a field for each variable, with a stroke before it.
fn put_next_variables(text: &mut Vec<u8>, variables: &[Variable]) -> Result<(), AllocError>
    ensures { OnOk result (text.new.items ≡ text.old.items ++ flat_map (λ v. spec.next_field v.name) variables.now) }
{
    for variable in variables {
        put_field(text, b"|", &variable.name)?;
    }
    Ok(())
}

/// Adds a field for each variable, with strokes between them.
pub(crate) fn put_variables(text: &mut Vec<u8>, variables: &[Variable]) -> Result<(), AllocError>
    ensures { OnOk result (text.new.items ≡ text.old.items ++ spec.variable_fields variables.now) }
{
    let [first, others @ ..] = variables else {
        return Ok(());
    };
    put_field(text, b"", &first.name)?;
    put_next_variables(text, others)
}

/// Adds the line of a parameter.
fn put_parameter(alloc: Global, text: &mut Vec<u8>, parameter: &Parameter) -> Result<(), AllocError>
    ensures { OnOk result (text.new.items ≡ text.old.items ++ spec.parameter_text parameter.now) }
{
    put_all(text, &[b"\\n", parameter.name.as_bytes(), b" := "])?;
    put_value(alloc, text, parameter.value)
}

/// Adds the lines of the parameters of an instance.
fn put_parameters(
    alloc: Global,
    text: &mut Vec<u8>,
    parameters: &[Parameter],
) -> Result<(), AllocError>
    ensures { OnOk result (text.new.items ≡ text.old.items ++ flat_map spec.parameter_text parameters.now) }
{
    for parameter in parameters {
        put_parameter(alloc, text, parameter)?;
    }
    Ok(())
}

/// Adds the row of events: inputs to the left, outputs to the right.
fn put_event_row(text: &mut Vec<u8>, ports: &Ports) -> Result<(), AllocError>
    ensures { OnOk result (text.new.items ≡ text.old.items ++ spec.event_row ports.now) }
{
    text.extend_from_slice(b"{{ ")?;
    put_events(text, ports.event_inputs.as_slice())?;
    text.extend_from_slice(b"}|{ ")?;
    put_events(text, ports.event_outputs.as_slice())?;
    text.extend_from_slice(b"}}")
}

/// Adds the row of variables: inputs to the left, outputs to the right.
fn put_variable_row(text: &mut Vec<u8>, ports: &Ports) -> Result<(), AllocError>
    ensures { OnOk result (text.new.items ≡ text.old.items ++ spec.variable_row ports.now) }
{
    text.extend_from_slice(b"{{ ")?;
    put_variables(text, ports.inputs.as_slice())?;
    text.extend_from_slice(b"}|{ ")?;
    put_variables(text, ports.outputs.as_slice())?;
    text.extend_from_slice(b"}}")
}

/// Adds the node of an instance with this interface: events above, the name in the middle, and variables below.
pub(crate) fn put_block(
    alloc: Global,
    text: &mut Vec<u8>,
    instance: &Instance,
    ports: &Ports,
) -> Result<(), AllocError>
    ensures { OnOk result (text.new.items ≡ text.old.items ++ spec.block_node instance.now ports.now) }
{
    let name = instance.name.as_bytes();
    put_all(text, &[b"  \"", name, b"\" [label=\""])?;
    put_event_row(text, ports)?;
    put_all(text, &[b"|", name, b"\\n", instance.block_type.as_bytes()])?;
    put_parameters(alloc, text, instance.parameters.as_slice())?;
    text.extend_from_slice(b"|")?;
    put_variable_row(text, ports)?;
    text.extend_from_slice(b"\"];\n")
}

/// Adds the beginning of the node of a side of a composite.
fn put_side_head(text: &mut Vec<u8>, side: &[u8]) -> Result<(), AllocError>
    ensures { OnOk result (text.new.items ≡ text.old.items ++ spec.side_head side.now) }
{
    put_all(text, &[b"  \"", side, b"\" [style=rounded, label=\"{{ "])
}

/// Adds the node of a side of a composite: its event inputs and inputs, or its event outputs and outputs.
fn put_side(
    text: &mut Vec<u8>,
    side: &[u8],
    events: &[EventPort],
    variables: &[Variable],
) -> Result<(), AllocError>
    ensures { OnOk result (text.new.items ≡ text.old.items ++ spec.side_node side.now events.now variables.now) }
{
    put_side_head(text, side)?;
    put_events(text, events)?;
    text.extend_from_slice(b"}}|{{ ")?;
    put_variables(text, variables)?;
    text.extend_from_slice(b"}}\"];\n")
}

/// Adds the nodes of both sides of a composite.
pub(crate) fn put_sides(text: &mut Vec<u8>, ports: &Ports) -> Result<(), AllocError>
    ensures { OnOk result (text.new.items ≡ text.old.items ++ spec.side_nodes ports.now) }
{
    let events = ports.event_inputs.as_slice();
    put_side(text, b"in", events, ports.inputs.as_slice())?;
    let events = ports.event_outputs.as_slice();
    put_side(text, b"out", events, ports.outputs.as_slice())
}
