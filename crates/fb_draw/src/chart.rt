//! Charts of basic types.

ghost use Rattle.std.specs.Prelude.{◌≡◌, ◌++◌, [], OnOk};
ghost use Rattle.std.specs.List.{flat_map};
ghost use Rattle.fb_draw.specs.Charts as spec;

use crate::dot::{put_foot, put_head};
use fb_text::{put_all, put_condition};
use fb_types::{Action, BasicType, Name, State, Transition};
use std::alloc::{AllocError, Global};

/// Adds the event that an action emits, if it emits one.
fn put_output(text: &mut Vec<u8>, output: &Option<Name>) -> Result<(), AllocError>
    ensures { OnOk result (text.new.items ≡ text.old.items ++ spec.output_text output.now) }
{
    match output {
        Some(event) => put_all(text, &[b" -> ", event.as_bytes()]),
        None => Ok(()),
    }
}

/// Adds the line of an action.
fn put_action(text: &mut Vec<u8>, action: &Action) -> Result<(), AllocError>
    ensures { OnOk result (text.new.items ≡ text.old.items ++ spec.action_text action.now) }
{
    text.extend_from_slice(b"\\n")?;
    if let Some(algorithm) = &action.algorithm {
        text.extend_from_slice(algorithm.as_bytes())?;
    }
    put_output(text, &action.output)
}

/// Adds the lines of actions.
fn put_actions(text: &mut Vec<u8>, actions: &[Action]) -> Result<(), AllocError>
    ensures { OnOk result (text.new.items ≡ text.old.items ++ flat_map spec.action_text actions.now) }
{
    for action in actions {
        put_action(text, action)?;
    }
    Ok(())
}

/// Adds the node of a state, with attributes.
fn put_state(text: &mut Vec<u8>, attributes: &[u8], state: &State) -> Result<(), AllocError>
    ensures { OnOk result (text.new.items ≡ text.old.items ++ spec.state_node attributes.now state.now) }
{
    let name = state.name.as_bytes();
    put_all(
        text,
        &[b"  \"", name, b"\" [", attributes, b"label=\"", name],
    )?;
    put_actions(text, state.actions.as_slice())?;
    text.extend_from_slice(b"\"];\n")
}

/// Adds the nodes of states that are not the initial one.
fn put_other_states(text: &mut Vec<u8>, states: &[State]) -> Result<(), AllocError>
    ensures { OnOk result (text.new.items ≡ text.old.items ++ flat_map (spec.state_node []) states.now) }
{
    for state in states {
        put_state(text, b"", state)?;
    }
    Ok(())
}

/// Adds the nodes of all states. The first one is the initial state, which has a double border.
fn put_states(text: &mut Vec<u8>, states: &[State]) -> Result<(), AllocError>
    ensures { OnOk result (text.new.items ≡ text.old.items ++ spec.state_nodes states.now) }
{
    let [initial, others @ ..] = states else {
        return Ok(());
    };
    put_state(text, b"peripheries=2, ", initial)?;
    put_other_states(text, others)
}

/// Adds the edge of a transition.
fn put_transition(
    alloc: Global,
    text: &mut Vec<u8>,
    transition: &Transition,
) -> Result<(), AllocError>
    ensures { OnOk result (text.new.items ≡ text.old.items ++ spec.transition_edge transition.now) }
{
    put_all(
        text,
        &[
            b"  \"",
            transition.from.as_bytes(),
            b"\" -> \"",
            transition.to.as_bytes(),
            b"\" [label=\"",
        ],
    )?;
    put_condition(alloc, text, &transition.condition)?;
    text.extend_from_slice(b"\"];\n")
}

/// Adds the edges of transitions.
fn put_transitions(
    alloc: Global,
    text: &mut Vec<u8>,
    transitions: &[Transition],
) -> Result<(), AllocError>
    ensures { OnOk result (text.new.items ≡ text.old.items ++ flat_map spec.transition_edge transitions.now) }
{
    for transition in transitions {
        put_transition(alloc, text, transition)?;
    }
    Ok(())
}

/// Adds the chart of a basic type.
pub(crate) fn put_chart(
    alloc: Global,
    text: &mut Vec<u8>,
    basic: &BasicType,
) -> Result<(), AllocError>
    ensures { OnOk result (text.new.items ≡ text.old.items ++ spec.chart_text basic.now) }
{
    put_head(text, b"box", &basic.name)?;
    put_states(text, basic.states.as_slice())?;
    put_transitions(alloc, text, basic.transitions.as_slice())?;
    put_foot(text)
}
