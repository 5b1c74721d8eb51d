//! Variables that no guard and no algorithm names (L11), and output events whose data outputs no algorithm assigns
//! (L12).

ghost use Rattle.std.specs.Prelude.{◌≡◌, ◌++◌, IfOk, OnOk, flat_map};
ghost use Rattle.std.specs.List.{list_any};
ghost use Rattle.fb_types.specs.Blocks.{among};
ghost use Rattle.fb_check.specs.types.Checks.{guard_mentions};
ghost use Rattle.fb_check.specs.types.Mentions.{meant_all};
ghost use Rattle.fb_check.specs.types.Statements.{all_standing, standing_of};
ghost use Rattle.fb_lint.specs.Reads as spec;
ghost use Rattle.fb_lint.specs.Findings.{names_are};

use crate::findings::push_if;
use crate::names::is_listed;
use crate::reads::{is_mentioned, push_guard};
use crate::warning::Warning;
use fb_check::types::mentions::{Mention, push_body};
use fb_check::types::{Standing, all_statements};
use fb_check_names::PortKind;
use fb_types::{Algorithm, EventPort, Name, Stmt, Transition, Variable};
use std::alloc::{AllocError, Global};

/// Adds what algorithms name.
fn push_bodies<'a>(
    mentions: &mut Vec<Mention<'a>>,
    algorithms: &'a [Algorithm],
) -> Result<(), AllocError>
    ensures { IfOk result (λ _. meant_all mentions.new.items ≡ meant_all mentions.old.items ++ flat_map spec.mentions_of_algorithm algorithms.now) }
{
    for algorithm in algorithms {
        push_body(mentions, &algorithm.body)?;
    }
    Ok(())
}

/// Adds what guards name.
pub(crate) fn push_guards<'a>(
    mentions: &mut Vec<Mention<'a>>,
    transitions: &'a [Transition],
) -> Result<(), AllocError>
    ensures { IfOk result (λ _. meant_all mentions.new.items ≡ meant_all mentions.old.items ++ flat_map guard_mentions transitions.now) }
{
    for transition in transitions {
        push_guard(mentions, transition)?;
    }
    Ok(())
}

/// What algorithms and guards name.
pub(crate) fn mentions_of<'a>(
    alloc: Global,
    algorithms: &'a [Algorithm],
    transitions: &'a [Transition],
) -> Result<Vec<Mention<'a>>, AllocError>
    ensures { IfOk result (λ v. meant_all v.items ≡ spec.mentions_of algorithms.now transitions.now) }
{
    let mut mentions = Vec::new(alloc);
    push_bodies(&mut mentions, algorithms)?;
    push_guards(&mut mentions, transitions)?;
    Ok(mentions)
}

/// Adds the variables that are not among what algorithms and guards name.
pub(crate) fn push_unmentioned(
    all: &mut Vec<Warning>,
    block: usize,
    port_kind: PortKind,
    mentions: &[Mention],
    variables: &[Variable],
) -> Result<(), AllocError>
    ensures { OnOk result (all.new.items ≡ all.old.items ++ spec.unmentioned_variables block port_kind (meant_all mentions.now) variables.now) }
{
    for (port, variable) in variables.iter().enumerate() {
        let is_unused = !is_mentioned(mentions, &variable.name);
        let warning = Warning::UnusedPort {
            block,
            port_kind,
            port,
        };
        push_if(all, is_unused, warning)?;
    }
    Ok(())
}

/// Adds the variable that a statement assigns, or that controls a FOR.
fn push_assigned<'a>(names: &mut Vec<&'a Name>, standing: &Standing<'a>) -> Result<(), AllocError>
    ensures { IfOk result (λ _. names_are names.new.items ≡ names_are names.old.items ++ spec.assigned_by (standing_of standing.now)) }
{
    if let Stmt::Assign(variable, _) | Stmt::For(variable, _, _, _, _) = standing.statement {
        names.push(variable.name())?;
    }
    Ok(())
}

fn push_assigned_by<'a>(
    names: &mut Vec<&'a Name>,
    statements: &[Standing<'a>],
) -> Result<(), AllocError>
    ensures { IfOk result (λ _. names_are names.new.items ≡ names_are names.old.items ++ flat_map spec.assigned_by (all_standing statements.now)) }
{
    for standing in statements {
        push_assigned(names, standing)?;
    }
    Ok(())
}

/// Adds the variables that an algorithm assigns.
fn push_assigned_in<'a>(
    alloc: Global,
    names: &mut Vec<&'a Name>,
    algorithm: &'a Algorithm,
) -> Result<(), AllocError>
    ensures { IfOk result (λ _. names_are names.new.items ≡ names_are names.old.items ++ spec.assigned_in algorithm.now) }
{
    let statements = all_statements(alloc, &algorithm.body)?;
    push_assigned_by(names, statements.as_slice())
}

/// The variables that algorithms assign, once for each assignment.
pub(crate) fn assigned<'a>(
    alloc: Global,
    algorithms: &'a [Algorithm],
) -> Result<Vec<&'a Name>, AllocError>
    ensures { IfOk result (λ v. names_are v.items ≡ spec.assigned algorithms.now) }
{
    let mut names = Vec::new(alloc);
    for algorithm in algorithms {
        push_assigned_in(alloc, &mut names, algorithm)?;
    }
    Ok(names)
}

/// Whether one of the names is listed.
fn has_listed(names: &[&Name], outputs: &[Name]) -> bool
    ensures { result ≡ list_any (among (names_are names.now)) outputs.now }
{
    for output in outputs {
        if is_listed(names, output) {
            return true;
        }
    }
    false
}

/// Whether there is a name.
pub(crate) fn has_some(names: &[Name]) -> bool
    ensures { result ≡ spec.has_some names.now }
{
    match names {
        [] => false,
        _ => true,
    }
}

/// Whether there are data outputs, and none of them is assigned.
fn is_unassigned(assigned: &[&Name], outputs: &[Name]) -> bool
    ensures { result ≡ spec.is_unassigned (names_are assigned.now) outputs.now }
{
    has_some(outputs) && !has_listed(assigned, outputs)
}

/// Adds the output events that have data outputs WITH them of which none is assigned.
pub(crate) fn push_unassigned_events(
    all: &mut Vec<Warning>,
    block: usize,
    assigned: &[&Name],
    events: &[EventPort],
) -> Result<(), AllocError>
    ensures { OnOk result (all.new.items ≡ all.old.items ++ spec.unassigned_events block (names_are assigned.now) events.now) }
{
    for (event, port) in events.iter().enumerate() {
        let applies = is_unassigned(assigned, port.with.as_slice());
        push_if(all, applies, Warning::UnassignedEvent { block, event })?;
    }
    Ok(())
}
