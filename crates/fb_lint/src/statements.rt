//! Labels that a CASE has twice (L21), and internal variables that nothing reads (L22).

ghost use Rattle.std.specs.Prelude.{◌≡◌, ◌++◌, IfOk, OnOk, flat_map};
ghost use Rattle.std.specs.List.{list_any};
ghost use Rattle.fb_types.specs.Syntax.{stmt_of};
ghost use Rattle.fb_check.specs.types.Mentions.{meant_all};
ghost use Rattle.fb_check.specs.types.Statements.{all_standing};
ghost use Rattle.fb_check.specs.types.Trees.{branches_of, choices_of};
ghost use Rattle.fb_lint.specs.Statements as spec;

use crate::findings::push_if;
use crate::reads::is_mentioned;
use crate::uses::push_guards;
use crate::warning::Warning;
use fb_check::types::mentions::{Mention, push_expression};
use fb_check::types::{Standing, all_statements};
use fb_types::{
    Algorithm, BasicType, Branch, Choice, Expr, Label, Reference, Stmt, Transition, Variable,
};
use std::alloc::{AllocError, Global};

/// Adds the labels of branches.
fn push_labels(labels: &mut Vec<Label>, branches: &[Branch]) -> Result<(), AllocError>
    ensures { IfOk result (λ _. labels.new.items ≡ labels.old.items ++ spec.labels_in (branches_of branches.now)) }
{
    for branch in branches {
        labels.extend_from_slice(branch.labels.as_slice())?;
    }
    Ok(())
}

/// Whether a label has a value: its first bound is not over its last.
fn has_value(label: &Label) -> bool
    ensures { result ≡ spec.has_value label.now }
{
    label.first <= label.last
}

/// Whether the first bound of a label is not over the last one of another.
fn begins_within(label: &Label, other: &Label) -> bool
    ensures { result ≡ spec.begins_within label.now other.now }
{
    label.first <= other.last
}

/// Whether one label begins within the other, and the other within it.
fn crosses(one: &Label, other: &Label) -> bool
    ensures { result ≡ spec.crosses one.now other.now }
{
    begins_within(one, other) && begins_within(other, one)
}

/// Whether two labels have a value in common.
fn meets(one: &Label, other: &Label) -> bool
    ensures { result ≡ spec.meets one.now other.now }
{
    has_value(one) && has_value(other) && crosses(one, other)
}

fn meets_some(label: &Label, others: &[Label]) -> bool
    ensures { result ≡ list_any (spec.meets label.now) others.now }
{
    for other in others {
        if meets(label, other) {
            return true;
        }
    }
    false
}

/// Whether two of the labels have a value in common.
fn has_repeated(mut labels: &[Label]) -> bool
    ensures { result ≡ spec.has_repeated labels.entry.now }
{
    while let [label, others @ ..] = labels {
        if meets_some(label, others) {
            return true;
        }
        labels = others;
    }
    false
}

/// Whether two labels of the branches have a value in common.
fn has_repeated_in(alloc: Global, branches: &[Branch]) -> Result<bool, AllocError>
    ensures { IfOk result (λ b. b ≡ spec.has_repeated (spec.labels_in (branches_of branches.now))) }
{
    let mut labels = Vec::new(alloc);
    push_labels(&mut labels, branches)?;
    Ok(has_repeated(labels.as_slice()))
}

/// Whether the statement is a CASE with a value that two of its labels have.
fn is_repeating(alloc: Global, statement: &Stmt) -> Result<bool, AllocError>
    ensures { IfOk result (λ b. b ≡ spec.is_repeating (stmt_of statement.now)) }
{
    if let Stmt::Case(_, branches, _) = statement {
        return has_repeated_in(alloc, branches.as_slice());
    }
    Ok(false)
}

/// An algorithm, by its index.
#[derive(Clone, Copy)]
struct Located {
    block: usize,
    algorithm: usize,
}

/// Adds the CASE among statements of an algorithm that have a label twice.
fn push_repeated(
    alloc: Global,
    all: &mut Vec<Warning>,
    at: Located,
    statements: &[Standing],
) -> Result<(), AllocError>
    ensures { OnOk result (all.new.items ≡ all.old.items ++ spec.repeated_in at.block at.algorithm (all_standing statements.now)) }
{
    for (statement, standing) in statements.iter().enumerate() {
        let applies = is_repeating(alloc, standing.statement)?;
        let warning = Warning::RepeatedLabel {
            block: at.block,
            algorithm: at.algorithm,
            statement,
        };
        push_if(all, applies, warning)?;
    }
    Ok(())
}

fn push_repeated_in(
    alloc: Global,
    all: &mut Vec<Warning>,
    at: Located,
    algorithm: &Algorithm,
) -> Result<(), AllocError>
    ensures { OnOk result (all.new.items ≡ all.old.items ++ spec.repeated_of at.block at.algorithm algorithm.now) }
{
    let statements = all_statements(alloc, &algorithm.body)?;
    push_repeated(alloc, all, at, statements.as_slice())
}

/// Adds the CASE of algorithms that have a label twice.
pub(crate) fn push_repeated_labels(
    alloc: Global,
    all: &mut Vec<Warning>,
    block: usize,
    algorithms: &[Algorithm],
) -> Result<(), AllocError>
    ensures { OnOk result (all.new.items ≡ all.old.items ++ spec.repeated_labels block algorithms.now) }
{
    for (algorithm, entry) in algorithms.iter().enumerate() {
        push_repeated_in(alloc, all, Located { block, algorithm }, entry)?;
    }
    Ok(())
}

/// Adds what conditions of an IF read.
fn push_conditions<'a>(
    reads: &mut Vec<Mention<'a>>,
    choices: &'a [Choice],
) -> Result<(), AllocError>
    ensures { IfOk result (λ _. meant_all reads.new.items ≡ meant_all reads.old.items ++ spec.read_by_conditions (choices_of choices.now)) }
{
    for choice in choices {
        push_expression(reads, &choice.condition)?;
    }
    Ok(())
}

/// Adds what the control of a FOR reads.
fn push_control<'a>(
    reads: &mut Vec<Mention<'a>>,
    variable: &'a Reference,
    start: &'a Expr,
    end: &'a Expr,
    step: &'a Option<Expr>,
) -> Result<(), AllocError>
    ensures { IfOk result (λ _. meant_all reads.new.items ≡ meant_all reads.old.items ++ spec.read_by_control variable.now start.now end.now step.now) }
{
    reads.push(Mention::Variable(variable.name()))?;
    push_expression(reads, start)?;
    push_expression(reads, end)?;
    match step {
        Some(step) => push_expression(reads, step),
        None => Ok(()),
    }
}

/// Adds what a statement reads by itself, without the statements inside it.
fn push_read<'a>(reads: &mut Vec<Mention<'a>>, statement: &'a Stmt) -> Result<(), AllocError>
    ensures { IfOk result (λ _. meant_all reads.new.items ≡ meant_all reads.old.items ++ spec.read_by (stmt_of statement.now)) }
{
    match statement {
        Stmt::Empty | Stmt::Exit | Stmt::Return => Ok(()),
        Stmt::Assign(_, expr) => push_expression(reads, expr),
        Stmt::If(choices, _) => push_conditions(reads, choices.as_slice()),
        Stmt::Case(selector, _, _) => push_expression(reads, selector),
        Stmt::For(variable, start, end, step, _) => {
            push_control(reads, variable, start, end, step)
        }
        Stmt::While(condition, _) | Stmt::Repeat(_, condition) => {
            push_expression(reads, condition)
        }
    }
}

fn push_read_by<'a>(
    reads: &mut Vec<Mention<'a>>,
    statements: &[Standing<'a>],
) -> Result<(), AllocError>
    ensures { IfOk result (λ _. meant_all reads.new.items ≡ meant_all reads.old.items ++ flat_map spec.read_standing (all_standing statements.now)) }
{
    for standing in statements {
        push_read(reads, standing.statement)?;
    }
    Ok(())
}

/// Adds what an algorithm reads.
fn push_read_in<'a>(
    alloc: Global,
    reads: &mut Vec<Mention<'a>>,
    algorithm: &'a Algorithm,
) -> Result<(), AllocError>
    ensures { IfOk result (λ _. meant_all reads.new.items ≡ meant_all reads.old.items ++ spec.read_in algorithm.now) }
{
    let statements = all_statements(alloc, &algorithm.body)?;
    push_read_by(reads, statements.as_slice())
}

/// What algorithms and guards read.
fn reads_of<'a>(
    alloc: Global,
    algorithms: &'a [Algorithm],
    transitions: &'a [Transition],
) -> Result<Vec<Mention<'a>>, AllocError>
    ensures { IfOk result (λ v. meant_all v.items ≡ spec.reads_of algorithms.now transitions.now) }
{
    let mut reads = Vec::new(alloc);
    push_read_algorithms(alloc, &mut reads, algorithms)?;
    push_guards(&mut reads, transitions)?;
    Ok(reads)
}

fn push_read_algorithms<'a>(
    alloc: Global,
    reads: &mut Vec<Mention<'a>>,
    algorithms: &'a [Algorithm],
) -> Result<(), AllocError>
    ensures { IfOk result (λ _. meant_all reads.new.items ≡ meant_all reads.old.items ++ flat_map spec.read_in algorithms.now) }
{
    for algorithm in algorithms {
        push_read_in(alloc, reads, algorithm)?;
    }
    Ok(())
}

/// Adds the internal variables that are not among what is read.
fn push_unread_of(
    all: &mut Vec<Warning>,
    block: usize,
    reads: &[Mention],
    internals: &[Variable],
) -> Result<(), AllocError>
    ensures { OnOk result (all.new.items ≡ all.old.items ++ spec.unread_among block (meant_all reads.now) internals.now) }
{
    for (internal, variable) in internals.iter().enumerate() {
        let is_unread = !is_mentioned(reads, &variable.name);
        push_if(all, is_unread, Warning::UnreadInternal { block, internal })?;
    }
    Ok(())
}

/// Adds the internal variables that no guard and no algorithm reads.
pub(crate) fn push_unread_internals(
    alloc: Global,
    all: &mut Vec<Warning>,
    block: usize,
    basic: &BasicType,
) -> Result<(), AllocError>
    ensures { OnOk result (all.new.items ≡ all.old.items ++ spec.unread_internals block basic.now) }
{
    let internals = basic.internals.as_slice();
    if internals.is_empty() {
        return Ok(());
    }
    let reads = reads_of(
        alloc,
        basic.algorithms.as_slice(),
        basic.transitions.as_slice(),
    )?;
    push_unread_of(all, block, reads.as_slice(), internals)
}
