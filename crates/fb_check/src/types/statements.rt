//! Statements of algorithms, and those with a part of the wrong kind (IEC 61131-3, 7.3.3).

ghost use Rattle.std.specs.Prelude.{◌≡◌, ◌++◌, IfOk, true, false};
ghost use Rattle.fb_types.specs.Kinds.{context_in};
ghost use Rattle.fb_types.specs.Syntax.{Assign, For, body_of, expr_of, no_stmt, stmt_of, step_of};
ghost use Rattle.fb_check.specs.types.Checks.{in_place};
ghost use Rattle.fb_check.specs.types.Trees.{all_of, branches_of, choices_of};
ghost use Rattle.fb_check_names.specs.Listed.{each_at, unless};
ghost use Rattle.fb_check.specs.types.KindWrongLists.{kinds_wrong_in_body, kinds_wrong_in_statement, part_at, wrong_choices, wrong_control, wrong_parts};
ghost use Rattle.fb_check.specs.types.Statements.{all_standing, each_in_body, each_in_branches, each_in_choices, each_inside, standing_of};

use crate::types::adding::push_one;
use crate::types::{Scope, Typing, are_same, is_step_whole, value_kind_of_type};
use fb_check_names::{KindWrongAt, StatementPart, push_unless};
use fb_types::{Algorithm, Body, Branch, Choice, Expr, Items, Reference, Stmt, ValueKind};
use std::alloc::{AllocError, Global};

/// A statement, and whether it is in a loop.
#[derive(Clone, Copy)]
pub struct Standing<'a> {
    /// The statement.
    pub statement: &'a Stmt,
    /// Set if it is in a loop.
    pub in_loop: bool,
}

/// Adds statements, including those inside them, in the order in which they begin in the text.
#[cycle(statement)]
fn push_statements<'a>(
    all: &mut Vec<Standing<'a>>,
    statements: &'a Items<Stmt>,
    in_loop: bool,
) -> Result<(), AllocError>
    ensures { IfOk result (λ _. all_standing all.new.items ≡ all_standing all.old.items ++ each_in_body in_loop (all_of statements.now)) }
{
    for statement in statements.as_slice() {
        push_one(all, Standing { statement, in_loop })?;
        push_inside(all, statement, in_loop)?;
    }
    Ok(())
}

/// Adds the statements inside of a statement.
#[cycle(statement)]
fn push_inside<'a>(
    all: &mut Vec<Standing<'a>>,
    statement: &'a Stmt,
    in_loop: bool,
) -> Result<(), AllocError>
    ensures { IfOk result (λ _. all_standing all.new.items ≡ all_standing all.old.items ++ each_inside in_loop (stmt_of statement.now)) }
{
    match statement {
        Stmt::Empty | Stmt::Exit | Stmt::Return | Stmt::Assign(_, _) => Ok(()),
        Stmt::If(choices, others) => {
            push_choices(all, choices, in_loop).and(push_statements(all, others, in_loop))
        }
        Stmt::Case(_, branches, others) => {
            push_branches(all, branches, in_loop).and(push_statements(all, others, in_loop))
        }
        Stmt::For(_, _, _, _, body) | Stmt::While(_, body) | Stmt::Repeat(body, _) => {
            push_statements(all, body, true)
        }
    }
}

#[cycle(statement)]
fn push_choices<'a>(
    all: &mut Vec<Standing<'a>>,
    choices: &'a Items<Choice>,
    in_loop: bool,
) -> Result<(), AllocError>
    ensures { IfOk result (λ _. all_standing all.new.items ≡ all_standing all.old.items ++ each_in_choices in_loop (choices_of choices.now)) }
{
    for choice in choices.as_slice() {
        push_statements(all, &choice.body, in_loop)?;
    }
    Ok(())
}

#[cycle(statement)]
fn push_branches<'a>(
    all: &mut Vec<Standing<'a>>,
    branches: &'a Items<Branch>,
    in_loop: bool,
) -> Result<(), AllocError>
    ensures { IfOk result (λ _. all_standing all.new.items ≡ all_standing all.old.items ++ each_in_branches in_loop (branches_of branches.now)) }
{
    for branch in branches.as_slice() {
        push_statements(all, &branch.body, in_loop)?;
    }
    Ok(())
}

/// All statements of an algorithm, in the order in which they begin in the text.
pub fn all_statements(alloc: Global, body: &Body) -> Result<Vec<Standing>, AllocError>
    ensures { IfOk result (λ r. all_standing r.items ≡ each_in_body false (body_of body.now)) }
{
    let mut all = Vec::new(alloc);
    push_statements(&mut all, &body.statements, false).and(Ok(all))
}

/// A statement of an algorithm of a block type, by its indexes.
#[derive(Clone, Copy)]
pub struct StatementIndex {
    /// The index of the block type.
    pub block: usize,
    /// The index of the algorithm.
    pub algorithm: usize,
    /// The index of the statement, counted as statements begin in the text.
    pub statement: usize,
}

/// Adds a part of a statement, unless it is right.
fn push_part(
    found: &mut Vec<KindWrongAt>,
    at: StatementIndex,
    is_right: bool,
    part: StatementPart,
) -> Result<(), AllocError>
    ensures { IfOk result (λ _. found.new.items ≡ found.old.items ++ unless is_right (part_at at part)) }
{
    let location = KindWrongAt::Statement {
        block: at.block,
        algorithm: at.algorithm,
        statement: at.statement,
        part,
    };
    push_unless(found, is_right, location)
}

/// Adds the conditions of IF and its ELSIFs that are not truth values.
fn push_choice_parts(
    found: &mut Vec<KindWrongAt>,
    scope: &Scope,
    at: StatementIndex,
    choices: &[Choice],
) -> Result<(), AllocError>
    ensures { IfOk result (λ _. found.new.items ≡ found.old.items ++ wrong_choices (part_at at) (context_in scope.now) 0 (choices_of choices.now)) }
{
    for (index, choice) in choices.iter().enumerate() {
        let is_right = scope.has_kind(ValueKind::TruthValue, &choice.condition);
        push_part(found, at, is_right, StatementPart::Choice(index))?;
    }
    Ok(())
}

/// Adds what is wrong with an assignment.
fn push_assignment_parts(
    found: &mut Vec<KindWrongAt>,
    scope: &Scope,
    at: StatementIndex,
    variable: &Reference,
    expr: &Expr,
) -> Result<(), AllocError>
    ensures { IfOk result (λ _. found.new.items ≡ found.old.items ++ wrong_parts (part_at at) (context_in scope.now) (Assign variable.now (expr_of expr.now))) }
{
    let is_assignable = !scope.is_input(variable.name());
    push_part(found, at, is_assignable, StatementPart::Assigned)?;
    let kind = value_kind_of_type(scope.type_of(variable.name()));
    let is_of_kind = scope.has_kind(kind, expr);
    push_part(found, at, is_of_kind, StatementPart::Value)
}

/// Adds what is wrong with the variable that controls a FOR.
fn push_control_parts(
    found: &mut Vec<KindWrongAt>,
    scope: &Scope,
    at: StatementIndex,
    variable: &Reference,
) -> Result<(), AllocError>
    ensures { IfOk result (λ _. found.new.items ≡ found.old.items ++ wrong_control (part_at at) (context_in scope.now) variable.now) }
{
    let is_assignable = !scope.is_input(variable.name());
    push_part(found, at, is_assignable, StatementPart::Assigned)?;
    let kind = value_kind_of_type(scope.type_of(variable.name()));
    let is_number = are_same(ValueKind::WholeNumber, kind);
    push_part(found, at, is_number, StatementPart::Control)
}

/// Adds what is wrong with a FOR, except for the statements inside it.
fn push_for_parts(
    found: &mut Vec<KindWrongAt>,
    scope: &Scope,
    at: StatementIndex,
    variable: &Reference,
    start: &Expr,
    end: &Expr,
    step: &Option<Expr>,
) -> Result<(), AllocError>
    ensures { IfOk result (λ _. found.new.items ≡ found.old.items ++ wrong_parts (part_at at) (context_in scope.now) (For variable.now (expr_of start.now) (expr_of end.now) (step_of step.now) no_stmt)) }
{
    let is_start_whole = scope.has_kind(ValueKind::WholeNumber, start);
    let is_end_whole = scope.has_kind(ValueKind::WholeNumber, end);
    let is_step_whole = is_step_whole(step, scope);
    push_control_parts(found, scope, at, variable)
        .and(push_part(found, at, is_start_whole, StatementPart::Start))
        .and(push_part(found, at, is_end_whole, StatementPart::End))
        .and(push_part(found, at, is_step_whole, StatementPart::Step))
}

/// Adds the wrong parts of a statement, except for the statements inside it.
fn push_parts(
    found: &mut Vec<KindWrongAt>,
    scope: &Scope,
    at: StatementIndex,
    standing: &Standing,
) -> Result<(), AllocError>
    ensures { IfOk result (λ _. found.new.items ≡ found.old.items ++ wrong_parts (part_at at) (in_place scope.now standing.now.in_loop) (stmt_of standing.now.statement.now)) }
{
    match standing.statement {
        Stmt::Empty | Stmt::Return => Ok(()),
        Stmt::Exit => push_part(found, at, standing.in_loop, StatementPart::Exit),
        Stmt::Assign(variable, expr) => push_assignment_parts(found, scope, at, variable, expr),
        Stmt::If(choices, _) => push_choice_parts(found, scope, at, choices.as_slice()),
        Stmt::Case(selector, _, _) => {
            let is_number = scope.has_kind(ValueKind::WholeNumber, selector);
            push_part(found, at, is_number, StatementPart::Selector)
        }
        Stmt::For(variable, start, end, step, _) => {
            push_for_parts(found, scope, at, variable, start, end, step)
        }
        Stmt::While(condition, _) => {
            let is_right = scope.has_kind(ValueKind::TruthValue, condition);
            push_part(found, at, is_right, StatementPart::Condition)
        }
        Stmt::Repeat(_, condition) => {
            let is_right = scope.has_kind(ValueKind::TruthValue, condition);
            push_part(found, at, is_right, StatementPart::Until)
        }
    }
}

/// The same for statements of an algorithm.
fn push_in_statements(
    found: &mut Vec<KindWrongAt>,
    scope: &Scope,
    block: usize,
    algorithm: usize,
    statements: &[Standing],
) -> Result<(), AllocError>
    ensures { IfOk result (λ _. found.new.items ≡ found.old.items ++ each_at (λ k s. kinds_wrong_in_statement scope.now block algorithm k (standing_of s)) statements.now) }
{
    for (statement, standing) in statements.iter().enumerate() {
        let at = StatementIndex {
            block,
            algorithm,
            statement,
        };
        push_parts(found, scope, at, standing)?;
    }
    Ok(())
}

/// Adds the statements of an algorithm with a wrong part.
pub fn push_in_body(
    alloc: Global,
    found: &mut Vec<KindWrongAt>,
    scope: &Scope,
    block: usize,
    algorithm: usize,
    declared: &Algorithm,
) -> Result<(), AllocError>
    ensures { IfOk result (λ _. found.new.items ≡ found.old.items ++ kinds_wrong_in_body scope.now block algorithm declared.now) }
{
    let statements = all_statements(alloc, &declared.body)?;
    push_in_statements(found, scope, block, algorithm, statements.as_slice())
}
