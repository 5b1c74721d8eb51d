//! Compiles statements.

ghost use Rattle.std.specs.Prelude.{◌≡◌, map, IfOk};
ghost use Rattle.fb_types.specs.Syntax.{Assign, expr_of, step_of, stmt_of};
ghost use Rattle.fb_st.specs.Flows.{branch_of, choice_of};
ghost use Rattle.fb_st.specs.Fitting.{is_long};
ghost use Rattle.fb_st.specs.Made.{SaysAll, SaysBranches, SaysChoices, SaysCount, SaysNumber, SaysStmt};

use crate::compile_expr::{CompileError, compile_number, compile_truth, is_bool};
use crate::compiled::{CompiledBranch, CompiledChoice, CompiledStmt, CountExpr, NumberExpr};
use crate::frame::{least_of_type, most_of_type};
use crate::scope::Scope;
use fb_types::{Body, Boxed, Branch, Choice, Expr, Items, Reference, Stmt, Ty};
use std::alloc::Global;

/// Whether the type holds each number of 64 bits, and no others.
fn is_long(ty: Ty) -> bool
    ensures { result ≡ is_long ty }
{
    matches!(ty, Ty::Lint | Ty::Time)
}

/// An assignment.
fn assignment(
    alloc: Global,
    variable: &Reference,
    expr: &Expr,
    scope: &Scope,
) -> Result<CompiledStmt, CompileError>
    ensures { IfOk result (SaysStmt scope.now.layout.now (Assign variable.now (expr_of expr.now))) }
{
    let Some(slot) = scope.slot(variable.name()) else {
        return Err(CompileError::Unfit);
    };
    let ty = scope.ty(slot);
    if is_bool(ty) {
        let expr = compile_truth(alloc, expr, scope)?;
        return Ok(CompiledStmt::AssignTruth(slot, expr));
    }
    let expr = compile_number(alloc, expr, scope)?;
    if is_long(ty) {
        return Ok(CompiledStmt::AssignLong(slot, expr));
    }
    let (least, most) = (least_of_type(ty), most_of_type(ty));
    Ok(CompiledStmt::AssignWithin(slot, least, most, expr))
}

/// The step of FOR, which is 1 if the text has none.
fn step_number(
    alloc: Global,
    step: &Option<Expr>,
    scope: &Scope,
) -> Result<NumberExpr, CompileError>
    ensures { IfOk result (SaysNumber scope.now.layout.now (step_of step.now)) }
{
    match step {
        Some(expr) => compile_number(alloc, expr, scope),
        None => Ok(NumberExpr::Constant(1)),
    }
}

/// The variable, the start, the end and the step of FOR.
fn count(
    alloc: Global,
    variable: &Reference,
    start: &Expr,
    end: &Expr,
    step: &Option<Expr>,
    scope: &Scope,
) -> Result<CountExpr, CompileError>
    ensures { IfOk result (SaysCount scope.now.layout.now variable.now (expr_of start.now) (expr_of end.now) (step_of step.now)) }
{
    let Some(slot) = scope.slot(variable.name()) else {
        return Err(CompileError::Unfit);
    };
    let ty = scope.ty(slot);
    if is_bool(ty) {
        return Err(CompileError::Unfit);
    }
    Ok(CountExpr {
        slot,
        least: least_of_type(ty),
        most: most_of_type(ty),
        start: compile_number(alloc, start, scope)?,
        end: compile_number(alloc, end, scope)?,
        step: step_number(alloc, step, scope)?,
    })
}

/// Compiles the statements of an algorithm.
///
/// # Errors
/// `CompileError::Unfit` for a text that is not accepted.
pub fn compile_body(
    alloc: Global,
    body: &Body,
    scope: &Scope,
) -> Result<Items<CompiledStmt>, CompileError>
    ensures { IfOk result (SaysAll scope.now.layout.now (map stmt_of body.now.statements)) }
{
    compile_all(alloc, body.statements.as_slice(), scope)
}

#[cycle(compile_stmt)]
fn compile_all(
    alloc: Global,
    statements: &[Stmt],
    scope: &Scope,
) -> Result<Items<CompiledStmt>, CompileError>
    ensures { IfOk result (SaysAll scope.now.layout.now (map stmt_of statements.now)) }
{
    let mut compiled = Items::new(alloc);
    for statement in statements {
        compiled.push(compile_stmt(alloc, statement, scope)?)?;
    }
    Ok(compiled)
}

#[cycle(compile_stmt)]
fn compile_stmt(
    alloc: Global,
    statement: &Stmt,
    scope: &Scope,
) -> Result<CompiledStmt, CompileError>
    ensures { IfOk result (SaysStmt scope.now.layout.now (stmt_of statement.now)) }
{
    match statement {
        Stmt::Empty => Ok(CompiledStmt::Empty),
        Stmt::Exit => Ok(CompiledStmt::Exit),
        Stmt::Return => Ok(CompiledStmt::Return),
        Stmt::Assign(variable, expr) => assignment(alloc, variable, expr, scope),
        Stmt::If(choices, others) => {
            let choices = compile_choices(alloc, choices.as_slice(), scope)?;
            let others = compile_all(alloc, others.as_slice(), scope)?;
            Ok(CompiledStmt::If(choices, others))
        }
        Stmt::Case(selector, branches, others) => {
            let selector = compile_number(alloc, selector, scope)?;
            let branches = compile_branches(alloc, branches.as_slice(), scope)?;
            let others = compile_all(alloc, others.as_slice(), scope)?;
            Ok(CompiledStmt::Case(selector, branches, others))
        }
        Stmt::For(variable, start, end, step, body) => {
            let count = count(alloc, variable, start, end, step, scope)?;
            let count = Boxed::new(alloc, count)?;
            let body = compile_all(alloc, body.as_slice(), scope)?;
            Ok(CompiledStmt::For(count, body))
        }
        Stmt::While(condition, body) => {
            let condition = compile_truth(alloc, condition, scope)?;
            let body = compile_all(alloc, body.as_slice(), scope)?;
            Ok(CompiledStmt::While(condition, body))
        }
        Stmt::Repeat(body, condition) => {
            let body = compile_all(alloc, body.as_slice(), scope)?;
            let condition = compile_truth(alloc, condition, scope)?;
            Ok(CompiledStmt::Repeat(body, condition))
        }
    }
}

#[cycle(compile_stmt)]
fn compile_choices(
    alloc: Global,
    choices: &[Choice],
    scope: &Scope,
) -> Result<Items<CompiledChoice>, CompileError>
    ensures { IfOk result (SaysChoices scope.now.layout.now (map choice_of choices.now)) }
{
    let mut compiled = Items::new(alloc);
    for choice in choices {
        let condition = compile_truth(alloc, &choice.condition, scope)?;
        let body = compile_all(alloc, choice.body.as_slice(), scope)?;
        compiled.push(CompiledChoice { condition, body })?;
    }
    Ok(compiled)
}

#[cycle(compile_stmt)]
fn compile_branches(
    alloc: Global,
    branches: &[Branch],
    scope: &Scope,
) -> Result<Items<CompiledBranch>, CompileError>
    ensures { IfOk result (SaysBranches scope.now.layout.now (map branch_of branches.now)) }
{
    let mut compiled = Items::new(alloc);
    for branch in branches {
        let labels = Items::from_slice(alloc, branch.labels.as_slice())?;
        let body = compile_all(alloc, branch.body.as_slice(), scope)?;
        compiled.push(CompiledBranch { labels, body })?;
    }
    Ok(compiled)
}
