//! Variables and functions that guards and algorithms name.

ghost use Rattle.std.specs.Prelude.{◌≡◌, ◌∷◌, ◌++◌, [], IfOk};
ghost use Rattle.fb_types.specs.Syntax.{body_of, expr_of, stmt_of};
ghost use Rattle.fb_types.specs.Unknown.{OfVariable, is_known, mentions, mentions_all, mentions_body, mentions_branches, mentions_choices, mentions_in};
ghost use Rattle.fb_check.specs.types.Trees.{all_of, arguments_of, branches_of, choices_of};
ghost use Rattle.fb_check.specs.types.Mentions.{meant, meant_all, mentions_of_control, mentions_of_step};

use crate::types::adding::push_one;
use crate::types::scope::Scope;
use fb_types::{Body, Branch, Choice, Expr, Function, Items, Name, Reference, Stmt};
use std::alloc::{AllocError, Global};

/// A variable or a function that a text names.
#[derive(Clone, Copy)]
pub enum Mention<'a> {
    Variable(&'a Name),
    Function(&'a Name),
}

/// Adds a variable or a function.
fn push_mention<'a>(all: &mut Vec<Mention<'a>>, mention: Mention<'a>) -> Result<(), AllocError>
    ensures { IfOk result (λ _. meant_all all.new.items ≡ meant_all all.old.items ++ (meant mention.entry ∷ [])) }
{
    push_one(all, mention)
}

/// Adds what an expression names, in the order of the text.
#[cycle(expression)]
pub fn push_expression<'a>(all: &mut Vec<Mention<'a>>, expr: &'a Expr) -> Result<(), AllocError>
    ensures { IfOk result (λ _. meant_all all.new.items ≡ meant_all all.old.items ++ mentions (expr_of expr.now)) }
{
    match expr {
        Expr::Whole(_) | Expr::Truth(_) => Ok(()),
        Expr::Variable(variable) => push_mention(all, Mention::Variable(variable.name())),
        Expr::Group(inner) => push_expression(all, inner.get()),
        Expr::Unary(_, operand) => push_expression(all, operand.get()),
        Expr::Binary(_, left, right) => {
            push_expression(all, left.get()).and(push_expression(all, right.get()))
        }
        Expr::Call(name, arguments) => {
            push_mention(all, Mention::Function(name)).and(push_arguments(all, arguments))
        }
    }
}

#[cycle(expression)]
fn push_arguments<'a>(
    all: &mut Vec<Mention<'a>>,
    arguments: &'a Items<Expr>,
) -> Result<(), AllocError>
    ensures { IfOk result (λ _. meant_all all.new.items ≡ meant_all all.old.items ++ mentions_all (arguments_of arguments.now)) }
{
    for argument in arguments.as_slice() {
        push_expression(all, argument)?;
    }
    Ok(())
}

/// The same for the step of FOR, if there is one.
fn push_step<'a>(all: &mut Vec<Mention<'a>>, step: &'a Option<Expr>) -> Result<(), AllocError>
    ensures { IfOk result (λ _. meant_all all.new.items ≡ meant_all all.old.items ++ mentions_of_step step.now) }
{
    match step {
        Some(step) => push_expression(all, step),
        None => Ok(()),
    }
}

/// The same for what controls a FOR: its variable, start, end and step.
fn push_control<'a>(
    all: &mut Vec<Mention<'a>>,
    variable: &'a Reference,
    start: &'a Expr,
    end: &'a Expr,
    step: &'a Option<Expr>,
) -> Result<(), AllocError>
    ensures { IfOk result (λ _. meant_all all.new.items ≡ meant_all all.old.items ++ mentions_of_control variable.now start.now end.now step.now) }
{
    push_mention(all, Mention::Variable(variable.name()))
        .and(push_expression(all, start))
        .and(push_expression(all, end))
        .and(push_step(all, step))
}

/// The same for an assignment: its variable and what is assigned.
fn push_assignment<'a>(
    all: &mut Vec<Mention<'a>>,
    variable: &'a Reference,
    expr: &'a Expr,
) -> Result<(), AllocError>
    ensures { IfOk result (λ _. meant_all all.new.items ≡ meant_all all.old.items ++ (OfVariable variable.now ∷ mentions (expr_of expr.now))) }
{
    push_mention(all, Mention::Variable(variable.name())).and(push_expression(all, expr))
}

/// Adds what the statements of an algorithm name, in the order of the definitions.
pub fn push_body<'a>(all: &mut Vec<Mention<'a>>, body: &'a Body) -> Result<(), AllocError>
    ensures { IfOk result (λ _. meant_all all.new.items ≡ meant_all all.old.items ++ mentions_body (body_of body.now)) }
{
    push_statements(all, &body.statements)
}

#[cycle(statement)]
fn push_statement<'a>(all: &mut Vec<Mention<'a>>, statement: &'a Stmt) -> Result<(), AllocError>
    ensures { IfOk result (λ _. meant_all all.new.items ≡ meant_all all.old.items ++ mentions_in (stmt_of statement.now)) }
{
    match statement {
        Stmt::Empty | Stmt::Exit | Stmt::Return => Ok(()),
        Stmt::Assign(variable, expr) => push_assignment(all, variable, expr),
        Stmt::If(choices, others) => {
            push_choices(all, choices).and(push_statements(all, others))
        }
        Stmt::Case(selector, branches, others) => {
            push_expression(all, selector)
                .and(push_branches(all, branches))
                .and(push_statements(all, others))
        }
        Stmt::For(variable, start, end, step, body) => {
            push_control(all, variable, start, end, step).and(push_statements(all, body))
        }
        Stmt::While(condition, body) => {
            push_expression(all, condition).and(push_statements(all, body))
        }
        Stmt::Repeat(body, condition) => {
            push_statements(all, body).and(push_expression(all, condition))
        }
    }
}

#[cycle(statement)]
fn push_statements<'a>(
    all: &mut Vec<Mention<'a>>,
    statements: &'a Items<Stmt>,
) -> Result<(), AllocError>
    ensures { IfOk result (λ _. meant_all all.new.items ≡ meant_all all.old.items ++ mentions_body (all_of statements.now)) }
{
    for statement in statements.as_slice() {
        push_statement(all, statement)?;
    }
    Ok(())
}

#[cycle(statement)]
fn push_choices<'a>(
    all: &mut Vec<Mention<'a>>,
    choices: &'a Items<Choice>,
) -> Result<(), AllocError>
    ensures { IfOk result (λ _. meant_all all.new.items ≡ meant_all all.old.items ++ mentions_choices (choices_of choices.now)) }
{
    for choice in choices.as_slice() {
        push_expression(all, &choice.condition)?;
        push_statements(all, &choice.body)?;
    }
    Ok(())
}

#[cycle(statement)]
fn push_branches<'a>(
    all: &mut Vec<Mention<'a>>,
    branches: &'a Items<Branch>,
) -> Result<(), AllocError>
    ensures { IfOk result (λ _. meant_all all.new.items ≡ meant_all all.old.items ++ mentions_branches (branches_of branches.now)) }
{
    for branch in branches.as_slice() {
        push_statements(all, &branch.body)?;
    }
    Ok(())
}

/// Whether a variable is one of the type, or a function is known.
pub fn is_mention_known(scope: &Scope, mention: &Mention) -> bool
    ensures { result ≡ is_known scope.now (meant mention.now) }
{
    match mention {
        Mention::Variable(name) => scope.is_variable(name),
        Mention::Function(name) => Function::named(name).is_some(),
    }
}
