//! Constants that their variable can't hold (L17), and divisions by the constant 0 (L18).

ghost use Rattle.std.specs.Prelude.{◌≡◌, ◌++◌, ◌||◌, OnOk};
ghost use Rattle.std.specs.List.{list_any};
ghost use Rattle.fb_types.specs.Syntax.{expr_of, stmt_of};
ghost use Rattle.fb_check.specs.types.Statements.{all_standing, standing_of};
ghost use Rattle.fb_check.specs.types.Trees.{arguments_of, choices_of};
ghost use Rattle.fb_lint.specs.Constants as spec;

use crate::findings::push_if;
use crate::warning::Warning;
use fb_check::types::{Standing, all_statements};
use fb_types::{
    Algorithm, BasicType, BinaryOperator, Choice, Expr, Items, Name, Stmt, Transition,
    UnaryOperator, Value, Variable,
};
use std::alloc::{AllocError, Global};

/// The number with the sign of the operator, if it has one.
fn signed(operator: UnaryOperator, operand: Option<i128>) -> Option<i128>
    ensures { result ≡ spec.signed operator operand }
{
    match operator {
        UnaryOperator::Negate => operand?.checked_neg(),
        UnaryOperator::Not => None,
    }
}

/// The value of a number, also after signs and in parentheses.
fn constant(expr: &Expr) -> Option<i128>
    ensures { result ≡ spec.constant (expr_of expr.now) }
{
    match expr {
        Expr::Whole(number) => Some(*number),
        Expr::Truth(_) | Expr::Variable(_) | Expr::Binary(_, _, _) | Expr::Call(_, _) => None,
        Expr::Group(inner) => constant(inner.get()),
        Expr::Unary(operator, operand) => signed(*operator, constant(operand.get())),
    }
}

fn is_zero(expr: &Expr) -> bool
    ensures { result ≡ spec.is_zero (expr_of expr.now) }
{
    constant(expr) == Some(0)
}

fn is_division(operator: BinaryOperator) -> bool
    ensures { result ≡ spec.is_division operator }
{
    match operator {
        BinaryOperator::Divide | BinaryOperator::Modulo => true,
        _ => false,
    }
}

/// Whether an operation divides by the constant 0.
fn is_zero_division(operator: BinaryOperator, right: &Expr) -> bool
    ensures { result ≡ spec.is_zero_division operator (expr_of right.now) }
{
    is_division(operator) && is_zero(right)
}

/// Whether one of three holds.
fn any_of(first: bool, second: bool, third: bool) -> bool
    ensures { result ≡ (first || second || third) }
{
    first || second || third
}

/// Whether an expression has a division by the constant 0.
#[cycle(division)]
fn divides_by_zero(expr: &Expr) -> bool
    ensures { result ≡ spec.divides_by_zero (expr_of expr.now) }
{
    match expr {
        Expr::Whole(_) | Expr::Truth(_) | Expr::Variable(_) => false,
        Expr::Group(inner) => divides_by_zero(inner.get()),
        Expr::Unary(_, operand) => divides_by_zero(operand.get()),
        Expr::Binary(operator, left, right) => {
            let here = is_zero_division(*operator, right.get());
            any_of(
                here,
                divides_by_zero(left.get()),
                divides_by_zero(right.get()),
            )
        }
        Expr::Call(_, arguments) => some_divides(arguments),
    }
}

#[cycle(division)]
fn some_divides(arguments: &Items<Expr>) -> bool
    ensures { result ≡ spec.some_divides (arguments_of arguments.now) }
{
    for argument in arguments.as_slice() {
        if divides_by_zero(argument) {
            return true;
        }
    }
    false
}

fn condition_divides(choices: &[Choice]) -> bool
    ensures { result ≡ spec.condition_divides (choices_of choices.now) }
{
    for choice in choices {
        if divides_by_zero(&choice.condition) {
            return true;
        }
    }
    false
}

/// The same for the step of a FOR, if there is one.
fn step_divides(step: &Option<Expr>) -> bool
    ensures { result ≡ spec.step_divides step.now }
{
    match step {
        Some(step) => divides_by_zero(step),
        None => false,
    }
}

/// Whether a statement by itself divides by the constant 0.
fn divides_in(statement: &Stmt) -> bool
    ensures { result ≡ spec.divides_in (stmt_of statement.now) }
{
    match statement {
        Stmt::Empty | Stmt::Exit | Stmt::Return => false,
        Stmt::Assign(_, expr) => divides_by_zero(expr),
        Stmt::If(choices, _) => condition_divides(choices.as_slice()),
        Stmt::Case(selector, _, _) => divides_by_zero(selector),
        Stmt::For(_, start, end, step, _) => {
            any_of(
                divides_by_zero(start),
                divides_by_zero(end),
                step_divides(step),
            )
        }
        Stmt::While(condition, _) | Stmt::Repeat(_, condition) => divides_by_zero(condition),
    }
}

/// Whether one of the variables has the name and can't hold the number.
fn has_narrow(variables: &[Variable], name: &Name, number: i128) -> bool
    ensures { result ≡ list_any (spec.is_narrow name.now number) variables.now }
{
    for variable in variables {
        if name.is(&variable.name) && !variable.ty.holds(Value::Whole(number)) {
            return true;
        }
    }
    false
}

/// Whether the variable with the name can't hold the number.
fn is_too_large(basic: &BasicType, name: &Name, number: i128) -> bool
    ensures { result ≡ spec.is_too_large basic.now name.now number }
{
    has_narrow(basic.ports.outputs.as_slice(), name, number)
        || has_narrow(basic.internals.as_slice(), name, number)
}

/// Whether there is a number, and the variable with the name can't hold it.
fn overflows(basic: &BasicType, name: &Name, constant: Option<i128>) -> bool
    ensures { result ≡ spec.constant_too_large basic.now name.now constant }
{
    match constant {
        Some(number) => is_too_large(basic, name, number),
        None => false,
    }
}

/// Whether a statement assigns a constant that its variable can't hold; of FOR the start.
fn assigns_too_large(basic: &BasicType, statement: &Stmt) -> bool
    ensures { result ≡ spec.assigns_too_large basic.now (stmt_of statement.now) }
{
    match statement {
        Stmt::Assign(variable, expr) => overflows(basic, variable.name(), constant(expr)),
        Stmt::For(variable, start, _, _, _) => overflows(basic, variable.name(), constant(start)),
        Stmt::Empty
        | Stmt::Exit
        | Stmt::Return
        | Stmt::If(_, _)
        | Stmt::Case(_, _, _)
        | Stmt::While(_, _)
        | Stmt::Repeat(_, _) => false,
    }
}

/// An algorithm of a basic type, by its index.
#[derive(Clone, Copy)]
struct Located<'a> {
    basic: &'a BasicType,
    block: usize,
    algorithm: usize,
}

/// Adds the statements of an algorithm that assign constants which their variables can't hold, or divide by 0.
fn push_constants(
    all: &mut Vec<Warning>,
    at: &Located<'_>,
    statements: &[Standing],
) -> Result<(), AllocError>
    ensures { OnOk result (all.new.items ≡ all.old.items ++ spec.constants_among at.now.basic.now at.now.block at.now.algorithm (all_standing statements.now)) }
{
    for (statement, standing) in statements.iter().enumerate() {
        push_constants_of(all, at, statement, standing)?;
    }
    Ok(())
}

fn push_constants_of(
    all: &mut Vec<Warning>,
    at: &Located<'_>,
    statement: usize,
    standing: &Standing,
) -> Result<(), AllocError>
    ensures { OnOk result (all.new.items ≡ all.old.items ++ spec.constants_of at.now.basic.now at.now.block at.now.algorithm statement (standing_of standing.now)) }
{
    let (block, algorithm) = (at.block, at.algorithm);
    let warning = Warning::UnheldConstant {
        block,
        algorithm,
        statement,
    };
    push_if(
        all,
        assigns_too_large(at.basic, standing.statement),
        warning,
    )?;
    let warning = Warning::ZeroDivisor {
        block,
        algorithm,
        statement,
    };
    push_if(all, divides_in(standing.statement), warning)
}

fn push_constants_in(
    alloc: Global,
    all: &mut Vec<Warning>,
    at: &Located<'_>,
    algorithm: &Algorithm,
) -> Result<(), AllocError>
    ensures { OnOk result (all.new.items ≡ all.old.items ++ spec.constants_in at.now.basic.now at.now.block at.now.algorithm algorithm.now) }
{
    let statements = all_statements(alloc, &algorithm.body)?;
    push_constants(all, at, statements.as_slice())
}

/// Adds the same for all algorithms of a basic type.
fn push_constants_of_algorithms(
    alloc: Global,
    all: &mut Vec<Warning>,
    block: usize,
    basic: &BasicType,
    algorithms: &[Algorithm],
) -> Result<(), AllocError>
    ensures { OnOk result (all.new.items ≡ all.old.items ++ spec.constants_of_algorithms basic.now block algorithms.now) }
{
    for (algorithm, entry) in algorithms.iter().enumerate() {
        let at = Located {
            basic,
            block,
            algorithm,
        };
        push_constants_in(alloc, all, &at, entry)?;
    }
    Ok(())
}

/// Whether the guard of a transition divides by the constant 0.
fn guard_divides(transition: &Transition) -> bool
    ensures { result ≡ spec.guard_divides transition.now }
{
    match &transition.condition.guard {
        Some(guard) => divides_by_zero(guard),
        None => false,
    }
}

/// Adds the transitions whose guards divide by the constant 0.
fn push_dividing_guards(
    all: &mut Vec<Warning>,
    block: usize,
    transitions: &[Transition],
) -> Result<(), AllocError>
    ensures { OnOk result (all.new.items ≡ all.old.items ++ spec.dividing_guards block transitions.now) }
{
    for (transition, entry) in transitions.iter().enumerate() {
        let warning = Warning::ZeroDivisorInGuard { block, transition };
        push_if(all, guard_divides(entry), warning)?;
    }
    Ok(())
}

/// Adds the statements and the guards of a basic type with constants that are mistakes.
pub(crate) fn push_of_constants(
    alloc: Global,
    all: &mut Vec<Warning>,
    block: usize,
    basic: &BasicType,
) -> Result<(), AllocError>
    ensures { OnOk result (all.new.items ≡ all.old.items ++ spec.of_constants block basic.now) }
{
    push_dividing_guards(all, block, basic.transitions.as_slice())?;
    push_constants_of_algorithms(alloc, all, block, basic, basic.algorithms.as_slice())
}
