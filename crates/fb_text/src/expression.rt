//! Expressions as texts.

ghost use Rattle.std.specs.Prelude.{◌≡◌, ◌++◌, OnOk, map, true};
ghost use Rattle.fb_text.specs.Expressions as spec;

use crate::pieces::put_value;
use fb_types::{BinaryOperator, Expr, UnaryOperator, Value};
use std::alloc::{AllocError, Global};

/// The text before an operand.
fn unary_text(operator: UnaryOperator) -> &'static [u8]
    ensures { result.now ≡ spec.unary_text operator }
{
    match operator {
        UnaryOperator::Negate => b"-",
        UnaryOperator::Not => b"NOT ",
    }
}

/// The text between two operands.
fn binary_text(operator: BinaryOperator) -> &'static [u8]
    ensures { result.now ≡ spec.binary_text operator }
{
    match operator {
        BinaryOperator::Or => b" OR ",
        BinaryOperator::Xor => b" XOR ",
        BinaryOperator::And => b" AND ",
        BinaryOperator::Equal => b" = ",
        BinaryOperator::NotEqual => b" <> ",
        BinaryOperator::Less => b" < ",
        BinaryOperator::Greater => b" > ",
        BinaryOperator::LessOrEqual => b" <= ",
        BinaryOperator::GreaterOrEqual => b" >= ",
        BinaryOperator::Add => b" + ",
        BinaryOperator::Subtract => b" - ",
        BinaryOperator::Multiply => b" * ",
        BinaryOperator::Divide => b" / ",
        BinaryOperator::Modulo => b" MOD ",
    }
}

/// Adds an expression. It is as it was written, but for blanks, letter case and the forms of literals.
#[cycle(expression)]
pub fn put_expression(alloc: Global, text: &mut Vec<u8>, expr: &Expr) -> Result<(), AllocError>
    ensures { OnOk result (text.new.items ≡ text.old.items ++ spec.expression_text expr.now) }
{
    match expr {
        Expr::Whole(number) => put_value(alloc, text, Value::Whole(*number)),
        Expr::Truth(truth) => put_value(alloc, text, Value::Bool(*truth)),
        Expr::Variable(variable) => text.extend_from_slice(variable.name().as_bytes()),
        Expr::Group(inner) => {
            text.extend_from_slice(b"(")?;
            put_expression(alloc, text, inner.get())?;
            text.extend_from_slice(b")")
        }
        Expr::Unary(operator, operand) => {
            text.extend_from_slice(unary_text(*operator))?;
            put_expression(alloc, text, operand.get())
        }
        Expr::Binary(operator, left, right) => {
            put_expression(alloc, text, left.get())?;
            text.extend_from_slice(binary_text(*operator))?;
            put_expression(alloc, text, right.get())
        }
        Expr::Call(name, arguments) => {
            text.extend_from_slice(name.as_bytes())?;
            text.extend_from_slice(b"(")?;
            put_arguments(alloc, text, arguments.as_slice())?;
            text.extend_from_slice(b")")
        }
    }
}

/// Adds what comes before an argument: nothing before the first.
fn put_separator(text: &mut Vec<u8>, is_first: bool) -> Result<(), AllocError>
    ensures { OnOk result (text.new.items ≡ text.old.items ++ spec.separator is_first) }
{
    if is_first {
        Ok(())
    } else {
        text.extend_from_slice(b", ")
    }
}

/// Adds arguments, with commas between them.
#[cycle(expression)]
fn put_arguments(alloc: Global, text: &mut Vec<u8>, arguments: &[Expr]) -> Result<(), AllocError>
    ensures { OnOk result (text.new.items ≡ text.old.items ++ spec.arguments_text true (map spec.expression_text arguments.now)) }
{
    let mut is_first = true;
    for argument in arguments {
        put_separator(text, is_first)?;
        put_expression(alloc, text, argument)?;
        is_first = false;
    }
    Ok(())
}
