//! The texts for an operation whose operands are of a wrong kind, and for a call with another number of arguments (E22).

use crate::mismatch::{Mismatch, argument_count};
use fb_check::types::value_kind_of;
use fb_read_positions::Text;
use fb_text::put_expression;
use fb_types::{BasicType, Expr, Function, Name, ValueKind};
use std::alloc::Global;

/// Adds words and an expression.
fn push_written(alloc: Global, text: &mut Text, before: &str, expr: &Expr) {
    let mut written = Vec::new(alloc);
    text.words(before);
    match put_expression(alloc, &mut written, expr) {
        Ok(()) => text.shown(written.as_slice()),
        Err(_) => text.give_up(),
    }
}

/// Adds an operand after words, and its kind.
fn push_operand(alloc: Global, text: &mut Text, before: &str, operand: &Expr, kind: ValueKind) {
    push_written(alloc, text, before, operand);
    text.words(match kind {
        ValueKind::TruthValue => " is a truth value",
        ValueKind::WholeNumber => " is a number",
    });
}

/// Adds how a number that stands for a truth value is written.
pub(crate) fn push_truth(text: &mut Text, operand: &Expr) {
    match operand {
        Expr::Whole(0) => text.words(" (0 is written FALSE)"),
        Expr::Whole(1) => text.words(" (1 is written TRUE)"),
        _ => {}
    }
}

/// Adds that two operands are of different kinds.
fn push_unlike(alloc: Global, text: &mut Text, basic: &BasicType, left: &Expr, right: &Expr) {
    if let (Some(left_kind), Some(right_kind)) = (
        value_kind_of(left, basic),
        value_kind_of(right, basic),
    ) {
        push_operand(alloc, text, ": ", left, left_kind);
        push_operand(alloc, text, ", and ", right, right_kind);
        push_truth(text, left);
        push_truth(text, right);
    }
}

/// Adds that a call has this number of arguments, and how many are expected.
fn push_count(text: &mut Text, required: usize, count: usize) {
    text.numbered(
        ": ",
        required,
        if required == 1 {
            " argument is expected"
        } else {
            " arguments are expected"
        },
    );
    text.numbered(
        if count == 1 {
            ", and there is "
        } else {
            ", and there are "
        },
        count,
        "",
    );
}

/// Adds what is wrong with a call of which no argument is wrong by itself.
fn push_call(alloc: Global, text: &mut Text, basic: &BasicType, name: &Name, arguments: &[Expr]) {
    let Some(function) = Function::named(name) else {
        return;
    };
    let required = argument_count(function);
    match arguments {
        [_, first, second] if required == 3 => push_unlike(alloc, text, basic, first, second),
        _ => push_count(text, required, arguments.len()),
    }
}

/// Adds what is wrong with an operation of which no operand is wrong by itself.
fn push_operation(alloc: Global, text: &mut Text, basic: &BasicType, operation: &Expr) {
    match operation {
        Expr::Binary(_, left, right) => {
            push_unlike(alloc, text, basic, left.get(), right.get());
        }
        Expr::Call(name, arguments) => {
            push_call(alloc, text, basic, name, arguments.as_slice());
        }
        _ => {}
    }
}

/// Adds an operation, and what is wrong with it: an operand of another kind than it takes, or the operands together.
pub(crate) fn push_mismatch(alloc: Global, text: &mut Text, basic: &BasicType, found: Mismatch) {
    push_written(alloc, text, "", found.operation);
    match value_kind_of(found.marked, basic) {
        Some(kind) => {
            let expected = match kind {
                ValueKind::TruthValue => ": a number is expected, and ",
                ValueKind::WholeNumber => ": a truth value is expected, and ",
            };
            push_operand(alloc, text, expected, found.marked, kind);
            push_truth(text, found.marked);
        }
        None => push_operation(alloc, text, basic, found.operation),
    }
}
