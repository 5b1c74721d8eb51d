//! The type of the variable to which a statement assigns a value.

use crate::number::{after, after_all, next};
use fb_types::{BasicType, Body, Branch, Choice, Name, Stmt, Ty, Variable};

/// The type of the variable that has the name.
fn type_among(variables: &[Variable], name: &Name) -> Option<Ty> {
    for variable in variables {
        if variable.name.is(name) {
            return Some(variable.ty);
        }
    }
    None
}

/// The type of the variable of a block that has the name.
fn type_of(block: &BasicType, name: &Name) -> Option<Ty> {
    let ports = &block.ports;
    type_among(ports.inputs.as_slice(), name)
        .or(type_among(ports.outputs.as_slice(), name))
        .or(type_among(block.internals.as_slice(), name))
}

/// The type of the variable that the statement of a number assigns, in a statement that has the number `at`.
#[cycle(assigned)]
fn in_statement(statement: &Stmt, at: usize, number: usize, block: &BasicType) -> Option<Ty> {
    let inside = next(at);
    match statement {
        Stmt::Empty | Stmt::Exit | Stmt::Return => None,
        Stmt::Assign(variable, _) => type_of(block, variable.name()),
        Stmt::If(choices, others) => in_choices(
            choices.as_slice(),
            others.as_slice(),
            inside,
            number,
            block,
        ),
        Stmt::Case(_, branches, others) => in_branches(
            branches.as_slice(),
            others.as_slice(),
            inside,
            number,
            block,
        ),
        Stmt::For(variable, _, _, _, body) => {
            if number == at {
                return type_of(block, variable.name());
            }
            in_list(body.as_slice(), inside, number, block)
        }
        Stmt::While(_, body) => in_list(body.as_slice(), inside, number, block),
        Stmt::Repeat(body, _) => in_list(body.as_slice(), inside, number, block),
    }
}

/// The same in statements, of which the first has a number.
#[cycle(assigned)]
fn in_list(statements: &[Stmt], first: usize, number: usize, block: &BasicType) -> Option<Ty> {
    let mut at = first;
    for statement in statements {
        let then = after(statement, at);
        if number < then {
            return in_statement(statement, at, number, block);
        }
        at = then;
    }
    None
}

/// The same in the statements of an IF.
#[cycle(assigned)]
fn in_choices(
    choices: &[Choice],
    others: &[Stmt],
    first: usize,
    number: usize,
    block: &BasicType,
) -> Option<Ty> {
    let mut at = first;
    for choice in choices {
        let then = after_all(choice.body.as_slice(), at);
        if number < then {
            return in_list(choice.body.as_slice(), at, number, block);
        }
        at = then;
    }
    in_list(others, at, number, block)
}

/// The same in the statements of a CASE.
#[cycle(assigned)]
fn in_branches(
    branches: &[Branch],
    others: &[Stmt],
    first: usize,
    number: usize,
    block: &BasicType,
) -> Option<Ty> {
    let mut at = first;
    for branch in branches {
        let then = after_all(branch.body.as_slice(), at);
        if number < then {
            return in_list(branch.body.as_slice(), at, number, block);
        }
        at = then;
    }
    in_list(others, at, number, block)
}

/// The type of the variable that the statement of a number of a body assigns.
pub(crate) fn assigned_type(body: &Body, number: usize, block: &BasicType) -> Option<Ty> {
    in_list(body.statements.as_slice(), 0, number, block)
}
