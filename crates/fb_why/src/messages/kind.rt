//! The texts for a wrong kind (E22) and a wrong range (E23), after the words for its position: what is there, and what
//! was expected.

use crate::contents::Contents;
use crate::expression::expression_of;
use crate::messages::operand::{push_mismatch, push_truth};
use crate::mismatch::mismatch_in;
use fb_check::types::{Typing, internals_of, port_type, value_kind_of_type, variable_type};
use fb_check_names::{KindWrongAt, OutOfRangeAt, Site, StatementPart, Variables};
use fb_read_positions::headings::{basic_at, network_at};
use fb_read_positions::{BlockTypes, Text};
use fb_text::type_words;
use fb_types::{
    BasicType, BlockType, Expr, Instance, Name, Network, PortName, Ports, Stmt, Ty, Value,
    ValueKind, instance_named,
};
use std::alloc::Global;

/// Adds a value, and that one of the type is expected.
fn push_expected(text: &mut Text, value: Value, ty: Ty) {
    text.words(" := ");
    text.value(value);
    text.phrase(&[": a value of ", type_words(ty), " is expected"]);
    match (ty, value) {
        (Ty::Bool, Value::Whole(0)) => text.words(" (0 is written FALSE)"),
        (Ty::Bool, Value::Whole(1)) => text.words(" (1 is written TRUE)"),
        _ => {}
    }
}

/// Adds words for an expression, the kind that is expected, and its kind, or what is wrong inside if it has none.
fn push_kind(
    alloc: Global,
    text: &mut Text,
    basic: &BasicType,
    (words, required): (&str, ValueKind),
    expr: &Expr,
) {
    text.words(words);
    let expected = match required {
        ValueKind::TruthValue => ": a truth value is expected, and it is a number",
        ValueKind::WholeNumber => ": a number is expected, and it is a truth value",
    };
    match mismatch_in(basic, expr, 0) {
        Some(found) => {
            text.words(": ");
            push_mismatch(alloc, text, basic, found);
        }
        None => {
            text.words(expected);
            if let ValueKind::TruthValue = required {
                push_truth(text, expr);
            }
        }
    }
}

/// Adds the words for a statement that come before those for its part.
fn push_front(text: &mut Text, stmt: &Stmt, part: StatementPart) {
    match (stmt, part) {
        (Stmt::Assign(variable, _), _) => text.named("", variable.name()),
        (Stmt::For(variable, _, _, _, _), _) => text.named("FOR ", variable.name()),
        (Stmt::If(_, _), StatementPart::Choice(0)) => text.words("IF .."),
        (Stmt::If(_, _), StatementPart::Choice(choice)) => {
            text.numbered("IF .., ELSIF number ", choice, "");
        }
        _ => {}
    }
}

/// Words for a part of a statement.
fn words_of(part: StatementPart) -> &'static str {
    match part {
        StatementPart::Choice(_) => "",
        StatementPart::Selector => "CASE ..",
        StatementPart::Condition => "WHILE ..",
        StatementPart::Until => "REPEAT, UNTIL ..",
        StatementPart::End => " TO ..",
        StatementPart::Step => " BY ..",
        _ => " := ..",
    }
}

/// The kind that is expected of an expression that is a part of a statement.
fn required_of(basic: &BasicType, stmt: &Stmt, part: StatementPart) -> ValueKind {
    match (stmt, part) {
        (Stmt::Assign(variable, _), _) => value_kind_of_type(basic.type_of(variable.name())),
        (_, StatementPart::Choice(_) | StatementPart::Condition | StatementPart::Until) => {
            ValueKind::TruthValue
        }
        _ => ValueKind::WholeNumber,
    }
}

/// Adds what is wrong with a part of a statement.
fn push_part(alloc: Global, text: &mut Text, basic: &BasicType, stmt: &Stmt, part: StatementPart) {
    push_front(text, stmt, part);
    match (stmt, part) {
        (_, StatementPart::Exit) => text.words("EXIT: a loop around it is expected"),
        (_, StatementPart::Control) => text.words(
            ": a number is expected, and it is a truth value",
        ),
        (Stmt::Assign(variable, _) | Stmt::For(variable, _, _, _, _), StatementPart::Assigned) => {
            text.named(" := ..: ", variable.name());
            text.words(" is a data input");
        }
        _ => {
            if let Some(found) = expression_of(stmt, part) {
                let required = required_of(basic, stmt, part);
                push_kind(alloc, text, basic, (words_of(part), required), found.expr);
            }
        }
    }
}

/// Adds the value of a variable of the block type, and that one of its type is expected.
fn push_initial(text: &mut Text, block: &BlockType, list: Variables, index: usize) {
    let variables = match list {
        Variables::Inputs => block.ports().inputs.as_slice(),
        Variables::Outputs => block.ports().outputs.as_slice(),
        Variables::Internals => internals_of(block),
    };
    if let Some(variable) = variables.get(index) {
        if let Some(value) = variable.initial {
            push_expected(text, value, variable.ty);
        }
    }
}

/// Adds the value of a parameter, and that one of the type of its data input is expected. The ports are those of the
/// type of the instance, if it is there.
fn push_parameter(text: &mut Text, ports: Option<&Ports>, instance: &Instance, index: usize) {
    if let (Some(parameter), Some(ports)) = (instance.parameters.get(index), ports) {
        if let Some(ty) = variable_type(ports.inputs.as_slice(), &parameter.name) {
            push_expected(text, parameter.value, ty);
        }
    }
}

/// Adds that the guard of the transition at an index is no truth value, if it has one.
fn push_guard(alloc: Global, text: &mut Text, basic: &BasicType, transition: usize) {
    if let Some(transition) = basic.transitions.get(transition) {
        if let Some(guard) = &transition.condition.guard {
            push_kind(
                alloc,
                text,
                basic,
                (": guard", ValueKind::TruthValue),
                guard,
            );
        }
    }
}

/// Adds what is wrong with a part of the statement at these indexes, if it is there.
fn push_statement<'a>(
    text: &mut Text,
    contents: &mut Contents<'a>,
    basic: &'a BasicType,
    (block, algorithm, statement): (usize, usize, usize),
    part: StatementPart,
) {
    let Some(declared) = basic.algorithms.get(algorithm) else {
        return;
    };
    let body = &declared.body;
    if let Some(found) = contents.statement(text, (block, algorithm), body, statement) {
        text.words(": ");
        push_part(contents.alloc, text, basic, found, part);
    }
}

/// Adds what is there of a wrong kind, and which kind was expected.
pub(crate) fn push_kind_wrong<'a>(
    text: &mut Text,
    types: &BlockTypes<'a>,
    contents: &mut Contents<'a>,
    kind_wrong: KindWrongAt,
) {
    let library = types.library;
    match kind_wrong {
        KindWrongAt::Initial {
            block,
            variables,
            variable,
        } => {
            if let Some(block) = library.blocks.get(block) {
                push_initial(text, block, variables, variable);
            }
        }
        KindWrongAt::Parameter {
            site,
            instance,
            parameter,
        } => {
            if let Some(network) = network_at(library, site) {
                if let Some(instance) = network.instances.get(instance) {
                    let ports = types.ports_named(&instance.block_type);
                    push_parameter(text, ports, instance, parameter);
                }
            }
        }
        KindWrongAt::Guard { block, transition } => {
            if let Some(basic) = basic_at(library, block) {
                push_guard(contents.alloc, text, basic, transition);
            }
        }
        KindWrongAt::Statement {
            block,
            algorithm,
            statement,
            part,
        } => {
            if let Some(basic) = basic_at(library, block) {
                push_statement(text, contents, basic, (block, algorithm, statement), part);
            }
        }
    }
}

/// The ports of the type of the instance with a name.
pub(crate) fn ports_of_instance<'a>(
    types: &'a BlockTypes,
    instances: &[Instance],
    name: &Name,
) -> Option<&'a Ports> {
    types.ports_named(&instance_named(instances, name)?.block_type)
}

/// The type of the variable at an end of a data connection.
fn type_at_end(types: &BlockTypes, site: Site, network: &Network, end: &PortName) -> Option<Ty> {
    let ports = match (&end.component, site) {
        (Some(component), _) => {
            ports_of_instance(types, network.instances.as_slice(), component)?
        }
        (None, Site::Inside(block)) => types.library.blocks.get(block)?.ports(),
        (None, Site::Application) => return None,
    };
    port_type(ports, &end.port)
}

/// Adds the types of which the first does not fit the second.
pub(crate) fn push_out_of_range(text: &mut Text, types: &BlockTypes, out_of_range: OutOfRangeAt) {
    let OutOfRangeAt { site, connection } = out_of_range;
    let Some(network) = network_at(types.library, site) else {
        return;
    };
    let Some(connection) = network.data_connections.get(connection) else {
        return;
    };
    let from = type_at_end(types, site, network, &connection.from);
    let to = type_at_end(types, site, network, &connection.to);
    if let (Some(from), Some(to)) = (from, to) {
        text.phrase(&[": ", type_words(from), " does not fit ", type_words(to)]);
    }
}
