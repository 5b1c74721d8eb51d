//! The expressions of a statement.

ghost use Rattle.std.specs.Prelude.{◌≡◌, MatchOption, None, slice_get, Some};
ghost use Rattle.fb_types.specs.declared.text.Choice.{Choice, out-Choice};
ghost use Rattle.fb_why.specs.Marks.{IsBoundAt, IsNoBound, IsNoPartOf, IsPartAt};

use crate::tokens::{next, past};
use fb_check_names::StatementPart;
use fb_types::{Choice, Expr, Stmt};

/// An expression, and its first token, counted from the token at the position where a wrong kind of it is shown.
#[derive(Clone, Copy)]
pub(crate) struct Counted<'a> {
    pub expr: &'a Expr,
    pub first: usize,
}

/// The condition at an index of an IF.
fn condition_at(choices: &[Choice], index: usize) -> Option<&Expr>
    ensures { MatchOption result (slice_get choices.now index ≡ None) (λ e. (c : Choice) × (slice_get choices.now index ≡ Some c) × (e.now ≡ (out-Choice c).condition)) }
{
    match choices.get(index) {
        Some(choice) => Some(&choice.condition),
        None => None,
    }
}

/// The start, the end or the step of a FOR.
fn bound_of<'a>(
    start: &'a Expr,
    end: &'a Expr,
    step: &'a Option<Expr>,
    part: StatementPart,
) -> Option<Counted<'a>>
    ensures { MatchOption result (IsNoBound start.now end.now step.now part) (λ x. IsBoundAt start.now end.now step.now part x.expr.now x.first) }
{
    let second = next(past(start, 3));
    match part {
        StatementPart::Start => Some(Counted {
            expr: start,
            first: 3,
        }),
        StatementPart::End => Some(Counted {
            expr: end,
            first: second,
        }),
        StatementPart::Step => match step {
            Some(step) => Some(Counted {
                expr: step,
                first: next(past(end, second)),
            }),
            None => None,
        },
        _ => None,
    }
}

/// The expression that is a part of a statement.
pub(crate) fn expression_of<'a>(stmt: &'a Stmt, part: StatementPart) -> Option<Counted<'a>>
    ensures { MatchOption result (IsNoPartOf stmt.now part) (λ x. IsPartAt stmt.now part x.expr.now x.first) }
{
    match stmt {
        Stmt::Empty | Stmt::Exit | Stmt::Return => None,
        Stmt::Assign(_, expr) => match part {
            StatementPart::Value => Some(Counted { expr, first: 2 }),
            _ => None,
        },
        Stmt::If(choices, _) => match part {
            StatementPart::Choice(index) => match condition_at(choices.as_slice(), index) {
                Some(expr) => Some(Counted { expr, first: 1 }),
                None => None,
            },
            _ => None,
        },
        Stmt::Case(selector, _, _) => match part {
            StatementPart::Selector => Some(Counted {
                expr: selector,
                first: 1,
            }),
            _ => None,
        },
        Stmt::For(_, start, end, step, _) => bound_of(start, end, step, part),
        Stmt::While(condition, _) => match part {
            StatementPart::Condition => Some(Counted {
                expr: condition,
                first: 1,
            }),
            _ => None,
        },
        Stmt::Repeat(_, condition) => match part {
            StatementPart::Until => Some(Counted {
                expr: condition,
                first: 1,
            }),
            _ => None,
        },
    }
}
