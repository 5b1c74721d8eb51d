//! The operation in a statement of a body at which a reason comes.

ghost use Rattle.std.specs.Prelude.{◌≡◌, ◌⊎◌, IfNone, IfSome};
ghost use Rattle.fb_st.specs.Frames.{values_of};
ghost use Rattle.fb_stop.specs.Operations.{FaultIn, IsOtherwise, IsUnfit};
ghost use Rattle.fb_stop.specs.Statements as spec;
ghost use Rattle.fb_stop.specs.Statements.{AreBoundsOtherwise, AreBranchesOtherwise, AreChoicesOtherwise, AreOtherwise, HasOwn, IsInBranches, IsInChoices, IsInList, IsInStatement, IsListOtherwise, IsOfChoices, IsOfFor, IsOwnOtherwise, IsStatementOtherwise};

use crate::number::{after, after_all, next};
use crate::operation::{Operation, operation_in, outermost, past};
use fb_st::Frame;
use fb_types::{Body, Branch, Choice, Expr, Reason, Stmt};

/// The token of a statement from which tokens are counted.
#[derive(Clone, Copy)]
pub enum Anchor {
    /// Its first token.
    Beginning,
    /// The ELSIF of this number, counted from 1.
    Elsif(usize),
    /// The UNTIL of REPEAT.
    Until,
}

/// An operation in a statement.
#[derive(Clone, Copy)]
pub struct Placed {
    /// The token from which the tokens of the operation are counted.
    pub anchor: Anchor,
    pub operation: Operation,
}

/// The operation in an expression that begins at a token from an anchor.
fn found_in(
    expr: &Expr,
    anchor: Anchor,
    first: usize,
    frame: &Frame,
    reason: Reason,
) -> Option<Placed>
    ensures anchor { IfSome result (λ x. x.anchor ≡ anchor) }
    ensures fault { IfSome result (λ x. FaultIn (values_of frame.now) reason expr.now first x.operation) }
    ensures none { IfNone result (IsOtherwise (values_of frame.now) reason expr.now) }
{
    match operation_in(expr, frame, first, reason) {
        Some(operation) => Some(Placed { anchor, operation }),
        None => None,
    }
}

/// The operation in what is assigned. If that has a value, the reason is that it does not fit the variable, and this is
/// the outermost operation.
fn in_assigned(expr: &Expr, frame: &Frame, reason: Reason) -> Option<Placed>
    ensures anchor { IfSome result (λ x. x.anchor ≡ Anchor.Beginning) }
    ensures fault { IfSome result (λ x. FaultIn (values_of frame.now) reason expr.now 2 x.operation ⊎ IsUnfit (values_of frame.now) reason expr.now 2 x.operation) }
    ensures none { IfNone result (IsOtherwise (values_of frame.now) reason expr.now) }
{
    let anchor = Anchor::Beginning;
    if let Some(found) = found_in(expr, anchor, 2, frame, reason) {
        return Some(found);
    }
    match reason {
        Reason::Range => {
            let operation = outermost(expr, frame, 2);
            Some(Placed { anchor, operation })
        }
        Reason::Divide | Reason::Steps => None,
    }
}

/// Where the condition at an index of an IF begins.
fn anchor_of(index: usize) -> Anchor
    ensures { result ≡ spec.anchor_of index }
{
    if index == 0 {
        Anchor::Beginning
    } else {
        Anchor::Elsif(index)
    }
}

/// The operation in a condition of an IF.
fn in_conditions(choices: &[Choice], frame: &Frame, reason: Reason) -> Option<Placed>
    ensures found { IfSome result (IsOfChoices (values_of frame.now) reason choices.now) }
    ensures none { IfNone result (AreOtherwise (values_of frame.now) reason choices.now) }
{
    for (index, choice) in choices.iter().enumerate() {
        let anchor = anchor_of(index);
        if let Some(found) = found_in(&choice.condition, anchor, 1, frame, reason) {
            return Some(found);
        }
    }
    None
}

/// The operation in the start, the end or the step of a FOR.
fn in_bounds(
    start: &Expr,
    end: &Expr,
    step: &Option<Expr>,
    frame: &Frame,
    reason: Reason,
) -> Option<Placed>
    ensures found { IfSome result (IsOfFor (values_of frame.now) reason start.now end.now step.now) }
    ensures none { IfNone result (AreBoundsOtherwise (values_of frame.now) reason start.now end.now step.now) }
{
    let second = next(past(start, 3));
    if let Some(found) = found_in(start, Anchor::Beginning, 3, frame, reason) {
        return Some(found);
    }
    if let Some(found) = found_in(end, Anchor::Beginning, second, frame, reason) {
        return Some(found);
    }
    match step {
        Some(step) => {
            let third = next(past(end, second));
            found_in(step, Anchor::Beginning, third, frame, reason)
        }
        None => None,
    }
}

/// The operation in an expression of a statement itself.
fn in_own(statement: &Stmt, frame: &Frame, reason: Reason) -> Option<Placed>
    ensures found { IfSome result (HasOwn (values_of frame.now) reason statement.now) }
    ensures none { IfNone result (IsOwnOtherwise (values_of frame.now) reason statement.now) }
{
    match statement {
        Stmt::Empty | Stmt::Exit | Stmt::Return => None,
        Stmt::Assign(_, expr) => in_assigned(expr, frame, reason),
        Stmt::If(choices, _) => in_conditions(choices.as_slice(), frame, reason),
        Stmt::Case(selector, _, _) => found_in(selector, Anchor::Beginning, 1, frame, reason),
        Stmt::For(_, start, end, step, _) => in_bounds(start, end, step, frame, reason),
        Stmt::While(condition, _) => found_in(condition, Anchor::Beginning, 1, frame, reason),
        Stmt::Repeat(_, condition) => found_in(condition, Anchor::Until, 1, frame, reason),
    }
}

/// The operation in the statement of a number, in a statement that has the number `at`.
#[cycle(statement)]
fn in_statement(
    statement: &Stmt,
    at: usize,
    number: usize,
    frame: &Frame,
    reason: Reason,
) -> Option<Placed>
    ensures found { IfSome result (IsInStatement (values_of frame.now) reason statement.now at number) }
    ensures none { IfNone result (IsStatementOtherwise (values_of frame.now) reason statement.now at number) }
{
    if number == at {
        return in_own(statement, frame, reason);
    }
    let inside = next(at);
    match statement {
        Stmt::Empty | Stmt::Exit | Stmt::Return | Stmt::Assign(_, _) => None,
        Stmt::If(choices, others) => in_choices(
            choices.as_slice(),
            others.as_slice(),
            inside,
            number,
            frame,
            reason,
        ),
        Stmt::Case(_, branches, others) => in_branches(
            branches.as_slice(),
            others.as_slice(),
            inside,
            number,
            frame,
            reason,
        ),
        Stmt::For(_, _, _, _, body) => in_list(body.as_slice(), inside, number, frame, reason),
        Stmt::While(_, body) => in_list(body.as_slice(), inside, number, frame, reason),
        Stmt::Repeat(body, _) => in_list(body.as_slice(), inside, number, frame, reason),
    }
}

/// The same in statements, of which the first has a number.
#[cycle(statement)]
fn in_list(
    statements: &[Stmt],
    first: usize,
    number: usize,
    frame: &Frame,
    reason: Reason,
) -> Option<Placed>
    ensures found { IfSome result (IsInList (values_of frame.now) reason statements.now first number) }
    ensures none { IfNone result (IsListOtherwise (values_of frame.now) reason statements.now first number) }
{
    let mut at = first;
    for statement in statements {
        let then = after(statement, at);
        if number < then {
            return in_statement(statement, at, number, frame, reason);
        }
        at = then;
    }
    None
}

/// The same in the statements of an IF.
#[cycle(statement)]
fn in_choices(
    choices: &[Choice],
    others: &[Stmt],
    first: usize,
    number: usize,
    frame: &Frame,
    reason: Reason,
) -> Option<Placed>
    ensures found { IfSome result (IsInChoices (values_of frame.now) reason choices.now others.now first number) }
    ensures none { IfNone result (AreChoicesOtherwise (values_of frame.now) reason choices.now others.now first number) }
{
    let mut at = first;
    for choice in choices {
        let then = after_all(choice.body.as_slice(), at);
        if number < then {
            return in_list(choice.body.as_slice(), at, number, frame, reason);
        }
        at = then;
    }
    in_list(others, at, number, frame, reason)
}

/// The same in the statements of a CASE.
#[cycle(statement)]
fn in_branches(
    branches: &[Branch],
    others: &[Stmt],
    first: usize,
    number: usize,
    frame: &Frame,
    reason: Reason,
) -> Option<Placed>
    ensures found { IfSome result (IsInBranches (values_of frame.now) reason branches.now others.now first number) }
    ensures none { IfNone result (AreBranchesOtherwise (values_of frame.now) reason branches.now others.now first number) }
{
    let mut at = first;
    for branch in branches {
        let then = after_all(branch.body.as_slice(), at);
        if number < then {
            return in_list(branch.body.as_slice(), at, number, frame, reason);
        }
        at = then;
    }
    in_list(others, at, number, frame, reason)
}

/// The operation in the statement of a number of a body that has no value for this reason, where the variables hold what
/// the frame has; or that of an assignment whose value does not fit. `None` if each expression of that statement has a value there, or none for another reason.
pub fn operation_of(body: &Body, number: usize, frame: &Frame, reason: Reason) -> Option<Placed>
    ensures found { IfSome result (IsInList (values_of frame.now) reason body.now.statements 0 number) }
    ensures none { IfNone result (IsListOtherwise (values_of frame.now) reason body.now.statements 0 number) }
{
    in_list(body.statements.as_slice(), 0, number, frame, reason)
}
