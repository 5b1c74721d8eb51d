//! Whether each variable that statements assign is one of a frame.

ghost use Rattle.std.specs.Prelude.{◌↔◌, IsTrue};
ghost use Rattle.fb_types.specs.Syntax.{body_of, stmt_of};
ghost use Rattle.fb_st.specs.Flows.{all_of, branches_of, choices_of};
ghost use Rattle.fb_st.specs.Frames.{declared_in};
ghost use Rattle.fb_st.specs.Known.{AllKnown, AssignsKnown, BranchesKnown, ChoicesKnown};

use crate::frame::Frame;
use fb_types::{Body, Branch, Choice, Stmt};

/// Whether the frame has each variable that the algorithm assigns, as it has in an accepted text.
pub fn knows(body: &Body, frame: &Frame) -> bool
    ensures { IsTrue result ↔ AllKnown (declared_in frame.now) (body_of body.now) }
{
    knows_all(body.statements.as_slice(), frame)
}

#[cycle(known)]
fn knows_statement(statement: &Stmt, frame: &Frame) -> bool
    ensures { IsTrue result ↔ AssignsKnown (declared_in frame.now) (stmt_of statement.now) }
{
    match statement {
        Stmt::Empty | Stmt::Exit | Stmt::Return => true,
        Stmt::Assign(variable, _) => frame.has(variable.name()),
        Stmt::If(choices, others) => {
            knows_choices(choices.as_slice(), frame) && knows_all(others.as_slice(), frame)
        }
        Stmt::Case(_, branches, others) => {
            knows_branches(branches.as_slice(), frame) && knows_all(others.as_slice(), frame)
        }
        Stmt::For(variable, _, _, _, body) => {
            frame.has(variable.name()) && knows_all(body.as_slice(), frame)
        }
        Stmt::While(_, body) | Stmt::Repeat(body, _) => knows_all(body.as_slice(), frame),
    }
}

#[cycle(known)]
fn knows_all(statements: &[Stmt], frame: &Frame) -> bool
    ensures { IsTrue result ↔ AllKnown (declared_in frame.now) (all_of statements.now) }
{
    for statement in statements {
        if !knows_statement(statement, frame) {
            return false;
        }
    }
    true
}

#[cycle(known)]
fn knows_choices(choices: &[Choice], frame: &Frame) -> bool
    ensures { IsTrue result ↔ ChoicesKnown (declared_in frame.now) (choices_of choices.now) }
{
    for choice in choices {
        if !knows_all(choice.body.as_slice(), frame) {
            return false;
        }
    }
    true
}

#[cycle(known)]
fn knows_branches(branches: &[Branch], frame: &Frame) -> bool
    ensures { IsTrue result ↔ BranchesKnown (declared_in frame.now) (branches_of branches.now) }
{
    for branch in branches {
        if !knows_all(branch.body.as_slice(), frame) {
            return false;
        }
    }
    true
}
