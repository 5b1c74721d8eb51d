//! Expressions and statements of Structured Text (IEC 61131-3, 7.3), as they are read.

use crate::boxed::Boxed;
use crate::items::Items;
use crate::name::Name;
use crate::reference::Reference;

/// An operator before one operand.
#[derive(Clone, Copy)]
pub enum UnaryOperator {
    Negate,
    Not,
}

/// An operator between two operands.
#[derive(Clone, Copy)]
pub enum BinaryOperator {
    Or,
    Xor,
    And,
    Equal,
    NotEqual,
    Less,
    Greater,
    LessOrEqual,
    GreaterOrEqual,
    Add,
    Subtract,
    Multiply,
    Divide,
    Modulo,
}

/// An expression. Time literals are whole numbers, in ticks. An expression in parentheses is a `Group`, so that the tree
/// shows how deep the text nests.
#[cycle(expr)]
pub enum Expr {
    Whole(i128),
    Truth(bool),
    Variable(Reference),
    Group(Boxed<Expr>),
    Unary(UnaryOperator, Boxed<Expr>),
    Binary(BinaryOperator, Boxed<Expr>, Boxed<Expr>),
    Call(Name, Items<Expr>),
}

// Drop is written by hand, so that callers need not prove it again (docs/DECISIONS.md, "Drop").
impl Drop for Expr {
    fn drop(self) {
        match self {
            Expr::Whole(_)
            | Expr::Truth(_)
            | Expr::Variable(_)
            | Expr::Group(_)
            | Expr::Unary(_, _)
            | Expr::Binary(_, _, _)
            | Expr::Call(_, _) => {}
        }
    }
}

/// A statement. ELSE is the last list of IF and CASE, which is empty if the text has none.
#[cycle(stmt)]
pub enum Stmt {
    Empty,
    Exit,
    Return,
    Assign(Reference, Expr),
    If(Items<Choice>, Items<Stmt>),
    Case(Expr, Items<Branch>, Items<Stmt>),
    For(Reference, Expr, Expr, Option<Expr>, Items<Stmt>),
    While(Expr, Items<Stmt>),
    Repeat(Items<Stmt>, Expr),
}

impl Drop for Stmt {
    #[cycle(stmt_drop)]
    fn drop(self) {
        match self {
            Stmt::Empty
            | Stmt::Exit
            | Stmt::Return
            | Stmt::Assign(_, _)
            | Stmt::If(_, _)
            | Stmt::Case(_, _, _)
            | Stmt::For(_, _, _, _, _)
            | Stmt::While(_, _)
            | Stmt::Repeat(_, _) => {}
        }
    }
}

/// IF or ELSIF: the statements after a condition.
#[cycle(stmt)]
pub struct Choice {
    /// The condition.
    pub condition: Expr,
    /// The statements after THEN.
    pub body: Items<Stmt>,
}

impl Drop for Choice {
    #[cycle(stmt_drop)]
    fn drop(self) {
        let Choice {
            condition: _,
            body: _,
        } = self;
    }
}

/// The statements after the labels of a CASE.
#[cycle(stmt)]
pub struct Branch {
    /// The labels, at least one.
    pub labels: Items<Label>,
    /// The statements after the labels.
    pub body: Items<Stmt>,
}

impl Drop for Branch {
    #[cycle(stmt_drop)]
    fn drop(self) {
        let Branch { labels: _, body: _ } = self;
    }
}

/// A label, from its first bound to its last.
#[derive(Clone, Copy)]
pub struct Label {
    /// The first value.
    pub first: i128,
    /// The last value, which is the first one if the label is a single value.
    pub last: i128,
}

/// The statements of an algorithm.
pub struct Body {
    /// The statements, in the order of the text.
    pub statements: Items<Stmt>,
}

impl Drop for Body {
    fn drop(self) {
        let Body { statements: _ } = self;
    }
}
