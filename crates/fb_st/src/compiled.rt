//! Algorithms and guards in the form in which they run: a variable is the number of its slot, and an expression is of
//! one kind. The form is made once for each type, so that no name is looked up while a block reacts.
//!
//! A slot is a word of 64 bits. Most operands are a variable or a number of 64 bits, so an operator at such operands is
//! one node: it is evaluated with one jump and no call.

use fb_types::{BinaryOperator, Boxed, Items, Label};

/// An expression of a whole number.
#[cycle(compiled_expr)]
pub enum NumberExpr {
    /// A number of 64 bits.
    Constant(i64),
    /// Any other number.
    Wide(Boxed<i128>),
    /// The variable of a slot.
    Slot(usize),
    /// The variable of a slot, where it is of type ULINT.
    UnsignedSlot(usize),
    /// `+` between the variables of two slots.
    AddSlots(usize, usize),
    /// `+` between the variable of a slot and a number.
    AddConstant(usize, i64),
    /// `+` between the variable of a slot and an expression.
    AddNested(usize, Boxed<NumberExpr>),
    /// `+` between an expression and the variable of a slot.
    AddToNested(Boxed<NumberExpr>, usize),
    /// `-` between the variables of two slots.
    SubtractSlots(usize, usize),
    /// `-` between the variable of a slot and a number.
    SubtractConstant(usize, i64),
    /// `-` between the variable of a slot and an expression.
    SubtractNested(usize, Boxed<NumberExpr>),
    /// `*` between the variables of two slots.
    MultiplySlots(usize, usize),
    /// `*` between the variable of a slot and a number.
    MultiplyConstant(usize, i64),
    /// `*` between the variable of a slot and an expression.
    MultiplyNested(usize, Boxed<NumberExpr>),
    /// `/` between the variables of two slots.
    DivideSlots(usize, usize),
    /// `/` between the variable of a slot and a number.
    DivideConstant(usize, i64),
    /// `/` between the variable of a slot and an expression.
    DivideNested(usize, Boxed<NumberExpr>),
    /// `MOD` between the variables of two slots.
    ModuloSlots(usize, usize),
    /// `MOD` between the variable of a slot and a number.
    ModuloConstant(usize, i64),
    /// `MOD` between the variable of a slot and an expression.
    ModuloNested(usize, Boxed<NumberExpr>),
    /// An arithmetic operator between any operands.
    Binary(BinaryOperator, Boxed<NumberExpr>, Boxed<NumberExpr>),
    /// Unary minus.
    Negated(Boxed<NumberExpr>),
    /// The function ABS.
    Magnitude(Boxed<NumberExpr>),
    /// The function MIN.
    Lesser(Boxed<NumberExpr>, Boxed<NumberExpr>),
    /// The function MAX.
    Greater(Boxed<NumberExpr>, Boxed<NumberExpr>),
    /// The function LIMIT: the least, the number, and the most.
    Limited(Boxed<NumberExpr>, Boxed<NumberExpr>, Boxed<NumberExpr>),
    /// The function SEL: the first number at FALSE, the second one at TRUE.
    Chosen(Boxed<TruthExpr>, Boxed<NumberExpr>, Boxed<NumberExpr>),
}

// Drop is written by hand, so that callers need not prove it again (docs/DECISIONS.md, "Drop").
impl Drop for NumberExpr {
    #[cycle(compiled_expr_drop)]
    fn drop(self) {
        match self {
            NumberExpr::Constant(_)
            | NumberExpr::Wide(_)
            | NumberExpr::Slot(_)
            | NumberExpr::UnsignedSlot(_)
            | NumberExpr::AddSlots(_, _)
            | NumberExpr::AddConstant(_, _)
            | NumberExpr::AddNested(_, _)
            | NumberExpr::AddToNested(_, _)
            | NumberExpr::SubtractSlots(_, _)
            | NumberExpr::SubtractConstant(_, _)
            | NumberExpr::SubtractNested(_, _)
            | NumberExpr::MultiplySlots(_, _)
            | NumberExpr::MultiplyConstant(_, _)
            | NumberExpr::MultiplyNested(_, _)
            | NumberExpr::DivideSlots(_, _)
            | NumberExpr::DivideConstant(_, _)
            | NumberExpr::DivideNested(_, _)
            | NumberExpr::ModuloSlots(_, _)
            | NumberExpr::ModuloConstant(_, _)
            | NumberExpr::ModuloNested(_, _)
            | NumberExpr::Binary(_, _, _)
            | NumberExpr::Negated(_)
            | NumberExpr::Magnitude(_)
            | NumberExpr::Lesser(_, _)
            | NumberExpr::Greater(_, _)
            | NumberExpr::Limited(_, _, _)
            | NumberExpr::Chosen(_, _, _) => {}
        }
    }
}

/// An expression of a truth value.
#[cycle(compiled_expr)]
pub enum TruthExpr {
    Known(bool),
    /// The variable of a slot.
    Flag(usize),
    /// Whether `=` holds between the variables of two slots.
    EqualSlots(usize, usize),
    /// Whether `=` holds between the variable of a slot and a number.
    EqualConstant(usize, i64),
    /// Whether `<>` holds between the variables of two slots.
    NotEqualSlots(usize, usize),
    /// Whether `<>` holds between the variable of a slot and a number.
    NotEqualConstant(usize, i64),
    /// Whether `<` holds between the variables of two slots.
    LessSlots(usize, usize),
    /// Whether `<` holds between the variable of a slot and a number.
    LessConstant(usize, i64),
    /// Whether `>` holds between the variables of two slots.
    GreaterSlots(usize, usize),
    /// Whether `>` holds between the variable of a slot and a number.
    GreaterConstant(usize, i64),
    /// Whether `<=` holds between the variables of two slots.
    LessOrEqualSlots(usize, usize),
    /// Whether `<=` holds between the variable of a slot and a number.
    LessOrEqualConstant(usize, i64),
    /// Whether `>=` holds between the variables of two slots.
    GreaterOrEqualSlots(usize, usize),
    /// Whether `>=` holds between the variable of a slot and a number.
    GreaterOrEqualConstant(usize, i64),
    /// AND.
    Both(Boxed<TruthExpr>, Boxed<TruthExpr>),
    /// OR, XOR, `=` or `<>` between two truth values.
    Joined(BinaryOperator, Boxed<TruthExpr>, Boxed<TruthExpr>),
    /// A comparison of any two numbers.
    Compared(BinaryOperator, Boxed<NumberExpr>, Boxed<NumberExpr>),
    /// NOT.
    Not(Boxed<TruthExpr>),
    /// The function SEL: the first truth value at FALSE, the second one at TRUE.
    Picked(Boxed<TruthExpr>, Boxed<TruthExpr>, Boxed<TruthExpr>),
}

impl Drop for TruthExpr {
    #[cycle(compiled_expr_drop)]
    fn drop(self) {
        match self {
            TruthExpr::Known(_)
            | TruthExpr::Flag(_)
            | TruthExpr::EqualSlots(_, _)
            | TruthExpr::EqualConstant(_, _)
            | TruthExpr::NotEqualSlots(_, _)
            | TruthExpr::NotEqualConstant(_, _)
            | TruthExpr::LessSlots(_, _)
            | TruthExpr::LessConstant(_, _)
            | TruthExpr::GreaterSlots(_, _)
            | TruthExpr::GreaterConstant(_, _)
            | TruthExpr::LessOrEqualSlots(_, _)
            | TruthExpr::LessOrEqualConstant(_, _)
            | TruthExpr::GreaterOrEqualSlots(_, _)
            | TruthExpr::GreaterOrEqualConstant(_, _)
            | TruthExpr::Both(_, _)
            | TruthExpr::Joined(_, _, _)
            | TruthExpr::Compared(_, _, _)
            | TruthExpr::Not(_)
            | TruthExpr::Picked(_, _, _) => {}
        }
    }
}

/// FOR: the slot of its variable, the range of the variable's type within 64 bits, the start, the end and the step.
pub struct CountExpr {
    pub slot: usize,
    pub least: i64,
    pub most: i64,
    pub start: NumberExpr,
    pub end: NumberExpr,
    pub step: NumberExpr,
}

impl Drop for CountExpr {
    fn drop(self) {
        let CountExpr {
            slot: _,
            least: _,
            most: _,
            start: _,
            end: _,
            step: _,
        } = self;
    }
}

/// A statement.
#[cycle(compiled_stmt)]
pub enum CompiledStmt {
    Empty,
    Exit,
    Return,
    /// An assignment to the variable of a slot whose type holds each number of 64 bits.
    AssignLong(usize, NumberExpr),
    /// An assignment to the variable of a slot whose type holds the numbers from the least to the most, and of 64 bits
    /// no others.
    AssignWithin(usize, i64, i64, NumberExpr),
    /// An assignment of a truth value.
    AssignTruth(usize, TruthExpr),
    If(Items<CompiledChoice>, Items<CompiledStmt>),
    Case(NumberExpr, Items<CompiledBranch>, Items<CompiledStmt>),
    For(Boxed<CountExpr>, Items<CompiledStmt>),
    While(TruthExpr, Items<CompiledStmt>),
    Repeat(Items<CompiledStmt>, TruthExpr),
}

impl Drop for CompiledStmt {
    #[cycle(compiled_stmt_drop)]
    fn drop(self) {
        match self {
            CompiledStmt::Empty
            | CompiledStmt::Exit
            | CompiledStmt::Return
            | CompiledStmt::AssignLong(_, _)
            | CompiledStmt::AssignWithin(_, _, _, _)
            | CompiledStmt::AssignTruth(_, _)
            | CompiledStmt::If(_, _)
            | CompiledStmt::Case(_, _, _)
            | CompiledStmt::For(_, _)
            | CompiledStmt::While(_, _)
            | CompiledStmt::Repeat(_, _) => {}
        }
    }
}

/// IF or ELSIF: the statements after a condition.
#[cycle(compiled_stmt)]
pub struct CompiledChoice {
    pub condition: TruthExpr,
    pub body: Items<CompiledStmt>,
}

impl Drop for CompiledChoice {
    #[cycle(compiled_stmt_drop)]
    fn drop(self) {
        let CompiledChoice {
            condition: _,
            body: _,
        } = self;
    }
}

/// The statements after the labels of a CASE.
#[cycle(compiled_stmt)]
pub struct CompiledBranch {
    pub labels: Items<Label>,
    pub body: Items<CompiledStmt>,
}

impl Drop for CompiledBranch {
    #[cycle(compiled_stmt_drop)]
    fn drop(self) {
        let CompiledBranch { labels: _, body: _ } = self;
    }
}
