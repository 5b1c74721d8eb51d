//! The kinds of expressions.

/// The kind of an expression, of a variable or of a value (IEC 61131-3, 7.3.2).
#[derive(Clone, Copy)]
pub enum ValueKind {
    /// BOOL
    TruthValue,
    /// Any number type, or TIME.
    WholeNumber,
}
