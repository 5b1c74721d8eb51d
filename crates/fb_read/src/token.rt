//! Tokens of the declaration text.

use fb_types::Name;
use std::marker::Model;

/// A keyword or a sign.
#[derive(Clone, Copy, PartialEq, Eq)]
pub enum Mark {
    FunctionBlock,
    EndFunctionBlock,
    Application,
    EndApplication,
    EventInput,
    EventOutput,
    EndEvent,
    With,
    VarInput,
    VarOutput,
    Var,
    EndVar,
    Fbs,
    EndFbs,
    EventConnections,
    DataConnections,
    EndConnections,
    EcStates,
    EndStates,
    EcTransitions,
    EndTransitions,
    Algorithm,
    EndAlgorithm,
    To,
    Bool,
    Sint,
    Int,
    Dint,
    Lint,
    Usint,
    Uint,
    Udint,
    Ulint,
    Time,
    True,
    False,
    If,
    Then,
    Elsif,
    Else,
    EndIf,
    Case,
    Of,
    EndCase,
    For,
    By,
    Do,
    EndFor,
    While,
    EndWhile,
    Repeat,
    Until,
    EndRepeat,
    Exit,
    Return,
    And,
    Or,
    Xor,
    Not,
    Mod,
    Semicolon,
    Colon,
    Comma,
    Dot,
    DotDot,
    Open,
    Close,
    OpenSquare,
    CloseSquare,
    Assign,
    Arrow,
    Equal,
    NotEqual,
    Less,
    Greater,
    LessOrEqual,
    GreaterOrEqual,
    Plus,
    Minus,
    Star,
    Slash,
    Ampersand,
}

/// A token of the declaration text.
#[derive(Drop)]
pub enum Token {
    Mark(Mark),
    Name(Name),
    Whole(Magnitude),
    /// A duration in ticks, which are milliseconds.
    Time(i128),
}

/// A token, and the offset in bytes at which it begins.
#[derive(Drop)]
pub struct Located {
    /// The token.
    pub token: Token,
    /// The offset in bytes.
    pub index: usize,
}

/// The bytes of a token in a text: from `start` up to `end`, both offsets in bytes. There are none at the end of the
/// text.
#[derive(Clone, Copy)]
pub struct Span {
    /// The offset of the first byte.
    pub start: usize,
    /// The offset past the last byte.
    pub end: usize,
}

/// The greatest magnitude of a literal.
pub const MOST: u128 = 170141183460469231731687303715884105727;

/// A whole number of at most [`MOST`]. Contracts see the number.
#[derive(Drop)]
pub struct Magnitude {
    value: u128,
}

impl Model for Magnitude {
    ghost use Rattle.std.specs.Prelude.{ℕ, ◌≤◌};
    ghost use Rattle.fb_read.specs.Limits.{most};

    ghost Value = { ℕ };

    ghost view = { λ m. m.value };

    ghost invariant = { λ m. m.value ≤ most };
}

impl Magnitude {
    ghost use Rattle.std.specs.Prelude.{◌≡◌, ◌≤◌, pos, neg_ℤ};
    ghost use Rattle.fb_read.specs.Limits.{most};

    /// A number of at most [`MOST`].
    pub(crate) fn new(value: u128) -> Magnitude
        requires { value ≤ most }
        ensures { result ≡ value }
    {
        Magnitude { value }
    }

    /// The same number.
    pub fn copied(&self) -> Magnitude
        ensures { result ≡ self.now }
    {
        Magnitude { value: self.value }
    }

    /// The number.
    pub fn positive(&self) -> i128
        ensures { result ≡ pos self.now }
    {
        self.value as i128
    }

    /// The negated number.
    pub fn negative(&self) -> i128
        ensures { result ≡ neg_ℤ (pos self.now) }
    {
        -(self.value as i128)
    }
}
