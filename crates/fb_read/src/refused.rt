//! Why and where a declaration text is refused.

ghost use Rattle.std.specs.Prelude.{◌≡◌};
ghost use Rattle.fb_read.specs.Errors.{fault_number};

use crate::expected::Expected;
use std::alloc::AllocError;

/// What is wrong with a declaration text.
#[derive(Clone, Copy)]
pub enum TextFault {
    /// E01: a byte that may occur only in comments.
    Byte,
    /// E02: a comment that is not closed, a faulty literal, or a character that begins no token.
    Token,
    /// E03: no rule of the grammar continues with the token that is there.
    Syntax,
    /// E04: more than 1,048,576 bytes.
    TooLong,
    /// E05: an expression or a statement nests more than 64 deep.
    Nesting,
}

impl TextFault {
    /// The number of the refusal, from 1 to 5.
    pub fn number(self) -> u8
        ensures { result ≡ fault_number self }
    {
        match self {
            TextFault::Byte => 1,
            TextFault::Token => 2,
            TextFault::Syntax => 3,
            TextFault::TooLong => 4,
            TextFault::Nesting => 5,
        }
    }
}

/// A fault of a declaration text, and the bytes at which it shows: from `start` up to `end`, both offsets in bytes.
/// There are none at the end of the text.
#[derive(Clone, Copy)]
pub struct Refusal {
    /// What is wrong.
    pub fault: TextFault,
    /// The offset of the first byte.
    pub start: usize,
    /// The offset past the last byte.
    pub end: usize,
    /// For a syntax fault: the kinds of tokens with which the text could go on in place of these bytes.
    pub expected: Expected,
}

/// Why a declaration text is not read.
#[derive(Clone, Copy)]
pub enum ReadFault {
    /// Out of memory.
    Memory,
    Refused(Refusal),
}

impl From<AllocError> for ReadFault {
    ghost use Rattle.std.specs.Prelude.{◌≡◌};
    ghost use Rattle.fb_read.specs.declared.refused.ReadFault.TheVariants.{Memory};

    ghost from_gives = { λ _ e. e ≡ Memory };

    fn from(_: AllocError) -> ReadFault {
        ReadFault::Memory
    }
}
