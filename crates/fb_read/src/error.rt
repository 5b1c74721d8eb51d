//! Why a declaration text is refused.

ghost use Rattle.std.specs.Prelude.{◌≡◌};
ghost use Rattle.fb_read.specs.Errors.{number_of};

use thiserror::Error;

/// Why a declaration text is refused. `Memory` has no number.
#[derive(Debug, Drop, Error)]
pub enum ReadError {
    #[error("out of memory")]
    Memory,
    /// E01: a byte that may occur only in comments.
    #[error("a byte that is allowed only in comments")]
    Byte,
    /// E02: a comment that is not closed, a faulty literal, or a character that begins no token.
    #[error("a faulty token")]
    Token,
    /// E03: no rule of the grammar continues with the token on this line.
    #[error("a syntax fault in line {line}")]
    Syntax { line: u32 },
    /// E04: more than 1,048,576 bytes.
    #[error("the text is too long")]
    TooLong,
    /// E05: an expression or a statement nests more than 64 deep.
    #[error("an expression or a statement nests too deep")]
    Nesting,
}

impl ReadError {
    /// The number of the refusal, from 1 to 5. `Memory` has none.
    pub fn number(&self) -> Option<u8>
        ensures { result ≡ number_of self.now }
    {
        match self {
            ReadError::Memory => None,
            ReadError::Byte => Some(1),
            ReadError::Token => Some(2),
            ReadError::Syntax { .. } => Some(3),
            ReadError::TooLong => Some(4),
            ReadError::Nesting => Some(5),
        }
    }
}
