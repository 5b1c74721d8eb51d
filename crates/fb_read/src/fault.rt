//! Why a rule of the grammar refuses.

use std::alloc::AllocError;

/// Why a rule of the grammar refuses.
#[derive(Clone, Copy)]
pub enum ParseFault {
    Memory,
    /// No rule continues with the next token.
    Syntax,
    /// An expression or a statement nests too deep.
    Nesting,
}

impl From<AllocError> for ParseFault {
    ghost use Rattle.std.specs.Prelude.{◌≡◌};
    ghost use Rattle.fb_read.specs.declared.fault.ParseFault.TheVariants.{Memory};

    ghost from_gives = { λ _ e. e ≡ Memory };

    fn from(_: AllocError) -> ParseFault {
        ParseFault::Memory
    }
}
