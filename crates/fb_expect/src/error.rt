//! Why rules or a trace are refused.

ghost use Rattle.std.specs.Prelude.{◌≡◌};
ghost use Rattle.fb_expect.specs.Refusals.{number_of};
ghost use Rattle.fb_expect.specs.declared.error.RulesError.TheVariants.{Memory};

use std::alloc::AllocError;
use thiserror::Error;

/// The number of the refusal of rules that name what a declaration does not have. Reading rules does not find it: the
/// caller that has the declaration does.
pub const UNKNOWN_NAME: u8 = 45;

/// Why rules are refused. Each refusal has a number, and `Memory` has none.
#[derive(Debug, Drop, Error)]
pub enum RulesError {
    #[error("out of memory")]
    Memory,
    #[error("the rules are over a limit")]
    Limit,
    #[error("the rules are no TOML")]
    Document,
    #[error("a key of a rule is missing, unknown or of the wrong kind")]
    Shape,
    #[error("a pattern of a rule has the wrong shape")]
    Pattern,
    #[error("a number of a rule is out of its range")]
    Number,
}

impl From<AllocError> for RulesError {
    ghost from_gives = { λ _ e. e ≡ Memory };

    fn from(_error: AllocError) -> RulesError {
        RulesError::Memory
    }
}

impl RulesError {
    /// The number of the refusal, from 40 to 44. Out of memory has none.
    pub fn number(&self) -> Option<u8>
        ensures { result ≡ number_of self.now }
    {
        match self {
            RulesError::Memory => None,
            RulesError::Limit => Some(40),
            RulesError::Document => Some(41),
            RulesError::Shape => Some(42),
            RulesError::Pattern => Some(43),
            RulesError::Number => Some(44),
        }
    }
}
