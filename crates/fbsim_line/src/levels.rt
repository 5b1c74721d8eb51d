//! Which warnings are left out, and which are faults.

ghost use Rattle.std.specs.Prelude.{◌≡◌, IfNone, IfOk, IfSome, map};
ghost use Rattle.clap.specs.Words.{found_of, rows_of};
ghost use Rattle.fbsim_line.specs.Line as spec;
ghost use Rattle.fbsim_line.specs.Line.{AreLevels};
ghost use Rattle.fbsim_line.specs.declared.levels.Levels.{Levels};

use crate::line::texts_of;
use clap::ArgMatches;
use std::alloc::{AllocError, Global};

/// What is said of warnings by their names, in the order of the words.
#[derive(Drop)]
pub struct Levels<'a> {
    /// Those that are left out, such as `L06`, `L06:TYPE` or `L06:INSTANCE`.
    pub allow: Vec<&'a str>,
    /// Those that are faults, such as `L06`; `all` is each.
    pub deny: Vec<&'a str>,
}

pub(crate) const ALLOW_HELP: &str =
    "With --lint: leaves out these warnings: L06, those about a type or an instance as L06:MOTOR, or all; may be repeated.";

pub(crate) const DENY_HELP: &str =
    "With --lint: ends with status 1 if one of these warnings remains, or nothing has the name; named as for --allow; may be repeated.";

/// Whether one of two lists has a name.
fn has_any(allow: &[&str], deny: &[&str]) -> bool
    ensures { result ≡ spec.has_any (map (λ t. t.now) allow.now) (map (λ t. t.now) deny.now) }
{
    !allow.is_empty() || !deny.is_empty()
}

/// What is said of warnings, from the parser's matches. Without warnings nothing can be said of them.
pub(crate) fn levels_of<'a>(
    alloc: Global,
    found: &ArgMatches<'a>,
    warns: bool,
) -> Result<Option<Levels<'a>>, AllocError>
    ensures levels { IfOk result (λ o. IfSome o (AreLevels (rows_of (found_of found.now)) warns)) }
    ensures none { IfOk result (λ o. IfNone o ((l : Levels) → AreLevels (rows_of (found_of found.now)) warns l → ⊥)) }
{
    let allow = texts_of(alloc, found, "allow")?;
    let deny = texts_of(alloc, found, "deny")?;
    let says = has_any(allow.as_slice(), deny.as_slice());
    if says && !warns {
        return Ok(None);
    }
    Ok(Some(Levels { allow, deny }))
}
