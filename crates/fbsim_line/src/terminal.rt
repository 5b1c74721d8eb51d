//! The words of a call where standard error is a terminal.

ghost use Rattle.std.specs.Prelude.{◌≡◌, IfOk, map};
ghost use Rattle.fbsim_line.specs.Terminal as spec;

use std::alloc::{AllocError, Global};

/// The commands that take `--why`.
const TAKERS: &[&str] = &[
    "run", "check", "wave", "expect", "diff", "draw", "inspect", "coverage",
];

/// Whether the command of this name takes `--why`.
fn takes_why(name: &str) -> bool
    ensures { result ≡ spec.takes_why name.now }
{
    TAKERS.contains(&name)
}

/// Whether one of the words asks for the locations of a refusal, or for none.
fn has_answer(words: &[&str]) -> bool
    ensures { result ≡ spec.has_answer (map (λ w. w.now) words.now) }
{
    let is_asked = words.contains(&"--why");
    let is_refused = words.contains(&"--no-why");
    is_asked || is_refused
}

/// Whether `--why` is missing in words: their command takes it, and they say nothing of it.
fn lacks_why(words: &[&str]) -> bool
    ensures { result ≡ spec.lacks_why (map (λ w. w.now) words.now) }
{
    if words.len() < 2 {
        return false;
    }
    takes_why(words[1]) && !has_answer(words)
}

/// The words of a call, the program's own name first, as they are understood where standard error is a terminal: a
/// command that takes `--why` has it, unless `--why` or `--no-why` is among the words.
pub fn words_on_terminal<'a>(alloc: Global, words: &[&'a str]) -> Result<Vec<&'a str>, AllocError>
    ensures { IfOk result (λ v. map (λ w. w.now) v.items ≡ spec.on_terminal (map (λ w. w.now) words.now)) }
{
    let (front, rest) = words.split_at(words.len().min(2));
    let mut all = Vec::from_slice(alloc, front)?;
    if lacks_why(words) {
        all.push("--why")?;
    }
    all.extend_from_slice(rest)?;
    Ok(all)
}
