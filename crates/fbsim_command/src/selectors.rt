//! Which warnings a call leaves out, and which it denies.

ghost use Rattle.std.specs.Prelude.{◌≡◌, IfErr, IfOk, map};
ghost use Rattle.fbsim_command.specs.Selecting as spec;
ghost use Rattle.fbsim_command.specs.Selecting.{AreSelectors, IsSorting, IsUnsorted};

use crate::failure::Failure;
use fb_inputs::name;
use fb_lint::{LAST_NUMBER, Warning, is_about};
use fb_types::{Library, Name, Stimulus};
use fbsim_line::Levels;
use std::alloc::{AllocError, Global};

/// Warnings by their number.
#[derive(Clone, Copy)]
pub enum Which {
    /// All of them.
    All,
    /// Those of this number.
    Number(u8),
}

/// Warnings by their number and by what they are about, such as `all`, `L06` or `L06:MOTOR`.
#[derive(Drop)]
pub struct Selector {
    pub which: Which,
    /// The name of the type or the instance that they are about, in upper case, if only those are meant.
    pub about: Option<Name>,
}

/// What a call says of warnings.
pub struct Sorting {
    /// Those that are left out.
    pub allowed: Vec<Selector>,
    /// Those that are faults.
    pub denied: Vec<Selector>,
}

// Drop is written by hand, so that it is one call wherever these are dropped (docs/DECISIONS.md, "Drop").
impl Drop for Sorting {
    fn drop(self) {
        let Sorting {
            allowed: _,
            denied: _,
        } = self;
    }
}

/// Whether three bytes are the word `all`.
fn is_all(first: u8, second: u8, third: u8) -> bool
    ensures { result ≡ spec.is_all first second third }
{
    first.to_ascii_lowercase() == b'a'
        && second.to_ascii_lowercase() == b'l'
        && third.to_ascii_lowercase() == b'l'
}

/// The number that two digits give.
fn number_of(tens: u8, ones: u8) -> Option<u8>
    ensures { result ≡ spec.number_of tens ones }
{
    if !tens.is_ascii_digit() || !ones.is_ascii_digit() {
        return None;
    }
    let number = (tens - b'0') * 10 + (ones - b'0');
    if number == 0 || number > LAST_NUMBER {
        return None;
    }
    Some(number)
}

/// The warnings that three bytes name: `all`, or a number such as `L06`, in any letter case.
fn which_of(first: u8, second: u8, third: u8) -> Option<Which>
    ensures { result ≡ spec.which_of first second third }
{
    if is_all(first, second, third) {
        return Some(Which::All);
    }
    if first.to_ascii_lowercase() != b'l' {
        return None;
    }
    match number_of(second, third) {
        Some(number) => Some(Which::Number(number)),
        None => None,
    }
}

/// The warnings that a text names, if it names some.
fn selector_of(alloc: Global, text: &str) -> Result<Option<Selector>, AllocError>
    ensures { IfOk result (λ s. s ≡ spec.selector_of text.now) }
{
    let bytes = text.as_bytes();
    if bytes.len() < 3 {
        return Ok(None);
    }
    let Some(which) = which_of(bytes[0], bytes[1], bytes[2]) else {
        return Ok(None);
    };
    if bytes.len() == 3 {
        return Ok(Some(Selector { which, about: None }));
    }
    if bytes[3] != b':' || bytes.len() == 4 {
        return Ok(None);
    }
    match name(alloc, &bytes[4..])? {
        Some(about) => Ok(Some(Selector {
            which,
            about: Some(about),
        })),
        None => Ok(None),
    }
}

/// The failure for a text that names no warning.
fn unknown(alloc: Global, text: &str) -> Failure
    ensures { spec.IsUnknown text.now result }
{
    match format!(in alloc; "error: no warning is called {text}\n") {
        Ok(line) => Failure::Line(line),
        Err(_) => Failure::Memory,
    }
}

/// The warnings that texts name.
///
/// # Errors
/// `Line` where one names none, and `Memory`.
fn selectors_of(alloc: Global, texts: &[&str]) -> Result<Vec<Selector>, Failure>
    ensures named { IfOk result (λ v. AreSelectors (map (λ t. t.now) texts.now) v.items) }
    ensures unknown { IfErr result (spec.AreUnknown (map (λ t. t.now) texts.now)) }
{
    let mut all = Vec::with_capacity(alloc, texts.len())?;
    for text in texts {
        match selector_of(alloc, *text)? {
            Some(selector) => all.push_reserved(selector),
            None => return Err(unknown(alloc, *text)),
        }
    }
    Ok(all)
}

/// What a call says of warnings.
///
/// # Errors
/// `Line` where a text names none, and `Memory`.
pub(crate) fn sorting_of(alloc: Global, levels: &Levels<'_>) -> Result<Sorting, Failure>
    ensures sorted { IfOk result (IsSorting levels.now) }
    ensures unknown { IfErr result (IsUnsorted levels.now) }
{
    let allowed = selectors_of(alloc, levels.allow.as_slice())?;
    let denied = selectors_of(alloc, levels.deny.as_slice())?;
    Ok(Sorting { allowed, denied })
}

impl Selector {
    /// Whether a warning is one of these.
    fn has(&self, library: &Library, stimuli: &[Stimulus], warning: &Warning) -> bool
        ensures { result ≡ spec.has self.now library.now stimuli.now warning.now }
    {
        match self.which {
            Which::Number(number) if number != warning.number() => return false,
            _ => {}
        }
        match &self.about {
            Some(name) => is_about(library, stimuli, warning, name),
            None => true,
        }
    }
}

/// Whether a warning is one of those that some selectors name.
pub(crate) fn is_selected(
    selectors: &[Selector],
    library: &Library,
    stimuli: &[Stimulus],
    warning: &Warning,
) -> bool
    ensures { result ≡ spec.is_selected selectors.now library.now stimuli.now warning.now }
{
    for selector in selectors {
        if selector.has(library, stimuli, warning) {
            return true;
        }
    }
    false
}
