//! Refusals of a declaration in several files: the name of the file and the line in it, in place of the line of the
//! whole.

ghost use Rattle.std.specs.Prelude.{◌≡◌, IfOk, map, string_bytes};
ghost use Rattle.fbsim_command.specs.OwnLines as spec;
ghost use Rattle.fbsim_command.specs.OwnLines.{EndsIn, IsPlaced, IsPlacedText, IsSyntaxIn, IsSyntaxText};
ghost use Rattle.fbsim_command.specs.Texts.{lines_of};

use crate::failure::{Failure, RefusalLine};
use crate::join::{FileLines, file_name, line_in_file};
use crate::shown::shown_name;
use crate::statuses::Done;
use crate::texts::Texts;
use fb_read_positions::Place;
use std::alloc::{AllocError, Global};

/// The text of a syntax fault in this line of a file.
fn syntax_text(alloc: Global, name: &str, line: usize) -> Result<String, AllocError>
    ensures { IfOk result (λ text. string_bytes text ≡ spec.syntax_in name.now line) }
{
    let name = shown_name(alloc, name)?;
    Ok(format!(in alloc; "refused E03 {name} line {line}")?)
}

/// The failure for a syntax fault in this line of a file.
fn syntax_of_file(alloc: Global, name: &str, line: usize) -> Failure
    ensures { IsSyntaxText name.now line result }
{
    match syntax_text(alloc, name, line) {
        Ok(text) => Failure::RefusedTrace(text),
        Err(_) => Failure::Memory,
    }
}

/// The failure for a syntax fault in this line of the whole text.
fn syntax_in(alloc: Global, types: &[&str], own: &str, lines: &[FileLines], whole: u32) -> Failure
    ensures { IsSyntaxIn (map (λ t. t.now) types.now) own.now lines.now whole result }
{
    match line_in_file(lines, whole as usize) {
        Some(at) => syntax_of_file(alloc, file_name(types, own, at.file), at.line),
        None => Failure::Refused(RefusalLine::Syntax(whole)),
    }
}

/// The line of a syntax fault, if a call ends by one.
fn syntax_line(end: &Result<Done, Failure>) -> Option<u32>
    ensures { result ≡ spec.syntax_line end.now }
{
    match end {
        Err(Failure::Refused(RefusalLine::Syntax(line))) => Some(*line),
        _ => None,
    }
}

/// How a call ends of which the declaration is in files of these names, with these lines each. Without lines it is in
/// one file.
pub(crate) fn end_in(
    alloc: Global,
    types: &[&str],
    own: &str,
    lines: &[FileLines],
    end: Result<Done, Failure>,
) -> Result<Done, Failure>
    ensures { EndsIn (map (λ t. t.now) types.now) own.now lines.now end result }
{
    match syntax_line(&end) {
        Some(whole) => Err(syntax_in(alloc, types, own, lines, whole)),
        None => end,
    }
}

/// How a call ends that has read these texts.
pub(crate) fn end_with(
    alloc: Global,
    types: &[&str],
    own: &str,
    texts: &Texts,
    end: Result<Done, Failure>,
) -> Result<Done, Failure>
    ensures { EndsIn (map (λ t. t.now) types.now) own.now (lines_of texts.now) end result }
{
    end_in(alloc, types, own, texts.lines.as_slice(), end)
}

/// The text of a place in the file of this name, as editors take it, with what is the matter there.
fn placed_text(
    alloc: Global,
    name: &str,
    line: usize,
    column: u128,
    matter: &str,
) -> Result<String, AllocError>
    ensures { IfOk result (λ text. string_bytes text ≡ spec.placed_text name.now line column matter.now) }
{
    let name = shown_name(alloc, name)?;
    Ok(format!(in alloc; "{name}:{line}:{column}: {matter}")?)
}

/// The note for a place in the file of this name, which names it as editors do.
pub(crate) fn placed(
    alloc: Global,
    name: &str,
    line: usize,
    column: u128,
    matter: &str,
) -> Result<String, AllocError>
    ensures { IfOk result (λ note. IsPlacedText name.now line column (string_bytes note)) }
{
    Ok(placed_text(alloc, name, line, column, matter)?)
}

/// The note for a place in the text of a declaration in files of these names, with these lines each. Without lines it is
/// in one file.
pub(crate) fn note_at(
    alloc: Global,
    types: &[&str],
    own: &str,
    lines: &[FileLines],
    at: Place,
    matter: &str,
) -> Result<String, AllocError>
    ensures { IfOk result (λ note. IsPlaced (map (λ t. t.now) types.now) own.now lines.now at.line at.column (string_bytes note)) }
{
    match line_in_file(lines, at.line) {
        Some(there) => {
            let name = file_name(types, own, there.file);
            placed_text(alloc, name, there.line, there.column(at.column), matter)
        }
        None => placed_text(alloc, own, at.line, at.column as u128, matter),
    }
}
