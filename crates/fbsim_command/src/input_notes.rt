//! What is reported of a refusal whose place is in the deployment or in the stimuli.

ghost use Rattle.std.specs.Prelude.{◌≡◌, IfOk, string_bytes};
ghost use Rattle.fbsim_command.specs.InputNotes.{IsNotedAt, IsNoteWith, name_in, names_of};

use crate::notes::matter_at;
use crate::own_lines::placed;
use crate::texts::Texts;
use fb_why::{InputFile, InputPlace};
use std::alloc::{AllocError, Global};

/// The names that a call gives to its deployment and its stimuli, where it gives some.
#[derive(Clone, Copy)]
pub struct InputNames<'a> {
    pub deploy: Option<&'a str>,
    pub stimuli: Option<&'a str>,
}

/// A refusal: its number, and the inputs with the names that the call gives them.
#[derive(Clone, Copy)]
pub(crate) struct RefusedInputs<'a> {
    pub(crate) number: u8,
    /// The names of the files of block types.
    pub(crate) types: &'a [&'a str],
    /// The name of the declaration.
    pub(crate) own: &'a str,
    pub(crate) names: InputNames<'a>,
    pub(crate) texts: &'a Texts,
}

/// The name of an input. It is empty where the call names none.
fn name_in<'a>(names: &InputNames<'a>, file: InputFile) -> &'a str
    ensures { result.now ≡ name_in (names_of names.now) file }
{
    match file {
        InputFile::Deployment => names.deploy.unwrap_or(""),
        InputFile::Stimuli => names.stimuli.unwrap_or(""),
    }
}

/// The bytes of an input. There are none where the call names none.
fn bytes_in(texts: &Texts, file: InputFile) -> &[u8] {
    match file {
        InputFile::Deployment => texts.deployment().unwrap_or(b""),
        InputFile::Stimuli => texts.rows().unwrap_or(b""),
    }
}

/// The note for a place in an input.
fn note_at(
    alloc: Global,
    refused: &RefusedInputs<'_>,
    place: InputPlace,
    words: &str,
) -> Result<String, AllocError>
    ensures { IfOk result (λ note. IsNotedAt (names_of refused.now.names) place (string_bytes note)) }
{
    let name = name_in(&refused.names, place.file);
    let bytes = bytes_in(refused.texts, place.file);
    let matter = matter_at(alloc, refused.number, words, bytes, place.at)?;
    let column = place.at.column as u128;
    placed(alloc, name, place.at.line, column, matter.as_str())
}

/// The note with the place, if there is one, and else the words.
pub(crate) fn note_there(
    alloc: Global,
    refused: &RefusedInputs<'_>,
    place: Option<InputPlace>,
    words: String,
) -> Result<String, AllocError>
    ensures { IfOk result (λ note. IsNoteWith (names_of refused.now.names) place (string_bytes words) (string_bytes note)) }
{
    match place {
        Some(place) => note_at(alloc, refused, place, words.as_str()),
        None => Ok(words),
    }
}
