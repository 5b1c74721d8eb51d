//! What is reported after the line of a failure: its place.

ghost use Rattle.std.specs.Prelude.{◌≡◌, ◌++◌, IfOk, MatchOption, Ok, map, option_map, string_bytes};
ghost use Rattle.fbsim_command.specs.Notes.{AreNotesOfAll, Follows, IsMatter, IsNoteOfOne, IsPlaceIn, IsUnreadable, Notes, NotesInput, NotesNumber, NotesRest, NotesShown, SaysRefusal, SaysUnread, file_word, input_names, name_of, named_note, noted_of, number_of, on_line, rest_note};
ghost use Rattle.std.specs.List.{AllZip};
ghost use Rattle.fbsim_command.specs.InputNotes.{IsNoteThere, names_of, types_in};
ghost use Rattle.fbsim_command.specs.OwnLines.{IsPlaced};
ghost use Rattle.fbsim_command.specs.Texts.{given_of, lines_of};
ghost use Rattle.fbsim_command.specs.declared.sources.SourceFault.TheVariants as source;

use crate::failure::{Failure, RefusalLine};
use crate::input_notes::{InputNames, RefusedInputs, note_there};
use crate::own_lines::note_at;
use crate::shown::shown_name;
use crate::sources::SourceFault;
use crate::statuses::Done;
use crate::texts::{Part, Texts, Unread};
use fb_read_positions::{Place, excerpt};
use fb_why::{
    Findings, InputPlace, PlacedFinding, discard_findings, findings_of, places_in_inputs,
};
use fbsim_line::Task;
use std::alloc::{AllocError, Global};

/// The number of a fault of the grammar, whose line says where it is also.
const SYNTAX: u8 = 3;

/// What a file is called.
fn word_for(part: Part) -> &'static str
    ensures { result.now ≡ file_word part }
{
    match part {
        Part::BlockTypes(_) => "types",
        Part::Declaration => "declaration",
        Part::Deployment => "deployment",
        Part::Stimuli => "stimuli",
    }
}

/// Says that a file of this name can't be read.
fn words_of_name(name: &str) -> &'static str
    ensures { IsUnreadable name.now result.now }
{
    if name == "-" {
        "standard input can't be read, or was read before"
    } else {
        "no file of this name can be read"
    }
}

/// What is the matter with a file of this name. There are no words where the source ran out of memory.
fn words_for(name: &str, fault: SourceFault) -> Option<&'static str>
    ensures { MatchOption result (fault ≡ source.Memory) (λ words. IsMatter fault name.now words.now) }
{
    match fault {
        SourceFault::File => Some(words_of_name(name)),
        SourceFault::Folder => Some("this is a folder, not a file"),
        SourceFault::Memory => None,
    }
}

/// The name that a call gives to a file, where it gives one.
fn name_of<'a>(types: &[&'a str], task: &Task<'a>, part: Part) -> Option<&'a str>
    ensures { option_map (λ n. n.now) result ≡ name_of (map (λ t. t.now) types.now) task.now part }
{
    match part {
        Part::BlockTypes(index) => types.get(index).copied(),
        Part::Declaration => Some(task.declaration),
        Part::Deployment => task.deploy,
        Part::Stimuli => task.stimuli,
    }
}

/// What is the matter with a file of this name, which is called so.
fn named(alloc: Global, word: &str, name: &str, matter: &str) -> Result<String, AllocError>
    ensures { IfOk result (λ note. string_bytes note ≡ named_note word.now name.now matter.now) }
{
    let name = shown_name(alloc, name)?;
    Ok(format!(in alloc; "{word} {name}: {matter}")?)
}

/// The note to a file of this name, which is called so and is not read. There is none where the source ran out of
/// memory.
pub(crate) fn note_of_name(
    alloc: Global,
    word: &str,
    name: &str,
    fault: SourceFault,
) -> Result<Option<String>, AllocError>
    ensures { IfOk (noted_of result) (SaysUnread word.now name.now fault) }
{
    match words_for(name, fault) {
        Some(matter) => Ok(Some(named(alloc, word, name, matter)?)),
        None => Ok(None),
    }
}

/// The note to a file of this name, which is called so and is not read, where one is asked for.
pub(crate) fn note_where_asked(
    alloc: Global,
    why: bool,
    word: &str,
    name: &str,
    fault: SourceFault,
) -> Result<Option<String>, AllocError>
    ensures { IfOk (noted_of result) (Notes why (SaysUnread word.now name.now fault)) }
{
    if why {
        note_of_name(alloc, word, name, fault)
    } else {
        Ok(None)
    }
}

/// The note to a file of this name, which is called so and can't be read to its end.
pub(crate) fn note_of_rest(alloc: Global, word: &str, name: &str) -> Result<String, AllocError>
    ensures { IfOk result (λ note. string_bytes note ≡ rest_note word.now name.now) }
{
    named(alloc, word, name, "this file can't be read to its end")
}

/// The note to the end of a call that reads a trace of this name to its end: that of the file, if that can't be read,
/// where one is asked for.
pub(crate) fn note_of_trace_end(
    alloc: Global,
    why: bool,
    name: &str,
    end: &Result<Done, Failure>,
) -> Result<Option<String>, AllocError>
    ensures { IfOk (noted_of result) (NotesRest why name.now end.now) }
{
    if !why {
        return Ok(None);
    }
    match end {
        Err(Failure::File) => Ok(Some(note_of_rest(alloc, "trace", name)?)),
        _ => Ok(None),
    }
}

/// One of two notes: the first, if there is one, or else the second.
pub(crate) fn one_of(
    first: Result<Option<String>, AllocError>,
    second: Result<Option<String>, AllocError>,
) -> Result<Option<String>, AllocError>
    ensures { Follows (noted_of first) (λ note. noted_of second ≡ Ok note) (noted_of result) }
{
    match first? {
        Some(note) => Ok(Some(note)),
        None => second,
    }
}

/// Which file is not read, where that is asked for.
pub fn note_of_file(
    alloc: Global,
    types: &[&str],
    task: &Task<'_>,
    unread: Unread,
) -> Result<Option<String>, AllocError>
    ensures { IfOk (noted_of result) (NotesInput (map (λ t. t.now) types.now) task.now unread.part unread.fault) }
{
    if !task.why {
        return Ok(None);
    }
    match name_of(types, task, unread.part) {
        Some(name) => note_of_name(alloc, word_for(unread.part), name, unread.fault),
        None => Ok(None),
    }
}

/// The number of a refusal of the inputs.
pub(crate) fn number_of(failure: &Failure) -> Option<u8>
    ensures { result ≡ number_of failure.now }
{
    match failure {
        Failure::Refused(RefusalLine::Numbered(number)) => Some(*number),
        Failure::Refused(RefusalLine::Syntax(_)) => Some(SYNTAX),
        _ => None,
    }
}

/// What is the matter at a place: the number, the words, and the source line with a mark.
pub(crate) fn matter_at(
    alloc: Global,
    number: u8,
    words: &str,
    bytes: &[u8],
    at: Place,
) -> Result<String, AllocError> {
    let source = excerpt(alloc, bytes, at)?;
    let tens = number / 10;
    let ones = number % 10;
    Ok(format!(in alloc; "E{tens}{ones}: {words}\n{source}")?)
}

/// The note for a place at which the refusal applies.
fn note_at_place(
    alloc: Global,
    refused: &RefusedInputs<'_>,
    at: Place,
    words: &str,
) -> Result<String, AllocError>
    ensures { IfOk result (λ note. IsPlaced (types_in refused.now) refused.now.own.now (lines_of refused.now.texts.now) at.line at.column (string_bytes note)) }
{
    let declaration = refused.texts.declaration.as_slice();
    let lines = refused.texts.lines.as_slice();
    let matter = matter_at(alloc, refused.number, words, declaration, at)?;
    note_at(
        alloc,
        refused.types,
        refused.own,
        lines,
        at,
        matter.as_str(),
    )
}

/// The note for what was found elsewhere than in the declaration: at this place, if it has one.
fn note_elsewhere(
    alloc: Global,
    refused: &RefusedInputs<'_>,
    found: &PlacedFinding,
    place: Option<InputPlace>,
) -> Result<String, AllocError>
    requires { IsPlaceIn refused.now found.now place }
    ensures { IfOk result (λ note. IsNoteThere (names_of refused.now.names) (given_of refused.now.texts.now) found.now.finding.location (string_bytes found.now.finding.text) (string_bytes note)) }
{
    let words = found.finding.text.clone()?;
    note_there(alloc, refused, place, words)
}

/// The note for what was found, with its place: in the declaration, or else this one in another input.
fn note_of_finding(
    alloc: Global,
    refused: &RefusedInputs<'_>,
    found: &PlacedFinding,
    place: Option<InputPlace>,
) -> Result<String, AllocError>
    requires { IsPlaceIn refused.now found.now place }
    ensures { IfOk result (λ note. IsNoteOfOne refused.now found.now (string_bytes note)) }
{
    match found.place {
        Some(at) => note_at_place(alloc, refused, at, found.finding.text.as_str()),
        None => note_elsewhere(alloc, refused, found, place),
    }
}

/// Adds a note, on a line of its own.
fn push_note(text: &mut String, is_first: bool, note: &str) -> Result<(), AllocError>
    ensures { IfOk result (λ _. string_bytes text.new ≡ string_bytes text.old ++ on_line is_first note.now) }
{
    if !is_first {
        text.push_str("\n")?;
    }
    text.push_str(note)
}

/// The text with a note more.
fn with_note(mut text: String, is_first: bool, note: &str) -> Result<String, AllocError>
    ensures { IfOk result (λ all. string_bytes all ≡ string_bytes text ++ on_line is_first note.now) }
{
    push_note(&mut text, is_first, note)?;
    Ok(text)
}

/// The notes of all that was found, each on a line of its own. The place at the index of a finding is that in another
/// input than the declaration, if it has one there.
fn notes_at(
    alloc: Global,
    refused: &RefusedInputs<'_>,
    shown: &[PlacedFinding],
    places: &[Option<InputPlace>],
) -> Result<String, AllocError>
    requires { AllZip (IsPlaceIn refused.now) shown.now places.now }
    ensures { IfOk result (λ note. AreNotesOfAll refused.now shown.now (string_bytes note)) }
{
    let mut text = String::new(alloc);
    for (index, found) in shown.iter().enumerate() {
        let note = note_of_finding(alloc, refused, found, places[index])?;
        text = with_note(text, index == 0, note.as_str())?;
    }
    Ok(text)
}

/// The notes of all that was found, each on a line of its own.
fn notes_of(
    alloc: Global,
    refused: &RefusedInputs<'_>,
    shown: &[PlacedFinding],
) -> Result<String, AllocError>
    ensures { IfOk result (λ note. AreNotesOfAll refused.now shown.now (string_bytes note)) }
{
    let texts = refused.texts;
    let places = places_in_inputs(alloc, texts.deployment(), texts.rows(), shown)?;
    notes_at(alloc, refused, shown, places.as_slice())
}

/// The notes of the findings, and whether there are more. If nothing was found, there is none.
fn note_of_findings(
    alloc: Global,
    refused: &RefusedInputs<'_>,
    findings: &Findings,
) -> Result<Option<String>, AllocError>
    ensures { IfOk (noted_of result) (NotesShown refused.now findings.now) }
{
    let shown = findings.shown.as_slice();
    if shown.is_empty() {
        return Ok(None);
    }
    let text = notes_of(alloc, refused, shown)?;
    if findings.more {
        return Ok(Some(with_note(text, false, "and more")?));
    }
    Ok(Some(text))
}

/// The places at which the refusal of this number applies. There is none only if none is known.
pub(crate) fn note_of_number(
    alloc: Global,
    types: &[&str],
    own: &str,
    names: &InputNames<'_>,
    number: u8,
    texts: &Texts,
) -> Result<Option<String>, AllocError>
    ensures { IfOk (noted_of result) (NotesNumber (map (λ t. t.now) types.now) own.now (names_of names.now) (lines_of texts.now) (given_of texts.now) number) }
{
    let refused = RefusedInputs {
        number,
        types,
        own,
        names: *names,
        texts,
    };
    let declaration = texts.declaration.as_slice();
    let findings = findings_of(alloc, number, declaration, texts.deployment(), texts.rows())?;
    let note = note_of_findings(alloc, &refused, &findings);
    discard_findings(findings);
    note
}

/// The location of a failure, if it is known and asked for.
pub fn note_of(
    alloc: Global,
    types: &[&str],
    task: &Task<'_>,
    failure: &Failure,
    texts: &Texts,
) -> Result<Option<String>, AllocError>
    ensures { IfOk (noted_of result) (Notes task.now.why (SaysRefusal (map (λ t. t.now) types.now) task.now.declaration.now (input_names task.now) (lines_of texts.now) (given_of texts.now) failure.now)) }
{
    if !task.why {
        return Ok(None);
    }
    let Some(number) = number_of(failure) else {
        return Ok(None);
    };
    let names = InputNames {
        deploy: task.deploy,
        stimuli: task.stimuli,
    };
    note_of_number(alloc, types, task.declaration, &names, number, texts)
}
