//! Rows of stimuli.

ghost use Rattle.std.specs.Prelude.{◌≡◌, ◌++◌, [], ◌∷◌, length, not, ◌==◌, if◌then◌else◌, IfOk, option_map};
ghost use Rattle.fb_inputs.specs.Lists.{each_at};
ghost use Rattle.fb_inputs.specs.StimuliLocations.{AnswersInRow, value_at, word_at};
ghost use Rattle.fb_inputs.specs.Refusals.{or_refuse};
ghost use Rattle.fb_inputs.specs.Rows as spec;

use crate::location::{RowError, RowFault};
use crate::number::value_of;
use crate::text::{name, parted};
use fb_types::{Items, Name, Setting, Value};
use std::alloc::{AllocError, Global};

/// A variable, with the value that a row gives it, if that is a value.
#[derive(Drop)]
pub struct Word {
    /// The name of the variable.
    pub variable: Name,
    /// The value, or none if the text is not a value.
    pub value: Option<Value>,
}

/// A row of the right shape, without its tick.
#[derive(Drop)]
pub struct Draft {
    /// The name of the instance.
    pub instance: Name,
    /// The name of the event.
    pub event: Name,
    /// The variables with their values, in the order of the row.
    pub words: Items<Word>,
}

/// The instance and the event that `INSTANCE.EVENT` names.
#[tactic(auto, unfolding(crate::specs::Rows::event))]
fn event(alloc: Global, text: &[u8]) -> Result<Option<(Name, Name)>, AllocError>
    ensures { IfOk result (λ r. r ≡ spec.event text.now) }
{
    let Some((before, following)) = parted(text, b'.') else {
        return Ok(None);
    };
    let Some(instance) = name(alloc, before)? else {
        return Ok(None);
    };
    let Some(event) = name(alloc, following)? else {
        return Ok(None);
    };
    Ok(Some((instance, event)))
}

/// The word `NAME=VALUE`.
#[tactic(auto, unfolding(crate::specs::Rows::word))]
fn word_of(alloc: Global, text: &[u8]) -> Result<Option<Word>, AllocError>
    ensures { IfOk result (λ r. r ≡ spec.word text.now) }
{
    let Some((before, following)) = parted(text, b'=') else {
        return Ok(None);
    };
    let Some(variable) = name(alloc, before)? else {
        return Ok(None);
    };
    let value = value_of(following);
    Ok(Some(Word { variable, value }))
}

/// The word with this index.
fn read_word(alloc: Global, text: &[u8], index: usize) -> Result<Word, RowError>
    ensures { AnswersInRow (λ w. w) (or_refuse (word_at index) (spec.word text.now)) result }
{
    match word_of(alloc, text)? {
        Some(word) => Ok(word),
        None => Err(RowError::At(RowFault::Word(index))),
    }
}

/// The words between spaces. The first one that is not `NAME=VALUE` is at fault.
fn words(alloc: Global, text: &[u8]) -> Result<Items<Word>, RowError>
    ensures { AnswersInRow (λ w. w) (each_at word_at spec.word 0 (spec.words text.now)) result }
{
    let mut found = Items::new(alloc);
    for part in text.split(|b| *b == b' ') {
        if part.is_empty() {
            continue;
        }
        let word = read_word(alloc, part, found.len())?;
        found.push(word)?;
    }
    Ok(found)
}

/// The parts of a row, each with its value, if that is a value.
#[tactic(auto, unfolding(crate::specs::Rows::draft))]
pub fn draft_of(alloc: Global, at: &[u8], values: &[u8]) -> Result<Draft, RowError>
    ensures { AnswersInRow (λ d. d) (spec.draft at.now values.now) result }
{
    let Some((instance, event)) = event(alloc, at)? else {
        return Err(RowError::At(RowFault::Event));
    };
    let words = words(alloc, values)?;
    Ok(Draft {
        instance,
        event,
        words,
    })
}

/// The value for the slot of the word with this index.
fn setting_of(word: Word, index: usize) -> Result<Setting, RowError>
    ensures { AnswersInRow (λ s. s) (or_refuse (value_at index) (spec.setting word)) result }
{
    let Word { variable, value } = word;
    match value {
        Some(value) => Ok(Setting { variable, value }),
        None => Err(RowError::At(RowFault::Value(index))),
    }
}

/// The values for the slots. The first one that is not a value is at fault.
pub fn settings(alloc: Global, words: Items<Word>) -> Result<Items<Setting>, RowError>
    ensures { AnswersInRow (λ s. s) (each_at value_at spec.setting 0 words) result }
{
    let mut found = Items::new(alloc);
    for word in words.into_vec() {
        let setting = setting_of(word, found.len())?;
        found.push(setting)?;
    }
    Ok(found)
}
