//! The text of the lines that have become final, where workers made it with their jobs.

ghost use Rattle.std.specs.Prelude.{All, IfOk, IfSome};
ghost use Rattle.fb_system.specs.OfSystem.{BelongsTo};
ghost use Rattle.fb_trace.specs.Marks.{IsMarkedText};
ghost use Rattle.fb_sim.specs.Texts.{AreTextsFrom, AreTextsOf, IsTextFrom};

use fb_system::System;
use fb_trace::{MarkedText, marked_text};
use fb_types::{Form, Line};
use std::alloc::{AllocError, Global};

/// The text of fewer lines than this is made again without delay.
const SHORT: usize = 64;

/// Texts of fewer lines than this are not joined: the text is made from the lines sooner.
const MANY: usize = 1024;

/// How many lines the texts are of, up to the greatest `usize`.
fn lines_in(texts: &[Option<MarkedText>]) -> usize {
    let mut count: usize = 0;
    for text in texts {
        if let Some(text) = text {
            count = count.saturating_add(text.lines);
        }
    }
    count
}

/// For each resource the text of its final lines.
#[derive(Drop)]
pub(crate) struct FinalTexts {
    /// The form of all texts.
    pub form: Form,
    /// The texts, one for each resource.
    pub all: Vec<MarkedText>,
}

/// The text of lines that are the first ones of a job: that of the job, if these are all its lines. Otherwise it is made,
/// but only if they are few.
fn text_for(
    alloc: Global,
    system: &System,
    form: Form,
    lines: &[Line],
    text: Option<MarkedText>,
) -> Result<Option<MarkedText>, AllocError>
    requires belong { All (BelongsTo system.now) lines.now }
    requires text { IsTextFrom system.now lines.now text }
    ensures { IfOk result (λ found. IfSome found (IsMarkedText system.now form lines.now)) }
{
    if let Some(text) = text {
        if text.form == form && text.lines == lines.len() {
            return Ok(Some(text));
        }
    }
    if lines.len() >= SHORT {
        return Ok(None);
    }
    let text = marked_text(alloc, system, form, lines)?;
    Ok(Some(text))
}

/// The text of the final lines of each resource, if the texts of their jobs are of use: where the final lines of each are
/// the first ones of its job, and mostly all.
fn texts_for(
    alloc: Global,
    system: &System,
    form: Form,
    finals: &[Vec<Line>],
    texts: Vec<Option<MarkedText>>,
) -> Result<Option<FinalTexts>, AllocError>
    requires belong { All (λ p. All (BelongsTo system.now) p.items) finals.now }
    requires texts { AreTextsFrom system.now finals.now texts.items }
    ensures { IfOk result (λ found. IfSome found (AreTextsOf system.now finals.now)) }
{
    let mut all = Vec::with_capacity(alloc, finals.len())?;
    for text in texts {
        let Some(lines) = finals.get(all.len()) else {
            return Ok(None);
        };
        let Some(text) = text_for(alloc, system, form, lines, text)? else {
            return Ok(None);
        };
        all.push_reserved(text);
    }
    if all.len() < finals.len() {
        return Ok(None);
    }
    Ok(Some(FinalTexts { form, all }))
}

/// The text of the final lines of each resource, if the texts of their jobs are there, are of many lines and of use.
pub(crate) fn final_texts(
    alloc: Global,
    system: &System,
    form: Form,
    finals: &[Vec<Line>],
    texts: Option<Vec<Option<MarkedText>>>,
) -> Result<Option<FinalTexts>, AllocError>
    requires belong { All (λ p. All (BelongsTo system.now) p.items) finals.now }
    requires texts { IfSome texts (λ ts. AreTextsFrom system.now finals.now ts.items) }
    ensures { IfOk result (λ found. IfSome found (AreTextsOf system.now finals.now)) }
{
    match texts {
        Some(texts) => {
            if lines_in(&texts) < MANY {
                return Ok(None);
            }
            texts_for(alloc, system, form, finals, texts)
        }
        None => Ok(None),
    }
}
