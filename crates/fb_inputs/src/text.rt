//! Names, and the parts of a text.

ghost use Rattle.std.specs.Prelude.{◌≡◌, IfOk, option_map};
ghost use Rattle.std.specs.List.{list_all};
ghost use Rattle.fb_inputs.specs.Words as spec;

use fb_read::keyword::keyword;
use fb_read::word::{in_upper, is_letter, is_word};
use fb_types::Name;
use std::alloc::{AllocError, Global};

fn are_words(text: &[u8]) -> bool
    ensures { result ≡ list_all spec.is_word text.now }
{
    for b in text {
        if !is_word(*b) {
            return false;
        }
    }
    true
}

fn is_identifier(text: &[u8]) -> bool
    ensures { result ≡ spec.is_identifier text.now }
{
    match text {
        [first, rest @ ..] => is_letter(*first) && are_words(rest),
        [] => false,
    }
}

/// Whether a word in upper case is a keyword.
fn is_keyword(word: &[u8]) -> bool
    ensures { result ≡ spec.is_keyword word.now }
{
    keyword(word).is_some()
}

/// The name of a text, in upper case. A keyword is no name.
#[tactic(auto, unfolding(crate::specs::Words::name))]
pub fn name(alloc: Global, text: &[u8]) -> Result<Option<Name>, AllocError>
    ensures { IfOk result (λ n. n ≡ spec.name text.now) }
{
    if !is_identifier(text) {
        return Ok(None);
    }
    let upper = in_upper(alloc, text)?;
    if is_keyword(upper.as_slice()) {
        return Ok(None);
    }
    Ok(Some(Name::from_slice(alloc, upper.as_slice())?))
}

/// What is before the first mark, and what follows it.
#[tactic(auto, unfolding(crate::specs::Words::parted))]
pub fn parted(text: &[u8], mark: u8) -> Option<(&[u8], &[u8])>
    ensures { option_map (λ p. (p.0.now, p.1.now)) result ≡ spec.parted mark text.now }
{
    for at in 0..text.len() {
        if text[at] == mark {
            return Some((&text[..at], &text[at + 1..]));
        }
    }
    None
}
