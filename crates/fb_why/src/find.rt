//! The refusal of a text, and its place.

ghost use Rattle.std.specs.Prelude.{◌≤◌, IfOk, IfSome, MatchOption, length};
ghost use Rattle.fb_read.specs.Located.{AreLocated};
ghost use Rattle.fb_read.specs.Refusals.{IsFaultAt};
ghost use Rattle.fb_read.specs.Tokens.{after_mark};
ghost use Rattle.fb_read.specs.Whole.{IsLibraryText};
ghost use Rattle.fb_types.specs.declared.library.Library.{Library};
ghost use Rattle.fb_why.specs.Faults.{EndsAt, IsAfterToken, IsShownFor, IsTextRefusal};
ghost use Rattle.fb_read_positions.specs.Places.{IsPlace};

use fb_read::read::span_before;
use fb_read::token::Located;
use fb_read::{ReadFault, Refusal, TextFault, discard, read_located};
use fb_read_positions::hints::misses_semicolon;
use fb_read_positions::{Place, discard as discard_tokens, place_between, tokens_of};
use std::alloc::{AllocError, Global};

/// Why a declaration text is refused, and where it shows.
#[derive(Clone, Copy)]
pub struct TextRefusal {
    /// What is wrong, and what was expected.
    pub refusal: Refusal,
    /// Where it is shown: at the token that is refused, or where a semicolon is missing before it.
    pub place: Place,
}

/// The end of the last of these tokens of a text.
fn end_of_last(alloc: Global, text: &[u8], tokens: &[Located]) -> Option<usize>
    requires { AreLocated text.now tokens.now (after_mark text.now) }
    ensures { IfSome result (EndsAt text.now) }
{
    if tokens.is_empty() {
        return None;
    }
    match span_before(alloc, text, tokens, 1) {
        Ok(span) => Some(span.end),
        Err(_) => None,
    }
}

/// Where the last token of a text ends. `None` if memory runs out too, and for a text that has no tokens.
fn end_of_tokens(alloc: Global, text: &[u8]) -> Option<usize>
    ensures { IfSome result (EndsAt text.now) }
{
    match tokens_of(alloc, text) {
        Ok(Some(tokens)) => {
            let end = end_of_last(alloc, text, tokens.as_slice());
            discard_tokens(tokens);
            end
        }
        Ok(None) | Err(_) => None,
    }
}

/// The end of the last token before an offset, if a line ends between them.
fn end_of_earlier_line(alloc: Global, text: &[u8], offset: usize) -> Option<Place>
    requires { offset ≤ length text.now }
    ensures place { IfSome result (IsPlace text.now) }
    ensures after { IfSome result (IsAfterToken text.now offset) }
{
    let before = &text[..offset];
    let end = end_of_tokens(alloc, before)?;
    if !before[end..].contains(&b'\n') {
        return None;
    }
    place_between(text, end, end)
}

/// Where a refusal is shown: where a semicolon is missing before the token that is refused, if one is and the token
/// before is on an earlier line, or else at this token.
fn shown(alloc: Global, text: &[u8], refusal: Refusal) -> Place
    requires { IsFaultAt refusal.fault text.now refusal.start refusal.end }
    ensures place { IsPlace text.now result }
    ensures shown { IsShownFor text.now refusal.fault refusal.start refusal.end result }
{
    if let TextFault::Syntax = refusal.fault {
        if misses_semicolon(alloc, refusal.expected) {
            if let Some(place) = end_of_earlier_line(alloc, text, refusal.start) {
                return place;
            }
        }
    }
    match place_between(text, refusal.start, refusal.end) {
        Some(place) => place,
        None => unreachable!(),
    }
}

/// Why a text is refused, and where. `None` if it declares a library. The text is read once for that.
///
/// # Errors
///
/// When memory runs out.
pub fn text_refusal(alloc: Global, text: &[u8]) -> Result<Option<TextRefusal>, AllocError>
    ensures { IfOk result (λ o. MatchOption o ((library : Library) × IsLibraryText text.now library) (IsTextRefusal text.now)) }
{
    match read_located(alloc, text) {
        Ok(library) => {
            discard(library);
            Ok(None)
        }
        Err(ReadFault::Memory) => Err(AllocError),
        Err(ReadFault::Refused(refusal)) => {
            let place = shown(alloc, text, refusal);
            Ok(Some(TextRefusal { refusal, place }))
        }
    }
}
