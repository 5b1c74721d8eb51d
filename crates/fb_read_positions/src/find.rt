//! Finds a position of a declaration in its text.

ghost use Rattle.std.specs.Prelude.{◌≡◌, ◌≤◌, ◌<◌, ◌^◌, ◌-◌, ◌↔◌, IfNone, IfOk, IfSome, IsTrue, List, MatchOption, Ok, length, drop};
ghost use Rattle.std.specs.Option.{option_copied};
ghost use Rattle.fb_read.specs.declared.token.Located.{Located};
ghost use Rattle.fb_read.specs.declared.token.Token.TheVariants as variant;
ghost use Rattle.fb_read.specs.Located.{AreLocated};
ghost use Rattle.fb_read.specs.Refusals.{IsNext};
ghost use Rattle.fb_read.specs.Tokens.{after_mark};
ghost use Rattle.fb_read.specs.Whole.{most_bytes};
ghost use Rattle.fb_read_positions.specs.Spans.{DeclaresNothing, IsAt, IsNamed, IsNowhere};
ghost use Rattle.fb_read_positions.specs.Resumed.{IsReached};

use crate::names::name_at;
use crate::position::Position;
use crate::resume::{Reached, beginning, reach};
use fb_read::ReadFault;
use fb_read::front::{LexFault, front};
use fb_read::read::span_before;
use fb_read::token::{Located, Span, Token};
use fb_read::tokens::lex;
use fb_types::{Items, Library, MOST_BYTES, Name};
use std::alloc::{AllocError, Global};

/// Whether a token is this name.
fn is_name(token: &Token, name: &Name) -> bool
    ensures { IsTrue result ↔ (token.now ≡ variant.Name name.now) }
{
    match token {
        Token::Name(found) => found.is(name),
        _ => false,
    }
}

/// Whether the first of these tokens, which is at these bytes, is the name that is asked for, if one is.
fn is_named(alloc: Global, text: &[u8], span: Span, name: Option<&Name>) -> Result<bool, AllocError>
    requires { (left : List Located) × IsNext left text.now span.start span.end }
    ensures { IfOk result (λ b. IsTrue b ↔ IsNamed text.now (option_copied name.entry) span) }
{
    let Some(name) = name else {
        return Ok(true);
    };
    match front(alloc, &text[span.start..]) {
        Ok((token, _len)) => {
            let found = is_name(&token, name);
            drop(token);
            Ok(found)
        }
        Err(LexFault::Memory) => Err(AllocError),
        // No token is there, as at the end of the text.
        Err(LexFault::Byte) => Ok(false),
        Err(LexFault::Token) => Ok(false),
    }
}

/// The tokens of a text, for the bytes at positions in it. `None` if the text is refused for a byte, a token or its
/// length.
///
/// # Errors
///
/// When memory runs out.
pub fn tokens_of(alloc: Global, text: &[u8]) -> Result<Option<Items<Located>>, AllocError>
    ensures few { IfOk result (λ o. IfSome o (λ tokens. length tokens ≤ most_bytes)) }
    ensures located { IfOk result (λ o. IfSome o (λ tokens. AreLocated text.now tokens (after_mark text.now))) }
    ensures none { IfOk result (λ o. IfNone o (DeclaresNothing text.now)) }
{
    if text.len() > MOST_BYTES {
        return Ok(None);
    }
    match lex(alloc, text) {
        Ok(tokens) => Ok(Some(tokens)),
        Err(ReadFault::Memory) => Err(AllocError),
        Err(ReadFault::Refused(_refusal)) => Ok(None),
    }
}

/// Frees tokens. Each crate that drops some proves their destructors again, so other crates call this function.
pub fn discard(tokens: Items<Located>) {
    drop(tokens);
}

/// The bytes of a token, and how far its text was read.
#[derive(Clone, Copy)]
pub(crate) struct Found {
    /// The bytes of the token at the position. `None` if there is no such position.
    pub span: Option<Span>,
    /// How far the text was read.
    pub reached: Reached,
}

/// The bytes of the token at a position of a declaration, from the tokens of the text that declares this library, and
/// from where they were read before. Positions that follow the order of the block types are found by one walk.
///
/// # Errors
///
/// When memory runs out.
pub(crate) fn span_from(
    alloc: Global,
    text: &[u8],
    tokens: &[Located],
    library: &Library,
    reached: Reached,
    position: Position,
) -> Result<Found, AllocError>
    requires few { length tokens.now ≤ most_bytes }
    requires located { AreLocated text.now tokens.now (after_mark text.now) }
    requires reached { IsReached tokens.now reached }
    ensures found { IfOk result (λ f. MatchOption f.span (IsNowhere text.now library.now position) (IsAt text.now library.now position)) }
    ensures reached { IfOk result (λ f. IsReached tokens.now f.reached) }
{
    let Some(stop) = reach(alloc, tokens, reached, position)? else {
        return Ok(Found {
            span: None,
            reached,
        });
    };
    let reached = stop.reached;
    let span = span_before(alloc, text, tokens, stop.left)?;
    let is_there = is_named(alloc, text, span, name_at(position, library))?;
    if is_there {
        Ok(Found {
            span: Some(span),
            reached,
        })
    } else {
        Ok(Found {
            span: None,
            reached,
        })
    }
}

/// The bytes of the token at a position of a declaration, in the text that declares this library. `None` if there is no
/// such position. The text is one that was read as this library; it is read again for that.
///
/// # Errors
///
/// When memory runs out.
pub fn span_of(
    alloc: Global,
    text: &[u8],
    library: &Library,
    position: Position,
) -> Result<Option<Span>, AllocError>
    ensures { IfOk result (λ o. MatchOption o (IsNowhere text.now library.now position) (IsAt text.now library.now position)) }
{
    let Some(tokens) = tokens_of(alloc, text)? else {
        return Ok(None);
    };
    let found = span_from(
        alloc,
        text,
        tokens.as_slice(),
        library,
        beginning(),
        position,
    );
    discard(tokens);
    Ok(found?.span)
}
