//! Whole declaration texts.

ghost use Rattle.std.specs.Prelude.{◌≡◌, ◌+◌, ◌-◌, ◌≤◌, ◌<◌, ◌==◌, ◌↔◌, length, take, drop, count_by, Err, IfOk, IfErr, IfSome, IsErrOf, IsTrue, is_some};
ghost use Rattle.fb_types.specs.declared.library.Library.{Library};
ghost use Rattle.fb_read.specs.Front.{bad_byte, bad_token};
ghost use Rattle.fb_read.specs.Tokens.{after_mark};
ghost use Rattle.fb_read.specs.Located.{AreLocated, IsLocatedEnd};
ghost use Rattle.fb_read.specs.Refusals.{IsAtNext, IsDeepLen, IsErrorAt, IsErrorFor, IsErrorOf, IsFaultAt, IsFirstDeep, IsNext, IsRefused, IsRightError, IsSameFault, IsTokenLen, IsTooDeep, IsUnread, IsUnreadOf, too_long};
ghost use Rattle.fb_read.specs.Whole.{IsDerived, IsLibraryText, IsNesting, HasTokenFault, HasTokens, RefusesWhere, IsMemory, IsGrammarFault, most_bytes};

use crate::cursor::Cursor;
use crate::error::ReadError;
use crate::expected::{Expected, expected_at};
use crate::fault::ParseFault;
use crate::front::{LexFault, front};
use crate::nesting::probable_len;
use crate::refused::{ReadFault, Refusal, TextFault};
use crate::rule::Rule;
use crate::token::{Located, Span};
use crate::tokens::lex;
use fb_types::{Items, Library, MOST_BYTES};
use std::alloc::{AllocError, Global};

/// Why a text is not read. Where it nests too deep isn't searched yet: only the place needs that.
#[derive(Clone, Copy)]
enum Unread {
    Fault(ReadFault),
    /// Something nests too deep: a rule refuses it with this number of tokens left.
    Nesting(usize),
}

/// The length of the token at the front of a text. The token is dropped here, so that no caller has to drop it.
fn token_len(alloc: Global, z: &[u8]) -> Result<usize, LexFault>
    ensures { IfOk result (IsTokenLen z.now) }
{
    let (token, len) = front(alloc, z)?;
    drop(token);
    Ok(len)
}

/// The bytes of the first of these tokens, which are the last ones of the text, or its end if there is none.
fn span_at(alloc: Global, text: &[u8], left: &[Located]) -> Result<Span, AllocError>
    requires { IsLocatedEnd text.now left.now }
    ensures { IfOk result (λ span. IsNext left.now text.now span.start span.end) }
{
    let [first, ..] = left else {
        return Ok(Span {
            start: text.len(),
            end: text.len(),
        });
    };
    let start = first.index;
    let here = &text[start..];
    // It has been read before, so it fails for memory alone.
    match token_len(alloc, here) {
        Ok(len) => {
            let end = start + len;
            Ok(Span { start, end })
        }
        Err(_) => Err(AllocError),
    }
}

/// The bytes of the token before which this number of tokens of the text is left, or its end if none is.
///
/// # Errors
///
/// When memory runs out.
pub fn span_before(
    alloc: Global,
    text: &[u8],
    tokens: &[Located],
    left: usize,
) -> Result<Span, AllocError>
    requires { AreLocated text.now tokens.now (after_mark text.now) }
    ensures { IfOk result (λ span. IsNext (drop (length tokens.now - left) tokens.now) text.now span.start span.end) }
{
    let index = tokens.len().saturating_sub(left);
    span_at(alloc, text, &tokens[index..])
}

/// The refusal at the token before which this number of tokens of the text is left, or at its end.
fn refused_before(
    alloc: Global,
    text: &[u8],
    tokens: &[Located],
    left: usize,
    fault: TextFault,
) -> ReadFault
    requires { AreLocated text.now tokens.now (after_mark text.now) }
    ensures { IsAtNext text.now (drop (length tokens.now - left) tokens.now) fault result }
{
    match span_before(alloc, text, tokens, left) {
        Ok(Span { start, end }) => ReadFault::Refused(Refusal {
            fault,
            start,
            end,
            expected: Expected::none(),
        }),
        Err(_) => ReadFault::Memory,
    }
}

/// The number of tokens that a rule leaves where it refuses these for their nesting. `None` if none does.
fn nesting_left(alloc: Global, tokens: &[Located]) -> Result<Option<usize>, AllocError>
    requires { length tokens.now ≤ most_bytes }
    ensures { IfOk result (λ left. IsTrue (is_some left) ↔ IsTooDeep tokens.now) }
{
    let mut cursor = Cursor::new(alloc, tokens);
    match Library::read(&mut cursor) {
        Ok(library) => {
            drop(library);
            Ok(None)
        }
        Err(ParseFault::Memory) => Err(AllocError),
        Err(ParseFault::Syntax) => Ok(None),
        Err(ParseFault::Nesting) => Ok(Some(cursor.left())),
    }
}

/// The first of these elements, at most this number.
fn front_of<T>(all: &[T], len: usize) -> &[T]
    ensures { result.now ≡ take len all.now }
{
    if all.len() > len { &all[..len] } else { all }
}

/// How many of these tokens there are up to the first that nests too deep, or more. It is that token after which this
/// number is left: a rule refuses its nesting there.
fn refused_len(alloc: Global, tokens: &[Located], left: usize) -> Result<usize, AllocError>
    requires few { length tokens.now ≤ most_bytes }
    requires deep { IsTooDeep tokens.now }
    ensures { IfOk result (IsDeepLen tokens.now) }
{
    let len = tokens.len().saturating_sub(left);
    // All of them have been read.
    if left == 0 {
        return Ok(len);
    }
    let nests = nesting_left(alloc, front_of(tokens, len))?.is_some();
    if nests { Ok(len) } else { Ok(tokens.len()) }
}

/// How many of these tokens there are up to the first that nests too deep, where a rule that refuses them leaves this
/// number. It is searched from where it probably is, so that the first iteration ends the search.
fn deep_len(alloc: Global, tokens: &[Located], left: usize) -> Result<usize, AllocError>
    requires few { length tokens.now ≤ most_bytes }
    requires deep { IsTooDeep tokens.now }
    ensures { IfOk result (IsFirstDeep tokens.now) }
{
    let most = refused_len(alloc, tokens, left)?;
    for turn in 0..most {
        let len = most - turn;
        let nests = nesting_left(alloc, front_of(tokens, len - 1))?.is_some();
        if !nests {
            return Ok(len);
        }
    }
    Ok(most)
}

/// The refusal of tokens of which this many first ones nest too deep, where a rule that refuses those leaves this
/// number of them.
fn refused_nesting(
    alloc: Global,
    text: &[u8],
    tokens: &[Located],
    most: usize,
    left: usize,
) -> ReadFault
    requires short { length text.now ≤ most_bytes }
    requires few { length tokens.now ≤ most_bytes }
    requires located { AreLocated text.now tokens.now (after_mark text.now) }
    requires deep { IsTooDeep (take most tokens.now) }
    ensures { IsRefused text.now result }
{
    match deep_len(alloc, front_of(tokens, most), left) {
        Ok(len) => {
            let left = tokens.len() - len + 1;
            refused_before(alloc, text, tokens, left, TextFault::Nesting)
        }
        Err(_) => ReadFault::Memory,
    }
}

/// The refusal of tokens that nest too deep, if their marks show where. They are read up to there.
fn shown_nesting(
    alloc: Global,
    text: &[u8],
    tokens: &[Located],
) -> Result<Option<ReadFault>, AllocError>
    requires short { length text.now ≤ most_bytes }
    requires few { length tokens.now ≤ most_bytes }
    requires located { AreLocated text.now tokens.now (after_mark text.now) }
    ensures { IfOk result (λ fault. IfSome fault (IsRefused text.now)) }
{
    let most = probable_len(tokens);
    if most == tokens.len() {
        return Ok(None);
    }
    let read = nesting_left(alloc, front_of(tokens, most))?;
    match read {
        Some(left) => Ok(Some(refused_nesting(alloc, text, tokens, most, left))),
        None => Ok(None),
    }
}

/// The library that all of the tokens form.
fn parse(alloc: Global, text: &[u8], tokens: &[Located]) -> Result<Library, Unread>
    requires short { length text.now ≤ most_bytes }
    requires few { length tokens.now ≤ most_bytes }
    requires located { AreLocated text.now tokens.now (after_mark text.now) }
    ensures declared { IfOk result (λ library. IsLibraryText text.now library) }
    ensures refused { IfErr result (λ e. IsUnreadOf text.now tokens.now e) }
{
    let mut cursor = Cursor::new(alloc, tokens);
    match Library::read(&mut cursor) {
        Ok(library) => {
            let left = cursor.left();
            if left == 0 {
                Ok(library)
            } else {
                drop(library);
                let fault = refused_before(alloc, text, tokens, left, TextFault::Syntax);
                Err(Unread::Fault(fault))
            }
        }
        Err(ParseFault::Memory) => Err(Unread::Fault(ReadFault::Memory)),
        Err(ParseFault::Syntax) => {
            let left = cursor.left();
            let fault = refused_before(alloc, text, tokens, left, TextFault::Syntax);
            Err(Unread::Fault(fault))
        }
        Err(ParseFault::Nesting) => Err(Unread::Nesting(cursor.left())),
    }
}

/// The tokens of a text that is not too long.
fn tokens_in(alloc: Global, text: &[u8]) -> Result<Items<Located>, ReadFault>
    ensures short { IfOk result (λ tokens. length text.now ≤ most_bytes) }
    ensures few { IfOk result (λ tokens. length tokens ≤ most_bytes) }
    ensures located { IfOk result (λ tokens. AreLocated text.now tokens (after_mark text.now)) }
    ensures refused { IfErr result (λ e. IsRefused text.now e) }
    // No memory is used for a text that is too long.
    ensures too_long { most_bytes < length text.now → result ≡ Err too_long }
{
    if text.len() > MOST_BYTES {
        return Err(ReadFault::Refused(Refusal {
            fault: TextFault::TooLong,
            start: MOST_BYTES,
            end: MOST_BYTES + 1,
            expected: Expected::none(),
        }));
    }
    lex(alloc, text)
}

/// A refusal, for a syntax fault with what was expected in place of the bytes at which it shows. They are the bytes of
/// one of these tokens, or the end of their text.
fn with_expected(alloc: Global, tokens: Items<Located>, refusal: Refusal) -> ReadFault
    requires { length tokens ≤ most_bytes }
    ensures { IsSameFault refusal result }
{
    let Refusal {
        fault,
        start,
        end,
        ..
    } = refusal;
    let expected = match fault {
        TextFault::Syntax => expected_at(alloc, tokens, start),
        _ => {
            drop(tokens);
            Ok(Expected::none())
        }
    };
    match expected {
        Ok(expected) => ReadFault::Refused(Refusal {
            fault,
            start,
            end,
            expected,
        }),
        Err(_) => ReadFault::Memory,
    }
}

/// Reads the library that a declaration text declares. A syntax fault comes with what was expected, for which the
/// tokens are read once or twice more.
///
/// # Errors
///
/// Why the text is refused, and where it shows (E01 to E05), or `Memory`.
pub fn read_located(alloc: Global, text: &[u8]) -> Result<Library, ReadFault>
    // What is read is what the text declares.
    ensures declared { IfOk result (λ library. IsLibraryText text.now library) }
    // The refusal applies where it says.
    ensures refused { IfErr result (λ e. IsRefused text.now e) }
    // No memory is used for a text that is too long.
    ensures too_long { most_bytes < length text.now → result ≡ Err too_long }
{
    let tokens = tokens_in(alloc, text)?;
    let all = tokens.as_slice();
    if let Some(fault) = shown_nesting(alloc, text, all)? {
        return Err(fault);
    }
    match parse(alloc, text, all) {
        Ok(found) => Ok(found),
        Err(Unread::Fault(ReadFault::Memory)) => Err(ReadFault::Memory),
        Err(Unread::Fault(ReadFault::Refused(refusal))) => {
            Err(with_expected(alloc, tokens, refusal))
        }
        Err(Unread::Nesting(left)) => Err(refused_nesting(alloc, text, all, all.len(), left)),
    }
}

/// The line of an offset, counted from 1 by line feeds.
fn line_of(text: &[u8], index: usize) -> u32
    requires { length text.now ≤ most_bytes }
    ensures { result ≡ 1 + count_by (λ b. b == 10) (take index text.now) }
{
    let before = front_of(text, index);
    let mut line = 1;
    for byte in before {
        line += u32::from(*byte == b'\n');
    }
    line
}

/// The refusal by its number, with the line of its offset for a syntax fault.
fn error_at(text: &[u8], refusal: Refusal) -> ReadError
    requires { IsFaultAt refusal.fault text.now refusal.start refusal.end }
    ensures { IsErrorAt refusal.fault text.now refusal.start result }
{
    match refusal.fault {
        TextFault::Byte => ReadError::Byte,
        TextFault::Token => ReadError::Token,
        TextFault::Syntax => ReadError::Syntax {
            line: line_of(text, refusal.start),
        },
        TextFault::TooLong => ReadError::TooLong,
        TextFault::Nesting => ReadError::Nesting,
    }
}

/// The refusal without its offsets.
fn error_of(text: &[u8], fault: ReadFault) -> ReadError
    requires { IsRefused text.now fault }
    ensures { IsErrorOf text.now fault result }
{
    match fault {
        ReadFault::Memory => ReadError::Memory,
        ReadFault::Refused(refusal) => error_at(text, refusal),
    }
}

/// The refusal, which needs no place.
fn error_for(text: &[u8], unread: Unread) -> ReadError
    requires { IsUnread text.now unread }
    ensures { IsErrorFor text.now unread result }
{
    match unread {
        Unread::Fault(fault) => error_of(text, fault),
        Unread::Nesting(_) => ReadError::Nesting,
    }
}

/// Reads the library that a declaration text declares.
///
/// # Errors
///
/// Why the text is refused (E01 to E05), or `Memory`.
pub fn read_library(alloc: Global, text: &[u8]) -> Result<Library, ReadError>
    // What is read is what the text declares.
    ensures declared { IfOk result (λ library. IsLibraryText text.now library) }
    // A text that is refused for anything but memory declares nothing.
    ensures none { IfErr result (λ e. ¬ IsMemory e → (library : Library) → IsLibraryText text.now library → ⊥) }
    // A text that would declare a library without the nesting limit is refused for its nesting.
    ensures nesting { IfErr result (λ e. ¬ IsMemory e → (library : Library) → IsDerived text.now library → IsNesting e) }

    ensures too_long { IsErrOf result ReadError.TooLong ↔ (most_bytes < length text.now) }
    ensures byte { RefusesWhere result ReadError.Byte (HasTokenFault bad_byte text.now) }
    ensures token { RefusesWhere result ReadError.Token (HasTokenFault bad_token text.now) }
    ensures grammar { IfErr result (λ e. IsGrammarFault e → HasTokens text.now) }
    // It is what the definitions refuse, and a syntax fault has the line of the token at which they do.
    ensures exact { IfErr result (IsRightError text.now) }
{
    // Neither what was expected in place of a syntax fault nor the place of a nesting is searched.
    let tokens = match tokens_in(alloc, text) {
        Ok(tokens) => tokens,
        Err(fault) => return Err(error_for(text, Unread::Fault(fault))),
    };
    match parse(alloc, text, tokens.as_slice()) {
        Ok(library) => Ok(library),
        Err(unread) => Err(error_for(text, unread)),
    }
}
