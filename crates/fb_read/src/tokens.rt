//! The tokens of a whole text.

ghost use Rattle.std.specs.Prelude.{◌≡◌, ◌≤◌, ◌<◌, length, None, Ok, IfOk, IfErr};
ghost use Rattle.fb_read.specs.Blank as blank;
ghost use Rattle.fb_read.specs.Front.{front};
ghost use Rattle.fb_read.specs.Tokens as spec;
ghost use Rattle.fb_read.specs.Located.{AreLocated, IsEnd};
ghost use Rattle.fb_read.specs.Refusals.{IsFaultOf, IsFoundAt, IsRefused, IsUnclosed};
ghost use Rattle.fb_read.specs.Whole.{most_bytes};

use crate::blank::{at, open_comment, skip};
use crate::expected::Expected;
use crate::front::{LexFault, faulty_len, front};
use crate::refused::{ReadFault, Refusal, TextFault};
use crate::token::{Located, Token};
use fb_types::Items;
use std::alloc::Global;

/// What follows one leading byte order mark.
#[tactic(auto, using(crate::proofs::lemmas::tokens::TextEnds::end_of_whole))]
fn after_mark(text: &[u8]) -> &[u8]
    ensures value { result.now ≡ spec.after_mark text.now }
    ensures end { IsEnd result.now text.now }
{
    if at(text, 0) == 0xEF && at(text, 1) == 0xBB && at(text, 2) == 0xBF {
        &text[3..]
    } else {
        text
    }
}

/// The refusal for the comment that is not closed in the rest of a text.
fn unclosed(text: &[u8], rest: &[u8]) -> ReadFault
    requires end { IsEnd rest.now text.now }
    requires none { blank.skip blank.start rest.now ≡ None }
    ensures { IsUnclosed text.now rest.now result }
{
    let before = text.len() - rest.len();
    let start = before + open_comment(rest);
    ReadFault::Refused(Refusal {
        fault: TextFault::Token,
        start,
        end: text.len(),
        expected: Expected::none(),
    })
}

/// The refusal for a fault at this offset.
fn faulty(text: &[u8], index: usize, fault: LexFault) -> ReadFault
    requires { index < length text.now }
    ensures { IsFaultOf text.now index fault result }
{
    match fault {
        LexFault::Memory => ReadFault::Memory,
        LexFault::Byte => ReadFault::Refused(Refusal {
            fault: TextFault::Byte,
            start: index,
            end: index + 1,
            expected: Expected::none(),
        }),
        LexFault::Token => {
            let end = index + faulty_len(&text[index..]);
            ReadFault::Refused(Refusal {
                fault: TextFault::Token,
                start: index,
                end,
                expected: Expected::none(),
            })
        }
    }
}

/// The token at the front of this end of the text, which begins at an offset, and its length.
fn token_at(
    alloc: Global,
    text: &[u8],
    index: usize,
    here: &[u8],
) -> Result<(Token, usize), ReadFault>
    requires { index < length text.now }
    ensures value { IfOk result (λ t. front here.now ≡ Ok t) }
    ensures within { IfOk result (λ t. (0 < t.1) × (t.1 ≤ length here.now)) }
    ensures fault { IfErr result (λ e. IsFoundAt text.now index (front here.now) e) }
{
    match front(alloc, here) {
        Ok(found) => Ok(found),
        Err(fault) => Err(faulty(text, index, fault)),
    }
}

/// The tokens of a text, each with its offset.
pub fn lex(alloc: Global, text: &[u8]) -> Result<Items<Located>, ReadFault>
    requires { length text.now ≤ most_bytes }
    ensures found { IfOk result (λ found. AreLocated text.now found (spec.after_mark text.now)) }
    // A token takes a byte.
    ensures few { IfOk result (λ found. length found ≤ length text.now) }
    ensures fault { IfErr result (λ e. IsRefused text.now e) }
{
    let mut found = Items::new(alloc);
    let mut rest = after_mark(text);
    'tokens: loop {
        let Some(here) = skip(rest) else {
            return Err(unclosed(text, rest));
        };
        if here.is_empty() {
            return Ok(found);
        }
        let index = text.len() - here.len();
        let (token, len) = token_at(alloc, text, index, here)?;
        found.push(Located { token, index })?;
        rest = here.split_at(len).1;
    }
}
