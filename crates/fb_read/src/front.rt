//! The token at the front of a text.

ghost use Rattle.std.specs.Prelude.{◌≡◌, ◌<◌, ◌≤◌, length, IfOk, IsTrue};
ghost use Rattle.std.specs.Char.{is_ascii_digit};
ghost use Rattle.fb_read.specs.Blank.{at};
ghost use Rattle.fb_read.specs.Words.{is_letter};
ghost use Rattle.std.specs.Option.{ForSome};
ghost use Rattle.fb_read.specs.Limits.{most};
ghost use Rattle.fb_read.specs.Front as spec;
ghost use Rattle.fb_read.specs.Front.{Gives};

use crate::blank::at;
use crate::keyword::keyword;
use crate::number::number;
use crate::time::duration;
use crate::token::{Magnitude, Mark, Token};
use crate::word::{in_upper, is_letter, word_len};
use fb_types::Name;
use std::alloc::{AllocError, Global};

/// Why there is no token.
#[derive(Clone, Copy)]
pub enum LexFault {
    Memory,
    /// A byte that may occur only in comments.
    Byte,
    Token,
}

impl From<AllocError> for LexFault {
    ghost use Rattle.std.specs.Prelude.{◌≡◌};
    ghost use Rattle.fb_read.specs.declared.front.LexFault.TheVariants.{Memory};

    ghost from_gives = { λ _ e. e ≡ Memory };

    fn from(_: AllocError) -> LexFault {
        LexFault::Memory
    }
}

fn is_time_word(word: &[u8]) -> bool
    ensures { result ≡ spec.is_time_word word.now }
{
    word == b"T".as_slice() || word == b"TIME".as_slice()
}

fn parts_start(z: &[u8], start: usize) -> usize
    requires { start ≤ length z.now }
    ensures value { result ≡ spec.parts_start z.now start }
    ensures within { result ≤ length z.now }
    ensures following { start ≤ result }
{
    if at(z, start) == b'-' {
        start + 1
    } else {
        start
    }
}

/// The number of ticks, negated if `negative` is set.
fn signed(negative: bool, ticks: u128) -> i128
    requires { ticks ≤ most }
    ensures { result ≡ spec.signed negative ticks }
{
    let ticks = Magnitude::new(ticks);
    if negative {
        ticks.negative()
    } else {
        ticks.positive()
    }
}

/// A time literal, from the index after its `#`.
#[tactic(auto, unfolding(crate::specs::Front::time))]
fn time(alloc: Global, z: &[u8], start: usize) -> Result<(Token, usize), LexFault>
    requires some { 0 < start }
    requires within { start ≤ length z.now }
    ensures value { Gives result (spec.time z.now start) }
    ensures within { IfOk result (λ t. (0 < t.1) × (t.1 ≤ length z.now)) }
{
    let negative = at(z, start) == b'-';
    let first = parts_start(z, start);
    let parts = &z[first..];
    let len = word_len(parts);
    let text = in_upper(alloc, &parts[..len])?;
    match duration(text.as_slice()) {
        Some(ticks) => Ok((Token::Time(signed(negative, ticks)), first + len)),
        None => Err(LexFault::Token),
    }
}

/// A time literal, a keyword or a name.
#[tactic(auto, unfolding(crate::specs::Front::word))]
fn word(alloc: Global, z: &[u8]) -> Result<(Token, usize), LexFault>
    requires { IsTrue (is_letter (at z.now 0)) }
    ensures value { Gives result (spec.word z.now) }
    ensures within { IfOk result (λ t. (0 < t.1) × (t.1 ≤ length z.now)) }
{
    let end = word_len(z);
    let text = in_upper(alloc, &z[..end])?;
    if at(z, end) == b'#' && is_time_word(text.as_slice()) {
        return time(alloc, z, end + 1);
    }
    match keyword(text.as_slice()) {
        Some(mark) => Ok((Token::Mark(mark), end)),
        None => Ok((Token::Name(Name::from_slice(alloc, text.as_slice())?), end)),
    }
}

fn base_of(word: &[u8]) -> Option<u8>
    ensures { result ≡ spec.base_of word.now }
{
    match word {
        b"2" => Some(2),
        b"8" => Some(8),
        b"16" => Some(16),
        _ => None,
    }
}

/// The token of a whole literal.
fn whole(len: usize, value: Option<u128>) -> Result<(Token, usize), LexFault>
    requires { ForSome value (λ n. n ≤ most) }
    ensures value { Gives result (spec.whole len value) }
    ensures same_len { IfOk result (λ t. t.1 ≡ len) }
{
    match value {
        Some(value) => Ok((Token::Whole(Magnitude::new(value)), len)),
        None => Err(LexFault::Token),
    }
}

/// A whole literal: all letters, digits and underscores belong to it.
#[tactic(auto, unfolding(crate::specs::Front::literal))]
fn literal(z: &[u8]) -> Result<(Token, usize), LexFault>
    requires { IsTrue (is_ascii_digit (at z.now 0)) }
    ensures value { Gives result (spec.literal z.now) }
    ensures within { IfOk result (λ t. (0 < t.1) × (t.1 ≤ length z.now)) }
{
    let end = word_len(z);
    let base = if at(z, end) == b'#' {
        base_of(&z[..end])
    } else {
        None
    };
    match base {
        Some(base) => {
            let start = end + 1;
            let digits = &z[start..];
            let len = word_len(digits);
            whole(start + len, number(base, &digits[..len]))
        }
        None => whole(end, number(10, &z[..end])),
    }
}

/// The longest sign that two bytes begin with.
fn sign_of(b: u8, next: u8) -> Option<(Mark, usize)>
    ensures value { result ≡ spec.sign_of b next }
    ensures within { ForSome result (λ s. (0 < b) × (0 < s.1) × (s.1 ≤ 2) × (1 < s.1 → 0 < next)) }
{
    match b {
        b';' => Some((Mark::Semicolon, 1)),
        b':' => if next == b'=' {
            Some((Mark::Assign, 2))
        } else {
            Some((Mark::Colon, 1))
        },
        b',' => Some((Mark::Comma, 1)),
        b'.' => if next == b'.' {
            Some((Mark::DotDot, 2))
        } else {
            Some((Mark::Dot, 1))
        },
        b'(' => Some((Mark::Open, 1)),
        b')' => Some((Mark::Close, 1)),
        b'[' => Some((Mark::OpenSquare, 1)),
        b']' => Some((Mark::CloseSquare, 1)),
        b'-' => if next == b'>' {
            Some((Mark::Arrow, 2))
        } else {
            Some((Mark::Minus, 1))
        },
        b'=' => Some((Mark::Equal, 1)),
        b'<' => Some(match next {
            b'>' => (Mark::NotEqual, 2),
            b'=' => (Mark::LessOrEqual, 2),
            _ => (Mark::Less, 1),
        }),
        b'>' => if next == b'=' {
            Some((Mark::GreaterOrEqual, 2))
        } else {
            Some((Mark::Greater, 1))
        },
        b'+' => Some((Mark::Plus, 1)),
        b'*' => Some((Mark::Star, 1)),
        b'/' => Some((Mark::Slash, 1)),
        b'&' => Some((Mark::Ampersand, 1)),
        _ => None,
    }
}

/// Whether this byte may occur outside of comments.
fn is_plain(b: u8) -> bool
    ensures { result ≡ spec.is_plain b }
{
    b == b'\t' || b == b'\n' || b == b'\r' || (b' '..=b'~').contains(&b)
}

/// The token at the front of a text that is not empty, and its length.
#[tactic(auto, unfolding(crate::specs::Front::front))]
pub fn front(alloc: Global, z: &[u8]) -> Result<(Token, usize), LexFault>
    ensures value { Gives result (spec.front z.now) }
    ensures within { IfOk result (λ t. (0 < t.1) × (t.1 ≤ length z.now)) }
{
    let first = at(z, 0);
    if is_letter(first) {
        return word(alloc, z);
    }
    if first.is_ascii_digit() {
        return literal(z);
    }
    match sign_of(first, at(z, 1)) {
        Some((mark, len)) => Ok((Token::Mark(mark), len)),
        None => {
            if is_plain(first) {
                Err(LexFault::Token)
            } else {
                Err(LexFault::Byte)
            }
        }
    }
}

/// The length of the faulty token at the front of a text: a word or a literal as far as it goes, or one byte.
pub(crate) fn faulty_len(z: &[u8]) -> usize
    requires { 0 < length z.now }
    ensures { (0 < result) × (result ≤ length z.now) }
{
    let word = word_len(z);
    if word == 0 {
        return 1;
    }
    if at(z, word) != b'#' {
        return word;
    }
    let start = word + 1;
    if is_letter(at(z, 0)) {
        let first = parts_start(z, start);
        first + word_len(&z[first..])
    } else if base_of(&z[..word]).is_some() {
        start + word_len(&z[start..])
    } else {
        word
    }
}
