//! What could have been at the token at which the grammar refuses a text.

ghost use Rattle.std.specs.Prelude.{◌≡◌, ◌≤◌, ◌<◌, ◌^◌, length};
ghost use Rattle.fb_read.specs.Refusals.{nothing};
ghost use Rattle.fb_read.specs.Whole.{most_bytes};
ghost use Rattle.fb_read.specs.Operators as operators;
ghost use Rattle.fb_read.specs.Statements as statements;

use crate::cursor::{Cursor, ty_of};
use crate::discarding::discard;
use crate::fault::ParseFault;
use crate::operator::operator_of;
use crate::rule::Rule;
use crate::token::{Located, Mark, Token};
use fb_types::{Items, Library};
use std::alloc::{AllocError, Global};

/// The spellings of the keywords and the signs, in the order in which they are listed.
static SPELLINGS: [(Mark, &str); 82] = [
    (Mark::FunctionBlock, "FUNCTION_BLOCK"),
    (Mark::EndFunctionBlock, "END_FUNCTION_BLOCK"),
    (Mark::Application, "APPLICATION"),
    (Mark::EndApplication, "END_APPLICATION"),
    (Mark::EventInput, "EVENT_INPUT"),
    (Mark::EventOutput, "EVENT_OUTPUT"),
    (Mark::EndEvent, "END_EVENT"),
    (Mark::With, "WITH"),
    (Mark::VarInput, "VAR_INPUT"),
    (Mark::VarOutput, "VAR_OUTPUT"),
    (Mark::Var, "VAR"),
    (Mark::EndVar, "END_VAR"),
    (Mark::Fbs, "FBS"),
    (Mark::EndFbs, "END_FBS"),
    (Mark::EventConnections, "EVENT_CONNECTIONS"),
    (Mark::DataConnections, "DATA_CONNECTIONS"),
    (Mark::EndConnections, "END_CONNECTIONS"),
    (Mark::EcStates, "EC_STATES"),
    (Mark::EndStates, "END_STATES"),
    (Mark::EcTransitions, "EC_TRANSITIONS"),
    (Mark::EndTransitions, "END_TRANSITIONS"),
    (Mark::Algorithm, "ALGORITHM"),
    (Mark::EndAlgorithm, "END_ALGORITHM"),
    (Mark::To, "TO"),
    (Mark::Bool, "BOOL"),
    (Mark::Sint, "SINT"),
    (Mark::Int, "INT"),
    (Mark::Dint, "DINT"),
    (Mark::Lint, "LINT"),
    (Mark::Usint, "USINT"),
    (Mark::Uint, "UINT"),
    (Mark::Udint, "UDINT"),
    (Mark::Ulint, "ULINT"),
    (Mark::Time, "TIME"),
    (Mark::True, "TRUE"),
    (Mark::False, "FALSE"),
    (Mark::If, "IF"),
    (Mark::Then, "THEN"),
    (Mark::Elsif, "ELSIF"),
    (Mark::Else, "ELSE"),
    (Mark::EndIf, "END_IF"),
    (Mark::Case, "CASE"),
    (Mark::Of, "OF"),
    (Mark::EndCase, "END_CASE"),
    (Mark::For, "FOR"),
    (Mark::By, "BY"),
    (Mark::Do, "DO"),
    (Mark::EndFor, "END_FOR"),
    (Mark::While, "WHILE"),
    (Mark::EndWhile, "END_WHILE"),
    (Mark::Repeat, "REPEAT"),
    (Mark::Until, "UNTIL"),
    (Mark::EndRepeat, "END_REPEAT"),
    (Mark::Exit, "EXIT"),
    (Mark::Return, "RETURN"),
    (Mark::And, "AND"),
    (Mark::Or, "OR"),
    (Mark::Xor, "XOR"),
    (Mark::Not, "NOT"),
    (Mark::Mod, "MOD"),
    (Mark::Semicolon, ";"),
    (Mark::Colon, ":"),
    (Mark::Comma, ","),
    (Mark::Dot, "."),
    (Mark::DotDot, ".."),
    (Mark::Open, "("),
    (Mark::Close, ")"),
    (Mark::OpenSquare, "["),
    (Mark::CloseSquare, "]"),
    (Mark::Assign, ":="),
    (Mark::Arrow, "->"),
    (Mark::Equal, "="),
    (Mark::NotEqual, "<>"),
    (Mark::Less, "<"),
    (Mark::Greater, ">"),
    (Mark::LessOrEqual, "<="),
    (Mark::GreaterOrEqual, ">="),
    (Mark::Plus, "+"),
    (Mark::Minus, "-"),
    (Mark::Star, "*"),
    (Mark::Slash, "/"),
    (Mark::Ampersand, "&"),
];

fn spellings() -> &'static [(Mark, &'static str)] {
    &SPELLINGS
}

/// The bits of the kinds of tokens that are no marks, in the order in which they are listed. The words `IN` and `ST`
/// are names that the grammar asks for by their spelling.
const NAME: u128 = 1;

const WHOLE: u128 = 2;

const TIME: u128 = 4;

const IN: u128 = 8;

const ST: u128 = 16;

/// The bit of the first mark.
const FIRST_MARK: u128 = 32;

// The words for the kinds that are no marks.
static KIND_WORDS: [&str; 5] = ["name", "whole", "time", "IN", "ST"];

fn kind_words() -> &'static [&'static str] {
    &KIND_WORDS
}

/// What a rule looks for.
#[derive(Clone, Copy)]
pub enum Sought {
    Mark(Mark),
    Name,
    /// The name IN.
    In,
    /// The name ST.
    St,
    Whole,
    /// A whole number or a time.
    Literal,
    /// The name of an elementary type.
    Type,
    /// What begins an expression.
    Expression,
    /// What begins a statement.
    Statement,
    /// A binary operator of this level.
    Operator(u8),
}

/// Whether an expression may begin with this mark.
pub(crate) fn begins_expression(mark: Mark) -> bool
    ensures { result ≡ operators.begins_by mark }
{
    matches!(
        mark,
        Mark::Minus | Mark::Not | Mark::Open | Mark::True | Mark::False
    )
}

/// Whether a statement may begin with this mark.
pub(crate) fn begins_statement(mark: Mark) -> bool
    ensures { result ≡ statements.begins_by mark }
{
    matches!(
        mark,
        Mark::Semicolon
            | Mark::Exit
            | Mark::Return
            | Mark::If
            | Mark::Case
            | Mark::For
            | Mark::While
            | Mark::Repeat
    )
}

fn has_level(mark: Mark, level: u8) -> bool {
    match operator_of(mark) {
        Some((found, _)) => found == level,
        None => false,
    }
}

/// Whether a mark is what a rule looks for.
fn is_sought(sought: Sought, mark: Mark) -> bool {
    match sought {
        Sought::Mark(other) => other == mark,
        Sought::Type => ty_of(mark).is_some(),
        Sought::Expression => begins_expression(mark),
        Sought::Statement => begins_statement(mark),
        Sought::Operator(level) => has_level(mark, level),
        _ => false,
    }
}

/// The bits of what is looked for and no mark.
fn kinds_of(sought: Sought) -> u128 {
    match sought {
        Sought::Name | Sought::Statement => NAME,
        Sought::In => IN,
        Sought::St => ST,
        Sought::Whole => WHOLE,
        Sought::Literal => WHOLE | TIME,
        Sought::Expression => NAME | WHOLE | TIME,
        _ => 0,
    }
}

/// A set of kinds of tokens.
#[derive(Clone, Copy)]
pub struct Expected {
    /// A bit for each kind.
    kinds: u128,
}

impl Expected {
    /// No kind.
    pub fn none() -> Expected
        ensures { result ≡ nothing }
    {
        Expected { kinds: 0 }
    }

    /// These kinds, and what a rule looks for.
    pub fn with(self, sought: Sought) -> Expected {
        let mut kinds = self.kinds | kinds_of(sought);
        let mut bit = FIRST_MARK;
        for spelling in spellings() {
            if is_sought(sought, spelling.0) {
                kinds |= bit;
            }
            bit <<= 1;
        }
        Expected { kinds }
    }

    /// Their names and spellings, separated by blanks. Where any name may be, the words `IN` and `ST` are not listed.
    ///
    /// # Errors
    ///
    /// When memory runs out.
    pub fn words(self, alloc: Global) -> Result<String, AllocError> {
        let mut all = String::new(alloc);
        let listed = if self.kinds & NAME == 0 {
            self
        } else {
            Expected {
                kinds: self.kinds & !(IN | ST),
            }
        };
        let mut bit = NAME;
        for word in kind_words() {
            listed.add_if(&mut all, bit, word)?;
            bit <<= 1;
        }
        for spelling in spellings() {
            listed.add_if(&mut all, bit, spelling.1)?;
            bit <<= 1;
        }
        Ok(all)
    }

    /// Adds a word, if the kind is among these.
    fn add_if(self, all: &mut String, kind: u128, word: &str) -> Result<(), AllocError> {
        if self.kinds & kind == 0 {
            return Ok(());
        }
        if !all.is_empty() {
            all.push(' ')?;
        }
        all.push_str(word)
    }
}

/// What was looked for at a token and not found, and whether the token was taken all the same.
#[derive(Clone, Copy)]
struct Watched {
    missed: Expected,
    taken: bool,
}

/// Reads the tokens and watches the one before which this number of tokens is left, itself included.
fn watch(alloc: Global, tokens: &[Located], left: usize) -> Result<Watched, AllocError>
    requires { length tokens.now < 2 ^ 32 }
{
    let mut cursor = Cursor::watching(alloc, tokens, left);
    match Library::read(&mut cursor) {
        Ok(library) => discard(library),
        Err(ParseFault::Memory) => return Err(AllocError),
        Err(_) => {}
    }
    Ok(Watched {
        missed: cursor.missed(),
        taken: cursor.left() < left,
    })
}

/// Watches a mark after the last of these tokens, which end there. Loops of the rules make no test where no token is
/// left.
fn watch_after(
    alloc: Global,
    tokens: &mut Vec<Located>,
    mark: Mark,
    end: usize,
) -> Result<Watched, AllocError>
    requires { length tokens.old.items ≤ most_bytes }
    ensures { length tokens.new.items ≤ most_bytes }
{
    tokens.push(Located {
        token: Token::Mark(mark),
        index: end,
    })?;
    let watched = watch(alloc, tokens.as_slice(), 1);
    drop(tokens.pop());
    watched
}

/// What could follow these tokens. No place takes both of two marks that are tried.
fn expected_after(alloc: Global, tokens: Items<Located>, end: usize) -> Result<Expected, AllocError>
    requires { length tokens ≤ most_bytes }
{
    let mut tokens = tokens.into_vec();
    let first = watch_after(alloc, &mut tokens, Mark::DotDot, end)?;
    if !first.taken {
        return Ok(first.missed);
    }
    let second = watch_after(alloc, &mut tokens, Mark::EndFunctionBlock, end)?;
    Ok(second.missed)
}

/// The number of tokens that begin before this offset.
fn tokens_before(tokens: &[Located], start: usize) -> usize {
    for before in 0..tokens.len() {
        if tokens[before].index >= start {
            return before;
        }
    }
    tokens.len()
}

/// The kinds of tokens with which a text could go on in place of the one of its tokens that is at `start`, at which its
/// syntax is refused, or of its end, if that is there. The tokens are read once or twice more for that.
pub(crate) fn expected_at(
    alloc: Global,
    tokens: Items<Located>,
    start: usize,
) -> Result<Expected, AllocError>
    requires { length tokens ≤ most_bytes }
{
    let before = tokens_before(tokens.as_slice(), start);
    let left = tokens.len().saturating_sub(before);
    if left == 0 {
        return expected_after(alloc, tokens, start);
    }
    let watched = watch(alloc, tokens.as_slice(), left)?;
    Ok(watched.missed)
}
