//! Statements. They are searched in the tokens themselves: a CASE may have thousands of labels, and between statements
//! each token is passed in a few instructions.

ghost use Rattle.std.specs.Prelude.{◌≡◌, ◌≤◌, ◌∷◌, [], true, length};
ghost use Rattle.fb_read.specs.Parser.{is_mark};
ghost use Rattle.fb_read.specs.Statements.{begins_statement};
ghost use Rattle.fb_read.specs.Tokens.{tokens_of};
ghost use Rattle.fb_read.specs.Whole.{most_bytes};
ghost use Rattle.fb_read_positions.specs.Resumed.{Leads};
ghost use Rattle.fb_read_positions.specs.Walks as spec;

use fb_read::cursor::Cursor;
use fb_read::token::{Located, Mark, Token};
use std::alloc::Global;

/// Whether a token is this mark.
#[tactic(auto, unfolding(fb_read::specs::Parser::same_mark))]
fn is(token: &Token, mark: Mark) -> bool
    ensures { result ≡ is_mark mark token.now }
{
    match token {
        Token::Mark(found) => *found == mark,
        _ => false,
    }
}

/// Whether a statement may begin after this token.
fn opens(token: &Token) -> bool
    ensures { result ≡ spec.opens (token.now ∷ []) }
{
    is(token, Mark::Semicolon)
        || is(token, Mark::Then)
        || is(token, Mark::Else)
        || is(token, Mark::Do)
        || is(token, Mark::Repeat)
        || is(token, Mark::Colon)
}

/// Whether the first of these tokens may begin a statement.
fn begins(alloc: Global, tokens: &[Located]) -> bool
    requires { length tokens.now ≤ most_bytes }
    ensures { result ≡ begins_statement (tokens_of tokens.now) }
{
    let cursor = Cursor::new(alloc, tokens);
    cursor.begins_statement()
}

/// The number of tokens that are left at a statement, this many statements after the one with which these tokens begin.
/// `None` if there is no such statement.
pub(crate) fn statement_left(alloc: Global, tokens: &[Located], count: usize) -> Option<usize>
    requires { length tokens.now ≤ most_bytes }
    ensures { Leads (λ ts. spec.to_statement ts true count) tokens.now result }
{
    let mut ready = true;
    let mut before = count;
    for (index, located) in tokens.iter().enumerate() {
        let token = &located.token;
        if ready && begins(alloc, &tokens[index..]) {
            if before == 0 {
                return Some(tokens.len() - index);
            }
            before -= 1;
        }
        ready = opens(token);
    }
    None
}
