//! Clauses of IFs and REPEATs. They are searched in the tokens themselves: a clause may be far from the beginning of its
//! statement, and the statements between them are not read.

ghost use Rattle.std.specs.Prelude.{◌≡◌, ◌≤◌, ◌<◌, ◌^◌, ◌∷◌, ◌||◌, [], length};
ghost use Rattle.fb_read.specs.Parser.{is_mark};
ghost use Rattle.fb_read.specs.Tokens.{tokens_of};
ghost use Rattle.fb_read.specs.Whole.{most_bytes};
ghost use Rattle.fb_read_positions.specs.Resumed.{Leads};
ghost use Rattle.fb_read_positions.specs.Walks as spec;

use fb_read::token::{Located, Mark, Token};

/// Whether a token is one of two marks.
#[tactic(auto, unfolding(fb_read::specs::Parser::same_mark))]
fn is_either(token: &Token, first: Mark, second: Mark) -> bool
    ensures { result ≡ (is_mark first token.now || is_mark second token.now) }
{
    match token {
        Token::Mark(mark) => *mark == first || *mark == second,
        _ => false,
    }
}

/// Whether an IF or a REPEAT begins.
fn begins_clauses(token: &Token) -> bool
    ensures { result ≡ spec.begins_clauses (token.now ∷ []) }
{
    is_either(token, Mark::If, Mark::Repeat)
}

/// Whether another clause of an IF or a REPEAT begins.
fn begins_another(token: &Token) -> bool
    ensures { result ≡ spec.begins_another (token.now ∷ []) }
{
    is_either(token, Mark::Elsif, Mark::Until)
}

/// Whether an IF or a REPEAT ends.
fn ends_clauses(token: &Token) -> bool
    ensures { result ≡ spec.ends_clauses (token.now ∷ []) }
{
    is_either(token, Mark::EndIf, Mark::EndRepeat)
}

/// Whether any of these is so.
fn is_of_clauses(token: &Token) -> bool
    ensures { result ≡ spec.is_of_clauses (token.now ∷ []) }
{
    begins_clauses(token) || begins_another(token) || ends_clauses(token)
}

/// How many IFs and REPEATs have begun and not ended, after this token.
fn depth_after(token: &Token, depth: usize) -> usize
    requires { depth < 2 ^ 32 }
    ensures { result ≡ spec.depth_after (token.now ∷ []) depth }
{
    if begins_clauses(token) {
        depth + 1
    } else if ends_clauses(token) {
        depth.saturating_sub(1)
    } else {
        depth
    }
}

/// Whether this token begins a clause of an IF or a REPEAT that is in no other one.
fn begins_clause(token: &Token, depth: usize) -> bool
    ensures { result ≡ spec.begins_clause (token.now ∷ []) depth }
{
    (depth == 0 && begins_clauses(token)) || (depth == 1 && begins_another(token))
}

/// How many IFs and REPEATs have begun where a clause is next.
fn depth_at(tokens: &[Located]) -> usize
    ensures { result ≡ spec.depth_at (tokens_of tokens.now) }
{
    match tokens {
        [first, ..] => { if begins_another(&first.token) { 1 } else { 0 } }
        [] => 0,
    }
}

/// The number of tokens that are left at a clause, this many clauses after the one with which these tokens begin.
/// `None` if there is no such clause.
pub(crate) fn clause_left(tokens: &[Located], count: usize) -> Option<usize>
    requires { length tokens.now ≤ most_bytes }
    ensures { Leads (spec.pass_clauses count) tokens.now result }
{
    let mut depth = depth_at(tokens);
    let mut before = count;
    for (index, located) in tokens.iter().enumerate() {
        let token = &located.token;
        if is_of_clauses(token) {
            if begins_clause(token, depth) {
                if before == 0 {
                    return Some(tokens.len() - index);
                }
                before -= 1;
            }
            depth = depth_after(token, depth);
        }
    }
    None
}
