//! How the tokens of an expression are counted: a literal and a name are one each.

ghost use Rattle.std.specs.Prelude.{◌≡◌, map};
ghost use Rattle.fb_why.specs.Tokens as spec;

use fb_types::Expr;

/// The token after this one. The greatest number, which no text reaches, is its own next one.
pub(crate) fn next(token: usize) -> usize
    ensures { result ≡ spec.next token }
{
    token.saturating_add(1)
}

/// The token after an expression that begins at this one.
#[cycle(past)]
pub(crate) fn past(expr: &Expr, first: usize) -> usize
    ensures { result ≡ spec.past expr.now first }
{
    match expr {
        Expr::Whole(_) | Expr::Truth(_) | Expr::Variable(_) => next(first),
        Expr::Group(inner) => next(past(inner.get(), next(first))),
        Expr::Unary(_, operand) => past(operand.get(), next(first)),
        Expr::Binary(_, left, right) => past(right.get(), next(past(left.get(), first))),
        Expr::Call(_, arguments) => {
            let inside = next(next(first));
            past_call(arguments.as_slice(), inside)
        }
    }
}

/// The token after a call whose arguments begin at this one.
#[cycle(past)]
fn past_call(arguments: &[Expr], first: usize) -> usize
    ensures { result ≡ spec.past_call (map spec.past arguments.now) first }
{
    if arguments.is_empty() {
        next(first)
    } else {
        past_each(arguments, first)
    }
}

/// The token after arguments of which each has a token after it, and the first begins at this one.
#[cycle(past)]
pub(crate) fn past_each(arguments: &[Expr], first: usize) -> usize
    ensures { result ≡ spec.past_each (map spec.past arguments.now) first }
{
    let mut token = first;
    for argument in arguments {
        token = next(past(argument, token));
    }
    token
}
