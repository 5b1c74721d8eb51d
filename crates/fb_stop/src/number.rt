//! How statements are counted: as they begin in the text, those inside others too.

ghost use Rattle.std.specs.Prelude.{◌≡◌};
ghost use Rattle.fb_types.specs.Syntax.{stmt_of};
ghost use Rattle.fb_st.specs.Flows.{all_of, branches_of, choices_of};
ghost use Rattle.fb_stop.specs.Numbers as spec;

use fb_types::{Branch, Choice, Stmt};

/// The next number. The greatest one, which no text reaches, is its own next one.
pub fn next(number: usize) -> usize
    ensures { result ≡ spec.next number }
{
    number.saturating_add(1)
}

/// The number of what follows a statement of this number.
#[cycle(numbers)]
pub fn after(statement: &Stmt, number: usize) -> usize
    ensures { result ≡ spec.after (stmt_of statement.now) number }
{
    let inside = next(number);
    match statement {
        Stmt::Empty | Stmt::Exit | Stmt::Return | Stmt::Assign(_, _) => inside,
        Stmt::If(choices, others) => {
            after_all(others.as_slice(), after_choices(choices.as_slice(), inside))
        }
        Stmt::Case(_, branches, others) => {
            after_all(
                others.as_slice(),
                after_branches(branches.as_slice(), inside),
            )
        }
        Stmt::For(_, _, _, _, body) => after_all(body.as_slice(), inside),
        Stmt::While(_, body) => after_all(body.as_slice(), inside),
        Stmt::Repeat(body, _) => after_all(body.as_slice(), inside),
    }
}

/// The number of what follows statements, of which the first has this number.
#[cycle(numbers)]
pub fn after_all(statements: &[Stmt], first: usize) -> usize
    ensures { result ≡ spec.after_all (all_of statements.now) first }
{
    let mut number = first;
    for statement in statements {
        number = after(statement, number);
    }
    number
}

/// The number of what follows conditions with their statements.
#[cycle(numbers)]
pub fn after_choices(choices: &[Choice], first: usize) -> usize
    ensures { result ≡ spec.after_choices (choices_of choices.now) first }
{
    let mut number = first;
    for choice in choices {
        number = after_all(choice.body.as_slice(), number);
    }
    number
}

/// The number of what follows labels with their statements.
#[cycle(numbers)]
pub fn after_branches(branches: &[Branch], first: usize) -> usize
    ensures { result ≡ spec.after_branches (branches_of branches.now) first }
{
    let mut number = first;
    for branch in branches {
        number = after_all(branch.body.as_slice(), number);
    }
    number
}
