//! Searches among the statements of a document, in order.

ghost use Rattle.std.specs.Prelude.{◌≡◌, ◌<◌, ◌+◌, ◌^◌, ◌&&◌, ◌==◌, if◌then◌else◌, List, [], option_map};
ghost use Rattle.fb_deploy_positions.specs.Entries as entries;
ghost use Rattle.fb_deploy_positions.specs.Statements.{StatementAt};
ghost use Rattle.fb_deploy_positions.specs.Views.{IsPassed, array_sought, is_wanted, statement_view, statements_view};

use crate::keys::{begins_with, begins_with_both, is_alone};
use crate::statement::{Statement, is_element, is_key};

/// What is sought among the statements of a document.
#[derive(Clone, Copy)]
pub(crate) enum Wanted<'a> {
    /// The heading of an element of the array with this key, by its index.
    Heading(&'a str, usize),
    /// The key that has the array with this key as its value.
    Array(&'a str),
    /// A key of the document with this name, or a heading of one.
    TopEntry(&'a str),
    /// A key of an element of the array with this key, by the element's index and the name, or a heading of one.
    ElementEntry(&'a str, usize, &'a str),
}

/// What is known of the statements that a search has passed.
#[derive(Clone, Copy)]
pub(crate) struct Passed {
    /// How many elements of the array they begin.
    elements: usize,
    /// Whether the last heading among them heads an element of the array.
    in_element: bool,
    no_heading: bool,
}

/// Whether the statement is the heading of an element of the array with this key.
fn heads_element(statement: &Statement<'_>, array: &str) -> bool
    ensures { result ≡ entries.heads_element array.now (statement_view statement.now) }
{
    is_element(statement.kind) && is_alone(&statement.key, array)
}

impl Passed {
    /// Whether the statements that follow are those of the element with this index.
    fn is_in_nth(self, index: usize) -> bool
        ensures { result ≡ (self.in_element && self.elements == index + 1) }
    {
        self.in_element && self.began(index)
    }

    /// Whether the element with this index is the last that they begin.
    fn began(self, index: usize) -> bool
        ensures { result ≡ (self.elements == index + 1) }
    {
        self.elements > 0 && self.elements - 1 == index
    }

    /// What is known after one more.
    fn and(self, array: &str, statement: &Statement<'_>) -> Passed
        requires { self.elements < 2 ^ 63 }
        ensures elements { result.elements ≡ (if entries.heads_element array.now (statement_view statement.now) then self.elements + 1 else self.elements) }
        ensures in_element { result.in_element ≡ (if entries.is_key statement.now.kind then self.in_element else entries.heads_element array.now (statement_view statement.now)) }
        ensures no_heading { result.no_heading ≡ (entries.is_key statement.now.kind && self.no_heading) }
    {
        let heads = heads_element(statement, array);
        let key = is_key(statement.kind);
        Passed {
            elements: if heads {
                self.elements + 1
            } else {
                self.elements
            },
            in_element: if key { self.in_element } else { heads },
            no_heading: key && self.no_heading,
        }
    }
}

impl<'a> Wanted<'a> {
    /// The key of the array whose elements are counted.
    fn array(self) -> &'a str
        ensures { result.now ≡ array_sought self.entry }
    {
        match self {
            Wanted::Heading(array, _) | Wanted::Array(array) | Wanted::ElementEntry(array, _, _) =>
                { array }
            Wanted::TopEntry(_) => "",
        }
    }

    /// Whether a statement is the one, after those that were passed.
    fn is(self, passed: Passed, statement: &Statement<'_>) -> bool
        ensures { (before : List StatementAt) → IsPassed (array_sought self.entry) before passed → result ≡ is_wanted self.entry before (statement_view statement.now) }
    {
        let key = is_key(statement.kind);
        match self {
            Wanted::Heading(array, index) => {
                heads_element(statement, array) && passed.elements == index
            }
            Wanted::Array(array) => key && passed.no_heading && is_alone(&statement.key, array),
            Wanted::TopEntry(name) => {
                (!key || passed.no_heading) && begins_with(&statement.key, name)
            }
            Wanted::ElementEntry(array, index, name) => {
                if key {
                    passed.is_in_nth(index) && begins_with(&statement.key, name)
                } else {
                    passed.began(index) && begins_with_both(&statement.key, array, name)
                }
            }
        }
    }
}

/// The first statement that is the one that is sought.
pub(crate) fn find<'s, 'a>(
    statements: &'s [Statement<'a>],
    wanted: Wanted<'_>,
) -> Option<&'s Statement<'a>>
    ensures { option_map (λ s. statement_view s.now) result ≡ entries.found (is_wanted wanted.entry) [] (statements_view statements.now) }
{
    let array = wanted.array();
    let mut passed = Passed {
        elements: 0,
        in_element: false,
        no_heading: true,
    };
    for statement in statements {
        if wanted.is(passed, statement) {
            return Some(statement);
        }
        passed = passed.and(array, statement);
    }
    None
}

/// The text that begins with an element of the array with this key, if the array is a value.
pub(crate) fn inline_element<'a>(
    statements: &[Statement<'a>],
    array: &str,
    index: usize,
) -> Option<&'a str>
    ensures { option_map (λ r. r.now) result ≡ entries.inline_element (statements_view statements.now) array.now index }
{
    let statement = find(statements, Wanted::Array(array))?;
    statement.items.get(index).copied()
}
