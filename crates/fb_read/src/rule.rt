//! Rules of the grammar, and lists of what they read.

ghost use Rattle.std.specs.Prelude.{◌≡◌};
ghost use Rattle.fb_read.specs.Parser.{Parser, Reads};
ghost use Rattle.fb_read.specs.Added.{Adds};
ghost use Rattle.fb_read.specs.Parser as spec;

use crate::cursor::Cursor;
use crate::fault::ParseFault;
use crate::token::Mark;
use fb_types::Items;

/// A rule of the grammar. The cursor begins at the rule's first token and is left after its last one, or at the token
/// that the rule refuses.
pub trait Rule: Drop {
    ghost parser: { Parser Self };

    fn read(cursor: &mut Cursor<'_>) -> Result<Self, ParseFault>
        ensures { Reads (parser cursor.old) result cursor.new };
}

/// Returns `found` with what a rule reads after this mark.
#[tactic(auto, unfolding(crate::specs::Parser::then_read))]
pub fn then_read<A: Drop, B: Rule>(
    cursor: &mut Cursor<'_>,
    found: A,
    between: Mark,
) -> Result<(A, B), ParseFault>
    ensures { Reads (spec.then_read found between B.parser cursor.old) result cursor.new }
{
    cursor.expect(between)?;
    let read = B::read(cursor)?;
    Ok((found, read))
}

/// What two rules read, with this mark between them.
#[tactic(auto, unfolding(crate::specs::Parser::pair))]
pub fn pair<A: Rule, B: Rule>(cursor: &mut Cursor<'_>, between: Mark) -> Result<(A, B), ParseFault>
    ensures { Reads (spec.pair A.parser between B.parser cursor.old) result cursor.new }
{
    let first = A::read(cursor)?;
    then_read(cursor, first, between)
}

/// Appends what was read to the items that were found.
pub fn added<T: Drop>(found: Items<T>, read: Result<T, ParseFault>) -> Result<Items<T>, ParseFault>
    ensures { Adds found read result }
{
    let mut all = found;
    all.push(read?)?;
    Ok(all)
}

/// Returns `found`, if this mark is next.
#[tactic(auto, unfolding(crate::specs::Parser::expect))]
pub fn ended<T: Drop>(cursor: &mut Cursor<'_>, end: Mark, found: T) -> Result<T, ParseFault>
    ensures { Reads (spec.ended end found cursor.old) result cursor.new }
{
    cursor.expect(end)?;
    Ok(found)
}

/// Returns `found`, if this mark and a semicolon are next.
pub fn finished<T: Drop>(cursor: &mut Cursor<'_>, end: Mark, found: T) -> Result<T, ParseFault>
    ensures { Reads (spec.finished end found cursor.old) result cursor.new }
{
    let found = ended(cursor, end, found)?;
    ended(cursor, Mark::Semicolon, found)
}

/// Appends what the rule reads up to a mark, including that mark. Each iteration takes a token, so the number of tokens
/// is enough iterations.
pub fn many_after<T: Rule>(
    cursor: &mut Cursor<'_>,
    end: Mark,
    found: Items<T>,
) -> Result<Items<T>, ParseFault>
    ensures { Reads (spec.many_after T.parser end found cursor.old) result cursor.new }
{
    let mut found = found;
    for _turn in 0..cursor.left() {
        if cursor.eat(end) {
            return Ok(found);
        }
        found = added(found, T::read(cursor))?;
    }
    Err(ParseFault::Syntax)
}

/// What the rule reads up to a mark, including that mark.
#[tactic(auto, unfolding(crate::specs::Parser::many, crate::specs::Parser::many_after))]
pub fn many<T: Rule>(cursor: &mut Cursor<'_>, end: Mark) -> Result<Items<T>, ParseFault>
    ensures { Reads (spec.many T.parser end cursor.old) result cursor.new }
{
    let none = cursor.no_items();
    many_after(cursor, end, none)
}

/// The items of the section that begins and ends with these marks, if there is one.
#[tactic(auto, unfolding(crate::specs::Parser::section))]
pub fn section<T: Rule>(
    cursor: &mut Cursor<'_>,
    begin: Mark,
    end: Mark,
) -> Result<Items<T>, ParseFault>
    ensures { Reads (spec.section T.parser begin end cursor.old) result cursor.new }
{
    if cursor.eat(begin) {
        many::<T>(cursor, end)
    } else {
        Ok(cursor.no_items())
    }
}

/// Appends what the rule reads as long as this mark is next.
pub fn run_after<T: Rule>(
    cursor: &mut Cursor<'_>,
    begin: Mark,
    found: Items<T>,
) -> Result<Items<T>, ParseFault>
    ensures { Reads (spec.run_after T.parser begin found cursor.old) result cursor.new }
{
    let mut found = found;
    for _turn in 0..cursor.left() {
        if !cursor.sees(begin) {
            return Ok(found);
        }
        found = added(found, T::read(cursor))?;
    }
    Ok(found)
}

/// What the rule reads, once or more, separated by commas. Each iteration takes a token.
pub fn separated<T: Rule>(cursor: &mut Cursor<'_>) -> Result<Items<T>, ParseFault>
    ensures { Reads (spec.separated T.parser cursor.old) result cursor.new }
{
    let mut found = cursor.no_items();
    for _turn in 0..cursor.left() {
        found = added(found, T::read(cursor))?;
        if !cursor.eat(Mark::Comma) {
            return Ok(found);
        }
    }
    Err(ParseFault::Syntax)
}

/// What the rule reads after this mark, if the mark is next.
#[tactic(auto, unfolding(crate::specs::Parser::optional))]
pub fn optional<T: Rule>(cursor: &mut Cursor<'_>, begin: Mark) -> Result<Option<T>, ParseFault>
    ensures { Reads (spec.optional T.parser begin cursor.old) result cursor.new }
{
    if cursor.eat(begin) {
        Ok(Some(T::read(cursor)?))
    } else {
        Ok(None)
    }
}

/// What the rule reads after this mark, once or more, separated by commas, if the mark is next.
#[tactic(auto, unfolding(crate::specs::Parser::listed))]
pub fn listed<T: Rule>(cursor: &mut Cursor<'_>, begin: Mark) -> Result<Items<T>, ParseFault>
    ensures { Reads (spec.listed T.parser begin cursor.old) result cursor.new }
{
    if cursor.eat(begin) {
        separated::<T>(cursor)
    } else {
        Ok(cursor.no_items())
    }
}
