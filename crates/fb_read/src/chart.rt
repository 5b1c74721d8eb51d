//! Execution control charts and algorithms.

ghost use Rattle.fb_read.specs.Parser.{Reads};
ghost use Rattle.fb_read.specs.Charts as spec;

use crate::cursor::Cursor;
use crate::fault::ParseFault;
use crate::rule::{Rule, added, ended, listed, many_after, optional, pair, section, then_read};
use crate::statement::body;
use crate::token::Mark;
use fb_types::{Action, Algorithm, Body, Condition, Expr, Items, Name, State, Transition};

impl Rule for Action {
    ghost parser = { spec.action };

    #[tactic(auto, unfolding(crate::specs::Charts::action, crate::specs::Parser::optional))]
    fn read(cursor: &mut Cursor<'_>) -> Result<Action, ParseFault> {
        let algorithm = cursor.name_if()?;
        let output = optional::<Name>(cursor, Mark::Arrow)?;
        if algorithm.is_none() && output.is_none() {
            return Err(ParseFault::Syntax);
        }
        Ok(Action { algorithm, output })
    }
}

impl Rule for State {
    ghost parser = { spec.state };

    #[tactic(auto, unfolding(crate::specs::Charts::state))]
    fn read(cursor: &mut Cursor<'_>) -> Result<State, ParseFault> {
        let name = Name::read(cursor)?;
        let actions = listed::<Action>(cursor, Mark::Colon)?;
        ended(cursor, Mark::Semicolon, State { name, actions })
    }
}

/// The states, at least one.
#[tactic(auto, unfolding(crate::specs::Charts::states))]
pub fn states(cursor: &mut Cursor<'_>) -> Result<Items<State>, ParseFault>
    ensures { Reads (spec.states cursor.old) result cursor.new }
{
    cursor.expect(Mark::EcStates)?;
    let found = added(cursor.no_items(), State::read(cursor))?;
    many_after(cursor, Mark::EndStates, found)
}

/// The guard of a transition, if there is one.
#[tactic(auto, unfolding(crate::specs::Charts::guard))]
fn guard(cursor: &mut Cursor<'_>) -> Result<Option<Expr>, ParseFault>
    ensures { Reads (spec.guard cursor.old) result cursor.new }
{
    if cursor.eat(Mark::OpenSquare) {
        let test = Expr::read(cursor)?;
        ended(cursor, Mark::CloseSquare, Some(test))
    } else {
        Ok(None)
    }
}

impl Rule for Condition {
    ghost parser = { spec.condition };

    #[tactic(auto, unfolding(crate::specs::Charts::condition))]
    fn read(cursor: &mut Cursor<'_>) -> Result<Condition, ParseFault> {
        let event = cursor.name_if()?;
        let guard = guard(cursor)?;
        if event.is_none() && guard.is_none() {
            cursor.one()?;
        }
        Ok(Condition { event, guard })
    }
}

impl Rule for Transition {
    ghost parser = { spec.transition };

    fn read(cursor: &mut Cursor<'_>) -> Result<Transition, ParseFault> {
        let both = pair::<Name, Name>(cursor, Mark::To)?;
        let (both, condition) = then_read::<(Name, Name), Condition>(cursor, both, Mark::Assign)?;
        let (from, to) = both;
        let found = Transition {
            from,
            to,
            condition,
        };
        ended(cursor, Mark::Semicolon, found)
    }
}

/// The transitions of a chart, if there is a section of them.
#[tactic(auto, unfolding(crate::specs::Charts::transitions))]
pub fn transitions(cursor: &mut Cursor<'_>) -> Result<Items<Transition>, ParseFault>
    ensures { Reads (spec.transitions cursor.old) result cursor.new }
{
    section::<Transition>(cursor, Mark::EcTransitions, Mark::EndTransitions)
}

/// What follows the name of an algorithm: its language, and the statements.
#[tactic(auto, unfolding(crate::specs::Charts::structured_text))]
fn structured_text(cursor: &mut Cursor<'_>) -> Result<Body, ParseFault>
    ensures { Reads (spec.structured_text cursor.old) result cursor.new }
{
    cursor.word(b"IN")?;
    cursor.word(b"ST")?;
    cursor.expect(Mark::Colon)?;
    body(cursor)
}

impl Rule for Algorithm {
    ghost parser = { spec.algorithm };

    #[tactic(auto, unfolding(crate::specs::Charts::algorithm))]
    fn read(cursor: &mut Cursor<'_>) -> Result<Algorithm, ParseFault> {
        cursor.expect(Mark::Algorithm)?;
        let name = Name::read(cursor)?;
        let body = structured_text(cursor)?;
        Ok(Algorithm { name, body })
    }
}
