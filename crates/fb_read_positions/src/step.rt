//! The steps of which a way to a position is made. They read what is before the position, and keep nothing of it.

ghost use Rattle.std.specs.Prelude.{◌≡◌};
ghost use Rattle.fb_read.specs.Charts.{action};
ghost use Rattle.fb_read.specs.Parser.{Outcome, Reads, name, sees_name};
ghost use Rattle.fb_read.specs.Tokens.{Tokens};
ghost use Rattle.fb_read_positions.specs.Walks as spec;

use fb_read::chart::{states, transitions};
use fb_read::cursor::Cursor;
use fb_read::fault::ParseFault;
use fb_read::ports::variables;
use fb_read::rule::{Rule, many, optional, run_after, section};
use fb_read::token::Mark;
use fb_types::{
    Algorithm, Application, BlockType, Connection, EventPort, Instance, Parameter, PortName, Ports,
    State, Transition, Ty, Value,
};

/// A part of a declaration that a way passes.
#[derive(Clone, Copy)]
pub enum Step {
    /// This mark.
    Mark(Mark),
    /// The name IN.
    In,
    /// The name ST.
    St,
    /// A name.
    Name,
    /// The event of a condition, if there is one.
    Event,
    /// The name of a port, after that of its instance if it has one.
    Port,
    /// An interface.
    Ports,
    /// The events of the section that begins with this mark, if there is one.
    Events(Mark),
    /// The variables of the section that begins with this mark, if there is one.
    Variables(Mark),
    /// The instances of a network, up to their last mark.
    Instances,
    /// The event connections of a network, if there is a section of them.
    EventConnections,
    /// The states of a chart.
    States,
    /// The transitions of a chart, if there is a section of them.
    Transitions,
    /// The block types before the application.
    Blocks,
    /// The application, if it is next.
    Application,
    /// A block type.
    Block,
    /// An event of an interface.
    EventPort,
    /// A variable, up to the next one.
    Variable,
    /// An instance.
    Instance,
    /// A parameter of an instance.
    Parameter,
    /// A connection.
    Connection,
    /// A state.
    State,
    /// An action of a state.
    Action,
    /// A transition.
    Transition,
    /// An algorithm.
    Algorithm,
}

/// Keeps nothing of what was read.
fn passed<T: Drop>(read: Result<T, ParseFault>) -> Result<(), ParseFault>
    ensures { (outcome : Outcome T) → (rest : Tokens) → Reads outcome read rest → Reads (spec.passed outcome) result rest }
{
    drop(read?);
    Ok(())
}

/// Reads what a rule reads, and keeps nothing of it.
fn past<T: Rule>(cursor: &mut Cursor<'_>) -> Result<(), ParseFault>
    ensures { Reads (spec.skip T.parser cursor.old) result cursor.new }
{
    passed(T::read(cursor))
}

/// Takes the next token, if it is a name. Returns whether it was.
fn eat_name(cursor: &mut Cursor<'_>) -> bool
    ensures found { result ≡ sees_name cursor.old }
    ensures after { cursor.new ≡ spec.after_name cursor.old }
{
    let found = cursor.sees_name();
    if found {
        cursor.take();
    }
    found
}

/// Reads a name.
fn past_name(cursor: &mut Cursor<'_>) -> Result<(), ParseFault>
    ensures { Reads (spec.skip name cursor.old) result cursor.new }
{
    if eat_name(cursor) {
        Ok(())
    } else {
        Err(ParseFault::Syntax)
    }
}

/// Reads the application, if it is next.
fn past_application(cursor: &mut Cursor<'_>) -> Result<(), ParseFault>
    ensures { Reads (spec.past_application cursor.old) result cursor.new }
{
    if cursor.sees(Mark::Application) {
        past::<Application>(cursor)
    } else {
        Ok(())
    }
}

/// Reads the block types before the application.
fn past_blocks(cursor: &mut Cursor<'_>) -> Result<(), ParseFault>
    ensures { Reads (spec.past_blocks cursor.old) result cursor.new }
{
    let none = cursor.no_items();
    passed(run_after::<BlockType>(cursor, Mark::FunctionBlock, none))
}

/// Reads what is between the last name of a declaration of variables and the next declaration.
#[tactic(auto, unfolding(crate::specs::Walks::past_type))]
fn past_type(cursor: &mut Cursor<'_>) -> Result<(), ParseFault>
    ensures { Reads (spec.past_type cursor.old) result cursor.new }
{
    cursor.expect(Mark::Colon)?;
    past::<Ty>(cursor)?;
    passed(optional::<Value>(cursor, Mark::Assign))?;
    cursor.expect(Mark::Semicolon)
}

/// Reads a variable, up to the next one.
#[tactic(auto, unfolding(crate::specs::Walks::past_variable))]
fn past_variable(cursor: &mut Cursor<'_>) -> Result<(), ParseFault>
    ensures { Reads (spec.past_variable cursor.old) result cursor.new }
{
    past_name(cursor)?;
    if cursor.eat(Mark::Comma) {
        Ok(())
    } else {
        past_type(cursor)
    }
}

/// Reads an action.
fn past_action(cursor: &mut Cursor<'_>) -> Result<(), ParseFault>
    ensures { Reads (spec.skip action cursor.old) result cursor.new }
{
    let has_algorithm = eat_name(cursor);
    if cursor.eat(Mark::Arrow) {
        past_name(cursor)
    } else if has_algorithm {
        Ok(())
    } else {
        Err(ParseFault::Syntax)
    }
}

/// Takes a step.
#[tactic(auto, unfolding(crate::specs::Walks::take))]
fn take(cursor: &mut Cursor<'_>, step: Step) -> Result<(), ParseFault>
    ensures { Reads (spec.take step cursor.old) result cursor.new }
{
    match step {
        Step::Mark(mark) => cursor.expect(mark),
        Step::In => cursor.word(b"IN"),
        Step::St => cursor.word(b"ST"),
        Step::Name => past_name(cursor),
        Step::Event => passed(cursor.name_if()),
        Step::Port => past::<PortName>(cursor),
        Step::Ports => past::<Ports>(cursor),
        Step::Events(begin) => passed(section::<EventPort>(cursor, begin, Mark::EndEvent)),
        Step::Variables(begin) => passed(variables(cursor, begin)),
        Step::Instances => passed(many::<Instance>(cursor, Mark::EndFbs)),
        Step::EventConnections => passed(section::<Connection>(
            cursor,
            Mark::EventConnections,
            Mark::EndConnections,
        )),
        Step::States => passed(states(cursor)),
        Step::Transitions => passed(transitions(cursor)),
        Step::Blocks => past_blocks(cursor),
        Step::Application => past_application(cursor),
        Step::Block => past::<BlockType>(cursor),
        Step::EventPort => past::<EventPort>(cursor),
        Step::Variable => past_variable(cursor),
        Step::Instance => past::<Instance>(cursor),
        Step::Parameter => past::<Parameter>(cursor),
        Step::Connection => past::<Connection>(cursor),
        Step::State => past::<State>(cursor),
        Step::Action => past_action(cursor),
        Step::Transition => past::<Transition>(cursor),
        Step::Algorithm => past::<Algorithm>(cursor),
    }
}

/// Takes steps, one after another.
#[tactic(auto, unfolding(crate::specs::Walks::take_all))]
pub fn take_all(cursor: &mut Cursor<'_>, steps: &[Step]) -> Result<(), ParseFault>
    ensures { Reads (spec.take_all steps.now cursor.old) result cursor.new }
{
    let mut left = steps;
    while let [step, rest @ ..] = left {
        take(cursor, *step)?;
        left = rest;
    }
    Ok(())
}

/// Takes the same steps this many times.
pub fn pass(cursor: &mut Cursor<'_>, steps: &[Step], count: usize) -> Result<(), ParseFault>
    ensures { Reads (spec.pass steps.now count cursor.old) result cursor.new }
{
    for _turn in 0..count {
        take_all(cursor, steps)?;
    }
    Ok(())
}

/// Reads this many actions and the comma after each. A state may have thousands of them, so this loop looks no step up
/// and keeps no name.
pub fn pass_actions(cursor: &mut Cursor<'_>, count: usize) -> Result<(), ParseFault>
    ensures { Reads (spec.pass_actions count cursor.old) result cursor.new }
{
    for _turn in 0..count {
        past_action(cursor)?;
        cursor.expect(Mark::Comma)?;
    }
    Ok(())
}

/// Reads up to the name at this index among the names that follow.
pub fn to_name(cursor: &mut Cursor<'_>, index: usize) -> Result<(), ParseFault>
    ensures { Reads (spec.to_name cursor.old index) result cursor.new }
{
    let mut before = index;
    for _turn in 0..cursor.left() {
        if cursor.sees_name() {
            if before == 0 {
                return Ok(());
            }
            before -= 1;
        }
        cursor.take();
    }
    Err(ParseFault::Syntax)
}
