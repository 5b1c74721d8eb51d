//! Block types and whole libraries.

ghost use Rattle.fb_read.specs.Parser.{Reads};
ghost use Rattle.fb_read.specs.Blocks as spec;

use crate::chart::{states, transitions};
use crate::cursor::Cursor;
use crate::fault::ParseFault;
use crate::ports::variables;
use crate::rule::{Rule, ended, run_after};
use crate::token::Mark;
use fb_types::{
    Algorithm, Application, BasicType, BlockType, CompositeType, Items, Library, Name, Network,
    Ports,
};

/// What follows the name and the ports of a basic type.
#[tactic(auto, unfolding(crate::specs::Blocks::basic, crate::specs::Charts::algorithms))]
fn basic(cursor: &mut Cursor<'_>, name: Name, ports: Ports) -> Result<BlockType, ParseFault>
    ensures { Reads (spec.basic name ports cursor.old) result cursor.new }
{
    let internals = variables(cursor, Mark::Var)?;
    let states = states(cursor)?;
    let transitions = transitions(cursor)?;
    let none = cursor.no_items();
    let algorithms = run_after::<Algorithm>(cursor, Mark::Algorithm, none)?;
    Ok(BlockType::Basic(BasicType {
        name,
        ports,
        internals,
        states,
        transitions,
        algorithms,
    }))
}

/// What is between the marks of a type: its name, its ports, and the rest. A network begins with FBS.
#[tactic(auto, unfolding(crate::specs::Blocks::inside, crate::specs::Blocks::body, crate::specs::Blocks::composite))]
fn inside(cursor: &mut Cursor<'_>) -> Result<BlockType, ParseFault>
    ensures { Reads (spec.inside cursor.old) result cursor.new }
{
    let name = Name::read(cursor)?;
    let ports = Ports::read(cursor)?;
    if !cursor.sees(Mark::Fbs) {
        return basic(cursor, name, ports);
    }
    let network = Network::read(cursor)?;
    Ok(BlockType::Composite(CompositeType {
        name,
        ports,
        network,
    }))
}

impl Rule for BlockType {
    ghost parser = { spec.block };

    #[tactic(auto, unfolding(crate::specs::Blocks::block))]
    fn read(cursor: &mut Cursor<'_>) -> Result<BlockType, ParseFault> {
        cursor.expect(Mark::FunctionBlock)?;
        let found = inside(cursor)?;
        ended(cursor, Mark::EndFunctionBlock, found)
    }
}

impl Rule for Library {
    ghost parser = { spec.library };

    #[tactic(auto, unfolding(crate::specs::Blocks::library))]
    fn read(cursor: &mut Cursor<'_>) -> Result<Library, ParseFault> {
        let none = cursor.no_items();
        let before = run_after::<BlockType>(cursor, Mark::FunctionBlock, none)?;
        let application = Application::read(cursor)?;
        let blocks = run_after(cursor, Mark::FunctionBlock, before)?;
        Ok(Library {
            blocks,
            application,
        })
    }
}
