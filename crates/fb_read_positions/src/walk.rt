//! Ways in a whole declaration.

ghost use Rattle.std.specs.Prelude.{◌≡◌};
ghost use Rattle.fb_read.specs.Parser.{Reads};
ghost use Rattle.fb_read_positions.specs.Walks as spec;

use crate::basic::{past_in_basic, to_basic_list, to_basic_part};
use crate::lists::{InnerList, ItemList, OuterList};
use crate::network::{past_in_network, to_network_list, to_network_part};
use crate::ports::{past_in_ports, to_port_list};
use crate::position::Position;
use crate::step::{Step, take_all};
use fb_read::cursor::Cursor;
use fb_read::fault::ParseFault;
use fb_read::token::Mark;

/// The way to what has a list inside: a network, an interface or what follows an interface. It leads there from the
/// beginning of the text or of the block type.
fn to_inside(list: OuterList) -> &'static [Step]
    ensures { result.now ≡ spec.to_inside list }
{
    match list {
        OuterList::Blocks => &[],
        OuterList::InApplication(_) => &[Step::Blocks, Step::Mark(Mark::Application), Step::Name],
        OuterList::InPorts(_, _) => &[
            Step::Application,
            Step::Mark(Mark::FunctionBlock),
            Step::Name,
        ],
        OuterList::InBasic(_, _) | OuterList::InComposite(_, _) => &[
            Step::Application,
            Step::Mark(Mark::FunctionBlock),
            Step::Name,
            Step::Ports,
        ],
    }
}

/// The way from there to the first item of the list.
fn to_first_inside(list: OuterList) -> &'static [Step]
    ensures { result.now ≡ spec.to_first_inside list }
{
    match list {
        OuterList::Blocks => &[],
        OuterList::InApplication(list) | OuterList::InComposite(_, list) => to_network_list(list),
        OuterList::InPorts(_, list) => to_port_list(list),
        OuterList::InBasic(_, list) => to_basic_list(list),
    }
}

/// The way past an item of a list that is in no item. Past a block type it leads past the application too, if that is
/// before it.
pub fn past_outer(list: OuterList) -> &'static [Step]
    ensures { result.now ≡ spec.past_outer list }
{
    match list {
        OuterList::Blocks => &[Step::Application, Step::Block],
        OuterList::InApplication(list) | OuterList::InComposite(_, list) => past_in_network(list),
        OuterList::InPorts(_, list) => past_in_ports(list),
        OuterList::InBasic(_, list) => past_in_basic(list),
    }
}

/// The way from an item to the first item of a list of it.
fn to_first_inner(list: InnerList) -> &'static [Step]
    ensures { result.now ≡ spec.to_first_inner list }
{
    match list {
        InnerList::With => &[Step::Name, Step::Mark(Mark::With)],
        InnerList::Parameters => &[
            Step::Name,
            Step::Mark(Mark::Colon),
            Step::Name,
            Step::Mark(Mark::Open),
        ],
        InnerList::Actions => &[Step::Name, Step::Mark(Mark::Colon)],
        InnerList::Statements | InnerList::Mentions => &[
            Step::Mark(Mark::Algorithm),
            Step::Name,
            Step::In,
            Step::St,
            Step::Mark(Mark::Colon),
        ],
        InnerList::GuardMentions => &[
            Step::Name,
            Step::Mark(Mark::To),
            Step::Name,
            Step::Mark(Mark::Assign),
            Step::Event,
            Step::Mark(Mark::OpenSquare),
        ],
    }
}

/// Reads up to the first item of a list, from the beginning of the text, the block type, the item or the statement that
/// has it.
pub fn to_first(cursor: &mut Cursor<'_>, list: ItemList) -> Result<(), ParseFault>
    ensures { Reads (spec.to_first list cursor.old) result cursor.new }
{
    match list {
        ItemList::Outer(list) => {
            take_all(cursor, to_inside(list))?;
            take_all(cursor, to_first_inside(list))
        }
        ItemList::Inner(_, _, list) => take_all(cursor, to_first_inner(list)),
        ItemList::Clauses(_, _, _) => Ok(()),
    }
}

/// The way to a position from the item to which it belongs, or from the beginning of the text.
pub fn to_part(position: Position) -> &'static [Step]
    ensures { result.now ≡ spec.to_part position }
{
    match position {
        Position::Application => &[Step::Blocks, Step::Mark(Mark::Application)],
        Position::Block(_) => &[Step::Application, Step::Mark(Mark::FunctionBlock)],
        Position::InApplication(part) | Position::InComposite(_, part) => to_network_part(part),
        Position::InPorts(_, _) => &[],
        Position::InBasic(_, part) => to_basic_part(part),
    }
}
