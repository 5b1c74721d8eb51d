//! Ways in networks.

ghost use Rattle.std.specs.Prelude.{◌≡◌};
ghost use Rattle.fb_read_positions.specs.Walks as spec;

use crate::lists::NetworkList;
use crate::position::{ConnectionPart, NetworkPart};
use crate::step::Step;
use fb_read::token::Mark;

/// The way from a network to the first item of a list of it.
pub fn to_network_list(list: NetworkList) -> &'static [Step]
    ensures { result.now ≡ spec.to_network_list list }
{
    match list {
        NetworkList::Instances => &[Step::Mark(Mark::Fbs)],
        NetworkList::EventConnections => &[
            Step::Mark(Mark::Fbs),
            Step::Instances,
            Step::Mark(Mark::EventConnections),
        ],
        NetworkList::DataConnections => &[
            Step::Mark(Mark::Fbs),
            Step::Instances,
            Step::EventConnections,
            Step::Mark(Mark::DataConnections),
        ],
    }
}

/// The way past an item of a list of a network.
pub fn past_in_network(list: NetworkList) -> &'static [Step]
    ensures { result.now ≡ spec.past_in_network list }
{
    match list {
        NetworkList::Instances => &[Step::Instance],
        NetworkList::EventConnections | NetworkList::DataConnections => &[Step::Connection],
    }
}

/// The way from a connection to a name of it.
fn to_end(part: ConnectionPart) -> &'static [Step]
    ensures { result.now ≡ spec.to_end part }
{
    match part {
        ConnectionPart::From => &[],
        ConnectionPart::FromPort => &[Step::Name, Step::Mark(Mark::Dot)],
        ConnectionPart::To => &[Step::Port, Step::Mark(Mark::To)],
        ConnectionPart::ToPort => &[
            Step::Port,
            Step::Mark(Mark::To),
            Step::Name,
            Step::Mark(Mark::Dot),
        ],
    }
}

/// The way from an item of a network to a part of it.
pub fn to_network_part(part: NetworkPart) -> &'static [Step]
    ensures { result.now ≡ spec.to_network_part part }
{
    match part {
        NetworkPart::Instance(_) | NetworkPart::Parameter(_, _) => &[],
        NetworkPart::InstanceType(_) => &[Step::Name, Step::Mark(Mark::Colon)],
        NetworkPart::EventConnection(_, part) | NetworkPart::DataConnection(_, part) => {
            to_end(part)
        }
    }
}
