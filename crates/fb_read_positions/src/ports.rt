//! Ways in interfaces.

ghost use Rattle.std.specs.Prelude.{◌≡◌};
ghost use Rattle.fb_read_positions.specs.Walks as spec;

use crate::lists::PortList;
use crate::step::Step;
use fb_read::token::Mark;

/// The way from an interface to the first item of a list of it.
pub fn to_port_list(list: PortList) -> &'static [Step]
    ensures { result.now ≡ spec.to_port_list list }
{
    match list {
        PortList::EventInputs => &[Step::Mark(Mark::EventInput)],
        PortList::EventOutputs => &[
            Step::Events(Mark::EventInput),
            Step::Mark(Mark::EventOutput),
        ],
        PortList::Inputs => &[
            Step::Events(Mark::EventInput),
            Step::Events(Mark::EventOutput),
            Step::Mark(Mark::VarInput),
        ],
        PortList::Outputs => &[
            Step::Events(Mark::EventInput),
            Step::Events(Mark::EventOutput),
            Step::Variables(Mark::VarInput),
            Step::Mark(Mark::VarOutput),
        ],
    }
}

/// The way past an item of a list of an interface.
pub fn past_in_ports(list: PortList) -> &'static [Step]
    ensures { result.now ≡ spec.past_in_ports list }
{
    match list {
        PortList::EventInputs | PortList::EventOutputs => &[Step::EventPort],
        PortList::Inputs | PortList::Outputs => &[Step::Variable],
    }
}
