//! Ways in basic types, after their interfaces.

ghost use Rattle.std.specs.Prelude.{◌≡◌};
ghost use Rattle.fb_read_positions.specs.Walks as spec;

use crate::lists::BasicList;
use crate::position::{BasicPart, TransitionPart};
use crate::step::Step;
use fb_read::token::Mark;

/// The way from the end of an interface to the first item of a list of the basic type.
pub fn to_basic_list(list: BasicList) -> &'static [Step]
    ensures { result.now ≡ spec.to_basic_list list }
{
    match list {
        BasicList::Internals => &[Step::Mark(Mark::Var)],
        BasicList::States => &[Step::Variables(Mark::Var), Step::Mark(Mark::EcStates)],
        BasicList::Transitions => &[
            Step::Variables(Mark::Var),
            Step::States,
            Step::Mark(Mark::EcTransitions),
        ],
        BasicList::Algorithms => &[Step::Variables(Mark::Var), Step::States, Step::Transitions],
    }
}

/// The way past an item of a list of a basic type.
pub fn past_in_basic(list: BasicList) -> &'static [Step]
    ensures { result.now ≡ spec.past_in_basic list }
{
    match list {
        BasicList::Internals => &[Step::Variable],
        BasicList::States => &[Step::State],
        BasicList::Transitions => &[Step::Transition],
        BasicList::Algorithms => &[Step::Algorithm],
    }
}

/// The way from a transition to a part of it.
fn to_transition_part(part: TransitionPart) -> &'static [Step]
    ensures { result.now ≡ spec.to_transition_part part }
{
    match part {
        TransitionPart::From | TransitionPart::Mention(_) => &[],
        TransitionPart::To => &[Step::Name, Step::Mark(Mark::To)],
        TransitionPart::Condition => &[
            Step::Name,
            Step::Mark(Mark::To),
            Step::Name,
            Step::Mark(Mark::Assign),
        ],
        TransitionPart::Guard => &[
            Step::Name,
            Step::Mark(Mark::To),
            Step::Name,
            Step::Mark(Mark::Assign),
            Step::Event,
            Step::Mark(Mark::OpenSquare),
        ],
    }
}

/// The way from an item of a basic type to a part of it.
pub fn to_basic_part(part: BasicPart) -> &'static [Step]
    ensures { result.now ≡ spec.to_basic_part part }
{
    match part {
        BasicPart::OutputAlone(_, _) => &[Step::Mark(Mark::Arrow)],
        BasicPart::OutputAfter(_, _) => &[Step::Name, Step::Mark(Mark::Arrow)],
        BasicPart::Transition(_, part) => to_transition_part(part),
        BasicPart::Algorithm(_) => &[Step::Mark(Mark::Algorithm)],
        BasicPart::Internal(_)
        | BasicPart::State(_)
        | BasicPart::Action(_, _)
        | BasicPart::Statement(_, _)
        | BasicPart::Clause(_, _, _)
        | BasicPart::Mention(_, _) => &[],
    }
}
