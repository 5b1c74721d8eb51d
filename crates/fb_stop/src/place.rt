//! Where a stop is shown in the declaration.

ghost use Rattle.std.specs.Prelude.{◌≡◌, ◌↔◌, ◌<◌, ◌≤◌, IfNone, IfSome, IsTrue, length};
ghost use Rattle.std.specs.List.{filter};
ghost use Rattle.fb_types.specs.Names.{same_name};
ghost use Rattle.fb_types.specs.OfSystem.{IsInstance};
ghost use Rattle.fb_stop.specs.Places as spec;
ghost use Rattle.fb_stop.specs.Places.{HasNoAlgorithm, HasNoPosition, IsActionPart, IsAlgorithmAt, IsAlgorithmPart, IsNth, IsShown, IsSitePart, IsStopPosition, LacksAction, LacksSite, shown_part};

use crate::found::{EventSite, FoundStop, StopSite};
use crate::site::{Inside, Site};
use crate::{Anchor, Operation, Placed};
use fb_check_names::TypeNumber;
use fb_read_positions::{BasicPart, Position, TransitionPart};
use fb_system::System;
use fb_types::{BasicType, BlockType, Name};

/// The index among all transitions of a type of the one that has an index among those that leave a state.
pub(crate) fn transition_index(block: &BasicType, state: &Name, nth: usize) -> Option<usize>
    ensures found { IfSome result (IsNth block.now state.now nth) }
    ensures none { IfNone result (length (filter (λ x. same_name x.from state.now) block.now.transitions) ≤ nth) }
{
    let mut left = nth;
    for (index, transition) in block.transitions.as_slice().iter().enumerate() {
        if transition.from.is(state) {
            if left == 0 {
                return Some(index);
            }
            left -= 1;
        }
    }
    None
}

/// The index of the algorithm that has the name.
fn algorithm_index(block: &BasicType, name: &Name) -> Option<usize>
    ensures found { IfSome result (IsAlgorithmAt block.now name.now) }
    ensures none { IfNone result (HasNoAlgorithm block.now name.now) }
{
    for (index, algorithm) in block.algorithms.as_slice().iter().enumerate() {
        if name.is(&algorithm.name) {
            return Some(index);
        }
    }
    None
}

/// The part of the algorithm at an index from which the tokens of an operation of a statement are counted: the
/// statement, or its clause after ELSIF or UNTIL.
fn part_from(index: usize, statement: usize, anchor: Anchor) -> BasicPart
    ensures { result ≡ spec.part_from index statement anchor }
{
    match anchor {
        Anchor::Beginning => BasicPart::Statement(index, statement),
        Anchor::Elsif(number) => BasicPart::Clause(index, statement, number),
        Anchor::Until => BasicPart::Clause(index, statement, 1),
    }
}

/// The part of the algorithm at an index at which a statement is shown, and the operation of it that has no value.
fn part_with(index: usize, statement: usize, operation: Option<Placed>) -> BasicPart
    ensures { result ≡ spec.part_with index statement operation }
{
    match operation {
        Some(operation) => part_from(index, statement, operation.anchor),
        None => BasicPart::Statement(index, statement),
    }
}

/// The part of a basic type at which the algorithm at an index is shown: the statement or a clause of it, or else its
/// name.
fn statement_part(index: usize, inside: Option<Inside>) -> BasicPart
    ensures { IsShown inside index result }
{
    match inside {
        Some(inside) => part_with(index, inside.statement, inside.operation),
        None => BasicPart::Algorithm(index),
    }
}

/// The same of the algorithm that has the name.
fn algorithm_part(block: &BasicType, name: &Name, inside: Option<Inside>) -> Option<BasicPart>
    ensures found { IfSome result (IsAlgorithmPart block.now name.now inside) }
    ensures none { IfNone result (HasNoAlgorithm block.now name.now) }
{
    match algorithm_index(block, name) {
        Some(index) => Some(statement_part(index, inside)),
        None => None,
    }
}

/// The part of a basic type at which an action is shown: its algorithm, or its event if it has none.
fn action_part(
    block: &BasicType,
    state: usize,
    index: usize,
    inside: Option<Inside>,
) -> Option<BasicPart>
    ensures found { IfSome result (IsActionPart block.now state index inside) }
    ensures none { IfNone result (LacksAction block.now state index) }
{
    match &block.states.get(state)?.actions.get(index)?.algorithm {
        Some(name) => algorithm_part(block, name, inside),
        None => Some(BasicPart::OutputAlone(state, index)),
    }
}

/// The part of a transition at which it is shown: its guard if an operation of it is said, or else its condition.
fn condition_part(operation: Option<Operation>) -> TransitionPart
    ensures { result ≡ shown_part operation }
{
    match operation {
        Some(_) => TransitionPart::Guard,
        None => TransitionPart::Condition,
    }
}

/// The part of a basic type at which a site is shown: the condition of the transition, or the algorithm of the action.
fn part_of(block: &BasicType, site: Site) -> Option<BasicPart>
    ensures found { IfSome result (IsSitePart block.now site) }
    ensures none { IfNone result (LacksSite block.now site) }
{
    match site {
        Site::Transition {
            state,
            transition,
            operation,
        } => {
            let from = &block.states.get(state)?.name;
            let index = transition_index(block, from, transition)?;
            Some(BasicPart::Transition(index, condition_part(operation)))
        }
        Site::Action {
            state,
            action,
            inside,
        } => action_part(block, state, action, inside),
    }
}

/// Whether there is an instance of this number.
pub(crate) fn has_instance(system: &System, instance: u32) -> bool
    ensures { IsTrue result ↔ IsInstance system.now instance }
{
    (instance as usize) < system.count()
}

/// The position of the declaration at which a stop is shown. `None` if the event is not taken: then no text is to blame.
/// `None` too if the stop is not one of the system.
pub fn position_of(system: &System, stop: &FoundStop) -> Option<Position>
    ensures found { IfSome result (IsStopPosition system.now stop.now) }
    ensures none { IfNone result (HasNoPosition system.now stop.now) }
{
    let EventSite::Port(target) = stop.at else {
        return None;
    };
    let StopSite::InReaction(site) = stop.site else {
        return None;
    };
    if !has_instance(system, target.instance) {
        return None;
    }
    let TypeNumber::Declared(index) = system.kind(target.instance) else {
        return None;
    };
    match system.library().blocks.get(index)? {
        BlockType::Basic(block) => Some(Position::InBasic(index, part_of(block, site)?)),
        BlockType::Composite(_) => None,
    }
}
