//! The words of a stop.

ghost use Rattle.std.specs.Prelude.{◌≡◌, length};
ghost use Rattle.fb_types.specs.OfSystem.{IsInstance, instance_count};

use crate::found::{FoundStop, StopSite, instance_of};
use crate::place::{has_instance, transition_index};
use crate::shown::{Shown, assigned_of};
use crate::site::Site;
use crate::spent::{most, steps_spent};
use crate::values::{push_operation, push_reason};
use fb_check_names::TypeNumber;
use fb_read_positions::words::Text;
use fb_system::System;
use fb_types::{BasicType, BlockType, LATEST_TICK, MOST_STEPS, Name, Reason, State};
use std::alloc::{AllocError, Global};

/// Appends the name of an instance.
fn push_path(text: &mut Text, path: &[u8]) {
    for byte in path {
        text.letter(*byte);
    }
}

/// Appends the transition with an index among those that leave a state.
fn push_transition(text: &mut Text, block: &BasicType, state: &Name, nth: usize) {
    text.numbered(", transition ", nth.saturating_add(1), "");
    if let Some(index) = transition_index(block, state, nth) {
        if let Some(transition) = block.transitions.get(index) {
            text.named(" to ", &transition.to);
        }
    }
}

/// Appends an action of a state, with its algorithm.
fn push_action(text: &mut Text, state: &State, index: usize) {
    text.numbered(", action ", index.saturating_add(1), "");
    if let Some(action) = state.actions.get(index) {
        if let Some(algorithm) = &action.algorithm {
            text.named(", algorithm ", algorithm);
        }
    }
}

/// Appends the state, and the transition or the action.
fn push_site(text: &mut Text, block: &BasicType, site: Site) {
    match site {
        Site::Transition {
            state,
            transition,
            ..
        } => {
            if let Some(state) = block.states.get(state) {
                text.named(", state ", &state.name);
                push_transition(text, block, &state.name, transition);
            }
        }
        Site::Action { state, action, .. } => {
            if let Some(state) = block.states.get(state) {
                text.named(", state ", &state.name);
                push_action(text, state, action);
            }
        }
    }
}

/// Appends the type of a block that the declaration has, and where in it the stop is.
fn push_block(text: &mut Text, block: &BlockType, site: StopSite) {
    let name = match block {
        BlockType::Basic(block) => &block.name,
        BlockType::Composite(block) => &block.name,
    };
    text.named(" (type ", name);
    text.words(")");
    if let StopSite::InReaction(site) = site {
        if let BlockType::Basic(block) = block {
            push_site(text, block, site);
        }
    }
}

/// The basic block at which a stop is, if the declaration has it.
fn basic_at(system: &System, instance: u32) -> Option<&BasicType>
    requires { IsInstance system.now instance }
{
    let TypeNumber::Declared(index) = system.kind(instance) else {
        return None;
    };
    match system.library().blocks.get(index)? {
        BlockType::Basic(block) => Some(block),
        BlockType::Composite(_) => None,
    }
}

/// The words of a stop: the block with its type, its state, the transition or the action, the operation as it is
/// written in the text, the reason, and the values that give it.
///
/// # Errors
/// When memory runs out.
pub fn words_of(
    alloc: Global,
    system: &System,
    stop: &FoundStop,
    declaration: &[u8],
    shown: Option<Shown>,
) -> Result<String, AllocError> {
    let mut text = Text::new(alloc);
    text.words("stop");
    let instance = instance_of(stop.at);
    let mut basic = None;
    if has_instance(system, instance) {
        text.words(": ");
        push_path(&mut text, system.path(instance));
        basic = basic_at(system, instance);
        if let TypeNumber::Declared(index) = system.kind(instance) {
            if let Some(block) = system.library().blocks.get(index) {
                push_block(&mut text, block, stop.site);
            }
        }
    }
    if let StopSite::BeforeEvent = stop.site {
        text.words(", before its event");
    }
    text.words(": ");
    let shown = match shown {
        Some(shown) => Some(shown),
        None => assigned_of(alloc, declaration, system, stop)?,
    };
    push_operation(&mut text, declaration, shown);
    push_reason(&mut text, basic, stop, declaration, shown);
    text.into_string()
}

/// Appends the line of the instance that used the most steps of a tick, and leaves it out from then on.
fn push_most(text: &mut Text, system: &System, spent: &mut Vec<u64>, limit: u64, tick: u64)
    requires { length spent.old.items ≡ instance_count system.now }
    ensures { length spent.new.items ≡ length spent.old.items }
{
    system.facts(); // for the prover: what holds of every accepted system
    let Some(index) = most(spent.as_slice()) else {
        return;
    };
    text.numbered("\ntick ", tick as usize, ": ");
    text.numbered("", spent[index] as usize, " of ");
    text.numbered("", limit as usize, " steps by ");
    push_path(text, system.path(index as u32));
    spent[index] = 0;
}

/// Where the count of steps ran out: how they were used in that tick, a line for each of the blocks that used the most,
/// at most three. Each line begins with a line feed. The text is empty after another stop.
///
/// # Errors
/// When memory runs out, or a link has carried 2^128 messages.
pub fn spent_words(
    alloc: Global,
    system: &System,
    horizon: u64,
    limit: u64,
    stop: &FoundStop,
) -> Result<String, AllocError> {
    if horizon > LATEST_TICK || limit > MOST_STEPS {
        return Ok(String::new(alloc));
    }
    let Reason::Steps = stop.reason else {
        return Ok(String::new(alloc));
    };
    let (tick, resource) = (stop.key.tick, stop.key.resource);
    let Some(mut spent) = steps_spent(alloc, system, horizon, limit, tick, resource)? else {
        return Ok(String::new(alloc));
    };
    let mut text = Text::new(alloc);
    push_most(&mut text, system, &mut spent, limit, tick);
    push_most(&mut text, system, &mut spent, limit, tick);
    push_most(&mut text, system, &mut spent, limit, tick);
    text.into_string()
}
