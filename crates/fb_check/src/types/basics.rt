//! Names in basic types that are unknown: in WITH lists, charts, guards and algorithms.

ghost use Rattle.std.specs.Prelude.{◌≡◌, ◌++◌, Some, IfOk, slice_get};
ghost use Rattle.fb_types.specs.Unknown.{is_known};
ghost use Rattle.fb_types.specs.declared.library.BlockType.TheVariants.{Basic};
ghost use Rattle.fb_check_names.specs.Types.{AreTypes};
ghost use Rattle.fb_check.specs.types.Checks.{guard_mentions};
ghost use Rattle.fb_check.specs.declared.types.basics.Naming.TheVariants as naming;
ghost use Rattle.fb_check_names.specs.Listed.{each_at, unless};
ghost use Rattle.fb_check.specs.types.Mentions.{meant};
ghost use Rattle.fb_check.specs.types.Unknowns.{mention_in, unknown_in_block, unknown_in_body, unknown_in_chart, unknown_in_transition, unknown_mentions};

use crate::types::charts::{push_in_states, push_in_withs, push_names};
use crate::types::mentions::{Mention, is_mention_known, push_body, push_expression};
use crate::types::scope::Scope;
use fb_check_names::types::Types;
use fb_check_names::{UnknownName, push_unless};
use fb_types::{Algorithm, BasicType, Transition};
use std::alloc::{AllocError, Global};

/// A text of a block type that names variables and functions.
#[derive(Clone, Copy)]
pub enum Naming {
    /// The guard of the transition at this index of the block type.
    Guard { block: usize, transition: usize },
    /// The algorithm at this index of the block type.
    Body { block: usize, algorithm: usize },
}

/// The variable or the function at an index among those that a text names.
fn mention_in(naming: Naming, mention: usize) -> UnknownName
    ensures { result ≡ mention_in naming mention }
{
    match naming {
        Naming::Guard { block, transition } => UnknownName::Guard {
            block,
            transition,
            mention,
        },
        Naming::Body { block, algorithm } => UnknownName::Body {
            block,
            algorithm,
            mention,
        },
    }
}

/// Adds those of these mentions that are unknown in the type.
fn push_mentions(
    found: &mut Vec<UnknownName>,
    scope: &Scope,
    naming: Naming,
    mentions: &[Mention],
) -> Result<(), AllocError>
    ensures { IfOk result (λ _. found.new.items ≡ found.old.items ++ each_at (λ m x. unless (is_known scope.now (meant x)) (mention_in naming m)) mentions.now) }
{
    for (index, mention) in mentions.iter().enumerate() {
        let is_known = is_mention_known(scope, mention);
        push_unless(found, is_known, mention_in(naming, index))?;
    }
    Ok(())
}

/// Adds the unknown names of an algorithm.
fn push_in_body(
    alloc: Global,
    found: &mut Vec<UnknownName>,
    scope: &Scope,
    block: usize,
    algorithm: usize,
    declared: &Algorithm,
) -> Result<(), AllocError>
    ensures { IfOk result (λ _. found.new.items ≡ found.old.items ++ unknown_in_body scope.now block algorithm declared.now) }
{
    let naming = Naming::Body { block, algorithm };
    let mut mentions = Vec::new(alloc);
    push_body(&mut mentions, &declared.body).and(push_mentions(
        found,
        scope,
        naming,
        mentions.as_slice(),
    ))
}

/// The same for all algorithms of a basic type.
fn push_in_bodies(
    alloc: Global,
    found: &mut Vec<UnknownName>,
    scope: &Scope,
    block: usize,
    algorithms: &[Algorithm],
) -> Result<(), AllocError>
    ensures { IfOk result (λ _. found.new.items ≡ found.old.items ++ each_at (unknown_in_body scope.now block) algorithms.now) }
{
    for (algorithm, declared) in algorithms.iter().enumerate() {
        push_in_body(alloc, found, scope, block, algorithm, declared)?;
    }
    Ok(())
}

/// Adds the unknown names of a guard.
fn push_in_guard(
    alloc: Global,
    found: &mut Vec<UnknownName>,
    scope: &Scope,
    block: usize,
    transition: usize,
    declared: &Transition,
) -> Result<(), AllocError>
    ensures { IfOk result (λ _. found.new.items ≡ found.old.items ++ unknown_mentions scope.now (naming.Guard block transition) (guard_mentions declared.now)) }
{
    let Some(guard) = &declared.condition.guard else {
        return Ok(());
    };
    let naming = Naming::Guard { block, transition };
    let mut mentions = Vec::new(alloc);
    push_expression(&mut mentions, guard).and(push_mentions(
        found,
        scope,
        naming,
        mentions.as_slice(),
    ))
}

/// Adds the names of transitions that are unknown, and those in their guards.
fn push_in_transitions(
    alloc: Global,
    found: &mut Vec<UnknownName>,
    scope: &Scope,
    block: usize,
    transitions: &[Transition],
) -> Result<(), AllocError>
    ensures { IfOk result (λ _. found.new.items ≡ found.old.items ++ each_at (unknown_in_transition scope.now block) transitions.now) }
{
    for (transition, declared) in transitions.iter().enumerate() {
        push_names(found, scope, block, transition, declared)?;
        push_in_guard(alloc, found, scope, block, transition, declared)?;
    }
    Ok(())
}

/// Adds the unknown names of a chart and of its algorithms.
fn push_in_chart(
    alloc: Global,
    found: &mut Vec<UnknownName>,
    scope: &Scope,
    block: usize,
) -> Result<(), AllocError>
    ensures { IfOk result (λ _. found.new.items ≡ found.old.items ++ unknown_in_chart scope.now block) }
{
    let basic = scope.block();
    let transitions = basic.transitions.as_slice();
    let algorithms = basic.algorithms.as_slice();
    push_in_states(found, scope, block, basic.states.as_slice())
        .and(push_in_transitions(alloc, found, scope, block, transitions))
        .and(push_in_bodies(alloc, found, scope, block, algorithms))
}

/// Adds the unknown names of the basic type at an index.
pub fn push_in_basic(
    alloc: Global,
    found: &mut Vec<UnknownName>,
    types: &Types,
    block: usize,
    basic: &BasicType,
) -> Result<(), AllocError>
    requires types { AreTypes types.now }
    requires index { slice_get types.now.library.now.blocks block ≡ Some (Basic basic.now) }
    ensures { IfOk result (λ _. found.new.items ≡ found.old.items ++ unknown_in_block types.now.library.now block (Basic basic.now)) }
{
    let indexes = &types.catalog.blocks[block];
    let scope = Scope::new(basic, indexes);
    let withs = push_in_withs(found, block, &scope.interface());
    withs.and(push_in_chart(alloc, found, &scope, block))
}
