//! Positions one after another: a position goes on from where an earlier one of the same list was.

ghost use Rattle.std.specs.Prelude.{◌≡◌, ◌≤◌, ◌-◌, List, IfOk, IfSome, IsTrue, drop, length};
ghost use Rattle.fb_read.specs.Parser.{Reads};
ghost use Rattle.fb_read.specs.Tokens.{Tokens, tokens_of};
ghost use Rattle.fb_read.specs.Whole.{most_bytes};
ghost use Rattle.fb_read.specs.declared.token.Located.{Located};
ghost use Rattle.fb_read_positions.specs.Resumed.{IsAhead, IsListed, IsReached, IsStop, Leads, StopsAt};
ghost use Rattle.fb_read_positions.specs.Walks as spec;
ghost use Rattle.fb_read_positions.specs.Walks.{Walk, to_item, to_item_if, to_owner, to_position};

use crate::clauses::clause_left;
use crate::lists::{InnerList, Item, ItemList, OuterList, is_same, item_of, owner_of};
use crate::position::Position;
use crate::statements::statement_left;
use crate::step::{Step, pass, pass_actions, to_name};
use crate::walk::{past_outer, to_first, to_part};
use fb_read::cursor::Cursor;
use fb_read::fault::ParseFault;
use fb_read::token::{Located, Mark};
use std::alloc::{AllocError, Global};

/// How far a list was read.
#[derive(Clone, Copy)]
pub struct Listed {
    /// The item up to which it was read.
    pub item: Item,
    /// The number of tokens that are left at this item.
    pub left: usize,
}

/// How far a text was read.
#[derive(Clone, Copy)]
pub struct Reached {
    /// The last list of the text itself: the block types, or a list of the network of the application.
    pub in_text: Option<Listed>,
    /// The last list of a block type.
    pub in_block: Option<Listed>,
    /// The last list of an item: of an event, an instance, a state, a transition or an algorithm.
    pub in_item: Option<Listed>,
    /// The clauses of the last statement.
    pub in_statement: Option<Listed>,
}

/// Where a walk through a text has ended.
#[derive(Clone, Copy)]
pub struct Stop {
    /// The number of tokens that are left there.
    pub left: usize,
    /// How far the text was read on the way.
    pub reached: Reached,
}

/// Before all tokens.
pub(crate) fn beginning() -> Reached
    ensures { (tokens : List Located) → IsReached tokens result }
{
    Reached {
        in_text: None,
        in_block: None,
        in_item: None,
        in_statement: None,
    }
}

/// The last tokens, of this number.
fn last(tokens: &[Located], left: usize) -> &[Located]
    ensures { result.now ≡ drop (length tokens.now - left) tokens.now }
{
    let index = tokens.len().saturating_sub(left);
    &tokens[index..]
}

/// The number of tokens that are left, if everything before them was read. `None` if it was refused.
fn left_if(read: Result<(), ParseFault>, left: usize) -> Result<Option<usize>, AllocError>
    ensures { (walk : Walk) → (tokens : List Located) → (rest : Tokens) → Reads (walk (tokens_of tokens)) read rest → left ≡ length rest → IfOk result (Leads walk tokens) }
{
    match read {
        Ok(()) => Ok(Some(left)),
        Err(fault) => match fault {
            ParseFault::Memory => Err(AllocError),
            _ => Ok(None),
        },
    }
}

/// How far the list of an item was read, if it was not read past the item.
fn earlier(reached: Reached, item: Item) -> Option<Listed>
    ensures ahead { IfSome result (IsAhead item) }
    ensures listed { (tokens : List Located) → IsReached tokens reached → IfSome result (IsListed tokens) }
{
    match listed_of(reached, item.list) {
        Some(from) if from.item.index <= item.index && is_same(from.item.list, item.list) => {
            Some(from)
        }
        _ => None,
    }
}

/// How far the last list was read that is as deep as this one.
fn listed_of(reached: Reached, list: ItemList) -> Option<Listed>
    ensures { (tokens : List Located) → IsReached tokens reached → IfSome result (IsListed tokens) }
{
    match list {
        ItemList::Outer(OuterList::Blocks) => reached.in_text,
        ItemList::Outer(OuterList::InApplication(_)) => reached.in_text,
        ItemList::Outer(_) => reached.in_block,
        ItemList::Inner(_, _, _) => reached.in_item,
        ItemList::Clauses(_, _, _) => reached.in_statement,
    }
}

/// What was read, after this list too.
fn with_list(reached: Reached, listed: Listed) -> Reached
    ensures { (tokens : List Located) → IsReached tokens reached → IsListed tokens listed → IsReached tokens result }
{
    let now = Some(listed);
    match listed.item.list {
        ItemList::Outer(OuterList::Blocks) => Reached {
            in_text: now,
            ..reached
        },
        ItemList::Outer(OuterList::InApplication(_)) => Reached {
            in_text: now,
            ..reached
        },
        ItemList::Outer(_) => Reached {
            in_block: now,
            ..reached
        },
        ItemList::Inner(_, _, _) => Reached {
            in_item: now,
            ..reached
        },
        ItemList::Clauses(_, _, _) => Reached {
            in_statement: now,
            ..reached
        },
    }
}

/// The end of a walk up to an item, if this number of tokens is left there.
fn stop_at(reached: Reached, item: Item, left: Option<usize>) -> Option<Stop>
    ensures { (tokens : List Located) → IsReached tokens reached → Leads (to_item item) tokens left → StopsAt tokens (to_item item) result }
{
    let left = left?;
    Some(Stop {
        left,
        reached: with_list(reached, Listed { item, left }),
    })
}

/// The number of tokens that are left where these steps were taken this many times from these tokens on.
fn left_past(
    alloc: Global,
    tokens: &[Located],
    steps: &[Step],
    count: usize,
) -> Result<Option<usize>, AllocError>
    requires { length tokens.now ≤ most_bytes }
    ensures { IfOk result (Leads (spec.pass steps.now count) tokens.now) }
{
    let mut cursor = Cursor::new(alloc, tokens);
    left_if(pass(&mut cursor, steps, count), cursor.left())
}

/// The number of tokens that are left at an action, this many actions after the one with which these tokens begin.
fn left_past_actions(
    alloc: Global,
    tokens: &[Located],
    count: usize,
) -> Result<Option<usize>, AllocError>
    requires { length tokens.now ≤ most_bytes }
    ensures { IfOk result (Leads (spec.pass_actions count) tokens.now) }
{
    let mut cursor = Cursor::new(alloc, tokens);
    left_if(pass_actions(&mut cursor, count), cursor.left())
}

/// The number of tokens that are left at the name at an index among the names in these tokens.
fn left_at_name(
    alloc: Global,
    tokens: &[Located],
    index: usize,
) -> Result<Option<usize>, AllocError>
    requires { length tokens.now ≤ most_bytes }
    ensures { IfOk result (Leads (λ ts. spec.to_name ts index) tokens.now) }
{
    let mut cursor = Cursor::new(alloc, tokens);
    left_if(to_name(&mut cursor, index), cursor.left())
}

/// The number of tokens that are left at an item of a list of an item, this many items after the one with which these
/// tokens begin.
fn left_past_inner(
    alloc: Global,
    tokens: &[Located],
    list: InnerList,
    count: usize,
) -> Result<Option<usize>, AllocError>
    requires { length tokens.now ≤ most_bytes }
    ensures { IfOk result (Leads (spec.pass_inner list count) tokens.now) }
{
    let comma = Step::Mark(Mark::Comma);
    match list {
        InnerList::With => left_past(alloc, tokens, &[Step::Name, comma], count),
        InnerList::Parameters => left_past(alloc, tokens, &[Step::Parameter, comma], count),
        InnerList::Actions => left_past_actions(alloc, tokens, count),
        InnerList::Statements => Ok(statement_left(alloc, tokens, count)),
        InnerList::Mentions | InnerList::GuardMentions => left_at_name(alloc, tokens, count),
    }
}

/// The number of tokens that are left at an item of a list, this many items after the one with which these tokens begin.
fn left_past_items(
    alloc: Global,
    tokens: &[Located],
    list: ItemList,
    count: usize,
) -> Result<Option<usize>, AllocError>
    requires { length tokens.now ≤ most_bytes }
    ensures { IfOk result (Leads (spec.pass_items list count) tokens.now) }
{
    match list {
        ItemList::Outer(list) => left_past(alloc, tokens, past_outer(list), count),
        ItemList::Inner(_, _, list) => left_past_inner(alloc, tokens, list, count),
        ItemList::Clauses(_, _, _) => Ok(clause_left(tokens, count)),
    }
}

/// The number of tokens that are left at the first item of a list, from where what has it begins.
fn left_at_first(
    alloc: Global,
    tokens: &[Located],
    list: ItemList,
) -> Result<Option<usize>, AllocError>
    requires { length tokens.now ≤ most_bytes }
    ensures { IfOk result (Leads (spec.to_first list) tokens.now) }
{
    let mut cursor = Cursor::new(alloc, tokens);
    left_if(to_first(&mut cursor, list), cursor.left())
}

/// Reads up to an item, if its list was read before and not past it.
fn reach_again(
    alloc: Global,
    tokens: &[Located],
    reached: Reached,
    item: Item,
) -> Result<Option<Stop>, AllocError>
    requires few { length tokens.now ≤ most_bytes }
    requires reached { IsReached tokens.now reached }
    ensures { IfOk result (λ o. IfSome o (IsStop tokens.now (to_item item))) }
{
    let Some(from) = earlier(reached, item) else {
        return Ok(None);
    };
    let count = item.index - from.item.index;
    let left = left_past_items(alloc, last(tokens, from.left), item.list, count)?;
    Ok(stop_at(reached, item, left))
}

/// Reads up to an item, from where what has its list begins.
fn reach_within(
    alloc: Global,
    tokens: &[Located],
    owner: Stop,
    item: Item,
) -> Result<Option<Stop>, AllocError>
    requires few { length tokens.now ≤ most_bytes }
    requires owner { IsStop tokens.now (to_owner item.list) owner }
    ensures { IfOk result (StopsAt tokens.now (to_item item)) }
{
    let here = last(tokens, owner.left);
    let Some(first) = left_at_first(alloc, here, item.list)? else {
        return Ok(None);
    };
    let left = left_past_items(alloc, last(here, first), item.list, item.index)?;
    Ok(stop_at(owner.reached, item, left))
}

/// Reads up to an item, from the last place on the way to it that was reached before, or up to the beginning of the text
/// if no item is given.
fn reach_item(
    alloc: Global,
    tokens: &[Located],
    reached: Reached,
    item: Option<Item>,
) -> Result<Option<Stop>, AllocError>
    requires few { length tokens.now ≤ most_bytes }
    requires reached { IsReached tokens.now reached }
    ensures { IfOk result (StopsAt tokens.now (to_item_if item)) }
{
    let Some(item) = item else {
        return Ok(Some(Stop {
            left: tokens.len(),
            reached,
        }));
    };
    if let Some(stop) = reach_again(alloc, tokens, reached, item)? {
        return Ok(Some(stop));
    }
    match reach_item(alloc, tokens, reached, owner_of(item.list))? {
        Some(owner) => reach_within(alloc, tokens, owner, item),
        None => Ok(None),
    }
}

/// Reads up to a position of a declaration, from where these tokens were read before.
pub(crate) fn reach(
    alloc: Global,
    tokens: &[Located],
    reached: Reached,
    position: Position,
) -> Result<Option<Stop>, AllocError>
    requires few { length tokens.now ≤ most_bytes }
    requires reached { IsReached tokens.now reached }
    ensures { IfOk result (StopsAt tokens.now (to_position position)) }
{
    let Some(at_item) = reach_item(alloc, tokens, reached, item_of(position))? else {
        return Ok(None);
    };
    match left_past(alloc, last(tokens, at_item.left), to_part(position), 1)? {
        Some(left) => Ok(Some(Stop {
            left,
            reached: at_item.reached,
        })),
        None => Ok(None),
    }
}
