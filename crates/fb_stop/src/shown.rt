//! Where the operation of a stop is in the text of the declaration.

ghost use Rattle.std.specs.Prelude.{◌≡◌, ◌≤◌, ◌+◌, IfNone, IfOk, IfSome, MatchOption, length};
ghost use Rattle.fb_read.specs.Located.{AreLocated};
ghost use Rattle.fb_read.specs.Tokens.{after_mark};
ghost use Rattle.fb_types.specs.declared.library.Library.{Library};
ghost use Rattle.fb_read_positions.specs.Spans.{IsAt};
ghost use Rattle.fb_read_positions.specs.declared.position.Position.{Position};
ghost use Rattle.fb_stop.specs.Shown as spec;
ghost use Rattle.fb_stop.specs.Shown.{HasNoToken, IsAssignedShown, IsOperationShown, IsShownAmong, IsShownOrNot, IsStopShown, IsTokenAt, IsTokenOf, IsUnshown, IsUnshownAmong};

use crate::found::{FoundStop, StopSite};
use crate::place::position_of;
use crate::site::{Inside, Site};
use crate::{Operation, Placed};
use fb_read::read::span_before;
use fb_read::token::{Located, Span};
use fb_read_positions::{discard, span_of, tokens_of};
use fb_system::System;
use std::alloc::{AllocError, Global};

/// An operation in a text, in bytes.
#[derive(Clone, Copy)]
pub struct Shown {
    /// Its operator, or the name of the function.
    pub operator: Span,
    /// The offset of its first token.
    pub start: usize,
    /// The offset of its last token.
    pub end: usize,
}

/// The index of the token at an offset.
fn token_at(tokens: &[Located], offset: usize) -> Option<usize>
    ensures { MatchOption result (HasNoToken tokens.now offset) (IsTokenAt tokens.now offset) }
{
    for (index, token) in tokens.iter().enumerate() {
        if token.index == offset {
            return Some(index);
        }
    }
    None
}

/// The bytes of the token that is this many tokens after another, if there is one.
fn span_at(
    alloc: Global,
    text: &[u8],
    tokens: &[Located],
    begin: usize,
    offset: usize,
) -> Result<Option<Span>, AllocError>
    requires { AreLocated text.now tokens.now (after_mark text.now) }
    ensures { IfOk result (λ o. MatchOption o (length tokens.now ≤ begin + offset) (λ span. IsTokenOf text.now tokens.now (begin + offset) span.start span.end)) }
{
    let after = tokens.len().saturating_sub(begin);
    if offset < after {
        let span = span_before(alloc, text, tokens, after - offset)?;
        Ok(Some(span))
    } else {
        Ok(None)
    }
}

/// The bytes of an operation whose tokens are counted from this one.
fn shown_from(
    alloc: Global,
    text: &[u8],
    tokens: &[Located],
    begin: usize,
    operation: Operation,
) -> Result<Option<Shown>, AllocError>
    requires { AreLocated text.now tokens.now (after_mark text.now) }
    ensures { IfOk result (λ o. MatchOption o (IsUnshownAmong text.now tokens.now begin operation) (IsShownAmong text.now tokens.now begin operation)) }
{
    let last = operation.end.saturating_sub(1);
    let Some(first) = span_at(alloc, text, tokens, begin, operation.first)? else {
        return Ok(None);
    };
    let Some(operator) = span_at(alloc, text, tokens, begin, operation.operator)? else {
        return Ok(None);
    };
    let Some(last) = span_at(alloc, text, tokens, begin, last)? else {
        return Ok(None);
    };
    Ok(Some(Shown {
        operator,
        start: first.start,
        end: last.end,
    }))
}

/// The bytes of an operation whose tokens are counted from the one at these bytes.
fn shown_in(
    alloc: Global,
    text: &[u8],
    tokens: &[Located],
    span: Span,
    operation: Operation,
) -> Result<Option<Shown>, AllocError>
    requires { AreLocated text.now tokens.now (after_mark text.now) }
    ensures { IfOk result (λ o. (library : Library) → (position : Position) → IsAt text.now library position span → IsShownOrNot text.now library position operation o) }
{
    match token_at(tokens, span.start) {
        Some(begin) => shown_from(alloc, text, tokens, begin, operation),
        None => Ok(None),
    }
}

/// The operation of a place in a statement.
fn operation_placed(placed: Option<Placed>) -> Option<Operation>
    ensures { result ≡ spec.operation_placed placed }
{
    Some(placed?.operation)
}

/// The operation of a stop that has no value. Its tokens are counted from the token at the position of the stop.
fn operation_at(site: StopSite) -> Option<Operation>
    ensures { result ≡ spec.operation_at site }
{
    let StopSite::InReaction(site) = site else {
        return None;
    };
    match site {
        Site::Transition { operation, .. } => operation,
        Site::Action { inside, .. } => {
            let Inside {
                operation,
                value,
                ..
            } = inside?;
            match value {
                None => operation_placed(operation),
                Some(_) => None,
            }
        }
    }
}

/// The same of the operation that is assigned, if its value does not fit the variable.
fn assigned_at(site: StopSite) -> Option<Operation>
    ensures { result ≡ spec.assigned_at site }
{
    let StopSite::InReaction(Site::Action { inside, .. }) = site else {
        return None;
    };
    let Inside {
        operation,
        value,
        ..
    } = inside?;
    match value {
        None => None,
        Some(_) => operation_placed(operation),
    }
}

/// The operation of a stop: that without a value, or that which is assigned.
pub(crate) fn any_operation(site: StopSite) -> Option<Operation> {
    match operation_at(site) {
        Some(operation) => Some(operation),
        None => assigned_at(site),
    }
}

/// An operation of a stop, if there is one, in the text that declares the system.
fn shown_with(
    alloc: Global,
    text: &[u8],
    system: &System,
    stop: &FoundStop,
    operation: Option<Operation>,
) -> Result<Option<Shown>, AllocError>
    ensures { IfOk result (λ o. MatchOption o (IsUnshown text.now system.now stop.now operation) (IsOperationShown text.now system.now stop.now operation)) }
{
    let Some(position) = position_of(system, stop) else {
        return Ok(None);
    };
    let Some(operation) = operation else {
        return Ok(None);
    };
    let Some(span) = span_of(alloc, text, system.library(), position)? else {
        return Ok(None);
    };
    let Some(tokens) = tokens_of(alloc, text)? else {
        return Ok(None);
    };
    let found = shown_in(alloc, text, tokens.as_slice(), span, operation);
    discard(tokens);
    found
}

/// The operation at which a simulation stops, in the text that declares the system. `None` if no operation is without a
/// value, or the stop is not one of the system.
///
/// # Errors
/// When memory runs out.
pub fn shown_of(
    alloc: Global,
    text: &[u8],
    system: &System,
    stop: &FoundStop,
) -> Result<Option<Shown>, AllocError>
    ensures found { IfOk result (λ o. IfSome o (IsStopShown text.now system.now stop.now)) }
    ensures none { IfOk result (λ o. IfNone o (IsUnshown text.now system.now stop.now (spec.operation_at stop.now.site))) }
{
    shown_with(alloc, text, system, stop, operation_at(stop.site))
}

/// The operation that is assigned, if its value does not fit the variable, in the text that declares the system.
pub(crate) fn assigned_of(
    alloc: Global,
    text: &[u8],
    system: &System,
    stop: &FoundStop,
) -> Result<Option<Shown>, AllocError>
    ensures found { IfOk result (λ o. IfSome o (IsAssignedShown text.now system.now stop.now)) }
    ensures none { IfOk result (λ o. IfNone o (IsUnshown text.now system.now stop.now (spec.assigned_at stop.now.site))) }
{
    shown_with(alloc, text, system, stop, assigned_at(stop.site))
}
