//! Where a wrong kind of an expression is marked in the text: at the operand that does not fit.

ghost use Rattle.std.specs.Prelude.{◌≡◌, ◌≤◌, ◌-◌, ◌+◌, IfOk, MatchOption, None, Some, length, map};
ghost use Rattle.std.specs.List.{AllZip, list_any};
ghost use Rattle.std.specs.List.Sorted.{IsNonDecreasingBy};
ghost use Rattle.fb_check_names.specs.Sites.{basic_at};
ghost use Rattle.fb_read.specs.Located.{AreLocated};
ghost use Rattle.fb_read.specs.Tokens.{after_mark};
ghost use Rattle.fb_read.specs.Whole.{IsLibraryText, most_bytes};
ghost use Rattle.fb_read_positions.specs.Places.{IsPlace, IsPlaceFor};
ghost use Rattle.fb_why.specs.Marks as spec;
ghost use Rattle.fb_why.specs.Marks.{HasNoExpression, HasNoGuard, HasNoPart, HasNoRange, IsAmong, IsGuardRange, IsMarkedPlace, IsNoToken, IsNoneAmong, IsPartRange, IsRange, IsRangeIn, IsRangeOf, IsTokenAt, IsTokenOf, IsUnmarked};
ghost use Rattle.fb_why.specs.Places.{IsCheckedPlaceIf};
ghost use Rattle.fb_why.specs.Positions.{position_of};

use crate::expression::expression_of;
use crate::mismatch::mismatch_in;
use crate::tokens::past;
use fb_check::Location;
use fb_check::types::all_statements;
use fb_check_names::{KindWrongAt, StatementPart};
use fb_read::read::span_before;
use fb_read::token::{Located, Span};
use fb_read_positions::{Place, Position, discard, place_counted_from, places_among, tokens_of};
use fb_types::{Algorithm, BasicType, BlockType, Expr, Library};
use std::alloc::{AllocError, Global};

/// Tokens of a text, counted from the token at a position.
#[derive(Clone, Copy)]
pub(crate) struct TokenRange {
    /// The first token.
    pub first: usize,
    /// The token after the last one.
    pub end: usize,
}

/// Whether a part of a statement is an expression.
fn is_expression(part: StatementPart) -> bool
    ensures { result ≡ spec.is_expression part }
{
    match part {
        StatementPart::Exit | StatementPart::Assigned | StatementPart::Control => false,
        _ => true,
    }
}

/// Whether a location is about an expression.
fn is_of_expression(location: Location) -> bool
    ensures { result ≡ spec.is_of_expression location }
{
    match location {
        Location::KindWrong(KindWrongAt::Guard { .. }) => true,
        Location::KindWrong(KindWrongAt::Statement { part, .. }) => is_expression(part),
        _ => false,
    }
}

/// The tokens of what is marked in an expression that begins at this token: of the operand that does not fit, or of the
/// whole expression, if its own kind does not.
fn range_in(basic: &BasicType, expr: &Expr, first: usize) -> TokenRange
    ensures { IsRangeIn basic.now expr.now first result }
{
    match mismatch_in(basic, expr, first) {
        Some(found) => TokenRange {
            first: found.first,
            end: past(found.marked, found.first),
        },
        None => TokenRange {
            first,
            end: past(expr, first),
        },
    }
}

/// The basic type at an index.
fn basic_at(library: &Library, block: usize) -> Option<&BasicType>
    ensures { MatchOption result (basic_at library.now block ≡ None) (λ t. basic_at library.now block ≡ Some t.now) }
{
    match library.blocks.get(block) {
        Some(BlockType::Basic(basic)) => Some(basic),
        _ => None,
    }
}

/// The tokens that are marked in the guard of a transition.
fn guard_range(library: &Library, block: usize, transition: usize) -> Option<TokenRange>
    ensures { MatchOption result (HasNoGuard library.now block transition) (IsGuardRange library.now block transition) }
{
    let basic = basic_at(library, block)?;
    match &basic.transitions.get(transition)?.condition.guard {
        Some(guard) => Some(range_in(basic, guard, 0)),
        None => None,
    }
}

/// The tokens that are marked in a part of a statement of an algorithm.
fn part_range(
    alloc: Global,
    basic: &BasicType,
    algorithm: &Algorithm,
    statement: usize,
    part: StatementPart,
) -> Result<Option<TokenRange>, AllocError>
    ensures { IfOk result (λ o. MatchOption o (HasNoPart algorithm.now statement part) (IsPartRange basic.now algorithm.now statement part)) }
{
    let statements = all_statements(alloc, &algorithm.body)?;
    match statements.get(statement) {
        Some(standing) => match expression_of(standing.statement, part) {
            Some(found) => Ok(Some(range_in(basic, found.expr, found.first))),
            None => Ok(None),
        },
        None => Ok(None),
    }
}

/// The tokens that are marked at a wrong kind, if it is one of an expression.
fn kind_range(
    alloc: Global,
    library: &Library,
    location: KindWrongAt,
) -> Result<Option<TokenRange>, AllocError>
    ensures { IfOk result (λ o. MatchOption o (HasNoExpression library.now location) (IsRangeOf library.now location)) }
{
    match location {
        KindWrongAt::Initial { .. } | KindWrongAt::Parameter { .. } => Ok(None),
        KindWrongAt::Guard { block, transition } => Ok(guard_range(library, block, transition)),
        KindWrongAt::Statement {
            block,
            algorithm,
            statement,
            part,
        } => {
            let Some(basic) = basic_at(library, block) else {
                return Ok(None);
            };
            match basic.algorithms.get(algorithm) {
                Some(algorithm) => part_range(alloc, basic, algorithm, statement, part),
                None => Ok(None),
            }
        }
    }
}

/// The tokens that are marked at a location, if it is one of an expression.
fn range_of(
    alloc: Global,
    library: &Library,
    location: Location,
) -> Result<Option<TokenRange>, AllocError>
    ensures { IfOk result (λ o. MatchOption o (HasNoRange library.now location) (IsRange library.now location)) }
{
    match location {
        Location::KindWrong(location) => kind_range(alloc, library, location),
        _ => Ok(None),
    }
}

/// The index of the token at an offset. Tokens are in the order of the text.
fn token_at(tokens: &[Located], offset: usize) -> Option<usize>
    requires { IsNonDecreasingBy (λ token. token.index) tokens.now }
    ensures { MatchOption result (IsNoToken tokens.now offset) (IsTokenAt tokens.now offset) }
{
    let index = tokens.partition_point(|token| token.index < offset);
    match tokens.get(index) {
        Some(token) => if token.index == offset {
            Some(index)
        } else {
            None
        },
        None => None,
    }
}

/// The bytes of the token at an index after another one, if there is one.
fn span_at(
    alloc: Global,
    text: &[u8],
    tokens: &[Located],
    begin: usize,
    offset: usize,
) -> Result<Option<Span>, AllocError>
    requires { AreLocated text.now tokens.now (after_mark text.now) }
    ensures { IfOk result (λ o. MatchOption o (length tokens.now ≤ begin + offset) (λ span. IsTokenOf text.now tokens.now (begin + offset) span.start span.end)) }
{
    match begin.checked_add(offset) {
        Some(index) if index < tokens.len() => {
            let span = span_before(alloc, text, tokens, tokens.len() - index)?;
            Ok(Some(span))
        }
        _ => Ok(None),
    }
}

/// The place of tokens that are counted from the token at this index. Lines are counted on from an earlier place.
fn place_among(
    alloc: Global,
    text: &[u8],
    tokens: &[Located],
    begin: usize,
    range: TokenRange,
    earlier: Place,
) -> Result<Option<Place>, AllocError>
    requires located { AreLocated text.now tokens.now (after_mark text.now) }
    requires earlier { IsPlace text.now earlier }
    ensures { IfOk result (λ o. MatchOption o (IsNoneAmong text.now tokens.now begin range) (IsAmong text.now tokens.now begin range)) }
{
    let last = range.end.saturating_sub(1);
    let Some(first) = span_at(alloc, text, tokens, begin, range.first)? else {
        return Ok(None);
    };
    let Some(last) = span_at(alloc, text, tokens, begin, last)? else {
        return Ok(None);
    };
    Ok(place_counted_from(text, Some(earlier), first.start, last.end))
}

/// The place of what is marked at a location that is about an expression, from the place of its position.
fn marked_place(
    alloc: Global,
    text: &[u8],
    tokens: &[Located],
    library: &Library,
    location: Location,
    place: Option<Place>,
) -> Result<Option<Place>, AllocError>
    requires read { IsLibraryText text.now library.now }
    requires located { AreLocated text.now tokens.now (after_mark text.now) }
    requires place { IsPlaceFor text.now library.now (position_of library.now location) place }
    ensures { IfOk result (λ o. MatchOption o (IsUnmarked text.now location) (IsMarkedPlace text.now location)) }
{
    let Some(earlier) = place else {
        return Ok(None);
    };
    let Some(range) = range_of(alloc, library, location)? else {
        return Ok(None);
    };
    match token_at(tokens, earlier.start) {
        Some(begin) => place_among(alloc, text, tokens, begin, range, earlier),
        None => Ok(None),
    }
}

/// The place of a location, from that of its position.
fn checked_place(
    alloc: Global,
    text: &[u8],
    tokens: &[Located],
    library: &Library,
    location: Location,
    place: Option<Place>,
) -> Result<Option<Place>, AllocError>
    requires read { IsLibraryText text.now library.now }
    requires located { AreLocated text.now tokens.now (after_mark text.now) }
    requires place { IsPlaceFor text.now library.now (position_of library.now location) place }
    ensures { IfOk result (IsCheckedPlaceIf text.now location) }
{
    if is_of_expression(location) {
        marked_place(alloc, text, tokens, library, location, place)
    } else {
        Ok(place)
    }
}

/// Whether one of these locations is about an expression.
fn has_expression(locations: &[Location]) -> bool
    ensures { result ≡ list_any spec.is_of_expression locations.now }
{
    locations.iter().any(|location| is_of_expression(*location))
}

/// The places of locations, from those of their positions and the tokens of the text.
fn marked_among(
    alloc: Global,
    text: &[u8],
    tokens: &[Located],
    library: &Library,
    locations: &[Location],
    places: &[Option<Place>],
) -> Result<Vec<Option<Place>>, AllocError>
    requires read { IsLibraryText text.now library.now }
    requires located { AreLocated text.now tokens.now (after_mark text.now) }
    requires places { AllZip (IsPlaceFor text.now library.now) (map (position_of library.now) locations.now) places.now }
    ensures { IfOk result (λ all. AllZip (IsCheckedPlaceIf text.now) locations.now all.items) }
{
    let mut all = Vec::new(alloc);
    for (index, location) in locations.iter().enumerate() {
        let place = checked_place(alloc, text, tokens, library, *location, places[index])?;
        all.push(place)?;
    }
    Ok(all)
}

/// The places of locations, from their positions and the tokens of the text: of what is marked, for a location that is
/// about an expression.
fn places_by(
    alloc: Global,
    text: &[u8],
    tokens: &[Located],
    library: &Library,
    locations: &[Location],
    positions: &[Option<Position>],
) -> Result<Vec<Option<Place>>, AllocError>
    requires read { IsLibraryText text.now library.now }
    requires few { length tokens.now ≤ most_bytes }
    requires located { AreLocated text.now tokens.now (after_mark text.now) }
    requires positions { positions.now ≡ map (position_of library.now) locations.now }
    ensures { IfOk result (λ all. AllZip (IsCheckedPlaceIf text.now) locations.now all.items) }
{
    let places = places_among(alloc, text, tokens, library, positions)?;
    if !has_expression(locations) {
        return Ok(places);
    }
    marked_among(alloc, text, tokens, library, locations, places.as_slice())
}

/// The places of locations, from their positions. The text is read once for all.
pub(crate) fn marked_places(
    alloc: Global,
    text: &[u8],
    library: &Library,
    locations: &[Location],
    positions: &[Option<Position>],
) -> Result<Vec<Option<Place>>, AllocError>
    requires read { IsLibraryText text.now library.now }
    requires positions { positions.now ≡ map (position_of library.now) locations.now }
    ensures { IfOk result (λ all. AllZip (IsCheckedPlaceIf text.now) locations.now all.items) }
{
    let Some(tokens) = tokens_of(alloc, text)? else {
        // The text declares a library.
        unreachable!()
    };
    let all = places_by(
        alloc,
        text,
        tokens.as_slice(),
        library,
        locations,
        positions,
    );
    discard(tokens);
    all
}
