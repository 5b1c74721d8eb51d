//! Where a position is in the text of a declaration, with its line and its column.

ghost use Rattle.std.specs.Prelude.{◌≤◌, List, IfOk, IfSome, MatchOption, Some, length};
ghost use Rattle.std.specs.List.{AllZip};
ghost use Rattle.fb_read.specs.Located.{AreLocated};
ghost use Rattle.fb_read.specs.Tokens.{after_mark};
ghost use Rattle.fb_read.specs.Whole.{most_bytes};
ghost use Rattle.fb_read.specs.declared.token.Located.{Located};
ghost use Rattle.fb_read_positions.specs.Places.{IsPlace, IsPlaceFor};
ghost use Rattle.fb_read_positions.specs.Spans.{DeclaresNothing, IsAt, IsNowhere};
ghost use Rattle.fb_read_positions.specs.declared.position.Position.{Position};
ghost use Rattle.fb_types.specs.declared.library.Library.{Library};

use crate::find::{discard, span_from, span_of, tokens_of};
use crate::places::{Place, place_counted_from};
use crate::position::Position;
use crate::resume::beginning;
use fb_read::token::{Located, Span};
use fb_types::Library;
use std::alloc::{AllocError, Global};

/// Where a position of a library is in the text that declares it.
///
/// # Errors
///
/// When memory runs out.
pub fn place_at(
    alloc: Global,
    declaration: &[u8],
    library: &Library,
    position: Position,
) -> Result<Option<Place>, AllocError>
    ensures { IfOk result (IsPlaceFor declaration.now library.now (Some position)) }
{
    let span = span_of(alloc, declaration, library, position)?;
    Ok(place_of(declaration, None, span))
}

/// The place of these bytes, if there are any, with lines that are counted on from an earlier place.
fn place_of(declaration: &[u8], earlier: Option<Place>, span: Option<Span>) -> Option<Place>
    requires { IfSome earlier (IsPlace declaration.now) }
    ensures { (position : Position) (library : Library) → MatchOption span (IsNowhere declaration.now library position) (IsAt declaration.now library position) → IsPlaceFor declaration.now library (Some position) result }
{
    match span {
        Some(span) => place_counted_from(declaration, earlier, span.start, span.end),
        None => None,
    }
}

/// Where positions of a library are, as `places_of` finds them, by the tokens of the text that declares it, for a caller
/// that has them.
///
/// # Errors
///
/// When memory runs out.
pub fn places_among(
    alloc: Global,
    declaration: &[u8],
    tokens: &[Located],
    library: &Library,
    positions: &[Option<Position>],
) -> Result<Vec<Option<Place>>, AllocError>
    requires few { length tokens.now ≤ most_bytes }
    requires located { AreLocated declaration.now tokens.now (after_mark declaration.now) }
    ensures { IfOk result (λ places. AllZip (IsPlaceFor declaration.now library.now) positions.now places.items) }
{
    let mut places = Vec::with_capacity(alloc, positions.len())?;
    // The last place, and how far the text was read for it.
    let mut earlier = None;
    let mut reached = beginning();
    for position in positions {
        let Some(position) = *position else {
            places.push_reserved(None);
            continue;
        };
        let found = span_from(alloc, declaration, tokens, library, reached, position)?;
        earlier = place_of(declaration, earlier, found.span);
        reached = found.reached;
        places.push_reserved(earlier);
    }
    Ok(places)
}

/// No place for any of these positions. The text declares no library.
fn no_places(
    alloc: Global,
    declaration: &[u8],
    positions: &[Option<Position>],
) -> Result<Vec<Option<Place>>, AllocError>
    requires { DeclaresNothing declaration.now }
    ensures { (library : Library) → IfOk result (λ places. AllZip (IsPlaceFor declaration.now library) positions.now places.items) }
{
    let mut places = Vec::with_capacity(alloc, positions.len())?;
    for _position in positions {
        places.push_reserved(None);
    }
    Ok(places)
}

/// Where positions of a library are in the text that declares it, each at the index of its position. `None` stands for
/// no position and no place. The text is read again for that; positions that follow the order of a list are found by
/// one walk.
///
/// # Errors
///
/// When memory runs out.
pub fn places_of(
    alloc: Global,
    declaration: &[u8],
    library: &Library,
    positions: &[Option<Position>],
) -> Result<Vec<Option<Place>>, AllocError>
    ensures { IfOk result (λ places. AllZip (IsPlaceFor declaration.now library.now) positions.now places.items) }
{
    let Some(tokens) = tokens_of(alloc, declaration)? else {
        return no_places(alloc, declaration, positions);
    };
    let places = places_among(alloc, declaration, tokens.as_slice(), library, positions);
    discard(tokens);
    places
}
