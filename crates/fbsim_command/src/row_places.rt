//! Where the rows are that warnings are about.

ghost use Rattle.std.specs.Prelude.{◌≡◌, IfOk, IfSome, map, option_map};
ghost use Rattle.std.specs.List.{AllZip};
ghost use Rattle.fb_inputs.specs.NearSpans.{IsNearInStimuli};
ghost use Rattle.fbsim_command.specs.WarningLines as spec;
ghost use Rattle.fbsim_command.specs.WarningLines.{IsPlaceNear, IsRowPlaceFor};

use fb_inputs::{StimuliPosition, nearest_spans};
use fb_lint::Warning;
use fb_read::token::Span;
use fb_read_positions::{Place, place_counted_from};
use std::alloc::{AllocError, Global};

/// The position in the stimuli of the row that a warning is about. For another warning it is their beginning.
fn row_position(warning: &Warning) -> StimuliPosition
    ensures { result ≡ spec.row_position warning.now }
{
    match warning {
        Warning::EarlyStimulus { stimulus } => StimuliPosition::Row(*stimulus),
        _ => StimuliPosition::Start,
    }
}

/// The positions of the rows that warnings are about, in the same order.
fn row_positions(alloc: Global, warnings: &[Warning]) -> Result<Vec<StimuliPosition>, AllocError>
    ensures { IfOk result (λ positions. positions.items ≡ map spec.row_position warnings.now) }
{
    let mut positions = Vec::new(alloc);
    for warning in warnings {
        positions.push(row_position(warning))?;
    }
    Ok(positions)
}

/// The places of bytes in a text, in the same order. Lines are counted once for bytes in the order of the text.
fn places_of_spans(
    alloc: Global,
    text: &[u8],
    spans: &[Span],
) -> Result<Vec<Option<Place>>, AllocError>
    ensures { IfOk result (λ places. AllZip (IsPlaceNear text.now) spans.now places.items) }
{
    let mut places = Vec::new(alloc);
    let mut earlier = None;
    for span in spans {
        let place = place_counted_from(text, earlier, span.start, span.end);
        places.push(place)?;
        earlier = place;
    }
    Ok(places)
}

/// The places of the rows that warnings are about, each at the index of its warning. The stimuli are read once for all
/// of them.
pub(crate) fn row_places(
    alloc: Global,
    stimuli: Option<&[u8]>,
    warnings: &[Warning],
) -> Result<Vec<Option<Place>>, AllocError>
    ensures { IfOk result (λ places. AllZip (IsRowPlaceFor (option_map (λ b. b.now) stimuli.entry)) warnings.now places.items) }
{
    let text = stimuli.unwrap_or(&[]);
    let positions = row_positions(alloc, warnings)?;
    let spans = nearest_spans(alloc, text, positions.as_slice())?;
    places_of_spans(alloc, text, spans.as_slice())
}
