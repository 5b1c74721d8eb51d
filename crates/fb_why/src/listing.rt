//! The findings of one number.

ghost use Rattle.std.specs.Prelude.{◌≡◌, All, IfOk, false, length, map, nat_lt, take};
ghost use Rattle.std.specs.Option.{option_to_list};
ghost use Rattle.fb_read.specs.Whole.{IsLibraryText};
ghost use Rattle.fb_why.specs.Listings.{locations_of, most_findings};
ghost use Rattle.fb_why.specs.Places.{IsPlacedFinding};
ghost use Rattle.fb_why.specs.declared.location.FindingLocation.TheVariants.{Check};

use crate::contents::Contents;
use crate::location::{Finding, FindingLocation};
use crate::marks::marked_places;
use crate::messages::flaw::push_flaw;
use crate::place::{PlacedFinding, position_of};
use fb_check::{Case, Location};
use fb_read_positions::{BlockTypes, Place, Text};
use std::alloc::{AllocError, Global};

/// The greatest number of findings that are shown.
pub const MOST_FINDINGS: usize = 20;

/// Where a refusal applies: the first findings of its number, in the order of the declaration.
#[derive(Drop)]
pub struct Findings {
    /// The first ones, at most [`MOST_FINDINGS`].
    pub shown: Vec<PlacedFinding>,
    /// Set if there are more.
    pub more: bool,
}

/// The finding of a number for which one at most is found.
pub(crate) fn one(alloc: Global, found: Option<PlacedFinding>) -> Result<Findings, AllocError>
    ensures shown { IfOk result (λ f. f.shown.items ≡ option_to_list found) }
    ensures more { IfOk result (λ f. f.more ≡ false) }
{
    let mut shown = Vec::new(alloc);
    if let Some(found) = found {
        shown.push(found)?;
    }
    Ok(Findings { shown, more: false })
}

/// What is wrong at each of these locations of inputs, with its place at the same index.
fn findings_at<'a>(
    alloc: Global,
    types: &BlockTypes<'a>,
    contents: &mut Contents<'a>,
    case: &Case,
    locations: &[Location],
    places: &[Option<Place>],
) -> Result<Vec<PlacedFinding>, AllocError>
    requires { length places.now ≡ length locations.now }
    ensures found { IfOk result (λ all. map (λ r. r.finding.location) all.items ≡ map Check locations.now) }
    ensures placed { IfOk result (λ all. map (λ r. r.place) all.items ≡ places.now) }
{
    let mut all = Vec::new(alloc);
    for (index, location) in locations.iter().enumerate() {
        let (location, place) = (*location, places[index]);
        let mut text = Text::new(alloc);
        push_flaw(&mut text, types, contents, case, location);
        let text = text.into_string()?;
        let location = FindingLocation::Check(location);
        let finding = Finding { location, text };
        all.push(PlacedFinding { finding, place })?;
    }
    Ok(all)
}

/// What is wrong at each of these locations of inputs, with its place at the same index.
fn shown_at(
    alloc: Global,
    case: &Case,
    locations: &[Location],
    places: &[Option<Place>],
) -> Result<Vec<PlacedFinding>, AllocError>
    requires { length places.now ≡ length locations.now }
    ensures found { IfOk result (λ all. map (λ r. r.finding.location) all.items ≡ map Check locations.now) }
    ensures placed { IfOk result (λ all. map (λ r. r.place) all.items ≡ places.now) }
{
    let types = BlockTypes::new(alloc, case.library)?;
    let mut contents = Contents::new(alloc);
    findings_at(alloc, &types, &mut contents, case, locations, places)
}

/// The findings at these locations of inputs. The text that declares the library is read again for their places.
pub(crate) fn listed(
    alloc: Global,
    declaration: &[u8],
    case: &Case,
    locations: &[Location],
) -> Result<Findings, AllocError>
    requires { IsLibraryText declaration.now case.now.library.now }
    ensures shown { IfOk result (λ f. locations_of f ≡ map Check (take most_findings locations.now)) }
    ensures more { IfOk result (λ f. f.more ≡ nat_lt most_findings (length locations.now)) }
    ensures placed { IfOk result (λ f. All (IsPlacedFinding declaration.now) f.shown.items) }
{
    let more = locations.len() > MOST_FINDINGS;
    let first = &locations[..locations.len().min(MOST_FINDINGS)];
    let mut positions = Vec::new(alloc);
    for location in first {
        positions.push(position_of(case.library, *location))?;
    }
    let marked = marked_places(
        alloc,
        declaration,
        case.library,
        first,
        positions.as_slice(),
    )?;
    let shown = shown_at(alloc, case, first, marked.as_slice())?;
    Ok(Findings { shown, more })
}

/// Frees findings. Each crate that drops some proves their destructors again, so other crates call this function.
pub fn discard_findings(findings: Findings) {
    drop(findings);
}
