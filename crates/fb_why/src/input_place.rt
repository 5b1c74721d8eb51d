//! Where a location is in the deployment or in the stimuli.

ghost use Rattle.std.specs.Prelude.{◌≡◌, IfOk, MatchOption, map, option_map};
ghost use Rattle.std.specs.List.{All, AllZip};
ghost use Rattle.fb_why.specs.InputPlaces as spec;
ghost use Rattle.fb_why.specs.InputPlaces.{AreBytesOf, HasCheckedNone, HasNoBytes, HasNoInputPosition, HasNotMappedNone, IsCheckedPosition, IsInputPosition, IsListedIn, IsNearIn, IsNotListed, IsNotMappedPosition, IsPlaceFor, IsPlaceOf, IsReadFor, IsShownAt};
ghost use Rattle.fb_why.specs.InputStretches.{IsDeployOutside, IsDeployPlace};

use crate::further::further_bytes;
use crate::location::FindingLocation;
use crate::place::PlacedFinding;
use fb_check::{Limit, Location, StimulusFault, StimulusLocation};
use fb_check_names::{GivenTwice, NotMappedAt, Side, UnknownName};
use fb_deploy_positions::Outline;
use fb_inputs::{
    DeployKey, DeployLocation, DeployPosition, InputError, StimuliPosition, TableFault,
    TableLocation, deploy_position, nearest_spans, read_deploy, stimuli_position,
};
use fb_read::token::Span;
use fb_read_positions::{Place, place_between};
use fb_types::ResourceEntry;
use std::alloc::{AllocError, Global};

/// An input other than the declaration.
#[derive(Clone, Copy)]
pub enum InputFile {
    Deployment,
    Stimuli,
}

/// A place in an input.
#[derive(Clone, Copy)]
pub struct InputPlace {
    /// The input.
    pub file: InputFile,
    /// The place in its text.
    pub at: Place,
}

/// A position in the deployment or in the stimuli.
#[derive(Clone, Copy)]
pub enum InputPosition {
    Deployment(DeployPosition),
    Stimuli(StimuliPosition),
    /// The first key of a table of the deployment that the table may not have.
    Further(TableLocation),
}

/// The place of a position of a deployment: where its key or its table is, or else the beginning of the text.
///
/// # Errors
///
/// When memory runs out.
pub fn place_in_deployment(
    alloc: Global,
    outline: &Outline<'_>,
    position: DeployPosition,
) -> Result<Option<Place>, AllocError>
    ensures { let text = outline.now.text.now in IfOk result (λ o. MatchOption o (IsDeployOutside text position) (IsDeployPlace text position)) }
{
    let span = outline.nearest(alloc, position)?;
    Ok(place_between(outline.text(), span.start, span.end))
}

/// An instance that a resource lists.
fn listed(resource: usize, instance: usize) -> InputPosition
    ensures { result ≡ spec.listed resource instance }
{
    InputPosition::Deployment(DeployPosition::Element(
        TableLocation::Resource(resource),
        DeployKey::Instances,
        instance,
    ))
}

/// A name of a deployment that is unknown.
fn unknown_position(name: UnknownName) -> Option<InputPosition>
    ensures { result ≡ spec.unknown_position name }
{
    match name {
        UnknownName::Mapped { resource, instance } => Some(listed(resource, instance)),
        UnknownName::LinkEnd { link, side } => {
            let key = match side {
                Side::From => DeployKey::From,
                Side::To => DeployKey::To,
            };
            let position = DeployPosition::Key(TableLocation::Link(link), key);
            Some(InputPosition::Deployment(position))
        }
        _ => None,
    }
}

/// What is given twice in a deployment, at its later occurrence.
fn twice_position(given: GivenTwice) -> Option<InputPosition>
    ensures { result ≡ spec.twice_position given }
{
    match given {
        GivenTwice::Resource((_, resource)) => {
            let position = DeployPosition::Key(TableLocation::Resource(resource), DeployKey::Name);
            Some(InputPosition::Deployment(position))
        }
        GivenTwice::Link((_, link)) => {
            let position = DeployPosition::Table(TableLocation::Link(link));
            Some(InputPosition::Deployment(position))
        }
        _ => None,
    }
}

/// A stimulus that does not fit its event input: its event, or the word.
fn stimulus_position(location: StimulusLocation) -> StimuliPosition
    ensures { result ≡ spec.stimulus_position location }
{
    let StimulusLocation { row, fault } = location;
    match fault {
        StimulusFault::Event => StimuliPosition::Field(row, 1),
        StimulusFault::Setting(word) => StimuliPosition::Word(row, word),
        StimulusFault::Twice(word) => StimuliPosition::Word(row, word),
    }
}

/// The position at which a location of the check is shown, if it is one in the deployment or in the stimuli. For an
/// instance that is not mapped the deployment says where it is.
fn checked_position(location: Location) -> Option<InputPosition>
    ensures { result ≡ spec.checked_position location }
{
    match location {
        Location::NameTwice(given) => twice_position(given),
        Location::NameUnknown(name) => unknown_position(name),
        Location::BadStimulus(location) => {
            Some(InputPosition::Stimuli(stimulus_position(location)))
        }
        Location::OverLimit(Limit::Stimuli) => Some(InputPosition::Stimuli(StimuliPosition::Start)),
        _ => None,
    }
}

/// The position of the name at an index in the lists of all resources, one after another.
fn listed_at(resources: &[ResourceEntry], index: usize) -> Option<InputPosition>
    ensures { result ≡ spec.listed_at 0 resources.now index }
{
    let mut left = index;
    for (resource, entry) in resources.iter().enumerate() {
        let count = entry.instances.len();
        if left < count {
            return Some(listed(resource, left));
        }
        left -= count;
    }
    None
}

/// The position of the name at an index in the lists of the resources of a deployment.
fn listed_in(
    alloc: Global,
    deploy: Option<&[u8]>,
    index: usize,
) -> Result<Option<InputPosition>, AllocError>
    ensures { let given = option_map (λ b. b.now) deploy.entry in IfOk result (λ o. MatchOption o (IsNotListed given index) (IsListedIn given index)) }
{
    let Some(bytes) = deploy else {
        return Ok(None);
    };
    match read_deploy(alloc, bytes) {
        Ok(deploy) => Ok(listed_at(deploy.plan().resources.as_slice(), index)),
        Err(InputError::Memory) => Err(AllocError),
        Err(_) => Ok(None),
    }
}

/// The position of a refusal of a deployment.
fn refused_position(location: DeployLocation) -> InputPosition
    ensures { result ≡ spec.refused_position location }
{
    match location {
        DeployLocation::Shape {
            table,
            fault: TableFault::Further,
        } => InputPosition::Further(table),
        _ => InputPosition::Deployment(deploy_position(location)),
    }
}

/// The position of an instance that is not mapped, if a deployment lists it.
fn not_mapped_in(
    alloc: Global,
    deploy: Option<&[u8]>,
    not_mapped: NotMappedAt,
) -> Result<Option<InputPosition>, AllocError>
    ensures { let given = option_map (λ b. b.now) deploy.entry in IfOk result (λ o. MatchOption o (HasNotMappedNone given not_mapped) (IsNotMappedPosition given not_mapped)) }
{
    match not_mapped {
        NotMappedAt::Again((_, index)) => listed_in(alloc, deploy, index),
        NotMappedAt::Unlisted(_) => Ok(None),
    }
}

/// The position at which a location of the check is shown, if it is one in the deployment or in the stimuli.
fn checked_in(
    alloc: Global,
    deploy: Option<&[u8]>,
    location: Location,
) -> Result<Option<InputPosition>, AllocError>
    ensures { let given = option_map (λ b. b.now) deploy.entry in IfOk result (λ o. MatchOption o (HasCheckedNone given location) (IsCheckedPosition given location)) }
{
    match location {
        Location::NotMapped(not_mapped) => not_mapped_in(alloc, deploy, not_mapped),
        _ => Ok(checked_position(location)),
    }
}

/// The position at which a location is shown, if it is one in the deployment or in the stimuli.
fn input_position(
    alloc: Global,
    deploy: Option<&[u8]>,
    location: FindingLocation,
) -> Result<Option<InputPosition>, AllocError>
    ensures { let given = option_map (λ b. b.now) deploy.entry in IfOk result (λ o. MatchOption o (HasNoInputPosition given location) (IsInputPosition given location)) }
{
    match location {
        FindingLocation::Check(location) => checked_in(alloc, deploy, location),
        FindingLocation::Deployment(location) => Ok(Some(refused_position(location))),
        FindingLocation::Stimuli(location) => {
            let position = stimuli_position(location);
            Ok(Some(InputPosition::Stimuli(position)))
        }
        FindingLocation::Text(_) => Ok(None),
    }
}

/// The positions at which findings are shown, if they are in the deployment or in the stimuli, each at the index of its
/// finding.
fn input_positions(
    alloc: Global,
    deploy: Option<&[u8]>,
    found: &[PlacedFinding],
) -> Result<Vec<Option<InputPosition>>, AllocError>
    ensures { IfOk result (λ positions. AllZip (IsShownAt (option_map (λ b. b.now) deploy.entry)) found.now positions.items) }
{
    let mut positions = Vec::new(alloc);
    for one in found {
        positions.push(input_position(alloc, deploy, one.finding.location)?)?;
    }
    Ok(positions)
}

/// The position in the stimuli. For one elsewhere it is their beginning.
fn row_of(position: Option<InputPosition>) -> StimuliPosition
    ensures { result ≡ spec.row_of position }
{
    match position {
        Some(InputPosition::Stimuli(position)) => position,
        Some(InputPosition::Deployment(_) | InputPosition::Further(_)) | None => {
            StimuliPosition::Start
        }
    }
}

/// The positions in the stimuli, in the same order.
fn stimuli_rows(
    alloc: Global,
    positions: &[Option<InputPosition>],
) -> Result<Vec<StimuliPosition>, AllocError>
    ensures { IfOk result (λ rows. rows.items ≡ map spec.row_of positions.now) }
{
    let mut rows = Vec::new(alloc);
    for position in positions {
        rows.push(row_of(*position))?;
    }
    Ok(rows)
}

/// Whether a position is in the deployment.
fn is_in_deployment(position: Option<InputPosition>) -> bool
    ensures { result ≡ spec.is_in_deployment position }
{
    match position {
        Some(InputPosition::Deployment(_) | InputPosition::Further(_)) => true,
        Some(InputPosition::Stimuli(_)) | None => false,
    }
}

/// The deployment, if one is given and some of the positions are in it, or else no bytes.
fn deployment_for<'a>(deploy: Option<&'a [u8]>, positions: &[Option<InputPosition>]) -> &'a [u8]
    ensures { All (IsReadFor (option_map (λ b. b.now) deploy.entry) result.now) positions.now }
{
    for position in positions {
        if is_in_deployment(*position) {
            return deploy.unwrap_or(&[]);
        }
    }
    &[]
}

/// The place of bytes of an input, if the input is given and they are in it.
fn place_in(file: InputFile, given: Option<&[u8]>, span: Span) -> Option<InputPlace>
    ensures { let text = option_map (λ b. b.now) given.entry in MatchOption result (HasNoBytes text span) (AreBytesOf file text span) }
{
    let at = place_between(given?, span.start, span.end)?;
    Some(InputPlace { file, at })
}

/// The place of a position, if there is one. Of one in the stimuli it is that of `span`, the bytes nearest to it.
fn place_of(
    alloc: Global,
    outline: &Outline<'_>,
    deploy: Option<&[u8]>,
    stimuli: Option<&[u8]>,
    position: Option<InputPosition>,
    span: Span,
) -> Result<Option<InputPlace>, AllocError>
    requires near { IsNearIn (option_map (λ b. b.now) stimuli) (spec.row_of position) span }
    requires read { IsReadFor (option_map (λ b. b.now) deploy) outline.now.text.now position }
    ensures { IfOk result (IsPlaceFor (option_map (λ b. b.now) deploy.entry) (option_map (λ b. b.now) stimuli.entry) position) }
{
    match position {
        Some(InputPosition::Deployment(position)) => {
            let span = outline.nearest(alloc, position)?;
            Ok(place_in(InputFile::Deployment, deploy, span))
        }
        Some(InputPosition::Further(table)) => {
            let Some(bytes) = deploy else {
                return Ok(None);
            };
            let span = further_bytes(alloc, outline, bytes, table)?;
            Ok(place_in(InputFile::Deployment, deploy, span))
        }
        Some(InputPosition::Stimuli(_)) => Ok(place_in(InputFile::Stimuli, stimuli, span)),
        None => Ok(None),
    }
}

/// The places of positions, each at the index of its position. `spans` has the bytes nearest to those in the stimuli.
fn places_of(
    alloc: Global,
    outline: &Outline<'_>,
    deploy: Option<&[u8]>,
    stimuli: Option<&[u8]>,
    positions: &[Option<InputPosition>],
    spans: &[Span],
) -> Result<Vec<Option<InputPlace>>, AllocError>
    requires near { AllZip (IsNearIn (option_map (λ b. b.now) stimuli)) (map spec.row_of positions.now) spans.now }
    requires read { All (IsReadFor (option_map (λ b. b.now) deploy) outline.now.text.now) positions.now }
    ensures { IfOk result (λ places. AllZip (IsPlaceFor (option_map (λ b. b.now) deploy.entry) (option_map (λ b. b.now) stimuli.entry)) positions.now places.items) }
{
    let mut places = Vec::new(alloc);
    for (index, position) in positions.iter().enumerate() {
        let place = place_of(alloc, outline, deploy, stimuli, *position, spans[index])?;
        places.push(place)?;
    }
    Ok(places)
}

/// Where findings are in the deployment or in the stimuli, each at the index of its finding. `None` means that it is in
/// the declaration. The deployment's statements are read once for all of them, and so are the stimuli.
///
/// # Errors
///
/// When memory runs out.
pub fn places_in_inputs(
    alloc: Global,
    deploy: Option<&[u8]>,
    stimuli: Option<&[u8]>,
    found: &[PlacedFinding],
) -> Result<Vec<Option<InputPlace>>, AllocError>
    ensures { IfOk result (λ places. AllZip (IsPlaceOf (option_map (λ b. b.now) deploy.entry) (option_map (λ b. b.now) stimuli.entry)) found.now places.items) }
{
    let positions = input_positions(alloc, deploy, found)?;
    let rows = stimuli_rows(alloc, positions.as_slice())?;
    let spans = nearest_spans(alloc, stimuli.unwrap_or(&[]), rows.as_slice())?;
    let outline = Outline::read(alloc, deployment_for(deploy, positions.as_slice()))?;
    places_of(
        alloc,
        &outline,
        deploy,
        stimuli,
        positions.as_slice(),
        spans.as_slice(),
    )
}
