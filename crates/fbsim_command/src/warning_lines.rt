//! The lines of warnings, with their places.

ghost use Rattle.std.specs.Prelude.{◌≡◌, ◌⊎◌, [], IfNone, IfOk, IfSome, option_map, string_bytes};
ghost use Rattle.fb_lint.specs.Positions.{position_of};
ghost use Rattle.fb_types.specs.declared.library.Library.{Library};
ghost use Rattle.fb_read_positions.specs.Places.{IsPlaceFor};
ghost use Rattle.fb_inputs.specs.declared.position.StimuliPosition.TheVariants as in_stimuli;
ghost use Rattle.fbsim_command.specs.Selecting.{is_selected};
ghost use Rattle.fbsim_command.specs.WarningLines as spec;
ghost use Rattle.fbsim_command.specs.WarningLines.{AreSorted, HasNoLinkPlace, HasNoRowPlace, IsAdded, IsLinkPlace, IsLinkPlaceFor, IsPlace, IsPlaceText, IsRowPlace, IsRowPlaceFor, MayBePlaceInRows, MayBePlaceOfLink, naming_of, place_text};

use crate::call_names::Naming;
use crate::join::{file_name, line_in_file};
use crate::link_places::link_places;
use crate::row_places::row_places;
use crate::selectors::{Sorting, is_selected};
use crate::shown::shown_name;
use fb_lint::{Warning, line_of, positions_of};
use fb_read_positions::{Place, places_of};
use fb_sim::Inputs;
use fb_system::System;
use fb_types::{Library, Plan};
use std::alloc::{AllocError, Global};

/// A file, a line and a column, as editors take them.
fn place_text(alloc: Global, name: &str, line: usize, column: u128) -> Result<String, AllocError>
    ensures { IfOk result (λ text. string_bytes text ≡ place_text name.now line column) }
{
    let name = shown_name(alloc, name)?;
    Ok(format!(in alloc; "{name}:{line}:{column}: ")?)
}

/// The place of a location in the whole text of a declaration: in the file that has its line.
fn place_in_files(
    alloc: Global,
    naming: &Naming<'_, '_, '_>,
    at: Place,
) -> Result<String, AllocError>
    ensures { IfOk result (λ text. IsPlaceText (naming_of naming.now) at.line at.column (string_bytes text)) }
{
    match line_in_file(naming.lines, at.line) {
        Some(there) => {
            let name = file_name(naming.types, naming.own, there.file);
            place_text(alloc, name, there.line, there.column(at.column))
        }
        None => place_text(alloc, naming.own, at.line, at.column as u128),
    }
}

/// The place of a link: that of its table in the deployment.
fn place_of_link(
    alloc: Global,
    naming: &Naming<'_, '_, '_>,
    deploy: Option<&[u8]>,
    link: usize,
    at: Option<Place>,
) -> Result<String, AllocError>
    requires { MayBePlaceOfLink (option_map (λ b. b.now) deploy) link at }
    ensures { IfOk result (λ text. IsLinkPlace (naming_of naming.now) (option_map (λ b. b.now) deploy.entry) link (string_bytes text) ⊎ (HasNoLinkPlace (naming_of naming.now) (option_map (λ b. b.now) deploy.entry) link × (string_bytes text ≡ []))) }
{
    let Some(name) = naming.deploy else {
        return Ok(String::new(alloc));
    };
    if deploy.is_none() {
        return Ok(String::new(alloc));
    }
    match at {
        Some(at) => place_text(alloc, name, at.line, at.column as u128),
        None => Ok(String::new(alloc)),
    }
}

/// The place of a row: that of its first field in the stimuli.
fn place_of_row(
    alloc: Global,
    naming: &Naming<'_, '_, '_>,
    stimuli: Option<&[u8]>,
    row: usize,
    at: Option<Place>,
) -> Result<String, AllocError>
    requires { MayBePlaceInRows (option_map (λ b. b.now) stimuli) (in_stimuli.Row row) at }
    ensures { IfOk result (λ text. IsRowPlace (naming_of naming.now) (option_map (λ b. b.now) stimuli.entry) row (string_bytes text) ⊎ (HasNoRowPlace (naming_of naming.now) (option_map (λ b. b.now) stimuli.entry) row × (string_bytes text ≡ []))) }
{
    let Some(name) = naming.stimuli else {
        return Ok(String::new(alloc));
    };
    if stimuli.is_none() {
        return Ok(String::new(alloc));
    }
    match at {
        Some(at) => place_text(alloc, name, at.line, at.column as u128),
        None => Ok(String::new(alloc)),
    }
}

/// Where a warning is: in the declaration, in the stimuli, and in the deployment.
#[derive(Clone, Copy)]
pub struct WarningPlace {
    pub declared: Option<Place>,
    pub row: Option<Place>,
    pub link: Option<Place>,
}

/// The text of the place of a warning: of its location in the declaration, for a link of its table in the deployment, or
/// of its row in the stimuli.
fn place_of(
    alloc: Global,
    naming: &Naming<'_, '_, '_>,
    inputs: &Inputs<'_>,
    warning: &Warning,
    at: WarningPlace,
) -> Result<String, AllocError>
    requires row { IsRowPlaceFor inputs.now.stimuli warning.now at.row }
    requires link { IsLinkPlaceFor inputs.now.deploy warning.now at.link }
    ensures { (library : Library) → IsPlaceFor inputs.now.declaration library (position_of warning.now) at.declared → IfOk result (λ text. IsPlace (naming_of naming.now) inputs.now library warning.now (string_bytes text)) }
{
    match warning {
        Warning::UnusedLink { link } => {
            place_of_link(alloc, naming, inputs.deploy, *link, at.link)
        }
        Warning::EarlyStimulus { stimulus } => {
            place_of_row(alloc, naming, inputs.stimuli, *stimulus, at.row)
        }
        _ => place_of_declared(alloc, naming, at.declared),
    }
}

/// The text of a place in the declaration, if there is one.
fn place_of_declared(
    alloc: Global,
    naming: &Naming<'_, '_, '_>,
    at: Option<Place>,
) -> Result<String, AllocError>
    ensures some { IfSome at (λ at. IfOk result (λ text. IsPlaceText (naming_of naming.now) at.line at.column (string_bytes text))) }
    ensures none { IfNone at (IfOk result (λ text. string_bytes text ≡ [])) }
{
    match at {
        Some(at) => place_in_files(alloc, naming, at),
        None => Ok(String::new(alloc)),
    }
}

/// Adds the line of a warning: its place, its number and words.
fn push_line(
    alloc: Global,
    text: &mut Vec<u8>,
    naming: &Naming<'_, '_, '_>,
    inputs: &Inputs<'_>,
    library: &Library,
    plan: &Plan,
    warning: &Warning,
    at: WarningPlace,
) -> Result<(), AllocError>
    requires declared { IsPlaceFor inputs.now.declaration library.now (position_of warning.now) at.declared }
    requires row { IsRowPlaceFor inputs.now.stimuli warning.now at.row }
    requires link { IsLinkPlaceFor inputs.now.deploy warning.now at.link }
    ensures { IfOk result (λ _. IsAdded (naming_of naming.now) inputs.now library.now warning.now text.old.items text.new.items) }
{
    let place = place_of(alloc, naming, inputs, warning, at)?;
    let words = line_of(alloc, library, plan, warning)?;
    text.extend_from_slice(place.as_bytes())?;
    text.extend_from_slice(words.as_bytes())?;
    Ok(())
}

/// Whether a warning is about a type without instances in a file of block types, which other declarations may use.
fn is_of_types(naming: &Naming<'_, '_, '_>, warning: &Warning, at: Option<Place>) -> bool
    ensures { result ≡ spec.is_of_types (naming_of naming.now) warning.now at }
{
    let (Warning::UnusedType { .. }, Some(at)) = (warning, at) else {
        return false;
    };
    match line_in_file(naming.lines, at.line) {
        Some(there) => there.file < naming.types.len(),
        None => false,
    }
}

/// Whether a warning at this place is left out: it is allowed, or the fault of no declaration.
fn is_left_out(
    naming: &Naming<'_, '_, '_>,
    sorting: &Sorting,
    system: &System,
    warning: &Warning,
    at: Option<Place>,
) -> bool
    ensures { result ≡ spec.is_left_out (naming_of naming.now) sorting.now system.now.library system.now.stimuli warning.now at }
{
    let allowed = sorting.allowed.as_slice();
    let is_allowed = is_selected(allowed, system.library(), system.stimuli(), warning);
    is_allowed || is_of_types(naming, warning, at)
}

/// Whether a warning is denied.
fn is_denied(sorting: &Sorting, system: &System, warning: &Warning) -> bool
    ensures { result ≡ is_selected sorting.now.denied.items system.now.library system.now.stimuli warning.now }
{
    let denied = sorting.denied.as_slice();
    is_selected(denied, system.library(), system.stimuli(), warning)
}

/// The lines of warnings, and whether one of these is denied.
#[derive(Drop)]
pub struct Reported {
    pub lines: Vec<u8>,
    pub is_denied: bool,
}

/// The lines of the warnings that are not left out, with their places in the texts of the declaration, of the stimuli
/// and of the deployment, each of which is read again for all of them.
pub(crate) fn all_lines(
    alloc: Global,
    naming: &Naming<'_, '_, '_>,
    inputs: &Inputs<'_>,
    sorting: &Sorting,
    system: &System,
    warnings: &[Warning],
) -> Result<Reported, AllocError>
    ensures { IfOk result (λ r. AreSorted (naming_of naming.now) inputs.now sorting.now system.now.library system.now.stimuli warnings.now r.lines.items r.is_denied) }
{
    let library = system.library();
    let positions = positions_of(alloc, warnings)?;
    let places = places_of(alloc, inputs.declaration, library, positions.as_slice())?;
    let places = places.as_slice();
    let rows = row_places(alloc, inputs.stimuli, warnings)?;
    let rows = rows.as_slice();
    let links = link_places(alloc, inputs.deploy, warnings)?;
    let links = links.as_slice();
    let mut lines = Vec::new(alloc);
    let mut has_denied = false;
    for index in 0..warnings.len() {
        let warning = &warnings[index];
        let at = WarningPlace {
            declared: places[index],
            row: rows[index],
            link: links[index],
        };
        if !is_left_out(naming, sorting, system, warning, at.declared) {
            has_denied |= is_denied(sorting, system, warning);
            push_line(
                alloc,
                &mut lines,
                naming,
                inputs,
                library,
                system.plan(),
                warning,
                at,
            )?;
        }
    }
    Ok(Reported {
        lines,
        is_denied: has_denied,
    })
}
