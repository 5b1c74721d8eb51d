//! Where the links are that warnings are about.

ghost use Rattle.std.specs.Prelude.{IfOk, Some, option_map};
ghost use Rattle.std.specs.List.{AllZip};
ghost use Rattle.fbsim_command.specs.WarningLines.{IsLinkPlaceFor};

use fb_deploy_positions::Outline;
use fb_inputs::{DeployPosition, TableLocation};
use fb_lint::Warning;
use fb_read_positions::Place;
use fb_why::place_in_deployment;
use std::alloc::{AllocError, Global};

/// The place of the link that a warning is about: that of its table. Another warning has none.
fn link_place(
    alloc: Global,
    outline: &Outline<'_>,
    warning: &Warning,
) -> Result<Option<Place>, AllocError>
    ensures { IfOk result (IsLinkPlaceFor (Some outline.now.text.now) warning.now) }
{
    match warning {
        Warning::UnusedLink { link } => {
            let position = DeployPosition::Table(TableLocation::Link(*link));
            place_in_deployment(alloc, outline, position)
        }
        _ => Ok(None),
    }
}

/// The places of the links that warnings are about, each at the index of its warning. The deployment is read once for
/// all of them.
pub(crate) fn link_places(
    alloc: Global,
    deploy: Option<&[u8]>,
    warnings: &[Warning],
) -> Result<Vec<Option<Place>>, AllocError>
    ensures { IfOk result (λ places. AllZip (IsLinkPlaceFor (option_map (λ b. b.now) deploy.entry)) warnings.now places.items) }
{
    let outline = Outline::read(alloc, deploy.unwrap_or(&[]))?;
    let mut places = Vec::new(alloc);
    for warning in warnings {
        places.push(link_place(alloc, &outline, warning)?)?;
    }
    Ok(places)
}
