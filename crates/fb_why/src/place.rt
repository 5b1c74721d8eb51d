//! Where a location is in the text of the declaration: its position, and the place of that.

ghost use Rattle.std.specs.Prelude.{◌≡◌};
ghost use Rattle.fb_why.specs.Positions as spec;

use crate::location::Finding;
use fb_check::{Limit, Location};
use fb_check_names::{OutOfRangeAt, Site, TwoSourcesAt};
use fb_read_positions::finding_positions::{
    data_position, kind_wrong_position, no_link_position, not_mapped_position, too_high_position,
    twice_position, unknown_position,
};
use fb_read_positions::{Place, Position};
use fb_types::Library;

/// Where a refusal applies, and where that is in the text of the declaration.
#[derive(Drop)]
pub struct PlacedFinding {
    /// Where the refusal applies.
    pub finding: Finding,
    /// The place. `None` for a location in the deployment or in the stimuli.
    pub place: Option<Place>,
}

/// The position of the declaration at which a location is shown. `None` for one in the deployment or in the stimuli.
pub(crate) fn position_of(library: &Library, location: Location) -> Option<Position>
    ensures { result ≡ spec.position_of library.now location }
{
    match location {
        Location::NameTwice(given) => twice_position(library, given),
        Location::NameUnknown(name) => unknown_position(library, name),
        Location::KindWrong(kind_wrong) => Some(kind_wrong_position(kind_wrong)),
        Location::OutOfRange(OutOfRangeAt { site, connection }) => Some(data_position(
            site, connection,
        )),
        // The later one of two data connections that lead to one port.
        Location::TwoSources(
            TwoSourcesAt {
                site,
                connections: (_, later),
            },
        ) => Some(data_position(site, later)),
        Location::TooHigh(too_high) => Some(too_high_position(too_high)),
        Location::NotMapped(not_mapped) => not_mapped_position(not_mapped),
        Location::NoLink(no_link) => Some(no_link_position(no_link)),
        Location::NoEvent(connection) => Some(data_position(Site::Application, connection)),
        Location::OverLimit(Limit::Instances) => Some(Position::Application),
        Location::OverLimit(Limit::Stimuli) => None,
        Location::BadStimulus(_) => None,
    }
}
