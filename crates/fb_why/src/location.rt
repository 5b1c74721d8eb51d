//! Where a refusal applies, for every number.

use fb_check::Location;
use fb_inputs::{DeployLocation, StimuliLocation};
use fb_read_positions::Place;

/// A location at which a refusal applies.
#[derive(Clone, Copy)]
pub enum FindingLocation {
    /// A place in the text of the declaration (E01 to E05).
    Text(Place),
    /// A location in the deployment (E10 to E12, E15 and E16).
    Deployment(DeployLocation),
    /// A location in the stimuli (E13 to E15).
    Stimuli(StimuliLocation),
    /// A location in what the inputs say together (E20 to E30).
    Check(Location),
}

/// Where a refusal applies.
#[derive(Drop)]
pub struct Finding {
    /// The location.
    pub location: FindingLocation,
    /// The location, and what was expected there, in words.
    pub text: String,
}
