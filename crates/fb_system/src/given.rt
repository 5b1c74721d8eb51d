//! What the check makes of accepted inputs.

use crate::interfaces::Interfaces;
use crate::rows::StimulusRow;
use fb_check_names::Resolved;
use fb_types::Items;

/// Accepted inputs by number.
#[derive(Drop)]
pub struct Given {
    /// The meaning of the names.
    pub numbers: Resolved,
    /// For each instance of the application, the resource that holds it.
    pub holders: Items<usize>,
    /// The variables WITH the events of each type.
    pub interfaces: Interfaces,
    /// The stimuli, each at its row.
    pub rows: Items<StimulusRow>,
}
