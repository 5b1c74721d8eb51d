//! The inputs of the check, and what the check makes of them on the way.

use fb_check_names::{Catalog, Resolved};
use fb_system::StimulusRow;
use fb_types::{Items, Library, Plan, Stimulus};

/// A declaration, a deployment and stimuli, as they were read.
#[derive(Clone, Copy)]
pub struct Case<'a> {
    /// The declaration.
    pub library: &'a Library,
    /// The deployment.
    pub plan: &'a Plan,
    /// The stimuli.
    pub stimuli: &'a [Stimulus],
}

/// What the check makes of inputs that are accepted.
#[derive(Drop)]
pub struct Judged<'a> {
    /// The indexes of all names.
    pub catalog: Catalog<'a>,
    /// The meaning of the names, by numbers.
    pub numbers: Resolved,
    /// For each instance of the application, the resource that holds it.
    pub holders: Items<usize>,
    /// The stimuli by number, each at its row.
    pub rows: Items<StimulusRow>,
}
