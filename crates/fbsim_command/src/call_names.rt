//! The names of the files of a call.

use crate::join::FileLines;

/// The names that a call gives to its files.
#[derive(Clone, Copy)]
pub struct Naming<'l, 't, 'n> {
    /// The names of the files of block types, in their order.
    pub types: &'l [&'t str],
    /// The name of the declaration's file.
    pub own: &'n str,
    /// The name of the deployment's file, where one is given.
    pub deploy: Option<&'n str>,
    /// The name of the file with the stimuli, where one is given.
    pub stimuli: Option<&'n str>,
    /// The lines of each file of the declaration, if it is in several files.
    pub lines: &'l [FileLines],
}
