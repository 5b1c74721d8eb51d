//! Which ports a pattern is of.

use fb_types::Items;

/// How the text of a port's pattern is read.
#[derive(Clone, Copy)]
pub enum PortForm {
    /// The port that is called so.
    Whole,
    /// All ports whose names begin so. The text is empty or ends in a full stop.
    Open,
    /// All ports whose names have the form of the text: a `*` in a name is any part of that name, a first name `*` is
    /// one name or more before the others, and a last name `*` one or more after them.
    Stars,
}

/// Which ports a pattern is of.
#[derive(Drop)]
pub struct PortPattern {
    pub text: Items<u8>,
    pub form: PortForm,
}
