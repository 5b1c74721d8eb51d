//! Frees libraries.

use fb_types::Library;

/// Frees a library. Each crate that drops one proves the destructors of all its parts again, so other crates call this
/// function.
pub fn discard(library: Library) {
    drop(library);
}
