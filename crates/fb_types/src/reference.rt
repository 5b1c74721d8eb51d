//! A variable as an expression or a statement names it.

ghost use Rattle.std.specs.Prelude.{◌≡◌};

use crate::name::Name;
use std::marker::Model;
use std::sync::atomic::{AtomicUsize, Ordering};

/// The name of a variable, with the index at which it is expected in the list of its block's variables. Contracts see
/// only the name: a user of the index compares the name at that index, so a wrong index costs time and nothing else.
/// Whoever first finds the variable notes the index, even if several threads share the text.
pub struct Reference {
    name: Name,
    index: AtomicUsize,
}

// Drop is written by hand, so that callers need not prove it again (docs/DECISIONS.md, "Drop").
impl Drop for Reference {
    fn drop(self) {
        let Reference { name: _, index: _ } = self;
    }
}

impl Model for Reference {
    ghost use Rattle.std.specs.Prelude.{List, ℕ};

    ghost Value = { List ℕ };

    ghost view = { λ r. r.name };
}

impl Reference {
    /// A reference by a name, expected at index 0.
    pub fn new(name: Name) -> Reference
        ensures { result ≡ name }
    {
        Reference {
            name,
            index: AtomicUsize::new(0),
        }
    }

    /// The name of the variable.
    pub fn name(&self) -> &Name
        ensures { result.now ≡ self.now }
    {
        &self.name
    }

    /// The index at which the variable is expected.
    pub fn index(&self) -> usize {
        self.index.load(Ordering::SeqCst)
    }

    /// Sets the index at which the variable is expected from now on.
    pub fn expect_at(&self, index: usize) {
        self.index.store(index, Ordering::SeqCst);
    }
}
