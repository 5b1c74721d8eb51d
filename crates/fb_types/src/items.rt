//! A `Vec` that contracts see as the list of its elements.

ghost use Rattle.std.specs.Prelude.{◌≡◌, [], ◌∷◌, ◌++◌, ◌<◌, length, slice_get, slice_set, ◌↔◌, IsTrue, IfOk, OnOk, OnErr, OnSome};
ghost use Rattle.std.specs.Option.{option_copied, option_map};
ghost use Rattle.std.specs.Borrow.{LendsIf, sem};

use std::alloc::{AllocError, Global};
use std::marker::Model;

/// A list on the heap. Contracts see only its elements: no pointer and no capacity.
pub struct Items<T> {
    all: Vec<T>,
}

// Drop is written by hand, so that callers need not prove it again (docs/DECISIONS.md, "Drop").
impl<T: Drop> Drop for Items<T> {
    fn drop(self) {
        let Items { all: _ } = self;
    }
}

impl<T> Model for Items<T> {
    ghost use Rattle.std.specs.Prelude.{List};
    ghost use Rattle.std.specs.Coded.{coded_list};

    ghost Value = { List T };

    ghost coded = { coded_list T.code };

    ghost view = { λ l. l.all.items };
}

impl<T> Items<T> {
    ghost use Rattle.fb_types.specs.contracts.items.Items.{the_row};

    /// The empty list, which takes no memory.
    pub fn new(alloc: Global) -> Items<T>
        ensures { result ≡ [] }
    {
        Items {
            all: Vec::new(alloc),
        }
    }

    /// The list with the elements of a `Vec`. They are not copied.
    pub fn from_vec(all: Vec<T>) -> Items<T>
        ensures { result ≡ all.items }
    {
        Items { all }
    }

    /// The elements as a `Vec`. They are not copied.
    pub fn into_vec(self) -> Vec<T>
        ensures { result.items ≡ self }
    {
        let Items { all } = self;
        all
    }

    /// The allocator of the list.
    pub fn allocator(&self) -> Global {
        *self.all.allocator()
    }

    /// The elements, as a slice.
    pub fn as_slice(&self) -> &[T]
        ensures { result.now ≡ self.now }
    {
        self.all.as_slice()
    }

    /// The number of elements.
    pub fn len(&self) -> usize
        ensures { result ≡ length self.now }
    {
        self.all.len()
    }

    /// Whether there is no element.
    pub fn is_empty(&self) -> bool
        ensures { IsTrue result ↔ (self.now ≡ []) }
    {
        self.all.is_empty()
    }

    /// The element at an index, or `None` past the end.
    pub fn get(&self, index: usize) -> Option<&T>
        ensures value { option_copied result ≡ slice_get self.now index }
        ensures within { OnSome result (index < length self.now) }
    {
        self.all.get(index)
    }

    /// The element at an index for changes, or `None` past the end.
    pub fn get_mut(&mut self, index: usize) -> Option<&mut T>
        ensures* writes_back { sem 𝓛 (LendsIf (the_row T.row) T.row self.entry result (slice_set self.old index) self.old) }
        ensures value { option_map (λ v. v.now) result ≡ slice_get self.old index }
    {
        self.all.get_mut(index)
    }
}

impl<T: Drop> Items<T> {
    /// Adds an element at the end.
    pub fn push(&mut self, item: T) -> Result<(), AllocError>
        ensures ok { OnOk result (self.new ≡ self.old ++ item ∷ []) }
        ensures err { OnErr result (self.new ≡ self.old) }
    {
        self.all.push(item)?;
        Ok(())
    }
}

impl<T: Copy> Items<T> {
    /// A copy of the elements of a slice.
    pub fn from_slice(alloc: Global, items: &[T]) -> Result<Items<T>, AllocError>
        ensures { IfOk result (λ l. l ≡ items.now) }
    {
        let all = Vec::from_slice(alloc, items)?;
        Ok(Items { all })
    }

    /// A copy of the element at an index, or `None` past the end.
    pub fn value(&self, index: usize) -> Option<T>
        ensures { result ≡ slice_get self.now index }
    {
        self.get(index).copied()
    }

    /// Replaces the element at an index. Past the end nothing changes.
    pub fn set(&mut self, index: usize, item: T)
        ensures { self.new ≡ slice_set self.old index item }
    {
        if index < self.all.len() {
            self.all[index] = item;
        }
    }
}
