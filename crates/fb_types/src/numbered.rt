//! A list whose elements are numbered by 32 bits.

ghost use Rattle.std.specs.Prelude.{◌≡◌, ◌<◌, ◌^◌, length, slice_get, OnSome};
ghost use Rattle.std.specs.Option.{option_copied};

use crate::items::Items;
use std::marker::Model;

/// A list with fewer than 2^32 elements, so that the index of each fits in 32 bits. Contracts see only its elements.
pub struct Numbered<T> {
    all: Items<T>,
}

// Drop is written by hand, so that callers need not prove it again (docs/DECISIONS.md, "Drop").
impl<T: Drop> Drop for Numbered<T> {
    fn drop(self) {
        let Numbered { all: _ } = self;
    }
}

impl<T> Model for Numbered<T> {
    ghost use Rattle.std.specs.Prelude.{List, length, ◌<◌, ◌^◌};
    ghost use Rattle.std.specs.Coded.{coded_list};

    ghost Value = { List T };

    ghost coded = { coded_list T.code };

    ghost view = { λ l. l.all };

    ghost invariant = { λ l. length l.all < 2 ^ 32 };
}

impl<T> Numbered<T> {
    /// The list with the elements of another one. They are not copied.
    pub fn new(all: Items<T>) -> Numbered<T>
        requires { length all < 2 ^ 32 }
        ensures { result ≡ all }
    {
        Numbered { all }
    }

    /// The elements, as a slice.
    pub fn as_slice(&self) -> &[T]
        ensures { result.now ≡ self.now }
    {
        self.all.as_slice()
    }

    /// The number of elements.
    pub fn len(&self) -> usize
        ensures { result ≡ length self.now }
    {
        self.all.len()
    }

    /// The number of elements, as a number of 32 bits.
    pub fn count(&self) -> u32
        ensures value { result ≡ length self.now }
        ensures few { length self.now < 2 ^ 32 }
    {
        self.all.len() as u32
    }

    /// The element at an index, or `None` past the end.
    pub fn get(&self, index: usize) -> Option<&T>
        ensures value { option_copied result ≡ slice_get self.now index }
        ensures within { OnSome result (index < length self.now) }
    {
        self.all.get(index)
    }
}
