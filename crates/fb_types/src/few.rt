//! Lists that usually have one element.

ghost use Rattle.std.specs.Prelude.{◌≡◌, [], ◌∷◌, ◌++◌, ◌↔◌, IsTrue, IfOk, IfSome, OnOk, OnErr};
ghost use Rattle.fb_types.specs.Held.{all_held};

use crate::value::Value;
use std::alloc::{AllocError, Global};
use std::marker::Model;
use std::mem::replace;
use std::slice::from_ref;

/// The capacity that is reserved when a second element comes.
const ROOM: usize = 4;

/// Where the elements of a list are.
#[derive(Drop)]
pub enum Held<T> {
    Nothing,
    /// One element, in place.
    One(T),
    /// All elements, on the heap.
    Several(Vec<T>),
}

/// A list that stores a single element in place. It allocates memory for a second one. Contracts see only its elements.
pub struct Few<T> {
    held: Held<T>,
    alloc: Global,
}

// Drop is written by hand, so that callers need not prove it again (docs/DECISIONS.md, "Drop").
impl<T: Drop> Drop for Few<T> {
    fn drop(self) {
        let Few { held: _, alloc: _ } = self;
    }
}

impl<T> Model for Few<T> {
    ghost use Rattle.std.specs.Prelude.{List};
    ghost use Rattle.std.specs.Coded.{coded_list};
    ghost use Rattle.fb_types.specs.Held.{all_held};

    ghost Value = { List T };

    ghost coded = { coded_list T.code };

    ghost view = { λ l. all_held l.held };
}

impl<T> Few<T> {
    /// The empty list, which takes no memory.
    pub fn new(alloc: Global) -> Few<T>
        ensures { result ≡ [] }
    {
        Few {
            held: Held::Nothing,
            alloc,
        }
    }

    /// The list of one element, which takes no memory.
    pub fn one(alloc: Global, item: T) -> Few<T>
        ensures { result ≡ item ∷ [] }
    {
        Few {
            held: Held::One(item),
            alloc,
        }
    }

    /// The allocator of the list.
    pub fn allocator(&self) -> Global {
        self.alloc
    }

    /// Whether the list is empty and has no memory. It takes fewer steps than `is_empty`.
    #[inline(always)]
    pub(crate) fn is_nothing(&self) -> bool
        ensures { IsTrue result → self.now ≡ [] }
    {
        matches!(self.held, Held::Nothing)
    }

    /// Whether there is no element.
    pub fn is_empty(&self) -> bool
        ensures { IsTrue result ↔ (self.now ≡ []) }
    {
        match &self.held {
            Held::Nothing => true,
            Held::One(_) => false,
            Held::Several(items) => items.is_empty(),
        }
    }
}

impl<T: Drop> Few<T> {
    /// Adds an element at the end.
    pub fn push(&mut self, item: T) -> Result<(), AllocError>
        ensures ok { OnOk result (self.new ≡ self.old ++ item ∷ []) }
        ensures err { OnErr result (self.new ≡ self.old) }
    {
        match &mut self.held {
            Held::Nothing => self.held = Held::One(item),
            Held::One(_) => {
                let mut items = Vec::with_capacity(self.alloc, ROOM)?;
                if let Held::One(first) = replace(&mut self.held, Held::Nothing) {
                    items.push_reserved(first);
                }
                items.push_reserved(item);
                self.held = Held::Several(items);
            }
            Held::Several(items) => items.push(item)?,
        }
        Ok(())
    }
}

impl<T: Copy> Few<T> {
    /// The element that is stored in place, if there is one.
    #[inline(always)]
    pub(crate) fn only(&self) -> Option<&T>
        ensures { IfSome result (λ item. self.now ≡ item.now ∷ []) }
    {
        match &self.held {
            Held::One(item) => Some(item),
            Held::Nothing | Held::Several(_) => None,
        }
    }

    /// A copy of the elements of a slice.
    pub fn from_slice(alloc: Global, items: &[T]) -> Result<Few<T>, AllocError>
        ensures { IfOk result (λ l. l ≡ items.now) }
    {
        let held = match items {
            [] => Held::Nothing,
            [item] => Held::One(*item),
            _ => Held::Several(Vec::from_slice(alloc, items)?),
        };
        Ok(Few { held, alloc })
    }
}

impl Few<Value> {
    /// The values. Only `Value` has this method, since its size is known to allow a slice of one element.
    pub fn as_slice(&self) -> &[Value]
        ensures { result.now ≡ self.now }
    {
        match &self.held {
            Held::Nothing => &[],
            Held::One(item) => from_ref(item),
            Held::Several(items) => items.as_slice(),
        }
    }
}
