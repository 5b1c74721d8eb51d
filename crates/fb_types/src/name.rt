//! Names, in upper case.

ghost use Rattle.std.specs.Prelude.{◌≡◌, ◌≤◌, IfOk, List, ℕ, length};
ghost use Rattle.fb_types.specs.Names.{same_name};
ghost use Rattle.fb_types.specs.Spelt.{spelt};
ghost use Rattle.fb_types.specs.ShortNumbers.{digit, packed as number_of, short_number_of as number_for, most};

use crate::boxed::Boxed;
use crate::items::Items;
use crate::short::{ROOM, Short};
use std::alloc::{AllocError, Global};
use std::marker::Model;

/// The storage of a name's bytes.
#[derive(Drop)]
enum Spelling {
    /// Stored in place.
    Short(Short),
    /// On the heap.
    Long(Boxed<Items<u8>>),
}

/// A name of the declaration or the deployment: its letters, digits and underscores, in upper case. A name of at most 14
/// bytes takes no memory on the heap, and is copied in a few instructions. Contracts see its bytes.
pub struct Name {
    spelling: Spelling,
    /// The bytes as one number, so that most names are compared in a few instructions. It is 0 if the name is too long
    /// for the number, or has a byte that is not an upper-case letter, digit or underscore: such names are compared byte
    /// by byte.
    short_number: u64,
}

impl Model for Name {
    ghost use Rattle.std.specs.Prelude.{◌≡◌, List, ℕ};
    ghost use Rattle.fb_types.specs.Spelt.{spelt};
    ghost use Rattle.fb_types.specs.ShortNumbers.{short_number_of};

    ghost Value = { List ℕ };

    ghost view = { λ n. spelt n.spelling };

    ghost invariant = { λ n. n.short_number ≡ short_number_of (spelt n.spelling) };
}

impl Drop for Name {
    /// Written by hand, so that other crates drop a name with one call, and prove nothing about its parts.
    fn drop(self) {
        let Name {
            spelling: _,
            short_number: _,
        } = self;
    }
}

impl Name {
    /// The name with these bytes. A caller that reads a text passes them in upper case.
    pub fn from_slice(alloc: Global, bytes: &[u8]) -> Result<Name, AllocError>
        ensures { IfOk result (λ n. n ≡ bytes.now) }
    {
        let spelling = spelling_of(alloc, bytes)?;
        let short_number = short_number_of(bytes);
        Ok(Name {
            spelling,
            short_number,
        })
    }

    /// The name with the bytes of a text.
    pub fn from_text(alloc: Global, text: &str) -> Result<Name, AllocError>
        ensures { IfOk result (λ n. n ≡ text.now) }
    {
        Name::from_slice(alloc, text.as_bytes())
    }

    /// The bytes of the name, in upper case.
    pub fn as_bytes(&self) -> &[u8]
        ensures { result.now ≡ self.now }
    {
        match &self.spelling {
            Spelling::Short(bytes) => bytes.as_slice(),
            Spelling::Long(bytes) => bytes.get().as_slice(),
        }
    }

    /// The number of the name, or 0 if it has none.
    #[inline(always)]
    pub fn short_number(&self) -> u64
        ensures { result ≡ number_for self.now }
    {
        self.short_number
    }

    /// Whether the two are the same name. Both are in upper case, so letter case makes no difference.
    #[inline(always)]
    pub fn is(&self, other: &Name) -> bool
        ensures { result ≡ same_name self.now other.now }
    {
        if self.short_number != other.short_number {
            return false;
        }
        self.short_number != 0 || self.is_spelt_as(other)
    }

    /// The same as `is`, byte by byte.
    #[inline(never)]
    fn is_spelt_as(&self, other: &Name) -> bool
        ensures { result ≡ same_name self.now other.now }
    {
        self.as_bytes() == other.as_bytes()
    }

    /// A copy of the name. A long one takes memory.
    #[inline(always)]
    pub fn try_clone(&self, alloc: Global) -> Result<Name, AllocError>
        ensures { IfOk result (λ n. n ≡ self.now) }
    {
        let spelling = copy_of(alloc, &self.spelling)?;
        Ok(Name {
            spelling,
            short_number: self.short_number,
        })
    }
}

/// A copy of bytes, in place if there is room.
fn spelling_of(alloc: Global, bytes: &[u8]) -> Result<Spelling, AllocError>
    ensures { IfOk result (λ s. spelt s ≡ bytes.now) }
{
    if bytes.len() <= ROOM {
        Ok(Spelling::Short(Short::from_slice(bytes)))
    } else {
        on_heap(alloc, bytes)
    }
}

/// A copy. If the bytes are stored in place, it is made without a call.
#[inline(always)]
fn copy_of(alloc: Global, spelling: &Spelling) -> Result<Spelling, AllocError>
    ensures { IfOk result (λ s. spelt s ≡ spelt spelling.now) }
{
    match spelling {
        Spelling::Short(bytes) => Ok(Spelling::Short(bytes.copy())),
        Spelling::Long(bytes) => on_heap(alloc, bytes.get().as_slice()),
    }
}

/// A copy of bytes on the heap.
#[inline(never)]
fn on_heap(alloc: Global, bytes: &[u8]) -> Result<Spelling, AllocError>
    ensures { IfOk result (λ s. spelt s ≡ bytes.now) }
{
    let copy = Items::from_slice(alloc, bytes)?;
    Ok(Spelling::Long(Boxed::new(alloc, copy)?))
}

/// The number of a name.
pub(crate) fn short_number_of(bytes: &[u8]) -> u64
    ensures { result ≡ number_for bytes.now }
{
    if bytes.len() <= 12 { packed(bytes) } else { 0 }
}

/// The bytes of a short name as one number: digits in base 38, after a leading 1. Different names have different
/// numbers, except for 0, which is the number of every name with another byte.
fn packed(bytes: &[u8]) -> u64
    requires { length bytes.now ≤ most }
    ensures { result ≡ number_of bytes.now }
{
    match bytes {
        [] => 1,
        [first, rest @ ..] => {
            let digit = digit_of(*first);
            let others = packed(rest);
            if digit == 0 || others == 0 {
                0
            } else {
                digit + 38 * others
            }
        }
    }
}

fn digit_of(byte: u8) -> u64
    ensures { result ≡ digit byte }
{
    match byte {
        b'0'..=b'9' => u64::from(byte) - 47,
        b'A'..=b'Z' => u64::from(byte) - 54,
        b'_' => 37,
        _ => 0,
    }
}
