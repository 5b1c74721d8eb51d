//! A few bytes in place.

ghost use Rattle.std.specs.Prelude.{◌≡◌, ◌≤◌, length};

use std::marker::Model;

/// The number of bytes that fit.
pub(crate) const ROOM: usize = 14;

/// At most 14 bytes, stored in place without memory on the heap. Contracts see them as a list.
#[derive(Drop)]
pub(crate) struct Short {
    /// The number of bytes in use.
    length: u8,
    bytes: [u8; ROOM],
}

impl Model for Short {
    ghost use Rattle.std.specs.Prelude.{◌≤◌, List, ℕ, take};

    ghost Value = { List ℕ };

    ghost view = { λ s. take s.length s.bytes };

    ghost invariant = { λ s. s.length ≤ 14 };
}

impl Short {
    /// A copy of bytes that fit.
    pub(crate) fn from_slice(bytes: &[u8]) -> Short
        requires { length bytes.now ≤ 14 }
        ensures { result ≡ bytes.now }
    {
        let mut room = [0; ROOM];
        room[..bytes.len()].copy_from_slice(bytes);
        Short {
            length: bytes.len() as u8,
            bytes: room,
        }
    }

    pub(crate) fn as_slice(&self) -> &[u8]
        ensures { result.now ≡ self.now }
    {
        &self.bytes[..usize::from(self.length)]
    }

    #[inline(always)]
    pub(crate) fn copy(&self) -> Short
        ensures { result ≡ self.now }
    {
        Short {
            length: self.length,
            bytes: self.bytes,
        }
    }
}
