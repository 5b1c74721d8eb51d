//! Letters and words.

ghost use Rattle.std.specs.Prelude.{◌≡◌, ◌<◌, ◌≤◌, length, IfOk, IsTrue};
ghost use Rattle.fb_read.specs.Blank.{at};
ghost use Rattle.fb_read.specs.Words as spec;

use fb_types::Items;
use std::alloc::{AllocError, Global};

/// Whether a name may begin with this byte.
pub fn is_letter(b: u8) -> bool
    ensures { result ≡ spec.is_letter b }
{
    b.is_ascii_alphabetic() || b == b'_'
}

/// Whether this byte is a letter, a digit or an underscore.
pub fn is_word(b: u8) -> bool
    ensures { result ≡ spec.is_word b }
{
    is_letter(b) || b.is_ascii_digit()
}

fn upper(b: u8) -> u8
    ensures { result ≡ spec.upper b }
{
    if b.is_ascii_lowercase() { b - 32 } else { b }
}

/// The length of the word at the front.
pub fn word_len(z: &[u8]) -> usize
    ensures value { result ≡ spec.word_len z.now }
    ensures within { result ≤ length z.now }
    ensures some { IsTrue (spec.is_word (at z.now 0)) → 0 < result }
{
    for end in 0..z.len() {
        if !is_word(z[end]) {
            return end;
        }
    }
    z.len()
}

/// A copy in upper case.
pub fn in_upper(alloc: Global, z: &[u8]) -> Result<Items<u8>, AllocError>
    ensures { IfOk result (λ t. t ≡ spec.in_upper z.now) }
{
    let mut bytes = Vec::with_capacity(alloc, z.len())?;
    for byte in z {
        bytes.push(upper(*byte))?;
    }
    Ok(Items::from_vec(bytes))
}
