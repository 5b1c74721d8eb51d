//! Fingerprints: numbers that distinguish most texts without a comparison of their bytes.

ghost use Rattle.std.specs.Prelude.{◌≡◌};
ghost use Rattle.fb_expect.specs.Fingerprints.{fingerprint};

/// The fingerprint of a text. Texts with different fingerprints are different.
pub(crate) fn fingerprint_of(text: &[u8]) -> u64
    ensures { result ≡ fingerprint text.now }
{
    let mut fingerprint: u64 = 0;
    for byte in text {
        fingerprint = fingerprint.wrapping_mul(31).wrapping_add(u64::from(*byte));
    }
    fingerprint
}
