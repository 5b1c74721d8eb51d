//! Words of a line.

ghost use Rattle.std.specs.Prelude.{◌≡◌, ℕ, List, ◌++◌, true, MatchOption};
ghost use Rattle.fb_wave.specs.Named as named;
ghost use Rattle.fb_wave.specs.Words as spec;
ghost use Rattle.fb_wave.specs.Words.{IsCut};

/// Whether a byte ends a word: a blank or a line feed.
pub fn is_end(byte: u8) -> bool
    ensures { result ≡ spec.is_end byte }
{
    byte == b' ' || byte == b'\n'
}

/// Whether a byte is a decimal digit.
pub fn is_digit(byte: u8) -> bool
    ensures { result ≡ named.is_digit byte }
{
    byte.is_ascii_digit()
}

/// Splits a text before the first byte that ends a word.
pub fn cut(text: &[u8]) -> Option<(&[u8], &[u8])>
    ensures { MatchOption result (spec.is_word text.now ≡ true) (λ p. IsCut text.now p.0.now p.1.now) }
{
    for (index, byte) in text.iter().enumerate() {
        if is_end(*byte) {
            return Some((&text[..index], &text[index..]));
        }
    }
    None
}

/// What comes after a front, or `None` if the text does not begin with it.
pub fn after_front<'a>(text: &'a [u8], front: &[u8]) -> Option<&'a [u8]>
    ensures { MatchOption result ((rest : List ℕ) → text.now ≡ front.now ++ rest → ⊥) (λ rest. text.now ≡ front.now ++ rest.now) }
{
    text.strip_prefix(front)
}
