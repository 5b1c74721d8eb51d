//! The words of a line.

ghost use Rattle.std.specs.Prelude.{◌≡◌, ◌==◌, ◌++◌, ◌∷◌, List, ℕ, true, codes, not, IfSome, MatchOption};
ghost use Rattle.std.specs.List.{list_all};
ghost use Rattle.fb_wave.specs.Words.{AreThree, HasNoThree, IsCut, is_word};
ghost use Rattle.fb_inspect.specs.refused.LineFaults.{IsNamed};

use fb_wave::words::{after_front, cut};

/// The three words that a line has after its tick, and what comes after them.
#[derive(Clone, Copy)]
pub(crate) struct ThreeWords<'a> {
    pub(crate) resource: &'a [u8],
    pub(crate) sign: &'a [u8],
    /// The path of an instance, a full stop and an event.
    pub(crate) port: &'a [u8],
    pub(crate) rest: &'a [u8],
}

/// The word that comes after a blank with which a text begins, and what comes after the word.
fn next_word(text: &[u8]) -> Option<(&[u8], &[u8])>
    ensures { MatchOption result ((t : List ℕ) → text.now ≡ codes " " ++ t → is_word t ≡ true) (λ p. (t : List ℕ) × (text.now ≡ codes " " ++ t) × IsCut t p.0.now p.1.now) }
{
    cut(after_front(text, b" ")?)
}

/// The three words with which a text begins.
pub(crate) fn three_words(text: &[u8]) -> Option<ThreeWords<'_>>
    ensures { MatchOption result (HasNoThree text.now) (λ w. AreThree text.now w.resource.now w.sign.now w.port.now w.rest.now) }
{
    let resource = cut(text)?;
    let sign = next_word(resource.1)?;
    let port = next_word(sign.1)?;
    Some(ThreeWords {
        resource: resource.0,
        sign: sign.0,
        port: port.0,
        rest: port.1,
    })
}

/// What comes before the last mark of a text, and after it.
pub(crate) fn halves(text: &[u8], mark: u8) -> Option<(&[u8], &[u8])>
    ensures { MatchOption result (list_all (λ b. not (b == mark)) text.now ≡ true) (λ p. text.now ≡ p.0.now ++ mark ∷ p.1.now) }
{
    let mut found = None;
    for (index, byte) in text.iter().enumerate() {
        if *byte == mark {
            found = Some(index);
        }
    }
    let index = found?;
    Some((&text[..index], &text[index + 1..]))
}

/// The name and the value with which a text begins after a blank.
pub(crate) fn named_value(text: &[u8]) -> Option<(&[u8], &[u8])>
    ensures { IfSome result (λ p. (rest : List ℕ) × IsNamed text.now p.0.now p.1.now rest) }
{
    let word = next_word(text)?;
    halves(word.0, b'=')
}
