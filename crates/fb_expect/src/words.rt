//! Words of a text.

ghost use Rattle.std.specs.Prelude.{◌≡◌, ◌++◌, [], IfNone, IfSome, nat_eq, option_map};
ghost use Rattle.std.specs.List.{slice_split};
ghost use Rattle.fb_expect.specs.Words as spec;

/// Whether a byte ends a word of a line: a blank or a line feed.
fn is_end(byte: u8) -> bool
    ensures { result ≡ spec.is_end byte }
{
    byte == b' ' || byte == b'\n'
}

/// The bytes before the first that ends a word, and the rest from that one on.
pub(crate) fn cut(text: &[u8]) -> Option<(&[u8], &[u8])>
    ensures parts { IfSome result (λ p. text.now ≡ p.0.now ++ p.1.now) }
    ensures exact { option_map (λ p. (p.0.now, p.1.now)) result ≡ spec.cut text.now }
{
    for (at, byte) in text.iter().enumerate() {
        if is_end(*byte) {
            return Some((&text[..at], &text[at..]));
        }
    }
    None
}

/// What comes after a front.
pub(crate) fn after_front<'a>(text: &'a [u8], front: &[u8]) -> Option<&'a [u8]>
    ensures parts { IfSome result (λ rest. text.now ≡ front.now ++ rest.now) }
    ensures exact { option_map (λ rest. rest.now) result ≡ spec.after_front front.now text.now }
{
    text.strip_prefix(front)
}

/// What comes before an end.
pub(crate) fn before<'a>(text: &'a [u8], end: &[u8]) -> Option<&'a [u8]>
    ensures parts { IfSome result (λ front. text.now ≡ front.now ++ end.now) }
    ensures exact { option_map (λ front. front.now) result ≡ spec.before end.now text.now }
{
    text.strip_suffix(end)
}

/// The words after the blank that a text begins with, or none if the text is empty.
pub(crate) fn after_blank(text: &[u8]) -> Option<&[u8]>
    ensures some { IfSome result (λ words. spec.words_after text.now ≡ slice_split (nat_eq 32) words.now) }
    ensures none { IfNone result (spec.words_after text.now ≡ []) }
{
    if text.is_empty() {
        None
    } else {
        Some(&text[1..])
    }
}

/// What comes before the first mark, and what comes after it.
#[tactic(auto, unfolding(crate::specs::Words::split_at_mark))]
pub(crate) fn split_at_mark(text: &[u8], mark: u8) -> Option<(&[u8], &[u8])>
    ensures { option_map (λ p. (p.0.now, p.1.now)) result ≡ spec.split_at_mark mark text.now }
{
    for (at, byte) in text.iter().enumerate() {
        if *byte == mark {
            return Some((&text[..at], &text[at + 1..]));
        }
    }
    None
}
