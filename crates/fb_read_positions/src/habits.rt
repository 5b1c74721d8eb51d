//! What other languages write, at a place at which a text is refused: signs for comparisons and for AND and OR, words of
//! statements, keywords in the place of names, and what a condition or a connection is not.

use crate::find::{discard, tokens_of};
use crate::hints::push_left_out_before;
use crate::words::{ByteKind, Text, split_front};
use fb_read::token::{Located, Token};
use fb_read::word::{is_letter, is_word};
use std::alloc::Global;

/// Words that are written otherwise, each with the right one.
const WORDS: &[(&str, &str)] = &[
    ("ELSEIF", "ELSIF"),
    ("ENDIF", "END_IF"),
    ("ENDCASE", "END_CASE"),
    ("ENDFOR", "END_FOR"),
    ("ENDWHILE", "END_WHILE"),
    ("ENDREPEAT", "END_REPEAT"),
];

/// What no token begins with, each with what is written in its place.
const SIGNS: &[(&str, &str)] = &[
    ("!=", ": unequal is written <>"),
    ("!", ": NOT is a word"),
    ("||", ": OR is a word"),
    ("|", ": OR is a word"),
    ("%I", ": variables have no addresses"),
    ("%Q", ": variables have no addresses"),
    ("%M", ": variables have no addresses"),
    ("%", ": MOD is a word"),
];

/// The types of numbers, which no literal names.
const NUMBERS: &[&str] = &[
    "SINT", "INT", "DINT", "LINT", "USINT", "UINT", "UDINT", "ULINT",
];

/// What is written in the place of a literal with this word before `#`.
fn typed_hint(word: &[u8]) -> &'static str {
    if "BOOL".as_bytes().eq_ignore_ascii_case(word) {
        return ": a truth value is written without its type";
    }
    for name in NUMBERS {
        if name.as_bytes().eq_ignore_ascii_case(word) {
            return ": a number is written without its type";
        }
    }
    ""
}

/// What is written in the place of bytes that begin no token, after these bytes. It is empty where that is not known.
pub fn sign_hint(before: &[u8], rest: &[u8]) -> &'static str {
    for (sign, hint) in SIGNS {
        if rest.starts_with(sign.as_bytes()) {
            return *hint;
        }
    }
    match rest {
        [b'#', ..] => typed_hint(last_word(before)),
        _ => "",
    }
}

/// The bytes without the blanks at their end.
fn without_blanks(bytes: &[u8]) -> &[u8] {
    for index in (0..bytes.len()).rev() {
        if !bytes[index].is_ascii_whitespace() {
            return bytes.get(..index.saturating_add(1)).unwrap_or(bytes);
        }
    }
    &[]
}

/// The word that bytes end in, before blanks.
fn last_word(bytes: &[u8]) -> &[u8] {
    let bytes = without_blanks(bytes);
    for index in (0..bytes.len()).rev() {
        if !is_word(bytes[index]) {
            return bytes.get(index.saturating_add(1)..).unwrap_or(&[]);
        }
    }
    bytes
}

/// The right word for one that is written otherwise.
fn right_word(word: &[u8]) -> Option<&'static str> {
    for (wrong, right) in WORDS {
        if wrong.as_bytes().eq_ignore_ascii_case(word) {
            return Some(*right);
        }
    }
    None
}

/// Whether a word is among those that are expected.
fn expects(expected: &str, sought: &str) -> bool {
    for word in expected.split(' ') {
        if word == sought {
            return true;
        }
    }
    false
}

/// Whether a token is a keyword.
pub fn is_keyword(alloc: Global, token: &[u8]) -> bool {
    let [first, ..] = token else {
        return false;
    };
    if !is_letter(*first) {
        return false;
    }
    let Ok(Some(tokens)) = tokens_of(alloc, token) else {
        return false;
    };
    let found = matches!(
        tokens.as_slice(),
        [Located {
            token: Token::Mark(_),
            ..
        }]
    );
    discard(tokens);
    found
}

/// Words that follow names.
const AFTER_NAMES: &[&str] = &["WITH", "TO", "IN", "AND", "OR", "XOR", "MOD"];

/// Whether a sign that begins with this byte follows names.
fn is_after_name(byte: u8) -> bool {
    matches!(
        byte,
        b':' | b',' | b'.' | b';' | b'+' | b'-' | b'*' | b'/' | b'=' | b'<' | b'>' | b'&'
    )
}

/// Whether bytes begin with a word or a sign that follows names.
fn follows_names(bytes: &[u8]) -> bool {
    if let [first, ..] = bytes {
        if is_after_name(*first) {
            return true;
        }
    }
    let (word, _) = split_front(bytes, ByteKind::Letters);
    for name in AFTER_NAMES {
        if name.as_bytes().eq_ignore_ascii_case(word) {
            return true;
        }
    }
    false
}

/// Whether a keyword is never meant as a name, where these are expected: an END_, or a truth value as a condition.
fn is_no_name(here: &[u8], expected: &str) -> bool {
    let ends = match here.get(..4) {
        Some(front) => "END_".as_bytes().eq_ignore_ascii_case(front),
        None => false,
    };
    let is_truth = "TRUE".as_bytes().eq_ignore_ascii_case(here)
        || "FALSE".as_bytes().eq_ignore_ascii_case(here);
    ends || (is_truth && expects(expected, "["))
}

/// Whether a keyword is probably meant as a name, where these are expected: only a name is, or what follows names is
/// after it.
fn is_meant_as_name(here: &[u8], rest: &[u8], expected: &str) -> bool {
    expects(expected, "name")
        && !is_no_name(here, expected)
        && (expected == "name" || follows_names(split_front(rest, ByteKind::Spaces).1))
}

/// A sign that stands after itself, with what it means in other languages.
fn doubled(before: &[u8], here: &[u8]) -> &'static str {
    match (before, here) {
        ([.., b'='], [b'=']) => " (equal is written =)",
        ([.., b'&'], [b'&']) => " (AND is a word, or & once)",
        ([.., b'*'], [b'*']) => " (there is no sign for a power)",
        _ => "",
    }
}

/// What is probably meant by a token that is not expected, where these are.
fn misplaced(here: &[u8], expected: &str) -> &'static str {
    let assigns = matches!(here, [b':', b'=']);
    if expects(expected, "whole") && expects(expected, "[") {
        " (a condition is 1, an event input, or a truth value in [ ])"
    } else if assigns && expects(expected, "=") {
        " (:= assigns, = compares)"
    } else if assigns && expects(expected, "TO") {
        " (TO leads from one name to the other)"
    } else if matches!(here, [b'+']) && expects(expected, "-") {
        " (a number has no sign +)"
    } else {
        ""
    }
}

/// Whether the word before was read as a name, where these are expected: in a declaration or in a statement.
fn ends_name(expected: &str) -> bool {
    expects(expected, ":") || expects(expected, ":=")
}

/// Says what is probably meant by a token that is not expected, between the bytes before it and after it.
pub fn push_habit(
    alloc: Global,
    message: &mut Text,
    (before, here, rest): (&[u8], &[u8], &[u8]),
    expected: &str,
) {
    let earlier = last_word(before);
    if expects(expected, ":=") {
        if let Some(right) = right_word(earlier) {
            message.phrase(&[" (the word before is written ", right, ")"]);
            return;
        }
    }
    if ends_name(expected) {
        push_left_out_before(message, earlier, here);
    }
    message.words(doubled(before, here));
    message.words(misplaced(here, expected));
    if is_meant_as_name(here, rest, expected) && is_keyword(alloc, here) {
        message.words(" (a keyword, so no name)");
    }
}
