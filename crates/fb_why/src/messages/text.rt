//! The text for a location in a declaration.

use crate::find::TextRefusal;
use fb_read::{Expected, TextFault};
use fb_read_positions::habits::{push_habit, sign_hint};
use fb_read_positions::hints::{fraction_of, push_comment, push_else_if, push_left_out, push_time};
use fb_read_positions::words::{Text, front};
use fb_types::MOST_BYTES;
use std::alloc::{AllocError, Global};

/// Says what is wrong at a location: what is there, and what was expected.
pub fn text_message(alloc: Global, text: &[u8], found: TextRefusal) -> Result<String, AllocError> {
    let mut message = Text::new(alloc);
    push_fault(alloc, &mut message, text, found);
    message.into_string()
}

fn push_fault(alloc: Global, message: &mut Text, text: &[u8], found: TextRefusal) {
    let start = found.refusal.start;
    let here = token(text.get(start..found.refusal.end).unwrap_or(&[]));
    match found.refusal.fault {
        TextFault::Syntax => {
            let is_earlier = found.place.start < start;
            push_found(message, here, is_earlier);
            push_left_out(message, here);
            let rest = text.get(found.refusal.end..).unwrap_or(&[]);
            let around = (front(text, start), here, rest);
            push_expected(alloc, message, around, found.refusal.expected);
            if is_earlier {
                message.words(" (this line ends without ;)");
            }
            push_comment(message, text, start);
        }
        TextFault::Token => {
            push_no_token(message, here, text.get(start..).unwrap_or(&[]));
            message.words(sign_hint(front(text, start), text.get(start..).unwrap_or(&[])));
        }
        TextFault::Byte => push_about(message, "", here, " is allowed only in comments"),
        TextFault::TooLong => message.numbered("a text has at most ", MOST_BYTES, " bytes"),
        TextFault::Nesting => push_about(message, "at ", here, " the nesting is more than 64 deep"),
    }
}

/// What is shown of the token at a location: of an open comment its beginning.
fn token(here: &[u8]) -> &[u8] {
    match here {
        [b'(', b'*', ..] => b"(*",
        _ => here,
    }
}

/// Adds what is no token, which these bytes begin with: of a time with a fraction also how it is written.
fn push_no_token(message: &mut Text, here: &[u8], rest: &[u8]) {
    if let [b'(', b'*', ..] = here {
        message.words("the comment that begins here is not closed");
        return;
    }
    match fraction_of(rest) {
        Some((literal, milliseconds)) => {
            push_about(message, "", literal, " is no token: ");
            push_time(message, milliseconds);
            message.words(" is the same time in whole numbers");
        }
        None => push_about(message, "", here, " is no token"),
    }
}

/// Adds the token, between words.
fn push_about(message: &mut Text, before: &str, here: &[u8], after: &str) {
    message.words(before);
    message.shown(here);
    message.words(after);
}

/// Adds the token that is there instead of an expected one, and whether an earlier line is shown.
fn push_found(message: &mut Text, here: &[u8], is_earlier: bool) {
    if here.is_empty() {
        message.words("found the end of the text");
    } else {
        let after = if is_earlier { " on a later line" } else { "" };
        push_about(message, "found ", here, after);
    }
}

/// The words for what was expected: of whole numbers only 1 is a condition of a transition.
fn shown_words(words: &str) -> &str {
    if words == "name whole [" {
        "name 1 ["
    } else {
        words
    }
}

/// Adds the tokens with which the text could go on in place of the token between these bytes, if any are known, and what
/// is probably meant.
fn push_expected(
    alloc: Global,
    message: &mut Text,
    (before, here, rest): (&[u8], &[u8], &[u8]),
    expected: Expected,
) {
    let Ok(words) = expected.words(alloc) else {
        message.give_up();
        return;
    };
    let words = words.as_str();
    let expected = if words.contains(" ") {
        ", expected one of "
    } else {
        ", expected "
    };
    if !words.is_empty() {
        message.phrase(&[expected, shown_words(words)]);
    }
    push_else_if(alloc, message, before, words);
    push_habit(alloc, message, (before, here, rest), words);
}
