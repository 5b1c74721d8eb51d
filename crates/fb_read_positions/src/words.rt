//! Texts that are composed of words, names, numbers and bytes.

use fb_check_names::{Named, PortKind};
use fb_types::{Connection, Name, PortName, Ports, Value};
use std::alloc::{AllocError, Global};
use std::str::from_utf8;

/// The most bytes that are shown as they are.
const MOST_SHOWN: usize = 60;

/// The most bytes of a token that are shown.
const MOST_OF_TOKEN: usize = 40;

/// The ending of an ordinal number, as in 1st.
fn ending(number: usize) -> &'static str {
    match (number % 10, number % 100) {
        (_, 11..=13) => "th",
        (1, _) => "st",
        (2, _) => "nd",
        (3, _) => "rd",
        _ => "th",
    }
}

/// The first bytes, at most this number.
pub fn front(bytes: &[u8], most: usize) -> &[u8] {
    bytes.get(..most).unwrap_or(bytes)
}

/// A kind of bytes.
#[derive(Clone, Copy)]
pub enum ByteKind {
    /// ASCII letters.
    Letters,
    /// Decimal digits.
    Digits,
    /// Spaces.
    Spaces,
    /// All bytes but spaces.
    NotSpaces,
}

/// The bytes of a kind in front, and the others.
pub fn split_front(bytes: &[u8], kind: ByteKind) -> (&[u8], &[u8]) {
    for (index, byte) in bytes.iter().enumerate() {
        let is_of_kind = match kind {
            ByteKind::Letters => byte.is_ascii_alphabetic(),
            ByteKind::Digits => byte.is_ascii_digit(),
            ByteKind::Spaces => *byte == b' ',
            ByteKind::NotSpaces => *byte != b' ',
        };
        if !is_of_kind {
            return (&bytes[..index], &bytes[index..]);
        }
    }
    (bytes, &[])
}

/// How a byte is shown: one that is not a printable ASCII character as a question mark.
pub fn shown(byte: u8) -> u8 {
    match byte {
        b' '..=b'~' => byte,
        _ => b'?',
    }
}

/// A growing text. If memory runs out for a part, it stops growing and ends in an error, so code that appends needs no
/// check.
#[derive(Drop)]
pub struct Text {
    all: String,
    /// `Ok` as long as there was memory for everything.
    written: Result<(), AllocError>,
}

impl Text {
    /// An empty text.
    pub fn new(alloc: Global) -> Text {
        Text {
            all: String::new(alloc),
            written: Ok(()),
        }
    }

    /// The finished text.
    ///
    /// # Errors
    ///
    /// If memory ran out on the way.
    pub fn into_string(self) -> Result<String, AllocError> {
        let Text { all, written } = self;
        written?;
        Ok(all)
    }

    /// Marks that memory ran out for a part.
    pub fn give_up(&mut self) {
        self.written = Err(AllocError);
    }

    /// Appends words.
    pub fn words(&mut self, words: &str) {
        if self.written.is_ok() {
            self.written = self.all.push_str(words);
        }
    }

    /// Appends several words, one after another.
    pub fn phrase(&mut self, parts: &[&str]) {
        for part in parts {
            self.words(part);
        }
    }

    /// Appends an ASCII character.
    pub fn letter(&mut self, byte: u8) {
        if self.written.is_ok() {
            self.written = self.all.push(char::from(byte));
        }
    }

    /// Appends a number.
    pub fn number(&mut self, number: i128) {
        if self.written.is_ok() {
            self.written = write!(self.all, "{number}");
        }
    }

    /// Appends a number between words.
    pub fn numbered(&mut self, before: &str, number: usize, after: &str) {
        self.words(before);
        self.number(number as i128);
        self.words(after);
    }

    /// Appends an index between words. It is counted from 0, and shown as 1st for 0.
    pub fn placed(&mut self, before: &str, index: usize, after: &str) {
        let counted = index.saturating_add(1);
        self.numbered(before, counted, ending(counted));
        self.words(after);
    }

    /// Appends bytes, up to a limit. A byte that is not printable is shown by its number.
    pub fn shown(&mut self, bytes: &[u8]) {
        for byte in front(bytes, MOST_OF_TOKEN) {
            match *byte {
                b' '..=b'~' => self.letter(*byte),
                _ => self.numbered("byte ", usize::from(*byte), ""),
            }
        }
        if bytes.len() > MOST_OF_TOKEN {
            self.words("..");
        }
    }

    /// Appends bytes between quotes, up to a limit.
    pub fn quoted(&mut self, bytes: &[u8]) {
        self.words("\"");
        for byte in front(bytes, MOST_SHOWN) {
            self.letter(shown(*byte));
        }
        self.words(if bytes.len() > MOST_SHOWN {
            "\".."
        } else {
            "\""
        });
    }

    /// Appends words, and a name.
    pub fn named(&mut self, words: &str, name: &Name) {
        self.words(words);
        match from_utf8(name.as_bytes()) {
            Ok(name) => self.words(name),
            Err(_) => self.shown(name.as_bytes()),
        }
    }

    /// Appends a value; a time as its ticks.
    pub fn value(&mut self, value: Value) {
        match value {
            Value::Bool(true) => self.words("TRUE"),
            Value::Bool(false) => self.words("FALSE"),
            Value::Whole(number) => self.number(number),
        }
    }

    /// Appends words, and the name of a port, after that of its instance if it has one.
    pub fn port(&mut self, words: &str, port: &PortName) {
        self.words(words);
        if let Some(component) = &port.component {
            self.named("", component);
            self.words(".");
        }
        self.named("", &port.port);
    }

    /// Appends words, and a connection.
    pub fn connection(&mut self, words: &str, connection: &Connection) {
        self.port(words, &connection.from);
        self.port(" TO ", &connection.to);
    }

    /// Appends the names that exist.
    pub fn names<T: Named>(&mut self, items: &[T]) {
        let mut before = " (it has ";
        for item in items {
            self.named(before, item.name());
            before = ", ";
        }
        self.words(if items.is_empty() {
            " (it has none)"
        } else {
            ")"
        });
    }

    /// Appends that the owner has no port of this kind with the name, and which ports it has.
    pub fn lacks(&mut self, owner: &Name, port_kind: PortKind, required: &Name, ports: &Ports) {
        self.named(": ", owner);
        self.named(words_for(port_kind), required);
        match port_kind {
            PortKind::EventInput => self.names(ports.event_inputs.as_slice()),
            PortKind::EventOutput => self.names(ports.event_outputs.as_slice()),
            PortKind::Input => self.names(ports.inputs.as_slice()),
            PortKind::Output => self.names(ports.outputs.as_slice()),
        }
    }
}

fn words_for(port_kind: PortKind) -> &'static str {
    match port_kind {
        PortKind::EventInput => " has no event input ",
        PortKind::EventOutput => " has no event output ",
        PortKind::Input => " has no data input ",
        PortKind::Output => " has no data output ",
    }
}
