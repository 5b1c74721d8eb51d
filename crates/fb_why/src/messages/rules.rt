//! The texts that say where rules are refused.

ghost use Rattle.std.specs.Prelude.{◌≤◌, length};

use crate::further::{further_key, item_at};
use crate::messages::deployment::push_further;
use fb_expect::{
    PatternFault, PatternPart, RuleFault, RuleKey, RulesLocation, key_text, pattern_fault,
};
use fb_read_positions::words::Text;
use std::alloc::{AllocError, Global};
use toml::{Table, Value};

/// What is wrong at a location of rules.
pub fn rules_message(
    alloc: Global,
    bytes: &[u8],
    location: RulesLocation,
) -> Result<String, AllocError> {
    let mut text = Text::new(alloc);
    match location {
        RulesLocation::Bytes => text.words("rules: there are more than 1,048,576 bytes"),
        RulesLocation::Document(_) => text.words("this is no TOML"),
        RulesLocation::Crowded => text.words("rules: there are more than 1,000 rules"),
        _ => match toml::table_from_slice(alloc, bytes) {
            Ok(keys) => push_location(&mut text, &keys, location),
            Err(_) => text.give_up(),
        },
    }
    text.into_string()
}

/// Adds what is at a location in a document.
fn push_location(text: &mut Text, keys: &Table, location: RulesLocation) {
    match location {
        RulesLocation::Rule { rule, fault } => {
            let keys = item_at(keys, "rule", rule);
            push_rule(text, keys, rule);
            push_fault(text, keys, fault);
        }
        RulesLocation::Pattern { rule, key } => {
            push_rule(text, item_at(keys, "rule", rule), rule);
            text.phrase(&[key_text(key), " is no pattern"]);
        }
        RulesLocation::Number { rule, key } => {
            push_rule(text, item_at(keys, "rule", rule), rule);
            text.phrase(&[key_text(key), range_of(key)]);
        }
        RulesLocation::Repeated { rule } => {
            push_key(text, item_at(keys, "rule", rule), rule, RuleKey::Name);
            text.words("a rule before it has this name");
        }
        _ => match keys.get("rule") {
            Some(_) if keys.len() > 1 => push_further(text, keys, &["rule"]),
            _ => {
                text.words("there is no rule");
                push_instead(text, further_key(keys, &["rule"]));
            }
        },
    }
}

/// What is wrong with the shape of a rule.
fn push_fault(text: &mut Text, keys: Option<&Table>, fault: RuleFault) {
    match fault {
        RuleFault::NoTable => text.words("it is no table"),
        RuleFault::NoForm => text.words("there is none of after, before, never and count"),
        RuleFault::Missing(key) => {
            push_missing(text, key);
            push_instead(text, further_in(keys));
        }
        RuleFault::Wrong(key) => text.phrase(&[key_text(key), kind_of(key)]),
        RuleFault::Further => {
            if let Some(keys) = keys {
                push_further(text, keys, known_keys(keys));
            }
        }
    }
}

/// Adds which key is missing, or which two keys are.
fn push_missing(text: &mut Text, key: RuleKey) {
    match key {
        RuleKey::Not => text.words("there is neither see nor not"),
        RuleKey::Most => text.words("there is neither least nor most"),
        key => text.phrase(&["there is no ", key_text(key)]),
    }
}

/// Adds a key that there is instead, which may be a misspelt one.
fn push_instead(text: &mut Text, further: Option<&str>) {
    if let Some(key) = further {
        text.words(", but a further key, ");
        text.quoted(key.as_bytes());
    }
}

/// The first key of a rule that it may not have.
fn further_in(keys: Option<&Table>) -> Option<&str> {
    let keys = keys?;
    further_key(keys, known_keys(keys))
}

/// What the value at a key must be.
fn kind_of(key: RuleKey) -> &'static str {
    match key {
        RuleKey::Within | RuleKey::Least | RuleKey::Most | RuleKey::Every => {
            " is not a whole number"
        }
        RuleKey::Same => " is not a list of texts, one or more",
        RuleKey::Each => " is not true or false",
        _ => " is not a text",
    }
}

/// What the number at a key must be.
fn range_of(key: RuleKey) -> &'static str {
    match key {
        RuleKey::Every => " is not within 1 to 1,000,000,000,000",
        RuleKey::Least => " is not within 0 to 1,000,000,000,000, or is 0 without most",
        RuleKey::Most => " is not within 0 to 1,000,000,000,000, or is under least",
        _ => " is not within 0 to 1,000,000,000,000",
    }
}

/// The keys that a rule may have: those of its form.
fn known_keys(keys: &Table) -> &'static [&'static str] {
    if keys.get("after").is_some() {
        match keys.get("see") {
            Some(_) => &["name", "after", "within", "see", "same", "each"],
            None => &["name", "after", "within", "not"],
        }
    } else if keys.get("before").is_some() {
        &["name", "before", "within", "see"]
    } else if keys.get("never").is_some() {
        &["name", "never", "from", "to"]
    } else {
        &["name", "count", "least", "most", "every"]
    }
}

/// The name of a rule, as it is written.
fn name_in(keys: Option<&Table>) -> Option<&str> {
    keys?.get("name")?.as_str()
}

/// Adds which rule is meant.
fn push_rule(text: &mut Text, keys: Option<&Table>, rule: usize) {
    text.placed("", rule, " rule");
    if let Some(name) = name_in(keys) {
        text.words(", ");
        text.quoted(name.as_bytes());
    }
    text.words(": ");
}

/// Adds which rule is meant, and which key of it.
fn push_key(text: &mut Text, keys: Option<&Table>, rule: usize, key: RuleKey) {
    push_rule(text, keys, rule);
    text.phrase(&[key_text(key), ": "]);
}

/// What is wrong with a text that is no pattern.
fn push_pattern_fault(text: &mut Text, fault: &PatternFault) {
    if let PatternPart::Words = fault.part {
        text.words(": a pattern is a resource, a sign, a port and conditions, with blanks between");
        return;
    }
    if let PatternPart::Variable = fault.part {
        text.words(": no value of ");
        text.shown(fault.word.as_slice());
        text.words(" meets all conditions on it");
        return;
    }
    text.words(": ");
    text.shown(fault.word.as_slice());
    text.words(match fault.part {
        PatternPart::Words | PatternPart::Variable | PatternPart::Resource => {
            " is no resource: a name, or * for any"
        }
        PatternPart::Sign => " is no sign: >, < or * for both",
        PatternPart::Port => " is no port: two names or more, with a full stop between",
        PatternPart::Condition => {
            " is no condition: VAR=value or VAR=VAR with =, <>, <, <=, > or >=, without blanks"
        }
    });
}

/// What is wrong with the text at a key of a rule, which is no pattern, or with those of `same`, one of which is no name.
pub fn pattern_message(
    alloc: Global,
    bytes: &[u8],
    rule: usize,
    key: RuleKey,
) -> Result<String, AllocError> {
    let mut text = Text::new(alloc);
    let Ok(document) = toml::table_from_slice(alloc, bytes) else {
        text.give_up();
        return text.into_string();
    };
    let keys = item_at(&document, "rule", rule);
    push_key(&mut text, keys, rule, key);
    if let RuleKey::Same = key {
        text.words("one of its texts is no name of a variable");
        return text.into_string();
    }
    if let Some(keys) = keys {
        if let Some(Value::String(written)) = keys.get(key_text(key)) {
            text.quoted(written.as_bytes());
            text.words(" is no pattern");
            if let Some(fault) = pattern_fault(alloc, written.as_str())? {
                push_pattern_fault(&mut text, &fault);
            }
        }
    }
    text.into_string()
}

/// Which pattern of a rule the declaration has no event for; `why` says what it lacks.
pub fn unknown_key_message(
    alloc: Global,
    rule: usize,
    name: &[u8],
    key: RuleKey,
    pattern: &[u8],
    why: &str,
) -> Result<String, AllocError> {
    let mut text = Text::new(alloc);
    text.placed("", rule, " rule, ");
    text.quoted(name);
    text.phrase(&[": ", key_text(key), ": "]);
    text.quoted(pattern);
    text.phrase(&[": ", why]);
    text.into_string()
}

/// How many blanks a line begins with.
fn blanks_of(line: &[u8]) -> usize
    ensures { result ≤ length line.now }
{
    for (at, byte) in line.iter().enumerate() {
        if *byte != b' ' && *byte != b'\t' {
            return at;
        }
    }
    line.len()
}

/// A text without the blanks that it begins with.
fn after_blanks(text: &[u8]) -> &[u8] {
    &text[blanks_of(text)..]
}

/// What comes after a key in quotes, if a line begins with it.
fn after_quoted<'a>(line: &'a [u8], quote: &[u8], key: &[u8]) -> Option<&'a [u8]> {
    line.strip_prefix(quote)?
        .strip_prefix(key)?
        .strip_prefix(quote)
}

/// What comes after a key, if a line begins with it. The key may be in quotes.
fn after_key<'a>(line: &'a [u8], key: &[u8]) -> Option<&'a [u8]> {
    line.strip_prefix(key)
        .or(after_quoted(line, DOUBLE, key))
        .or(after_quoted(line, SINGLE, key))
}

/// Whether a line begins with a key and an equals sign.
fn begins_key(line: &[u8], key: &[u8]) -> bool {
    match after_key(line, key) {
        Some(rest) => after_blanks(rest).starts_with(EQUALS),
        None => false,
    }
}

/// What a heading of an array of tables has inside, up to the end of the line.
fn heading_of(line: &[u8]) -> Option<&[u8]> {
    Some(after_blanks(line.strip_prefix(OPENING)?))
}

/// Whether a line is the heading of an array of tables with this name.
fn is_heading(line: &[u8], name: &[u8]) -> bool {
    match heading_of(line) {
        Some(inside) => match after_key(inside, name) {
            Some(rest) => after_blanks(rest).starts_with(CLOSING),
            None => false,
        },
        None => false,
    }
}

/// A search for a key of a rule, line by line.
#[derive(Clone, Copy)]
struct KeySearch<'a> {
    /// The rule whose key it is, or nothing for a key beside the rules.
    rule: Option<usize>,
    name: &'a [u8],
    /// How many headings of rules were there.
    headings: usize,
    /// What was found so far.
    span: (usize, usize),
    /// Whether nothing nearer comes.
    is_over: bool,
}

impl KeySearch<'_> {
    /// Takes the line that begins at this offset.
    fn take(&mut self, line: &[u8], start: usize) {
        let text = after_blanks(after_mark(line, start));
        let first = start.saturating_add(line.len().saturating_sub(text.len()));
        match self.rule {
            Some(rule) => self.take_of_rule(text, first, rule),
            None => self.take_beside(text, first),
        }
    }

    /// Takes a line without its blanks, for a key of a rule.
    fn take_of_rule(&mut self, text: &[u8], first: usize, rule: usize) {
        if is_heading(text, RULE) {
            self.headings = self.headings.saturating_add(1);
            if self.headings == rule.saturating_add(1) {
                self.span = (first, first.saturating_add(text.len()));
            }
            self.is_over = self.headings > rule.saturating_add(1);
        } else if self.headings > rule && begins_key(text, self.name) {
            self.span = (first, first.saturating_add(self.name.len()));
            self.is_over = true;
        }
    }

    /// Takes a line without its blanks, for a key beside the rules, or for the heading of another array of tables.
    fn take_beside(&mut self, text: &[u8], first: usize) {
        if begins_key(text, self.name) || is_heading(text, self.name) {
            self.span = (first, first.saturating_add(text.len()));
            self.is_over = true;
        }
    }
}

/// The name of the array of rules.
const RULE: &[u8] = b"rule";

/// What begins the heading of an array of tables.
const OPENING: &[u8] = b"[[";

/// What ends it.
const CLOSING: &[u8] = b"]]";

/// What comes between a key and its value.
const EQUALS: &[u8] = b"=";

/// The quotes in which a key may be.
const DOUBLE: &[u8] = b"\"";

const SINGLE: &[u8] = b"'";

/// The first byte.
const FIRST: (usize, usize) = (0, 1);

/// The byte order mark that a text may begin with.
const MARK: &[u8] = b"\xEF\xBB\xBF";

/// The line that begins at this offset without the byte order mark of a text.
fn after_mark(line: &[u8], start: usize) -> &[u8] {
    if start == 0 {
        line.strip_prefix(MARK).unwrap_or(line)
    } else {
        line
    }
}

/// The bytes of a key of a rule, if it begins a line of its table; else of the heading of the table; else the first.
/// They are the offset of the first byte, and that past the last.
pub fn rule_span(bytes: &[u8], rule: usize, key: RuleKey) -> (usize, usize) {
    span_of(bytes, Some(rule), key_text(key).as_bytes())
}

/// The bytes of the heading of a rule, else the first.
fn heading_span(bytes: &[u8], rule: usize) -> (usize, usize) {
    span_of(bytes, Some(rule), b"")
}

/// The bytes of a further key of a rule, or of its heading if it has none.
fn further_span(bytes: &[u8], keys: Option<&Table>, rule: usize) -> (usize, usize) {
    match further_in(keys) {
        Some(name) => span_of(bytes, Some(rule), name.as_bytes()),
        None => heading_span(bytes, rule),
    }
}

/// The bytes at which the shape of a rule is wrong.
fn fault_span(bytes: &[u8], keys: Option<&Table>, rule: usize, fault: RuleFault) -> (usize, usize) {
    match fault {
        RuleFault::NoTable | RuleFault::NoForm => heading_span(bytes, rule),
        RuleFault::Missing(_) | RuleFault::Further => further_span(bytes, keys, rule),
        RuleFault::Wrong(key) => rule_span(bytes, rule, key),
    }
}

/// The bytes of the first key beside the rules, else the first.
fn beside_span(bytes: &[u8], keys: &Table) -> (usize, usize) {
    match further_key(keys, &["rule"]) {
        Some(name) => span_of(bytes, None, name.as_bytes()),
        None => FIRST,
    }
}

/// The same of a location in a document.
fn span_in(bytes: &[u8], keys: &Table, location: RulesLocation) -> (usize, usize) {
    match location {
        RulesLocation::Rule { rule, fault } => {
            fault_span(bytes, item_at(keys, "rule", rule), rule, fault)
        }
        RulesLocation::Pattern { rule, key } | RulesLocation::Number { rule, key } => {
            rule_span(bytes, rule, key)
        }
        RulesLocation::Repeated { rule } => rule_span(bytes, rule, RuleKey::Name),
        _ => beside_span(bytes, keys),
    }
}

/// The bytes at a location of rules, or at the nearest one around it. There are none if the rules are too long or too
/// many.
pub fn location_span(
    alloc: Global,
    bytes: &[u8],
    location: RulesLocation,
) -> Option<(usize, usize)> {
    match location {
        RulesLocation::Bytes | RulesLocation::Crowded => None,
        RulesLocation::Document(at) => {
            let at = at.min(bytes.len().saturating_sub(1));
            Some((at, at.saturating_add(1)))
        }
        _ => match toml::table_from_slice(alloc, bytes) {
            Ok(keys) => Some(span_in(bytes, &keys, location)),
            Err(_) => None,
        },
    }
}

/// The bytes of a key of a rule, or of one beside the rules, if it begins a line; else of the heading of the rule; else
/// the first.
fn span_of(bytes: &[u8], rule: Option<usize>, name: &[u8]) -> (usize, usize) {
    let mut search = KeySearch {
        rule,
        name,
        headings: 0,
        span: FIRST,
        is_over: false,
    };
    let mut start = 0;
    for (at, byte) in bytes.iter().enumerate() {
        if *byte == b'\n' && !search.is_over {
            search.take(&bytes[start..at], start);
            start = at + 1;
        }
    }
    if !search.is_over {
        search.take(&bytes[start..], start);
    }
    search.span
}
