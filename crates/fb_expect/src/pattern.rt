//! Patterns of lines, as they are written: `RESOURCE > PATH.EVENT VAR=value ..`.

ghost use Rattle.std.specs.Prelude.{◌≡◌, ◌++◌, ◌∷◌, [], ℕ, List, IfOk, OnOk, filter, is_some, map, not, option_map};
ghost use Rattle.std.specs.Borrow.{Bor};
ghost use Rattle.fb_expect.specs.Lists as lists;
ghost use Rattle.fb_expect.specs.Needs as needs;
ghost use Rattle.fb_expect.specs.PatternFaults as faults;
ghost use Rattle.fb_expect.specs.Written as spec;

use crate::contradiction::impossible;
use crate::names::{is_name, is_path, is_port};
use crate::number::value_of;
use crate::port_pattern::{PortForm, PortPattern};
use crate::stars::is_star_port;
use crate::words::{after_front, before, split_at_mark};
use fb_types::{Items, Name, Value};
use std::alloc::{AllocError, Global};

/// Which side of an instance a pattern is of.
#[derive(Clone, Copy)]
pub enum Way {
    /// Events that are taken, `>`.
    Taken,
    /// Events that are emitted, `<`.
    Emitted,
    /// Both, `*`.
    Either,
}

/// How the value of a line is compared with that of a condition.
#[derive(Clone, Copy)]
pub enum Comparison {
    Equal,
    Unequal,
    Less,
    AtMost,
    Greater,
    AtLeast,
}

/// With what the value of a variable is compared.
#[derive(Drop)]
pub enum Operand {
    Value(Value),
    /// The value of this variable in the same line.
    Variable(Name),
}

/// What a line has to say of a variable.
#[derive(Drop)]
pub struct Condition {
    pub variable: Name,
    pub comparison: Comparison,
    pub operand: Operand,
}

/// Which lines are meant.
pub struct Pattern {
    /// The resource, or none where it may be any.
    pub resource: Option<Name>,
    pub way: Way,
    pub port: PortPattern,
    pub conditions: Items<Condition>,
    /// The pattern as it is written, in upper case.
    pub text: Items<u8>,
}

impl Drop for Pattern {
    fn drop(self) {
        let Pattern {
            resource: _,
            way: _,
            port: _,
            conditions: _,
            text: _,
        } = self;
    }
}

/// The sign that a word is.
#[tactic(auto, unfolding(crate::specs::Written::way_of))]
fn way_of(word: &[u8]) -> Option<Way>
    ensures { result ≡ spec.way_of word.now }
{
    if word == b">".as_slice() {
        return Some(Way::Taken);
    }
    if word == b"<".as_slice() {
        return Some(Way::Emitted);
    }
    if word == b"*".as_slice() {
        return Some(Way::Either);
    }
    None
}

/// Whether a text can come before the star of a port: nothing, or names with a full stop after each.
fn is_front(text: &[u8]) -> bool
    ensures { result ≡ spec.is_front text.now }
{
    match before(text, b".") {
        Some(names) => is_path(names),
        None => text.is_empty(),
    }
}

/// The text of a port's pattern that has no open end, and how it is read.
fn closed_port_of(word: &[u8]) -> Option<(&[u8], PortForm)>
    ensures { option_map (λ p. (p.0.now, p.1)) result ≡ spec.closed_port_of word.now }
{
    if is_port(word) {
        Some((word, PortForm::Whole))
    } else if is_star_port(word) {
        Some((word, PortForm::Stars))
    } else {
        None
    }
}

/// The text of a port's pattern, and how it is read.
#[tactic(auto, unfolding(crate::specs::Written::port_of))]
fn port_of(word: &[u8]) -> Option<(&[u8], PortForm)>
    ensures { option_map (λ p. (p.0.now, p.1)) result ≡ spec.port_of word.now }
{
    match before(word, b"*") {
        Some(front) => {
            if is_front(front) {
                Some((front, PortForm::Open))
            } else {
                closed_port_of(word)
            }
        }
        None => closed_port_of(word),
    }
}

/// Whether comparisons begin with a byte.
fn is_sign(byte: u8) -> bool
    ensures { result ≡ spec.is_sign byte }
{
    byte == b'<' || byte == b'=' || byte == b'>'
}

/// What comes before the comparison of a condition, and the rest from there on.
fn at_comparison(word: &[u8]) -> Option<(&[u8], &[u8])>
    ensures { option_map (λ p. (p.0.now, p.1.now)) result ≡ spec.at_comparison word.now }
{
    for at in 0..word.len() {
        if is_sign(word[at]) {
            return Some((&word[..at], &word[at..]));
        }
    }
    None
}

/// The comparison that a text begins with, and what comes after it.
#[tactic(auto, unfolding(crate::specs::Written::comparison_of))]
fn comparison_of(text: &[u8]) -> Option<(Comparison, &[u8])>
    ensures { option_map (λ p. (p.0, p.1.now)) result ≡ spec.comparison_of text.now }
{
    if let Some(rest) = after_front(text, b"<>") {
        return Some((Comparison::Unequal, rest));
    }
    if let Some(rest) = after_front(text, b"<=") {
        return Some((Comparison::AtMost, rest));
    }
    if let Some(rest) = after_front(text, b"<") {
        return Some((Comparison::Less, rest));
    }
    if let Some(rest) = after_front(text, b">=") {
        return Some((Comparison::AtLeast, rest));
    }
    if let Some(rest) = after_front(text, b">") {
        return Some((Comparison::Greater, rest));
    }
    Some((Comparison::Equal, after_front(text, b"=")?))
}

/// Whether a comparison asks for no order.
fn is_equation(comparison: Comparison) -> bool
    ensures { result ≡ spec.is_equation comparison }
{
    matches!(comparison, Comparison::Equal | Comparison::Unequal)
}

/// A value or the name of a variable, as a condition has it.
#[derive(Clone, Copy)]
enum OperandText<'a> {
    Value(Value),
    Variable(&'a [u8]),
}

/// What a text is with which a variable is compared.
fn operand_of(text: &[u8]) -> Option<OperandText<'_>>
    ensures { option_map spec.seen_operand result ≡ spec.operand_of text.now }
{
    match value_of(text) {
        Some(value) => Some(OperandText::Value(value)),
        None => {
            if is_name(text) {
                Some(OperandText::Variable(text))
            } else {
                None
            }
        }
    }
}

/// Whether a condition can be written so: truth values have no order.
fn can_compare(comparison: Comparison, operand: OperandText<'_>) -> bool
    ensures { result ≡ spec.can_compare comparison (spec.seen_operand operand.entry) }
{
    match operand {
        OperandText::Value(Value::Bool(_)) => is_equation(comparison),
        OperandText::Value(Value::Whole(_)) | OperandText::Variable(_) => true,
    }
}

/// The condition that a word `VAR=value` or `VAR=VAR` is, with the names as they are there.
#[tactic(auto, unfolding(crate::specs::Written::condition_parts))]
fn condition_parts(word: &[u8]) -> Option<(&[u8], Comparison, OperandText<'_>)>
    ensures { option_map (λ p. (p.0.now, p.1, spec.seen_operand p.2)) result ≡ spec.condition_parts word.now }
{
    let (variable, rest) = at_comparison(word)?;
    let (comparison, text) = comparison_of(rest)?;
    let operand = operand_of(text)?;
    if is_name(variable) && can_compare(comparison, operand) {
        Some((variable, comparison, operand))
    } else {
        None
    }
}

/// The operand of a condition.
fn own_operand(alloc: Global, operand: OperandText<'_>) -> Result<Operand, AllocError>
    ensures { IfOk result (λ o. o ≡ spec.seen_operand operand.entry) }
{
    match operand {
        OperandText::Value(value) => Ok(Operand::Value(value)),
        OperandText::Variable(name) => Ok(Operand::Variable(Name::from_slice(alloc, name)?)),
    }
}

/// The condition that a word is.
fn condition_of(alloc: Global, word: &[u8]) -> Result<Option<Condition>, AllocError>
    ensures { IfOk result (λ c. c ≡ spec.condition_of word.now) }
{
    match condition_parts(word) {
        Some((variable, comparison, operand)) => Ok(Some(Condition {
            variable: Name::from_slice(alloc, variable)?,
            comparison,
            operand: own_operand(alloc, operand)?,
        })),
        None => Ok(None),
    }
}

/// The conditions that words are, where all are such.
fn conditions_of(alloc: Global, words: &[&[u8]]) -> Result<Option<Items<Condition>>, AllocError>
    ensures { IfOk result (λ cs. cs ≡ lists.each spec.condition_of (map (λ w. w.now) words.now)) }
{
    let mut found = Items::new(alloc);
    for word in words {
        let condition = condition_of(alloc, word)?;
        match condition {
            Some(condition) => found.push(condition)?,
            None => return Ok(None),
        }
    }
    Ok(Some(found))
}

/// The resource of a pattern, or none for a star.
fn resource_of(alloc: Global, word: &[u8]) -> Result<Option<Name>, AllocError>
    ensures { IfOk result (λ r. r ≡ spec.resource_of word.now) }
{
    if word == b"*".as_slice() {
        return Ok(None);
    }
    Ok(Some(Name::from_slice(alloc, word)?))
}

/// Whether a word can represent a resource.
fn is_resource(word: &[u8]) -> bool
    ensures { result ≡ spec.is_resource word.now }
{
    word == b"*".as_slice() || is_name(word)
}

/// The pattern of a resource, a sign, a port and conditions, where they make one. The text is that in which they are.
#[tactic(auto, unfolding(crate::specs::Written::pattern_with))]
fn pattern_with(
    alloc: Global,
    resource: &[u8],
    sign: &[u8],
    port: &[u8],
    conditions: &[&[u8]],
    text: &[u8],
) -> Result<Option<Pattern>, AllocError>
    ensures { IfOk result (λ p. p ≡ spec.pattern_with resource.now sign.now port.now (map (λ w. w.now) conditions.now) text.now) }
{
    let Some(way) = way_of(sign) else {
        return Ok(None);
    };
    let Some((port, form)) = port_of(port) else {
        return Ok(None);
    };
    if !is_resource(resource) {
        return Ok(None);
    }
    let Some(conditions) = conditions_of(alloc, conditions)? else {
        return Ok(None);
    };
    if impossible(conditions.as_slice()).is_some() {
        return Ok(None);
    }
    Ok(Some(Pattern {
        resource: resource_of(alloc, resource)?,
        way,
        port: PortPattern {
            text: Items::from_slice(alloc, port)?,
            form,
        },
        conditions,
        text: Items::from_slice(alloc, text)?,
    }))
}

/// The pattern of words, where they are one. The text is that in which they are.
fn pattern_in(alloc: Global, words: &[&[u8]], text: &[u8]) -> Result<Option<Pattern>, AllocError>
    ensures { IfOk result (λ p. p ≡ spec.pattern_in (map (λ w. w.now) words.now) text.now) }
{
    match words {
        [resource, sign, port, conditions @ ..] => {
            pattern_with(alloc, resource, sign, port, conditions, text)
        }
        _ => Ok(None),
    }
}

/// Appends a word, unless it is empty.
fn put_word<'a>(words: &mut Vec<&'a [u8]>, word: &'a [u8]) -> Result<(), AllocError>
    ensures { OnOk result (map (λ (w : Bor (List ℕ)). w.now) words.new.items ≡ map (λ (w : Bor (List ℕ)). w.now) words.old.items ++ filter spec.is_word (word.entry.now ∷ [])) }
{
    if !word.is_empty() {
        words.push(word)?;
    }
    Ok(())
}

/// Appends the words of a text, which blanks separate.
fn put_words<'a>(words: &mut Vec<&'a [u8]>, text: &'a [u8]) -> Result<(), AllocError>
    ensures { OnOk result (map (λ (w : Bor (List ℕ)). w.now) words.new.items ≡ map (λ (w : Bor (List ℕ)). w.now) words.old.items ++ spec.words_of text.entry.now) }
{
    let mut rest = text;
    while let Some((word, after)) = split_at_mark(rest, b' ') {
        put_word(words, word)?;
        rest = after;
    }
    put_word(words, rest)
}

/// The words that blanks separate.
fn words_of<'a>(alloc: Global, text: &'a [u8]) -> Result<Vec<&'a [u8]>, AllocError>
    ensures { IfOk result (λ ws. map (λ (w : Bor (List ℕ)). w.now) ws.items ≡ spec.words_of text.entry.now) }
{
    let mut words = Vec::new(alloc);
    put_words(&mut words, text)?;
    Ok(words)
}

fn upper(byte: u8) -> u8
    ensures { result ≡ spec.upper byte }
{
    if byte.is_ascii_lowercase() {
        byte - 32
    } else {
        byte
    }
}

/// A text in upper case.
pub(crate) fn in_upper(alloc: Global, text: &[u8]) -> Result<Vec<u8>, AllocError>
    ensures { IfOk result (λ t. t.items ≡ map spec.upper text.now) }
{
    let mut bytes = Vec::with_capacity(alloc, text.len())?;
    for byte in text {
        bytes.push_reserved(upper(*byte));
    }
    Ok(bytes)
}

/// The pattern that a text is, in any letter case, where it is one.
pub fn pattern_of(alloc: Global, text: &str) -> Result<Option<Pattern>, AllocError>
    ensures { IfOk result (λ p. p ≡ spec.pattern_of text.now) }
{
    let text = in_upper(alloc, text.as_bytes())?;
    let words = words_of(alloc, text.as_slice())?;
    pattern_in(alloc, words.as_slice(), text.as_slice())
}

/// The condition that a line has a variable: its value is equal to itself.
fn has_name(alloc: Global, name: &Name) -> Result<Condition, AllocError>
    ensures { IfOk result (λ c. c ≡ needs.has_name name.now) }
{
    Ok(Condition {
        variable: name.try_clone(alloc)?,
        comparison: Comparison::Equal,
        operand: Operand::Variable(name.try_clone(alloc)?),
    })
}

/// Conditions, and that a line has each of these variables.
fn with_each(
    alloc: Global,
    mut conditions: Items<Condition>,
    names: &[Name],
) -> Result<Items<Condition>, AllocError>
    ensures { IfOk result (λ cs. cs ≡ conditions ++ map needs.has_name names.now) }
{
    for name in names {
        let condition = has_name(alloc, name)?;
        conditions.push(condition)?;
    }
    Ok(conditions)
}

impl Pattern {
    /// The pattern with the condition that a line has each of these variables.
    pub(crate) fn with_names(self, alloc: Global, names: &[Name]) -> Result<Pattern, AllocError>
        ensures { IfOk result (λ p. p ≡ needs.with_names names.now self) }
    {
        let Pattern {
            resource,
            way,
            port,
            conditions,
            text,
        } = self;
        Ok(Pattern {
            resource,
            way,
            port,
            conditions: with_each(alloc, conditions, names)?,
            text,
        })
    }
}

/// What is wrong with a text that is no pattern.
#[derive(Clone, Copy)]
pub enum PatternPart {
    /// There are fewer than three words.
    Words,
    Resource,
    Sign,
    Port,
    Condition,
    /// No value of a variable meets all conditions on it. The word is its name.
    Variable,
}

/// What is wrong with a text that is no pattern: the first word that is wrong, in upper case, and what it must be; or
/// the first variable of which no value meets all conditions.
#[derive(Drop)]
pub struct PatternFault {
    pub part: PatternPart,
    pub word: Items<u8>,
}

/// The fault of a word.
fn fault_at(alloc: Global, part: PatternPart, word: &[u8]) -> Result<PatternFault, AllocError>
    ensures { IfOk result (λ f. f ≡ record { part = part; word = word.now }) }
{
    Ok(PatternFault {
        part,
        word: Items::from_slice(alloc, word)?,
    })
}

/// The first word that is no condition.
fn condition_fault(alloc: Global, words: &[&[u8]]) -> Result<Option<PatternFault>, AllocError>
    ensures { IfOk result (λ o. o ≡ faults.condition_fault (map (λ w. w.now) words.now)) }
{
    for word in words {
        match condition_parts(word) {
            Some(_) => {}
            None => return Ok(Some(fault_at(alloc, PatternPart::Condition, word)?)),
        }
    }
    Ok(None)
}

/// The first variable of which no value meets all of these conditions.
fn variable_fault(
    alloc: Global,
    conditions: &[Condition],
) -> Result<Option<PatternFault>, AllocError>
    ensures { IfOk result (λ o. o ≡ faults.variable_fault conditions.now) }
{
    match impossible(conditions) {
        Some(condition) => {
            let name = condition.variable.as_bytes();
            Ok(Some(fault_at(alloc, PatternPart::Variable, name)?))
        }
        None => Ok(None),
    }
}

/// The first word that is no condition, or else the first variable of which no value meets all conditions.
fn conditions_fault(alloc: Global, words: &[&[u8]]) -> Result<Option<PatternFault>, AllocError>
    ensures { IfOk result (λ o. o ≡ faults.conditions_fault (map (λ w. w.now) words.now)) }
{
    if let Some(fault) = condition_fault(alloc, words)? {
        return Ok(Some(fault));
    }
    match conditions_of(alloc, words)? {
        Some(conditions) => variable_fault(alloc, conditions.as_slice()),
        None => Ok(None),
    }
}

/// What is wrong with the words of a text that is no pattern.
#[tactic(auto, unfolding(crate::specs::PatternFaults::fault_among))]
fn words_fault(alloc: Global, words: &[&[u8]]) -> Result<Option<PatternFault>, AllocError>
    ensures { IfOk result (λ o. o ≡ faults.words_fault (map (λ w. w.now) words.now)) }
{
    let [resource, sign, port, conditions @ ..] = words else {
        return Ok(Some(fault_at(alloc, PatternPart::Words, b"")?));
    };
    if !is_resource(resource) {
        return Ok(Some(fault_at(alloc, PatternPart::Resource, resource)?));
    }
    if way_of(sign).is_none() {
        return Ok(Some(fault_at(alloc, PatternPart::Sign, sign)?));
    }
    if port_of(port).is_none() {
        return Ok(Some(fault_at(alloc, PatternPart::Port, port)?));
    }
    conditions_fault(alloc, conditions)
}

/// What is wrong with a text that is no pattern. Nothing is, exactly if the text is a pattern.
///
/// # Errors
///
/// When memory runs out.
pub fn pattern_fault(alloc: Global, text: &str) -> Result<Option<PatternFault>, AllocError>
    ensures fault { IfOk result (λ o. o ≡ faults.pattern_fault text.now) }
    ensures exact { IfOk result (λ o. is_some o ≡ not (is_some (spec.pattern_of text.now))) }
{
    let text = in_upper(alloc, text.as_bytes())?;
    let words = words_of(alloc, text.as_slice())?;
    words_fault(alloc, words.as_slice())
}
