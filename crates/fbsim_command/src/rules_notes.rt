//! What is reported after the line of a call that holds rules against traces and fails: its location.

ghost use Rattle.std.specs.Prelude.{◌≡◌, IfOk, MatchOption, option_map, string_bytes, true};
ghost use Rattle.fb_types.specs.Headline.{Inputs};
ghost use Rattle.fb_sim.specs.Serial.{Declares};
ghost use Rattle.fbsim_command.specs.Expecting.{AreKnown, IsPlacedNote, NotesNamesFile, NotesRules, SaysLocation, SaysNumber, SaysUnknown, input_names_of, own_of, types_of};
ghost use Rattle.fbsim_command.specs.Notes.{Follows, NotesNumber, noted_of};
ghost use Rattle.fbsim_command.specs.Texts.{given_of, lines_of, may_lines_of};
ghost use Rattle.fbsim_command.specs.OfSystem.{IsUnknownAt, has_names};

use crate::expect::own_name;
use crate::failure::Failure;
use crate::input_notes::InputNames;
use crate::known::unknown_location;
use crate::notes::{matter_at, note_of_file, note_of_number, number_of};
use crate::opening::open_accepted;
use crate::own_lines::placed;
use crate::statuses::Done;
use crate::texts::{Texts, Unread, files_of};
use crate::unknown_pattern::push_why_unknown;
use fb_expect::{
    Pattern, Rule, RuleKey, RulesError, RulesLocation, UNKNOWN_NAME, key_text, pattern_keys,
    read_rules, rules_location,
};
use fb_read_positions::{Text, place_between};
use fb_sim::discard;
use fb_system::System;
use fb_why::{location_span, pattern_message, rule_span, rules_message, unknown_key_message};
use fbsim_line::Expect;
use std::alloc::{AllocError, Global};

/// The first number of a refusal of rules. Those below are of declarations, deployments and stimuli.
const FIRST_OF_RULES: u8 = 40;

/// The note to a file of the declaration, which is not read, where one is asked for.
pub(crate) fn note_of_names(
    alloc: Global,
    expect: &Expect<'_>,
    unread: Unread,
) -> Result<Option<String>, AllocError>
    ensures { IfOk (noted_of result) (NotesNamesFile expect.now expect.now.declaration unread.part unread.fault) }
{
    match expect.declaration {
        Some(declaration) => {
            let types = expect.types.as_slice();
            note_of_file(
                alloc,
                types,
                &files_of(declaration, expect.deploy, expect.why),
                unread,
            )
        }
        None => Ok(None),
    }
}

/// The words with the place of a key of a rule before them, and its source line after them.
fn note_at_key(
    alloc: Global,
    expect: &Expect<'_>,
    number: u8,
    bytes: &[u8],
    at: (usize, RuleKey),
    words: &str,
) -> Result<String, AllocError>
    ensures { IfOk result (λ note. IsPlacedNote expect.now.rules.now (string_bytes note)) }
{
    let span = rule_span(bytes, at.0, at.1);
    note_at_span(alloc, expect, number, bytes, span, words)
}

/// The number of a refusal, and the words.
fn numbered(alloc: Global, number: u8, words: &str) -> Result<String, AllocError> {
    let tens = number / 10;
    let ones = number % 10;
    Ok(format!(in alloc; "E{tens}{ones}: {words}")?)
}

/// The words with the place of these bytes of the rules before them, and its source line after them.
fn note_at_span(
    alloc: Global,
    expect: &Expect<'_>,
    number: u8,
    bytes: &[u8],
    span: (usize, usize),
    words: &str,
) -> Result<String, AllocError>
    ensures { IfOk result (λ note. IsPlacedNote expect.now.rules.now (string_bytes note)) }
{
    match place_between(bytes, span.0, span.1) {
        Some(place) => {
            let matter = matter_at(alloc, number, words, bytes, place)?;
            let column = place.column as u128;
            placed(alloc, expect.rules, place.line, column, matter.as_str())
        }
        // Nothing of the rules is nearer.
        None => {
            let matter = numbered(alloc, number, words)?;
            placed(alloc, expect.rules, 1, 1, matter.as_str())
        }
    }
}

/// What is wrong at this location of rules, in words.
fn words_of(alloc: Global, bytes: &[u8], location: RulesLocation) -> Result<String, AllocError> {
    match location {
        RulesLocation::Pattern { rule, key } => pattern_message(alloc, bytes, rule, key),
        _ => rules_message(alloc, bytes, location),
    }
}

/// What is wrong at this location of rules, with its place if it has one.
fn note_of_fault(
    alloc: Global,
    expect: &Expect<'_>,
    bytes: &[u8],
    location: RulesLocation,
) -> Result<String, AllocError> {
    let words = words_of(alloc, bytes, location)?;
    match location_span(alloc, bytes, location) {
        Some(span) => {
            let number = location.number();
            note_at_span(alloc, expect, number, bytes, span, words.as_str())
        }
        None => Ok(words),
    }
}

/// Where rules are refused with this number.
fn note_of_location(
    alloc: Global,
    expect: &Expect<'_>,
    number: u8,
    bytes: &[u8],
) -> Result<Option<String>, AllocError>
    ensures { IfOk (noted_of result) (SaysLocation bytes.now number) }
{
    let Some(location) = rules_location(alloc, bytes)? else {
        return Ok(None);
    };
    if location.number() != number {
        return Ok(None);
    }
    Ok(Some(note_of_fault(alloc, expect, bytes, location)?))
}

/// The pattern at a key of a rule.
fn pattern_at(rule: &Rule, key: RuleKey) -> &Pattern {
    let (_, second) = pattern_keys(rule.need);
    let found = match key {
        RuleKey::To => rule.third.as_ref(),
        _ if key_text(key) == key_text(second) => rule.second.as_ref(),
        _ => None,
    };
    found.unwrap_or(&rule.first)
}

/// The first rule with a pattern for which what is declared has no event, its key, and what is lacking.
fn unknown_of(
    alloc: Global,
    expect: &Expect<'_>,
    texts: &Texts,
    rules: &[Rule],
) -> Result<Option<(usize, RuleKey, String)>, AllocError>
    ensures { IfOk result (λ o. MatchOption o (AreKnown (given_of texts.now) rules.now) (λ p. (i : Inputs) × Declares (given_of texts.now) i × IsUnknownAt i rules.now p.0 p.1)) }
{
    let Some(system) = open_accepted(alloc, &texts.inputs())? else {
        return Ok(None);
    };
    let found = why_unknown(alloc, &system, rules, expect.deploy.is_some());
    // Dropped by one call: the end of its scope would prove the drop part by part.
    discard(system);
    found
}

/// The same of a system.
fn why_unknown(
    alloc: Global,
    system: &System,
    rules: &[Rule],
    has_deployment: bool,
) -> Result<Option<(usize, RuleKey, String)>, AllocError>
    ensures { IfOk result (λ o. MatchOption o (has_names system.now rules.now ≡ true) (λ p. IsUnknownAt system.now rules.now p.0 p.1)) }
{
    let Some((rule, key)) = unknown_location(alloc, system, rules)? else {
        return Ok(None);
    };
    let mut text = Text::new(alloc);
    if let Some(found) = rules.get(rule) {
        push_why_unknown(
            alloc,
            &mut text,
            system,
            pattern_at(found, key),
            has_deployment,
        )?;
    }
    Ok(Some((rule, key, text.into_string()?)))
}

/// The note to a key of this rule, whose pattern is unknown for this reason.
fn note_of_key(
    alloc: Global,
    expect: &Expect<'_>,
    bytes: &[u8],
    rule: &Rule,
    at: (usize, RuleKey),
    why: &str,
) -> Result<String, AllocError> {
    let pattern = pattern_at(rule, at.1).text.as_slice();
    let name = rule.name.as_slice();
    let words = unknown_key_message(alloc, at.0, name, at.1, pattern, why)?;
    note_at_key(alloc, expect, UNKNOWN_NAME, bytes, at, words.as_str())
}

/// Which pattern of the rules is unknown to what is declared.
fn note_of_unknown(
    alloc: Global,
    expect: &Expect<'_>,
    bytes: &[u8],
    texts: &Texts,
) -> Result<Option<String>, AllocError>
    ensures { IfOk (noted_of result) (SaysUnknown bytes.now (given_of texts.now)) }
{
    let rules = match read_rules(alloc, bytes) {
        Ok(rules) => rules,
        Err(error) => {
            return match error {
                RulesError::Memory => Err(AllocError),
                _ => Ok(None),
            };
        }
    };
    let rules = rules.as_slice();
    match unknown_of(alloc, expect, texts, rules)? {
        Some((rule, key, why)) => {
            let at = (rule, key);
            let note = note_of_key(alloc, expect, bytes, &rules[rule], at, why.as_str())?;
            Ok(Some(note))
        }
        None => Ok(None),
    }
}

/// Where the declaration of a call is refused with this number.
fn note_of_plan(
    alloc: Global,
    expect: &Expect<'_>,
    number: u8,
    texts: &Texts,
) -> Result<Option<String>, AllocError>
    ensures { IfOk (noted_of result) (NotesNumber (types_of expect.now) (own_of expect.now.declaration) (input_names_of expect.now) (lines_of texts.now) (given_of texts.now) number) }
{
    let own = own_name(expect.declaration);
    let names = InputNames {
        deploy: expect.deploy,
        stimuli: None,
    };
    note_of_number(alloc, expect.types.as_slice(), own, &names, number, texts)
}

/// Where a call that has read these files is refused with this number.
fn note_at(
    alloc: Global,
    expect: &Expect<'_>,
    number: u8,
    bytes: &[u8],
    declared: &Option<Texts>,
) -> Result<Option<String>, AllocError>
    ensures { IfOk (noted_of result) (SaysNumber expect.now bytes.now (may_lines_of declared.now) (option_map given_of declared.now) number) }
{
    let Some(texts) = declared else {
        return note_of_location(alloc, expect, number, bytes);
    };
    if number == UNKNOWN_NAME {
        return note_of_unknown(alloc, expect, bytes, texts);
    }
    if number < FIRST_OF_RULES {
        return note_of_plan(alloc, expect, number, texts);
    }
    note_of_location(alloc, expect, number, bytes)
}

/// The note to a call that has read these files and ends so, where one is asked for.
fn note_to_rules(
    alloc: Global,
    expect: &Expect<'_>,
    end: &Result<Done, Failure>,
    bytes: &[u8],
    declared: &Option<Texts>,
) -> Result<Option<String>, AllocError>
    ensures { IfOk (noted_of result) (NotesRules expect.now bytes.now (may_lines_of declared.now) (option_map given_of declared.now) end.now) }
{
    let Err(failure) = end else {
        return Ok(None);
    };
    if !expect.why {
        return Ok(None);
    }
    match number_of(failure) {
        Some(number) => note_at(alloc, expect, number, bytes, declared),
        None => Ok(None),
    }
}

/// The note to a call that has read these files and ends so: that of a trace whose file fails, if there is one, or that
/// of the rules.
pub(crate) fn note_to_held(
    alloc: Global,
    expect: &Expect<'_>,
    end: &Result<Done, Failure>,
    bytes: &[u8],
    declared: &Option<Texts>,
    trace: Result<Option<String>, AllocError>,
) -> Result<Option<String>, AllocError>
    ensures { Follows (noted_of trace) (NotesRules expect.now bytes.now (may_lines_of declared.now) (option_map given_of declared.now) end.now) (noted_of result) }
{
    match trace? {
        Some(note) => Ok(Some(note)),
        None => note_to_rules(alloc, expect, end, bytes, declared),
    }
}
