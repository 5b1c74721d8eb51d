//! Rules, as a document of TOML has them.

ghost use Rattle.std.specs.Prelude.{◌≡◌, IfOk, is_some, map, option_map};
ghost use Rattle.std.specs.List.{list_all};
ghost use Rattle.toml.specs.View.{table_view, view};
ghost use Rattle.fb_expect.specs.Drafts.{text_in, text_of, texts_in};
ghost use Rattle.fb_expect.specs.Lists as lists;
ghost use Rattle.fb_expect.specs.Needs as needs;
ghost use Rattle.fb_expect.specs.Reading as spec;
ghost use Rattle.fb_expect.specs.Refusals.{Answers, no_document, or_refuse};
ghost use Rattle.fb_expect.specs.Written as written;

use crate::document::{Draft, NeedDraft, drafts_of, text_or_none};
use crate::error::RulesError;
use crate::names::is_name;
use crate::own_names::second_of_name;
use crate::pattern::{Pattern, in_upper, pattern_of};
use crate::rule::{Need, Pairing, Rule};
use fb_types::{Items, LATEST_TICK, MOST_BYTES, Name};
use std::alloc::{AllocError, Global};
use toml::{Table, Value};

/// The most rules of a document.
pub const MOST_RULES: usize = 1000;

/// The document that the bytes are.
fn document(alloc: Global, bytes: &[u8]) -> Result<Table, RulesError>
    ensures { Answers (λ t. table_view t) (or_refuse no_document (spec.document bytes.now)) result }
{
    match toml::table_from_slice(alloc, bytes) {
        Ok(keys) => Ok(keys),
        Err(error) => {
            if error.is_memory() {
                Err(RulesError::Memory)
            } else {
                Err(RulesError::Document)
            }
        }
    }
}

/// A number from `least` to the latest tick.
fn within(least: u64, number: i64) -> Option<u64>
    ensures { result ≡ needs.within least number }
{
    if number < 0 {
        return None;
    }
    let number = number.unsigned_abs();
    if least <= number && number <= LATEST_TICK {
        Some(number)
    } else {
        None
    }
}

/// The same of a number that may be absent.
pub(crate) fn may_within(least: u64, number: Option<i64>) -> Option<Option<u64>>
    ensures { result ≡ lists.may (needs.within least) number }
{
    match number {
        Some(number) => match within(least, number) {
            Some(number) => Some(Some(number)),
            None => None,
        },
        None => Some(None),
    }
}

/// Whether the least is not over the most. Without a most it is not 0, which asks for nothing.
fn is_asked(least: u64, most: Option<u64>) -> bool
    ensures { result ≡ needs.is_asked least most }
{
    match most {
        Some(most) => least <= most,
        None => least != 0,
    }
}

/// What a rule that counts asks for, if it asks for something.
fn count_need(least: u64, most: Option<u64>, every: Option<u64>) -> Option<Need>
    ensures { result ≡ needs.count_need least most every }
{
    if is_asked(least, most) {
        Some(Need::Count { least, most, every })
    } else {
        None
    }
}

/// What a rule that counts asks for, where its numbers are in range.
#[tactic(auto, unfolding(crate::specs::Needs::count_of))]
fn count_of(least: Option<i64>, most: Option<i64>, every: Option<i64>) -> Option<Need>
    ensures { result ≡ needs.count_of least most every }
{
    let least = may_within(0, least)?.unwrap_or(0);
    let most = may_within(0, most)?;
    let every = may_within(1, every)?;
    count_need(least, most, every)
}

/// What a rule asks for, where its numbers are in range.
#[tactic(auto, unfolding(crate::specs::Needs::need_of))]
pub(crate) fn need_of(need: NeedDraft) -> Option<Need>
    ensures { result ≡ needs.need_of need }
{
    match need {
        NeedDraft::See { within: ticks } => Some(Need::See {
            within: within(0, ticks)?,
        }),
        NeedDraft::Not { within: ticks } => Some(Need::Not {
            within: within(0, ticks)?,
        }),
        NeedDraft::Before { within: ticks } => Some(Need::Before {
            within: within(0, ticks)?,
        }),
        NeedDraft::Never { from_start } => Some(Need::Never { from_start }),
        NeedDraft::Count { least, most, every } => count_of(least, most, every),
    }
}

/// The pattern that a text is, if it is one. For an absent text the answer is `Some(None)`.
fn may_pattern(alloc: Global, text: Option<&str>) -> Result<Option<Option<Pattern>>, AllocError>
    ensures { IfOk result (λ p. p ≡ lists.may written.pattern_of (option_map (λ t. t.now) text.entry)) }
{
    match text {
        Some(text) => match pattern_of(alloc, text)? {
            Some(pattern) => Ok(Some(Some(pattern))),
            None => Ok(None),
        },
        None => Ok(Some(None)),
    }
}

/// Whether a text is a pattern.
pub(crate) fn is_pattern(alloc: Global, text: &str) -> Result<bool, AllocError>
    ensures { IfOk result (λ b. b ≡ is_some (written.pattern_of text.now)) }
{
    Ok(pattern_of(alloc, text)?.is_some())
}

/// The same of a text that may be absent.
pub(crate) fn may_be_pattern(alloc: Global, text: Option<&str>) -> Result<bool, AllocError>
    ensures { IfOk result (λ b. b ≡ is_some (lists.may written.pattern_of (option_map (λ t. t.now) text.entry))) }
{
    match text {
        Some(text) => is_pattern(alloc, text),
        None => Ok(true),
    }
}

/// The name that a value is, in any letter case, if it is a text and a name.
fn name_of(alloc: Global, value: &Value) -> Result<Option<Name>, AllocError>
    ensures { IfOk result (λ n. n ≡ needs.name_of (text_in (view value.now))) }
{
    let text = in_upper(alloc, text_or_none(value).as_bytes())?;
    if is_name(text.as_slice()) {
        Ok(Some(Name::from_slice(alloc, text.as_slice())?))
    } else {
        Ok(None)
    }
}

/// The names that values are, if all are.
fn names_of(alloc: Global, values: &[Value]) -> Result<Option<Items<Name>>, AllocError>
    ensures { IfOk result (λ ns. ns ≡ lists.each needs.name_of (texts_in (map view values.now))) }
{
    let mut names = Items::new(alloc);
    for value in values {
        match name_of(alloc, value)? {
            Some(name) => names.push(name)?,
            None => return Ok(None),
        }
    }
    Ok(Some(names))
}

/// The names that the texts of `same` are, if all are. For absent texts the answer is `Some(None)`.
fn same_names(alloc: Global, draft: &Draft<'_>) -> Result<Option<Option<Items<Name>>>, AllocError>
    ensures { IfOk result (λ ns. ns ≡ needs.names_of (text_of draft.now).same) }
{
    match draft.same {
        Some(values) => match names_of(alloc, values)? {
            Some(names) => Ok(Some(Some(names))),
            None => Ok(None),
        },
        None => Ok(Some(None)),
    }
}

/// How a rule pairs lines, by these names if there are any.
fn pairing_by(alloc: Global, names: Option<Items<Name>>, is_each: bool) -> Option<Pairing>
    ensures { result ≡ needs.pairing_by names is_each }
{
    match names {
        Some(same) => Some(Pairing { same, is_each }),
        None => {
            if is_each {
                Some(Pairing {
                    same: Items::new(alloc),
                    is_each,
                })
            } else {
                None
            }
        }
    }
}

/// How a rule pairs lines, if the texts of `same` are names.
#[tactic(auto, unfolding(crate::specs::Needs::pairing_of))]
fn pairing_of(alloc: Global, draft: &Draft<'_>) -> Result<Option<Option<Pairing>>, AllocError>
    ensures { IfOk result (λ p. p ≡ needs.pairing_of (text_of draft.now)) }
{
    match same_names(alloc, draft)? {
        Some(names) => Ok(Some(pairing_by(alloc, names, draft.turns.unwrap_or(false)))),
        None => Ok(None),
    }
}

/// The pattern with the condition that a line has the variables whose values a rule compares.
fn with_names(
    alloc: Global,
    pattern: Pattern,
    pairing: &Option<Pairing>,
) -> Result<Pattern, AllocError>
    ensures { IfOk result (λ p. p ≡ needs.with_names (needs.names_in pairing.now) pattern) }
{
    match pairing {
        Some(pairing) => pattern.with_names(alloc, pairing.same.as_slice()),
        None => Ok(pattern),
    }
}

/// The same of a pattern that may be absent.
fn may_with_names(
    alloc: Global,
    pattern: Option<Pattern>,
    pairing: &Option<Pairing>,
) -> Result<Option<Pattern>, AllocError>
    ensures { IfOk result (λ o. o ≡ option_map (needs.with_names (needs.names_in pairing.now)) pattern) }
{
    match pattern {
        Some(pattern) => Ok(Some(with_names(alloc, pattern, pairing)?)),
        None => Ok(None),
    }
}

/// Whether the texts of `same` are names.
pub(crate) fn has_names(alloc: Global, draft: &Draft<'_>) -> Result<bool, AllocError>
    ensures { IfOk result (λ b. b ≡ is_some (needs.names_of (text_of draft.now).same)) }
{
    Ok(same_names(alloc, draft)?.is_some())
}

/// Whether all texts of a rule that must be patterns are patterns, and those of `same` names.
#[tactic(auto, unfolding(crate::specs::Needs::has_patterns))]
fn has_patterns(alloc: Global, draft: &Draft<'_>) -> Result<bool, AllocError>
    ensures { IfOk result (λ b. b ≡ needs.has_patterns (text_of draft.now)) }
{
    let first = is_pattern(alloc, draft.first)?;
    let second = may_be_pattern(alloc, draft.second)?;
    let third = may_be_pattern(alloc, draft.third)?;
    let same = has_names(alloc, draft)?;
    Ok(first && second && third && same)
}

/// The same of all rules.
fn all_have_patterns(alloc: Global, drafts: &[Draft<'_>]) -> Result<bool, AllocError>
    ensures { IfOk result (λ b. b ≡ list_all needs.has_patterns (map text_of drafts.now)) }
{
    for draft in drafts {
        if !has_patterns(alloc, draft)? {
            return Ok(false);
        }
    }
    Ok(true)
}

/// A rule, where its numbers are in range and its texts are patterns.
#[tactic(auto, unfolding(crate::specs::Needs::rule_of))]
fn rule_of(alloc: Global, draft: &Draft<'_>) -> Result<Option<Rule>, AllocError>
    ensures { IfOk result (λ r. r ≡ needs.rule_of (text_of draft.now)) }
{
    let Some(need) = need_of(draft.need) else {
        return Ok(None);
    };
    let Some(first) = pattern_of(alloc, draft.first)? else {
        return Ok(None);
    };
    let Some(second) = may_pattern(alloc, draft.second)? else {
        return Ok(None);
    };
    let Some(third) = may_pattern(alloc, draft.third)? else {
        return Ok(None);
    };
    let Some(pairing) = pairing_of(alloc, draft)? else {
        return Ok(None);
    };
    Ok(Some(Rule {
        name: Items::from_slice(alloc, draft.name.as_bytes())?,
        need,
        first: with_names(alloc, first, &pairing)?,
        second: may_with_names(alloc, second, &pairing)?,
        third,
        pairing,
    }))
}

/// All rules, where all numbers are in range and all texts are patterns.
fn each_rule(alloc: Global, drafts: &[Draft<'_>]) -> Result<Option<Items<Rule>>, AllocError>
    ensures { IfOk result (λ rs. rs ≡ lists.each needs.rule_of (map text_of drafts.now)) }
{
    let mut rules = Items::new(alloc);
    for draft in drafts {
        match rule_of(alloc, draft)? {
            Some(rule) => rules.push(rule)?,
            None => return Ok(None),
        }
    }
    Ok(Some(rules))
}

/// The rules of drafts. All patterns are judged before any number is, and names last.
#[tactic(auto, unfolding(crate::specs::Reading::rules_of_drafts))]
fn rules_of_drafts(alloc: Global, drafts: &[Draft<'_>]) -> Result<Items<Rule>, RulesError>
    ensures { Answers (λ rs. rs) (spec.rules_of_drafts (map text_of drafts.now)) result }
{
    if !all_have_patterns(alloc, drafts)? {
        return Err(RulesError::Pattern);
    }
    let Some(rules) = each_rule(alloc, drafts)? else {
        return Err(RulesError::Number);
    };
    if MOST_RULES < rules.len() {
        return Err(RulesError::Limit);
    }
    if second_of_name(drafts).is_some() {
        return Err(RulesError::Shape);
    }
    Ok(rules)
}

/// The rules of a document.
fn of_document(alloc: Global, keys: &Table) -> Result<Items<Rule>, RulesError>
    ensures { Answers (λ rs. rs) (spec.of_document (table_view keys.now)) result }
{
    match drafts_of(alloc, keys)? {
        Some(drafts) => rules_of_drafts(alloc, drafts.as_slice()),
        None => Err(RulesError::Shape),
    }
}

/// The rules that bytes of TOML give.
///
/// # Errors
/// The first of these that applies to the whole document:
///
/// - E40: more than 1 MiB.
/// - E41: not TOML.
/// - E42: a key that is missing, unknown or of the wrong kind.
/// - E43: a text that is no pattern, or one of `same` that is no name.
/// - E44: a number out of its range.
/// - E40: more than 1,000 rules.
/// - E42: a second rule of one name.
///
/// `Memory` if memory runs out.
#[tactic(auto, unfolding(crate::specs::Reading::rules_of))]
pub fn read_rules(alloc: Global, bytes: &[u8]) -> Result<Items<Rule>, RulesError>
    ensures { Answers (λ rs. rs) (spec.rules_of bytes.now) result }
{
    if bytes.len() > MOST_BYTES {
        return Err(RulesError::Limit);
    }
    let keys = document(alloc, bytes)?;
    of_document(alloc, &keys)
}
