//! Where rules are refused.

ghost use Rattle.std.specs.Prelude.{◌≡◌, IfNone, IfOk, IfSome, None, Some, if◌then◌else◌, is_some, map, not, option_map, true};
ghost use Rattle.std.specs.List.{list_all};
ghost use Rattle.toml.specs.View.{table_view, view};
ghost use Rattle.fb_expect.specs.Drafts.{text_of};
ghost use Rattle.fb_expect.specs.Locations as spec;
ghost use Rattle.fb_expect.specs.Needs as needs;
ghost use Rattle.fb_expect.specs.Reading as reading;
ghost use Rattle.fb_expect.specs.OwnNames.{have_own_names};
ghost use Rattle.fb_expect.specs.Refusals.{bad_pattern, bad_shape};

use crate::document::{Draft, NeedDraft, draft_of, drafts_of, rules_in, text_values};
use crate::own_names::second_of_name;
use crate::rule::Need;
use crate::rules::{MOST_RULES, has_names, is_pattern, may_be_pattern, may_within, need_of};
use fb_types::MOST_BYTES;
use std::alloc::{AllocError, Global};
use toml::{Table, Value};

/// A key of a rule.
#[derive(Clone, Copy)]
pub enum RuleKey {
    Name,
    After,
    Before,
    Never,
    Count,
    See,
    Not,
    Within,
    From,
    To,
    Least,
    Most,
    Every,
    Same,
    Each,
}

/// What is wrong with the shape of a rule.
#[derive(Clone, Copy)]
pub enum RuleFault {
    /// It is no table.
    NoTable,
    /// It has none of the keys `after`, `before`, `never` and `count`.
    NoForm,
    /// A key is missing. Of `see` and `not`, and of `least` and `most`, both are; then it is the latter.
    Missing(RuleKey),
    /// The value of a key is not of its kind.
    Wrong(RuleKey),
    /// There are unknown keys.
    Further,
}

/// Where rules are refused. Rules are counted from 0.
#[derive(Clone, Copy)]
pub enum RulesLocation {
    /// There are too many bytes (E40).
    Bytes,
    /// The bytes are not TOML; the reader found this at this byte, or past the last one (E41).
    Document(usize),
    /// There is no array of rules with one or more, or there are keys next to it (E42).
    List,
    /// The shape of a rule is not right (E42).
    Rule { rule: usize, fault: RuleFault },
    /// The text at a key of a rule is no pattern (E43).
    Pattern { rule: usize, key: RuleKey },
    /// The number at a key of a rule is out of its range (E44).
    Number { rule: usize, key: RuleKey },
    /// There are too many rules (E40).
    Crowded,
    /// The name of a rule is that of a rule before it (E42).
    Repeated { rule: usize },
}

impl RulesLocation {
    /// The number of the refusal, 40 to 44.
    pub fn number(self) -> u8
        ensures { result ≡ spec.number_at self }
    {
        match self {
            RulesLocation::Bytes | RulesLocation::Crowded => 40,
            RulesLocation::Document(_) => 41,
            RulesLocation::List | RulesLocation::Rule { .. } | RulesLocation::Repeated { .. } => 42,
            RulesLocation::Pattern { .. } => 43,
            RulesLocation::Number { .. } => 44,
        }
    }
}

/// The keys of the first text and of the second text of a rule that are patterns; the third is that of `to`.
pub fn pattern_keys(need: Need) -> (RuleKey, RuleKey)
    ensures { result ≡ spec.pattern_keys need }
{
    match need {
        Need::See { .. } => (RuleKey::After, RuleKey::See),
        Need::Not { .. } => (RuleKey::After, RuleKey::Not),
        Need::Before { .. } => (RuleKey::Before, RuleKey::See),
        Need::Never { .. } => (RuleKey::Never, RuleKey::From),
        Need::Count { .. } => (RuleKey::Count, RuleKey::From),
    }
}

/// The text of a key.
pub fn key_text(key: RuleKey) -> &'static str
    ensures { result.now ≡ spec.name_of key }
{
    match key {
        RuleKey::Name => "name",
        RuleKey::After => "after",
        RuleKey::Before => "before",
        RuleKey::Never => "never",
        RuleKey::Count => "count",
        RuleKey::See => "see",
        RuleKey::Not => "not",
        RuleKey::Within => "within",
        RuleKey::From => "from",
        RuleKey::To => "to",
        RuleKey::Least => "least",
        RuleKey::Most => "most",
        RuleKey::Every => "every",
        RuleKey::Same => "same",
        RuleKey::Each => "each",
    }
}

/// The value at a key.
fn value_at<'a>(keys: &'a Table, key: RuleKey) -> Option<&'a Value>
    ensures { option_map (λ v. view v.now) result ≡ spec.value_at (table_view keys.entry.now) key }
{
    keys.get(key_text(key))
}

/// Whether a value is of the kind of a key.
fn is_of_kind(key: RuleKey, value: &Value) -> bool
    ensures { result ≡ spec.is_of_kind key (view value.now) }
{
    match key {
        RuleKey::Within | RuleKey::Least | RuleKey::Most | RuleKey::Every => {
            value.as_integer().is_some()
        }
        RuleKey::Same => text_values(value).is_some(),
        RuleKey::Each => value.as_bool().is_some(),
        _ => value.as_str().is_some(),
    }
}

/// What is wrong with the value at a key, where there is one.
fn kind_fault(keys: &Table, key: RuleKey) -> Option<RuleFault>
    ensures { IfSome result (spec.IsFault (table_view keys.now)) }
{
    let value = value_at(keys, key)?;
    if is_of_kind(key, value) {
        None
    } else {
        Some(RuleFault::Wrong(key))
    }
}

/// What is wrong with a key that must be there.
fn key_fault(keys: &Table, key: RuleKey) -> Option<RuleFault>
    ensures { IfSome result (spec.IsFault (table_view keys.now)) }
{
    match value_at(keys, key) {
        Some(_) => kind_fault(keys, key),
        None => Some(RuleFault::Missing(key)),
    }
}

/// What is wrong where one of two keys must be there.
fn either_fault(keys: &Table, first: RuleKey, second: RuleKey) -> Option<RuleFault>
    ensures { IfSome result (spec.IsFault (table_view keys.now)) }
{
    match value_at(keys, first) {
        Some(_) => kind_fault(keys, first),
        None => key_fault(keys, second),
    }
}

/// What is wrong with the keys of a rule that say how it pairs lines. With `not` they are further keys.
fn pairing_fault(keys: &Table) -> Option<RuleFault>
    ensures { IfSome result (spec.IsFault (table_view keys.now)) }
{
    if value_at(keys, RuleKey::See).is_none() {
        return None;
    }
    kind_fault(keys, RuleKey::Same).or(kind_fault(keys, RuleKey::Each))
}

/// What is wrong with a rule `after`.
fn after_fault(keys: &Table) -> Option<RuleFault>
    ensures { IfSome result (spec.IsFault (table_view keys.now)) }
{
    key_fault(keys, RuleKey::Within)
        .or(either_fault(keys, RuleKey::See, RuleKey::Not))
        .or(pairing_fault(keys))
}

/// What is wrong with a rule `count`.
fn count_fault(keys: &Table) -> Option<RuleFault>
    ensures { IfSome result (spec.IsFault (table_view keys.now)) }
{
    kind_fault(keys, RuleKey::Most)
        .or(kind_fault(keys, RuleKey::Every))
        .or(either_fault(keys, RuleKey::Least, RuleKey::Most))
}

/// What is wrong with the keys of a rule of a form, also that of the form.
fn rest_fault(keys: &Table, form: RuleKey) -> Option<RuleFault>
    ensures { IfSome result (spec.IsFault (table_view keys.now)) }
{
    match form {
        RuleKey::After => after_fault(keys),
        RuleKey::Before => key_fault(keys, RuleKey::Within).or(key_fault(keys, RuleKey::See)),
        RuleKey::Never => kind_fault(keys, RuleKey::From).or(kind_fault(keys, RuleKey::To)),
        _ => count_fault(keys),
    }
}

/// What is wrong with a rule of a form: a key with its value, or else that there are further keys.
fn form_fault(keys: &Table, form: RuleKey) -> RuleFault
    ensures { spec.IsFault (table_view keys.now) result }
{
    match kind_fault(keys, form).or(rest_fault(keys, form)) {
        Some(fault) => fault,
        None => RuleFault::Further,
    }
}

/// The first of the keys of the forms that a table has.
fn form_at(keys: &Table) -> Option<RuleKey>
    ensures { result ≡ spec.form_at (table_view keys.now) }
{
    if value_at(keys, RuleKey::After).is_some() {
        Some(RuleKey::After)
    } else if value_at(keys, RuleKey::Before).is_some() {
        Some(RuleKey::Before)
    } else if value_at(keys, RuleKey::Never).is_some() {
        Some(RuleKey::Never)
    } else if value_at(keys, RuleKey::Count).is_some() {
        Some(RuleKey::Count)
    } else {
        None
    }
}

/// What is wrong with a table whose shape is not that of a rule.
fn table_fault(keys: &Table) -> RuleFault
    ensures { spec.IsFault (table_view keys.now) result }
{
    if let Some(fault) = key_fault(keys, RuleKey::Name) {
        return fault;
    }
    match form_at(keys) {
        Some(form) => form_fault(keys, form),
        None => RuleFault::NoForm,
    }
}

/// What is wrong with a value whose shape is not that of a rule.
fn fault_of(value: &Value) -> RuleFault
    ensures { spec.IsFaultOf (view value.now) result }
{
    match value.as_table() {
        Some(keys) => table_fault(keys),
        None => RuleFault::NoTable,
    }
}

/// What is wrong with the shape of a rule.
fn rule_fault(value: &Value) -> Option<RuleFault>
    ensures fault { IfSome result (spec.IsRuleFault (view value.now)) }
    ensures none { IfNone result (spec.has_shape (view value.now) ≡ true) }
{
    match draft_of(value) {
        Some(_) => None,
        None => Some(fault_of(value)),
    }
}

/// The first rule whose shape is wrong.
fn shape_location(values: &[Value]) -> Option<RulesLocation>
    ensures among { IfSome result (spec.IsAmongValues (map view values.now)) }
    ensures none { IfNone result (list_all spec.has_shape (map view values.now) ≡ true) }
{
    for (rule, value) in values.iter().enumerate() {
        if let Some(fault) = rule_fault(value) {
            return Some(RulesLocation::Rule { rule, fault });
        }
    }
    None
}

/// The key of the first text of a rule.
fn first_key(need: NeedDraft) -> RuleKey
    ensures { result ≡ spec.first_key need }
{
    match need {
        NeedDraft::See { .. } | NeedDraft::Not { .. } => RuleKey::After,
        NeedDraft::Before { .. } => RuleKey::Before,
        NeedDraft::Never { .. } => RuleKey::Never,
        NeedDraft::Count { .. } => RuleKey::Count,
    }
}

/// The key of its second text.
fn second_key(need: NeedDraft) -> RuleKey
    ensures { result ≡ spec.second_key need }
{
    match need {
        NeedDraft::See { .. } | NeedDraft::Before { .. } => RuleKey::See,
        NeedDraft::Not { .. } => RuleKey::Not,
        NeedDraft::Never { .. } | NeedDraft::Count { .. } => RuleKey::From,
    }
}

/// The key of the first text of a rule that is no pattern, or else that of `same` where a text is no name.
#[tactic(auto, unfolding(crate::specs::Needs::has_patterns))]
fn pattern_key(alloc: Global, draft: &Draft<'_>) -> Result<Option<RuleKey>, AllocError>
    ensures fault { IfOk result (λ o. IfSome o (spec.IsPatternFault (text_of draft.now))) }
    ensures exact { IfOk result (λ o. is_some o ≡ not (needs.has_patterns (text_of draft.now))) }
{
    if !is_pattern(alloc, draft.first)? {
        return Ok(Some(first_key(draft.need)));
    }
    if !may_be_pattern(alloc, draft.second)? {
        return Ok(Some(second_key(draft.need)));
    }
    if !may_be_pattern(alloc, draft.third)? {
        return Ok(Some(RuleKey::To));
    }
    if !has_names(alloc, draft)? {
        return Ok(Some(RuleKey::Same));
    }
    Ok(None)
}

/// The first rule with a text that is no pattern.
fn pattern_location(
    alloc: Global,
    drafts: &[Draft<'_>],
) -> Result<Option<RulesLocation>, AllocError>
    ensures among { IfOk result (λ o. IfSome o (spec.IsAmongTexts (map text_of drafts.now))) }
    ensures exact { IfOk result (λ o. option_map spec.number_at o ≡ (if list_all needs.has_patterns (map text_of drafts.now) then None else Some bad_pattern)) }
{
    for (rule, draft) in drafts.iter().enumerate() {
        if let Some(key) = pattern_key(alloc, draft)? {
            return Ok(Some(RulesLocation::Pattern { rule, key }));
        }
    }
    Ok(None)
}

/// The key of the first number of a rule that counts which is out of its range. Or else that of the least without a
/// most, which is 0, or of the most, which is under the least.
fn count_key(least: Option<i64>, most: Option<i64>, every: Option<i64>) -> RuleKey
    ensures { spec.IsCountKey least most every result }
{
    if may_within(0, least).is_none() {
        RuleKey::Least
    } else if may_within(1, every).is_none() {
        RuleKey::Every
    } else if most.is_none() {
        RuleKey::Least
    } else {
        RuleKey::Most
    }
}

/// The key of a number of a rule, one of which is out of its range.
fn number_key_of(need: NeedDraft) -> RuleKey
    ensures { spec.IsNumberKey need result }
{
    match need {
        NeedDraft::Count { least, most, every } => count_key(least, most, every),
        _ => RuleKey::Within,
    }
}

/// The key of the number of a rule that is out of its range.
fn number_key(draft: &Draft<'_>) -> Option<RuleKey>
    ensures fault { IfSome result (spec.IsNumberFault (text_of draft.now)) }
    ensures none { IfNone result (spec.has_numbers (text_of draft.now) ≡ true) }
{
    match need_of(draft.need) {
        Some(_) => None,
        None => Some(number_key_of(draft.need)),
    }
}

/// The first rule with the name of a rule before it.
fn name_location(drafts: &[Draft<'_>]) -> Option<RulesLocation>
    ensures among { IfSome result (spec.IsAmongTexts (map text_of drafts.now)) }
    ensures exact { option_map spec.number_at result ≡ (if have_own_names (map text_of drafts.now) then None else Some bad_shape) }
{
    match second_of_name(drafts) {
        Some(rule) => Some(RulesLocation::Repeated { rule }),
        None => None,
    }
}

/// The first rule with a number out of its range, or that there are too many rules, or the first with the name of a rule
/// before it.
fn number_location(drafts: &[Draft<'_>]) -> Option<RulesLocation>
    ensures among { IfSome result (spec.IsAmongTexts (map text_of drafts.now)) }
    ensures exact { list_all needs.has_patterns (map text_of drafts.now) ≡ true → option_map spec.number_at result ≡ spec.refusal_of (spec.numbers_judged (map text_of drafts.now)) }
{
    for (rule, draft) in drafts.iter().enumerate() {
        if let Some(key) = number_key(draft) {
            return Some(RulesLocation::Number { rule, key });
        }
    }
    if MOST_RULES < drafts.len() {
        Some(RulesLocation::Crowded)
    } else {
        name_location(drafts)
    }
}

/// Where rules with the right shape are refused.
#[tactic(auto, unfolding(crate::specs::Reading::rules_of_drafts))]
fn drafts_location(alloc: Global, drafts: &[Draft<'_>]) -> Result<Option<RulesLocation>, AllocError>
    ensures among { IfOk result (λ o. IfSome o (spec.IsAmongTexts (map text_of drafts.now))) }
    ensures exact { IfOk result (λ o. option_map spec.number_at o ≡ spec.refusal_of (reading.rules_of_drafts (map text_of drafts.now))) }
{
    match pattern_location(alloc, drafts)? {
        Some(location) => Ok(Some(location)),
        None => Ok(number_location(drafts)),
    }
}

/// Where a document is refused.
fn document_location(alloc: Global, keys: &Table) -> Result<Option<RulesLocation>, AllocError>
    ensures fault { IfOk result (λ o. IfSome o (spec.IsDocumentFault (table_view keys.now))) }
    ensures exact { IfOk result (λ o. option_map spec.number_at o ≡ spec.refusal_of (reading.of_document (table_view keys.now))) }
{
    let Some(values) = rules_in(keys) else {
        return Ok(Some(RulesLocation::List));
    };
    if let Some(location) = shape_location(values) {
        return Ok(Some(location));
    }
    match drafts_of(alloc, keys)? {
        Some(drafts) => drafts_location(alloc, drafts.as_slice()),
        None => Ok(None),
    }
}

/// Where the rules in these bytes are refused, if they are, and only then. It is where reading them ends, with the number
/// of its refusal.
///
/// # Errors
///
/// When memory runs out.
pub fn rules_location(alloc: Global, bytes: &[u8]) -> Result<Option<RulesLocation>, AllocError>
    ensures location { IfOk result (λ o. IfSome o (spec.IsLocation bytes.now)) }
    ensures exact { IfOk result (λ o. option_map spec.number_at o ≡ spec.refusal_of (reading.rules_of bytes.now)) }
{
    if bytes.len() > MOST_BYTES {
        return Ok(Some(RulesLocation::Bytes));
    }
    match toml::table_from_slice(alloc, bytes) {
        Ok(keys) => document_location(alloc, &keys),
        Err(error) => match error.span() {
            Some(span) => Ok(Some(RulesLocation::Document(span.start))),
            None => Err(AllocError),
        },
    }
}
