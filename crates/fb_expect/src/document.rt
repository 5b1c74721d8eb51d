//! What a document says of rules, before its patterns and numbers are judged.

ghost use Rattle.std.specs.Prelude.{◌≡◌, ℕ, List, IfOk, is_some, map, option_map};
ghost use Rattle.toml.specs.Data.{as_bool, as_integer, as_str, get_member};
ghost use Rattle.toml.specs.View.{table_view, view};
ghost use Rattle.fb_expect.specs.Drafts as spec;
ghost use Rattle.fb_expect.specs.Drafts.{text_of};
ghost use Rattle.fb_expect.specs.Lists as lists;
ghost use Rattle.fb_expect.specs.Lists.{may};

use std::alloc::{AllocError, Global};
use toml::{Table, Value};

/// What a rule asks for, as it is written.
#[derive(Clone, Copy)]
pub(crate) enum NeedDraft {
    See {
        within: i64,
    },
    Not {
        within: i64,
    },
    Before {
        within: i64,
    },
    Never {
        from_start: bool,
    },
    Count {
        least: Option<i64>,
        most: Option<i64>,
        every: Option<i64>,
    },
}

/// A rule, as it is written.
#[derive(Clone, Copy)]
pub(crate) struct Draft<'a> {
    pub(crate) name: &'a str,
    pub(crate) need: NeedDraft,
    pub(crate) first: &'a str,
    pub(crate) second: Option<&'a str>,
    pub(crate) third: Option<&'a str>,
    /// The texts of `same`, if it is there.
    pub(crate) same: Option<&'a [Value]>,
    /// The value of `each`, if it is there.
    pub(crate) turns: Option<bool>,
}

fn value_at<'a>(keys: &'a Table, key: &str) -> Option<&'a Value>
    ensures { option_map (λ v. view v.now) result ≡ get_member key.now (table_view keys.entry.now) }
{
    keys.get(key)
}

fn count_of_keys(keys: &Table) -> usize
    ensures { result ≡ spec.count_of (table_view keys.now) }
{
    keys.len()
}

/// The text that a value is.
fn text_in(value: &Value) -> Option<&str>
    ensures { option_map (λ t. t.now) result ≡ as_str (view value.now) }
{
    value.as_str()
}

/// The text at a key.
fn text_at<'a>(keys: &'a Table, key: &str) -> Option<&'a str>
    ensures { option_map (λ t. t.now) result ≡ spec.text_at key.now (table_view keys.entry.now) }
{
    match value_at(keys, key) {
        Some(value) => text_in(value),
        None => None,
    }
}

/// The whole number at a key.
fn number_at(keys: &Table, key: &str) -> Option<i64>
    ensures { result ≡ spec.number_at key.now (table_view keys.now) }
{
    match value_at(keys, key) {
        Some(value) => value.as_integer(),
        None => None,
    }
}

/// The text at a key that may be absent. Nothing if it is no text.
fn may_text_at<'a>(keys: &'a Table, key: &str) -> Option<Option<&'a str>>
    ensures { option_map (λ o. option_map (λ t. t.now) o) result ≡ may as_str (get_member key.now (table_view keys.entry.now)) }
{
    match value_at(keys, key) {
        Some(value) => match text_in(value) {
            Some(text) => Some(Some(text)),
            None => None,
        },
        None => Some(None),
    }
}

/// The whole number at a key that may be absent. Nothing if it is no whole number.
fn may_number_at(keys: &Table, key: &str) -> Option<Option<i64>>
    ensures { result ≡ may as_integer (get_member key.now (table_view keys.now)) }
{
    match value_at(keys, key) {
        Some(value) => match value.as_integer() {
            Some(number) => Some(Some(number)),
            None => None,
        },
        None => Some(None),
    }
}

/// How many of these are there.
fn one_if(here: bool) -> usize
    ensures { result ≡ spec.one_if here }
{
    if here { 1 } else { 0 }
}

/// Whether a value is a text.
fn is_text(value: &Value) -> bool
    ensures { result ≡ is_some (as_str (view value.now)) }
{
    value.as_str().is_some()
}

/// Whether all of these are texts.
fn are_texts(values: &[Value]) -> bool
    ensures { result ≡ spec.are_texts (map view values.now) }
{
    for value in values {
        if !is_text(value) {
            return false;
        }
    }
    true
}

/// The texts that a value is, one or more.
pub(crate) fn text_values(value: &Value) -> Option<&[Value]>
    ensures { option_map (λ vs. map view vs.now) result ≡ spec.text_values (view value.now) }
{
    let values = values_of(value)?;
    if are_texts(values) && !values.is_empty() {
        Some(values)
    } else {
        None
    }
}

/// The text that a value is, and none for another value.
pub(crate) fn text_or_none(value: &Value) -> &str
    ensures { result.now ≡ spec.text_in (view value.now) }
{
    match value.as_str() {
        Some(text) => text,
        None => "",
    }
}

/// The texts at a key that may be absent. Nothing if it is no list of texts.
fn may_texts_at<'a>(keys: &'a Table, key: &str) -> Option<Option<&'a [Value]>>
    ensures { option_map (λ o. option_map (λ vs. map view vs.now) o) result ≡ may spec.text_values (get_member key.now (table_view keys.entry.now)) }
{
    match value_at(keys, key) {
        Some(value) => match text_values(value) {
            Some(values) => Some(Some(values)),
            None => None,
        },
        None => Some(None),
    }
}

/// The truth value at a key that may be absent. Nothing if it is none.
fn may_bool_at(keys: &Table, key: &str) -> Option<Option<bool>>
    ensures { result ≡ may as_bool (get_member key.now (table_view keys.now)) }
{
    match value_at(keys, key) {
        Some(value) => match value.as_bool() {
            Some(truth) => Some(Some(truth)),
            None => None,
        },
        None => Some(None),
    }
}

/// A rule `after` with `see`, and with `same` and `each` where they are there.
#[tactic(auto, unfolding(crate::specs::Drafts::after_see))]
fn after_see<'a>(
    keys: &'a Table,
    name: &'a str,
    first: &'a str,
    within: i64,
    second: &'a str,
) -> Option<Draft<'a>>
    ensures { option_map text_of result ≡ spec.after_see (table_view keys.entry.now) name.entry.now first.entry.now within second.entry.now }
{
    let same = may_texts_at(keys, "same")?;
    let turns = may_bool_at(keys, "each")?;
    if count_of_keys(keys) != 4 + one_if(same.is_some()) + one_if(turns.is_some()) {
        return None;
    }
    Some(Draft {
        name,
        need: NeedDraft::See { within },
        first,
        second: Some(second),
        third: None,
        same,
        turns,
    })
}

/// A rule `after` with `not`.
#[tactic(auto, unfolding(crate::specs::Drafts::after_not))]
fn after_not<'a>(keys: &'a Table, name: &'a str, first: &'a str, within: i64) -> Option<Draft<'a>>
    ensures { option_map text_of result ≡ spec.after_not (table_view keys.entry.now) name.entry.now first.entry.now within }
{
    let second = text_at(keys, "not")?;
    if count_of_keys(keys) != 4 {
        return None;
    }
    Some(Draft {
        name,
        need: NeedDraft::Not { within },
        first,
        second: Some(second),
        third: None,
        same: None,
        turns: None,
    })
}

/// A rule `after`: with `see`, or else with `not`.
#[tactic(auto, unfolding(crate::specs::Drafts::after))]
fn after<'a>(keys: &'a Table, name: &'a str, first: &'a str) -> Option<Draft<'a>>
    ensures { option_map text_of result ≡ spec.after (table_view keys.entry.now) name.entry.now first.entry.now }
{
    let within = number_at(keys, "within")?;
    match value_at(keys, "see") {
        Some(second) => after_see(keys, name, first, within, text_in(second)?),
        None => after_not(keys, name, first, within),
    }
}

/// A rule `before`.
#[tactic(auto, unfolding(crate::specs::Drafts::before))]
fn before<'a>(keys: &'a Table, name: &'a str, first: &'a str) -> Option<Draft<'a>>
    ensures { option_map text_of result ≡ spec.before (table_view keys.entry.now) name.entry.now first.entry.now }
{
    let within = number_at(keys, "within")?;
    let second = text_at(keys, "see")?;
    if count_of_keys(keys) != 4 {
        return None;
    }
    Some(Draft {
        name,
        need: NeedDraft::Before { within },
        first,
        second: Some(second),
        third: None,
        same: None,
        turns: None,
    })
}

/// A rule `never`, with `from` and `to` where they are there.
#[tactic(auto, unfolding(crate::specs::Drafts::never))]
fn never<'a>(keys: &'a Table, name: &'a str, first: &'a str) -> Option<Draft<'a>>
    ensures { option_map text_of result ≡ spec.never (table_view keys.entry.now) name.entry.now first.entry.now }
{
    let second = may_text_at(keys, "from")?;
    let third = may_text_at(keys, "to")?;
    if count_of_keys(keys) != 2 + one_if(second.is_some()) + one_if(third.is_some()) {
        return None;
    }
    Some(Draft {
        name,
        need: NeedDraft::Never {
            from_start: !second.is_some(),
        },
        first,
        second,
        third,
        same: None,
        turns: None,
    })
}

/// A rule `count`, with `least`, `most` or both, and with `every` where it is there.
#[tactic(auto, unfolding(crate::specs::Drafts::count))]
fn count<'a>(keys: &'a Table, name: &'a str, first: &'a str) -> Option<Draft<'a>>
    ensures { option_map text_of result ≡ spec.count (table_view keys.entry.now) name.entry.now first.entry.now }
{
    let least = may_number_at(keys, "least")?;
    let most = may_number_at(keys, "most")?;
    let every = may_number_at(keys, "every")?;
    let bounds = one_if(least.is_some()) + one_if(most.is_some());
    if bounds == 0 || count_of_keys(keys) != 2 + bounds + one_if(every.is_some()) {
        return None;
    }
    Some(Draft {
        name,
        need: NeedDraft::Count { least, most, every },
        first,
        second: None,
        third: None,
        same: None,
        turns: None,
    })
}

/// The rule of a table, by the first of the keys of the five forms that it has.
#[tactic(auto, unfolding(crate::specs::Drafts::form_of))]
fn form_of<'a>(keys: &'a Table, name: &'a str) -> Option<Draft<'a>>
    ensures { option_map text_of result ≡ spec.form_of (table_view keys.entry.now) name.entry.now }
{
    if let Some(first) = value_at(keys, "after") {
        return after(keys, name, text_in(first)?);
    }
    if let Some(first) = value_at(keys, "before") {
        return before(keys, name, text_in(first)?);
    }
    if let Some(first) = value_at(keys, "never") {
        return never(keys, name, text_in(first)?);
    }
    count(keys, name, text_at(keys, "count")?)
}

/// The rule of a table, if its shape is right.
#[tactic(auto, unfolding(crate::specs::Drafts::rule_text))]
pub(crate) fn draft_of(value: &Value) -> Option<Draft<'_>>
    ensures { option_map text_of result ≡ spec.rule_text (view value.now) }
{
    let keys = value.as_table()?;
    let name = text_at(keys, "name")?;
    form_of(keys, name)
}

/// The items of a value that is an array.
fn values_of(value: &Value) -> Option<&[Value]>
    ensures { option_map (λ vs. map view vs.now) result ≡ spec.values_of (view value.now) }
{
    match value.as_array() {
        Some(values) => Some(values.as_slice()),
        None => None,
    }
}

/// The values of the rules of a document, if it has some and nothing else.
#[tactic(auto, unfolding(crate::specs::Drafts::rules_in))]
pub(crate) fn rules_in(keys: &Table) -> Option<&[Value]>
    ensures { option_map (λ vs. map view vs.now) result ≡ spec.rules_in (table_view keys.now) }
{
    let values = values_of(value_at(keys, "rule")?)?;
    if count_of_keys(keys) == 1 && !values.is_empty() {
        Some(values)
    } else {
        None
    }
}

/// The rules of these values, if the shape of all is right.
fn each_draft<'a>(alloc: Global, values: &'a [Value]) -> Result<Option<Vec<Draft<'a>>>, AllocError>
    ensures { IfOk result (λ o. option_map (λ ds. map text_of ds.items) o ≡ lists.each spec.rule_text (map view values.entry.now)) }
{
    let mut drafts = Vec::with_capacity(alloc, values.len())?;
    for value in values {
        match draft_of(value) {
            Some(draft) => drafts.push_reserved(draft),
            None => return Ok(None),
        }
    }
    Ok(Some(drafts))
}

/// The rules of a document, if its shape is right: `[[rule]]`, one or more, and nothing else.
#[tactic(auto, unfolding(crate::specs::Drafts::texts_of))]
pub(crate) fn drafts_of<'a>(
    alloc: Global,
    keys: &'a Table,
) -> Result<Option<Vec<Draft<'a>>>, AllocError>
    ensures { IfOk result (λ o. option_map (λ ds. map text_of ds.items) o ≡ spec.texts_of (table_view keys.entry.now)) }
{
    match rules_in(keys) {
        Some(values) => each_draft(alloc, values),
        None => Ok(None),
    }
}
