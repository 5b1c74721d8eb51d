//! In how many of several traces each rule applied: was decided at least once.

ghost use Rattle.std.specs.Prelude.{◌≡◌, ◌≢◌, ◌+◌, ◌*◌, ◌^◌, ◌<◌, ◌++◌, ◌∷◌, [], ◌==◌, IfOk, List, OnOk, length, not, ℕ};
ghost use Rattle.std.specs.List.{list_all};
ghost use Rattle.fb_expect.specs.Applied as spec;
ghost use Rattle.fb_expect.specs.declared.judging.Judged.{Judged};
ghost use Rattle.fb_expect.specs.declared.rule.Rule.{Rule};

use crate::judging::Judged;
use crate::junit::{put_suite_head, xml};
use crate::rule::Rule;
use crate::tap::{digits_of, escape, first_word, join, point_count, put_all};
use std::alloc::{AllocError, Global};

/// In how many traces each rule applied, before the first trace.
pub fn no_counts(alloc: Global, rules: &[Rule]) -> Result<Vec<usize>, AllocError>
    ensures { IfOk result (λ ns. ns.items ≡ spec.counts_of rules.now []) }
{
    let counts = vec![in alloc; 0; rules.len()]?;
    Ok(counts)
}

/// One more, if a rule applied.
fn count_on(count: usize, is_applied: bool) -> usize
    ensures { count + 1 < 2 ^ 64 → result ≡ count + spec.one_if is_applied }
{
    if is_applied {
        count.saturating_add(1)
    } else {
        count
    }
}

/// Counts the rules that applied in one more trace.
fn count_all(counts: &mut [usize], rules: &[Rule], judged: &[Judged])
    ensures { (all : List (List Judged)) → length all + 1 < 2 ^ 64 → length judged.now ≡ length rules.now → counts.old ≡ spec.counts_of rules.now all → counts.new ≡ spec.counts_of rules.now (all ++ judged.now ∷ []) }
{
    for index in 0..counts.len().min(rules.len()).min(judged.len()) {
        counts[index] = count_on(counts[index], judged[index].is_applied);
    }
}

/// Counts the rules that applied in one more trace. `judged` has the result of each rule, in their order.
pub fn count_trace(counts: &mut Vec<usize>, rules: &[Rule], judged: &[Judged])
    ensures { (all : List (List Judged)) → length all + 1 < 2 ^ 64 → length judged.now ≡ length rules.now → counts.old.items ≡ spec.counts_of rules.now all → counts.new.items ≡ spec.counts_of rules.now (all ++ judged.now ∷ []) }
{
    count_all(counts.as_mut_slice(), rules, judged);
}

/// Whether none of these counts is 0.
fn are_some(counts: &[usize]) -> bool
    ensures { result ≡ list_all (λ n. not (n == 0)) counts.now }
{
    for count in counts {
        if *count == 0 {
            return false;
        }
    }
    true
}

/// Whether each rule applied in one trace or more.
pub fn have_applied(counts: &[usize]) -> bool
    ensures { (rules : List Rule) (all : List (List Judged)) → counts.now ≡ spec.counts_of rules all → result ≡ spec.have_applied rules all }
{
    are_some(counts)
}

/// The word after a count of traces.
fn trace_word(traces: usize) -> &'static [u8]
    ensures { result.now ≡ spec.trace_word traces }
{
    if traces == 1 { b" trace" } else { b" traces" }
}

/// In how many of how many traces a rule applied.
#[tactic(auto, unfolding(crate::specs::Applied::applied_text))]
fn applied_text(alloc: Global, count: usize, traces: usize) -> Result<Vec<u8>, AllocError>
    ensures { IfOk result (λ t. t.items ≡ spec.applied_text count traces) }
{
    let digits = digits_of(alloc, count as u128)?;
    let of = digits_of(alloc, traces as u128)?;
    join(
        alloc,
        &[
            b"applied in ",
            digits.as_bytes(),
            b" of ",
            of.as_bytes(),
            trace_word(traces),
        ],
    )
}

/// Appends the point of a rule that applied in this many traces.
#[tactic(auto, unfolding(crate::specs::Applied::applied_point))]
fn put_applied_point(
    alloc: Global,
    text: &mut Vec<u8>,
    number: u128,
    rule: &Rule,
    count: usize,
    traces: usize,
) -> Result<(), AllocError>
    ensures { OnOk result (text.new.items ≡ text.old.items ++ spec.applied_point number rule.now count traces) }
{
    let digits = digits_of(alloc, number)?;
    let name = escape(alloc, rule.name.as_slice(), b'#')?;
    let applied = applied_text(alloc, count, traces)?;
    put_all(
        text,
        &[
            first_word(count != 0),
            digits.as_bytes(),
            b" - ",
            name.as_slice(),
            b": ",
            applied.as_slice(),
            b"\n",
        ],
    )
}

/// Appends a point for each rule, numbered after those of all rules at this many traces. `counts` says in how many of
/// them each rule applied; a rule without a count has no point.
pub fn put_applied(
    alloc: Global,
    text: &mut Vec<u8>,
    rules: &[Rule],
    counts: &[usize],
    traces: usize,
) -> Result<(), AllocError>
    ensures { OnOk result (text.new.items ≡ text.old.items ++ spec.applied_points (length rules.now * traces) rules.now counts.now traces) }
{
    let mut number = point_count(rules, traces);
    for index in 0..rules.len().min(counts.len()) {
        number += 1;
        put_applied_point(alloc, text, number, &rules[index], counts[index], traces)?;
    }
    Ok(())
}

/// What the case of a rule has inside that applied in this many traces.
fn applied_inside(alloc: Global, count: usize, traces: usize) -> Result<Vec<u8>, AllocError>
    ensures { IfOk result (λ t. t.items ≡ spec.applied_inside count traces) }
{
    if count != 0 {
        return Ok(Vec::new(alloc));
    }
    let applied = applied_text(alloc, count, traces)?;
    join(
        alloc,
        &[b"<failure message=\"", applied.as_slice(), b"\"/>"],
    )
}

/// Appends the case of a rule that applied in this many traces.
#[tactic(auto, unfolding(crate::specs::Applied::applied_case))]
fn put_applied_case(
    alloc: Global,
    text: &mut Vec<u8>,
    rule: &Rule,
    count: usize,
    traces: usize,
) -> Result<(), AllocError>
    ensures { OnOk result (text.new.items ≡ text.old.items ++ spec.applied_case rule.now count traces) }
{
    let name = xml(alloc, rule.name.as_slice())?;
    let digits = digits_of(alloc, count as u128)?;
    let inside = applied_inside(alloc, count, traces)?;
    put_all(
        text,
        &[
            b"<testcase classname=\"applied\" name=\"",
            name.as_slice(),
            b"\" assertions=\"",
            digits.as_bytes(),
            b"\">",
            inside.as_slice(),
            b"</testcase>\n",
        ],
    )
}

/// How many of the rules did not apply.
fn unapplied(counts: &[usize]) -> usize
    ensures { result ≡ spec.unapplied counts.now }
{
    counts.iter().filter(|count| **count == 0).count()
}

/// Appends a suite with a case for each rule. `counts` says in how many of this many traces each rule applied; a rule
/// without a count has no case.
pub fn put_applied_suite(
    alloc: Global,
    text: &mut Vec<u8>,
    rules: &[Rule],
    counts: &[usize],
    traces: usize,
) -> Result<(), AllocError>
    ensures { OnOk result (text.new.items ≡ text.old.items ++ spec.applied_suite rules.now counts.now traces) }
{
    let failed = unapplied(counts);
    put_suite_head(alloc, text, "applied", counts.len(), failed, 0)?;
    for index in 0..rules.len().min(counts.len()) {
        put_applied_case(alloc, text, &rules[index], counts[index], traces)?;
    }
    put_all(text, &[b"</testsuite>\n"])
}
