//! Reports as JUnit XML: a suite for each trace, and a case in it for each rule.

ghost use Rattle.std.specs.Prelude.{◌≡◌, ◌++◌, IfOk, OnOk, true};
ghost use Rattle.fb_expect.specs.Reports.{is_stopped};
ghost use Rattle.fb_expect.specs.Suites as spec;

use crate::ending::End;
use crate::judging::Judged;
use crate::rule::Rule;
use crate::shown::shown;
use crate::tap::{digits_of, is_stopped, is_well, join, message_of, put_all, stop_words};
use crate::verdict::{Breach, Verdict};
use std::alloc::{AllocError, Global};

/// What a report begins with.
pub const SUITES_HEAD: &[u8] = b"<?xml version=\"1.0\" encoding=\"UTF-8\"?>\n<testsuites>\n";

/// What a report ends with.
pub const SUITES_TAIL: &[u8] = b"</testsuites>\n";

/// Appends a byte of a value in quotes: the signs of XML as entities.
fn put_xml_byte(text: &mut Vec<u8>, byte: u8) -> Result<(), AllocError>
    ensures { OnOk result (text.new.items ≡ text.old.items ++ spec.xml_byte byte) }
{
    if byte == b'&' {
        return text.extend_from_slice(b"&amp;");
    }
    if byte == b'<' {
        return text.extend_from_slice(b"&lt;");
    }
    if byte == b'>' {
        return text.extend_from_slice(b"&gt;");
    }
    if byte == b'"' {
        return text.extend_from_slice(b"&quot;");
    }
    text.push(byte)?;
    Ok(())
}

/// A text that is shown as a value in quotes.
fn xml_bytes(alloc: Global, part: &[u8]) -> Result<Vec<u8>, AllocError>
    ensures { IfOk result (λ t. t.items ≡ spec.xml_bytes part.now) }
{
    let mut text = Vec::with_capacity(alloc, part.len())?;
    for byte in part {
        put_xml_byte(&mut text, *byte)?;
    }
    Ok(text)
}

/// A text as a value in quotes, with a question mark for each control character, U+FFFE and U+FFFF.
pub(crate) fn xml(alloc: Global, part: &[u8]) -> Result<Vec<u8>, AllocError>
    ensures { IfOk result (λ t. t.items ≡ spec.xml part.now) }
{
    let part = shown(alloc, part)?;
    xml_bytes(alloc, part.as_slice())
}

/// How a case failed that broke at a line.
#[tactic(auto, unfolding(crate::specs::Suites::failed_at))]
fn failed_at(alloc: Global, breach: Breach) -> Result<Vec<u8>, AllocError>
    ensures { IfOk result (λ t. t.items ≡ spec.failed_at breach) }
{
    let line = digits_of(alloc, u128::from(breach.line))?;
    let tick = digits_of(alloc, u128::from(breach.tick))?;
    join(
        alloc,
        &[
            b"<failure message=\"",
            message_of(breach.fault),
            b"\">line ",
            line.as_bytes(),
            b", tick ",
            tick.as_bytes(),
            b"</failure>",
        ],
    )
}

/// What a case has inside that is skipped, or fails where that is not enough.
fn or_skipped(alloc: Global, is_strict: bool, why: &[u8]) -> Result<Vec<u8>, AllocError>
    ensures { IfOk result (λ t. t.items ≡ spec.or_skipped is_strict why.now) }
{
    if is_strict {
        join(alloc, &[b"<failure message=\"", why, b"\"/>"])
    } else {
        join(alloc, &[b"<skipped message=\"", why, b"\"/>"])
    }
}

/// What a case has inside of a rule that holds and was decided.
fn applied_inside(alloc: Global, is_strict: bool, is_stopped: bool) -> Result<Vec<u8>, AllocError>
    ensures { IfOk result (λ t. t.items ≡ spec.held_inside is_strict true is_stopped) }
{
    if !is_strict {
        return Ok(Vec::new(alloc));
    }
    if is_stopped {
        join(alloc, &[b"<failure message=\"", b"stopped", b"\"/>"])
    } else {
        Ok(Vec::new(alloc))
    }
}

/// What is said of a stop, if a trace ends with one.
fn stop_output(alloc: Global, end: End) -> Result<Vec<u8>, AllocError>
    ensures { IfOk result (λ t. t.items ≡ spec.stop_output end) }
{
    match end {
        End::Stop(tick) => {
            let words = stop_words(alloc, tick)?;
            join(
                alloc,
                &[b"<system-out>", words.as_slice(), b"</system-out>"],
            )
        }
        End::Horizon(_) | End::Cut(_) => Ok(Vec::new(alloc)),
    }
}

/// How the rule of a case failed or was skipped.
fn inside_of(alloc: Global, is_strict: bool, judged: &Judged) -> Result<Vec<u8>, AllocError>
    ensures { IfOk result (λ t. t.items ≡ spec.inside_of is_strict judged.now.verdict judged.now.decided (is_stopped judged.now.end)) }
{
    match judged.verdict {
        Verdict::Broken(breach) => failed_at(alloc, breach),
        Verdict::Undecided => or_skipped(alloc, is_strict, b"undecided"),
        Verdict::Holds => {
            if judged.decided == 0 {
                or_skipped(alloc, is_strict, b"never applied")
            } else {
                applied_inside(alloc, is_strict, is_stopped(judged.end))
            }
        }
    }
}

/// What a case has inside: how the rule failed or was skipped, and a stop that ends the trace.
#[tactic(auto, unfolding(crate::specs::Suites::case_inside))]
fn case_inside(alloc: Global, is_strict: bool, judged: &Judged) -> Result<Vec<u8>, AllocError>
    ensures { IfOk result (λ t. t.items ≡ spec.case_inside is_strict judged.now) }
{
    let inside = inside_of(alloc, is_strict, judged)?;
    let output = stop_output(alloc, judged.end)?;
    join(alloc, &[inside.as_slice(), output.as_slice()])
}

/// What the case of a rule at a trace begins with, whose names are values in quotes.
#[tactic(auto, unfolding(crate::specs::Suites::case_front))]
fn case_front(alloc: Global, trace: &str, rule: &Rule, decided: u64) -> Result<Vec<u8>, AllocError>
    ensures { IfOk result (λ t. t.items ≡ spec.case_front trace.now rule.now decided) }
{
    let trace = xml(alloc, trace.as_bytes())?;
    let name = xml(alloc, rule.name.as_slice())?;
    let often = digits_of(alloc, u128::from(decided))?;
    join(
        alloc,
        &[
            b"<testcase classname=\"",
            trace.as_slice(),
            b"\" name=\"",
            name.as_slice(),
            b"\" assertions=\"",
            often.as_bytes(),
            b"\">",
        ],
    )
}

/// Appends the case of a rule at a trace.
#[tactic(auto, unfolding(crate::specs::Suites::case_of))]
fn put_case(
    alloc: Global,
    text: &mut Vec<u8>,
    is_strict: bool,
    trace: &str,
    rule: &Rule,
    judged: &Judged,
) -> Result<(), AllocError>
    ensures { OnOk result (text.new.items ≡ text.old.items ++ spec.case_of is_strict trace.now rule.now judged.now) }
{
    let front = case_front(alloc, trace, rule, judged.decided)?;
    let inside = case_inside(alloc, is_strict, judged)?;
    put_all(
        text,
        &[front.as_slice(), inside.as_slice(), b"</testcase>\n"],
    )
}

/// Whether a rule was skipped.
fn is_skipped(is_strict: bool, judged: &Judged) -> bool
    ensures { result ≡ spec.is_skipped is_strict judged.now }
{
    match judged.verdict {
        Verdict::Holds => !is_strict && judged.decided == 0,
        Verdict::Undecided => !is_strict,
        Verdict::Broken(_) => false,
    }
}

/// How many of the rules failed.
fn failures(is_strict: bool, judged: &[Judged]) -> usize
    ensures { result ≡ spec.failures is_strict judged.now }
{
    judged.iter().filter(|one| !is_well(is_strict, one)).count()
}

/// How many of the rules were skipped.
fn skips(is_strict: bool, judged: &[Judged]) -> usize
    ensures { result ≡ spec.skips is_strict judged.now }
{
    judged
        .iter()
        .filter(|one| is_skipped(is_strict, one))
        .count()
}

/// A number after some words.
#[tactic(auto, unfolding(crate::specs::Suites::with_count))]
fn with_count(alloc: Global, words: &[u8], count: usize) -> Result<Vec<u8>, AllocError>
    ensures { IfOk result (λ t. t.items ≡ spec.with_count words.now count) }
{
    let digits = digits_of(alloc, count as u128)?;
    join(alloc, &[words, digits.as_bytes()])
}

/// How many cases, failures and skips a suite has.
#[tactic(auto, unfolding(crate::specs::Suites::counts_text))]
fn counts_text(
    alloc: Global,
    tests: usize,
    failed: usize,
    skipped: usize,
) -> Result<Vec<u8>, AllocError>
    ensures { IfOk result (λ t. t.items ≡ spec.counts_text tests failed skipped) }
{
    let tests = with_count(alloc, b"\" tests=\"", tests)?;
    let failed = with_count(alloc, b"\" failures=\"", failed)?;
    let skipped = with_count(alloc, b"\" errors=\"0\" skipped=\"", skipped)?;
    join(
        alloc,
        &[
            tests.as_slice(),
            failed.as_slice(),
            skipped.as_slice(),
            b"\">\n",
        ],
    )
}

/// Appends what a suite begins with that has this many cases, failures and skips.
#[tactic(auto, unfolding(crate::specs::Suites::suite_head_by))]
pub(crate) fn put_suite_head(
    alloc: Global,
    text: &mut Vec<u8>,
    trace: &str,
    tests: usize,
    failed: usize,
    skipped: usize,
) -> Result<(), AllocError>
    ensures { OnOk result (text.new.items ≡ text.old.items ++ spec.suite_head_by trace.now tests failed skipped) }
{
    let trace = xml(alloc, trace.as_bytes())?;
    let counts = counts_text(alloc, tests, failed, skipped)?;
    put_all(
        text,
        &[b"<testsuite name=\"", trace.as_slice(), counts.as_slice()],
    )
}

/// Appends the suite of a trace. `judged` has the result of each rule, in their order; a rule without a result has no
/// case.
pub fn put_suite(
    alloc: Global,
    text: &mut Vec<u8>,
    is_strict: bool,
    trace: &str,
    rules: &[Rule],
    judged: &[Judged],
) -> Result<(), AllocError>
    ensures { OnOk result (text.new.items ≡ text.old.items ++ spec.suite is_strict trace.now rules.now judged.now) }
{
    let failed = failures(is_strict, judged);
    let skipped = skips(is_strict, judged);
    put_suite_head(alloc, text, trace, judged.len(), failed, skipped)?;
    for index in 0..rules.len().min(judged.len()) {
        put_case(alloc, text, is_strict, trace, &rules[index], &judged[index])?;
    }
    put_all(text, &[b"</testsuite>\n"])
}
