//! Reports in the form of the Test Anything Protocol, version 14.

ghost use Rattle.std.specs.Prelude.{◌≡◌, ◌+◌, ◌*◌, ◌^◌, ◌<◌, ◌++◌, IfOk, OnOk, decimal, length, map, option_map, string_bytes, true};
ghost use Rattle.fb_expect.specs.Reports as spec;

use crate::ending::End;
use crate::judging::Judged;
use crate::pattern::Pattern;
use crate::rule::{Need, Rule};
use crate::shown::shown;
use crate::sight::{Sight, Sights};
use crate::verdict::{Breach, Fault, Verdict};
use std::alloc::{AllocError, Global};

/// Appends one text after the other to a text.
pub(crate) fn put_all(text: &mut Vec<u8>, parts: &[&[u8]]) -> Result<(), AllocError>
    ensures { OnOk result (text.new.items ≡ text.old.items ++ spec.joined (map (λ p. p.now) parts.now)) }
{
    for part in parts {
        text.extend_from_slice(part)?;
    }
    Ok(())
}

/// One text after the other.
pub(crate) fn join(alloc: Global, parts: &[&[u8]]) -> Result<Vec<u8>, AllocError>
    ensures { IfOk result (λ t. t.items ≡ spec.joined (map (λ p. p.now) parts.now)) }
{
    let mut text = Vec::new(alloc);
    put_all(&mut text, parts)?;
    Ok(text)
}

/// The decimal digits of a number.
pub(crate) fn digits_of(alloc: Global, number: u128) -> Result<String, AllocError>
    ensures { IfOk result (λ t. string_bytes t ≡ decimal number) }
{
    format!(in alloc; "{number}")
}

/// Puts a byte after a text, with a backslash before a backslash and before a mark.
fn put_escaped(text: &mut Vec<u8>, byte: u8, mark: u8) -> Result<(), AllocError>
    ensures { OnOk result (text.new.items ≡ text.old.items ++ spec.escape_byte mark byte) }
{
    if byte == b'\\' || byte == mark {
        text.push(b'\\')?;
    }
    text.push(byte)?;
    Ok(())
}

/// A text with a backslash before each backslash and each mark.
fn escape_bytes(alloc: Global, part: &[u8], mark: u8) -> Result<Vec<u8>, AllocError>
    ensures { IfOk result (λ t. t.items ≡ spec.escape_bytes mark part.now) }
{
    let mut text = Vec::with_capacity(alloc, part.len())?;
    for byte in part {
        put_escaped(&mut text, *byte, mark)?;
    }
    Ok(text)
}

/// The same of a text as it is shown, with a question mark for each control character, U+FFFE and U+FFFF.
pub(crate) fn escape(alloc: Global, part: &[u8], mark: u8) -> Result<Vec<u8>, AllocError>
    ensures { IfOk result (λ t. t.items ≡ spec.escape mark part.now) }
{
    let part = shown(alloc, part)?;
    escape_bytes(alloc, part.as_slice(), mark)
}

/// A line of a block: its key, and a text in quotes.
#[tactic(auto, unfolding(crate::specs::Reports::quoted_line))]
fn quoted_line(alloc: Global, key: &[u8], value: &[u8]) -> Result<Vec<u8>, AllocError>
    ensures { IfOk result (λ t. t.items ≡ spec.quoted_line key.now value.now) }
{
    let value = escape(alloc, value, b'"')?;
    join(alloc, &[b"  ", key, b": \"", value.as_slice(), b"\"\n"])
}

/// A line of a block: its key, and a number.
#[tactic(auto, unfolding(crate::specs::Reports::numbered))]
fn numbered(alloc: Global, key: &[u8], value: u64) -> Result<Vec<u8>, AllocError>
    ensures { IfOk result (λ t. t.items ≡ spec.numbered key.now value) }
{
    let digits = digits_of(alloc, u128::from(value))?;
    join(alloc, &[b"  ", key, b": ", digits.as_bytes(), b"\n"])
}

/// The message of a fault.
pub(crate) fn message_of(fault: Fault) -> &'static [u8]
    ensures { result.now ≡ spec.message_of fault }
{
    match fault {
        Fault::Unanswered => b"the expected event does not follow in time",
        Fault::Answered => b"this follows too soon",
        Fault::Unprepared => b"the expected event does not come before in time",
        Fault::Forbidden => b"this event is not allowed here",
        Fault::Fewer => b"too few events up to this line",
        Fault::More => b"too many with this",
    }
}

/// The trace that a point is about.
#[derive(Clone, Copy)]
pub struct Of<'a> {
    /// The name of its file.
    pub trace: &'a str,
    /// Whether points show its name. They do if there are several traces.
    pub is_named: bool,
}

/// The name of the trace, if points show it.
#[tactic(auto, unfolding(crate::specs::Reports::trace_mark))]
fn trace_mark(alloc: Global, of: Of<'_>) -> Result<Vec<u8>, AllocError>
    ensures { IfOk result (λ t. t.items ≡ spec.trace_mark of.entry) }
{
    if !of.is_named {
        return Ok(Vec::new(alloc));
    }
    let trace = escape(alloc, of.trace.as_bytes(), b'#')?;
    join(alloc, &[b" (", trace.as_slice(), b")"])
}

/// The first word of a point.
pub(crate) fn first_word(is_well: bool) -> &'static [u8]
    ensures { result.now ≡ spec.first_word is_well }
{
    if is_well { b"ok " } else { b"not ok " }
}

/// The beginning of a point: whether it is well, its number, its rule, and its trace.
#[tactic(auto, unfolding(crate::specs::Reports::head))]
fn head(
    alloc: Global,
    is_well: bool,
    number: u128,
    rule: &Rule,
    of: Of<'_>,
) -> Result<Vec<u8>, AllocError>
    ensures { IfOk result (λ t. t.items ≡ spec.head is_well number rule.now of.entry) }
{
    let digits = digits_of(alloc, number)?;
    let name = escape(alloc, rule.name.as_slice(), b'#')?;
    let mark = trace_mark(alloc, of)?;
    join(
        alloc,
        &[
            first_word(is_well),
            digits.as_bytes(),
            b" - ",
            name.as_slice(),
            mark.as_slice(),
        ],
    )
}

/// The block of a breach.
#[tactic(auto, unfolding(crate::specs::Reports::breach_block))]
fn breach_block(alloc: Global, trace: &str, breach: Breach) -> Result<Vec<u8>, AllocError>
    ensures { IfOk result (λ t. t.items ≡ spec.breach_block trace.now breach) }
{
    let message = quoted_line(alloc, b"message", message_of(breach.fault))?;
    let trace = quoted_line(alloc, b"trace", trace.as_bytes())?;
    let line = numbered(alloc, b"line", breach.line)?;
    let tick = numbered(alloc, b"tick", breach.tick)?;
    join(
        alloc,
        &[
            b"  ---\n",
            message.as_slice(),
            trace.as_slice(),
            line.as_slice(),
            tick.as_slice(),
            b"  ...\n",
        ],
    )
}

/// The block of a rule that has to be decided, and is not.
#[tactic(auto, unfolding(crate::specs::Reports::undecided_block))]
fn undecided_block(alloc: Global, trace: &str) -> Result<Vec<u8>, AllocError>
    ensures { IfOk result (λ t. t.items ≡ spec.undecided_block trace.now) }
{
    let message = quoted_line(alloc, b"message", b"undecided: the trace ends before that")?;
    let trace = quoted_line(alloc, b"trace", trace.as_bytes())?;
    join(
        alloc,
        &[b"  ---\n", message.as_slice(), trace.as_slice(), b"  ...\n"],
    )
}

/// The block of a rule that nothing decides.
#[tactic(auto, unfolding(crate::specs::Reports::never_block))]
fn never_block(alloc: Global, trace: &str) -> Result<Vec<u8>, AllocError>
    ensures { IfOk result (λ t. t.items ≡ spec.never_block trace.now) }
{
    let message = quoted_line(
        alloc,
        b"message",
        b"never applied: no line of the trace decides this rule",
    )?;
    let trace = quoted_line(alloc, b"trace", trace.as_bytes())?;
    join(
        alloc,
        &[b"  ---\n", message.as_slice(), trace.as_slice(), b"  ...\n"],
    )
}

/// The block of a rule that has to hold up to the horizon, which the trace does not reach.
#[tactic(auto, unfolding(crate::specs::Reports::stopped_block))]
fn stopped_block(alloc: Global, trace: &str) -> Result<Vec<u8>, AllocError>
    ensures { IfOk result (λ t. t.items ≡ spec.stopped_block trace.now) }
{
    let message = quoted_line(
        alloc,
        b"message",
        b"stopped: the rule holds up to the stop that ends the trace",
    )?;
    let trace = quoted_line(alloc, b"trace", trace.as_bytes())?;
    join(
        alloc,
        &[b"  ---\n", message.as_slice(), trace.as_slice(), b"  ...\n"],
    )
}

/// Whether a trace ends with a stop.
pub(crate) fn is_stopped(end: End) -> bool
    ensures { result ≡ spec.is_stopped end }
{
    match end {
        End::Stop(_) => true,
        End::Horizon(_) | End::Cut(_) => false,
    }
}

/// The end of the line of a rule that holds and was decided, and the block after it.
fn tail_of_applied(
    alloc: Global,
    is_strict: bool,
    is_stopped: bool,
    trace: &str,
) -> Result<Vec<u8>, AllocError>
    ensures { IfOk result (λ t. t.items ≡ spec.tail_of_held is_strict true is_stopped trace.now) }
{
    if !is_strict {
        return join(alloc, &[b"\n"]);
    }
    if is_stopped {
        let block = stopped_block(alloc, trace)?;
        join(alloc, &[b"\n", block.as_slice()])
    } else {
        join(alloc, &[b"\n"])
    }
}

/// The end of the line of a rule that holds, and the block after it.
fn tail_of_held(
    alloc: Global,
    is_strict: bool,
    is_applied: bool,
    is_stopped: bool,
    trace: &str,
) -> Result<Vec<u8>, AllocError>
    ensures { IfOk result (λ t. t.items ≡ spec.tail_of_held is_strict is_applied is_stopped trace.now) }
{
    if is_applied {
        return tail_of_applied(alloc, is_strict, is_stopped, trace);
    }
    if is_strict {
        let block = never_block(alloc, trace)?;
        join(alloc, &[b"\n", block.as_slice()])
    } else {
        join(alloc, &[b" # SKIP never applied\n"])
    }
}

/// The end of a point's line, and the block after it.
fn tail(alloc: Global, is_strict: bool, trace: &str, judged: &Judged) -> Result<Vec<u8>, AllocError>
    ensures { IfOk result (λ t. t.items ≡ spec.tail is_strict trace.now judged.now.verdict judged.now.decided (spec.is_stopped judged.now.end)) }
{
    match judged.verdict {
        Verdict::Holds => {
            let is_applied = judged.decided != 0;
            tail_of_held(alloc, is_strict, is_applied, is_stopped(judged.end), trace)
        }
        Verdict::Broken(breach) => {
            let block = breach_block(alloc, trace, breach)?;
            join(alloc, &[b"\n", block.as_slice()])
        }
        Verdict::Undecided => {
            if is_strict {
                let block = undecided_block(alloc, trace)?;
                join(alloc, &[b"\n", block.as_slice()])
            } else {
                join(alloc, &[b" # SKIP undecided\n"])
            }
        }
    }
}

/// The word after a count.
fn times(count: u64) -> &'static [u8]
    ensures { result.now ≡ spec.times count }
{
    if count == 1 { b" time" } else { b" times" }
}

/// Whether a P of the rule may wait for the end of the trace.
fn can_wait(need: Need) -> bool
    ensures { result ≡ spec.can_wait need }
{
    matches!(need, Need::See { .. } | Need::Not { .. })
}

/// Whether the last P is not decided.
fn is_last_open(need: Need, verdict: Verdict) -> bool
    ensures { result ≡ spec.is_last_open need verdict }
{
    match verdict {
        Verdict::Undecided => can_wait(need),
        Verdict::Holds | Verdict::Broken(_) => false,
    }
}

/// What is said of P's that are left undecided: they are the last ones, or all.
fn what_is_open(is_applied: bool) -> &'static [u8]
    ensures { result.now ≡ spec.what_is_open is_applied }
{
    if is_applied {
        b", the last is undecided\n"
    } else {
        b", none is decided\n"
    }
}

/// How often a rule was decided.
fn how_often(alloc: Global, need: Need, judged: &Judged) -> Result<Vec<u8>, AllocError>
    ensures { IfOk result (λ t. t.items ≡ spec.how_often need judged.now) }
{
    let digits = digits_of(alloc, u128::from(judged.decided))?;
    let digits = digits.as_bytes();
    let times = times(judged.decided);
    if is_last_open(need, judged.verdict) {
        let open = what_is_open(judged.is_applied);
        join(alloc, &[b"# applied ", digits, times, open])
    } else {
        join(alloc, &[b"# decided ", digits, times, b"\n"])
    }
}

/// What is said of a stop in this tick.
#[tactic(auto, unfolding(crate::specs::Reports::stop_words))]
pub(crate) fn stop_words(alloc: Global, tick: u64) -> Result<Vec<u8>, AllocError>
    ensures { IfOk result (λ t. t.items ≡ spec.stop_words tick) }
{
    let digits = digits_of(alloc, u128::from(tick))?;
    join(
        alloc,
        &[b"the trace ended in a stop at tick ", digits.as_bytes()],
    )
}

/// The comment on a stop, if a trace ends with one.
fn stop_comment(alloc: Global, end: End) -> Result<Vec<u8>, AllocError>
    ensures { IfOk result (λ t. t.items ≡ spec.stop_comment end) }
{
    match end {
        End::Stop(tick) => {
            let words = stop_words(alloc, tick)?;
            join(alloc, &[b"# ", words.as_slice(), b"\n"])
        }
        End::Horizon(_) | End::Cut(_) => Ok(Vec::new(alloc)),
    }
}

/// Appends how often a rule was decided, and a stop that ends the trace.
fn put_facts(
    alloc: Global,
    text: &mut Vec<u8>,
    need: Need,
    judged: &Judged,
) -> Result<(), AllocError>
    ensures { OnOk result (text.new.items ≡ text.old.items ++ spec.facts need judged.now) }
{
    let often = how_often(alloc, need, judged)?;
    let stop = stop_comment(alloc, judged.end)?;
    put_all(text, &[often.as_slice(), stop.as_slice()])
}

/// The words for what a trace does not have of a pattern.
fn lack_of(sight: Sight) -> Option<&'static [u8]>
    ensures { option_map (λ w. w.now) result ≡ spec.lack_of sight }
{
    match sight {
        Sight::Nothing => Some(b"# no line of the trace is of: "),
        Sight::Port => Some(b"# no such line of the trace has the variables of: "),
        Sight::Named => Some(b"# no such line of the trace has values of these kinds: "),
        Sight::Fitting => Some(b"# no such line of the trace meets: "),
        Sight::Met => None,
    }
}

/// Appends a line of these words and a pattern.
fn put_lack(text: &mut Vec<u8>, words: &[u8], pattern: &[u8]) -> Result<(), AllocError>
    ensures { OnOk result (text.new.items ≡ text.old.items ++ spec.lack words.now pattern.now) }
{
    put_all(text, &[words, pattern, b"\n"])
}

/// Appends a line that says what a trace does not have of a pattern, or nothing.
fn put_comment(text: &mut Vec<u8>, pattern: &Pattern, sight: Sight) -> Result<(), AllocError>
    ensures { OnOk result (text.new.items ≡ text.old.items ++ spec.comment pattern.now sight) }
{
    match lack_of(sight) {
        Some(words) => put_lack(text, words, pattern.text.as_slice()),
        None => Ok(()),
    }
}

/// The same of a pattern that may be absent.
fn put_may_comment(
    text: &mut Vec<u8>,
    pattern: &Option<Pattern>,
    sight: Sight,
) -> Result<(), AllocError>
    ensures { OnOk result (text.new.items ≡ text.old.items ++ spec.may_comment pattern.now sight) }
{
    match pattern {
        Some(pattern) => put_comment(text, pattern, sight),
        None => Ok(()),
    }
}

/// Appends what a trace does not have of the patterns of a rule.
fn put_comments(text: &mut Vec<u8>, rule: &Rule, sights: Sights) -> Result<(), AllocError>
    ensures { OnOk result (text.new.items ≡ text.old.items ++ spec.comments rule.now sights) }
{
    put_comment(text, &rule.first, sights.first)
        .and(put_may_comment(text, &rule.second, sights.second))
        .and(put_may_comment(text, &rule.third, sights.third))
}

/// Whether the result of a rule is well.
pub(crate) fn is_well(is_strict: bool, judged: &Judged) -> bool
    ensures { result ≡ spec.is_well is_strict judged.now }
{
    match judged.verdict {
        Verdict::Holds => !(is_strict && (judged.decided == 0 || is_stopped(judged.end))),
        Verdict::Undecided => !is_strict,
        Verdict::Broken(_) => false,
    }
}

/// Whether all rules are well at a trace.
pub fn are_well(is_strict: bool, judged: &[Judged]) -> bool
    ensures { result ≡ spec.are_well is_strict judged.now }
{
    for one in judged {
        if !is_well(is_strict, one) {
            return false;
        }
    }
    true
}

/// Appends the point of a rule at a trace to a text.
fn put_point(
    alloc: Global,
    text: &mut Vec<u8>,
    is_strict: bool,
    of: Of<'_>,
    number: u128,
    rule: &Rule,
    judged: &Judged,
) -> Result<(), AllocError>
    ensures { OnOk result (text.new.items ≡ text.old.items ++ spec.point is_strict of.entry number rule.now judged.now) }
{
    let head = head(alloc, is_well(is_strict, judged), number, rule, of)?;
    let tail = tail(alloc, is_strict, of.trace, judged)?;
    put_all(text, &[head.as_slice(), tail.as_slice()])?;
    put_facts(alloc, text, rule.need, judged).and(put_comments(text, rule, judged.sights))
}

/// The count of points of this many rules at this many traces.
fn product(rules: usize, traces: usize) -> u128
    ensures count { result ≡ rules * traces }
    ensures room { result + rules < 2 ^ 128 }
{
    rules as u128 * traces as u128
}

/// The count of points of all rules at this many traces.
pub(crate) fn point_count(rules: &[Rule], traces: usize) -> u128
    ensures count { result ≡ length rules.now * traces }
    ensures room { result + length rules.now < 2 ^ 128 }
{
    product(rules.len(), traces)
}

/// The count of points of all rules at this many traces, and of one more for each rule if `is_applied`.
fn all_points(rules: &[Rule], traces: usize, is_applied: bool) -> u128
    ensures { result ≡ spec.all_points (length rules.now) traces is_applied }
{
    let count = point_count(rules, traces);
    if is_applied {
        count + rules.len() as u128
    } else {
        count
    }
}

/// The beginning of a report of all rules at this many traces: the version and the count of points. If `is_applied`, a
/// further point for each rule comes after them.
#[tactic(auto, unfolding(crate::specs::Reports::plan))]
pub fn plan(
    alloc: Global,
    rules: &[Rule],
    traces: usize,
    is_applied: bool,
) -> Result<Vec<u8>, AllocError>
    ensures { IfOk result (λ t. t.items ≡ spec.plan (spec.all_points (length rules.now) traces is_applied)) }
{
    let digits = digits_of(alloc, all_points(rules, traces, is_applied))?;
    join(alloc, &[b"TAP version 14\n1..", digits.as_bytes(), b"\n"])
}

/// Appends the points of all rules at a trace to a text, numbered after those of the given count of traces before it.
/// `judged` has the result of each rule, in their order; a rule without a result has no point.
pub fn put_points(
    alloc: Global,
    text: &mut Vec<u8>,
    is_strict: bool,
    of: Of<'_>,
    before: usize,
    rules: &[Rule],
    judged: &[Judged],
) -> Result<(), AllocError>
    ensures { OnOk result (text.new.items ≡ text.old.items ++ spec.points is_strict of.entry (length rules.now * before) rules.now judged.now) }
{
    let mut number = point_count(rules, before);
    for index in 0..rules.len().min(judged.len()) {
        number += 1;
        put_point(
            alloc,
            text,
            is_strict,
            of,
            number,
            &rules[index],
            &judged[index],
        )?;
    }
    Ok(())
}
