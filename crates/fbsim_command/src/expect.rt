//! Traces against rules, and against one another.

ghost use Rattle.std.specs.Prelude.{◌≡◌, ◌&&◌, IfErr, IfOk, List, OnOk, ◌*◌, ◌++◌, codes, length, nat_lt, option_map, string_bytes, true};
ghost use Rattle.fb_expect.specs.Applied.{counts_of};
ghost use Rattle.fb_expect.specs.DifferenceReport.{ShowsDifference};
ghost use Rattle.fb_expect.specs.Parting.{MayPart};
ghost use Rattle.fb_expect.specs.declared.judging.Judged.{Judged as JudgedModel};
ghost use Rattle.fb_expect.specs.declared.rule.Rule.{Rule as RuleModel};
ghost use Rattle.fbsim_command.specs.Comparing.{Compares, Differs, NotesEither, NotesUnread};
ghost use Rattle.fbsim_command.specs.Failures.{refused_trace};
ghost use Rattle.fbsim_command.specs.Expecting.{AreRules, AreUnheld, Expects, Holds, IsHeld, IsRefusedAt, IsTraceFailure, IsUndeclared, IsUnheld, MayDeclare, NotesError, PutsAll, PutsOne, RefusesFor, Reports, all_applied, applied_of, counted_of, cut_of, head_of, own_of, part_of, tail_of, types_of};
ghost use Rattle.fbsim_command.specs.Notes.{IsUnnoted, NotesEnd, noted_of};
ghost use Rattle.fbsim_command.specs.Outcomes.{Held};
ghost use Rattle.fbsim_command.specs.OwnLines.{EndsIn};
ghost use Rattle.fbsim_command.specs.Shown.{shown_name};
ghost use Rattle.fbsim_command.specs.Texts.{given_of, may_lines_of};
ghost use Rattle.fbsim_command.specs.declared.failure.Failure.{Failure};
ghost use Rattle.fbsim_command.specs.declared.failure.Failure.TheVariants.{File};

use crate::failure::{Failure, RefusalLine};
use crate::join::FileLines;
use crate::known::has_names;
use crate::notes::{note_of_rest, note_where_asked};
use crate::opening::open_inputs;
use crate::output::write_text;
use crate::own_lines::end_in;
use crate::rules_notes::{note_of_names, note_to_held};
use crate::shown::shown_name;
use crate::sources::{Source, Streams};
use crate::statuses::Done;
use crate::texts::{Texts, Unread, files_of, lines_in, read_files};
use fb_expect::{
    Cut, Difference, Judged, Of, PartFault, Rule, SUITES_HEAD, SUITES_TAIL, TraceError,
    UNKNOWN_NAME, are_well, count_trace, difference_text, have_applied, judge, no_counts, part,
    plan, put_applied, put_applied_suite, put_points, put_suite, read_rules,
};
use fb_sim::discard;
use fb_types::Items;
use fbsim_line::{Diff, Expect};
use std::alloc::{AllocError, Global};
use std::io::{BufRead, Write};

/// One byte more than rules may have, so that some that are too long show.
const RULES_BYTES: usize = 1_048_577;

/// Whether traces may be cut off.
fn cut_of(expect: &Expect<'_>) -> Cut
    ensures { result ≡ cut_of expect.now }
{
    if expect.is_cut {
        Cut::Allowed
    } else {
        Cut::Refused
    }
}

/// The note to a trace that can't be read to its end, where one is asked for.
fn note_of_unread(
    alloc: Global,
    expect: &Expect<'_>,
    name: &str,
) -> Result<Option<String>, AllocError>
    ensures { IfOk (noted_of result) (NotesEnd expect.now.why name.now) }
{
    if !expect.why {
        return Ok(None);
    }
    Ok(Some(note_of_rest(alloc, "trace", name)?))
}

/// The failure for which a trace is not held against rules.
fn failure_of_trace(alloc: Global, name: &str, error: TraceError) -> Failure
    ensures { IsTraceFailure name.now error result }
{
    match error {
        TraceError::Refused(line) => refused_trace(alloc, name, line),
        TraceError::Memory => Failure::Memory,
        TraceError::Read => Failure::File,
    }
}

/// The note to a trace that is not held against rules: one that can't be read to its end has one, where it is asked for.
fn note_of_fault(
    alloc: Global,
    expect: &Expect<'_>,
    name: &str,
    error: &TraceError,
) -> Result<Option<String>, AllocError>
    ensures { NotesError expect.now.why name.now error.now (noted_of result) }
{
    match error {
        TraceError::Read => note_of_unread(alloc, expect, name),
        _ => Ok(None),
    }
}

/// Opens a trace, and holds all rules against it. Of a file that fails there is a note, where one is asked for.
fn hold<S: Streams>(
    alloc: Global,
    expect: &Expect<'_>,
    rules: &[Rule],
    name: &str,
    note: &mut Result<Option<String>, AllocError>,
    source: &mut S,
) -> Result<Vec<Judged>, Failure>
    requires { IsUnnoted (noted_of note.old) }
    ensures held { IfOk result (λ js. IsHeld S.opens expect.now rules.now source.old source.new name.now js.items) }
    ensures each { IfOk result (λ js. length js.items ≡ length rules.now) }
    ensures unnoted { IfOk result (λ js. IsUnnoted (noted_of note.new)) }
    ensures unheld { IfErr result (IsUnheld S.opens expect.now source.old source.new name.now (noted_of note.new)) }
{
    let mut trace = match source.open(alloc, name) {
        Ok(trace) => trace,
        Err(fault) => {
            *note = note_where_asked(alloc, expect.why, "trace", name, fault);
            return Err(Failure::from(fault));
        }
    };
    match judge(alloc, rules, cut_of(expect), &mut trace) {
        Ok(judged) => Ok(judged),
        Err(error) => {
            *note = note_of_fault(alloc, expect, name, &error);
            Err(failure_of_trace(alloc, name, error))
        }
    }
}

/// The text of a trace that is refused at this line.
fn refused_text(alloc: Global, name: &str, line: u64) -> Result<String, AllocError>
    ensures { IfOk result (λ text. string_bytes text ≡ refused_trace name.now line) }
{
    let name = shown_name(alloc, name)?;
    Ok(format!(in alloc; "refused trace {name} line {line}")?)
}

/// The failure for a trace that is refused at this line.
pub(crate) fn refused_trace(alloc: Global, name: &str, line: u64) -> Failure
    ensures { IsRefusedAt name.now line result }
{
    match refused_text(alloc, name, line) {
        Ok(text) => Failure::RefusedTrace(text),
        Err(_) => Failure::Memory,
    }
}

/// Both of two.
fn both(first: bool, second: bool) -> bool
    ensures { result ≡ (first && second) }
{
    first && second
}

/// Whether points have the name of their trace: there are several.
fn are_named(expect: &Expect<'_>) -> bool
    ensures { result ≡ nat_lt 1 (length expect.now.traces.items) }
{
    expect.traces.len() > 1
}

/// Puts what the report has of one trace after a text: its points, or its suite. The trace has its place in the call.
fn put_part(
    alloc: Global,
    expect: &Expect<'_>,
    rules: &[Rule],
    at: (usize, &str),
    text: &mut Vec<u8>,
    judged: &[Judged],
) -> Result<(), AllocError>
    ensures { OnOk result (text.new.items ≡ text.old.items ++ part_of expect.now rules.now (length rules.now * at.entry.0) at.entry.1 judged.now) }
{
    let (index, trace) = at;
    if expect.is_junit {
        return put_suite(alloc, text, expect.is_strict, trace, rules, judged);
    }
    let of = Of {
        trace,
        is_named: are_named(expect),
    };
    put_points(alloc, text, expect.is_strict, of, index, rules, judged)
}

/// Holds all rules against the trace at this place of a call, puts their points after a text, and returns the results.
/// Of a file that fails there is a note, where one is asked for.
fn put_one<S: Streams>(
    alloc: Global,
    expect: &Expect<'_>,
    rules: &[Rule],
    at: (usize, &str),
    text: &mut Vec<u8>,
    note: &mut Result<Option<String>, AllocError>,
    source: &mut S,
) -> Result<Vec<Judged>, Failure>
    requires { IsUnnoted (noted_of note.old) }
    ensures put { IfOk result (λ js. PutsOne S.opens expect.now rules.now at.entry.0 at.entry.1 source.old source.new text.old.items text.new.items js.items) }
    ensures unnoted { IfOk result (λ js. IsUnnoted (noted_of note.new)) }
    ensures unheld { IfErr result (IsUnheld S.opens expect.now source.old source.new at.entry.1.now (noted_of note.new)) }
{
    let (_, trace) = at;
    let judged = hold(alloc, expect, rules, trace, note, source)?;
    put_part(alloc, expect, rules, at, text, judged.as_slice())?;
    Ok(judged)
}

/// Holds all rules against each trace of a call, and puts their points after a text. It says in how many traces each
/// rule applied, and whether all are well.
fn put_all<S: Streams>(
    alloc: Global,
    expect: &Expect<'_>,
    rules: &[Rule],
    text: &mut Vec<u8>,
    note: &mut Result<Option<String>, AllocError>,
    source: &mut S,
) -> Result<(Vec<usize>, bool), Failure>
    requires { IsUnnoted (noted_of note.old) }
    ensures put { IfOk result (λ p. PutsAll S.opens expect.now rules.now source.old source.new text.old.items text.new.items p.0.items p.1) }
    ensures unnoted { IfOk result (λ p. IsUnnoted (noted_of note.new)) }
    ensures unheld { IfErr result (AreUnheld S.opens expect.now rules.now source.old source.new (noted_of note.new)) }
{
    let mut counts = no_counts(alloc, rules)?;
    let mut is_well = true;
    for (index, trace) in expect.traces.iter().enumerate() {
        let at = (index, *trace);
        let judged = put_one(alloc, expect, rules, at, text, note, source)?;
        count_trace(&mut counts, rules, judged.as_slice());
        let ok = are_well(expect.is_strict, judged.as_slice());
        is_well = both(ok, is_well);
    }
    Ok((counts, is_well))
}

/// What the report begins with.
fn head(alloc: Global, expect: &Expect<'_>, rules: &[Rule]) -> Result<Vec<u8>, AllocError>
    ensures { IfOk result (λ t. t.items ≡ head_of expect.now rules.now) }
{
    if expect.is_junit {
        return Vec::from_slice(alloc, SUITES_HEAD);
    }
    plan(alloc, rules, expect.traces.len(), expect.is_applied)
}

/// Puts in how many traces each rule applied after a text: a point for each, or a suite.
fn put_counted(
    alloc: Global,
    expect: &Expect<'_>,
    rules: &[Rule],
    counts: &[usize],
    text: &mut Vec<u8>,
) -> Result<(), AllocError>
    ensures { OnOk result (text.new.items ≡ text.old.items ++ counted_of expect.now rules.now counts.now) }
{
    let traces = expect.traces.len();
    if expect.is_junit {
        return put_applied_suite(alloc, text, rules, counts, traces);
    }
    put_applied(alloc, text, rules, counts, traces)
}

/// The same, if that is asked for.
fn put_applied_part(
    alloc: Global,
    expect: &Expect<'_>,
    rules: &[Rule],
    counts: &[usize],
    text: &mut Vec<u8>,
) -> Result<(), AllocError>
    ensures { OnOk result (text.new.items ≡ text.old.items ++ applied_of expect.now rules.now counts.now) }
{
    if !expect.is_applied {
        return Ok(());
    }
    put_counted(alloc, expect, rules, counts, text)
}

/// Whether each rule applied in one trace or more, if that is asked for.
fn are_applied(expect: &Expect<'_>, counts: &[usize]) -> bool
    ensures { (rules : List RuleModel) (all : List (List JudgedModel)) → counts.now ≡ counts_of rules all → result ≡ all_applied expect.now rules all }
{
    !expect.is_applied || have_applied(counts)
}

/// Puts what the report ends with after a text.
fn put_tail(expect: &Expect<'_>, text: &mut Vec<u8>) -> Result<(), AllocError>
    ensures { OnOk result (text.new.items ≡ text.old.items ++ tail_of expect.now) }
{
    if expect.is_junit {
        return text.extend_from_slice(SUITES_TAIL);
    }
    Ok(())
}

/// The report of all rules at all traces of a call. It says whether all are well, and applied where they must.
fn report<S: Streams>(
    alloc: Global,
    expect: &Expect<'_>,
    rules: &[Rule],
    note: &mut Result<Option<String>, AllocError>,
    source: &mut S,
) -> Result<(Vec<u8>, bool), Failure>
    requires { IsUnnoted (noted_of note.old) }
    ensures reported { IfOk result (λ p. Reports S.opens expect.now rules.now source.old source.new p.1 p.0.items) }
    ensures unnoted { IfOk result (λ well. IsUnnoted (noted_of note.new)) }
    ensures unheld { IfErr result (AreUnheld S.opens expect.now rules.now source.old source.new (noted_of note.new)) }
{
    let mut text = head(alloc, expect, rules)?;
    let (counts, is_well) = put_all(alloc, expect, rules, &mut text, note, source)?;
    let counts = counts.as_slice();
    put_applied_part(alloc, expect, rules, counts, &mut text)?;
    put_tail(expect, &mut text)?;
    Ok((text, both(is_well, are_applied(expect, counts))))
}

/// Reads the declaration and the deployment of a call, where it names some.
fn read_declared<S: Source>(
    alloc: Global,
    expect: &Expect<'_>,
    source: &mut S,
) -> Result<Option<Texts>, Unread>
    ensures read { IfOk result (λ t. MayDeclare S.gives expect.now expect.now.declaration source.old source.new (may_lines_of t) (option_map given_of t)) }
    ensures unread { IfErr result (λ unread. IsUndeclared S.gives expect.now expect.now.declaration source.old source.new unread.part unread.fault) }
{
    let Some(declaration) = expect.declaration else {
        return Ok(None);
    };
    let types = expect.types.as_slice();
    match read_files(
        alloc,
        types,
        &files_of(declaration, expect.deploy, expect.why),
        source,
    ) {
        Ok(texts) => Ok(Some(texts)),
        Err(unread) => Err(unread),
    }
}

/// The rules of bytes, whose names what is declared has, if something is.
fn checked_rules(
    alloc: Global,
    bytes: &[u8],
    declared: &Option<Texts>,
) -> Result<Items<Rule>, Failure>
    ensures rules { IfOk result (AreRules bytes.now (option_map given_of declared.now)) }
    ensures refused { IfErr result (RefusesFor bytes.now (option_map given_of declared.now)) }
{
    let rules = read_rules(alloc, bytes)?;
    let Some(texts) = declared else {
        return Ok(rules);
    };
    let system = open_inputs(alloc, &texts.inputs())?;
    let known = has_names(alloc, &system, rules.as_slice());
    // Dropped by one call: the end of its scope would prove the drop part by part.
    discard(system);
    if !known? {
        return Err(Failure::Refused(RefusalLine::Numbered(UNKNOWN_NAME)));
    }
    Ok(rules)
}

/// Holds the rules of bytes against the traces of a call, and writes the report. Of a trace whose file fails there is a
/// note, where one is asked for.
fn hold_rules<S: Streams, W: Write>(
    alloc: Global,
    expect: &Expect<'_>,
    bytes: &[u8],
    declared: &Option<Texts>,
    note: &mut Result<Option<String>, AllocError>,
    source: &mut S,
    out: &mut W,
) -> Result<Done, Failure>
    requires { IsUnnoted (noted_of note.old) }
    ensures { Holds S.opens expect.now source.old source.new bytes.now (option_map given_of declared.now) (W.contents out.old) (W.contents out.new) (noted_of note.new) result }
{
    let rules = checked_rules(alloc, bytes, declared)?;
    let (text, is_well) = report(alloc, expect, rules.as_slice(), note, source)?;
    write_text(out, text.as_slice())?;
    if is_well {
        Ok(Done::Met)
    } else {
        Ok(Done::Unmet)
    }
}

/// The name of the declaration's own file, if there is one.
pub(crate) fn own_name<'a>(declaration: Option<&'a str>) -> &'a str
    ensures { result.now ≡ own_of declaration.entry }
{
    declaration.unwrap_or("")
}

/// How a call ends of which the declaration, if there is one, is in files with these lines each.
fn end_of(
    alloc: Global,
    expect: &Expect<'_>,
    lines: &[FileLines],
    end: Result<Done, Failure>,
) -> Result<Done, Failure>
    ensures { EndsIn (types_of expect.now) (own_of expect.now.declaration) lines.now end result }
{
    end_in(
        alloc,
        expect.types.as_slice(),
        own_name(expect.declaration),
        lines,
        end,
    )
}

/// Reads rules, and holds them against traces. It writes a point for each trace and each rule once all were read. It
/// says how that ends, and what is reported after the line of a failure.
pub(crate) fn expect<S: Source + Streams, W: Write>(
    alloc: Global,
    expect: &Expect<'_>,
    source: &mut S,
    out: &mut W,
) -> (Result<Done, Failure>, Result<Option<String>, AllocError>)
    ensures { Expects S.gives S.opens source.old source.new expect.now (W.contents out.old) (W.contents out.new) result.0 (noted_of result.1) }
{
    let bytes = match source.read(alloc, expect.rules, RULES_BYTES) {
        Ok(bytes) => bytes,
        Err(fault) => {
            let note = note_where_asked(alloc, expect.why, "rules", expect.rules, fault);
            return (Err(Failure::from(fault)), note);
        }
    };
    let declared = match read_declared(alloc, expect, source) {
        Ok(declared) => declared,
        Err(unread) => {
            let note = note_of_names(alloc, expect, unread);
            return (Err(Failure::from(unread.fault)), note);
        }
    };
    let bytes = bytes.as_slice();
    let mut trace = Ok(None);
    let end = hold_rules(alloc, expect, bytes, &declared, &mut trace, source, out);
    let note = note_to_held(alloc, expect, &end, bytes, &declared, trace);
    let end = end_of(alloc, expect, lines_in(&declared), end);
    (end, note)
}

/// Where two traces part first, with their names as they are shown.
fn shown_difference(
    alloc: Global,
    diff: &Diff<'_>,
    difference: &Difference,
) -> Result<Vec<u8>, AllocError>
    ensures { IfOk result (λ t. ShowsDifference (shown_name diff.now.first.now) (shown_name diff.now.second.now) diff.now.is_without_ticks difference.now t.items) }
{
    let first = shown_name(alloc, diff.first)?;
    let second = shown_name(alloc, diff.second)?;
    difference_text(
        alloc,
        first.as_str(),
        second.as_str(),
        diff.is_without_ticks,
        difference,
    )
}

/// Writes where two traces part first, if they do.
fn show_parted<W: Write>(
    alloc: Global,
    diff: &Diff<'_>,
    found: Option<Difference>,
    out: &mut W,
) -> Result<Done, Failure>
    ensures read { IfErr result (λ failure. failure ≡ File → ⊥) }
    ensures shown { (first second : Held) → MayPart diff.now.is_without_ticks first second found → Differs diff.now first second (W.contents out.old) (W.contents out.new) result }
{
    let Some(difference) = found else {
        return Ok(Done::Same);
    };
    let text = shown_difference(alloc, diff, &difference)?;
    write_text(out, text.as_slice())?;
    Ok(Done::Different)
}

/// The note to the one of two traces that can't be read to its end, where one is asked for.
fn note_of_part(
    alloc: Global,
    diff: &Diff<'_>,
    fault: PartFault,
) -> Result<Option<String>, AllocError>
    ensures { IfOk (noted_of result) (NotesUnread diff.now fault) }
{
    if !diff.why {
        return Ok(None);
    }
    match fault {
        PartFault::Memory => Ok(None),
        PartFault::First => Ok(Some(note_of_rest(alloc, "trace", diff.first)?)),
        PartFault::Second => Ok(Some(note_of_rest(alloc, "trace", diff.second)?)),
    }
}

/// Compares two traces, and writes where they part first, if they do. It says how that ends, and what is reported after
/// the line of a file fault.
fn compare<R: BufRead, T: BufRead, W: Write>(
    alloc: Global,
    diff: &Diff<'_>,
    first: &mut R,
    second: &mut T,
    out: &mut W,
) -> (Result<Done, Failure>, Result<Option<String>, AllocError>)
    ensures done { Differs diff.now (R.remaining first.old) (T.remaining second.old) (W.contents out.old) (W.contents out.new) result.0 }
    ensures noted { IfOk (noted_of result.1) (NotesEither diff.now (record { first = R.remaining first.old; second = T.remaining second.old }) (record { first = R.remaining first.new; second = T.remaining second.new }) result.0) }
{
    let found = match part(alloc, diff.is_without_ticks, first, second) {
        Ok(found) => found,
        Err(fault) => {
            let note = note_of_part(alloc, diff, fault);
            return (Err(Failure::from(fault)), note);
        }
    };
    let end = show_parted(alloc, diff, found, out);
    (end, Ok(None))
}

/// Reads two traces, and writes where they part first, if they do. It says how that ends, and what is reported after
/// the line of a file fault.
pub(crate) fn diff<S: Streams, W: Write>(
    alloc: Global,
    diff: &Diff<'_>,
    source: &mut S,
    out: &mut W,
) -> (Result<Done, Failure>, Result<Option<String>, AllocError>)
    ensures { Compares S.opens source.old source.new diff.now (W.contents out.old) (W.contents out.new) result.0 (noted_of result.1) }
{
    let mut first = match source.open(alloc, diff.first) {
        Ok(first) => first,
        Err(fault) => {
            let note = note_where_asked(alloc, diff.why, "trace", diff.first, fault);
            return (Err(Failure::from(fault)), note);
        }
    };
    let mut second = match source.open(alloc, diff.second) {
        Ok(second) => second,
        Err(fault) => {
            let note = note_where_asked(alloc, diff.why, "trace", diff.second, fault);
            return (Err(Failure::from(fault)), note);
        }
    };
    compare(alloc, diff, &mut first, &mut second, out)
}
