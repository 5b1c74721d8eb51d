//! Runs compiled statements (IEC 61131-3, 7.3.3; the count of steps is this project's profile).

ghost use Rattle.std.specs.Prelude.{◌≡◌, ◌≤◌, ◌<◌, ◌&&◌, ◌+ℤ◌, ◌≤ℤ◌, true, false, length, slice_get, None, IfOk, IfSome, OnOk};
ghost use Rattle.fb_types.specs.Syntax.{Case, For, If, Repeat, While};
ghost use Rattle.fb_types.specs.Bodies.{Runs, RunsAll, RunsBranch, Counts, Step, Then, Advances, passed, label_fits};
ghost use Rattle.fb_st.specs.Frames.{types_in};
ghost use Rattle.fb_st.specs.WordRuns.{AreKept, AreWords, Assigns, CountsOn, IsCounter, has_passed};
ghost use Rattle.fb_st.specs.Flows.{end_of};
ghost use Rattle.fb_st.specs.Compiled.{number_said, truth_said, number_at, truth_at, fits_number, fits_truth, word_at};
ghost use Rattle.fb_st.specs.Fitting.{spot, begun, name_at, expr_of_number, expr_of_truth, is_truth_type, right_number, right_truth, code_said, codes_said, arms_said, forks_said, code_right, codes_right, arms_right, forks_right, count_right};

use crate::assign::{is_any_around, is_past};
use crate::compiled::{
    CompiledBranch, CompiledChoice, CompiledStmt, CountExpr, NumberExpr, TruthExpr,
};
use crate::layout::Layout;
use crate::meter::{Flow, Meter};
use crate::{exact, short};
use fb_types::{Label, Reason};

/// An assignment of any number, once its step is begun.
#[inline(never)]
fn assign_exact(
    slot: usize,
    expr: &NumberExpr,
    layout: &Layout,
    words: &mut [i64],
) -> Result<Flow, Reason>
    requires frame { AreWords layout.now words.old }
    requires slot { slot < length layout.now }
    requires right { right_number layout.now (number_said expr.now) ≡ true }
    ensures run { Assigns layout.now slot (expr_of_number layout.now (number_said expr.now)) words.old (end_of result) words.new }
    ensures length { length words.new ≡ length words.old }
{
    let number = exact::number(expr, words)?;
    words[slot] = layout.word_of(slot, number)?;
    Ok(Flow::Went)
}

/// Whether a condition is true.
#[inline(always)]
pub(crate) fn is_true(condition: &TruthExpr, words: &[i64]) -> Result<bool, Reason>
    requires { fits_truth (length words.now) (truth_said condition.now) ≡ true }
    ensures { result ≡ truth_at (truth_said condition.now) words.now }
{
    match short::truth(condition, words) {
        Some(is_true) => Ok(is_true),
        // Not the result as it is: the built program would test it again where it is known.
        None => Ok(exact::truth(condition, words)?),
    }
}

/// An assignment of a truth value, once its step is begun.
#[inline(never)]
fn assign_truth(
    slot: usize,
    expr: &TruthExpr,
    layout: &Layout,
    words: &mut [i64],
) -> Result<Flow, Reason>
    requires frame { AreWords layout.now words.old }
    requires right { (is_truth_type (slice_get layout.now slot) && right_truth layout.now (truth_said expr.now)) ≡ true }
    ensures run { Assigns layout.now slot (expr_of_truth layout.now (truth_said expr.now)) words.old (end_of result) words.new }
    ensures length { length words.new ≡ length words.old }
{
    words[slot] = i64::from(is_true(expr, words)?);
    Ok(Flow::Went)
}

/// The number of an expression, or the first reason that it meets.
#[inline(always)]
fn number(expr: &NumberExpr, words: &[i64]) -> Result<i128, Reason>
    requires { fits_number (length words.now) (number_said expr.now) ≡ true }
    ensures { result ≡ number_at (number_said expr.now) words.now }
{
    match short::number(expr, words) {
        Some(number) => Ok(i128::from(number)),
        None => exact::number(expr, words),
    }
}

/// Whether one of the labels fits. A range whose first bound is greater than its last fits nothing.
#[tactic(auto, using(crate::proofs::lemmas::Runs::labels_any))]
fn has_label(labels: &[Label], number: i128) -> bool
    ensures { result ≡ label_fits labels.now number }
{
    is_any_around(labels, number)
}

/// Runs statements in order.
#[cycle(running)]
#[inline(never)]
pub(crate) fn run_all(
    statements: &[CompiledStmt],
    layout: &Layout,
    words: &mut [i64],
    meter: &mut Meter,
) -> Result<Flow, Reason>
    requires frame { AreWords layout.now words.old }
    requires right { codes_right layout.now statements.now ≡ true }
    ensures run { RunsAll (types_in layout.now) (codes_said layout.now statements.now) (spot layout.now words.old meter.old) (end_of result) (spot layout.now words.new meter.new) }
    ensures kept { AreKept words.old meter.old words.new meter.new }
{
    for statement in statements {
        match run(statement, layout, words, meter)? {
            Flow::Went => {}
            Flow::Left => return Ok(Flow::Left),
            Flow::Returned => return Ok(Flow::Returned),
        }
    }
    Ok(Flow::Went)
}

/// Runs one statement.
#[cycle(running)]
#[inline(always)]
fn run(
    statement: &CompiledStmt,
    layout: &Layout,
    words: &mut [i64],
    meter: &mut Meter,
) -> Result<Flow, Reason>
    requires frame { AreWords layout.now words.old }
    requires right { code_right layout.now statement.now ≡ true }
    ensures run { Runs (types_in layout.now) (code_said layout.now statement.now) (spot layout.now words.old meter.old) (end_of result) (spot layout.now words.new meter.new) }
    ensures kept { AreKept words.old meter.old words.new meter.new }
{
    meter.step()?;
    match statement {
        CompiledStmt::Empty => Ok(Flow::Went),
        CompiledStmt::Exit => Ok(Flow::Left),
        CompiledStmt::Return => Ok(Flow::Returned),
        CompiledStmt::AssignLong(slot, expr) => match short::number(expr, words) {
            Some(number) => {
                words[*slot] = number;
                Ok(Flow::Went)
            }
            None => assign_exact(*slot, expr, layout, words),
        },
        CompiledStmt::AssignWithin(slot, least, most, expr) => match short::number(expr, words) {
            Some(number) if *least <= number && number <= *most => {
                words[*slot] = number;
                Ok(Flow::Went)
            }
            _ => assign_exact(*slot, expr, layout, words),
        },
        CompiledStmt::AssignTruth(slot, expr) => assign_truth(*slot, expr, layout, words),
        CompiledStmt::If(choices, others) => {
            run_choice(choices.as_slice(), others.as_slice(), layout, words, meter)
        }
        CompiledStmt::Case(selector, branches, others) => {
            let number = number(selector, words)?;
            run_branch(
                branches.as_slice(),
                others.as_slice(),
                number,
                layout,
                words,
                meter,
            )
        }
        CompiledStmt::For(count, body) => {
            run_for(count.get(), body.as_slice(), layout, words, meter)
        }
        CompiledStmt::While(condition, body) => {
            run_while(condition, body.as_slice(), layout, words, meter)
        }
        CompiledStmt::Repeat(body, condition) => {
            run_repeat(body.as_slice(), condition, layout, words, meter)
        }
    }
}

/// Runs the statements of the first condition that is true, or those of ELSE.
#[cycle(running)]
#[inline(never)]
fn run_choice(
    choices: &[CompiledChoice],
    others: &[CompiledStmt],
    layout: &Layout,
    words: &mut [i64],
    meter: &mut Meter,
) -> Result<Flow, Reason>
    requires frame { AreWords layout.now words.old }
    requires right { arms_right layout.now choices.now ≡ true }
    requires others_right { codes_right layout.now others.now ≡ true }
    ensures run { Runs (types_in layout.now) (If (arms_said layout.now choices.now) (codes_said layout.now others.now)) (begun layout.now words.old meter.old) (end_of result) (spot layout.now words.new meter.new) }
    ensures kept { AreKept words.old meter.old words.new meter.new }
{
    for choice in choices {
        if is_true(&choice.condition, words)? {
            return run_all(choice.body.as_slice(), layout, words, meter);
        }
    }
    run_all(others, layout, words, meter)
}

/// Runs the statements of the first label that fits, or those of ELSE.
#[cycle(running)]
#[inline(never)]
fn run_branch(
    branches: &[CompiledBranch],
    others: &[CompiledStmt],
    number: i128,
    layout: &Layout,
    words: &mut [i64],
    meter: &mut Meter,
) -> Result<Flow, Reason>
    requires frame { AreWords layout.now words.old }
    requires right { forks_right layout.now branches.now ≡ true }
    requires others_right { codes_right layout.now others.now ≡ true }
    ensures run { RunsBranch (types_in layout.now) (forks_said layout.now branches.now) number (RunsAll (types_in layout.now) (codes_said layout.now others.now)) (spot layout.now words.old meter.old) (end_of result) (spot layout.now words.new meter.new) }
    ensures kept { AreKept words.old meter.old words.new meter.new }
{
    for branch in branches {
        if has_label(branch.labels.as_slice(), number) {
            return run_all(branch.body.as_slice(), layout, words, meter);
        }
    }
    run_all(others, layout, words, meter)
}

/// An iteration of WHILE or REPEAT, which costs a step before its body.
#[cycle(running)]
#[inline(always)]
fn turn(
    body: &[CompiledStmt],
    layout: &Layout,
    words: &mut [i64],
    meter: &mut Meter,
) -> Result<Flow, Reason>
    requires frame { AreWords layout.now words.old }
    requires right { codes_right layout.now body.now ≡ true }
    ensures run { Step (RunsAll (types_in layout.now) (codes_said layout.now body.now)) (spot layout.now words.old meter.old) (end_of result) (spot layout.now words.new meter.new) }
    ensures kept { AreKept words.old meter.old words.new meter.new }
    ensures less { OnOk result (meter.new.left < meter.old.left) }
{
    meter.step()?;
    run_all(body, layout, words, meter)
}

/// Iterates while the condition is true.
// Not written into `run`: else the other statements keep registers for it.
#[cycle(running)]
#[inline(never)]
fn run_while(
    condition: &TruthExpr,
    body: &[CompiledStmt],
    layout: &Layout,
    words: &mut [i64],
    meter: &mut Meter,
) -> Result<Flow, Reason>
    requires frame { AreWords layout.now words.old }
    requires right { codes_right layout.now body.now ≡ true }
    requires condition_right { right_truth layout.now (truth_said condition.now) ≡ true }
    ensures run { Runs (types_in layout.now) (While (expr_of_truth layout.now (truth_said condition.now)) (codes_said layout.now body.now)) (begun layout.now words.old meter.old) (end_of result) (spot layout.now words.new meter.new) }
    ensures kept { AreKept words.old meter.old words.new meter.new }
{
    while is_true(condition, words)? {
        match turn(body, layout, words, meter)? {
            Flow::Went => {}
            Flow::Left => return Ok(Flow::Went),
            Flow::Returned => return Ok(Flow::Returned),
        }
    }
    Ok(Flow::Went)
}

/// Iterates until the condition is true, at least once.
#[cycle(running)]
#[inline(never)]
fn run_repeat(
    body: &[CompiledStmt],
    condition: &TruthExpr,
    layout: &Layout,
    words: &mut [i64],
    meter: &mut Meter,
) -> Result<Flow, Reason>
    requires frame { AreWords layout.now words.old }
    requires right { codes_right layout.now body.now ≡ true }
    requires condition_right { right_truth layout.now (truth_said condition.now) ≡ true }
    ensures run { Runs (types_in layout.now) (Repeat (codes_said layout.now body.now) (expr_of_truth layout.now (truth_said condition.now))) (begun layout.now words.old meter.old) (end_of result) (spot layout.now words.new meter.new) }
    ensures kept { AreKept words.old meter.old words.new meter.new }
{
    loop {
        match turn(body, layout, words, meter)? {
            Flow::Went => {}
            Flow::Left => return Ok(Flow::Went),
            Flow::Returned => return Ok(Flow::Returned),
        }
        if is_true(condition, words)? {
            return Ok(Flow::Went);
        }
    }
}

/// Where the variable of FOR ends, and its step.
#[derive(Clone, Copy)]
pub(crate) struct Span {
    pub end: i128,
    pub step: i128,
}

/// FOR: start, end and step are evaluated once, in this order, before the variable has its first value.
#[cycle(running)]
#[inline(never)]
fn run_for(
    count: &CountExpr,
    body: &[CompiledStmt],
    layout: &Layout,
    words: &mut [i64],
    meter: &mut Meter,
) -> Result<Flow, Reason>
    requires frame { AreWords layout.now words.old }
    requires right { codes_right layout.now body.now ≡ true }
    requires count_right { count_right layout.now count.now ≡ true }
    ensures run { Runs (types_in layout.now) (For (name_at layout.now count.now.slot) (expr_of_number layout.now (number_said count.now.start)) (expr_of_number layout.now (number_said count.now.end)) (expr_of_number layout.now (number_said count.now.step)) (codes_said layout.now body.now)) (begun layout.now words.old meter.old) (end_of result) (spot layout.now words.new meter.new) }
    ensures kept { AreKept words.old meter.old words.new meter.new }
{
    let first = number(&count.start, words)?;
    let end = number(&count.end, words)?;
    let step = number(&count.step, words)?;
    words[count.slot] = layout.word_of(count.slot, first)?;
    if is_past(end, step, first) {
        return Ok(Flow::Went);
    }
    let span = Span { end, step };
    run_counts(count, span, body, layout, words, meter)
}

/// The same as `is_past`, for numbers of 64 bits.
#[inline(always)]
fn has_passed_short(end: i64, step: i64, number: i64) -> bool
    ensures { result ≡ passed end step number }
{
    if 0 < step {
        end < number
    } else {
        step < 0 && number < end
    }
}

/// The sum of a word and the step, if both are in the range and the sum has not passed the end.
#[inline(always)]
fn short_sum(word: i64, step: i64, end: i64, least: i64, most: i64) -> Option<i64>
    ensures next { IfSome result (λ z. word +ℤ step ≡ z) }
    ensures goes_on { IfSome result (λ z. passed end step z ≡ false) }
    ensures from { IfSome result (λ z. least ≤ℤ word) }
    ensures low { IfSome result (λ z. least ≤ℤ z) }
    ensures high { IfSome result (λ z. z ≤ℤ most) }
{
    if word < least {
        return None;
    }
    let next = word.checked_add(step)?;
    if has_passed_short(end, step, next) || next < least || most < next {
        return None;
    }
    Some(next)
}

/// The next value of the variable of FOR, if the numbers fit 64 bits, the variable's type holds it, and it has not
/// passed the end. `None` says nothing about it.
#[inline(always)]
fn short_next(count: &CountExpr, span: &Span, words: &[i64]) -> Option<i64>
    requires { count.now.slot < length words.now }
    ensures next { IfSome result (λ z. word_at words.now count.now.slot +ℤ span.now.step ≡ z) }
    ensures goes_on { IfSome result (λ z. passed span.now.end span.now.step z ≡ false) }
    ensures from { IfSome result (λ z. count.now.least ≤ℤ word_at words.now count.now.slot) }
    ensures low { IfSome result (λ z. count.now.least ≤ℤ z) }
    ensures high { IfSome result (λ z. z ≤ℤ count.now.most) }
{
    let end = i64::try_from(span.end).ok()?;
    let step = i64::try_from(span.step).ok()?;
    let word = short::word(words, count.slot);
    short_sum(word, step, end, count.least, count.most)
}

/// Gives the variable of FOR its next value, or ends the loop and keeps the value. The next value has not passed the
/// end.
#[tactic(auto, using(crate::proofs::lemmas::Assigning::within_slot_there))]
#[inline(always)]
fn advance(
    count: &CountExpr,
    span: &Span,
    layout: &Layout,
    words: &mut [i64],
) -> Result<Flow, Reason>
    requires frame { AreWords layout.now words.old }
    requires slot { IsCounter layout.now count.now }
    ensures run { CountsOn layout.now count.now span.now.end span.now.step words.old (end_of result) words.new }
    ensures length { length words.new ≡ length words.old }
    ensures within { IfOk result (λ flow. flow ≡ Flow.Went → has_passed layout.now count.now span.now.end span.now.step words.new ≡ false) }
{
    match short_next(count, span, words) {
        Some(next) => {
            words[count.slot] = next;
            Ok(Flow::Went)
        }
        None => advance_exact(count, span, layout, words),
    }
}

/// The number that follows, unless it has passed the end.
fn next_of(span: Span, number: i128) -> Option<i128>
    ensures next { IfSome result (λ z. (number +ℤ span.step ≡ z) × (passed span.end span.step z ≡ false)) }
    ensures past { result ≡ None → passed span.end span.step (number +ℤ span.step) ≡ true }
{
    match number.checked_add(span.step) {
        Some(next) if !is_past(span.end, span.step, next) => Some(next),
        // a sum outside 128 bits has passed the end, which is within
        _ => None,
    }
}

/// The same as `advance`, for any numbers.
#[tactic(auto, using(crate::proofs::lemmas::Assigning::within_slot_there))]
#[inline(never)]
fn advance_exact(
    count: &CountExpr,
    span: &Span,
    layout: &Layout,
    words: &mut [i64],
) -> Result<Flow, Reason>
    requires frame { AreWords layout.now words.old }
    requires slot { IsCounter layout.now count.now }
    ensures run { CountsOn layout.now count.now span.now.end span.now.step words.old (end_of result) words.new }
    ensures length { length words.new ≡ length words.old }
    ensures within { IfOk result (λ flow. flow ≡ Flow.Went → has_passed layout.now count.now span.now.end span.now.step words.new ≡ false) }
{
    let number = layout.number_of(count.slot, short::word(words, count.slot));
    let Some(next) = next_of(*span, number) else {
        return Ok(Flow::Left);
    };
    words[count.slot] = layout.word_of(count.slot, next)?;
    Ok(Flow::Went)
}

/// An iteration of FOR. It ends with the next value of the variable, which has not passed the end if the loop goes on.
#[cycle(running)]
#[inline(always)]
fn turn_of_for(
    count: &CountExpr,
    span: &Span,
    body: &[CompiledStmt],
    layout: &Layout,
    words: &mut [i64],
    meter: &mut Meter,
) -> Result<Flow, Reason>
    requires frame { AreWords layout.now words.old }
    requires right { codes_right layout.now body.now ≡ true }
    requires slot { IsCounter layout.now count.now }
    ensures run { Step (Then (RunsAll (types_in layout.now) (codes_said layout.now body.now)) (Advances (types_in layout.now) (name_at layout.now count.now.slot) span.now.end span.now.step)) (spot layout.now words.old meter.old) (end_of result) (spot layout.now words.new meter.new) }
    ensures kept { AreKept words.old meter.old words.new meter.new }
    ensures less { OnOk result (meter.new.left < meter.old.left) }
    ensures within { IfOk result (λ flow. flow ≡ Flow.Went → has_passed layout.now count.now span.now.end span.now.step words.new ≡ false) }
{
    meter.step()?;
    match run_all(body, layout, words, meter)? {
        Flow::Went => advance(count, span, layout, words),
        Flow::Left => Ok(Flow::Left),
        Flow::Returned => Ok(Flow::Returned),
    }
}

/// The iterations of FOR, once the variable has its first value, which has not passed the end.
#[cycle(running)]
#[inline(always)]
fn run_counts(
    count: &CountExpr,
    span: Span,
    body: &[CompiledStmt],
    layout: &Layout,
    words: &mut [i64],
    meter: &mut Meter,
) -> Result<Flow, Reason>
    requires frame { AreWords layout.now words.old }
    requires right { codes_right layout.now body.now ≡ true }
    requires slot { IsCounter layout.now count.now }
    requires within { has_passed layout.now count.now span.end span.step words.old ≡ false }
    ensures run { Counts (types_in layout.now) (name_at layout.now count.now.slot) span.end span.step (RunsAll (types_in layout.now) (codes_said layout.now body.now)) (spot layout.now words.old meter.old) (end_of result) (spot layout.now words.new meter.new) }
    ensures kept { AreKept words.old meter.old words.new meter.new }
{
    loop {
        match turn_of_for(count, &span, body, layout, words, meter)? {
            Flow::Went => {}
            Flow::Left => return Ok(Flow::Went),
            Flow::Returned => return Ok(Flow::Returned),
        }
    }
}
