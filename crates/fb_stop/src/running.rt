//! Runs of statements, as `fb_st` has them, with the statement to blame for a reason.

ghost use Rattle.std.specs.Prelude.{◌≡◌, ◌<◌, Some, true, false, OnOk, IfOk};
ghost use Rattle.fb_types.specs.Syntax.{expr_of, stmt_of, step_of, If, For, While, Repeat};
ghost use Rattle.fb_types.specs.Values.{whole};
ghost use Rattle.fb_types.specs.Bodies.{passed};
ghost use Rattle.fb_st.specs.FrameRuns.{IsKept};
ghost use Rattle.fb_st.specs.Frames.{declared_in, types_in, values_of, is_declared};
ghost use Rattle.fb_st.specs.Flows.{point, before_step, all_of, choices_of, branches_of};
ghost use Rattle.fb_st.specs.Known.{AssignsKnown, AllKnown, ChoicesKnown, BranchesKnown};
ghost use Rattle.fb_stop.specs.Numbers.{after_branches, next as number_after};
ghost use Rattle.fb_stop.specs.Blamed.{Runs, RunsAll, RunsBranch, Counts, Step, Then, Advances, blamed as loop_or_itself};
ghost use Rattle.fb_stop.specs.Ends.{end_of};

use crate::fault::{Fault, begin, eval, holds};
use crate::number::{after, after_all, next};
use crate::part::{Count, advance, begin_for, has_label, has_passed, run_assignment};
use fb_st::{Flow, Frame, Meter};
use fb_types::{Branch, Choice, Expr, Reference, Stmt, Value};

/// The statement to blame where no step is left: the innermost loop around this one, or itself if it is in none.
fn blamed(around: Option<usize>, number: usize) -> usize
    ensures { result ≡ loop_or_itself around number }
{
    around.unwrap_or(number)
}

/// A run of one statement, of this number. Around it is the loop of that number, if it is in one.
#[cycle(run)]
fn run(
    statement: &Stmt,
    around: Option<usize>,
    number: usize,
    frame: &mut Frame,
    meter: &mut Meter,
) -> Result<Flow, Fault>
    requires known { AssignsKnown (declared_in frame.old) (stmt_of statement.now) }
    ensures run { Runs (types_in (declared_in frame.old)) around number (stmt_of statement.now) (point frame.old meter.old) (end_of result) (point frame.new meter.new) }
    ensures kept { IsKept frame.old meter.old frame.new meter.new }
{
    begin(meter, blamed(around, number))?;
    match statement {
        Stmt::Empty => Ok(Flow::Went),
        Stmt::Exit => Ok(Flow::Left),
        Stmt::Return => Ok(Flow::Returned),
        Stmt::Assign(variable, expr) => run_assignment(variable, expr, frame, around, number),
        Stmt::If(choices, others) => run_choice(
            choices.as_slice(),
            others.as_slice(),
            around,
            number,
            frame,
            meter,
        ),
        Stmt::Case(selector, branches, others) => {
            let value = eval(selector, frame, number)?;
            let inside = next(number);
            run_branch(
                branches.as_slice(),
                others.as_slice(),
                value,
                around,
                inside,
                frame,
                meter,
            )
        }
        Stmt::For(variable, start, end, step, body) => run_for(
            body.as_slice(),
            variable,
            start,
            end,
            step,
            around,
            number,
            frame,
            meter,
        ),
        Stmt::While(condition, body) => {
            run_while(body.as_slice(), condition, around, number, frame, meter)
        }
        Stmt::Repeat(body, condition) => {
            run_repeat(body.as_slice(), condition, around, number, frame, meter)
        }
    }
}

/// A run of statements, one after the other. The first one has this number.
#[cycle(run)]
pub(crate) fn run_each(
    statements: &[Stmt],
    around: Option<usize>,
    first: usize,
    frame: &mut Frame,
    meter: &mut Meter,
) -> Result<Flow, Fault>
    requires known { AllKnown (declared_in frame.old) (all_of statements.now) }
    ensures run { RunsAll (types_in (declared_in frame.old)) around first (all_of statements.now) (point frame.old meter.old) (end_of result) (point frame.new meter.new) }
    ensures kept { IsKept frame.old meter.old frame.new meter.new }
{
    let mut number = first;
    for statement in statements {
        match run(statement, around, number, frame, meter)? {
            Flow::Went => {}
            Flow::Left => return Ok(Flow::Left),
            Flow::Returned => return Ok(Flow::Returned),
        }
        number = after(statement, number);
    }
    Ok(Flow::Went)
}

/// A run of the statements after the first condition that is true, else of those of ELSE.
#[cycle(run)]
fn run_choice(
    choices: &[Choice],
    others: &[Stmt],
    around: Option<usize>,
    number: usize,
    frame: &mut Frame,
    meter: &mut Meter,
) -> Result<Flow, Fault>
    requires known { ChoicesKnown (declared_in frame.old) (choices_of choices.now) }
    requires others_known { AllKnown (declared_in frame.old) (all_of others.now) }
    ensures run { Runs (types_in (declared_in frame.old)) around number (If (choices_of choices.now) (all_of others.now)) (before_step frame.old meter.old) (end_of result) (point frame.new meter.new) }
    ensures kept { IsKept frame.old meter.old frame.new meter.new }
{
    let mut inside = next(number);
    for choice in choices {
        if holds(&choice.condition, frame, number)? {
            return run_each(choice.body.as_slice(), around, inside, frame, meter);
        }
        inside = after_all(choice.body.as_slice(), inside);
    }
    run_each(others, around, inside, frame, meter)
}

/// A run of the statements after the first label that fits, else of those of ELSE. The first statement has this number.
#[cycle(run)]
fn run_branch(
    branches: &[Branch],
    others: &[Stmt],
    value: Value,
    around: Option<usize>,
    first: usize,
    frame: &mut Frame,
    meter: &mut Meter,
) -> Result<Flow, Fault>
    requires known { BranchesKnown (declared_in frame.old) (branches_of branches.now) }
    requires others_known { AllKnown (declared_in frame.old) (all_of others.now) }
    ensures run { RunsBranch (types_in (declared_in frame.old)) around first (branches_of branches.now) (whole value) (RunsAll (types_in (declared_in frame.old)) around (after_branches (branches_of branches.now) first) (all_of others.now)) (point frame.old meter.old) (end_of result) (point frame.new meter.new) }
    ensures kept { IsKept frame.old meter.old frame.new meter.new }
{
    let mut inside = first;
    for branch in branches {
        if has_label(branch.labels.as_slice(), value) {
            return run_each(branch.body.as_slice(), around, inside, frame, meter);
        }
        inside = after_all(branch.body.as_slice(), inside);
    }
    run_each(others, around, inside, frame, meter)
}

/// An iteration of the WHILE or REPEAT of this number, which costs a step before its body.
#[cycle(run)]
fn turn(body: &[Stmt], number: usize, frame: &mut Frame, meter: &mut Meter) -> Result<Flow, Fault>
    requires known { AllKnown (declared_in frame.old) (all_of body.now) }
    ensures run { Step number (RunsAll (types_in (declared_in frame.old)) (Some number) (number_after number) (all_of body.now)) (point frame.old meter.old) (end_of result) (point frame.new meter.new) }
    ensures kept { IsKept frame.old meter.old frame.new meter.new }
    ensures less { OnOk result (meter.new.left < meter.old.left) }
{
    begin(meter, number)?;
    run_each(body, Some(number), next(number), frame, meter)
}

/// Iterations while the condition is true.
#[cycle(run)]
fn run_while(
    body: &[Stmt],
    condition: &Expr,
    around: Option<usize>,
    number: usize,
    frame: &mut Frame,
    meter: &mut Meter,
) -> Result<Flow, Fault>
    requires known { AllKnown (declared_in frame.old) (all_of body.now) }
    ensures run { Runs (types_in (declared_in frame.old)) around number (While (expr_of condition.now) (all_of body.now)) (before_step frame.old meter.old) (end_of result) (point frame.new meter.new) }
    ensures kept { IsKept frame.old meter.old frame.new meter.new }
{
    while holds(condition, frame, number)? {
        match turn(body, number, frame, meter)? {
            Flow::Went => {}
            Flow::Left => return Ok(Flow::Went),
            Flow::Returned => return Ok(Flow::Returned),
        }
    }
    Ok(Flow::Went)
}

/// Turns until the condition is true, one at least.
#[cycle(run)]
fn run_repeat(
    body: &[Stmt],
    condition: &Expr,
    around: Option<usize>,
    number: usize,
    frame: &mut Frame,
    meter: &mut Meter,
) -> Result<Flow, Fault>
    requires known { AllKnown (declared_in frame.old) (all_of body.now) }
    ensures run { Runs (types_in (declared_in frame.old)) around number (Repeat (all_of body.now) (expr_of condition.now)) (before_step frame.old meter.old) (end_of result) (point frame.new meter.new) }
    ensures kept { IsKept frame.old meter.old frame.new meter.new }
{
    loop {
        match turn(body, number, frame, meter)? {
            Flow::Went => {}
            Flow::Left => return Ok(Flow::Went),
            Flow::Returned => return Ok(Flow::Returned),
        }
        if holds(condition, frame, number)? {
            return Ok(Flow::Went);
        }
    }
}

/// FOR, once its step is begun.
#[cycle(run)]
fn run_for(
    body: &[Stmt],
    variable: &Reference,
    start: &Expr,
    end: &Expr,
    step: &Option<Expr>,
    around: Option<usize>,
    number: usize,
    frame: &mut Frame,
    meter: &mut Meter,
) -> Result<Flow, Fault>
    requires known { AllKnown (declared_in frame.old) (all_of body.now) }
    requires variable_known { is_declared (declared_in frame.old) variable.now ≡ true }
    ensures run { Runs (types_in (declared_in frame.old)) around number (For variable.now (expr_of start.now) (expr_of end.now) (step_of step.now) (all_of body.now)) (before_step frame.old meter.old) (end_of result) (point frame.new meter.new) }
    ensures kept { IsKept frame.old meter.old frame.new meter.new }
{
    let count = begin_for(variable, start, end, step, frame, number)?;
    run_counts(body, variable, count, number, frame, meter)
}

/// An iteration of FOR, which ends by the next value of the variable. Where it went on, that value has not passed the
/// end.
#[cycle(run)]
fn turn_of_for(
    body: &[Stmt],
    variable: &Reference,
    count: Count,
    number: usize,
    frame: &mut Frame,
    meter: &mut Meter,
) -> Result<Flow, Fault>
    requires known { AllKnown (declared_in frame.old) (all_of body.now) }
    requires variable_known { is_declared (declared_in frame.old) variable.now ≡ true }
    ensures run { Step number (Then (RunsAll (types_in (declared_in frame.old)) (Some number) (number_after number) (all_of body.now)) (Advances (types_in (declared_in frame.old)) number variable.now (whole count.end) (whole count.step))) (point frame.old meter.old) (end_of result) (point frame.new meter.new) }
    ensures kept { IsKept frame.old meter.old frame.new meter.new }
    ensures less { OnOk result (meter.new.left < meter.old.left) }
    ensures within { IfOk result (λ flow. flow ≡ Flow.Went → passed (whole count.end) (whole count.step) (whole (values_of frame.new variable.now)) ≡ false) }
{
    begin(meter, number)?;
    match run_each(body, Some(number), next(number), frame, meter)? {
        Flow::Went => advance(variable, count, frame, number),
        Flow::Left => Ok(Flow::Left),
        Flow::Returned => Ok(Flow::Returned),
    }
}

/// The iterations of FOR, once the variable has its first value.
#[cycle(run)]
fn run_counts(
    body: &[Stmt],
    variable: &Reference,
    count: Count,
    number: usize,
    frame: &mut Frame,
    meter: &mut Meter,
) -> Result<Flow, Fault>
    requires known { AllKnown (declared_in frame.old) (all_of body.now) }
    requires variable_known { is_declared (declared_in frame.old) variable.now ≡ true }
    ensures run { Counts (types_in (declared_in frame.old)) number variable.now (whole count.end) (whole count.step) (RunsAll (types_in (declared_in frame.old)) (Some number) (number_after number) (all_of body.now)) (point frame.old meter.old) (end_of result) (point frame.new meter.new) }
    ensures kept { IsKept frame.old meter.old frame.new meter.new }
{
    if has_passed(count, frame.value(variable)) {
        return Ok(Flow::Went);
    }
    loop {
        match turn_of_for(body, variable, count, number, frame, meter)? {
            Flow::Went => {}
            Flow::Left => return Ok(Flow::Went),
            Flow::Returned => return Ok(Flow::Returned),
        }
    }
}
