//! Runs of statements (IEC 61131-3, 7.3.3; the count of steps is this project's profile).

ghost use Rattle.std.specs.Prelude.{◌≡◌, ◌≤◌, ◌<◌, true, false, OnOk, IfOk};
ghost use Rattle.fb_types.specs.Syntax.{body_of, expr_of, stmt_of, step_of, If, For, While, Repeat};
ghost use Rattle.fb_types.specs.Values.{whole};
ghost use Rattle.fb_types.specs.Bodies.{Runs, RunsAll, RunsBranch, Counts, Step, Then, Advances, passed};
ghost use Rattle.fb_st.specs.FrameRuns.{IsKept};
ghost use Rattle.fb_st.specs.Frames.{declared_in, types_in, values_of, is_declared};
ghost use Rattle.fb_st.specs.Flows.{end_of, point, before_step, all_of, choices_of, branches_of};
ghost use Rattle.fb_st.specs.Known.{AssignsKnown, AllKnown, ChoicesKnown, BranchesKnown};

use crate::assign::{Count, advance, has_label, has_passed, run_assignment, step_value};
use crate::evaluation::{eval, holds};
use crate::frame::Frame;
use crate::meter::{Flow, Meter};
use fb_types::{Body, Branch, Choice, Expr, Reason, Reference, Stmt, Value};

/// A run of the statements of an algorithm. RETURN gives `Returned`, which ends the algorithm as its last
/// statement does. EXIT outside of loops, as no accepted text has it, gives `Left`. After a reason the frame
/// holds what the statements before it left. A caller without an accepted text asks `knows` first.
#[inline(never)]
pub fn exec(body: &Body, frame: &mut Frame, meter: &mut Meter) -> Result<Flow, Reason>
    requires known { AllKnown (declared_in frame.old) (body_of body.now) }
    ensures run { RunsAll (types_in (declared_in frame.old)) (body_of body.now) (point frame.old meter.old) (end_of result) (point frame.new meter.new) }
    ensures declared { declared_in frame.new ≡ declared_in frame.old }
    ensures fewer { meter.new.left ≤ meter.old.left }
{
    run_all(body.statements.as_slice(), frame, meter)
}

/// A run of one statement.
#[cycle(exec)]
#[inline(always)]
fn run(statement: &Stmt, frame: &mut Frame, meter: &mut Meter) -> Result<Flow, Reason>
    requires known { AssignsKnown (declared_in frame.old) (stmt_of statement.now) }
    ensures run { Runs (types_in (declared_in frame.old)) (stmt_of statement.now) (point frame.old meter.old) (end_of result) (point frame.new meter.new) }
    ensures kept { IsKept frame.old meter.old frame.new meter.new }
{
    meter.step()?;
    match statement {
        Stmt::Empty => Ok(Flow::Went),
        Stmt::Exit => Ok(Flow::Left),
        Stmt::Return => Ok(Flow::Returned),
        Stmt::Assign(variable, expr) => run_assignment(variable, expr, frame),
        Stmt::If(choices, others) => {
            run_choice(choices.as_slice(), others.as_slice(), frame, meter)
        }
        Stmt::Case(selector, branches, others) => {
            let value = eval(selector, frame)?;
            run_branch(branches.as_slice(), others.as_slice(), value, frame, meter)
        }
        Stmt::For(variable, start, end, step, body) => {
            run_for(body.as_slice(), variable, start, end, step, frame, meter)
        }
        Stmt::While(condition, body) => run_while(body.as_slice(), condition, frame, meter),
        Stmt::Repeat(body, condition) => run_repeat(body.as_slice(), condition, frame, meter),
    }
}

/// A run of statements, one after the other.
#[cycle(exec)]
fn run_all(statements: &[Stmt], frame: &mut Frame, meter: &mut Meter) -> Result<Flow, Reason>
    requires known { AllKnown (declared_in frame.old) (all_of statements.now) }
    ensures run { RunsAll (types_in (declared_in frame.old)) (all_of statements.now) (point frame.old meter.old) (end_of result) (point frame.new meter.new) }
    ensures kept { IsKept frame.old meter.old frame.new meter.new }
{
    for statement in statements {
        match run(statement, frame, meter)? {
            Flow::Went => {}
            Flow::Left => return Ok(Flow::Left),
            Flow::Returned => return Ok(Flow::Returned),
        }
    }
    Ok(Flow::Went)
}

/// A run of the statements after the first condition that is true, else of those of ELSE.
#[cycle(exec)]
#[inline(always)]
fn run_choice(
    choices: &[Choice],
    others: &[Stmt],
    frame: &mut Frame,
    meter: &mut Meter,
) -> Result<Flow, Reason>
    requires known { ChoicesKnown (declared_in frame.old) (choices_of choices.now) }
    requires others_known { AllKnown (declared_in frame.old) (all_of others.now) }
    ensures run { Runs (types_in (declared_in frame.old)) (If (choices_of choices.now) (all_of others.now)) (before_step frame.old meter.old) (end_of result) (point frame.new meter.new) }
    ensures kept { IsKept frame.old meter.old frame.new meter.new }
{
    for choice in choices {
        if holds(&choice.condition, frame)? {
            return run_all(choice.body.as_slice(), frame, meter);
        }
    }
    run_all(others, frame, meter)
}

/// A run of the statements after the first label that fits, else of those of ELSE.
#[cycle(exec)]
fn run_branch(
    branches: &[Branch],
    others: &[Stmt],
    value: Value,
    frame: &mut Frame,
    meter: &mut Meter,
) -> Result<Flow, Reason>
    requires known { BranchesKnown (declared_in frame.old) (branches_of branches.now) }
    requires others_known { AllKnown (declared_in frame.old) (all_of others.now) }
    ensures run { RunsBranch (types_in (declared_in frame.old)) (branches_of branches.now) (whole value) (RunsAll (types_in (declared_in frame.old)) (all_of others.now)) (point frame.old meter.old) (end_of result) (point frame.new meter.new) }
    ensures kept { IsKept frame.old meter.old frame.new meter.new }
{
    for branch in branches {
        if has_label(branch.labels.as_slice(), value) {
            return run_all(branch.body.as_slice(), frame, meter);
        }
    }
    run_all(others, frame, meter)
}

/// An iteration of WHILE or REPEAT, which costs a step before its body.
#[cycle(exec)]
#[inline(always)]
fn turn(body: &[Stmt], frame: &mut Frame, meter: &mut Meter) -> Result<Flow, Reason>
    requires known { AllKnown (declared_in frame.old) (all_of body.now) }
    ensures run { Step (RunsAll (types_in (declared_in frame.old)) (all_of body.now)) (point frame.old meter.old) (end_of result) (point frame.new meter.new) }
    ensures kept { IsKept frame.old meter.old frame.new meter.new }
    ensures less { OnOk result (meter.new.left < meter.old.left) }
{
    meter.step()?;
    run_all(body, frame, meter)
}

/// Iterates while the condition is true.
#[cycle(exec)]
fn run_while(
    body: &[Stmt],
    condition: &Expr,
    frame: &mut Frame,
    meter: &mut Meter,
) -> Result<Flow, Reason>
    requires known { AllKnown (declared_in frame.old) (all_of body.now) }
    ensures run { Runs (types_in (declared_in frame.old)) (While (expr_of condition.now) (all_of body.now)) (before_step frame.old meter.old) (end_of result) (point frame.new meter.new) }
    ensures kept { IsKept frame.old meter.old frame.new meter.new }
{
    while holds(condition, frame)? {
        match turn(body, frame, meter)? {
            Flow::Went => {}
            Flow::Left => return Ok(Flow::Went),
            Flow::Returned => return Ok(Flow::Returned),
        }
    }
    Ok(Flow::Went)
}

/// Iterates until the condition is true, at least once.
#[cycle(exec)]
fn run_repeat(
    body: &[Stmt],
    condition: &Expr,
    frame: &mut Frame,
    meter: &mut Meter,
) -> Result<Flow, Reason>
    requires known { AllKnown (declared_in frame.old) (all_of body.now) }
    ensures run { Runs (types_in (declared_in frame.old)) (Repeat (all_of body.now) (expr_of condition.now)) (before_step frame.old meter.old) (end_of result) (point frame.new meter.new) }
    ensures kept { IsKept frame.old meter.old frame.new meter.new }
{
    loop {
        match turn(body, frame, meter)? {
            Flow::Went => {}
            Flow::Left => return Ok(Flow::Went),
            Flow::Returned => return Ok(Flow::Returned),
        }
        if holds(condition, frame)? {
            return Ok(Flow::Went);
        }
    }
}

/// FOR: start, end and step are evaluated once, in this order, before the variable has its first value.
// Not written into `run`: else the other statements keep registers for it.
#[cycle(exec)]
#[inline(never)]
fn run_for(
    body: &[Stmt],
    variable: &Reference,
    start: &Expr,
    end: &Expr,
    step: &Option<Expr>,
    frame: &mut Frame,
    meter: &mut Meter,
) -> Result<Flow, Reason>
    requires known { AllKnown (declared_in frame.old) (all_of body.now) }
    requires variable_known { is_declared (declared_in frame.old) variable.now ≡ true }
    ensures run { Runs (types_in (declared_in frame.old)) (For variable.now (expr_of start.now) (expr_of end.now) (step_of step.now) (all_of body.now)) (before_step frame.old meter.old) (end_of result) (point frame.new meter.new) }
    ensures kept { IsKept frame.old meter.old frame.new meter.new }
{
    let first = eval(start, frame)?;
    let last = eval(end, frame)?;
    let by = step_value(step, frame)?;
    frame.assign(variable, first)?;
    let count = Count {
        end: last,
        step: by,
    };
    run_counts(body, variable, count, frame, meter)
}

/// An iteration of FOR, which ends with the next value of the variable. If the loop goes on, that value has not passed
/// the end.
#[cycle(exec)]
fn turn_of_for(
    body: &[Stmt],
    variable: &Reference,
    count: Count,
    frame: &mut Frame,
    meter: &mut Meter,
) -> Result<Flow, Reason>
    requires known { AllKnown (declared_in frame.old) (all_of body.now) }
    requires variable_known { is_declared (declared_in frame.old) variable.now ≡ true }
    ensures run { Step (Then (RunsAll (types_in (declared_in frame.old)) (all_of body.now)) (Advances (types_in (declared_in frame.old)) variable.now (whole count.end) (whole count.step))) (point frame.old meter.old) (end_of result) (point frame.new meter.new) }
    ensures kept { IsKept frame.old meter.old frame.new meter.new }
    ensures less { OnOk result (meter.new.left < meter.old.left) }
    ensures within { IfOk result (λ flow. flow ≡ Flow.Went → passed (whole count.end) (whole count.step) (whole (values_of frame.new variable.now)) ≡ false) }
{
    meter.step()?;
    match run_all(body, frame, meter)? {
        Flow::Went => advance(variable, count, frame),
        Flow::Left => Ok(Flow::Left),
        Flow::Returned => Ok(Flow::Returned),
    }
}

/// The iterations of FOR, once the variable has its first value.
#[cycle(exec)]
fn run_counts(
    body: &[Stmt],
    variable: &Reference,
    count: Count,
    frame: &mut Frame,
    meter: &mut Meter,
) -> Result<Flow, Reason>
    requires known { AllKnown (declared_in frame.old) (all_of body.now) }
    requires variable_known { is_declared (declared_in frame.old) variable.now ≡ true }
    ensures run { Counts (types_in (declared_in frame.old)) variable.now (whole count.end) (whole count.step) (RunsAll (types_in (declared_in frame.old)) (all_of body.now)) (point frame.old meter.old) (end_of result) (point frame.new meter.new) }
    ensures kept { IsKept frame.old meter.old frame.new meter.new }
{
    if has_passed(count, frame.value(variable)) {
        return Ok(Flow::Went);
    }
    loop {
        match turn_of_for(body, variable, count, frame, meter)? {
            Flow::Went => {}
            Flow::Left => return Ok(Flow::Went),
            Flow::Returned => return Ok(Flow::Returned),
        }
    }
}
