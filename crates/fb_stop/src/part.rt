//! What statements do that hold no statements: assignments, labels, and the values of FOR.

ghost use Rattle.std.specs.Prelude.{◌≡◌, ℕ, suc, true, false, int_le, ◌&&◌, Option, Some, IfErr, IfOk};
ghost use Rattle.std.specs.List.{list_any};
ghost use Rattle.fb_types.specs.Syntax.{Assign, For, Stmts, expr_of, step_of};
ghost use Rattle.fb_types.specs.Bodies.{Point, label_fits, passed};
ghost use Rattle.fb_types.specs.Values.{value_of, whole};
ghost use Rattle.fb_st.specs.Frames.{declared_in, is_declared, types_in, values_of};
ghost use Rattle.fb_stop.specs.Numbers.{next as number_after};
ghost use Rattle.fb_stop.specs.Blamed.{Advances, Counts, End, Runs, RunsAll, Stopped, placed};
ghost use Rattle.fb_stop.specs.Ends.{end_of};

use crate::fault::{Fault, assign, eval};
use fb_st::{Flow, Frame};
use fb_types::{Expr, Label, Reference, Value};

/// An assignment, once its step is begun.
pub(crate) fn run_assignment(
    variable: &Reference,
    expr: &Expr,
    frame: &mut Frame,
    around: Option<usize>,
    number: usize,
) -> Result<Flow, Fault>
    requires known { is_declared (declared_in frame.old) variable.now ≡ true }
    ensures run { (left : ℕ) → Runs (types_in (declared_in frame.old)) around number (Assign variable.now (expr_of expr.now)) (record { vars = values_of frame.old; left = suc left }) (end_of result) (record { vars = values_of frame.new; left = left }) }
    ensures declared { declared_in frame.new ≡ declared_in frame.old }
{
    let value = eval(expr, frame, number)?;
    assign(frame, variable, value, number)?;
    Ok(Flow::Went)
}

/// The number that a value is. A truth value counts as 0.
fn whole_of(value: Value) -> i128
    ensures { result ≡ whole value }
{
    match value {
        Value::Bool(_) => 0,
        Value::Whole(number) => number,
    }
}

/// Whether one of the labels fits. A range whose first bound is greater than its last fits nothing.
#[tactic(auto, using(fb_st::proofs::lemmas::Runs::labels_any))]
pub(crate) fn has_label(labels: &[Label], value: Value) -> bool
    ensures { result ≡ label_fits labels.now (whole value) }
{
    is_any_around(labels, whole_of(value))
}

fn is_any_around(labels: &[Label], number: i128) -> bool
    ensures { result ≡ list_any (λ l. int_le l.first number && int_le number l.last) labels.now }
{
    for label in labels {
        if label.first <= number && number <= label.last {
            return true;
        }
    }
    false
}

/// The step of FOR, which is 1 where the text has none.
pub(crate) fn step_value(step: &Option<Expr>, frame: &Frame, number: usize) -> Result<Value, Fault>
    ensures { result ≡ placed number (value_of (step_of step.now) (values_of frame.now)) }
{
    match step {
        Some(expr) => eval(expr, frame, number),
        None => Ok(Value::Whole(1)),
    }
}

/// Where the variable of FOR ends, and its step, both whole numbers.
#[derive(Clone, Copy)]
pub(crate) struct Count {
    pub(crate) end: Value,
    pub(crate) step: Value,
}

/// What FOR does before its iterations: start, end and step are evaluated once, in this order, before the variable has
/// its first value.
pub(crate) fn begin_for(
    variable: &Reference,
    start: &Expr,
    end: &Expr,
    step: &Option<Expr>,
    frame: &mut Frame,
    number: usize,
) -> Result<Count, Fault>
    requires known { is_declared (declared_in frame.old) variable.now ≡ true }
    ensures begun { IfOk result (λ c. (around : Option ℕ) (body : Stmts) (left : ℕ) (e : End) (q : Point)
        → Counts (types_in (declared_in frame.old)) number variable.now (whole c.end) (whole c.step) (RunsAll (types_in (declared_in frame.old)) (Some number) (number_after number) body) (record { vars = values_of frame.new; left = left }) e q
        → Runs (types_in (declared_in frame.old)) around number (For variable.now (expr_of start.now) (expr_of end.now) (step_of step.now) body) (record { vars = values_of frame.old; left = suc left }) e q) }
    ensures failed { IfErr result (λ f. (around : Option ℕ) (body : Stmts) (left : ℕ)
        → Runs (types_in (declared_in frame.old)) around number (For variable.now (expr_of start.now) (expr_of end.now) (step_of step.now) body) (record { vars = values_of frame.old; left = suc left }) (Stopped f) (record { vars = values_of frame.new; left = left })) }
    ensures declared { declared_in frame.new ≡ declared_in frame.old }
{
    let first = eval(start, frame, number)?;
    let last = eval(end, frame, number)?;
    let by = step_value(step, frame, number)?;
    assign(frame, variable, first, number)?;
    Ok(Count {
        end: last,
        step: by,
    })
}

/// Whether a value of the variable of FOR has passed the end. With step 0 none has.
pub(crate) fn has_passed(count: Count, value: Value) -> bool
    ensures { result ≡ passed (whole count.end) (whole count.step) (whole value) }
{
    is_past(whole_of(count.end), whole_of(count.step), whole_of(value))
}

fn is_past(end: i128, step: i128, number: i128) -> bool
    ensures { result ≡ passed end step number }
{
    if 0 < step {
        end < number
    } else {
        step < 0 && number < end
    }
}

/// The next value of the variable of FOR, or the end of the loop, where the variable keeps its value. A value that it
/// gives has not passed the end.
pub(crate) fn advance(
    variable: &Reference,
    count: Count,
    frame: &mut Frame,
    number: usize,
) -> Result<Flow, Fault>
    requires known { is_declared (declared_in frame.old) variable.now ≡ true }
    ensures run { (left : ℕ) → Advances (types_in (declared_in frame.old)) number variable.now (whole count.end) (whole count.step) (record { vars = values_of frame.old; left = left }) (end_of result) (record { vars = values_of frame.new; left = left }) }
    ensures declared { declared_in frame.new ≡ declared_in frame.old }
    ensures within { IfOk result (λ flow. flow ≡ Flow.Went → passed (whole count.end) (whole count.step) (whole (values_of frame.new variable.now)) ≡ false) }
{
    let end = whole_of(count.end);
    let step = whole_of(count.step);
    match frame.whole(variable).checked_add(step) {
        Some(next) if !is_past(end, step, next) => {
            assign(frame, variable, Value::Whole(next), number)?;
            Ok(Flow::Went)
        }
        // a sum outside 128 bits has passed the end, which is within
        _ => Ok(Flow::Left),
    }
}
