//! The parts of statements that hold no statements: assignments, labels, and the values of FOR.

ghost use Rattle.std.specs.Prelude.{◌≡◌, ℕ, suc, true, false, int_le, ◌&&◌, IfOk};
ghost use Rattle.std.specs.List.{list_any};
ghost use Rattle.fb_types.specs.Syntax.{Assign, expr_of, step_of};
ghost use Rattle.fb_types.specs.Values.{value_of, whole};
ghost use Rattle.fb_types.specs.Bodies.{Runs, Advances, label_fits, passed};
ghost use Rattle.fb_st.specs.Frames.{declared_in, is_declared, types_in, values_of};
ghost use Rattle.fb_st.specs.Flows.{end_of};

use crate::evaluation::eval;
use crate::frame::Frame;
use crate::meter::Flow;
use crate::operator::whole_of;
use fb_types::{Expr, Label, Reason, Reference, Value};

/// An assignment, once its step is begun.
#[inline(always)]
pub fn run_assignment(variable: &Reference, expr: &Expr, frame: &mut Frame) -> Result<Flow, Reason>
    requires known { is_declared (declared_in frame.old) variable.now ≡ true }
    ensures run { (left : ℕ) → Runs (types_in (declared_in frame.old)) (Assign variable.now (expr_of expr.now)) (record { vars = values_of frame.old; left = suc left }) (end_of result) (record { vars = values_of frame.new; left = left }) }
    ensures declared { declared_in frame.new ≡ declared_in frame.old }
{
    let value = eval(expr, frame)?;
    frame.assign(variable, value)?;
    Ok(Flow::Went)
}

/// Whether one of the labels fits. A range whose first bound is greater than its last fits nothing.
#[tactic(auto, using(crate::proofs::lemmas::Runs::labels_any))]
pub fn has_label(labels: &[Label], value: Value) -> bool
    ensures { result ≡ label_fits labels.now (whole value) }
{
    is_any_around(labels, whole_of(value))
}

pub(crate) fn is_any_around(labels: &[Label], number: i128) -> bool
    ensures { result ≡ list_any (λ l. int_le l.first number && int_le number l.last) labels.now }
{
    labels
        .iter()
        .any(|label| label.first <= number && number <= label.last)
}

/// The step of FOR, which is 1 where the text has none.
pub fn step_value(step: &Option<Expr>, frame: &Frame) -> Result<Value, Reason>
    ensures { result ≡ value_of (step_of step.now) (values_of frame.now) }
{
    match step {
        Some(expr) => eval(expr, frame),
        None => Ok(Value::Whole(1)),
    }
}

/// Where the variable of FOR ends, and its step, both whole numbers.
#[derive(Clone, Copy)]
pub struct Count {
    pub end: Value,
    pub step: Value,
}

/// Whether a value of the variable of FOR has passed the end.
#[inline(always)]
pub fn has_passed(count: Count, value: Value) -> bool
    ensures { result ≡ passed (whole count.end) (whole count.step) (whole value) }
{
    is_past(whole_of(count.end), whole_of(count.step), whole_of(value))
}

/// Whether a number has passed the end. With step 0 none has.
#[inline(always)]
pub(crate) fn is_past(end: i128, step: i128, number: i128) -> bool
    ensures { result ≡ passed end step number }
{
    if 0 < step {
        end < number
    } else {
        step < 0 && number < end
    }
}

/// The next value of the variable of FOR, or the end of the loop, where the variable keeps its value. A value that it
/// gives has not passed the end.
#[inline(always)]
pub fn advance(variable: &Reference, count: Count, frame: &mut Frame) -> Result<Flow, Reason>
    requires known { is_declared (declared_in frame.old) variable.now ≡ true }
    ensures run { (left : ℕ) → Advances (types_in (declared_in frame.old)) variable.now (whole count.end) (whole count.step) (record { vars = values_of frame.old; left = left }) (end_of result) (record { vars = values_of frame.new; left = left }) }
    ensures declared { declared_in frame.new ≡ declared_in frame.old }
    ensures within { IfOk result (λ flow. flow ≡ Flow.Went → passed (whole count.end) (whole count.step) (whole (values_of frame.new variable.now)) ≡ false) }
{
    let end = whole_of(count.end);
    let step = whole_of(count.step);
    match frame.whole(variable).checked_add(step) {
        Some(next) if !is_past(end, step, next) => {
            frame.assign(variable, Value::Whole(next))?;
            Ok(Flow::Went)
        }
        // a sum outside 128 bits has passed the end, which is within
        _ => Ok(Flow::Left),
    }
}
