//! A reason, and the statement that gives it.

ghost use Rattle.std.specs.Prelude.{◌≡◌, suc, true, false, IfErr, None, OnOk, Some};
ghost use Rattle.fb_types.specs.Names.{with_value};
ghost use Rattle.fb_types.specs.Syntax.{expr_of};
ghost use Rattle.fb_types.specs.Values.{fits, truth_of, value_of};
ghost use Rattle.fb_st.specs.Frames.{declared_in, is_declared, types_in, values_of};
ghost use Rattle.fb_stop.specs.Blamed.{placed};

use fb_st::{Frame, Meter, eval as value_in, holds as holds_in};
use fb_types::{Expr, Reason, Reference, Value};

/// A reason that stops a run, and the statement to blame.
#[derive(Clone, Copy)]
pub struct Fault {
    pub reason: Reason,
    /// The number of the statement. Statements are counted from 0 as they begin in the text, those inside others too.
    pub number: usize,
    /// The value that the statement gives its variable, if the variable's type does not hold it.
    pub value: Option<Value>,
}

/// Begins a step. With none left the run stops, and this statement is to blame.
pub(crate) fn begin(meter: &mut Meter, blamed: usize) -> Result<(), Fault>
    ensures ok { OnOk result (meter.old.left ≡ suc meter.new.left) }
    ensures err { IfErr result (λ f. (f ≡ record { reason = Reason.Steps; number = blamed; value = None }) × (meter.old.left ≡ 0) × (meter.new.left ≡ 0)) }
{
    match meter.step() {
        Ok(()) => Ok(()),
        Err(reason) => Err(Fault {
            reason,
            number: blamed,
            value: None,
        }),
    }
}

/// A reason for which an expression of the statement of this number has no value.
fn unvalued(reason: Reason, number: usize) -> Fault
    ensures { result ≡ record { reason = reason; number = number; value = None } }
{
    Fault {
        reason,
        number,
        value: None,
    }
}

/// The value of an expression of the statement of this number.
pub(crate) fn eval(expr: &Expr, frame: &Frame, number: usize) -> Result<Value, Fault>
    ensures { result ≡ placed number (value_of (expr_of expr.now) (values_of frame.now)) }
{
    match value_in(expr, frame) {
        Ok(value) => Ok(value),
        Err(reason) => Err(unvalued(reason, number)),
    }
}

/// Whether a condition of the statement of this number is true.
pub(crate) fn holds(condition: &Expr, frame: &Frame, number: usize) -> Result<bool, Fault>
    ensures { result ≡ placed number (truth_of (expr_of condition.now) (values_of frame.now)) }
{
    match holds_in(condition, frame) {
        Ok(truth) => Ok(truth),
        Err(reason) => Err(unvalued(reason, number)),
    }
}

/// The statement of this number gives a variable a value. Outside of its type's range the variable keeps its own.
pub(crate) fn assign(
    frame: &mut Frame,
    variable: &Reference,
    value: Value,
    number: usize,
) -> Result<(), Fault>
    requires { is_declared (declared_in frame.old) variable.now ≡ true }
    ensures ok { OnOk result ((fits (types_in (declared_in frame.old) variable.now) value ≡ true) × (values_of frame.new ≡ with_value variable.now value (values_of frame.old))) }
    ensures err { IfErr result (λ f. (f ≡ record { reason = Reason.Range; number = number; value = Some value }) × (fits (types_in (declared_in frame.old) variable.now) value ≡ false) × (frame.new ≡ frame.old)) }
    ensures declared { declared_in frame.new ≡ declared_in frame.old }
{
    match frame.assign(variable, value) {
        Ok(()) => Ok(()),
        Err(reason) => Err(Fault {
            reason,
            number,
            value: Some(value),
        }),
    }
}
