//! Runs algorithms and guards in their compiled form.

ghost use Rattle.std.specs.Prelude.{◌≡◌, ◌≤◌, List, None, IfSome};
ghost use Rattle.fb_types.specs.Bodies.{RunsAll};
ghost use Rattle.fb_types.specs.Syntax.{Stmt, expr_of, stmts};
ghost use Rattle.fb_types.specs.Values.{truth_of};
ghost use Rattle.fb_st.specs.Flows.{end_of, point};
ghost use Rattle.fb_st.specs.Frames.{declared_in, types_in, values_of};
ghost use Rattle.fb_st.specs.Made.{SaysAll, SaysTruth};

use crate::compiled::{CompiledStmt, TruthExpr};
use crate::evaluation::holds;
use crate::frame::Frame;
use crate::layout::Layout;
use crate::meter::{Flow, Meter};
use crate::running::run_all;
use fb_types::{Expr, Reason};

/// Runs the compiled form of an algorithm as `exec` runs its text. `None` if there is no compiled form, or a variable
/// holds a value that its type does not hold: then nothing is run, and `exec` runs the text. So callers look up the text
/// only where it is needed.
#[inline(always)]
pub fn exec_compiled(
    codes: Option<&[CompiledStmt]>,
    layout: &Layout,
    frame: &mut Frame,
    meter: &mut Meter,
) -> Option<Result<Flow, Reason>>
    requires layout { layout.now ≡ declared_in frame.old }
    requires says { (text : List Stmt) × IfSome codes (λ c. SaysAll layout.now text c.now) }
    ensures run { (text : List Stmt) → IfSome codes.entry (λ c. SaysAll layout.now text c.now) →
        IfSome result (λ r. RunsAll (types_in (declared_in frame.old)) (stmts text) (point frame.old meter.old) (end_of r) (point frame.new meter.new)) }
    ensures none { result ≡ None → (frame.new ≡ frame.old) × (meter.new ≡ meter.old) }
    ensures declared { declared_in frame.new ≡ declared_in frame.old }
    ensures fewer { meter.new.left ≤ meter.old.left }
{
    let Some(codes) = codes else {
        return None;
    };
    if !frame.slots.is_plain {
        return None;
    }
    let words = frame.slots.words.as_mut_slice();
    Some(run_all(codes, layout, words, meter))
}

/// Whether a guard is true, as `holds` says. It evaluates the compiled form if there is one and each variable holds a
/// value of its type.
#[inline(always)]
pub fn holds_compiled(
    guard: &Expr,
    compiled: Option<&TruthExpr>,
    layout: &Layout,
    frame: &Frame,
) -> Result<bool, Reason>
    requires layout { layout.now ≡ declared_in frame.now }
    requires says { IfSome compiled (λ c. SaysTruth layout.now (expr_of guard.now) c.now) }
    ensures { result ≡ truth_of (expr_of guard.now) (values_of frame.now) }
{
    match compiled {
        Some(compiled) => match frame.slots.holds_condition(compiled, layout) {
            Some(result) => result,
            None => holds(guard, frame),
        },
        None => holds(guard, frame),
    }
}
