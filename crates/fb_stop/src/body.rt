//! Runs the body of an algorithm up to the statement that gives a reason.

ghost use Rattle.std.specs.Prelude.{◌≡◌, ◌≢◌, ◌≤◌, IfSome, None};
ghost use Rattle.fb_types.specs.Bodies.{RunsAll as Defined};
ghost use Rattle.fb_types.specs.Syntax.{body_of};
ghost use Rattle.fb_st.specs.Flows.{point};
ghost use Rattle.fb_st.specs.Frames.{declared_in, types_in};
ghost use Rattle.fb_st.specs.Known.{AllKnown};
ghost use Rattle.fb_stop.specs.Blamed.{RunsAll, plain};
ghost use Rattle.fb_stop.specs.Ends.{end_of};

use crate::fault::Fault;
use crate::running::run_each;
use fb_st::{Flow, Frame, Meter, knows};
use fb_types::Body;

/// A run of the statements of an algorithm, as the definitions have it. A reason comes with the number of the statement
/// to blame, and then the frame has what the variables hold there. `None` if the algorithm assigns a variable that the
/// frame has not, as no accepted text has it.
pub fn run_body(body: &Body, frame: &mut Frame, meter: &mut Meter) -> Option<Result<Flow, Fault>>
    ensures run { IfSome result (λ r. RunsAll (types_in (declared_in frame.old)) None 0 (body_of body.now) (point frame.old meter.old) (end_of r) (point frame.new meter.new)) }
    ensures defined { IfSome result (λ r. Defined (types_in (declared_in frame.old)) (body_of body.now) (point frame.old meter.old) (plain (end_of r)) (point frame.new meter.new)) }
    ensures some { AllKnown (declared_in frame.old) (body_of body.now) → result ≢ None }
    ensures declared { declared_in frame.new ≡ declared_in frame.old }
    ensures fewer { meter.new.left ≤ meter.old.left }
{
    if !knows(body, frame) {
        return None;
    }
    Some(run_each(body.statements.as_slice(), None, 0, frame, meter))
}
