//! Laws of the definitions.

ghost use Rattle.fb_expect.specs.Laws.{RefusedIsNoTrace};

/// No trace is refused: a text with a line that `judge` may refuse is the trace of no events and no end.
pub fn refused_is_no_trace()
    ensures { RefusedIsNoTrace }
{}
