//! What holds of sessions by the definitions.

ghost use Rattle.fb_session.specs.Going.{ToldIsFront};

/// Wherever a session stands, what it has written is a beginning of the trace of the inputs with all rows, also with
/// rows that are given later.
///
/// This function does nothing when it runs, and no program calls it: it is there for its contract.
pub fn told_is_front()
    ensures { ToldIsFront }
{}
