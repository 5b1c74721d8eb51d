//! What the warnings mean.

ghost use Rattle.fb_lint.specs.Conditions.{WarningsHold, WarningsListed};

/// Each warning holds at its position: what its number says is true of the declaration, the deployment and the stimuli.
pub fn warnings_hold()
    ensures { WarningsHold }
{}

/// Each warning that holds at its position is in the list: with `warnings_hold`, the list has exactly those that hold.
pub fn warnings_listed()
    ensures { WarningsListed }
{}
