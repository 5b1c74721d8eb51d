//! What a dump with the inside of basic blocks is without it.

ghost use Rattle.fb_inspect.specs.dump.StateLaws.{AddsOnlyStates};

/// Without the lines of the inside of blocks, a dump with these is the dump of the lines of its takings.
pub fn adds_only_states()
    ensures { AddsOnlyStates }
{}
