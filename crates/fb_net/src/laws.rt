//! Laws of the definitions that contracts cite.

ghost use Rattle.fb_net.specs.Events.{MeansAlone};
ghost use Rattle.fb_net.specs.Trees.{OthersStay};

/// A block that becomes one with the same components changes alone: what belongs to any other block of the trees,
/// above it, below it or next to it, stays as it was.
pub fn others_stay()
    ensures { OthersStay }
{}

/// What a row that was given means needs no list of stimuli: it is the same with any.
pub fn given_rows_mean_alone()
    ensures { MeansAlone }
{}
