//! The core of the parallel run: all resources at home, and what of it remains while they are away.

ghost use Rattle.std.specs.Prelude.{◌≡◌};

use crate::job::Job;
use crate::links::SystemLinks;
use fb_resource::Resource;
use fb_types::{Line, MOST_RESOURCES, StopMark};
use std::alloc::AllocError;
use std::marker::Model;
use std::snapshot::Snapshot;

/// What a core holds.
#[derive(Drop)]
pub struct CoreState {
    /// The links of the system that is run. Contracts see by them which system it is.
    pub system: SystemLinks,
    /// The limit on the steps of one tick of a resource.
    pub steps: u64,
    /// The resources, in order.
    pub resources: Vec<Resource>,
    /// For each resource its lines that are not final yet.
    pub pending: Vec<Vec<Line>>,
}

/// All resources of a system at home, with no message on its way: some schedule of the model's steps has led to them.
/// Contracts see what the core holds.
#[derive(Drop)]
pub struct Core {
    pub(crate) state: CoreState,
}

impl Model for Core {
    ghost use Rattle.fb_window.specs.Reached.{IsReached};
    ghost use Rattle.fb_window.specs.declared.cores.CoreState.{CoreState};
    ghost use Rattle.fb_window.specs.contracts.cores.CoreState.{the_row};

    ghost Value = { CoreState };

    ghost coded = { the_row.coded };

    ghost view = { λ c. c.state };

    ghost invariant = { λ c. IsReached c.state };
}

impl Core {
    /// What it holds.
    pub fn state(&self) -> &CoreState
        ensures { result.now ≡ self.now }
    {
        &self.state
    }
}

/// How far each resource may run, in ticks: to below the bound at its index. The indexes past the last resource
/// have no meaning.
#[derive(Drop)]
pub struct Bounds {
    /// The tick past which no bound is.
    pub horizon: u64,
    /// The bounds.
    pub all: [u64; MOST_RESOURCES],
}

/// What remains while resources are away.
#[derive(Drop)]
pub struct AwayState {
    /// The links of the system that is run. Contracts see by them which system it is.
    pub system: SystemLinks,
    /// The limit on the steps of one tick of a resource.
    pub steps: u64,
    /// The tick past which no bound is.
    pub horizon: u64,
    /// At the index of each resource that has stopped, this resource.
    pub resting: Vec<Option<Resource>>,
    /// For each resource its lines that are not final yet.
    pub pending: Vec<Vec<Line>>,
    /// The jobs with which the others have left, for contracts only.
    pub jobs: Snapshot<Vec<Job>>,
}

/// What remains of a core while resources are away, which have left with legal bounds. Contracts see what it holds.
#[derive(Drop)]
pub struct Away {
    pub(crate) state: AwayState,
}

impl Model for Away {
    ghost use Rattle.fb_window.specs.Reached.{IsAway};
    ghost use Rattle.fb_window.specs.declared.cores.AwayState.{AwayState};
    ghost use Rattle.fb_window.specs.contracts.cores.AwayState.{the_row};

    ghost Value = { AwayState };

    ghost coded = { the_row.coded };

    ghost view = { λ a. a.state };

    ghost invariant = { λ a. IsAway a.state };
}

/// How far the run is when all resources are home again.
#[derive(Drop)]
pub enum Settled {
    /// Some resource has ticks to run yet. The lines are those that have become final.
    Going(Core, Vec<Line>),
    /// Every clock is at the horizon. The lines are the last ones.
    Ended(Core, Vec<Line>),
    /// A resource has stopped, and nothing is left to do before its stop. The lines are the last ones.
    Stopped(Vec<Line>, StopMark),
}

/// How far the run is when all resources are home again, without the lines that have become final.
#[derive(Drop)]
pub enum Reach {
    /// Some resource has ticks to run yet.
    Going(Core),
    /// Every clock is at the horizon.
    Ended(Core),
    /// A resource has stopped, and nothing is left to do before its stop.
    Stopped(StopMark),
}

/// No memory was left.
#[derive(Clone, Copy, Debug)]
pub struct Failed;

impl From<AllocError> for Failed {
    fn from(_error: AllocError) -> Failed {
        Failed
    }
}
