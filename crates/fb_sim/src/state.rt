//! How far a simulation is.

ghost use Rattle.std.specs.Prelude.{◌≡◌};
ghost use Rattle.fb_sim.specs.Views.{core_in, stage_of};
ghost use Rattle.fb_sim.specs.declared.state.SimulationState.TheVariants.{Failed};

use fb_types::StopMark;
use fb_window::Core;
use std::mem;

/// How far a simulation is, with its core.
#[derive(Drop)]
pub(crate) enum SimulationState {
    /// Every clock is at the tick that was advanced to.
    Open(Core),
    /// A resource has stopped.
    Stopped(StopMark),
    /// A call found no memory or could not write, and the core was given up.
    Failed,
}

/// How far a simulation is, as contracts see it.
#[derive(Clone, Copy)]
pub enum Stage {
    /// It goes on.
    Running,
    /// A resource has stopped.
    Stopped(StopMark),
    /// A call found no memory or could not write.
    Failed,
}

impl SimulationState {
    /// How far it is, without the core.
    pub(crate) fn stage(&self) -> Stage
        ensures { result ≡ stage_of self.now }
    {
        match self {
            SimulationState::Open(_) => Stage::Running,
            SimulationState::Stopped(mark) => Stage::Stopped(*mark),
            SimulationState::Failed => Stage::Failed,
        }
    }

    /// Takes the core out, if there is one, and leaves nothing to go on with.
    pub(crate) fn take(&mut self) -> Option<Core>
        ensures core { result ≡ core_in self.old }
        ensures left { self.new ≡ Failed }
    {
        match mem::replace(self, SimulationState::Failed) {
            SimulationState::Open(core) => Some(core),
            SimulationState::Stopped(_) | SimulationState::Failed => None,
        }
    }

    /// Puts another state in its place.
    pub(crate) fn put(&mut self, next: SimulationState)
        ensures { self.new ≡ next }
    {
        *self = next;
    }
}
