//! How resources come home.

ghost use Rattle.std.specs.Global.{Vec};
ghost use Rattle.std.specs.Prelude.{◌≡◌, ℕ, List, All, IfOk, IsTrue};
ghost use Rattle.std.specs.List.{AllZip};
ghost use Rattle.fb_types.specs.Cores.{CoreStep};
ghost use Rattle.fb_types.specs.Headline.{stimuli_of};
ghost use Rattle.fb_types.specs.Schedules.{IsSchedule};
ghost use Rattle.fb_types.specs.declared.run.Line.{Line};
ghost use Rattle.fb_types.specs.OfSystem.{machine, opening_core};
ghost use Rattle.fb_resource.specs.declared.resource.Resource.{Resource};
ghost use Rattle.fb_laws.specs.Finality.{core_of};
ghost use Rattle.fb_system.specs.OfSystem.{BelongsTo};
ghost use Rattle.fb_window.specs.Jobs.{Does};
ghost use Rattle.fb_window.specs.Leaving.{AreLegal, HasLeft};
ghost use Rattle.fb_window.specs.Settling.{IsMerged, Settles, lists_of, reach_of, settled_of};
ghost use Rattle.fb_window.specs.Standing.{IsAt};
ghost use Rattle.fb_window.specs.Texts.{KeepsNothing, IsFrontOf};

use crate::bounds::least_next;
use crate::cores::{Away, Core, CoreState, Failed, Reach, Settled};
use crate::cut::cut_all;
use crate::ends::{End, end_of};
use crate::frontier::frontier_of;
use crate::home::come_home;
use crate::paired::paired;
use crate::post::{are_empty, post};
use fb_resource::{Resource, WindowDone};
use fb_system::System;
use fb_trace::merge;
use fb_types::Line;
use std::alloc::Global;

/// How far the run is, with all resources in this core.
fn reached(core: Core, end: End) -> Reach
    ensures { result ≡ reach_of core end }
{
    match end {
        End::Open => Reach::Going(core),
        End::Horizon => Reach::Ended(core),
        End::Stop(mark) => Reach::Stopped(mark),
    }
}

/// How far the run is, with the lines that have become final.
fn settled(reach: Reach, lines: Vec<Line>) -> Settled
    ensures { result ≡ settled_of reach lines }
{
    match reach {
        Reach::Going(core) => Settled::Going(core, lines),
        Reach::Ended(core) => Settled::Ended(core, lines),
        Reach::Stopped(mark) => Settled::Stopped(lines, mark),
    }
}

impl Away {
    /// Whether no line is kept and each resource has left with a job.
    pub fn keeps_nothing(&self) -> bool
        ensures { IsTrue result → KeepsNothing self.now }
    {
        if !are_empty(&self.state.pending) {
            return false;
        }
        let resting = self.state.resting.as_slice();
        for rested in resting {
            if rested.is_some() {
                return false;
            }
        }
        true
    }

    /// Puts all resources back, with what became of each job in the jobs' order, exchanges their messages, and hands
    /// out the lines that have become final.
    ///
    /// # Errors
    /// When memory ran out, in a job or here.
    pub fn settle(
        self,
        alloc: Global,
        system: &System,
        dones: Vec<WindowDone>,
    ) -> Result<Settled, Failed>
        requires system { system.now ≡ self.system }
        requires done { AllZip Does self.jobs.value.items dones.items }
        ensures { IfOk result (λ s. (xs : List Resource) (bounds : List ℕ) (es : List (CoreStep (machine self.system self.steps))) (workers : ℕ → ℕ)
            → HasLeft xs bounds self
            → IsSchedule (machine self.system self.steps) self.horizon (opening_core self.system (stimuli_of self.system) self.steps) es
            → IsAt self.system self.steps (core_of self.system self.steps es) xs
            → AreLegal self.system self.steps self.horizon (core_of self.system self.steps es) bounds
            → Settles self.system self.steps self.horizon es bounds (lists_of self.pending.items) workers s) }
    {
        let (reach, finals) = self.settle_apart(alloc, system, dones)?;
        let (kept, lines) = paired(reach, merge(alloc, finals))?;
        Ok(settled(kept, lines))
    }

    /// Does what `settle` does, but leaves the lines that have become final apart: in a list for each resource.
    ///
    /// # Errors
    /// When memory ran out, in a job or here.
    pub fn settle_apart(
        self,
        alloc: Global,
        system: &System,
        dones: Vec<WindowDone>,
    ) -> Result<(Reach, Vec<Vec<Line>>), Failed>
        requires system { system.now ≡ self.system }
        requires done { AllZip Does self.jobs.value.items dones.items }
        ensures settles { IfOk result (λ r. (all : Vec Line) → IsMerged r.1.items all.items
            → (xs : List Resource) (bounds : List ℕ) (es : List (CoreStep (machine self.system self.steps))) (workers : ℕ → ℕ)
            → HasLeft xs bounds self
            → IsSchedule (machine self.system self.steps) self.horizon (opening_core self.system (stimuli_of self.system) self.steps) es
            → IsAt self.system self.steps (core_of self.system self.steps es) xs
            → AreLegal self.system self.steps self.horizon (core_of self.system self.steps es) bounds
            → Settles self.system self.steps self.horizon es bounds (lists_of self.pending.items) workers (settled_of r.0 all)) }
        ensures belong { IfOk result (λ r. All (λ p. All (BelongsTo self.system) p.items) r.1.items) }
        ensures fronts { KeepsNothing self → IfOk result (λ r. AllZip IsFrontOf r.1.items dones.items) }
    {
        // for the prover: what holds of each system
        system.facts();
        let Away { state: away } = self;
        let home = come_home(alloc, away.resting, away.pending, dones)?;
        let posted = post(alloc, system, home.resources, home.outboxes);
        let (kept, resources) = paired(home.pending, posted)?;
        let least = least_next(&resources, away.horizon);
        let frontier = frontier_of(&resources, least);
        let (resources, cut) = paired(resources, cut_all(alloc, kept, &frontier))?;
        let (finals, pending) = cut;
        let end = end_of(&resources, away.horizon);
        let state = CoreState {
            system: away.system,
            steps: away.steps,
            resources,
            pending,
        };
        let core = Core { state };
        let reach = reached(core, end);
        Ok((reach, finals))
    }
}
