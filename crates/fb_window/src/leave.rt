//! How resources leave.

ghost use Rattle.std.specs.Prelude.{◌≡◌, ◌^◌, ◌≤◌, ◌++◌, ℕ, [], ◌∷◌, IfOk, None, OnOk, Some, length, map, slice_get, vec_len};
ghost use Rattle.fb_resource.specs.Resources.{IsOf};
ghost use Rattle.fb_resource.specs.declared.resource.Resource.{Resource};
ghost use Rattle.fb_window.specs.Jobs.{MayLeave, job_of, jobs_of, resting_of};
ghost use Rattle.fb_window.specs.Leaving.{AreLegal, HasLeft};
ghost use Rattle.fb_window.specs.Reached.{IsReached, KeepHorizon};
ghost use Rattle.fb_window.specs.Reaching.{OfEachCore};

use crate::cores::{Away, AwayState, Bounds, Core, CoreState, Failed};
use crate::job::Job;
use fb_resource::Resource;
use fb_system::System;
use std::alloc::{AllocError, Global};
use std::snapshot::Snapshot;

/// Sends a resource out with a job, or lets it rest where it has stopped.
fn leave(
    jobs: &mut Vec<Job>,
    resting: &mut Vec<Option<Resource>>,
    system: &System,
    steps: u64,
    resource: Resource,
    to: u64,
) -> Result<(), AllocError>
    requires of { IsOf system.now resource }
    requires may { resource.stopped ≡ None → (resource.clock ≤ to) × (to ≤ 10 ^ 12) }
    requires steps { (1 ≤ steps) × (steps ≤ 10 ^ 7) }
    ensures jobs { OnOk result (jobs.new.items ≡ jobs.old.items ++ job_of system.now steps to resource) }
    ensures resting { OnOk result (resting.new.items ≡ resting.old.items ++ resting_of resource ∷ []) }
{
    if resource.stopped().is_some() {
        resting.push(Some(resource))?;
        return Ok(());
    }
    let job = Job::new(system.share()?, steps, resource, to);
    jobs.push(job)?;
    resting.push(None)?;
    Ok(())
}

impl CoreState {
    /// Sends each resource out with the bound at its index, or lets it rest. What has left is lent here, so that no
    /// exit of the loop drops it.
    fn leave_all(
        jobs: &mut Vec<Job>,
        resting: &mut Vec<Option<Resource>>,
        system: &System,
        steps: u64,
        resources: Vec<Resource>,
        bounds: &Bounds,
    ) -> Result<(), AllocError>
        requires of { (r : ℕ) (x : Resource) → slice_get resources.items r ≡ Some x → IsOf system.now x }
        requires few { length resources.items ≤ 256 }
        requires bounds { MayLeave bounds.now.all resources.items }
        requires steps { (1 ≤ steps) × (steps ≤ 10 ^ 7) }
        requires no_jobs { jobs.old.items ≡ [] }
        requires none_resting { resting.old.items ≡ [] }
        ensures jobs { OnOk result (jobs.new.items ≡ jobs_of system.now steps bounds.now.all 0 resources.items) }
        ensures resting { OnOk result (resting.new.items ≡ map resting_of resources.items) }
    {
        for resource in resources {
            let to = bounds.all[resting.len()];
            leave(jobs, resting, system, steps, resource, to)?;
        }
        Ok(())
    }
}

impl Core {
    /// For proofs: some schedule has led to its resources, and the lines that it keeps are lines of the system.
    pub fn facts(&self)
        ensures { IsReached self.now }
    {
        // for the prover: what its type keeps
        let _state = &self.state;
    }

    /// Takes the core apart: one job for each resource that has not stopped, with the bound at its index, and what
    /// remains.
    ///
    /// # Errors
    /// When memory runs out.
    pub fn jobs(
        self,
        alloc: Global,
        system: &System,
        bounds: Bounds,
    ) -> Result<(Away, Vec<Job>), Failed>
        requires system { system.now ≡ self.system }
        requires clocks { KeepHorizon bounds.horizon self.resources.items }
        requires early { bounds.horizon ≤ 10 ^ 12 }
        requires legal { OfEachCore self.system self.steps self.resources.items (λ c. AreLegal self.system self.steps bounds.horizon c bounds.all) }
        ensures jobs { IfOk result (λ r. r.1.items ≡ jobs_of self.system self.steps bounds.all 0 self.resources.items) }
        ensures away { IfOk result (λ r. HasLeft self.resources.items bounds.all r.0) }
        ensures kept { IfOk result (λ r. (r.0.system ≡ self.system) × (r.0.steps ≡ self.steps) × (r.0.horizon ≡ bounds.horizon) × (r.0.pending ≡ self.pending)) }
        ensures few { IfOk result (λ r. vec_len r.1 ≤ 256) }
    {
        // for the prover: what holds of each system
        system.facts();
        let Core { state } = self;
        let mut jobs = Vec::new(alloc);
        let mut resting = Vec::new(alloc);
        CoreState::leave_all(
            &mut jobs,
            &mut resting,
            system,
            state.steps,
            state.resources,
            &bounds,
        )?;
        let sent_out = Snapshot::of(&jobs);
        let away = AwayState {
            system: state.system,
            steps: state.steps,
            horizon: bounds.horizon,
            resting,
            pending: state.pending,
            jobs: sent_out,
        };
        Ok((Away { state: away }, jobs))
    }
}
