//! A resource that leaves, to run below a tick.

ghost use Rattle.std.specs.Prelude.{◌≡◌, ◌^◌, ◌≤◌, IfSome, None};
ghost use Rattle.fb_resource.specs.Resources.{IsOf};
ghost use Rattle.fb_window.specs.Jobs.{Does, MayRun};
ghost use Rattle.fb_window.specs.Texts.{IsTextOf};

use fb_resource::{Resource, WindowDone};
use fb_system::System;
use fb_trace::{MarkedText, marked_text};
use fb_types::{Form, Line};
use std::alloc::Global;
use std::marker::Model;

/// A resource that is to run below a tick, with its system and the limit on the steps of a tick. It has not stopped,
/// and the tick is not before its clock.
#[derive(Drop)]
pub struct Job {
    system: System,
    steps: u64,
    resource: Resource,
    to: u64,
}

impl Model for Job {
    ghost use Rattle.fb_window.specs.Jobs.{JobModel, job_code, MayRun};

    ghost Value = { JobModel };

    ghost coded = { job_code };

    ghost view = { λ j. record { inputs = j.system; steps = j.steps; resource = j.resource; to = j.to } };

    ghost invariant = { λ j. MayRun (record { inputs = j.system; steps = j.steps; resource = j.resource; to = j.to }) };
}

impl Job {
    /// The job to run a resource below a tick.
    pub fn new(system: System, steps: u64, resource: Resource, to: u64) -> Job
        requires of { IsOf system resource }
        requires live { resource.stopped ≡ None }
        requires ahead { resource.clock ≤ to }
        requires early { to ≤ 10 ^ 12 }
        requires steps { (1 ≤ steps) × (steps ≤ 10 ^ 7) }
        ensures { result ≡ record { inputs = system; steps = steps; resource = resource; to = to } }
    {
        Job {
            system,
            steps,
            resource,
            to,
        }
    }

    /// Whether there is nothing for it to take.
    pub fn is_idle(&self) -> bool {
        self.resource.is_idle(self.to)
    }

    /// Runs the resource below the tick, or up to its stop.
    pub fn run(self, alloc: Global) -> WindowDone
        ensures { Does self result }
    {
        self.run_over(alloc, Vec::new(alloc))
    }

    /// Does what `run` does, but its lines go where those of the list `spent` were, which are dropped.
    pub fn run_over(self, alloc: Global, spent: Vec<Line>) -> WindowDone
        ensures { Does self result }
    {
        let Job {
            system,
            steps,
            resource,
            to,
        } = self;
        resource.run_over(alloc, &system, to, steps, spent)
    }

    /// Does what `run_over` does, and also makes the text of the lines that it gives, if there are this many and there
    /// is memory for it.
    pub fn run_with_text(
        self,
        alloc: Global,
        spent: Vec<Line>,
        form: Form,
        least: usize,
    ) -> (WindowDone, Option<MarkedText>)
        ensures does { Does self result.0 }
        ensures text { IfSome result.1 (IsTextOf self.inputs form result.0) }
    {
        let Job {
            system,
            steps,
            resource,
            to,
        } = self;
        let done = resource.run_over(alloc, &system, to, steps, spent);
        let text = match &done {
            WindowDone::Ran { lines, .. } if lines.len() >= least => {
                marked_text(alloc, &system, form, lines).ok()
            }
            _ => None,
        };
        (done, text)
    }
}
