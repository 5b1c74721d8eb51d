//! How the core begins.

ghost use Rattle.std.specs.Prelude.{◌≡◌, ◌^◌, ◌≤◌, ℕ, [], length, All, IfOk};
ghost use Rattle.fb_resource.specs.Resources.{AreOpened};
ghost use Rattle.fb_laws.specs.Finality.{HasHanded, core_of};
ghost use Rattle.fb_window.specs.Settling.{lists_of};
ghost use Rattle.fb_window.specs.Standing.{IsAt};

use crate::cores::{Core, CoreState};
use crate::links::SystemLinks;
use fb_resource::Resource;
use fb_system::System;
use fb_types::Line;
use std::alloc::{AllocError, Global};

/// This many lists without a line.
fn no_lines(alloc: Global, count: usize) -> Result<Vec<Vec<Line>>, AllocError>
    ensures counted { IfOk result (λ v. length v.items ≡ count) }
    ensures none { IfOk result (λ v. All (λ p. p.items ≡ []) v.items) }
{
    let mut lists = Vec::new(alloc);
    for _ in 0..count {
        lists.push(Vec::new(alloc))?;
    }
    Ok(lists)
}

impl Core {
    /// The core before the first event: the resources of a system, in order, each as it is opened.
    ///
    /// # Errors
    /// When memory runs out.
    pub fn open(
        alloc: Global,
        system: &System,
        resources: Vec<Resource>,
        steps: u64,
    ) -> Result<Core, AllocError>
        requires opened { AreOpened system.now resources.items }
        requires some_steps { 1 ≤ steps }
        requires few_steps { steps ≤ 10 ^ 7 }
        ensures system { IfOk result (λ c. c.system ≡ system.now) }
        ensures steps { IfOk result (λ c. c.steps ≡ steps) }
        ensures at { IfOk result (λ c. IsAt system.now steps (core_of system.now steps []) c.resources.items) }
        ensures left { IfOk result (λ c. (horizon : ℕ) → HasHanded system.now steps horizon (core_of system.now steps []) (lists_of c.pending.items) []) }
    {
        // for the prover: what holds of each system
        system.facts();
        let pending = no_lines(alloc, resources.len())?;
        let links = SystemLinks::of(alloc, system)?;
        let state = CoreState {
            system: links,
            steps,
            resources,
            pending,
        };
        Ok(Core { state })
    }
}
