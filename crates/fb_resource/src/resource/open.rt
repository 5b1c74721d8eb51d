//! How a resource begins.

ghost use Rattle.std.specs.Prelude.{◌≡◌, ℕ, None, Some, IfOk};
ghost use Rattle.fb_types.specs.OfSystem.{IsResource};
ghost use Rattle.fb_resource.specs.Openings.{IsOpened};
ghost use Rattle.fb_resource.specs.Resources.{AreOpened, IsFresh, IsOf, Represents};
ghost use Rattle.fb_resource.specs.OfSystem.{opening_part};

use crate::opening::{open_agenda, open_agendas, open_sent};
use crate::resource::Resource;
use fb_agenda::Agenda;
use fb_net::Tree;
use fb_system::System;
use std::alloc::{AllocError, Global};

impl Resource {
    /// A resource as it is before the first event, with the agenda of its events of the opening.
    fn of_agenda(
        alloc: Global,
        system: &System,
        number: u32,
        agenda: Agenda,
    ) -> Result<Resource, AllocError>
        requires named { IsResource system.now number }
        requires agenda { IsOpened system.now (Some number) agenda }
        ensures { IfOk result (IsFresh system.now number) }
    {
        // for the prover: what holds of each system
        system.facts();
        let sent = open_sent(alloc, system)?;
        let tree = Tree::build(alloc, system, number)?;
        Ok(Resource {
            tree,
            clock: 0,
            agenda,
            sent,
            stopped: None,
        })
    }

    /// A resource as it is before the first event. This looks at each stimulus and each instance of the system.
    ///
    /// # Errors
    /// When memory runs out.
    pub fn open(alloc: Global, system: &System, number: u32) -> Result<Resource, AllocError>
        requires { IsResource system.now number }
        ensures of { IfOk result (IsOf system.now) }
        ensures opened { IfOk result (λ x. (limit : ℕ) → Represents system.now limit (opening_part system.now limit number) x) }
        ensures fresh { IfOk result (λ x. (x.tree.resource ≡ number) × (x.clock ≡ 0) × (x.stopped ≡ None)) }
    {
        let agenda = open_agenda(alloc, system, Some(number))?;
        Resource::of_agenda(alloc, system, number, agenda)
    }

    /// All resources of a system, in order, as they are before the first event. This looks at each stimulus and each
    /// instance once.
    ///
    /// # Errors
    /// When memory runs out.
    pub fn open_all(alloc: Global, system: &System) -> Result<Vec<Resource>, AllocError>
        ensures { IfOk result (λ v. AreOpened system.now v.items) }
    {
        // for the prover: what holds of each system
        system.facts();
        let mut resources = Vec::new(alloc);
        let mut number = 0;
        for agenda in open_agendas(alloc, system)? {
            resources.push(Resource::of_agenda(alloc, system, number, agenda)?)?;
            number += 1;
        }
        Ok(resources)
    }
}
