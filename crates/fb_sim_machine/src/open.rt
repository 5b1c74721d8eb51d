//! The beginning of a run: its agenda, the blocks and the counts.

ghost use Rattle.std.specs.Prelude.{◌≡◌, [], ℕ, IfOk};
ghost use Rattle.fb_types.specs.Headline.{stimuli_of};
ghost use Rattle.fb_types.specs.OfSystem.{opening_agenda, opening_state, resource_count};
ghost use Rattle.fb_sim_machine.specs.Machines.{IsAt, IsReady};
ghost use Rattle.fb_sim_machine.specs.Openings.{AreOpened};

use crate::machine::Machine;
use fb_net::Tree;
use fb_resource::{TickCounts, Traffic, open_agenda, open_sent};
use fb_system::System;
use std::alloc::{AllocError, Global};

/// The blocks of all resources, as they begin.
fn open_trees(alloc: Global, system: &System) -> Result<Vec<Tree>, AllocError>
    ensures { IfOk result (λ v. AreOpened system.now (resource_count system.now) v.items) }
{
    // for the prover: what holds of each system
    system.facts();
    let mut trees = Vec::new(alloc);
    for resource in 0..system.resources() {
        let tree = Tree::build(alloc, system, resource as u32)?;
        trees.push(tree)?;
    }
    Ok(trees)
}

impl Machine {
    /// The run of a system at its beginning.
    ///
    /// # Errors
    /// When memory runs out.
    pub fn open(alloc: Global, system: &System) -> Result<Machine, AllocError>
        ensures ready { IfOk result (λ m. (limit : ℕ) → IsReady system.now limit 0 m) }
        ensures at { IfOk result (IsAt system.now (opening_state system.now) (opening_agenda system.now (stimuli_of system.now))) }
        ensures lines { IfOk result (λ m. m.traffic.outbox.lines.items ≡ []) }
    {
        // for the prover: what holds of each system
        system.facts();
        let agenda = open_agenda(alloc, system, None)?;
        let sent = open_sent(alloc, system)?;
        let trees = open_trees(alloc, system)?;
        let meters = vec![in alloc; TickCounts::new(); system.resources()]?;
        let traffic = Traffic::new(alloc, agenda, sent);
        Ok(Machine {
            traffic,
            trees,
            meters,
        })
    }
}
