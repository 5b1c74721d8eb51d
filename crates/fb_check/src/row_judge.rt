//! Rows of stimuli one by one, for an application that was accepted (E29).

ghost use Rattle.std.specs.Prelude.{IfOk, ◌≡◌};
ghost use Rattle.fb_types.specs.EventPorts.{ArePortsOfKinds};
ghost use Rattle.fb_types.specs.Unknown.{NameUnknown};
ghost use Rattle.fb_check_names.specs.Catalog.{IsCatalog};
ghost use Rattle.fb_check.specs.Directory.{IsDirectory};
ghost use Rattle.fb_check.specs.Judges.{IsCatalog-prop, IsDirectory-prop};
ghost use Rattle.fb_check.specs.Stimuli.{IsRowOr};

use crate::directory::Directory;
use crate::directory_making::{inputs_of_each, targets_of};
use crate::location::StimulusFault;
use crate::stimuli::row_of;
use fb_check_names::{Catalog, catalog_of};
use fb_system::{StimulusRow, System};
use fb_types::{Items, Library, Plan, Ports, Stimulus};
use std::alloc::{AllocError, Global};

/// What rows of stimuli may name, looked up by name. It is made once for a system, and borrows its names.
#[derive(Drop)]
pub struct RowJudge<'a> {
    library: &'a Library,
    plan: &'a Plan,
    catalog: Catalog<'a>,
    directory: Directory<'a>,
    // No name is given twice, and each is known.
    ghost names: { IsCatalog library.now plan.now catalog } by { IsCatalog-prop library.now plan.now catalog },
    ghost known: { ¬ (NameUnknown library.now plan.now) },
    ghost lists: { IsDirectory library.now directory } by { IsDirectory-prop library.now directory },
}

impl<'a> RowJudge<'a> {
    /// The judge for the rows of a system. `interfaces` are the interfaces of all event blocks (`fb_types::all_ports`).
    ///
    /// # Errors
    ///
    /// When memory runs out.
    pub fn of(
        alloc: Global,
        system: &'a System,
        interfaces: &'a Items<Ports>,
    ) -> Result<RowJudge<'a>, AllocError>
        requires { ArePortsOfKinds interfaces.now }
        ensures { IfOk result (λ j. j.library.now ≡ system.now.library) }
    {
        // for the prover: the inputs are accepted, so no name is given twice, and each is known
        system.facts();
        let library = system.library();
        let plan = system.plan();
        let mut found = Vec::new(alloc);
        let catalog = catalog_of(alloc, &mut found, library, plan)?;
        let network = &library.application.network;
        let directory = Directory {
            event_blocks: inputs_of_each(alloc, interfaces.as_slice())?,
            declared: inputs_of_each(alloc, library.blocks.as_slice())?,
            targets: targets_of(alloc, network.data_connections.as_slice())?,
        };
        Ok(RowJudge {
            library,
            plan,
            catalog,
            directory,
        })
    }

    /// The row by number, or what is wrong with it: it names no event input of an instance of the application, or sets a
    /// variable that is not WITH the event, is connected, is set twice, or can't contain the value.
    ///
    /// # Errors
    ///
    /// When memory runs out.
    pub fn judge(
        &self,
        alloc: Global,
        stimulus: &Stimulus,
    ) -> Result<Result<StimulusRow, StimulusFault>, AllocError>
        ensures { IfOk result (IsRowOr self.now.library.now stimulus.now) }
    {
        let directory = &self.directory;
        row_of(alloc, self.library, &self.catalog, directory, stimulus)
    }
}
