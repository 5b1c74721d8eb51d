//! Resources that have come home, with their lines and their messages.

ghost use Rattle.std.specs.Prelude.{◌≡◌, ◌+◌, ◌++◌, ℕ, List, Option, [], ◌∷◌, All, IfOk, OnOk, None, Some, map, slice_get};
ghost use Rattle.std.specs.List.{AllZip};
ghost use Rattle.std.specs.Global.{Vec};
ghost use Rattle.std.specs.Vec.Iter.{into_iter_items};
ghost use Rattle.fb_types.specs.Headline.{Inputs};
ghost use Rattle.fb_types.specs.declared.run.Line.{Line};
ghost use Rattle.fb_resource.specs.declared.resource.Resource.{Resource};
ghost use Rattle.fb_resource.specs.declared.resource.WindowDone.{WindowDone};
ghost use Rattle.fb_window.specs.Homes.{AreAwaited, AreHome, HasGiven, IsHomeTo};
ghost use Rattle.fb_window.specs.Jobs.{Does, jobs_of, resting_of};
ghost use Rattle.fb_window.specs.Texts.{HasLines};

use crate::cores::Failed;
use fb_resource::{Resource, WindowDone};
use fb_types::{Line, Message};
use std::alloc::{AllocError, Global};
use std::vec::IntoIter;

/// All resources at home, before their messages are exchanged.
#[derive(Drop)]
pub(crate) struct Home {
    /// The resources, in order.
    pub(crate) resources: Vec<Resource>,
    /// For each resource its lines that were not handed out.
    pub(crate) pending: Vec<Vec<Line>>,
    /// For each resource what it has sent.
    pub(crate) outboxes: Vec<Vec<Message>>,
}

/// Puts lines after others.
pub(crate) fn append_lines(kept: &mut Vec<Line>, mut lines: Vec<Line>) -> Result<(), AllocError>
    ensures { OnOk result (kept.new.items ≡ kept.old.items ++ lines.items) }
{
    kept.append(&mut lines)
}

/// Puts lines after those that are kept. Where none are, they stay where they are.
fn keep(mut kept: Vec<Line>, lines: Vec<Line>) -> Result<Vec<Line>, AllocError>
    ensures { IfOk result (λ v. v.items ≡ kept.items ++ lines.items) }
{
    if kept.is_empty() {
        return Ok(lines);
    }
    append_lines(&mut kept, lines)?;
    Ok(kept)
}

impl Home {
    /// Takes in the next resource.
    fn push(
        &mut self,
        resource: Resource,
        lines: Vec<Line>,
        sent: Vec<Message>,
    ) -> Result<(), AllocError>
        ensures resources { OnOk result (self.new.resources.items ≡ self.old.resources.items ++ resource ∷ []) }
        ensures pending { OnOk result (self.new.pending.items ≡ self.old.pending.items ++ lines ∷ []) }
        ensures outboxes { OnOk result (self.new.outboxes.items ≡ self.old.outboxes.items ++ sent ∷ []) }
    {
        self.resources.push(resource)?;
        self.pending.push(lines)?;
        self.outboxes.push(sent)?;
        Ok(())
    }

    /// Takes in the next resource, which has rested at its index, or else comes back from the next job.
    fn admit(
        &mut self,
        alloc: Global,
        rested: Option<Resource>,
        pending: &mut IntoIter<Vec<Line>>,
        dones: &mut IntoIter<WindowDone>,
    ) -> Result<(), Failed>
        requires { (rest : List (Option Resource)) × AreAwaited (rested ∷ rest) (into_iter_items pending.old) (into_iter_items dones.old) }
        ensures awaited { OnOk result ((rest : List (Option Resource)) → AreAwaited (rested ∷ rest) (into_iter_items pending.old) (into_iter_items dones.old)
            → AreAwaited rest (into_iter_items pending.new) (into_iter_items dones.new)) }
        ensures home { OnOk result ((i : Inputs) (limit : ℕ) (bounds : List ℕ) (xs : List Resource) (lists : List (Vec Line)) (index : ℕ) (x : Resource)
            → slice_get xs index ≡ Some x → rested ≡ resting_of x
            → IsHomeTo i limit bounds xs lists index (into_iter_items pending.old) (into_iter_items dones.old) self.old
            → IsHomeTo i limit bounds xs lists (index + 1) (into_iter_items pending.new) (into_iter_items dones.new) self.new) }
        ensures given { OnOk result (rested ≡ None → (all : List WindowDone) → HasGiven all (into_iter_items pending.old) (into_iter_items dones.old) self.old
            → HasGiven all (into_iter_items pending.new) (into_iter_items dones.new) self.new) }
    {
        let Some(kept) = pending.next() else {
            unreachable!()
        };
        if let Some(resource) = rested {
            self.push(resource, kept, Vec::new(alloc))?;
            return Ok(());
        }
        match dones.next() {
            Some(
                WindowDone::Ran {
                    resource,
                    lines,
                    sent,
                    ..
                },
            ) => {
                self.push(resource, keep(kept, lines)?, sent)?;
                Ok(())
            }
            Some(WindowDone::NoMemory) => Err(Failed),
            None => unreachable!(),
        }
    }

    /// Takes in all resources, each of which has rested at its index, or else comes back from the next job.
    fn admit_all(
        &mut self,
        alloc: Global,
        resting: Vec<Option<Resource>>,
        pending: &mut IntoIter<Vec<Line>>,
        dones: &mut IntoIter<WindowDone>,
    ) -> Result<(), Failed>
        requires { AreAwaited resting.items (into_iter_items pending.old) (into_iter_items dones.old) }
        ensures home { OnOk result ((i : Inputs) (limit : ℕ) (bounds : List ℕ) (xs : List Resource) (lists : List (Vec Line))
            → resting.items ≡ map resting_of xs
            → IsHomeTo i limit bounds xs lists 0 (into_iter_items pending.old) (into_iter_items dones.old) self.old
            → AreHome i limit bounds xs lists self.new) }
        ensures lines { OnOk result (All (λ x. x ≡ None) resting.items → self.old.pending.items ≡ []
            → All (λ p. p.items ≡ []) (into_iter_items pending.old) → AllZip HasLines self.new.pending.items (into_iter_items dones.old)) }
    {
        for rested in resting {
            self.admit(alloc, rested, pending, dones)?;
        }
        Ok(())
    }
}

/// Puts all resources in order again: those that have rested, and those that come back, in the order of their jobs.
///
/// # Errors
/// When memory ran out, in a job or here.
pub(crate) fn come_home(
    alloc: Global,
    resting: Vec<Option<Resource>>,
    pending: Vec<Vec<Line>>,
    dones: Vec<WindowDone>,
) -> Result<Home, Failed>
    requires { AreAwaited resting.items pending.items dones.items }
    ensures home { IfOk result (λ h. (i : Inputs) (limit : ℕ) (bounds : List ℕ) (xs : List Resource)
        → resting.items ≡ map resting_of xs → AllZip Does (jobs_of i limit bounds 0 xs) dones.items
        → AreHome i limit bounds xs pending.items h) }
    ensures lines { IfOk result (λ h. All (λ x. x ≡ None) resting.items → All (λ p. p.items ≡ []) pending.items
        → AllZip HasLines h.pending.items dones.items) }
{
    let mut home = Home {
        resources: Vec::new(alloc),
        pending: Vec::new(alloc),
        outboxes: Vec::new(alloc),
    };
    let admitted = home.admit_all(
        alloc,
        resting,
        &mut pending.into_iter(),
        &mut dones.into_iter(),
    );
    admitted?;
    Ok(home)
}
