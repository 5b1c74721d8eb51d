//! When each resource has its next event.

ghost use Rattle.std.specs.Prelude.{◌≡◌, ◌<◌, ◌≤◌, ℕ, List, None, Some, IfOk, length, slice_get, slice_set};
ghost use Rattle.fb_agenda.specs.Agendas.{IsNext, waiting};
ghost use Rattle.fb_resource.specs.declared.resource.Resource.{Resource};
ghost use Rattle.fb_types.specs.declared.key.Key.{Key};
ghost use Rattle.fb_window.specs.Noting.{AreCurrent, IsCurrent};

use fb_resource::Resource;
use std::alloc::{AllocError, Global};

/// For each resource the tick of its next event, or the horizon where none comes before it. So a turn need not ask each
/// agenda: it changes few of them, and notes those again.
#[derive(Drop)]
pub(crate) struct Nexts {
    /// The tick past which no event is looked for.
    pub(crate) horizon: u64,
    /// The ticks, in the order of the resources.
    pub(crate) ticks: Vec<u64>,
}

/// The tick of a resource's next event, or the horizon where none comes before it.
fn next_of(resource: &Resource, horizon: u64) -> u64
    ensures { IsCurrent horizon resource.now result }
{
    match resource.next() {
        Some(tick) => tick.min(horizon),
        None => horizon,
    }
}

/// The first index that has the least tick, and this tick; the tick is the horizon where none is before it.
fn first_least(ticks: &[u64], horizon: u64) -> (usize, u64)
    ensures cap { result.1 ≤ horizon }
    ensures low { (r tick : ℕ) → slice_get ticks.now r ≡ Some tick → result.1 ≤ tick }
    ensures there { result.1 < horizon → slice_get ticks.now result.0 ≡ Some result.1 }
{
    let mut first = 0;
    let mut least = horizon;
    for (index, tick) in ticks.iter().enumerate() {
        if *tick < least {
            first = index;
            least = *tick;
        }
    }
    (first, least)
}

impl Nexts {
    /// Looks at each resource.
    ///
    /// # Errors
    /// When memory runs out.
    pub(crate) fn of_all(
        alloc: Global,
        resources: &[Resource],
        horizon: u64,
    ) -> Result<Nexts, AllocError>
        ensures horizon { IfOk result (λ n. n.horizon ≡ horizon) }
        ensures current { IfOk result (λ n. AreCurrent horizon resources.now n.ticks.items) }
    {
        let mut ticks = Vec::with_capacity(alloc, resources.len())?;
        for resource in resources {
            ticks.push(next_of(resource, horizon))?;
        }
        Ok(Nexts { horizon, ticks })
    }

    /// Looks again at the resource at an index.
    pub(crate) fn look_again(&mut self, index: usize, resource: &Resource)
        requires { index < length self.old.ticks.items }
        ensures horizon { self.new.horizon ≡ self.old.horizon }
        ensures current { (xs : List Resource) → AreCurrent self.old.horizon xs self.old.ticks.items
            → AreCurrent self.new.horizon (slice_set xs index resource.now) self.new.ticks.items }
    {
        self.ticks[index] = next_of(resource, self.horizon);
    }

    /// The first resource that has the least event, and the tick of this event; the tick is the horizon where no event
    /// comes before it.
    pub(crate) fn least(&self) -> (usize, u64)
        ensures cap { result.1 ≤ self.now.horizon }
        ensures low { (xs : List Resource) → AreCurrent self.now.horizon xs self.now.ticks.items
            → (r : ℕ) (x : Resource) (j : Key) → slice_get xs r ≡ Some x → j.tick < result.1 → waiting x.agenda j ≡ None }
        ensures there { (xs : List Resource) → AreCurrent self.now.horizon xs self.now.ticks.items
            → result.1 < self.now.horizon → (x : Resource) × (slice_get xs result.0 ≡ Some x) × IsNext x.agenda result.1 }
    {
        first_least(&self.ticks, self.horizon)
    }
}
