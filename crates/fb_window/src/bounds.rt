//! How far each resource may run.

ghost use Rattle.std.specs.Prelude.{◌≡◌, ◌^◌, ◌<◌, ◌≤◌, ℕ, Some, None, length, slice_get, slice_index};
ghost use Rattle.fb_agenda.specs.Agendas.{IsNext, waiting};
ghost use Rattle.fb_resource.specs.declared.resource.Resource.{Resource};
ghost use Rattle.fb_types.specs.Cores.{floor_of};
ghost use Rattle.fb_types.specs.declared.key.Key.{Key};
ghost use Rattle.fb_types.specs.OfSystem.{link_count, resource_count};
ghost use Rattle.fb_laws.specs.Cuts.{IsCut};
ghost use Rattle.fb_window.specs.Reached.{KeepHorizon};
ghost use Rattle.fb_window.specs.Reaching.{OfEachCore};
ghost use Rattle.fb_window.specs.Leaving.{AreLegal};
ghost use Rattle.fb_window.specs.OfSystem.{AreGreatest, LinkAllows};

use crate::cores::{Bounds, Core};
use crate::links::SystemLinks;
use fb_link::earliest;
use fb_resource::Resource;
use fb_types::MOST_RESOURCES;

impl Core {
    /// How far each resource may run, in ticks (milliseconds): to the greatest bound below which no later message can
    /// reach it. It is not past the horizon, the tick after the least stop, or `cap` ticks past the least event. If the
    /// clock of the resource is greater, the bound is the clock. A resource that has stopped has a bound too, though it
    /// gets no job. This takes no memory: the links were copied when the core was opened.
    pub fn bounds(&self, horizon: u64, cap: u64) -> Bounds
        requires clocks { KeepHorizon horizon self.now.resources.items }
        requires early { horizon ≤ 10 ^ 12 }
        requires cap { 1 ≤ cap }
        ensures horizon { result.horizon ≡ horizon }
        ensures bounds { OfEachCore self.now.system self.now.steps self.now.resources.items (λ c. AreGreatest self.now.system self.now.steps horizon cap c result.all) }
        ensures legal { OfEachCore self.now.system self.now.steps self.now.resources.items (λ c. AreLegal self.now.system self.now.steps horizon c result.all) }
    {
        let core = &self.state;
        // for the prover: what holds of each system
        core.system.facts();
        let least = least_next(&core.resources, horizon);
        // The tick after the least stop, or the horizon where that is less.
        let mut last = horizon;
        let resources = core.resources.as_slice();
        for resource in resources {
            if resource.stopped().is_some() {
                last = last.min(resource.clock().saturating_add(1));
            }
        }
        // The least event is cut to the horizon, since timers may wait at ticks to which nothing can be added.
        let top = last.min(least.saturating_add(cap));
        let mut all = arrivals(&core.system, &core.resources, least, top);
        for (number, resource) in core.resources.iter().enumerate() {
            all[number] = all[number].max(resource.clock());
        }
        Bounds { horizon, all }
    }
}

/// The least tick of all events that wait, or the horizon where that is less.
pub(crate) fn least_next(resources: &[Resource], horizon: u64) -> u64
    ensures cap { result ≤ horizon }
    ensures low { (r : ℕ) (x : Resource) (j : Key) → slice_get resources.now r ≡ Some x → j.tick < result → waiting x.agenda j ≡ None }
    ensures there { result < horizon → (r : ℕ) × (x : Resource) × (slice_get resources.now r ≡ Some x) × IsNext x.agenda result }
{
    let mut least = horizon;
    for resource in resources {
        if let Some(tick) = resource.next() {
            least = least.min(tick);
        }
    }
    least
}

/// The tick from which on a resource may send, where no event comes before the least tick.
pub(crate) fn floor(resource: &Resource, least: u64) -> u64
    ensures { result ≡ floor_of resource.now.stopped resource.now.clock least }
{
    match resource.stopped() {
        Some(_) => resource.clock(),
        None => resource.clock().max(least),
    }
}

/// For each resource the least tick at which a message may arrive that is not sent yet, or the top where that is less.
fn arrivals(
    system: &SystemLinks,
    resources: &[Resource],
    least: u64,
    top: u64,
) -> [u64; MOST_RESOURCES]
    requires counted { length resources.now ≡ resource_count system.now }
    requires early { top ≤ 10 ^ 12 }
    ensures long { length result ≡ 256 }
    ensures cut { (r : ℕ) → r < 256 → IsCut (LinkAllows system.now resources.now least r) top (link_count system.now) (slice_index result r) }
{
    let mut all = [top; MOST_RESOURCES];
    for link in system.rows() {
        let floor = floor(&resources[link.from], least);
        // A link on which nothing is sent before the top lowers no bound.
        if floor < top {
            all[link.to] = all[link.to].min(earliest(&link.latency, floor));
        }
    }
    all
}
