//! Up to where lines are final.

ghost use Rattle.std.specs.Prelude.{◌≡◌, nat_lt};
ghost use Rattle.fb_laws.specs.Finality.{until};
ghost use Rattle.fb_window.specs.Frontiers.{IsFrontier, edge_of};

use crate::bounds::floor;
use fb_resource::Resource;

/// A position among the lines, which are in order by tick, then resource: those before it are final, and where it is
/// within, those of its own resource at its tick are too.
#[derive(Clone, Copy)]
pub(crate) struct Frontier {
    /// The tick.
    pub(crate) tick: u64,
    /// The number of the resource.
    pub(crate) resource: usize,
    /// Whether this resource's lines of the tick are final too.
    pub(crate) within: bool,
}

impl Frontier {
    /// Whether a line of a resource at a tick is final.
    pub(crate) fn is_past(&self, resource: usize, tick: u64) -> bool
        ensures { result ≡ nat_lt tick (until (edge_of self.now) resource) }
    {
        if (self.within && resource == self.resource) || resource < self.resource {
            tick <= self.tick
        } else {
            tick < self.tick
        }
    }
}

/// The frontier of resources, of whose events none comes before the least tick: it is at the least floor, and at the
/// first resource that has it.
pub(crate) fn frontier_of(resources: &[Resource], least: u64) -> Frontier
    ensures { IsFrontier least resources.now (edge_of result) }
{
    let mut at = Frontier {
        tick: 0,
        resource: 0,
        within: false,
    };
    for (index, resource) in resources.iter().enumerate() {
        let tick = floor(resource, least);
        if index == 0 || tick < at.tick {
            at = Frontier {
                tick,
                resource: index,
                within: resource.stopped().is_some(),
            };
        }
    }
    at
}
