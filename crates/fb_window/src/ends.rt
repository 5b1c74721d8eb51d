//! Whether anything is left to do.

ghost use Rattle.std.specs.Prelude.{◌≤◌, true, IfNone, IfSome, None, Some, length};
ghost use Rattle.fb_resource.specs.declared.resource.Resource.{Resource};
ghost use Rattle.fb_window.specs.Frontiers.{AreLive, IsEnd, IsFirstStop};

use fb_resource::Resource;
use fb_types::StopMark;

/// How far resources are.
#[derive(Clone, Copy)]
pub(crate) enum End {
    /// Some resource has ticks to run yet.
    Open,
    /// Every clock is at the horizon, and none has stopped.
    Horizon,
    /// The least stop, by tick, then resource, which all that have not stopped are past.
    Stop(StopMark),
}

/// The least stop, by tick, then resource.
pub(crate) fn first_stop(resources: &[Resource]) -> Option<StopMark>
    requires { length resources.now ≤ 256 }
    ensures some { IfSome result (IsFirstStop resources.now (length resources.now)) }
    ensures none { IfNone result (AreLive resources.now) }
{
    let mut first: Option<StopMark> = None;
    for (index, resource) in resources.iter().enumerate() {
        if let Some(reason) = resource.stopped() {
            let tick = resource.clock();
            let is_less = match &first {
                Some(mark) => tick < mark.tick,
                None => true,
            };
            if is_less {
                first = Some(StopMark {
                    tick,
                    resource: index as u32,
                    reason,
                });
            }
        }
    }
    first
}

/// How far resources are, of a run to a horizon.
pub(crate) fn end_of(resources: &[Resource], horizon: u64) -> End
    requires { length resources.now ≤ 256 }
    ensures { IsEnd horizon resources.now result }
{
    match first_stop(resources) {
        Some(mark) => {
            // Each that has not stopped has to be past the tick of the stop.
            for resource in resources {
                if resource.stopped().is_none() && resource.clock() <= mark.tick {
                    return End::Open;
                }
            }
            End::Stop(mark)
        }
        None => {
            // All clocks have to be at the horizon.
            for resource in resources {
                if resource.clock() != horizon {
                    return End::Open;
                }
            }
            End::Horizon
        }
    }
}
