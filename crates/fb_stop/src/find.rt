//! Finds where a simulation stops.

ghost use Rattle.std.specs.Prelude.{◌^◌, ◌≤◌, IfOk};
ghost use Rattle.fb_stop.specs.Found.{Finds};

use crate::found::FoundStop;
use crate::replay::Replay;
use fb_system::System;
use fb_types::{LATEST_TICK, MOST_STEPS};
use std::alloc::{AllocError, Global};

/// Where the simulation of a system stops below the horizon, with a limit on the steps of a resource in one tick. `None`
/// if it reaches its horizon, or if the horizon or the limit is greater than a run may have. The simulation is run
/// again for that, up to the stop, and nothing is written.
///
/// # Errors
/// When memory runs out, or a link has carried 2^128 messages.
pub fn find_stop(
    alloc: Global,
    system: &System,
    horizon: u64,
    limit: u64,
) -> Result<Option<FoundStop>, AllocError>
    ensures { IfOk result (λ o. horizon ≤ 10 ^ 12 → limit ≤ 10 ^ 7 → Finds system.now horizon limit o) }
{
    if horizon > LATEST_TICK || limit > MOST_STEPS {
        return Ok(None);
    }
    let mut replay = Replay::open(alloc, system)?;
    replay.go_on(system, horizon, limit)
}
