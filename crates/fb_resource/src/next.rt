//! The event that is taken next.

ghost use Rattle.std.specs.Prelude.{◌≡◌, ◌<◌, IfOk, OnOk};
ghost use Rattle.fb_types.specs.declared.key.Key as keys;
ghost use Rattle.fb_agenda.specs.Agendas.{waiting};
ghost use Rattle.std.specs.Bool.{OnTrue};
ghost use Rattle.fb_resource.specs.Takings.{Finds, IsRaised, with_next};

use fb_agenda::{Agenda, Least};
use fb_types::Key;
use std::alloc::AllocError;

/// Puts the event in `Least` back on the agenda, if it was raised.
///
/// # Errors
/// When memory runs out.
#[inline(always)]
pub fn put_next(agenda: &mut Agenda, raised: bool, least: &Least) -> Result<(), AllocError>
    requires { OnTrue raised (IsRaised least.now.key least.now.event) }
    ensures put { OnOk result ((j : keys.Key) → waiting agenda.new j ≡ waiting (with_next raised least.now.key least.now.event agenda.old) j) }
    ensures due { agenda.new.due ≡ agenda.old.due }
{
    if raised {
        agenda.put_back(least)
    } else {
        Ok(())
    }
}

/// Takes the event with the least key, if its tick is below the horizon (in milliseconds), and moves it into `Least`.
/// Returns whether it did. The event in `Least` is one of those that wait, if it was raised. Mostly it is the least:
/// then it stays in `Least`, and never goes onto the agenda.
///
/// # Errors
/// When memory runs out.
#[inline(always)]
pub fn find_next(
    agenda: &mut Agenda,
    horizon: u64,
    raised: bool,
    least: &mut Least,
) -> Result<bool, AllocError>
    requires { OnTrue raised (IsRaised least.old.key least.old.event) }
    ensures finds { IfOk result (λ b. Finds horizon (with_next raised least.old.key least.old.event agenda.old) b least.new.key least.new.event agenda.new) }
    ensures due { OnOk result (agenda.new.due ≡ agenda.old.due) }
{
    if !raised {
        return Ok(agenda.take_least_into(horizon, least));
    }
    // It comes before all that wait if none waits at its tick and resource, nor before.
    if least.key.tick < horizon && agenda.is_clear(least.key.tick, least.key.resource) {
        return Ok(true);
    }
    put_next(agenda, raised, least)?;
    Ok(agenda.take_least_into(horizon, least))
}
