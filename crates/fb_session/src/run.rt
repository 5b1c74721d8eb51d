//! Taking events and writing their lines, up to a tick, a break or a stop.

ghost use Rattle.std.specs.Prelude.{◌≡◌, ◌^◌, ◌≤◌, ℕ, [], All, Contains, IsTrue, IfOk, IfSome, map, option_map};
ghost use Rattle.fb_types.specs.Headline.{system_of};
ghost use Rattle.fb_types.specs.OfSystem.{line_of};
ghost use Rattle.fb_types.specs.States.{Config};
ghost use Rattle.fb_types.specs.declared.run.Line as written_lines;
ghost use Rattle.fb_sim_machine.specs.Machines.{IsAt, IsReady};
ghost use Rattle.fb_system.specs.OfSystem.{BelongsTo};
ghost use Rattle.fb_session.specs.Hitting.{IsHitBy};
ghost use Rattle.fb_session.specs.Running.{RunsOn};

use crate::breaks::Breaks;
use crate::fault::SessionFault;
use crate::going::Until;
use fb_sim_machine::{Machine, Pause};
use fb_system::System;
use fb_trace::write_lines_with_count;
use fb_types::{Form, Line};
use std::alloc::AllocError;
use std::io::Write;

/// This many lines are gathered before they are written, as in a run on one thread.
const MANY_LINES: usize = 4096;

/// How far events are taken: below a tick in milliseconds, with this limit on the steps of a tick. `is_watched` says
/// whether breaks pause it.
#[derive(Clone, Copy)]
pub(crate) struct Reach {
    pub(crate) to: u64,
    pub(crate) steps: u64,
    pub(crate) form: Form,
    pub(crate) is_watched: bool,
}

impl Reach {
    /// How many lines are gathered. Where breaks are watched, each event is looked at by itself.
    fn many(self) -> usize
        ensures { IsTrue self.is_watched → result ≡ 1 }
    {
        if self.is_watched { 1 } else { MANY_LINES }
    }

    /// The break that the lines of an event are for, and the tick of the event.
    fn hit(
        self,
        breaks: &mut Breaks,
        system: &System,
        lines: &[Line],
    ) -> Result<Option<(u64, u64)>, AllocError>
        requires { All (BelongsTo system.now) lines.now }
        ensures hit { IfOk result (λ o. IfSome o (λ h. IsTrue self.is_watched × (l : written_lines.Line) × Contains lines.now l × (l.key.tick ≡ h.1))) }
        ensures least { IsTrue self.is_watched → IfOk result (λ o. IsHitBy (system_of system.now) breaks.old.set.items (map (line_of system.now) lines.now) (option_map (λ h. h.0) o)) }
        ensures set { (breaks.new.set.items ≡ breaks.old.set.items) × (breaks.new.count ≡ breaks.old.count) }
    {
        if self.is_watched {
            breaks.first_for(system, lines)
        } else {
            Ok(None)
        }
    }
}

/// Takes events and writes their lines, until all below the tick are taken, an event has a line of a break, or a resource
/// stops. Returns how it ends, with the count of the bytes written. The line of a stop is not written.
///
/// # Errors
/// When memory runs out, or the writer fails after this many bytes.
pub(crate) fn run_on<W: Write>(
    system: &System,
    machine: &mut Machine,
    breaks: &mut Breaks,
    reach: Reach,
    out: &mut W,
) -> Result<(Until, u128), SessionFault>
    requires ready { (tick : ℕ) × IsReady system.now reach.steps tick machine.old }
    requires represents { (c : Config) × IsAt system.now c.state c.agenda machine.old }
    requires none { machine.old.traffic.outbox.lines.items ≡ [] }
    requires early { reach.to ≤ 10 ^ 12 }
    requires few { reach.steps ≤ 10 ^ 7 }
    ensures runs { (c : Config) → IsAt system.now c.state c.agenda machine.old → RunsOn system.now reach breaks.old.set.items c machine.old machine.new (W.contents out.old) (W.contents out.new) result }
    ensures set { (breaks.new.set.items ≡ breaks.old.set.items) × (breaks.new.count ≡ breaks.old.count) }
{
    let mut written: u128 = 0;
    loop {
        let pause = machine.go_on(system, reach.to, reach.steps, reach.many())?;
        let lines = machine.lines();
        let hit = reach.hit(breaks, system, lines)?;
        match write_lines_with_count(out, system, reach.form, lines) {
            Ok(bytes) => written = written.saturating_add(bytes),
            Err(fault) => return Err(SessionFault::Write(written.saturating_add(fault.written))),
        }
        machine.clear_lines();
        match pause {
            Pause::Horizon => return Ok((Until::At, written)),
            Pause::Stop(mark) => return Ok((Until::Stop(mark), written)),
            Pause::Lines => match hit {
                Some((number, tick)) => return Ok((Until::Break(number, tick), written)),
                None => {}
            },
        }
    }
}
