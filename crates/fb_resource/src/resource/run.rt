//! How a resource runs below a tick.

ghost use Rattle.std.specs.Prelude.{◌≡◌, ◌^◌, ◌≤◌, None, IfOk};
ghost use Rattle.fb_resource.specs.Resources.{HasRun, IsOf};
ghost use Rattle.fb_resource.specs.Runs.{with_traffic};
ghost use Rattle.fb_resource.specs.Takings.{IsEmpty};
ghost use Rattle.fb_resource.specs.declared.resource.WindowDone.TheVariants.{Ran};

use crate::next::{find_next, put_next};
use crate::one_taking::take;
use crate::resource::{Output, Resource, WindowDone};
use crate::tick_counts::TickCounts;
use crate::traffic::Traffic;
use fb_agenda::{Agenda, Least};
use fb_system::System;
use fb_types::{Line, StopMark};
use std::alloc::{AllocError, Global};
use std::mem;

impl Resource {
    /// Takes all events of its traffic below a tick, least key first, or up to the stop, which is returned. The lines
    /// and the messages gather in its traffic. Every event of a later run has a later tick, so that each run counts
    /// afresh.
    ///
    /// # Errors
    /// When memory runs out, or a link has carried 2^128 messages.
    fn take_all(
        &mut self,
        traffic: &mut Traffic,
        system: &System,
        to: u64,
        steps: u64,
    ) -> Result<Option<StopMark>, AllocError>
        requires of { IsOf system.now (with_traffic self.old traffic.old) }
        requires empty { IsEmpty traffic.old }
        requires live { self.old.stopped ≡ None }
        requires ahead { self.old.clock ≤ to }
        requires early { to ≤ 10 ^ 12 }
        requires few { steps ≤ 10 ^ 7 }
        ensures { IfOk result (λ stop. HasRun system.now steps (with_traffic self.old traffic.old) to (Ran (with_traffic self.new traffic.new) traffic.new.outbox.lines traffic.new.mail stop)) }
    {
        // for the prover: what holds of each system
        system.facts();
        let mut counts = TickCounts::new();
        let mut least = Least::new();
        let mut found = traffic.agenda.take_least_into(to, &mut least);
        'events: while found {
            self.clock = least.key.tick;
            let taken = take(
                &mut self.tree,
                &mut counts,
                traffic,
                system,
                steps,
                &mut least,
            )?;
            self.stopped = taken.stop;
            if let Some(reason) = self.stopped {
                put_next(&mut traffic.agenda, taken.raised, &least)?;
                return Ok(Some(StopMark {
                    tick: least.key.tick,
                    resource: least.key.resource,
                    reason,
                }));
            }
            found = find_next(&mut traffic.agenda, to, taken.raised, &mut least)?;
        }
        self.clock = to;
        Ok(None)
    }

    /// Takes all events below a tick, in milliseconds, or up to its stop. In each tick it has the given number of steps.
    ///
    /// # Example
    ///
    /// The test `a_resource_runs_below_a_tick` of `fb_tests`:
    ///
    /// ```
    /// let declaration = "APPLICATION A\n\
    ///     FBS S : E_RESTART; C : E_CYCLE(DT := T#3ms); END_FBS\n\
    ///     EVENT_CONNECTIONS S.COLD TO C.START; END_CONNECTIONS\n\
    ///     END_APPLICATION";
    /// let system = accepted(&rt, rt.alloc(), declaration, "", "tick,event,values\n");
    /// let resource = opened(&rt, rt.alloc(), &system, 0);
    /// assert!(rt; resource.clock() <= 8 && resource.stopped().is_none());
    /// let WindowDone::Ran {
    ///     resource,
    ///     lines,
    ///     sent,
    ///     stop,
    /// } = resource.run_to(rt.alloc(), &system, 8, 10_000)
    /// else {
    ///     panic!(rt; "memory");
    /// };
    /// assert!(rt; resource.clock() == 8 && resource.next() == Some(9));
    /// assert!(rt; lines.len() == 4 && sent.is_empty() && stop.is_none());
    /// drop(resource);
    /// forget((lines, sent));
    /// drop(system);
    /// ```
    pub fn run_to(self, alloc: Global, system: &System, to: u64, steps: u64) -> WindowDone
        requires of { IsOf system.now self }
        requires live { self.stopped ≡ None }
        requires ahead { self.clock ≤ to }
        requires early { to ≤ 10 ^ 12 }
        requires few { steps ≤ 10 ^ 7 }
        ensures { HasRun system.now steps self to result }
    {
        self.run_over(alloc, system, to, steps, Vec::new(alloc))
    }

    /// Does what `run_to` does, but its lines go where those of the list `spent` were, which are dropped: a list
    /// that grows is copied.
    pub fn run_over(
        mut self,
        alloc: Global,
        system: &System,
        to: u64,
        steps: u64,
        spent: Vec<Line>,
    ) -> WindowDone
        requires of { IsOf system.now self }
        requires live { self.stopped ≡ None }
        requires ahead { self.clock ≤ to }
        requires early { to ≤ 10 ^ 12 }
        requires few { steps ≤ 10 ^ 7 }
        ensures { HasRun system.now steps self to result }
    {
        let Ok(Output { lines, sent, stop }) = self.run_here(alloc, system, to, steps, spent) else {
            return WindowDone::NoMemory;
        };
        WindowDone::Ran {
            resource: self,
            lines,
            sent,
            stop,
        }
    }

    /// Takes all events below a tick, in milliseconds, or up to its stop, where it is. In each tick it has the given
    /// number of steps. Its lines go where those of the list `spent` were, which are dropped.
    ///
    /// # Errors
    /// When memory runs out, or a link has carried 2^128 messages. Then nothing is said of the resource.
    pub fn run_here(
        &mut self,
        alloc: Global,
        system: &System,
        to: u64,
        steps: u64,
        spent: Vec<Line>,
    ) -> Result<Output, AllocError>
        requires of { IsOf system.now self.old }
        requires live { self.old.stopped ≡ None }
        requires ahead { self.old.clock ≤ to }
        requires early { to ≤ 10 ^ 12 }
        requires few { steps ≤ 10 ^ 7 }
        ensures { IfOk result (λ o. HasRun system.now steps self.old to (Ran self.new o.lines o.sent o.stop)) }
    {
        let agenda = mem::replace(&mut self.agenda, Agenda::none(alloc));
        let sent = mem::replace(&mut self.sent, Vec::new(alloc));
        let mut traffic = Traffic::over(alloc, agenda, sent, spent);
        let stop = self.take_all(&mut traffic, system, to, steps)?;
        let lines = mem::replace(&mut traffic.outbox.lines, Vec::new(alloc));
        let mail = mem::replace(&mut traffic.mail, Vec::new(alloc));
        let (agenda, sent) = traffic.into_kept();
        self.agenda = agenda;
        self.sent = sent;
        Ok(Output {
            lines,
            sent: mail,
            stop,
        })
    }
}
