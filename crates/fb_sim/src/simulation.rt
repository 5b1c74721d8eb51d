//! A run that is advanced piece by piece.

ghost use Rattle.std.specs.Prelude.{◌≡◌, ◌^◌, ◌<◌, ◌≤◌, IfOk, IfErr};
ghost use Rattle.fb_sim.specs.Advances.{Advances, Finishes, IsOpened, FailsToOpen, RunsTo};
ghost use Rattle.fb_sim.specs.Views.{IsAhead};
ghost use Rattle.fb_sim.specs.declared.state.Stage.TheVariants as going;

use crate::options::{Inputs, Options};
use crate::outcome::RunError;
use crate::reading::open;
use crate::rounds::all_rounds::{Finish, run_on};
use crate::rounds::tally::Written;
use crate::rounds::workers::{TextJobs, Workers};
use crate::runs::{close, open_core};
use crate::state::{SimulationState, Stage};
use fb_phase::Gate;
use fb_system::System;
use fb_trace::Outcome;
use fb_types::{Form, LATEST_TICK};
use fb_window::Core;
use std::alloc::Global;
use std::io::Write;
use std::marker::Model;
use std::sync::Wait;
use std::thread::Threads;

/// A run by workers that is advanced to one tick after another. Contracts see its inputs and options, the greatest
/// tick that it was advanced to, and whether it has stopped or failed.
#[derive(Drop)]
pub struct Simulation {
    alloc: Global,
    system: System,
    steps: u64,
    workers: u64,
    form: Form,
    to: u64,
    state: SimulationState,
}

impl Model for Simulation {
    ghost use Rattle.fb_sim.specs.Views.{SimulationView, view_code, stage_of, IsSimulationState};

    ghost Value = { SimulationView };

    ghost coded = { view_code };

    ghost view = { λ s. record { inputs = s.system; steps = s.steps; workers = s.workers; form = s.form; to = s.to; stage = stage_of s.state } };

    ghost invariant = { λ s. IsSimulationState s.system s.steps s.workers s.to s.state };
}

impl Simulation {
    /// The simulation before the first event, at tick 0. A resource makes at most this many steps in a tick, 1 to
    /// 10,000,000, and there are 1 to 64 workers.
    ///
    /// # Errors
    /// `BadOption` before all else; then `Refused` and `Memory`.
    pub fn open(
        alloc: Global,
        inputs: &Inputs<'_>,
        steps: u64,
        workers: u64,
        form: Form,
    ) -> Result<Simulation, RunError>
        ensures opened { IfOk result (IsOpened inputs.now steps workers form) }
        ensures failed { IfErr result (FailsToOpen inputs.now steps workers) }
    {
        let options = Options {
            horizon: 1,
            steps,
            workers,
            form,
        };
        if !options.are_within() {
            return Err(RunError::BadOption);
        }
        let system = open(alloc, inputs)?;
        let core = open_core(alloc, &system, steps)?;
        Ok(Simulation {
            alloc,
            system,
            steps,
            workers,
            form,
            to: 0,
            state: SimulationState::Open(core),
        })
    }

    /// Runs the ticks below this one, in milliseconds, and writes their lines, with the line of the stop where it
    /// stops. A tick that it was advanced to before writes nothing, nor does any after a stop.
    ///
    /// # Errors
    /// `BadOption` where the tick is over 10^12, which changes nothing; `Memory` and `Write`, after which a beginning
    /// of the lines was written; and after one of these two `Failed`.
    pub fn advance<R: Threads + Wait + Sync, W: Write, P: Gate>(
        &mut self,
        rt: &R,
        to: u64,
        out: &mut W,
        gate: &P,
    ) -> Result<Outcome, RunError>
        ensures { Advances self.old self.new to (W.contents out.old) (W.contents out.new) result }
    {
        if to > LATEST_TICK {
            return Err(RunError::BadOption);
        }
        match self.state.stage() {
            Stage::Failed => Err(RunError::Failed),
            Stage::Stopped(mark) => Ok(Outcome::Stop(mark)),
            Stage::Running if to <= self.to => Ok(Outcome::End(self.to)),
            Stage::Running => match self.go_on(rt, to, out, gate) {
                Ok((outcome, _)) => Ok(outcome),
                Err(error) => Err(error),
            },
        }
    }

    /// Runs on to a later tick, as `advance` does. It answers also what it has written, but for the line of a stop.
    pub(crate) fn go_on<R: Threads + Wait + Sync, W: Write, P: Gate>(
        &mut self,
        rt: &R,
        to: u64,
        out: &mut W,
        gate: &P,
    ) -> Result<(Outcome, Written), RunError>
        requires running { self.old.stage ≡ going.Running }
        requires later { self.old.to < to }
        requires early { to ≤ 10 ^ 12 }
        ensures { RunsTo self.old self.new to (W.contents out.old) (W.contents out.new) result }
    {
        match self.state.take() {
            Some(core) => self.run_to(rt, core, to, out, gate),
            None => unreachable!(),
        }
    }

    /// Runs the core, which was taken out, to a later tick.
    fn run_to<R: Threads + Wait + Sync, W: Write, P: Gate>(
        &mut self,
        rt: &R,
        core: Core,
        to: u64,
        out: &mut W,
        gate: &P,
    ) -> Result<(Outcome, Written), RunError>
        requires ahead { IsAhead self.old.inputs self.old.steps self.old.to core }
        requires later { self.old.to < to }
        requires early { to ≤ 10 ^ 12 }
        requires out { self.old.stage ≡ going.Failed }
        ensures { RunsTo (record self.old { stage = going.Running }) self.new to (W.contents out.old) (W.contents out.new) result }
    {
        self.system.facts(); // for the prover: what holds of every accepted system
        let options = Options {
            horizon: to,
            steps: self.steps,
            workers: self.workers,
            form: self.form,
        };
        let work = TextJobs::new(self.alloc, self.form);
        let pool = Workers::started(gate, &work);
        let (finish, written) = run_on(rt, self.alloc, &self.system, core, options, out, &pool)?;
        match finish {
            Finish::AtEnd(core) => {
                self.to = to;
                self.state.put(SimulationState::Open(core));
                Ok((Outcome::End(to), written))
            }
            Finish::AtMark(mark) => {
                close(out, &self.system, Outcome::Stop(mark), written.bytes)?;
                self.to = to;
                self.state.put(SimulationState::Stopped(mark));
                Ok((Outcome::Stop(mark), written))
            }
        }
    }

    /// Ends the simulation, and writes the last line where it has not stopped.
    ///
    /// # Errors
    /// `Write`, and `Failed` where an earlier call found no memory or could not write. It takes no memory.
    pub fn finish<W: Write>(self, out: &mut W) -> Result<Outcome, RunError>
        ensures { Finishes self (W.contents out.old) (W.contents out.new) result }
    {
        match self.state.stage() {
            Stage::Failed => Err(RunError::Failed),
            Stage::Stopped(mark) => Ok(Outcome::Stop(mark)),
            Stage::Running => {
                close(out, &self.system, Outcome::End(self.to), 0)?;
                Ok(Outcome::End(self.to))
            }
        }
    }
}
