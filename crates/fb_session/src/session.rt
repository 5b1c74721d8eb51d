//! What a session holds, and how it begins.

ghost use Rattle.std.specs.Prelude.{◌≡◌, ◌^◌, ◌≤◌, [], IfOk, IfSome, IfNone, length};
ghost use Rattle.fb_session.specs.Pasts.{Past, StandsBy};
ghost use Rattle.fb_session.specs.declared.stage.Stage.TheVariants as going;

use crate::breaks::Breaks;
use crate::stage::Stage;
use fb_check::RowJudge;
use fb_sim_machine::Machine;
use fb_system::System;
use fb_types::Form;
use std::alloc::{AllocError, Global};
use std::marker::Model;

/// A run that one talks to. Contracts see its inputs and options, how far it has come, and its breaks; where it stands is
/// said by rows and takings that led to it (`StandsBy`).
#[derive(Drop)]
pub struct Session<'j, 's> {
    pub(crate) alloc: Global,
    pub(crate) system: &'s System,
    pub(crate) judge: &'j RowJudge<'s>,
    pub(crate) machine: Machine,
    pub(crate) steps: u64,
    pub(crate) form: Form,
    /// How many rows there are: those of the system, and those that were given.
    pub(crate) rows: u64,
    /// The least tick, in milliseconds, at which a row may be given, and to which the session may go.
    pub(crate) reached: u64,
    pub(crate) stage: Stage,
    pub(crate) breaks: Breaks,
    /// How many bytes all calls have written, up to the greatest `u128`. A call that fails is not counted.
    pub(crate) written: u128,
}

impl<'j, 's> Model for Session<'j, 's> {
    ghost use Rattle.fb_session.specs.Pasts.{Talk, talk_code};

    ghost Value = { Talk };

    ghost coded = { talk_code };

    ghost view = { λ s. record { inputs = s.system.now; judged = s.judge.now.library.now; steps = s.steps; form = s.form; rows = s.rows; reached = s.reached; stage = s.stage; breaks = s.breaks.set.items; set = s.breaks.count; written = s.written; machine = s.machine } };
}

impl<'j, 's> Session<'j, 's> {
    /// The session of a system before its first event, with the rows of the system, at tick 0. A resource makes at most
    /// this many steps in a tick.
    ///
    /// # Errors
    /// When memory runs out.
    pub fn open(
        alloc: Global,
        system: &'s System,
        judge: &'j RowJudge<'s>,
        steps: u64,
        form: Form,
    ) -> Result<Session<'j, 's>, AllocError>
        requires some { 1 ≤ steps }
        requires few { steps ≤ 10 ^ 7 }
        requires judge { judge.now.library.now ≡ system.now.library }
        ensures opened { IfOk result (λ s. (s.inputs ≡ system.now) × (s.steps ≡ steps) × (s.form ≡ form) × (s.rows ≡ length system.now.stimuli) × (s.reached ≡ 0) × (s.stage ≡ going.Running) × (s.breaks ≡ []) × (s.set ≡ 0) × (s.written ≡ 0)) }
        ensures stands { IfOk result (λ s. StandsBy s (record { given = []; taken = [] })) }
    {
        // for the prover: there are at most 100,000 rows
        system.facts();
        let machine = Machine::open(alloc, system)?;
        Ok(Session {
            alloc,
            system,
            judge,
            machine,
            steps,
            form,
            rows: system.stimuli().len() as u64,
            reached: 0,
            stage: Stage::Running,
            breaks: Breaks::new(alloc),
            written: 0,
        })
    }

    /// The least tick, in milliseconds, at which a row may be given, and to which the session may go: the greatest of 0,
    /// the last tick that it went to without a pause, and one more than the tick of the last event taken.
    pub fn reached(&self) -> u64
        ensures { result ≡ self.now.reached }
    {
        self.reached
    }

    /// How many rows there are: those of the system, and those that were given. The next row has this number.
    pub fn rows(&self) -> u64
        ensures { result ≡ self.now.rows }
    {
        self.rows
    }

    /// How many bytes all calls have written, up to the greatest `u128`. A call that fails is not counted: its fault has
    /// the count of its own bytes.
    pub fn written(&self) -> u128
        ensures { result ≡ self.now.written }
    {
        self.written
    }

    /// How far the session is.
    pub fn stage(&self) -> Stage
        ensures { result ≡ self.now.stage }
    {
        self.stage
    }
}
