//! Rows that are given.

ghost use Rattle.std.specs.Prelude.{◌≡◌, ◌≤◌, ◌^◌};
ghost use Rattle.fb_types.specs.Accepted.{IsGood};
ghost use Rattle.fb_types.specs.declared.deploy.Stimulus.{Stimulus};
ghost use Rattle.fb_check.specs.Directory.{IsTaken};
ghost use Rattle.fb_session.specs.declared.stage.Stage.TheVariants as going;
ghost use Rattle.fb_session.specs.Giving.{Gives, IsReadOr, Puts};
ghost use Rattle.fb_session.specs.Pasts.{Past, StandsBy};

use crate::fault::GiveFault;
use crate::row_line::row_text;
use crate::session::Session;
use crate::stage::Stage;
use fb_inputs::{RowError, read_row};
use fb_system::StimulusRow;
use fb_types::Stimulus;
use std::alloc::Global;

/// A row that was accepted.
#[derive(Drop)]
pub struct GivenAnswer {
    /// Its number, from 0.
    pub row: u64,
    /// Its line in a list of stimuli, without a line feed.
    pub text: Vec<u8>,
}

/// Reads a row from its three fields.
fn read(alloc: Global, tick: &[u8], event: &[u8], values: &[u8]) -> Result<Stimulus, GiveFault>
    ensures { IsReadOr tick.now event.now values.now result }
{
    match read_row(alloc, tick, event, values) {
        Ok(stimulus) => Ok(stimulus),
        Err(RowError::Memory) => Err(GiveFault::Memory),
        Err(RowError::At(fault)) => Err(GiveFault::Unread(fault)),
    }
}

impl Session<'_, '_> {
    /// Gives one more row, by its three fields as a list of stimuli has them. It gets the next number. The row is read
    /// (E13, E14, E15), then it must fit (E29), and then it must not be late; how many rows there are does not matter.
    ///
    /// # Errors
    /// Why the row is not accepted: the first of these that applies. The session is then as it was.
    pub fn give(
        &mut self,
        tick: &[u8],
        event: &[u8],
        values: &[u8],
    ) -> Result<GivenAnswer, GiveFault>
        requires { (p : Past) × StandsBy self.old p }
        ensures { Gives tick.now event.now values.now self.old self.new result }
    {
        // for the prover: the inputs are accepted, so each name is known
        self.system.facts();
        let Stage::Running = self.stage else {
            return Err(GiveFault::NotGoing);
        };
        let stimulus = read(self.alloc, tick, event, values)?;
        let row = match self.judge.judge(self.alloc, &stimulus)? {
            Ok(row) => row,
            Err(fault) => return Err(GiveFault::Unfit(stimulus, fault)),
        };
        if stimulus.tick < self.reached {
            return Err(GiveFault::Late(stimulus.tick));
        }
        // The text is made first, so that nothing can fail once the row waits.
        let text = row_text(self.alloc, &stimulus)?;
        self.put(stimulus.tick, row, text)
    }

    /// Puts a row that was accepted, at its tick.
    fn put(
        &mut self,
        tick: u64,
        stimulus: StimulusRow,
        text: Vec<u8>,
    ) -> Result<GivenAnswer, GiveFault>
        requires stands { (p : Past) × StandsBy self.old p }
        requires row { (s : Stimulus) × IsTaken self.old.inputs.library s stimulus × (s.tick ≡ tick) × (tick ≤ 10 ^ 12) }
        requires late { self.old.reached ≤ tick }
        requires going { self.old.stage ≡ going.Running }
        ensures { (s : Stimulus) → IsTaken self.old.inputs.library s stimulus → s.tick ≡ tick → Puts s text.items self.old self.new result }
    {
        // for the prover: the inputs are accepted, so each name is known
        self.system.facts();
        let row = self.rows;
        let Some(rows) = row.checked_add(1) else {
            return Err(GiveFault::Full);
        };
        let given = self.system.given(row, stimulus);
        self.machine.give(self.system, tick, given)?;
        self.rows = rows;
        Ok(GivenAnswer { row, text })
    }
}
