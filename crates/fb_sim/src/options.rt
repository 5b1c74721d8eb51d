//! What is run, and how far.

ghost use Rattle.std.specs.Prelude.{◌↔◌, IsTrue};
ghost use Rattle.fb_sim.specs.Serial.{AreWithin};

use fb_types::{Form, LATEST_TICK, MOST_STEPS, MOST_WORKERS};
use std::marker::Model;

/// What is read. Contracts see the bytes.
#[derive(Drop)]
pub struct Inputs<'a> {
    /// The text of the declaration, at most 1 MiB.
    pub declaration: &'a [u8],
    /// The deployment in TOML, at most 1 MiB. Without one, one resource `MAIN` holds every instance.
    pub deploy: Option<&'a [u8]>,
    /// The stimuli in CSV, at most 16 MiB. Without any there are none.
    pub stimuli: Option<&'a [u8]>,
}

impl<'a> Model for Inputs<'a> {
    ghost use Rattle.std.specs.Prelude.{option_map};
    ghost use Rattle.fb_sim.specs.Given.{Given};

    ghost Value = { Given };

    ghost view = { λ i. record { declaration = i.declaration.now; deploy = option_map (λ b. b.now) i.deploy; stimuli = option_map (λ b. b.now) i.stimuli } };
}

/// How a run is made.
#[derive(Clone, Copy)]
pub struct Options {
    /// The tick at which the run ends, 1 to 10^12. It is not run any more.
    pub horizon: u64,
    /// The most steps that a resource makes in one tick, 1 to 10,000,000.
    pub steps: u64,
    /// How many workers there are, 1 to 64. A run on one thread has one, whatever is here.
    pub workers: u64,
    /// The form of the trace: with `Two`, each line but the last begins with the class and the parts of its key.
    pub form: Form,
}

impl Options {
    /// Whether each option is in its range.
    pub(crate) fn are_within(&self) -> bool
        ensures { IsTrue result ↔ AreWithin self.now }
    {
        (1..=LATEST_TICK).contains(&self.horizon)
            && (1..=MOST_STEPS).contains(&self.steps)
            && (1..=MOST_WORKERS).contains(&self.workers)
    }
}
