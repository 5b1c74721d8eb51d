//! What the program does not show of a run: pieces, rounds, their bounds, gates, what follows a failure; of what it
//! depends on, a board and a phase; and how its calls end with files in memory. Traces of runs are in cases/, where the
//! program is called for them. Each test ends the process where a call fails that must not, so that little is dropped
//! on the way. `parts` has the tests of what no run shows.

mod advances;
mod board;
mod calls;
mod clocks;
mod crews;
mod examples;
mod gates;
mod jobs;
mod later_rounds;
mod memory;
mod parts;
mod phase;
mod progress;
mod rounds;
mod rows;
mod texts;
mod writers;

use fb_sim::{Inputs, Options};
use fb_types::Form;
use std::mem::forget;
use std::process::Abort;

/// More steps than any tick of these runs needs that does not stop.
const ENOUGH: u64 = 10_000;

fn given(text: &str) -> Option<&[u8]> {
    if text.is_empty() {
        None
    } else {
        Some(text.as_bytes())
    }
}

/// What a call gives that must not fail here. Where it does the process ends, and its error is not dropped.
fn must<T, E: Drop>(rt: &impl Abort, answer: Result<T, E>, otherwise: &str) -> T {
    match answer {
        Ok(value) => value,
        Err(error) => {
            forget(error);
            rt.panic(otherwise)
        }
    }
}

/// An empty text means no deployment, or no stimuli.
fn inputs_of<'a>(declaration: &'a str, deploy: &'a str, stimuli: &'a str) -> Inputs<'a> {
    Inputs {
        declaration: declaration.as_bytes(),
        deploy: given(deploy),
        stimuli: given(stimuli),
    }
}

fn to(horizon: u64, steps: u64, workers: u64) -> Options {
    Options {
        horizon,
        steps,
        workers,
        form: Form::One,
    }
}
