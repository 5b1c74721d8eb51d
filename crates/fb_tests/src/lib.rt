//! Tests of runs: by workers, on one thread, and in rounds made by hand. Tests of the board and the phases by which
//! workers share jobs, and of the program's calls. `parts` tests what is below: blocks and shared data by themselves,
//! resources that run by themselves, lines, and the text of traces.
//!
//! They are separate from what they test, so that a check of the tests proves none of it again.
#![tactic(auto)]

#[cfg(test)]
mod tests;
