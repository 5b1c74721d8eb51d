//! Rows of stimuli that a run never comes to, which are reported after the run if that is asked for.

ghost use Rattle.std.specs.Prelude.{◌≡◌, ◌++◌, ℕ, IfOk, List, Option, length, option_map, string_bytes};
ghost use Rattle.fb_sim.specs.Reports.{Hears};
ghost use Rattle.fbsim_command.specs.LateRows as spec;
ghost use Rattle.fbsim_command.specs.LateRows.{ReportsRows, SaysLate};
ghost use Rattle.fbsim_command.specs.Texts.{given_of};

use crate::failure::Failure;
use crate::lint::report_lines;
use crate::statuses::Done;
use crate::texts::Texts;
use fb_inputs::{InputError, read_stimuli};
use fb_types::Stimulus;
use fbsim_line::{Action, Task};
use std::alloc::{AllocError, Global};
use std::io::Write;

/// How many rows are at or beyond the horizon.
fn late_count(rows: &[Stimulus], horizon: u64) -> usize
    ensures { result ≡ spec.late_count horizon rows.now }
{
    rows.iter().filter(|row| row.tick >= horizon).count()
}

/// The line about this number of rows, of all that there are.
fn line_of(alloc: Global, horizon: u64, late: usize, rows: usize) -> Result<String, AllocError>
    ensures { IfOk result (λ line. string_bytes line ≡ spec.late_line horizon late rows) }
{
    Ok(format!(in alloc;
        "stimuli: rows at or beyond the horizon {horizon}: {late} of {rows}; the run does not take them\n"
    )?)
}

/// The line about rows at or beyond the horizon, if there are such rows.
fn late_line(alloc: Global, bytes: &[u8], horizon: u64) -> Result<Option<String>, InputError>
    ensures { IfOk result (λ line. SaysLate bytes.now horizon (option_map string_bytes line)) }
{
    let rows = read_stimuli(alloc, bytes)?;
    let rows = rows.as_slice();
    let late = late_count(rows, horizon);
    if late == 0 {
        return Ok(None);
    }
    Ok(Some(line_of(alloc, horizon, late, rows.len())?))
}

/// Whether a run has ended or stopped.
fn has_run(end: &Result<Done, Failure>) -> bool
    ensures { result ≡ spec.has_run end.now }
{
    match end {
        Ok(Done::Ended | Done::Stopped) => true,
        _ => false,
    }
}

/// The horizon of a run.
fn horizon_of(action: Action) -> Option<u64>
    ensures { result ≡ spec.horizon_of action }
{
    match action {
        Action::Run { horizon, .. } => Some(horizon),
        Action::Check { .. } => None,
    }
}

/// The horizon of a run that took place, if it is asked how many rows it does not come to.
fn asked(task: &Task<'_>, end: &Result<Done, Failure>) -> Option<u64>
    ensures { result ≡ spec.asked_horizon task.now end.now }
{
    if task.why && has_run(end) {
        horizon_of(task.action)
    } else {
        None
    }
}

/// Reports how many rows of the stimuli are at or beyond the horizon of a run, if that is asked for and there are such
/// rows, after other reports, of which standard error took all or not. It says whether it took all of them and this one,
/// for which there may be no memory.
pub(crate) fn report_rows_after<E: Write>(
    alloc: Global,
    task: &Task<'_>,
    end: &Result<Done, Failure>,
    texts: &Texts,
    err: &mut E,
    is_heard: bool,
) -> bool
    ensures { (report : List ℕ) × ReportsRows task.now (given_of texts.now).stimuli end.now result report
        × ((old : Option (List ℕ)) (first : List ℕ) → Hears is_heard old (E.contents err.old) first → Hears result old (E.contents err.new) (first ++ report)) }
{
    if !is_heard {
        return false;
    }
    let Some(horizon) = asked(task, end) else {
        return true;
    };
    let Some(bytes) = texts.rows() else {
        return true;
    };
    match late_line(alloc, bytes, horizon) {
        Ok(Some(line)) => report_lines(err, line.as_bytes()),
        Ok(None) => true,
        Err(_) => false,
    }
}
