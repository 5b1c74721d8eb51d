//! Warnings about inputs that are accepted.

ghost use Rattle.std.specs.Prelude.{ℕ, List, IfOk, IfErr, ◌≡◌, true};
ghost use Rattle.fb_sim.specs.Reports.{Hears};
ghost use Rattle.fb_lint.specs.Warnings.{warnings};
ghost use Rattle.fbsim_command.specs.Command.{Checks, Warns, checked_by};
ghost use Rattle.fbsim_command.specs.Outcomes.{IsUndeclared};
ghost use Rattle.fbsim_command.specs.WarningLines.{AreReported, AreWarnings, naming_of};

use crate::call_names::Naming;
use crate::failure::Failure;
use crate::opening::open_inputs;
use crate::output::write_text;
use crate::selected_names::push_unknown;
use crate::selectors::Sorting;
use crate::statuses::Done;
use crate::warning_lines::{Reported, all_lines};
use fb_lint::warnings;
use fb_sim::{Inputs, discard};
use fb_system::System;
use fb_trace::write_front;
use std::alloc::{AllocError, Global};
use std::io::Write;

/// The lines of the warnings about a system that are not left out, with their places in the texts that declare it, and
/// then those for names that the call allows or denies and that nothing has. A name that is denied is one denied.
fn lines_in(
    alloc: Global,
    naming: &Naming<'_, '_, '_>,
    inputs: &Inputs<'_>,
    sorting: &Sorting,
    system: &System,
) -> Result<Reported, AllocError>
    ensures { IfOk result (λ r. AreReported (naming_of naming.now) inputs.now sorting.now system.now.library system.now.stimuli (warnings system.now.library system.now.plan system.now.stimuli) r.lines.items r.is_denied) }
{
    let found = warnings(alloc, system.library(), system.plan(), system.stimuli())?;
    let Reported {
        mut lines,
        is_denied,
    } = all_lines(alloc, naming, inputs, sorting, system, found.as_slice())?;
    let is_unknown = push_unknown(alloc, &mut lines, system.library(), sorting)?;
    Ok(Reported {
        lines,
        is_denied: is_denied || is_unknown,
    })
}

/// The lines of the warnings about inputs that are not left out.
fn lines_of(
    alloc: Global,
    naming: &Naming<'_, '_, '_>,
    inputs: &Inputs<'_>,
    sorting: &Sorting,
) -> Result<Reported, Failure>
    ensures lines { IfOk result (λ r. AreWarnings (naming_of naming.now) inputs.now sorting.now r.lines.items r.is_denied) }
    ensures refused { IfErr result (IsUndeclared inputs.now) }
{
    let system = open_inputs(alloc, inputs)?;
    let lines = lines_in(alloc, naming, inputs, sorting, &system);
    // Dropped by one call: the end of its scope would prove the drop part by part.
    discard(system);
    Ok(lines?)
}

/// Reports lines. It says whether standard error took them all.
pub(crate) fn report_lines<E: Write>(err: &mut E, lines: &[u8]) -> bool
    ensures { Hears result (E.contents err.old) (E.contents err.new) lines.now }
{
    if lines.is_empty() {
        return true;
    }
    write_front(err, lines) == lines.len()
}

/// How a check of accepted inputs ends: by whether one of the warnings about them is denied.
fn end_by(is_denied: bool) -> Done
    ensures { result ≡ checked_by is_denied }
{
    if is_denied {
        Done::Unmet
    } else {
        Done::Accepted
    }
}

/// Says whether the inputs are accepted, and then reports warnings about them. It says how that ends, and whether
/// standard error took all warnings.
pub(crate) fn check_and_warn<W: Write, E: Write>(
    alloc: Global,
    naming: &Naming<'_, '_, '_>,
    inputs: &Inputs<'_>,
    sorting: &Sorting,
    out: &mut W,
    err: &mut E,
) -> (Result<Done, Failure>, bool)
    ensures done { Checks true inputs.now (W.contents out.old) (W.contents out.new) result.0 }
    ensures reported { (reports : List ℕ) × Warns true (naming_of naming.now) inputs.now sorting.now result.0 reports × Hears result.1 (E.contents err.old) (E.contents err.new) reports }
{
    let reported = match lines_of(alloc, naming, inputs, sorting) {
        Ok(reported) => reported,
        Err(failure) => return (Err(failure), true),
    };
    match write_text(out, b"accepted\n") {
        Ok(()) => {
            let is_heard = report_lines(err, reported.lines.as_slice());
            (Ok(end_by(reported.is_denied)), is_heard)
        }
        Err(failure) => (Err(Failure::from(failure)), true),
    }
}
