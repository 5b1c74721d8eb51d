//! The call that inspects a trace.

ghost use Rattle.std.specs.Prelude.{◌≡◌, IfNone, IfOk, IfSome, codes};
ghost use Rattle.clap.specs.Words.{found_of, rows_of};
ghost use Rattle.fbsim_line.specs.Line.{AsksInspect, IsCall, call_name};
ghost use Rattle.fbsim_line.specs.declared.inspect_line.Inspect.{Inspect};

use crate::arguments::{Argument, Outline};
use crate::line::{Call, NO_WHY_HELP, WHY_HELP, asks_why, has_flag, number, texts_of};
use clap::ArgMatches;
use fb_types::{LATEST_TICK, MOST_STEPS};
use std::alloc::{AllocError, Global};

/// A trace that is inspected, with its declaration and deployment.
#[derive(Drop)]
pub struct Inspect<'a> {
    /// The name of the declaration's file; `-` is standard input, here and below.
    pub declaration: &'a str,
    /// The name of the deployment's file, if one is given.
    pub deploy: Option<&'a str>,
    /// The name of the file with the trace.
    pub trace: &'a str,
    /// The paths of the instances that are shown, in any letter case. Without any, all are shown.
    pub only: Vec<&'a str>,
    /// The first tick whose events are shown, if not all are.
    pub from: Option<u64>,
    /// The first tick whose events are no longer shown, if there is one.
    pub to: Option<u64>,
    /// Whether only events are shown that cleared no transition.
    pub lost: bool,
    /// The most steps of a resource in one tick, in a run that stops for them.
    pub steps: u64,
    /// Whether the trace may be cut off.
    pub is_cut: bool,
    /// Whether a refusal is reported with its place.
    pub why: bool,
}

const ABOUT: &str =
    "Writes a trace to standard output with what happens inside the blocks between its lines.";

const EXAMPLE: &str = "Example: fbsim inspect cell.iec --deploy cell.toml cell.trace";

const TRACE_HELP: &str =
    "The file with the trace, of any length and in either form, as run writes it of these files.";

const ONLY_HELP: &str =
    "The path of an instance: only its lines are shown, and those of its components; may be repeated.";

const FROM_HELP: &str = "Shows events from this tick on, 0 to 1000000000000.";

const TO_HELP: &str = "Shows events before this tick, 0 to 1000000000000.";

const LOST_HELP: &str = "Shows only events that cleared no transition.";

const STEPS_HELP: &str =
    "The limit of steps of the run that wrote the trace, 1 to 10000000, if it stopped for them.";

const CUT_HELP: &str =
    "Accepts a trace that is cut off, without a last line or within a line; the output says so at its end.";

/// The command that inspects a trace. `deployed` puts the files of a system before its arguments.
pub(crate) const INSPECT_COMMAND: Outline<'static, 'static> = Outline {
    name: "inspect",
    about: ABOUT,
    example: EXAMPLE,
    arguments: &[
        Argument::Required("TRACE", TRACE_HELP),
        Argument::Repeated("only", ONLY_HELP),
        Argument::Limited("from", LATEST_TICK, FROM_HELP),
        Argument::Limited("to", LATEST_TICK, TO_HELP),
        Argument::Flag("lost", LOST_HELP),
        Argument::Number("steps", MOST_STEPS, "10000", STEPS_HELP),
        Argument::Flag("cut", CUT_HELP),
        Argument::Flag("why", WHY_HELP),
        Argument::Flag("no-why", NO_WHY_HELP),
    ],
};

/// The call that inspects a trace, from the parser's matches.
pub(crate) fn inspect_of<'a>(
    alloc: Global,
    found: &ArgMatches<'a>,
) -> Result<Option<Call<'a>>, AllocError>
    ensures name { IfOk result (λ o. IfSome o (λ r. codes "inspect" ≡ call_name r)) }
    ensures rows { IfOk result (λ o. IfSome o (IsCall (rows_of (found_of found.now)))) }
    ensures none { IfOk result (λ o. IfNone o ((x : Inspect) → AsksInspect (rows_of (found_of found.now)) x → ⊥)) }
{
    let (Some(declaration), Some(trace), Some(steps)) = (
        found.get_str("DECL"),
        found.get_str("TRACE"),
        number(found, "steps"),
    ) else {
        return Ok(None);
    };
    let deploy = found.get_str("deploy");
    let from = number(found, "from");
    let to = number(found, "to");
    let only = texts_of(alloc, found, "only")?;
    let types = texts_of(alloc, found, "types")?;
    let inspect = Inspect {
        declaration,
        deploy,
        trace,
        only,
        from,
        to,
        lost: has_flag(found, "lost"),
        steps,
        is_cut: has_flag(found, "cut"),
        why: asks_why(found),
    };
    Ok(Some(Call::Inspect(inspect, types)))
}
