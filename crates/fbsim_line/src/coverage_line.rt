//! The call that reports what traces cover.

ghost use Rattle.std.specs.Prelude.{◌≡◌, IfNone, IfOk, IfSome, codes};
ghost use Rattle.clap.specs.Words.{found_of, rows_of};
ghost use Rattle.fbsim_line.specs.Line.{AsksCoverage, IsCall, call_name};
ghost use Rattle.fbsim_line.specs.declared.coverage_line.Coverage.{Coverage};

use crate::arguments::{Argument, Outline};
use crate::bench_line::TRACES_HELP;
use crate::line::{Call, NO_WHY_HELP, WHY_HELP, asks_why, has_flag, number, texts_of};
use clap::ArgMatches;
use fb_types::MOST_STEPS;
use std::alloc::{AllocError, Global};

/// Traces whose coverage is reported, with their declaration and deployment.
#[derive(Drop)]
pub struct Coverage<'a> {
    /// The name of the declaration's file; `-` is standard input, here and below.
    pub declaration: &'a str,
    /// The name of the deployment's file, if one is given.
    pub deploy: Option<&'a str>,
    /// The names of the files with the traces, one or more.
    pub traces: Vec<&'a str>,
    /// The most steps of a resource in one tick, in runs that stop for them.
    pub steps: u64,
    /// How much of all that is counted must be covered, in percent, 0 to 100, if that is asked for.
    pub least: Option<u64>,
    /// Whether traces may be cut off.
    pub is_cut: bool,
    /// Whether a refusal is reported with its place.
    pub why: bool,
}

const ABOUT: &str =
    "Reports the states, transitions, algorithms and events that traces do not cover.";

const EXAMPLE: &str = "Example: fbsim coverage cell.iec --deploy cell.toml shift.trace night.trace";

const STEPS_HELP: &str =
    "The limit of steps of the runs that wrote the traces, 1 to 10000000, if they stopped for them.";

const CUT_HELP: &str =
    "Accepts traces that are cut off, without a last line or within a line; the report says how many are.";

const LEAST_HELP: &str =
    "Ends with status 1 if the traces together cover less than this part of all that is counted, in percent, 0 to 100.";

/// The greatest part, in percent.
const ALL: u64 = 100;

/// The command that reports what traces cover. `deployed` puts the files of a system before its arguments.
pub(crate) const COVERAGE_COMMAND: Outline<'static, 'static> = Outline {
    name: "coverage",
    about: ABOUT,
    example: EXAMPLE,
    arguments: &[
        Argument::Several("TRACE", TRACES_HELP),
        Argument::Number("steps", MOST_STEPS, "10000", STEPS_HELP),
        Argument::Limited("least", ALL, LEAST_HELP),
        Argument::Flag("cut", CUT_HELP),
        Argument::Flag("why", WHY_HELP),
        Argument::Flag("no-why", NO_WHY_HELP),
    ],
};

/// The call that reports what traces cover, with what was found.
pub(crate) fn coverage_of<'a>(
    alloc: Global,
    found: &ArgMatches<'a>,
) -> Result<Option<Call<'a>>, AllocError>
    ensures name { IfOk result (λ o. IfSome o (λ r. codes "coverage" ≡ call_name r)) }
    ensures rows { IfOk result (λ o. IfSome o (IsCall (rows_of (found_of found.now)))) }
    ensures none { IfOk result (λ o. IfNone o ((x : Coverage) → AsksCoverage (rows_of (found_of found.now)) x → ⊥)) }
{
    let (Some(declaration), Some(names), Some(steps)) = (
        found.get_str("DECL"),
        found.get_strs("TRACE"),
        number(found, "steps"),
    ) else {
        return Ok(None);
    };
    let deploy = found.get_str("deploy");
    let least = number(found, "least");
    let traces = Vec::from_slice(alloc, names)?;
    let types = texts_of(alloc, found, "types")?;
    let coverage = Coverage {
        declaration,
        deploy,
        traces,
        steps,
        least,
        is_cut: has_flag(found, "cut"),
        why: asks_why(found),
    };
    Ok(Some(Call::Coverage(coverage, types)))
}
