//! The calls that check traces: against rules, and against one another.

ghost use Rattle.std.specs.Prelude.{◌≡◌, IfNone, IfOk, IfSome, codes, false, map, option_map};
ghost use Rattle.clap.specs.Words.{found_of, rows_of};
ghost use Rattle.fbsim_line.specs.Line as spec;
ghost use Rattle.fbsim_line.specs.Line.{AsksDiff, AsksExpect, IsCall, call_name};
ghost use Rattle.fbsim_line.specs.declared.bench_line.Diff.{Diff};
ghost use Rattle.fbsim_line.specs.declared.bench_line.Expect.{Expect};

use crate::arguments::{Argument, Outline, TYPES_HELP};
use crate::line::{Call, NO_WHY_HELP, asks_why, has_flag, texts_of};
use clap::ArgMatches;
use std::alloc::{AllocError, Global};

/// Rules, and the traces against which they are checked.
#[derive(Drop)]
pub struct Expect<'a> {
    /// The name of the file with the rules; `-` is standard input, here and below.
    pub rules: &'a str,
    /// The names of the files with the traces, one or more.
    pub traces: Vec<&'a str>,
    /// The name of the declaration's file, if the names of the rules must be in it.
    pub declaration: Option<&'a str>,
    /// The names of the files of block types that are read before the declaration, in their order.
    pub types: Vec<&'a str>,
    /// The name of the deployment's file, if one is given.
    pub deploy: Option<&'a str>,
    /// Whether a rule that a trace leaves undecided counts as broken.
    pub is_strict: bool,
    /// Whether each rule must apply in one trace or more.
    pub is_applied: bool,
    /// Whether traces may be cut off.
    pub is_cut: bool,
    /// Whether the report is JUnit XML.
    pub is_junit: bool,
    /// Whether a refusal is reported with its place, if that is known.
    pub why: bool,
}

/// Two traces that are compared.
#[derive(Clone, Copy)]
pub struct Diff<'a> {
    /// The name of the first file; `-` is standard input, here and below.
    pub first: &'a str,
    /// The name of the second file.
    pub second: &'a str,
    /// Whether the ticks of lines are left out.
    pub is_without_ticks: bool,
    /// Whether a file fault is reported with its file.
    pub why: bool,
}

const EXPECT_ABOUT: &str =
    "Checks rules against traces, and reports in the Test Anything Protocol or as JUnit XML.";

const EXPECT_EXAMPLE: &str =
    "Example: fbsim expect cell.rules cell.trace --decl cell.iec --deploy cell.toml";

const DIFF_ABOUT: &str =
    "Prints the first line in which two traces differ, or nothing if they are the same bytes.";

const DIFF_EXAMPLE: &str = "Example: fbsim diff cell.reference cell.trace";

const RULES_HELP: &str =
    "The file with the rules, in TOML, at most 1 MiB and 1000 rules; `-` is standard input, here and below.";

pub(crate) const TRACES_HELP: &str = "The files with the traces, of any length and in either form.";

const DECL_HELP: &str =
    "The file with a declaration, at most 1 MiB, which must have all names of the rules.";

const DEPLOY_HELP: &str =
    "The file with the deployment of the declaration, in TOML, at most 1 MiB; without it one resource MAIN has every instance.";

const STRICT_HELP: &str =
    "Counts a rule that a trace leaves undecided, or that a stop cuts short, or that never applied, as broken.";

const APPLIED_HELP: &str =
    "Reports for each rule in how many of the traces it applied, and counts one that applied in none as broken.";

const CUT_HELP: &str = "Accepts traces that end without a last line or within a line.";

const JUNIT_HELP: &str = "Writes JUnit XML in place of the Test Anything Protocol.";

const NO_TICKS_HELP: &str = "Leaves the tick out of every line, also of the last.";

const DIFF_WHY_HELP: &str = "Prints the file of a file fault on a further line.";

const WHY_HELP: &str =
    "Prints the locations of a refusal or a file fault on further lines, if they are known.";

const FIRST_HELP: &str = "The file with the first trace; `-` is standard input, here and below.";

const SECOND_HELP: &str = "The file with the second trace.";

/// The command that checks rules against traces.
pub(crate) const EXPECT_COMMAND: Outline<'static, 'static> = Outline {
    name: "expect",
    about: EXPECT_ABOUT,
    example: EXPECT_EXAMPLE,
    arguments: &[
        Argument::Required("RULES", RULES_HELP),
        Argument::Several("TRACE", TRACES_HELP),
        Argument::Named("decl", DECL_HELP),
        Argument::Repeated("types", TYPES_HELP),
        Argument::Named("deploy", DEPLOY_HELP),
        Argument::Flag("strict", STRICT_HELP),
        Argument::Flag("applied", APPLIED_HELP),
        Argument::Flag("cut", CUT_HELP),
        Argument::Flag("junit", JUNIT_HELP),
        Argument::Flag("why", WHY_HELP),
        Argument::Flag("no-why", NO_WHY_HELP),
    ],
};

/// The command that compares two traces.
pub(crate) const DIFF_COMMAND: Outline<'static, 'static> = Outline {
    name: "diff",
    about: DIFF_ABOUT,
    example: DIFF_EXAMPLE,
    arguments: &[
        Argument::Required("A", FIRST_HELP),
        Argument::Required("B", SECOND_HELP),
        Argument::Flag("no-ticks", NO_TICKS_HELP),
        Argument::Flag("why", DIFF_WHY_HELP),
        Argument::Flag("no-why", NO_WHY_HELP),
    ],
};

/// Whether a deployment or block types are given without a declaration.
fn declares_nothing(declaration: Option<&str>, deploy: Option<&str>, types: &[&str]) -> bool
    ensures { result ≡ spec.declares_nothing (option_map (λ n. n.now) declaration.entry) (option_map (λ n. n.now) deploy.entry) (map (λ t. t.now) types.now) }
{
    match (declaration, deploy) {
        (Some(_), _) => false,
        (None, Some(_)) => true,
        (None, None) => !types.is_empty(),
    }
}

/// The call that checks rules against traces, from the parser's matches. A deployment and block types
/// need a declaration.
pub(crate) fn expect_of<'a>(
    alloc: Global,
    found: &ArgMatches<'a>,
) -> Result<Option<Call<'a>>, AllocError>
    ensures name { IfOk result (λ o. IfSome o (λ r. codes "expect" ≡ call_name r)) }
    ensures rows { IfOk result (λ o. IfSome o (IsCall (rows_of (found_of found.now)))) }
    ensures none { IfOk result (λ o. IfNone o ((x : Expect) → AsksExpect (rows_of (found_of found.now)) x → ⊥)) }
{
    let Some(rules) = found.get_str("RULES") else {
        return Ok(None);
    };
    let Some(names) = found.get_strs("TRACE") else {
        return Ok(None);
    };
    let declaration = found.get_str("decl");
    let deploy = found.get_str("deploy");
    let types = texts_of(alloc, found, "types")?;
    if declares_nothing(declaration, deploy, types.as_slice()) {
        return Ok(None);
    }
    let traces = Vec::from_slice(alloc, names)?;
    Ok(Some(Call::Expect(Expect {
        rules,
        traces,
        declaration,
        types,
        deploy,
        is_strict: has_flag(found, "strict"),
        is_applied: has_flag(found, "applied"),
        is_cut: has_flag(found, "cut"),
        is_junit: has_flag(found, "junit"),
        why: asks_why(found),
    })))
}

/// The call that compares two traces, from the parser's matches.
pub(crate) fn diff_of<'a>(found: &ArgMatches<'a>) -> Option<Call<'a>>
    ensures name { IfSome result (λ r. codes "diff" ≡ call_name r) }
    ensures rows { IfSome result (IsCall (rows_of (found_of found.now))) }
    ensures none { IfNone result ((d : Diff) → AsksDiff (rows_of (found_of found.now)) d → ⊥) }
{
    let first = found.get_str("A")?;
    let second = found.get_str("B")?;
    Some(Call::Diff(Diff {
        first,
        second,
        is_without_ticks: has_flag(found, "no-ticks"),
        why: asks_why(found),
    }))
}
