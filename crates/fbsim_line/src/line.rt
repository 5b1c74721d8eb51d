//! The command line.

ghost use Rattle.std.specs.Prelude.{◌≡◌, ◌≢◌, ℕ, IfOk, IfErr, IfSome, IfNone, None, OnOk, map, codes, false};
ghost use Rattle.fbsim_line.specs.Line as spec;
ghost use Rattle.fbsim_line.specs.Line.{AreCall, AreNoCall, AskHelp, AsksWave, AreForms, IsAsked, IsNoTask, IsFault, IsFlag, IsForm, IsHelp, IsText, IsNumber, IsAction, IsCall, IsCallOf, IsTaken, command_name, call_name, or_none};
ghost use Rattle.fbsim_line.specs.declared.line.LineFault.TheVariants.{Memory};
ghost use Rattle.fbsim_line.specs.declared.line.Task.{Task};
ghost use Rattle.fbsim_line.specs.declared.line.Action.{Action};
ghost use Rattle.fbsim_line.specs.declared.line.Call.{Call};
ghost use Rattle.fbsim_line.specs.declared.line.Wave.{Wave};
ghost use Rattle.fb_types.specs.declared.run.Form.{Form};
ghost use Rattle.clap.specs.Words.{all_of, app_of, first_of, rows_of, found_of, kind_of, subcommand_rows_of};
ghost use Rattle.clap.specs.declared.builder.command.Command.TheViews.{out-Command as fields_of};

use crate::arguments::{Argument, Outline, deployed, made, titled};
use crate::bench_line::{DIFF_COMMAND, Diff, EXPECT_COMMAND, Expect, diff_of, expect_of};
use crate::coverage_line::{COVERAGE_COMMAND, Coverage, coverage_of};
use crate::draw_line::{DRAW_COMMAND, Draw, draw_of};
use crate::inspect_line::{INSPECT_COMMAND, Inspect, inspect_of};
use crate::levels::{ALLOW_HELP, DENY_HELP, Levels, levels_of};
use crate::session_line::{SessionCall, session, session_of};
use clap::builder::ValueParser;
use clap::error::ErrorKind;
use clap::{ArgMatches, Command, Error};
use fb_types::{Form, LATEST_TICK, MOST_STEPS, MOST_WORKERS};
use std::alloc::{AllocError, Global};

/// One call of the program: its subcommand with the file names, numbers and flags.
#[derive(Drop)]
pub enum Call<'a> {
    /// Explains the refusal or the reason with this name, such as `E21` or `divide`, in any letter case.
    Explain(&'a str),
    /// Checks or runs an application. The names are those of the files of block types that are read before the
    /// declaration, in their order, here and below. The levels are those of the warnings.
    Task(Task<'a>, Vec<&'a str>, Levels<'a>),
    /// Shows a trace as waveforms.
    Wave(Wave<'a>, Vec<&'a str>),
    /// Checks rules against traces.
    Expect(Expect<'a>),
    /// Compares two traces.
    Diff(Diff<'a>),
    /// Draws what is declared.
    Draw(Draw<'a>, Vec<&'a str>),
    /// Shows what happens inside the blocks of a trace.
    Inspect(Inspect<'a>, Vec<&'a str>),
    /// Reports what traces cover.
    Coverage(Coverage<'a>, Vec<&'a str>),
    /// Runs an application by commands.
    Session(SessionCall<'a>, Vec<&'a str>),
}

/// A trace that is shown as waveforms, with its declaration and deployment.
#[derive(Clone, Copy)]
pub struct Wave<'a> {
    /// The name of the declaration's file; `-` is standard input, here and below.
    pub declaration: &'a str,
    /// The name of the deployment's file, where one is given.
    pub deploy: Option<&'a str>,
    /// The name of the file with the trace.
    pub trace: &'a str,
    /// Whether the trace may be cut off.
    pub is_cut: bool,
    /// Whether the waveforms have the inside of basic blocks.
    pub has_states: bool,
    /// The most steps of a resource in one tick, in a run that stops for them.
    pub steps: u64,
    /// Whether a refusal is reported with its place, where that is known.
    pub why: bool,
}

/// What to do with an application, and the files that it is in.
#[derive(Clone, Copy)]
pub struct Task<'a> {
    pub action: Action,
    /// The name of the declaration's file; `-` is standard input, here and below.
    pub declaration: &'a str,
    /// The name of the deployment's file, where one is given.
    pub deploy: Option<&'a str>,
    /// The name of the file with the stimuli, where one is given.
    pub stimuli: Option<&'a str>,
    /// Whether a refusal is reported with its place, where that is known.
    pub why: bool,
}

/// What to do with an application.
#[derive(Clone, Copy)]
pub enum Action {
    /// Say whether the inputs are accepted.
    Check {
        /// Whether warnings about inputs that are accepted are reported.
        lint: bool,
    },
    /// Run it, and write its trace.
    Run {
        /// The tick at which the run ends, 1 to 10^12.
        horizon: u64,
        /// The most steps that a resource makes in one tick, 1 to 10,000,000.
        steps: u64,
        /// The number of workers, 1 to 64.
        workers: u64,
        /// Whether one agenda and one thread are used, whatever the number of workers.
        serial: bool,
        /// The form of the trace.
        form: Form,
        /// Whether the progress of the run is reported.
        progress: bool,
    },
}

/// Why the words name no call.
#[derive(Drop)]
pub enum LineFault {
    Memory,
    /// Help or the version was asked for, and this is its text.
    Help(String),
    /// The words are no call, for what this text says.
    Fault(String),
}

impl From<AllocError> for LineFault {
    ghost from_gives = { λ _ e. e ≡ Memory };

    fn from(_error: AllocError) -> LineFault {
        LineFault::Memory
    }
}

/// The text for words that the parser accepts and that still name no call: an option lacks the one that it needs.
const NO_CALL: &str =
    "error: an option lacks another one: --allow and --deny need --lint; --deploy and --types of expect need --decl\n";

/// The version of the program, that of CHANGELOG.md.
const VERSION: &str = "1.2.0";

const ABOUT: &str =
    "Simulates IEC 61499-1 control applications in virtual time; one tick is a millisecond of it.";

const EXAMPLE: &str =
    "Example: fbsim run cell.iec --deploy cell.toml --stim cell.csv --horizon 1000";

const RUN_ABOUT: &str = "Runs an application and writes its trace to standard output.";

const RUN_EXAMPLE: &str =
    "Example: fbsim run cell.iec --deploy cell.toml --stim cell.csv --horizon 1000 --workers 4";

const CHECK_ABOUT: &str =
    "Prints `accepted` if a run would accept these files, otherwise the first fault.";

const CHECK_EXAMPLE: &str =
    "Example: fbsim check cell.iec --deploy cell.toml --stim cell.csv --why";

const WAVE_ABOUT: &str = "Converts a trace to a value change dump, which waveform viewers read.";

const WAVE_EXAMPLE: &str = "Example: fbsim wave cell.iec --deploy cell.toml cell.trace";

const STATES_HELP: &str =
    "Adds the state of each basic block, its variables that no line has and the events that it lost.";

const WAVE_STEPS_HELP: &str =
    "With --states: the limit of steps of the run that wrote the trace, 1 to 10000000, if it stopped for them.";

const EXPLAIN_ABOUT: &str =
    "Prints what a refusal or the reason of a stop means, two examples, and what to look at.";

const EXPLAIN_EXAMPLE: &str = "Example: fbsim explain E21";

const NAME_HELP: &str =
    "The name of the refusal in its line, E01 to E45; \"file fault\", as one word; of a warning, L01 to L23; or the reason of a stop: steps, divide or range. Letter case makes no difference.";

const TRACE_FILE_HELP: &str =
    "The file with the trace, of any length and in either form, of a run of these files.";

const CUT_TRACE_HELP: &str =
    "Accepts a trace that is cut off, without a last line or within a line; the dump says so at its end.";

pub(crate) const STIMULI_HELP: &str =
    "The file with the stimuli, in CSV, at most 16 MiB; without it there are none.";

const HORIZON_HELP: &str = "The tick, in milliseconds, at which the run ends, 1 to 1000000000000.";

pub(crate) const STEPS_HELP: &str =
    "The greatest number of steps of a resource in one tick, 1 to 10000000; at the next step it stops.";

const WORKERS_HELP: &str = "How many threads run resources, 1 to 64; the trace is the same.";

const SERIAL_HELP: &str =
    "Runs all resources from one agenda on one thread; the trace is the same.";

const PROGRESS_HELP: &str =
    "Reports each hundredth of the horizon on standard error, with the count of lines; not with --serial.";

pub(crate) const TRACE_HELP: &str =
    "The form of the trace; in form 2 each line except the last begins with the class, a and b of its event.";

pub(crate) const WHY_HELP: &str =
    "Prints the locations of a refusal, a file fault or a stop on further lines, if they are known.";

pub(crate) const NO_WHY_HELP: &str = "Leaves these lines out; a terminal gets them without --why.";

const LINT_HELP: &str =
    "Reports warnings about files that are accepted on standard error, a line each; explain L01 explains the first.";

/// The names of the forms of the trace.
const FORM_WORDS: &[&str] = &["1", "2"];

/// The words of the forms of the trace, and no others.
fn forms<'a>() -> ValueParser<'a>
    ensures { AreForms result }
{
    ValueParser::Names(FORM_WORDS)
}

/// The command that checks. `deployed` puts the files of a system before its arguments.
const CHECK_COMMAND: Outline<'static, 'static> = Outline {
    name: "check",
    about: CHECK_ABOUT,
    example: CHECK_EXAMPLE,
    arguments: &[
        Argument::Named("stim", STIMULI_HELP),
        Argument::Flag("why", WHY_HELP),
        Argument::Flag("no-why", NO_WHY_HELP),
        Argument::Flag("lint", LINT_HELP),
        Argument::Repeated("allow", ALLOW_HELP),
        Argument::Repeated("deny", DENY_HELP),
    ],
};

/// The command `run`.
fn run<'a>(alloc: Global, forms: ValueParser<'a>) -> Result<Command<'a>, AllocError>
    ensures app { IfOk result (λ c. app_of c ≡ spec.with_run_options forms.entry (spec.files (codes "run"))) }
    ensures globals { IfOk result (λ c. (fields_of c).has_globals ≡ false) }
{
    let arguments = [
        Argument::Named("stim", STIMULI_HELP),
        Argument::Flag("why", WHY_HELP),
        Argument::Flag("no-why", NO_WHY_HELP),
        Argument::Needed("horizon", LATEST_TICK, HORIZON_HELP),
        Argument::Number("steps", MOST_STEPS, "10000", STEPS_HELP),
        Argument::Number("workers", MOST_WORKERS, "1", WORKERS_HELP),
        Argument::Flag("serial", SERIAL_HELP),
        Argument::Flag("progress", PROGRESS_HELP),
        Argument::Worded("trace", forms, "1", TRACE_HELP),
    ];
    let outline = Outline {
        name: "run",
        about: RUN_ABOUT,
        example: RUN_EXAMPLE,
        arguments: &arguments,
    };
    deployed(alloc, outline)
}

/// The command that shows a trace. `deployed` puts the files of a system before its arguments.
const WAVE_COMMAND: Outline<'static, 'static> = Outline {
    name: "wave",
    about: WAVE_ABOUT,
    example: WAVE_EXAMPLE,
    arguments: &[
        Argument::Required("TRACE", TRACE_FILE_HELP),
        Argument::Flag("cut", CUT_TRACE_HELP),
        Argument::Flag("states", STATES_HELP),
        Argument::Number("steps", MOST_STEPS, "10000", WAVE_STEPS_HELP),
        Argument::Flag("why", WHY_HELP),
        Argument::Flag("no-why", NO_WHY_HELP),
    ],
};

/// The command that explains a refusal or a reason.
const EXPLAIN_COMMAND: Outline<'static, 'static> = Outline {
    name: "explain",
    about: EXPLAIN_ABOUT,
    example: EXPLAIN_EXAMPLE,
    arguments: &[Argument::Required("NAME", NAME_HELP)],
};

/// A subcommand of the program.
#[derive(Clone, Copy)]
pub(crate) enum Subcommand {
    Run,
    Check,
    Session,
    Wave,
    Expect,
    Diff,
    Draw,
    Inspect,
    Coverage,
    Explain,
}

/// The subcommands in the order in which the help lists them.
const SUBCOMMANDS: &[Subcommand] = &[
    Subcommand::Run,
    Subcommand::Check,
    Subcommand::Session,
    Subcommand::Wave,
    Subcommand::Expect,
    Subcommand::Diff,
    Subcommand::Draw,
    Subcommand::Inspect,
    Subcommand::Coverage,
    Subcommand::Explain,
];

/// The command of this subcommand.
fn command_for<'a>(
    alloc: Global,
    kind: Subcommand,
    forms: ValueParser<'a>,
) -> Result<Command<'a>, AllocError>
    ensures app { IfOk result (λ c. app_of c ≡ spec.command_for forms.entry kind) }
    ensures globals { IfOk result (λ c. (fields_of c).has_globals ≡ false) }
{
    match kind {
        Subcommand::Run => run(alloc, forms),
        Subcommand::Check => deployed(alloc, CHECK_COMMAND),
        Subcommand::Session => session(alloc, forms),
        Subcommand::Wave => deployed(alloc, WAVE_COMMAND),
        Subcommand::Expect => made(alloc, EXPECT_COMMAND),
        Subcommand::Diff => made(alloc, DIFF_COMMAND),
        Subcommand::Draw => deployed(alloc, DRAW_COMMAND),
        Subcommand::Inspect => deployed(alloc, INSPECT_COMMAND),
        Subcommand::Coverage => deployed(alloc, COVERAGE_COMMAND),
        Subcommand::Explain => made(alloc, EXPLAIN_COMMAND),
    }
}

/// The command of the program.
fn simulator<'a>(alloc: Global, forms: ValueParser<'a>) -> Result<Command<'a>, AllocError>
    ensures { IfOk result (λ c. app_of c ≡ spec.simulator_with forms.entry) }
{
    let mut command = titled(alloc, "fbsim", ABOUT, EXAMPLE)
        .version(VERSION)
        .subcommand_required(true);
    for kind in SUBCOMMANDS {
        let Ok(made) = command_for(alloc, *kind, forms) else {
            // Dropped by one call: the end of its scope would prove the drop part by part.
            drop(command);
            return Err(AllocError);
        };
        command = command.subcommand(made)?;
    }
    Ok(command)
}

pub(crate) fn number(found: &ArgMatches<'_>, id: &str) -> Option<u64>
    ensures number { IfSome result (IsNumber (rows_of (found_of found.now)) id.now) }
    ensures none { IfNone result ((n : ℕ) → IsNumber (rows_of (found_of found.now)) id.now n → ⊥) }
{
    found.get_one::<u64>(id)
}

/// Whether an option without a value is given.
pub(crate) fn has_flag(found: &ArgMatches<'_>, id: &str) -> bool
    ensures { IsFlag (rows_of (found_of found.now)) id.now result }
{
    let Some(word) = found.get_str(id) else {
        return false;
    };
    matches!(word, "true")
}

/// Whether the locations of a refusal are asked for: `--why` is there, and `--no-why` is not.
pub(crate) fn asks_why(found: &ArgMatches<'_>) -> bool
    ensures { IsAsked (rows_of (found_of found.now)) result }
{
    let is_given = has_flag(found, "why");
    let is_withdrawn = has_flag(found, "no-why");
    is_given && !is_withdrawn
}

/// The form of the trace that is asked for.
pub(crate) fn form_of(found: &ArgMatches<'_>) -> Option<Form>
    ensures form { IfSome result (IsForm (rows_of (found_of found.now))) }
    ensures none { IfNone result ((f : Form) → IsForm (rows_of (found_of found.now)) f → ⊥) }
{
    match found.get_str("trace")? {
        "1" => Some(Form::One),
        "2" => Some(Form::Two),
        _ => None,
    }
}

/// What the command of this name does, with the options that were found.
fn action_of(name: &str, found: &ArgMatches<'_>) -> Option<Action>
    ensures name { IfSome result (λ o. name.now ≡ command_name o) }
    ensures options { IfSome result (λ o. IsAction (rows_of (found_of found.now)) o) }
    ensures none { IfNone result ((o : Action) → name.now ≡ command_name o → IsAction (rows_of (found_of found.now)) o → ⊥) }
{
    match name {
        "check" => Some(Action::Check {
            lint: has_flag(found, "lint"),
        }),
        "run" => Some(Action::Run {
            horizon: number(found, "horizon")?,
            steps: number(found, "steps")?,
            workers: number(found, "workers")?,
            serial: has_flag(found, "serial"),
            form: form_of(found)?,
            progress: has_flag(found, "progress"),
        }),
        _ => None,
    }
}

/// The texts of an option that may be given several times, in their order.
pub(crate) fn texts_of<'a>(
    alloc: Global,
    found: &ArgMatches<'a>,
    id: &str,
) -> Result<Vec<&'a str>, AllocError>
    ensures { IfOk result (λ texts. or_none (all_of id.now (rows_of (found_of found.now))) ≡ map (λ t. t.now) texts.items) }
{
    match found.get_strs(id) {
        Some(texts) => Vec::from_slice(alloc, texts),
        None => Ok(Vec::new(alloc)),
    }
}

/// Whether warnings are asked for.
fn warns(action: Action) -> bool
    ensures { result ≡ spec.warns action }
{
    match action {
        Action::Check { lint } => lint,
        Action::Run { .. } => false,
    }
}

/// The call for a run or a check, from the parser's matches, if the command has such a name.
fn task_of<'a>(
    alloc: Global,
    name: &str,
    found: &ArgMatches<'a>,
) -> Result<Option<Call<'a>>, AllocError>
    ensures name { IfOk result (λ o. IfSome o (λ r. name.now ≡ call_name r)) }
    ensures rows { IfOk result (λ o. IfSome o (IsCall (rows_of (found_of found.now)))) }
    ensures none { IfOk result (λ o. IfNone o (IsNoTask (rows_of (found_of found.now)) name.now)) }
{
    let Some(declaration) = found.get_str("DECL") else {
        return Ok(None);
    };
    let Some(action) = action_of(name, found) else {
        return Ok(None);
    };
    let deploy = found.get_str("deploy");
    let stimuli = found.get_str("stim");
    let why = asks_why(found);
    let Some(levels) = levels_of(alloc, found, warns(action))? else {
        return Ok(None);
    };
    let types = texts_of(alloc, found, "types")?;
    let task = Task {
        action,
        declaration,
        deploy,
        stimuli,
        why,
    };
    Ok(Some(Call::Task(task, types, levels)))
}

/// The call for waveforms, from the parser's matches.
fn wave_of<'a>(alloc: Global, found: &ArgMatches<'a>) -> Result<Option<Call<'a>>, AllocError>
    ensures name { IfOk result (λ o. IfSome o (λ r. codes "wave" ≡ call_name r)) }
    ensures rows { IfOk result (λ o. IfSome o (IsCall (rows_of (found_of found.now)))) }
    ensures none { IfOk result (λ o. IfNone o ((w : Wave) → AsksWave (rows_of (found_of found.now)) w → ⊥)) }
{
    let (Some(declaration), Some(trace), Some(steps)) = (
        found.get_str("DECL"),
        found.get_str("TRACE"),
        number(found, "steps"),
    ) else {
        return Ok(None);
    };
    let deploy = found.get_str("deploy");
    let types = texts_of(alloc, found, "types")?;
    let wave = Wave {
        declaration,
        deploy,
        trace,
        is_cut: has_flag(found, "cut"),
        has_states: has_flag(found, "states"),
        steps,
        why: asks_why(found),
    };
    Ok(Some(Call::Wave(wave, types)))
}

/// The call that explains a refusal or a reason, with its name.
fn explain_of<'a>(found: &ArgMatches<'a>) -> Option<Call<'a>>
    ensures name { IfSome result (λ r. codes "explain" ≡ call_name r) }
    ensures rows { IfSome result (IsCall (rows_of (found_of found.now))) }
    ensures none { IfNone result (first_of (codes "NAME") (rows_of (found_of found.now)) ≡ None) }
{
    Some(Call::Explain(found.get_str("NAME")?))
}

fn call_of<'a>(
    alloc: Global,
    name: &str,
    found: &ArgMatches<'a>,
) -> Result<Option<Call<'a>>, AllocError>
    ensures name { IfOk result (λ o. IfSome o (λ r. name.now ≡ call_name r)) }
    ensures rows { IfOk result (λ o. IfSome o (IsCall (rows_of (found_of found.now)))) }
    ensures none { IfOk result (λ o. IfNone o ((r : Call) → name.now ≡ call_name r → IsCall (rows_of (found_of found.now)) r → ⊥)) }
{
    match name {
        "explain" => Ok(explain_of(found)),
        "wave" => wave_of(alloc, found),
        "expect" => expect_of(alloc, found),
        "diff" => Ok(diff_of(found)),
        "draw" => draw_of(alloc, found),
        "inspect" => inspect_of(alloc, found),
        "coverage" => coverage_of(alloc, found),
        "session" => session_of(alloc, found),
        _ => task_of(alloc, name, found),
    }
}

fn fault(alloc: Global, error: &Error) -> LineFault
    ensures help { IsHelp result → IsText (kind_of error.now) }
    ensures fault { IsFault result → kind_of error.now ≢ ErrorKind.OutOfMemory }
    ensures no_help { IsFault result → ¬ (IsText (kind_of error.now)) }
{
    let kind = error.kind();
    if kind == ErrorKind::OutOfMemory {
        return LineFault::Memory;
    }
    match format!(in alloc; "{error}") {
        Err(_) => LineFault::Memory,
        Ok(text) if kind == ErrorKind::DisplayHelp => LineFault::Help(text),
        Ok(text) if kind == ErrorKind::DisplayVersion => LineFault::Help(text),
        Ok(text) => LineFault::Fault(text),
    }
}

/// The call that the matches of the words name.
fn call_in<'a>(alloc: Global, matches: &ArgMatches<'a>) -> Result<Call<'a>, LineFault>
    ensures call { IfOk result (IsCallOf (subcommand_rows_of matches.now)) }
    ensures none { IfErr result (λ e. IsFault e → (r : Call) → IsCallOf (subcommand_rows_of matches.now) r → ⊥) }
    ensures help { IfErr result (λ e. ¬ (IsHelp e)) }
{
    if let Some((name, found)) = matches.subcommand() {
        if let Some(call) = call_of(alloc, name, found)? {
            return Ok(call);
        }
    }
    Err(LineFault::Fault(String::from_str(alloc, NO_CALL)?))
}

/// The call that the words name, the program's own name first.
///
/// # Errors
/// `Help` if help or the version is asked for, `Fault` if the words are no call, and `Memory`.
pub fn parse<'a>(alloc: Global, words: &'a [&'a str]) -> Result<Call<'a>, LineFault>
    ensures call { IfOk result (AreCall (map (λ w. w.now) words.entry.now)) }
    ensures taken { OnOk result (IsTaken (map (λ w. w.now) words.entry.now)) }
    ensures help { IfErr result (λ e. IsHelp e → AskHelp (map (λ w. w.now) words.entry.now)) }
    ensures none { IfErr result (λ e. IsFault e → AreNoCall (map (λ w. w.now) words.entry.now)) }
{
    let command = simulator(alloc, forms())?;
    match command.try_get_matches_from(words) {
        Ok(matches) => call_in(alloc, &matches),
        Err(error) => Err(fault(alloc, &error)),
    }
}
