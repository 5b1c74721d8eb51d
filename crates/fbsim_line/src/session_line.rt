//! The call that talks to a run.

ghost use Rattle.std.specs.Prelude.{IfNone, IfOk, IfSome, codes, false, ◌≡◌};
ghost use Rattle.clap.specs.Words.{app_of, found_of, rows_of};
ghost use Rattle.clap.specs.declared.builder.command.Command.TheViews.{out-Command as fields_of};
ghost use Rattle.fbsim_line.specs.Line as spec;
ghost use Rattle.fbsim_line.specs.Line.{AsksSession, IsCall, call_name};
ghost use Rattle.fbsim_line.specs.declared.session_line.SessionCall.{SessionCall};

use crate::arguments::{Argument, Outline, deployed_with};
use crate::line::{Call, STEPS_HELP, STIMULI_HELP, TRACE_HELP, form_of, number, texts_of};
use clap::builder::ValueParser;
use clap::{ArgMatches, Command};
use fb_types::{Form, MOST_STEPS};
use std::alloc::{AllocError, Global};

/// A session, with its declaration, deployment and first stimuli. None of the files may be `-`: standard input has the
/// commands.
#[derive(Clone, Copy)]
pub struct SessionCall<'a> {
    /// The name of the declaration's file.
    pub declaration: &'a str,
    /// The name of the deployment's file, if one is given.
    pub deploy: Option<&'a str>,
    /// The name of the file with the first stimuli, if one is given.
    pub stimuli: Option<&'a str>,
    /// The most steps that a resource makes in one tick, 1 to 10,000,000.
    pub steps: u64,
    /// The form of the trace.
    pub form: Form,
}

const DECLARATION_HELP: &str =
    "The file with the declaration of the types and the application, at most 1 MiB. Standard input has the commands, so `-` is a file fault, here and below.";

const ABOUT: &str =
    "Runs an application by commands from standard input, one a line; the command help lists them.";

const EXAMPLE: &str = "Example: fbsim session cell.iec --deploy cell.toml < commands";

/// The command `session`.
pub(crate) fn session<'a>(alloc: Global, forms: ValueParser<'a>) -> Result<Command<'a>, AllocError>
    ensures app { IfOk result (λ c. app_of c ≡ spec.session_with forms.entry) }
    ensures globals { IfOk result (λ c. (fields_of c).has_globals ≡ false) }
{
    let arguments = [
        Argument::Named("stim", STIMULI_HELP),
        Argument::Number("steps", MOST_STEPS, "10000", STEPS_HELP),
        Argument::Worded("trace", forms, "1", TRACE_HELP),
    ];
    let outline = Outline {
        name: "session",
        about: ABOUT,
        example: EXAMPLE,
        arguments: &arguments,
    };
    deployed_with(alloc, DECLARATION_HELP, outline)
}

/// The call, from the parser's matches.
pub(crate) fn session_of<'a>(
    alloc: Global,
    found: &ArgMatches<'a>,
) -> Result<Option<Call<'a>>, AllocError>
    ensures name { IfOk result (λ o. IfSome o (λ r. codes "session" ≡ call_name r)) }
    ensures rows { IfOk result (λ o. IfSome o (IsCall (rows_of (found_of found.now)))) }
    ensures none { IfOk result (λ o. IfNone o ((x : SessionCall) → AsksSession (rows_of (found_of found.now)) x → ⊥)) }
{
    let (Some(declaration), Some(steps), Some(form)) = (
        found.get_str("DECL"),
        number(found, "steps"),
        form_of(found),
    ) else {
        return Ok(None);
    };
    let types = texts_of(alloc, found, "types")?;
    let call = SessionCall {
        declaration,
        deploy: found.get_str("deploy"),
        stimuli: found.get_str("stim"),
        steps,
        form,
    };
    Ok(Some(Call::Session(call, types)))
}
