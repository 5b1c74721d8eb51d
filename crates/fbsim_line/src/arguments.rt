//! Commands that are made of lists of arguments.

ghost use Rattle.std.specs.Prelude.{◌≡◌, IfOk, false};
ghost use Rattle.clap.specs.Words.{app_of, new_app, rule_of};
ghost use Rattle.clap.specs.declared.builder.command.Command.TheViews.{out-Command as fields_of};
ghost use Rattle.fbsim_line.specs.Line as spec;

use clap::builder::ValueParser;
use clap::{Arg, ArgAction, Command};
use std::alloc::{AllocError, Global};

const DECLARATION_HELP: &str =
    "The file with the declaration of the types and the application, at most 1 MiB; `-` is standard input, here and below.";

pub(crate) const TYPES_HELP: &str =
    "A file with block types that is read before the declaration; give the option once for each file. All these texts together have at most 1 MiB.";

const DEPLOY_HELP: &str =
    "The file with the deployment, in TOML, at most 1 MiB; without it one resource MAIN has every instance.";

/// An argument of a command. Each begins with its name, and ends with its help text.
#[derive(Clone, Copy)]
pub(crate) enum Argument<'a> {
    /// One that has to be there, by its place among the words.
    Required(&'a str, &'a str),
    /// One or more, by their place.
    Several(&'a str, &'a str),
    /// An option that takes a value, such as the name of a file.
    Named(&'a str, &'a str),
    /// An option that takes a value, and may be given several times.
    Repeated(&'a str, &'a str),
    /// An option without a value.
    Flag(&'a str, &'a str),
    /// An option that takes a whole number from 0 to this.
    Limited(&'a str, u64, &'a str),
    /// An option that has to be there: a whole number from 1 to this.
    Needed(&'a str, u64, &'a str),
    /// A whole number from 1 to this, and the text of that which is taken without the option.
    Number(&'a str, u64, &'a str, &'a str),
    /// A word that this parser takes, and the word that is taken without the option.
    Worded(&'a str, ValueParser<'a>, &'a str, &'a str),
}

/// What a command is made of.
#[derive(Clone, Copy)]
pub(crate) struct Outline<'a, 'b> {
    pub name: &'a str,
    pub about: &'a str,
    /// A call of it, with which the help ends.
    pub example: &'a str,
    pub arguments: &'b [Argument<'a>],
}

/// Whole numbers from 1 to the most.
fn up_to<'a>(most: u64) -> ValueParser<'a>
    ensures { result ≡ spec.up_to most }
{
    ValueParser::Unsigned(1, most)
}

/// A required argument, by its position among the words.
fn required<'a>(alloc: Global, id: &'a str, help: &'a str) -> Arg<'a>
    ensures rule { rule_of result ≡ spec.required id.entry.now }
    ensures local { result.global ≡ false }
{
    Arg::new(alloc, id).required(true).help(help)
}

/// An option that takes a value.
fn option<'a>(alloc: Global, id: &'a str, help: &'a str) -> Arg<'a>
    ensures rule { rule_of result ≡ spec.file id.entry.now }
    ensures local { result.global ≡ false }
{
    Arg::new(alloc, id).long(id).help(help)
}

/// An option that takes a value of this kind.
fn limited<'a>(alloc: Global, id: &'a str, values: ValueParser<'a>, help: &'a str) -> Arg<'a>
    ensures rule { rule_of result ≡ spec.limited id.entry.now values.entry }
    ensures local { result.global ≡ false }
{
    option(alloc, id, help).value_parser(values)
}

/// The same with the text of the value that is taken without it.
fn preset<'a>(
    alloc: Global,
    id: &'a str,
    values: ValueParser<'a>,
    preset: &'a str,
    help: &'a str,
) -> Arg<'a>
    ensures rule { rule_of result ≡ spec.preset id.entry.now values.entry preset.entry.now }
    ensures local { result.global ≡ false }
{
    limited(alloc, id, values, help).default_value(preset)
}

/// An argument as the parser has it.
fn arg_of<'a>(alloc: Global, argument: Argument<'a>) -> Arg<'a>
    ensures rule { rule_of result ≡ spec.rule_for argument.entry }
    ensures local { result.global ≡ false }
{
    match argument {
        Argument::Required(id, help) => required(alloc, id, help),
        Argument::Several(id, help) => required(alloc, id, help).action(ArgAction::Append),
        Argument::Named(id, help) => option(alloc, id, help),
        Argument::Repeated(id, help) => option(alloc, id, help).action(ArgAction::Append),
        Argument::Flag(id, help) => option(alloc, id, help).action(ArgAction::SetTrue),
        Argument::Limited(id, most, help) => {
            limited(alloc, id, ValueParser::Unsigned(0, most), help)
        }
        Argument::Needed(id, most, help) => limited(alloc, id, up_to(most), help).required(true),
        Argument::Number(id, most, text, help) => preset(alloc, id, up_to(most), text, help),
        Argument::Worded(id, words, text, help) => preset(alloc, id, words, text, help),
    }
}

/// A command with its help texts and no arguments.
pub(crate) fn titled<'a>(
    alloc: Global,
    name: &'a str,
    about: &'a str,
    example: &'a str,
) -> Command<'a>
    ensures app { app_of result ≡ new_app name.entry.now }
    ensures globals { (fields_of result).has_globals ≡ false }
{
    Command::new(alloc, name).about(about).after_help(example)
}

/// A command with these arguments too, if there was memory for them.
fn with_all<'a>(
    alloc: Global,
    start: Command<'a>,
    arguments: &[Argument<'a>],
) -> Result<Command<'a>, AllocError>
    requires { (fields_of start).has_globals ≡ false }
    ensures app { IfOk result (λ c. app_of c ≡ spec.with_arguments (app_of start.entry) arguments.now) }
    ensures globals { IfOk result (λ c. (fields_of c).has_globals ≡ false) }
{
    let mut command = start;
    for argument in arguments {
        command = command.arg(arg_of(alloc, *argument))?;
    }
    Ok(command)
}

/// The command of an outline.
pub(crate) fn made<'a>(alloc: Global, outline: Outline<'a, '_>) -> Result<Command<'a>, AllocError>
    ensures app { IfOk result (λ c. app_of c ≡ spec.with_arguments (new_app outline.entry.name.now) outline.entry.arguments.now) }
    ensures globals { IfOk result (λ c. (fields_of c).has_globals ≡ false) }
{
    let command = titled(alloc, outline.name, outline.about, outline.example);
    with_all(alloc, command, outline.arguments)
}

/// The same, with arguments for a declaration, the files of block types and a deployment before those of the outline.
pub(crate) fn deployed<'a>(
    alloc: Global,
    outline: Outline<'a, '_>,
) -> Result<Command<'a>, AllocError>
    ensures app { IfOk result (λ c. app_of c ≡ spec.with_arguments (spec.deployed outline.entry.name.now) outline.entry.arguments.now) }
    ensures globals { IfOk result (λ c. (fields_of c).has_globals ≡ false) }
{
    deployed_with(alloc, DECLARATION_HELP, outline)
}

/// The same, with this help text of the declaration.
pub(crate) fn deployed_with<'a>(
    alloc: Global,
    declaration: &'a str,
    outline: Outline<'a, '_>,
) -> Result<Command<'a>, AllocError>
    ensures app { IfOk result (λ c. app_of c ≡ spec.with_arguments (spec.deployed outline.entry.name.now) outline.entry.arguments.now) }
    ensures globals { IfOk result (λ c. (fields_of c).has_globals ≡ false) }
{
    let files = [
        Argument::Required("DECL", declaration),
        Argument::Repeated("types", TYPES_HELP),
        Argument::Named("deploy", DEPLOY_HELP),
    ];
    let start = Outline {
        name: outline.name,
        about: outline.about,
        example: outline.example,
        arguments: &files,
    };
    let command = made(alloc, start)?;
    with_all(alloc, command, outline.arguments)
}
