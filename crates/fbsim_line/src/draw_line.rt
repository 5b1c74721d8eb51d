//! The call that draws what is declared.

ghost use Rattle.std.specs.Prelude.{◌≡◌, IfNone, IfOk, IfSome, codes};
ghost use Rattle.clap.specs.Words.{found_of, rows_of};
ghost use Rattle.fbsim_line.specs.Line.{AsksDraw, IsCall, call_name};
ghost use Rattle.fbsim_line.specs.declared.draw_line.Draw.{Draw};

use crate::arguments::{Argument, Outline};
use crate::line::{Call, NO_WHY_HELP, WHY_HELP, asks_why, texts_of};
use clap::ArgMatches;
use std::alloc::{AllocError, Global};

/// What is drawn, and its files.
#[derive(Clone, Copy)]
pub struct Draw<'a> {
    /// The name of the declaration's file; `-` is standard input, here and below.
    pub declaration: &'a str,
    /// The name of the deployment's file, if one is given.
    pub deploy: Option<&'a str>,
    /// The name of the type whose chart or network is drawn, in any letter case. Without it the application is drawn.
    pub block_type: Option<&'a str>,
    /// Whether a refusal is reported with its place.
    pub why: bool,
}

const ABOUT: &str =
    "Writes the application or a type to standard output as a graph that graphviz draws.";

const EXAMPLE: &str = "Example: fbsim draw cell.iec --deploy cell.toml | dot -Tsvg > cell.svg";

const TYPE_HELP: &str =
    "The name of the type to draw, in any letter case: the chart of a basic type, the network of a composite type; without it the application is drawn.";

/// The command that draws what is declared. `deployed` puts the files of a system before its arguments.
pub(crate) const DRAW_COMMAND: Outline<'static, 'static> = Outline {
    name: "draw",
    about: ABOUT,
    example: EXAMPLE,
    arguments: &[
        Argument::Named("type", TYPE_HELP),
        Argument::Flag("why", WHY_HELP),
        Argument::Flag("no-why", NO_WHY_HELP),
    ],
};

/// The call that draws what is declared, from the parser's matches.
pub(crate) fn draw_of<'a>(
    alloc: Global,
    found: &ArgMatches<'a>,
) -> Result<Option<Call<'a>>, AllocError>
    ensures name { IfOk result (λ o. IfSome o (λ r. codes "draw" ≡ call_name r)) }
    ensures rows { IfOk result (λ o. IfSome o (IsCall (rows_of (found_of found.now)))) }
    ensures none { IfOk result (λ o. IfNone o ((d : Draw) → AsksDraw (rows_of (found_of found.now)) d → ⊥)) }
{
    let Some(declaration) = found.get_str("DECL") else {
        return Ok(None);
    };
    let deploy = found.get_str("deploy");
    let block_type = found.get_str("type");
    let types = texts_of(alloc, found, "types")?;
    let draw = Draw {
        declaration,
        deploy,
        block_type,
        why: asks_why(found),
    };
    Ok(Some(Call::Draw(draw, types)))
}
