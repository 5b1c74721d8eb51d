//! Pictures of what is declared.

ghost use Rattle.std.specs.Prelude.{◌≡◌, IfOk, Some, map, option_map};
ghost use Rattle.fb_types.specs.Headline.{inputs};
ghost use Rattle.fbsim_command.specs.Notes.{noted_of};
ghost use Rattle.fbsim_command.specs.Drawing.{Draws, NotesType, SaysType, SaysTypeOf, WritesGraph, graph_of};

use crate::failure::{Failure, RefusalLine};
use crate::inspect::path_of;
use crate::line_notes::note_of_wave;
use crate::near::nearest_type_name;
use crate::notes::note_of_file;
use crate::opening::{open_accepted, open_inputs};
use crate::output::write_text;
use crate::own_lines::end_with;
use crate::sources::Source;
use crate::statuses::Done;
use crate::texts::{files_of, read_files};
use crate::unknown_name::{UNKNOWN, is_unknown, unknown_line};
use fb_inputs::name;
use fb_sim::{Inputs, discard};
use fb_system::System;
use fbsim_line::Draw;
use std::alloc::{AllocError, Global};
use std::io::Write;

/// The graph of the application, or of the declared type that a text names, if there is one.
fn graph(
    alloc: Global,
    system: &System,
    block_type: Option<&str>,
) -> Result<Option<Vec<u8>>, AllocError>
    ensures { IfOk result (λ graph. option_map (λ v. v.items) graph ≡ graph_of system.now (option_map (λ t. t.now) block_type.entry)) }
{
    let Some(text) = block_type else {
        return fb_draw::draw(alloc, system.library(), system.plan(), None);
    };
    match name(alloc, text.as_bytes())? {
        Some(name) => fb_draw::draw(alloc, system.library(), system.plan(), Some(&name)),
        None => Ok(None),
    }
}

/// Writes the graph of what the inputs declare.
fn write_graph<W: Write>(
    alloc: Global,
    inputs: &Inputs<'_>,
    block_type: Option<&str>,
    out: &mut W,
) -> Result<Done, Failure>
    ensures { WritesGraph inputs.now (option_map (λ t. t.now) block_type.entry) (W.contents out.old) (W.contents out.new) result }
{
    let system = open_inputs(alloc, inputs)?;
    let drawn = graph(alloc, &system, block_type);
    // Dropped by one call: the end of its scope would prove the drop part by part.
    discard(system);
    let Some(text) = drawn? else {
        return Err(Failure::Refused(RefusalLine::Numbered(UNKNOWN)));
    };
    write_text(out, text.as_slice())?;
    Ok(Done::Shown)
}

/// The line for a text that names no declared type: it names the nearest type. There is none for a declared type.
fn type_line(alloc: Global, system: &System, text: &str) -> Result<Option<String>, AllocError>
    ensures { IfOk (noted_of result) (SaysType system.now (Some text.now)) }
{
    if graph(alloc, system, Some(text))?.is_some() {
        return Ok(None);
    }
    let name = path_of(alloc, text.as_bytes())?;
    let near = nearest_type_name(alloc, system.library(), name.as_bytes())?;
    Ok(Some(unknown_line(alloc, "type", "declared type", text, near)?))
}

/// The same for what is declared, where a text names a type. There is none where the inputs are refused.
fn unknown_type(
    alloc: Global,
    inputs: &Inputs<'_>,
    block_type: Option<&str>,
) -> Result<Option<String>, AllocError>
    ensures { IfOk (noted_of result) (SaysTypeOf inputs.now (option_map (λ t. t.now) block_type.entry)) }
{
    let Some(system) = open_accepted(alloc, inputs)? else {
        return Ok(None);
    };
    let line = match block_type {
        Some(text) => type_line(alloc, &system, text),
        None => Ok(None),
    };
    // Dropped by one call: the end of its scope would prove the drop part by part.
    discard(system);
    line
}

/// The note to a call that ends so: the line for an unknown type, where it is asked for.
fn note_of_type(
    alloc: Global,
    draw: &Draw<'_>,
    inputs: &Inputs<'_>,
    end: &Result<Done, Failure>,
) -> Result<Option<String>, AllocError>
    ensures { IfOk (noted_of result) (NotesType draw.now inputs.now end.now) }
{
    if draw.why && is_unknown(end) {
        unknown_type(alloc, inputs, draw.block_type)
    } else {
        Ok(None)
    }
}

/// Reads the files of a call, and writes the graph that it asks for. It says how that ends, and what is reported after
/// the line of a failure.
pub(crate) fn show_graph<S: Source, W: Write>(
    alloc: Global,
    types: &[&str],
    draw: &Draw<'_>,
    source: &mut S,
    out: &mut W,
) -> (Result<Done, Failure>, Result<Option<String>, AllocError>)
    ensures { Draws S.gives source.old source.new (map (λ t. t.now) types.now) draw.now (W.contents out.old) (W.contents out.new) result.0 (noted_of result.1) }
{
    let task = files_of(draw.declaration, draw.deploy, draw.why);
    let texts = match read_files(alloc, types, &task, source) {
        Ok(texts) => texts,
        Err(unread) => {
            let note = note_of_file(alloc, types, &task, unread);
            return (Err(Failure::from(unread.fault)), note);
        }
    };
    let inputs = texts.inputs();
    let end = write_graph(alloc, &inputs, draw.block_type, out);
    let line = note_of_type(alloc, draw, &inputs, &end);
    let note = note_of_wave(alloc, types, &task, &end, &texts, line);
    let end = end_with(alloc, types, draw.declaration, &texts, end);
    (end, note)
}
