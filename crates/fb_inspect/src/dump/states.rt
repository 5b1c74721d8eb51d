//! The dump of a trace with the inside of basic blocks.

ghost use Rattle.std.specs.Prelude.{◌≡◌, ◌≤◌, ℕ, List, Option, Some, None, IfErr, IfOk, IfSome, OnErr, OnOk};
ghost use Rattle.std.specs.Io.KnownBytes.{Consumes};
ghost use Rattle.fb_wave.specs.Copying.{IsFirstLine};
ghost use Rattle.fb_wave.specs.OfSystem.{HasNames, IsUncut};
ghost use Rattle.fb_inspect.specs.walk.Looks.{most};
ghost use Rattle.fb_inspect.specs.Refusals.{OfRefusal, Refuses};
ghost use Rattle.fb_inspect.specs.OfSystem.{BeginsWave, IsNamesFault, IsShownWith, IsWrongAt, IsWrongFor, WritesBefore, WritesFront, WritesRead};
ghost use Rattle.fb_inspect.specs.declared.error.InspectError.TheVariants.{Unknown};
ghost use Rattle.fb_inspect.specs.walk.OfWalk as of_walk;
ghost use Rattle.fb_inspect.specs.walk.OfWalk.{BeginsText, IsNext};

use crate::covering::none_shown;
use crate::dump::before::Before;
use crate::dump::port_dump::PortDump;
use crate::dump::state_wave::StateWave;
use crate::error::InspectError;
use crate::filter::EventFilter;
use crate::insides::{begun, first_reading, lend};
use crate::walk::ahead::Ahead;
use crate::walk::error::WalkError;
use crate::walk::reading::Reading;
use crate::walk::trail::Fixed;
use crate::{RefusedLine, Terms};
use fb_coverage::Marks;
use fb_system::System;
use fb_types::MOST_STEPS;
use fb_wave::truncation::is_cut;
use fb_wave::{Cut, Page, PortTable, SystemPorts};
use std::alloc::{AllocError, Global};
use std::io::{BufRead, Write};

/// A dump that was begun, with the first line of a trace.
fn begin(alloc: Global, system: &System, reading: Reading) -> Result<StateWave, AllocError>
    ensures { IfOk result (BeginsWave system.now reading) }
{
    let only = none_shown(alloc)?;
    let events = EventFilter::all();
    let marks = Marks::none(alloc);
    let mut walk = begun(alloc, system, only.as_slice(), events, marks, reading)?;
    walk.trail.passed.are_kept = true;
    let mut page = Page::new(alloc);
    let blocks = walk.blocks.as_slice();
    let dump = PortDump::begin(alloc, system, blocks, &mut page.text)?;
    Ok(StateWave {
        walk,
        dump,
        page,
        before: Before::new(alloc),
    })
}

/// Goes through a trace from its first line, with which the dump was begun: to its end, or as far as it goes if it is
/// cut off.
fn go_through<R: BufRead, W: Write>(
    wave: &mut StateWave,
    fixed: &Fixed<'_, '_>,
    terms: Terms,
    refused: &mut RefusedLine,
    input: &mut R,
    out: &mut W,
) -> Result<(), WalkError>
    requires begins { BeginsWave fixed.now.table.now.system.now wave.old.walk.trail.reading wave.old }
    requires next { IsNext fixed.now 0 wave.old.walk.trail.reading }
    requires first { wave.old.walk.trail.reading.number ≡ 1 }
    requires limit { fixed.now.limit ≡ most }
    ensures whole { (known : Option (List ℕ))
        → Consumes known (R.remaining input.old) wave.old.walk.trail.reading.line.items → IsFirstLine wave.old.walk.trail.reading.line.items known
        → OnOk result (IfSome known (λ text. of_walk.IsShownWith terms.cut fixed.now terms.steps text (W.contents out.old) (W.contents out.new))) }
    ensures fault { (known : Option (List ℕ))
        → Consumes known (R.remaining input.old) wave.old.walk.trail.reading.line.items → IsFirstLine wave.old.walk.trail.reading.line.items known
        → OnErr result (of_walk.WritesRead fixed.now terms.steps known (W.contents out.old) (W.contents out.new)) }
    ensures refused { (rest text : List ℕ)
        → terms.steps ≤ most → of_walk.HasNames fixed.now → R.remaining input.old ≡ Some rest → BeginsText fixed.now wave.old.walk.trail.reading.line.items None rest text
        → IfErr result (Refuses (λ refusal. of_walk.IsWrongFor fixed.now terms.steps refusal refused.new.current.text.items text)) }
    ensures before { (rest text : List ℕ)
        → terms.steps ≤ most → of_walk.HasNames fixed.now → R.remaining input.old ≡ Some rest → BeginsText fixed.now wave.old.walk.trail.reading.line.items None rest text
        → IfErr result (Refuses (λ refusal. of_walk.WritesBefore fixed.now refusal.number text (W.contents out.old) (W.contents out.new))) }
    ensures uncut { (rest text : List ℕ)
        → terms.steps ≤ most → of_walk.HasNames fixed.now → R.remaining input.old ≡ Some rest → BeginsText fixed.now wave.old.walk.trail.reading.line.items None rest text
        → terms.cut ≡ Cut.Allowed → IfErr result (Refuses (λ refusal. of_walk.IsUncut fixed.now refusal.number text)) }
{
    if is_cut(terms.cut, wave.walk.trail.reading.line.as_slice()) {
        return wave.finish_cut(out);
    }
    let mut ahead = Ahead::new(fixed.alloc, fixed.table)?;
    let gone = wave.go(fixed, terms, &mut ahead, input, out);
    lend(fixed.alloc, fixed.form, &mut wave.walk.trail, refused);
    gone
}

/// Reads a trace of the system of a table, and writes its dump with the inside of basic blocks.
fn write_with<R: BufRead, W: Write>(
    alloc: Global,
    table: &PortTable<'_>,
    terms: Terms,
    refused: &mut RefusedLine,
    input: &mut R,
    out: &mut W,
) -> Result<(), WalkError>
    ensures whole { OnOk result (IfSome (R.remaining input.old) (λ text. IsShownWith terms.cut table.now.system.now terms.steps text (W.contents out.old) (W.contents out.new))) }
    ensures fault { OnErr result (WritesRead table.now.system.now terms.steps (R.remaining input.old) (W.contents out.old) (W.contents out.new)) }
    ensures refused { HasNames table.now.system.now → terms.steps ≤ most
        → IfErr result (Refuses (λ refusal. IfSome (R.remaining input.old) (IsWrongFor table.now.system.now terms.steps refusal refused.new.current.text.items))) }
    ensures before { HasNames table.now.system.now → terms.steps ≤ most
        → IfErr result (Refuses (λ refusal. IfSome (R.remaining input.old) (λ text. WritesBefore table.now.system.now refusal.number text (W.contents out.old) (W.contents out.new)))) }
    ensures uncut { HasNames table.now.system.now → terms.steps ≤ most → terms.cut ≡ Cut.Allowed
        → IfErr result (Refuses (λ refusal. IfSome (R.remaining input.old) (IsUncut table.now.system.now refusal.number))) }
{
    let (form, reading) = first_reading(alloc, table, input)?;
    let mut wave = begin(alloc, table.system, reading)?;
    let fixed = Fixed {
        alloc,
        table,
        form,
        limit: MOST_STEPS,
    };
    go_through(&mut wave, &fixed, terms, refused, input, out)
}

/// Reads a trace of the system, in either form, and writes its value change dump with the inside of basic blocks. The
/// scope of each has, after its ports, its state by name, its variables that no line carries, and the events that it
/// lost.
///
/// A time of the dump is a tick, in milliseconds. In a tick each signal of a port changes once, at most. What changes
/// inside a block comes where its taking is, so a state changes as often as takings change it. All memory is that of
/// the blocks and the signals, of the lines that an event causes, and of a page.
///
/// If a trace ends where a resource has used up its steps, the walk uses the limit of the terms, otherwise the greatest
/// that a run may have. The dump of a trace that is cut off ends in a comment that says so, if the terms allow it.
/// Before that, lines that may be only a part of what an event causes are shown at ports alone.
///
/// # Errors
/// As those of `crate::inspect`, but no path is unknown: the line is lent at which the trace is refused. What was written
/// before a refusal begins the dump of each whole trace with the lines before the refused one (clause `before`,
/// `laws::lines_are_shown_alike`). After another error it is the beginning of the dump of each trace that begins with
/// the events that were taken before, or of the dump of the trace, if its end was read.
pub fn write_states<R: BufRead, W: Write>(
    alloc: Global,
    system: &System,
    terms: Terms,
    refused: &mut RefusedLine,
    input: &mut R,
    out: &mut W,
) -> Result<(), InspectError>
    ensures whole { OnOk result (IfSome (R.remaining input.old) (λ text. IsShownWith terms.cut system.now terms.steps text (W.contents out.old) (W.contents out.new))) }
    ensures fault { OnErr result (WritesFront system.now terms.steps (W.contents out.old) (W.contents out.new)) }
    ensures read { OnErr result (WritesRead system.now terms.steps (R.remaining input.old) (W.contents out.old) (W.contents out.new)) }
    ensures refused { HasNames system.now → terms.steps ≤ most
        → IfErr result (OfRefusal (λ n. IfSome (R.remaining input.old) (IsWrongAt system.now terms.steps n))) }
    ensures found { HasNames system.now → terms.steps ≤ most
        → IfErr result (OfRefusal (λ n. IfSome (R.remaining input.old) (IsWrongFor system.now terms.steps (record { number = n; finding = refused.new.finding }) refused.new.current.text.items))) }
    ensures before { HasNames system.now → terms.steps ≤ most
        → IfErr result (OfRefusal (λ n. IfSome (R.remaining input.old) (λ text. WritesBefore system.now n text (W.contents out.old) (W.contents out.new)))) }
    ensures uncut { HasNames system.now → terms.steps ≤ most → terms.cut ≡ Cut.Allowed
        → IfErr result (OfRefusal (λ n. IfSome (R.remaining input.old) (IsUncut system.now n))) }
    ensures names { IfErr result (IsNamesFault system.now) }
    ensures paths { IfErr result (λ e. e ≡ Unknown → ⊥) }
{
    let ports = SystemPorts::of(alloc, system)?;
    let Some(table) = PortTable::of(alloc, &ports)? else {
        return Err(InspectError::Names);
    };
    match write_with(alloc, &table, terms, refused, input, out) {
        Ok(()) => Ok(()),
        Err(error) => Err(refused.keep(error)),
    }
}
