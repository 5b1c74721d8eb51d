//! What traces cover.

ghost use Rattle.std.specs.Prelude.{◌≡◌, ◌≤◌, IfErr, IfOk, IfSome};
ghost use Rattle.fb_wave.specs.OfSystem.{HasNames, IsUncut};
ghost use Rattle.fb_inspect.specs.Covering.{Covers};
ghost use Rattle.fb_inspect.specs.walk.Looks.{most};
ghost use Rattle.fb_inspect.specs.Refusals.{OfRefusal};
ghost use Rattle.fb_inspect.specs.OfSystem.{IsNamesFault, IsWrongAt, IsWrongFor};
ghost use Rattle.fb_inspect.specs.declared.error.InspectError.TheVariants.{Unknown};

use crate::error::InspectError;
use crate::filter::EventFilter;
use crate::insides::{Inspection, inspect_and_mark};
use crate::refused::finding::RefusedLine;
use crate::walk::{Extent, Terms};
use fb_coverage::Marks;
use fb_system::System;
use fb_types::Name;
use fb_wave::Cut;
use std::alloc::{AllocError, Global};
use std::io::{BufRead, sink};

/// A path that no instance has: with it alone, no instance is shown.
///
/// # Errors
/// When memory runs out.
pub fn none_shown(alloc: Global) -> Result<Vec<Name>, AllocError> {
    let mut only = Vec::new(alloc);
    only.push(Name::from_slice(alloc, b".")?)?;
    Ok(only)
}

/// What traces cover up to one of them, and how much there is of that one.
pub struct Covered {
    /// What they cover together.
    pub marks: Marks,
    /// How much of the last trace there is.
    pub extent: Extent,
}

// Drop is written by hand, so that callers need not prove it again (docs/DECISIONS.md, "Drop").
impl Drop for Covered {
    fn drop(self) {
        let Covered {
            marks: _,
            extent: _,
        } = self;
    }
}

impl Covered {
    /// What they cover together.
    pub fn into_marks(self) -> Marks
        ensures { result ≡ self.marks }
    {
        let Covered { marks, extent: _ } = self;
        marks
    }
}

/// Reads a trace of the system, in either form, and marks what it covers next to what others covered: exactly what its
/// takings do. Of a trace that is cut off, the event after which only lines of its own block come in its tick is not
/// counted.
///
/// # Errors
/// As those of `inspect`, but no path is unknown. The marks are lost then.
pub fn cover<R: BufRead>(
    alloc: Global,
    system: &System,
    terms: Terms,
    marks: Marks,
    refused: &mut RefusedLine,
    input: &mut R,
) -> Result<Covered, InspectError>
    ensures covered { IfOk result (λ covered. IfSome (R.remaining input.old) (λ text. Covers terms.cut system.now terms.steps text marks covered.marks covered.extent)) }
    ensures refused { HasNames system.now → terms.steps ≤ most
        → IfErr result (OfRefusal (λ n. IfSome (R.remaining input.old) (IsWrongAt system.now terms.steps n))) }
    ensures found { HasNames system.now → terms.steps ≤ most
        → IfErr result (OfRefusal (λ n. IfSome (R.remaining input.old) (IsWrongFor system.now terms.steps (record { number = n; finding = refused.new.finding }) refused.new.current.text.items))) }
    ensures uncut { HasNames system.now → terms.steps ≤ most → terms.cut ≡ Cut.Allowed
        → IfErr result (OfRefusal (λ n. IfSome (R.remaining input.old) (IsUncut system.now n))) }
    ensures names { IfErr result (IsNamesFault system.now) }
    ensures paths { IfErr result (λ e. e ≡ Unknown → ⊥) }
{
    let only = none_shown(alloc)?;
    let inspection = Inspection {
        only: only.as_slice(),
        events: EventFilter::all(),
        terms,
    };
    inspect_and_mark(
        alloc,
        system,
        inspection,
        marks,
        refused,
        input,
        &mut sink(),
    )
}
