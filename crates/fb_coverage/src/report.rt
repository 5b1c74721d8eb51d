//! The report of what traces do not cover.

ghost use Rattle.std.specs.Prelude.{◌≡◌, ◌++◌, IfOk, OnOk};
ghost use Rattle.fb_coverage.specs.Reports as spec;
ghost use Rattle.fb_coverage.specs.OfSystem.{report_text};

use crate::block_report::put_blocks;
use crate::marks::Marks;
use crate::port_report::{put_instances, put_unconnected};
use crate::share::{Shares, put_share, shares_of};
use fb_system::System;
use std::alloc::{AllocError, Global};

/// Adds the last line, with how much is covered.
fn put_counts(alloc: Global, text: &mut Vec<u8>, shares: &Shares) -> Result<(), AllocError>
    ensures { OnOk result (text.new.items ≡ text.old.items ++ spec.counts_text shares.now) }
{
    put_share(alloc, text, b"states ", shares.states)?;
    put_share(alloc, text, b", transitions ", shares.transitions)?;
    put_share(alloc, text, b", algorithms ", shares.algorithms)?;
    put_share(alloc, text, b", events ", shares.events)?;
    put_share(alloc, text, b", ports ", shares.ports)?;
    text.extend_from_slice(b"\n")
}

/// The report of what traces cover by their marks: what each basic type has that they do not, what connected event ports
/// of other instances they leave out, the event ports without a connection, and a last line with the numbers of what
/// they cover.
///
/// # Errors
/// When memory runs out.
pub fn report_of(alloc: Global, system: &System, marks: &Marks) -> Result<Vec<u8>, AllocError>
    ensures { IfOk result (λ text. text.items ≡ report_text system.now marks.now) }
{
    let shares = shares_of(system, marks);
    let mut text = Vec::new(alloc);
    put_blocks(alloc, &mut text, marks, system.library().blocks.as_slice())?;
    put_instances(alloc, &mut text, system, marks)?;
    put_unconnected(alloc, &mut text, system, marks)?;
    put_counts(alloc, &mut text, &shares)?;
    Ok(text)
}
