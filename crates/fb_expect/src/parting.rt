//! Where two texts first differ.

ghost use Rattle.std.specs.Prelude.{◌≡◌, [], IfErr, IfOk, IfSome, OnErr, OnOk};
ghost use Rattle.std.specs.Io.BufRead.{DropsThrough, take_through};
ghost use Rattle.std.specs.Io.KnownBytes.{Consumes, IsAtEnd};
ghost use Rattle.fb_expect.specs.Faults as faults;
ghost use Rattle.fb_expect.specs.Lines.{IsOneLine};
ghost use Rattle.fb_expect.specs.Parting as spec;
ghost use Rattle.fb_expect.specs.Parting.{IsUnparted, MayFind, MayPart};
ghost use Rattle.fb_expect.specs.declared.lines.ReadFault.{ReadFault as ReadFaultModel};

use crate::lines::{ReadFault, next_line};
use crate::timeless::without_tick;
use std::alloc::Global;
use std::io::BufRead;

/// Two lines that differ and have the same number in their texts. All before them are the same.
#[derive(Drop)]
pub struct Difference {
    /// Their number, from 1.
    pub number: u64,
    /// The lines with their line feeds. One is empty where its text ends before it.
    pub left: Vec<u8>,
    pub right: Vec<u8>,
}

/// Why two texts are not compared.
#[derive(Clone, Copy)]
pub enum PartFault {
    /// There is no memory for a line.
    Memory,
    /// The reader of the first failed, other than for memory.
    First,
    /// That of the second did.
    Second,
}

/// Why a text is not compared where its next line is not read: it fails so, other than for memory.
fn part_fault(unread: PartFault, fault: ReadFault) -> PartFault
    ensures { result ≡ faults.part_fault unread fault }
{
    match fault {
        ReadFault::Memory => PartFault::Memory,
        ReadFault::Read => unread,
    }
}

/// Reads the next line of a text, or fails as that text does.
fn read_line<R: BufRead>(
    input: &mut R,
    line: &mut Vec<u8>,
    unread: PartFault,
) -> Result<(), PartFault>
    ensures line { OnOk result (IfSome (R.remaining input.old) (λ xs. line.new.items ≡ take_through 10 xs)) }
    ensures rest { OnOk result (DropsThrough (R.remaining input.old) (R.remaining input.new) 10) }
    ensures end { OnOk result (line.new.items ≡ [] → IsAtEnd (R.remaining input.old)) }
    ensures part { OnErr result (IsOneLine line.new.items × Consumes (R.remaining input.old) (R.remaining input.new) line.new.items) }
    ensures fault { IfErr result (λ f. (e : ReadFaultModel) × (f ≡ faults.part_fault unread e)) }
{
    match next_line(input, line) {
        Ok(()) => Ok(()),
        Err(fault) => Err(part_fault(unread, fault)),
    }
}

/// Whether two lines are the same, or are without their ticks.
fn are_alike(is_without_ticks: bool, left: &[u8], right: &[u8]) -> bool
    ensures { result ≡ spec.are_alike is_without_ticks left.now right.now }
{
    if !is_without_ticks {
        return left == right;
    }
    let (left_front, left_rest) = without_tick(left);
    let (right_front, right_rest) = without_tick(right);
    left_front == right_front && left_rest == right_rest
}

/// Reads two texts line by line, up to the first line in which they differ, if there is one. Ticks may be left out of
/// each line.
///
/// # Errors
/// `Memory` if there is no memory for a line, else which of the two can't be read. All lines before it are alike.
pub fn part<R: BufRead, S: BufRead>(
    alloc: Global,
    is_without_ticks: bool,
    first: &mut R,
    second: &mut S,
) -> Result<Option<Difference>, PartFault>
    ensures parted { IfOk result (MayPart is_without_ticks (R.remaining first.old) (S.remaining second.old)) }
    ensures unread { IfErr result (IsUnparted is_without_ticks (R.remaining first.old) (S.remaining second.old) (R.remaining first.new) (S.remaining second.new)) }
{
    let mut left = Vec::new(alloc);
    let mut right = Vec::new(alloc);
    let number = parting(is_without_ticks, first, second, &mut left, &mut right)?;
    match number {
        Some(number) => Ok(Some(Difference {
            number,
            left,
            right,
        })),
        None => Ok(None),
    }
}

/// The number of the first line in which two texts differ. The lines are in the buffers.
fn parting<R: BufRead, S: BufRead>(
    is_without_ticks: bool,
    first: &mut R,
    second: &mut S,
    left: &mut Vec<u8>,
    right: &mut Vec<u8>,
) -> Result<Option<u64>, PartFault>
    ensures found { IfOk result (MayFind is_without_ticks (R.remaining first.old) (S.remaining second.old) left.new.items right.new.items) }
    ensures unread { IfErr result (IsUnparted is_without_ticks (R.remaining first.old) (S.remaining second.old) (R.remaining first.new) (S.remaining second.new)) }
{
    for number in 1..u64::MAX {
        read_line(first, left, PartFault::First)?;
        read_line(second, right, PartFault::Second)?;
        if left.is_empty() && right.is_empty() {
            return Ok(None);
        }
        if !are_alike(is_without_ticks, left.as_slice(), right.as_slice()) {
            return Ok(Some(number));
        }
    }
    // 2^64 lines are more than any text has
    Err(PartFault::First)
}
