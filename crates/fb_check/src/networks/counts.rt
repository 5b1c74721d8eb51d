//! E30: the number of instances of an application, including those inside composites.

ghost use Rattle.std.specs.Prelude.{◌≡◌, ◌↔◌, ◌<◌, length, map, IfOk, IsTrue};
ghost use Rattle.fb_types.specs.Flat.{paths_of};
ghost use Rattle.fb_types.specs.declared.deploy.Plan.{Plan};
ghost use Rattle.fb_types.specs.declared.library.Library.{Library};
ghost use Rattle.fb_check_names.specs.Numbers.{IsResolved};
ghost use Rattle.fb_check.specs.networks.Counts as spec;

use fb_check_names::{NetworkNumbers, Resolved, TypeNumber};
use std::alloc::{AllocError, Global};

/// The most instances of an application, including composites and their components.
const MOST: usize = 4096;

/// The greatest depth of an instance inside a type: in a composite of the greatest height, the components of the
/// innermost one.
const DEPTH: usize = 16;

fn inside_count(counts: &[usize], number: TypeNumber) -> usize
    ensures { result ≡ spec.inside_count counts.now number }
{
    match number {
        TypeNumber::Event(_) => 0,
        TypeNumber::Declared(block) => counts.get(block).copied().unwrap_or(0),
    }
}

/// The number of instances of these types and all inside them, from the number inside each block type. It counts no
/// further than one past the limit.
fn count_of(counts: &[usize], types: &[TypeNumber]) -> usize
    ensures { result ≡ spec.count_of counts.now types.now }
{
    let mut count: usize = 0;
    for number in types {
        let inside = inside_count(counts, *number);
        count = count.saturating_add(inside).saturating_add(1).min(MOST + 1);
    }
    count
}

fn count_inside(counts: &[usize], numbers: &Option<NetworkNumbers>) -> usize
    ensures { result ≡ spec.count_inside counts.now numbers.now }
{
    match numbers {
        Some(network) => count_of(counts, network.types.as_slice()),
        None => 0,
    }
}

/// The numbers of instances inside each block type, one name deeper.
fn count_again(
    alloc: Global,
    blocks: &[Option<NetworkNumbers>],
    counts: &[usize],
) -> Result<Vec<usize>, AllocError>
    ensures { IfOk result (λ v. v.items ≡ map (spec.count_inside counts.now) blocks.now) }
{
    let mut again = Vec::new(alloc);
    for numbers in blocks {
        again.push(count_inside(counts, numbers))?;
    }
    Ok(again)
}

/// Zero for each block type.
fn count_none(alloc: Global, blocks: &[Option<NetworkNumbers>]) -> Result<Vec<usize>, AllocError>
    ensures { IfOk result (λ v. v.items ≡ map spec.no_count blocks.now) }
{
    let mut counts = Vec::new(alloc);
    for _block in blocks {
        counts.push(0)?;
    }
    Ok(counts)
}

/// The numbers after these rounds: of instances inside each block type, at most that many names deep.
fn counts_after(
    alloc: Global,
    blocks: &[Option<NetworkNumbers>],
    rounds: usize,
) -> Result<Vec<usize>, AllocError>
    ensures { IfOk result (λ v. v.items ≡ spec.counts_after rounds blocks.now) }
{
    let mut counts = count_none(alloc, blocks)?;
    for _round in 0..rounds {
        counts = count_again(alloc, blocks, &counts)?;
    }
    Ok(counts)
}

/// Whether the application of a declaration with these numbers has more than 4,096 instances, including composites and
/// their components.
pub fn has_too_many_instances(alloc: Global, numbers: &Resolved) -> Result<bool, AllocError>
    ensures { IfOk result (λ b. (library : Library) (plan : Plan) → IsResolved library plan numbers.now → (IsTrue b ↔ (4096 < length (paths_of library)))) }
{
    let counts = counts_after(alloc, numbers.blocks.as_slice(), DEPTH)?;
    let count = count_of(&counts, numbers.application.types.as_slice());
    Ok(count > MOST)
}
