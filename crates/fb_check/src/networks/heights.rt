//! E25: composite types that contain themselves, or have a height over 16.

ghost use Rattle.std.specs.Prelude.{◌≡◌, true, false, All, IfOk, MatchOption, is_some, length, map, position, replicate};
ghost use Rattle.fb_types.specs.Joined.{TooHigh};
ghost use Rattle.fb_types.specs.declared.deploy.Plan.{Plan};
ghost use Rattle.fb_types.specs.declared.library.Library.{Library};
ghost use Rattle.fb_check_names.specs.Numbers.{IsResolved};
ghost use Rattle.fb_check.specs.networks.Heights as spec;
ghost use Rattle.fb_check.specs.networks.Heights.{IsTooHighAt};

use fb_check_names::{NetworkNumbers, Resolved, TooHighAt, TypeNumber};
use std::alloc::{AllocError, Global};

/// The number of steps below a component's type from which its holder is too high. A composite type that contains no
/// composite type has height 1, and the greatest height is 16.
const MOST_STEPS: usize = 15;

fn is_marked(marks: &[bool], number: TypeNumber) -> bool
    ensures { result ≡ spec.is_marked marks.now number }
{
    match number {
        TypeNumber::Event(_) => false,
        TypeNumber::Declared(block) => marks.get(block).copied().unwrap_or(false),
    }
}

/// The first of these types that is marked.
fn first_marked(marks: &[bool], types: &[TypeNumber]) -> Option<usize>
    ensures { result ≡ position (spec.is_marked marks.now) types.now }
{
    for (component, number) in types.iter().enumerate() {
        if is_marked(marks, *number) {
            return Some(component);
        }
    }
    None
}

/// The first component of a composite type that is of a marked type.
fn first_marked_component(marks: &[bool], numbers: &Option<NetworkNumbers>) -> Option<usize>
    ensures { result ≡ spec.first_marked_component marks.now numbers.now }
{
    match numbers {
        Some(network) => first_marked(marks, network.types.as_slice()),
        None => None,
    }
}

/// Marks all composite types.
fn mark_all(alloc: Global, blocks: &[Option<NetworkNumbers>]) -> Result<Vec<bool>, AllocError>
    ensures { IfOk result (λ v. v.items ≡ map is_some blocks.now) }
{
    let mut marks = Vec::new(alloc);
    for numbers in blocks {
        marks.push(numbers.is_some())?;
    }
    Ok(marks)
}

/// Marks the composite types that have a component of a type that is marked.
fn mark_again(
    alloc: Global,
    blocks: &[Option<NetworkNumbers>],
    marks: &[bool],
) -> Result<Vec<bool>, AllocError>
    ensures { IfOk result (λ v. v.items ≡ map (spec.holds_marked marks.now) blocks.now) }
{
    let mut again = Vec::new(alloc);
    for numbers in blocks {
        again.push(first_marked_component(marks, numbers).is_some())?;
    }
    Ok(again)
}

/// The marks after these rounds. At first each composite type is marked. After n rounds those are marked from which n
/// steps lead down.
fn marks_after(
    alloc: Global,
    blocks: &[Option<NetworkNumbers>],
    rounds: usize,
) -> Result<Vec<bool>, AllocError>
    ensures { IfOk result (λ v. v.items ≡ spec.marks_after rounds blocks.now) }
{
    let mut marks = mark_all(alloc, blocks)?;
    for _round in 0..rounds {
        marks = mark_again(alloc, blocks, &marks)?;
    }
    Ok(marks)
}

/// The first composite type with a component of a marked type, and this component.
fn first_holder(blocks: &[Option<NetworkNumbers>], marks: &[bool]) -> Option<(usize, usize)>
    ensures { MatchOption result (All (spec.HoldsNone marks.now) blocks.now) (spec.IsHolder blocks.now marks.now) }
{
    for (block, numbers) in blocks.iter().enumerate() {
        if let Some(component) = first_marked_component(marks, numbers) {
            return Some((block, component));
        }
    }
    None
}

/// The index of the type of a component, if it is declared.
fn type_inside(numbers: &Option<NetworkNumbers>, component: usize) -> Option<usize>
    ensures { result ≡ spec.type_inside numbers.now component }
{
    match numbers {
        Some(network) => match network.types.get(component)? {
            TypeNumber::Event(_) => None,
            TypeNumber::Declared(block) => Some(*block),
        },
        None => None,
    }
}

/// The index of the type of the first component that is of a marked type.
fn below(blocks: &[Option<NetworkNumbers>], marks: &[bool], block: usize) -> Option<usize>
    ensures { result ≡ spec.below blocks.now marks.now block }
{
    let numbers = blocks.get(block)?;
    let component = first_marked_component(marks, numbers)?;
    type_inside(numbers, component)
}

/// The marks that last: rounds go on until one takes no mark away. From a type that keeps its mark any number of steps
/// leads down, so there is one exactly if a type contains itself.
fn lasting_marks(alloc: Global, blocks: &[Option<NetworkNumbers>]) -> Result<Vec<bool>, AllocError>
    ensures { IfOk result (λ v. spec.AreLasting blocks.now v.items) }
{
    let mut marks = mark_all(alloc, blocks)?;
    'rounds: loop {
        let again = mark_again(alloc, blocks, &marks)?;
        if again == marks {
            return Ok(marks);
        }
        marks = again;
    }
}

/// The first marked type.
fn first_set(marks: &[bool]) -> Option<usize>
    ensures { MatchOption result (spec.HasNoMark marks.now) (λ k. spec.mark_at marks.now k ≡ true) }
{
    for (block, is_set) in marks.iter().enumerate() {
        if *is_set {
            return Some(block);
        }
    }
    None
}

/// The type to which a walk comes a second time. It begins at a marked type, and each step leads to the type of the
/// first component that is of a marked type. At first no type is seen.
fn walk(blocks: &[Option<NetworkNumbers>], marks: &[bool], seen: &mut [bool], from: usize) -> usize
    requires lasting { spec.AreLasting blocks.now marks.now }
    requires marked { spec.mark_at marks.now from ≡ true }
    requires unseen { seen.old ≡ replicate (length blocks.now) false }
    ensures { spec.ComesBack blocks.now marks.now result }
{
    let mut block = from;
    'steps: while !seen[block] {
        seen[block] = true;
        let Some(next) = below(blocks, marks, block) else {
            unreachable!()
        };
        block = next;
    }
    block
}

/// The same, with what it needs to remember the types that were seen.
fn met_again(
    alloc: Global,
    blocks: &[Option<NetworkNumbers>],
    marks: &[bool],
    from: usize,
) -> Result<usize, AllocError>
    requires lasting { spec.AreLasting blocks.now marks.now }
    requires marked { spec.mark_at marks.now from ≡ true }
    ensures { IfOk result (spec.ComesBack blocks.now marks.now) }
{
    let mut seen = vec![in alloc; false; blocks.len()]?;
    Ok(walk(blocks, marks, &mut seen, from))
}

/// A composite type that contains itself, with the component through which it does, if there is one.
fn first_circle(
    alloc: Global,
    blocks: &[Option<NetworkNumbers>],
) -> Result<Option<(usize, usize)>, AllocError>
    ensures { IfOk result (λ o. MatchOption o (spec.NoneLasts blocks.now) (spec.IsCircle blocks.now)) }
{
    let lasting = lasting_marks(alloc, blocks)?;
    let marks = lasting.as_slice();
    let Some(from) = first_set(marks) else {
        return Ok(None);
    };
    let block = met_again(alloc, blocks, marks, from)?;
    let Some(component) = first_marked_component(marks, &blocks[block]) else {
        unreachable!()
    };
    Ok(Some((block, component)))
}

/// A composite type that is too high, if there is one. The marks are those after the most steps, so only a declaration
/// with such a type is searched for circles.
fn too_high_by(
    alloc: Global,
    blocks: &[Option<NetworkNumbers>],
    marks: &[bool],
) -> Result<Option<TooHighAt>, AllocError>
    ensures { IfOk result (λ o. MatchOption o (All (spec.HoldsNone marks.now) blocks.now) (spec.IsTooHighIn blocks.now marks.now)) }
{
    let Some((block, component)) = first_holder(blocks, marks) else {
        return Ok(None);
    };
    match first_circle(alloc, blocks)? {
        Some((block, component)) => Ok(Some(TooHighAt::Circle(block, component))),
        None => Ok(Some(TooHighAt::Height(block, component))),
    }
}

/// A composite type that contains itself at any depth or has a height over 16, in a declaration with these numbers, with
/// the component through which it does, if there is one. It is called too high only if no type contains itself.
///
/// # Errors
///
/// When memory runs out.
pub fn too_high_location(alloc: Global, numbers: &Resolved) -> Result<Option<TooHighAt>, AllocError>
    ensures { IfOk result (λ o. (library : Library) (plan : Plan) → IsResolved library plan numbers.now → MatchOption o (¬ (TooHigh library)) (IsTooHighAt library)) }
{
    let blocks = numbers.blocks.as_slice();
    let marks = marks_after(alloc, blocks, MOST_STEPS)?;
    too_high_by(alloc, blocks, &marks)
}
