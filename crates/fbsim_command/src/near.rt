//! Which of several names is nearest to another one.

ghost use Rattle.std.specs.Prelude.{◌≡◌, ◌<◌, ◌+◌, ℕ, IfOk, IfSome, length, map, option_map};
ghost use Rattle.fb_types.specs.OfSystem.{IsInstance, instance_count};
ghost use Rattle.fbsim_command.specs.Nearest as spec;
ghost use Rattle.fbsim_command.specs.Nearest.{IsBest, IsLeastOf, IsNearestName, IsNearestPath, IsNearestType, name_distance, path_distance, type_distance};

use fb_system::System;
use fb_types::{Library, Name};
use std::alloc::{AllocError, Global};
use strsim::generic_levenshtein;

/// The least count of single bytes to add, to drop or to change that makes one text of the other.
fn distance(alloc: Global, from: &[u8], to: &[u8]) -> Result<usize, AllocError>
    ensures { IfOk result (λ far. far ≡ spec.distance from.now to.now) }
{
    generic_levenshtein(alloc, from, to)
}

/// One of several names, by its index, and how far it is from another one.
#[derive(Clone, Copy)]
struct Candidate {
    index: usize,
    far: usize,
}

/// The nearer one of the best candidate so far and of the next one; the earlier one if both are equally near.
fn nearer(best: Option<Candidate>, next: Candidate) -> Option<Candidate>
    ensures { (f : ℕ → ℕ) → IsBest f next.index best → next.far ≡ f next.index → IsBest f (next.index + 1) result }
{
    let Some(candidate) = best else {
        return Some(next);
    };
    if candidate.far <= next.far {
        return Some(candidate);
    }
    Some(next)
}

/// The first of the instances whose paths are nearest to a text, if there are instances.
fn nearest_instance(alloc: Global, system: &System, text: &[u8]) -> Result<Option<u32>, AllocError>
    ensures instance { IfOk result (λ o. IfSome o (IsInstance system.now)) }
    ensures nearest { IfOk result (IsLeastOf (path_distance system.now text.now) (instance_count system.now)) }
{
    system.facts(); // for the prover: what holds of every accepted system
    let mut best = None;
    for index in 0..system.count() {
        let far = distance(alloc, system.path(index as u32), text)?;
        best = nearer(best, Candidate { index, far });
    }
    match best {
        Some(candidate) => Ok(Some(candidate.index as u32)),
        None => Ok(None),
    }
}

/// The first of the paths of instances that are nearest to a text, if there are instances.
pub(crate) fn nearest_path<'a>(
    alloc: Global,
    system: &'a System,
    text: &[u8],
) -> Result<Option<&'a [u8]>, AllocError>
    ensures { IfOk result (λ near. IsNearestPath system.now text.now (option_map (λ n. n.now) near)) }
{
    match nearest_instance(alloc, system, text)? {
        Some(instance) => Ok(Some(system.path(instance))),
        None => Ok(None),
    }
}

/// The index of the first of the block types whose names are nearest to a text, if there are block types.
fn nearest_type(alloc: Global, library: &Library, text: &[u8]) -> Result<Option<usize>, AllocError>
    ensures within { IfOk result (λ o. IfSome o (λ k. k < length library.now.blocks)) }
    ensures nearest { IfOk result (IsLeastOf (type_distance library.now text.now) (length library.now.blocks)) }
{
    let blocks = library.blocks.as_slice();
    let mut best = None;
    for index in 0..blocks.len() {
        let far = distance(alloc, blocks[index].type_name().as_bytes(), text)?;
        best = nearer(best, Candidate { index, far });
    }
    match best {
        Some(candidate) => Ok(Some(candidate.index)),
        None => Ok(None),
    }
}

/// The first of the names of block types that are nearest to a text, if there are block types.
pub(crate) fn nearest_type_name<'a>(
    alloc: Global,
    library: &'a Library,
    text: &[u8],
) -> Result<Option<&'a [u8]>, AllocError>
    ensures { IfOk result (λ near. IsNearestType library.now text.now (option_map (λ n. n.now) near)) }
{
    match nearest_type(alloc, library, text)? {
        Some(index) => Ok(Some(library.blocks.as_slice()[index].type_name().as_bytes())),
        None => Ok(None),
    }
}

/// The index of the first of some names that is nearest to a text, if there are names.
fn nearest_index(alloc: Global, names: &[&Name], text: &[u8]) -> Result<Option<usize>, AllocError>
    ensures within { IfOk result (λ o. IfSome o (λ k. k < length names.now)) }
    ensures nearest { IfOk result (IsLeastOf (name_distance (map (λ n. n.now) names.now) text.now) (length names.now)) }
{
    let mut best = None;
    for index in 0..names.len() {
        let far = distance(alloc, names[index].as_bytes(), text)?;
        best = nearer(best, Candidate { index, far });
    }
    match best {
        Some(candidate) => Ok(Some(candidate.index)),
        None => Ok(None),
    }
}

/// The first of some names that is nearest to a text, if there are names.
pub(crate) fn nearest_name<'a>(
    alloc: Global,
    names: &[&'a Name],
    text: &[u8],
) -> Result<Option<&'a [u8]>, AllocError>
    ensures { IfOk result (λ near. IsNearestName (map (λ n. n.now) names.now) text.now (option_map (λ n. n.now) near)) }
{
    match nearest_index(alloc, names, text)? {
        Some(index) => Ok(Some(names[index].as_bytes())),
        None => Ok(None),
    }
}
