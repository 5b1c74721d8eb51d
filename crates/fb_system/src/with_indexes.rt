//! The indexes of the variables WITH each event of a type of the declaration.

ghost use Rattle.std.specs.Prelude.{◌≡◌, ◌<◌, ◌^◌, ℕ, IfOk, length};
ghost use Rattle.std.specs.List.{filter};
ghost use Rattle.fb_types.specs.Blocks.{among, variable_names};
ghost use Rattle.fb_system.specs.IndexLists.{AreIndexes, AreIndexesOfEach, AreWithIndexes};
ghost use Rattle.fb_system.specs.Lookups.{AreEvents, IsIndexed, IsList, AreIndexedFrom};

use fb_check_names::{Indexes, index_of};
use fb_types::{EventPort, Items, Name, Ports, Variable};
use std::alloc::{AllocError, Global};

/// For each event of a type the indexes of the variables WITH it, from 0, in the order in which the variables are
/// declared.
#[derive(Drop)]
pub struct WithIndexes {
    /// For each event input, indexes among the inputs.
    pub inputs: Items<Items<u32>>,
    /// For each event output, indexes among the outputs.
    pub outputs: Items<Items<u32>>,
}

/// The index of the first of some variables among all names of their type, or 0 if there are no variables.
fn first_index(variables: &[Variable], indexes: &Indexes) -> usize
    ensures { (first : ℕ) → AreIndexedFrom first variables.now indexes.now → 0 < length variables.now → result ≡ first }
{
    match variables.first() {
        Some(variable) => index_of(indexes, variable.name.as_bytes()).unwrap_or(0),
        None => 0,
    }
}

/// The indexes of the variables that a WITH list names, in any order.
fn indexes_of_list(
    alloc: Global,
    variables: &[Variable],
    indexes: &Indexes,
    list: &[Name],
) -> Result<Items<u32>, AllocError>
    requires stand { (first : ℕ) × AreIndexedFrom first variables.now indexes.now }
    requires list { IsList variables.now list.now }
    requires few { length variables.now < 2 ^ 32 }
    ensures { IfOk result (AreIndexes variables.now (filter (among list.now) (variable_names variables.now))) }
{
    let first = first_index(variables, indexes);
    let mut numbers = Vec::new(alloc);
    for name in list {
        let Some(index) = index_of(indexes, name.as_bytes()) else {
            unreachable!()
        };
        numbers.push((index - first) as u32)?;
    }
    numbers.sort_unstable();
    Ok(Items::from_vec(numbers))
}

/// For each event, the indexes of the variables WITH it.
fn indexes_of_lists(
    alloc: Global,
    events: &[EventPort],
    variables: &[Variable],
    indexes: &Indexes,
) -> Result<Items<Items<u32>>, AllocError>
    requires stand { (first : ℕ) × AreIndexedFrom first variables.now indexes.now }
    requires events { AreEvents variables.now events.now }
    requires few { length variables.now < 2 ^ 32 }
    ensures { IfOk result (AreIndexesOfEach events.now variables.now) }
{
    let mut all = Items::new(alloc);
    for event in events {
        all.push(indexes_of_list(alloc, variables, indexes, event.with.as_slice())?)?;
    }
    Ok(all)
}

/// The indexes of the variables WITH each event of an interface, from the indexes of all names of the type.
pub(crate) fn with_indexes(
    alloc: Global,
    ports: &Ports,
    indexes: &Indexes,
) -> Result<WithIndexes, AllocError>
    requires { IsIndexed ports.now indexes.now }
    ensures { IfOk result (AreWithIndexes ports.now) }
{
    ports.inputs.count(); // for the prover: how many of them there are at most
    ports.outputs.count(); // for the prover: how many of them there are at most
    let inputs = indexes_of_lists(
        alloc,
        ports.event_inputs.as_slice(),
        ports.inputs.as_slice(),
        indexes,
    )?;
    let outputs = indexes_of_lists(
        alloc,
        ports.event_outputs.as_slice(),
        ports.outputs.as_slice(),
        indexes,
    )?;
    Ok(WithIndexes { inputs, outputs })
}
