//! The chart of a basic type, with indexes in place of names. It is made once for a type, so that no name of
//! a state, an algorithm or an event is compared during a reaction.

ghost use Rattle.std.specs.Prelude.{◌≡◌, ◌<◌, ◌+◌, ◌^◌, ◌++◌, ◌∷◌, ◌&&◌, [], List, IfOk, OnOk, is_some, length, map};
ghost use Rattle.fb_types.specs.Names.{Name};
ghost use Rattle.fb_types.specs.Blocks.{among, event_names, variable_names};
ghost use Rattle.fb_types.specs.Repeated.{Twice};
ghost use Rattle.fb_types.specs.declared.library.Variable.{Variable};
ghost use Rattle.fb_check_names.specs.Indexes.{IsIndex};
ghost use Rattle.fb_ecc.specs.Indexed.{AreNumbers, entry_of, picked, row_within};
ghost use Rattle.fb_ecc.specs.Located.{slots_among, slots_with_each};
ghost use Rattle.fb_ecc.specs.Numbered.{exit_of, act_of, row_of, chart_of};
ghost use Rattle.fb_ecc.specs.Opened.{IsOfDeclaration};

use crate::numbers::{Numbers, number, optional_number};
use fb_check_names::{Indexes, index_of};
use fb_types::{Action, BasicType, EventPort, Items, Name, Transition};
use std::alloc::{AllocError, Global};
use std::collections::BTreeMap;

/// A transition, with the indexes of what it names.
#[derive(Clone, Copy)]
pub struct Exit {
    /// Its own index among the transitions, where its guard is.
    pub transition: usize,
    /// The index of its event among the event inputs.
    pub event: Option<usize>,
    /// Set where it has a guard: else it is not looked for.
    pub is_guarded: bool,
    /// The index of the state to which it leads.
    pub target: usize,
}

/// An action, with the indexes of its algorithm and of its output event.
#[derive(Clone, Copy)]
pub struct Act {
    pub algorithm: Option<usize>,
    pub output: Option<usize>,
}

/// A state: the transitions that leave it, in the order of the text, and its actions.
#[derive(Drop)]
pub struct ChartState {
    pub exits: Items<Exit>,
    pub acts: Items<Act>,
    /// Set if each of the transitions waits for an event: none of them clears without one.
    pub waits: bool,
}

/// A chart: its states, and the slots of the variables WITH each event input and each event output.
#[derive(Drop)]
pub struct Chart {
    pub rows: Items<ChartState>,
    pub sampled: Items<Items<usize>>,
    pub shown: Items<Items<usize>>,
}

fn numbered_transition(
    block: &BasicType,
    numbers: &Numbers,
    index: usize,
    transition: &Transition,
) -> Exit
    requires { AreNumbers block.now numbers.now }
    ensures { result ≡ exit_of block.now index transition.now }
{
    let event = &transition.condition.event;
    let events = block.ports.event_inputs.len();
    Exit {
        transition: index,
        event: optional_number(&numbers.event_inputs, events, event),
        is_guarded: transition.condition.guard.is_some(),
        target: number(&numbers.states, block.states.len(), &transition.to),
    }
}

fn numbered_action(block: &BasicType, numbers: &Numbers, action: &Action) -> Act
    requires { AreNumbers block.now numbers.now }
    ensures { result ≡ act_of block.now action.now }
{
    let algorithms = block.algorithms.len();
    let outputs = block.ports.event_outputs.len();
    Act {
        algorithm: optional_number(&numbers.algorithms, algorithms, &action.algorithm),
        output: optional_number(&numbers.event_outputs, outputs, &action.output),
    }
}

fn acts(
    alloc: Global,
    block: &BasicType,
    numbers: &Numbers,
    actions: &[Action],
) -> Result<Items<Act>, AllocError>
    requires { AreNumbers block.now numbers.now }
    ensures { IfOk result (λ acts. acts ≡ map (act_of block.now) actions.now) }
{
    let mut acts = Items::new(alloc);
    for action in actions {
        acts.push(numbered_action(block, numbers, action))?;
    }
    Ok(acts)
}

/// The states with their actions, as yet without transitions.
fn rows_begun(
    alloc: Global,
    block: &BasicType,
    numbers: &Numbers,
) -> Result<Vec<ChartState>, AllocError>
    requires { AreNumbers block.now numbers.now }
    ensures { IfOk result (λ rows. rows.items ≡ map (row_within block.now 0) block.now.states) }
{
    let mut rows = Vec::new(alloc);
    for state in block.states.as_slice() {
        let acts = acts(alloc, block, numbers, state.actions.as_slice())?;
        let exits = Items::new(alloc);
        rows.push(ChartState {
            exits,
            acts,
            waits: true,
        })?;
    }
    Ok(rows)
}

/// Puts a transition after the others that leave a state.
fn add_exit(row: &mut ChartState, exit: Exit) -> Result<(), AllocError>
    ensures exits { OnOk result (row.new.exits ≡ row.old.exits ++ exit ∷ []) }
    ensures acts { OnOk result (row.new.acts ≡ row.old.acts) }
    ensures waits { OnOk result (row.new.waits ≡ (row.old.waits && is_some exit.event)) }
{
    let waits = row.waits && exit.event.is_some();
    row.exits.push(exit)?;
    row.waits = waits;
    Ok(())
}

/// The states. The transitions are visited once, and each is added to the state that it leaves.
fn rows(
    alloc: Global,
    block: &BasicType,
    numbers: &Numbers,
) -> Result<Items<ChartState>, AllocError>
    requires { AreNumbers block.now numbers.now }
    ensures { IfOk result (λ rows. rows ≡ map (row_of block.now) block.now.states) }
{
    let mut rows = rows_begun(alloc, block, numbers)?;
    for (index, transition) in block.transitions.as_slice().iter().enumerate() {
        if let Some(source) = index_of(&numbers.states, transition.from.as_bytes()) {
            let exit = numbered_transition(block, numbers, index, transition);
            add_exit(&mut rows[source], exit)?;
        }
    }
    Ok(Items::from_vec(rows))
}

/// The names that are among others, by their indexes among these. The others are skipped; an accepted type has
/// none.
fn found_among<'a>(
    alloc: Global,
    names: &'a [Name],
    indexes: &Indexes,
) -> Result<BTreeMap<usize, &'a Name, Global>, AllocError>
    ensures { IfOk result (λ found. (all : List Name) → IsIndex all indexes.now → map entry_of found.entries ≡ picked (among names.now) all 0) }
{
    let mut found = BTreeMap::new(alloc);
    for name in names {
        if let Some(index) = index_of(indexes, name.as_bytes()) {
            found.insert(index, name)?;
        }
    }
    Ok(found)
}

/// Names with their indexes, in the order of the indexes.
fn in_order<'a>(
    alloc: Global,
    found: BTreeMap<usize, &'a Name, Global>,
) -> Result<Vec<(usize, &'a Name)>, AllocError>
    ensures { IfOk result (λ entries. entries.items ≡ found.entry.entries) }
{
    found.into_iter().collect(alloc)
}

/// The slots of the variables WITH an event, in the order of the declaration. The first of the variables has that slot.
/// Names of none of them are skipped; an accepted type has none.
fn slots_with(
    alloc: Global,
    with: &[Name],
    variables: &Indexes,
    first: usize,
) -> Result<Items<usize>, AllocError>
    ensures { IfOk result (λ slots. (all : List Name) → IsIndex all variables.now → first + length all < 2 ^ 64 → slots ≡ slots_among (among with.now) all first) }
{
    let found = found_among(alloc, with, variables)?;
    let entries = in_order(alloc, found)?;
    let mut slots = Items::new(alloc);
    for entry in entries.as_slice() {
        let (index, _) = *entry;
        slots.push(first.saturating_add(index))?;
    }
    Ok(slots)
}

/// The slots of the variables WITH each event. Events differ by their names, so each has those of its own list.
fn all_slots_with(
    alloc: Global,
    events: &[EventPort],
    variables: &Indexes,
    first: usize,
) -> Result<Items<Items<usize>>, AllocError>
    requires { ¬ (Twice (event_names events.now)) }
    ensures { IfOk result (λ all. (list : List Variable) → IsIndex (variable_names list) variables.now → first + length list < 2 ^ 64 → all ≡ slots_with_each events.now list first) }
{
    let mut all = Items::new(alloc);
    for event in events {
        all.push(slots_with(alloc, event.with.as_slice(), variables, first)?)?;
    }
    Ok(all)
}

impl Chart {
    /// The chart of a type of an accepted declaration.
    ///
    /// # Errors
    /// When memory runs out.
    pub fn of(alloc: Global, block: &BasicType) -> Result<Chart, AllocError>
        requires { IsOfDeclaration block.now }
        ensures { IfOk result (λ chart. chart ≡ chart_of block.now) }
    {
        let numbers = Numbers::of(alloc, block)?;
        let ports = &block.ports;
        let inputs = ports.event_inputs.as_slice();
        let outputs = ports.event_outputs.as_slice();
        // for the prover: a type has fewer than 2^32 of each, so that a slot is a number of 64 bits
        ports.inputs.count();
        ports.outputs.count(); // for the prover: how many of them there are at most
        let first_output = ports.inputs.len();
        Ok(Chart {
            rows: rows(alloc, block, &numbers)?,
            sampled: all_slots_with(alloc, inputs, &numbers.inputs, 0)?,
            shown: all_slots_with(alloc, outputs, &numbers.outputs, first_output)?,
        })
    }
}
