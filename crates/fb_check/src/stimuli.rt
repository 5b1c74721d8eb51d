//! The stimuli by number, if the application can take them (E29).

ghost use Rattle.std.specs.Prelude.{◌≡◌, [], All, IfOk, MatchOption};
ghost use Rattle.fb_types.specs.Accepted.{set_names};
ghost use Rattle.fb_types.specs.Repeated.{Twice};
ghost use Rattle.fb_types.specs.Unknown.{NameUnknown};
ghost use Rattle.fb_types.specs.declared.deploy.Plan.{Plan};
ghost use Rattle.fb_check_names.specs.Catalog.{IsCatalog};
ghost use Rattle.fb_check_names.specs.Repeats.{IsFirstRepeat};
ghost use Rattle.fb_check.specs.Directory.{IsDirectory, AreTaken, held_slot, input_in, slot_of};
ghost use Rattle.fb_check.specs.Stimuli.{AreAllBad, AreSlotsOr, IsAdded, IsBadAt, IsRowOr};

use crate::directory::{Directory, inputs_at};
use crate::directory_making::{TypeInputs, inputs_of_each, targets_of};
use crate::location::{StimulusFault, StimulusLocation};
use crate::name_pair::NamePair;
use crate::types::adding::push_one;
use fb_check_names::{Catalog, first_repeat, index_of_name};
use fb_system::StimulusRow;
use fb_types::{InputValue, Items, Library, Name, Setting, Stimulus, Value, all_ports};
use std::alloc::{AllocError, Global};

/// The index of the first setting of a variable that a setting before it sets, if there is one.
fn repeated_setting(alloc: Global, stimulus: &Stimulus) -> Result<Option<usize>, AllocError>
    ensures { IfOk result (λ o. MatchOption o (¬ (Twice (set_names stimulus.now))) (IsFirstRepeat (set_names stimulus.now))) }
{
    first_repeat(alloc, stimulus.settings.as_slice())
}

/// The slot of a data input with its value, if the type contains the value.
fn held_slot(inputs: &TypeInputs, variable: &Name, value: Value) -> Option<InputValue>
    ensures { result ≡ held_slot (input_in inputs.now.variables variable.now) value }
{
    let index = match inputs.variables.get(variable) {
        Some(input) if input.ty.holds(value) => input.index,
        _ => return None,
    };
    Some(InputValue { index, value })
}

/// The slot of a variable that goes WITH the event of the stimulus, is not connected, and can contain the value.
fn slot_of(
    directory: &Directory,
    inputs: &TypeInputs,
    stimulus: &Stimulus,
    setting: &Setting,
) -> Option<InputValue>
    ensures { result ≡ slot_of directory.now inputs.now stimulus.now setting.now }
{
    let variable = &setting.variable;
    let at_event = NamePair {
        first: &stimulus.event,
        second: variable,
    };
    let at_instance = NamePair {
        first: &stimulus.instance,
        second: variable,
    };
    if inputs.withs.contains(at_event) && !directory.targets.contains(at_instance) {
        held_slot(inputs, variable, setting.value)
    } else {
        None
    }
}

/// The slots that a stimulus sets, in the order of its settings, or the index of one that can't be set.
fn slots_of(
    alloc: Global,
    directory: &Directory,
    inputs: &TypeInputs,
    stimulus: &Stimulus,
) -> Result<Result<Items<InputValue>, usize>, AllocError>
    ensures { IfOk result (AreSlotsOr (slot_of directory.now inputs.now stimulus.now) stimulus.now.settings) }
{
    let settings = stimulus.settings.as_slice();
    let mut slots = Items::new(alloc);
    for (index, setting) in settings.iter().enumerate() {
        match slot_of(directory, inputs, stimulus, setting) {
            Some(slot) => slots.push(slot)?,
            None => return Ok(Err(index)),
        }
    }
    Ok(Ok(slots))
}

/// A stimulus by number, or what is wrong with it.
pub(crate) fn row_of(
    alloc: Global,
    library: &Library,
    catalog: &Catalog,
    directory: &Directory,
    stimulus: &Stimulus,
) -> Result<Result<StimulusRow, StimulusFault>, AllocError>
    requires names { (plan : Plan) × IsCatalog library.now plan catalog.now × ¬ (NameUnknown library.now plan) }
    requires directory { IsDirectory library.now directory.now }
    ensures { IfOk result (IsRowOr library.now stimulus.now) }
{
    let Some(index) = index_of_name(&catalog.instances, &stimulus.instance) else {
        return Ok(Err(StimulusFault::Event));
    };
    let Some(inputs) = inputs_at(library, catalog, directory, index) else {
        return Ok(Err(StimulusFault::Event));
    };
    let Some(event) = inputs.events.get(&stimulus.event).copied() else {
        return Ok(Err(StimulusFault::Event));
    };
    let repeated = repeated_setting(alloc, stimulus)?;
    let sets = match slots_of(alloc, directory, inputs, stimulus)? {
        Ok(sets) => sets,
        Err(setting) => return Ok(Err(StimulusFault::Setting(setting))),
    };
    if let Some(setting) = repeated {
        return Ok(Err(StimulusFault::Twice(setting)));
    }
    // for the prover: there are fewer than 2^32 instances, so the index fits
    library.application.network.instances.count();
    Ok(Ok(StimulusRow {
        tick: stimulus.tick,
        instance: index as u32,
        event,
        sets,
    }))
}

/// Adds what was made of the stimulus at a row.
fn push_row(
    rows: &mut Items<StimulusRow>,
    found: &mut Vec<StimulusLocation>,
    row: usize,
    made: Result<StimulusRow, StimulusFault>,
) -> Result<(), AllocError>
    ensures { IfOk result (λ _. IsAdded row made rows.old rows.new found.old.items found.new.items) }
{
    match made {
        Ok(taken) => rows.push(taken),
        Err(fault) => push_one(found, StimulusLocation { row, fault }),
    }
}

/// The stimuli by number, each at its row, from what they may name. Adds all that can't be taken.
fn rows_by(
    alloc: Global,
    found: &mut Vec<StimulusLocation>,
    library: &Library,
    catalog: &Catalog,
    directory: &Directory,
    stimuli: &[Stimulus],
) -> Result<Items<StimulusRow>, AllocError>
    requires empty { found.old.items ≡ [] }
    requires names { (plan : Plan) × IsCatalog library.now plan catalog.now × ¬ (NameUnknown library.now plan) }
    requires directory { IsDirectory library.now directory.now }
    ensures each { IfOk result (λ _. All (IsBadAt library.now stimuli.now) found.new.items) }
    ensures all { IfOk result (λ _. AreAllBad library.now stimuli.now found.new.items) }
    ensures rows { IfOk result (λ rows. found.new.items ≡ [] → AreTaken library.now stimuli.now rows) }
{
    let mut rows = Items::new(alloc);
    for (row, stimulus) in stimuli.iter().enumerate() {
        let made = row_of(alloc, library, catalog, directory, stimulus)?;
        push_row(&mut rows, found, row, made)?;
    }
    Ok(rows)
}

/// The stimuli by number, each at its row, in near linear time. Adds all that name no event input of an instance of the
/// application, or set a variable that is not WITH the event, is connected, is set twice, or can't contain the value
/// (E29).
///
/// # Errors
///
/// When memory runs out.
pub(crate) fn stimulus_rows(
    alloc: Global,
    found: &mut Vec<StimulusLocation>,
    library: &Library,
    catalog: &Catalog,
    stimuli: &[Stimulus],
) -> Result<Items<StimulusRow>, AllocError>
    requires empty { found.old.items ≡ [] }
    requires names { (plan : Plan) × IsCatalog library.now plan catalog.now × ¬ (NameUnknown library.now plan) }
    ensures each { IfOk result (λ _. All (IsBadAt library.now stimuli.now) found.new.items) }
    ensures all { IfOk result (λ _. AreAllBad library.now stimuli.now found.new.items) }
    ensures rows { IfOk result (λ rows. found.new.items ≡ [] → AreTaken library.now stimuli.now rows) }
{
    let interfaces = all_ports(alloc)?;
    let network = &library.application.network;
    let directory = Directory {
        event_blocks: inputs_of_each(alloc, interfaces.as_slice())?,
        declared: inputs_of_each(alloc, library.blocks.as_slice())?,
        targets: targets_of(alloc, network.data_connections.as_slice())?,
    };
    rows_by(alloc, found, library, catalog, &directory, stimuli)
}
