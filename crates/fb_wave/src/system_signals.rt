//! The signals of a system: their numbers, and what they show.

ghost use Rattle.std.specs.Prelude.{◌≡◌, ◌<◌, ℕ, ◌+◌, List, [], ◌∷◌, ◌++◌, map, length, All, IfOk, OnOk};
ghost use Rattle.fb_system.specs.OfSystem.{BelongsTo};
ghost use Rattle.fb_wave.specs.Levels.{AreLevels};
ghost use Rattle.fb_wave.specs.LineSignals.{pairs};
ghost use Rattle.fb_wave.specs.Signals as spec;
ghost use Rattle.fb_wave.specs.OfSystem.{AreFirsts, AreMarks, AreSignals, fired, set_by, signal_count, touched};

use crate::levels::Levels;
use fb_system::System;
use fb_types::{Line, Ports, Value};
use std::alloc::{AllocError, Global};

/// The signals of a system.
#[derive(Drop)]
pub struct Signals {
    /// The number of the first signal of each instance, and after them the count of signals.
    pub firsts: Vec<usize>,
    /// What each signal shows.
    pub levels: Levels,
}

/// The signals of a line.
#[derive(Clone, Copy)]
pub(crate) struct Marks<'a> {
    /// The signal of its event.
    pub(crate) event: usize,
    /// The signal of the first input variable of the instance, or of the first output variable.
    pub(crate) first: usize,
    /// The indexes of the line's variables among these.
    pub(crate) indexes: &'a [u32],
}

/// The signals of a line, by the numbers of the first signals of instances.
fn marks_of<'a>(firsts: &[usize], system: &'a System, line: &Line) -> Marks<'a>
    requires firsts { AreFirsts system.now firsts.now }
    requires line { BelongsTo system.now line.now }
    ensures { AreMarks system.now line.now result }
{
    let ports = system.ports(line.instance);
    let first = firsts[line.instance as usize];
    let outputs = first + ports.event_inputs.len();
    let variables = outputs + ports.event_outputs.len();
    if line.taken {
        Marks {
            event: first + line.event as usize,
            first: variables,
            indexes: system.inputs_with(line.instance, line.event),
        }
    } else {
        Marks {
            event: outputs + line.event as usize,
            first: variables + ports.inputs.len(),
            indexes: system.outputs_with(line.instance, line.event),
        }
    }
}

/// Adds the signals of an interface.
fn add_ports(levels: &mut Levels, ports: &Ports) -> Result<(), AllocError>
    ensures { (n : ℕ) → AreLevels n [] [] [] levels.old → OnOk result (AreLevels (n + spec.size_of ports.now) [] [] [] levels.new) }
{
    levels.add(ports.event_inputs.len())?;
    levels.add(ports.event_outputs.len())?;
    levels.add(ports.inputs.len())?;
    levels.add(ports.outputs.len())
}

/// Adds the signals of all instances to none. The answer is the number of the first signal of each instance, and after
/// them the count of signals.
fn firsts_of(alloc: Global, system: &System, levels: &mut Levels) -> Result<Vec<usize>, AllocError>
    requires { AreLevels 0 [] [] [] levels.old }
    ensures firsts { IfOk result (λ v. AreFirsts system.now v.items) }
    ensures levels { OnOk result (AreLevels (signal_count system.now) [] [] [] levels.new) }
{
    system.facts(); // for the prover: what holds of every accepted system
    let mut firsts = Vec::new(alloc);
    for instance in 0..system.count() {
        firsts.push(levels.count())?;
        add_ports(levels, system.ports(instance as u32))?;
    }
    firsts.push(levels.count())?;
    Ok(firsts)
}

/// Notes values of the variables at some indexes. The signal of a variable is the first one plus its index.
fn show_values(
    levels: &mut Levels,
    first: usize,
    indexes: &[u32],
    values: &[Value],
) -> Result<(), AllocError>
    requires { All (λ k. first + k < length levels.old.cells.items) indexes.now }
    ensures counted { length levels.new.cells.items ≡ length levels.old.cells.items }
    ensures levels { (n : ℕ) (fires : List ℕ) (sets : List (ℕ × Value)) (touches : List ℕ) → AreLevels n fires sets touches levels.old
        → OnOk result (let more = pairs (map (λ k. first + k) indexes.now) values.now in
        AreLevels n fires (sets ++ more) (touches ++ map (λ t. t.0) more) levels.new) }
{
    for index in 0..indexes.len().min(values.len()) {
        levels.show(first + indexes[index] as usize, values[index])?;
    }
    Ok(())
}

/// Notes an event, and values of the variables at some indexes.
fn show_all(
    levels: &mut Levels,
    event: usize,
    first: usize,
    indexes: &[u32],
    values: &[Value],
) -> Result<(), AllocError>
    requires event { event < length levels.old.cells.items }
    requires indexes { All (λ k. first + k < length levels.old.cells.items) indexes.now }
    ensures counted { length levels.new.cells.items ≡ length levels.old.cells.items }
    ensures levels { (n : ℕ) (fires : List ℕ) (sets : List (ℕ × Value)) (touches : List ℕ) → AreLevels n fires sets touches levels.old
        → OnOk result (let more = pairs (map (λ k. first + k) indexes.now) values.now in
        AreLevels n (fires ++ event ∷ []) (sets ++ more) (touches ++ event ∷ [] ++ map (λ t. t.0) more) levels.new) }
{
    levels.fire(event)?;
    show_values(levels, first, indexes, values)
}

impl Signals {
    /// The signals of a system before its first line.
    pub fn of(alloc: Global, system: &System) -> Result<Signals, AllocError>
        ensures signals { IfOk result (AreSignals system.now) }
        ensures levels { IfOk result (λ s. AreLevels (signal_count system.now) [] [] [] s.levels) }
    {
        let mut levels = Levels::new(alloc);
        let firsts = firsts_of(alloc, system, &mut levels)?;
        Ok(Signals { firsts, levels })
    }

    /// Notes the event of a line, and the values with it.
    pub fn show(&mut self, system: &System, line: &Line) -> Result<(), AllocError>
        requires signals { AreSignals system.now self.old }
        requires line { BelongsTo system.now line.now }
        ensures signals { AreSignals system.now self.new }
        ensures levels { (n : ℕ) (fires : List ℕ) (sets : List (ℕ × Value)) (touches : List ℕ) → AreLevels n fires sets touches self.old.levels
            → OnOk result (AreLevels n (fires ++ fired system.now line.now ∷ []) (sets ++ set_by system.now line.now) (touches ++ touched system.now line.now) self.new.levels) }
    {
        system.facts(); // for the prover: what holds of every accepted system
        let marks = marks_of(self.firsts.as_slice(), system, line);
        let values = line.values.as_slice();
        show_all(
            &mut self.levels,
            marks.event,
            marks.first,
            marks.indexes,
            values,
        )
    }
}
