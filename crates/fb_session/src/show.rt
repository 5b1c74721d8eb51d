//! What is shown of one block.

ghost use Rattle.std.specs.Prelude.{◌≡◌, ◌++◌, ℕ, IfNone, IfOk, IfSome, MatchOption, OnOk, Some, length, option_map};
ghost use Rattle.fb_types.specs.Blocks.{Basic};
ghost use Rattle.fb_types.specs.Text.{path_text};
ghost use Rattle.fb_types.specs.OfSystem.{IsInstance, kind_at, path_at};
ghost use Rattle.fb_types.specs.States.{Config};
ghost use Rattle.fb_types.specs.declared.library.BasicType as library;
ghost use Rattle.fb_st.specs.Frames.{values_of};
ghost use Rattle.fb_ecc.specs.Indexes.{state_at};
ghost use Rattle.fb_event.specs.Seen.{seen_memory};
ghost use Rattle.fb_sim_machine.specs.Machines.{IsAt, IsReady};
ghost use Rattle.fb_session.specs.Pasts.{Past, StandsBy};
ghost use Rattle.fb_session.specs.Shown as spec;
ghost use Rattle.fb_session.specs.Shown.{IsBlockShown, ShowsPath, basic_text, listed_text, variable_text, variables_text};

use crate::session::Session;
use crate::stage::Stage;
use fb_check_names::TypeNumber;
use fb_ecc::BasicState;
use fb_event::{EventMemory, EventState, memory_of};
use fb_net::{Block, Shell};
use fb_sim_machine::Machine;
use fb_system::System;
use fb_text::{put_all, put_number, put_value};
use fb_types::{BasicType, BlockType, EventKind, Ports, Reference, Value, Variable};
use std::alloc::{AllocError, Global};

/// The instance with this path, whose names are joined by full stops. It compares the path of each instance, which is
/// enough for a command that a person types.
fn instance_at(system: &System, path: &[u8]) -> Option<u32>
    ensures some { IfSome result (λ k. IsInstance system.now k × (path_text (path_at system.now k) ≡ path.now)) }
    ensures none { IfNone result ((k : ℕ) → IsInstance system.now k → path_text (path_at system.now k) ≡ path.now → ⊥) }
{
    system.facts(); // for the prover: there are at most 4,096 instances
    for instance in 0..system.count() {
        if system.path(instance as u32) == path {
            return Some(instance as u32);
        }
    }
    None
}

/// Adds a variable with this value, after a blank.
fn put_variable(
    alloc: Global,
    text: &mut Vec<u8>,
    variable: &Variable,
    value: Value,
) -> Result<(), AllocError>
    ensures { OnOk result (text.new.items ≡ text.old.items ++ variable_text variable.now.name value) }
{
    put_all(text, &[b" ", variable.name.as_bytes(), b"="])?;
    put_value(alloc, text, value)
}

/// Adds the variables with the values at their indexes.
fn put_values(
    alloc: Global,
    text: &mut Vec<u8>,
    variables: &[Variable],
    values: &[Value],
) -> Result<(), AllocError>
    requires { length values.now ≡ length variables.now }
    ensures { OnOk result (text.new.items ≡ text.old.items ++ listed_text variables.now values.now) }
{
    for (index, variable) in variables.iter().enumerate() {
        put_variable(alloc, text, variable, values[index])?;
    }
    Ok(())
}

/// The type of a basic block.
fn basic_type(system: &System, instance: u32) -> Option<&BasicType>
    requires { IsInstance system.now instance }
    ensures { MatchOption result ((t : library.BasicType) → kind_at system.now (path_at system.now instance) ≡ Some (Basic t) → ⊥) (λ t. kind_at system.now (path_at system.now instance) ≡ Some (Basic t.now)) }
{
    match system.kind(instance) {
        TypeNumber::Event(_) => None,
        TypeNumber::Declared(number) => match system.library().blocks.as_slice().get(number) {
            Some(BlockType::Basic(block)) => Some(block),
            Some(BlockType::Composite(_)) | None => None,
        },
    }
}

/// The name of the state of a basic block, which each accepted type has.
fn state_name<'a>(block: &'a BasicType, state: &BasicState) -> &'a [u8]
    ensures { result.now ≡ state_at block.now state.now.state }
{
    match block.states.as_slice().get(state.state) {
        Some(own) => own.name.as_bytes(),
        None => b"",
    }
}

/// Adds the state of a basic block and its variables: inputs, outputs and internal ones.
fn put_basic(
    alloc: Global,
    text: &mut Vec<u8>,
    block: &BasicType,
    state: &BasicState,
) -> Result<(), AllocError>
    ensures { OnOk result (text.new.items ≡ text.old.items ++ basic_text block.now (state_at block.now state.now.state) (values_of state.now.frame)) }
{
    put_all(text, &[b" ", state_name(block, state)])?;
    put_own(alloc, text, block.ports.inputs.as_slice(), state)?;
    put_own(alloc, text, block.ports.outputs.as_slice(), state)?;
    put_own(alloc, text, block.internals.as_slice(), state)
}

/// Adds variables of a basic block with their values.
fn put_own(
    alloc: Global,
    text: &mut Vec<u8>,
    variables: &[Variable],
    state: &BasicState,
) -> Result<(), AllocError>
    ensures { OnOk result (text.new.items ≡ text.old.items ++ variables_text variables.now (values_of state.now.frame)) }
{
    for variable in variables {
        put_one(alloc, text, variable, state)?;
    }
    Ok(())
}

/// Adds a variable of a basic block with its value.
fn put_one(
    alloc: Global,
    text: &mut Vec<u8>,
    variable: &Variable,
    state: &BasicState,
) -> Result<(), AllocError>
    ensures { OnOk result (text.new.items ≡ text.old.items ++ variable_text variable.now.name (values_of state.now.frame variable.now.name)) }
{
    let value = value_of(alloc, variable, state)?;
    put_variable(alloc, text, variable, value)
}

/// The value of a variable of a basic block.
fn value_of(alloc: Global, variable: &Variable, state: &BasicState) -> Result<Value, AllocError>
    ensures { IfOk result (λ v. v ≡ values_of state.now.frame variable.now.name) }
{
    let name = Reference::new(variable.name.try_clone(alloc)?);
    let value = state.frame.value(&name);
    drop(name);
    Ok(value)
}

/// Adds when a timer goes off, if it runs.
fn put_timer(alloc: Global, text: &mut Vec<u8>, due: Option<u64>) -> Result<(), AllocError>
    ensures { OnOk result (text.new.items ≡ text.old.items ++ spec.timer_text due) }
{
    match due {
        Some(tick) => {
            text.extend_from_slice(b" due ")?;
            put_number(alloc, text, tick)
        }
        None => text.extend_from_slice(b" idle"),
    }
}

/// Which of the two events of an E_REND has come.
fn marks_word(first: bool, second: bool) -> &'static [u8]
    ensures { result.now ≡ spec.marks_word first second }
{
    if first {
        b" has EI1"
    } else if second {
        b" has EI2"
    } else {
        b" has none"
    }
}

fn flag_word(is_set: bool) -> &'static [u8]
    ensures { result.now ≡ spec.flag_word is_set }
{
    if is_set { b" set" } else { b" reset" }
}

/// Adds what an event block without a timer remembers. Some remember nothing.
fn put_marks(alloc: Global, text: &mut Vec<u8>, memory: EventMemory) -> Result<(), AllocError>
    ensures { OnOk result (text.new.items ≡ text.old.items ++ spec.marks_text (seen_memory memory)) }
{
    match memory {
        EventMemory::Idle | EventMemory::Running(_) => Ok(()),
        EventMemory::Marks { first, second } => text.extend_from_slice(marks_word(first, second)),
        EventMemory::Flag(is_set) => text.extend_from_slice(flag_word(is_set)),
        EventMemory::Count { count, .. } => {
            text.extend_from_slice(b" count ")?;
            put_number(alloc, text, u64::from(count))
        }
    }
}

/// Whether event blocks of this kind have a timer.
fn has_timer(kind: EventKind) -> bool
    ensures { result ≡ spec.has_timer kind }
{
    match kind {
        EventKind::Restart | EventKind::Delay | EventKind::Cycle => true,
        _ => false,
    }
}

/// Adds what an event block remembers, or when its timer goes off.
fn put_memory(
    alloc: Global,
    text: &mut Vec<u8>,
    state: &EventState,
    due: Option<u64>,
) -> Result<(), AllocError>
    ensures { OnOk result (text.new.items ≡ text.old.items ++ spec.memory_text state.now.kind state.now.memory due) }
{
    if has_timer(state.kind()) {
        put_timer(alloc, text, due)
    } else {
        put_marks(alloc, text, memory_of(state))
    }
}

/// Adds the data inputs of an event block or a composite as they were sampled, and its data outputs as connections see
/// them.
fn put_shell(
    alloc: Global,
    text: &mut Vec<u8>,
    ports: &Ports,
    shell: &Shell,
) -> Result<(), AllocError>
    requires inputs { length shell.now.inputs ≡ length ports.now.inputs }
    requires outputs { length shell.now.published ≡ length ports.now.outputs }
    ensures { OnOk result (text.new.items ≡ text.old.items ++ (listed_text ports.now.inputs shell.now.inputs ++ listed_text ports.now.outputs shell.now.published)) }
{
    put_values(
        alloc,
        text,
        ports.inputs.as_slice(),
        shell.inputs.as_slice(),
    )?;
    put_values(
        alloc,
        text,
        ports.outputs.as_slice(),
        shell.published.as_slice(),
    )
}

/// Adds what an instance has.
fn put_block(
    alloc: Global,
    text: &mut Vec<u8>,
    system: &System,
    machine: &Machine,
    instance: u32,
) -> Result<(), AllocError>
    requires instance { IsInstance system.now instance }
    requires ready { (steps from : ℕ) × IsReady system.now steps from machine.now }
    requires represents { (c : Config) × IsAt system.now c.state c.agenda machine.now }
    ensures { OnOk result ((c : Config) → IsAt system.now c.state c.agenda machine.now → IsBlockShown system.now c instance text.old.items text.new.items) }
{
    system.facts(); // for the prover: there are at most 64 resources
    let resource = system.resource(instance);
    let (block, shell) = machine.trees[resource].instance(system, instance);
    let ports = system.ports(instance);
    match block {
        Block::Basic(state) => match basic_type(system, instance) {
            Some(block) => put_basic(alloc, text, block, state),
            None => unreachable!(),
        },
        Block::Event(state) => {
            let due = machine.traffic.agenda.timer(resource as u32, instance);
            put_memory(alloc, text, state, due)?;
            put_shell(alloc, text, ports, shell)
        }
        Block::Composite(_) => put_shell(alloc, text, ports, shell),
    }
}

/// A text of its own with these bytes.
fn copied(alloc: Global, bytes: &[u8]) -> Result<Vec<u8>, AllocError>
    ensures { IfOk result (λ t. t.items ≡ bytes.now) }
{
    let mut text = Vec::new(alloc);
    text.extend_from_slice(bytes)?;
    Ok(text)
}

impl Session<'_, '_> {
    /// What the block at a path has, as text: its path, then its state, memory or timer, and its variables with their
    /// values. The path is in upper case. `None` if no instance has it, or after a failure.
    ///
    /// # Errors
    /// When memory runs out. The session is as it was in any case.
    pub fn show(&self, path: &[u8]) -> Result<Option<Vec<u8>>, AllocError>
        requires { (p : Past) × StandsBy self.now p }
        ensures { IfOk result (λ o. ShowsPath self.now path.now (option_map (λ t. t.items) o)) }
    {
        if let Stage::Failed(_) = self.stage {
            return Ok(None);
        }
        let Some(instance) = instance_at(self.system, path) else {
            return Ok(None);
        };
        let mut text = copied(self.alloc, path)?;
        put_block(self.alloc, &mut text, self.system, &self.machine, instance)?;
        Ok(Some(text))
    }
}
