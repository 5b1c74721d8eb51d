//! What stimuli may name of a type, and to which ports data connections lead.

ghost use Rattle.std.specs.Prelude.{◌≡◌, ◌<◌, ◌^◌, length, map, IfOk, OnOk};
ghost use Rattle.fb_check.specs.Directory.{AreInputs, IsExtended, AreEvents, AreWiths, AreVariables, AreTargets};

use fb_types::{BlockType, Connection, EventPort, Items, Name, Ports, Ty, Variable};
use std::alloc::{AllocError, Global};
use std::collections::{BTreeMap, BTreeSet};

/// An item that has an interface.
pub trait Interfaced {
    ghost use Rattle.fb_types.specs.declared.library.Ports.{Ports};

    ghost ports: { Self → Ports };

    /// Its interface.
    fn interface(&self) -> &Ports
        ensures { result.now ≡ ports self.now };
}

impl Interfaced for Ports {
    ghost ports = { λ p. p };

    fn interface(&self) -> &Ports {
        self
    }
}

impl Interfaced for BlockType {
    ghost use Rattle.fb_types.specs.Blocks.{ports_of};
    ghost use Rattle.fb_types.specs.Flat.{kind_of};

    ghost ports = { λ t. ports_of (kind_of t) };

    fn interface(&self) -> &Ports {
        self.ports()
    }
}

/// Pairs of names.
pub type Pairs<'a> = BTreeSet<(&'a Name, &'a Name), Global>;

/// A data input: its index among those of its type, and the type of its values.
#[derive(Clone, Copy)]
pub struct Input {
    /// The index among the data inputs of its type.
    pub index: u32,
    /// The type of its values.
    pub ty: Ty,
}

/// What stimuli may name of a type.
#[derive(Drop)]
pub struct TypeInputs<'a> {
    /// The indexes of the event inputs.
    pub events: BTreeMap<&'a Name, u32, Global>,
    /// The event inputs, each with a variable that goes WITH it.
    pub withs: Pairs<'a>,
    /// The data inputs.
    pub variables: BTreeMap<&'a Name, Input, Global>,
}

/// The indexes of events. If events have the same name, the first counts.
fn events_of<'a>(
    alloc: Global,
    events: &'a [EventPort],
) -> Result<BTreeMap<&'a Name, u32, Global>, AllocError>
    requires { length events.now < 2 ^ 32 }
    ensures { IfOk result (AreEvents events.now) }
{
    let mut indexes = BTreeMap::new(alloc);
    for (index, event) in events.iter().enumerate() {
        let name = &event.name;
        if !indexes.contains_key(name) {
            indexes.insert(name, index as u32)?;
        }
    }
    Ok(indexes)
}

/// Adds the variables WITH an event.
fn extend<'a>(
    withs: &mut Pairs<'a>,
    event: &'a Name,
    variables: &'a [Name],
) -> Result<(), AllocError>
    ensures { OnOk result (IsExtended event.now variables.now withs.old withs.new) }
{
    for variable in variables {
        withs.insert((event, variable))?;
    }
    Ok(())
}

fn withs_of<'a>(alloc: Global, events: &'a [EventPort]) -> Result<Pairs<'a>, AllocError>
    ensures { IfOk result (AreWiths events.now) }
{
    let mut withs = BTreeSet::new(alloc);
    for event in events {
        extend(&mut withs, &event.name, event.with.as_slice())?;
    }
    Ok(withs)
}

/// The indexes and the types of variables. If variables have the same name, the first counts.
fn variables_of<'a>(
    alloc: Global,
    variables: &'a [Variable],
) -> Result<BTreeMap<&'a Name, Input, Global>, AllocError>
    requires { length variables.now < 2 ^ 32 }
    ensures { IfOk result (AreVariables variables.now) }
{
    let mut inputs = BTreeMap::new(alloc);
    for (index, variable) in variables.iter().enumerate() {
        let name = &variable.name;
        if !inputs.contains_key(name) {
            let index = index as u32;
            let ty = variable.ty;
            inputs.insert(name, Input { index, ty })?;
        }
    }
    Ok(inputs)
}

/// What stimuli may name of each type.
pub fn inputs_of_each<'a, T: Interfaced>(
    alloc: Global,
    all: &'a [T],
) -> Result<Items<TypeInputs<'a>>, AllocError>
    ensures { IfOk result (AreInputs (map T.ports all.now)) }
{
    let mut inputs = Items::new(alloc);
    for each in all {
        let ports = each.interface();
        // for the prover: there are fewer than 2^32 ports of each kind, so their indexes fit
        ports.event_inputs.count();
        ports.inputs.count(); // for the prover: how many of them there are at most
        let events = ports.event_inputs.as_slice();
        inputs.push(TypeInputs {
            events: events_of(alloc, events)?,
            withs: withs_of(alloc, events)?,
            variables: variables_of(alloc, ports.inputs.as_slice())?,
        })?;
    }
    Ok(inputs)
}

/// The components and their ports to which connections lead.
pub fn targets_of<'a>(alloc: Global, connections: &'a [Connection]) -> Result<Pairs<'a>, AllocError>
    ensures { IfOk result (AreTargets connections.now) }
{
    let mut targets = BTreeSet::new(alloc);
    for connection in connections {
        if let Some(component) = &connection.to.component {
            targets.insert((component, &connection.to.port))?;
        }
    }
    Ok(targets)
}
