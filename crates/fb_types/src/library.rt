//! Block types and the application, as they are read (IEC 61499-1, 5 to 7).

ghost use Rattle.std.specs.Prelude.{◌≡◌};
ghost use Rattle.std.specs.List.{find};
ghost use Rattle.std.specs.Option.{option_copied};
ghost use Rattle.fb_types.specs.Blocks.{initial_of, ports_of};
ghost use Rattle.fb_types.specs.Flat.{kind_of, type_name};
ghost use Rattle.fb_types.specs.Kinds.{declared_right};
ghost use Rattle.fb_types.specs.Names.{same_name};

use crate::items::Items;
use crate::name::Name;
use crate::numbered::Numbered;
use crate::text::{Body, Expr};
use crate::value::{Ty, Value};

/// An event input or output, with the variables that go WITH it.
pub struct EventPort {
    /// The name of the event.
    pub name: Name,
    /// The names of the variables WITH it.
    pub with: Items<Name>,
}

// Drop is written by hand, so that callers need not prove it again (docs/DECISIONS.md, "Drop").
impl Drop for EventPort {
    fn drop(self) {
        let EventPort { name: _, with: _ } = self;
    }
}

/// A variable of a block type: an input, an output or an internal one. Without an initial value it begins with 0 or
/// FALSE.
pub struct Variable {
    /// The name of the variable.
    pub name: Name,
    /// Its type.
    pub ty: Ty,
    /// Its declared value, if any.
    pub initial: Option<Value>,
}

impl Drop for Variable {
    fn drop(self) {
        let Variable {
            name: _,
            ty: _,
            initial: _,
        } = self;
    }
}

impl Variable {
    /// The initial value of the variable: its declared value, else 0 or FALSE.
    pub fn first_value(&self) -> Value
        ensures { result ≡ initial_of self.now }
    {
        match (self.initial, self.ty) {
            (Some(value), _) => value,
            (None, Ty::Bool) => Value::Bool(false),
            (None, _) => Value::Whole(0),
        }
    }

    /// Whether the declared value, if there is one, is one of the variable's type.
    pub fn is_declared_right(&self) -> bool
        ensures { result ≡ declared_right self.now }
    {
        match self.initial {
            Some(value) => self.ty.holds(value),
            None => true,
        }
    }
}

/// The interface of a type, each list in the order of the declaration.
pub struct Ports {
    /// The event inputs.
    pub event_inputs: Numbered<EventPort>,
    /// The event outputs.
    pub event_outputs: Numbered<EventPort>,
    /// The data inputs.
    pub inputs: Numbered<Variable>,
    /// The data outputs.
    pub outputs: Numbered<Variable>,
}

impl Drop for Ports {
    fn drop(self) {
        let Ports {
            event_inputs: _,
            event_outputs: _,
            inputs: _,
            outputs: _,
        } = self;
    }
}

/// An algorithm, an output event, or an algorithm followed by an output event.
pub struct Action {
    /// The algorithm to run, if any.
    pub algorithm: Option<Name>,
    /// The event output to emit after it, if any.
    pub output: Option<Name>,
}

impl Drop for Action {
    fn drop(self) {
        let Action {
            algorithm: _,
            output: _,
        } = self;
    }
}

/// A state of an execution control chart.
pub struct State {
    /// The name of the state.
    pub name: Name,
    /// The actions on entering the state, in their order.
    pub actions: Items<Action>,
}

impl Drop for State {
    fn drop(self) {
        let State {
            name: _,
            actions: _,
        } = self;
    }
}

/// An event input, a guard, or an event input followed by a guard. With neither it is `1`.
pub struct Condition {
    /// The event input that must be present, if any.
    pub event: Option<Name>,
    /// The guard that must be true, if any.
    pub guard: Option<Expr>,
}

impl Drop for Condition {
    fn drop(self) {
        let Condition { event: _, guard: _ } = self;
    }
}

/// A transition of an execution control chart (IEC 61499-1, 5.2.1.2): the block goes from one state to another if the
/// condition holds.
pub struct Transition {
    /// The state that it leaves.
    pub from: Name,
    /// The state that it enters.
    pub to: Name,
    /// When it is taken.
    pub condition: Condition,
}

impl Drop for Transition {
    fn drop(self) {
        let Transition {
            from: _,
            to: _,
            condition: _,
        } = self;
    }
}

/// An algorithm of a basic block type, with its statements in Structured Text.
pub struct Algorithm {
    /// The name of the algorithm.
    pub name: Name,
    /// Its statements.
    pub body: Body,
}

impl Drop for Algorithm {
    fn drop(self) {
        let Algorithm { name: _, body: _ } = self;
    }
}

/// A basic block type. The first state is the initial one.
pub struct BasicType {
    /// The name of the type.
    pub name: Name,
    /// Its interface.
    pub ports: Ports,
    /// Its internal variables.
    pub internals: Items<Variable>,
    /// The states of its chart, at least one.
    pub states: Items<State>,
    /// The transitions of its chart, in the order of the text.
    pub transitions: Items<Transition>,
    /// Its algorithms.
    pub algorithms: Items<Algorithm>,
}

impl Drop for BasicType {
    fn drop(self) {
        let BasicType {
            name: _,
            ports: _,
            internals: _,
            states: _,
            transitions: _,
            algorithms: _,
        } = self;
    }
}

/// A port of a component, or with no component one of the composite that the network belongs to.
pub struct PortName {
    /// The component, or none at the boundary.
    pub component: Option<Name>,
    /// The port.
    pub port: Name,
}

impl Drop for PortName {
    fn drop(self) {
        let PortName {
            component: _,
            port: _,
        } = self;
    }
}

/// An event or data connection of a network: the port from which events or values come, and the one to which they go.
pub struct Connection {
    /// The port from which it leads.
    pub from: PortName,
    /// The port to which it leads.
    pub to: PortName,
}

impl Drop for Connection {
    fn drop(self) {
        let Connection { from: _, to: _ } = self;
    }
}

/// A value that a data input of an instance has from the beginning on.
pub struct Parameter {
    /// The name of the data input.
    pub name: Name,
    /// Its value.
    pub value: Value,
}

impl Drop for Parameter {
    fn drop(self) {
        let Parameter { name: _, value: _ } = self;
    }
}

/// An instance of a block type in a network.
pub struct Instance {
    /// The name of the instance.
    pub name: Name,
    /// The name of its type: an event block, or a block type of the declaration.
    pub block_type: Name,
    /// The data inputs that are given values.
    pub parameters: Items<Parameter>,
}

impl Drop for Instance {
    fn drop(self) {
        let Instance {
            name: _,
            block_type: _,
            parameters: _,
        } = self;
    }
}

/// Instances and their connections, in the order of the text.
pub struct Network {
    /// The instances.
    pub instances: Numbered<Instance>,
    /// The connections of events.
    pub event_connections: Items<Connection>,
    /// The connections of data.
    pub data_connections: Items<Connection>,
}

impl Drop for Network {
    fn drop(self) {
        let Network {
            instances: _,
            event_connections: _,
            data_connections: _,
        } = self;
    }
}

/// A composite block type (IEC 61499-1, 5.3): its ports, and the network of instances inside it.
pub struct CompositeType {
    /// The name of the type.
    pub name: Name,
    /// Its interface.
    pub ports: Ports,
    /// The network inside it.
    pub network: Network,
}

impl Drop for CompositeType {
    fn drop(self) {
        let CompositeType {
            name: _,
            ports: _,
            network: _,
        } = self;
    }
}

/// A block type that a library declares.
pub enum BlockType {
    Basic(BasicType),
    Composite(CompositeType),
}

impl Drop for BlockType {
    fn drop(self) {
        match self {
            BlockType::Basic(_) | BlockType::Composite(_) => {}
        }
    }
}

impl BlockType {
    /// The name of the type.
    pub fn type_name(&self) -> &Name
        ensures { result.now ≡ type_name self.now }
    {
        match self {
            BlockType::Basic(basic) => &basic.name,
            BlockType::Composite(composite) => &composite.name,
        }
    }

    /// The interface.
    pub fn ports(&self) -> &Ports
        ensures { result.now ≡ ports_of (kind_of self.now) }
    {
        match self {
            BlockType::Basic(basic) => &basic.ports,
            BlockType::Composite(composite) => &composite.ports,
        }
    }
}

/// The application: a network whose instances are mapped to resources.
pub struct Application {
    /// The name of the application.
    pub name: Name,
    /// Its network.
    pub network: Network,
}

impl Drop for Application {
    fn drop(self) {
        let Application {
            name: _,
            network: _,
        } = self;
    }
}

/// What a declaration text declares.
pub struct Library {
    /// The block types, in the order of the text.
    pub blocks: Items<BlockType>,
    /// The application.
    pub application: Application,
}

// Drop is written by hand, so that callers need not prove it again (docs/DECISIONS.md, "Drop").
impl Drop for Library {
    fn drop(self) {
        let Library {
            blocks: _,
            application: _,
        } = self;
    }
}

/// The block type that has the name.
pub fn block_named<'a>(blocks: &'a [BlockType], name: &Name) -> Option<&'a BlockType>
    ensures { option_copied result ≡ find (λ b. same_name (type_name b) name.now) blocks.now }
{
    for block in blocks {
        if block.type_name().is(name) {
            return Some(block);
        }
    }
    None
}

/// The instance that has the name.
pub fn instance_named<'a>(instances: &'a [Instance], name: &Name) -> Option<&'a Instance>
    ensures { option_copied result ≡ find (λ i. same_name i.name name.now) instances.now }
{
    for instance in instances {
        if instance.name.is(name) {
            return Some(instance);
        }
    }
    None
}
