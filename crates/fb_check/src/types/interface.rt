//! The meaning of the names of a block type's interface, by their indexes.

ghost use Rattle.std.specs.Prelude.{◌≡◌, List, option_map, slice_get};
ghost use Rattle.fb_types.specs.Blocks.{among, named, type_named};
ghost use Rattle.fb_types.specs.Repeated.{Twice};
ghost use Rattle.fb_check_names.specs.Indexes.{IsIndex};
ghost use Rattle.fb_check_names.specs.PortKinds.{names_of_kind};
ghost use Rattle.fb_check.specs.types.Roles.{is_port, names_of, role_of, type_in, variables_of, with_roles};

use fb_check_names::{Indexes, PortKind, index_of_name};
use fb_types::{Name, Ports, Ty, Variable};
use std::marker::Model;

/// The meaning of a name. A variable has its type.
#[derive(Clone, Copy)]
pub enum Role {
    EventInput,
    EventOutput,
    Input(Ty),
    Output(Ty),
    Internal(Ty),
}

impl Role {
    /// Whether it is a port of the kind.
    fn is_port(self, value_kind: PortKind) -> bool
        ensures { result ≡ is_port value_kind self }
    {
        match (self, value_kind) {
            (Role::EventInput, PortKind::EventInput)
            | (Role::EventOutput, PortKind::EventOutput)
            | (Role::Input(_), PortKind::Input)
            | (Role::Output(_), PortKind::Output) => true,
            _ => false,
        }
    }

    /// The type of a variable.
    fn ty(self) -> Option<Ty>
        ensures { result ≡ type_in self }
    {
        match self {
            Role::EventInput | Role::EventOutput => None,
            Role::Input(ty) | Role::Output(ty) | Role::Internal(ty) => Some(ty),
        }
    }
}

/// The ports and the internal variables of a block type, whose names have indexes. Contracts see the ports and the
/// variables.
#[derive(Drop)]
pub struct Interface<'a, 'n> {
    ports: &'a Ports,
    internals: &'a [Variable],
    indexes: &'a Indexes<'n>,
}

impl<'a, 'n> Model for Interface<'a, 'n> {
    ghost use Rattle.fb_check_names.specs.Indexes.{IsIndex};
    ghost use Rattle.fb_check.specs.types.Roles.{Declared, names_of};

    ghost Value = { Declared };

    ghost view = { λ i. record { ports = i.ports.now; internals = i.internals.now } };

    ghost invariant = { λ i. IsIndex (names_of (record { ports = i.ports.now; internals = i.internals.now })) i.indexes.now };
}

impl<'a, 'n> Interface<'a, 'n> {
    /// The interface with these ports and internal variables. `indexes` has the index of each name.
    pub fn new(
        ports: &'a Ports,
        internals: &'a [Variable],
        indexes: &'a Indexes<'n>,
    ) -> Interface<'a, 'n>
        requires { IsIndex (names_of (record { ports = ports.now; internals = internals.now })) indexes.now }
        ensures { result ≡ record { ports = ports.now; internals = internals.now } }
    {
        Interface {
            ports,
            internals,
            indexes,
        }
    }

    /// The ports.
    pub fn ports(&self) -> &'a Ports
        ensures { result.now ≡ self.now.ports }
    {
        self.ports
    }

    /// What is at an index of all names.
    fn role_at(&self, index: usize) -> Option<Role>
        ensures { result ≡ option_map (λ d. d.1) (slice_get (with_roles self.now) index) }
    {
        let ports = self.ports;
        let Some(index) = index.checked_sub(ports.event_inputs.len()) else {
            return Some(Role::EventInput);
        };
        let Some(index) = index.checked_sub(ports.event_outputs.len()) else {
            return Some(Role::EventOutput);
        };
        if let Some(variable) = ports.inputs.get(index) {
            return Some(Role::Input(variable.ty));
        }
        let index = index - ports.inputs.len();
        if let Some(variable) = ports.outputs.get(index) {
            return Some(Role::Output(variable.ty));
        }
        match self.internals.get(index - ports.outputs.len()) {
            Some(variable) => Some(Role::Internal(variable.ty)),
            None => None,
        }
    }

    /// The meaning of a name, if it is one of the interface's.
    fn role_of(&self, name: &Name) -> Option<Role>
        ensures role { result ≡ role_of self.now name.now }
        ensures once { ¬ (Twice (names_of self.now)) }
    {
        let index = index_of_name(self.indexes, name)?;
        self.role_at(index)
    }

    /// Whether a name is that of a port of the kind.
    pub fn has_port(&self, value_kind: PortKind, name: &Name) -> bool
        ensures { result ≡ among (names_of_kind value_kind self.now.ports) name.now }
    {
        match self.role_of(name) {
            Some(role) => role.is_port(value_kind),
            None => false,
        }
    }

    /// The type of the variable of a name.
    pub fn type_of(&self, name: &Name) -> Option<Ty>
        ensures { result ≡ type_named (variables_of self.now) name.now }
    {
        match self.role_of(name) {
            Some(role) => role.ty(),
            None => None,
        }
    }
}
