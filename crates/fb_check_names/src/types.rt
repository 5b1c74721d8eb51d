//! Types of instances and their ports, by name.

ghost use Rattle.std.specs.Prelude.{◌≡◌, IfOk};
ghost use Rattle.fb_check_names.specs.Numbers as spec;
ghost use Rattle.fb_check_names.specs.PortKinds.{names_of_kind};
ghost use Rattle.fb_check_names.specs.Types.{AreTypes, HasTypes, port_number};

use crate::catalog::Catalog;
use crate::numbers::TypeNumber;
use crate::placing::index_of_name;
use crate::ports::{PortKind, index_among, index_in};
use fb_types::{Items, Library, Name, Ports, all_ports, kind_named};
use std::alloc::{AllocError, Global};

/// The block types of a declaration, with the indexes of their names, and the ports of the event blocks.
#[derive(Drop)]
pub struct Types<'a, 'b> {
    /// The declaration.
    pub library: &'a Library,
    /// The indexes of its names.
    pub catalog: &'a Catalog<'b>,
    /// In the order of the event blocks' kinds.
    event_ports: Items<Ports>,
}

impl<'a, 'b> Types<'a, 'b> {
    /// The types of a declaration, from the indexes of its names.
    ///
    /// # Errors
    ///
    /// When memory runs out.
    pub fn new(
        alloc: Global,
        library: &'a Library,
        catalog: &'a Catalog<'b>,
    ) -> Result<Types<'a, 'b>, AllocError>
        requires { HasTypes library.now catalog.now }
        ensures { IfOk result (λ t. AreTypes t × (t.library.now ≡ library.now) × (t.catalog.now ≡ catalog.now)) }
    {
        Ok(Types {
            library,
            catalog,
            event_ports: all_ports(alloc)?,
        })
    }

    /// The type that a name represents.
    pub fn number_of(&self, name: &Name) -> Option<TypeNumber>
        requires { AreTypes self.now }
        ensures { result ≡ spec.type_number self.now.library.now name.now }
    {
        match kind_named(name.as_bytes()) {
            Some(kind) => Some(TypeNumber::Event(kind)),
            None => {
                let index = index_of_name(&self.catalog.types, name)?;
                Some(TypeNumber::Declared(index))
            }
        }
    }

    /// The index of a port of a type among those of its kind.
    pub fn port_of(&self, number: TypeNumber, port_kind: PortKind, name: &Name) -> Option<usize>
        requires { AreTypes self.now }
        ensures { result ≡ port_number self.now.library.now number (names_of_kind port_kind) name.now }
    {
        match number {
            TypeNumber::Event(kind) => {
                let ports = self.event_ports.get(kind.index())?;
                index_among(ports, port_kind, name)
            }
            TypeNumber::Declared(index) => {
                let block = self.library.blocks.get(index)?;
                let indexes = self.catalog.blocks.get(index)?;
                index_in(block.ports(), &indexes.ports, port_kind, name)
            }
        }
    }
}
