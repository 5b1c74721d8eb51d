//! The event ports of a system, with the texts that lines have of them.

ghost use Rattle.std.specs.Prelude.{◌≡◌, All, Contains, IfOk, map};
ghost use Rattle.fb_types.specs.Repeated.{Twice};
ghost use Rattle.fb_wave.specs.Ports as spec;
ghost use Rattle.fb_wave.specs.declared.ports.Port as declared;
ghost use Rattle.fb_wave.specs.OfSystem.{IsPortOf, port_text};

use crate::ports::{Port, port_text, ports_of};
use fb_system::System;
use fb_types::Name;
use std::alloc::{AllocError, Global};

/// All event ports of a system, each with its text in lines.
#[derive(Drop)]
pub struct SystemPorts<'a> {
    /// The system.
    pub system: &'a System,
    /// The ports.
    pub(crate) ports: Vec<Port>,
    /// The text of each port, at the same index.
    pub(crate) texts: Vec<Name>,
    // The ports are those of the system, each once.
    ghost are: { All (IsPortOf system.now) ports.items },
    ghost all: { (p : declared.Port) → IsPortOf system.now p → ∥ Contains ports.items p ∥₁ },
    ghost once: { ¬ (Twice ports.items) },
    ghost texts_are: { texts.items ≡ map (port_text system.now) ports.items },
}

/// The texts of ports, each at the index of its port.
fn texts_of(alloc: Global, system: &System, ports: &[Port]) -> Result<Vec<Name>, AllocError>
    requires { All (IsPortOf system.now) ports.now }
    ensures { IfOk result (λ v. v.items ≡ map (port_text system.now) ports.now) }
{
    let mut texts = Vec::new(alloc);
    for port in ports {
        texts.push(port_text(alloc, system, *port)?)?;
    }
    Ok(texts)
}

impl<'a> SystemPorts<'a> {
    /// The event ports of a system.
    ///
    /// # Errors
    /// When memory runs out.
    pub fn of(alloc: Global, system: &'a System) -> Result<SystemPorts<'a>, AllocError>
        ensures { IfOk result (λ ports. ports.system.now ≡ system.now) }
    {
        let ports = ports_of(alloc, system)?;
        let texts = texts_of(alloc, system, ports.as_slice())?;
        Ok(SystemPorts {
            system,
            ports,
            texts,
        })
    }
}
