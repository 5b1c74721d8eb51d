//! The roots of the trees of a resource: the instances of the application that are in it.

ghost use Rattle.std.specs.Prelude.{IfOk};
ghost use Rattle.fb_net.specs.Opening.{AreRooted};

use fb_system::System;
use fb_types::Items;
use std::alloc::{AllocError, Global};

/// The roots of the trees of a resource.
#[derive(Drop)]
pub(crate) struct Roots {
    /// For each instance of the application, in the order of the text, its index among the roots. That of an instance of
    /// another resource means nothing.
    pub indexes: Items<usize>,
    /// The instances of the application that are in the resource, in the order of the text.
    pub instances: Items<u32>,
}

/// The roots of the trees of a resource.
pub(crate) fn roots_of(alloc: Global, system: &System, resource: usize) -> Result<Roots, AllocError>
    ensures { IfOk result (λ x. AreRooted system.now resource x.indexes x.instances) }
{
    let all = system.top();
    let mut indexes = Items::new(alloc);
    let mut instances = Items::new(alloc);
    for instance in all {
        indexes.push(instances.len())?;
        if system.resource(*instance) == resource {
            instances.push(*instance)?;
        }
    }
    Ok(Roots { indexes, instances })
}
