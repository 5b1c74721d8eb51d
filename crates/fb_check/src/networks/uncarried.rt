//! E28: data connections between two resources that no event serves.

ghost use Rattle.std.specs.Prelude.{◌≡◌, [], All, None, IfOk};
ghost use Rattle.fb_types.specs.Repeated.{NameTwice};
ghost use Rattle.fb_types.specs.Mapped.{NoEvent};
ghost use Rattle.fb_check_names.specs.Numbers.{IsNetwork, IsResolved};
ghost use Rattle.fb_check.specs.networks.Mapping.{IsMapping, IsHolding};
ghost use Rattle.fb_check.specs.networks.Serving.{AreServed};
ghost use Rattle.fb_check.specs.networks.NoEvent.{IsNoEventAt, no_event_all};

use crate::networks::mapping::{Mapping, resource_of};
use crate::networks::serving::{Leads, component_of, serve_all};
use fb_check_names::{NetworkNumbers, Resolved, push_unless};
use fb_types::{Library, Plan, all_ports};
use std::alloc::{AllocError, Global};
use std::collections::BTreeSet;

/// The list of all data connections that no event serves, from what is served.
fn no_event_connections<'a>(
    alloc: Global,
    library: &'a Library,
    plan: &Plan,
    mapping: &Mapping,
    numbers: &NetworkNumbers,
    served: &Leads<'a>,
) -> Result<Vec<usize>, AllocError>
    requires once { ¬ (NameTwice library.now plan.now) }
    requires mapping { IsHolding plan.now mapping.now }
    requires numbers { IsNetwork library.now (None, library.now.application.network) numbers.now }
    requires served { AreServed library.now plan.now served.now }
    ensures { IfOk result (λ found. found.items ≡ no_event_all library.now plan.now) }
{
    let mut found = Vec::new(alloc);
    let connections = library.application.network.data_connections.as_slice();
    for (connection, declared) in connections.iter().enumerate() {
        let from = resource_of(mapping, &declared.from);
        let to = resource_of(mapping, &declared.to);
        let component = component_of(&declared.from);
        // One resource holds both ends, or an event serves it.
        let is_served = from == to || served.contains(&(component, &declared.from.port, to));
        push_unless(&mut found, is_served, connection)?;
    }
    Ok(found)
}

/// The indexes of all data connections of the application that go from one resource to another, and no output event WITH
/// the variable goes from the same instance to that resource (E28), in the order of the declaration.
///
/// # Errors
///
/// When memory runs out.
pub fn no_event_locations(
    alloc: Global,
    library: &Library,
    plan: &Plan,
    mapping: &Mapping,
    resolved: &Resolved,
) -> Result<Vec<usize>, AllocError>
    requires once { ¬ (NameTwice library.now plan.now) }
    requires mapping { IsMapping library.now plan.now mapping.now }
    requires resolved { IsResolved library.now plan.now resolved.now }
    ensures listed { IfOk result (λ found. found.items ≡ no_event_all library.now plan.now) }
    ensures each { IfOk result (λ found. All (IsNoEventAt library.now plan.now) found.items) }
    ensures none { IfOk result (λ found. found.items ≡ [] → ¬ (NoEvent library.now plan.now)) }
{
    let interfaces = all_ports(alloc)?;
    let numbers = &resolved.application;
    let mut events = BTreeSet::new(alloc);
    let mut served = BTreeSet::new(alloc);
    serve_all(
        &mut events,
        &mut served,
        library,
        interfaces.as_slice(),
        plan,
        mapping,
        numbers,
    )?;
    no_event_connections(alloc, library, plan, mapping, numbers, &served)
}
