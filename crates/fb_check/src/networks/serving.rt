//! The data that the event connections of an application carry from one resource to another.

ghost use Rattle.std.specs.Prelude.{◌≡◌, [], OnOk, None};
ghost use Rattle.fb_types.specs.EventPorts.{ArePortsOfKinds};
ghost use Rattle.fb_types.specs.Flat.{port_in};
ghost use Rattle.fb_check_names.specs.Numbers.{IsNetwork};
ghost use Rattle.fb_check.specs.networks.Mapping.{IsHolding};
ghost use Rattle.fb_check.specs.networks.Serving.{AreServed, IsExtended, path_of};

use crate::networks::interfaces::variables_with;
use crate::networks::mapping::{Mapping, resource_of};
use fb_check_names::NetworkNumbers;
use fb_types::{Library, Name, Plan, PortName, Ports};
use std::alloc::{AllocError, Global};
use std::collections::BTreeSet;

/// A component, or none at the boundary, with a port of it, and the resource to which it leads.
type Lead<'a> = (Option<&'a Name>, &'a Name, usize);

/// Ports with the resources to which they lead.
pub type Leads<'a> = BTreeSet<Lead<'a>, Global>;

/// The name of the component at an end of a connection.
pub fn component_of(end: &PortName) -> Option<&Name>
    ensures { path_of result ≡ (port_in [] end.now).at }
{
    end.component.as_ref()
}

/// Adds the variables of a component, with the resource to which they lead.
fn extend<'a>(
    served: &mut Leads<'a>,
    component: Option<&'a Name>,
    names: &'a [Name],
    resource: usize,
) -> Result<(), AllocError>
    ensures { OnOk result (IsExtended component.entry names.now resource served.old served.new) }
{
    for name in names {
        served.insert((component, name, resource))?;
    }
    Ok(())
}

/// Adds the variables that output events carry from their components to resources. `events` has the events that were
/// met; at first both sets are empty.
pub(crate) fn serve_all<'a>(
    events: &mut Leads<'a>,
    served: &mut Leads<'a>,
    library: &'a Library,
    interfaces: &'a [Ports],
    plan: &Plan,
    mapping: &Mapping,
    numbers: &NetworkNumbers,
) -> Result<(), AllocError>
    requires events { events.old.keys ≡ [] }
    requires served { served.old.keys ≡ [] }
    requires interfaces { ArePortsOfKinds interfaces.now }
    requires mapping { IsHolding plan.now mapping.now }
    requires numbers { IsNetwork library.now (None, library.now.application.network) numbers.now }
    ensures { OnOk result (AreServed library.now plan.now served.new) }
{
    let connections = library.application.network.event_connections.as_slice();
    for (index, connection) in connections.iter().enumerate() {
        let component = component_of(&connection.from);
        let resource = resource_of(mapping, &connection.to);
        if events.insert((component, &connection.from.port, resource))? {
            let names = variables_with(library, interfaces, numbers, index);
            extend(served, component, names, resource)?;
        }
    }
    Ok(())
}
