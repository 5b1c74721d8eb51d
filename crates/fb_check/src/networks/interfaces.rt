//! The variables WITH the output events of instances.

ghost use Rattle.std.specs.Prelude.{◌≡◌};
ghost use Rattle.std.specs.Option.{option_copied};
ghost use Rattle.fb_types.specs.EventPorts.{ArePortsOfKinds};
ghost use Rattle.fb_check.specs.networks.Serving.{output_at, withs_at};

use fb_check_names::{NetworkNumbers, TypeNumber};
use fb_types::{EventPort, Library, Name, Ports};

/// The output event at which an event connection of the application begins.
fn source_of<'a>(
    library: &'a Library,
    interfaces: &'a [Ports],
    numbers: &NetworkNumbers,
    connection: usize,
) -> Option<&'a EventPort>
    requires { ArePortsOfKinds interfaces.now }
    ensures { option_copied result ≡ output_at library.now numbers.now connection }
{
    let from = numbers.event_wires.get(connection)?.from;
    let number = *numbers.types.get(from.component?)?;
    match number {
        TypeNumber::Event(kind) => interfaces.get(kind.index())?.event_outputs.get(from.port),
        TypeNumber::Declared(index) => {
            let ports = library.blocks.get(index)?.ports();
            ports.event_outputs.get(from.port)
        }
    }
}

/// The variables WITH the output event at which an event connection of the application begins.
pub fn variables_with<'a>(
    library: &'a Library,
    interfaces: &'a [Ports],
    numbers: &NetworkNumbers,
    connection: usize,
) -> &'a [Name]
    requires { ArePortsOfKinds interfaces.now }
    ensures { result.now ≡ withs_at library.now numbers.now connection }
{
    match source_of(library, interfaces, numbers, connection) {
        Some(output) => output.with.as_slice(),
        None => &[],
    }
}
