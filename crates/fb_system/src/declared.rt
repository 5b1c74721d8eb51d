//! Instances as they are declared, and their parameters by number.

ghost use Rattle.std.specs.Prelude.{◌≡◌, ◌<◌, Some, length};
ghost use Rattle.std.specs.Option.{option_copied};
ghost use Rattle.fb_types.specs.Flat.{instance_at, network_at, paths_of};
ghost use Rattle.fb_types.specs.declared.library.Instance.{Instance as Declared};
ghost use Rattle.fb_check_names.specs.Numbers.{parameter_numbers};
ghost use Rattle.fb_system.specs.Layouts.{path_of};
ghost use Rattle.fb_system.specs.Networks.{IsAround, IsNetlist, path_around};

use crate::tables::{Tables, last_index, row_at, wiring_in};
use fb_check_names::TypeNumber;
use fb_types::{BlockType, Instance, Network};

/// The network of the application, or the one inside an instance, if its type has one.
fn network_in(tables: &Tables, around: Option<u32>) -> Option<&Network>
    requires netlist { IsNetlist tables.now }
    requires within { IsAround tables.now.library around }
    ensures { option_copied result ≡ network_at tables.now.library (path_around tables.now.library around) }
{
    match around {
        None => Some(&tables.library.application.network),
        Some(instance) => match row_at(tables, instance).kind {
            TypeNumber::Event(_) => None,
            TypeNumber::Declared(index) => match tables.library.blocks.get(index)? {
                BlockType::Basic(_) => None,
                BlockType::Composite(composite) => Some(&composite.network),
            },
        },
    }
}

/// The declaration of an instance.
pub(crate) fn declared_at(tables: &Tables, instance: u32) -> &Instance
    requires netlist { IsNetlist tables.now }
    requires within { instance < length (paths_of tables.now.library) }
    ensures { instance_at tables.now.library (path_of tables.now.library instance) ≡ Some result.now }
{
    let row = row_at(tables, instance);
    let Some(network) = network_in(tables, row.parent) else {
        unreachable!()
    };
    let Some(index) = last_index(row.route.as_slice()) else {
        unreachable!()
    };
    let Some(declared) = network.instances.get(index) else {
        unreachable!()
    };
    declared
}

/// The indexes of the data inputs that the parameters of an instance set.
pub(crate) fn parameters_at(tables: &Tables, instance: u32) -> &[usize]
    requires netlist { IsNetlist tables.now }
    requires within { instance < length (paths_of tables.now.library) }
    ensures { (i : Declared) → instance_at tables.now.library (path_of tables.now.library instance) ≡ Some i → parameter_numbers tables.now.library i ≡ Some result.now }
{
    let row = row_at(tables, instance);
    let Some(wiring) = wiring_in(tables, row.parent) else {
        unreachable!()
    };
    let Some(index) = last_index(row.route.as_slice()) else {
        unreachable!()
    };
    let Some(indexes) = wiring.numbers().parameters.get(index) else {
        unreachable!()
    };
    indexes.as_slice()
}
