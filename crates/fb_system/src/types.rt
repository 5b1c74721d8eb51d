//! The interfaces of types, by the numbers of the types.

ghost use Rattle.std.specs.Prelude.{◌≡◌, Some, option_map};
ghost use Rattle.fb_types.specs.Blocks.{Kind, ports_of};
ghost use Rattle.fb_system.specs.IndexLists.{AreWithIndexes};
ghost use Rattle.fb_check_names.specs.Numbers.{kind_of_number};
ghost use Rattle.fb_system.specs.Systems.{AreTables};

use crate::whole::Whole;
use crate::with_indexes::WithIndexes;
use fb_check_names::TypeNumber;
use fb_types::Ports;

/// The interface of a type.
pub(crate) fn ports_of_type(tables: &Whole, kind: TypeNumber) -> &Ports
    requires tables { AreTables tables.now }
    requires known { (k : Kind) × (kind_of_number tables.now.netlist kind ≡ Some k) }
    ensures { option_map ports_of (kind_of_number tables.now.netlist kind) ≡ Some result.now }
{
    match kind {
        TypeNumber::Event(kind) => &tables.event_blocks.as_slice()[kind.index()],
        TypeNumber::Declared(index) => tables.netlist.library().blocks.as_slice()[index].ports(),
    }
}

/// For each event of a type, the indexes of the variables WITH it.
pub(crate) fn with_indexes_of_type(tables: &Whole, kind: TypeNumber) -> &WithIndexes
    requires tables { AreTables tables.now }
    requires known { (k : Kind) × (kind_of_number tables.now.netlist kind ≡ Some k) }
    ensures { (k : Kind) → kind_of_number tables.now.netlist kind ≡ Some k → AreWithIndexes (ports_of k) result.now }
{
    match kind {
        TypeNumber::Event(kind) => tables.interfaces.of_event_block(kind),
        TypeNumber::Declared(index) => tables.interfaces.of_block(index),
    }
}
