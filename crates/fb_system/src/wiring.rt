//! The connections of one network, looked up by their ends.

ghost use Rattle.std.specs.Prelude.{◌≡◌, IfOk, map};
ghost use Rattle.std.specs.List.{filter};
ghost use Rattle.fb_check_names.specs.declared.numbers.ConnectionEnd.{ConnectionEnd};
ghost use Rattle.fb_system.specs.NetworkTables.{ends_at};
ghost use Rattle.fb_system.specs.Wirings.{same_end, source_in, targets_in};

use crate::connection_table::ConnectionTable;
use fb_check_names::{ConnectionEnd, NetworkNumbers, NumberedConnection};
use std::alloc::{AllocError, Global};
use std::marker::Model;

/// A network by numbers whose connections are found by their ends. A component, and each of its first 16 ports, is found
/// in constant time. A later port is found in time logarithmic in the number of connected ports. Memory is linear in the
/// components and connections, regardless of the number of ports. Contracts see the network.
#[derive(Drop)]
pub struct Wiring {
    numbers: NetworkNumbers,
    /// For each end, where its event connections lead.
    targets: ConnectionTable,
    /// For each end, where its data connections come from.
    sources: ConnectionTable,
}

impl Model for Wiring {
    ghost use Rattle.fb_check_names.specs.declared.numbers.NetworkNumbers.{NetworkNumbers};

    ghost Value = { NetworkNumbers };

    ghost view = { λ w. w.numbers };

    ghost use Rattle.fb_system.specs.NetworkTables.{AreTablesOf};

    ghost invariant = { λ w. AreTablesOf w.numbers w.targets w.sources };
}

/// For each end, where the wires from it lead.
fn targets_of(alloc: Global, wires: &[NumberedConnection]) -> Result<ConnectionTable, AllocError>
    ensures { IfOk result (λ t. (e : ConnectionEnd) → ends_at t e ≡ map (λ w. w.to) (filter (λ w. same_end w.from e) wires.now)) }
{
    let mut table = ConnectionTable::new(alloc);
    for wire in wires {
        table.push(alloc, wire.from, wire.to)?;
    }
    Ok(table)
}

/// For each end, where the wires to it come from.
fn sources_of(alloc: Global, wires: &[NumberedConnection]) -> Result<ConnectionTable, AllocError>
    ensures { IfOk result (λ t. (e : ConnectionEnd) → ends_at t e ≡ map (λ w. w.from) (filter (λ w. same_end w.to e) wires.now)) }
{
    let mut table = ConnectionTable::new(alloc);
    for wire in wires {
        table.push(alloc, wire.to, wire.from)?;
    }
    Ok(table)
}

impl Wiring {
    /// The wiring of a network.
    pub fn of(alloc: Global, numbers: NetworkNumbers) -> Result<Wiring, AllocError>
        ensures { IfOk result (λ w. w ≡ numbers) }
    {
        let targets = targets_of(alloc, numbers.event_wires.as_slice())?;
        let sources = sources_of(alloc, numbers.data_wires.as_slice())?;
        Ok(Wiring {
            numbers,
            targets,
            sources,
        })
    }

    /// The network.
    pub fn numbers(&self) -> &NetworkNumbers
        ensures { result.now ≡ self.now }
    {
        &self.numbers
    }

    /// Where the event connections from an end lead, in the order of the text.
    pub fn targets(&self, end: ConnectionEnd) -> &[ConnectionEnd]
        ensures { result.now ≡ targets_in self.now end }
    {
        self.targets.get(end)
    }

    /// The end from which the data connection to an end comes, or `None` if the end is not connected.
    pub fn source(&self, end: ConnectionEnd) -> Option<ConnectionEnd>
        ensures { result ≡ source_in self.now end }
    {
        self.sources.get(end).first().copied()
    }
}
