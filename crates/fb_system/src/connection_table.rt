//! Lists of ends of connections, looked up by an end.

ghost use Rattle.std.specs.Prelude.{◌≡◌, ℕ, [], ◌∷◌, ◌++◌, ◌&&◌, cond, nat_eq, IfOk, OnOk};
ghost use Rattle.fb_check_names.specs.declared.numbers.ConnectionEnd.{ConnectionEnd};
ghost use Rattle.fb_system.specs.NetworkTables.{ends_in, further_ends, ends_of, row_of, ends_at};
ghost use Rattle.fb_system.specs.Wirings.{same_end};

use fb_check_names::ConnectionEnd;
use fb_types::Items;
use std::alloc::{AllocError, Global};
use std::collections::BTreeMap;
use std::marker::Model;

/// The number of ports of a component whose lists are indexed by port number, so that no search is needed. 16 lists take
/// no more memory than one node of the map.
const FIRST_PORTS: usize = 16;

/// For each port of one component, or of the boundary, a list of ends. An unconnected port has no ends. After the first
/// ports it takes no memory, since a component may have many ports of which few are connected.
#[derive(Drop)]
pub(crate) struct PortEnds {
    /// The ends of each of the first ports, up to the last connected one.
    first: Vec<Items<ConnectionEnd>>,
    /// The ends of the later ports that are connected.
    further: PortMap,
}

type PortMap = BTreeMap<usize, Items<ConnectionEnd>, Global>;

impl Model for PortEnds {
    ghost use Rattle.std.specs.Prelude.{List, ℕ};
    ghost use Rattle.fb_check_names.specs.declared.numbers.ConnectionEnd.{ConnectionEnd};

    ghost Value = { List (List ConnectionEnd) × List (ℕ × List ConnectionEnd) };

    ghost view = { λ r. (r.first.items, r.further.entries) };
}

/// Adds an end to one of the first ports.
fn push_first(
    first: &mut Vec<Items<ConnectionEnd>>,
    alloc: Global,
    port: usize,
    end: ConnectionEnd,
) -> Result<(), AllocError>
    ensures { OnOk result ((p : ℕ) → ends_in first.new.items p ≡ cond (nat_eq port p) (ends_in first.old.items p ++ end ∷ []) (ends_in first.old.items p)) }
{
    while first.len() <= port {
        first.push(Items::new(alloc))?;
    }
    let ends = &mut first[port];
    ends.push(end)?;
    Ok(())
}

/// Adds an end to a later port.
fn push_further(
    further: &mut PortMap,
    alloc: Global,
    port: usize,
    end: ConnectionEnd,
) -> Result<(), AllocError>
    ensures { OnOk result ((p : ℕ) → further_ends further.new.entries p ≡ cond (nat_eq port p) (further_ends further.old.entries p ++ end ∷ []) (further_ends further.old.entries p)) }
{
    if let Some(ends) = further.get_mut(&port) {
        ends.push(end)?;
        return Ok(());
    }
    let mut ends = Items::new(alloc);
    ends.push(end)?;
    further.insert(port, ends)?;
    Ok(())
}

impl PortEnds {
    fn new(alloc: Global) -> PortEnds
        ensures { result ≡ ([], []) }
    {
        PortEnds {
            first: Vec::new(alloc),
            further: BTreeMap::new(alloc),
        }
    }

    /// The ends at a port.
    #[inline(always)]
    fn get(&self, port: usize) -> &[ConnectionEnd]
        ensures { result.now ≡ ends_of self.now port }
    {
        if port < FIRST_PORTS {
            match self.first.get(port) {
                Some(ends) => ends.as_slice(),
                None => &[],
            }
        } else {
            self.get_further(port)
        }
    }

    /// The ends at a later port.
    #[inline(never)]
    fn get_further(&self, port: usize) -> &[ConnectionEnd]
        ensures { result.now ≡ further_ends self.now.1 port }
    {
        match self.further.get(&port) {
            Some(ends) => ends.as_slice(),
            None => &[],
        }
    }

    /// Adds an end to a port.
    fn push(&mut self, alloc: Global, port: usize, end: ConnectionEnd) -> Result<(), AllocError>
        ensures { OnOk result ((p : ℕ) → ends_of self.new p ≡ cond (nat_eq port p) (ends_of self.old p ++ end ∷ []) (ends_of self.old p)) }
    {
        if port < FIRST_PORTS {
            push_first(&mut self.first, alloc, port, end)
        } else {
            push_further(&mut self.further, alloc, port, end)
        }
    }
}

/// Adds an end to a port of a component.
fn push_at(
    rows: &mut Vec<PortEnds>,
    alloc: Global,
    component: usize,
    port: usize,
    end: ConnectionEnd,
) -> Result<(), AllocError>
    ensures { OnOk result ((c p : ℕ) → ends_of (row_of rows.new.items c) p ≡ cond (nat_eq component c && nat_eq port p) (ends_of (row_of rows.old.items c) p ++ end ∷ []) (ends_of (row_of rows.old.items c) p)) }
{
    while rows.len() <= component {
        rows.push(PortEnds::new(alloc))?;
    }
    let row = &mut rows[component];
    row.push(alloc, port, end)?;
    Ok(())
}

/// For each end, a list of ends. An unconnected end has none.
#[derive(Drop)]
pub(crate) struct ConnectionTable {
    boundary: PortEnds,
    /// For each component, its ports.
    components: Vec<PortEnds>,
}

impl ConnectionTable {
    /// A table without connections.
    pub(crate) fn new(alloc: Global) -> ConnectionTable
        ensures { (e : ConnectionEnd) → ends_at result e ≡ [] }
    {
        ConnectionTable {
            boundary: PortEnds::new(alloc),
            components: Vec::new(alloc),
        }
    }

    /// The ends that are connected to an end.
    #[inline(always)]
    pub(crate) fn get(&self, at: ConnectionEnd) -> &[ConnectionEnd]
        ensures { result.now ≡ ends_at self.now at }
    {
        match at.component {
            None => self.boundary.get(at.port),
            Some(component) => match self.components.get(component) {
                Some(row) => row.get(at.port),
                None => &[],
            },
        }
    }

    /// Connects an end to an end.
    pub(crate) fn push(
        &mut self,
        alloc: Global,
        at: ConnectionEnd,
        end: ConnectionEnd,
    ) -> Result<(), AllocError>
        ensures { OnOk result ((e : ConnectionEnd) → ends_at self.new e ≡ cond (same_end at e) (ends_at self.old e ++ end ∷ []) (ends_at self.old e)) }
    {
        match at.component {
            None => self.boundary.push(alloc, at.port, end)?,
            Some(component) => push_at(&mut self.components, alloc, component, at.port, end)?,
        }
        Ok(())
    }
}
