//! Types, ports, instances and resources by their indexes.

use fb_types::{EventKind, Items};

/// The type of an instance: an event block, or the block type at an index of the declaration.
#[derive(Clone, Copy)]
pub enum TypeNumber {
    Event(EventKind),
    Declared(usize),
}

/// An end of a connection: the index of the component, or none at the boundary, and the index of the port among the
/// ports of its kind and direction.
#[derive(Clone, Copy)]
pub struct ConnectionEnd {
    /// The index among the instances of the network, or none at the boundary.
    pub component: Option<usize>,
    /// The index among the ports of the kind.
    pub port: usize,
}

/// A connection, of events or of data.
#[derive(Clone, Copy)]
pub struct NumberedConnection {
    /// The end from which it leads.
    pub from: ConnectionEnd,
    /// The end to which it leads.
    pub to: ConnectionEnd,
}

/// The resources of a link.
#[derive(Clone, Copy)]
pub struct LinkEnds {
    /// The index of the sender.
    pub from: usize,
    /// The index of the receiver.
    pub to: usize,
}

/// A network by number, in the order of the text.
pub struct NetworkNumbers {
    /// For each instance, its type.
    pub types: Items<TypeNumber>,
    /// For each instance, for each parameter, the index of the data input that it sets.
    pub parameters: Items<Items<usize>>,
    /// The event connections.
    pub event_wires: Items<NumberedConnection>,
    /// The data connections.
    pub data_wires: Items<NumberedConnection>,
}

// Drop is written by hand, so that callers need not prove it again (docs/DECISIONS.md, "Drop").
impl Drop for NetworkNumbers {
    fn drop(self) {
        let NetworkNumbers {
            types: _,
            parameters: _,
            event_wires: _,
            data_wires: _,
        } = self;
    }
}

/// A declaration and a deployment by number.
#[derive(Drop)]
pub struct Resolved {
    /// The network of the application.
    pub application: NetworkNumbers,
    /// For each block type of the declaration its network, or none for a basic type.
    pub blocks: Items<Option<NetworkNumbers>>,
    /// For each resource, the instances of the application that it lists.
    pub held: Items<Items<usize>>,
    /// For each link, its resources.
    pub links: Items<LinkEnds>,
}
