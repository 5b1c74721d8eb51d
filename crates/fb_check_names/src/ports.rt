//! Ports of a type by their indexes among the ports of their kind.

ghost use Rattle.std.specs.Prelude.{◌≡◌, ◌<◌, ◌≤◌, ◌-◌, None, MatchOption, SomeIff, map};
ghost use Rattle.fb_check_names.specs.Numbers as spec;
ghost use Rattle.fb_check_names.specs.PortKinds.{names_of_kind, AreIndexesOf};

use crate::named::Named;
use crate::placing::{Indexes, index_of_name};
use fb_types::{Name, Ports};

/// A kind of ports, including the direction.
#[derive(Clone, Copy)]
pub enum PortKind {
    EventInput,
    EventOutput,
    Input,
    Output,
}

/// The index of the item with a name in a list.
fn index_named<T: Named>(items: &[T], name: &Name) -> Option<usize>
    ensures { result ≡ spec.index_of (map T.called items.now) name.now }
{
    for (index, item) in items.iter().enumerate() {
        if name.is(item.name()) {
            return Some(index);
        }
    }
    None
}

/// The index of a port among those of its kind. It compares all of them, which is fast for an interface with few.
pub(crate) fn index_among(ports: &Ports, port_kind: PortKind, name: &Name) -> Option<usize>
    ensures { result ≡ spec.index_of (names_of_kind port_kind ports.now) name.now }
{
    match port_kind {
        PortKind::EventInput => index_named(ports.event_inputs.as_slice(), name),
        PortKind::EventOutput => index_named(ports.event_outputs.as_slice(), name),
        PortKind::Input => index_named(ports.inputs.as_slice(), name),
        PortKind::Output => index_named(ports.outputs.as_slice(), name),
    }
}

/// The index in the rest of a list, from the index in the whole list.
fn after(index: Option<usize>, count: usize) -> Option<usize>
    ensures { MatchOption index (result ≡ None) (λ p. SomeIff result (count ≤ p) (p - count)) }
{
    index?.checked_sub(count)
}

/// An index, if it is within the first part of a list.
fn within(index: Option<usize>, count: usize) -> Option<usize>
    ensures { MatchOption index (result ≡ None) (λ p. SomeIff result (p < count) p) }
{
    match index {
        Some(p) if p < count => Some(p),
        _ => None,
    }
}

/// The index of a port among those of its kind, from the indexes of all names of the type.
pub fn index_in(ports: &Ports, indexes: &Indexes, port_kind: PortKind, name: &Name) -> Option<usize>
    requires { AreIndexesOf ports.now indexes.now }
    ensures { result ≡ spec.index_of (names_of_kind port_kind ports.now) name.now }
{
    let index = index_of_name(indexes, name);
    let after_event_inputs = after(index, ports.event_inputs.len());
    let after_events = after(after_event_inputs, ports.event_outputs.len());
    let after_inputs = after(after_events, ports.inputs.len());
    match port_kind {
        PortKind::EventInput => within(index, ports.event_inputs.len()),
        PortKind::EventOutput => within(after_event_inputs, ports.event_outputs.len()),
        PortKind::Input => within(after_events, ports.inputs.len()),
        PortKind::Output => within(after_inputs, ports.outputs.len()),
    }
}
