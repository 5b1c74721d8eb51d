//! What lists of names, connections and links give twice.

ghost use Rattle.std.specs.Prelude.{◌≡◌, ◌++◌, [], map, IfOk};
ghost use Rattle.fb_types.specs.Flat.{port_in};
ghost use Rattle.fb_types.specs.Repeated.{event_pairs};
ghost use Rattle.fb_check_names.specs.Repeats.{repeats};
ghost use Rattle.fb_check_names.specs.Ends.{end_port, link_ends};
ghost use Rattle.fb_check_names.specs.Pairs.{ends_of, key_names, link_names, names_at, same_ends, same_sides};
ghost use Rattle.fb_check_names.specs.TwiceLists.{given_in, given_in_network, given_with, twice_by};
ghost use Rattle.fb_check_names.specs.declared.repeats.NameSpace.TheVariants as space;

use crate::location::{Direction, Site};
use crate::pairs::{Repeat, push_pair};
use crate::twice::{GivenTwice, InBlock, InNetwork};
use fb_types::{Connection, Link, Name, Network, PortName};
use std::alloc::{AllocError, Global};
use std::collections::BTreeMap;

/// A list in which nothing may be given twice.
#[derive(Clone, Copy)]
pub enum NameSpace {
    /// The block types.
    Types,
    /// The event inputs, event outputs, inputs, outputs and internal variables of the block type at this index.
    Ports(usize),
    /// The WITH list of an event of the block type, by the direction of the event and its index.
    With(usize, Direction, usize),
    /// The states of the block type.
    States(usize),
    /// The algorithms of the block type.
    Algorithms(usize),
    /// The instances of a network.
    Instances(Site),
    /// The parameters of the instance at this index of a network.
    Parameters(Site, usize),
    /// The event connections of a network.
    Connections(Site),
    /// The resources.
    Resources,
    /// The links.
    Links,
}

fn given_in_network(site: Site, found: InNetwork) -> GivenTwice
    ensures { result ≡ given_in_network site found }
{
    match site {
        Site::Application => GivenTwice::Application(found),
        Site::Inside(block) => GivenTwice::Block(block, InBlock::Inside(found)),
    }
}

fn given_with(block: usize, direction: Direction, event: usize, pair: Repeat) -> GivenTwice
    ensures { result ≡ given_with block direction event pair }
{
    match direction {
        Direction::Input => GivenTwice::Block(block, InBlock::WithInput(event, pair)),
        Direction::Output => GivenTwice::Block(block, InBlock::WithOutput(event, pair)),
    }
}

/// What a pair of a name space gives twice.
fn given_in(name_space: NameSpace, pair: Repeat) -> GivenTwice
    ensures { result ≡ given_in name_space pair }
{
    match name_space {
        NameSpace::Types => GivenTwice::Type(pair),
        NameSpace::Ports(block) => GivenTwice::Block(block, InBlock::Port(pair)),
        NameSpace::With(block, direction, event) => given_with(block, direction, event, pair),
        NameSpace::States(block) => GivenTwice::Block(block, InBlock::State(pair)),
        NameSpace::Algorithms(block) => GivenTwice::Block(block, InBlock::Algorithm(pair)),
        NameSpace::Instances(site) => given_in_network(site, InNetwork::Instance(pair)),
        NameSpace::Parameters(site, instance) => {
            given_in_network(site, InNetwork::Parameter(instance, pair))
        }
        NameSpace::Connections(site) => given_in_network(site, InNetwork::Connection(pair)),
        NameSpace::Resources => GivenTwice::Resource(pair),
        NameSpace::Links => GivenTwice::Link(pair),
    }
}

/// Adds what the pairs of a name space give twice.
pub(crate) fn push_pairs(
    found: &mut Vec<GivenTwice>,
    name_space: NameSpace,
    pairs: &[Repeat],
) -> Result<(), AllocError>
    ensures { IfOk result (λ _. found.new.items ≡ found.old.items ++ map (given_in name_space) pairs.now) }
{
    for pair in pairs {
        found.push(given_in(name_space, *pair))?;
    }
    Ok(())
}

/// The names at an end of a connection: the component, if there is one, and the port.
pub type EndNames<'a> = (Option<&'a Name>, &'a Name);

/// The names at an end of a connection.
pub fn end_names(port: &PortName) -> EndNames<'_>
    ensures { end_port result ≡ port_in [] port.now }
{
    match &port.component {
        Some(component) => (Some(component), &port.port),
        None => (None, &port.port),
    }
}

/// The names at both ends of a connection: the component, if there is one, and the port of its beginning, and the same
/// of its end. As an array, since the laws of its order are written out where it is the key of a map: those of a tuple
/// are for each of its parts.
type ConnectionNames<'a> = [Option<&'a Name>; 4];

/// The names at both ends of a connection.
fn names_of(connection: &Connection) -> ConnectionNames<'_>
    ensures { key_names result ≡ names_at connection.now }
{
    [
        connection.from.component.as_ref(),
        Some(&connection.from.port),
        connection.to.component.as_ref(),
        Some(&connection.to.port),
    ]
}

/// Each connection that joins the same ports as one before, with the index of the nearest such connection.
fn connection_pairs(alloc: Global, connections: &[Connection]) -> Result<Vec<Repeat>, AllocError>
    ensures { IfOk result (λ pairs. pairs.items ≡ repeats same_ends (map ends_of connections.now)) }
{
    let mut seen = BTreeMap::new(alloc);
    let mut pairs = Vec::new(alloc);
    for (second, connection) in connections.iter().enumerate() {
        let first = seen.insert(names_of(connection), second)?;
        push_pair(&mut pairs, first, second)?;
    }
    Ok(pairs)
}

/// Adds the event connections that a network gives twice.
pub(crate) fn push_connections(
    alloc: Global,
    found: &mut Vec<GivenTwice>,
    site: Site,
    network: &Network,
) -> Result<(), AllocError>
    ensures { IfOk result (λ _. found.new.items ≡ found.old.items ++ twice_by (space.Connections site) same_ends (event_pairs network.now)) }
{
    let pairs = connection_pairs(alloc, network.event_connections.as_slice())?;
    push_pairs(found, NameSpace::Connections(site), pairs.as_slice())
}

/// The names of the resources that a link joins.
type LinkNames<'a> = (&'a Name, &'a Name);

fn link_names(link: &Link) -> LinkNames<'_>
    ensures { link_names result ≡ link_ends link.now }
{
    (&link.from, &link.to)
}

/// Each link that goes from and to the same resources as one before, with the index of the nearest such link.
fn link_pairs(alloc: Global, links: &[Link]) -> Result<Vec<Repeat>, AllocError>
    ensures { IfOk result (λ pairs. pairs.items ≡ repeats same_sides (map link_ends links.now)) }
{
    let mut seen = BTreeMap::new(alloc);
    let mut pairs = Vec::new(alloc);
    for (second, link) in links.iter().enumerate() {
        let first = seen.insert(link_names(link), second)?;
        push_pair(&mut pairs, first, second)?;
    }
    Ok(pairs)
}

/// Adds the links that are given twice.
pub(crate) fn push_links(
    alloc: Global,
    found: &mut Vec<GivenTwice>,
    links: &[Link],
) -> Result<(), AllocError>
    ensures { IfOk result (λ _. found.new.items ≡ found.old.items ++ twice_by space.Links same_sides (map link_ends links.now)) }
{
    let pairs = link_pairs(alloc, links)?;
    push_pairs(found, NameSpace::Links, pairs.as_slice())
}
