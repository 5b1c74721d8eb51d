//! Which resource holds an instance of the application, and which link leads from one resource to another.

ghost use Rattle.std.specs.Prelude.{◌≡◌, ℕ, None, Some, cond, nat_eq, IfOk, OnOk};
ghost use Rattle.fb_types.specs.Keys.{or_else};
ghost use Rattle.fb_types.specs.Repeated.{NameTwice};
ghost use Rattle.fb_types.specs.declared.deploy.Plan.{Plan};
ghost use Rattle.fb_types.specs.declared.library.Library.{Library};
ghost use Rattle.fb_check_names.specs.Numbers.{IsResolved};
ghost use Rattle.fb_system.specs.Linking.{AreWays, IsLinked, holder_at, holders_of, joins, link_at, receiver_at, sender_at, way_between, way_to};

use fb_check_names::{LinkEnds, Resolved};
use fb_types::Items;
use std::alloc::{AllocError, Global};
use std::marker::Model;

/// For each sending resource, by the number of the receiving resource, the first link from the one to the other. At most
/// 256 resources have at most 65,536 such entries.
type Ways = Vec<Items<Option<usize>>>;

/// The resources of instances and of links, by number. Contracts see the resource that holds each instance, and the
/// resources of each link.
pub struct Links {
    /// For each instance of the application, the resource that holds it.
    holders: Items<usize>,
    /// For each link, its resources.
    ends: Items<LinkEnds>,
    ways: Ways,
}

// Drop is written by hand, so that callers need not prove it again (docs/DECISIONS.md, "Drop").
impl Drop for Links {
    fn drop(self) {
        let Links {
            holders: _,
            ends: _,
            ways: _,
        } = self;
    }
}

impl Model for Links {
    ghost use Rattle.fb_system.specs.Linking.{Linked, AreWays};

    ghost Value = { Linked };

    ghost view = { λ l. record { holders = l.holders; ends = l.ends } };

    ghost invariant = { λ l. AreWays l.ends l.ways.items };
}

/// The link to a resource, among those from one other.
fn way_in(row: &[Option<usize>], to: usize) -> Option<usize>
    ensures { result ≡ way_to row.now to }
{
    match row.get(to) {
        Some(way) => *way,
        None => None,
    }
}

/// The link from one resource to another.
fn way(ways: &[Items<Option<usize>>], from: usize, to: usize) -> Option<usize>
    ensures { result ≡ way_between ways.now from to }
{
    match ways.get(from) {
        Some(row) => way_in(row.as_slice(), to),
        None => None,
    }
}

/// Sets the link to a resource, unless one is set already.
fn note_to(row: &mut Items<Option<usize>>, to: usize, link: usize) -> Result<(), AllocError>
    ensures { OnOk result ((t : ℕ) → way_to row.new t ≡ or_else (way_to row.old t) (cond (nat_eq to t) (Some link) None)) }
{
    while row.len() <= to {
        row.push(None)?;
    }
    let known_way = way_in(row.as_slice(), to);
    if known_way.is_none() {
        row.set(to, Some(link));
    }
    Ok(())
}

/// Sets a link, unless one between its resources is set already.
fn note(ways: &mut Ways, alloc: Global, ends: LinkEnds, link: usize) -> Result<(), AllocError>
    ensures { OnOk result ((f t : ℕ) → way_between ways.new.items f t ≡ or_else (way_between ways.old.items f t) (cond (joins f t ends) (Some link) None)) }
{
    while ways.len() <= ends.from {
        ways.push(Items::new(alloc))?;
    }
    let row = &mut ways[ends.from];
    note_to(row, ends.to, link)?;
    Ok(())
}

/// The first link from each resource to each other.
fn ways_of(alloc: Global, links: &[LinkEnds]) -> Result<Ways, AllocError>
    ensures { IfOk result (λ ways. AreWays links.now ways.items) }
{
    let mut ways = Vec::new(alloc);
    for (number, ends) in links.iter().enumerate() {
        note(&mut ways, alloc, *ends, number)?;
    }
    Ok(ways)
}

impl Links {
    /// The resources and links of a deployment, from the resources that hold the application's instances.
    pub fn of(alloc: Global, holders: Items<usize>, numbers: &Resolved) -> Result<Links, AllocError>
        ensures { (library : Library) (plan : Plan) → IsResolved library plan numbers.now → ¬ (NameTwice library plan) → holders ≡ holders_of library plan → IfOk result (IsLinked library plan) }
    {
        let ends = Items::from_slice(alloc, numbers.links.as_slice())?;
        let ways = ways_of(alloc, ends.as_slice())?;
        Ok(Links {
            holders,
            ends,
            ways,
        })
    }

    /// The index of the resource that holds an instance of the application, by the instance's index. An index that no
    /// instance has gives 0.
    pub fn holder(&self, instance: usize) -> usize
        ensures { result ≡ holder_at self.now instance }
    {
        self.holders.get(instance).copied().unwrap_or(0)
    }

    /// The link from one resource to another, by their indexes, or `None` if there is none.
    pub fn between(&self, from: usize, to: usize) -> Option<usize>
        ensures { result ≡ link_at self.now from to }
    {
        way(self.ways.as_slice(), from, to)
    }

    /// The resource from which a link leads. A number that no link has gives 0.
    pub fn sender(&self, link: usize) -> usize
        ensures { result ≡ sender_at self.now link }
    {
        match self.ends.get(link) {
            Some(ends) => ends.from,
            None => 0,
        }
    }

    /// The resource to which a link leads. A number that no link has gives 0.
    pub fn receiver(&self, link: usize) -> usize
        ensures { result ≡ receiver_at self.now link }
    {
        match self.ends.get(link) {
            Some(ends) => ends.to,
            None => 0,
        }
    }
}
