//! E26: instances of the application that are not mapped, and names that are mapped twice.

ghost use Rattle.std.specs.Prelude.{◌≡◌, ◌++◌, [], IfOk, flat_map, map, true};
ghost use Rattle.fb_types.specs.Repeated.{NameTwice};
ghost use Rattle.fb_check_names.specs.Indexes.{AreLastIndexes, names_in};
ghost use Rattle.fb_check_names.specs.Listed.{each_at};
ghost use Rattle.fb_check_names.specs.declared.location.NotMappedAt.TheVariants.{Again};
ghost use Rattle.fb_check.specs.networks.Mapping.{IsMapping, holder_in, owner_of, owners_in, resource_in, unlisted_by};
ghost use Rattle.fb_check.specs.networks.NotMapped.{not_mapped_all, not_mapped_among};

use fb_check_names::{
    Indexes, NotMappedAt, Repeat, index_of_name, last_indexes, push_names, push_unless,
};
use fb_types::{Instance, Items, Library, Name, Plan, PortName, ResourceEntry};
use std::alloc::{AllocError, Global};

/// The resource that lists each name.
pub struct Listed<'a> {
    /// The last index of each listed name, in the lists of all resources, one after another.
    indexes: Indexes<'a>,
    /// The number of the resource that lists the name at each index, from 0.
    owners: Vec<usize>,
}

// Drop is written by hand, so that callers need not prove it again (docs/DECISIONS.md, "Drop").
impl Drop for Listed<'_> {
    fn drop(self) {
        let Listed {
            indexes: _,
            owners: _,
        } = self;
    }
}

/// Which resource holds each instance of the application.
pub enum Mapping<'a> {
    /// The one resource holds all.
    All,
    /// Each is held by the resource that lists it.
    Listed(Listed<'a>),
}

impl Drop for Mapping<'_> {
    fn drop(self) {
        match self {
            Mapping::All | Mapping::Listed(_) => {}
        }
    }
}

/// The names that the resources list, one list after another.
fn listed_names<'a>(
    alloc: Global,
    resources: &'a [ResourceEntry],
) -> Result<Vec<&'a Name>, AllocError>
    ensures { IfOk result (λ v. names_in v.items ≡ flat_map (λ r. r.instances) resources.now) }
{
    let mut names = Vec::new(alloc);
    for resource in resources {
        push_names(&mut names, resource.instances.as_slice())?;
    }
    Ok(names)
}

/// Adds the number of a resource as often as it lists a name.
fn push_owner(owners: &mut Vec<usize>, number: usize, names: &[Name]) -> Result<(), AllocError>
    ensures { IfOk result (λ _. owners.new.items ≡ owners.old.items ++ map (λ n. number) names.now) }
{
    for _name in names {
        owners.push(number)?;
    }
    Ok(())
}

/// The number of the resource that lists each of the names.
fn owners_of(alloc: Global, resources: &[ResourceEntry]) -> Result<Vec<usize>, AllocError>
    ensures { IfOk result (λ v. v.items ≡ each_at owners_in resources.now) }
{
    let mut owners = Vec::new(alloc);
    for (number, resource) in resources.iter().enumerate() {
        push_owner(&mut owners, number, resource.instances.as_slice())?;
    }
    Ok(owners)
}

/// Adds the instances that no resource lists.
fn push_unlisted(
    found: &mut Vec<NotMappedAt>,
    indexes: &Indexes,
    instances: &[Instance],
) -> Result<(), AllocError>
    ensures { IfOk result (λ _. found.new.items ≡ found.old.items ++ each_at (unlisted_by indexes.now) instances.now) }
{
    for (instance, declared) in instances.iter().enumerate() {
        let is_listed = indexes.contains_key(&declared.name);
        push_unless(found, is_listed, NotMappedAt::Unlisted(instance))?;
    }
    Ok(())
}

/// Adds the names that are listed before.
fn push_again(found: &mut Vec<NotMappedAt>, pairs: &[Repeat]) -> Result<(), AllocError>
    ensures { IfOk result (λ _. found.new.items ≡ found.old.items ++ map (λ r. Again r) pairs.now) }
{
    for pair in pairs {
        found.push(NotMappedAt::Again(*pair))?;
    }
    Ok(())
}

/// The resource that lists each name. Adds all instances that none lists, and all names that are listed before.
fn list_all<'a>(
    alloc: Global,
    found: &mut Vec<NotMappedAt>,
    instances: &[Instance],
    resources: &'a [ResourceEntry],
) -> Result<Listed<'a>, AllocError>
    ensures found { IfOk result (λ _. found.new.items ≡ found.old.items ++ not_mapped_among (flat_map (λ r. r.instances) resources.now) instances.now) }
    ensures indexes { IfOk result (λ l. AreLastIndexes (flat_map (λ r. r.instances) resources.now) l.indexes) }
    ensures owners { IfOk result (λ l. l.owners.items ≡ each_at owners_in resources.now) }
{
    let owners = owners_of(alloc, resources)?;
    let names = listed_names(alloc, resources)?;
    let mut again = Vec::new(alloc);
    let indexes = last_indexes(alloc, &mut again, names.as_slice())?;
    push_unlisted(found, &indexes, instances)
        .and(push_again(found, again.as_slice()))
        .and(Ok(Listed { indexes, owners }))
}

/// Which resource holds each instance of the application, if each is mapped to one. Adds all that are not (E26): the
/// instances that no resource lists, and the names that are listed before.
///
/// # Errors
///
/// When memory runs out.
pub fn mapping_of<'a>(
    alloc: Global,
    found: &mut Vec<NotMappedAt>,
    library: &Library,
    plan: &'a Plan,
) -> Result<Mapping<'a>, AllocError>
    requires once { plan.now.holds_all ≡ true → ¬ (NameTwice library.now plan.now) }
    ensures found { IfOk result (λ _. found.new.items ≡ found.old.items ++ not_mapped_all library.now plan.now) }
    ensures mapping { IfOk result (λ m. not_mapped_all library.now plan.now ≡ [] → IsMapping library.now plan.now m) }
{
    if plan.holds_all {
        return Ok(Mapping::All);
    }
    let instances = library.application.network.instances.as_slice();
    let listed = list_all(alloc, found, instances, plan.resources.as_slice())?;
    Ok(Mapping::Listed(listed))
}

/// The index of the resource that lists a name. A name that is not listed gives 0.
fn owner(listed: &Listed, name: &Name) -> usize
    ensures { result ≡ owner_of listed.now name.now }
{
    match index_of_name(&listed.indexes, name) {
        Some(index) => listed.owners.as_slice().get(index).copied().unwrap_or(0),
        None => 0,
    }
}

/// The index of the resource that holds an instance of the application. A name that is not mapped gives 0.
fn holder(mapping: &Mapping, name: &Name) -> usize
    ensures { result ≡ holder_in mapping.now name.now }
{
    match mapping {
        Mapping::All => 0,
        Mapping::Listed(listed) => owner(listed, name),
    }
}

/// The index of the resource that holds the component at an end of a connection of the application. The boundary gives
/// 0.
pub fn resource_of(mapping: &Mapping, end: &PortName) -> usize
    ensures { result ≡ resource_in mapping.now end.now }
{
    match &end.component {
        Some(component) => holder(mapping, component),
        None => 0,
    }
}

/// For each instance of the application, the index of the resource that holds it.
pub fn holders_of(
    alloc: Global,
    library: &Library,
    mapping: &Mapping,
) -> Result<Items<usize>, AllocError>
    ensures { IfOk result (λ h. h ≡ map (λ i. holder_in mapping.now i.name) library.now.application.network.instances) }
{
    let mut holders = Items::new(alloc);
    for instance in library.application.network.instances.as_slice() {
        holders.push(holder(mapping, &instance.name))?;
    }
    Ok(holders)
}
