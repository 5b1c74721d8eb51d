//! What a document says of a deployment, before its numbers are checked.

ghost use Rattle.std.specs.Prelude.{◌≡◌, ◌≤◌, map, length, IfOk, option_map};
ghost use Rattle.toml.specs.View.{table_view, view};
ghost use Rattle.fb_inputs.specs.Lists as lists;
ghost use Rattle.fb_inputs.specs.DeployLocations.{AnswersInDocument, AnswersInTable, IsLocated, element_at, shape_in};
ghost use Rattle.fb_inputs.specs.DeployLocations as locations;
ghost use Rattle.fb_inputs.specs.Documents as spec;
ghost use Rattle.fb_inputs.specs.Refusals.{or_refuse};

use crate::deploy_location::{DeployFault, DeployKey, TableError, TableFault, at_top, in_table};
use crate::text::name;
use fb_types::{Items, Name, ResourceEntry};
use std::alloc::{AllocError, Global};
use toml::{Table, Value};

/// A latency as it is written: a number of ticks, from this tick on.
#[derive(Clone, Copy)]
pub struct LatencyDraft {
    /// The tick of sending from which it holds, as written.
    pub start: i64,
    /// The latency in ticks, as written.
    pub ticks: i64,
}

/// A link with its latencies as they are written.
#[derive(Drop)]
pub struct LinkDraft {
    /// The resource that sends.
    pub start: Name,
    /// The resource that receives.
    pub end: Name,
    /// The latencies, in the order of the document.
    pub table: Items<LatencyDraft>,
}

/// The resources and links of a document.
#[derive(Drop)]
pub struct PlanDraft {
    /// The resources, in the order of the document.
    pub resources: Items<ResourceEntry>,
    /// The links, in the order of the document.
    pub links: Items<LinkDraft>,
}

/// The meaning of a value of a document, if it is of that kind.
trait Piece: Drop {
    ghost use Rattle.std.specs.Prelude.{Option};
    ghost use Rattle.toml.specs.Data.{Data};

    ghost meaning: { Data → Option Self };

    fn read(alloc: Global, value: &Value) -> Result<Option<Self>, AllocError>
        ensures { IfOk result (λ r. r ≡ meaning (view value.now)) };
}

/// What the value with this index of the array at a key represents.
fn element<T: Piece>(
    alloc: Global,
    value: &Value,
    key: DeployKey,
    index: usize,
) -> Result<T, TableError>
    ensures { AnswersInTable (λ t. t) (or_refuse (element_at key index) (T.meaning (view value.now))) result }
{
    match T::read(alloc, value)? {
        Some(piece) => Ok(piece),
        None => Err(TableError::At(TableFault::Element(key, index))),
    }
}

/// What the values of the array at a key represent. The first one that is not of that kind is at fault.
fn each<T: Piece>(alloc: Global, values: &[Value], key: DeployKey) -> Result<Items<T>, TableError>
    ensures { AnswersInTable (λ t. t) (lists.each_at (element_at key) T.meaning 0 (map view values.now)) result }
{
    let mut found = Items::new(alloc);
    for value in values {
        let piece = element::<T>(alloc, value, key, found.len())?;
        found.push(piece)?;
    }
    Ok(found)
}

/// What the items of the array at a key represent.
fn array<T: Piece>(alloc: Global, value: &Value, key: DeployKey) -> Result<Items<T>, TableError>
    ensures { AnswersInTable (λ t. t) (spec.array_of key T.meaning (view value.now)) result }
{
    match value.as_array() {
        Some(values) => each::<T>(alloc, values.as_slice(), key),
        None => Err(TableError::At(TableFault::Wrong(key))),
    }
}

fn value_at<'a>(keys: &'a Table, key: DeployKey) -> Option<&'a Value>
    ensures { option_map (λ v. view v.now) result ≡ locations.value_at (table_view keys.now) key }
{
    keys.get(key.text())
}

fn count_of(keys: &Table) -> usize
    ensures { result ≡ spec.count_of (table_view keys.now) }
{
    keys.len()
}

impl Piece for Name {
    ghost meaning = { spec.name_of };

    fn read(alloc: Global, value: &Value) -> Result<Option<Name>, AllocError> {
        match value.as_str() {
            Some(text) => name(alloc, text.as_bytes()),
            None => Ok(None),
        }
    }
}

/// The name at a key.
fn name_at(alloc: Global, keys: &Table, key: DeployKey) -> Result<Name, TableError>
    ensures { AnswersInTable (λ n. n) (spec.read_at key (spec.of_kind key spec.name_of) (table_view keys.now)) result }
{
    let Some(value) = value_at(keys, key) else {
        return Err(TableError::At(TableFault::Missing(key)));
    };
    match Name::read(alloc, value)? {
        Some(name) => Ok(name),
        None => Err(TableError::At(TableFault::Wrong(key))),
    }
}

/// The names in the array at a key.
fn names_at(alloc: Global, keys: &Table, key: DeployKey) -> Result<Items<Name>, TableError>
    ensures { AnswersInTable (λ t. t) (spec.read_at key (spec.array_of key spec.name_of) (table_view keys.now)) result }
{
    match value_at(keys, key) {
        Some(value) => array::<Name>(alloc, value, key),
        None => Err(TableError::At(TableFault::Missing(key))),
    }
}

/// What a table of a document represents.
trait Entry: Drop {
    ghost use Rattle.toml.specs.Data.{Members};
    ghost use Rattle.fb_inputs.specs.DeployLocations.{InTable};

    ghost meaning: { Members → InTable Self };

    fn read(alloc: Global, keys: &Table) -> Result<Self, TableError>
        ensures { AnswersInTable (λ t. t) (meaning (table_view keys.now)) result };
}

/// A device, a name and instances, and no other key.
impl Entry for ResourceEntry {
    ghost meaning = { spec.read_resource };

    #[tactic(auto, unfolding(crate::specs::Documents::read_resource))]
    fn read(alloc: Global, keys: &Table) -> Result<ResourceEntry, TableError> {
        let device = name_at(alloc, keys, DeployKey::Device)?;
        let name = name_at(alloc, keys, DeployKey::Name)?;
        let instances = names_at(alloc, keys, DeployKey::Instances)?;
        if count_of(keys) != 3 {
            return Err(TableError::At(TableFault::Further));
        }
        Ok(ResourceEntry {
            device,
            name,
            instances,
        })
    }
}

impl Piece for LatencyDraft {
    ghost meaning = { spec.pair };

    #[tactic(auto, unfolding(crate::specs::Documents::pair_of))]
    fn read(_alloc: Global, value: &Value) -> Result<Option<LatencyDraft>, AllocError> {
        let Some(values) = value.as_array() else {
            return Ok(None);
        };
        let [start, ticks] = values.as_slice() else {
            return Ok(None);
        };
        match (start.as_integer(), ticks.as_integer()) {
            (Some(start), Some(ticks)) => Ok(Some(LatencyDraft { start, ticks })),
            _ => Ok(None),
        }
    }
}

/// The same latency at every tick.
fn constant(alloc: Global, value: &Value) -> Result<Items<LatencyDraft>, TableError>
    ensures { AnswersInTable (λ t. t) (spec.of_kind DeployKey.Latency spec.constant (view value.now)) result }
{
    match value.as_integer() {
        Some(ticks) => Ok(Items::from_slice(alloc, &[LatencyDraft { start: 0, ticks }])?),
        None => Err(TableError::At(TableFault::Wrong(DeployKey::Latency))),
    }
}

/// The latencies of a link: the same at every tick, or a table.
#[tactic(auto, unfolding(crate::specs::Documents::table_of))]
fn table_of(alloc: Global, keys: &Table) -> Result<Items<LatencyDraft>, TableError>
    ensures { AnswersInTable (λ t. t) (spec.table_of (locations.value_at (table_view keys.now) DeployKey.Latency) (locations.value_at (table_view keys.now) DeployKey.Latencies)) result }
{
    match (
        value_at(keys, DeployKey::Latency),
        value_at(keys, DeployKey::Latencies),
    ) {
        (Some(ticks), None) => constant(alloc, ticks),
        (None, Some(table)) => array::<LatencyDraft>(alloc, table, DeployKey::Latencies),
        (Some(_), Some(_)) => Err(TableError::At(TableFault::Both)),
        (None, None) => Err(TableError::At(TableFault::Missing(DeployKey::Latency))),
    }
}

/// Two resources and the latencies from the one to the other, and no other key.
impl Entry for LinkDraft {
    ghost meaning = { spec.read_link };

    #[tactic(auto, unfolding(crate::specs::Documents::read_link))]
    fn read(alloc: Global, keys: &Table) -> Result<LinkDraft, TableError> {
        let start = name_at(alloc, keys, DeployKey::From)?;
        let end = name_at(alloc, keys, DeployKey::To)?;
        let table = table_of(alloc, keys)?;
        if count_of(keys) != 3 {
            return Err(TableError::At(TableFault::Further));
        }
        if start.is(&end) {
            return Err(TableError::At(TableFault::Itself));
        }
        Ok(LinkDraft { start, end, table })
    }
}

/// What a value represents, which has to be a table.
fn read_entry<T: Entry>(alloc: Global, value: &Value) -> Result<T, TableError>
    ensures { AnswersInTable (λ t. t) (spec.of_table T.meaning (view value.now)) result }
{
    match value.as_table() {
        Some(keys) => T::read(alloc, keys),
        None => Err(TableError::At(TableFault::NoTable)),
    }
}

/// Returns what was read of the table at an index of the array at a key.
fn placed<T: Drop>(
    key: DeployKey,
    index: usize,
    read: Result<T, TableError>,
) -> Result<T, DeployFault>
    ensures { IsLocated key index read result }
{
    match read {
        Ok(read) => Ok(read),
        Err(error) => Err(in_table(key, index, error)),
    }
}

/// What the tables of the array at a key represent.
fn each_table<T: Entry>(
    alloc: Global,
    values: &[Value],
    key: DeployKey,
) -> Result<Items<T>, DeployFault>
    ensures { AnswersInDocument (λ t. t) (lists.each_in (shape_in key) (spec.of_table T.meaning) 0 (map view values.now)) result }
{
    let mut found = Items::new(alloc);
    for value in values {
        let entry = placed(key, found.len(), read_entry::<T>(alloc, value))?;
        found.push(entry)?;
    }
    Ok(found)
}

/// The tables in the array at a key.
fn tables<T: Entry>(alloc: Global, value: &Value, key: DeployKey) -> Result<Items<T>, DeployFault>
    ensures { AnswersInDocument (λ t. t) (spec.tables_of key (spec.of_table T.meaning) (view value.now)) result }
{
    match value.as_array() {
        Some(values) => each_table::<T>(alloc, values.as_slice(), key),
        None => Err(at_top(TableFault::Wrong(key))),
    }
}

/// The links of a document, if any.
fn links_at(alloc: Global, keys: &Table) -> Result<Items<LinkDraft>, DeployFault>
    ensures { AnswersInDocument (λ t. t) (spec.links_in (locations.value_at (table_view keys.now) DeployKey.Link)) result }
{
    match value_at(keys, DeployKey::Link) {
        Some(links) => tables::<LinkDraft>(alloc, links, DeployKey::Link),
        None => Ok(Items::new(alloc)),
    }
}

fn known_keys(keys: &Table) -> usize
    ensures { result ≡ spec.known_keys (table_view keys.now) }
{
    if value_at(keys, DeployKey::Link).is_some() {
        2
    } else {
        1
    }
}

/// The resources and links of a document.
pub fn draft_of(alloc: Global, keys: &Table) -> Result<PlanDraft, DeployFault>
    ensures value { AnswersInDocument (λ d. d) (spec.draft (table_view keys.now)) result }
    ensures some { IfOk result (λ d. 1 ≤ length d.resources) }
{
    let Some(resources) = value_at(keys, DeployKey::Resource) else {
        return Err(at_top(TableFault::Missing(DeployKey::Resource)));
    };
    let resources = tables::<ResourceEntry>(alloc, resources, DeployKey::Resource)?;
    let links = links_at(alloc, keys)?;
    if count_of(keys) != known_keys(keys) {
        return Err(at_top(TableFault::Further));
    }
    if resources.len() == 0 {
        return Err(at_top(TableFault::Empty));
    }
    Ok(PlanDraft { resources, links })
}
