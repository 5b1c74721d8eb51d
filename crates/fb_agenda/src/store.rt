//! Events outside the queue of the running tick that are no timers: stimuli and messages.
//!
//! Their keys come in any order, mostly rising, and there are usually few of them. A `BTreeMap` puts and finds an event
//! in logarithmic time, at some hundreds of instructions, and fills half of its memory where keys come in rising order.
//! So a few events are kept in a sorted row, and also any number of events that come one after the other, as stimuli do.
//! Only events that belong before the end of a full row go to the map, and those that come while it has any.

ghost use Rattle.std.specs.Prelude.{◌≡◌, ◌<◌, [], IfSome, IfNone, OnOk, OnErr, Some, None};
ghost use Rattle.std.specs.VecDeque.{deque_len, deque_capacity};
ghost use Rattle.std.specs.Bool.{OnFalse, OnTrue};
ghost use Rattle.std.specs.List.{AllByRecursion};
ghost use Rattle.std.specs.Map.{keys_of, lookup};
ghost use Rattle.std.specs.BTreeMap.{insert_entry};
ghost use Rattle.fb_types.specs.Keys.{Precedes, key_cmp, same_key};
ghost use Rattle.fb_agenda.specs.Agendas.{AreRising, IsFirst};
ghost use Rattle.fb_agenda.specs.Lists.{BeginsAt, IsIndexOf, IsPopped, Leads, Sets};
ghost use Rattle.fb_agenda.specs.LeastEvents.{taken};

use crate::least::Least;
use fb_types::{Event, Key};
use std::alloc::{AllocError, Global};
use std::collections::{BTreeMap, VecDeque};
use std::marker::Model;

/// The number of events up to which an event goes to any index of the row: up to here, an insertion in the row costs no
/// more than one in the map.
const FEW: usize = 256;

/// Events under their keys, at most one under each. Contracts see them as a list.
#[derive(Drop)]
pub(crate) struct Store {
    /// Events in the order of their keys.
    row: VecDeque<(Key, Event)>,
    /// The events that did not go to the row.
    map: BTreeMap<Key, Event>,
}

impl Model for Store {
    ghost use Rattle.std.specs.Prelude.{List, ◌++◌};
    ghost use Rattle.fb_types.specs.declared.key.Key.{Key};
    ghost use Rattle.fb_agenda.specs.Lists.{AreSplit};
    ghost use Rattle.fb_types.specs.declared.run.Event.{Event};

    ghost Value = { List (Key × Event) };

    ghost view = { λ c. c.row.items ++ c.map.entries };

    ghost invariant = { λ c. AreSplit c.row.items c.map.entries };
}

/// Reserves room for one more event, if none is left.
#[inline(always)]
pub(crate) fn make_room<T>(row: &mut VecDeque<T>) -> Result<(), AllocError>
    ensures items { row.new.items ≡ row.old.items }
    ensures room { OnOk result (deque_len row.new < deque_capacity row.new) }
{
    if row.len() < row.capacity() {
        return Ok(());
    }
    row.reserve(1)
}

/// The first key of a row.
fn first_of_row(row: &VecDeque<(Key, Event)>) -> Option<&Key>
    requires { AreRising row.now.items }
    ensures some { IfSome result (λ k. IsFirst row.now.items k.now) }
    ensures none { IfNone result (row.now.items ≡ []) }
{
    let (key, _) = row.front()?;
    Some(key)
}

/// The first key of a map.
fn first_of_map(map: &BTreeMap<Key, Event>) -> Option<&Key>
    ensures some { IfSome result (λ k. IsFirst map.now.entries k.now) }
    ensures none { IfNone result (map.now.entries ≡ []) }
{
    let (key, _) = map.first_key_value()?;
    Some(key)
}

/// Whether no event of the map comes before all events of the row.
#[inline(always)]
fn is_row_first(row: &VecDeque<(Key, Event)>, map: &BTreeMap<Key, Event>) -> bool
    requires { AreRising row.now.items }
    ensures row { OnTrue result (Leads row.now.items map.now.entries) }
    ensures map { OnFalse result (Leads map.now.entries row.now.items) }
{
    // Usually all of them are in the row.
    if map.is_empty() {
        return true;
    }
    is_row_before(row, map)
}

/// Whether the first event of the row comes before that of the map, if the map has any.
#[inline(never)]
fn is_row_before(row: &VecDeque<(Key, Event)>, map: &BTreeMap<Key, Event>) -> bool
    requires { AreRising row.now.items }
    ensures row { OnTrue result (Leads row.now.items map.now.entries) }
    ensures map { OnFalse result (Leads map.now.entries row.now.items) }
{
    let Some(other) = first_of_map(map) else {
        return true;
    };
    match first_of_row(row) {
        Some(first) => *first < *other,
        None => false,
    }
}

/// Whether the key comes after all keys of the row.
fn is_past(row: &VecDeque<(Key, Event)>, key: &Key) -> bool
    requires { AreRising row.now.items }
    ensures { OnTrue result (AllByRecursion (λ j. Precedes j key.now) (keys_of row.now.items)) }
{
    match row.back() {
        Some((last, _)) => *last < *key,
        None => true,
    }
}

/// The index of a key, if the row has it.
fn index_of(row: &VecDeque<(Key, Event)>, key: &Key) -> Option<usize>
    requires { AreRising row.now.items }
    ensures there { IfSome result (IsIndexOf row.now.items key.now) }
    ensures absent { IfNone result (lookup (same_key key.now) row.now.items ≡ None) }
{
    row.binary_search_by_key(key, |(other, _)| *other).ok()
}

/// Whether an event goes to the row while the map is empty: one after all others does, however long the row is.
#[inline(always)]
fn fits_in(row: &VecDeque<(Key, Event)>, key: &Key) -> bool
    requires { AreRising row.now.items }
{
    row.len() < FEW || is_past(row, key)
}

/// Puts an event into the row, at the index of its key. At the end this takes constant time.
#[inline(always)]
fn put_in_row(row: &mut VecDeque<(Key, Event)>, key: Key, event: Event) -> Result<(), AllocError>
    requires { AreRising row.old.items }
    ensures ok { OnOk result (row.new.items ≡ insert_entry key_cmp row.old.items key event) }
    ensures absent { OnErr result (lookup (same_key key) row.old.items ≡ None) }
    ensures err { OnErr result (row.new.items ≡ row.old.items) }
{
    if is_past(row, &key) {
        make_room(row)?;
        row.push_back_reserved((key, event));
        Ok(())
    } else {
        put_within(row, key, event)
    }
}

/// Puts an event into the row, at the index of its key, which it finds by binary search.
#[inline(never)]
fn put_within(row: &mut VecDeque<(Key, Event)>, key: Key, event: Event) -> Result<(), AllocError>
    requires { AreRising row.old.items }
    ensures ok { OnOk result (row.new.items ≡ insert_entry key_cmp row.old.items key event) }
    ensures absent { OnErr result (lookup (same_key key) row.old.items ≡ None) }
    ensures err { OnErr result (row.new.items ≡ row.old.items) }
{
    match row.binary_search_by_key(&key, |(other, _)| *other) {
        Ok(index) => {
            row[index] = (key, event);
            Ok(())
        }
        Err(index) => {
            row.insert(index, (key, event))?;
            Ok(())
        }
    }
}

impl Store {
    /// A store without events.
    pub(crate) fn new(alloc: Global) -> Store
        ensures { result ≡ [] }
    {
        Store {
            row: VecDeque::new(alloc),
            map: BTreeMap::new(alloc),
        }
    }

    /// Puts an event under its key. It replaces an event that waits there.
    ///
    /// # Errors
    ///
    /// When memory runs out. The events are then as they were, and the key is not among them.
    #[inline(always)]
    pub(crate) fn put(&mut self, key: Key, event: Event) -> Result<(), AllocError>
        ensures put { OnOk result (Sets key (Some event) self.old self.new) }
        ensures absent { OnErr result (lookup (same_key key) self.old ≡ None) }
        ensures err { OnErr result (self.new ≡ self.old) }
    {
        // Usually all of them are in the row.
        if self.map.is_empty() && fits_in(&self.row, &key) {
            return put_in_row(&mut self.row, key, event);
        }
        self.put_beside(key, event)
    }

    /// The same as `put`, where the map is not empty or gets the event. It is a function of its own since the built
    /// program clears its locals, which are large.
    #[inline(never)]
    fn put_beside(&mut self, key: Key, event: Event) -> Result<(), AllocError>
        ensures put { OnOk result (Sets key (Some event) self.old self.new) }
        ensures absent { OnErr result (lookup (same_key key) self.old ≡ None) }
        ensures err { OnErr result (self.new ≡ self.old) }
    {
        if let Some(index) = index_of(&self.row, &key) {
            self.row[index] = (key, event);
            return Ok(());
        }
        self.map.insert(key, event)?;
        Ok(())
    }

    /// Removes the event under a key, if one waits there, and returns it.
    pub(crate) fn remove(&mut self, key: &Key) -> Option<Event>
        ensures { Sets key.now None self.old self.new }
    {
        let Some(index) = index_of(&self.row, key) else {
            return self.map.remove(key);
        };
        let (_, event) = self.row.remove(index)?;
        Some(event)
    }

    /// The first key.
    #[inline(always)]
    pub(crate) fn first(&self) -> Option<&Key>
        ensures some { IfSome result (λ k. IsFirst self.now k.now) }
        ensures none { IfNone result (self.now ≡ []) }
    {
        if is_row_first(&self.row, &self.map) {
            first_of_row(&self.row)
        } else {
            first_of_map(&self.map)
        }
    }

    /// Removes the event with the first key, and returns it.
    #[inline(always)]
    fn pop_first(&mut self) -> Option<(Key, Event)>
        ensures popped { IsPopped self.old self.new result }
        ensures none { IfNone result (self.old ≡ []) }
    {
        if is_row_first(&self.row, &self.map) {
            self.row.pop_front()
        } else {
            self.map.pop_first()
        }
    }

    /// Takes the event with the first key, if its tick is below the horizon, and moves it into `Least`. Returns whether
    /// it did.
    #[inline(always)]
    pub(crate) fn pop_into(&mut self, horizon: u64, least_event: &mut Least) -> bool
        ensures popped { IsPopped self.old self.new (taken result least_event.new) }
        ensures below { IfSome (taken result least_event.new) (λ r. r.0.tick < horizon) }
        ensures none { IfNone (taken result least_event.new) (BeginsAt horizon self.old) }
    {
        let Some(first) = self.first() else {
            return false;
        };
        if first.tick >= horizon {
            return false;
        }
        least_event.hold(self.pop_first())
    }
}
